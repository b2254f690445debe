//! The guard: what it knows of each frame, which calls it refuses, and how an accepted one is carried out and noted.

#![tactic(auto)]

mod accesses;
pub mod calls;
mod changes;
mod drains;
mod framed;
pub mod guarded;
pub mod packed;
mod questions;
pub mod refusals;
pub mod registers;
pub mod scans;
mod table;
