//! Reads console scripts and carries them out, line by line.

#![tactic(auto)]

pub mod calls;
pub mod commands;
pub mod listings;
mod machines;
mod operands;
pub mod pictures;
pub mod replies;
pub mod session;
pub mod supplied;
