//! Paging: what an entry of a page table says, and how an address finds its word.

#![tactic(auto)]

pub mod addresses;
pub mod entries;
pub mod faults;
pub mod parts;
pub mod walk;
