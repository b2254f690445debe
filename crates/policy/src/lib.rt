//! Write policies: which bytes of a protected region may still be written.

#![tactic(auto)]

pub mod append_only;
pub mod free;
pub mod history;
pub mod pair;
pub mod span;
#[cfg(test)]
mod tests;
pub mod traits;
pub mod write_once;
