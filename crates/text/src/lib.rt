//! The text of scripts: lines and their words, numbers and bytes, read and printed.

#![tactic(auto)]

pub mod lines;
pub mod numbers;
pub mod outcomes;
pub mod printing;
#[cfg(test)]
mod tests;
