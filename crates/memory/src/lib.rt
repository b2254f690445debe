//! Memories: frames of 512 words of 64 bits, read and written word by word.

#![tactic(auto)]

pub mod bytes;
pub mod items;
pub mod kinds;
pub mod list;
#[cfg(test)]
mod tests;
pub mod traits;
