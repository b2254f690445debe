//! A scanner for code that cannot change the processor's protection.
//!
//! A run of bytes passes where 0F never has 22 or 30 behind it, and 0F 01 never a byte of 18 to 1F, 58 to 5F or 98 to 9F,
//! and where neither 0F nor 0F 01 ends it.

#![tactic(auto)]

pub mod classes;
pub mod scan;
#[cfg(test)]
mod tests;

pub use classes::{ByteClass, class};
pub use scan::{Forbidden, Scanner, State, passes};
