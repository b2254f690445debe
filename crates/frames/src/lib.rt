//! What frames are: their kinds, the levels of page tables, regions, the figures of a machine's frames, and the
//! subject's numbers.

#![tactic(auto)]

pub mod figures;
pub mod kinds;
pub mod numbers;
pub mod regions;
