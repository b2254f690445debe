//! The machine: a guarded memory, its registers and a policy, and the calls on them.

#![tactic(auto)]

pub mod machine;
pub mod run;
