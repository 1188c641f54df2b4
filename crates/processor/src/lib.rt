//! Steps and runs, over any memory.

#![tactic(auto)]

pub mod run;
