//! Mapped access and the addresses of operands, over any memory.

#![tactic(auto)]

pub mod address;
pub mod mapped;
