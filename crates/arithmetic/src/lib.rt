//! Pure functions on words of 16 bits.

#![tactic(auto)]

pub mod counts;
pub mod digits;
pub mod fields;
pub mod pointers;
pub mod shifts;
pub mod signed;
pub mod unit;
