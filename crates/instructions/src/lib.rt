//! What each word does: decoding, and the instructions, over any memory.

#![tactic(auto)]

mod accumulators;
mod decode;
pub mod execution;
mod registers;
