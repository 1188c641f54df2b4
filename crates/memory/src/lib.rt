//! What a memory is: a row of cells, each a word or spoiled; and the makes of memory there are.

#![tactic(auto)]

pub mod fault;
pub mod meaning;
mod numbers;
pub mod plain;
pub mod size;

pub use fault::{MemoryFault, WrongSize};
pub use meaning::Memory;
pub use plain::PlainCore;
pub use size::{is_whole, whole_blocks};
