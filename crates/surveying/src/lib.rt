//! A search for spoiled cells.

#![tactic(auto)]

ghost use Rattle.std.specs.Prelude.{◌≡◌};
ghost use Rattle.surveying.specs.Survey.{Surveyed};

use memory::{Memory, MemoryFault};

/// The address of some spoiled cell, or none if there is none. Which one is free, and so is which numbers a make mends
/// on the way; every cell is as before.
pub fn survey<M: Memory>(memory: &mut M) -> Option<usize>
    ensures answer { Surveyed (M.Memory.cells memory.old) result }
    ensures after { M.Memory.cells memory.new ≡ M.Memory.cells memory.old }
{
    // A loop: nothing is known of a memory after the closure of a `find` has read it.
    for at in 0..memory.size() {
        if let Err(MemoryFault::Spoiled) = memory.read(at) {
            return Some(at);
        }
    }
    None
}
