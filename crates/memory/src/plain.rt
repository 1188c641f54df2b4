ghost use Rattle.std.specs.Prelude.{◌≡◌, ℕ, if◌then◌else◌, Ok, Err, vec_len};
ghost use Rattle.memory.specs.Cells.{Row, Whole, whole, sound};
ghost use Rattle.memory.specs.Makes.{outcome};
ghost use Rattle.std.proofs.Common.{rules, arith};

use crate::fault::{MemoryFault, WrongSize};
use crate::meaning::Memory;
use crate::size::whole_blocks;

/// Plain core: a list of words, none of them spoiled.
#[derive(Drop)]
pub struct PlainCore {
    words: Vec<u16>,
    ghost blocks: { Whole (vec_len words) },
}

impl PlainCore {
    /// A core of the words handed in, 1 to 127 whole blocks of them; else they come back.
    pub fn new(words: Vec<u16>) -> Result<PlainCore, WrongSize<Vec<u16>>>
        ensures { outcome (λ m. sound m.words.items) result ≡ (if whole (vec_len words) then Ok (sound words.items) else Err words) }
    {
        let words = whole_blocks(words)?;
        Ok(PlainCore { words })
    }
}

impl Memory for PlainCore {
    ghost cells = { λ m. sound m.words.items };

    ghost whole = { first_of (Prim.search rules, Prim.grind (arith, Self.row.coded.inj)) };

    ghost beyond = { first_of (Prim.search rules, Prim.grind (arith, Self.row.coded.inj)) };

    ghost fits = { first_of (Prim.search rules, Prim.grind (arith, Self.row.coded.inj)) };

    fn size(&self) -> usize {
        self.words.len()
    }

    fn read(&mut self, at: usize) -> Result<u16, MemoryFault> {
        self.words.get(at).copied().ok_or(MemoryFault::Range)
    }

    fn write(&mut self, at: usize, value: u16) -> Result<(), MemoryFault> {
        let word = self.words.get_mut(at).ok_or(MemoryFault::Range)?;
        *word = value;
        Ok(())
    }
}
