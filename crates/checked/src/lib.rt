//! Checked core: a memory whose cells are kept as checked numbers, so that one flip in a cell does no harm.

#![tactic(auto)]

ghost use Rattle.std.specs.Prelude.{◌≡◌, ℕ, ◌<◌, true, false, is_ok, if◌then◌else◌, Ok, Err, vec_len, slice_index, slice_index_or, slice_set};
ghost use Rattle.memory.specs.Cells.{Whole, whole, word as cell_word};
ghost use Rattle.memory.specs.Answers.{reading, writing, written};
ghost use Rattle.memory.specs.Makes.{outcome};
ghost use Rattle.hamming.specs.Hamming.{mended, syndrome_of, word_in, lower, flipped};
ghost use Rattle.checked.specs.Decoded.{checked, Holds, Mends, OneFlip, decoded};
ghost use Rattle.std.proofs.Common.{arith, rules};
ghost use Rattle.hamming.proofs.Linear.{word_lt};

use hamming::{encode, mend, word};
use memory::{Memory, MemoryFault, WrongSize, whole_blocks};

/// Checked core: a list of numbers, each with 21 positions and higher bits that are ignored. Plain core and
/// this one are no two instances of one generic core: what a read and a write leave of a number is promised here alone.
#[derive(Drop)]
pub struct CheckedCore {
    numbers: Vec<u32>,
    ghost blocks: { Whole (vec_len numbers) },
}

impl CheckedCore {
    /// A core of the numbers handed in, 1 to 127 whole blocks of them; else they come back.
    #[tactic(auto, using(crate::proofs::Decodes::one_flip))]
    pub fn new(numbers: Vec<u32>) -> Result<CheckedCore, WrongSize<Vec<u32>>>
        ensures answer { outcome (λ m. checked m.numbers.items) result ≡ (if whole (vec_len numbers) then Ok (checked numbers.items) else Err numbers) }
        ensures flip { OneFlip }
    {
        let numbers = whole_blocks(numbers)?;
        Ok(CheckedCore { numbers })
    }
}

impl Memory for CheckedCore {
    ghost cells = { λ m. checked m.numbers.items };

    ghost whole = { first_of (Prim.search rules, Prim.grind (arith, Self.row.coded.inj)) };

    ghost beyond = { first_of (Prim.search rules, Prim.grind (arith, Self.row.coded.inj)) };

    ghost fits = { unfold decoded in
        λ m n w e.
        let x : ℕ = slice_index_or m.numbers.items n 0 in
        let a : word_in (lower x) < 65536 = word_lt (lower x) in
        let b : word_in (flipped (lower x) (syndrome_of x)) < 65536 = word_lt (flipped (lower x) (syndrome_of x)) in
        Prim.grind (arith, rules) };

    fn size(&self) -> usize {
        self.numbers.len()
    }

    /// The word of a cell, whose number is left mended; a spoiled number stays as it is.
    fn read(&mut self, at: usize) -> Result<u16, MemoryFault>
        ensures answer { result ≡ reading (checked self.old.numbers.items) at }
        ensures after { checked self.new.numbers.items ≡ checked self.old.numbers.items }
        ensures leaves { self.new.numbers.items ≡ (if is_ok result then slice_set self.old.numbers.items at (mended (slice_index self.old.numbers.items at)) else self.old.numbers.items) }
        ensures mends { is_ok result ≡ true → Mends (slice_index self.old.numbers.items at) (slice_index self.new.numbers.items at) }
    {
        let number = self.numbers.get_mut(at).ok_or(MemoryFault::Range)?;
        let mended = mend(*number).ok_or(MemoryFault::Spoiled)?;
        *number = mended;
        Ok(word(mended))
    }

    /// Leaves a sound number that holds the word and has no higher bits.
    fn write(&mut self, at: usize, value: u16) -> Result<(), MemoryFault>
        ensures answer { result ≡ writing (checked self.old.numbers.items) at }
        ensures after { checked self.new.numbers.items ≡ written (checked self.old.numbers.items) at (cell_word value) }
        ensures leaves { is_ok result ≡ true → (n : ℕ) × Holds n value × (self.new.numbers.items ≡ slice_set self.old.numbers.items at n) }
        ensures keeps { is_ok result ≡ false → self.new.numbers.items ≡ self.old.numbers.items }
    {
        let number = self.numbers.get_mut(at).ok_or(MemoryFault::Range)?;
        *number = encode(value);
        Ok(())
    }
}
