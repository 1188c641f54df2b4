//! An interleaved pair: two memories of equal size joined into one.

#![tactic(auto)]

ghost use Rattle.std.specs.Prelude.{◌≡◌, ◌/◌, ◌<◌, if◌then◌else◌, Ok, Err};
ghost use Rattle.memory.specs.Makes.{outcome};
ghost use Rattle.paired.specs.Pairs.{paired, interleaved, level};
ghost use Rattle.std.proofs.Common.{arith, rules};
ghost use Rattle.memory.specs.Cells.{word};

use memory::{Memory, MemoryFault, WrongSize};

// The most blocks that each half may have, so that both have at most 127.
const MOST: usize = 63 * 1024;

/// Even address n is cell n / 2 of the first memory, odd n is cell (n - 1) / 2 of the second. That the two fit is known
/// from `new` and is no invariant of the type, which would then ask of all who name it that `F` and `S` are memories.
#[derive(Drop)]
pub struct Pair<F, S> {
    first: F,
    second: S,
}

impl<F: Memory, S: Memory> Pair<F, S> {
    /// Joins two memories of equal size that have at most 127 blocks together; else both come back.
    pub fn new(first: F, second: S) -> Result<Pair<F, S>, WrongSize<(F, S)>>
        ensures { outcome (λ p. paired (F.Memory.cells p.first) (S.Memory.cells p.second)) result ≡ (if level (F.Memory.cells first) (S.Memory.cells second) then Ok (interleaved (F.Memory.cells first) (S.Memory.cells second)) else Err (first, second)) }
    {
        let size = first.size();
        if size == second.size() && size + size <= 127 * 1024 {
            Ok(Pair { first, second })
        } else {
            Err(WrongSize {
                back: (first, second),
            })
        }
    }
}

impl<F: Memory, S: Memory> Memory for Pair<F, S> {
    ghost cells = { λ p. paired (F.Memory.cells p.first) (S.Memory.cells p.second) };

    ghost whole = { Prim.search rules };

    ghost beyond = { Prim.search rules };

    ghost fits = { λ m n w e.
        let f : (F.Memory.cells m.first).at (n / 2) ≡ word w → w < 65536 = F.Memory.fits m.first (n / 2) w in
        let s : (S.Memory.cells m.second).at (n / 2) ≡ word w → w < 65536 = S.Memory.fits m.second (n / 2) w in
        Prim.grind (arith, rules) };

    fn size(&self) -> usize {
        2 * self.first.size().min(self.second.size()).min(MOST)
    }

    fn read(&mut self, at: usize) -> Result<u16, MemoryFault> {
        if at >= self.size() {
            return Err(MemoryFault::Range);
        }
        if at % 2 == 0 {
            self.first.read(at / 2)
        } else {
            self.second.read(at / 2)
        }
    }

    fn write(&mut self, at: usize, value: u16) -> Result<(), MemoryFault> {
        if at >= self.size() {
            return Err(MemoryFault::Range);
        }
        if at % 2 == 0 {
            self.first.write(at / 2, value)
        } else {
            self.second.write(at / 2, value)
        }
    }
}
