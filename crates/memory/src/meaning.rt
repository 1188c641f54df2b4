ghost use Rattle.std.specs.Prelude.{◌≡◌, ℕ, ◌<◌, ◌≤◌};
ghost use Rattle.memory.specs.Cells.{Cell, word, spoiled, Whole, Row};
ghost use Rattle.memory.specs.Answers.{reading, writing, written};

use crate::fault::MemoryFault;

/// What any memory does, said of the row of cells that it means.
pub trait Memory {
    ghost cells: { Self → Row };

    /// How many cells there are.
    fn size(&self) -> usize
        ensures { result ≡ (cells self.now).size };

    /// The word of a cell. No cell changes, though a make may mend what it keeps of one.
    fn read(&mut self, at: usize) -> Result<u16, MemoryFault>
        ensures answer { result ≡ reading (cells self.old) at }
        ensures after { cells self.new ≡ cells self.old };

    /// Makes one cell the given word, spoiled or not, and touches no other.
    fn write(&mut self, at: usize, value: u16) -> Result<(), MemoryFault>
        ensures answer { result ≡ writing (cells self.old) at }
        ensures after { cells self.new ≡ written (cells self.old) at (word value) };

    ghost whole: { (m : Self) → Whole (cells m).size };

    ghost beyond: { (m : Self) (n : ℕ) → (cells m).size ≤ n → (cells m).at n ≡ spoiled };

    ghost fits: { (m : Self) (n w : ℕ) → (cells m).at n ≡ word w → w < 65536 };
}
