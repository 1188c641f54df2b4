//! The accumulators that a word names, and the PC. Registers and a word are two parameters here
//! and no struct: it would borrow the registers, and each contract would have to say that it still borrows the same ones.

ghost use Rattle.std.specs.Prelude.{◌≡◌, ℕ, ◌<◌};
ghost use Rattle.model.specs.Address.{moved};
ghost use Rattle.model.specs.declared.steps.Outcome.{Outcome};
ghost use Rattle.model.specs.declared.user.Registers.{Registers};
ghost use Rattle.model.specs.Step.{source, destination, skip_if as skipping_if, sourced, aimed, loaded_with, wide, with_wide, doubled, with_double};

use arithmetic::fields::{bits, low};
use arithmetic::shifts::Double;
use arithmetic::unit::Wide;
use model::{Outcome, Registers};

// One function for each field, and not one that is given a field's place: the names say what the bits are.
pub(crate) fn source_of(word: u16) -> usize
    ensures value { result ≡ source word }
    ensures bound { result < 4 }
{
    bits(word, 13, 2) as usize
}

pub(crate) fn destination_of(word: u16) -> usize
    ensures value { result ≡ destination word }
    ensures bound { result < 4 }
{
    bits(word, 11, 2) as usize
}

pub(crate) fn source_in(r: &Registers, word: u16) -> u16
    ensures { result ≡ sourced r.now word }
{
    r.ac[source_of(word)]
}

pub(crate) fn move_on(r: &mut Registers, by: u16)
    ensures { r.new ≡ moved r.old by }
{
    r.pc = low(r.pc.wrapping_add(by), 15);
}

/// The next word is skipped where `skips` holds.
pub(crate) fn skip_if(r: &mut Registers, skips: bool) -> Outcome
    ensures { (result, r.new) ≡ skipping_if skips r.old }
{
    move_on(r, if skips { 2 } else { 1 });
    Outcome::Next
}

/// What an instruction finds at its destination and leaves there.
pub(crate) trait Destination: Copy {
    ghost aimed_at: { Registers → ℕ → Self };

    ghost loaded: { Registers → ℕ → Self → Outcome × Registers };

    fn read(r: &Registers, word: u16) -> Self
        ensures { result ≡ aimed_at r.now word };

    /// The destination becomes the value, and the program goes on.
    fn load(self, r: &mut Registers, word: u16) -> Outcome
        ensures { (result, r.new) ≡ loaded r.old word self };
}

/// The word of the destination.
impl Destination for u16 {
    ghost aimed_at = { aimed };

    ghost loaded = { loaded_with };

    fn read(r: &Registers, word: u16) -> u16 {
        r.ac[destination_of(word)]
    }

    fn load(self, r: &mut Registers, word: u16) -> Outcome {
        r.ac[destination_of(word)] = self;
        move_on(r, 1);
        Outcome::Next
    }
}

/// The word of the destination, with the carry.
impl Destination for Wide {
    ghost aimed_at = { wide };

    ghost loaded = { with_wide };

    fn read(r: &Registers, word: u16) -> Wide {
        Wide {
            carry: r.carry,
            word: u16::read(r, word),
        }
    }

    fn load(self, r: &mut Registers, word: u16) -> Outcome {
        r.carry = self.carry;
        self.word.load(r, word)
    }
}

/// The destination and the accumulator after it, AC0 after AC3, as one number of 32 bits.
impl Destination for Double {
    ghost aimed_at = { doubled };

    ghost loaded = { with_double };

    fn read(r: &Registers, word: u16) -> Double {
        let n = destination_of(word);
        Double {
            high: r.ac[n],
            low: r.ac[(n + 1) % 4],
        }
    }

    fn load(self, r: &mut Registers, word: u16) -> Outcome {
        let n = destination_of(word);
        r.ac[n] = self.high;
        r.ac[(n + 1) % 4] = self.low;
        move_on(r, 1);
        Outcome::Next
    }
}
