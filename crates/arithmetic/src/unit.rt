//! The two-accumulator operations: a function of two words, with a carry before it and a shift after it.

ghost use Rattle.std.specs.Prelude.{◌≡◌, ◌+◌, ◌/◌, ◌%◌};
ghost use Rattle.arithmetic.specs.Unit.{split, of_carry, computed, base_carry, shifted, skips_on, function_of, shift_of, base_of, skip_of, operated, skipping};

use crate::fields::{bits, low};
use crate::pointers::is_one;

/// Carry and a word: a number of 17 bits.
#[derive(Clone, Copy, PartialEq, Eq, Debug)]
pub struct Wide {
    pub carry: bool,
    pub word: u16,
}

/// Bits 5-7 of the word.
#[derive(Clone, Copy)]
enum Function {
    Com,
    Neg,
    Mov,
    Inc,
    Adc,
    Sub,
    Add,
    And,
}

/// Bits 8-9: what becomes of the 17 bits.
#[derive(Clone, Copy)]
enum Shift {
    Straight,
    Left,
    Right,
    Swap,
}

/// Bits 10-11: the carry that the function begins with.
#[derive(Clone, Copy)]
enum CarryBase {
    Keep,
    Zero,
    One,
    Complement,
}

/// Bits 13-15: when the next word is skipped.
#[derive(Clone, Copy)]
enum Skip {
    Never,
    Always,
    CarryZero,
    CarryOne,
    ResultZero,
    ResultNot,
    EitherZero,
    BothNot,
}

impl Wide {
    // A sum over 65,535 complements the carry.
    fn sum(carry: bool, a: u16, b: u16) -> Wide
        ensures { result ≡ split (of_carry carry + a + b) }
    {
        let word = a.wrapping_add(b);
        Wide {
            carry: carry != (word < a),
            word,
        }
    }
}

// Named `of`, here and below, and no `From<u16>`: a word is not a function, a shift, a carry base or a skip, but has a
// field for each.
impl Function {
    fn of(word: u16) -> Function
        ensures { result ≡ function_of (word / 256 % 8) }
    {
        match bits(word, 8, 3) {
            0 => Function::Com,
            1 => Function::Neg,
            2 => Function::Mov,
            3 => Function::Inc,
            4 => Function::Adc,
            5 => Function::Sub,
            6 => Function::Add,
            _ => Function::And,
        }
    }

    fn apply(self, carry: bool, s: u16, d: u16) -> Wide
        ensures { result ≡ split (computed self (of_carry carry) s d) }
    {
        match self {
            Function::Com => Wide { carry, word: !s },
            Function::Neg => Wide::sum(carry, !s, 1),
            Function::Mov => Wide { carry, word: s },
            Function::Inc => Wide::sum(carry, s, 1),
            Function::Adc => Wide::sum(carry, !s, d),
            Function::Sub => {
                let part = Wide::sum(carry, !s, d);
                Wide::sum(part.carry, part.word, 1)
            }
            Function::Add => Wide::sum(carry, s, d),
            Function::And => Wide { carry, word: s & d },
        }
    }
}

impl Shift {
    fn of(word: u16) -> Shift
        ensures { result ≡ shift_of (word / 64 % 4) }
    {
        match bits(word, 6, 2) {
            0 => Shift::Straight,
            1 => Shift::Left,
            2 => Shift::Right,
            _ => Shift::Swap,
        }
    }

    fn apply(self, x: Wide) -> Wide
        ensures { result ≡ split (shifted self (of_carry x.carry + x.word)) }
    {
        match self {
            Shift::Straight => x,
            Shift::Left => Wide {
                carry: x.word >= 32768,
                word: (x.word << 1) | u16::from(x.carry),
            },
            Shift::Right => Wide {
                carry: is_one(15, x.word),
                word: (x.word >> 1) | (u16::from(x.carry) << 15),
            },
            Shift::Swap => Wide {
                carry: x.carry,
                word: x.word.swap_bytes(),
            },
        }
    }
}

impl CarryBase {
    fn of(word: u16) -> CarryBase
        ensures { result ≡ base_of (word / 16 % 4) }
    {
        match bits(word, 4, 2) {
            0 => CarryBase::Keep,
            1 => CarryBase::Zero,
            2 => CarryBase::One,
            _ => CarryBase::Complement,
        }
    }

    fn apply(self, carry: bool) -> bool
        ensures { result ≡ base_carry self carry }
    {
        match self {
            CarryBase::Keep => carry,
            CarryBase::Zero => false,
            CarryBase::One => true,
            CarryBase::Complement => !carry,
        }
    }
}

impl Skip {
    fn of(word: u16) -> Skip
        ensures { result ≡ skip_of (word % 8) }
    {
        match low(word, 3) {
            0 => Skip::Never,
            1 => Skip::Always,
            2 => Skip::CarryZero,
            3 => Skip::CarryOne,
            4 => Skip::ResultZero,
            5 => Skip::ResultNot,
            6 => Skip::EitherZero,
            _ => Skip::BothNot,
        }
    }

    fn holds(self, x: Wide) -> bool
        ensures { result ≡ skips_on self x.carry x.word }
    {
        match self {
            Skip::Never => false,
            Skip::Always => true,
            Skip::CarryZero => !x.carry,
            Skip::CarryOne => x.carry,
            Skip::ResultZero => x.word == 0,
            Skip::ResultNot => x.word != 0,
            Skip::EitherZero => !x.carry || x.word == 0,
            Skip::BothNot => x.carry && x.word != 0,
        }
    }
}

/// What a two-accumulator word makes of the source and of the destination with the carry.
pub fn operate(word: u16, s: u16, d: Wide) -> Wide
    ensures { result ≡ operated word d.carry s d.word }
{
    let carry = CarryBase::of(word).apply(d.carry);
    let x = Function::of(word).apply(carry, s, d.word);
    Shift::of(word).apply(x)
}

/// Whether a two-accumulator word with that result skips the next word.
pub fn skips(word: u16, x: Wide) -> bool
    ensures { result ≡ skipping word x }
{
    Skip::of(word).holds(x)
}
