//! Logical shifts of a word and of two: bits that are shifted out are lost, and zeros come in.

ghost use Rattle.std.specs.Prelude.{◌≡◌, ℕ, ◌%◌};
ghost use Rattle.arithmetic.specs.Shifts.{shifted_left, shifted_right, shifted_by_signed, hex_places, number, halves};

use crate::fields::low;

/// Two words that are one number of 32 bits.
#[derive(Clone, Copy, PartialEq, Eq, Debug)]
pub struct Double {
    pub high: u16,
    pub low: u16,
}

impl From<Double> for u32 {
    ghost from_gives = { λ x n. n ≡ number x };

    fn from(x: Double) -> u32 {
        u32::from(x.high) * 65536 + u32::from(x.low)
    }
}

impl From<u32> for Double {
    ghost from_gives = { λ n x. x ≡ halves n };

    fn from(n: u32) -> Double {
        Double {
            high: (n / 65536) as u16,
            low: (n % 65536) as u16,
        }
    }
}

/// A number of a width in bits, which is shifted by any number of places.
pub trait LogicalShift: Copy {
    ghost width: { ℕ };

    // The number that a value is, and the value of a number.
    ghost number_of: { Self → ℕ };

    ghost of_number: { ℕ → Self };

    fn shifted_left(self, n: u32) -> Self
        ensures { result ≡ of_number (shifted_left width n (number_of self)) };

    fn shifted_right(self, n: u32) -> Self
        ensures { result ≡ of_number (shifted_right n (number_of self)) };
}

impl LogicalShift for u16 {
    ghost width = { 16 };

    ghost number_of = { λ x. x };

    ghost of_number = { λ n. n };

    fn shifted_left(self, n: u32) -> u16 {
        self.unbounded_shl(n)
    }

    fn shifted_right(self, n: u32) -> u16 {
        self.unbounded_shr(n)
    }
}

impl LogicalShift for Double {
    ghost width = { 32 };

    ghost number_of = { number };

    ghost of_number = { halves };

    fn shifted_left(self, n: u32) -> Double {
        Double::from(u32::from(self).unbounded_shl(n))
    }

    fn shifted_right(self, n: u32) -> Double {
        Double::from(u32::from(self).unbounded_shr(n))
    }
}

// The two lowest bits of `n` count.
fn places(n: u16) -> u32
    ensures { result ≡ hex_places n }
{
    u32::from(4 * (low(n, 2) + 1))
}

/// A number shifted by the signed one in the low byte of `count`: to the left where that is positive, else to the right.
pub fn shift<T: LogicalShift>(count: u16, x: T) -> T
    ensures { result ≡ T.of_number (shifted_by_signed T.width (count % 256) (T.number_of x)) }
{
    let n = (low(count, 8) as u8).cast_signed();
    let places = u32::from(n.unsigned_abs());
    if n < 0 {
        x.shifted_right(places)
    } else {
        x.shifted_left(places)
    }
}

/// A number shifted to the left by one to four hex digits.
pub fn hex_left<T: LogicalShift>(n: u16, x: T) -> T
    ensures { result ≡ T.of_number (shifted_left T.width (hex_places n) (T.number_of x)) }
{
    x.shifted_left(places(n))
}

/// A number shifted to the right by one to four hex digits.
pub fn hex_right<T: LogicalShift>(n: u16, x: T) -> T
    ensures { result ≡ T.of_number (shifted_right (hex_places n) (T.number_of x)) }
{
    x.shifted_right(places(n))
}
