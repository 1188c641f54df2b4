//! Words as signed numbers, in two's complement.

ghost use Rattle.std.specs.Prelude.{◌≡◌, int_le, int_lt};
ghost use Rattle.arithmetic.specs.Signed.{halved, integer};

/// The signed number of a word divided by 2, and rounded toward 0.
pub fn halve(d: u16) -> u16
    ensures { result ≡ halved d }
{
    (d.cast_signed() / 2).cast_unsigned()
}

/// Whether `s` is greater than `d`, as signed numbers.
pub fn is_greater(s: u16, d: u16) -> bool
    ensures { result ≡ int_lt (integer d) (integer s) }
{
    s.cast_signed() > d.cast_signed()
}

/// Whether `s` is greater than `d` or equal to it, as signed numbers.
pub fn is_at_least(s: u16, d: u16) -> bool
    ensures { result ≡ int_le (integer d) (integer s) }
{
    s.cast_signed() >= d.cast_signed()
}
