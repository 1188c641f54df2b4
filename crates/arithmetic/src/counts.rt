//! Counts of the bits of a word.

ghost use Rattle.std.specs.Prelude.{◌≡◌, ◌+◌, ◌%◌, count_ones};
ghost use Rattle.std.specs.Int.Count.{count_leading_zeros};
ghost use Rattle.arithmetic.specs.Counts.{without_leading_one};

/// `d` and the number of zeros above the highest one of `s`, which is 16 of 0.
pub fn add_leading_zeros(s: u16, d: u16) -> u16
    ensures { result ≡ (d + count_leading_zeros 16 s) % 65536 }
{
    d.wrapping_add(s.leading_zeros() as u16)
}

/// `d` and the number of ones of `s`.
pub fn add_ones(s: u16, d: u16) -> u16
    ensures { result ≡ (d + count_ones s) % 65536 }
{
    d.wrapping_add(s.count_ones() as u16)
}

/// A word without its highest one; 0 stays.
pub fn reset_leading_one(s: u16) -> u16
    ensures { result ≡ without_leading_one s }
{
    if s == 0 {
        0
    } else {
        s - (1 << (15 - s.leading_zeros()))
    }
}
