ghost use Rattle.std.specs.Prelude.{◌≡◌, ◌/◌, ◌%◌, ◌^◌};

/// The lowest `count` bits of a word.
pub fn low(word: u16, count: u32) -> u16
    ensures { result ≡ word % 2 ^ count }
{
    if count < 16 {
        word & ((1 << count) - 1)
    } else {
        word
    }
}

/// The `count` bits of a word above its `from` lowest ones.
pub fn bits(word: u16, from: u32, count: u32) -> u16
    ensures { result ≡ word / 2 ^ from % 2 ^ count }
{
    low(word.unbounded_shr(from), count)
}
