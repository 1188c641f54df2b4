//! A bit and a byte of a word, by the pointer to it. Pointer and word are two arguments: they come from different places,
//! and a struct would only wrap them.

ghost use Rattle.std.specs.Prelude.{◌≡◌, ◌%◌};
ghost use Rattle.arithmetic.specs.Pointers.{weight, bit_is_one, with_one, with_zero, byte_in, with_byte};

use crate::fields::low;

// The four lowest bits of a bit pointer are the number of the bit, from the highest.
fn mask_of(pointer: u16) -> u16
    ensures { result ≡ weight pointer }
{
    1 << (15 - low(pointer, 4))
}

/// Whether the bit is one.
pub fn is_one(pointer: u16, word: u16) -> bool
    ensures { result ≡ bit_is_one pointer word }
{
    word & mask_of(pointer) != 0
}

/// The word with that bit one.
pub fn set_bit(pointer: u16, word: u16) -> u16
    ensures { result ≡ with_one pointer word }
{
    word | mask_of(pointer)
}

/// The word with that bit zero.
pub fn clear_bit(pointer: u16, word: u16) -> u16
    ensures { result ≡ with_zero pointer word }
{
    word & !mask_of(pointer)
}

/// The byte, which is the high one where the pointer is even.
pub fn byte_of(pointer: u16, word: u16) -> u16
    ensures { result ≡ byte_in pointer word }
{
    if low(pointer, 1) == 0 {
        word >> 8
    } else {
        low(word, 8)
    }
}

/// The word with that byte, of which eight bits count.
pub fn set_byte(pointer: u16, word: u16, byte: u16) -> u16
    ensures { result ≡ with_byte pointer word (byte % 256) }
{
    if low(pointer, 1) == 0 {
        (low(byte, 8) << 8) | low(word, 8)
    } else {
        ((word >> 8) << 8) | low(byte, 8)
    }
}
