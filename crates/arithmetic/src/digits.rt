//! Decimal digits, one in the four lowest bits of a word.

ghost use Rattle.std.specs.Prelude.{◌≡◌};
ghost use Rattle.arithmetic.specs.Digits.{digit_added, digit_subtracted, with_digit};

use crate::fields::low;
use crate::unit::Wide;

// The other twelve bits of the word stay.
fn replaced(word: u16, digit: u16) -> u16
    ensures { result ≡ with_digit word digit }
{
    word - low(word, 4) + low(digit, 4)
}

/// The digit of `s` and the carry added to the digit of the word; a sum over 9 carries.
pub fn add_digit(s: u16, d: Wide) -> Wide
    ensures { result ≡ digit_added d.carry s d.word }
{
    let sum = low(s, 4) + low(d.word, 4) + u16::from(d.carry);
    let over = sum > 9;
    Wide {
        carry: over,
        word: replaced(d.word, if over { sum + 6 } else { sum }),
    }
}

/// The digit of `s`, and one more where there is no carry, subtracted from the digit of the word;
/// a difference below 0 leaves no carry.
pub fn subtract_digit(s: u16, d: Wide) -> Wide
    ensures { result ≡ digit_subtracted d.carry s d.word }
{
    // 16 more than the difference
    let raised = 15 + low(d.word, 4) + u16::from(d.carry) - low(s, 4);
    let enough = raised >= 16;
    Wide {
        carry: enough,
        word: replaced(d.word, if enough { raised } else { raised + 10 }),
    }
}
