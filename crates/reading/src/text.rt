ghost use Rattle.std.specs.Prelude.{◌≡◌, ℕ, ◌+◌, ◌<◌, ◌≤◌, length, IfSome};
ghost use Rattle.reading.specs.Spelling.{ReadsWhatIsWritten};
ghost use Rattle.reading.specs.Read.{after, left, opened, digit, number, field, fields, row, taken};

use crate::row::{Fields, Row};

/// The first line of a sheet, with its newline.
const FIRST_LINE: &[u8] = b"do user at word\n";

/// The most bytes that a sheet may have: one of more is too long.
const LONGEST: usize = 4096;

/// The most that a number may be before a further digit, so that it stays at most 0177777.
const BEFORE_LAST: u16 = 0o17777;

/// What follows `word` in the text, if the text begins with it.
// Byte by byte, though the library has `strip_prefix`: a reader that lets other bytes pass differs from this one in one test.
pub fn after_word<'a>(text: &'a [u8], word: &[u8]) -> Option<&'a [u8]>
    ensures value { left result ≡ after word.now text.now }
    ensures shorter { IfSome result (λ p. length p.now ≤ length text.now) }
{
    let mut rest = text;
    let mut wanted = word;
    while let [w, more @ ..] = wanted {
        let [b, tail @ ..] = rest else {
            return None;
        };
        if *b != *w {
            return None;
        }
        rest = tail;
        wanted = more;
    }
    Some(rest)
}

/// What follows the first line of a sheet. One of more than 4,096 bytes is too long, whatever they are; another
/// first line is wrong. The first line alone is a sheet of no rows.
pub fn open_sheet(sheet: &[u8]) -> Option<&[u8]>
    ensures value { left result ≡ opened sheet.now }
    ensures bound { IfSome result (λ p. length p.now ≤ 4096) }
{
    if sheet.len() > LONGEST {
        return None;
    }
    after_word(sheet, FIRST_LINE)
}

// Each reader answers what it took and what follows it. A cursor that they moved would be no plainer: it would have to be
// said what it is left at where a reader refuses.

/// An octal digit, and what follows it.
#[tactic(auto, unfolding(crate::specs::Read::digit))]
fn read_digit(text: &[u8]) -> Option<(u16, &[u8])>
    ensures value { taken result ≡ digit text.now }
    ensures bound { IfSome result (λ p. p.0 < 8) }
{
    let [b @ b'0'..=b'7', rest @ ..] = text else {
        return None;
    };
    Some((u16::from(*b - b'0'), rest))
}

/// An octal number of one to six digits, at most 0177777, and what follows it. Leading zeros count as digits.
#[tactic(auto, unfolding(crate::specs::Read::number))]
fn read_number(text: &[u8]) -> Option<(u16, &[u8])>
    ensures { taken result ≡ number text.now }
{
    let (mut value, mut rest) = read_digit(text)?;
    for _ in 0..5u8 {
        let Some((d, tail)) = read_digit(rest) else {
            return Some((value, rest));
        };
        if value > BEFORE_LAST {
            return None;
        }
        value = value * 8 + d;
        rest = tail;
    }
    Some((value, rest))
}

/// A number and the text that ends it.
fn read_field<'a>(text: &'a [u8], end: &[u8]) -> Option<(u16, &'a [u8])>
    ensures { taken result ≡ field end.now text.now }
{
    let (n, rest) = read_number(text)?;
    Some((n, after_word(rest, end)?))
}

/// The four numbers of a row, with one space between and a newline after.
fn read_fields(text: &[u8]) -> Option<(Fields, &[u8])>
    ensures { taken result ≡ fields text.now }
{
    let (act, rest) = read_field(text, b" ")?;
    let (user, rest) = read_field(rest, b" ")?;
    let (at, rest) = read_field(rest, b" ")?;
    let (word, rest) = read_field(rest, b"\n")?;
    Some((
        Fields {
            act,
            user,
            at,
            word,
        },
        rest,
    ))
}

/// A row of a sheet, and what follows it: four octal numbers of one to six digits, each at most 0177777, with one
/// space between and a newline after, that ask for something. An empty line is wrong, and so is a row without its
/// newline. The law: just the texts so written are read as four numbers, and as the numbers that they write.
#[tactic(auto, using(crate::proofs::Spelt::reads_what_is_written, crate::proofs::Spelt::fields_shorter), unfolding(crate::specs::Read::row))]
pub fn read_row(text: &[u8]) -> Option<(Row, &[u8])>
    ensures value { taken result ≡ row text.now }
    ensures shorter { IfSome result (λ p. length p.1.now < length text.now) }
    ensures law { ReadsWhatIsWritten }
{
    let (f, rest) = read_fields(text)?;
    Some((f.meaning()?, rest))
}
