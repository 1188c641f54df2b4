ghost use Rattle.std.specs.Prelude.{◌≡◌};
ghost use Rattle.model.specs.Step.{decoded, decoded_low, decoded_two, decoded_one, decoded_none, without_two, without_one};

use arithmetic::fields::{bits, low};
use model::Operation;

// Bit 0 is 0.
fn decode_low(word: u16) -> Operation
    ensures { result ≡ decoded_low word }
{
    match bits(word, 11, 4) {
        0 => Operation::Jmp,
        1 => Operation::Jsr,
        2 => Operation::Isz,
        3 => Operation::Dsz,
        4..=7 => Operation::Lda,
        8..=11 => Operation::Sta,
        _ => Operation::InputOutput,
    }
}

// The word with 0 in the bits of the two accumulators that it names.
fn code_of_two(word: u16) -> u16
    ensures { result ≡ without_two word }
{
    0o100000 + low(word, 11)
}

// The same where it names one, in bits 3-4.
fn code_of_one(word: u16) -> u16
    ensures { result ≡ without_one word }
{
    bits(word, 13, 3) * 8192 + low(word, 11)
}

fn decode_none(word: u16) -> Option<Operation>
    ensures { result ≡ decoded_none word }
{
    (word == 0o113410).then_some(Operation::Lmp)
}

fn decode_one(word: u16) -> Option<Operation>
    ensures { result ≡ decoded_one word }
{
    Some(match code_of_one(word) {
        0o143370 => Operation::Hlv,
        0o103770 => Operation::Iori,
        0o123770 => Operation::Xori,
        0o143770 => Operation::Andi,
        0o163770 => Operation::Addi,
        _ => return decode_none(word),
    })
}

// Bit 0 is 1 and bits 12-15 are 010.
fn decode_two(word: u16) -> Option<Operation>
    ensures { result ≡ decoded_two word }
{
    Some(match code_of_two(word) {
        0o100010 => Operation::Adi,
        0o100110 => Operation::Sbi,
        0o100210 => Operation::Dad,
        0o100310 => Operation::Dsb,
        0o100410 => Operation::Ior,
        0o100510 => Operation::Xor,
        0o100610 => Operation::Anc,
        0o100710 => Operation::Xch,
        0o101010 => Operation::Sgt,
        0o101110 => Operation::Sge,
        0o101210 => Operation::Lsh,
        0o101310 => Operation::Dlsh,
        0o101410 => Operation::Hxl,
        0o101510 => Operation::Hxr,
        0o101610 => Operation::Dhxl,
        0o101710 => Operation::Dhxr,
        0o102410 => Operation::Lob,
        0o102510 => Operation::Lrb,
        0o102610 => Operation::Cob,
        0o103510 => Operation::Syc,
        _ => return decode_one(word),
    })
}

/// What a word asks for, if it is listed.
pub(crate) fn decode(word: u16) -> Option<Operation>
    ensures { result ≡ decoded word }
{
    if word < 32768 {
        Some(decode_low(word))
    } else if low(word, 4) == 0o10 {
        decode_two(word)
    } else {
        Some(Operation::TwoAccumulator)
    }
}
