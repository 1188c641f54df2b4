//! The checked number: 21 positions that hold a word and its checks, so that one flipped position is found.

#![tactic(auto)]

ghost use Rattle.std.specs.Prelude.{◌≡◌, ◌^◌, ◌<◌};
ghost use Rattle.std.specs.Option.{SomeIff};
ghost use Rattle.hamming.specs.Hamming.{syndrome_of, word_in, mended, MendedSound, FlipFound};

/// The first syndrome that names no position: from here on a number is spoiled.
const SPOILED: u32 = 22;

/// The exclusive or of the positions that hold a one, of which position `k + 1` has the weight 2 to the `k`.
pub fn syndrome(n: u32) -> u32
    ensures is { result ≡ syndrome_of n }
    ensures low { result < 32 }
{
    let mut s = 0;
    for k in 0..21 {
        if n >> k & 1 == 1 {
            s ^= k + 1;
        }
    }
    s
}

/// The number with no higher bits and the position that its syndrome names turned over, unless it is spoiled.
#[tactic(auto, using(crate::proofs::Codes::mended_syndrome, crate::proofs::Codes::mended_lt, crate::proofs::Codes::flip_found, crate::proofs::Codes::mended_whole, crate::proofs::Codes::mended_part))]
pub fn mend(n: u32) -> Option<u32>
    ensures answer { SomeIff result (syndrome_of n < 22) (mended n) }
    ensures sound { MendedSound }
    ensures flip { FlipFound }
{
    let lower = n & 0x1f_ffff;
    match syndrome(n) {
        0 => Some(lower),
        s @ 1..SPOILED => Some(lower ^ 1 << (s - 1)),
        _ => None,
    }
}

/// The word that the positions 3, 5 to 7, 9 to 15 and 17 to 21 hold, its highest bit first.
pub fn word(n: u32) -> u16
    ensures { result ≡ word_in n }
{
    let bits = n >> 2 & 0x1 ^ n >> 3 & 0xe ^ n >> 4 & 0x7f0 ^ n >> 5 & 0xf800;
    (bits as u16).reverse_bits()
}

/// The number that holds a word: its bits in their places, and checks at 1, 2, 4, 8 and 16 that make the syndrome 0.
pub fn encode(w: u16) -> u32
    ensures sound { syndrome_of result ≡ 0 }
    ensures below { result < 2 ^ 21 }
    ensures holds { word_in result ≡ w }
{
    let bits = u32::from(w.reverse_bits());
    let n = (bits & 0x1) << 2 ^ (bits & 0xe) << 3 ^ (bits & 0x7f0) << 4 ^ (bits & 0xf800) << 5;
    let s = syndrome(n);
    let checks = s & 0x3 ^ (s & 0x4) << 1 ^ (s & 0x8) << 4 ^ (s & 0x10) << 11;
    n ^ checks
}
