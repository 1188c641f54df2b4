//! Map words. Bit 0 is the highest of the sixteen.

ghost use Rattle.std.specs.Prelude.{◌≡◌, ℕ, ◌%◌, not, ◌||◌, ◌&&◌, ◌==◌, false};
ghost use Rattle.std.specs.Option.{SomeIff};
ghost use Rattle.model.specs.Machine.{sense_of_word, user_by_bit, bit as bit_of};
ghost use Rattle.machine.specs.Calls.{ReadsMapWord};

use crate::setting::{Entry, Setting};
use arithmetic::fields::{bits, low};
use arithmetic::pointers::is_one;
use model::{Denial, Page, Switches, Who};

// No `From<bool>`: in a map word alone does a bit stand for a user.
fn user_by(b: bool) -> Who
    ensures { result ≡ user_by_bit b }
{
    if b { Who::B } else { Who::A }
}

// Bits 6-7 are 1, or they are 0 and bit 1 is 1.
fn is_wordless(w: u16) -> bool
    ensures { result ≡ (bit_of w 256 || bit_of w 16384) }
{
    is_one(7, w) || is_one(1, w)
}

// Bit 10, 13, 14 or 15 is 1.
fn is_unlisted(w: u16) -> bool
    ensures { result ≡ (bit_of w 32 || not (w % 8 == 0)) }
{
    is_one(10, w) || low(w, 3) != 0
}

// Block 127 with the protect bit means no block.
fn real_page(page: Page) -> Option<Page>
    ensures { SomeIff result ((page.protected && page.block == 127) ≡ false) page }
{
    if page.protected && page.block == 127 {
        None
    } else {
        Some(page)
    }
}

/// A map word: whose it is, and what it sets.
#[derive(Clone, Copy)]
pub(crate) struct MapWord {
    pub(crate) who: Who,
    pub(crate) setting: Setting,
}

/// Bit 0 is ignored, and in a status word also bits 3-5 and 8.
impl TryFrom<u16> for MapWord {
    type Error = Denial;

    ghost try_from_gives = { λ w r. ReadsMapWord r (sense_of_word w) };

    fn try_from(w: u16) -> Result<MapWord, Denial> {
        if is_one(6, w) {
            let page = Page {
                block: low(w, 7) as u8,
                protected: is_one(8, w),
            };
            let entry = Entry {
                logical: usize::from(bits(w, 10, 5)),
                page: real_page(page),
            };
            return Ok(MapWord {
                who: user_by(is_one(7, w)),
                setting: Setting::Entry(entry),
            });
        }
        if is_wordless(w) || is_unlisted(w) {
            return Err(Denial::BadOption);
        }
        let switches = Switches {
            lef: is_one(9, w),
            write: is_one(11, w),
            indirect: is_one(12, w),
        };
        Ok(MapWord {
            who: user_by(is_one(2, w)),
            setting: Setting::Switches(switches),
        })
    }
}
