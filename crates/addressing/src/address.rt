//! Where an instruction's operand is.

ghost use Rattle.std.specs.Prelude.{◌≡◌};
ghost use Rattle.addressing.specs.Mapped.{Performs};
ghost use Rattle.model.specs.Address.{displaced, first_address, chain_limit, link, follow, effective};

use crate::mapped::Mapped;
use arithmetic::fields::{bits, low};
use arithmetic::pointers::is_one;
use memory::Memory;
use model::{Fault, Registers, Switches};

// A displacement of eight bits is signed; addresses wrap at fifteen bits.
fn displace(base: u16, displacement: u8) -> u16
    ensures { result ≡ displaced base displacement }
{
    let signed = i16::from(displacement.cast_signed());
    low(base.wrapping_add_signed(signed), 15)
}

fn first_of(r: &Registers, word: u16) -> u16
    ensures { result ≡ first_address r.now word }
{
    let displacement = low(word, 8) as u8;
    match bits(word, 8, 2) {
        0 => u16::from(displacement),
        1 => displace(r.pc, displacement),
        base => displace(r.ac[usize::from(base)], displacement),
    }
}

fn limit_of(switches: Switches) -> u16
    ensures { result ≡ chain_limit switches }
{
    if switches.indirect { 16 } else { 4096 }
}

impl<M: Memory> Mapped<'_, M> {
    // One fetch of a chain: 020-027 are first raised and 030-037 lowered by one, and written back.
    fn fetch_link(&mut self, at: u16) -> Result<u16, Fault>
        ensures { Performs M.Memory.cells self.old self.new result (link at) }
    {
        let w = self.fetch(at)?;
        let by = match at {
            0o20..=0o27 => 1,
            0o30..=0o37 => 0o177777,
            _ => return Ok(w),
        };
        let counted = w.wrapping_add(by);
        self.put(at, counted)?;
        Ok(counted)
    }

    // The address at the end of a chain of at most `limit` fetches.
    #[tactic(auto, using(crate::proofs::Turns::one_more))]
    fn resolve(&mut self, first: u16, limit: u16) -> Result<u16, Fault>
        ensures { Performs M.Memory.cells self.old self.new result (follow first limit) }
    {
        let mut at = first;
        for _ in 0..limit {
            let w = self.fetch_link(at)?;
            if w < 32768 {
                return Ok(w);
            }
            at = low(w, 15);
        }
        Err(Fault::Chain(at))
    }

    /// The address of a word's operand, its indirect chain followed.
    pub fn find(&mut self, r: &Registers, word: u16) -> Result<u16, Fault>
        ensures { Performs M.Memory.cells self.old self.new result (effective self.old.map.now.switches r.now word) }
    {
        let first = first_of(r, word);
        // Taken out by `?` and made once: with a `Result` handed on in one arm and made in the other, the fetches of a chain
        // were measured to take a third to a half longer.
        let at = if is_one(5, word) {
            self.resolve(first, limit_of(self.map.switches))?
        } else {
            first
        };
        Ok(at)
    }
}
