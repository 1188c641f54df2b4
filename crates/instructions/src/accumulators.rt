//! Instructions on accumulators alone, and those whose operand is their second word. Instructions that differ only in
//! their operation share one function here, which takes the operation.

ghost use Rattle.std.specs.Prelude.{◌≡◌, ℕ, Bool, Ok, Err, IfOk, IfErr};
ghost use Rattle.addressing.specs.Mapped.{Performs};
ghost use Rattle.model.specs.Step.{sourced, aimed, doubled};
ghost use Rattle.model.specs.Step as step;

use crate::registers::{Destination, destination_of, move_on, skip_if, source_in, source_of};
use addressing::mapped::Mapped;
use arithmetic::counts::{add_leading_zeros, reset_leading_one};
use arithmetic::fields::{bits, low};
use memory::Memory;
use model::{Fault, Outcome, Registers};

// The immediate field stands where the source does.
pub(crate) fn immediate_of(word: u16) -> u16
    ensures { result ≡ step.source word }
{
    bits(word, 13, 2)
}

// The destination becomes what `f` makes of the source and of it.
pub(crate) fn combine<T: Destination, F: FnOnce(u16, T) -> T>(
    r: &mut Registers,
    word: u16,
    f: F,
) -> Outcome
    requires { F.pre f (sourced r.old word) (T.aimed_at r.old word) }
    ensures { (x : T) × F.post f (sourced r.old word) (T.aimed_at r.old word) x × ((result, r.new) ≡ T.loaded r.old word x) }
{
    let x = f(source_in(r, word), T::read(r, word));
    x.load(r, word)
}

// The next word is skipped where `holds` does of the source and the destination.
pub(crate) fn compare<F: FnOnce(u16, u16) -> bool>(
    r: &mut Registers,
    word: u16,
    holds: F,
) -> Outcome
    requires { F.pre holds (sourced r.old word) (aimed r.old word) }
    ensures { (b : Bool) × F.post holds (sourced r.old word) (aimed r.old word) b × ((result, r.new) ≡ step.skip_if b r.old) }
{
    let skips = holds(source_in(r, word), u16::read(r, word));
    skip_if(r, skips)
}

pub(crate) fn xch(r: &mut Registers, word: u16) -> Outcome
    ensures { (result, r.new) ≡ step.xch r.old word }
{
    let s = source_in(r, word);
    r.ac[source_of(word)] = u16::read(r, word);
    s.load(r, word)
}

// Of one accumulator no count is taken.
pub(crate) fn lrb(r: &mut Registers, word: u16) -> Outcome
    ensures { (result, r.new) ≡ step.lrb r.old word }
{
    let s = source_in(r, word);
    if source_of(word) != destination_of(word) {
        r.ac[destination_of(word)] = add_leading_zeros(s, u16::read(r, word));
    }
    r.ac[source_of(word)] = reset_leading_one(s);
    move_on(r, 1);
    Outcome::Next
}

// Nothing is loaded into the map by a user.
pub(crate) fn pass(r: &mut Registers) -> Outcome
    ensures { (result, r.new) ≡ step.lmp r.old }
{
    move_on(r, 1);
    Outcome::Next
}

// The word behind the instruction.
fn second_word<M: Memory>(m: &mut Mapped<'_, M>, r: &Registers) -> Result<u16, Fault>
    ensures { Performs M.Memory.cells m.old m.new result (step.second r.now) }
{
    m.fetch(low(r.pc.wrapping_add(1), 15))
}

// The destination becomes what `f` makes of that word and of it. The contract has two cases, since generic code cannot name
// the function on numbers that a closure computes.
pub(crate) fn immediate<M: Memory, F: FnOnce(u16, u16) -> u16>(
    m: &mut Mapped<'_, M>,
    r: &mut Registers,
    word: u16,
    f: F,
) -> Result<Outcome, Fault>
    requires { F.IsAlwaysCallable f }
    ensures ok { IfOk result (λ o. (i x : ℕ) × Performs M.Memory.cells m.old m.new (Ok i) (step.second r.old) × F.post f i (aimed r.old word) x
        × ((o, r.new) ≡ step.loaded_past r.old word x)) }
    ensures err { IfErr result (λ e. Performs M.Memory.cells m.old m.new (Err e) (step.second r.old) × (r.new ≡ r.old)) }
{
    let i = second_word(m, r)?;
    r.ac[destination_of(word)] = f(i, u16::read(r, word));
    move_on(r, 2);
    Ok(Outcome::Next)
}
