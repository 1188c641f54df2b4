//! The instructions. Each changes the registers only after its last access, so that one which is not completed
//! leaves them as they were.

ghost use Rattle.std.specs.Prelude.{◌≡◌, ◌+◌, ◌%◌};
ghost use Rattle.instructions.specs.Settled.{Settles};
ghost use Rattle.model.specs.Step as step;

use crate::accumulators::{combine, compare, immediate, immediate_of, lrb, pass, xch};
use crate::decode::decode;
use crate::registers::{Destination, destination_of, move_on, skip_if, source_in};
use addressing::mapped::Mapped;
use arithmetic::counts::{add_leading_zeros, add_ones};
use arithmetic::digits::{add_digit, subtract_digit};
use arithmetic::pointers::is_one;
use arithmetic::shifts::{Double, hex_left, hex_right, shift};
use arithmetic::signed::{halve, is_at_least, is_greater};
use arithmetic::unit::{Wide, operate, skips};
use memory::Memory;
use model::{Fault, Operation, Outcome, Registers};

fn jmp<M: Memory>(m: &mut Mapped<'_, M>, r: &mut Registers, word: u16) -> Result<Outcome, Fault>
    ensures { Settles M.Memory.cells m.old m.new r.old r.new result (step.jmp m.old.map.now.switches r.old word) }
{
    r.pc = m.find(r, word)?;
    Ok(Outcome::Next)
}

fn jsr<M: Memory>(m: &mut Mapped<'_, M>, r: &mut Registers, word: u16) -> Result<Outcome, Fault>
    ensures { Settles M.Memory.cells m.old m.new r.old r.new result (step.jsr m.old.map.now.switches r.old word) }
{
    let at = m.find(r, word)?;
    move_on(r, 1);
    r.ac[3] = r.pc;
    r.pc = at;
    Ok(Outcome::Next)
}

// A word is counted up or down, by 1 or by 0177777, and the next one skipped where the count comes to 0.
#[inline(always)]
fn count<M: Memory>(
    m: &mut Mapped<'_, M>,
    r: &mut Registers,
    word: u16,
    by: u16,
) -> Result<Outcome, Fault>
    ensures { Settles M.Memory.cells m.old m.new r.old r.new result (step.counted (λ n. (n + by) % 65536) m.old.map.now.switches r.old word) }
{
    let at = m.find(r, word)?;
    let n = m.fetch(at)?.wrapping_add(by);
    m.put(at, n)?;
    Ok(skip_if(r, n == 0))
}

fn lda<M: Memory>(m: &mut Mapped<'_, M>, r: &mut Registers, word: u16) -> Result<Outcome, Fault>
    ensures { Settles M.Memory.cells m.old m.new r.old r.new result (step.lda m.old.map.now.switches r.old word) }
{
    let at = m.find(r, word)?;
    let n = m.fetch(at)?;
    Ok(n.load(r, word))
}

fn sta<M: Memory>(m: &mut Mapped<'_, M>, r: &mut Registers, word: u16) -> Result<Outcome, Fault>
    ensures { Settles M.Memory.cells m.old m.new r.old r.new result (step.sta m.old.map.now.switches r.old word) }
{
    let at = m.find(r, word)?;
    m.put(at, u16::read(r, word))?;
    move_on(r, 1);
    Ok(Outcome::Next)
}

// Bit 12 keeps the result from being loaded.
fn two(r: &mut Registers, word: u16) -> Outcome
    ensures { (result, r.new) ≡ step.two_accumulator r.old word }
{
    let x = operate(word, source_in(r, word), Wide::read(r, word));
    if !is_one(12, word) {
        r.ac[destination_of(word)] = x.word;
        r.carry = x.carry;
    }
    skip_if(r, skips(word, x))
}

// The supervisor is called; the PC stands behind the word.
fn syc(r: &mut Registers) -> Outcome
    ensures { (result, r.new) ≡ step.syc r.old }
{
    move_on(r, 1);
    Outcome::Called
}

fn execute<M: Memory>(
    m: &mut Mapped<'_, M>,
    r: &mut Registers,
    op: Operation,
    word: u16,
) -> Result<Outcome, Fault>
    ensures { Settles M.Memory.cells m.old m.new r.old r.new result (step.operation m.old.map.now.switches r.old op word) }
{
    let n = immediate_of(word);
    Ok(match op {
        Operation::Jmp => jmp(m, r, word)?,
        Operation::Jsr => jsr(m, r, word)?,
        Operation::Isz => count(m, r, word, 1)?,
        Operation::Dsz => count(m, r, word, 0o177777)?,
        Operation::Lda => lda(m, r, word)?,
        Operation::Sta => sta(m, r, word)?,
        Operation::InputOutput if m.map.switches.lef => return Err(Fault::Code),
        Operation::InputOutput => return Err(Fault::Device),
        Operation::TwoAccumulator => two(r, word),
        Operation::Adi => combine(r, word, |_, d: u16| d.wrapping_add(n + 1)),
        Operation::Sbi => combine(r, word, |_, d: u16| d.wrapping_sub(n + 1)),
        Operation::Dad => combine(r, word, add_digit),
        Operation::Dsb => combine(r, word, subtract_digit),
        Operation::Ior => combine(r, word, |s, d: u16| s | d),
        Operation::Xor => combine(r, word, |s, d: u16| s ^ d),
        Operation::Anc => combine(r, word, |s, d: u16| !s & d),
        Operation::Xch => xch(r, word),
        Operation::Sgt => compare(r, word, is_greater),
        Operation::Sge => compare(r, word, is_at_least),
        Operation::Lsh => combine(r, word, shift::<u16>),
        Operation::Dlsh => combine(r, word, shift::<Double>),
        Operation::Hxl => combine(r, word, |_, d: u16| hex_left(n, d)),
        Operation::Hxr => combine(r, word, |_, d: u16| hex_right(n, d)),
        Operation::Dhxl => combine(r, word, |_, x: Double| hex_left(n, x)),
        Operation::Dhxr => combine(r, word, |_, x: Double| hex_right(n, x)),
        Operation::Lob => combine(r, word, add_leading_zeros),
        Operation::Lrb => lrb(r, word),
        Operation::Cob => combine(r, word, add_ones),
        Operation::Hlv => combine(r, word, |_, d: u16| halve(d)),
        Operation::Iori => immediate(m, r, word, |i, d| i | d)?,
        Operation::Xori => immediate(m, r, word, |i, d| i ^ d)?,
        Operation::Andi => immediate(m, r, word, |i, d| i & d)?,
        // A closure: with `u16::wrapping_add` by name the proof does not close.
        Operation::Addi => immediate(m, r, word, |i, d| i.wrapping_add(d))?,
        Operation::Lmp => pass(r),
        Operation::Syc => syc(r),
    })
}

/// Carries a word out.
#[tactic(auto, unfolding(model::specs::Step::instruction))]
pub fn carry_out<M: Memory>(
    m: &mut Mapped<'_, M>,
    r: &mut Registers,
    word: u16,
) -> Result<Outcome, Fault>
    ensures { Settles M.Memory.cells m.old m.new r.old r.new result (step.instruction m.old.map.now.switches r.old word) }
{
    let op = decode(word).ok_or(Fault::Code)?;
    execute(m, r, op, word)
}
