//! The same calls on machines over three makes of memory: plain core, checked core in which every number has one
//! position turned over, and a pair of a pair and a core. Then a spoiled cell.

#![tactic(auto)]

use checked::CheckedCore;
use hamming::encode;
use machine::compare::compare;
use machine::{Held, Machine};
use memory::{Memory, PlainCore};
use model::{Denial, Registers, StopValues, Who};
use paired::Pair;
use std::alloc::{AllocError, Global};
use surveying::survey;

// The cells of four blocks.
const SIZE: usize = 4096;

// LDA 0,50; ADD 0,1; STA 1,@20; ISZ 51; JMP 100; SYC. Location 020 is raised before each store.
const PROGRAM: [(usize, u16); 9] = [
    (0o20, 0o200),
    (0o50, 0o3),
    (0o51, 0o177774),
    (0o100, 0o020050),
    (0o101, 0o107000),
    (0o102, 0o046020),
    (0o103, 0o010051),
    (0o104, 0o000100),
    (0o105, 0o103510),
];

/// What a machine answered: the steps of the run, its stop, and the last word stored.
#[derive(Clone, Copy)]
struct Told {
    steps: u16,
    stop: StopValues,
    sum: u16,
}

fn run_from<M: Memory>(
    machine: &mut Machine<M>,
    held: Held,
    pc: u16,
    budget: u16,
) -> Result<Told, Denial> {
    let ready = machine.start(held, Registers::at(pc))?;
    let ended = machine.run(ready, budget)?;
    Ok(Told {
        steps: ended.steps,
        stop: ended.stop.values(),
        sum: machine.get(0o204)?,
    })
}

fn carry_out<M: Memory>(machine: &mut Machine<M>, held: Held) -> Result<Told, Denial> {
    machine.map(0o1000)?;
    for (at, word) in PROGRAM {
        machine.put(at, word)?;
    }
    run_from(machine, held, 0o100, 100)
}

fn tell(rt: &HostRuntime, name: &str, told: Result<Told, Denial>) -> anyhow::Result<()> {
    match told {
        Ok(Told { steps, stop, sum }) => {
            println!(rt; "{name}: {steps} steps, cell 204 is {sum:o}")?;
            println!(rt; "  {stop}")?;
        }
        Err(denial) => println!(rt; "{name}: {denial}")?,
    }
    Ok(())
}

fn plain(heap: Global, size: usize) -> anyhow::Result<PlainCore> {
    Ok(PlainCore::new(vec![in heap; 0u16; size]?)?)
}

// Zeros, each with the positions turned over that a function of its address tells.
fn flawed<F: Fn(usize) -> u32>(heap: Global, flaw: F) -> Result<Vec<u32>, AllocError>
    requires { F.IsAlwaysCallable flaw }
{
    (0..SIZE).map(|k| encode(0) ^ flaw(k)).collect(heap)
}

fn main(rt: HostRuntime) -> anyhow::Result<()> {
    let heap = rt.alloc();
    let (mut one, one_a, _) = Machine::new(plain(heap, SIZE)?);
    let (mut two, two_a, _) = Machine::new(CheckedCore::new(flawed(heap, |k| 1 << (k % 21))?)?);
    let halves = Pair::new(plain(heap, SIZE / 4)?, plain(heap, SIZE / 4)?)?;
    let (mut three, three_a, _) = Machine::new(Pair::new(halves, plain(heap, SIZE / 2)?)?);
    tell(&rt, "plain", carry_out(&mut one, one_a))?;
    tell(&rt, "checked", carry_out(&mut two, two_a))?;
    tell(&rt, "pair", carry_out(&mut three, three_a))?;
    let with_checked = compare(&mut one, &mut two, Who::A, &[0, 1, 2, 3]);
    let with_pair = compare(&mut one, &mut three, Who::A, &[0, 1, 2, 3]);
    println!(rt; "plain and checked: {with_checked:?}")?;
    println!(rt; "plain and pair: {with_pair:?}")?;
    spoiled(&rt)?;
    let points = gauge::shown_points();
    println!(rt; "worked points shown: {points}")?;
    Ok(())
}

// LDA 0,.-20 in block 0, which A has as its logical block 1.
fn read_one<M: Memory>(machine: &mut Machine<M>, held: Held) -> Result<Told, Denial> {
    machine.map(0o3000)?;
    machine.put(0o100, 0o020760)?;
    run_from(machine, held, 0o2100, 1)
}

fn spoiled(rt: &HostRuntime) -> anyhow::Result<()> {
    // Positions 10 and 17 of cell 060 are turned over.
    let numbers = flawed(rt.alloc(), |k| if k == 0o60 { 66048 } else { 0 })?;
    let (mut machine, a, _) = Machine::new(CheckedCore::new(numbers)?);
    tell(rt, "spoiled", read_one(&mut machine, a))?;
    let mut core = machine.end();
    let before = survey(&mut core);
    core.write(0o60, 7).map_err(Denial::from)?;
    let after = survey(&mut core);
    println!(rt; "survey: {before:?}, and after a write there: {after:?}")?;
    Ok(())
}
