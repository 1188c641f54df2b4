//! The same program of A's on two machines: alone on one, beside a meddling program of B's on the other.

#![tactic(auto)]

use machine::compare::{Difference, compare};
use machine::{Ended, Held, Machine, Permit};
use memory::{Memory, PlainCore};
use model::{Denial, Registers, StopValues, Who};

// A counts in 050: ISZ 50, JMP 100.
const COUNT: [(usize, u16); 2] = [(0o100, 0o010050), (0o101, 0o000100)];

// B, in block 1, adds what it reads of A's count and then tries to overwrite it: LDA 0,@40; ADD 0,1; STA 1,@40.
const MEDDLE: [(usize, u16); 4] = [
    (0o2040, 0o002050),
    (0o2100, 0o022040),
    (0o2101, 0o107000),
    (0o2102, 0o046040),
];

fn load<M: Memory>(machine: &mut Machine<M>, program: &[(usize, u16)]) -> Result<(), Denial> {
    for &(at, word) in program {
        machine.put(at, word)?;
    }
    Ok(())
}

fn start_and_run<M: Memory>(
    machine: &mut Machine<M>,
    held: Held,
    budget: u16,
) -> Result<Ended, Denial> {
    let started = machine.start(held, Registers::at(0o100))?;
    Ok(machine.run(started, budget)?)
}

// A run cut in two goes on with the permit that the first part gave back.
fn run_in_two<M: Memory>(machine: &mut Machine<M>, held: Held) -> Result<Ended, Denial> {
    let ready = machine.start(held, Registers::at(0o100))?;
    let first = machine.run(ready, 6)?;
    match first.permit {
        Permit::Ready(again) => Ok(machine.run(again, 5)?),
        Permit::Held(held) => start_and_run(machine, held, 5),
    }
}

// A has block 0. B has block 1, and block 0 to read alone.
fn strain<M: Memory>(machine: &mut Machine<M>) -> Result<(), Denial> {
    machine.map(0o1000)?;
    load(machine, &COUNT)
}

fn tilt<M: Memory>(machine: &mut Machine<M>, held: Held) -> Result<Ended, Denial> {
    machine.map(0o1401)?;
    machine.map(0o3600)?;
    load(machine, &MEDDLE)?;
    start_and_run(machine, held, 100)
}

fn show(rt: &HostRuntime, name: &str, ended: Result<Ended, Denial>) -> anyhow::Result<()> {
    match ended {
        Ok(Ended { steps, stop, .. }) => {
            // Three of its six numbers, where `Display` would tell all.
            let StopValues {
                reason,
                address,
                logical,
                ..
            } = stop.values();
            println!(rt;
                "{name}: {steps} steps, stop {reason} at {address:o}, logical {logical:o}"
            )?;
        }
        Err(denial) => println!(rt; "{name}: {denial}")?,
    }
    Ok(())
}

fn tell(rt: &HostRuntime, found: Option<Difference>) -> anyhow::Result<()> {
    match found {
        None => println!(rt; "A is the same on both")?,
        Some(difference) => println!(rt; "A's {difference}")?,
    }
    Ok(())
}

fn core(rt: &HostRuntime) -> anyhow::Result<PlainCore> {
    Ok(PlainCore::new(vec![in rt.alloc(); 0u16; 4096]?)?)
}

fn main(rt: HostRuntime) -> anyhow::Result<()> {
    let (mut alone, alone_a, _) = Machine::new(core(&rt)?);
    let (mut beside, beside_a, beside_b) = Machine::new(core(&rt)?);
    strain(&mut alone)?;
    strain(&mut beside)?;
    show(&rt, "tilt beside", tilt(&mut beside, beside_b))?;
    show(&rt, "strain alone", run_in_two(&mut alone, alone_a))?;
    show(&rt, "strain beside", run_in_two(&mut beside, beside_a))?;
    tell(&rt, compare(&mut alone, &mut beside, Who::A, &[0]))?;
    beside.put(0o50, 0)?;
    tell(&rt, compare(&mut alone, &mut beside, Who::A, &[0]))
}
