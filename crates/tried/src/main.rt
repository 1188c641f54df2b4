//! Tries single steps that were recorded from another emulator on our machine, and tells of each group of them how many
//! agree.
//!
//! They stand in `steps.txt`, all numbers octal. A line that begins with `;` is a remark, a line `# NAME` begins the
//! group of an instruction, and any other line is a case:
//!
//! ```text
//! steps word second pc ac0 ac1 ac2 ac3 carry | addr=word .. -> pc ac0 ac1 ac2 ac3 carry | addr=word ..
//! ```
//!
//! Before the arrow stand the registers and cells at the start: `word` is the cell at `pc`, `second` the one after it
//! (077777 is followed by 0), and all cells that are not named are 0. After the arrow stand the registers after that
//! many steps, and each cell that has changed. All 32 blocks are mapped one to one, and none is write-protected. The
//! run makes all its steps and then stops because its budget is spent, but in group SYC because of the call. In group
//! LEF an I/O word is the instruction LEF.
//!
//! What differs in a case that does not agree is told on standard error.

#![tactic(auto)]

mod recorded;

use machine::Machine;
use memory::{Memory, PlainCore};
use model::{Denial, Registers, Stop, Who};
use recorded::{Case, Group, SPACE, State, read_groups};
use std::alloc::{AllocError, Global};
use std::{fmt, fs};

/// What is asked of all cases of a group besides what each of them tells.
#[derive(Clone, Copy, PartialEq, Eq)]
enum Terms {
    /// The run ends because its budget is spent.
    Plain,
    /// The same, and an I/O word is the instruction LEF.
    Lef,
    /// The run ends because the supervisor is called.
    Call,
}

impl Terms {
    fn of(name: &str) -> Terms {
        match name {
            "LEF" => Terms::Lef,
            "SYC" => Terms::Call,
            _ => Terms::Plain,
        }
    }

    fn admits(self, stop: Stop) -> bool {
        match stop {
            Stop::Spent { .. } => self != Terms::Call,
            Stop::Call { .. } => self == Terms::Call,
            Stop::Faulted { .. } => false,
        }
    }
}

/// The first thing in which a case does not agree, as our machine has it.
#[derive(Clone, Copy)]
enum Difference {
    /// The steps of the run, and its stop.
    Run(u16, Stop),
    Registers(Registers),
    /// A cell's address, and its word or why there is none.
    Cell(usize, Result<u16, Denial>),
}

impl fmt::Display for Difference {
    fn fmt<W: fmt::Write>(&self, f: &mut fmt::Formatter<W>) -> fmt::Result {
        match *self {
            Difference::Run(steps, stop) => {
                let reason = stop.values().reason;
                write!(f, "{steps} steps, stop {reason}")
            }
            Difference::Registers(registers) => {
                let Registers { ac, carry, pc } = registers;
                let [a, b, c, d] = ac;
                let carry = u8::from(carry);
                write!(f, "pc {pc:o}, ac {a:o} {b:o} {c:o} {d:o}, carry {carry}")
            }
            Difference::Cell(address, Ok(word)) => write!(f, "cell {address:o} is {word:o}"),
            Difference::Cell(address, Err(denial)) => write!(f, "cell {address:o} is {denial}"),
        }
    }
}

#[derive(Clone, Copy)]
struct Tally {
    tried: usize,
    agreed: usize,
}

// The words of all cells after the case.
fn expected(heap: Global, case: &Case) -> Result<Vec<u16>, AllocError> {
    let mut words = vec![in heap; 0u16; SPACE]?;
    for (address, word) in case.before.cells.iter().chain(&case.after.cells) {
        if let Some(cell) = words.get_mut(usize::from(*address)) {
            *cell = *word;
        }
    }
    Ok(words)
}

// A's logical blocks are the physical ones of the same number.
fn set_up<M: Memory>(machine: &mut Machine<M>, terms: Terms, start: &State) -> Result<(), Denial> {
    for block in 0..32 {
        machine.map(block * 0o2000 + 0o1000 + block)?;
    }
    if terms == Terms::Lef {
        machine.map(0o130)?;
    }
    for (address, word) in &start.cells {
        machine.put(usize::from(*address), *word)?;
    }
    Ok(())
}

fn compare_cells<M: Memory>(machine: &mut Machine<M>, words: &[u16]) -> Option<Difference> {
    words.iter().enumerate().find_map(|(address, word)| {
        let found = machine.get(address);
        (found != Ok(*word)).then_some(Difference::Cell(address, found))
    })
}

fn try_case(
    core: PlainCore,
    terms: Terms,
    case: &Case,
    words: &[u16],
) -> Result<Option<Difference>, Denial> {
    let (mut machine, held, _) = Machine::new(core);
    set_up(&mut machine, terms, &case.before)?;
    let ready = machine.start(held, case.before.registers)?;
    let ended = machine.run(ready, case.steps)?;
    let registers = machine.show(Who::A).registers;
    if ended.steps != case.steps || !terms.admits(ended.stop) {
        Ok(Some(Difference::Run(ended.steps, ended.stop)))
    } else if registers != case.after.registers {
        Ok(Some(Difference::Registers(registers)))
    } else {
        Ok(compare_cells(&mut machine, words))
    }
}

fn new_core(heap: Global) -> anyhow::Result<PlainCore> {
    Ok(PlainCore::new(vec![in heap; 0u16; SPACE]?)?)
}

fn agrees(rt: &HostRuntime, terms: Terms, case: &Case) -> anyhow::Result<bool> {
    let line = case.line;
    let words = expected(rt.alloc(), case)?;
    match try_case(new_core(rt.alloc())?, terms, case, &words) {
        Ok(None) => Ok(true),
        Ok(Some(difference)) => {
            eprintln!(rt; "line {line} does not agree: {difference}")?;
            Ok(false)
        }
        Err(denial) => {
            eprintln!(rt; "line {line} is {denial}")?;
            Ok(false)
        }
    }
}

fn try_group(rt: &HostRuntime, group: &Group) -> anyhow::Result<Tally> {
    let terms = Terms::of(&group.name);
    let mut agreed = 0usize;
    // A loop, here and over the groups: what goes wrong in one ends it with an error.
    for case in &group.cases {
        if agrees(rt, terms, case)? {
            agreed = agreed.saturating_add(1);
        }
    }
    Ok(Tally {
        tried: group.cases.len(),
        agreed,
    })
}

fn tell(rt: &HostRuntime, name: &str, tally: Tally) -> anyhow::Result<()> {
    let Tally { tried, agreed } = tally;
    println!(rt; "{name} tried {tried} agreed {agreed}")?;
    Ok(())
}

fn try_all(rt: &HostRuntime) -> anyhow::Result<()> {
    let text = fs::read_to_string(rt, "steps.txt")?;
    let mut all = Tally {
        tried: 0,
        agreed: 0,
    };
    for group in &read_groups(rt.alloc(), &text)? {
        let tally = try_group(rt, group)?;
        tell(rt, &group.name, tally)?;
        all.tried = all.tried.saturating_add(tally.tried);
        all.agreed = all.agreed.saturating_add(tally.agreed);
    }
    tell(rt, "all", all)
}

fn main(rt: HostRuntime) -> anyhow::Result<()> {
    try_all(&rt)
}
