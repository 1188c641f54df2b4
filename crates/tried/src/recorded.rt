//! The recorded steps, read from their text.

use anyhow::{Context, anyhow, bail, ensure};
use model::Registers;
use std::alloc::Global;
use std::str::SplitWhitespace;

/// The addresses of a user: 0 to 077777.
pub const SPACE: usize = 0o100000;

/// Registers, and the words of cells by their addresses.
#[derive(Drop)]
pub struct State {
    pub registers: Registers,
    pub cells: Vec<(u16, u16)>,
}

/// So many steps lead from one state to another. Of the second, only the cells that have changed are told.
#[derive(Drop)]
pub struct Case {
    pub line: usize,
    pub steps: u16,
    pub before: State,
    pub after: State,
}

/// The cases of an instruction.
#[derive(Drop)]
pub struct Group {
    pub name: String,
    pub cases: Vec<Case>,
}

fn read_octal(text: &str) -> anyhow::Result<u16> {
    Ok(u16::from_str_radix(text, 8)?)
}

fn read_address(text: &str) -> anyhow::Result<u16> {
    let address = read_octal(text)?;
    ensure!(usize::from(address) < SPACE, "an address over 077777");
    Ok(address)
}

fn next<'a>(words: &mut SplitWhitespace<'a>) -> anyhow::Result<&'a str> {
    words.next().context("too few numbers")
}

fn next_octal(words: &mut SplitWhitespace<'_>) -> anyhow::Result<u16> {
    read_octal(next(words)?)
}

fn read_carry(text: &str) -> anyhow::Result<bool> {
    match text {
        "0" => Ok(false),
        "1" => Ok(true),
        _ => bail!("a carry is 0 or 1"),
    }
}

// The last six numbers before a bar: pc ac0 ac1 ac2 ac3 carry.
fn read_registers(mut words: SplitWhitespace<'_>) -> anyhow::Result<Registers> {
    let registers = Registers {
        pc: read_address(next(&mut words)?)?,
        ac: [
            next_octal(&mut words)?,
            next_octal(&mut words)?,
            next_octal(&mut words)?,
            next_octal(&mut words)?,
        ],
        carry: read_carry(next(&mut words)?)?,
    };
    ensure!(words.next().is_none(), "too many numbers");
    Ok(registers)
}

// Adds the cells of a text as `26=77514 32=145154`.
fn read_cells(text: &str, cells: &mut Vec<(u16, u16)>) -> anyhow::Result<()> {
    for cell in text.split_whitespace() {
        let (address, word) = cell
            .split_once('=')
            .context("a cell has the form addr=word")?;
        cells.push((read_address(address)?, read_octal(word)?))?;
    }
    Ok(())
}

fn cut_at_bar(text: &str) -> anyhow::Result<(&str, &str)> {
    text.split_once('|').context("no bar before the cells")
}

// What stands after the arrow.
fn read_after(heap: Global, text: &str) -> anyhow::Result<State> {
    let (numbers, changed) = cut_at_bar(text)?;
    let registers = read_registers(numbers.split_whitespace())?;
    let mut cells = Vec::new(heap);
    read_cells(changed, &mut cells)?;
    Ok(State { registers, cells })
}

fn read_case(heap: Global, line: usize, text: &str) -> anyhow::Result<Case> {
    let (before, after) = text.split_once("->").context("no arrow")?;
    let (numbers, named) = cut_at_bar(before)?;
    let mut words = numbers.split_whitespace();
    let steps = next_octal(&mut words)?;
    let word = next_octal(&mut words)?;
    let second = next_octal(&mut words)?;
    let registers = read_registers(words)?;
    let mut cells = Vec::new(heap);
    cells.push((registers.pc, word))?;
    cells.push((registers.pc.wrapping_add(1) & 0o77777, second))?;
    read_cells(named, &mut cells)?;
    Ok(Case {
        line,
        steps,
        before: State { registers, cells },
        after: read_after(heap, after)?,
    })
}

fn begin_group(heap: Global, groups: &mut Vec<Group>, name: &str) -> anyhow::Result<()> {
    ensure!(!name.contains(' '), "the name of a group is one word");
    groups.push(Group {
        name: String::from_str(heap, name)?,
        cases: Vec::new(heap),
    })?;
    Ok(())
}

fn add_line(heap: Global, groups: &mut Vec<Group>, line: usize, text: &str) -> anyhow::Result<()> {
    if text.starts_with(';') {
        return Ok(());
    }
    if let Some(name) = text.strip_prefix("# ") {
        return begin_group(heap, groups, name);
    }
    let case = read_case(heap, line, text)?;
    let group = groups.last_mut().context("a case before the first group")?;
    Ok(group.cases.push(case)?)
}

/// The groups of a text, in its order. The first malformed line is an error that names it.
pub(crate) fn read_groups(heap: Global, text: &str) -> anyhow::Result<Vec<Group>> {
    let mut groups = Vec::new(heap);
    for (line, text) in (1usize..).zip(text.lines()) {
        add_line(heap, &mut groups, line, text).map_err(|fault| anyhow!(
            "line {line} of steps.txt: {fault}"
        ))?;
    }
    Ok(groups)
}
