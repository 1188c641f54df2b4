//! Carries out many sheets, one after the other, and writes the report of each under its name.
//!
//! A line `= NAME` begins a case, and its sheet is all that stands up to the next such line. A last line `~` is no
//! part of the sheet, and neither is the newline before it: so a sheet may end without one. Text before the first case
//! is the start of its sheet. A line without a newline at the end of the text is left out.

#![tactic(auto)]

use std::alloc::Global;
use std::io::{Read, Write};

// Writes the report of a sheet.
fn report(out: &mut impl Write, heap: Global, sheet: &[u8]) -> anyhow::Result<()> {
    let report = sheets::report::carry_out(heap, sheet)?;
    out.write_all(report.as_bytes())?;
    Ok(())
}

fn main(rt: HostRuntime) -> anyhow::Result<()> {
    let mut text = Vec::new(rt.alloc());
    rt.stdin().take(1_000_000).read_to_end(&mut text)?;
    let mut out = rt.stdout();
    let mut name = None;
    let mut sheet = Vec::new(rt.alloc());
    let lines = text
        .split_inclusive(|byte| *byte == b'\n')
        .filter(|line| line.ends_with(b"\n"));
    for line in lines {
        if line.starts_with(b"= ") {
            if name.replace(line).is_some() {
                report(&mut out, rt.alloc(), &sheet)?;
                sheet.clear();
            }
            // Before the sheet is gathered, for which the heap may not suffice.
            out.write_all(line)?;
        } else if line == b"~\n".as_slice() {
            sheet.pop();
        } else {
            sheet.extend_from_slice(line)?;
        }
    }
    report(&mut out, rt.alloc(), &sheet)
}
