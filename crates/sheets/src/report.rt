//! The report of a sheet.

ghost use Rattle.std.specs.Prelude.{◌≡◌, ℕ, ◌≤◌, ◌++◌, length, IfOk, OnOk, string_bytes};
ghost use Rattle.model.specs.Machine.{fresh};
ghost use Rattle.machine.specs.Machine.{modelled};
ghost use Rattle.sheets.specs.Desks.{core_cells};
ghost use Rattle.reading.specs.Rows.{rows};
ghost use Rattle.sheets.specs.Report.{blank, lines, report as reported};

use crate::desk::Desk;
use crate::line::Line;
use machine::{Machine, Permit};
use memory::{Memory, PlainCore};
use model::Denial;
use reading::{Rows, open_sheet};
use std::alloc::{AllocError, Global};

/// The first line of a report, with its newline.
const HEADING: &str = "row answer stop steps pc ac0 ac1 ac2 ac3 carry\n";

/// The words of 16 blocks of 1,024.
const CORE: usize = 16 * 1024;

// A new machine over plain core of zeros, and its permits. Want of memory is the one way to fail: the core is whole.
fn new_desk(heap: Global) -> Result<Desk<PlainCore>, AllocError>
    ensures { IfOk result (λ d. modelled core_cells d.machine ≡ fresh blank) }
{
    let Ok(core) = PlainCore::new(vec![in heap; 0u16; CORE]?) else {
        unreachable()
    };
    let (machine, a, b) = Machine::new(core);
    Ok(Desk {
        machine,
        a: Permit::Held(a),
        b: Permit::Held(b),
    })
}

// The lines of the rows.
fn put_rows<M: Memory + Drop>(
    out: &mut String,
    mut desk: Desk<M>,
    text: &[u8],
) -> Result<(), AllocError>
    requires { length text.now ≤ 4096 }
    ensures { OnOk result (string_bytes out.new ≡ string_bytes out.old ++ lines (modelled M.Memory.cells desk.machine) 1 (rows text.now)) }
{
    for (number, row) in (1u16..).zip(Rows { text }) {
        let outcome = match row {
            Ok(row) => {
                let (outcome, next) = desk.act(row);
                desk = next;
                outcome
            }
            Err(reason) => Err(reason),
        };
        Line { number, outcome }.append_to(out)?;
    }
    Ok(())
}

/// The report of a sheet: a heading, and a line for each row. A sheet of a wrong first line, or too long a one, has a
/// wrong row 0, and none is carried out.
pub fn carry_out(heap: Global, sheet: &[u8]) -> Result<String, AllocError>
    ensures { IfOk result (λ t. string_bytes t ≡ reported sheet.now) }
{
    let mut out = String::from_str(heap, HEADING)?;
    match open_sheet(sheet) {
        Some(text) => put_rows(&mut out, new_desk(heap)?, text)?,
        None => {
            let wrong = Line {
                number: 0,
                outcome: Err(Denial::Sheet),
            };
            wrong.append_to(&mut out)?
        }
    }
    Ok(out)
}
