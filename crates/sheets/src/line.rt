ghost use Rattle.std.specs.Prelude.{◌≡◌, ℕ, ◌++◌, OnOk, string_bytes};
ghost use Rattle.sheets.specs.Lines.{quiet as quiet_row, numbers as line_numbers, line_bytes};

use model::{Denial, Ran, Registers};
use std::alloc::AllocError;
use writing::OctalLine;

/// What a granted row shows after its answer 0: what its run made, if it is one, and its user's registers.
#[derive(Clone, Copy)]
pub(crate) struct Granted {
    pub ran: Option<Ran>,
    pub registers: Registers,
}

/// A row that shows zeros.
pub(crate) fn quiet() -> Granted
    ensures { result ≡ quiet_row }
{
    Granted {
        ran: None,
        registers: Registers::at(0),
    }
}

/// A line of the report: the number of a row, and what came of it.
#[derive(Clone, Copy)]
pub(crate) struct Line {
    pub number: u16,
    pub outcome: Result<Granted, Denial>,
}

impl Line {
    // The numbers after the first. A denied row shows the number of its denial, and zeros.
    fn numbers(self) -> [u16; 9]
        ensures { result ≡ line_numbers self.outcome }
    {
        let (answer, granted) = match self.outcome {
            Ok(granted) => (0, granted),
            Err(reason) => (reason.number(), quiet()),
        };
        let (reason, steps) = granted
            .ran
            .map_or((0, 0), |ran| (ran.stop.values().reason, ran.steps));
        let Registers {
            ac: [ac0, ac1, ac2, ac3],
            carry,
            pc,
        } = granted.registers;
        [
            u16::from(answer),
            u16::from(reason),
            steps,
            pc,
            ac0,
            ac1,
            ac2,
            ac3,
            u16::from(carry),
        ]
    }

    /// Appends the line to the report.
    pub(crate) fn append_to(self, out: &mut String) -> Result<(), AllocError>
        ensures { OnOk result (string_bytes out.new ≡ string_bytes out.old ++ line_bytes self.number self.outcome) }
    {
        let octal = OctalLine {
            first: self.number,
            others: &self.numbers(),
        };
        octal.append_to(out)
    }
}
