//! What each row does.

ghost use Rattle.std.specs.Prelude.{◌≡◌, ℕ};
ghost use Rattle.model.specs.Machine.{map as mapping, put as putting, start as starting, run as running, call as called};
ghost use Rattle.machine.specs.Machine.{modelled, Fits};
ghost use Rattle.sheets.specs.Lines.{starting_at};
ghost use Rattle.sheets.specs.Rows.{carried_out, told_after, own_then_other};

use crate::desk::Desk;
use crate::line::{Granted, quiet};
use machine::{Denied, Machine, Permit};
use memory::Memory;
use model::{Denial, Ran, Registers, Who};
use reading::Row;

fn map_row<M: Memory>(machine: &mut Machine<M>, word: u16) -> Result<Granted, Denial>
    ensures { (result, modelled M.Memory.cells machine.new) ≡ told_after Who.A (called (modelled M.Memory.cells machine.old) (mapping word)) }
{
    machine.map(word)?;
    Ok(quiet())
}

fn put_row<M: Memory>(machine: &mut Machine<M>, at: u16, word: u16) -> Result<Granted, Denial>
    ensures { (result, modelled M.Memory.cells machine.new) ≡ told_after Who.A (called (modelled M.Memory.cells machine.old) (putting at word)) }
{
    machine.put(usize::from(at), word)?;
    Ok(quiet())
}

// A start on a Ready permit is denied, and the permit is kept.
fn start_row<M: Memory>(
    machine: &mut Machine<M>,
    who: Who,
    permit: Permit,
    at: u16,
) -> (Result<Granted, Denial>, Permit)
    requires { Fits who machine.old permit }
    ensures told { (result.0, modelled M.Memory.cells machine.new) ≡ told_after who (called (modelled M.Memory.cells machine.old) (starting who (starting_at at))) }
    ensures fits { Fits who machine.new result.1 }
{
    let held = match permit {
        Permit::Ready(_) => return (Err(Denial::Permit), permit),
        Permit::Held(held) => held,
    };
    match machine.start(held, Registers::at(at)) {
        Ok(ready) => {
            let granted = Granted {
                registers: machine.show(who).registers,
                ..quiet()
            };
            (Ok(granted), Permit::Ready(ready))
        }
        Err(Denied { reason, permit }) => (Err(reason), Permit::Held(permit)),
    }
}

// A run on a Held permit is denied, and the permit is kept.
fn run_row<M: Memory>(
    machine: &mut Machine<M>,
    who: Who,
    permit: Permit,
    budget: u16,
) -> (Result<Granted, Denial>, Permit)
    requires { Fits who machine.old permit }
    ensures told { (result.0, modelled M.Memory.cells machine.new) ≡ told_after who (called (modelled M.Memory.cells machine.old) (running who budget)) }
    ensures fits { Fits who machine.new result.1 }
{
    let ready = match permit {
        Permit::Held(_) => return (Err(Denial::Permit), permit),
        Permit::Ready(ready) => ready,
    };
    match machine.run(ready, budget) {
        Ok(ended) => {
            let granted = Granted {
                ran: Some(Ran {
                    steps: ended.steps,
                    stop: ended.stop,
                }),
                registers: machine.show(who).registers,
            };
            (Ok(granted), ended.permit)
        }
        Err(Denied { reason, permit }) => (Err(reason), Permit::Ready(permit)),
    }
}

/// Of A's and B's, the user's own first. Done twice, the order is as before.
fn own_first<T>(user: Who, a: T, b: T) -> (T, T)
    ensures { result ≡ own_then_other user a b }
{
    match user {
        Who::A => (a, b),
        Who::B => (b, a),
    }
}

impl<M: Memory> Desk<M> {
    /// Carries out a row: what comes of it, and the desk after it.
    #[tactic(auto, unfolding(crate::specs::Rows::carried_out))]
    pub(crate) fn act(self, row: Row) -> (Result<Granted, Denial>, Desk<M>)
        ensures { (result.0, modelled M.Memory.cells result.1.machine) ≡ carried_out (modelled M.Memory.cells self.machine) row }
    {
        let Desk { mut machine, a, b } = self;
        let (outcome, (a, b)) = match row {
            Row::Map(word) => (map_row(&mut machine, word), (a, b)),
            Row::Put { at, word } => (put_row(&mut machine, at, word), (a, b)),
            Row::Start { user, at } => {
                let (own, other) = own_first(user, a, b);
                let (outcome, own) = start_row(&mut machine, user, own, at);
                (outcome, own_first(user, own, other))
            }
            Row::Run { user, budget } => {
                let (own, other) = own_first(user, a, b);
                let (outcome, own) = run_row(&mut machine, user, own, budget);
                (outcome, own_first(user, own, other))
            }
        };
        (outcome, Desk { machine, a, b })
    }
}
