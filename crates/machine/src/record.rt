//! What a call does to the record of one user.

ghost use Rattle.std.specs.Prelude.{◌≡◌};
ghost use Rattle.memory.specs.Cells.{Row};
ghost use Rattle.model.specs.Machine.{mapped, started, run_by, kind_after};
ghost use Rattle.model.specs.declared.user.Who.{Who};
ghost use Rattle.model.specs.Laws.{Acts};
ghost use Rattle.machine.specs.Calls.{answered, protected_in, block_in, after_start, after_run};

use crate::setting::Entry;
use memory::Memory;
use model::{Denial, Kind, Ran, Registers, Stop, User};
use processor::run::run_steps;

/// Sets an entry. The block that it leads to has to be in the memory.
pub(crate) fn assign<M: Memory>(user: &mut User, memory: &M, entry: Entry) -> Result<(), Denial>
    ensures { Acts (mapped (M.Memory.cells memory.now) user.old entry.logical (protected_in entry.page) (block_in entry.page)) (answered result) user.new (M.Memory.cells memory.now) }
{
    let Entry { logical, page } = entry;
    if let Some(page) = page {
        if usize::from(page.block) >= memory.size() / 1024 {
            return Err(Denial::Block);
        }
    }
    user.map.entries[logical] = page;
    Ok(())
}

/// Starts the user. The kind of the record is tested before the PC.
pub(crate) fn begin(user: &mut User, registers: Registers) -> Result<(), Denial>
    ensures { (who : Who) (cs : Row) → Acts (started user.old.kind who cs user.old registers) (after_start who result) user.new cs }
{
    match user.kind {
        Kind::Ready => Err(Denial::Permit),
        Kind::Held if registers.pc >= 32768 => Err(Denial::Pc),
        Kind::Held => {
            user.registers = registers;
            user.kind = Kind::Ready;
            Ok(())
        }
    }
}

/// Ready after a spent budget, Held after any other stop.
pub(crate) fn kind_left_by(stop: Stop) -> Kind
    ensures { result ≡ kind_after stop }
{
    match stop {
        Stop::Spent { .. } => Kind::Ready,
        Stop::Call { .. } | Stop::Faulted { .. } => Kind::Held,
    }
}

/// Runs the user, and keeps the stop. It stays a function of its own: within a caller the loop of its steps was measured to
/// be slower.
#[inline(never)]
pub(crate) fn carry_on<M: Memory>(
    user: &mut User,
    memory: &mut M,
    budget: u16,
) -> Result<Ran, Denial>
    ensures { (who : Who) → Acts (run_by user.old.kind who (M.Memory.cells memory.old) user.old budget) (after_run who result) user.new (M.Memory.cells memory.new) }
{
    match user.kind {
        Kind::Held => Err(Denial::Permit),
        Kind::Ready => {
            let ran = run_steps(&user.map, memory, &mut user.registers, budget);
            user.kind = kind_left_by(ran.stop);
            user.latest = Some(ran.stop);
            Ok(ran)
        }
    }
}
