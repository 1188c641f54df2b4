//! Steps and runs.

ghost use Rattle.std.specs.Prelude.{◌≡◌};
ghost use Rattle.addressing.specs.Mapped.{SameParts};
ghost use Rattle.model.specs.Run.{advanced, runs};

use addressing::mapped::Mapped;
use instructions::execution::carry_out;
use memory::Memory;
use model::{Outcome, Ran, Registers, Stop, Turn, UserMap};

// One step: the word at the PC is fetched and carried out.
fn advance<M: Memory>(m: &mut Mapped<'_, M>, r: &mut Registers) -> Turn
    ensures same { SameParts m.old m.new }
    ensures done { (result, r.new, M.Memory.cells m.new.memory.now) ≡ advanced m.old.map.now r.old (M.Memory.cells m.old.memory.now) }
{
    let address = r.pc;
    let faulted = |word, fault| Turn::Stops(Stop::Faulted {
        address,
        word,
        fault,
    });
    match m.fetch(address) {
        Err(fault) => faulted(0, fault),
        Ok(word) => match carry_out(m, r, word) {
            Ok(Outcome::Next) => Turn::Goes,
            Ok(Outcome::Called) => Turn::Calls(Stop::Call { address, word }),
            Err(fault) => faulted(word, fault),
        },
    }
}

// The loop. One lifetime for map and memory, since a `Mapped` holds both: at two, the check generates no proof.
#[tactic(auto, using(addressing::proofs::Turns::one_more))]
fn steps<'a, M: Memory>(map: &'a UserMap, memory: &'a mut M, r: &mut Registers, budget: u16) -> Ran
    ensures { (result, r.new, M.Memory.cells memory.new) ≡ runs budget 0 map.now r.old (M.Memory.cells memory.old) }
{
    let mut mapped = Mapped { map, memory };
    for done in 0..budget {
        match advance(&mut mapped, r) {
            Turn::Goes => {}
            Turn::Calls(stop) => {
                return Ran {
                    steps: done + 1,
                    stop,
                };
            }
            Turn::Stops(stop) => return Ran { steps: done, stop },
        }
    }
    Ran {
        steps: budget,
        stop: Stop::Spent { address: r.pc },
    }
}

/// At most `budget` steps. Whether they are spent is tested before each.
pub fn run_steps<M: Memory>(map: &UserMap, memory: &mut M, r: &mut Registers, budget: u16) -> Ran
    ensures { (result, r.new, M.Memory.cells memory.new) ≡ runs budget 0 map.now r.old (M.Memory.cells memory.old) }
{
    steps(map, memory, r, budget)
}
