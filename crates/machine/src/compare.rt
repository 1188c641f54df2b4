//! Two machines held against each other, for one user.

ghost use Rattle.std.specs.Prelude.{◌≡◌, ℕ, ◌+◌, ◌<◌, Some};
ghost use Rattle.model.specs.Isolation.{Agreement};
ghost use Rattle.model.specs.Laws.{Order, Locality, Frame};
ghost use Rattle.machine.specs.Machine.{modelled};
ghost use Rattle.machine.specs.Compare.{ToldApart, FirstApart, CellsApart, Compared, NoneIfAlike, difference_text};

use crate::calls::Machine;
use memory::Memory;
use model::{User, Who};
use std::fmt;

/// The first thing in which two machines differ to a user.
#[derive(Clone, Copy, PartialEq, Eq, Debug)]
pub enum Difference {
    Registers,
    Map,
    Kind,
    LatestStop,
    /// The cell at this physical address.
    Cell(usize),
}

impl fmt::Display for Difference {
    ghost output = { λ d. Some (difference_text d) };

    fn fmt<W: fmt::Write>(&self, f: &mut fmt::Formatter<W>) -> fmt::Result {
        match *self {
            Difference::Registers => write!(f, "registers differ"),
            Difference::Map => write!(f, "map differs"),
            Difference::Kind => write!(f, "kind of permit differs"),
            Difference::LatestStop => write!(f, "latest stop differs"),
            Difference::Cell(at) => write!(f, "cell {at:o} differs"),
        }
    }
}

fn compare_users(left: &User, right: &User) -> Option<Difference>
    ensures { ToldApart result left.now right.now }
{
    if left.registers != right.registers {
        Some(Difference::Registers)
    } else if left.map != right.map {
        Some(Difference::Map)
    } else if left.kind != right.kind {
        Some(Difference::Kind)
    } else if left.latest != right.latest {
        Some(Difference::LatestStop)
    } else {
        None
    }
}

// The first cell of a block that differs. Both memories come by `&mut`, since a read may mend what a make keeps, and so
// each contract here says that no cell changes; a struct of the two would have to say it of each.
fn compare_block<M: Memory, N: Memory>(left: &mut M, right: &mut N, start: usize) -> Option<usize>
    requires { start < 1048576 }
    ensures answer { FirstApart (λ k. start + k) 1024 (M.Memory.cells left.old) (N.Memory.cells right.old) result }
    ensures left { M.Memory.cells left.new ≡ M.Memory.cells left.old }
    ensures right { N.Memory.cells right.new ≡ N.Memory.cells right.old }
{
    // A loop: nothing is known of a memory after the closure of a `find` has read it.
    for at in start..start + 1024 {
        if left.read(at) != right.read(at) {
            return Some(at);
        }
    }
    None
}

// The first cell of the blocks, one after the other, that differs.
fn compare_blocks<M: Memory, N: Memory>(left: &mut M, right: &mut N, blocks: &[u8]) -> Option<usize>
    ensures answer { CellsApart blocks.now (M.Memory.cells left.old) (N.Memory.cells right.old) result }
    ensures left { M.Memory.cells left.new ≡ M.Memory.cells left.old }
    ensures right { N.Memory.cells right.new ≡ N.Memory.cells right.old }
{
    for block in blocks {
        if let Some(at) = compare_block(left, right, usize::from(*block) * 1024) {
            return Some(at);
        }
    }
    None
}

// What differs first: a part of the user's record, or a cell of the blocks.
fn first_difference<M: Memory, N: Memory>(
    left: &mut Machine<M>,
    right: &mut Machine<N>,
    who: Who,
    blocks: &[u8],
) -> Option<Difference>
    ensures answer { Compared result who blocks.now (modelled M.Memory.cells left.old) (modelled N.Memory.cells right.old) }
    ensures left { modelled M.Memory.cells left.new ≡ modelled M.Memory.cells left.old }
    ensures right { modelled N.Memory.cells right.new ≡ modelled N.Memory.cells right.old }
{
    if let Some(part) = compare_users(left.users.of(who), right.users.of(who)) {
        return Some(part);
    }
    let at = compare_blocks(&mut left.memory, &mut right.memory, blocks)?;
    Some(Difference::Cell(at))
}

/// Whether a user's registers, map, kind of permit and latest stop and every cell of those blocks are equal on two
/// machines, and else what differs first. A read past the end of a memory counts as the answer that it is.
///
/// The agreement: what a user is told and holds is the same on two machines whose pasts have the same calls of that
/// user's, whatever the other user did.
pub fn compare<M: Memory, N: Memory>(
    left: &mut Machine<M>,
    right: &mut Machine<N>,
    who: Who,
    blocks: &[u8],
) -> Option<Difference>
    ensures answer { Compared result who blocks.now (modelled M.Memory.cells left.old) (modelled N.Memory.cells right.old) }
    ensures left { modelled M.Memory.cells left.new ≡ modelled M.Memory.cells left.old }
    ensures right { modelled N.Memory.cells right.new ≡ modelled N.Memory.cells right.old }
    ensures alike { NoneIfAlike result who blocks.now (modelled M.Memory.cells left.old) (modelled N.Memory.cells right.old) }
    ensures agreement { Agreement (modelled M.Memory.cells left.old) (modelled N.Memory.cells right.old) }
    ensures order { Order }
    ensures locality { Locality }
    ensures frame { Frame }
{
    first_difference(left, right, who, blocks)
}
