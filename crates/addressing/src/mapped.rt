//! Loads and stores through a user's map.

ghost use Rattle.std.specs.Prelude.{◌≡◌, ◌<◌};
ghost use Rattle.addressing.specs.Mapped.{Performs};
ghost use Rattle.model.specs.Faults.{located};
ghost use Rattle.model.specs.Access.{reading, writing, page_at, placed};

use arithmetic::fields::{bits, low};
use memory::{Memory, MemoryFault};
use model::{Fault, Located, MapFault, Page, UserMap};

// A memory's answer, with both addresses where it refused.
fn locate<T>(answer: Result<T, MemoryFault>, physical: usize, logical: u16) -> Result<T, Located>
    requires { physical < 1048576 }
    ensures { result ≡ located answer physical logical }
{
    answer.map_err(|cause| Located {
        cause,
        physical: physical as u32,
        logical,
    })
}

// The upper five of the fifteen bits of an address choose the entry.
fn find_page(map: &UserMap, at: u16) -> Option<Page>
    ensures { result ≡ page_at map.now at }
{
    map.entries[usize::from(bits(at, 10, 5))]
}

fn place(page: Page, at: u16) -> usize
    ensures { result ≡ placed page at }
{
    usize::from(page.block) * 1024 + usize::from(low(at, 10))
}

/// A user's map over a memory.
#[derive(Drop)]
pub struct Mapped<'a, M> {
    pub map: &'a UserMap,
    pub memory: &'a mut M,
}

impl<M: Memory> Mapped<'_, M> {
    /// The word at a logical address.
    #[tactic(auto, unfolding(model::specs::Access::fetching))]
    pub fn fetch(&mut self, at: u16) -> Result<u16, Fault>
        ensures { Performs M.Memory.cells self.old self.new result (reading at) }
    {
        let page = find_page(self.map, at).ok_or(MapFault::Validity(at))?;
        let place = place(page, at);
        let w = locate(self.memory.read(place), place, at).map_err(MapFault::from)?;
        Ok(w)
    }

    /// Writes a word at a logical address.
    #[tactic(auto, unfolding(model::specs::Access::putting))]
    pub fn put(&mut self, at: u16, w: u16) -> Result<(), Fault>
        ensures { Performs M.Memory.cells self.old self.new result (writing at w) }
    {
        let page = find_page(self.map, at).ok_or(MapFault::Validity(at))?;
        if self.map.switches.write && page.protected {
            return Err(MapFault::Protected(at).into());
        }
        let place = place(page, at);
        locate(self.memory.write(place, w), place, at).map_err(MapFault::from)?;
        Ok(())
    }
}
