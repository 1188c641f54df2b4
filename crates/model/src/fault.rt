ghost use Rattle.std.specs.Prelude.{◌≡◌};
ghost use Rattle.model.specs.Faults.{from_memory, from_map};

use memory::MemoryFault;

/// A memory's own cause, whole, with the physical and the logical address of the access.
#[derive(Clone, Copy, PartialEq, Eq, Debug)]
pub struct Located {
    pub cause: MemoryFault,
    pub physical: u32,
    pub logical: u16,
}

/// Why a mapped access is refused: the entry has no block, the entry is write-protected, or the memory refuses.
#[derive(Clone, Copy, PartialEq, Eq, Debug)]
pub enum MapFault {
    Validity(u16),
    Protected(u16),
    Memory(Located),
}

/// Why an instruction is not completed: a mapped access that is refused, or the program's own fault, which is too
/// long an indirect chain, an I/O word, the stack's limit, a word that is not listed, or an endless XCT.
#[derive(Clone, Copy, PartialEq, Eq, Debug)]
pub enum Fault {
    Map(MapFault),
    Chain(u16),
    Device,
    Stack,
    Code,
    Execute,
}

impl From<Located> for MapFault {
    ghost from_gives = { λ x y. y ≡ from_memory x };

    fn from(value: Located) -> MapFault {
        MapFault::Memory(value)
    }
}

impl From<MapFault> for Fault {
    ghost from_gives = { λ x y. y ≡ from_map x };

    fn from(value: MapFault) -> Fault {
        Fault::Map(value)
    }
}
