ghost use Rattle.std.specs.Prelude.{◌≡◌, false, replicate, Decides};
ghost use Rattle.model.specs.Equality.{registers_eq, map_eq, map_laws};
ghost use Rattle.std.specs.Cmp.Rules.{comparing};
ghost use Rattle.std.proofs.Common.{rules};

use crate::stop::Stop;

/// One of the two users of the map.
#[derive(Clone, Copy, PartialEq, Eq, Debug)]
pub enum Who {
    A,
    B,
}

/// Four accumulators, carry and the program counter, a logical address of 15 bits.
#[derive(Clone, Copy, Debug)]
pub struct Registers {
    pub ac: [u16; 4],
    pub carry: bool,
    pub pc: u16,
}

impl Registers {
    /// Registers of 0 but for the PC.
    pub fn at(pc: u16) -> Registers
        ensures { result ≡ record { ac = replicate 4 0; carry = false; pc = pc } }
    {
        Registers {
            ac: [0; 4],
            carry: false,
            pc,
        }
    }
}

/// A user's three switches: whether an I/O word is the instruction LEF, whether write protection is on, and
/// whether indirect protection is on.
#[derive(Clone, Copy, PartialEq, Eq, Debug)]
pub struct Switches {
    pub lef: bool,
    pub write: bool,
    pub indirect: bool,
}

/// What an entry of a map leads to: a physical block of 1,024 cells, perhaps write-protected.
#[derive(Clone, Copy, PartialEq, Eq, Debug)]
pub struct Page {
    pub block: u8,
    pub protected: bool,
}

/// A user's map: an entry for each of the 32 logical blocks, and the switches.
#[derive(Clone, Copy, Debug)]
pub struct UserMap {
    pub entries: [Option<Page>; 32],
    pub switches: Switches,
}

/// The kinds of permit. A permit is the right to make one call on a user: a Held one to start it, a Ready one to
/// run it. The record of a user has the kind of the permit that is out.
#[derive(Clone, Copy, PartialEq, Eq, Debug)]
pub enum Kind {
    Held,
    Ready,
}

/// All that the machine keeps of a user. The latest stop is none before the first run.
#[derive(Clone, Copy, Debug)]
pub struct User {
    pub registers: Registers,
    pub map: UserMap,
    pub kind: Kind,
    pub latest: Option<Stop>,
}

// By hand: a derived test promises which test it computes, and not that it decides equality.
impl PartialEq for Registers {
    ghost eq = { registers_eq };

    ghost laws = { Prim.search (comparing, rules) };

    #[tactic(auto, using(crate::proofs::Equality::registers_decides))]
    fn eq(&self, other: &Registers) -> bool
        ensures answer { result ≡ registers_eq self.now other.now }
        ensures same { Decides result (self.now ≡ other.now) }
    {
        self.ac == other.ac && self.carry == other.carry && self.pc == other.pc
    }
}

// By hand, for the same reason.
impl PartialEq for UserMap {
    ghost eq = { map_eq };

    ghost laws = { map_laws };

    #[tactic(auto, using(crate::proofs::Equality::map_decides))]
    fn eq(&self, other: &UserMap) -> bool
        ensures answer { result ≡ map_eq self.now other.now }
        ensures same { Decides result (self.now ≡ other.now) }
    {
        self.entries == other.entries && self.switches == other.switches
    }
}
