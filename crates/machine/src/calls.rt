//! The calls of a host.

ghost use Rattle.std.specs.Prelude.{◌≡◌, ℕ, []};
ghost use Rattle.model.specs.Machine.{map as mapping, put as putting, get as getting, start as starting, run as running, show as showing, fresh, shown as showed};
ghost use Rattle.model.specs.Isolation.{Past};
ghost use Rattle.machine.specs.Calls.{answered, read as got};
ghost use Rattle.model.specs.Programs.{Lawful};
ghost use Rattle.machine.specs.Machine.{modelled, Makes, seen, who_of, kind_of, begun, ran_on};

use crate::map_word::MapWord;
use crate::permit::{Denied, Held, Permit, Ready};
use crate::record::{assign, begin, carry_on, kind_left_by};
use crate::setting::Setting;
use crate::users::Users;
use memory::Memory;
use model::{Denial, Kind, Registers, Stop, Switches, User, UserMap, Who};

/// A memory and the records of its two users.
#[derive(Drop)]
pub struct Machine<M> {
    pub(crate) memory: M,
    pub(crate) users: Users,
}

/// What a run answers: the steps that it completed, why it ended, and the permit that it gives back.
#[derive(Drop)]
pub struct Ended {
    pub steps: u16,
    pub stop: Stop,
    pub permit: Permit,
}

/// What the machine shows of a user.
#[derive(Clone, Copy)]
pub struct Shown {
    pub registers: Registers,
    pub kind: Kind,
    pub latest: Option<Stop>,
}

// No entry has a block, write and indirect protection are on, LEF is off. The registers are spelled out, since a
// constant's value may contain no call.
const NEW_USER: User = User {
    registers: Registers {
        ac: [0; 4],
        carry: false,
        pc: 0,
    },
    map: UserMap {
        entries: [None; 32],
        switches: Switches {
            lef: false,
            write: true,
            indirect: true,
        },
    },
    kind: Kind::Held,
    latest: None,
};

fn permit_of(who: Who, kind: Kind) -> Permit
    ensures user { who_of result ≡ who }
    ensures kind { kind_of result ≡ kind }
{
    match kind {
        Kind::Held => Permit::Held(Held { who }),
        Kind::Ready => Permit::Ready(Ready { who }),
    }
}

impl From<&User> for Shown {
    ghost from_gives = { λ x y. seen y ≡ showed x.now.registers x.now.kind x.now.latest };

    fn from(user: &User) -> Shown {
        Shown {
            registers: user.registers,
            kind: user.kind,
            latest: user.latest,
        }
    }
}

impl<M: Memory> Machine<M> {
    /// A new machine over a memory, and a Held permit for A and for B.
    pub fn new(memory: M) -> (Machine<M>, Held, Held)
        ensures state { modelled M.Memory.cells result.0 ≡ fresh (M.Memory.cells memory) }
        ensures past { Past (M.Memory.cells memory) [] [] (modelled M.Memory.cells result.0) }
        ensures permits { (result.1.who ≡ Who.A) × (result.2.who ≡ Who.B) }
    {
        (
            Machine {
                memory,
                users: Users {
                    a: NEW_USER,
                    b: NEW_USER,
                },
            },
            Held { who: Who::A },
            Held { who: Who::B },
        )
    }

    /// Ends the machine and gives its memory back, with its cells.
    pub fn end(self) -> M
        ensures { M.Memory.cells result ≡ (modelled M.Memory.cells self).cells }
    {
        let Machine { memory, users: _ } = self;
        memory
    }

    /// Sets an entry or the switches of the user that a map word names.
    pub fn map(&mut self, word: u16) -> Result<(), Denial>
        ensures { Makes M.Memory.cells self.old (mapping word) (answered result) self.new }
    {
        let MapWord { who, setting } = MapWord::try_from(word)?;
        let user = self.users.of_mut(who);
        match setting {
            Setting::Entry(entry) => assign(user, &self.memory, entry),
            Setting::Switches(switches) => {
                user.map.switches = switches;
                Ok(())
            }
        }
    }

    /// Writes the cell at a physical address.
    pub fn put(&mut self, at: usize, word: u16) -> Result<(), Denial>
        ensures { Makes M.Memory.cells self.old (putting at word) (answered result) self.new }
    {
        self.memory.write(at, word)?;
        Ok(())
    }

    /// Reads the cell at a physical address.
    pub fn get(&mut self, at: usize) -> Result<u16, Denial>
        ensures { Makes M.Memory.cells self.old (getting at) (got result) self.new }
    {
        Ok(self.memory.read(at)?)
    }

    /// Starts a user. A permit names its user and not its machine: it is held against the record of this one.
    pub fn start(&mut self, permit: Held, registers: Registers) -> Result<Ready, Denied<Held>>
        ensures { Makes M.Memory.cells self.old (starting permit.who registers) (begun result) self.new }
    {
        match begin(self.users.of_mut(permit.who), registers) {
            Ok(()) => Ok(Ready { who: permit.who }),
            Err(reason) => Err(Denied { reason, permit }),
        }
    }

    /// Runs a user for at most `budget` steps.
    pub fn run(&mut self, permit: Ready, budget: u16) -> Result<Ended, Denied<Ready>>
        ensures laws { Lawful }
        ensures makes { Makes M.Memory.cells self.old (running permit.who budget) (ran_on result) self.new }
    {
        let user = self.users.of_mut(permit.who);
        match carry_on(user, &mut self.memory, budget) {
            Ok(ran) => Ok(Ended {
                steps: ran.steps,
                stop: ran.stop,
                permit: permit_of(permit.who, kind_left_by(ran.stop)),
            }),
            Err(reason) => Err(Denied { reason, permit }),
        }
    }

    /// Shows a user's registers, the kind of its permit and its latest stop.
    pub fn show(&self, who: Who) -> Shown
        ensures { Makes M.Memory.cells self.now (showing who) (seen result) self.now }
    {
        Shown::from(self.users.of(who))
    }
}
