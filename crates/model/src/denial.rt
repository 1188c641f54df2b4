ghost use Rattle.std.specs.Prelude.{◌≡◌, ◌++◌, Some, codes, decimal};
ghost use Rattle.model.specs.Numbers.{number_of, from_cause};

use memory::MemoryFault;
use std::error::Error;
use std::fmt;

/// A denial: a call that cannot be done answers why, and changes nothing.
#[derive(Clone, Copy, PartialEq, Eq, Debug)]
pub enum Denial {
    /// The memory refuses: the address is past its last cell, or the cell is spoiled.
    Memory(MemoryFault),
    /// A start with a PC over 077777.
    Pc,
    /// A block word whose physical block is not in the memory.
    Block,
    /// A map word of neither form, or a status word with an option that there is not.
    BadOption,
    /// The record of the user has another kind of permit.
    Permit,
    /// A memory that is not 1 to 127 whole blocks.
    Size,
    /// A row of a sheet that has a wrong form.
    Sheet,
}

impl From<MemoryFault> for Denial {
    ghost from_gives = { λ x y. y ≡ from_cause x };

    fn from(value: MemoryFault) -> Denial {
        Denial::Memory(value)
    }
}

impl Denial {
    /// The number of the denial, 1 to 8. A method and no `From`, since `u8::from` would not say which number it gives.
    pub fn number(self) -> u8
        ensures { result ≡ number_of self }
    {
        match self {
            Denial::Memory(cause) => cause.number(),
            Denial::Pc => 3,
            Denial::Block => 4,
            Denial::BadOption => 5,
            Denial::Permit => 6,
            Denial::Size => 7,
            Denial::Sheet => 8,
        }
    }
}

impl fmt::Display for Denial {
    ghost output = { λ d. Some (codes "denied with " ++ decimal (number_of d)) };

    fn fmt<W: fmt::Write>(&self, f: &mut fmt::Formatter<W>) -> fmt::Result {
        let number = self.number();
        write!(f, "denied with {number}")
    }
}

impl Error for Denial {}
