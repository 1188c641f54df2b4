ghost use Rattle.std.specs.Prelude.{◌≡◌};
ghost use Rattle.memory.specs.Numbers.{fault_number, wrong_size_number};

use crate::fault::{MemoryFault, WrongSize};

impl MemoryFault {
    /// The number of the denial: 1 past the last cell, 2 at a spoiled cell. A method and no `From`, since `u8::from` would
    /// not say which number it gives.
    pub fn number(self) -> u8
        ensures { result ≡ fault_number self }
    {
        match self {
            MemoryFault::Range => 1,
            MemoryFault::Spoiled => 2,
        }
    }
}

impl<T> WrongSize<T> {
    /// The number of the denial, 7.
    pub fn number(&self) -> u8
        ensures { result ≡ wrong_size_number }
    {
        7
    }
}
