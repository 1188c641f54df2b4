ghost use Rattle.std.specs.Prelude.{Some, codes};

use std::error::Error;
use std::fmt;

/// Why a memory refuses a read or a write: the address is past its last cell, or the cell is spoiled.
#[derive(Clone, Copy, PartialEq, Eq, Debug)]
pub enum MemoryFault {
    Range,
    Spoiled,
}

/// A memory that was not made because its size is wrong; what was handed in for it comes back.
#[derive(Drop)]
#[derive_where(Debug)]
pub struct WrongSize<T> {
    #[derive_where(skip)]
    pub back: T,
}

impl<T> fmt::Display for WrongSize<T> {
    ghost output = { λ _. Some (codes "a memory of a wrong size") };

    fn fmt<W: fmt::Write>(&self, f: &mut fmt::Formatter<W>) -> fmt::Result {
        write!(f, "a memory of a wrong size")
    }
}

impl<T: Drop> Error for WrongSize<T> {}
