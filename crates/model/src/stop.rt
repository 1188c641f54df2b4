ghost use Rattle.std.specs.Prelude.{◌≡◌, Some};
ghost use Rattle.model.specs.Numbers.{values_of, by_fault, latest_values, stop_text};

use crate::fault::{Fault, MapFault};
use std::fmt;

/// Why a run ended. A stop but the first holds the address of its instruction and the word fetched there.
#[derive(Clone, Copy, PartialEq, Eq, Debug)]
pub enum Stop {
    /// The budget is spent; the address is the PC.
    Spent {
        address: u16,
    },
    /// SYC was done.
    Call {
        address: u16,
        word: u16,
    },
    /// A step was not completed; the word is 0 where none was fetched.
    Faulted {
        address: u16,
        word: u16,
        fault: Fault,
    },
}

/// The six numbers of a stop; one that is absent is 0. The code works with `Stop`; these numbers are what a
/// report and a host are told, and the machine's rules are in terms of them.
#[derive(Clone, Copy, PartialEq, Eq, Debug)]
pub struct StopValues {
    pub reason: u8,
    pub address: u16,
    pub word: u16,
    pub logical: u16,
    pub physical: u32,
    pub cause: u8,
}

impl StopValues {
    /// A stop with a reason, the address and the word of its instruction, and nothing else.
    fn plain(reason: u8, address: u16, word: u16) -> StopValues
        ensures { result ≡ record { reason = reason; address = address; word = word; logical = 0; physical = 0; cause = 0 } }
    {
        StopValues {
            reason,
            address,
            word,
            logical: 0,
            physical: 0,
            cause: 0,
        }
    }
}

impl fmt::Display for StopValues {
    ghost output = { λ s. Some (stop_text s) };

    fn fmt<W: fmt::Write>(&self, f: &mut fmt::Formatter<W>) -> fmt::Result {
        let StopValues {
            reason,
            address,
            word,
            logical,
            physical,
            cause,
        } = *self;
        write!(
            f,
            "stop {reason}: address {address:o}, word {word:o}, logical {logical:o}, physical {physical:o}, cause {cause}"
        )
    }
}

fn faulted(address: u16, word: u16, fault: Fault) -> StopValues
    ensures { result ≡ by_fault address word fault }
{
    match fault {
        Fault::Map(MapFault::Validity(logical)) => StopValues {
            logical,
            ..StopValues::plain(12, address, word)
        },
        Fault::Map(MapFault::Protected(logical)) => StopValues {
            logical,
            ..StopValues::plain(13, address, word)
        },
        Fault::Chain(logical) => StopValues {
            logical,
            ..StopValues::plain(14, address, word)
        },
        Fault::Map(MapFault::Memory(e)) => StopValues {
            logical: e.logical,
            physical: e.physical,
            cause: e.cause.number(),
            ..StopValues::plain(15, address, word)
        },
        Fault::Device => StopValues::plain(16, address, word),
        Fault::Stack => StopValues::plain(17, address, word),
        Fault::Code => StopValues::plain(18, address, word),
        Fault::Execute => StopValues::plain(19, address, word),
    }
}

impl Stop {
    /// The numbers of the stop; its reason is 10 to 19.
    pub fn values(self) -> StopValues
        ensures { result ≡ values_of self }
    {
        match self {
            Stop::Spent { address } => StopValues::plain(10, address, 0),
            Stop::Call { address, word } => StopValues::plain(11, address, word),
            Stop::Faulted {
                address,
                word,
                fault,
            } => faulted(address, word, fault),
        }
    }
}

/// The numbers of a user's latest stop, all 0 before the first run.
pub fn latest_stop(latest: Option<Stop>) -> StopValues
    ensures { result ≡ latest_values latest }
{
    match latest {
        None => StopValues::plain(0, 0, 0),
        Some(stop) => stop.values(),
    }
}
