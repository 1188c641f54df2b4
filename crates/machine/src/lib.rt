//! The machine that a host calls: two users over any memory.

#![tactic(auto)]

pub mod calls;
pub mod compare;
mod map_word;
pub mod permit;
mod record;
mod setting;
mod users;

pub use calls::{Ended, Machine, Shown};
pub use permit::{Denied, Held, Permit, Ready};
