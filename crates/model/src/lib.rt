//! The machine of the rules: the values that it keeps and answers. What each call does is in `specs/`.

#![tactic(auto)]

pub mod denial;
pub mod fault;
pub mod steps;
pub mod stop;
pub mod user;

pub use denial::Denial;
pub use fault::{Fault, Located, MapFault};
pub use steps::{Operation, Outcome, Ran, Turn};
pub use stop::{Stop, StopValues};
pub use user::{Kind, Page, Registers, Switches, User, UserMap, Who};
