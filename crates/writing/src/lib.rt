//! Numbers and lines in octal, written as bytes or text.

#![tactic(auto)]

pub mod lines;

pub use lines::{OctalLine, put_line};
