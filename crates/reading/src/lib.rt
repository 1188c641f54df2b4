//! The text of a sheet, read row by row.

#![tactic(auto)]

pub mod row;
pub mod rows;
pub mod text;

pub use row::Row;
pub use rows::Rows;
pub use text::{after_word, open_sheet, read_row};
