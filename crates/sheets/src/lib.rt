//! A sheet carried out: each row is a call of a machine, and gives one line of the report.

#![tactic(auto)]

mod acts;
mod desk;
mod line;
pub mod report;
