//! The history of a host by its journal: what was done by promise, and which files changed in between.
#![tactic(auto)]

mod endings;
mod gaps;
mod histories;
mod laws;
mod rows;

pub use gaps::Gap;
pub use histories::{History, history_of};
pub use laws::{no_more_records, rows_are_one};
pub use rows::Row;
