//! Prints a policy in its canonical text, which reads back to the same policy.
#![tactic(auto)]

mod attributes;
mod blocks;
mod expressions;
mod guards;
mod laws;
mod promises;
mod texts;
mod values;

pub use blocks::print;
pub use laws::{guard_test, reading_back};
