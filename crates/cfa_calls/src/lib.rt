//! Calls between bundles, and the first of those that lie on a cycle.
#![tactic(auto)]

mod components;
mod cycles;
mod reaching;

pub use cycles::{Call, first_on_cycle};
