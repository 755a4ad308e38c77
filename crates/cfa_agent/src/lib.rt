//! The agent: runs a policy on a host, writes its journal, and puts what became of its promises.
#![tactic(auto)]

mod actuating;
mod agents;
mod digesting;
mod laws;
mod locking;
mod progress;
mod putting;
mod recording;
mod running;
mod telling;

pub use agents::{Agent, Progress, Stepped};
pub use laws::{bracketed_logs_tell, fronts_are_bracketed, logs_are_bracketed};
pub use running::{Tally, run};
