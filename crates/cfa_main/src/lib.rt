//! The top call: what a call of the agent does, by its words, on any host, with any inputs and any sink.
#![tactic(auto)]

mod agent;
mod auditing;
mod demonstrating;
mod ends;
mod histories;
mod laws;
mod performing;
mod preparing;
mod searching;
mod work;

pub use agent::agent_main;
pub use ends::stop_status;
pub use laws::a_call_does_one_thing;
