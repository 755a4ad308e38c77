//! Worked rows of the top call, in the tables of a folder: policies, hosts, logs, lines and statuses. What isn't met is told. Who makes
//! the calls is handed in, so that the readers of the rows stand below the top call.
#![tactic(auto)]

mod calls;
mod folders;
mod keys;
mod reports;
mod run_logs;
mod run_tables;
mod tables;
mod texts;
mod worlds;

pub use calls::Top;
pub use tables::run_all;
