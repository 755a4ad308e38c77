//! The verdict on a policy: its first two promises in conflict, and what they meet in.
#![tactic(auto)]

mod analysing;
mod judging;
mod live;
mod numbers;
mod pairs;
mod resources;
mod targets;
mod text_places;
mod verdicts;

pub use analysing::{analyse, conflicts_meet_in_resources};
pub use judging::judge;
pub use verdicts::{Cause, Conflict, Verdict};
