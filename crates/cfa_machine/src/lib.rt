//! A run that stands between two of its moves: what its frames have still to do, and what they remember.
#![tactic(auto)]

mod answering;
mod beginning;
mod commons;
mod frames;
mod machines;
mod reaching;
mod stepping;
mod tops;

pub use commons::Common;
pub use frames::{Doing, Frame, Hand};
pub use machines::{Machine, Need};
pub use tops::Top;
