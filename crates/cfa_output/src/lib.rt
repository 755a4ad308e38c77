//! What a call of the program puts: its lines, and how they are put; and what stops a call before its end.
#![tactic(auto)]

mod ends;
mod items;
mod lines;
mod puts;

pub use ends::{Failure, Object, Stop};
pub use items::{End, Halt, Item};
pub use lines::{line, line_of};
pub use puts::{SinkFailed, put_all};
