//! What a run does where it reaches a promise, visits an instance and calls a bundle.
#![tactic(auto)]

mod calling;
mod counting;
mod ending;
mod facts;
mod remembered;

pub use calling::begin_call;
pub use counting::{count_instances, instances_of};
pub use ending::{end_visit, visit_status};
pub use facts::{ids_are_counted, names_are_plain};
pub use remembered::{Remembered, remembered_in};
