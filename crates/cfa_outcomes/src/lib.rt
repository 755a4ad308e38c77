//! Outcomes of promises, and the environment that they leave: the statuses of classes with the promises that first raised
//! them, and the marks of the instances that were listed.
#![tactic(auto)]

mod environments;
mod marking;
mod outcomes;
mod text_marks;

pub use environments::Environment;
pub use outcomes::Outcome;
