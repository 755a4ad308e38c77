//! What the bodies of a promise say in one of its combinations, and what the arguments of bodies and bundles give.
#![tactic(auto)]

mod arguments;
mod bodies;
mod hearing;
mod sayings;

pub use arguments::{bind, data_given, empty_text, name_given, whole_or_empty};
pub use bodies::bodies_of;
pub use hearing::{Bodies, Heard, hear};
pub use sayings::{Said, Sayings, text_in, text_or_empty};
