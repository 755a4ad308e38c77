//! The functions of values and classes: what a function call answers, and the texts and lists that values give.
#![tactic(auto)]

mod answering;
mod calling;
mod listing;
mod making;
mod reading;
mod wanting;

pub use answering::Answer;
pub use calling::{CallErr, call};
pub use listing::{ValueList, list_of_value};
pub use making::canonify;
pub use reading::{ValueText, reference_text, referred_list, text_of_value};
