//! Edits of the lines of a text: scripts of edits, the lines that they leave, and whether they leave lines as they are.
#![tactic(auto)]

mod edits;
mod fields;
mod inserting;
mod lining;
mod scripts;
mod texts;
mod writing;

pub use edits::{Edit, EditErr, Spot};
pub use fields::with_field;
pub use scripts::{Script, texts_tell_scripts};
pub use texts::{join_lines, split_lines};
