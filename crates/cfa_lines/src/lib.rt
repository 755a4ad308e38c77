//! A deck of lines: the lines of a text and a place among them, where lines are looked at, taken out and put in.
#![tactic(auto)]

mod deck;

pub use deck::{Deck, split_lines};
