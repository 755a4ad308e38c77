//! What a command line asks for, read from its words.
#![tactic(auto)]

mod words;

pub use words::{Options, Request, read_demo, read_words};
