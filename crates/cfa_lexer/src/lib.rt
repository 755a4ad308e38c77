//! Cuts a policy's text into tokens.
#![tactic(auto)]

mod bytes;
mod errors;
mod fronts;
mod laws;
mod lexing;
mod placing;
mod tokens;

pub use cfa_base::Kind;
pub use errors::LexErr;
pub use fronts::token_len;
pub use laws::one_lexing;
pub use lexing::{end_place, lex};
pub use tokens::Token;
