//! The reading of tokens into the tree of a policy, by the grammar of `cfa_tree`.
#![tactic(auto)]

mod bundles;
mod errors;
mod headings;
mod laws;
mod promises;
mod reader;
mod sections;
mod texts;
mod values;

pub use errors::ParseErr;
pub use laws::reading_is_unique;
pub use reader::parse;
