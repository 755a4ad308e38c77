//! The schema of policies: which trees are valid policies, and the first refusal of one that isn't.
#![tactic(auto)]

mod blocks;
mod bundle_calls;
mod checked;
mod definitions;
mod errors;
mod laws;
mod patterns;
mod policies;
mod promises;
mod verdicts;

pub use cfa_values::{Code, Refusal};
pub use checked::Checked;
pub use errors::SchemaErr;
pub use laws::{
    chains_are_short, ids_are_found, lines_are_counts, named_blocks_are_there, names_are_words,
    one_refusal, served_bundles_stand, served_names_are_words,
};
pub use verdicts::check;
