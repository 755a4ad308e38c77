//! The files of a policy, read one after the other to a checked policy. Only the inputs and the patterns are touched.
#![tactic(auto)]

mod headings;
mod laws;
mod policies;
mod reading;
mod refusing;

pub use laws::{a_file_has_one_answer, a_policy_has_one_answer, a_source_has_one_answer};
pub use policies::read_policy;
pub use reading::{read_source, read_tree_of};
pub use refusing::file_name;
