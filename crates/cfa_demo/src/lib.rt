//! What a demo is made of: a policy of as many promises as are asked for, each of which is repaired on an empty host; a
//! site that counts the entries of its log and the changes among them; and objects of the outside that nothing is read
//! from or put to.
#![tactic(auto)]

mod counting;
mod policies;
mod quiet;

pub use counting::{CountingSite, counts_are_exact};
pub use policies::demo_policy;
pub use quiet::{NoPatterns, Nowhere, OneText};
