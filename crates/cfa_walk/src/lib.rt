//! The history of a run: what happens in the passes of a policy, by who tells how its instances end.
#![tactic(auto)]

mod contexts;
mod listing;
mod stepping;
mod tellers;
mod walking;

pub use cfa_states::{Blame, Ending, MOST_VISITS, Visit, Walk, names_of};
pub use contexts::Context;
pub use listing::{Telling, WalkErr, walk};
pub use stepping::step;
pub use tellers::Teller;
