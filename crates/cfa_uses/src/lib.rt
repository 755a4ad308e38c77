//! What the texts of a policy define, set, raise, call and ask for, found by their tokens alone, and where their statements stand; for what
//! a person is told.
#![tactic(auto)]

mod found;
mod places;
mod references;
mod sets;
mod statements;
mod uses;
mod walking;

pub use places::behind;
pub use sets::{NameSet, PairSet};
pub use statements::{Statement, statement_at};
pub use uses::{Frame, Mention, Restart, Uses};
pub use walking::uses_of;
