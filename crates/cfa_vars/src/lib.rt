//! Variables: the scopes that keep them, the references of a text and what they stand for, the expansion of a text,
//! and the combinations that lists give.
#![tactic(auto)]

mod choosing;
mod expanding;
mod looking;
mod references;
mod scoping;
mod sharing;

pub use choosing::{Choice, ChoiceList, Choices, combinations, first_unset_in};
pub use expanding::{Expanded, expand, is_plain};
pub use looking::{Scopes, Variable, constant, list_key, look_up};
pub use references::{Reference, first_reference, list_reference, split_name};
pub use scoping::{Datum, Scope};
pub use sharing::SharedScopes;
