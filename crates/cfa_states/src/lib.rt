//! What is kept of the history of a run while it is made: the state of a run, its activations, and the promises that define variables
//! and classes.
#![tactic(auto)]

mod activations;
mod binding;
mod changing;
mod defining;
mod endings;
mod logs;
mod numbered;
mod register;
mod remembering;
mod shared_scopes;
mod states;
mod waits;
mod walks;

pub use activations::{Activation, guard_status, inner_path, scopes_of};
pub use binding::bind;
pub use defining::{pass_over, reach_classes, reach_vars};
pub use endings::Ending;
pub use logs::{Log, names_of, walk_of};
pub use numbered::{Numbered, numbered_in};
pub use remembering::{Found, Known, Moment, empty_rows, guard_known, moment_of, still_found};
pub use states::{MOST_VISITS, State};
pub use waits::{Wait, waits_of};
pub use walks::{Blame, Visit, Walk};
