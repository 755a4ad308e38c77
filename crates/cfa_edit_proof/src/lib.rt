//! Which scripts of line edits settle on all lines: two edits of a script clash where the one may undo what the other did,
//! and a script without a clash never fails to settle.
#![tactic(auto)]

mod clashes;
mod finding;
mod laws;
mod pairs;
mod search;
mod texts;

pub use clashes::Clash;
pub use finding::quiet;
pub use laws::{have_texts, quiet_never_fails, quiet_settles};
