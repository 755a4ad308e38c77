//! Edit bundles: the walk of one for a combination of the promise that calls it, and the script that comes of it.
#![tactic(auto)]

mod blaming;
mod calling;
mod contributing;
mod edit_making;
mod editing;
mod errors;
mod numbering;
mod raising;
mod reaching;
mod scripting;
mod walking;

pub use blaming::Unsettled;
pub use calling::{Caller, Walked, walk_bundle};
pub use edit_making::count_combined;
pub use editing::is_right;
pub use errors::ScriptErr;
pub use scripting::Scripted;
