//! Laws of what promises raise and what they resolve to: how it hangs on the statuses of classes, and what key texts tell.
#![tactic(auto)]

mod keys;
mod raises;
mod resolving;

pub use keys::{instances_are_keyed, keys_are_lines};
pub use raises::{raises_have_first, raises_lie_together};
pub use resolving::{instances_are_same, unsettled_are_maybe};
