//! What a person is told of a call that ended, and what is found by walking the texts that it read: names, classes and bundles of
//! which nothing comes, restarts that were skipped, what stands before a refusal, what is taken in the place of a refused value, and the
//! refusals behind the first one.
#![tactic(auto)]

mod before;
mod calendar;
mod calls;
mod further;
mod idle;
mod near;
mod patterns;
mod skipped;
mod standing;
mod takes;
mod values;

pub use before::before_text;
pub use calls::{Heard, wants_journal, wants_sources};
pub use further::{Refuses, further_refusals, further_text};
pub use idle::{Finding, findings_of, idle_text};
pub use patterns::{NotingPatterns, patterns_text};
pub use skipped::{skipped_restarts, skipped_text};
pub use takes::takes_text;
