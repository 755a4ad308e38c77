//! Texts for a person, one for each code, cause, reason and refused word, and the line of the source with a mark; a source without a
//! statement; and what keeps what was put, asked for and looked at in a call.
#![tactic(auto)]

mod advising;
mod blanking;
mod ends;
mod excerpts;
mod faults;
mod lines;
mod reasons;
mod sought;
mod sources;
mod told;
mod usage;
mod usage_texts;

pub use advising::{Style, Subject, push_conflict, push_failed, push_refused, push_shown};
pub use blanking::{FIRST_PLACE, behind_byte, blanked};
pub use ends::{MOMENT, settled_sentence, stop_sentence};
pub use excerpts::{Excerpt, excerpt_of, line_of};
pub use faults::{FAULTS, Fault, fault_of};
pub use lines::{
    ConflictLine, FailedLine, IdText, RefusedLine, read_conflict, read_failed, read_id,
    read_refused,
};
pub use reasons::{CAUSES, Cause, REASONS, Reason, cause_of, reason_of};
pub use sought::{NotingSite, Sight, Sights};
pub use sources::Sources;
pub use told::{NotingInputs, NotingSink, ToldLines};
pub use usage::{Given, WordsFault, given_by, words_fault};
pub use usage_texts::words_advice;
