//! The journal of a host: its records, written and read.
#![tactic(auto)]

mod audits;
mod fields;
mod journals;
mod laws;
mod positions;
mod reading;
mod records;
mod storing;

pub use audits::{AuditedRun, audit};
pub use journals::{Journal, JournalErr, MOST_JOURNAL_BYTES, read, write};
pub use laws::one_journal;
pub use records::{Digest, Record, SharedKey};
pub use storing::{RecordRef, StoredRecord};
