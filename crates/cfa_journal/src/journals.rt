// Journals.
ghost use Rattle.std.specs.Prelude.{◌≡◌, ◌≢◌, ◌++◌, ◌<◌, ◌≤◌, ◌↔◌, [], ◌∷◌, ℕ, length, IfErr, IfOk};
ghost use Rattle.cfa_rows.specs.Rows.{Reads};
ghost use Rattle.cfa_journal.specs.Records.{record_text, IsRecord};
ghost use Rattle.cfa_journal.specs.Positions.{MayStand};
ghost use Rattle.cfa_journal.specs.Journals.{IsJournal, HasBadRecord};
ghost use Rattle.cfa_journal.specs.declared.journals.JournalErr.TheVariants.{NoMemory};

use crate::positions::{Position, behind, is_in_place};
use crate::reading::{append_record, read_record};
use crate::{Record, StoredRecord};
use cfa_base as base;
use cfa_base::{Bytes, Parts};
use cfa_rows::cut;
use std::alloc::{AllocFailed, Global};
use thiserror::Error;

/// The most bytes of a journal.
pub const MOST_JOURNAL_BYTES: usize = 16_777_216;

/// What a journal holds: its records, and how many bytes stand behind its last newline.
#[derive(Debug, Drop)]
pub struct Journal {
    pub records: Parts<StoredRecord>,
    pub torn: u64,
}

/// Why bytes can't be read as a journal.
#[derive(Clone, Copy, Debug, PartialEq, Eq, Error)]
pub enum JournalErr {
    /// A line, by its number from 1, is no record in its place, and those before it are.
    #[error("line {0} is no record in its place")]
    BadRecord(u32),
    /// There are more than 16,777,216 bytes.
    #[error("the journal is too long")]
    TooLong,
    #[error("out of memory")]
    NoMemory,
}

impl From<base::NoMemory> for JournalErr {
    ghost from_gives = { λ _ e. e ≡ NoMemory };

    fn from(_: base::NoMemory) -> Self {
        JournalErr::NoMemory
    }
}

impl<T: Drop> From<AllocFailed<T>> for JournalErr {
    ghost from_gives = { λ _ e. e ≡ NoMemory };

    fn from(_: AllocFailed<T>) -> Self {
        JournalErr::NoMemory
    }
}

/// The line of a record, with its newline.
pub fn write(alloc: Global, item: &Record) -> Result<Bytes, base::NoMemory>
    requires { IsRecord item.now }
    ensures { IfOk result (λ bytes. bytes ≡ record_text item.now ++ 10 ∷ []) }
{
    let mut bytes = Bytes::from_vec(Vec::new(alloc));
    append_record(alloc, &mut bytes, item)?;
    bytes.append(b"\n")?;
    Ok(bytes)
}

// The record that a line is at this position. `None` where the line is no record that may stand there.
fn read_at(alloc: Global, position: Position, line: &[u8]) -> Result<Option<Record>, base::NoMemory>
    ensures { IfOk result (Reads record_text (MayStand position) line.now) }
{
    let Some(record) = read_record(alloc, line)? else {
        return Ok(None);
    };
    if is_in_place(position, &record) {
        Ok(Some(record))
    } else {
        Ok(None)
    }
}

// The records that bytes are, and what stands behind the last newline.
fn read_lines(alloc: Global, bytes: &[u8]) -> Result<(Vec<StoredRecord>, &[u8]), JournalErr>
    requires { length bytes.now ≤ MOST_JOURNAL_BYTES }
    ensures ok { IfOk result (λ r. IsJournal bytes.now r.0.items (length r.1.now)) }
    ensures bad { IfErr result (λ e. (line : ℕ) → e ≡ JournalErr.BadRecord line
        → HasBadRecord bytes.now line) }
    ensures short { result ≢ Err JournalErr.TooLong }
{
    let mut records = Vec::new(alloc);
    let mut position = Position::Start;
    let mut rest = bytes;
    let mut number = 1;
    'lines: while let Some((line, behind_line)) = cut(rest, b'\n') {
        let Some(record) = read_at(alloc, position, line)? else {
            return Err(JournalErr::BadRecord(number));
        };
        position = behind(position, &record);
        records.push(StoredRecord::new(alloc, record)?)?;
        rest = behind_line;
        number += 1;
    }
    Ok((records, rest))
}

/// The records of a journal. A last line without a newline is told as torn.
pub fn read(alloc: Global, bytes: &Bytes) -> Result<Journal, JournalErr>
    ensures ok { IfOk result (λ journal. IsJournal bytes.now journal.records journal.torn) }
    ensures bad { IfErr result (λ e. (line : ℕ) → e ≡ JournalErr.BadRecord line
        → HasBadRecord bytes.now line) }
    ensures within { IfOk result (λ journal. length bytes.now ≤ MOST_JOURNAL_BYTES) }
    ensures long { (result ≡ Err JournalErr.TooLong) ↔ (MOST_JOURNAL_BYTES < length bytes.now) }
{
    let bytes = bytes.as_slice();
    if bytes.len() > MOST_JOURNAL_BYTES {
        return Err(JournalErr::TooLong);
    }
    let (records, rest) = read_lines(alloc, bytes)?;
    Ok(Journal {
        records: Parts::from_vec(records),
        torn: rest.len() as u64,
    })
}
