// Rows that changed since the tables were written, as lines of a file of their own.
ghost use Rattle.std.specs.Prelude.{◌≡◌, ◌++◌, [], ◌∷◌, codes, IfOk, OnOk};
ghost use Rattle.cfa_rows.specs.Rows.{Reads, ◌then◌};
ghost use Rattle.cfa_tables.specs.ReadOver.{counts_at};
ghost use Rattle.cfa_tables.specs.RowChanges.{IsRowChange, IsNext, change_text};

use crate::fields::{append_text, read_path};
use crate::rows::{
    append_behind_row, append_lock_row, append_perms_row, append_service_row, read_behind_row,
    read_lock_row, read_perms_row, read_service_row,
};
use cfa_base::{Bytes, Key, Name, NoMemory};
use cfa_outside::{Path, Perms, ServiceRow};
use cfa_rows::{Format, cut, is_text};
use std::alloc::Global;

/// One changed row.
#[derive(Debug, Drop)]
pub enum RowChange {
    /// The node has these permissions.
    Permissions(Path, Perms),
    /// The node is gone, and has no row.
    Gone(Path),
    Service(Name, ServiceRow),
    Lock(Key, u64),
    /// The row of a lock that was set behind a record of the journal. It counts where the journal has so many bytes.
    LockBehind(u64, Key, u64),
}

impl RowChange {
    /// Whether the row counts where the journal has so many bytes.
    pub fn counts_at(&self, journal: u64) -> bool
        ensures { result ≡ counts_at journal self.now }
    {
        match self {
            RowChange::LockBehind(length, _, _) => *length <= journal,
            _ => true,
        }
    }
}

fn read_permissions(alloc: Global, fields: &[u8]) -> Result<Option<RowChange>, NoMemory>
    ensures { IfOk result (Reads change_text IsRowChange (codes "perms" then fields.now)) }
{
    match read_perms_row(alloc, fields)? {
        Some((path, perms)) => Ok(Some(RowChange::Permissions(path, perms))),
        None => Ok(None),
    }
}

fn read_gone(alloc: Global, fields: &[u8]) -> Result<Option<RowChange>, NoMemory>
    ensures { IfOk result (Reads change_text IsRowChange (codes "gone" then fields.now)) }
{
    match read_path(alloc, fields)? {
        Some(path) => Ok(Some(RowChange::Gone(path))),
        None => Ok(None),
    }
}

fn read_service(alloc: Global, fields: &[u8]) -> Result<Option<RowChange>, NoMemory>
    ensures { IfOk result (Reads change_text IsRowChange (codes "service" then fields.now)) }
{
    match read_service_row(alloc, fields)? {
        Some((name, row)) => Ok(Some(RowChange::Service(name, row))),
        None => Ok(None),
    }
}

fn read_lock(fields: &[u8]) -> Option<RowChange>
    ensures { Reads change_text IsRowChange (codes "lock" then fields.now) result }
{
    match read_lock_row(fields) {
        Some((key, moment)) => Some(RowChange::Lock(key, moment)),
        None => None,
    }
}

fn read_behind(fields: &[u8]) -> Option<RowChange>
    ensures { Reads change_text IsRowChange (codes "behind" then fields.now) result }
{
    match read_behind_row(fields) {
        Some((length, (key, moment))) => Some(RowChange::LockBehind(length, key, moment)),
        None => None,
    }
}

// The changed row that a line is.
fn read_change(alloc: Global, line: &[u8]) -> Result<Option<RowChange>, NoMemory>
    ensures { IfOk result (Reads change_text IsRowChange line.now) }
{
    let Some((word, fields)) = cut(line, b' ') else {
        return Ok(None);
    };
    if is_text(word, "perms") {
        read_permissions(alloc, fields)
    } else if is_text(word, "gone") {
        read_gone(alloc, fields)
    } else if is_text(word, "service") {
        read_service(alloc, fields)
    } else if is_text(word, "lock") {
        Ok(read_lock(fields))
    } else if is_text(word, "behind") {
        Ok(read_behind(fields))
    } else {
        Ok(None)
    }
}

// Adds the line of a changed row, without its newline.
#[tactic(auto, unfolding(crate::specs::RowChanges::change_text))]
fn append_change(alloc: Global, bytes: &mut Bytes, change: &RowChange) -> Result<(), NoMemory>
    ensures { OnOk result (bytes.new ≡ bytes.old ++ change_text change.now) }
{
    match change {
        RowChange::Permissions(path, perms) => {
            bytes.append(b"perms ")?;
            append_perms_row(alloc, bytes, path.text(), perms)
        }
        RowChange::Gone(path) => {
            bytes.append(b"gone ")?;
            append_text(alloc, bytes, path.text())
        }
        RowChange::Service(name, row) => {
            bytes.append(b"service ")?;
            append_service_row(alloc, bytes, name, *row)
        }
        RowChange::Lock(key, moment) => {
            bytes.append(b"lock ")?;
            append_lock_row(alloc, bytes, key, *moment)
        }
        RowChange::LockBehind(length, key, moment) => {
            bytes.append(b"behind ")?;
            append_behind_row(alloc, bytes, *length, key, *moment)
        }
    }
}

/// The line of a changed row, with its newline.
pub fn change_line(alloc: Global, change: &RowChange) -> Result<Bytes, NoMemory>
    ensures { IfOk result (λ line. line ≡ change_text change.now ++ 10 ∷ []) }
{
    let mut line = Bytes::from_vec(Vec::new(alloc));
    append_change(alloc, &mut line, change)?;
    line.append(b"\n")?;
    Ok(line)
}

/// How changed rows are written as lines.
pub struct RowChanges;

impl Format for RowChanges {
    type Row = RowChange;

    ghost form = { change_text };

    ghost follows = { IsNext };

    fn append(alloc: Global, bytes: &mut Bytes, row: &RowChange) -> Result<(), NoMemory> {
        append_change(alloc, bytes, row)
    }

    fn read(
        alloc: Global,
        _last: Option<&RowChange>,
        line: &[u8],
    ) -> Result<Option<RowChange>, NoMemory> {
        read_change(alloc, line)
    }
}
