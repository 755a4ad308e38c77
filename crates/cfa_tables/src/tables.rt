// Tables, read and written.
ghost use Rattle.std.specs.Prelude.{◌≡◌, ◌↔◌, ℕ, List, IfErr, IfOk, IsTrue};
ghost use Rattle.std.specs.declared.cmp.Ordering.TheVariants.{Less};
ghost use Rattle.cfa_base.specs.TextMaps.{text_cmp};
ghost use Rattle.cfa_rows.specs.Rows.{written};
ghost use Rattle.cfa_tables.specs.Tables.{service_text, perms_text, lock_text, IsServiceRow, IsPermsRow, IsLockRow, Rises, IsWhole, HasBadPiece, IsTable, HasBadRow};

use crate::TableErr;
use crate::rows::{
    append_lock_row, append_perms_row, append_service_row, read_lock_row, read_perms_row,
    read_service_row,
};
use cfa_base::{Bytes, Key, Name, NoMemory};
use cfa_outside::{Path, Perms, ServiceRow};
use cfa_rows::{Format, RowsErr, read_rows, write_rows};
use std::alloc::Global;
use std::cmp::Ordering;

// Whether a key stands above the one before it, in the order of bytes.
fn is_above(last: &str, key: &str) -> bool
    ensures { IsTrue result ↔ (text_cmp last.now key.now ≡ Less) }
{
    last.cmp(key) == Ordering::Less
}

/// How rows of services are written as lines.
pub struct Services;

impl Format for Services {
    type Row = (Name, ServiceRow);

    ghost form = { service_text };

    ghost follows = { Rises IsServiceRow };

    fn append(alloc: Global, bytes: &mut Bytes, row: &(Name, ServiceRow)) -> Result<(), NoMemory> {
        append_service_row(alloc, bytes, &row.0, row.1)
    }

    fn read(
        alloc: Global,
        last: Option<&(Name, ServiceRow)>,
        line: &[u8],
    ) -> Result<Option<(Name, ServiceRow)>, NoMemory> {
        let Some(row) = read_service_row(alloc, line)? else {
            return Ok(None);
        };
        if let Some(last) = last {
            let before = last.0.as_str();
            let key = row.0.as_str();
            if !is_above(before, key) {
                return Ok(None);
            }
        }
        Ok(Some(row))
    }
}

/// How rows of permissions are written as lines.
pub struct Permissions;

impl Format for Permissions {
    type Row = (Path, Perms);

    ghost form = { perms_text };

    ghost follows = { Rises IsPermsRow };

    fn append(alloc: Global, bytes: &mut Bytes, row: &(Path, Perms)) -> Result<(), NoMemory> {
        append_perms_row(alloc, bytes, row.0.text(), &row.1)
    }

    fn read(
        alloc: Global,
        last: Option<&(Path, Perms)>,
        line: &[u8],
    ) -> Result<Option<(Path, Perms)>, NoMemory> {
        let Some(row) = read_perms_row(alloc, line)? else {
            return Ok(None);
        };
        if let Some(last) = last {
            let last_path = last.0.text();
            let before = last_path.as_str();
            let path = row.0.text();
            let key = path.as_str();
            if !is_above(before, key) {
                return Ok(None);
            }
        }
        Ok(Some(row))
    }
}

/// How rows of locks are written as lines.
pub struct Locks;

impl Format for Locks {
    type Row = (Key, u64);

    ghost form = { lock_text };

    ghost follows = { Rises IsLockRow };

    fn append(alloc: Global, bytes: &mut Bytes, row: &(Key, u64)) -> Result<(), NoMemory> {
        append_lock_row(alloc, bytes, &row.0, row.1)
    }

    fn read(
        alloc: Global,
        last: Option<&(Key, u64)>,
        line: &[u8],
    ) -> Result<Option<(Key, u64)>, NoMemory> {
        let Some(row) = read_lock_row(line) else {
            return Ok(None);
        };
        if let Some(last) = last {
            let before = last.0.text();
            let key = row.0.text();
            if !is_above(before, key) {
                return Ok(None);
            }
        }
        Ok(Some(row))
    }
}

// The rows of a table, by their format.
fn read_table<F: Format>(alloc: Global, bytes: &Bytes) -> Result<Vec<F::Row>, TableErr>
    ensures ok { IfOk result (λ rows. IsWhole F.form F.follows bytes.now rows.items) }
    ensures bad { IfErr result (λ e. (line : ℕ) → e ≡ TableErr.BadTable line
        → HasBadPiece F.form F.follows bytes.now line) }
{
    let (rows, rest) = match read_rows::<F>(alloc, bytes.as_slice()) {
        Ok(read) => read,
        Err(RowsErr::BadLine(line)) => return Err(TableErr::BadTable(line)),
        Err(RowsErr::NoMemory) => return Err(TableErr::NoMemory),
    };
    if rest.is_empty() {
        Ok(rows)
    } else {
        Err(TableErr::BadTable(rows.len() as u64 + 1))
    }
}

/// The rows of a table of services.
pub fn read_services(alloc: Global, bytes: &Bytes) -> Result<Vec<(Name, ServiceRow)>, TableErr>
    ensures ok { IfOk result (λ rows. IsTable service_text IsServiceRow bytes.now rows.items) }
    ensures bad { IfErr result (λ e. (line : ℕ) → e ≡ TableErr.BadTable line
        → HasBadRow service_text IsServiceRow bytes.now line) }
{
    read_table::<Services>(alloc, bytes)
}

/// The rows of a table of permissions.
pub fn read_perms(alloc: Global, bytes: &Bytes) -> Result<Vec<(Path, Perms)>, TableErr>
    ensures ok { IfOk result (λ rows. IsTable perms_text IsPermsRow bytes.now rows.items) }
    ensures bad { IfErr result (λ e. (line : ℕ) → e ≡ TableErr.BadTable line
        → HasBadRow perms_text IsPermsRow bytes.now line) }
{
    read_table::<Permissions>(alloc, bytes)
}

/// The rows of a table of locks.
pub fn read_locks(alloc: Global, bytes: &Bytes) -> Result<Vec<(Key, u64)>, TableErr>
    ensures ok { IfOk result (λ rows. IsTable lock_text IsLockRow bytes.now rows.items) }
    ensures bad { IfErr result (λ e. (line : ℕ) → e ≡ TableErr.BadTable line
        → HasBadRow lock_text IsLockRow bytes.now line) }
{
    read_table::<Locks>(alloc, bytes)
}

/// The text of a table of services.
pub fn write_services(alloc: Global, rows: &[(Name, ServiceRow)]) -> Result<Bytes, NoMemory>
    ensures { IfOk result (λ bytes. bytes ≡ written service_text rows.now) }
{
    write_rows::<Services>(alloc, rows)
}

/// The text of a table of permissions.
pub fn write_perms(alloc: Global, rows: &[(Path, Perms)]) -> Result<Bytes, NoMemory>
    ensures { IfOk result (λ bytes. bytes ≡ written perms_text rows.now) }
{
    write_rows::<Permissions>(alloc, rows)
}

/// The text of a table of locks.
pub fn write_locks(alloc: Global, rows: &[(Key, u64)]) -> Result<Bytes, NoMemory>
    ensures { IfOk result (λ bytes. bytes ≡ written lock_text rows.now) }
{
    write_rows::<Locks>(alloc, rows)
}
