// The rows of tables, read and written as lines without their newline.
ghost use Rattle.std.specs.Prelude.{◌≡◌, ◌++◌, IfOk, OnOk};
ghost use Rattle.cfa_rows.specs.Rows.{Reads};
ghost use Rattle.cfa_tables.specs.RowChanges.{IsBehindRow, behind_text};
ghost use Rattle.cfa_tables.specs.Tables.{service_text, perms_text, lock_text, IsServiceRow, IsPermsRow, IsLockRow};

use crate::fields::{
    append_text, cut_in_four, read_enabled, read_filled, read_key, read_path, read_restarts,
    read_running,
};
use crate::modes::{append_mode, read_mode};
use cfa_base::{Bytes, Key, Name, NoMemory};
use cfa_outside::{Path, Perms, ServiceRow};
use cfa_rows::{append_number, cut, read_number};
use std::alloc::Global;

/// The row of a service that a line is.
pub fn read_service_row(alloc: Global, line: &[u8]) -> Result<Option<(Name, ServiceRow)>, NoMemory>
    ensures { IfOk result (Reads service_text IsServiceRow line.now) }
{
    let Some((name, running, enabled, restarts)) = cut_in_four(line) else {
        return Ok(None);
    };
    let Some(running) = read_running(running) else {
        return Ok(None);
    };
    let Some(enabled) = read_enabled(enabled) else {
        return Ok(None);
    };
    let Some(restarts) = read_restarts(restarts) else {
        return Ok(None);
    };
    let Some(name) = read_filled(alloc, name)? else {
        return Ok(None);
    };
    let row = ServiceRow {
        running,
        enabled,
        restarts,
    };
    Ok(Some((name, row)))
}

/// The row of permissions that a line is.
pub fn read_perms_row(alloc: Global, line: &[u8]) -> Result<Option<(Path, Perms)>, NoMemory>
    ensures { IfOk result (Reads perms_text IsPermsRow line.now) }
{
    let Some((path, mode, owner, group)) = cut_in_four(line) else {
        return Ok(None);
    };
    let Some(mode) = read_mode(mode) else {
        return Ok(None);
    };
    let Some(path) = read_path(alloc, path)? else {
        return Ok(None);
    };
    let Some(owner) = read_filled(alloc, owner)? else {
        return Ok(None);
    };
    let Some(group) = read_filled(alloc, group)? else {
        return Ok(None);
    };
    Ok(Some((path, Perms { mode, owner, group })))
}

/// The row of a lock that a line is.
pub fn read_lock_row(line: &[u8]) -> Option<(Key, u64)>
    ensures { Reads lock_text IsLockRow line.now result }
{
    let Some((key, moment)) = cut(line, b' ') else {
        return None;
    };
    let Some(key) = read_key(key) else {
        return None;
    };
    let Some(moment) = read_number(moment) else {
        return None;
    };
    Some((key, moment))
}

/// The row of a lock behind a length of the journal that a line is.
pub fn read_behind_row(line: &[u8]) -> Option<(u64, (Key, u64))>
    ensures { Reads behind_text IsBehindRow line.now result }
{
    let Some((length, row)) = cut(line, b' ') else {
        return None;
    };
    let Some(length) = read_number(length) else {
        return None;
    };
    let Some(row) = read_lock_row(row) else {
        return None;
    };
    Some((length, row))
}

/// Adds the line of a service's row, without its newline.
#[tactic(auto, unfolding(crate::specs::Tables::service_text))]
pub fn append_service_row(
    alloc: Global,
    bytes: &mut Bytes,
    name: &Name,
    row: ServiceRow,
) -> Result<(), NoMemory>
    ensures { OnOk result (bytes.new ≡ bytes.old ++ service_text (name.now, row)) }
{
    append_text(alloc, bytes, name)?;
    bytes.append(if row.running {
        b" running"
    } else {
        b" stopped"
    })?;
    bytes.append(if row.enabled {
        b" enabled "
    } else {
        b" disabled "
    })?;
    append_number(alloc, bytes, u64::from(row.restarts))
}

/// Adds the line of a row of permissions, without its newline.
#[tactic(auto, unfolding(crate::specs::Tables::perms_text))]
pub fn append_perms_row(
    alloc: Global,
    bytes: &mut Bytes,
    path: &Name,
    row: &Perms,
) -> Result<(), NoMemory>
    ensures { OnOk result (bytes.new ≡ bytes.old ++ perms_text (path.now, row.now)) }
{
    append_text(alloc, bytes, path)?;
    bytes.append(b" ")?;
    append_mode(bytes, row.mode)?;
    bytes.append(b" ")?;
    append_text(alloc, bytes, &row.owner)?;
    bytes.append(b" ")?;
    append_text(alloc, bytes, &row.group)
}

/// Adds the line of a lock's row, without its newline.
#[tactic(auto, unfolding(crate::specs::Tables::lock_text))]
pub fn append_lock_row(
    alloc: Global,
    bytes: &mut Bytes,
    key: &Key,
    moment: u64,
) -> Result<(), NoMemory>
    ensures { OnOk result (bytes.new ≡ bytes.old ++ lock_text (key.now, moment)) }
{
    bytes.append(key.digits())?;
    bytes.append(b" ")?;
    append_number(alloc, bytes, moment)
}

/// Adds the line of a lock's row behind a length of the journal, without its newline.
#[tactic(auto, unfolding(crate::specs::RowChanges::behind_text))]
pub fn append_behind_row(
    alloc: Global,
    bytes: &mut Bytes,
    length: u64,
    key: &Key,
    moment: u64,
) -> Result<(), NoMemory>
    ensures { OnOk result (bytes.new ≡ bytes.old ++ behind_text (length, (key.now, moment))) }
{
    append_number(alloc, bytes, length)?;
    bytes.append(b" ")?;
    append_lock_row(alloc, bytes, key, moment)
}
