// Records, read and written as lines without their newline.
ghost use Rattle.std.specs.Prelude.{◌≡◌, ◌++◌, IfOk, OnOk, [], codes, false};
ghost use Rattle.std.specs.Fmt.{decimal};
ghost use Rattle.std.specs.Str.{bytes_eq};
ghost use Rattle.cfa_base.specs.Escapes.{escaped};
ghost use Rattle.cfa_base.specs.Lacking.{Lacks};
ghost use Rattle.cfa_rows.specs.Rows.{Reads, ◌then◌};
ghost use Rattle.cfa_journal.specs.Records.{IsRecord, IsCount, digest_text, record_text};

use crate::fields::{
    append_digest, append_id, append_path, append_reason, read_count, read_digest, read_id,
    read_moment, read_path, read_reason,
};
use crate::{Digest, Record};
use cfa_base::{Bytes, Key, Name, NoMemory};
use cfa_rows::{append_number, cut, is_text};
use std::alloc::Global;

fn read_run(fields: &[u8]) -> Option<Record>
    ensures { Reads record_text IsRecord (codes "run" then fields.now) result }
{
    let Some((moment, version)) = cut(fields, b' ') else {
        return match read_moment(fields) {
            Some(moment) => Some(Record::Run(moment)),
            None => None,
        };
    };
    if !is_text(version, "2") {
        return None;
    }
    match read_moment(moment) {
        Some(moment) => Some(Record::Run2(moment)),
        None => None,
    }
}

fn read_open(alloc: Global, number: u32, rest: &[u8]) -> Result<Option<Record>, NoMemory>
    requires { IsCount number }
    ensures { IfOk result
        (Reads record_text IsRecord (codes "open" then decimal number then rest.now)) }
{
    let Some((id, key)) = cut(rest, b' ') else {
        return Ok(None);
    };
    let Some(id) = read_id(alloc, id)? else {
        return Ok(None);
    };
    match Key::read(key) {
        Some(key) => Ok(Some(Record::Open(number, id, key))),
        None => Ok(None),
    }
}

fn read_file(alloc: Global, number: u32, rest: &[u8]) -> Result<Option<Record>, NoMemory>
    requires { IsCount number }
    ensures { IfOk result
        (Reads record_text IsRecord (codes "file" then decimal number then rest.now)) }
{
    let Some((path, rest)) = cut(rest, b' ') else {
        return Ok(None);
    };
    let Some((before, after)) = cut(rest, b' ') else {
        return Ok(None);
    };
    let Some(before) = read_digest(alloc, before)? else {
        return Ok(None);
    };
    let Some(after) = read_digest(alloc, after)? else {
        return Ok(None);
    };
    match read_path(alloc, path)? {
        Some(path) => Ok(Some(Record::File(number, path, before, after))),
        None => Ok(None),
    }
}

fn read_done(number: u32, rest: &[u8]) -> Option<Record>
    requires { IsCount number }
    ensures { Reads record_text IsRecord (codes "done" then decimal number then rest.now) result }
{
    let Some((word, value)) = cut(rest, b' ') else {
        return None;
    };
    if is_text(word, "repaired") {
        return match read_count(value) {
            Some(changes) => Some(Record::Repaired(number, changes)),
            None => None,
        };
    }
    if is_text(word, "failed") {
        return match read_reason(value) {
            Some(reason) => Some(Record::Failed(number, reason)),
            None => None,
        };
    }
    None
}

fn read_fail(alloc: Global, number: u32, rest: &[u8]) -> Result<Option<Record>, NoMemory>
    requires { IsCount number }
    ensures { IfOk result
        (Reads record_text IsRecord (codes "fail" then decimal number then rest.now)) }
{
    let Some((id, rest)) = cut(rest, b' ') else {
        return Ok(None);
    };
    let Some((key, reason)) = cut(rest, b' ') else {
        return Ok(None);
    };
    let Some(reason) = read_reason(reason) else {
        return Ok(None);
    };
    let Some(key) = Key::read(key) else {
        return Ok(None);
    };
    match read_id(alloc, id)? {
        Some(id) => Ok(Some(Record::Fail(number, id, key, reason))),
        None => Ok(None),
    }
}

// The record of this word and number, by its other fields.
fn read_numbered(
    alloc: Global,
    word: &[u8],
    number: u32,
    rest: &[u8],
) -> Result<Option<Record>, NoMemory>
    requires count { IsCount number }
    requires no_space { Lacks 32 word.now }
    requires no_run { bytes_eq word.now (codes "run") ≡ false }
    ensures { IfOk result
        (Reads record_text IsRecord (word.now then decimal number then rest.now)) }
{
    if is_text(word, "open") {
        read_open(alloc, number, rest)
    } else if is_text(word, "file") {
        read_file(alloc, number, rest)
    } else if is_text(word, "done") {
        Ok(read_done(number, rest))
    } else if is_text(word, "fail") {
        read_fail(alloc, number, rest)
    } else {
        Ok(None)
    }
}

/// The record that a line is.
pub fn read_record(alloc: Global, line: &[u8]) -> Result<Option<Record>, NoMemory>
    ensures { IfOk result (Reads record_text IsRecord line.now) }
{
    let Some((word, fields)) = cut(line, b' ') else {
        return Ok(None);
    };
    if is_text(word, "run") {
        return Ok(read_run(fields));
    }
    let Some((number, rest)) = cut(fields, b' ') else {
        return Ok(None);
    };
    let Some(number) = read_count(number) else {
        return Ok(None);
    };
    read_numbered(alloc, word, number, rest)
}

fn append_numbered(
    alloc: Global,
    bytes: &mut Bytes,
    word: &str,
    number: u32,
) -> Result<(), NoMemory>
    ensures { OnOk result (bytes.new ≡ bytes.old ++ (word.now then decimal number then [])) }
{
    bytes.append(word.as_bytes())?;
    bytes.append(b" ")?;
    append_number(alloc, bytes, u64::from(number))?;
    bytes.append(b" ")
}

fn append_run(alloc: Global, bytes: &mut Bytes, moment: u64) -> Result<(), NoMemory>
    ensures { OnOk result (bytes.new ≡ bytes.old ++ (codes "run" then decimal moment)) }
{
    bytes.append(b"run ")?;
    append_number(alloc, bytes, moment)
}

fn append_file(
    alloc: Global,
    bytes: &mut Bytes,
    path: &Name,
    before: &Digest,
    after: &Digest,
) -> Result<(), NoMemory>
    ensures { OnOk result (bytes.new ≡ bytes.old
        ++ (escaped path.now then digest_text before.now then digest_text after.now)) }
{
    append_path(alloc, bytes, path)?;
    bytes.append(b" ")?;
    append_digest(bytes, before)?;
    bytes.append(b" ")?;
    append_digest(bytes, after)
}

/// Adds a record's line, without its newline.
#[tactic(auto, unfolding(crate::specs::Records::record_text))]
pub fn append_record(alloc: Global, bytes: &mut Bytes, item: &Record) -> Result<(), NoMemory>
    ensures { OnOk result (bytes.new ≡ bytes.old ++ record_text item.now) }
{
    match item {
        Record::Run(moment) => append_run(alloc, bytes, *moment),
        Record::Run2(moment) => {
            append_run(alloc, bytes, *moment)?;
            bytes.append(b" 2")
        }
        Record::Open(number, id, key) => {
            append_numbered(alloc, bytes, "open", *number)?;
            append_id(alloc, bytes, id)?;
            bytes.append(b" ")?;
            bytes.append(key.digits())
        }
        Record::File(number, path, before, after) => {
            append_numbered(alloc, bytes, "file", *number)?;
            append_file(alloc, bytes, path, before, after)
        }
        Record::Repaired(number, changes) => {
            append_numbered(alloc, bytes, "done", *number)?;
            bytes.append(b"repaired ")?;
            append_number(alloc, bytes, u64::from(*changes))
        }
        Record::Failed(number, reason) => {
            append_numbered(alloc, bytes, "done", *number)?;
            bytes.append(b"failed ")?;
            append_reason(alloc, bytes, *reason)
        }
        Record::Fail(number, id, key, reason) => {
            append_numbered(alloc, bytes, "fail", *number)?;
            append_id(alloc, bytes, id)?;
            bytes.append(b" ")?;
            bytes.append(key.digits())?;
            bytes.append(b" ")?;
            append_reason(alloc, bytes, *reason)
        }
    }
}
