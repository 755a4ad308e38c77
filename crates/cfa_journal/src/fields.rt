// The fields of records, read and written.
ghost use Rattle.std.specs.Prelude.{◌≡◌, ◌++◌, IfOk, OnOk};
ghost use Rattle.std.specs.Fmt.{decimal};
ghost use Rattle.std.specs.Str.{IsUtf8};
ghost use Rattle.cfa_base.specs.Escapes.{escaped};
ghost use Rattle.cfa_rows.specs.Rows.{Reads};
ghost use Rattle.cfa_journal.specs.Records.{IsCount, IsDigest, IsFilled, IsId, IsMoment, IsReason, digest_text, id_text, reason_text};

use crate::Digest;
use cfa_base::{
    Bytes, FieldErr, Key, LAST_MOMENT, Name, NoMemory, PromiseId, escape, is_word, unescape_bytes,
};
use cfa_rows::{append_number, cut, is_text, read_number};
use std::alloc::Global;
use std::str;

pub fn read_count(text: &[u8]) -> Option<u32>
    ensures { Reads decimal IsCount text.now result }
{
    let number = read_number(text)?;
    if number >= 1 && number <= u64::from(u32::MAX) {
        Some(number as u32)
    } else {
        None
    }
}

pub fn read_moment(text: &[u8]) -> Option<u64>
    ensures { Reads decimal IsMoment text.now result }
{
    let moment = read_number(text)?;
    if moment <= LAST_MOMENT {
        Some(moment)
    } else {
        None
    }
}

pub fn read_reason(text: &[u8]) -> Option<u8>
    ensures { Reads reason_text IsReason text.now result }
{
    if text.is_empty() || text[0] != b'F' {
        return None;
    }
    let reason = read_number(&text[1..])?;
    if reason >= 1 && reason <= 13 {
        Some(reason as u8)
    } else {
        None
    }
}

pub fn read_id(alloc: Global, text: &[u8]) -> Result<Option<PromiseId>, NoMemory>
    ensures { IfOk result (Reads id_text IsId text.now) }
{
    let Some((bundle, rest)) = cut(text, b':') else {
        return Ok(None);
    };
    if !is_word(bundle) {
        return Ok(None);
    }
    let Ok(bundle) = str::from_utf8(bundle) else {
        return Ok(None);
    };
    let Some((number, line)) = cut(rest, b'@') else {
        return Ok(None);
    };
    let Some(number) = read_count(number) else {
        return Ok(None);
    };
    let Some(line) = read_count(line) else {
        return Ok(None);
    };
    let bundle = Name::from_text(alloc, bundle)?;
    Ok(Some(PromiseId {
        bundle,
        number,
        line,
    }))
}

// The text whose escaped field this is.
fn read_text(alloc: Global, field: &[u8]) -> Result<Option<Name>, NoMemory>
    ensures { IfOk result (Reads escaped IsUtf8 field.now) }
{
    match unescape_bytes(alloc, field) {
        Ok(text) => {
            let _ = text.as_str();
            Ok(Some(text))
        }
        Err(FieldErr::BadField) => Ok(None),
        Err(FieldErr::NoMemory) => Err(NoMemory),
    }
}

pub fn read_path(alloc: Global, field: &[u8]) -> Result<Option<Name>, NoMemory>
    ensures { IfOk result (Reads escaped IsFilled field.now) }
{
    let Some(path) = read_text(alloc, field)? else {
        return Ok(None);
    };
    if path.as_str().is_empty() {
        return Ok(None);
    }
    Ok(Some(path))
}

pub fn read_digest(alloc: Global, field: &[u8]) -> Result<Option<Digest>, NoMemory>
    ensures { IfOk result (Reads digest_text IsDigest field.now) }
{
    if is_text(field, "-") {
        return Ok(Some(Digest::Nothing));
    }
    if is_text(field, "*") {
        return Ok(Some(Digest::Over));
    }
    match Key::read(field) {
        Some(key) => Ok(Some(Digest::of(alloc, key)?)),
        None => Ok(None),
    }
}

pub fn append_id(alloc: Global, bytes: &mut Bytes, id: &PromiseId) -> Result<(), NoMemory>
    ensures { OnOk result (bytes.new ≡ bytes.old ++ id_text id.now) }
{
    bytes.append(id.bundle.as_str().as_bytes())?;
    bytes.append(b":")?;
    append_number(alloc, bytes, u64::from(id.number))?;
    bytes.append(b"@")?;
    append_number(alloc, bytes, u64::from(id.line))
}

pub fn append_reason(alloc: Global, bytes: &mut Bytes, reason: u8) -> Result<(), NoMemory>
    ensures { OnOk result (bytes.new ≡ bytes.old ++ reason_text reason) }
{
    bytes.append(b"F")?;
    append_number(alloc, bytes, u64::from(reason))
}

pub fn append_path(alloc: Global, bytes: &mut Bytes, path: &Name) -> Result<(), NoMemory>
    ensures { OnOk result (bytes.new ≡ bytes.old ++ escaped path.now) }
{
    bytes.append(escape(alloc, path)?.as_str().as_bytes())
}

pub fn append_digest(bytes: &mut Bytes, digest: &Digest) -> Result<(), NoMemory>
    ensures { OnOk result (bytes.new ≡ bytes.old ++ digest_text digest.now) }
{
    match digest {
        Digest::Nothing => bytes.append(b"-"),
        Digest::Over => bytes.append(b"*"),
        Digest::Sha(key) => bytes.append(key.digits()),
    }
}
