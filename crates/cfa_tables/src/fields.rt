// The fields of rows, read and written.
ghost use Rattle.std.specs.Prelude.{◌≡◌, ◌++◌, ◌<◌, ◌^◌, ⊤, IfNone, IfOk, IfSome, OnOk};
ghost use Rattle.std.specs.Fmt.{decimal};
ghost use Rattle.std.specs.Str.{IsUtf8};
ghost use Rattle.cfa_base.specs.Escapes.{escaped};
ghost use Rattle.cfa_rows.specs.Rows.{Reads};
ghost use Rattle.cfa_tables.specs.Fields.{IsFourFields, HasFewerFields};
ghost use Rattle.cfa_tables.specs.Tables.{IsFilled, IsPath, IsKey, running_text, enabled_text};

use cfa_base::{Bytes, FieldErr, Key, Name, NoMemory, escape, unescape_bytes};
use cfa_outside::{Path, PathErr};
use cfa_rows::{cut, is_text, read_number};
use std::alloc::Global;

/// The four fields of a line, with a space between them. `None` where it has fewer.
pub fn cut_in_four(line: &[u8]) -> Option<(&[u8], &[u8], &[u8], &[u8])>
    ensures some { IfSome result (λ f. IsFourFields line.now f.0.now f.1.now f.2.now f.3.now) }
    ensures none { IfNone result (HasFewerFields line.now) }
{
    let Some((first, rest)) = cut(line, b' ') else {
        return None;
    };
    let Some((second, rest)) = cut(rest, b' ') else {
        return None;
    };
    let Some((third, fourth)) = cut(rest, b' ') else {
        return None;
    };
    Some((first, second, third, fourth))
}

/// The text whose escaped field this is.
pub fn read_text(alloc: Global, field: &[u8]) -> Result<Option<Name>, NoMemory>
    ensures { IfOk result (Reads escaped IsUtf8 field.now) }
{
    match unescape_bytes(alloc, field) {
        Ok(text) => {
            let _ = text.as_str();
            Ok(Some(text))
        }
        Err(FieldErr::BadField) => Ok(None),
        Err(FieldErr::NoMemory) => Err(NoMemory),
    }
}

/// The text whose escaped field this is, where it isn't empty.
pub fn read_filled(alloc: Global, field: &[u8]) -> Result<Option<Name>, NoMemory>
    ensures { IfOk result (Reads escaped IsFilled field.now) }
{
    let Some(text) = read_text(alloc, field)? else {
        return Ok(None);
    };
    if text.as_str().is_empty() {
        return Ok(None);
    }
    Ok(Some(text))
}

/// The path whose escaped field this is.
pub fn read_path(alloc: Global, field: &[u8]) -> Result<Option<Path>, NoMemory>
    ensures { IfOk result (Reads escaped IsPath field.now) }
{
    let Some(text) = read_text(alloc, field)? else {
        return Ok(None);
    };
    let path = match Path::read(alloc, &text) {
        Ok(path) => path,
        Err(PathErr::BadPath) => return Ok(None),
        Err(PathErr::NoMemory) => return Err(NoMemory),
    };
    if path.text().as_str().as_bytes() == text.as_str().as_bytes() {
        Ok(Some(path))
    } else {
        Ok(None)
    }
}

/// The key that is written so.
pub fn read_key(field: &[u8]) -> Option<Key>
    ensures { Reads (λ key. key) IsKey field.now result }
{
    Key::read(field)
}

/// Whether `running` is written, and not `stopped`.
pub fn read_running(field: &[u8]) -> Option<bool>
    ensures { Reads running_text (λ _. ⊤) field.now result }
{
    if is_text(field, "running") {
        Some(true)
    } else if is_text(field, "stopped") {
        Some(false)
    } else {
        None
    }
}

/// Whether `enabled` is written, and not `disabled`.
pub fn read_enabled(field: &[u8]) -> Option<bool>
    ensures { Reads enabled_text (λ _. ⊤) field.now result }
{
    if is_text(field, "enabled") {
        Some(true)
    } else if is_text(field, "disabled") {
        Some(false)
    } else {
        None
    }
}

/// The number of restarts that a text is in decimal.
pub fn read_restarts(field: &[u8]) -> Option<u32>
    ensures { Reads decimal (λ n. n < 2 ^ 32) field.now result }
{
    let number = read_number(field)?;
    if number <= u64::from(u32::MAX) {
        Some(number as u32)
    } else {
        None
    }
}

/// Adds the escaped field of a text at the end of bytes.
pub fn append_text(alloc: Global, bytes: &mut Bytes, text: &Name) -> Result<(), NoMemory>
    ensures { OnOk result (bytes.new ≡ bytes.old ++ escaped text.now) }
{
    bytes.append(escape(alloc, text)?.as_str().as_bytes())
}
