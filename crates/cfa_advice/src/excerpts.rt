// A line of a source as it is shown, with a mark under a column.
ghost use Rattle.std.specs.Prelude.{◌≡◌, ◌≤◌, length, map, option_map, IfOk};
ghost use Rattle.std.specs.List.{slice_split};
ghost use Rattle.cfa_base.specs.Lexing.{is_newline};
ghost use Rattle.cfa_advice.specs.Sources.{line_at};

use std::alloc::{AllocError, Global};
use unicode_width::UnicodeWidthChar;

// The most bytes that are shown before the mark, and from it on.
const MOST_BEFORE: usize = 60;

const MOST_BEHIND: usize = 60;

/// The line of a number, from 1, of a source.
pub fn line_of(alloc: Global, source: &[u8], number: u64) -> Result<Option<&[u8]>, AllocError>
    ensures { IfOk result (λ line. option_map (λ l. l.now) line ≡ line_at source.now number) }
{
    if number == 0 {
        return Ok(None);
    }
    let lines = lines_of(alloc, source)?;
    match usize::try_from(number - 1) {
        Ok(place) => Ok(lines.get(place).copied()),
        Err(_) => Ok(None),
    }
}

fn lines_of<'a>(alloc: Global, source: &'a [u8]) -> Result<Vec<&'a [u8]>, AllocError>
    ensures { IfOk result (λ v. map (λ l. l.now) v.items ≡ slice_split is_newline source.now) }
{
    source.split(|byte| *byte == b'\n').collect(alloc)
}

// Whether a byte goes on with a character that began before it.
fn goes_on(byte: u8) -> bool {
    (0x80..0xC0).contains(&byte)
}

// The place from which on no more than so many bytes are left, at the beginning of a character.
fn late_start(bytes: &[u8], most: usize) -> usize
    ensures { result ≤ length bytes.now }
{
    for place in bytes.len().saturating_sub(most)..bytes.len() {
        if !goes_on(bytes[place]) {
            return place;
        }
    }
    bytes.len()
}

// The place up to which there are no more than so many bytes, at the beginning of a character.
fn early_end(bytes: &[u8], most: usize) -> usize
    ensures { result ≤ length bytes.now }
{
    if bytes.len() <= most {
        return bytes.len();
    }
    for back in 0..4usize {
        let place = most.saturating_sub(back);
        if !goes_on(bytes[place]) {
            return place;
        }
    }
    most
}

// Adds a character as it is shown, and answers how many columns it takes. One that takes none is written out.
fn push_char(alloc: Global, text: &mut String, character: char) -> Result<usize, AllocError> {
    if character == '\t' {
        text.push_str("    ")?;
        return Ok(4);
    }
    match character.width() {
        Some(width) if width > 0 => {
            text.push(character)?;
            Ok(width)
        }
        _ => {
            let written = format!(in alloc; "<{:x}>", character as u32)?;
            text.push_str(written.as_str())?;
            Ok(written.as_str().len())
        }
    }
}

fn push_text(alloc: Global, text: &mut String, more: &str) -> Result<usize, AllocError> {
    let mut width = 0usize;
    for character in more.chars() {
        width = width.saturating_add(push_char(alloc, text, character)?);
    }
    Ok(width)
}

// Adds bytes that are no text, each written out.
fn push_bytes(alloc: Global, text: &mut String, bytes: &[u8]) -> Result<usize, AllocError> {
    let mut width = 0usize;
    for byte in bytes {
        let written = format!(in alloc; "<{:x}>", *byte)?;
        text.push_str(written.as_str())?;
        width = width.saturating_add(written.as_str().len());
    }
    Ok(width)
}

// Adds bytes as they are shown, and answers how many columns they take.
fn push_shown(alloc: Global, text: &mut String, bytes: &[u8]) -> Result<usize, AllocError> {
    let mut width = 0usize;
    for chunk in bytes.utf8_chunks() {
        width = width.saturating_add(push_text(alloc, text, chunk.valid())?);
        width = width.saturating_add(push_bytes(alloc, text, chunk.invalid())?);
    }
    Ok(width)
}

/// A line as it is shown, and how many columns stand before its mark.
#[derive(Debug, Drop)]
pub struct Excerpt {
    pub text: String,
    pub column: usize,
}

/// A line with its mark at a byte, from 1. Of a long line what stands round the mark is shown, with dots where it goes on.
pub fn excerpt_of(alloc: Global, line: &[u8], col: u64) -> Result<Excerpt, AllocError> {
    let place = usize::try_from(col).unwrap_or(usize::MAX);
    let place = place.saturating_sub(1).min(line.len());
    let (before, behind) = line.split_at(place);
    let mut text = String::new(alloc);
    let start = late_start(before, MOST_BEFORE);
    let mut column = 0usize;
    if start > 0 {
        text.push_str("..")?;
        column = 2;
    }
    column = column.saturating_add(push_shown(alloc, &mut text, &before[start..])?);
    let end = early_end(behind, MOST_BEHIND);
    push_shown(alloc, &mut text, &behind[..end])?;
    if end < behind.len() {
        text.push_str("..")?;
    }
    Ok(Excerpt { text, column })
}
