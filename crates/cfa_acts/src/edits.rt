// What acts on the lines of a file need.
ghost use Rattle.std.specs.Prelude.{◌≡◌, IfOk, Ok};
ghost use Rattle.cfa_lines.specs.Decks.{lines_of, text_of};
ghost use Rattle.cfa_edits.specs.Edits.{edited};
ghost use Rattle.cfa_acts.specs.Acts.{decision};
ghost use Rattle.cfa_acts.specs.Settling.{leaves, keeps_content, puts_text};
ghost use Rattle.cfa_acts.specs.Seeing.{Sees, IsWhole, edit_refusal, line_decision, edit_decision};

use crate::seeing::{SeeErr, see_bytes, see_look};
use crate::{Act, Decision, Reason};
use cfa_base::{Bytes, MOST_FILE_BYTES, Name, Names, NoMemory, are_same_names};
use cfa_edits::{EditErr, Script, join_lines, split_lines};
use cfa_outside::{Change, Look, Path, Site};
use std::alloc::Global;

fn refuse_edit(look: Look) -> Option<Reason>
    ensures { result ≡ edit_refusal look }
{
    match look {
        Look::Nothing | Look::Blocked => Some(Reason::Missing),
        Look::Dir(_) => Some(Reason::Obstructed),
        Look::File(size) if size > MOST_FILE_BYTES as u64 => Some(Reason::TooLong),
        Look::File(_) => None,
    }
}

// Whether the script leaves the lines of the text.
fn leaves(alloc: Global, script: &Script, text: &str) -> Result<bool, NoMemory>
    ensures { IfOk result (λ left. left ≡ leaves script.now text.now) }
{
    let lines = split_lines(alloc, text)?;
    script.settled(alloc, &lines)
}

fn put_text(alloc: Global, path: &Path, script: &Script, text: &Name) -> Result<Decision, NoMemory>
    ensures exact { IfOk result (λ d. d ≡ puts_text path.now script.now text.now) }
    ensures whole { IfOk result IsWhole }
{
    let text = text.as_str();
    if !leaves(alloc, script, text)? {
        return Ok(Decision::Fail(Reason::NonConvergent));
    }
    if text.len() > MOST_FILE_BYTES {
        return Ok(Decision::Fail(Reason::TooLong));
    }
    let bytes = Bytes::from_slice(alloc, text.as_bytes())?;
    Ok(Decision::Needs(Change::PutFile(path.copy(alloc)?, bytes)))
}

fn edit_lines(
    alloc: Global,
    path: &Path,
    script: &Script,
    lines: &Names,
) -> Result<Decision, NoMemory>
    ensures exact { IfOk result (λ d. d ≡
        line_decision path.now script.now lines.now (edited script.now lines.now)) }
    ensures whole { IfOk result IsWhole }
{
    match script.apply(alloc, lines) {
        Ok(left) => {
            if are_same_names(left.as_slice(), lines.as_slice()) {
                return Ok(Decision::Kept);
            }
            put_text(alloc, path, script, &join_lines(alloc, &left)?)
        }
        Err(EditErr::NoAnchor) => Ok(Decision::Fail(Reason::NoAnchor)),
        Err(EditErr::FieldCount) => Ok(Decision::Fail(Reason::FieldCount)),
        Err(EditErr::NoMemory) => Err(NoMemory),
    }
}

fn edit_bytes(
    alloc: Global,
    path: &Path,
    script: &Script,
    bytes: &[u8],
) -> Result<Decision, NoMemory>
    ensures exact { IfOk result (λ d. d ≡ edit_decision path.now script.now bytes.now) }
    ensures whole { IfOk result IsWhole }
{
    match str::from_utf8(bytes) {
        Ok(text) => edit_lines(alloc, path, script, &split_lines(alloc, text)?),
        Err(_) => Ok(Decision::Fail(Reason::NotText)),
    }
}

pub fn decide_edit<S: Site>(
    alloc: Global,
    path: &Path,
    script: &Script,
    site: &mut S,
) -> Result<Decision, SeeErr>
    ensures seen { Sees (λ d world. d ≡ decision (Act.Edit path.now script.now) world)
        (S.shown site.old) (S.shown site.new) result }
    ensures whole { IfOk result IsWhole }
{
    let look = see_look(alloc, path, site)?;
    if let Some(reason) = refuse_edit(look) {
        return Ok(Decision::Fail(reason));
    }
    let bytes = see_bytes(alloc, path, site)?;
    Ok(edit_bytes(alloc, path, script, bytes.as_slice())?)
}

/// Whether the script leaves the content, which is UTF-8, and the text of its lines is within the limit of a file.
pub fn keeps_content(alloc: Global, script: &Script, content: &[u8]) -> Result<bool, NoMemory>
    ensures { IfOk result (λ kept. kept ≡ keeps_content script.now content.now) }
{
    let Ok(text) = str::from_utf8(content) else {
        return Ok(false);
    };
    if !leaves(alloc, script, text)? {
        return Ok(false);
    }
    let text = rejoin(alloc, text)?;
    Ok(text.as_str().len() <= MOST_FILE_BYTES)
}

// The text of the lines of a text.
fn rejoin(alloc: Global, text: &str) -> Result<Name, NoMemory>
    ensures { IfOk result (λ joined. joined ≡ text_of (lines_of text.now)) }
{
    join_lines(alloc, &split_lines(alloc, text)?)
}
