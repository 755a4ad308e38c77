// What files promises ask of the lines of a file.
ghost use Rattle.std.specs.Prelude.{◌≡◌, [], All, IfOk, option_copied};
ghost use Rattle.std.specs.List.{cons_option};
ghost use Rattle.cfa_acts.specs.Acts.{IsAct};
ghost use Rattle.cfa_edits.specs.Edits.{edited};
ghost use Rattle.cfa_resolve.specs.FileActs.{is_emptied, content_within, content_made, script_act, edit_act, edit_acts};

use crate::files::or_false;
use cfa_acts::{Act, Reason};
use cfa_base::{Bytes, MOST_FILE_BYTES, Name, Names, NoMemory};
use cfa_bodies::Sayings;
use cfa_edits::{EditErr, Script, join_lines};
use cfa_kinds::Form;
use cfa_outside::Path;
use cfa_scripts::{Scripted, is_right};
use std::alloc::Global;

// Whether the file is emptied before it is edited; none where a value is wrong.
fn is_emptied(defaults: Option<&Sayings>) -> Option<bool>
    ensures { result ≡ is_emptied (option_copied defaults.entry) }
{
    match defaults {
        None => Some(false),
        Some(sayings) => {
            if is_right(Form::NoBackup, sayings.get("edit_backup")) {
                or_false(sayings.get("empty_file_before_editing"))
            } else {
                None
            }
        }
    }
}

fn content_within(alloc: Global, path: &Path, content: &Name) -> Result<Act, NoMemory>
    ensures value { IfOk result (λ act. act ≡ content_within path.now content.now) }
    ensures fact { IfOk result (λ act. IsAct act) }
{
    let bytes = content.as_str().as_bytes();
    if bytes.len() > MOST_FILE_BYTES as usize {
        return Ok(Act::Bust(Reason::TooLong));
    }
    Ok(Act::Content(path.copy(alloc)?, Bytes::from_slice(alloc, bytes)?))
}

// The content that a script makes of no lines.
fn content_made(alloc: Global, path: &Path, script: &Script) -> Result<Act, NoMemory>
    ensures value { IfOk result (λ act. act ≡ content_made path.now (edited script.now [])) }
    ensures fact { IfOk result (λ act. IsAct act) }
{
    match script.apply(alloc, &Names::new(alloc)) {
        Ok(lines) => content_within(alloc, path, &join_lines(alloc, &lines)?),
        Err(EditErr::NoAnchor) => Ok(Act::Bust(Reason::NoAnchor)),
        Err(EditErr::FieldCount) => Ok(Act::Bust(Reason::FieldCount)),
        Err(EditErr::NoMemory) => Err(NoMemory),
    }
}

fn script_act(
    alloc: Global,
    path: &Path,
    is_emptied: bool,
    scripted: Scripted,
) -> Result<Act, NoMemory>
    ensures value { IfOk result (λ act. act ≡ script_act path.now is_emptied scripted) }
    ensures fact { IfOk result (λ act. IsAct act) }
{
    match scripted {
        Scripted::Script(script) => {
            if is_emptied {
                content_made(alloc, path, &script)
            } else {
                Ok(Act::Edit(path.copy(alloc)?, script))
            }
        }
        Scripted::Unresolved(_) => Ok(Act::Bust(Reason::BadValue)),
        Scripted::TooMany => Ok(Act::Bust(Reason::TooMany)),
        Scripted::TooLong => Ok(Act::Bust(Reason::TooLong)),
        Scripted::BadPattern => Ok(Act::Bust(Reason::BadPattern)),
        Scripted::BadValue => Ok(Act::Bust(Reason::BadValue)),
    }
}

fn edit_by(
    alloc: Global,
    path: &Path,
    is_directory: bool,
    is_emptied: Option<bool>,
    scripted: Scripted,
) -> Result<Act, NoMemory>
    ensures value { IfOk result
        (λ act. act ≡ edit_act path.now is_directory is_emptied scripted) }
    ensures fact { IfOk result (λ act. IsAct act) }
{
    match (is_emptied, is_directory) {
        (None, _) => Ok(Act::Bust(Reason::BadValue)),
        (Some(_), true) => Ok(Act::Bust(Reason::BadPath)),
        (Some(is_emptied), false) => script_act(alloc, path, is_emptied, scripted),
    }
}

/// The act of a script at a path, if there is a script.
pub(crate) fn edit_act(
    alloc: Global,
    path: &Path,
    is_directory: bool,
    defaults: Option<&Sayings>,
    scripted: Option<Scripted>,
) -> Result<Option<Act>, NoMemory>
    ensures value { IfOk result (λ act. cons_option act []
        ≡ edit_acts path.now is_directory (option_copied defaults.entry) scripted) }
    ensures facts { IfOk result (λ act. All IsAct (cons_option act [])) }
{
    match scripted {
        None => Ok(None),
        Some(scripted) => {
            let act = edit_by(alloc, path, is_directory, is_emptied(defaults), scripted)?;
            Ok(Some(act))
        }
    }
}
