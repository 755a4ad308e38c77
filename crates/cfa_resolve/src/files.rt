// What files promises ask for.
ghost use Rattle.std.specs.Prelude.{◌≡◌, ◌++◌, [], All, IfOk, OnOk, option_copied};
ghost use Rattle.std.specs.List.{cons_option};
ghost use Rattle.cfa_acts.specs.Acts.{IsAct};
ghost use Rattle.cfa_outside.specs.Paths.{path_of};
ghost use Rattle.cfa_resolve.specs.OfTheCode.{IsShort};
ghost use Rattle.cfa_resolve.specs.FileActs.{delete_by, or_false, delete_acts, create_by, create_acts, copy_from, copy_act, copy_acts, content_acts, is_directory_form, path_part, placing_acts, acts_at, file_acts};

use crate::editing::edit_act;
use crate::permissions::perms_act;
use crate::values::truth;
use cfa_acts::{Act, Reason};
use cfa_base::{Bytes, Name, NoMemory};
use cfa_bodies::{Bodies, Said, Sayings, text_in, text_or_empty};
use cfa_kinds::Form;
use cfa_outside::{Path, PathErr};
use cfa_scripts::{Scripted, is_right};
use std::alloc::Global;

fn delete_by(path: Path, with_directories: Option<bool>) -> Act
    ensures value { result ≡ delete_by path with_directories }
    ensures fact { IsAct result }
{
    match with_directories {
        None => Act::Bust(Reason::BadValue),
        Some(with_directories) => Act::Delete(path, with_directories),
    }
}

/// Whether a text that is said says yes, no where none is.
pub(crate) fn or_false(said: Option<&Said>) -> Option<bool>
    ensures { result ≡ or_false (option_copied said.entry) }
{
    match said {
        None => Some(false),
        Some(said) => truth(text_in(said)),
    }
}

fn delete_act(
    alloc: Global,
    path: &Path,
    sayings: Option<&Sayings>,
) -> Result<Option<Act>, NoMemory>
    ensures value { IfOk result
        (λ act. cons_option act [] ≡ delete_acts path.now (option_copied sayings.entry)) }
    ensures facts { IfOk result (λ act. All IsAct (cons_option act [])) }
{
    match sayings {
        None => Ok(None),
        Some(sayings) => Ok(Some(delete_by(path.copy(alloc)?, or_false(sayings.get("rmdirs"))))),
    }
}

fn create_by(path: Path, is_directory: bool, wanted: Option<bool>) -> Option<Act>
    ensures value { cons_option result [] ≡ create_by path is_directory wanted }
    ensures facts { All IsAct (cons_option result []) }
{
    match (wanted, is_directory) {
        (None, _) => Some(Act::Bust(Reason::BadValue)),
        (Some(false), _) => None,
        (Some(true), true) => Some(Act::MakeDir(path)),
        (Some(true), false) => Some(Act::Create(path)),
    }
}

fn create_act(
    alloc: Global,
    path: &Path,
    is_directory: bool,
    wanted: &Option<Name>,
) -> Result<Option<Act>, NoMemory>
    ensures value { IfOk result
        (λ act. cons_option act [] ≡ create_acts path.now is_directory wanted.now) }
    ensures facts { IfOk result (λ act. All IsAct (cons_option act [])) }
{
    match wanted {
        None => Ok(None),
        Some(wanted) => Ok(create_by(path.copy(alloc)?, is_directory, truth(wanted.as_str()))),
    }
}

/// The path that a text names, if it names one.
fn read_path(alloc: Global, text: &str) -> Result<Option<Path>, NoMemory>
    ensures { IfOk result (λ path. path ≡ path_of text.now) }
{
    match Path::read(alloc, &Name::from_text(alloc, text)?) {
        Ok(path) => Ok(Some(path)),
        Err(PathErr::BadPath) => Ok(None),
        Err(PathErr::NoMemory) => Err(NoMemory),
    }
}

fn copy_from(alloc: Global, path: &Path, source: Option<Path>) -> Result<Act, NoMemory>
    ensures value { IfOk result (λ act. act ≡ copy_from path.now source) }
    ensures fact { IfOk result (λ act. IsAct act) }
{
    match source {
        None => Ok(Act::Bust(Reason::BadPath)),
        Some(source) => Ok(Act::Copy(source, path.copy(alloc)?)),
    }
}

fn copy_by(
    alloc: Global,
    path: &Path,
    is_directory: bool,
    sayings: &Sayings,
) -> Result<Act, NoMemory>
    ensures value { IfOk result (λ act. act ≡ copy_act path.now is_directory sayings.now) }
    ensures fact { IfOk result (λ act. IsAct act) }
{
    if !is_right(Form::Digest, sayings.get("compare")) {
        return Ok(Act::Bust(Reason::BadValue));
    }
    if is_directory {
        return Ok(Act::Bust(Reason::BadPath));
    }
    let source = read_path(alloc, text_or_empty(sayings.get("source")))?;
    copy_from(alloc, path, source)
}

fn copy_act(
    alloc: Global,
    path: &Path,
    is_directory: bool,
    sayings: Option<&Sayings>,
) -> Result<Option<Act>, NoMemory>
    ensures value { IfOk result (λ act. cons_option act []
        ≡ copy_acts path.now is_directory (option_copied sayings.entry)) }
    ensures facts { IfOk result (λ act. All IsAct (cons_option act [])) }
{
    match sayings {
        None => Ok(None),
        Some(sayings) => Ok(Some(copy_by(alloc, path, is_directory, sayings)?)),
    }
}

fn content_act(
    alloc: Global,
    path: &Path,
    is_directory: bool,
    content: &Option<Name>,
) -> Result<Option<Act>, NoMemory>
    requires { IsShort content.now }
    ensures value { IfOk result
        (λ act. cons_option act [] ≡ content_acts path.now is_directory content.now) }
    ensures facts { IfOk result (λ act. All IsAct (cons_option act [])) }
{
    match content {
        None => Ok(None),
        Some(content) => {
            if is_directory {
                return Ok(Some(Act::Bust(Reason::BadPath)));
            }
            let bytes = Bytes::from_slice(alloc, content.as_str().as_bytes())?;
            Ok(Some(Act::Content(path.copy(alloc)?, bytes)))
        }
    }
}

// Adds an act, if there is one.
#[tactic(auto, using(crate::proofs::Rules::appended))]
fn add_act(acts: &mut Vec<Act>, act: Option<Act>) -> Result<(), NoMemory>
    requires old { All IsAct acts.old.items }
    requires act { All IsAct (cons_option act []) }
    ensures value { OnOk result (acts.new.items ≡ acts.old.items ++ cons_option act []) }
    ensures facts { OnOk result (All IsAct acts.new.items) }
{
    match act {
        Some(act) => Ok(acts.push(act)?),
        None => Ok(()),
    }
}

// Adds what is made of what stands at a path.
fn add_placing_acts(
    alloc: Global,
    path: &Path,
    is_directory: bool,
    create: &Option<Name>,
    content: &Option<Name>,
    bodies: &Bodies,
    acts: &mut Vec<Act>,
) -> Result<(), NoMemory>
    requires short { IsShort content.now }
    requires none { acts.old.items ≡ [] }
    ensures value { OnOk result (acts.new.items
        ≡ placing_acts path.now is_directory create.now content.now bodies.now) }
    ensures facts { OnOk result (All IsAct acts.new.items) }
{
    add_act(acts, delete_act(alloc, path, bodies.get("delete"))?)?;
    add_act(acts, create_act(alloc, path, is_directory, create)?)?;
    let copied = copy_act(alloc, path, is_directory, bodies.get("copy_from"))?;
    add_act(acts, copied)?;
    add_act(acts, content_act(alloc, path, is_directory, content)?)
}

// Adds the acts at a path, in the order in which they are made.
fn add_acts_at(
    alloc: Global,
    path: &Path,
    is_directory: bool,
    create: &Option<Name>,
    content: &Option<Name>,
    bodies: &Bodies,
    scripted: Option<Scripted>,
    acts: &mut Vec<Act>,
) -> Result<(), NoMemory>
    requires short { IsShort content.now }
    requires none { acts.old.items ≡ [] }
    ensures value { OnOk result (acts.new.items
        ≡ acts_at path.now is_directory create.now content.now bodies.now scripted) }
    ensures facts { OnOk result (All IsAct acts.new.items) }
{
    add_placing_acts(alloc, path, is_directory, create, content, bodies, acts)?;
    let defaults = bodies.get("edit_defaults");
    add_act(
        acts,
        edit_act(alloc, path, is_directory, defaults, scripted)?,
    )?;
    add_act(acts, perms_act(alloc, path, bodies.get("perms"))?)?;
    Ok(())
}

// What a promiser names as a path, and whether it is written as a directory.
fn path_part(promiser: &str) -> (&str, bool)
    ensures part { result.0.now ≡ path_part promiser.now }
    ensures directory { result.1 ≡ is_directory_form promiser.now }
{
    match promiser.strip_suffix("/.") {
        Some(path) => (path, true),
        None => (promiser, false),
    }
}

/// The acts of a files promise.
#[tactic(auto, unfolding(crate::specs::FileActs::file_acts))]
pub(crate) fn file_acts(
    alloc: Global,
    promiser: &str,
    create: &Option<Name>,
    content: &Option<Name>,
    bodies: &Bodies,
    scripted: Option<Scripted>,
) -> Result<Vec<Act>, NoMemory>
    requires { IsShort content.now }
    ensures value { IfOk result (λ acts. acts.items
        ≡ file_acts promiser.now create.now content.now bodies.now scripted) }
    ensures facts { IfOk result (λ acts. All IsAct acts.items) }
{
    let (part, is_directory) = path_part(promiser);
    let mut acts = Vec::new(alloc);
    match read_path(alloc, part)? {
        None => acts.push(Act::Bust(Reason::BadPath))?,
        Some(path) => add_acts_at(
            alloc,
            &path,
            is_directory,
            create,
            content,
            bodies,
            scripted,
            &mut acts,
        )?,
    }
    Ok(acts)
}
