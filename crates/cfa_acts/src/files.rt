// What acts on files and directories need.
ghost use Rattle.std.specs.Prelude.{◌≡◌, ◌≤◌, if◌then◌else◌, length, IfOk};
ghost use Rattle.std.specs.FinMap as map;
ghost use Rattle.cfa_base.specs.declared.limits.TheConstants.{MOST_FILE_BYTES};
ghost use Rattle.cfa_outside.specs.Sites.{look_of};
ghost use Rattle.cfa_acts.specs.declared.acts.Decision.TheVariants.{Kept};
ghost use Rattle.cfa_acts.specs.Acts.{has_bytes, puts_file, decision};
ghost use Rattle.cfa_acts.specs.Seeing.{OfWorld, Sees, IsWhole, created, made, deleted, has_size, copy_refusal};

use crate::seeing::{SeeErr, see_bytes, see_look};
use crate::{Act, Decision, Reason};
use cfa_base::{Bytes, MOST_FILE_BYTES, NoMemory};
use cfa_outside::{Change, Look, Path, Site};
use std::alloc::Global;

pub fn decide_create<S: Site>(alloc: Global, path: &Path, site: &mut S) -> Result<Decision, SeeErr>
    ensures seen { Sees (λ d world. d ≡ decision (Act.Create path.now) world)
        (S.shown site.old) (S.shown site.new) result }
    ensures whole { IfOk result IsWhole }
{
    let look = see_look(alloc, path, site)?;
    Ok(create(alloc, path, look)?)
}

fn create(alloc: Global, path: &Path, look: Look) -> Result<Decision, NoMemory>
    ensures exact { IfOk result (λ d. d ≡ created path.now look) }
    ensures whole { IfOk result IsWhole }
{
    match look {
        Look::File(_) => Ok(Decision::Kept),
        Look::Dir(_) | Look::Blocked => Ok(Decision::Fail(Reason::Obstructed)),
        Look::Nothing => {
            let empty = Bytes::from_slice(alloc, &[])?;
            Ok(Decision::Needs(Change::PutFile(path.copy(alloc)?, empty)))
        }
    }
}

pub fn decide_make_dir<S: Site>(
    alloc: Global,
    path: &Path,
    site: &mut S,
) -> Result<Decision, SeeErr>
    ensures seen { Sees (λ d world. d ≡ decision (Act.MakeDir path.now) world)
        (S.shown site.old) (S.shown site.new) result }
    ensures whole { IfOk result IsWhole }
{
    let look = see_look(alloc, path, site)?;
    Ok(make_dir(alloc, path, look)?)
}

fn make_dir(alloc: Global, path: &Path, look: Look) -> Result<Decision, NoMemory>
    ensures exact { IfOk result (λ d. d ≡ made path.now look) }
    ensures whole { IfOk result IsWhole }
{
    match look {
        Look::Dir(_) => Ok(Decision::Kept),
        Look::File(_) | Look::Blocked => Ok(Decision::Fail(Reason::Obstructed)),
        Look::Nothing => Ok(Decision::Needs(Change::PutDir(path.copy(alloc)?))),
    }
}

pub fn decide_delete<S: Site>(
    alloc: Global,
    path: &Path,
    with_directories: bool,
    site: &mut S,
) -> Result<Decision, SeeErr>
    ensures seen { Sees (λ d world. d ≡ decision (Act.Delete path.now with_directories) world)
        (S.shown site.old) (S.shown site.new) result }
    ensures whole { IfOk result IsWhole }
{
    let look = see_look(alloc, path, site)?;
    Ok(delete(alloc, path, with_directories, look)?)
}

fn delete(
    alloc: Global,
    path: &Path,
    with_directories: bool,
    look: Look,
) -> Result<Decision, NoMemory>
    ensures exact { IfOk result (λ d. d ≡ deleted path.now with_directories look) }
    ensures whole { IfOk result IsWhole }
{
    match look {
        Look::Nothing | Look::Blocked => return Ok(Decision::Kept),
        Look::File(_) => {}
        Look::Dir(is_empty) => {
            if !(with_directories && is_empty) {
                return Ok(Decision::Fail(Reason::Obstructed));
            }
        }
    }
    Ok(Decision::Needs(Change::Remove(path.copy(alloc)?)))
}

fn has_size(look: Look, size: u64) -> bool
    ensures { result ≡ has_size size look }
{
    match look {
        Look::File(present) => present == size,
        Look::Nothing | Look::Blocked | Look::Dir(_) => false,
    }
}

// Whether a file with these bytes stands at the path, of which the look tells.
fn holds_bytes<S: Site>(
    alloc: Global,
    path: &Path,
    look: Look,
    bytes: &Bytes,
    site: &mut S,
) -> Result<bool, SeeErr>
    requires short { OfWorld (λ _. length bytes.now ≤ MOST_FILE_BYTES) (S.shown site.old) }
    requires look { OfWorld (λ world. look ≡ look_of world path.now) (S.shown site.old) }
    ensures { Sees (λ holds world. holds ≡ has_bytes bytes.now (map.get world.nodes path.now))
        (S.shown site.old) (S.shown site.new) result }
{
    if !has_size(look, bytes.as_slice().len() as u64) {
        return Ok(false);
    }
    let present = see_bytes(alloc, path, site)?;
    Ok(present.as_slice() == bytes.as_slice())
}

fn put_file(alloc: Global, path: &Path, bytes: &Bytes, look: Look) -> Result<Decision, NoMemory>
    ensures exact { IfOk result (λ d. d ≡ puts_file path.now bytes.now look) }
    ensures whole { IfOk result IsWhole }
{
    if look.takes_file() {
        Ok(Decision::Needs(Change::PutFile(path.copy(alloc)?, bytes.copy(alloc)?)))
    } else {
        Ok(Decision::Fail(Reason::Obstructed))
    }
}

pub fn decide_content<S: Site>(
    alloc: Global,
    path: &Path,
    bytes: &Bytes,
    site: &mut S,
) -> Result<Decision, SeeErr>
    requires { length bytes.now ≤ MOST_FILE_BYTES }
    ensures seen { Sees (λ d world. d ≡ decision (Act.Content path.now bytes.now) world)
        (S.shown site.old) (S.shown site.new) result }
    ensures whole { IfOk result IsWhole }
{
    let look = see_look(alloc, path, site)?;
    put_missing(alloc, path, look, bytes, site)
}

// What puts these bytes at the path, of which the look tells.
fn put_missing<S: Site>(
    alloc: Global,
    path: &Path,
    look: Look,
    bytes: &Bytes,
    site: &mut S,
) -> Result<Decision, SeeErr>
    requires short { OfWorld (λ _. length bytes.now ≤ MOST_FILE_BYTES) (S.shown site.old) }
    requires look { OfWorld (λ world. look ≡ look_of world path.now) (S.shown site.old) }
    ensures seen { Sees (λ d world. d ≡ (if has_bytes bytes.now (map.get world.nodes path.now)
        then Kept else puts_file path.now bytes.now look))
        (S.shown site.old) (S.shown site.new) result }
    ensures whole { IfOk result IsWhole }
{
    if holds_bytes(alloc, path, look, bytes, site)? {
        Ok(Decision::Kept)
    } else {
        Ok(put_file(alloc, path, bytes, look)?)
    }
}

fn refuse_copy(source: Look, target: Look) -> Option<Reason>
    ensures { result ≡ copy_refusal source target }
{
    match source {
        Look::Nothing | Look::Blocked => Some(Reason::Missing),
        Look::Dir(_) => Some(Reason::Obstructed),
        Look::File(_) if !target.takes_file() => Some(Reason::Obstructed),
        Look::File(size) if size > MOST_FILE_BYTES as u64 => Some(Reason::TooLong),
        Look::File(_) => None,
    }
}

pub fn decide_copy<S: Site>(
    alloc: Global,
    source: &Path,
    path: &Path,
    site: &mut S,
) -> Result<Decision, SeeErr>
    ensures seen { Sees (λ d world. d ≡ decision (Act.Copy source.now path.now) world)
        (S.shown site.old) (S.shown site.new) result }
    ensures whole { IfOk result IsWhole }
{
    let source_look = see_look(alloc, source, site)?;
    let look = see_look(alloc, path, site)?;
    if let Some(reason) = refuse_copy(source_look, look) {
        return Ok(Decision::Fail(reason));
    }
    let bytes = see_bytes(alloc, source, site)?;
    put_missing(alloc, path, look, &bytes, site)
}
