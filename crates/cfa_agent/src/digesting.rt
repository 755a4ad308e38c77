// What stands where a file is to be put, and the record that tells it.
ghost use Rattle.std.specs.Prelude.{◌≡◌, Some, IfOk, IfSome, IsTrue};
ghost use Rattle.std.specs.FinMap as map;
ghost use Rattle.cfa_outside.specs.Worlds.{is_readable, bytes_in};
ghost use Rattle.cfa_outside.specs.Sites.{look_of};
ghost use Rattle.cfa_journal.specs.Records.{IsCount, IsDigest, IsFilled, IsRecord};
ghost use Rattle.cfa_locks.specs.Locks.{digest_of};
ghost use Rattle.cfa_agent.specs.Actuations.{content_digest, file_record};
ghost use Rattle.cfa_agent.specs.Digesting.{OfWorld, Finds, digest_seen, recorded};
ghost use Rattle.cfa_agent.specs.declared.digesting.DigestErr.TheVariants as error;

use cfa_base as base;
use cfa_base::{Bytes, MOST_FILE_BYTES, Name};
use cfa_journal::{Digest, Record};
use cfa_locks::digest;
use cfa_outside::{Call, Change, Look, OutsideErr, Path, Site};
use std::alloc::Global;

/// Why no digest was found.
#[derive(Clone, Copy, Debug)]
pub enum DigestErr {
    /// This call on the site failed.
    Failed(Call),
    NoMemory,
}

impl From<base::NoMemory> for DigestErr {
    ghost from_gives = { λ _ e. e ≡ error.NoMemory };

    fn from(_: base::NoMemory) -> Self {
        DigestErr::NoMemory
    }
}

fn find_look<S: Site>(alloc: Global, path: &Path, site: &mut S) -> Result<Look, DigestErr>
    ensures { Finds (λ look world. look ≡ look_of world path.now)
        (S.shown site.old) (S.shown site.new) result }
{
    match site.look(alloc, path) {
        Ok(look) => Ok(look),
        Err(OutsideErr::Failed) => Err(DigestErr::Failed(Call::Look)),
        Err(OutsideErr::NoMemory) => Err(DigestErr::NoMemory),
    }
}

fn find_bytes<S: Site>(alloc: Global, path: &Path, site: &mut S) -> Result<Bytes, DigestErr>
    requires { OfWorld (λ world. IsTrue (is_readable (map.get world.nodes path.now)))
        (S.shown site.old) }
    ensures { Finds (λ bytes world. bytes_in (map.get world.nodes path.now) ≡ Some bytes)
        (S.shown site.old) (S.shown site.new) result }
{
    match site.read(alloc, path) {
        Ok(bytes) => Ok(bytes),
        Err(OutsideErr::Failed) => Err(DigestErr::Failed(Call::Read)),
        Err(OutsideErr::NoMemory) => Err(DigestErr::NoMemory),
    }
}

// The digest that a look tells. None where a file is to be read for it.
fn digest_seen(look: Look) -> Option<Digest>
    ensures exact { result ≡ digest_seen look }
    ensures whole { IfSome result IsDigest }
{
    match look {
        Look::File(size) if size > MOST_FILE_BYTES as u64 => Some(Digest::Over),
        Look::File(_) => None,
        Look::Nothing | Look::Blocked | Look::Dir(_) => Some(Digest::Nothing),
    }
}

// The digest of what stands at a path.
fn find_digest<S: Site>(alloc: Global, path: &Path, site: &mut S) -> Result<Digest, DigestErr>
    ensures found { Finds (λ found world. found ≡ content_digest (map.get world.nodes path.now))
        (S.shown site.old) (S.shown site.new) result }
    ensures whole { IfOk result IsDigest }
{
    let look = find_look(alloc, path, site)?;
    if let Some(found) = digest_seen(look) {
        return Ok(found);
    }
    let bytes = find_bytes(alloc, path, site)?;
    Ok(Digest::of(alloc, digest(alloc, &bytes)?)?)
}

// The digest of a content.
fn sha_of(alloc: Global, bytes: &Bytes) -> Result<Digest, base::NoMemory>
    ensures exact { IfOk result (λ sha. sha ≡ Digest.Sha (digest_of bytes.now)) }
    ensures whole { IfOk result IsDigest }
{
    Digest::of(alloc, digest(alloc, bytes)?)
}

// The text of a path, which isn't empty.
#[tactic(auto, using(crate::proofs::Opened::path_filled))]
fn text_of(alloc: Global, path: &Path) -> Result<Name, base::NoMemory>
    ensures exact { IfOk result (λ text. text ≡ path.now) }
    ensures filled { IfOk result IsFilled }
{
    let text = path.text().copy(alloc)?;
    let _ = text.as_str();
    Ok(text)
}

// The record of a file that is to get these bytes.
fn file_of<S: Site>(
    alloc: Global,
    number: u32,
    path: &Path,
    bytes: &Bytes,
    site: &mut S,
) -> Result<Record, DigestErr>
    requires { IsCount number }
    ensures found { Finds (λ file world. recorded (Some file)
        ≡ file_record number (Change.PutFile path.now bytes.now) world)
        (S.shown site.old) (S.shown site.new) result }
    ensures whole { IfOk result IsRecord }
{
    let before = find_digest(alloc, path, site)?;
    let after = sha_of(alloc, bytes)?;
    let path = text_of(alloc, path)?;
    Ok(Record::File(number, path, before, after))
}

/// The record that stands before a change on a site. Only a file that is put has one.
pub fn find_record<S: Site>(
    alloc: Global,
    number: u32,
    change: &Change,
    site: &mut S,
) -> Result<Option<Record>, DigestErr>
    requires { IsCount number }
    ensures found { Finds (λ file world. recorded file ≡ file_record number change.now world)
        (S.shown site.old) (S.shown site.new) result }
    ensures whole { IfOk result (λ file. IfSome file IsRecord) }
{
    match change {
        Change::PutFile(path, bytes) => Ok(Some(file_of(alloc, number, path, bytes, site)?)),
        _ => Ok(None),
    }
}
