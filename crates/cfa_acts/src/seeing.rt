// Looking at a site for a decision.
ghost use Rattle.std.specs.Prelude.{◌≡◌, Some, IsTrue};
ghost use Rattle.std.specs.FinMap as map;
ghost use Rattle.cfa_outside.specs.Worlds.{is_readable, bytes_in, perms_in};
ghost use Rattle.cfa_outside.specs.Sites.{look_of};
ghost use Rattle.cfa_acts.specs.Seeing.{OfWorld, Sees};
ghost use Rattle.cfa_acts.specs.declared.seeing.SeeErr.TheVariants as error;

use cfa_base as base;
use cfa_base::{Bytes, Name};
use cfa_outside::{Call, Look, OutsideErr, Path, Perms, ServiceRow, Site};
use std::alloc::Global;

/// Why nothing was seen.
#[derive(Clone, Copy, Debug, PartialEq, Eq)]
pub enum SeeErr {
    /// This call failed.
    Failed(Call),
    NoMemory,
}

impl From<base::NoMemory> for SeeErr {
    ghost from_gives = { λ _ e. e ≡ error.NoMemory };

    fn from(_: base::NoMemory) -> Self {
        SeeErr::NoMemory
    }
}

pub fn see_look<S: Site>(alloc: Global, path: &Path, site: &mut S) -> Result<Look, SeeErr>
    ensures { Sees (λ look world. look ≡ look_of world path.now)
        (S.shown site.old) (S.shown site.new) result }
{
    match site.look(alloc, path) {
        Ok(look) => Ok(look),
        Err(OutsideErr::Failed) => Err(SeeErr::Failed(Call::Look)),
        Err(OutsideErr::NoMemory) => Err(SeeErr::NoMemory),
    }
}

pub fn see_bytes<S: Site>(alloc: Global, path: &Path, site: &mut S) -> Result<Bytes, SeeErr>
    requires { OfWorld (λ world. IsTrue (is_readable (map.get world.nodes path.now)))
        (S.shown site.old) }
    ensures { Sees (λ bytes world. bytes_in (map.get world.nodes path.now) ≡ Some bytes)
        (S.shown site.old) (S.shown site.new) result }
{
    match site.read(alloc, path) {
        Ok(bytes) => Ok(bytes),
        Err(OutsideErr::Failed) => Err(SeeErr::Failed(Call::Read)),
        Err(OutsideErr::NoMemory) => Err(SeeErr::NoMemory),
    }
}

pub fn see_perms<S: Site>(alloc: Global, path: &Path, site: &mut S) -> Result<Perms, SeeErr>
    requires { OfWorld (λ world. IsTrue (map.contains_key world.nodes path.now))
        (S.shown site.old) }
    ensures { Sees (λ perms world. perms_in (map.get world.nodes path.now) ≡ Some perms)
        (S.shown site.old) (S.shown site.new) result }
{
    match site.perms(alloc, path) {
        Ok(perms) => Ok(perms),
        Err(OutsideErr::Failed) => Err(SeeErr::Failed(Call::Perms)),
        Err(OutsideErr::NoMemory) => Err(SeeErr::NoMemory),
    }
}

pub fn see_row<S: Site>(
    alloc: Global,
    name: &Name,
    site: &mut S,
) -> Result<Option<ServiceRow>, SeeErr>
    ensures { Sees (λ row world. row ≡ map.get world.services name.now)
        (S.shown site.old) (S.shown site.new) result }
{
    match site.service(alloc, name) {
        Ok(row) => Ok(row),
        Err(OutsideErr::Failed) => Err(SeeErr::Failed(Call::Service)),
        Err(OutsideErr::NoMemory) => Err(SeeErr::NoMemory),
    }
}
