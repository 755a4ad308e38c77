// What an act on permissions needs.
ghost use Rattle.std.specs.Prelude.{◌≡◌, IfOk};
ghost use Rattle.std.specs.List.{list_any};
ghost use Rattle.std.specs.Str.{bytes_eq};
ghost use Rattle.cfa_acts.specs.Acts.{is_listed, are_perms, listed_or_first, asked_perms, decision};
ghost use Rattle.cfa_acts.specs.Seeing.{Sees, IsWhole, stands, perms_decision};

use crate::seeing::{SeeErr, see_look, see_perms};
use crate::{Act, Decision, Reason};
use cfa_base::{Name, Names, NoMemory};
use cfa_outside::{Change, Look, Path, Perms, Site};
use std::alloc::Global;

fn has_name(names: &[Name], present: &Name) -> bool
    ensures { result ≡ list_any (λ name. bytes_eq name present.now) names.now }
{
    names.iter().any(|name| name.as_str() == present.as_str())
}

fn tests_as_listed(names: &Names, present: &Name) -> bool
    ensures { result ≡ is_listed names.now present.now }
{
    let names = names.as_slice();
    names.is_empty() || has_name(names, present)
}

fn tests_as_asked(mode: Option<u16>, owners: &Names, groups: &Names, present: &Perms) -> bool
    ensures { result ≡ are_perms mode owners.now groups.now present.now }
{
    let is_mode = match mode {
        Some(mode) => mode == present.mode,
        None => true,
    };
    is_mode && tests_as_listed(owners, &present.owner) && tests_as_listed(groups, &present.group)
}

fn choose_listed(alloc: Global, names: &Names, present: Name) -> Result<Name, NoMemory>
    ensures { IfOk result (λ n. n ≡ listed_or_first names.now present) }
{
    if tests_as_listed(names, &present) {
        return Ok(present);
    }
    match names.get(0) {
        Some(first) => first.copy(alloc),
        None => Ok(present),
    }
}

fn change_perms(
    alloc: Global,
    mode: Option<u16>,
    owners: &Names,
    groups: &Names,
    present: Perms,
) -> Result<Perms, NoMemory>
    ensures { IfOk result (λ p. p ≡ asked_perms mode owners.now groups.now present) }
{
    Ok(Perms {
        mode: mode.unwrap_or(present.mode),
        owner: choose_listed(alloc, owners, present.owner)?,
        group: choose_listed(alloc, groups, present.group)?,
    })
}

fn set_perms(
    alloc: Global,
    path: &Path,
    mode: Option<u16>,
    owners: &Names,
    groups: &Names,
    present: Perms,
) -> Result<Decision, NoMemory>
    ensures exact { IfOk result (λ d. d ≡
        perms_decision path.now mode owners.now groups.now present) }
    ensures whole { IfOk result IsWhole }
{
    if tests_as_asked(mode, owners, groups, &present) {
        return Ok(Decision::Kept);
    }
    let perms = change_perms(alloc, mode, owners, groups, present)?;
    Ok(Decision::Needs(Change::SetPerms(path.copy(alloc)?, perms)))
}

fn stands(look: Look) -> bool
    ensures { result ≡ stands look }
{
    match look {
        Look::File(_) | Look::Dir(_) => true,
        Look::Nothing | Look::Blocked => false,
    }
}

pub fn decide_perms<S: Site>(
    alloc: Global,
    path: &Path,
    mode: Option<u16>,
    owners: &Names,
    groups: &Names,
    site: &mut S,
) -> Result<Decision, SeeErr>
    ensures seen { Sees
        (λ d world. d ≡ decision (Act.Perms path.now mode owners.now groups.now) world)
        (S.shown site.old) (S.shown site.new) result }
    ensures whole { IfOk result IsWhole }
{
    let look = see_look(alloc, path, site)?;
    if !stands(look) {
        return Ok(Decision::Fail(Reason::Missing));
    }
    let present = see_perms(alloc, path, site)?;
    Ok(set_perms(alloc, path, mode, owners, groups, present)?)
}
