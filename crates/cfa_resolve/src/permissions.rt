// What files promises ask of permissions.
ghost use Rattle.std.specs.Prelude.{◌≡◌, [], All, IfOk, option_copied};
ghost use Rattle.std.specs.List.{cons_option, list_any};
ghost use Rattle.cfa_acts.specs.Acts.{IsAct};
ghost use Rattle.cfa_resolve.specs.FileActs.{mode_said, is_empty, full_list, names_said, perms_by, perms_act, perms_acts};

use crate::values::mode_written;
use cfa_acts::{Act, Reason};
use cfa_base::{Name, Names, NoMemory};
use cfa_bodies::{Said, Sayings, text_in};
use cfa_outside::Path;
use std::alloc::Global;

// A mode that isn't given, one that is, and one that is wrong.
fn mode_said(said: Option<&Said>) -> Option<Option<u16>>
    ensures { result ≡ mode_said (option_copied said.entry) }
{
    match said {
        None => Some(None),
        Some(said) => Some(Some(mode_written(text_in(said))?)),
    }
}

fn has_empty(items: &[Name]) -> bool
    ensures { result ≡ list_any is_empty items.now }
{
    for item in items {
        if item.as_str().is_empty() {
            return true;
        }
    }
    false
}

fn full_list(alloc: Global, items: &Names) -> Result<Option<Names>, NoMemory>
    ensures { IfOk result (λ names. names ≡ full_list items.now) }
{
    if items.as_slice().is_empty() || has_empty(items.as_slice()) {
        Ok(None)
    } else {
        Ok(Some(items.copy(alloc)?))
    }
}

fn names_said(alloc: Global, said: Option<&Said>) -> Result<Option<Names>, NoMemory>
    ensures { IfOk result (λ names. names ≡ names_said (option_copied said.entry)) }
{
    match said {
        None => Ok(Some(Names::new(alloc))),
        Some(Said::Items(items)) => full_list(alloc, items),
        Some(_) => Ok(None),
    }
}

fn perms_by(
    path: Path,
    mode: Option<Option<u16>>,
    owners: Option<Names>,
    groups: Option<Names>,
) -> Act
    ensures { result ≡ perms_by path mode owners groups }
{
    match (mode, owners, groups) {
        (Some(mode), Some(owners), Some(groups)) => Act::Perms(path, mode, owners, groups),
        _ => Act::Bust(Reason::BadValue),
    }
}

fn perms_of(alloc: Global, path: &Path, sayings: &Sayings) -> Result<Act, NoMemory>
    ensures { IfOk result (λ act. act ≡ perms_act path.now sayings.now) }
{
    let mode = mode_said(sayings.get("mode"));
    let owners = names_said(alloc, sayings.get("owners"))?;
    let groups = names_said(alloc, sayings.get("groups"))?;
    Ok(perms_by(path.copy(alloc)?, mode, owners, groups))
}

/// The act for the permissions that a body says, if there is one.
pub(crate) fn perms_act(
    alloc: Global,
    path: &Path,
    sayings: Option<&Sayings>,
) -> Result<Option<Act>, NoMemory>
    ensures value { IfOk result
        (λ act. cons_option act [] ≡ perms_acts path.now (option_copied sayings.entry)) }
    ensures facts { IfOk result (λ act. All IsAct (cons_option act [])) }
{
    match sayings {
        None => Ok(None),
        Some(sayings) => Ok(Some(perms_of(alloc, path, sayings)?)),
    }
}
