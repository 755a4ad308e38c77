// Which paths and acts are the same.
ghost use Rattle.std.specs.Prelude.{◌≡◌};
ghost use Rattle.std.specs.Cmp.Lexicographic.{pointwise};
ghost use Rattle.std.specs.Str.{bytes_eq};
ghost use Rattle.cfa_acts.specs.Same.{is_same_mode, is_same_flag, is_same};

use crate::Act;
use cfa_base::{are_same_names, is_same_name};
use cfa_outside::Path;

/// Whether the paths have equal texts.
pub fn is_same_path(path: &Path, other: &Path) -> bool
    ensures { result ≡ bytes_eq path.now other.now }
{
    path.text().as_str() == other.text().as_str()
}

fn is_same_mode(mode: Option<u16>, other: Option<u16>) -> bool
    ensures { result ≡ is_same_mode mode other }
{
    match (mode, other) {
        (Some(mode), Some(other)) => mode == other,
        (None, None) => true,
        _ => false,
    }
}

fn is_same_flag(flag: bool, other: bool) -> bool
    ensures { result ≡ is_same_flag flag other }
{
    if flag { other } else { !other }
}

fn is_same(act: &Act, other: &Act) -> bool
    ensures { result ≡ is_same act.now other.now }
{
    match act {
        Act::Create(path) => match other {
            Act::Create(at) => is_same_path(path, at),
            _ => false,
        },
        Act::MakeDir(path) => match other {
            Act::MakeDir(at) => is_same_path(path, at),
            _ => false,
        },
        Act::Delete(path, with_directories) => match other {
            Act::Delete(at, with_too) => {
                is_same_path(path, at) && is_same_flag(*with_directories, *with_too)
            }
            _ => false,
        },
        Act::Content(path, bytes) => match other {
            Act::Content(at, others) => {
                is_same_path(path, at) && bytes.as_slice() == others.as_slice()
            }
            _ => false,
        },
        Act::Copy(source, path) => match other {
            Act::Copy(from, at) => is_same_path(source, from) && is_same_path(path, at),
            _ => false,
        },
        Act::Perms(path, mode, owners, groups) => match other {
            Act::Perms(at, m, os, gs) => {
                is_same_path(path, at)
                    && is_same_mode(*mode, *m)
                    && are_same_names(owners.as_slice(), os.as_slice())
                    && are_same_names(groups.as_slice(), gs.as_slice())
            }
            _ => false,
        },
        Act::Start(name) => match other {
            Act::Start(at) => is_same_name(name, at),
            _ => false,
        },
        Act::Stop(name) => match other {
            Act::Stop(at) => is_same_name(name, at),
            _ => false,
        },
        Act::Enable(name) => match other {
            Act::Enable(at) => is_same_name(name, at),
            _ => false,
        },
        Act::Disable(name) => match other {
            Act::Disable(at) => is_same_name(name, at),
            _ => false,
        },
        Act::Edit(_, _) | Act::Restart(_) | Act::Bust(_) => false,
    }
}

/// Whether the acts are the same in the same order. Edits and restarts count as different.
pub fn are_same_acts(acts: &[Act], others: &[Act]) -> bool
    ensures { result ≡ pointwise is_same acts.now others.now }
{
    if acts.len() != others.len() {
        return false;
    }
    for (i, act) in acts.iter().enumerate() {
        if !is_same(act, &others[i]) {
            return false;
        }
    }
    true
}
