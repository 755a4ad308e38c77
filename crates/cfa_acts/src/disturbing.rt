// Which act disturbs which.
ghost use Rattle.std.specs.Prelude.{◌≡◌, ◌&&◌, ◌||◌, not, IfOk, OnErr};
ghost use Rattle.std.specs.Str.{bytes_eq};
ghost use Rattle.cfa_outside.specs.Worlds.{is_below};
ghost use Rattle.cfa_acts.specs.Acts.{IsAct};
ghost use Rattle.cfa_acts.specs.Disturbs.{is_at_or_beneath, puts_beneath, deletes, rewrites, breaks_copy, edits_otherwise, modes_differ, lists_differ, gives_other_perms, starts, stops, enables, disables, disturbs, AreEditAndContent};
ghost use Rattle.cfa_acts.specs.Settling.{keeps_content};

use crate::Act;
use crate::edits::keeps_content;
use crate::same::is_same_path;
use cfa_base::{Bytes, Name, Names, NoMemory, are_same_names, is_same_name};
use cfa_edits::Script;
use cfa_outside::Path;
use std::alloc::Global;

/// Whether the later act may undo what the earlier one asks for. It takes no memory unless one of the two is an edit and the
/// other a content.
#[tactic(auto, unfolding(crate::specs::Disturbs::disturbs))]
pub fn disturbs(alloc: Global, later: &Act, earlier: &Act) -> Result<bool, NoMemory>
    requires later { IsAct later.now }
    requires earlier { IsAct earlier.now }
    ensures exact { IfOk result (λ disturbed. disturbed ≡ disturbs later.now earlier.now) }
    ensures memory { OnErr result (AreEditAndContent later.now earlier.now) }
{
    match earlier {
        Act::Create(path) | Act::MakeDir(path) => Ok(deletes(path, later)),
        Act::Delete(path, _) => Ok(puts_beneath(path, later)),
        Act::Content(path, bytes) => disturbs_content(alloc, path, bytes, later),
        Act::Copy(source, path) => Ok(breaks_copy(source, path, later)),
        Act::Edit(path, script) => disturbs_edit(alloc, path, script, later),
        Act::Perms(path, mode, owners, groups) => {
            Ok(deletes(path, later) || gives_other_perms(path, *mode, owners, groups, later))
        }
        Act::Start(name) => Ok(stops(name, later)),
        Act::Stop(name) => Ok(starts(name, later)),
        Act::Enable(name) => Ok(disables(name, later)),
        Act::Disable(name) => Ok(enables(name, later)),
        Act::Restart(_) | Act::Bust(_) => Ok(false),
    }
}

fn is_beneath(path: &[u8], other: &[u8]) -> bool
    ensures { result ≡ is_below path.now other.now }
{
    if other.len() <= path.len() {
        return false;
    }
    let front = &other[..path.len()];
    front == path && other[path.len()] == b'/'
}

fn is_at_or_beneath(path: &Path, other: &Path) -> bool
    ensures { result ≡ is_at_or_beneath path.now other.now }
{
    is_same_path(path, other)
        || is_beneath(
            path.text().as_str().as_bytes(),
            other.text().as_str().as_bytes(),
        )
}

fn puts_beneath(path: &Path, act: &Act) -> bool
    ensures { result ≡ puts_beneath path.now act.now }
{
    match act {
        Act::Create(other) | Act::MakeDir(other) | Act::Content(other, _) | Act::Copy(_, other) =>
            is_at_or_beneath(path, other),
        _ => false,
    }
}

fn deletes(path: &Path, act: &Act) -> bool
    ensures { result ≡ deletes path.now act.now }
{
    match act {
        Act::Delete(other, _) => is_same_path(path, other),
        _ => false,
    }
}

fn disturbs_content(alloc: Global, path: &Path, bytes: &Bytes, act: &Act) -> Result<bool, NoMemory>
    ensures exact { IfOk result
        (λ yes. yes ≡ (deletes path.now act.now || rewrites path.now bytes.now act.now)) }
    ensures memory { OnErr result (AreEditAndContent act.now (Act.Content path.now bytes.now)) }
{
    match act {
        Act::Delete(other, _) => Ok(is_same_path(path, other)),
        Act::Content(other, content) => {
            Ok(is_same_path(path, other) && bytes.as_slice() != content.as_slice())
        }
        Act::Copy(_, other) => Ok(is_same_path(path, other)),
        Act::Edit(other, script) => changes_content(alloc, path, other, script, bytes),
        _ => Ok(false),
    }
}

fn disturbs_edit(alloc: Global, path: &Path, script: &Script, act: &Act) -> Result<bool, NoMemory>
    ensures exact { IfOk result
        (λ yes. yes ≡ (deletes path.now act.now || edits_otherwise path.now script.now act.now)) }
    ensures memory { OnErr result (AreEditAndContent act.now (Act.Edit path.now script.now)) }
{
    match act {
        Act::Delete(other, _) => Ok(is_same_path(path, other)),
        Act::Content(other, content) => changes_content(alloc, path, other, script, content),
        Act::Copy(_, other) => Ok(is_same_path(path, other)),
        Act::Edit(other, others) => {
            Ok(is_same_path(path, other) && !is_same_name(script.text(), others.text()))
        }
        _ => Ok(false),
    }
}

// Whether the paths are one, and the script changes the content.
fn changes_content(
    alloc: Global,
    path: &Path,
    other: &Path,
    script: &Script,
    content: &Bytes,
) -> Result<bool, NoMemory>
    ensures { IfOk result (λ yes. yes
        ≡ (bytes_eq path.now other.now && not (keeps_content script.now content.now))) }
{
    if !is_same_path(path, other) {
        return Ok(false);
    }
    Ok(!keeps_content(alloc, script, content.as_slice())?)
}

fn breaks_copy(source: &Path, path: &Path, act: &Act) -> bool
    ensures { result ≡ breaks_copy source.now path.now act.now }
{
    match act {
        Act::Delete(other, _) | Act::Content(other, _) => {
            is_same_path(source, other) || is_same_path(path, other)
        }
        Act::Copy(from, other) => {
            (is_same_path(source, other) || is_same_path(path, other))
                && !(is_same_path(source, from) && is_same_path(path, other))
        }
        Act::Edit(other, _) => is_same_path(source, other) || is_same_path(path, other),
        _ => false,
    }
}

fn modes_differ(mode: Option<u16>, other: Option<u16>) -> bool
    ensures { result ≡ modes_differ mode other }
{
    match (mode, other) {
        (Some(mode), Some(other)) => mode != other,
        _ => false,
    }
}

fn lists_differ(names: &Names, others: &Names) -> bool
    ensures { result ≡ lists_differ names.now others.now }
{
    let (names, others) = (names.as_slice(), others.as_slice());
    !names.is_empty() && !others.is_empty() && !are_same_names(names, others)
}

fn gives_other_perms(
    path: &Path,
    mode: Option<u16>,
    owners: &Names,
    groups: &Names,
    act: &Act,
) -> bool
    ensures { result ≡ gives_other_perms path.now mode owners.now groups.now act.now }
{
    match act {
        Act::Perms(other, m, os, gs) => {
            is_same_path(path, other)
                && (modes_differ(mode, *m) || lists_differ(owners, os) || lists_differ(groups, gs))
        }
        _ => false,
    }
}

fn starts(name: &Name, act: &Act) -> bool
    ensures { result ≡ starts name.now act.now }
{
    match act {
        Act::Start(other) | Act::Restart(other) => is_same_name(name, other),
        _ => false,
    }
}

fn stops(name: &Name, act: &Act) -> bool
    ensures { result ≡ stops name.now act.now }
{
    match act {
        Act::Stop(other) => is_same_name(name, other),
        _ => false,
    }
}

fn enables(name: &Name, act: &Act) -> bool
    ensures { result ≡ enables name.now act.now }
{
    match act {
        Act::Enable(other) => is_same_name(name, other),
        _ => false,
    }
}

fn disables(name: &Name, act: &Act) -> bool
    ensures { result ≡ disables name.now act.now }
{
    match act {
        Act::Disable(other) => is_same_name(name, other),
        _ => false,
    }
}
