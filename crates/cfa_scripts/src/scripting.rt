// Scripts of contributions.
ghost use Rattle.std.specs.Prelude.{◌≡◌, ◌++◌, [], IfOk, OnOk, option_copied};
ghost use Rattle.std.specs.List.{cons_option, filter_map};
ghost use Rattle.cfa_edits.specs.Scripts.{AreEdits};
ghost use Rattle.cfa_scripts.specs.EditScripts.{edit_in, edits_among, unresolved_or, first_unresolved, first_handed, first_bad, concluded};

use crate::contributing::Contribution;
use cfa_base::{Name, NoMemory, Parts, copy_name};
use cfa_edits::{Edit, Script};
use std::alloc::Global;

/// What the edits of a bundle come to.
#[derive(Drop)]
pub enum Scripted {
    Script(Script),
    /// Something that a promise reads is unresolved: this name, if it can be told.
    Unresolved(Option<Name>),
    /// A promise has too many combinations, or a list that is too long.
    TooMany,
    /// A text of a promise is too long.
    TooLong,
    /// A pattern doesn't read.
    BadPattern,
    /// A value is none of its kind.
    BadValue,
}

fn first_unresolved(contributions: &[Contribution]) -> Option<&Option<Name>>
    ensures { option_copied result ≡ first_unresolved contributions.now }
{
    for contribution in contributions {
        if let Contribution::Unresolved(name) = contribution {
            return Some(name);
        }
    }
    None
}

fn first_handed(contributions: &[Contribution]) -> Option<Scripted>
    ensures { result ≡ first_handed contributions.now }
{
    for contribution in contributions {
        match contribution {
            Contribution::TooMany => return Some(Scripted::TooMany),
            Contribution::TooLong => return Some(Scripted::TooLong),
            _ => {}
        }
    }
    None
}

fn first_bad(contributions: &[Contribution]) -> Option<Scripted>
    ensures { result ≡ first_bad contributions.now }
{
    for contribution in contributions {
        match contribution {
            Contribution::BadPattern => return Some(Scripted::BadPattern),
            Contribution::BadValue => return Some(Scripted::BadValue),
            _ => {}
        }
    }
    None
}

fn edit_in(contribution: Contribution) -> Option<Edit>
    ensures { result ≡ edit_in contribution }
{
    match contribution {
        Contribution::Edit(edit) => Some(edit),
        Contribution::Unresolved(_) => None,
        Contribution::TooMany => None,
        Contribution::TooLong => None,
        Contribution::BadPattern => None,
        Contribution::BadValue => None,
    }
}

fn add_edit(edits: &mut Vec<Edit>, edit: Option<Edit>) -> Result<(), NoMemory>
    ensures { OnOk result (edits.new.items ≡ edits.old.items ++ cons_option edit []) }
{
    match edit {
        Some(edit) => Ok(edits.push(edit)?),
        None => Ok(()),
    }
}

#[tactic(auto, using(crate::proofs::Rules::appended))]
fn edits_among(alloc: Global, contributions: Vec<Contribution>) -> Result<Vec<Edit>, NoMemory>
    ensures { IfOk result (λ edits. edits.items ≡ edits_among contributions.items) }
{
    let mut edits = Vec::new(alloc);
    for contribution in contributions {
        add_edit(&mut edits, edit_in(contribution))?;
    }
    Ok(edits)
}

/// What contributions come to: one that is unresolved goes before all, then the first that is too many or too long, and then
/// the first that can't be made.
#[tactic(auto, unfolding(crate::specs::EditScripts::concluded))]
pub(crate) fn conclude(
    alloc: Global,
    contributions: Parts<Contribution>,
) -> Result<Scripted, NoMemory>
    requires { AreEdits (edits_among contributions) }
    ensures { IfOk result (λ s. s ≡ concluded contributions) }
{
    if let Some(name) = first_unresolved(contributions.as_slice()) {
        return Ok(Scripted::Unresolved(copy_name(alloc, name.as_ref())?));
    }
    if let Some(handed) = first_handed(contributions.as_slice()) {
        return Ok(handed);
    }
    if let Some(bad) = first_bad(contributions.as_slice()) {
        return Ok(bad);
    }
    let edits = edits_among(alloc, contributions.into_vec())?;
    Ok(Scripted::Script(Script::new(alloc, Parts::from_vec(edits))?))
}
