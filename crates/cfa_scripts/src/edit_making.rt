// What promises that edit give to scripts in their combinations.
ghost use Rattle.std.specs.Prelude.{◌≡◌, ◌∷◌, [], IfOk, Some, map};
ghost use Rattle.cfa_base.specs.Patterns.{SizeRefusal};
ghost use Rattle.cfa_functions.specs.Builds.{refused_in};
ghost use Rattle.cfa_schema.specs.Seen.{tree_of};
ghost use Rattle.cfa_tree.specs.Plain.{plain_promise};
ghost use Rattle.cfa_vars.specs.Scopes.{in_scope};
ghost use Rattle.cfa_vars.specs.Expansion.{expanded};
ghost use Rattle.cfa_defines.specs.OwnTexts.{combined, own_reads};
ghost use Rattle.cfa_scripts.specs.EditPromises.{whole_text, edits_by, count_combined};
ghost use Rattle.cfa_scripts.specs.ScriptBuilds.{BuiltFor};
ghost use Rattle.cfa_scripts.specs.Walking.{built_in, contribution_of, built_among};

use crate::contributing::Contribution;
use crate::editing::edit_for;
use cfa_base::{Name, NoMemory, Parts, Patterns};
use cfa_bodies::{Heard, bodies_of, empty_text, hear};
use cfa_defines::{Combined, combine, own_reads};
use cfa_functions::CallErr;
use cfa_kinds::PromiseType;
use cfa_schema::Checked;
use cfa_tree::Promise;
use cfa_vars::{Choice, Expanded, Scopes, expand};
use std::alloc::Global;

/// A promise that edits, with what it is read in.
#[derive(Clone, Copy)]
pub(crate) struct Editor<'a> {
    pub checked: &'a Checked,
    pub promise_type: PromiseType,
    pub promise: &'a Promise,
    pub scopes: Scopes<'a>,
}

fn promiser_in(
    alloc: Global,
    editor: &Editor<'_>,
    choice: &[(Name, Name)],
) -> Result<Name, NoMemory>
    ensures { IfOk result (λ p. p ≡ whole_text
        (expanded (in_scope editor.now.scopes) choice.now editor.now.promise.now.promiser)) }
{
    match expand(alloc, &editor.promise.promiser, &editor.scopes, choice)? {
        Expanded::Done(whole) => Ok(whole),
        Expanded::Unresolved(_) => empty_text(alloc),
        Expanded::TooLong => empty_text(alloc),
    }
}

#[tactic(auto, unfolding(crate::specs::EditPromises::contribution))]
fn contribution<P: Patterns>(
    alloc: Global,
    editor: &Editor<'_>,
    choice: &[(Name, Name)],
    pats: &mut P,
) -> Result<Contribution, CallErr>
    ensures value { IfOk result (λ c. c ≡ contribution_of editor.now choice.now) }
    ensures sizes { SizeRefusal (built_in editor.now choice.now) (refused_in result)
        (P.shown pats.old) (P.shown pats.new) }
{
    let (checked, promise_type) = (editor.checked, editor.promise_type);
    let promiser = promiser_in(alloc, editor, choice)?;
    let bodies = bodies_of(
        alloc,
        checked,
        promise_type,
        editor.promise,
        &editor.scopes,
        choice,
    )?;
    match hear(alloc, &bodies)? {
        Heard::Lacks(name) => Ok(Contribution::Unresolved(name)),
        Heard::TooMany => Ok(Contribution::TooMany),
        Heard::TooLong => Ok(Contribution::TooLong),
        Heard::All => edit_for(alloc, promise_type, &promiser, &bodies, pats),
    }
}

fn contributions_for<P: Patterns>(
    alloc: Global,
    editor: &Editor<'_>,
    choices: &[Choice],
    pats: &mut P,
) -> Result<Parts<Contribution>, CallErr>
    ensures value { IfOk result (λ c. c ≡ map (contribution_of editor.now) choices.now) }
    ensures sizes { SizeRefusal (built_among editor.now choices.now) (refused_in result)
        (P.shown pats.old) (P.shown pats.new) }
{
    let mut contributions = Parts::from_vec(Vec::new(alloc));
    for choice in choices {
        let contribution = contribution(alloc, editor, choice.as_slice(), pats)?;
        contributions.push(contribution)?;
    }
    Ok(contributions)
}

fn one_contribution(
    alloc: Global,
    contribution: Contribution,
) -> Result<Parts<Contribution>, NoMemory>
    ensures { IfOk result (λ c. c ≡ contribution ∷ []) }
{
    let mut contributions = Parts::from_vec(Vec::new(alloc));
    contributions.push(contribution)?;
    Ok(contributions)
}

/// What a promise gives in all its combinations.
pub(crate) fn edits_by<P: Patterns>(
    alloc: Global,
    editor: &Editor<'_>,
    combined: Combined,
    pats: &mut P,
) -> Result<Parts<Contribution>, CallErr>
    ensures value { IfOk result (λ c. c ≡ edits_by (tree_of editor.now.checked.now)
        (in_scope editor.now.scopes) editor.now.promise_type
        (plain_promise editor.now.promise.now) combined) }
    ensures sizes { SizeRefusal (BuiltFor
        (tree_of editor.now.checked.now) (in_scope editor.now.scopes) editor.now.promise_type
        (plain_promise editor.now.promise.now) combined)
        (refused_in result) (P.shown pats.old) (P.shown pats.new) }
{
    match combined {
        Combined::Lacks(name) => {
            Ok(one_contribution(alloc, Contribution::Unresolved(Some(name)))?)
        }
        Combined::TooMany => Ok(one_contribution(alloc, Contribution::TooMany)?),
        Combined::TooLong(_) => Ok(one_contribution(alloc, Contribution::TooLong)?),
        Combined::Found(choices) => contributions_for(alloc, editor, choices.as_slice(), pats),
    }
}

/// The combinations of a promise that edits.
pub(crate) fn combine_edits(alloc: Global, editor: &Editor<'_>) -> Result<Combined, NoMemory>
    ensures { IfOk result (λ c. c ≡ combined (in_scope editor.now.scopes)
        (own_reads editor.now.promise_type (plain_promise editor.now.promise.now))) }
{
    let reads = own_reads(alloc, editor.promise_type, editor.promise)?;
    combine(alloc, reads, &editor.scopes)
}

/// How many visits are counted.
pub fn count_combined(combined: &Combined) -> u64
    ensures { result ≡ count_combined combined.now }
{
    match combined {
        Combined::Lacks(_) => 1,
        Combined::TooMany => 1,
        Combined::TooLong(combinations) => *combinations as u64,
        Combined::Found(choices) => {
            let count = choices.as_slice().len();
            if count == 0 { 1 } else { count as u64 }
        }
    }
}
