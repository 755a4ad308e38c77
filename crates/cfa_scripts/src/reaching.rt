// Promises of an edit bundle that are reached.
ghost use Rattle.std.specs.Prelude.{◌≡◌, ◌+◌, ◌++◌, [], ◌<◌, ◌≤◌, ℕ, List, IfErr, IfOk, IsErrOf, OnOk, map};
ghost use Rattle.std.specs.List.{cons_option};
ghost use Rattle.cfa_base.specs.Patterns.{SizeRefusal};
ghost use Rattle.cfa_kinds.specs.declared.kinds.PromiseType.TheVariants.{Vars as of_vars, Classes as of_classes};
ghost use Rattle.cfa_defines.specs.OwnTexts.{combined, own_reads};
ghost use Rattle.cfa_functions.specs.Builds.{refused_in};
ghost use Rattle.cfa_scripts.specs.EditBundles.{edits_kept, kept_by, reach, unsettled_by, walked_from, scopes_at};
ghost use Rattle.cfa_scripts.specs.EditPromises.{edits_by};
ghost use Rattle.cfa_scripts.specs.ScriptBuilds.{BuiltFor, BuiltForEdits, BuiltByType, BuiltAt, BuiltAlong};
ghost use Rattle.cfa_scripts.specs.Walking.{seen_around, seen_numbered};
ghost use Rattle.cfa_scripts.specs.Refusals.{too_big_in};

use crate::blaming::Unsettled;
use crate::contributing::Contribution;
use crate::edit_making::{Editor, combine_edits, count_combined, edits_by};
use crate::errors::ScriptErr;
use crate::numbering::Numbered;
use crate::raising::{
    choices_at, guard_status, hand_each, raise_each, raises_at, scopes_at, set_each, unsettled_by,
    values_at,
};
use crate::walking::{Around, Inside, Walk};
use cfa_base::{NoMemory, Parts, Patterns};
use cfa_defines::{Combined, count_choices};
use cfa_functions::CallErr;
use cfa_kinds::PromiseType;
use cfa_statuses::Status;
use std::alloc::Global;

// Counts visits, unless they are more than are left.
fn count(walk: &mut Walk, visits: u64, left: u64) -> Result<(), ScriptErr>
    requires { walk.old.visits ≤ left }
    ensures ok { OnOk result (walk.new ≡ record walk.old { visits = walk.old.visits + visits }) }
    ensures within { OnOk result (walk.new.visits ≤ left) }
    ensures too_large { IsErrOf result ScriptErr.TooLarge → left < walk.old.visits + visits }
    ensures only { IfErr result (λ e. e ≡ ScriptErr.TooLarge) }
{
    if visits > left - walk.visits {
        return Err(ScriptErr::TooLarge);
    }
    walk.visits += visits;
    Ok(())
}

fn add_unsettled(list: &mut Parts<Unsettled>, unsettled: Option<Unsettled>) -> Result<(), NoMemory>
    ensures { OnOk result (list.new ≡ list.old ++ cons_option unsettled []) }
{
    match unsettled {
        Some(unsettled) => list.push(unsettled),
        None => Ok(()),
    }
}

// Notes a promise whose guard may hold or not.
fn note_unsettled(
    alloc: Global,
    around: &Around<'_>,
    promise: &Numbered<'_>,
    guard: Status,
    walk: &mut Walk,
) -> Result<(), NoMemory>
    ensures { OnOk result (walk.new ≡ record walk.old {
      unsettled = walk.old.unsettled
          ++ unsettled_by (seen_around around.now) walk.old.inside (seen_numbered promise.now) guard;
    }) }
{
    let unsettled = unsettled_by(alloc, around, &walk.inside, promise, guard)?;
    add_unsettled(&mut walk.unsettled, unsettled)
}

fn keep_vars(
    alloc: Global,
    around: &Around<'_>,
    promise: &Numbered<'_>,
    guard: Status,
    walk: &mut Walk,
    left: u64,
) -> Result<(), ScriptErr>
    requires { walk.old.visits ≤ left }
    ensures ok { OnOk result (walk.new ≡ kept_by (seen_around around.now) walk.old
        (seen_numbered promise.now) guard of_vars) }
    ensures within { OnOk result (walk.new.visits ≤ left) }
    ensures too_large { IsErrOf result ScriptErr.TooLarge → left < (kept_by
        (seen_around around.now) walk.old (seen_numbered promise.now) guard of_vars).visits }
    ensures sizes { IfErr result (λ e. (text : List ℕ) → ¬ (e ≡ ScriptErr.PatternTooBig text)) }
{
    let choices = choices_at(
        alloc,
        around,
        &walk.inside,
        PromiseType::Vars,
        promise.promise,
    )?;
    count(walk, count_choices(&choices), left)?;
    note_unsettled(alloc, around, promise, guard, walk)?;
    let values = values_at(alloc, around, &walk.inside, promise.promise, &choices)?;
    let own = &mut walk.inside.own;
    Ok(set_each(alloc, own, &promise.promise.promiser, values)?)
}

fn keep_classes<P: Patterns>(
    alloc: Global,
    around: &Around<'_>,
    promise: &Numbered<'_>,
    guard: Status,
    walk: &mut Walk,
    left: u64,
    pats: &mut P,
) -> Result<(), ScriptErr>
    requires { walk.old.visits ≤ left }
    ensures ok { OnOk result (walk.new ≡ kept_by (seen_around around.now) walk.old
        (seen_numbered promise.now) guard of_classes) }
    ensures within { OnOk result (walk.new.visits ≤ left) }
    ensures too_large { IsErrOf result ScriptErr.TooLarge → left < (kept_by
        (seen_around around.now) walk.old (seen_numbered promise.now) guard of_classes).visits }
    ensures sizes { SizeRefusal (BuiltByType (seen_around around.now) walk.old.inside
        (seen_numbered promise.now) of_classes) (too_big_in result)
        (P.shown pats.old) (P.shown pats.new) }
{
    let choices = choices_at(
        alloc,
        around,
        &walk.inside,
        PromiseType::Classes,
        promise.promise,
    )?;
    count(walk, count_choices(&choices), left)?;
    let raises = raises_at(alloc, around, &walk.inside, promise.promise, &choices, pats)?;
    let handed = hand_each(alloc, around, &walk.inside, promise.promise, guard, raises)?;
    Ok(raise_each(alloc, &mut walk.inside, handed)?)
}

fn combine_at(
    alloc: Global,
    around: &Around<'_>,
    inside: &Inside,
    promise: &Numbered<'_>,
) -> Result<Combined, NoMemory>
    ensures { IfOk result (λ c. c ≡ combined (scopes_at (seen_around around.now) inside.now)
        (own_reads (seen_numbered promise.now).type (seen_numbered promise.now).promise)) }
{
    let editor = Editor {
        checked: around.checked,
        promise_type: promise.promise_type,
        promise: promise.promise,
        scopes: scopes_at(around, inside),
    };
    combine_edits(alloc, &editor)
}

fn edits_at<P: Patterns>(
    alloc: Global,
    around: &Around<'_>,
    inside: &Inside,
    promise: &Numbered<'_>,
    combined: Combined,
    pats: &mut P,
) -> Result<Parts<Contribution>, CallErr>
    ensures value { IfOk result (λ c. c ≡ edits_by (seen_around around.now).policy
        (scopes_at (seen_around around.now) inside.now) (seen_numbered promise.now).type
        (seen_numbered promise.now).promise combined) }
    ensures sizes { SizeRefusal (BuiltFor (seen_around around.now).policy
        (scopes_at (seen_around around.now) inside.now) (seen_numbered promise.now).type
        (seen_numbered promise.now).promise combined)
        (refused_in result) (P.shown pats.old) (P.shown pats.new) }
{
    let editor = Editor {
        checked: around.checked,
        promise_type: promise.promise_type,
        promise: promise.promise,
        scopes: scopes_at(around, inside),
    };
    edits_by(alloc, &editor, combined, pats)
}

#[tactic(auto, unfolding(crate::specs::EditPromises::edits_of, crate::specs::EditPromises::edit_visits))]
fn keep_edits<P: Patterns>(
    alloc: Global,
    around: &Around<'_>,
    promise: &Numbered<'_>,
    guard: Status,
    walk: &mut Walk,
    left: u64,
    pats: &mut P,
) -> Result<(), ScriptErr>
    requires { walk.old.visits ≤ left }
    ensures ok { OnOk result (walk.new ≡ edits_kept (seen_around around.now) walk.old
        (seen_numbered promise.now) guard) }
    ensures within { OnOk result (walk.new.visits ≤ left) }
    ensures too_large { IsErrOf result ScriptErr.TooLarge → left < (edits_kept
        (seen_around around.now) walk.old (seen_numbered promise.now) guard).visits }
    ensures sizes { SizeRefusal (BuiltForEdits (seen_around around.now).policy
        (scopes_at (seen_around around.now) walk.old.inside) (seen_numbered promise.now).type
        (seen_numbered promise.now).promise) (too_big_in result)
        (P.shown pats.old) (P.shown pats.new) }
{
    let combined = combine_at(alloc, around, &walk.inside, promise)?;
    count(walk, count_combined(&combined), left)?;
    let edits = edits_at(alloc, around, &walk.inside, promise, combined, pats)?;
    walk.edits.append(edits)?;
    Ok(note_unsettled(alloc, around, promise, guard, walk)?)
}

// A promise whose guard may hold.
fn keep_by<P: Patterns>(
    alloc: Global,
    around: &Around<'_>,
    promise: &Numbered<'_>,
    guard: Status,
    walk: &mut Walk,
    left: u64,
    pats: &mut P,
) -> Result<(), ScriptErr>
    requires { walk.old.visits ≤ left }
    ensures ok { OnOk result (walk.new ≡ kept_by (seen_around around.now) walk.old
        (seen_numbered promise.now) guard promise.now.promise_type) }
    ensures within { OnOk result (walk.new.visits ≤ left) }
    ensures too_large { IsErrOf result ScriptErr.TooLarge → left < (kept_by
        (seen_around around.now) walk.old (seen_numbered promise.now) guard
        promise.now.promise_type).visits }
    ensures sizes { SizeRefusal (BuiltByType (seen_around around.now) walk.old.inside
        (seen_numbered promise.now) promise.now.promise_type) (too_big_in result)
        (P.shown pats.old) (P.shown pats.new) }
{
    match promise.promise_type {
        PromiseType::Vars => keep_vars(alloc, around, promise, guard, walk, left),
        PromiseType::Classes => keep_classes(alloc, around, promise, guard, walk, left, pats),
        _ => keep_edits(alloc, around, promise, guard, walk, left, pats),
    }
}

/// A promise is reached, unless it counts more visits than are left.
#[tactic(auto, unfolding(crate::specs::EditBundles::reach))]
fn reach<P: Patterns>(
    alloc: Global,
    around: &Around<'_>,
    promise: &Numbered<'_>,
    walk: &mut Walk,
    left: u64,
    pats: &mut P,
) -> Result<(), ScriptErr>
    requires { walk.old.visits ≤ left }
    ensures ok { OnOk result
        (walk.new ≡ reach (seen_around around.now) walk.old (seen_numbered promise.now)) }
    ensures within { OnOk result (walk.new.visits ≤ left) }
    ensures too_large { IsErrOf result ScriptErr.TooLarge → left
        < (reach (seen_around around.now) walk.old (seen_numbered promise.now)).visits }
    ensures sizes { SizeRefusal
        (BuiltAt (seen_around around.now) walk.old.inside (seen_numbered promise.now))
        (too_big_in result) (P.shown pats.old) (P.shown pats.new) }
{
    match guard_status(around, &walk.inside, promise.promise) {
        Status::No => count(walk, 1, left),
        Status::Maybe => keep_by(alloc, around, promise, Status::Maybe, walk, left, pats),
        Status::Yes => keep_by(alloc, around, promise, Status::Yes, walk, left, pats),
    }
}

/// What a walk over promises comes to, unless they count more visits than are left.
pub(crate) fn walk_promises<P: Patterns>(
    alloc: Global,
    around: &Around<'_>,
    promises: &[Numbered<'_>],
    first: Walk,
    left: u64,
    pats: &mut P,
) -> Result<Walk, ScriptErr>
    requires { first.visits ≤ left }
    ensures walk { IfOk result (λ w. w
        ≡ walked_from (seen_around around.now) first (map seen_numbered promises.now)) }
    ensures within { IfOk result (λ w. w.visits ≤ left) }
    ensures too_large { IsErrOf result ScriptErr.TooLarge → left
        < (walked_from (seen_around around.now) first (map seen_numbered promises.now)).visits }
    ensures sizes { SizeRefusal
        (BuiltAlong (seen_around around.now) first (map seen_numbered promises.now))
        (too_big_in result) (P.shown pats.old) (P.shown pats.new) }
{
    let mut walk = first;
    for promise in promises {
        reach(alloc, around, promise, &mut walk, left, pats)?;
    }
    Ok(walk)
}
