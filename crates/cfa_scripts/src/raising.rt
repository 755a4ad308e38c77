// What vars and classes promises of an edit bundle leave.
ghost use Rattle.std.specs.Prelude.{◌≡◌, ◌∷◌, [], IfOk, OnOk, map, option_copied, unwrap_or};
ghost use Rattle.std.specs.List.{cons_option};
ghost use Rattle.std.specs.FinMap as finite;
ghost use Rattle.cfa_base.specs.Patterns.{SizeRefusal};
ghost use Rattle.cfa_defines.specs.Builds.{BuiltBy};
ghost use Rattle.cfa_defines.specs.ClassPromises.{raises_of};
ghost use Rattle.cfa_defines.specs.FirstMaybe.{first_maybe_of_guard};
ghost use Rattle.cfa_defines.specs.SeenRaises.{seen_raise};
ghost use Rattle.cfa_defines.specs.VarsPromises.{setting_choices, data_set};
ghost use Rattle.cfa_functions.specs.Builds.{refused_in};
ghost use Rattle.cfa_tree.specs.Plain.{plain_promise};
ghost use Rattle.cfa_vars.specs.Scopes.{in_scope};
ghost use Rattle.cfa_scripts.specs.EditBundles.{with_each, with_origin, raised_after, guard_under, scopes_at, statuses_at, origin_of, unsettled_for, unsettled_by, handed, handed_raise};
ghost use Rattle.cfa_scripts.specs.Walking.{seen_around, seen_numbered};

use crate::blaming::Unsettled;
use crate::numbering::Numbered;
use crate::walking::{Around, Inside};
use cfa_base::{Name, NoMemory, Patterns, TextMap};
use cfa_defines::{Raise, data_set, first_maybe_of_guard, raises_of, setting_choices};
use cfa_functions::CallErr;
use cfa_kinds::PromiseType;
use cfa_statuses::{Status, value};
use cfa_tree::Promise;
use cfa_vars::{ChoiceList, Datum, Scope, Scopes};
use std::alloc::Global;

/// A class with what it is raised to, and the global class that it goes back to, if it is handed one.
#[derive(Drop)]
pub(crate) struct HandedRaise {
    pub class: Name,
    pub to: Status,
    pub origin: Option<Name>,
}

/// What the texts of a promise see.
pub(crate) fn scopes_at<'a>(around: &Around<'a>, inside: &'a Inside) -> Scopes<'a>
    ensures { in_scope result ≡ scopes_at (seen_around around.now) inside.now }
{
    Scopes {
        own: &inside.own,
        own_name: around.bundle,
        shared: around.shared,
    }
}

/// The status of a promise's guard.
#[tactic(auto, unfolding(cfa_statuses::specs::Raised::greater_in))]
pub(crate) fn guard_status(around: &Around<'_>, inside: &Inside, promise: &Promise) -> Status
    ensures { result ≡ guard_under (statuses_at (seen_around around.now) inside.now)
        (plain_promise promise.now).guard }
{
    match &promise.guard {
        None => Status::Yes,
        Some(guard) => value(guard.expr(), around.statuses, &inside.raised),
    }
}

#[tactic(auto, unfolding(cfa_statuses::specs::Raised::greater_in))]
fn first_in_guard<'p>(
    around: &Around<'_>,
    inside: &Inside,
    promise: &'p Promise,
) -> Option<&'p Name>
    ensures { option_copied result ≡ first_maybe_of_guard (plain_promise promise.now).guard
        (statuses_at (seen_around around.now) inside.now) }
{
    first_maybe_of_guard(&promise.guard, around.statuses, &inside.raised)
}

fn origin_inside(alloc: Global, inside: &Inside, class: &Name) -> Result<Name, NoMemory>
    ensures { IfOk result (λ origin. origin
        ≡ unwrap_or (finite.get inside.now.origins class.now) class.now) }
{
    match inside.origins.get(class.as_str()) {
        Some(origin) => origin.copy(alloc),
        None => class.copy(alloc),
    }
}

// The global class that a class goes back to.
fn origin_of(
    alloc: Global,
    around: &Around<'_>,
    inside: &Inside,
    class: &Name,
) -> Result<Name, NoMemory>
    ensures { IfOk result
        (λ origin. origin ≡ origin_of (seen_around around.now) inside.now class.now) }
{
    match around.statuses.get(class) {
        Status::No => origin_inside(alloc, inside, class),
        Status::Maybe => class.copy(alloc),
        Status::Yes => origin_inside(alloc, inside, class),
    }
}

fn unsettled_for(
    alloc: Global,
    around: &Around<'_>,
    inside: &Inside,
    promise: &Numbered<'_>,
    class: Option<&Name>,
) -> Result<Option<Unsettled>, NoMemory>
    ensures { IfOk result (λ u. cons_option u [] ≡ unsettled_for (seen_around around.now)
        inside.now (seen_numbered promise.now).id (option_copied class.entry)) }
{
    match class {
        None => Ok(None),
        Some(class) => Ok(Some(Unsettled {
            promise: promise.id(alloc)?,
            class: class.copy(alloc)?,
            origin: origin_of(alloc, around, inside, class)?,
        })),
    }
}

/// Whether a promise is unsettled under the status of its guard.
pub(crate) fn unsettled_by(
    alloc: Global,
    around: &Around<'_>,
    inside: &Inside,
    promise: &Numbered<'_>,
    guard: Status,
) -> Result<Option<Unsettled>, NoMemory>
    ensures { IfOk result (λ u. cons_option u [] ≡ unsettled_by (seen_around around.now)
        inside.now (seen_numbered promise.now) guard) }
{
    match guard {
        Status::No => Ok(None),
        Status::Maybe => {
            let class = first_in_guard(around, inside, promise.promise);
            unsettled_for(alloc, around, inside, promise, class)
        }
        Status::Yes => Ok(None),
    }
}

/// The combinations of a vars or classes promise.
pub(crate) fn choices_at(
    alloc: Global,
    around: &Around<'_>,
    inside: &Inside,
    promise_type: PromiseType,
    promise: &Promise,
) -> Result<Option<ChoiceList>, NoMemory>
    ensures { IfOk result (λ c. c ≡ setting_choices
        (scopes_at (seen_around around.now) inside.now) promise_type (plain_promise promise.now)) }
{
    setting_choices(alloc, promise_type, promise, &scopes_at(around, inside))
}

/// What a vars promise sets.
pub(crate) fn values_at(
    alloc: Global,
    around: &Around<'_>,
    inside: &Inside,
    promise: &Promise,
    choices: &Option<ChoiceList>,
) -> Result<Vec<Datum>, NoMemory>
    ensures { IfOk result (λ values. values.items ≡ data_set
        (scopes_at (seen_around around.now) inside.now) (plain_promise promise.now) choices.now) }
{
    data_set(alloc, promise, choices, &scopes_at(around, inside))
}

/// Sets a variable to values, one after the other.
#[tactic(auto, using(crate::proofs::WalkLemmas::with_each_push))]
pub(crate) fn set_each(
    alloc: Global,
    table: &mut Scope,
    name: &Name,
    values: Vec<Datum>,
) -> Result<(), NoMemory>
    ensures { OnOk result (table.new ≡ with_each table.old name.now values.items) }
{
    for value in values {
        table.set(name.copy(alloc)?, value)?;
    }
    Ok(())
}

/// What a classes promise raises.
#[tactic(auto, unfolding(cfa_statuses::specs::Raised::greater_in))]
pub(crate) fn raises_at<P: Patterns>(
    alloc: Global,
    around: &Around<'_>,
    inside: &Inside,
    promise: &Promise,
    choices: &Option<ChoiceList>,
    pats: &mut P,
) -> Result<Vec<Raise>, CallErr>
    ensures raises { IfOk result (λ raises. map seen_raise raises.items ≡ raises_of
        (statuses_at (seen_around around.now) inside.now)
        (scopes_at (seen_around around.now) inside.now) (plain_promise promise.now) choices.now) }
    ensures sizes { SizeRefusal (BuiltBy (scopes_at (seen_around around.now) inside.now)
        (plain_promise promise.now) choices.now)
        (refused_in result) (P.shown pats.old) (P.shown pats.new) }
{
    let scopes = scopes_at(around, inside);
    raises_of(
        alloc,
        promise,
        choices,
        &scopes,
        around.statuses,
        &inside.raised,
        pats,
    )
}

fn handed(
    alloc: Global,
    around: &Around<'_>,
    inside: &Inside,
    in_guard: Option<&Name>,
    in_expressions: &Option<Name>,
    to: Status,
) -> Result<Option<Name>, NoMemory>
    ensures { IfOk result (λ origin. origin ≡ handed (seen_around around.now) inside.now
        (option_copied in_guard.entry) in_expressions.now to) }
{
    match to {
        Status::No => Ok(None),
        Status::Maybe => match (in_guard, in_expressions) {
            (Some(class), _) => Ok(Some(origin_of(alloc, around, inside, class)?)),
            (None, Some(class)) => Ok(Some(origin_of(alloc, around, inside, class)?)),
            (None, None) => Ok(None),
        },
        Status::Yes => Ok(None),
    }
}

fn hand(
    alloc: Global,
    around: &Around<'_>,
    inside: &Inside,
    guard: Status,
    in_guard: Option<&Name>,
    raise: Raise,
) -> Result<HandedRaise, NoMemory>
    ensures { IfOk result (λ h. h ≡ handed_raise (seen_around around.now) inside.now guard
        (option_copied in_guard.entry) (seen_raise raise)) }
{
    let to = guard.lesser(raise.status);
    let origin = handed(alloc, around, inside, in_guard, &raise.maybe, to)?;
    Ok(HandedRaise {
        class: raise.class,
        to,
        origin,
    })
}

/// What is raised, each to the lesser of its status and the guard's, with the global class that it goes back to.
pub(crate) fn hand_each(
    alloc: Global,
    around: &Around<'_>,
    inside: &Inside,
    promise: &Promise,
    guard: Status,
    raises: Vec<Raise>,
) -> Result<Vec<HandedRaise>, NoMemory>
    ensures { IfOk result (λ handed. handed.items ≡ map
        (handed_raise (seen_around around.now) inside.now guard (first_maybe_of_guard
        (plain_promise promise.now).guard (statuses_at (seen_around around.now) inside.now)))
        (map seen_raise raises.items)) }
{
    let in_guard = first_in_guard(around, inside, promise);
    let mut all = Vec::new(alloc);
    for raise in raises {
        all.push(hand(alloc, around, inside, guard, in_guard, raise)?)?;
    }
    Ok(all)
}

fn add_origin(
    alloc: Global,
    origins: &mut TextMap<Name>,
    class: &Name,
    origin: Option<Name>,
) -> Result<(), NoMemory>
    ensures { OnOk result (origins.new ≡ with_origin origins.old class.now origin) }
{
    match origin {
        None => Ok(()),
        Some(origin) => {
            if origins.contains(class.as_str()) {
                Ok(())
            } else {
                origins.insert(class.copy(alloc)?, origin)
            }
        }
    }
}

/// Raises classes, one after the other.
#[tactic(auto, using(crate::proofs::WalkLemmas::raised_after_push))]
pub(crate) fn raise_each(
    alloc: Global,
    inside: &mut Inside,
    raises: Vec<HandedRaise>,
) -> Result<(), NoMemory>
    ensures { OnOk result (inside.new ≡ raised_after inside.old raises.items) }
{
    for raise in raises {
        let HandedRaise { class, to, origin } = raise;
        add_origin(alloc, &mut inside.origins, &class, origin)?;
        inside.raised.raise(class, to)?;
    }
    Ok(())
}
