// Promises that define variables and classes.
ghost use Rattle.std.specs.Prelude.{◌≡◌, ◌≢◌, ℕ, List, [], ◌∷◌, Bool, false, IfOk, OnOk, map, option_copied};
ghost use Rattle.std.specs.List.{cons_option};
ghost use Rattle.cfa_base.specs.Patterns.{SizeRefusal};
ghost use Rattle.cfa_base.specs.Shown.{Shown};
ghost use Rattle.cfa_defines.specs.Builds.{BuiltBy};
ghost use Rattle.cfa_defines.specs.SeenRaises.{seen_raise};
ghost use Rattle.cfa_functions.specs.Builds.{refused_in};
ghost use Rattle.cfa_resolve.specs.Resolution.{is_acting};
ghost use Rattle.cfa_tree.specs.Plain.{plain_promise};
ghost use Rattle.cfa_tree.specs.Tree.{PolicyTree};
ghost use Rattle.cfa_vars.specs.Scopes.{in_scope};
ghost use Rattle.cfa_states.specs.History.{History, source_in};
ghost use Rattle.cfa_states.specs.Kept.{Stands, IsSame, home_of, AreLater, IsLater, seen_numbered};
ghost use Rattle.cfa_states.specs.Levels.{QuietDone, PatternsAre};
ghost use Rattle.cfa_states.specs.Logs.{logged_blames};
ghost use Rattle.cfa_states.specs.Passes.{handed, set_each};
ghost use Rattle.cfa_states.specs.Defining.{hand, handed_by, raise_handed, idle_level, vars_level, classes_level, place_of};
ghost use Rattle.cfa_states.specs.Views.{Setting};

use crate::activations::{Activation, scopes_of, set_variable, source_of};
use crate::numbered::Numbered;
use crate::states::State;
use crate::waits::own_unsettled;
use crate::walks::Blame;
use cfa_base::{Name, NoMemory, Patterns, PromiseId};
use cfa_defines::{
    Raise, count_choices, data_set, first_maybe_of_guard, raises_of, setting_choices,
};
use cfa_functions::CallErr;
use cfa_kinds::PromiseType;
use cfa_output::Stop;
use cfa_resolve::copy_id;
use cfa_statuses::Status;
use cfa_tree::Promise;
use cfa_vars::{ChoiceList, Datum, Scopes};
use std::alloc::Global;

/// A promise whose guard isn't set counts one visit and does nothing.
pub fn pass_over(
    promise: &Numbered<'_>,
    state: &mut State,
    activation: &Activation,
) -> Result<(), Stop>
    ensures done { (policy : PolicyTree) (is_common : Bool) → QuietDone policy is_common
        (idle_level (seen_numbered promise.now))
        state.old state.new activation.now activation.now result }
    ensures patterns { (pats : Shown (List (List ℕ))) → PatternsAre result pats pats }
    ensures later { OnOk result (IsLater state.old state.new) }
{
    if state.count(1) {
        Ok(())
    } else {
        Err(Stop::Visits)
    }
}

// Sets a variable to what is given, one after the other.
fn set_each(
    alloc: Global,
    name: &Name,
    given: Vec<Datum>,
    state: &mut State,
    activation: &mut Activation,
) -> Result<(), NoMemory>
    ensures same { OnOk result (IsSame activation.old activation.new) }
    ensures stands { OnOk result ((s : Setting) (h : History)
        → Stands s state.old activation.old h
        → Stands s state.new activation.new (set_each activation.old.path name.now given.items h)) }
    ensures later { OnOk result (AreLater state.old state.new activation.old activation.new) }
{
    for datum in given {
        set_variable(state, activation, name.copy(alloc)?, datum)?;
    }
    Ok(())
}

fn log_own(unsettled: Option<Blame>, state: &mut State) -> Result<(), NoMemory>
    ensures { OnOk result (state.new ≡ record state.old
        { log = logged_blames (cons_option unsettled []) state.old.log }) }
{
    match unsettled {
        None => Ok(()),
        Some(blame) => state.log_blame(blame),
    }
}

/// Reaches a vars promise whose guard may hold: its variable is set in each of its combinations. The caller has shown that promises of
/// its type have no instances.
pub fn reach_vars(
    alloc: Global,
    promise: &Numbered<'_>,
    guard: Status,
    state: &mut State,
    activation: &mut Activation,
) -> Result<(), Stop>
    requires { is_acting promise.now.promise_type ≡ false }
    ensures done { (policy : PolicyTree) (is_common : Bool) → QuietDone policy is_common
        (vars_level (seen_numbered promise.now) guard)
        state.old state.new activation.old activation.new result }
    ensures patterns { (pats : Shown (List (List ℕ))) → PatternsAre result pats pats }
    ensures path { OnOk result (activation.new.path ≡ activation.old.path) }
    ensures later { OnOk result (AreLater state.old state.new activation.old activation.new) }
{
    let scopes = scopes_of(state, activation);
    let choices = setting_choices(alloc, PromiseType::Vars, promise.promise, &scopes)?;
    let data = data_set(alloc, promise.promise, &choices, &scopes)?;
    let unsettled = own_unsettled(alloc, promise, guard, state, activation)?;
    if !state.count(count_choices(&choices)) {
        return Err(Stop::Visits);
    }
    log_own(unsettled, state)?;
    set_each(alloc, &promise.promise.promiser, data, state, activation)?;
    Ok(())
}

/// A class that is to be raised, with the source that it is handed.
#[derive(Drop)]
pub(crate) struct Handed {
    pub class: Name,
    pub to: Status,
    pub source: Option<PromiseId>,
}

// The source of a class, copied.
fn copied_source(
    alloc: Global,
    class: &Name,
    state: &State,
    activation: &Activation,
) -> Result<Option<PromiseId>, NoMemory>
    ensures { IfOk result (λ source. (s : Setting) (h : History)
        → Stands s state.now activation.now h
        → source ≡ source_in h activation.now.path class.now) }
{
    match source_of(state, activation, class) {
        None => Ok(None),
        Some(source) => Ok(Some(copy_id(alloc, source)?)),
    }
}

// The source of the first Maybe class of the guard, else of the expressions.
fn source_of_first(
    alloc: Global,
    in_guard: Option<&Name>,
    in_expressions: Option<Name>,
    state: &State,
    activation: &Activation,
) -> Result<Option<PromiseId>, NoMemory>
    ensures { IfOk result (λ source. (s : Setting) (h : History)
        → Stands s state.now activation.now h
        → source ≡ handed h activation.now.path (option_copied in_guard.entry) in_expressions
        Status.Maybe) }
{
    match in_guard {
        Some(class) => copied_source(alloc, class, state, activation),
        None => match in_expressions {
            Some(class) => copied_source(alloc, &class, state, activation),
            None => Ok(None),
        },
    }
}

// The source that a class is handed that is raised to this status.
fn handed_source(
    alloc: Global,
    to: Status,
    in_guard: Option<&Name>,
    in_expressions: Option<Name>,
    state: &State,
    activation: &Activation,
) -> Result<Option<PromiseId>, NoMemory>
    ensures { IfOk result (λ source. (s : Setting) (h : History)
        → Stands s state.now activation.now h
        → source ≡ handed h activation.now.path (option_copied in_guard.entry) in_expressions to) }
{
    match to {
        Status::No => Ok(None),
        Status::Maybe => source_of_first(alloc, in_guard, in_expressions, state, activation),
        Status::Yes => Ok(None),
    }
}

// What a raise of a classes promise is handed, by the state before the promise.
fn hand(
    alloc: Global,
    raise: Raise,
    guard: Status,
    in_guard: Option<&Name>,
    state: &State,
    activation: &Activation,
) -> Result<Handed, NoMemory>
    ensures { IfOk result (λ handed. (s : Setting) (h : History)
        → Stands s state.now activation.now h
        → handed ≡ hand h activation.now.path guard (option_copied in_guard.entry)
        (seen_raise raise)) }
{
    let to = guard.lesser(raise.status);
    let source = handed_source(alloc, to, in_guard, raise.maybe, state, activation)?;
    Ok(Handed {
        class: raise.class,
        to,
        source,
    })
}

fn hand_each(
    alloc: Global,
    raises: Vec<Raise>,
    guard: Status,
    in_guard: Option<&Name>,
    state: &State,
    activation: &Activation,
) -> Result<Vec<Handed>, NoMemory>
    ensures { IfOk result (λ handed. (s : Setting) (h : History)
        → Stands s state.now activation.now h
        → handed.items ≡ map (hand h activation.now.path guard (option_copied in_guard.entry))
        (map seen_raise raises.items)) }
{
    let mut handed = Vec::new(alloc);
    for raise in raises {
        handed.push(hand(alloc, raise, guard, in_guard, state, activation)?)?;
    }
    Ok(handed)
}

// What a classes promise raises in its combinations, and what each raise is handed, by the state before the promise.
fn hand_over<P: Patterns>(
    alloc: Global,
    promise: &Promise,
    guard: Status,
    choices: &Option<ChoiceList>,
    scopes: &Scopes<'_>,
    state: &State,
    activation: &Activation,
    pats: &mut P,
) -> Result<Vec<Handed>, CallErr>
    ensures handed { IfOk result (λ handed. (s : Setting) (h : History)
        → Stands s state.now activation.now h
        → handed.items ≡ handed_by s h activation.now.path guard (in_scope scopes.now)
        (plain_promise promise.now) choices.now) }
    ensures sizes { SizeRefusal
        (BuiltBy (in_scope scopes.now) (plain_promise promise.now) choices.now)
        (refused_in result) (P.shown pats.old) (P.shown pats.new) }
{
    let global = state.environment.statuses();
    let local = activation.local.statuses();
    let raises = raises_of(alloc, promise, choices, scopes, global, local, pats)?;
    let in_guard = first_maybe_of_guard(&promise.guard, global, local);
    Ok(hand_each(alloc, raises, guard, in_guard, state, activation)?)
}

fn raise_one(
    handed: Handed,
    is_common: bool,
    state: &mut State,
    activation: &mut Activation,
) -> Result<(), NoMemory>
    ensures same { OnOk result (IsSame activation.old activation.new) }
    ensures stands { OnOk result ((s : Setting) (h : History)
        → Stands s state.old activation.old h
        → Stands s state.new activation.new
        (raise_handed (place_of is_common (home_of activation.old)) (handed ∷ []) h)) }
    ensures later { OnOk result (AreLater state.old state.new activation.old activation.new) }
{
    if is_common {
        state.raise(handed.class, handed.to, handed.source)
    } else {
        activation.raise(handed.class, handed.to, handed.source)
    }
}

fn raise_each(
    handed: Vec<Handed>,
    is_common: bool,
    state: &mut State,
    activation: &mut Activation,
) -> Result<(), NoMemory>
    ensures same { OnOk result (IsSame activation.old activation.new) }
    ensures stands { OnOk result ((s : Setting) (h : History)
        → Stands s state.old activation.old h
        → Stands s state.new activation.new
        (raise_handed (place_of is_common (home_of activation.old)) handed.items h)) }
    ensures later { OnOk result (AreLater state.old state.new activation.old activation.new) }
{
    for one in handed {
        raise_one(one, is_common, state, activation)?;
    }
    Ok(())
}

/// Reaches a classes promise whose guard may hold: the class of each of its combinations is raised, everywhere in a common
/// bundle and else within the activation. The caller has shown that promises of its type have no instances, and that the guard isn't No.
pub fn reach_classes<P: Patterns>(
    alloc: Global,
    promise: &Numbered<'_>,
    guard: Status,
    is_common: bool,
    state: &mut State,
    activation: &mut Activation,
    pats: &mut P,
) -> Result<(), Stop>
    requires acting { is_acting promise.now.promise_type ≡ false }
    requires set { guard ≢ Status.No }
    ensures done { (policy : PolicyTree) → QuietDone policy is_common
        (classes_level is_common (seen_numbered promise.now) guard)
        state.old state.new activation.old activation.new result }
    ensures patterns { PatternsAre result (P.shown pats.old) (P.shown pats.new) }
    ensures path { OnOk result (activation.new.path ≡ activation.old.path) }
    ensures later { OnOk result (AreLater state.old state.new activation.old activation.new) }
{
    let scopes = scopes_of(state, activation);
    let choices = setting_choices(alloc, PromiseType::Classes, promise.promise, &scopes)?;
    let over = hand_over(
        alloc,
        promise.promise,
        guard,
        &choices,
        &scopes,
        state,
        activation,
        pats,
    );
    let handed = match over {
        Ok(handed) => handed,
        Err(CallErr::PatternTooBig(text)) => return Err(Stop::Pattern(text)),
        Err(CallErr::NoMemory) => return Err(Stop::Memory),
    };
    if !state.count(count_choices(&choices)) {
        return Err(Stop::Visits);
    }
    raise_each(handed, is_common, state, activation)?;
    Ok(())
}
