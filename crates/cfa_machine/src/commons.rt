// A common bundle that is being gone through: its vars, and then its classes.
ghost use Rattle.std.specs.Prelude.{◌≡◌, ◌<◌, ◌⊎◌, IfOk, OnOk, length, slice_get, suc, false, true};
ghost use Rattle.cfa_kinds.specs.declared.kinds.PromiseType.TheVariants as promises;
ghost use Rattle.cfa_machine.specs.Commons.{CommonStepsTo, CommonTypeStepsTo};
ghost use Rattle.cfa_machine.specs.Reaching.{Reaches, done_of, result_as};
ghost use Rattle.cfa_states.specs.Kept.{IsLater, Stands, seen_numbered};
ghost use Rattle.cfa_states.specs.Levels.{PatternsAre};
ghost use Rattle.cfa_states.specs.Numbered.{common_types};
ghost use Rattle.cfa_tree.specs.Tree.{PolicyTree};

use cfa_base::Patterns;
use cfa_kinds::PromiseType;
use cfa_output::Stop;
use cfa_states::{Activation, Numbered, State, guard_status, pass_over, reach_classes, reach_vars};
use cfa_statuses::Status;
use std::alloc::Global;

/// An activation of a common bundle, its promises, the type in hand by its number, and the next promise.
#[derive(Drop)]
pub struct Common<'a> {
    pub activation: Activation,
    pub promises: Vec<Numbered<'a>>,
    pub kind: usize,
    pub place: usize,
}

// The types whose promises a common bundle has, one after the other.
fn types_in_common() -> [PromiseType; 2]
    ensures { result ≡ common_types }
{
    [PromiseType::Vars, PromiseType::Classes]
}

// The type of this number, of those that a common bundle has.
fn common_type_at(kind: usize) -> Option<PromiseType>
    ensures { result ≡ slice_get common_types kind }
{
    types_in_common().get(kind).copied()
}

// Reaches a promise of a common bundle with this status of its guard.
fn reach_quietly<P: Patterns>(
    alloc: Global,
    promise: &Numbered<'_>,
    guard: Status,
    state: &mut State,
    activation: &mut Activation,
    pats: &mut P,
) -> Result<(), Stop>
    requires common { (promise.now.promise_type ≡ promises.Vars)
        ⊎ (promise.now.promise_type ≡ promises.Classes) }
    ensures reached { (policy : PolicyTree) → Reaches policy true (seen_numbered promise.now)
        guard None
        state.old state.new activation.old activation.new (result_as false result) }
    ensures later { OnOk result (IsLater state.old state.new) }
    ensures patterns { PatternsAre result (P.shown pats.old) (P.shown pats.new) }
{
    if guard == Status::No {
        return pass_over(promise, state, activation);
    }
    if promise.promise_type == PromiseType::Vars {
        return reach_vars(alloc, promise, guard, state, activation);
    }
    reach_classes(alloc, promise, guard, true, state, activation, pats)
}

// Reaches the promise at the place, where it is one of the type in hand.
fn reach_in_common<P: Patterns>(
    alloc: Global,
    kind: PromiseType,
    common: &mut Common<'_>,
    state: &mut State,
    pats: &mut P,
) -> Result<bool, Stop>
    requires kind { (kind ≡ promises.Vars) ⊎ (kind ≡ promises.Classes) }
    requires place { common.old.place < length common.old.promises.items }
    ensures stays { IfOk result (λ stays. stays ≡ true) }
    ensures moved { (policy : PolicyTree)
        → CommonTypeStepsTo policy kind state.old state.new
        common.old common.new result }
    ensures later { OnOk result (IsLater state.old state.new) }
    ensures patterns { PatternsAre (done_of result) (P.shown pats.old) (P.shown pats.new) }
{
    let place = common.place;
    let promise = &common.promises[place];
    if promise.promise_type != kind {
        common.place += 1;
        return Ok(true);
    }
    let guard = guard_status(state, &common.activation, &promise.promise.guard);
    let activation = &mut common.activation;
    match reach_quietly(alloc, promise, guard, state, activation, pats) {
        Err(stop) => Err(stop),
        Ok(()) => {
            common.place += 1;
            Ok(true)
        }
    }
}

// Reaches the next promise of the type in hand, or goes on to the next type.
fn step_common_type<P: Patterns>(
    alloc: Global,
    kind: PromiseType,
    common: &mut Common<'_>,
    state: &mut State,
    pats: &mut P,
) -> Result<bool, Stop>
    requires kind { slice_get common_types common.old.kind ≡ Some kind }
    ensures stays { IfOk result (λ stays. stays ≡ true) }
    ensures moved { (policy : PolicyTree)
        → CommonTypeStepsTo policy kind state.old state.new
        common.old common.new result }
    ensures later { OnOk result (IsLater state.old state.new) }
    ensures patterns { PatternsAre (done_of result) (P.shown pats.old) (P.shown pats.new) }
{
    if common.place >= common.promises.len() {
        common.kind += 1;
        common.place = 0;
        return Ok(true);
    }
    reach_in_common(alloc, kind, common, state, pats)
}

/// Moves a common bundle. It answers whether there is more to do in it.
pub(crate) fn step_common<P: Patterns>(
    alloc: Global,
    common: &mut Common<'_>,
    state: &mut State,
    pats: &mut P,
) -> Result<bool, Stop>
    ensures moved { (policy : PolicyTree)
        → CommonStepsTo policy state.old state.new common.old common.new result }
    ensures leaves { IfOk result (λ stays. stays ≡ false → (common.new ≡ common.old)
        × (state.new ≡ state.old)) }
    ensures later { OnOk result (IsLater state.old state.new) }
    ensures patterns { PatternsAre (done_of result) (P.shown pats.old) (P.shown pats.new) }
{
    match common_type_at(common.kind) {
        None => Ok(false),
        Some(kind) => step_common_type(alloc, kind, common, state, pats),
    }
}
