// A promise that is reached.
ghost use Rattle.std.specs.Prelude.{◌≡◌, ◌≢◌, IfOk, IsTrue, OnOk, All, false, true};
ghost use Rattle.cfa_visits.specs.Counting.{IsAt, instances_of};
ghost use Rattle.cfa_machine.specs.Reaching.{Reaches, done_of, result_as};
ghost use Rattle.cfa_resolve.specs.Resolution.{is_acting};
ghost use Rattle.cfa_schema.specs.Laws.{IsCounted};
ghost use Rattle.cfa_schema.specs.Seen.{tree_of};
ghost use Rattle.cfa_states.specs.Kept.{AreLater, RowHolds, seen_numbered};
ghost use Rattle.cfa_states.specs.Levels.{PatternsAre};

use cfa_base::Patterns;
use cfa_kinds::PromiseType;
use cfa_output::Stop;
use cfa_schema::Checked;
use cfa_states::{Activation, Found, Numbered, State, pass_over, reach_classes, reach_vars};
use cfa_statuses::Status;
use cfa_visits::count_instances;
use std::alloc::Global;

// A promise has no instances, or was not reached.
fn without_instances(reached: Result<(), Stop>) -> Result<bool, Stop>
    ensures { result ≡ result_as false reached }
{
    match reached {
        Ok(()) => Ok(false),
        Err(stop) => Err(stop),
    }
}

// A promise has instances, unless it was not reached.
fn with_instances(reached: Result<(), Stop>) -> Result<bool, Stop>
    ensures { result ≡ result_as true reached }
{
    match reached {
        Ok(()) => Ok(true),
        Err(stop) => Err(stop),
    }
}

/// Reaches a promise of an agent bundle with this status of its guard. It answers whether there are instances of it to be
/// visited: then they are kept.
pub(crate) fn reach_promise<P: Patterns>(
    alloc: Global,
    checked: &Checked,
    promise: &Numbered<'_>,
    guard: Status,
    kept: &mut Option<Found>,
    state: &mut State,
    activation: &mut Activation,
    pats: &mut P,
) -> Result<bool, Stop>
    requires id { IsCounted promise.now.id }
    requires kept { RowHolds (tree_of checked.now) (seen_numbered promise.now) kept.old
        state.old activation.old }
    ensures reached { Reaches (tree_of checked.now) false (seen_numbered promise.now) guard kept.new
        state.old state.new activation.old activation.new result }
    ensures later { OnOk result (AreLater state.old state.new activation.old activation.new) }
    ensures kept { OnOk result (RowHolds (tree_of checked.now) (seen_numbered promise.now) kept.new
        state.new activation.new) }
    ensures at { IfOk result (λ has. has ≡ true
        → All (IsAt activation.old.path) (instances_of kept.new)) }
    ensures patterns { PatternsAre (done_of result) (P.shown pats.old) (P.shown pats.new) }
{
    if guard == Status::No {
        return without_instances(pass_over(promise, state, activation));
    }
    match promise.promise_type {
        PromiseType::Vars => {
            without_instances(reach_vars(alloc, promise, guard, state, activation))
        }
        PromiseType::Classes => without_instances(reach_classes(
            alloc, promise, guard, false, state, activation, pats,
        )),
        PromiseType::Files | PromiseType::Methods | PromiseType::Services | PromiseType::Reports =>
            {
                with_instances(count_instances(
                    alloc, checked, promise, guard, kept, state, activation, pats,
                ))
            }
        _ => Ok(false),
    }
}
