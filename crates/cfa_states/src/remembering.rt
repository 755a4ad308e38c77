// What was found out of promises, as long as nothing has changed that it hangs on.
ghost use Rattle.std.specs.Prelude.{◌≡◌, ◌↔◌, IfOk, IfSome, IsTrue, List, Some, length};
ghost use Rattle.cfa_tree.specs.Tree.{PolicyTree};
ghost use Rattle.cfa_states.specs.Numbered.{Numbered as AnyNumbered};
ghost use Rattle.cfa_states.specs.declared.activations.Activation.{Activation as AnyActivation};
ghost use Rattle.cfa_states.specs.declared.states.State.{State as AnyState};
ghost use Rattle.cfa_states.specs.Kept.{IsNow, GuardHolds, RowHolds, RowsHold, guard_now, resolution_now, seen_numbered};

use crate::activations::{Activation, guard_status};
use crate::numbered::Numbered;
use crate::states::State;
use cfa_base::NoMemory;
use cfa_resolve::Resolved;
use cfa_statuses::Status;
use std::alloc::Global;

/// How many changes there were: of the statuses of global classes and of the shared scopes, and of the local classes and
/// the scope of an activation.
#[derive(Clone, Copy)]
pub struct Moment {
    pub state: u64,
    pub activation: u64,
}

/// The status of a guard at a moment.
#[derive(Clone, Copy)]
pub struct Known {
    pub moment: Moment,
    pub status: Status,
}

/// What a promise resolved to at a moment.
#[derive(Drop)]
pub struct Found {
    pub moment: Moment,
    pub resolved: Resolved,
}

/// The moment that a state and an activation are at.
pub fn moment_of(state: &State, activation: &Activation) -> Moment
    ensures { IsNow result state.now activation.now }
{
    Moment {
        state: state.changes,
        activation: activation.changes,
    }
}

fn is_now(moment: Moment, state: &State, activation: &Activation) -> bool
    ensures { IsTrue result ↔ IsNow moment state.now activation.now }
{
    if moment.state != state.changes {
        return false;
    }
    moment.activation == activation.changes
}

// The status of the guard of a promise that repeats the guard of the one before it, where that is still known.
fn known_before(
    before: Option<Known>,
    promise: &Numbered<'_>,
    state: &State,
    activation: &Activation,
) -> Option<Known>
    requires { IsTrue promise.now.repeats → IfSome before (λ known.
        GuardHolds (seen_numbered promise.now) known state.now activation.now) }
    ensures { IfSome result (λ known. known.status
        ≡ guard_now (seen_numbered promise.now) state.now activation.now) }
{
    match before {
        None => None,
        Some(known) => {
            if promise.repeats && is_now(known.moment, state, activation) {
                Some(known)
            } else {
                None
            }
        }
    }
}

/// The status of the guard of a promise. It isn't evaluated again where the promise repeats the guard of the one before it
/// and nothing has changed since that one was evaluated: the caller has shown that what is known before is of this guard.
pub fn guard_known(
    before: Option<Known>,
    promise: &Numbered<'_>,
    state: &State,
    activation: &Activation,
) -> Known
    requires { IsTrue promise.now.repeats → IfSome before (λ known.
        GuardHolds (seen_numbered promise.now) known state.now activation.now) }
    ensures status { result.status
        ≡ guard_now (seen_numbered promise.now) state.now activation.now }
    ensures now { IsNow result.moment state.now activation.now }
{
    let moment = moment_of(state, activation);
    match known_before(before, promise, state, activation) {
        Some(known) => Known {
            moment,
            status: known.status,
        },
        None => Known {
            moment,
            status: guard_status(state, activation, &promise.promise.guard),
        },
    }
}

/// What a promise resolved to, where nothing has changed since.
pub fn still_found(kept: Option<Found>, state: &State, activation: &Activation) -> Option<Resolved>
    ensures resolved { (policy : PolicyTree) (p : AnyNumbered)
        → RowHolds policy p kept state.now activation.now
        → IfSome result (λ r. r ≡ resolution_now policy p state.now activation.now) }
    ensures found { IfSome kept (λ found. IsNow found.moment state.now activation.now
        → result ≡ Some found.resolved) }
{
    match kept {
        None => None,
        Some(found) => {
            if is_now(found.moment, state, activation) {
                Some(found.resolved)
            } else {
                None
            }
        }
    }
}

/// Rows of promises of which nothing was found out.
pub fn empty_rows(alloc: Global, promises: &[Numbered<'_>]) -> Result<Vec<Option<Found>>, NoMemory>
    ensures { IfOk result (λ rows. (policy : PolicyTree) (ps : List AnyNumbered)
        → length ps ≡ length promises.now → (st : AnyState) (a : AnyActivation)
        → RowsHold policy ps rows.items st a) }
{
    let mut rows = Vec::new(alloc);
    for _ in promises {
        rows.push(None)?;
    }
    Ok(rows)
}
