// What waits for a class that may be set or not.
ghost use Rattle.std.specs.Prelude.{◌≡◌, [], IfOk, true, option_map, option_copied};
ghost use Rattle.std.specs.List.{cons_option};
ghost use Rattle.cfa_tree.specs.Plain.{plain_expr, plain_promise};
ghost use Rattle.cfa_states.specs.History.{History};
ghost use Rattle.cfa_states.specs.Kept.{Stands, home_of, seen_numbered};
ghost use Rattle.cfa_states.specs.Views.{Setting};
ghost use Rattle.cfa_states.specs.Waits.{wait_on, wait_of_guard, waits_by};
ghost use Rattle.cfa_states.specs.Walks.{own_unsettled};

use crate::activations::{Activation, source_of};
use crate::logs::blame_for;
use crate::numbered::Numbered;
use crate::states::State;
use crate::walks::Blame;
use cfa_base::{Name, NoMemory, PromiseId};
use cfa_defines::first_maybe_of_guard;
use cfa_resolve::copy_id;
use cfa_statuses::Status;
use cfa_tree::{Guard, Promise};
use std::alloc::Global;

/// A class that may be set or not, with the promise that first raised it by its outcome.
#[derive(Drop)]
pub struct Wait {
    pub class: Name,
    pub source: PromiseId,
}

impl Wait {
    pub(crate) fn copy(&self, alloc: Global) -> Result<Wait, NoMemory>
        ensures { IfOk result (λ copy. copy ≡ self.now) }
    {
        Ok(Wait {
            class: self.class.copy(alloc)?,
            source: copy_id(alloc, &self.source)?,
        })
    }
}

pub(crate) fn copy_wait(alloc: Global, wait: Option<&Wait>) -> Result<Option<Wait>, NoMemory>
    ensures { IfOk result (λ copy. copy ≡ option_copied wait.entry) }
{
    match wait {
        None => Ok(None),
        Some(wait) => Ok(Some(wait.copy(alloc)?)),
    }
}

/// What waits for a class with this source.
pub(crate) fn wait_on(
    alloc: Global,
    class: &Name,
    source: Option<&PromiseId>,
) -> Result<Option<Wait>, NoMemory>
    ensures { IfOk result (λ wait. wait ≡ wait_on class.now (option_copied source.entry)) }
{
    match source {
        None => Ok(None),
        Some(source) => Ok(Some(Wait {
            class: class.copy(alloc)?,
            source: copy_id(alloc, source)?,
        })),
    }
}

// What a guard waits for in an activation.
fn wait_of_guard(
    alloc: Global,
    guard: &Option<Guard>,
    state: &State,
    activation: &Activation,
) -> Result<Option<Wait>, NoMemory>
    ensures { IfOk result (λ wait. (s : Setting) (h : History)
        → Stands s state.now activation.now h
        → wait ≡ wait_of_guard s h activation.now.path (option_map plain_expr guard.now)) }
{
    let global = state.environment.statuses();
    let local = activation.local.statuses();
    match first_maybe_of_guard(guard, global, local) {
        None => Ok(None),
        Some(class) => wait_on(alloc, class, source_of(state, activation, class)),
    }
}

/// What the instances of a promise wait for that is reached with this status of its guard.
pub fn waits_of(
    alloc: Global,
    promise: &Promise,
    status: Status,
    state: &State,
    activation: &Activation,
) -> Result<Option<Wait>, NoMemory>
    ensures { IfOk result (λ waits. (s : Setting) (h : History)
        → Stands s state.now activation.now h
        → waits ≡ waits_by s h activation.now.path status (plain_promise promise.now).guard) }
{
    match status {
        Status::No => Ok(None),
        Status::Maybe => wait_of_guard(alloc, &promise.guard, state, activation),
        Status::Yes => copy_wait(alloc, state.wait_of_call(&activation.path)),
    }
}

/// Why a vars promise is unsettled that is reached with this status of its guard.
pub(crate) fn own_unsettled(
    alloc: Global,
    promise: &Numbered<'_>,
    status: Status,
    state: &State,
    activation: &Activation,
) -> Result<Option<Blame>, NoMemory>
    ensures { IfOk result (λ blame. (s : Setting) (h : History)
        → Stands s state.now activation.now h → cons_option blame []
        ≡ own_unsettled s h (home_of activation.now) (seen_numbered promise.now) status true) }
{
    if status != Status::Maybe {
        return Ok(None);
    }
    match wait_of_guard(alloc, &promise.promise.guard, state, activation)? {
        None => Ok(None),
        Some(wait) => Ok(Some(blame_for(alloc, &promise.id, &wait)?)),
    }
}
