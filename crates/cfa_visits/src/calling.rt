// How the bundle of a call begins.
ghost use Rattle.std.specs.Prelude.{IfOk, OnOk, map};
ghost use Rattle.cfa_visits.specs.Calling.{BeginsCall};
ghost use Rattle.cfa_states.specs.Kept.{IsLater, IsOf};
ghost use Rattle.cfa_states.specs.Tellers.{inner_path};
ghost use Rattle.cfa_tree.specs.Plain.{plain_named};

use cfa_base::{Name, NoMemory, Parts};
use cfa_resolve::Instance;
use cfa_states::{Activation, State, bind, inner_path};
use cfa_statuses::Status;
use cfa_tree::Named;
use cfa_vars::Datum;
use std::alloc::Global;

/// Begins an activation of the bundle of a call, with its parameters set.
pub fn begin_call(
    alloc: Global,
    instance: &Instance,
    name: &Name,
    given: &Parts<Datum>,
    status: Status,
    params: &[Named],
    state: &mut State,
) -> Result<Activation, NoMemory>
    ensures is_of { IfOk result (IsOf (inner_path instance.now) name.now status) }
    ensures stands { IfOk result (BeginsCall (inner_path instance.now)
        (map plain_named params.now) given.now state.old state.new) }
    ensures later { OnOk result (IsLater state.old state.new) }
{
    let path = inner_path(alloc, instance)?;
    let mut activation = Activation::of_call(alloc, path, name, status)?;
    match bind(alloc, params, given.as_slice(), state, &mut activation) {
        Ok(()) => Ok(activation),
        Err(error) => {
            drop(activation);
            Err(error)
        }
    }
}
