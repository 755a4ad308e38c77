// The binding of the parameters of a bundle.
ghost use Rattle.std.specs.Prelude.{OnOk, map};
ghost use Rattle.cfa_tree.specs.Plain.{plain_named};
ghost use Rattle.cfa_states.specs.History.{History};
ghost use Rattle.cfa_states.specs.Kept.{Stands, IsSame, AreLater};
ghost use Rattle.cfa_states.specs.Passes.{bind};
ghost use Rattle.cfa_states.specs.Views.{Setting};

use crate::activations::{Activation, set_variable};
use crate::states::State;
use cfa_base::NoMemory;
use cfa_resolve::copy_datum;
use cfa_tree::Named;
use cfa_vars::Datum;
use std::alloc::Global;

/// Sets the parameters of a bundle to what the arguments give, one after the other.
pub fn bind(
    alloc: Global,
    params: &[Named],
    given: &[Datum],
    state: &mut State,
    activation: &mut Activation,
) -> Result<(), NoMemory>
    ensures same { OnOk result (IsSame activation.old activation.new) }
    ensures stands { OnOk result ((s : Setting) (h : History)
        → Stands s state.old activation.old h
        → Stands s state.new activation.new
        (bind activation.old.path (map plain_named params.now) given.now h)) }
    ensures later { OnOk result (AreLater state.old state.new activation.old activation.new) }
{
    for (place, param) in params.iter().enumerate() {
        if place >= given.len() {
            return Ok(());
        }
        let datum = copy_datum(alloc, &given[place])?;
        set_variable(state, activation, param.name.copy(alloc)?, datum)?;
    }
    Ok(())
}
