// What is kept of the promises of a bundle while it is gone through.
ghost use Rattle.std.specs.Prelude.{◌≡◌, IfOk, map};
ghost use Rattle.cfa_tree.specs.Tree.{PolicyTree};
ghost use Rattle.cfa_states.specs.declared.activations.Activation.{Activation};
ghost use Rattle.cfa_states.specs.declared.states.State.{State};
ghost use Rattle.cfa_states.specs.Kept.{GuardsRepeat, RowsHold, seen_numbered};
ghost use Rattle.cfa_states.specs.Numbered.{numbered_in};
ghost use Rattle.cfa_visits.specs.Bundles.{seen_bundle};

use cfa_base::NoMemory;
use cfa_states::{Found, Numbered, empty_rows, numbered_in};
use cfa_tree::Bundle;
use std::alloc::Global;

/// The promises of a bundle, and what was found out of each.
#[derive(Drop)]
pub struct Remembered<'a> {
    pub promises: Vec<Numbered<'a>>,
    pub rows: Vec<Option<Found>>,
}

/// The promises of a bundle, of which nothing was found out.
pub fn remembered_in<'a>(alloc: Global, bundle: &'a Bundle) -> Result<Remembered<'a>, NoMemory>
    ensures promises { IfOk result (λ r. map seen_numbered r.promises.items
        ≡ numbered_in (seen_bundle bundle.now)) }
    ensures guards { IfOk result (λ r. GuardsRepeat r.promises.items) }
    ensures rows { IfOk result (λ r. (policy : PolicyTree) (st : State) (a : Activation)
        → RowsHold policy (map seen_numbered r.promises.items) r.rows.items st a) }
{
    let promises = numbered_in(alloc, bundle)?;
    let rows = empty_rows(alloc, &promises)?;
    Ok(Remembered { promises, rows })
}
