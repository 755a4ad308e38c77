// Bundles that begin.
ghost use Rattle.std.specs.Prelude.{◌≡◌, IfOk, OnOk, Some, length};
ghost use Rattle.cfa_machine.specs.Beginning.{AgentBegins, CommonBegins, NamedBegins, TopHoldsAlone};
ghost use Rattle.cfa_visits.specs.Bundles.{HasCountedIds, IsShared, seen_bundle};
ghost use Rattle.cfa_visits.specs.Clear.{IsClear};
ghost use Rattle.cfa_machine.specs.Stacks.{NotAgent};
ghost use Rattle.cfa_schema.specs.Seen.{tree_of};
ghost use Rattle.cfa_served.specs.Served.{bundle_of};
ghost use Rattle.cfa_states.specs.History.{History};
ghost use Rattle.cfa_states.specs.Kept.{IsLater, Keeps};
ghost use Rattle.cfa_states.specs.Views.{Setting};
ghost use Rattle.cfa_tree.specs.Tree.{PolicyTree};

use crate::commons::Common;
use crate::frames::fresh_frame;
use crate::tops::Top;
use cfa_base::{Name, NoMemory};
use cfa_kinds::{BundleType, bundle_type};
use cfa_schema::Checked;
use cfa_states::{Activation, State, numbered_in};
use cfa_tree::Bundle;
use cfa_visits::{ids_are_counted, remembered_in};
use std::alloc::Global;

/// A common bundle begins.
pub(crate) fn common_top<'a>(
    alloc: Global,
    bundle: &'a Bundle,
    state: &State,
) -> Result<Top<'a>, NoMemory>
    ensures begins { IfOk result (λ top. (s : Setting) (h : History)
        → Keeps s state.now h → IsClear h
        → IsShared s.policy bundle.now.name.name
        → CommonBegins s (seen_bundle bundle.now) top h) }
    ensures common { IfOk result NotAgent }
{
    let promises = numbered_in(alloc, bundle)?;
    match Activation::of_common(alloc, state, &bundle.name.name)? {
        None => Ok(Top::Nothing),
        Some(activation) => Ok(Top::Common(Common {
            activation,
            promises,
            kind: 0,
            place: 0,
        })),
    }
}

// An agent bundle of the sequence begins.
fn agent_top<'a>(
    alloc: Global,
    depth: usize,
    name: &Name,
    bundle: &'a Bundle,
    state: &mut State,
) -> Result<Top<'a>, NoMemory>
    ensures begins { IfOk result (λ top. (s : Setting) (h : History) → depth ≡ length s.policy
        → bundle_of s.policy name.now ≡ Some (seen_bundle bundle.now) → IsShared s.policy name.now
        → Keeps s state.old h → AgentBegins s name.now (seen_bundle bundle.now) top state.new h) }
    ensures holds { IfOk result (λ top. (policy : PolicyTree) → HasCountedIds policy
        → bundle_of policy name.now ≡ Some (seen_bundle bundle.now)
        → TopHoldsAlone policy state.new top) }
{
    let made = remembered_in(alloc, bundle)?;
    match Activation::of_sequence(alloc, state, name)? {
        None => Ok(Top::Nothing),
        Some(activation) => Ok(Top::Agent(fresh_frame(depth, activation, made))),
    }
}

/// A bundle of the sequence begins, where it is an agent bundle.
pub(crate) fn named_top<'a>(
    alloc: Global,
    checked: &'a Checked,
    depth: usize,
    name: &Name,
    state: &mut State,
) -> Result<Top<'a>, NoMemory>
    ensures begins { IfOk result (λ top. (s : Setting) (h : History)
        → s.policy ≡ tree_of checked.now
        → depth ≡ length s.policy → IsShared s.policy name.now → Keeps s state.old h
        → NamedBegins s name.now top state.new h) }
    ensures holds { IfOk result (TopHoldsAlone (tree_of checked.now) state.new) }
{
    ids_are_counted(checked);
    match checked.bundle(name.as_str()) {
        None => Ok(Top::Nothing),
        Some(bundle) => match bundle_type(bundle.kind.name.as_str()) {
            Some(BundleType::Agent) => agent_top(alloc, depth, name, bundle, state),
            _ => Ok(Top::Nothing),
        },
    }
}
