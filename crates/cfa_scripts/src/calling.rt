// The edit bundle that a promise calls.
ghost use Rattle.std.specs.Prelude.{◌≡◌, ◌<◌, ◌≤◌, [], Some, IfOk, IsErrOf};
ghost use Rattle.cfa_base.specs.Patterns.{SizeRefusal};
ghost use Rattle.cfa_tree.specs.Plain.{plain_block, plain_value};
ghost use Rattle.cfa_scripts.specs.EditScripts.{walked, walked_by, walk_of};
ghost use Rattle.cfa_scripts.specs.ScriptBuilds.{BuiltInBundle, IsBuiltBy};
ghost use Rattle.cfa_scripts.specs.declared.scripting.Scripted.TheVariants.{Script as a_script};
ghost use Rattle.cfa_scripts.specs.Callers.{seen_caller};
ghost use Rattle.cfa_scripts.specs.Refusals.{too_big_in};

use crate::blaming::Unsettled;
use crate::errors::ScriptErr;
use crate::numbering::promises_in_order;
use crate::reaching::walk_promises;
use crate::scripting::{Scripted, conclude};
use crate::walking::{Around, Walk};
use cfa_base::{Name, NoMemory, Parts, Patterns};
use cfa_bodies::{bind, name_given};
use cfa_defines::arguments_of;
use cfa_edits::Script;
use cfa_schema::Checked;
use cfa_statuses::Statuses;
use cfa_tree::{Block, Bundle, Value};
use cfa_vars::Scopes;
use std::alloc::Global;

/// Who calls an edit bundle: a promise of a policy in one of its combinations, with what its texts see and the global classes.
#[derive(Clone, Copy)]
pub struct Caller<'a> {
    pub checked: &'a Checked,
    pub scopes: Scopes<'a>,
    pub statuses: &'a Statuses,
    pub choice: &'a [(Name, Name)],
}

/// What comes of an edit bundle in one combination.
#[derive(Drop)]
pub struct Walked {
    /// How many visits its promises count.
    pub visits: u64,
    /// Its promises whose guards may hold or not, in the order in which they are reached.
    pub unsettled: Parts<Unsettled>,
    pub scripted: Scripted,
}

// The walk of a bundle, before its edits are put together.
fn walk_of<P: Patterns>(
    alloc: Global,
    caller: &Caller<'_>,
    call: &Value,
    bundle: &Bundle,
    left: u64,
    pats: &mut P,
) -> Result<Walk, ScriptErr>
    ensures walk { IfOk result (λ w. w ≡ walk_of (seen_caller caller.now) (plain_value call.now)
        (plain_block (Block.Bundle bundle.now))) }
    ensures within { IfOk result (λ w. w.visits ≤ left) }
    ensures too_large { IsErrOf result ScriptErr.TooLarge → left < (walk_of
        (seen_caller caller.now) (plain_value call.now)
        (plain_block (Block.Bundle bundle.now))).visits }
    ensures sizes { SizeRefusal (BuiltInBundle (seen_caller caller.now) (plain_value call.now)
        (Some (plain_block (Block.Bundle bundle.now)))) (too_big_in result)
        (P.shown pats.old) (P.shown pats.new) }
{
    let params = bind(
        alloc,
        bundle.params.as_slice(),
        arguments_of(call),
        &caller.scopes,
        caller.choice,
    )?;
    let promises = promises_in_order(alloc, bundle)?;
    let around = Around {
        checked: caller.checked,
        bundle: &bundle.name.name,
        shared: caller.scopes.shared,
        statuses: caller.statuses,
    };
    let first = Walk::new(alloc, params);
    walk_promises(alloc, &around, &promises, first, left, pats)
}

fn walked_in<P: Patterns>(
    alloc: Global,
    caller: &Caller<'_>,
    call: &Value,
    bundle: &Bundle,
    left: u64,
    pats: &mut P,
) -> Result<Walked, ScriptErr>
    ensures walked { IfOk result (λ w. w ≡ walked_by (seen_caller caller.now)
        (plain_value call.now) (Some (plain_block (Block.Bundle bundle.now)))) }
    ensures within { IfOk result (λ w. w.visits ≤ left) }
    ensures too_large { IsErrOf result ScriptErr.TooLarge → left < (walked_by
        (seen_caller caller.now) (plain_value call.now)
        (Some (plain_block (Block.Bundle bundle.now)))).visits }
    ensures sizes { SizeRefusal (BuiltInBundle (seen_caller caller.now) (plain_value call.now)
        (Some (plain_block (Block.Bundle bundle.now)))) (too_big_in result)
        (P.shown pats.old) (P.shown pats.new) }
{
    let walk = walk_of(alloc, caller, call, bundle, left, pats)?;
    Ok(Walked {
        visits: walk.visits,
        unsettled: walk.unsettled,
        scripted: conclude(alloc, walk.edits)?,
    })
}

fn nothing_walked(alloc: Global) -> Result<Walked, NoMemory>
    ensures { IfOk result (λ w. w ≡ record { visits = 0; unsettled = []; scripted = a_script [] }) }
{
    let none = Parts::from_vec(Vec::new(alloc));
    Ok(Walked {
        visits: 0,
        unsettled: Parts::from_vec(Vec::new(alloc)),
        scripted: Scripted::Script(Script::new(alloc, none)?),
    })
}

/// What comes of the edit bundle that a value of `edit_line` calls. Its promises are reached in the order of the types of edit
/// bundles, each by the state that those before it left; the edits in this order are the script. A pattern is built once for
/// each edit.
///
/// `TooLarge` comes exactly where its promises count more visits than are left. The time is near to linear in the promises of
/// the bundle and in what is expanded in their combinations.
#[tactic(auto, unfolding(crate::specs::EditScripts::walked, crate::specs::ScriptBuilds::IsBuiltBy))]
pub fn walk_bundle<P: Patterns>(
    alloc: Global,
    caller: &Caller<'_>,
    call: &Value,
    left: u64,
    pats: &mut P,
) -> Result<Walked, ScriptErr>
    ensures walked { IfOk result
        (λ w. w ≡ walked (seen_caller caller.now) (plain_value call.now)) }
    ensures within { IfOk result (λ w. w.visits ≤ left) }
    ensures too_large { IsErrOf result ScriptErr.TooLarge → left
        < (walked (seen_caller caller.now) (plain_value call.now)).visits }
    ensures sizes { SizeRefusal (IsBuiltBy (seen_caller caller.now) (plain_value call.now))
        (too_big_in result) (P.shown pats.old) (P.shown pats.new) }
{
    match caller.checked.bundle(name_given(call)) {
        None => Ok(nothing_walked(alloc)?),
        Some(bundle) => walked_in(alloc, caller, call, bundle, left, pats),
    }
}
