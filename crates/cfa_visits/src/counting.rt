// The instances of a promise that is reached.
ghost use Rattle.std.specs.Prelude.{◌≡◌, ◌≢◌, ◌≤◌, ◌<◌, All, IfOk, IsErrOf, IsTrue, OnOk, Some};
ghost use Rattle.cfa_base.specs.Patterns.{SizeRefusal};
ghost use Rattle.cfa_resolve.specs.Resolution.{is_acting, IsBuiltFor};
ghost use Rattle.cfa_resolve.specs.Viewed.{too_big_in};
ghost use Rattle.cfa_schema.specs.Laws.{IsCounted};
ghost use Rattle.cfa_schema.specs.Seen.{tree_of};
ghost use Rattle.cfa_states.specs.Kept.{AreLater, RowHolds, reached_now, resolution_now, seen_numbered};
ghost use Rattle.cfa_states.specs.Levels.{PatternsAre};
ghost use Rattle.cfa_visits.specs.Counting.{IsAt, Counts, counted_in, found_by, instances_of, stop_of};

use cfa_base::{NoMemory, Patterns};
use cfa_output::Stop;
use cfa_resolve::{
    FoundPromise, Instance, ResolveErr, Resolved, View, instances_are_named, resolve_promise,
};
use cfa_schema::Checked;
use cfa_states::{Activation, Found, Numbered, State, moment_of, scopes_of, still_found, waits_of};
use cfa_statuses::Status;
use std::alloc::Global;

// What a promise resolves to, where it counts no more visits than are left.
fn resolve_now<P: Patterns>(
    alloc: Global,
    checked: &Checked,
    promise: &Numbered<'_>,
    kept: Option<Found>,
    state: &State,
    activation: &Activation,
    pats: &mut P,
) -> Result<Resolved, ResolveErr>
    requires acting { IsTrue (is_acting promise.now.promise_type) }
    requires kept { RowHolds (tree_of checked.now) (seen_numbered promise.now) kept
        state.now activation.now }
    ensures resolved { IfOk result (λ r. r
        ≡ resolution_now (tree_of checked.now) (seen_numbered promise.now)
        state.now activation.now) }
    ensures within { IfOk result (λ r. r.visits ≤ state.now.left) }
    ensures too_large { IsErrOf result ResolveErr.TooLarge → state.now.left
        < (resolution_now (tree_of checked.now) (seen_numbered promise.now)
        state.now activation.now).visits }
    ensures sizes { SizeRefusal (IsBuiltFor (reached_now (tree_of checked.now)
        (seen_numbered promise.now) state.now activation.now))
        (too_big_in result) (P.shown pats.old) (P.shown pats.new) }
{
    if let Some(resolved) = still_found(kept, state, activation) {
        if resolved.visits > state.left {
            drop(resolved);
            return Err(ResolveErr::TooLarge);
        }
        return Ok(resolved);
    }
    let found = FoundPromise {
        id: &promise.id,
        promise_type: promise.promise_type,
        promise: promise.promise,
    };
    let view = View {
        scopes: scopes_of(state, activation),
        statuses: state.environment.statuses(),
        path: &activation.path,
    };
    resolve_promise(alloc, checked, &found, &view, state.left, pats)
}

// What stops a run in which a promise isn't resolved.
fn stop_of(error: ResolveErr) -> Stop
    ensures { result ≡ stop_of error }
{
    match error {
        ResolveErr::TooLarge => Stop::Visits,
        ResolveErr::PatternTooBig(text) => Stop::Pattern(text),
        ResolveErr::NoMemory => Stop::Memory,
    }
}

// Counts the visits of a promise, notes what is unsettled in its edits, and keeps what was found out of it.
fn keep_found(
    alloc: Global,
    found: Found,
    kept: &mut Option<Found>,
    state: &mut State,
) -> Result<(), NoMemory>
    requires { found.resolved.visits ≤ state.old.left }
    ensures kept { kept.new ≡ Some found }
    ensures state { OnOk result (state.new ≡ counted_in found.resolved state.old) }
{
    state.left -= found.resolved.visits;
    let noted = state.log_edits(alloc, found.resolved.unsettled.as_slice());
    *kept = Some(found);
    noted
}

/// Finds out what a promise resolves to that is reached with this status of its guard, and counts its visits. It isn't
/// resolved again where it was before and nothing has changed since.
pub fn count_instances<P: Patterns>(
    alloc: Global,
    checked: &Checked,
    promise: &Numbered<'_>,
    guard: Status,
    kept: &mut Option<Found>,
    state: &mut State,
    activation: &mut Activation,
    pats: &mut P,
) -> Result<(), Stop>
    requires acting { IsTrue (is_acting promise.now.promise_type) }
    requires id { IsCounted promise.now.id }
    requires set { guard ≢ Status.No }
    requires kept { RowHolds (tree_of checked.now) (seen_numbered promise.now) kept.old
        state.old activation.old }
    ensures counted { Counts (tree_of checked.now) (seen_numbered promise.now) guard
        state.old state.new activation.old activation.new (found_by kept.new result) }
    ensures at { OnOk result (All (IsAt activation.old.path) (instances_of kept.new)) }
    ensures path { OnOk result (activation.new.path ≡ activation.old.path) }
    ensures later { OnOk result (AreLater state.old state.new activation.old activation.new) }
    ensures holds { OnOk result (RowHolds (tree_of checked.now) (seen_numbered promise.now)
        kept.new state.new activation.new) }
    ensures patterns { PatternsAre result (P.shown pats.old) (P.shown pats.new) }
{
    activation.waits = waits_of(alloc, promise.promise, guard, state, activation)?;
    let moment = moment_of(state, activation);
    instances_are_named();
    match resolve_now(
        alloc,
        checked,
        promise,
        kept.take(),
        state,
        activation,
        pats,
    ) {
        Ok(resolved) => {
            let found = Found { moment, resolved };
            keep_found(alloc, found, kept, state)?;
            Ok(())
        }
        Err(error) => Err(stop_of(error)),
    }
}

/// The instances of what was found out of a promise, if anything was.
pub fn instances_of(kept: &Option<Found>) -> &[Instance]
    ensures { result.now ≡ instances_of kept.now }
{
    match kept {
        None => &[],
        Some(found) => found.resolved.instances.as_slice(),
    }
}
