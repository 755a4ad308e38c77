// The moves of an activation in which no visit is in hand.
ghost use Rattle.std.specs.Prelude.{◌≡◌, ◌<◌, ◌≤◌, IfOk, IfSome, OnOk, length, slice_get, suc, false, true};
ghost use Rattle.cfa_frames.specs.Moves.{frame_next};
ghost use Rattle.cfa_machine.specs.Machines.{asked_held, doing_for, reached_held, seen_frame};
ghost use Rattle.cfa_machine.specs.Standing.{FrameHolds};
ghost use Rattle.cfa_machine.specs.Stepping.{IsNextVisit, StepsTo, TypeStepsTo};
ghost use Rattle.cfa_machine.specs.Tops.{NotRunning};
ghost use Rattle.cfa_machine.specs.Reaching.{done_of};
ghost use Rattle.cfa_schema.specs.Seen.{tree_of};
ghost use Rattle.cfa_states.specs.Kept.{IsLater};
ghost use Rattle.cfa_states.specs.Levels.{PatternsAre};
ghost use Rattle.cfa_states.specs.Numbered.{agent_types};

use crate::frames::{Doing, Frame, Hand, row_of, type_at};
use crate::reaching::reach_promise;
use cfa_base::Patterns;
use cfa_kinds::PromiseType;
use cfa_output::Stop;
use cfa_schema::Checked;
use cfa_states::{Known, State, guard_known};
use cfa_statuses::Status;
use cfa_visits::visit_status;
use std::alloc::Global;

// The next visit: what is in hand behind it, the place of its instance in the row, and its status.
#[derive(Clone, Copy)]
pub(crate) struct NextVisit {
    pub hand: Hand,
    pub at: usize,
    pub status: Status,
}

// The visit of the next instance in hand.
fn next_visit(frame: &Frame<'_>, state: &State) -> Option<NextVisit>
    ensures { IsNextVisit frame.now state.now.environment result }
{
    match frame.hand {
        None => None,
        Some(hand) => match row_of(frame.rows.as_slice(), hand.row).get(hand.next) {
            None => None,
            Some(instance) => {
                let mark = state.environment.done(&instance.path, &instance.text);
                let status = visit_status(frame.guard, frame.activation.status, mark);
                let behind = Hand {
                    row: hand.row,
                    next: hand.next + 1,
                };
                Some(NextVisit {
                    hand: behind,
                    at: hand.next,
                    status,
                })
            }
        },
    }
}

// An instance with nothing new to be visited for is passed over; of another it is asked whether it is skipped.
fn doing_for(at: usize, status: Status) -> Doing
    ensures { result ≡ doing_for at status }
{
    match status {
        Status::No => Doing::Idle,
        Status::Maybe => Doing::Asked(at, Status::Maybe),
        Status::Yes => Doing::Asked(at, Status::Yes),
    }
}

// Takes the next instance in hand.
fn ask(frame: &mut Frame<'_>, visit: NextVisit)
    ensures { frame.new ≡ asked_held visit frame.old }
{
    frame.hand = Some(visit.hand);
    frame.doing = doing_for(visit.at, visit.status);
}

// Goes on to the next type of the pass.
fn next_type(frame: &mut Frame<'_>)
    requires { frame.old.kind < usize.MAX }
    ensures { frame.new ≡ record frame.old { kind = suc frame.old.kind; place = 0; before = None } }
{
    frame.kind += 1;
    frame.place = 0;
    frame.before = None;
}

// Goes on to the next pass, where there is one.
fn next_pass(frame: &mut Frame<'_>) -> bool
    ensures stays { result ≡ true → (suc frame.new.passes ≡ frame.old.passes)
        × (frame.new ≡ record frame.old
        { passes = frame.new.passes; kind = 0; place = 0; before = None }) }
    ensures leaves { result ≡ false → (frame.old.passes ≡ 0) × (frame.new ≡ frame.old) }
{
    if frame.passes == 0 {
        return false;
    }
    frame.passes -= 1;
    frame.kind = 0;
    frame.place = 0;
    frame.before = None;
    true
}

// Goes past a promise of another type.
fn pass_by(frame: &mut Frame<'_>)
    requires { frame.old.place < usize.MAX }
    ensures { frame.new ≡ record frame.old { place = suc frame.old.place; before = None } }
{
    frame.place += 1;
    frame.before = None;
}

// Notes that the promise at the place was reached, and whether there are instances of it to be visited.
fn note_reached(frame: &mut Frame<'_>, known: Known, has_instances: bool)
    requires { frame.old.place < usize.MAX }
    ensures { frame.new ≡ reached_held known has_instances frame.old }
{
    if has_instances {
        frame.guard = known.status;
        frame.hand = Some(Hand {
            row: frame.place,
            next: 0,
        });
        frame.before = Some(known);
        frame.place += 1;
    } else {
        frame.hand = None;
        frame.before = Some(known);
        frame.place += 1;
    }
}

// Reaches the promise at the place, where it is one of the type in hand.
fn reach<P: Patterns>(
    alloc: Global,
    checked: &Checked,
    kind: PromiseType,
    frame: &mut Frame<'_>,
    state: &mut State,
    pats: &mut P,
) -> Result<bool, Stop>
    requires idle { frame.old.doing ≡ Doing.Idle }
    requires place { frame.old.place < length frame.old.promises.items }
    requires holds { FrameHolds (tree_of checked.now) state.old frame.old }
    ensures stays { IfOk result (λ stays. stays ≡ true) }
    ensures idle { OnOk result (frame.new.doing ≡ Doing.Idle) }
    ensures moved { TypeStepsTo (tree_of checked.now) kind state.old state.new
        frame.old frame.new result }
    ensures holds { OnOk result (FrameHolds (tree_of checked.now) state.new frame.new) }
    ensures later { OnOk result (IsLater state.old state.new) }
    ensures patterns { PatternsAre (done_of result) (P.shown pats.old) (P.shown pats.new) }
{
    let place = frame.place;
    let promise = &frame.promises[place];
    if promise.promise_type != kind {
        pass_by(frame);
        return Ok(true);
    }
    let known = guard_known(frame.before, promise, state, &frame.activation);
    let kept = &mut frame.rows[place];
    let activation = &mut frame.activation;
    match reach_promise(
        alloc,
        checked,
        promise,
        known.status,
        kept,
        state,
        activation,
        pats,
    ) {
        Err(stop) => Err(stop),
        Ok(has_instances) => {
            note_reached(frame, known, has_instances);
            Ok(true)
        }
    }
}

// Reaches the next promise of the type in hand, or goes on to the next type.
fn step_type<P: Patterns>(
    alloc: Global,
    checked: &Checked,
    kind: PromiseType,
    frame: &mut Frame<'_>,
    state: &mut State,
    pats: &mut P,
) -> Result<bool, Stop>
    requires idle { frame.old.doing ≡ Doing.Idle }
    requires kind { slice_get agent_types frame.old.kind ≡ Some kind }
    requires holds { FrameHolds (tree_of checked.now) state.old frame.old }
    ensures stays { IfOk result (λ stays. stays ≡ true) }
    ensures idle { OnOk result (frame.new.doing ≡ Doing.Idle) }
    ensures moved { TypeStepsTo (tree_of checked.now) kind state.old state.new
        frame.old frame.new result }
    ensures holds { OnOk result (FrameHolds (tree_of checked.now) state.new frame.new) }
    ensures later { OnOk result (IsLater state.old state.new) }
    ensures patterns { PatternsAre (done_of result) (P.shown pats.old) (P.shown pats.new) }
{
    if frame.place >= frame.promises.len() {
        next_type(frame);
        return Ok(true);
    }
    reach(alloc, checked, kind, frame, state, pats)
}

/// Moves an activation in which no visit is in hand. It answers whether there is more to do in it.
pub(crate) fn step<P: Patterns>(
    alloc: Global,
    checked: &Checked,
    frame: &mut Frame<'_>,
    state: &mut State,
    pats: &mut P,
) -> Result<bool, Stop>
    requires idle { frame.old.doing ≡ Doing.Idle }
    requires holds { FrameHolds (tree_of checked.now) state.old frame.old }
    ensures moved { StepsTo (tree_of checked.now) state.old state.new frame.old frame.new result }
    ensures leaves { IfOk result (λ stays. stays ≡ false → (frame.new ≡ frame.old)
        × (state.new ≡ state.old)) }
    ensures free { OnOk result (NotRunning frame.new.doing) }
    ensures holds { OnOk result (FrameHolds (tree_of checked.now) state.new frame.new) }
    ensures later { OnOk result (IsLater state.old state.new) }
    ensures patterns { PatternsAre (done_of result) (P.shown pats.old) (P.shown pats.new) }
{
    if let Some(visit) = next_visit(frame, state) {
        ask(frame, visit);
        return Ok(true);
    }
    match type_at(frame.kind) {
        None => Ok(next_pass(frame)),
        Some(kind) => step_type(alloc, checked, kind, frame, state, pats),
    }
}
