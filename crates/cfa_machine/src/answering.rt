// Answers to the visit in hand of an activation.
ghost use Rattle.std.specs.Prelude.{◌≡◌, ◌∷◌, All, IfOk, IfSome, OnOk};
ghost use Rattle.cfa_machine.specs.Answering.{Begins, Enters, ended_by, ended_doing, entered_doing};
ghost use Rattle.cfa_machine.specs.Answering.{skipped_by, unasked};
ghost use Rattle.cfa_visits.specs.Counting.{IsAt};
ghost use Rattle.cfa_machine.specs.Machines.{row_in};
ghost use Rattle.cfa_machine.specs.Standing.{FrameHolds};
ghost use Rattle.cfa_schema.specs.Seen.{tree_of};
ghost use Rattle.cfa_states.specs.History.{History, Listed};
ghost use Rattle.cfa_states.specs.Kept.{AreLater, IsLater, IsSame, Keeps, Stands};
ghost use Rattle.cfa_states.specs.Levels.{HasPlainNames};
ghost use Rattle.cfa_states.specs.Views.{Setting};
ghost use Rattle.cfa_states.specs.Waits.{waits_in};

use crate::frames::{Doing, Frame, fresh_frame, row_in};
use cfa_base::{Name, NoMemory, Parts};
use cfa_outcomes::Outcome;
use cfa_resolve::{Instance, Work};
use cfa_schema::Checked;
use cfa_states::{Activation, Ending, State};
use cfa_statuses::Status;
use cfa_vars::Datum;
use cfa_visits::{begin_call, end_visit, ids_are_counted, remembered_in};
use std::alloc::Global;

// Lists a visit of an instance.
fn list_visit(
    alloc: Global,
    instance: &Instance,
    status: Status,
    state: &mut State,
    activation: &Activation,
) -> Result<(), NoMemory>
    ensures keeps { OnOk result ((s : Setting) (h : History)
        → activation.now.waits ≡ waits_in s h instance.now.path → Keeps s state.old h
        → Keeps s state.new (Listed instance.now status ∷ h)) }
    ensures later { OnOk result (IsLater state.old state.new) }
{
    let mark = state.environment.done(&instance.path, &instance.text);
    state.list(alloc, instance, status, mark, activation.waits.as_ref())
}

/// The visit in hand is skipped.
pub(crate) fn skip_visit(
    alloc: Global,
    frame: &mut Frame<'_>,
    state: &mut State,
) -> Result<(), NoMemory>
    requires at { All (IsAt frame.old.activation.path)
        (row_in frame.old.rows.items frame.old.hand) }
    ensures frame { OnOk result (frame.new ≡ record frame.old { doing = unasked frame.old.doing }) }
    ensures stands { OnOk result ((s : Setting) (h : History)
        → Stands s state.old frame.old.activation h
        → Stands s state.new frame.old.activation
        (skipped_by (row_in frame.old.rows.items frame.old.hand) frame.old.doing h)) }
    ensures later { OnOk result (IsLater state.old state.new) }
{
    let Doing::Asked(at, status) = frame.doing else {
        return Ok(());
    };
    frame.doing = Doing::Idle;
    match row_in(frame.rows.as_slice(), frame.hand).get(at) {
        None => Ok(()),
        Some(instance) => list_visit(alloc, instance, status, state, &frame.activation),
    }
}

// The bundle of a call begins, where there is one and calls may go so deep.
fn begin_bundle<'a>(
    alloc: Global,
    checked: &'a Checked,
    depth: usize,
    instance: &Instance,
    name: &Name,
    given: &Parts<Datum>,
    status: Status,
    state: &mut State,
) -> Result<Option<Frame<'a>>, NoMemory>
    requires names { HasPlainNames (tree_of checked.now) }
    ensures begins { IfOk result (λ made. (s : Setting) (h : History)
        → s.policy ≡ tree_of checked.now
        → Keeps s state.old h → Begins s depth instance.now status (Work.Call name.now given.now)
        made state.new h) }
    ensures holds { IfOk result (λ made. IfSome made (FrameHolds (tree_of checked.now) state.new)) }
    ensures later { OnOk result (IsLater state.old state.new) }
{
    ids_are_counted(checked);
    if depth == 0 {
        return Ok(None);
    }
    match checked.bundle(name.as_str()) {
        None => Ok(None),
        Some(bundle) => {
            let made = remembered_in(alloc, bundle)?;
            let params = bundle.params.as_slice();
            let activation = begin_call(alloc, instance, name, given, status, params, state)?;
            Ok(Some(fresh_frame(depth - 1, activation, made)))
        }
    }
}

// What an instance calls begins.
fn begin_work<'a>(
    alloc: Global,
    checked: &'a Checked,
    depth: usize,
    instance: &Instance,
    status: Status,
    state: &mut State,
) -> Result<Option<Frame<'a>>, NoMemory>
    requires names { HasPlainNames (tree_of checked.now) }
    ensures begins { IfOk result (λ made. (s : Setting) (h : History)
        → s.policy ≡ tree_of checked.now
        → Keeps s state.old h
        → Begins s depth instance.now status instance.now.work made state.new h) }
    ensures holds { IfOk result (λ made. IfSome made (FrameHolds (tree_of checked.now) state.new)) }
    ensures later { OnOk result (IsLater state.old state.new) }
{
    match &instance.work {
        Work::Acts(_) => Ok(None),
        Work::Call(name, given) => {
            begin_bundle(alloc, checked, depth, instance, name, given, status, state)
        }
        Work::Report(_) => Ok(None),
    }
}

/// The visit in hand isn't skipped: it is listed, and the bundle begins that its instance calls.
pub(crate) fn enter_visit<'a>(
    alloc: Global,
    checked: &'a Checked,
    frame: &mut Frame<'a>,
    state: &mut State,
) -> Result<Option<Frame<'a>>, NoMemory>
    requires names { HasPlainNames (tree_of checked.now) }
    requires at { All (IsAt frame.old.activation.path)
        (row_in frame.old.rows.items frame.old.hand) }
    ensures frame { OnOk result
        (frame.new ≡ record frame.old { doing = entered_doing frame.old.doing }) }
    ensures enters { IfOk result (λ made. (s : Setting) (h : History)
        → s.policy ≡ tree_of checked.now
        → Stands s state.old frame.old.activation h → Enters s frame.old.depth
        (row_in frame.old.rows.items frame.old.hand) frame.old.doing made state.new h) }
    ensures holds { IfOk result (λ made. IfSome made (FrameHolds (tree_of checked.now) state.new)) }
    ensures later { OnOk result (IsLater state.old state.new) }
{
    let Doing::Asked(at, status) = frame.doing else {
        return Ok(None);
    };
    frame.doing = Doing::Running(at, status, Outcome::Kept);
    match row_in(frame.rows.as_slice(), frame.hand).get(at) {
        None => Ok(None),
        Some(instance) => {
            list_visit(alloc, instance, status, state, &frame.activation)?;
            begin_work(alloc, checked, frame.depth, instance, status, state)
        }
    }
}

/// The instance of the visit in hand ended, or may end, so.
pub(crate) fn end_running(
    alloc: Global,
    frame: &mut Frame<'_>,
    ending: Ending,
    state: &mut State,
) -> Result<(), NoMemory>
    requires at { All (IsAt frame.old.activation.path)
        (row_in frame.old.rows.items frame.old.hand) }
    ensures frame { OnOk result (frame.new ≡ record frame.old
        { activation = frame.new.activation; doing = ended_doing frame.old.doing }) }
    ensures stands { OnOk result ((s : Setting) (h : History)
        → Stands s state.old frame.old.activation h
        → Stands s state.new frame.new.activation
        (ended_by ending (row_in frame.old.rows.items frame.old.hand) frame.old.doing h)) }
    ensures later { OnOk result (AreLater state.old state.new frame.old.activation
        frame.new.activation) }
    ensures same { OnOk result (IsSame frame.old.activation frame.new.activation) }
{
    let Doing::Running(at, status, _) = frame.doing else {
        return Ok(());
    };
    frame.doing = Doing::Idle;
    match row_in(frame.rows.as_slice(), frame.hand).get(at) {
        None => Ok(()),
        Some(instance) => {
            end_visit(
                alloc,
                instance,
                ending,
                status,
                state,
                &mut frame.activation,
            )
        }
    }
}
