// What is being gone through on top of a stack.
ghost use Rattle.std.specs.Prelude.{◌≡◌, IfErr, IfOk, IfSome, None, Ok, OnOk, Option, false};
ghost use Rattle.cfa_machine.specs.Reaching.{done_of};
ghost use Rattle.cfa_machine.specs.Standing.{FrameHolds};
ghost use Rattle.cfa_machine.specs.Tops.{TopEnters, TopRemembers, TopSteps, called_top, with_worst, worst_of};
ghost use Rattle.cfa_schema.specs.Seen.{tree_of};
ghost use Rattle.cfa_states.specs.Kept.{IsLater};
ghost use Rattle.cfa_states.specs.Levels.{HasPlainNames, PatternsAre};

use crate::answering::enter_visit;
use crate::commons::{Common, step_common};
use crate::frames::{Doing, Frame};
use crate::stepping::step;
use cfa_base::{NoMemory, Patterns};
use cfa_outcomes::Outcome;
use cfa_output::Stop;
use cfa_schema::Checked;
use cfa_states::State;
use std::alloc::Global;

/// The innermost bundle that is being gone through, where there is one.
#[derive(Drop)]
pub enum Top<'a> {
    Nothing,
    Common(Common<'a>),
    Agent(Frame<'a>),
}

// Moves the innermost bundle that is being gone through. It answers whether there is more to do in it.
pub(crate) fn step_top<P: Patterns>(
    alloc: Global,
    checked: &Checked,
    top: &mut Top<'_>,
    state: &mut State,
    pats: &mut P,
) -> Result<bool, Stop>
    requires holds { TopRemembers (tree_of checked.now) state.old top.old }
    ensures moved { TopSteps (tree_of checked.now) state.old state.new top.old top.new result }
    ensures leaves { IfOk result (λ stays. stays ≡ false → (top.new ≡ top.old)
        × (state.new ≡ state.old)) }
    ensures holds { OnOk result (TopRemembers (tree_of checked.now) state.new top.new) }
    ensures later { OnOk result (IsLater state.old state.new) }
    ensures patterns { PatternsAre (done_of result) (P.shown pats.old) (P.shown pats.new) }
{
    match top {
        Top::Nothing => Ok(true),
        Top::Common(common) => step_common(alloc, common, state, pats),
        Top::Agent(frame) => match frame.doing {
            Doing::Idle => step(alloc, checked, frame, state, pats),
            _ => Ok(true),
        },
    }
}

// The worst outcome in a bundle that is left.
pub(crate) fn worst_of(top: &Top<'_>) -> Outcome
    ensures { result ≡ worst_of top.now }
{
    match top {
        Top::Nothing => Outcome::Kept,
        Top::Common(_) => Outcome::Kept,
        Top::Agent(frame) => frame.activation.worst,
    }
}

// How far the visit is, with the worst outcome in the bundle of its call.
fn with_worst(doing: Doing, worst: Outcome) -> Doing
    ensures { result ≡ with_worst worst doing }
{
    match doing {
        Doing::Idle => Doing::Idle,
        Doing::Asked(at, status) => Doing::Asked(at, status),
        Doing::Running(at, status, _) => Doing::Running(at, status, worst),
    }
}

// The bundle below one that is left, which runs the call of that one.
pub(crate) fn called_top(below: Option<Frame<'_>>, worst: Outcome) -> Top<'_>
    ensures { result ≡ called_top below.entry worst }
{
    match below {
        None => Top::Nothing,
        Some(frame) => {
            let mut frame = frame;
            frame.doing = with_worst(frame.doing, worst);
            Top::Agent(frame)
        }
    }
}

// Enters the visit in hand of the innermost bundle.
pub(crate) fn enter_top<'a>(
    alloc: Global,
    checked: &'a Checked,
    top: &mut Top<'a>,
    state: &mut State,
) -> Result<Option<Frame<'a>>, NoMemory>
    requires names { HasPlainNames (tree_of checked.now) }
    requires holds { TopRemembers (tree_of checked.now) state.old top.old }
    ensures entered { IfOk result (TopEnters (tree_of checked.now) state.old state.new
        top.old top.new) }
    ensures holds { IfOk result (λ made. IfSome made (FrameHolds (tree_of checked.now) state.new)) }
    ensures later { OnOk result (IsLater state.old state.new) }
{
    match top {
        Top::Nothing => Ok(None),
        Top::Common(_) => Ok(None),
        Top::Agent(frame) => enter_visit(alloc, checked, frame, state),
    }
}
