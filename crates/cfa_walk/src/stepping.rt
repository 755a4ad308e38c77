// A step of a run: turns up to and with the next actuation, or to the end.
ghost use Rattle.std.specs.Prelude.{◌≡◌, ◌<◌, IfOk, OnOk, false, true};
ghost use Rattle.cfa_frames.specs.Moves.{need_of, over};
ghost use Rattle.cfa_frames.specs.Steps.{awaits_actuation, has_acts};
ghost use Rattle.cfa_machine.specs.Reaching.{done_of};
ghost use Rattle.cfa_machine.specs.Stacks.{Holds, Stands, seen_stack};
ghost use Rattle.cfa_states.specs.History.{History};
ghost use Rattle.cfa_states.specs.Levels.{FaultsAre, PatternsAre};
ghost use Rattle.cfa_states.specs.Views.{Setting};
ghost use Rattle.cfa_walk.specs.Turns.{StepDone, machine_weight};

use crate::Teller;
use crate::walking::turn;
use cfa_base::Patterns;
use cfa_frames::{moves_keep_what_is_left, steps_end_with_an_actuation};
use cfa_machine::{Machine, Need};
use cfa_output::Stop;
use cfa_resolve::Work;
use std::alloc::Global;

// Whether a work is one of acts.
fn has_acts(work: &Work) -> bool
    ensures { result ≡ has_acts work.now }
{
    match work {
        Work::Acts(_) => true,
        Work::Call(_, _) | Work::Report(_) => false,
    }
}

// Whether a run waits for an actuation.
fn awaits_actuation(machine: &Machine<'_>) -> bool
    ensures { result ≡ awaits_actuation (need_of (seen_stack machine.now)) }
{
    match machine.need() {
        Need::Ending(instance, _) => has_acts(&instance.work),
        Need::Nothing | Need::Visit(_, _) | Need::Over => false,
    }
}

/// Goes on with a run up to and with the next actuation of an instance with acts, or to its end, and
/// answers whether it was actuated, so that there may be more to do.
pub fn step<S, O, T: Teller<S, O>, P: Patterns>(
    alloc: Global,
    machine: &mut Machine<'_>,
    teller: &mut T,
    site: &mut S,
    out: &mut O,
    pats: &mut P,
) -> Result<bool, Stop>
    requires holds { Holds machine.old }
    requires stands { (s : Setting) × ((h : History) × Stands s machine.old h) }
    ensures stepped { StepDone T.teller T.agrees T.behind (teller.old, (site.old, out.old))
        (teller.new, (site.new, out.new)) machine.old machine.new result }
    ensures over { IfOk result (λ is_more. is_more ≡ false
        → need_of (seen_stack machine.new) ≡ over) }
    ensures holds { OnOk result (Holds machine.new) }
    ensures stands { OnOk result ((s : Setting) × ((h : History) × Stands s machine.new h)) }
    ensures lighter { IfOk result (λ is_more. is_more ≡ true
        → machine_weight machine.new < machine_weight machine.old) }
    ensures faults { FaultsAre (T.faults (teller.old, (site.old, out.old)))
        (T.faults (teller.new, (site.new, out.new))) (done_of result) }
    ensures counted { OnOk result (T.counts (teller.old, (site.old, out.old))
        (teller.new, (site.new, out.new))) }
    ensures patterns { PatternsAre (done_of result) (P.shown pats.old) (P.shown pats.new) }
{
    moves_keep_what_is_left();
    steps_end_with_an_actuation();
    loop {
        if let Need::Over = machine.need() {
            return Ok(false);
        }
        let actuates = awaits_actuation(machine);
        turn(alloc, machine, teller, site, out, pats)?;
        if actuates {
            return Ok(true);
        }
    }
}
