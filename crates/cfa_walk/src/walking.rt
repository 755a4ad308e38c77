// The history of a whole run, by turns: moves of its machine, and answers of who tells how its instances end.
ghost use Rattle.std.specs.Prelude.{◌≡◌, ◌≢◌, [], Ok, OnOk, IfErr};
ghost use Rattle.cfa_frames.specs.Frames.{beginning};
ghost use Rattle.cfa_frames.specs.Moves.{ended, need_of, over};
ghost use Rattle.cfa_machine.specs.Stacks.{Came, Holds, Stands, seen_stack};
ghost use Rattle.cfa_states.specs.History.{History};
ghost use Rattle.cfa_states.specs.Levels.{FaultsAre, IsTellersStop, PatternsAre};
ghost use Rattle.cfa_states.specs.Tellers.{outcomes_in};
ghost use Rattle.cfa_states.specs.Views.{Setting};
ghost use Rattle.cfa_walk.specs.Ended.{to_state};
ghost use Rattle.cfa_walk.specs.Turns.{GoesOn, IsEnding, IsVisit, TurnDone, visit_answered};
ghost use Rattle.cfa_walk.specs.Walked.{HasRunTo};

use crate::Teller;
use cfa_base::Patterns;
use cfa_frames::{
    histories_only_grow, moves_are_quiet, moves_keep_what_is_left, moves_lower_the_weight,
};
use cfa_machine::{Machine, Need};
use cfa_output::Stop;
use cfa_states::Ending;
use std::alloc::Global;

// Answers whether the visit in hand is skipped.
fn answer_visit(alloc: Global, machine: &mut Machine<'_>, is_skipped: bool) -> Result<(), Stop>
    requires holds { Holds machine.old }
    ensures moved { OnOk result ((s : Setting) (h : History) → Stands s machine.old h
        → Came s machine.new (Ok tt) (visit_answered s is_skipped (seen_stack machine.old) h)) }
    ensures holds { OnOk result (Holds machine.new) }
    ensures memory { IfErr result (λ stop. stop ≡ Stop.Memory) }
{
    if is_skipped {
        return Ok(machine.skip(alloc)?);
    }
    Ok(machine.enter(alloc)?)
}

// Answers how the instance of the visit in hand ended.
fn answer_ending(alloc: Global, machine: &mut Machine<'_>, ending: Ending) -> Result<(), Stop>
    requires holds { Holds machine.old }
    ensures moved { OnOk result ((s : Setting) (h : History) → Stands s machine.old h
        → Came s machine.new (Ok tt) (ended (outcomes_in ending) (seen_stack machine.old) h)) }
    ensures holds { OnOk result (Holds machine.new) }
    ensures memory { IfErr result (λ stop. stop ≡ Stop.Memory) }
{
    Ok(machine.end(alloc, ending)?)
}

// Has who tells say whether the visit in hand is skipped, and answers it so.
fn visit<S, O, T: Teller<S, O>>(
    alloc: Global,
    machine: &mut Machine<'_>,
    teller: &mut T,
    site: &mut S,
    out: &mut O,
) -> Result<(), Stop>
    requires holds { Holds machine.old }
    requires asks { IsVisit (need_of (seen_stack machine.old)) }
    ensures turned { TurnDone T.teller T.agrees T.behind (teller.old, (site.old, out.old))
        (teller.new, (site.new, out.new)) machine.old machine.new result }
    ensures lighter { OnOk result (GoesOn machine.old machine.new) }
    ensures holds { OnOk result (Holds machine.new) }
    ensures faults { FaultsAre (T.faults (teller.old, (site.old, out.old)))
        (T.faults (teller.new, (site.new, out.new))) result }
    ensures counted { OnOk result (T.counts (teller.old, (site.old, out.old))
        (teller.new, (site.new, out.new))) }
    ensures own { IfErr result IsTellersStop }
{
    moves_keep_what_is_left();
    moves_lower_the_weight();
    moves_are_quiet();
    match machine.need() {
        Need::Visit(instance, status) => match teller.visit(alloc, instance, status, site, out) {
            Err(stop) => Err(stop),
            Ok(is_skipped) => answer_visit(alloc, machine, is_skipped),
        },
        Need::Nothing | Need::Ending(_, _) | Need::Over => Ok(()),
    }
}

// Has who tells say how the instance of the visit in hand ended, and answers it so.
fn finish<S, O, T: Teller<S, O>>(
    alloc: Global,
    machine: &mut Machine<'_>,
    teller: &mut T,
    site: &mut S,
    out: &mut O,
) -> Result<(), Stop>
    requires holds { Holds machine.old }
    requires asks { IsEnding (need_of (seen_stack machine.old)) }
    ensures turned { TurnDone T.teller T.agrees T.behind (teller.old, (site.old, out.old))
        (teller.new, (site.new, out.new)) machine.old machine.new result }
    ensures lighter { OnOk result (GoesOn machine.old machine.new) }
    ensures holds { OnOk result (Holds machine.new) }
    ensures faults { FaultsAre (T.faults (teller.old, (site.old, out.old)))
        (T.faults (teller.new, (site.new, out.new))) result }
    ensures counted { OnOk result (T.counts (teller.old, (site.old, out.old))
        (teller.new, (site.new, out.new))) }
    ensures own { IfErr result IsTellersStop }
{
    moves_keep_what_is_left();
    moves_lower_the_weight();
    moves_are_quiet();
    let called = machine.called();
    match machine.need() {
        Need::Ending(instance, _) => match teller.tell(alloc, instance, called, site, out) {
            Err(stop) => Err(stop),
            Ok(ending) => answer_ending(alloc, machine, ending),
        },
        Need::Nothing | Need::Visit(_, _) | Need::Over => Ok(()),
    }
}

/// Moves a run once, or has it answered by who tells.
pub(crate) fn turn<S, O, T: Teller<S, O>, P: Patterns>(
    alloc: Global,
    machine: &mut Machine<'_>,
    teller: &mut T,
    site: &mut S,
    out: &mut O,
    pats: &mut P,
) -> Result<(), Stop>
    requires holds { Holds machine.old }
    requires stands { (s : Setting) × ((h : History) × Stands s machine.old h) }
    requires more { need_of (seen_stack machine.old) ≢ over }
    ensures turned { TurnDone T.teller T.agrees T.behind (teller.old, (site.old, out.old))
        (teller.new, (site.new, out.new)) machine.old machine.new result }
    ensures lighter { OnOk result (GoesOn machine.old machine.new) }
    ensures holds { OnOk result (Holds machine.new) }
    ensures faults { FaultsAre (T.faults (teller.old, (site.old, out.old)))
        (T.faults (teller.new, (site.new, out.new))) result }
    ensures counted { OnOk result (T.counts (teller.old, (site.old, out.old))
        (teller.new, (site.new, out.new))) }
    ensures patterns { PatternsAre result (P.shown pats.old) (P.shown pats.new) }
{
    moves_keep_what_is_left();
    moves_lower_the_weight();
    moves_are_quiet();
    histories_only_grow();
    match machine.need() {
        Need::Over => Ok(()),
        Need::Nothing => machine.advance(alloc, pats),
        Need::Visit(_, _) => visit(alloc, machine, teller, site, out),
        Need::Ending(_, _) => finish(alloc, machine, teller, site, out),
    }
}

/// Makes the history of a run that begins: turn by turn, until nothing is left.
pub(crate) fn make_run<S, O, T: Teller<S, O>, P: Patterns>(
    alloc: Global,
    machine: &mut Machine<'_>,
    teller: &mut T,
    site: &mut S,
    out: &mut O,
    pats: &mut P,
) -> Result<(), Stop>
    requires holds { Holds machine.old }
    requires stands { (s : Setting) × Stands s machine.old [] }
    ensures ran { (s : Setting) → Stands s machine.old [] → seen_stack machine.old ≡ beginning s
        → HasRunTo T.teller T.agrees T.behind s (teller.old, (site.old, out.old))
        (teller.new, (site.new, out.new)) (to_state machine.new.state result) }
    ensures faults { FaultsAre (T.faults (teller.old, (site.old, out.old)))
        (T.faults (teller.new, (site.new, out.new))) result }
    ensures patterns { PatternsAre result (P.shown pats.old) (P.shown pats.new) }
{
    moves_keep_what_is_left();
    loop {
        if let Need::Over = machine.need() {
            return Ok(());
        }
        turn(alloc, machine, teller, site, out, pats)?;
    }
}
