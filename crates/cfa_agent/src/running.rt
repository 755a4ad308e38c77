// A run of a policy on a host.
ghost use Rattle.std.specs.Prelude.{◌≡◌, ◌<◌, ◌≤◌, IfErr, IfOk, IsErrOf, OnOk, Some, false, true};
ghost use Rattle.cfa_frames.specs.Moves.{need_of, over};
ghost use Rattle.cfa_machine.specs.Stacks.{Holds, Stands, seen_stack};
ghost use Rattle.cfa_states.specs.History.{History};
ghost use Rattle.cfa_states.specs.Levels.{IsTooLarge};
ghost use Rattle.cfa_states.specs.Views.{Setting};
ghost use Rattle.cfa_walk.specs.Settings.{setting_of};
ghost use Rattle.cfa_walk.specs.Turns.{machine_weight};
ghost use Rattle.cfa_agent.specs.Runs.{run_of};
ghost use Rattle.cfa_agent.specs.Bracketed.{AllBracketed};
ghost use Rattle.cfa_agent.specs.Putting.{RunEnds, StepPut};
ghost use Rattle.cfa_agent.specs.Standing.{IsFirst};
ghost use Rattle.cfa_agent.specs.Ran.{added, started, CountsFaults, LimitAs, RunsAs, RunBuilds, IfBothTold, text_too_big, StopsRun, RunRefuses};

use crate::progress::Running;
use crate::putting::{put_lines, put_total};
use cfa_base::{LAST_MOMENT, Patterns};
use cfa_frames::{histories_only_grow, moves_keep_what_is_left, steps_keep_what_is_left};
use cfa_machine::Machine;
use cfa_output::Stop;
use cfa_outside::{Sink, Site};
use cfa_schema::Checked;
use cfa_walk::{Context, step};
use std::alloc::Global;

/// How many instances were kept, repaired, failed and skipped.
#[derive(Clone, Copy, Debug, PartialEq, Eq)]
pub struct Tally {
    pub kept: u64,
    pub repaired: u64,
    pub failed: u64,
    pub skipped: u64,
}

/// A run that begins.
pub(crate) fn begin(moment: u64, locks: bool) -> Running
    requires { moment ≤ LAST_MOMENT }
    ensures { IsFirst moment locks result }
{
    Running {
        moment,
        locks,
        number: 0,
        has_record: false,
        tally: Tally {
            kept: 0,
            repaired: 0,
            failed: 0,
            skipped: 0,
        },
    }
}

// Makes a step, and puts its lines, also those that stand before what stops it.
fn step_on<S: Site, O: Sink, P: Patterns>(
    alloc: Global,
    machine: &mut Machine<'_>,
    running: &mut Running,
    site: &mut S,
    out: &mut O,
    pats: &mut P,
) -> Result<bool, Stop>
    requires holds { Holds machine.old }
    requires stands { (s : Setting) × ((h : History) × Stands s machine.old h) }
    ensures put { StepPut running.old running.new machine.old machine.new
        (S.shown site.old) (S.shown site.new) (O.shown out.old) (O.shown out.new)
        (P.shown pats.old) (P.shown pats.new) result }
    ensures counted { OnOk result (CountsFaults running.old.tally.failed running.new.tally.failed
        (S.shown site.old).faults (S.shown site.new).faults) }
    ensures over { IfOk result (λ is_more. is_more ≡ false
        → need_of (seen_stack machine.new) ≡ over) }
    ensures holds { OnOk result (Holds machine.new) }
    ensures stands { OnOk result ((s : Setting) × ((h : History) × Stands s machine.new h)) }
    ensures lighter { IfOk result (λ is_more. is_more ≡ true
        → machine_weight machine.new < machine_weight machine.old) }
{
    let mut lines = Vec::new(alloc);
    let stepped = step(alloc, machine, running, site, &mut lines, pats);
    put_lines(lines.as_slice(), out)?;
    stepped
}

// Makes steps until nothing is left.
fn run_on<S: Site, O: Sink, P: Patterns>(
    alloc: Global,
    machine: &mut Machine<'_>,
    running: &mut Running,
    site: &mut S,
    out: &mut O,
    pats: &mut P,
) -> Result<(), Stop>
    requires holds { Holds machine.old }
    requires stands { (s : Setting) × ((h : History) × Stands s machine.old h) }
    ensures ends { RunEnds running.old running.new machine.old machine.new
        (S.shown site.old) (S.shown site.new) (O.shown out.old) (O.shown out.new)
        (P.shown pats.old) (P.shown pats.new) result }
    ensures counted { OnOk result (CountsFaults running.old.tally.failed running.new.tally.failed
        (S.shown site.old).faults (S.shown site.new).faults) }
{
    loop {
        if !step_on(alloc, machine, running, site, out, pats)? {
            return Ok(());
        }
    }
}

/// Runs a policy: its common bundles, and then each bundle of its sequence in three passes. Its lines are put
/// behind each step, which ends with the actuation of an instance, and the line of the total at the end.
///
/// With `locks` an instance whose lock was last set too few minutes ago is skipped, and each other one sets its lock when it
/// has ended. `moment` is the time in seconds since 1970-01-01T00:00:00Z.
pub fn run<S: Site, O: Sink, P: Patterns>(
    alloc: Global,
    checked: &Checked,
    context: &Context,
    moment: u64,
    locks: bool,
    site: &mut S,
    out: &mut O,
    pats: &mut P,
) -> Result<Tally, Stop>
    requires { moment ≤ LAST_MOMENT }
    // A run that ended did, put and counted what its definition says, and no put failed.
    ensures ran { IfOk result (λ tally. IfBothTold (λ before after.
        RunsAs (setting_of checked.now context.now) (started moment locks before after) before after
        (O.shown out.old) (O.shown out.new) tally) (S.shown site.old) (S.shown site.new)) }
    // Each first part of what it added to the log tells its changes.
    ensures bracketed { OnOk result (IfBothTold (λ before after.
        AllBracketed before.world (added before after)) (S.shown site.old) (S.shown site.new)) }
    ensures calm { OnOk result ((O.shown out.new).faults ≡ (O.shown out.old).faults) }
    // Where no promise failed no call on the site did, also on one that tells nothing.
    ensures faults { IfOk result (λ tally. CountsFaults 0 tally.failed
        (S.shown site.old).faults (S.shown site.new).faults) }
    // A run is stopped by too many visits only where its definition has too many.
    ensures too_large { IsErrOf result Stop.Visits → IfBothTold (λ before after. IsTooLarge
        (run_of (setting_of checked.now context.now) (started moment locks before after)))
        (S.shown site.old) (S.shown site.new) }
    // Then all before the promise with which it would have more was done and put, and nothing else.
    ensures limit { IsErrOf result Stop.Visits → IfBothTold (λ before after.
        LimitAs (setting_of checked.now context.now) (started moment locks before after)
        before after
        (O.shown out.old) (O.shown out.new)) (S.shown site.old) (S.shown site.new) }
    ensures stopped { IfErr result
        (StopsRun (S.shown site.old) (S.shown site.new) (O.shown out.old) (O.shown out.new)) }
    // A pattern that stops a run is one that it builds; where a line that stood before it can't be put, that ends the run.
    ensures patterns { RunRefuses (λ text. RunBuilds (setting_of checked.now context.now) moment
        locks
        (S.shown site.old) (S.shown site.new) (Some text)) result
        (P.shown pats.old) (P.shown pats.new) }
    ensures built { RunBuilds (setting_of checked.now context.now) moment locks
        (S.shown site.old) (S.shown site.new) (text_too_big result) }
{
    moves_keep_what_is_left();
    histories_only_grow();
    steps_keep_what_is_left();
    let mut machine = Machine::new(alloc, checked, &context.classes, false)?;
    let mut running = begin(moment, locks);
    let ended = run_on(alloc, &mut machine, &mut running, site, out, pats);
    drop(machine);
    ended?;
    put_total(alloc, running.tally, out)?;
    Ok(running.tally)
}
