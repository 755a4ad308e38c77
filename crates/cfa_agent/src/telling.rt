// Who tells how the instances of a run end: its site.
ghost use Rattle.std.specs.Prelude.{◌≡◌, ◌+◌, All, IfOk, OnOk, suc};
ghost use Rattle.cfa_acts.specs.Acts.{IsAct};
ghost use Rattle.cfa_schema.specs.Laws.{IsCounted};
ghost use Rattle.cfa_resolve.specs.declared.instances.Work.TheVariants as Work;
ghost use Rattle.cfa_outcomes.specs.declared.outcomes.Outcome.{Outcome as AnyOutcome};
ghost use Rattle.cfa_agent.specs.Stepping.{is_recorded};
ghost use Rattle.cfa_agent.specs.Faults.{CountsOn, IsCalmUnless};
ghost use Rattle.cfa_agent.specs.Ending.{outcome_ended, one_ended, tallied, heard, acted_on, Hears, ActsNext, Settles, Tells};

use crate::actuating::{Actuation, actuate};
use crate::laws::have_names;
use crate::locking::{is_skipped, set_lock};
use crate::progress::Running;
use crate::putting::{tell_ended, tell_text};
use crate::running::Tally;
use cfa_acts::Act;
use cfa_base::{Name, NoMemory};
use cfa_outcomes::Outcome;
use cfa_output::Stop;
use cfa_outside::Site;
use cfa_resolve::{Instance, Work};
use cfa_statuses::Status;
use cfa_walk::{Ending, Teller};
use std::alloc::Global;

// ---- counts

// So many instances that they can't be counted don't fit in any memory.
fn one_more(count: u64) -> Result<u64, NoMemory>
    ensures { IfOk result (λ more. more ≡ count + 1) }
{
    count.checked_add(1).ok_or(NoMemory)
}

// The number of the next instance with acts.
fn next_number(number: u32) -> Result<u32, NoMemory>
    ensures { IfOk result (λ next. next ≡ suc number) }
{
    number.checked_add(1).ok_or(NoMemory)
}

fn count_ended(tally: Tally, outcome: Outcome) -> Result<Tally, NoMemory>
    ensures { IfOk result (λ counted. counted ≡ one_ended outcome tally) }
{
    match outcome {
        Outcome::Kept => Ok(Tally {
            kept: one_more(tally.kept)?,
            ..tally
        }),
        Outcome::Repaired => Ok(Tally {
            repaired: one_more(tally.repaired)?,
            ..tally
        }),
        Outcome::Failed => Ok(Tally {
            failed: one_more(tally.failed)?,
            ..tally
        }),
    }
}

// Counts a visit where it is skipped.
fn count_visit(running: &mut Running, skipped: bool) -> Result<(), NoMemory>
    ensures { OnOk result (running.new ≡ heard skipped running.old) }
{
    if !skipped {
        return Ok(());
    }
    running.tally.skipped = one_more(running.tally.skipped)?;
    Ok(())
}

fn outcome_of(ended: Actuation) -> Outcome
    ensures { result ≡ outcome_ended ended }
{
    match ended.failure {
        Some(_) => Outcome::Failed,
        None if ended.changes > 0 => Outcome::Repaired,
        None => Outcome::Kept,
    }
}

// Whether a record tells it.
fn is_recorded(outcome: Outcome) -> bool
    ensures { result ≡ is_recorded outcome }
{
    match outcome {
        Outcome::Kept => false,
        Outcome::Repaired => true,
        Outcome::Failed => true,
    }
}

// ---- one instance

// Hears of a visit.
fn hear<S: Site>(
    alloc: Global,
    running: &mut Running,
    instance: &Instance,
    site: &mut S,
) -> Result<bool, Stop>
    ensures { Hears running.old running.new instance.now
        (S.shown site.old) (S.shown site.new) result }
{
    let skipped = is_skipped(alloc, running.moment, running.locks, instance, site)?;
    count_visit(running, skipped)?;
    Ok(skipped)
}

// Actuates the next instance with acts.
fn act<S: Site>(
    alloc: Global,
    running: &mut Running,
    instance: &Instance,
    acts: &[Act],
    site: &mut S,
) -> Result<Actuation, Stop>
    requires acts { All IsAct acts.now }
    requires source { IsCounted instance.now.source }
    ensures next { ActsNext running.old running.new instance.now acts.now
        (S.shown site.old) (S.shown site.new) result }
    ensures calm { IfOk result (λ a. IsCalmUnless a.failure
        (S.shown site.old) (S.shown site.new)) }
{
    let number = next_number(running.number)?;
    let moment = running.moment;
    let has_record = running.has_record;
    let ended = actuate(alloc, moment, number, instance, acts, has_record, site)?;
    running.number = number;
    running.has_record = has_record || is_recorded(outcome_of(ended));
    Ok(ended)
}

// Sets the lock of an instance that has ended, and counts it.
fn settle<S: Site>(
    alloc: Global,
    running: &mut Running,
    instance: &Instance,
    outcome: Outcome,
    site: &mut S,
) -> Result<(), Stop>
    ensures { Settles running.old running.new instance.now outcome
        (S.shown site.old) (S.shown site.new) result }
{
    set_lock(alloc, running.moment, running.locks, instance, site)?;
    running.tally = count_ended(running.tally, outcome)?;
    Ok(())
}

// ---- by what an instance asks for

fn tell_acts<S: Site>(
    alloc: Global,
    running: &mut Running,
    instance: &Instance,
    acts: &[Act],
    site: &mut S,
    lines: &mut Vec<Name>,
) -> Result<Outcome, Stop>
    requires asked { instance.now.work ≡ Work.Acts acts.now }
    requires acts { All IsAct acts.now }
    requires source { IsCounted instance.now.source }
    ensures tells { (called : AnyOutcome) →
        Tells (running.old, (S.shown site.old, lines.old.items))
        (running.new, (S.shown site.new, lines.new.items)) instance.now called result }
    ensures counted { OnOk result (CountsOn
        (running.old, (S.shown site.old, lines.old.items))
        (running.new, (S.shown site.new, lines.new.items))) }
{
    have_names(acts);
    let ended = act(alloc, running, instance, acts, site)?;
    let outcome = outcome_of(ended);
    settle(alloc, running, instance, outcome, site)?;
    tell_ended(alloc, &instance.source, ended, lines)?;
    Ok(outcome)
}

fn tell_report<S: Site>(
    alloc: Global,
    running: &mut Running,
    instance: &Instance,
    text: &Name,
    site: &mut S,
    lines: &mut Vec<Name>,
) -> Result<Outcome, Stop>
    requires { instance.now.work ≡ Work.Report text.now }
    ensures tells { (called : AnyOutcome) →
        Tells (running.old, (S.shown site.old, lines.old.items))
        (running.new, (S.shown site.new, lines.new.items)) instance.now called result }
    ensures counted { OnOk result (CountsOn
        (running.old, (S.shown site.old, lines.old.items))
        (running.new, (S.shown site.new, lines.new.items))) }
{
    settle(alloc, running, instance, Outcome::Kept, site)?;
    tell_text(alloc, text, lines)?;
    Ok(Outcome::Kept)
}

// Makes an instance end. A call has ended with its bundle, and a report is kept.
fn tell_instance<S: Site>(
    alloc: Global,
    running: &mut Running,
    instance: &Instance,
    called: Outcome,
    site: &mut S,
    lines: &mut Vec<Name>,
) -> Result<Outcome, Stop>
    requires { IsCounted instance.now.source }
    ensures tells { Tells (running.old, (S.shown site.old, lines.old.items))
        (running.new, (S.shown site.new, lines.new.items)) instance.now called result }
    ensures counted { OnOk result (CountsOn
        (running.old, (S.shown site.old, lines.old.items))
        (running.new, (S.shown site.new, lines.new.items))) }
{
    match &instance.work {
        Work::Acts(acts) => tell_acts(alloc, running, instance, acts.as_slice(), site, lines),
        Work::Call(_, _) => {
            settle(alloc, running, instance, called, site)?;
            Ok(called)
        }
        Work::Report(text) => tell_report(alloc, running, instance, text, site, lines),
    }
}

impl<S: Site> Teller<S, Vec<Name>> for Running {
    ghost use Rattle.cfa_agent.specs.Faults.{counts_on_none, counts_on_then};
    ghost use Rattle.cfa_agent.specs.Standing.{Given, teller_of, faults_of, Agrees, IsBehind, stays_behind};

    ghost given = { Given };

    ghost teller = { teller_of };

    ghost agrees = { λ w g. Agrees (w.0, (S.shown w.1.0, w.1.1.items)) g };

    ghost behind = { λ w g h. IsBehind (w.0, (S.shown w.1.0, w.1.1.items)) g h };

    ghost faults = { λ w. faults_of (w.0, (S.shown w.1.0, w.1.1.items)) };

    ghost counts = { λ v w. CountsOn (v.0, (S.shown v.1.0, v.1.1.items))
        (w.0, (S.shown w.1.0, w.1.1.items)) };

    ghost counts_none = { λ w. counts_on_none (w.0, (S.shown w.1.0, w.1.1.items)) };

    ghost counts_then = { λ v w x. counts_on_then (v.0, (S.shown v.1.0, v.1.1.items))
        (w.0, (S.shown w.1.0, w.1.1.items)) (x.0, (S.shown x.1.0, x.1.1.items)) };

    ghost steady = { λ w g event h quiet b.
        stays_behind (w.0, (S.shown w.1.0, w.1.1.items)) g event h quiet b };

    fn visit(
        &mut self,
        alloc: Global,
        instance: &Instance,
        _status: Status,
        site: &mut S,
        _lines: &mut Vec<Name>,
    ) -> Result<bool, Stop> {
        hear(alloc, self, instance, site)
    }

    fn tell(
        &mut self,
        alloc: Global,
        instance: &Instance,
        called: Outcome,
        site: &mut S,
        lines: &mut Vec<Name>,
    ) -> Result<Ending, Stop> {
        match tell_instance(alloc, self, instance, called, site, lines) {
            Ok(outcome) => Ok(Ending::One(outcome)),
            Err(stop) => Err(stop),
        }
    }
}
