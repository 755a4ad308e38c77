// A demo: a policy of as many promises as are asked for is read, checked and analysed, and then run twice on the site.
// Neither the inputs nor the patterns of the call are touched.
ghost use Rattle.std.specs.Prelude.{◌≡◌, ◌≤◌, ◌++◌, Some, IfOk};
ghost use Rattle.cfa_conflict.specs.Analyses.{analysis_of};
ghost use Rattle.cfa_conflict.specs.declared.verdicts.Verdict as verdicts;
ghost use Rattle.cfa_output.specs.Lines.{line_of};
ghost use Rattle.cfa_main.specs.Demos.{DemoRead, RunOnce, Ran, LinesPut, SecondIsTold, RunsAgain, FirstIsTold, RunsTwice, IsShown, IsPerformed, Demonstrates, AlwaysTells, narrowed};
ghost use Rattle.cfa_main.specs.Stages.{setting_in};

use crate::auditing::append_line;
use crate::ends::{End, end_status, put_failure, put_stop};
use crate::performing::{analyse_policy, end_of, put_verdict, settled_by};
use crate::preparing::{prepare_policy, refusal};
use crate::work::PolicyInContext;
use cfa_agent::Tally;
use cfa_base::{LAST_MOMENT, Name, Names, NoMemory};
use cfa_conflict::Verdict;
use cfa_convergence::run;
use cfa_demo::{CountingSite, NoPatterns, Nowhere, OneText, counts_are_exact, demo_policy};
use cfa_output::{Failure, Item, Object, Stop, put_all};
use cfa_outside::{Sink, Site};
use core::mem::replace_with;
use std::alloc::Global;

// The name that the policy is read by.
const NAME: &str = "demo";

/// A run, with how many entries it added to the site's log, and how many of these are changes and no records.
#[derive(Clone, Copy, Debug, PartialEq, Eq)]
pub struct CountedRun {
    pub tally: Tally,
    pub entries: u64,
    pub changes: u64,
}

// A run that is to be made.
#[derive(Clone, Copy)]
struct RunOrder<'a> {
    alloc: Global,
    policy: &'a PolicyInContext,
    moment: u64,
}

// The policy from its text, with the classes of the calendar.
fn read_text(alloc: Global, number: u32, moment: u64) -> Result<PolicyInContext, Failure>
    requires { moment ≤ LAST_MOMENT }
    ensures { DemoRead number moment result }
{
    let name = Name::from_text(alloc, NAME)?;
    let mut source = OneText {
        name: Name::from_text(alloc, NAME)?,
        text: demo_policy(alloc, number)?,
    };
    let classes = Names::new(alloc);
    match prepare_policy(
        alloc,
        &name,
        &classes,
        moment,
        &mut source,
        &mut NoPatterns {},
    ) {
        Ok(policy) => Ok(policy),
        Err(Failure::Refused(line)) => Err(Failure::Refused(line)),
        Err(Failure::Stopped(stop)) => {
            drop(stop);
            Err(Failure::Stopped(Stop::Memory))
        }
    }
}

// What a stop within a run counts as, of which the site is all of the outside.
fn narrowed(stop: Stop) -> Stop
    ensures { result ≡ narrowed stop }
{
    match stop {
        Stop::Outside(Object::Site) => Stop::Outside(Object::Site),
        Stop::Visits => Stop::Visits,
        other => {
            drop(other);
            Stop::Memory
        }
    }
}

// Makes a run on a site that counts.
fn run_counting<S: Site>(site: S, order: RunOrder<'_>) -> (S, Result<CountedRun, Stop>)
    requires { order.moment ≤ LAST_MOMENT }
    ensures { RunOnce (setting_in order.entry.policy.now) order.entry.moment
        (S.shown site) (S.shown result.0) result.1 }
{
    counts_are_exact();
    let PolicyInContext { checked, context } = order.policy;
    let mut counting = CountingSite {
        site,
        entries: 0,
        changes: 0,
    };
    let ran = run(
        order.alloc,
        checked,
        context,
        order.moment,
        false,
        &mut counting,
        &mut Nowhere {},
        &mut NoPatterns {},
    );
    let CountingSite {
        site,
        entries,
        changes,
    } = counting;
    match ran {
        Ok(tally) => {
            let run = CountedRun {
                tally,
                entries,
                changes,
            };
            (site, Ok(run))
        }
        Err(stop) => (site, Err(narrowed(stop))),
    }
}

// Makes a run without locks on the world that it finds. Its lines are put nowhere.
fn run_once<S: Site>(
    alloc: Global,
    policy: &PolicyInContext,
    moment: u64,
    site: &mut S,
) -> Result<CountedRun, Stop>
    requires { moment ≤ LAST_MOMENT }
    ensures { RunOnce (setting_in policy.now) moment (S.shown site.old) (S.shown site.new) result }
{
    let order = RunOrder {
        alloc,
        policy,
        moment,
    };
    replace_with(site, order, run_counting)
}

// Puts the lines of two items.
fn put_lines<O: Sink>(alloc: Global, first: Item, second: Item, out: &mut O) -> Result<(), Stop>
    ensures { LinesPut (line_of first ++ line_of second)
        (O.shown out.old) (O.shown out.new) result }
{
    let mut text = String::new(alloc);
    append_line(alloc, &mut text, first)?;
    append_line(alloc, &mut text, second)?;
    put_all(out, text.as_bytes())?;
    Ok(())
}

// Puts the lines behind the second run.
fn tell_second<O: Sink>(
    alloc: Global,
    live: u32,
    second: &CountedRun,
    out: &mut O,
) -> Result<End, Stop>
    ensures { SecondIsTold live second.now (O.shown out.old) (O.shown out.new) result }
{
    let verdict = Some(Verdict::Accepted(live));
    let settled = settled_by(false, &second.tally, &verdict);
    drop(verdict);
    match put_lines(
        alloc,
        Item::Rerun(second.entries),
        Item::Settled(settled),
        out,
    ) {
        Ok(()) => Ok(end_of(&second.tally)),
        Err(stop) => Err(stop),
    }
}

// Makes the second run, and tells it.
fn run_again<S: Site, O: Sink>(
    alloc: Global,
    policy: &PolicyInContext,
    moment: u64,
    live: u32,
    site: &mut S,
    out: &mut O,
) -> Result<End, Stop>
    requires { moment ≤ LAST_MOMENT }
    ensures { RunsAgain (setting_in policy.now) moment live (S.shown site.old) (S.shown site.new)
        (O.shown out.old) (O.shown out.new) result }
{
    match run_once(alloc, policy, moment, site) {
        Ok(second) => tell_second(alloc, live, &second, out),
        Err(stop) => Err(stop),
    }
}

// Puts the lines behind the first run, and makes the second.
fn tell_first<S: Site, O: Sink>(
    alloc: Global,
    policy: &PolicyInContext,
    moment: u64,
    live: u32,
    first: &CountedRun,
    site: &mut S,
    out: &mut O,
) -> Result<End, Stop>
    requires { moment ≤ LAST_MOMENT }
    ensures { FirstIsTold (setting_in policy.now) moment live first.now
        (S.shown site.old) (S.shown site.new) (O.shown out.old) (O.shown out.new) result }
{
    let repaired = Item::DemoRepaired(first.tally.repaired);
    match put_lines(alloc, repaired, Item::Changes(first.changes), out) {
        Ok(()) => run_again(alloc, policy, moment, live, site, out),
        Err(stop) => Err(stop),
    }
}

// Makes the runs, and tells them.
fn run_twice<S: Site, O: Sink>(
    alloc: Global,
    policy: &PolicyInContext,
    moment: u64,
    live: u32,
    site: &mut S,
    out: &mut O,
) -> Result<End, Stop>
    requires { moment ≤ LAST_MOMENT }
    ensures { RunsTwice (AlwaysTells S.shown) (setting_in policy.now) moment live
        (S.shown site.old) (S.shown site.new) (O.shown out.old) (O.shown out.new) result }
{
    match run_once(alloc, policy, moment, site) {
        Ok(first) => tell_first(alloc, policy, moment, live, &first, site, out),
        Err(stop) => Err(stop),
    }
}

// Shows an accepted policy: puts its first lines, and makes the runs.
fn show_runs<S: Site, O: Sink>(
    alloc: Global,
    number: u32,
    live: u32,
    policy: &PolicyInContext,
    moment: u64,
    site: &mut S,
    out: &mut O,
) -> Result<End, Stop>
    requires { moment ≤ LAST_MOMENT }
    ensures { IsShown (AlwaysTells S.shown) (setting_in policy.now) number moment live
        (S.shown site.old) (S.shown site.new) (O.shown out.old) (O.shown out.new) result }
{
    let accepted = Item::Accepted(u64::from(live));
    match put_lines(alloc, Item::Demo(u64::from(number)), accepted, out) {
        Ok(()) => run_twice(alloc, policy, moment, live, site, out),
        Err(stop) => Err(stop),
    }
}

// The verdict on the policy. None where its analysis needs too many visits.
fn judge(alloc: Global, policy: &PolicyInContext) -> Result<Option<Verdict>, NoMemory>
    ensures { IfOk result (λ verdict. analysis_of (setting_in policy.now) ≡ verdict) }
{
    match analyse_policy(alloc, policy, &mut NoPatterns {}) {
        Ok(verdict) => Ok(verdict),
        Err(stop) => {
            drop(stop);
            Err(NoMemory)
        }
    }
}

// Analyses the policy, and shows it where it is accepted.
fn perform_demo<S: Site, O: Sink>(
    alloc: Global,
    number: u32,
    policy: &PolicyInContext,
    moment: u64,
    site: &mut S,
    out: &mut O,
) -> Result<End, Stop>
    requires { moment ≤ LAST_MOMENT }
    ensures { IsPerformed (AlwaysTells S.shown) (setting_in policy.now) number moment
        (S.shown site.old) (S.shown site.new) (O.shown out.old) (O.shown out.new) result }
{
    match judge(alloc, policy) {
        Ok(Some(Verdict::Accepted(live))) => {
            show_runs(alloc, number, live, policy, moment, site, out)
        }
        Ok(Some(Verdict::Conflict(conflict))) => {
            put_verdict(alloc, Verdict::Conflict(conflict), out)
        }
        Ok(None) => Err(Stop::Visits),
        Err(NoMemory) => Err(Stop::Memory),
    }
}

// A demo in time.
fn show_demo<S: Site, O: Sink>(
    alloc: Global,
    number: u32,
    moment: u64,
    site: &mut S,
    out: &mut O,
) -> u8
    requires { moment ≤ LAST_MOMENT }
    ensures { Demonstrates (AlwaysTells S.shown) number moment
        (S.shown site.old) (S.shown site.new) (O.shown out.old) (O.shown out.new) result }
{
    match read_text(alloc, number, moment) {
        Ok(policy) => {
            let done = perform_demo(alloc, number, &policy, moment, site, out);
            drop(policy);
            match done {
                Ok(end) => end_status(end),
                Err(stop) => {
                    let status = put_stop(&stop, out);
                    drop(stop);
                    status
                }
            }
        }
        Err(failure) => {
            let status = put_failure(&failure, out);
            drop(failure);
            status
        }
    }
}

/// Shows a demo of so many promises on the site: makes its policy, checks and analyses it, and runs it twice, with its lines
/// before, between and behind the runs. Answers the status of the process.
pub fn demonstrate<S: Site, O: Sink>(
    alloc: Global,
    number: u32,
    moment: u64,
    site: &mut S,
    out: &mut O,
) -> u8
    ensures { Demonstrates (AlwaysTells S.shown) number moment
        (S.shown site.old) (S.shown site.new) (O.shown out.old) (O.shown out.new) result }
{
    if moment > LAST_MOMENT {
        let failure = refusal(alloc, Item::MomentRefused);
        let status = put_failure(&failure, out);
        drop(failure);
        return status;
    }
    show_demo(alloc, number, moment, site, out)
}
