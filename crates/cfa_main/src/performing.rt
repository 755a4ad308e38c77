// The second phase of a call: its work is done. The inputs aren't touched.
ghost use Rattle.std.specs.Prelude.{◌≡◌, ◌≤◌, true, IfOk};
ghost use Rattle.cfa_conflict.specs.Analyses.{analysis_of};
ghost use Rattle.cfa_output.specs.Lines.{line_of};
ghost use Rattle.cfa_main.specs.Calls.{end_by, settled_by, settled_by_verdict, verdict_line, verdict_end};
ghost use Rattle.cfa_main.specs.Stages.{setting_in, Analysed, VerdictPut, PolicyJudged, RunPerformed, PolicyRan, TextPut, Performed};

use crate::ends::End;
use crate::searching::search_policy;
use crate::work::{PolicyInContext, PolicyRun, Work};
use cfa_agent::Tally;
use cfa_base::{LAST_MOMENT, Name, NoMemory, Patterns};
use cfa_conflict::{Conflict, Verdict, analyse};
use cfa_convergence::run;
use cfa_output::{End as SettledEnd, Item, Stop, line_of, put_all};
use cfa_outside::{Sink, Site};
use cfa_walk::WalkErr;
use std::alloc::Global;

/// The verdict on a policy. None where its analysis needs too many visits.
pub fn analyse_policy<P: Patterns>(
    alloc: Global,
    policy: &PolicyInContext,
    pats: &mut P,
) -> Result<Option<Verdict>, Stop>
    ensures { Analysed (setting_in policy.now) (P.shown pats.old) (P.shown pats.new) result }
{
    match analyse(alloc, &policy.checked, &policy.context, pats) {
        Ok(verdict) => Ok(Some(verdict)),
        Err(WalkErr::TooLarge) => Ok(None),
        Err(WalkErr::PatternTooBig(text)) => Err(Stop::Pattern(text)),
        Err(WalkErr::NoMemory) => Err(Stop::Memory),
    }
}

// What the line of a verdict tells.
fn verdict_item(alloc: Global, verdict: Verdict) -> Result<Item, NoMemory>
    ensures { IfOk result (λ item. line_of item ≡ verdict_line verdict) }
{
    match verdict {
        Verdict::Accepted(live) => Ok(Item::Accepted(u64::from(live))),
        Verdict::Conflict(conflict) => {
            let Conflict {
                cause,
                first,
                second,
                resource,
            } = conflict;
            let code = Name::from_text(alloc, cause.code())?;
            Ok(Item::Conflict(code, first, second, resource))
        }
    }
}

// How a call ends that tells this verdict.
fn verdict_end(verdict: &Verdict) -> End
    ensures { result ≡ verdict_end verdict.now }
{
    match verdict {
        Verdict::Accepted(_) => End::Ended,
        Verdict::Conflict(_) => End::InConflict,
    }
}

/// Puts the line of a verdict.
pub fn put_verdict<O: Sink>(alloc: Global, verdict: Verdict, out: &mut O) -> Result<End, Stop>
    ensures { VerdictPut verdict (O.shown out.old) (O.shown out.new) result }
{
    let end = verdict_end(&verdict);
    let text = line_of(alloc, verdict_item(alloc, verdict)?)?;
    put_all(out, text.as_str().as_bytes())?;
    Ok(end)
}

// Judges a policy: puts the line of its verdict.
fn judge_policy<O: Sink, P: Patterns>(
    alloc: Global,
    policy: &PolicyInContext,
    out: &mut O,
    pats: &mut P,
) -> Result<End, Stop>
    ensures { PolicyJudged (setting_in policy.now) (O.shown out.old) (O.shown out.new)
        (P.shown pats.old) (P.shown pats.new) result }
{
    match analyse_policy(alloc, policy, pats)? {
        Some(verdict) => put_verdict(alloc, verdict, out),
        None => Err(Stop::Visits),
    }
}

/// A promise failed where one is counted as failed.
pub fn end_of(tally: &Tally) -> End
    ensures { result ≡ end_by tally.now.failed }
{
    if 0 < tally.failed {
        End::PromiseFailed
    } else {
        End::Ended
    }
}

// Whether the world is settled, by the verdict alone.
fn settled_by_verdict(verdict: &Option<Verdict>) -> SettledEnd
    ensures { result ≡ settled_by_verdict verdict.now }
{
    match verdict {
        Some(Verdict::Accepted(_)) => SettledEnd::Yes,
        Some(Verdict::Conflict(_)) => SettledEnd::Conflict,
        None => SettledEnd::Limit,
    }
}

/// Whether the world that a run left is settled, or the first cause for which it isn't known to be.
pub fn settled_by(locks: bool, tally: &Tally, verdict: &Option<Verdict>) -> SettledEnd
    ensures { result ≡ settled_by locks tally.now.failed verdict.now }
{
    if locks {
        SettledEnd::Locks
    } else if 0 < tally.failed {
        SettledEnd::Failed
    } else {
        settled_by_verdict(verdict)
    }
}

// Makes the run of a policy with this verdict, and tells whether the world that it left is settled.
fn make_run<S: Site, O: Sink, P: Patterns>(
    alloc: Global,
    order: &PolicyRun,
    moment: u64,
    verdict: &Option<Verdict>,
    site: &mut S,
    out: &mut O,
    pats: &mut P,
) -> Result<End, Stop>
    requires moment { moment ≤ LAST_MOMENT }
    requires verdict { analysis_of (setting_in order.now.policy) ≡ verdict.now }
    ensures { RunPerformed (setting_in order.now.policy) moment order.now.locks
        (S.shown site.old) (S.shown site.new) (O.shown out.old) (O.shown out.new)
        (P.shown pats.old) (P.shown pats.new) result }
{
    let PolicyInContext { checked, context } = &order.policy;
    let locks = order.locks;
    let tally = run(alloc, checked, context, moment, locks, site, out, pats)?;
    let settled = settled_by(locks, &tally, verdict);
    put_all(out, settled.line().as_bytes())?;
    Ok(end_of(&tally))
}

// Runs a policy strictly: where it is accepted. Else its conflict is told.
fn run_strictly<S: Site, O: Sink, P: Patterns>(
    alloc: Global,
    order: &PolicyRun,
    moment: u64,
    verdict: Option<Verdict>,
    site: &mut S,
    out: &mut O,
    pats: &mut P,
) -> Result<End, Stop>
    requires moment { moment ≤ LAST_MOMENT }
    requires verdict { analysis_of (setting_in order.now.policy) ≡ verdict }
    requires strict { order.now.strict ≡ true }
    ensures { PolicyRan (setting_in order.now.policy) moment order.now.locks order.now.strict
        (S.shown site.old) (S.shown site.new) (O.shown out.old) (O.shown out.new)
        (P.shown pats.old) (P.shown pats.new) result }
{
    match verdict {
        Some(Verdict::Accepted(live)) => {
            let accepted = Some(Verdict::Accepted(live));
            let ran = make_run(alloc, order, moment, &accepted, site, out, pats);
            drop(accepted);
            ran
        }
        Some(Verdict::Conflict(conflict)) => {
            put_verdict(alloc, Verdict::Conflict(conflict), out)
        }
        None => Err(Stop::Visits),
    }
}

// Runs a policy. It is analysed before anything is done.
fn run_policy<S: Site, O: Sink, P: Patterns>(
    alloc: Global,
    order: &PolicyRun,
    moment: u64,
    site: &mut S,
    out: &mut O,
    pats: &mut P,
) -> Result<End, Stop>
    requires { moment ≤ LAST_MOMENT }
    ensures { PolicyRan (setting_in order.now.policy) moment order.now.locks order.now.strict
        (S.shown site.old) (S.shown site.new) (O.shown out.old) (O.shown out.new)
        (P.shown pats.old) (P.shown pats.new) result }
{
    let verdict = analyse_policy(alloc, &order.policy, pats)?;
    if order.strict {
        return run_strictly(alloc, order, moment, verdict, site, out, pats);
    }
    let ran = make_run(alloc, order, moment, &verdict, site, out, pats);
    drop(verdict);
    ran
}

// Puts a text.
fn put_text<O: Sink>(text: &str, out: &mut O) -> Result<End, Stop>
    ensures { TextPut text.now (O.shown out.old) (O.shown out.new) result }
{
    put_all(out, text.as_bytes())?;
    Ok(End::Ended)
}

/// Does the work of a call.
pub fn perform<S: Site, O: Sink, P: Patterns>(
    alloc: Global,
    work: &Work,
    moment: u64,
    site: &mut S,
    out: &mut O,
    pats: &mut P,
) -> Result<End, Stop>
    requires { moment ≤ LAST_MOMENT }
    ensures { Performed work.now moment (S.shown site.old) (S.shown site.new)
        (O.shown out.old) (O.shown out.new) (P.shown pats.old) (P.shown pats.new) result }
{
    match work {
        Work::Run(order) => run_policy(alloc, order, moment, site, out, pats),
        Work::Judge(policy) => judge_policy(alloc, policy, out, pats),
        Work::Search(policy) => search_policy(alloc, policy, out, pats),
        Work::Show(text) => put_text(text.as_str(), out),
    }
}
