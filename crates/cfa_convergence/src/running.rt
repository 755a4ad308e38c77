// A run of a policy, and what the verdict on it promises.
ghost use Rattle.std.specs.Prelude.{◌≡◌, ◌≤◌, ℕ, IfErr, IfOk, IsErrOf, OnOk, Some, false};
ghost use Rattle.cfa_states.specs.Levels.{IsTooLarge};
ghost use Rattle.cfa_walk.specs.Settings.{setting_of};
ghost use Rattle.cfa_agent.specs.Bracketed.{AllBracketed};
ghost use Rattle.cfa_agent.specs.Runs.{run_of};
ghost use Rattle.cfa_agent.specs.Ran.{added, started, CountsFaults, LimitAs, RunsAs, RunBuilds, IfBothTold, text_too_big, StopsRun, RunRefuses};
ghost use Rattle.cfa_conflict.specs.Analyses.{analysis_of};
ghost use Rattle.cfa_conflict.specs.declared.verdicts.Verdict as verdicts;
ghost use Rattle.cfa_convergence.specs.Settled.{Settles};

use crate::verdicts::accepted_runs_settle;
use cfa_agent::Tally;
use cfa_base::{LAST_MOMENT, Patterns};
use cfa_output::Stop;
use cfa_outside::{Sink, Site};
use cfa_schema::Checked;
use cfa_walk::Context;
use std::alloc::Global;

/// Runs a policy, as `cfa_agent` does. Where the policy is accepted, a run without locks that ends with no promise failed leaves a
/// world on which a rerun without locks and without a failed call changes nothing.
pub fn run<S: Site, O: Sink, P: Patterns>(
    alloc: Global,
    checked: &Checked,
    context: &Context,
    moment: u64,
    locks: bool,
    site: &mut S,
    out: &mut O,
    pats: &mut P,
) -> Result<Tally, Stop>
    requires { moment ≤ LAST_MOMENT }
    ensures ran { IfOk result (λ tally. IfBothTold (λ before after.
        RunsAs (setting_of checked.now context.now) (started moment locks before after) before after
        (O.shown out.old) (O.shown out.new) tally) (S.shown site.old) (S.shown site.new)) }
    ensures settles { IfOk result (λ tally. locks ≡ false → tally.failed ≡ 0 → (live : ℕ)
        → analysis_of (setting_of checked.now context.now) ≡ Some (verdicts.Verdict.Accepted live)
        → IfBothTold (λ before after. Settles (setting_of checked.now context.now) after.world)
        (S.shown site.old) (S.shown site.new)) }
    ensures bracketed { OnOk result (IfBothTold (λ before after.
        AllBracketed before.world (added before after)) (S.shown site.old) (S.shown site.new)) }
    ensures calm { OnOk result ((O.shown out.new).faults ≡ (O.shown out.old).faults) }
    ensures faults { IfOk result (λ tally. CountsFaults 0 tally.failed
        (S.shown site.old).faults (S.shown site.new).faults) }
    ensures too_large { IsErrOf result Stop.Visits → IfBothTold (λ before after. IsTooLarge
        (run_of (setting_of checked.now context.now) (started moment locks before after)))
        (S.shown site.old) (S.shown site.new) }
    // Then all before the promise with which it would have more was done and put, and nothing else.
    ensures limit { IsErrOf result Stop.Visits → IfBothTold (λ before after.
        LimitAs (setting_of checked.now context.now) (started moment locks before after)
        before after
        (O.shown out.old) (O.shown out.new)) (S.shown site.old) (S.shown site.new) }
    ensures stopped { IfErr result
        (StopsRun (S.shown site.old) (S.shown site.new) (O.shown out.old) (O.shown out.new)) }
    ensures patterns { RunRefuses (λ text. RunBuilds (setting_of checked.now context.now) moment
        locks
        (S.shown site.old) (S.shown site.new) (Some text)) result
        (P.shown pats.old) (P.shown pats.new) }
    ensures built { RunBuilds (setting_of checked.now context.now) moment locks
        (S.shown site.old) (S.shown site.new) (text_too_big result) }
{
    accepted_runs_settle(checked);
    cfa_agent::run(alloc, checked, context, moment, locks, site, out, pats)
}
