// The analysis of a policy.
ghost use Rattle.std.specs.Prelude.{◌≡◌, IfErr, IfOk, IsErrOf, Some, None};
ghost use Rattle.cfa_conflict.specs.Analyses.{analysis_of, RefusesBuilt, ConflictsMeet};
ghost use Rattle.cfa_walk.specs.Listed.{HasWalked, WalkPatterns};
ghost use Rattle.cfa_walk.specs.Settings.{setting_of};

use crate::{Verdict, judge};
use cfa_base::Patterns;
use cfa_schema::Checked;
use cfa_walk::{Context, Telling, Walk, WalkErr, walk};
use std::alloc::Global;

// The analysis, of which the walk where all is kept was made.
fn analyse_open<P: Patterns>(
    alloc: Global,
    checked: &Checked,
    context: &Context,
    kept: &Walk,
    pats: &mut P,
) -> Result<Verdict, WalkErr>
    requires { HasWalked (setting_of checked.now context.now) Telling.AllKept kept.now }
    ensures analysed { IfOk result (λ verdict.
        analysis_of (setting_of checked.now context.now) ≡ Some verdict) }
    ensures too_large { IsErrOf result WalkErr.TooLarge →
        analysis_of (setting_of checked.now context.now) ≡ None }
    ensures patterns { WalkPatterns result (P.shown pats.old) (P.shown pats.new) }
    ensures built { IfErr result (RefusesBuilt (setting_of checked.now context.now)) }
{
    let open = walk(alloc, checked, context, Telling::Open, pats)?;
    Ok(judge(alloc, kept, &open)?)
}

/// Analyses a policy in a context: walks it twice, and answers the first conflict between two of its promises, or that it is
/// accepted.
///
/// `TooLarge` comes exactly where one of the walks needs more visits than `MOST_VISITS`.
pub fn analyse<P: Patterns>(
    alloc: Global,
    checked: &Checked,
    context: &Context,
    pats: &mut P,
) -> Result<Verdict, WalkErr>
    ensures analysed { IfOk result (λ verdict.
        analysis_of (setting_of checked.now context.now) ≡ Some verdict) }
    ensures too_large { IsErrOf result WalkErr.TooLarge →
        analysis_of (setting_of checked.now context.now) ≡ None }
    ensures patterns { WalkPatterns result (P.shown pats.old) (P.shown pats.new) }
    ensures built { IfErr result (RefusesBuilt (setting_of checked.now context.now)) }
{
    let kept = walk(alloc, checked, context, Telling::AllKept, pats)?;
    analyse_open(alloc, checked, context, &kept, pats)
}

/// The promises of the first conflict meet in one of the resources that are told.
pub fn conflicts_meet_in_resources()
    ensures { ConflictsMeet }
{}
