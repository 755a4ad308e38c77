// What promises resolve to.
ghost use Rattle.std.specs.Prelude.{◌≡◌, ◌∷◌, [], ◌≤◌, ◌<◌, Some, IfOk, IfSome, IsErrOf, IsTrue, ◌↔◌, length};
ghost use Rattle.cfa_base.specs.Patterns.{SizeRefusal};
ghost use Rattle.cfa_statuses.specs.Raised.{status_in};
ghost use Rattle.cfa_served.specs.Checked.{typed_promise_of};
ghost use Rattle.cfa_schema.specs.Seen.{tree_of};
ghost use Rattle.cfa_vars.specs.Scopes.{in_scope};
ghost use Rattle.cfa_acts.specs.Acts.{IsOwn};
ghost use Rattle.cfa_defines.specs.OwnTexts.{choices_found};
ghost use Rattle.cfa_scripts.specs.EditPromises.{at_least_one};
ghost use Rattle.cfa_resolve.specs.Instances.{bust_instance};
ghost use Rattle.cfa_resolve.specs.Resolution.{resolved_among, resolved_as, resolution, is_acting, IsActing, resolution_of, IsBuiltAmong, IsBuiltFor};
ghost use Rattle.cfa_resolve.specs.OfTheCode.{seen_reached};
ghost use Rattle.cfa_resolve.specs.Viewed.{reached_in, too_big_in, IsBuiltAt};

use crate::combinations::make_all;
use crate::making::bust_instance;
use crate::reached::Reached;
use crate::{FoundPromise, ResolveErr, Resolved, View};
use cfa_acts::Reason;
use cfa_base::{Name, Names, NoMemory, Parts, Patterns, PromiseId};
use cfa_defines::{Combined, combine, own_reads};
use cfa_kinds::PromiseType;
use cfa_schema::Checked;
use cfa_scripts::count_combined;
use cfa_vars::Choice;
use std::alloc::Global;

fn one_instance(
    alloc: Global,
    reached: &Reached<'_>,
    reason: Reason,
    visits: u64,
) -> Result<Resolved, NoMemory>
    requires { IsOwn reason }
    ensures { IfOk result (λ r. r ≡ record {
      instances = bust_instance (seen_reached reached.now) reason ∷ [];
      unresolved = [];
      unsettled = [];
      visits = visits;
    }) }
{
    let mut instances = Vec::new(alloc);
    instances.push(bust_instance(alloc, reached, reason)?)?;
    Ok(Resolved {
        instances: Parts::from_vec(instances),
        unresolved: Names::new(alloc),
        unsettled: Parts::from_vec(Vec::new(alloc)),
        visits,
    })
}

fn one_name(alloc: Global, name: Name) -> Result<Resolved, NoMemory>
    ensures { IfOk result (λ r. r ≡ record {
      instances = [];
      unresolved = name ∷ [];
      unsettled = [];
      visits = 1;
    }) }
{
    let mut unresolved = Names::new(alloc);
    unresolved.push(name)?;
    Ok(Resolved {
        instances: Parts::from_vec(Vec::new(alloc)),
        unresolved,
        unsettled: Parts::from_vec(Vec::new(alloc)),
        visits: 1,
    })
}

fn resolved_choices<P: Patterns>(
    alloc: Global,
    reached: &Reached<'_>,
    choices: &[Choice],
    left: u64,
    pats: &mut P,
) -> Result<Resolved, ResolveErr>
    requires { at_least_one (length choices.now) ≤ left }
    ensures resolved { IfOk result
        (λ r. r ≡ resolved_among (seen_reached reached.now) choices.now) }
    ensures within { IfOk result (λ r. r.visits ≤ left) }
    ensures too_large { IsErrOf result ResolveErr.TooLarge →
        left < (resolved_among (seen_reached reached.now) choices.now).visits }
    ensures sizes { SizeRefusal (IsBuiltAmong (seen_reached reached.now) choices.now)
        (too_big_in result) (P.shown pats.old) (P.shown pats.new) }
{
    let own = if choices.is_empty() {
        1
    } else {
        choices.len() as u64
    };
    let all = make_all(alloc, reached, choices, left - own, pats)?;
    Ok(Resolved {
        instances: Parts::from_vec(all.instances),
        unresolved: all.names,
        unsettled: all.unsettled,
        visits: own + all.visits,
    })
}

fn resolved_as<P: Patterns>(
    alloc: Global,
    reached: &Reached<'_>,
    combined: Combined,
    left: u64,
    pats: &mut P,
) -> Result<Resolved, ResolveErr>
    ensures resolved { IfOk result (λ r. r ≡ resolved_as (seen_reached reached.now) combined) }
    ensures within { IfOk result (λ r. r.visits ≤ left) }
    ensures too_large { IsErrOf result ResolveErr.TooLarge →
        left < (resolved_as (seen_reached reached.now) combined).visits }
    ensures sizes { SizeRefusal (IsBuiltAmong (seen_reached reached.now) (choices_found combined))
        (too_big_in result) (P.shown pats.old) (P.shown pats.new) }
{
    let visits = count_combined(&combined);
    if visits > left {
        return Err(ResolveErr::TooLarge);
    }
    match combined {
        Combined::Lacks(name) => Ok(one_name(alloc, name)?),
        Combined::TooMany => Ok(one_instance(alloc, reached, Reason::TooMany, 1)?),
        Combined::TooLong(_) => Ok(one_instance(alloc, reached, Reason::TooLong, visits)?),
        Combined::Found(choices) => {
            resolved_choices(alloc, reached, choices.as_slice(), left, pats)
        }
    }
}

// What a promise resolves to, where it counts no more visits than are left.
#[tactic(auto, unfolding(crate::specs::Resolution::resolution))]
fn resolution<P: Patterns>(
    alloc: Global,
    reached: &Reached<'_>,
    left: u64,
    pats: &mut P,
) -> Result<Resolved, ResolveErr>
    ensures resolved { IfOk result (λ r. r ≡ resolution (seen_reached reached.now)) }
    ensures within { IfOk result (λ r. r.visits ≤ left) }
    ensures too_large { IsErrOf result ResolveErr.TooLarge →
        left < (resolution (seen_reached reached.now)).visits }
    ensures sizes { SizeRefusal (IsBuiltFor (seen_reached reached.now))
        (too_big_in result) (P.shown pats.old) (P.shown pats.new) }
{
    let reads = own_reads(alloc, reached.promise_type, reached.promise)?;
    let combined = combine(alloc, reads, &reached.scopes)?;
    resolved_as(alloc, reached, combined, left, pats)
}

fn has_instances(promise_type: PromiseType) -> bool
    ensures { result ≡ is_acting promise_type }
{
    matches!(
        promise_type,
        PromiseType::Files | PromiseType::Methods | PromiseType::Services | PromiseType::Reports
    )
}

/// Whether an id names a promise that `resolve` takes, without taking memory: one of files, methods, services or reports.
pub fn is_acting(checked: &Checked, promise: &PromiseId) -> bool
    ensures { IsTrue result ↔ IsActing (typed_promise_of (tree_of checked.now) promise.now) }
{
    match checked.typed_promise(promise) {
        None => false,
        Some((promise_type, _)) => has_instances(promise_type),
    }
}

/// What a promise of a policy resolves to, as `resolve` says. It is handed with its id and its type, so that it needn't be
/// looked up.
pub fn resolve_promise<P: Patterns>(
    alloc: Global,
    checked: &Checked,
    found: &FoundPromise<'_>,
    view: &View<'_>,
    left: u64,
    pats: &mut P,
) -> Result<Resolved, ResolveErr>
    requires { IsTrue (is_acting found.now.promise_type) }
    ensures resolved { IfOk result (λ r. r
        ≡ resolution (reached_in (tree_of checked.now) found.now view.now)) }
    ensures within { IfOk result (λ r. r.visits ≤ left) }
    ensures too_large { IsErrOf result ResolveErr.TooLarge →
        left < (resolution (reached_in (tree_of checked.now) found.now view.now)).visits }
    ensures sizes { SizeRefusal (IsBuiltFor (reached_in (tree_of checked.now) found.now view.now))
        (too_big_in result) (P.shown pats.old) (P.shown pats.new) }
{
    let reached = Reached {
        checked,
        id: found.id,
        promise_type: found.promise_type,
        promise: found.promise,
        scopes: view.scopes,
        statuses: view.statuses,
        path: view.path,
    };
    resolution(alloc, &reached, left, pats)
}

/// What a promise resolves to in a view: an instance for each combination of the items of the lists that its own texts
/// refer to, in their order, but for those in which something that a body says is unresolved; the names that kept
/// something from being made; and how many visits it counts. The edit bundle that a files promise calls is walked once for
/// each combination, also where a body is unresolved or the path is wrong: it gives the script, the promises whose guards may
/// hold or not, and visits of its own.
///
/// The promise is one of files, methods, services or reports. Its guard isn't read. `TooLarge` comes exactly where it counts
/// more visits than are left, and `PatternTooBig` only where a pattern of its edit bundle was refused so. The time is near to
/// linear in what its instances, bodies and edit bundles say in their combinations, besides a logarithm of the bodies of the
/// policy for each body.
#[tactic(auto, unfolding(crate::specs::Resolution::resolution_of))]
pub fn resolve<P: Patterns>(
    alloc: Global,
    checked: &Checked,
    promise: &PromiseId,
    view: &View<'_>,
    left: u64,
    pats: &mut P,
) -> Result<Resolved, ResolveErr>
    requires { IsActing (typed_promise_of (tree_of checked.now) promise.now) }
    ensures resolved { IfOk result (λ r. resolution_of (tree_of checked.now) promise.now
        (in_scope view.now.scopes) (status_in view.now.statuses.now) view.now.path.now ≡ Some r) }
    ensures within { IfOk result (λ r. r.visits ≤ left) }
    ensures too_large { IsErrOf result ResolveErr.TooLarge →
        IfSome (resolution_of (tree_of checked.now) promise.now
        (in_scope view.now.scopes) (status_in view.now.statuses.now) view.now.path.now)
        (λ r. left < r.visits) }
    ensures sizes { SizeRefusal (IsBuiltAt (tree_of checked.now) promise.now view.now)
        (too_big_in result) (P.shown pats.old) (P.shown pats.new) }
{
    let (promise_type, found) = checked.typed_promise(promise).unwrap();
    let found = FoundPromise {
        id: promise,
        promise_type,
        promise: found,
    };
    resolve_promise(alloc, checked, &found, view, left, pats)
}
