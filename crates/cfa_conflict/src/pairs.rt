// The first conflict of an instance by itself, and of two instances.
ghost use Rattle.std.specs.Prelude.{◌≡◌, [], All, IfOk, option_copied};
ghost use Rattle.cfa_acts.specs.Acts.{IsAct};
ghost use Rattle.cfa_states.specs.Tellers.{acts_of};
ghost use Rattle.cfa_conflict.specs.Conflicts.{has_acts, meeting, unsettled_conflict, restart_of, restarts_of, waits_for, unsure_at, undone, undone_by, undone_by_other, undone_by_later};
ghost use Rattle.cfa_conflict.specs.Targets.{first_of};

use crate::resources::{class_resource, resource_of};
use crate::{Cause, Conflict};
use cfa_acts::{Act, disturbs};
use cfa_base::{Name, NoMemory, PromiseId};
use cfa_resolve::{Instance, Work, copy_id};
use cfa_statuses::Status;
use cfa_walk::{Blame, Visit};
use std::alloc::Global;

/// Whether acts are what is asked for, however many.
pub(crate) fn has_acts(work: &Work) -> bool
    ensures { result ≡ has_acts work.now }
{
    matches!(work, Work::Acts(_))
}

/// The acts that are asked for.
pub(crate) fn acts_of(work: &Work) -> &[Act]
    ensures acts { result.now ≡ acts_of work.now }
    ensures facts { All IsAct result.now }
{
    match work {
        Work::Acts(acts) => acts.as_slice(),
        Work::Call(_, _) => &[],
        Work::Report(_) => &[],
    }
}

// A conflict of two promises in a resource.
fn meeting(
    alloc: Global,
    cause: Cause,
    first: &PromiseId,
    second: &PromiseId,
    resource: Name,
) -> Result<Conflict, NoMemory>
    ensures { IfOk result (λ conflict. conflict ≡ meeting cause first.now second.now resource) }
{
    let first = copy_id(alloc, first)?;
    let second = copy_id(alloc, second)?;
    Ok(Conflict {
        cause,
        first,
        second,
        resource,
    })
}

/// That of a promise that is unsettled.
pub(crate) fn unsettled_conflict(alloc: Global, blame: &Blame) -> Result<Conflict, NoMemory>
    ensures { IfOk result (λ conflict. conflict ≡ unsettled_conflict blame.now) }
{
    let resource = class_resource(alloc, &blame.class)?;
    meeting(
        alloc,
        Cause::Unsettled,
        &blame.source,
        &blame.promise,
        resource,
    )
}

fn restart_of(alloc: Global, instance: &Instance, act: &Act) -> Result<Option<Conflict>, NoMemory>
    ensures { IfOk result (λ found. found ≡ first_of (restart_of instance.now act.now)) }
{
    let Act::Restart(_) = act else {
        return Ok(None);
    };
    let (source, resource) = (&instance.source, resource_of(alloc, act)?);
    let conflict = meeting(alloc, Cause::Restarts, source, source, resource)?;
    Ok(Some(conflict))
}

/// The restart of an instance.
pub(crate) fn first_restart(
    alloc: Global,
    instance: &Instance,
) -> Result<Option<Conflict>, NoMemory>
    ensures { IfOk result (λ found. found ≡ first_of (restarts_of instance.now)) }
{
    let acts = acts_of(&instance.work);
    for act in acts {
        if let Some(found) = restart_of(alloc, instance, act)? {
            return Ok(Some(found));
        }
    }
    Ok(None)
}

fn waits_for(
    alloc: Global,
    instance: &Instance,
    blame: &Option<Blame>,
) -> Result<Option<Conflict>, NoMemory>
    ensures { IfOk result (λ found. found ≡ first_of (waits_for instance.now blame.now)) }
{
    let Some(blame) = blame else {
        return Ok(None);
    };
    let (source, resource) = (&instance.source, class_resource(alloc, &blame.class)?);
    let conflict = meeting(alloc, Cause::ComesAndGoes, &blame.source, source, resource)?;
    Ok(Some(conflict))
}

/// What the first visit of an instance waits for, where it may come or not.
pub(crate) fn unsure_at(
    alloc: Global,
    instance: &Instance,
    visit: Option<&Visit>,
) -> Result<Option<Conflict>, NoMemory>
    ensures { IfOk result (λ found.
        found ≡ first_of (unsure_at instance.now (option_copied visit.entry))) }
{
    let Some(visit) = visit else {
        return Ok(None);
    };
    match visit.status {
        Status::Maybe => waits_for(alloc, instance, &visit.blame),
        Status::No | Status::Yes => Ok(None),
    }
}

fn undone(
    alloc: Global,
    instance: &Instance,
    other: &Instance,
    act: &Act,
) -> Result<Conflict, NoMemory>
    ensures { IfOk result (λ conflict. conflict ≡ undone instance.now other.now act.now) }
{
    let resource = resource_of(alloc, act)?;
    meeting(
        alloc,
        Cause::Undoes,
        &instance.source,
        &other.source,
        resource,
    )
}

// The first of these acts that the later act disturbs.
fn undone_by(
    alloc: Global,
    instance: &Instance,
    other: &Instance,
    acts: &[Act],
    later: &Act,
) -> Result<Option<Conflict>, NoMemory>
    requires acts { All IsAct acts.now }
    requires later { IsAct later.now }
    ensures { IfOk result (λ found.
        found ≡ first_of (undone_by instance.now other.now acts.now later.now)) }
{
    for act in acts {
        if disturbs(alloc, later, act)? {
            return Ok(Some(undone(alloc, instance, other, act)?));
        }
    }
    Ok(None)
}

/// The first act of an instance that an act of the other one disturbs, by the other's acts and then by its own.
pub(crate) fn undone_by_other(
    alloc: Global,
    instance: &Instance,
    other: &Instance,
) -> Result<Option<Conflict>, NoMemory>
    ensures { IfOk result (λ found.
        found ≡ first_of (undone_by_other instance.now other.now)) }
{
    let (acts, others) = (acts_of(&instance.work), acts_of(&other.work));
    for later in others {
        if let Some(found) = undone_by(alloc, instance, other, acts, later)? {
            return Ok(Some(found));
        }
    }
    Ok(None)
}

/// The first act of an instance that a later one of it disturbs, by the later act and then by the earlier one.
pub(crate) fn undone_by_itself(
    alloc: Global,
    instance: &Instance,
) -> Result<Option<Conflict>, NoMemory>
    ensures { IfOk result (λ found.
        found ≡ first_of (undone_by_later instance.now [] (acts_of instance.now.work))) }
{
    let acts = acts_of(&instance.work);
    for (i, later) in acts.iter().enumerate() {
        if let Some(found) = undone_by(alloc, instance, instance, &acts[..i], later)? {
            return Ok(Some(found));
        }
    }
    Ok(None)
}
