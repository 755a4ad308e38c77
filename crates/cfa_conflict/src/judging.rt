// The verdict.
ghost use Rattle.std.specs.Prelude.{◌≡◌, ◌<◌, ◌++◌, false, IfOk, length, vec_len};
ghost use Rattle.cfa_conflict.specs.Conflicts.{restarts_of, first_visit, unsure_at, undone_in, undone_from, conflicts_from, verdict_of};
ghost use Rattle.cfa_states.specs.Names.{names_of};
ghost use Rattle.cfa_states.specs.declared.walks.Walk.{Walk as AnyWalk};
ghost use Rattle.cfa_conflict.specs.Targets.{first_of, HasRows, HaveLikes, IsAt, IsNeverUndone};

use crate::live::{is_live, live_instances};
use crate::numbers::VisitIndex;
use crate::pairs::{
    acts_of, first_restart, undone_by_itself, undone_by_other, unsettled_conflict, unsure_at,
};
use crate::targets::{distinct_of, places_sought, targets_of};
use crate::text_places::TextPlaces;
use crate::{Conflict, Verdict};
use cfa_base::{NoMemory, PairIndex};
use cfa_resolve::Instance;
use cfa_walk::{Walk, names_of};
use std::alloc::Global;

// An instance of a walk with its place.
#[derive(Clone, Copy)]
struct Placed<'a> {
    instance: &'a Instance,
    place: usize,
}

// The open walk, with what is looked up in it.
#[derive(Drop)]
struct Open<'a> {
    instances: &'a [Instance],
    visits: VisitIndex<'a>,
    // The targets of their acts.
    targets: TextPlaces<'a>,
    // Of instances with the same acts on one target the first alone.
    distinct: TextPlaces<'a>,
    ghost each_placed: { vec_len visits.firsts ≡ length instances.now },
    ghost each_aimed: { HasRows targets instances.now },
    ghost each_like: { HaveLikes instances.now targets distinct },
}

// The first of what the other instance undoes of this one.
fn undone_in(
    alloc: Global,
    visits: &VisitIndex<'_>,
    one: Placed<'_>,
    other: Placed<'_>,
) -> Result<Option<Conflict>, NoMemory>
    requires place { one.place < vec_len visits.now.firsts }
    requires other { other.place < vec_len visits.now.firsts }
    ensures { IfOk result (λ found. found ≡ first_of (undone_in visits.now.visits.now
        one.entry.instance.now one.entry.place other.entry.instance.now other.entry.place)) }
{
    if one.place == other.place {
        return undone_by_itself(alloc, one.instance);
    }
    if visits.is_visited_after(one.place, other.place) {
        return undone_by_other(alloc, one.instance, other.instance);
    }
    Ok(None)
}

// Whether an act of any instance may disturb one of this one, whichever is visited first. Of instances with the same acts one is
// looked at.
fn may_be_undone(alloc: Global, all: &Open<'_>, one: &Instance) -> Result<bool, NoMemory>
    ensures { IfOk result (λ may. may ≡ false
        → IsNeverUndone one.now all.now.instances.now) }
{
    let places = places_sought(alloc, &all.distinct, acts_of(&one.work))?;
    for place in &places {
        let Some(other) = all.instances.get(*place) else {
            continue;
        };
        if undone_by_other(alloc, one, other)?.is_some() {
            return Ok(true);
        }
    }
    Ok(false)
}

// The first of what any instance undoes of this one. The other ones are looked for by the paths and services of its acts, and
// each of them is looked at once, where an act of them may disturb one of this one at all.
fn first_undone(
    alloc: Global,
    all: &Open<'_>,
    one: Placed<'_>,
) -> Result<Option<Conflict>, NoMemory>
    requires place { one.place < length all.now.instances.now }
    requires instance { IsAt all.now.instances.now one.place one.instance.now }
    ensures { IfOk result (λ found. found ≡ first_of (undone_from all.now.visits.visits.now
        one.entry.instance.now one.entry.place all.now.instances.now 0)) }
{
    if !may_be_undone(alloc, all, one.instance)? {
        return Ok(None);
    }
    let places = places_sought(alloc, &all.targets, acts_of(&one.instance.work))?;
    for place in &places {
        let Some(instance) = all.instances.get(*place) else {
            continue;
        };
        let other = Placed {
            instance,
            place: *place,
        };
        if let Some(found) = undone_in(alloc, &all.visits, one, other)? {
            return Ok(Some(found));
        }
    }
    Ok(None)
}

// The first conflict of a live instance.
fn first_at(alloc: Global, all: &Open<'_>, one: Placed<'_>) -> Result<Option<Conflict>, NoMemory>
    requires place { one.place < length all.now.instances.now }
    requires instance { IsAt all.now.instances.now one.place one.instance.now }
    ensures { IfOk result (λ found. found ≡ first_of (restarts_of one.entry.instance.now
        ++ (unsure_at one.entry.instance.now
        (first_visit all.now.visits.visits.now one.entry.place)
        ++ undone_from all.now.visits.visits.now one.entry.instance.now one.entry.place
        all.now.instances.now 0))) }
{
    if let Some(found) = first_restart(alloc, one.instance)? {
        return Ok(Some(found));
    }
    let first_visit = all.visits.first_visit(one.place);
    if let Some(found) = unsure_at(alloc, one.instance, first_visit)? {
        return Ok(Some(found));
    }
    first_undone(alloc, all, one)
}

// The open walk, with what is looked up in it.
fn opened(alloc: Global, walk: &Walk) -> Result<Open<'_>, NoMemory>
    ensures visits { IfOk result (λ all. all.visits.visits.now ≡ walk.entry.now.visits) }
    ensures instances { IfOk result (λ all. all.instances.now ≡ walk.entry.now.instances) }
{
    let instances = walk.instances.as_slice();
    let targets = targets_of(alloc, instances)?;
    let distinct = distinct_of(alloc, instances, &targets)?;
    let visits = VisitIndex::new(alloc, walk.visits.as_slice(), instances.len())?;
    Ok(Open {
        instances,
        visits,
        targets,
        distinct,
    })
}

// The first conflict of the instances that have one of these names.
fn first_live(
    alloc: Global,
    names: &PairIndex<'_>,
    all: &Open<'_>,
) -> Result<Option<Conflict>, NoMemory>
    ensures { IfOk result (λ found. (kept walk : AnyWalk) → names.now ≡ names_of kept.instances
        → all.now.visits.visits.now ≡ walk.visits → all.now.instances.now ≡ walk.instances
        → found ≡ first_of (conflicts_from kept walk walk.instances 0)) }
{
    let instances = all.instances;
    for (place, instance) in instances.iter().enumerate() {
        if is_live(names, instance) {
            let one = Placed { instance, place };
            if let Some(found) = first_at(alloc, all, one)? {
                return Ok(Some(found));
            }
        }
    }
    Ok(None)
}

// The first conflict of the live instances.
fn first_conflict(alloc: Global, kept: &Walk, open: &Walk) -> Result<Option<Conflict>, NoMemory>
    ensures { IfOk result (λ found.
        found ≡ first_of (conflicts_from kept.now «open».now «open».now.instances 0)) }
{
    let names = names_of(alloc, kept.instances.as_slice())?;
    let all = opened(alloc, open)?;
    let found = first_live(alloc, &names, &all);
    drop(all);
    found
}

/// The verdict by the walk where all is kept and the open walk. It costs as much as both walks list, with a logarithm, where the acts
/// of instances are on different paths and services, or are the same. Of the instances with an act on a path or service of a live
/// instance, on the source of a copy, or at or beneath a path that it deletes, those with different acts are looked at; and all of
/// them only where an act among these may disturb it. So many instances with different acts on one path, or with edits there, cost as
/// many pairs. A deletion looks through all targets that begin with the text of its path.
pub fn judge(alloc: Global, kept: &Walk, open: &Walk) -> Result<Verdict, NoMemory>
    ensures { IfOk result (λ verdict. verdict ≡ verdict_of kept.now «open».now) }
{
    if let Some(blame) = open.unsettled.as_slice().first() {
        return Ok(Verdict::Conflict(unsettled_conflict(alloc, blame)?));
    }
    match first_conflict(alloc, kept, open)? {
        Some(conflict) => Ok(Verdict::Conflict(conflict)),
        None => Ok(Verdict::Accepted(live_instances(kept)?)),
    }
}
