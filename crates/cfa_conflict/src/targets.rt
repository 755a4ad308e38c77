// Where the acts are that can disturb an act.
ghost use Rattle.std.specs.Prelude.{◌≡◌, ◌++◌, ℕ, true, false, IfOk, OnOk, nat_eq, option_copied};
ghost use Rattle.std.specs.List.{flat_map, list_any};
ghost use Rattle.std.specs.List.Sorted.{IsNonDecreasing};
ghost use Rattle.cfa_conflict.specs.Targets.{places_of, seen_rows, target_of, rows_of, rows_from, sought, acts_at, is_like, HasRows, HaveLikes};

use crate::pairs::acts_of;
use crate::text_places::TextPlaces;
use cfa_acts::{Act, are_same_acts};
use cfa_base::NoMemory;
use cfa_resolve::Instance;
use std::alloc::Global;

// The path or the service that an act changes.
fn target_of(act: &Act) -> Option<&str>
    ensures { option_copied result ≡ target_of act.now }
{
    match act {
        Act::Create(path)
        | Act::MakeDir(path)
        | Act::Delete(path, _)
        | Act::Content(path, _)
        | Act::Copy(_, path)
        | Act::Edit(path, _)
        | Act::Perms(path, _, _, _) => Some(path.text().as_str()),
        Act::Start(name)
        | Act::Stop(name)
        | Act::Enable(name)
        | Act::Disable(name)
        | Act::Restart(name) => Some(name.as_str()),
        Act::Bust(_) => None,
    }
}

// Adds the targets of the acts of an instance.
fn add_targets<'a>(
    place: usize,
    acts: &'a [Act],
    rows: &mut Vec<(&'a str, usize)>,
) -> Result<(), NoMemory>
    ensures { OnOk result (seen_rows rows.new.items
        ≡ seen_rows rows.old.items ++ rows_of place acts.entry.now) }
{
    for act in acts {
        if let Some(target) = target_of(act) {
            rows.push((target, place))?;
        }
    }
    Ok(())
}

// Adds those of all instances.
fn add_all_targets<'a>(
    instances: &'a [Instance],
    rows: &mut Vec<(&'a str, usize)>,
) -> Result<(), NoMemory>
    ensures { OnOk result (seen_rows rows.new.items
        ≡ seen_rows rows.old.items ++ rows_from instances.entry.now 0) }
{
    for (place, instance) in instances.iter().enumerate() {
        add_targets(place, acts_of(&instance.work), rows)?;
    }
    Ok(())
}

/// The targets of the acts of instances, each with the place of its instance.
pub(crate) fn targets_of<'a>(
    alloc: Global,
    instances: &'a [Instance],
) -> Result<TextPlaces<'a>, NoMemory>
    ensures { IfOk result (λ targets. HasRows targets instances.entry.now) }
{
    let mut rows = Vec::new(alloc);
    add_all_targets(instances, &mut rows)?;
    TextPlaces::from_rows(rows)
}

fn acts_at(instances: &[Instance], place: usize) -> &[Act]
    ensures { result.now ≡ acts_at instances.now place }
{
    match instances.get(place) {
        Some(instance) => acts_of(&instance.work),
        None => &[],
    }
}

// Whether one of the last rows, as far as they have this target, is of an instance with the same acts as the one at this place.
fn has_like(instances: &[Instance], rows: &[(&str, usize)], target: &str, place: usize) -> bool
    ensures { result ≡ true
        → list_any (is_like instances.now target.now place) (seen_rows rows.now) ≡ true }
{
    let acts = acts_at(instances, place);
    for i in (0..rows.len()).rev() {
        let (text, other) = rows[i];
        if target != text {
            return false;
        }
        if are_same_acts(acts_at(instances, other), acts) {
            return true;
        }
    }
    false
}

// Adds those rows before which none stands that has the same target and is of an instance with the same acts. Those of a target
// stand together.
fn add_distinct<'a>(
    instances: &[Instance],
    rows: &[(&'a str, usize)],
    likes: &mut Vec<(&'a str, usize)>,
) -> Result<(), NoMemory>
    ensures { OnOk result
        (HaveLikes instances.now (seen_rows rows.now) (seen_rows likes.new.items)) }
{
    for (target, place) in rows {
        if !has_like(instances, likes.as_slice(), target, *place) {
            likes.push((*target, *place))?;
        }
    }
    Ok(())
}

/// Of the targets of instances with the same acts on one target the first alone.
pub(crate) fn distinct_of<'a>(
    alloc: Global,
    instances: &[Instance],
    targets: &TextPlaces<'a>,
) -> Result<TextPlaces<'a>, NoMemory>
    ensures { IfOk result (λ likes. HaveLikes instances.now targets.now likes) }
{
    let mut likes = Vec::new(alloc);
    add_distinct(instances, targets.rows(), &mut likes)?;
    TextPlaces::from_rows(likes)
}

// The places of the source of a copy and of what it makes.
fn add_both(
    targets: &TextPlaces<'_>,
    source: &str,
    path: &str,
    places: &mut Vec<usize>,
) -> Result<(), NoMemory>
    ensures { OnOk result (places.new.items ≡ places.old.items
        ++ (places_of targets.now source.now false ++ places_of targets.now path.now false)) }
{
    targets.add_places(source, false, places)?;
    targets.add_places(path, false, places)
}

fn add_sought(targets: &TextPlaces<'_>, act: &Act, places: &mut Vec<usize>) -> Result<(), NoMemory>
    ensures { OnOk result
        (places.new.items ≡ places.old.items ++ sought targets.now act.now) }
{
    match act {
        Act::Delete(path, _) => targets.add_places(path.text().as_str(), true, places),
        Act::Create(path)
        | Act::MakeDir(path)
        | Act::Content(path, _)
        | Act::Edit(path, _)
        | Act::Perms(path, _, _, _) => targets.add_places(path.text().as_str(), false, places),
        Act::Copy(source, path) => {
            add_both(
                targets,
                source.text().as_str(),
                path.text().as_str(),
                places,
            )
        }
        Act::Start(name) | Act::Stop(name) | Act::Enable(name) | Act::Disable(name) => {
            targets.add_places(name.as_str(), false, places)
        }
        Act::Restart(_) | Act::Bust(_) => Ok(()),
    }
}

/// The places of the acts that can disturb one of these, in their order and each once.
pub(crate) fn places_sought(
    alloc: Global,
    targets: &TextPlaces<'_>,
    acts: &[Act],
) -> Result<Vec<usize>, NoMemory>
    ensures places { IfOk result (λ places. (place : ℕ)
        → list_any (nat_eq place) places.items
        ≡ list_any (nat_eq place) (flat_map (sought targets.now) acts.now)) }
    ensures order { IfOk result (λ places. IsNonDecreasing places.items) }
{
    let mut places = Vec::new(alloc);
    for act in acts {
        add_sought(targets, act, &mut places)?;
    }
    places.sort()?;
    places.dedup();
    Ok(places)
}
