// The promises of a policy by their ids.
ghost use Rattle.std.specs.Prelude.{◌≡◌, ◌≤◌, ◌+◌, ◌++◌, IfOk, OnOk, Some, length, map, option_copied, option_map, slice_get};
ghost use Rattle.std.specs.List.{flat_map};
ghost use Rattle.cfa_tree.specs.Plain.{plain_block, plain_policy, plain_promise, plain_section};
ghost use Rattle.cfa_served.specs.Checked.{HasFew, given_in_bundle, ids_from, ids_in_block, promise_count, promise_ids_of, promise_of, typed, typed_promise_of, word_on_line, worded_promise_of, worded_promises_of};
ghost use Rattle.cfa_served.specs.Parts.{seen_placed};
ghost use Rattle.cfa_served.specs.Indexed.{IsIndex};

use crate::index::Index;
use cfa_base::{MOST_SOURCE_BYTES, Name, NoMemory, PromiseId};
use cfa_kinds::{PromiseType, promise_type};
use cfa_tree::{Block, Bundle, Policy, Promise, Section};
use std::alloc::Global;

/// A promise, with the word of its type.
#[derive(Clone, Copy)]
pub(crate) struct Placed<'a> {
    pub word: &'a str,
    pub promise: &'a Promise,
}

// The sections of the first bundle of a name, and none where there is no such bundle.
fn sections_of<'a>(index: &Index, blocks: &'a [Block], name: &str) -> &'a [Section]
    requires { IsIndex index.now (map plain_block blocks.now) }
    ensures { flat_map worded_promises_of (map plain_section result.now)
        ≡ given_in_bundle worded_promises_of name.now (map plain_block blocks.now) }
{
    match index.bundle(blocks, name) {
        Some(bundle) => bundle.sections.as_slice(),
        None => &[],
    }
}

fn nth(promises: &[Promise], place: usize) -> Option<&Promise>
    ensures { option_copied result ≡ slice_get promises.now place }
{
    promises.get(place)
}

fn with_word<'a>(word: &'a str, promise: Option<&'a Promise>) -> Option<Placed<'a>>
    ensures { option_map seen_placed result
        ≡ option_map (λ p. (word.now, plain_promise p.now)) promise.entry }
{
    match promise {
        Some(promise) => Some(Placed { word, promise }),
        None => None,
    }
}

// The promise at a place from 0 over all sections, in text order.
fn promise_at(sections: &[Section], place: usize) -> Option<Placed<'_>>
    ensures { option_map seen_placed result
        ≡ slice_get (flat_map worded_promises_of (map plain_section sections.now)) place }
{
    let mut left = place;
    for section in sections {
        let promises = section.promises.as_slice();
        if left < promises.len() {
            return with_word(section.kind.as_str(), nth(promises, left));
        }
        left -= promises.len();
    }
    None
}

fn if_on_line(placed: Placed<'_>, line: u32) -> Option<Placed<'_>>
    ensures { option_map seen_placed result ≡ word_on_line line (Some (seen_placed placed.entry)) }
{
    if placed.promise.place.line == line {
        Some(placed)
    } else {
        None
    }
}

// The promise that an id names, with the word of its type.
#[tactic(auto, unfolding(crate::specs::Checked::worded_promise_of))]
fn find_placed<'a>(index: &Index, policy: &'a Policy, id: &PromiseId) -> Option<Placed<'a>>
    requires { IsIndex index.now (plain_policy policy.now) }
    ensures { option_map seen_placed result ≡ worded_promise_of (plain_policy policy.now) id.now }
{
    if id.number == 0 {
        return None;
    }
    let sections = sections_of(index, policy.blocks.as_slice(), id.bundle.as_str());
    let placed = promise_at(sections, (id.number - 1) as usize)?;
    if_on_line(placed, id.line)
}

/// The promise that an id names, without taking memory. `None` where the policy has no such bundle, the bundle no promise of
/// this number, or the promise stands on another line. It takes a logarithm of the bundles and the sections of one. `index` is
/// that of the policy's blocks.
pub fn find_promise<'a>(index: &Index, policy: &'a Policy, id: &PromiseId) -> Option<&'a Promise>
    requires { IsIndex index.now (plain_policy policy.now) }
    ensures { option_map (λ p. plain_promise p.now) result
        ≡ promise_of (plain_policy policy.now) id.now }
{
    match find_placed(index, policy, id) {
        Some(placed) => Some(placed.promise),
        None => None,
    }
}

fn with_type(placed: Placed<'_>) -> Option<(PromiseType, &Promise)>
    ensures { option_map (λ found. (found.0, plain_promise found.1.now)) result
        ≡ typed (seen_placed placed.entry) }
{
    match promise_type(placed.word) {
        Some(promise_type) => Some((promise_type, placed.promise)),
        None => None,
    }
}

/// The same promise with its type. `None` also where that isn't one of the profile, as no valid policy has it.
pub fn find_typed_promise<'a>(
    index: &Index,
    policy: &'a Policy,
    id: &PromiseId,
) -> Option<(PromiseType, &'a Promise)>
    requires { IsIndex index.now (plain_policy policy.now) }
    ensures { option_map (λ found. (found.0, plain_promise found.1.now)) result
        ≡ typed_promise_of (plain_policy policy.now) id.now }
{
    let placed = find_placed(index, policy, id)?;
    with_type(placed)
}

// Adds the ids of the promises of a section behind some of its bundle. It gives the number of the last one.
fn add_section(
    alloc: Global,
    bundle: &str,
    promises: &[Promise],
    before: u32,
    ids: &mut Vec<PromiseId>,
) -> Result<u32, NoMemory>
    requires { before + length promises.now ≤ MOST_SOURCE_BYTES }
    ensures ids { OnOk result (ids.new.items ≡ ids.old.items
        ++ ids_from bundle.now (before + 1) (map plain_promise promises.now)) }
    ensures number { IfOk result (λ number. number ≡ before + length promises.now) }
{
    let mut number = before;
    for promise in promises {
        number += 1;
        ids.push(PromiseId {
            bundle: Name::from_text(alloc, bundle)?,
            number,
            line: promise.place.line,
        })?;
    }
    Ok(number)
}

// Adds the ids of the promises of a bundle.
fn add_bundle(alloc: Global, bundle: &Bundle, ids: &mut Vec<PromiseId>) -> Result<(), NoMemory>
    requires { promise_count (plain_block (Block.Bundle bundle.now)) ≤ MOST_SOURCE_BYTES }
    ensures { OnOk result (ids.new.items ≡ ids.old.items
        ++ ids_in_block (plain_block (Block.Bundle bundle.now))) }
{
    let mut number = 0;
    let name = bundle.name.name.as_str();
    for section in bundle.sections.as_slice() {
        number = add_section(alloc, name, section.promises.as_slice(), number, ids)?;
    }
    Ok(())
}

/// The ids of all promises, in text order. No bundle has more promises than the longest file has bytes, so that their numbers
/// fit.
#[tactic(auto, unfolding(crate::specs::Checked::promise_ids_of))]
pub fn list_ids(alloc: Global, blocks: &[Block]) -> Result<Vec<PromiseId>, NoMemory>
    requires { HasFew MOST_SOURCE_BYTES (map plain_block blocks.now) }
    ensures { IfOk result (λ ids. ids.items ≡ promise_ids_of (map plain_block blocks.now)) }
{
    let mut ids = Vec::new(alloc);
    for block in blocks {
        if let Block::Bundle(bundle) = block {
            add_bundle(alloc, bundle, &mut ids)?;
        }
    }
    Ok(ids)
}
