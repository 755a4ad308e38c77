// The promises of a bundle with their ids and their types.
ghost use Rattle.std.specs.Prelude.{◌≡◌, ◌+◌, ◌-◌, ◌<◌, ◌++◌, [], IfOk, IfSome, IsTrue, OnOk, map, length};
ghost use Rattle.std.specs.List.{cons_option};
ghost use Rattle.cfa_tree.specs.Plain.{plain_block, plain_promise, plain_section};
ghost use Rattle.cfa_served.specs.Checked.{worded_promises_of};
ghost use Rattle.cfa_tree.specs.Repeats.{guard_at};
ghost use Rattle.cfa_states.specs.Kept.{GuardsRepeat, StandsLast, seen_numbered};
ghost use Rattle.cfa_states.specs.Numbered.{numbered_as, numbered_from, numbered_in};

use cfa_base::{Name, NoMemory, PromiseId};
use cfa_kinds::{PromiseType, promise_type};
use cfa_tree::{Block, Bundle, Promise, Promises, Section};
use std::alloc::Global;

/// A promise of a bundle with its id and its type, and whether it is known to stand under the guard of the promise before
/// it.
#[derive(Drop)]
pub struct Numbered<'a> {
    pub id: PromiseId,
    pub promise_type: PromiseType,
    pub promise: &'a Promise,
    pub repeats: bool,
}

// Adds a promise under its number, where its type is found.
fn add_promise<'a>(
    alloc: Global,
    bundle: &Name,
    number: u32,
    promise: &'a Promise,
    found: Option<PromiseType>,
    repeats: bool,
    promises: &mut Vec<Numbered<'a>>,
) -> Result<(), NoMemory>
    requires { IsTrue repeats → IfSome found (λ _.
        StandsLast promises.old.items promise.now.guard) }
    ensures promises { OnOk result (map seen_numbered promises.new.items
        ≡ map seen_numbered promises.old.items
        ++ cons_option (numbered_as bundle.now number (plain_promise promise.now) found) []) }
    ensures guards { OnOk result (GuardsRepeat promises.old.items
        → GuardsRepeat promises.new.items) }
    ensures last { OnOk result (IfSome found (λ _.
        StandsLast promises.new.items promise.now.guard)) }
{
    if let Some(promise_type) = found {
        promises.push(Numbered {
            id: PromiseId {
                bundle: bundle.copy(alloc)?,
                number,
                line: promise.place.line,
            },
            promise_type,
            promise,
            repeats,
        })?;
    }
    Ok(())
}

// Whether a promise of a section is known to stand under the guard of the one before it in that section.
fn repeats_guard(promises: &Promises, index: usize) -> bool
    requires { index < length promises.now }
    ensures { IsTrue result → (0 < index)
        × (guard_at promises.now index ≡ guard_at promises.now (index - 1)) }
{
    if index == 0 {
        return false;
    }
    promises.repeats_guard(index)
}

// Adds the promises of a section behind some of its bundle. It gives the number of the last one.
fn add_section<'a>(
    alloc: Global,
    bundle: &Name,
    section: &'a Section,
    before: u32,
    promises: &mut Vec<Numbered<'a>>,
) -> Result<u32, NoMemory>
    ensures promises { OnOk result (map seen_numbered promises.new.items
        ≡ map seen_numbered promises.old.items
        ++ numbered_from bundle.now (before + 1) (worded_promises_of (plain_section section.now))) }
    ensures number { IfOk result
        (λ number. number ≡ before + length section.now.promises) }
    ensures guards { OnOk result (GuardsRepeat promises.old.items
        → GuardsRepeat promises.new.items) }
{
    let found = promise_type(section.kind.as_str());
    let mut number = before;
    for (index, promise) in section.promises.as_slice().iter().enumerate() {
        number = number.checked_add(1).ok_or(NoMemory)?;
        let repeats = repeats_guard(&section.promises, index);
        add_promise(alloc, bundle, number, promise, found, repeats, promises)?;
    }
    Ok(number)
}

/// The promises of a bundle, in text order, numbered from 1 over all types.
pub fn numbered_in<'a>(alloc: Global, bundle: &'a Bundle) -> Result<Vec<Numbered<'a>>, NoMemory>
    ensures promises { IfOk result (λ promises. map seen_numbered promises.items
        ≡ numbered_in (plain_block (Block.Bundle bundle.now))) }
    ensures guards { IfOk result (λ promises. GuardsRepeat promises.items) }
{
    let mut promises = Vec::new(alloc);
    let mut number = 0;
    for section in bundle.sections.as_slice() {
        number = add_section(alloc, &bundle.name.name, section, number, &mut promises)?;
    }
    Ok(promises)
}
