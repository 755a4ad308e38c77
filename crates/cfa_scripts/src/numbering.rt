// The promises of a bundle with their numbers and their types.
ghost use Rattle.std.specs.Prelude.{◌≡◌, ◌+◌, ◌++◌, [], IfOk, OnOk, Some, filter, length, map};
ghost use Rattle.std.specs.List.{flat_map, cons_option};
ghost use Rattle.cfa_kinds.specs.Kinds.{promise_type};
ghost use Rattle.cfa_served.specs.Checked.{worded_promises_of};
ghost use Rattle.cfa_tree.specs.Plain.{plain_block, plain_promise, plain_section};
ghost use Rattle.cfa_scripts.specs.Numbered.{numbered_as, numbered_from, numbered_in, is_type, of_type, edit_types};
ghost use Rattle.cfa_scripts.specs.EditScripts.{in_order};
ghost use Rattle.cfa_scripts.specs.Walking.{seen_numbered};

use cfa_base::{Name, NoMemory, PromiseId};
use cfa_kinds::{PromiseType, promise_type};
use cfa_tree::{Block, Bundle, Promise, Section};
use std::alloc::Global;

/// A promise of a bundle with its number and its type.
#[derive(Clone, Copy)]
pub(crate) struct Numbered<'a> {
    pub bundle: &'a Name,
    pub number: u32,
    pub promise_type: PromiseType,
    pub promise: &'a Promise,
}

impl Numbered<'_> {
    /// The id of the promise.
    pub(crate) fn id(&self, alloc: Global) -> Result<PromiseId, NoMemory>
        ensures { IfOk result (λ id. id ≡ (seen_numbered self.now).id) }
    {
        Ok(PromiseId {
            bundle: self.bundle.copy(alloc)?,
            number: self.number,
            line: self.promise.place.line,
        })
    }
}

fn next_number(number: u32) -> Result<u32, NoMemory>
    ensures { IfOk result (λ next. next ≡ number + 1) }
{
    match number.checked_add(1) {
        Some(next) => Ok(next),
        None => Err(NoMemory),
    }
}

fn add_promise<'a>(
    bundle: &'a Name,
    number: u32,
    known: Option<PromiseType>,
    promise: &'a Promise,
    promises: &mut Vec<Numbered<'a>>,
) -> Result<(), NoMemory>
    ensures { OnOk result (map seen_numbered promises.new.items
        ≡ map seen_numbered promises.old.items
        ++ cons_option (numbered_as bundle.now number (plain_promise promise.now) known) []) }
{
    match known {
        Some(promise_type) => Ok(promises.push(Numbered {
            bundle,
            number,
            promise_type,
            promise,
        })?),
        None => Ok(()),
    }
}

// Adds the promises of a section behind so many of its bundle. It gives the number of the last one.
fn add_section<'a>(
    bundle: &'a Name,
    section: &'a Section,
    before: u32,
    promises: &mut Vec<Numbered<'a>>,
) -> Result<u32, NoMemory>
    ensures promises { OnOk result (map seen_numbered promises.new.items
        ≡ map seen_numbered promises.old.items ++ numbered_from bundle.now (before + 1)
        (worded_promises_of (plain_section section.now))) }
    ensures number { IfOk result
        (λ number. number ≡ before + length (worded_promises_of (plain_section section.now))) }
{
    let mut number = before;
    let known = promise_type(section.kind.as_str());
    for promise in section.promises.as_slice() {
        number = next_number(number)?;
        add_promise(bundle, number, known, promise, promises)?;
    }
    Ok(number)
}

// The promises of a bundle, in text order, numbered from 1 over all types.
fn numbered_in<'a>(alloc: Global, bundle: &'a Bundle) -> Result<Vec<Numbered<'a>>, NoMemory>
    ensures { IfOk result (λ promises. map seen_numbered promises.items
        ≡ numbered_in (plain_block (Block.Bundle bundle.now))) }
{
    let mut promises = Vec::new(alloc);
    let mut number = 0;
    for section in bundle.sections.as_slice() {
        number = add_section(&bundle.name.name, section, number, &mut promises)?;
    }
    Ok(promises)
}

fn is_type(promise_type: PromiseType, other: PromiseType) -> bool
    ensures { result ≡ is_type promise_type other }
{
    promise_type == other
}

fn add_type<'a>(
    promise_type: PromiseType,
    promises: &[Numbered<'a>],
    ordered: &mut Vec<Numbered<'a>>,
) -> Result<(), NoMemory>
    ensures { OnOk result (map seen_numbered ordered.new.items
        ≡ map seen_numbered ordered.old.items
        ++ of_type promise_type (map seen_numbered promises.now)) }
{
    for promise in promises {
        if is_type(promise_type, promise.promise_type) {
            ordered.push(*promise)?;
        }
    }
    Ok(())
}

/// The promises of an edit bundle in the order in which they are reached.
pub(crate) fn promises_in_order<'a>(
    alloc: Global,
    bundle: &'a Bundle,
) -> Result<Vec<Numbered<'a>>, NoMemory>
    ensures { IfOk result (λ promises. map seen_numbered promises.items
        ≡ in_order (numbered_in (plain_block (Block.Bundle bundle.now)))) }
{
    let promises = numbered_in(alloc, bundle)?;
    let mut ordered = Vec::new(alloc);
    add_type(PromiseType::Vars, &promises, &mut ordered)?;
    add_type(PromiseType::Classes, &promises, &mut ordered)?;
    add_type(PromiseType::DeleteLines, &promises, &mut ordered)?;
    add_type(PromiseType::FieldEdits, &promises, &mut ordered)?;
    add_type(PromiseType::InsertLines, &promises, &mut ordered)?;
    add_type(PromiseType::ReplacePatterns, &promises, &mut ordered)?;
    Ok(ordered)
}
