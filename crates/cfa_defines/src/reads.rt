// What a promise reads of its own.
ghost use Rattle.std.specs.Prelude.{◌≡◌, ◌++◌, IfOk, OnOk, map};
ghost use Rattle.cfa_tree.specs.Plain.{plain_attribute, plain_promise, plain_value};
ghost use Rattle.cfa_tree.specs.Tree.{value_trees};
ghost use Rattle.cfa_vars.specs.References.{list_reference_of};
ghost use Rattle.cfa_defines.specs.OwnTexts.{text_or_list, reads_in, reads_among, arguments_of, reads_of_attribute, own_reads};

use cfa_base::{Name, NoMemory};
use cfa_functions::reference_text;
use cfa_kinds::{Kind, PromiseType, own_attribute};
use cfa_tree::{Attribute, Promise, Value};
use cfa_vars::list_reference;
use std::alloc::Global;

/// A text, or a list by its name.
#[derive(Drop)]
pub enum Read {
    Text(Name),
    List(Name),
}

fn text_or_list(alloc: Global, text: &Name) -> Result<Read, NoMemory>
    ensures { IfOk result (λ r. r ≡ text_or_list text.now (list_reference_of text.now)) }
{
    match list_reference(text.as_str()) {
        Some(name) => Ok(Read::List(Name::from_text(alloc, name)?)),
        None => Ok(Read::Text(text.copy(alloc)?)),
    }
}

// Adds what a value reads.
#[cycle(reading)]
fn add_reads(alloc: Global, value: &Value, reads: &mut Vec<Read>) -> Result<(), NoMemory>
    ensures { OnOk result
        (reads.new.items ≡ reads.old.items ++ reads_in (plain_value value.now)) }
{
    match value {
        Value::Text(text, _) => Ok(reads.push(text_or_list(alloc, text)?)?),
        Value::Word(name, _) => Ok(reads.push(Read::Text(name.copy(alloc)?))?),
        Value::Ref(name, _) => Ok(reads.push(Read::Text(reference_text(alloc, name)?))?),
        Value::ListRef(name, _) => Ok(reads.push(Read::List(name.copy(alloc)?))?),
        Value::List(items, _) => add_reads_among(alloc, items.as_slice(), reads),
        Value::Call(_, arguments, _) => add_reads_among(alloc, arguments.as_slice(), reads),
    }
}

#[cycle(reading)]
fn add_reads_among(alloc: Global, values: &[Value], reads: &mut Vec<Read>) -> Result<(), NoMemory>
    ensures { OnOk result (reads.new.items
        ≡ reads.old.items ++ reads_among (value_trees (map plain_value values.now))) }
{
    for value in values {
        add_reads(alloc, value, reads)?;
    }
    Ok(())
}

/// The arguments of a call; a name without any has none.
pub fn arguments_of(value: &Value) -> &[Value]
    ensures { value_trees (map plain_value result.now) ≡ arguments_of (plain_value value.now) }
{
    match value {
        Value::Call(_, arguments, _) => arguments.as_slice(),
        _ => &[],
    }
}

fn add_attribute_reads(
    alloc: Global,
    promise_type: PromiseType,
    attribute: &Attribute,
    reads: &mut Vec<Read>,
) -> Result<(), NoMemory>
    ensures { OnOk result (reads.new.items ≡ reads.old.items
        ++ reads_of_attribute promise_type (plain_attribute attribute.now)) }
{
    match own_attribute(promise_type, attribute.name.as_str()) {
        None => Ok(()),
        Some(Kind::BodyOf(_) | Kind::EditBundle | Kind::AgentBundle) => {
            add_reads_among(alloc, arguments_of(&attribute.value), reads)
        }
        Some(_) => add_reads(alloc, &attribute.value, reads),
    }
}

/// What a promise of a type reads, in its order.
#[tactic(auto, unfolding(crate::specs::OwnTexts::own_reads))]
pub fn own_reads(
    alloc: Global,
    promise_type: PromiseType,
    promise: &Promise,
) -> Result<Vec<Read>, NoMemory>
    ensures { IfOk result
        (λ reads. reads.items ≡ own_reads promise_type (plain_promise promise.now)) }
{
    let mut reads = Vec::new(alloc);
    reads.push(Read::Text(promise.promiser.copy(alloc)?))?;
    for attribute in promise.attributes.as_slice() {
        add_attribute_reads(alloc, promise_type, attribute, &mut reads)?;
    }
    Ok(reads)
}
