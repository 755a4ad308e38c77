// Promises and sections of them.
ghost use Rattle.std.specs.Prelude.{◌≡◌, OnOk, map, count_by, option_map, option_copied};
ghost use Rattle.std.specs.List.{flat_map};
ghost use Rattle.cfa_tree.specs.Plain.{plain_attribute, plain_value, plain_promise};
ghost use Rattle.cfa_values.specs.Seen.{seen_context};
ghost use Rattle.cfa_kinds.specs.Kinds.{choices};
ghost use Rattle.cfa_values.specs.Refusals.{noted};
ghost use Rattle.cfa_values.specs.Attributes.{has_attribute};
ghost use Rattle.cfa_schema.specs.Valid.{lacks_choice, is_wrong_promiser, promisee_refusals, promise_refusals};

use cfa_base::{NoMemory, is_word};
use cfa_kinds::{Kind, PromiseType, choices};
use cfa_tree::{Attribute, Promise, Value};
use cfa_values::{
    Code, Context, Refusal, Table, has_attribute, is_list_reference, note_attributes, note_if,
    note_item, note_text_scope, note_value,
};
use std::alloc::Global;

// The promiser of a vars promise is a word, and no other is wholly a list reference.
fn is_wrong_promiser(promise_type: PromiseType, promiser: &str) -> bool
    ensures { result ≡ is_wrong_promiser promise_type promiser.now }
{
    match promise_type {
        PromiseType::Vars => !is_word(promiser.as_bytes()),
        _ => is_list_reference(promiser),
    }
}

// How many of the names are those of attributes.
fn count_present(names: &[&str], attributes: &[Attribute]) -> usize
    ensures { result ≡ count_by (λ name. has_attribute
        (map plain_attribute attributes.now) name.now) names.now }
{
    names
        .iter()
        .filter(|name| has_attribute(attributes, name))
        .count()
}

// Whether a promise has none of the attributes of which its type asks for one, or several of them.
fn lacks_choice(promise_type: PromiseType, attributes: &[Attribute]) -> bool
    ensures { result ≡ lacks_choice (choices promise_type) (map plain_attribute attributes.now) }
{
    let names = choices(promise_type);
    !names.is_empty() && count_present(names, attributes) != 1
}

fn note_promisee(
    alloc: Global,
    context: &Context<'_>,
    promisee: Option<&Value>,
    first: &mut Option<Refusal>,
) -> Result<(), NoMemory>
    ensures { OnOk result (first.new ≡ noted first.old
        (promisee_refusals (seen_context context.now)
        (option_map plain_value (option_copied promisee.entry)))) }
{
    match promisee {
        Some(list @ Value::List(_, _)) => note_value(alloc, context, Kind::List, list, first),
        Some(item) => {
            note_item(context, item, first);
            Ok(())
        }
        None => Ok(()),
    }
}

fn note_promise(
    alloc: Global,
    context: &Context<'_>,
    promise_type: PromiseType,
    promise: &Promise,
    first: &mut Option<Refusal>,
) -> Result<(), NoMemory>
    ensures { OnOk result (first.new ≡ noted first.old
        (promise_refusals (seen_context context.now) promise_type (plain_promise promise.now))) }
{
    let place = promise.place;
    let promiser = promise.promiser.as_str();
    let attributes = promise.attributes.as_slice();
    let table = Table::OfPromise(promise_type);
    note_if(
        first,
        is_wrong_promiser(promise_type, promiser),
        Code::WrongValue,
        place,
    );
    note_text_scope(context, promiser, place, first);
    note_if(
        first,
        lacks_choice(promise_type, attributes),
        Code::WrongValue,
        place,
    );
    note_promisee(alloc, context, promise.promisee.as_ref(), first)?;
    note_attributes(alloc, context, table, attributes, first)
}

/// Notes the refusals of promises of a type.
pub(crate) fn note_promises(
    alloc: Global,
    context: &Context<'_>,
    promise_type: PromiseType,
    promises: &[Promise],
    first: &mut Option<Refusal>,
) -> Result<(), NoMemory>
    ensures { OnOk result (first.new ≡ noted first.old
        (flat_map (promise_refusals (seen_context context.now) promise_type)
        (map plain_promise promises.now))) }
{
    for promise in promises {
        note_promise(alloc, context, promise_type, promise, first)?;
    }
    Ok(())
}
