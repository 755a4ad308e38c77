// Values that name the bundles of the sequence, or the files that are read with a policy.
ghost use Rattle.std.specs.Prelude.{◌≡◌, ◌++◌, OnOk, map};
ghost use Rattle.std.specs.List.{flat_map, filter_map};
ghost use Rattle.cfa_tree.specs.Plain.{plain_value};
ghost use Rattle.cfa_values.specs.Seen.{seen_context};
ghost use Rattle.cfa_values.specs.Values.{known_named, known_item_refusals, sequence_found, sequence_item_refusals, sequence_refusals, input_refusals, repeated};
ghost use Rattle.cfa_values.specs.Refusals.{noted};
ghost use Rattle.cfa_values.specs.Kept.{seen_item};

use crate::context::{Context, note_text_scope};
use crate::definitions::Definitions;
use crate::items::{Item, known_items, note_repeated};
use crate::refusals::{Code, Refusal, note_if};
use crate::shapes::{Shape, place_of, shape_of};
use crate::texts::is_known;
use cfa_base::{MOST_INPUTS, NoMemory, Place};
use cfa_kinds::BundleType;
use cfa_tree::Value;
use std::alloc::Global;

// Notes what is wrong with an item that is to be known before the run.
fn note_known_item(context: &Context<'_>, value: &Value, first: &mut Option<Refusal>)
    ensures { first.new ≡ noted first.old
        (known_item_refusals (seen_context context.now) (plain_value value.now)) }
{
    match shape_of(value) {
        Shape::Text(content, place) => {
            note_if(first, !is_known(content), Code::WrongValue, place);
            note_text_scope(context, content, place, first);
        }
        Shape::Word(_, _) => {}
        _ => note_if(first, true, Code::WrongValue, place_of(value)),
    }
}

fn note_known_items(context: &Context<'_>, items: &[Value], first: &mut Option<Refusal>)
    ensures { first.new ≡ noted first.old
        (flat_map (known_item_refusals (seen_context context.now)) (map plain_value items.now)) }
{
    for item in items {
        note_known_item(context, item, first);
    }
}

// Notes a bundle of the sequence that is of another type, or that has parameters.
fn note_sequence_type(
    bundle_type: Option<BundleType>,
    params: usize,
    place: Place,
    first: &mut Option<Refusal>,
)
    ensures { first.new ≡ noted first.old (sequence_found bundle_type params place) }
{
    match bundle_type {
        Some(BundleType::Agent) => note_if(first, 0 < params, Code::ArgumentCount, place),
        Some(BundleType::Common) => {}
        Some(BundleType::EditLine) => note_if(first, true, Code::UnknownBundle, place),
        None => note_if(first, true, Code::UnknownBundle, place),
    }
}

fn note_sequence_item(definitions: &Definitions<'_>, item: Item<'_>, first: &mut Option<Refusal>)
    ensures { first.new ≡ noted first.old
        (sequence_item_refusals definitions.now (seen_item item.entry)) }
{
    match definitions.find_bundle(item.name) {
        Some(entry) => note_sequence_type(entry.bundle_type, entry.params, item.place, first),
        None => note_if(first, true, Code::UnknownBundle, item.place),
    }
}

fn note_sequence_items(
    definitions: &Definitions<'_>,
    items: &[Item<'_>],
    first: &mut Option<Refusal>,
)
    ensures { first.new ≡ noted first.old
        (flat_map (sequence_item_refusals definitions.now) (map seen_item items.now)) }
{
    for item in items {
        note_sequence_item(definitions, *item, first);
    }
}

// Notes what is wrong with the items of a sequence.
fn note_sequence_list(
    alloc: Global,
    context: &Context<'_>,
    items: &[Value],
    first: &mut Option<Refusal>,
) -> Result<(), NoMemory>
    ensures { OnOk result (first.new ≡ noted first.old
        (flat_map (known_item_refusals (seen_context context.now)) (map plain_value items.now)
        ++ (flat_map (sequence_item_refusals (seen_context context.now).definitions)
        (filter_map known_named (map plain_value items.now))
        ++ repeated (filter_map known_named (map plain_value items.now))))) }
{
    let known = known_items(alloc, items)?;
    note_known_items(context, items, first);
    note_sequence_items(context.definitions, &known, first);
    note_repeated(alloc, &known, first)
}

/// Notes what is wrong with a value where the sequence of bundles is asked for.
pub(crate) fn note_sequence(
    alloc: Global,
    context: &Context<'_>,
    value: &Value,
    first: &mut Option<Refusal>,
) -> Result<(), NoMemory>
    ensures { OnOk result (first.new
        ≡ noted first.old (sequence_refusals (seen_context context.now) (plain_value value.now))) }
{
    match shape_of(value) {
        Shape::List(items, _) => return note_sequence_list(alloc, context, items, first),
        _ => note_if(first, true, Code::WrongValue, place_of(value)),
    }
    Ok(())
}

// Notes what is wrong with the items of a list of files.
fn note_input_list(
    alloc: Global,
    context: &Context<'_>,
    items: &[Value],
    first: &mut Option<Refusal>,
) -> Result<(), NoMemory>
    ensures { OnOk result (first.new ≡ noted first.old
        (flat_map (known_item_refusals (seen_context context.now)) (map plain_value items.now)
        ++ repeated (filter_map known_named (map plain_value items.now)))) }
{
    let known = known_items(alloc, items)?;
    note_known_items(context, items, first);
    note_repeated(alloc, &known, first)
}

/// Notes what is wrong with a value where the names of files are asked for.
pub(crate) fn note_inputs(
    alloc: Global,
    context: &Context<'_>,
    value: &Value,
    first: &mut Option<Refusal>,
) -> Result<(), NoMemory>
    ensures { OnOk result (first.new
        ≡ noted first.old (input_refusals (seen_context context.now) (plain_value value.now))) }
{
    match shape_of(value) {
        Shape::List(items, place) => {
            note_if(first, MOST_INPUTS < items.len(), Code::WrongValue, place);
            return note_input_list(alloc, context, items, first);
        }
        _ => note_if(first, true, Code::WrongValue, place_of(value)),
    }
    Ok(())
}
