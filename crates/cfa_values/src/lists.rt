// Values where a list is asked for.
ghost use Rattle.std.specs.Prelude.{◌≡◌, map, ℕ, ◌==◌, length};
ghost use Rattle.std.specs.List.{flat_map};
ghost use Rattle.cfa_tree.specs.Plain.{plain_value};
ghost use Rattle.cfa_values.specs.Seen.{seen_context};
ghost use Rattle.cfa_values.specs.Refusals.{noted};
ghost use Rattle.cfa_values.specs.Values.{item_refusals, no_list_refusals, list_refusals, is_empty_text, full_item_refusals, is_empty_list, full_list_refusals};

use crate::context::{Context, note_name_scope, note_text_scope};
use crate::refusals::{Code, Refusal, note_if};
use crate::shapes::{Shape, place_of, shape_of};
use crate::texts::{is_list_reference, note_item};
use cfa_tree::Value;

/// Notes what is wrong with the items of a list, or with the arguments of a bundle or body.
pub(crate) fn note_items(context: &Context<'_>, items: &[Value], first: &mut Option<Refusal>)
    ensures { first.new ≡ noted first.old
        (flat_map (item_refusals (seen_context context.now)) (map plain_value items.now)) }
{
    for item in items {
        note_item(context, item, first);
    }
}

/// Notes a value that is no list, unless it refers to one.
pub(crate) fn note_no_list(context: &Context<'_>, value: &Value, first: &mut Option<Refusal>)
    ensures { first.new ≡ noted first.old
        (no_list_refusals (seen_context context.now) (plain_value value.now)) }
{
    match shape_of(value) {
        Shape::Text(content, place) => {
            note_if(first, !is_list_reference(content), Code::WrongValue, place);
            note_text_scope(context, content, place, first);
        }
        Shape::ListReference(name, place) => note_name_scope(context, name, place, first),
        _ => note_if(first, true, Code::WrongValue, place_of(value)),
    }
}

/// Notes what is wrong with a value where a list of texts is asked for.
pub(crate) fn note_list(context: &Context<'_>, value: &Value, first: &mut Option<Refusal>)
    ensures { first.new ≡ noted first.old
        (list_refusals (seen_context context.now) (item_refusals (seen_context context.now))
        (plain_value value.now)) }
{
    match shape_of(value) {
        Shape::List(items, _) => note_items(context, items, first),
        _ => note_no_list(context, value, first),
    }
}

fn is_empty_text(value: &Value) -> bool
    ensures { result ≡ is_empty_text (plain_value value.now) }
{
    match shape_of(value) {
        Shape::Text(content, _) => content.is_empty(),
        Shape::Word(name, _) => name.is_empty(),
        _ => false,
    }
}

fn is_empty_list(value: &Value) -> bool
    ensures { result ≡ is_empty_list (plain_value value.now) }
{
    match shape_of(value) {
        Shape::List(items, _) => items.is_empty(),
        _ => false,
    }
}

fn note_full_item(context: &Context<'_>, value: &Value, first: &mut Option<Refusal>)
    ensures { first.new ≡ noted first.old
        (full_item_refusals (seen_context context.now) (plain_value value.now)) }
{
    note_if(
        first,
        is_empty_text(value),
        Code::WrongValue,
        place_of(value),
    );
    note_item(context, value, first);
}

fn note_full_items(context: &Context<'_>, items: &[Value], first: &mut Option<Refusal>)
    ensures { first.new ≡ noted first.old
        (flat_map (full_item_refusals (seen_context context.now)) (map plain_value items.now)) }
{
    for item in items {
        note_full_item(context, item, first);
    }
}

fn note_list_of_full(context: &Context<'_>, value: &Value, first: &mut Option<Refusal>)
    ensures { first.new ≡ noted first.old
        (list_refusals (seen_context context.now) (full_item_refusals (seen_context context.now))
        (plain_value value.now)) }
{
    match shape_of(value) {
        Shape::List(items, _) => note_full_items(context, items, first),
        _ => note_no_list(context, value, first),
    }
}

/// Notes what is wrong with a value where a list is asked for that isn't empty, of texts that aren't empty.
pub(crate) fn note_full_list(context: &Context<'_>, value: &Value, first: &mut Option<Refusal>)
    ensures { first.new ≡ noted first.old
        (full_list_refusals (seen_context context.now) (plain_value value.now)) }
{
    note_if(
        first,
        is_empty_list(value),
        Code::WrongValue,
        place_of(value),
    );
    note_list_of_full(context, value, first);
}
