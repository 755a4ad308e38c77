// Values where a class text is asked for.
ghost use Rattle.std.specs.Prelude.{◌≡◌, ◌&&◌, IfOk, OnOk, map};
ghost use Rattle.std.specs.List.{flat_map};
ghost use Rattle.cfa_tree.specs.Plain.{plain_value};
ghost use Rattle.cfa_values.specs.Seen.{seen_context};
ghost use Rattle.cfa_values.specs.Scope.{is_literal};
ghost use Rattle.cfa_values.specs.Refusals.{noted, only_if};
ghost use Rattle.cfa_values.specs.Values.{is_no_expression, class_refusals, class_item_refusals, list_refusals};

use crate::context::{Context, note_name_scope, note_text_scope};
use crate::function_calls::note_call;
use crate::lists::note_no_list;
use crate::refusals::{Code, Refusal, note_if};
use crate::scope::is_literal;
use crate::shapes::{Shape, place_of, shape_of};
use crate::texts::is_list_reference;
use cfa_base::{Name, NoMemory, Place};
use cfa_tree::{ExprErr, Value, read_expr};
use std::alloc::Global;

fn is_no_expression(alloc: Global, text: &str) -> Result<bool, NoMemory>
    ensures { IfOk result (λ b. b ≡ is_no_expression text.now) }
{
    let name = Name::from_text(alloc, text)?;
    match read_expr(alloc, &name) {
        Ok(_) => Ok(false),
        Err(ExprErr::BadExpression) => Ok(true),
        Err(ExprErr::NoMemory) => Err(NoMemory),
    }
}

// Notes a text that is known before the run and no class expression.
fn note_literal_class(
    alloc: Global,
    text: &str,
    place: Place,
    first: &mut Option<Refusal>,
) -> Result<(), NoMemory>
    ensures { OnOk result (first.new ≡ noted first.old
        (only_if (is_literal text.now && is_no_expression text.now) Code.BadClassText place)) }
{
    if !is_literal(text) {
        return Ok(());
    }
    note_if(
        first,
        is_no_expression(alloc, text)?,
        Code::BadClassText,
        place,
    );
    Ok(())
}

fn note_word(
    alloc: Global,
    word: &str,
    place: Place,
    first: &mut Option<Refusal>,
) -> Result<(), NoMemory>
    ensures { OnOk result (first.new
        ≡ noted first.old (only_if (is_no_expression word.now) Code.BadClassText place)) }
{
    note_if(
        first,
        is_no_expression(alloc, word)?,
        Code::BadClassText,
        place,
    );
    Ok(())
}

/// Notes what is wrong with a value where a class text, or a call of a class function, is asked for.
pub(crate) fn note_class(
    alloc: Global,
    context: &Context<'_>,
    value: &Value,
    first: &mut Option<Refusal>,
) -> Result<(), NoMemory>
    ensures { OnOk result (first.new
        ≡ noted first.old (class_refusals (seen_context context.now) (plain_value value.now))) }
{
    match shape_of(value) {
        Shape::Text(content, place) => {
            note_if(first, is_list_reference(content), Code::WrongValue, place);
            note_literal_class(alloc, content, place, first)?;
            note_text_scope(context, content, place, first);
        }
        Shape::Word(name, place) => return note_word(alloc, name, place, first),
        Shape::Reference(name, place) => note_name_scope(context, name, place, first),
        Shape::Call(name, arguments, place) => {
            note_call(context, true, name, arguments, place, first);
        }
        _ => note_if(first, true, Code::WrongValue, place_of(value)),
    }
    Ok(())
}

// Notes what is wrong with an item of a list of class texts.
fn note_class_item(
    alloc: Global,
    context: &Context<'_>,
    value: &Value,
    first: &mut Option<Refusal>,
) -> Result<(), NoMemory>
    ensures { OnOk result (first.new ≡ noted first.old
        (class_item_refusals (seen_context context.now) (plain_value value.now))) }
{
    match shape_of(value) {
        Shape::Text(content, place) => {
            if !is_list_reference(content) {
                note_literal_class(alloc, content, place, first)?;
            }
            note_text_scope(context, content, place, first);
        }
        Shape::Word(name, place) => return note_word(alloc, name, place, first),
        Shape::Reference(name, place) => note_name_scope(context, name, place, first),
        Shape::ListReference(name, place) => note_name_scope(context, name, place, first),
        Shape::Call(name, arguments, place) => {
            note_call(context, true, name, arguments, place, first);
        }
        _ => note_if(first, true, Code::WrongValue, place_of(value)),
    }
    Ok(())
}

fn note_class_items(
    alloc: Global,
    context: &Context<'_>,
    items: &[Value],
    first: &mut Option<Refusal>,
) -> Result<(), NoMemory>
    ensures { OnOk result (first.new ≡ noted first.old
        (flat_map (class_item_refusals (seen_context context.now)) (map plain_value items.now))) }
{
    for item in items {
        note_class_item(alloc, context, item, first)?;
    }
    Ok(())
}

/// Notes what is wrong with a value where a list of class texts, or of calls of class functions, is asked for.
pub(crate) fn note_class_list(
    alloc: Global,
    context: &Context<'_>,
    value: &Value,
    first: &mut Option<Refusal>,
) -> Result<(), NoMemory>
    ensures { OnOk result (first.new ≡ noted first.old
        (list_refusals (seen_context context.now) (class_item_refusals (seen_context context.now))
        (plain_value value.now))) }
{
    match shape_of(value) {
        Shape::List(items, _) => return note_class_items(alloc, context, items, first),
        _ => note_no_list(context, value, first),
    }
    Ok(())
}
