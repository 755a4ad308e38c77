// Calls of functions.
ghost use Rattle.std.specs.Prelude.{◌≡◌, map};
ghost use Rattle.cfa_tree.specs.Plain.{plain_value};
ghost use Rattle.cfa_tree.specs.Tree.{value_trees};
ghost use Rattle.cfa_values.specs.Seen.{seen_context};
ghost use Rattle.cfa_values.specs.Refusals.{noted};
ghost use Rattle.cfa_values.specs.Values.{argument_refusals, arguments_refusals, call_refusals};

use crate::context::{Context, note_name_scope, note_text_scope};
use crate::refusals::{Code, Refusal, note_if};
use crate::texts::is_list_reference;
use cfa_base::Place;
use cfa_kinds::{Function, function_named};
use cfa_tree::Value;

// Notes what is wrong with an argument where a function takes a list, or a text.
#[cycle(calls)]
fn note_argument(
    context: &Context<'_>,
    takes_list: bool,
    value: &Value,
    first: &mut Option<Refusal>,
)
    ensures { first.new ≡ noted first.old
        (argument_refusals (seen_context context.now) takes_list (plain_value value.now)) }
{
    match value {
        Value::Text(content, place) => {
            let is_list = is_list_reference(content.as_str());
            note_if(first, !takes_list && is_list, Code::WrongValue, *place);
            note_text_scope(context, content.as_str(), *place, first);
        }
        Value::Word(_, _) => {}
        Value::Ref(name, place) => note_name_scope(context, name.as_str(), *place, first),
        Value::ListRef(name, place) => {
            note_if(first, !takes_list, Code::WrongValue, *place);
            note_name_scope(context, name.as_str(), *place, first);
        }
        Value::List(_, place) => note_if(first, true, Code::WrongValue, *place),
        Value::Call(name, arguments, place) => {
            note_call(
                context,
                false,
                name.as_str(),
                arguments.as_slice(),
                *place,
                first,
            );
        }
    }
}

// Notes what is wrong with the arguments of a function.
#[cycle(calls)]
fn note_arguments(
    context: &Context<'_>,
    function: Function,
    arguments: &[Value],
    first: &mut Option<Refusal>,
)
    ensures { first.new ≡ noted first.old
        (arguments_refusals (seen_context context.now) function 0
        (value_trees (map plain_value arguments.now))) }
{
    for (place, value) in arguments.iter().enumerate() {
        note_argument(context, function.takes_list(place), value, first);
    }
}

/// Notes what is wrong with a call where a class or a text is asked for; the place is that of its word.
#[cycle(calls)]
pub(crate) fn note_call(
    context: &Context<'_>,
    wants_class: bool,
    name: &str,
    arguments: &[Value],
    place: Place,
    first: &mut Option<Refusal>,
)
    ensures { first.new ≡ noted first.old
        (call_refusals (seen_context context.now) wants_class name.now
        (value_trees (map plain_value arguments.now)) place) }
{
    match function_named(name) {
        None => note_if(first, true, Code::WrongValue, place),
        Some(function) => {
            if function.answers_class() != wants_class {
                note_if(first, true, Code::WrongValue, place);
            } else if function.takes_count(arguments.len()) {
                note_arguments(context, function, arguments, first);
            } else {
                note_if(first, true, Code::ArgumentCount, place);
            }
        }
    }
}
