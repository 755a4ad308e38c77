// Values by the kinds that attributes ask for.
ghost use Rattle.std.specs.Prelude.{◌≡◌, OnOk};
ghost use Rattle.cfa_tree.specs.Plain.{plain_value};
ghost use Rattle.cfa_values.specs.Seen.{seen_context};
ghost use Rattle.cfa_values.specs.Refusals.{noted};
ghost use Rattle.cfa_values.specs.Values.{text_or_call_refusals, value_refusals};

use crate::class_texts::{note_class, note_class_list};
use crate::context::Context;
use crate::control_lists::{note_inputs, note_sequence};
use crate::function_calls::note_call;
use crate::lists::{note_full_list, note_list};
use crate::named_blocks::{note_body_value, note_edit_value, note_method_value};
use crate::refusals::Refusal;
use crate::shapes::{Shape, shape_of};
use crate::texts::{note_literal, note_text};
use cfa_base::NoMemory;
use cfa_kinds::{Form, Kind};
use cfa_tree::Value;
use std::alloc::Global;

fn note_text_or_call(context: &Context<'_>, form: Form, value: &Value, first: &mut Option<Refusal>)
    ensures { first.new ≡ noted first.old
        (text_or_call_refusals (seen_context context.now) form (plain_value value.now)) }
{
    match shape_of(value) {
        Shape::Call(name, arguments, place) => {
            note_call(context, false, name, arguments, place, first);
        }
        _ => note_text(context, form, value, first),
    }
}

/// Notes the refusals of a value where an attribute asks for a kind of values.
pub fn note_value(
    alloc: Global,
    context: &Context<'_>,
    kind: Kind,
    value: &Value,
    first: &mut Option<Refusal>,
) -> Result<(), NoMemory>
    ensures { OnOk result (first.new ≡ noted first.old
        (value_refusals (seen_context context.now) kind (plain_value value.now))) }
{
    match kind {
        Kind::Text(form) => note_text(context, form, value, first),
        Kind::Literal(form) => note_literal(context, form, value, first),
        Kind::TextOrCall(form) => note_text_or_call(context, form, value, first),
        Kind::Pattern => note_text(context, Form::AnyText, value, first),
        Kind::List => note_list(context, value, first),
        Kind::FullList => note_full_list(context, value, first),
        Kind::ClassText => return note_class(alloc, context, value, first),
        Kind::ClassTexts => return note_class_list(alloc, context, value, first),
        Kind::BodyOf(body) => note_body_value(context, body, value, first),
        Kind::EditBundle => note_edit_value(context, value, first),
        Kind::AgentBundle => note_method_value(context, value, first),
        Kind::BundleNames => return note_sequence(alloc, context, value, first),
        Kind::InputNames => return note_inputs(alloc, context, value, first),
    }
    Ok(())
}
