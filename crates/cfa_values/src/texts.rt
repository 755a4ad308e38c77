// Values where a text is asked for.
ghost use Rattle.std.specs.Prelude.{◌≡◌, ◌&&◌};
ghost use Rattle.cfa_tree.specs.Plain.{plain_value};
ghost use Rattle.cfa_values.specs.Seen.{seen_context};
ghost use Rattle.cfa_kinds.specs.Forms.{has_form};
ghost use Rattle.cfa_values.specs.Values.{is_known, is_list_reference, is_wrong_text, text_refusals, literal_refusals, item_refusals};
ghost use Rattle.cfa_values.specs.Refusals.{noted};

use crate::context::{Context, note_name_scope, note_text_scope};
use crate::refusals::{Code, Refusal, note_if};
use crate::scope::is_literal;
use crate::shapes::{Shape, place_of, shape_of};
use cfa_kinds::{Form, has_form};
use cfa_tree::Value;
use cfa_vars::list_reference;

/// Whether a text is wholly a list reference.
pub fn is_list_reference(text: &str) -> bool
    ensures { result ≡ is_list_reference text.now }
{
    list_reference(text).is_some()
}

/// Whether a text has no references and is no list reference, so that it is known before the run.
pub fn is_known(text: &str) -> bool
    ensures { result ≡ is_known text.now }
{
    is_literal(text) && !is_list_reference(text)
}

fn is_wrong_text(form: Form, text: &str) -> bool
    ensures { result ≡ is_wrong_text form text.now }
{
    is_list_reference(text) || (is_literal(text) && !has_form(form, text))
}

fn is_right_literal(form: Form, text: &str) -> bool
    ensures { result ≡ (is_known text.now && has_form form text.now) }
{
    is_known(text) && has_form(form, text)
}

/// Notes what is wrong with a value where a text of a form is asked for.
pub(crate) fn note_text(
    context: &Context<'_>,
    form: Form,
    value: &Value,
    first: &mut Option<Refusal>,
)
    ensures { first.new ≡ noted first.old
        (text_refusals (seen_context context.now) form (plain_value value.now)) }
{
    match shape_of(value) {
        Shape::Text(content, place) => {
            note_if(first, is_wrong_text(form, content), Code::WrongValue, place);
            note_text_scope(context, content, place, first);
        }
        Shape::Word(name, place) => note_if(first, !has_form(form, name), Code::WrongValue, place),
        Shape::Reference(name, place) => note_name_scope(context, name, place, first),
        _ => note_if(first, true, Code::WrongValue, place_of(value)),
    }
}

/// Notes what is wrong with a value where a text of a form is asked for that is known before the run.
pub(crate) fn note_literal(
    context: &Context<'_>,
    form: Form,
    value: &Value,
    first: &mut Option<Refusal>,
)
    ensures { first.new ≡ noted first.old
        (literal_refusals (seen_context context.now) form (plain_value value.now)) }
{
    match shape_of(value) {
        Shape::Text(content, place) => {
            note_if(
                first,
                !is_right_literal(form, content),
                Code::WrongValue,
                place,
            );
            note_text_scope(context, content, place, first);
        }
        Shape::Word(name, place) => note_if(first, !has_form(form, name), Code::WrongValue, place),
        _ => note_if(first, true, Code::WrongValue, place_of(value)),
    }
}

/// Notes what is wrong with an item of a list, or with an argument of a bundle or body.
pub fn note_item(context: &Context<'_>, value: &Value, first: &mut Option<Refusal>)
    ensures { first.new ≡ noted first.old
        (item_refusals (seen_context context.now) (plain_value value.now)) }
{
    match shape_of(value) {
        Shape::Text(content, place) => note_text_scope(context, content, place, first),
        Shape::Word(_, _) => {}
        Shape::Reference(name, place) => note_name_scope(context, name, place, first),
        Shape::ListReference(name, place) => note_name_scope(context, name, place, first),
        _ => note_if(first, true, Code::WrongValue, place_of(value)),
    }
}
