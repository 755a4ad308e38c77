// Values that name a body or a bundle.
ghost use Rattle.std.specs.Prelude.{◌≡◌, map};
ghost use Rattle.cfa_tree.specs.Plain.{plain_value};
ghost use Rattle.cfa_values.specs.Seen.{seen_context};
ghost use Rattle.cfa_kinds.specs.Kinds.{body_word};
ghost use Rattle.cfa_values.specs.Definitions.{body_named};
ghost use Rattle.cfa_values.specs.Values.{is_known, is_type, body_found, named_bundle, named_by_text, body_refusals, edit_refusals, method_refusals};
ghost use Rattle.cfa_values.specs.Refusals.{noted};

use crate::context::{Context, note_text_scope};
use crate::lists::note_items;
use crate::refusals::{Code, Refusal, note_if};
use crate::shapes::{Shape, place_of, shape_of};
use crate::texts::is_known;
use cfa_base::Place;
use cfa_kinds::{BodyType, BundleType, body_word};
use cfa_tree::Value;

// Notes a body that isn't defined, or has another number of parameters.
fn note_body_name(
    context: &Context<'_>,
    body: BodyType,
    name: &str,
    count: usize,
    place: Place,
    first: &mut Option<Refusal>,
)
    ensures { first.new ≡ noted first.old
        (body_found (body_named (seen_context context.now).definitions
        (body_word body) name.now) count place) }
{
    match context.definitions.find_body(body_word(body), name) {
        Some(entry) => note_if(first, entry.params != count, Code::ArgumentCount, place),
        None => note_if(first, true, Code::UnknownBody, place),
    }
}

fn is_type(wanted: BundleType, bundle_type: Option<BundleType>) -> bool
    ensures { result ≡ is_type wanted bundle_type }
{
    match bundle_type {
        None => false,
        Some(BundleType::Agent) => matches!(wanted, BundleType::Agent),
        Some(BundleType::Common) => matches!(wanted, BundleType::Common),
        Some(BundleType::EditLine) => matches!(wanted, BundleType::EditLine),
    }
}

// Notes a bundle that isn't defined or not of the type, or has another number of parameters.
fn note_bundle_name(
    context: &Context<'_>,
    wanted: BundleType,
    name: &str,
    count: usize,
    place: Place,
    first: &mut Option<Refusal>,
)
    ensures { first.new ≡ noted first.old
        (named_bundle (seen_context context.now) wanted name.now count place) }
{
    match context.definitions.find_bundle(name) {
        Some(entry) => {
            if is_type(wanted, entry.bundle_type) {
                note_if(first, entry.params != count, Code::ArgumentCount, place);
            } else {
                note_if(first, true, Code::UnknownBundle, place);
            }
        }
        None => note_if(first, true, Code::UnknownBundle, place),
    }
}

/// Notes what is wrong with a value where a body of a type is asked for.
pub(crate) fn note_body_value(
    context: &Context<'_>,
    body: BodyType,
    value: &Value,
    first: &mut Option<Refusal>,
)
    ensures { first.new ≡ noted first.old
        (body_refusals (seen_context context.now) body (plain_value value.now)) }
{
    match shape_of(value) {
        Shape::Word(name, place) => note_body_name(context, body, name, 0, place, first),
        Shape::Call(name, arguments, place) => {
            note_body_name(context, body, name, arguments.len(), place, first);
            note_items(context, arguments, first);
        }
        _ => note_if(first, true, Code::WrongValue, place_of(value)),
    }
}

/// Notes what is wrong with a value where an edit_line bundle is asked for.
pub(crate) fn note_edit_value(context: &Context<'_>, value: &Value, first: &mut Option<Refusal>)
    ensures { first.new ≡ noted first.old
        (edit_refusals (seen_context context.now) (plain_value value.now)) }
{
    match shape_of(value) {
        Shape::Word(name, place) => {
            note_bundle_name(context, BundleType::EditLine, name, 0, place, first);
        }
        Shape::Call(name, arguments, place) => {
            let count = arguments.len();
            note_bundle_name(context, BundleType::EditLine, name, count, place, first);
            note_items(context, arguments, first);
        }
        _ => note_if(first, true, Code::WrongValue, place_of(value)),
    }
}

// Notes what is wrong with a text where an agent bundle is asked for.
fn note_method_text(context: &Context<'_>, text: &str, place: Place, first: &mut Option<Refusal>)
    ensures { first.new ≡ noted first.old
        (named_by_text (is_known text.now) (seen_context context.now) text.now place) }
{
    if is_known(text) {
        note_bundle_name(context, BundleType::Agent, text, 0, place, first);
    } else {
        note_if(first, true, Code::WrongValue, place);
    }
}

/// Notes what is wrong with a value where an agent bundle is asked for.
pub(crate) fn note_method_value(context: &Context<'_>, value: &Value, first: &mut Option<Refusal>)
    ensures { first.new ≡ noted first.old
        (method_refusals (seen_context context.now) (plain_value value.now)) }
{
    match shape_of(value) {
        Shape::Word(name, place) => {
            note_bundle_name(context, BundleType::Agent, name, 0, place, first);
        }
        Shape::Call(name, arguments, place) => {
            note_bundle_name(
                context,
                BundleType::Agent,
                name,
                arguments.len(),
                place,
                first,
            );
            note_items(context, arguments, first);
        }
        Shape::Text(content, place) => {
            note_method_text(context, content, place, first);
            note_text_scope(context, content, place, first);
        }
        _ => note_if(first, true, Code::WrongValue, place_of(value)),
    }
}
