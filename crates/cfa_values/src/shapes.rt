// A value with its parts borrowed.
ghost use Rattle.std.specs.Prelude.{◌≡◌};
ghost use Rattle.cfa_tree.specs.Plain.{plain_value};
ghost use Rattle.cfa_values.specs.Seen.{shaped};
ghost use Rattle.cfa_values.specs.Values.{place_of};

use cfa_base::Place;
use cfa_tree::Value;

/// A value with its place, its text or name, and its items or arguments.
#[derive(Clone, Copy)]
pub enum Shape<'a> {
    Text(&'a str, Place),
    Word(&'a str, Place),
    Reference(&'a str, Place),
    ListReference(&'a str, Place),
    List(&'a [Value], Place),
    Call(&'a str, &'a [Value], Place),
}

pub fn shape_of(value: &Value) -> Shape<'_>
    ensures { shaped result ≡ plain_value value.now }
{
    match value {
        Value::Text(content, place) => Shape::Text(content.as_str(), *place),
        Value::Word(name, place) => Shape::Word(name.as_str(), *place),
        Value::Ref(name, place) => Shape::Reference(name.as_str(), *place),
        Value::ListRef(name, place) => Shape::ListReference(name.as_str(), *place),
        Value::List(items, place) => Shape::List(items.as_slice(), *place),
        Value::Call(name, arguments, place) => {
            Shape::Call(name.as_str(), arguments.as_slice(), *place)
        }
    }
}

/// The place of a value.
pub(crate) fn place_of(value: &Value) -> Place
    ensures { result ≡ place_of (plain_value value.now) }
{
    match shape_of(value) {
        Shape::Text(_, place) => place,
        Shape::Word(_, place) => place,
        Shape::Reference(_, place) => place,
        Shape::ListReference(_, place) => place,
        Shape::List(_, place) => place,
        Shape::Call(_, _, place) => place,
    }
}
