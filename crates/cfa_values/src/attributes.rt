// The attributes of a promise or body.
ghost use Rattle.std.specs.Prelude.{◌≡◌, IfOk, OnOk, map, option_map};
ghost use Rattle.cfa_tree.specs.Plain.{plain_attribute, plain_value};
ghost use Rattle.cfa_values.specs.Seen.{seen_context, kind_in};
ghost use Rattle.cfa_values.specs.Attributes.{value_of, attribute_name, attribute_refusals, attributes_refusals, has_attribute};
ghost use Rattle.cfa_values.specs.Refusals.{noted};
ghost use Rattle.cfa_values.specs.Kept.{seen_item};

use crate::context::Context;
use crate::items::{Item, note_repeated};
use crate::refusals::{Code, Refusal, note_if};
use crate::values::note_value;
use cfa_base::NoMemory;
use cfa_kinds::{BodyType, Kind, PromiseType, body_attribute, promise_attribute};
use cfa_tree::{Attribute, Value};
use std::alloc::Global;

/// Whose attributes they are.
#[derive(Clone, Copy, Debug, PartialEq, Eq)]
pub enum Table {
    OfPromise(PromiseType),
    OfBody(BodyType),
}

impl Table {
    /// What an attribute takes. `None` where there is none of the name.
    fn kind_of(self, name: &str) -> Option<Kind>
        ensures { result ≡ kind_in self name.now }
    {
        match self {
            Table::OfPromise(promise) => promise_attribute(promise, name),
            Table::OfBody(body) => body_attribute(body, name),
        }
    }
}

/// The value of the first attribute of a name.
pub fn value_named<'a>(attributes: &'a [Attribute], name: &str) -> Option<&'a Value>
    ensures { option_map (λ value. plain_value value.now) result
        ≡ value_of name.now (map plain_attribute attributes.now) }
{
    for attribute in attributes {
        if attribute.name.as_str() == name {
            return Some(&attribute.value);
        }
    }
    None
}

/// Whether there is an attribute of a name.
pub fn has_attribute(attributes: &[Attribute], name: &str) -> bool
    ensures { result ≡ has_attribute (map plain_attribute attributes.now) name.now }
{
    value_named(attributes, name).is_some()
}

// The names of attributes with their places.
fn attribute_names<'a>(
    alloc: Global,
    attributes: &'a [Attribute],
) -> Result<Vec<Item<'a>>, NoMemory>
    ensures { IfOk result (λ names. map seen_item names.items
        ≡ map attribute_name (map plain_attribute attributes.now)) }
{
    let mut names = Vec::with_capacity(alloc, attributes.len())?;
    for attribute in attributes {
        names.push(Item {
            name: attribute.name.as_str(),
            place: attribute.place,
        })?;
    }
    Ok(names)
}

fn note_attribute(
    alloc: Global,
    context: &Context<'_>,
    table: Table,
    attribute: &Attribute,
    first: &mut Option<Refusal>,
) -> Result<(), NoMemory>
    ensures { OnOk result (first.new ≡ noted first.old
        (attribute_refusals (seen_context context.now) (kind_in table)
        (plain_attribute attribute.now))) }
{
    match table.kind_of(attribute.name.as_str()) {
        Some(kind) => note_value(alloc, context, kind, &attribute.value, first),
        None => {
            note_if(first, true, Code::UnknownAttribute, attribute.place);
            Ok(())
        }
    }
}

/// Notes the refusals of the attributes of a promise or body.
pub fn note_attributes(
    alloc: Global,
    context: &Context<'_>,
    table: Table,
    attributes: &[Attribute],
    first: &mut Option<Refusal>,
) -> Result<(), NoMemory>
    ensures { OnOk result (first.new ≡ noted first.old
        (attributes_refusals (seen_context context.now) (kind_in table)
        (map plain_attribute attributes.now))) }
{
    note_repeated(alloc, &attribute_names(alloc, attributes)?, first)?;
    for attribute in attributes {
        note_attribute(alloc, context, table, attribute, first)?;
    }
    Ok(())
}
