// Names with their places.
ghost use Rattle.std.specs.Prelude.{◌≡◌, IfOk, OnOk, map, option_map};
ghost use Rattle.std.specs.List.{filter_map};
ghost use Rattle.cfa_tree.specs.Plain.{plain_value};
ghost use Rattle.cfa_tree.specs.Tree.{text};
ghost use Rattle.cfa_values.specs.Refusals.{noted};
ghost use Rattle.cfa_values.specs.Kept.{seen_item};
ghost use Rattle.cfa_values.specs.Values.{known_named, repeated};

use crate::refusals::{Code, Refusal, note_if};
use crate::shapes::{Shape, shape_of};
use crate::texts::is_known;
use cfa_base::{NameIndex, NoMemory, Place};
use cfa_tree::Value;
use std::alloc::Global;

/// A name with its place.
#[derive(Clone, Copy, Debug)]
pub struct Item<'a> {
    pub name: &'a str,
    pub place: Place,
}

/// Notes each name of a list that stands before already.
pub fn note_repeated(
    alloc: Global,
    items: &[Item<'_>],
    first: &mut Option<Refusal>,
) -> Result<(), NoMemory>
    ensures { OnOk result (first.new ≡ noted first.old (repeated (map seen_item items.now))) }
{
    let mut names = NameIndex::new(alloc);
    for item in items {
        let is_new = names.add(item.name)?;
        note_if(first, !is_new, Code::Duplicate, item.place);
    }
    Ok(())
}

/// A text that is known before the run, with its place.
pub fn known_text(content: &str, place: Place) -> Option<Item<'_>>
    ensures { option_map seen_item result ≡ known_named (text content.now place) }
{
    if is_known(content) {
        Some(Item {
            name: content,
            place,
        })
    } else {
        None
    }
}

/// A word, or a text that is known before the run, with its place.
pub fn known_item(value: &Value) -> Option<Item<'_>>
    ensures { option_map seen_item result ≡ known_named (plain_value value.now) }
{
    match shape_of(value) {
        Shape::Text(content, place) => known_text(content, place),
        Shape::Word(name, place) => Some(Item { name, place }),
        _ => None,
    }
}

/// The items of a list that are known before the run, in order.
pub fn known_items<'a>(alloc: Global, items: &'a [Value]) -> Result<Vec<Item<'a>>, NoMemory>
    ensures { IfOk result (λ known. map seen_item known.items
        ≡ filter_map known_named (map plain_value items.now)) }
{
    let mut known = Vec::new(alloc);
    for value in items {
        if let Some(item) = known_item(value) {
            known.push(item)?;
        }
    }
    Ok(known)
}
