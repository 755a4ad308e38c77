// The files that are read with a policy.
ghost use Rattle.std.specs.Prelude.{◌≡◌, IfOk, map, take};
ghost use Rattle.cfa_tree.specs.Plain.{plain_policy, plain_value};
ghost use Rattle.cfa_values.specs.Kept.{item_name};
ghost use Rattle.cfa_served.specs.Control.{inputs_of, names_listed};

use crate::control::{control_attributes, listed_names};
use cfa_base::{MOST_INPUTS, Name, Names, NoMemory};
use cfa_tree::{Policy, Value};
use cfa_values::{Item, value_named};
use std::alloc::Global;

pub(crate) fn copy_names(alloc: Global, items: &[Item<'_>]) -> Result<Names, NoMemory>
    ensures { IfOk result (λ names. names ≡ map item_name items.now) }
{
    let mut names = Names::new(alloc);
    for item in items {
        names.push(Name::from_text(alloc, item.name)?)?;
    }
    Ok(names)
}

fn first_items<'a>(items: &'a [Item<'a>]) -> &'a [Item<'a>]
    ensures { result.now ≡ take MOST_INPUTS items.now }
{
    &items[..items.len().min(MOST_INPUTS)]
}

fn first_listed(alloc: Global, value: &Value) -> Result<Names, NoMemory>
    ensures { IfOk result (λ names.
        names ≡ take MOST_INPUTS (names_listed (plain_value value.now))) }
{
    let listed = listed_names(alloc, value)?;
    copy_names(alloc, first_items(&listed))
}

/// The names of the files that are read with a main file: the first 16 that its first `body common control` lists in
/// `inputs` as words or as texts without references.
#[tactic(auto, unfolding(crate::specs::Control::inputs_of))]
pub fn input_names(alloc: Global, policy: &Policy) -> Result<Names, NoMemory>
    ensures { IfOk result (λ names. names ≡ inputs_of (plain_policy policy.now)) }
{
    let control = control_attributes(policy.blocks.as_slice());
    match value_named(control, "inputs") {
        Some(value) => first_listed(alloc, value),
        None => Ok(Names::new(alloc)),
    }
}
