// The combinations of promises that set variables or classes.
ghost use Rattle.std.specs.Prelude.{◌≡◌, IfOk, map};
ghost use Rattle.std.specs.List.{list_any};
ghost use Rattle.cfa_tree.specs.Plain.{plain_attribute, plain_promise};
ghost use Rattle.cfa_vars.specs.Scopes.{in_scope};
ghost use Rattle.cfa_defines.specs.VarsPromises.{is_list_kind, has_long_list, setting_choices, count_choices};

use crate::combining::choose;
use crate::items::has_many_items;
use crate::reads::own_reads;
use cfa_base::NoMemory;
use cfa_kinds::{Kind, PromiseType, own_attribute};
use cfa_tree::{Attribute, Promise};
use cfa_vars::{ChoiceList, Scopes};
use std::alloc::Global;

fn is_list_kind(kind: Option<Kind>) -> bool
    ensures { result ≡ is_list_kind kind }
{
    matches!(kind, Some(Kind::List | Kind::ClassTexts))
}

fn has_long_list(promise_type: PromiseType, attribute: &Attribute, scopes: &Scopes<'_>) -> bool
    ensures { result
        ≡ has_long_list (in_scope scopes.now) promise_type (plain_attribute attribute.now) }
{
    if is_list_kind(own_attribute(promise_type, attribute.name.as_str())) {
        has_many_items(&attribute.value, scopes)
    } else {
        false
    }
}

fn have_long_list(promise_type: PromiseType, attributes: &[Attribute], scopes: &Scopes<'_>) -> bool
    ensures { result ≡ list_any (has_long_list (in_scope scopes.now) promise_type)
        (map plain_attribute attributes.now) }
{
    for attribute in attributes {
        if has_long_list(promise_type, attribute, scopes) {
            return true;
        }
    }
    false
}

/// The combinations of a vars or classes promise; `None` where it does nothing as a whole. That a text of it is too long is
/// told later, where its value is read.
#[tactic(auto, unfolding(crate::specs::VarsPromises::setting_choices))]
pub fn setting_choices(
    alloc: Global,
    promise_type: PromiseType,
    promise: &Promise,
    scopes: &Scopes<'_>,
) -> Result<Option<ChoiceList>, NoMemory>
    ensures { IfOk result (λ c. c
        ≡ setting_choices (in_scope scopes.now) promise_type (plain_promise promise.now)) }
{
    let reads = own_reads(alloc, promise_type, promise)?;
    if have_long_list(promise_type, promise.attributes.as_slice(), scopes) {
        return Ok(None);
    }
    choose(alloc, reads, scopes)
}

/// How many visits such a promise counts, one where it has no combination, without taking memory.
pub fn count_choices(choices: &Option<ChoiceList>) -> u64
    ensures { result ≡ count_choices choices.now }
{
    match choices {
        None => 1,
        Some(choices) => {
            let count = choices.as_slice().len();
            if count == 0 { 1 } else { count as u64 }
        }
    }
}
