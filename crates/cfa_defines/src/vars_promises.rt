// What vars promises set.
ghost use Rattle.std.specs.Prelude.{◌≡◌, IfOk};
ghost use Rattle.cfa_tree.specs.Plain.{plain_promise};
ghost use Rattle.cfa_vars.specs.Scopes.{in_scope};
ghost use Rattle.cfa_defines.specs.VarsPromises.{text_set, number_set, list_set, given_in, data_from, data_set};

use cfa_base::{Name, NoMemory};
use cfa_functions::{ValueList, ValueText, list_of_value, text_of_value};
use cfa_kinds::{Form, has_form};
use cfa_tree::Promise;
use cfa_values::value_named;
use cfa_vars::{Choice, ChoiceList, Datum, Scopes};
use std::alloc::Global;

/// What one combination of a vars promise gives.
#[derive(Drop)]
pub(crate) enum Given {
    Gives(Datum),
    Nothing,
    /// The promise sets nothing as a whole.
    TooLong,
}

fn text_set(text: ValueText) -> Given
    ensures { result ≡ text_set text }
{
    match text {
        ValueText::Text(content) => Given::Gives(Datum::Text(content)),
        ValueText::Unresolved(_) => Given::Nothing,
        ValueText::TooLong => Given::TooLong,
    }
}

fn number_set(text: ValueText) -> Given
    ensures { result ≡ number_set text }
{
    match text {
        ValueText::Text(content) => {
            if has_form(Form::WholeNumber, content.as_str()) {
                Given::Gives(Datum::Text(content))
            } else {
                Given::Nothing
            }
        }
        ValueText::Unresolved(_) => Given::Nothing,
        ValueText::TooLong => Given::TooLong,
    }
}

fn list_set(list: ValueList) -> Given
    ensures { result ≡ list_set list }
{
    match list {
        ValueList::Items(items) => Given::Gives(Datum::List(items)),
        ValueList::Unresolved(_) => Given::Nothing,
        ValueList::TooLong => Given::TooLong,
    }
}

fn given_in(
    alloc: Global,
    promise: &Promise,
    choice: &[(Name, Name)],
    scopes: &Scopes<'_>,
) -> Result<Given, NoMemory>
    ensures { IfOk result
        (λ g. g ≡ given_in (in_scope scopes.now) (plain_promise promise.now) choice.now) }
{
    let attributes = promise.attributes.as_slice();
    if let Some(value) = value_named(attributes, "string") {
        return Ok(text_set(text_of_value(alloc, value, scopes, choice)?));
    }
    if let Some(value) = value_named(attributes, "int") {
        return Ok(number_set(text_of_value(alloc, value, scopes, choice)?));
    }
    match value_named(attributes, "slist") {
        Some(value) => Ok(list_set(list_of_value(alloc, value, scopes, choice)?)),
        None => Ok(Given::Nothing),
    }
}

fn data_from(
    alloc: Global,
    promise: &Promise,
    choices: &[Choice],
    scopes: &Scopes<'_>,
) -> Result<Vec<Datum>, NoMemory>
    ensures { IfOk result (λ set. set.items
        ≡ data_from (in_scope scopes.now) (plain_promise promise.now) choices.now) }
{
    let mut set = Vec::new(alloc);
    for choice in choices {
        match given_in(alloc, promise, choice.as_slice(), scopes)? {
            Given::Gives(datum) => set.push(datum)?,
            Given::Nothing => {}
            Given::TooLong => return Ok(Vec::new(alloc)),
        }
    }
    Ok(set)
}

/// What a vars promise sets in its combinations, one after the other. All of them read the scopes as they are handed in. A
/// text that is too long in one of them keeps the promise from setting anything; where a call is unresolved, or a number is
/// none, only that combination sets nothing.
#[tactic(auto, unfolding(crate::specs::VarsPromises::data_set))]
pub fn data_set(
    alloc: Global,
    promise: &Promise,
    choices: &Option<ChoiceList>,
    scopes: &Scopes<'_>,
) -> Result<Vec<Datum>, NoMemory>
    ensures { IfOk result (λ set. set.items
        ≡ data_set (in_scope scopes.now) (plain_promise promise.now) choices.now) }
{
    match choices {
        None => Ok(Vec::new(alloc)),
        Some(choices) => data_from(alloc, promise, choices.as_slice(), scopes),
    }
}
