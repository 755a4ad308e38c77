// The lists that values give.
ghost use Rattle.std.specs.Prelude.{◌≡◌, ◌++◌, IfOk, OnOk, Some, map};
ghost use Rattle.cfa_tree.specs.Plain.{plain_value};
ghost use Rattle.cfa_tree.specs.Tree.{value_trees};
ghost use Rattle.cfa_vars.specs.Scopes.{in_scope, look};
ghost use Rattle.cfa_functions.specs.declared.listing.ValueList.TheVariants.{Unresolved};
ghost use Rattle.cfa_functions.specs.Calls.{items_under, one_item, item_given, items_given, list_given};

use crate::reading::{ValueText, referred_list, text_of_value};
use cfa_base::{Name, Names, NoMemory};
use cfa_tree::Value;
use cfa_vars::{Scopes, Variable, look_up};
use std::alloc::Global;

/// What a value gives where a list is wanted.
#[derive(Debug, Drop)]
pub enum ValueList {
    Items(Names),
    /// The first name, of a text or a list, that stands for nothing, where it is one that keeps the value from having a
    /// list.
    Unresolved(Option<Name>),
    /// Nothing that can be told is unresolved, and an item, or a text in a nested call, has more than 65,536 bytes.
    TooLong,
}

// What a name gives that is that of no list.
fn no_list(alloc: Global, name: &str) -> Result<ValueList, NoMemory>
    ensures { IfOk result (λ l. l ≡ Unresolved (Some name.now)) }
{
    Ok(ValueList::Unresolved(Some(Name::from_text(alloc, name)?)))
}

fn items_under(alloc: Global, name: &str, scopes: &Scopes<'_>) -> Result<ValueList, NoMemory>
    ensures { IfOk result (λ l. l ≡ items_under name.now (look (in_scope scopes.now) name.now)) }
{
    match look_up(scopes, name) {
        Some(Variable::List(items)) => Ok(ValueList::Items(items.copy(alloc)?)),
        Some(Variable::Text(_)) => no_list(alloc, name),
        None => no_list(alloc, name),
    }
}

fn one_item(alloc: Global, text: ValueText) -> Result<ValueList, NoMemory>
    ensures { IfOk result (λ l. l ≡ one_item text) }
{
    match text {
        ValueText::Text(text) => {
            let mut items = Names::new(alloc);
            items.push(text)?;
            Ok(ValueList::Items(items))
        }
        ValueText::Unresolved(name) => Ok(ValueList::Unresolved(name)),
        ValueText::TooLong => Ok(ValueList::TooLong),
    }
}

fn item_given(
    alloc: Global,
    value: &Value,
    scopes: &Scopes<'_>,
    choice: &[(Name, Name)],
) -> Result<ValueList, NoMemory>
    ensures { IfOk result (λ l. l
        ≡ item_given (in_scope scopes.now) choice.now (plain_value value.now)) }
{
    match referred_list(value) {
        Some(name) => items_under(alloc, name, scopes),
        None => one_item(alloc, text_of_value(alloc, value, scopes, choice)?),
    }
}

fn append(alloc: Global, items: &mut Names, more: &[Name]) -> Result<(), NoMemory>
    ensures { OnOk result (items.new ≡ items.old ++ more.now) }
{
    for item in more {
        items.push(item.copy(alloc)?)?;
    }
    Ok(())
}

fn items_given(
    alloc: Global,
    values: &[Value],
    scopes: &Scopes<'_>,
    choice: &[(Name, Name)],
) -> Result<ValueList, NoMemory>
    ensures { IfOk result (λ l. l
        ≡ items_given (in_scope scopes.now) choice.now (value_trees (map plain_value values.now))) }
{
    let mut items = Names::new(alloc);
    let mut is_too_long = false;
    for value in values {
        match item_given(alloc, value, scopes, choice)? {
            ValueList::Items(more) => append(alloc, &mut items, more.as_slice())?,
            ValueList::Unresolved(name) => return Ok(ValueList::Unresolved(name)),
            ValueList::TooLong => is_too_long = true,
        }
    }
    if is_too_long {
        return Ok(ValueList::TooLong);
    }
    Ok(ValueList::Items(items))
}

/// The list that a value gives, by the scopes and the items that are chosen for lists: a list its items in their order,
/// those of a list reference in the place of the reference, and a list reference, also a text that is wholly one, the
/// items of its list. `Unresolved` goes before `TooLong`, and tells the first name in the order of the items. Every other
/// value gives no list, and is `Unresolved` without a name.
#[tactic(auto, unfolding(crate::specs::Calls::list_given))]
pub fn list_of_value(
    alloc: Global,
    value: &Value,
    scopes: &Scopes<'_>,
    choice: &[(Name, Name)],
) -> Result<ValueList, NoMemory>
    ensures { IfOk result (λ l. l
        ≡ list_given (in_scope scopes.now) choice.now (plain_value value.now)) }
{
    if let Some(name) = referred_list(value) {
        return items_under(alloc, name, scopes);
    }
    match value {
        Value::List(items, _) => items_given(alloc, items.as_slice(), scopes, choice),
        _ => Ok(ValueList::Unresolved(None)),
    }
}
