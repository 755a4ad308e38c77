// What the arguments of bodies and bundles give.
ghost use Rattle.std.specs.Prelude.{◌≡◌, [], IfOk, map};
ghost use Rattle.cfa_tree.specs.Plain.{plain_named, plain_value};
ghost use Rattle.cfa_tree.specs.Tree.{value_trees};
ghost use Rattle.cfa_vars.specs.Scopes.{in_scope, look};
ghost use Rattle.cfa_defines.specs.OwnTexts.{held_list};
ghost use Rattle.cfa_defines.specs.Items.{items_or_none};
ghost use Rattle.cfa_bodies.specs.Bodies.{whole_or_empty, datum_given, data_given, bound, name_given};

use cfa_base::{Name, Names, NoMemory};
use cfa_defines::held_list;
use cfa_functions::{ValueText, referred_list, text_of_value};
use cfa_tree::{Named, Value};
use cfa_vars::{Datum, Scope, Scopes};
use std::alloc::Global;

/// The empty text.
pub fn empty_text(alloc: Global) -> Result<Name, NoMemory>
    ensures { IfOk result (λ text. text ≡ []) }
{
    Name::from_text(alloc, "")
}

/// The text, empty where there is none.
pub fn whole_or_empty(alloc: Global, text: ValueText) -> Result<Name, NoMemory>
    ensures { IfOk result (λ whole. whole ≡ whole_or_empty text) }
{
    match text {
        ValueText::Text(content) => Ok(content),
        ValueText::Unresolved(_) => empty_text(alloc),
        ValueText::TooLong => empty_text(alloc),
    }
}

fn items_named(alloc: Global, name: &str, scopes: &Scopes<'_>) -> Result<Names, NoMemory>
    ensures { IfOk result (λ items. items
        ≡ items_or_none (held_list (look (in_scope scopes.now) name.now))) }
{
    match held_list(scopes, name) {
        Some(items) => items.copy(alloc),
        None => Ok(Names::new(alloc)),
    }
}

#[tactic(auto, unfolding(crate::specs::Bodies::datum_given))]
fn datum_given(
    alloc: Global,
    value: &Value,
    scopes: &Scopes<'_>,
    choice: &[(Name, Name)],
) -> Result<Datum, NoMemory>
    ensures { IfOk result
        (λ d. d ≡ datum_given (in_scope scopes.now) choice.now (plain_value value.now)) }
{
    match referred_list(value) {
        Some(name) => Ok(Datum::List(items_named(alloc, name, scopes)?)),
        None => {
            let text = text_of_value(alloc, value, scopes, choice)?;
            Ok(Datum::Text(whole_or_empty(alloc, text)?))
        }
    }
}

/// What values give as arguments, in their order.
pub fn data_given(
    alloc: Global,
    values: &[Value],
    scopes: &Scopes<'_>,
    choice: &[(Name, Name)],
) -> Result<Vec<Datum>, NoMemory>
    ensures { IfOk result (λ held. held.items
        ≡ data_given (in_scope scopes.now) choice.now (value_trees (map plain_value values.now))) }
{
    let mut held = Vec::new(alloc);
    for value in values {
        held.push(datum_given(alloc, value, scopes, choice)?)?;
    }
    Ok(held)
}

/// The parameters with what the values give.
pub fn bind(
    alloc: Global,
    params: &[Named],
    values: &[Value],
    scopes: &Scopes<'_>,
    choice: &[(Name, Name)],
) -> Result<Scope, NoMemory>
    ensures { IfOk result (λ table. table ≡ bound (map plain_named params.now)
        (data_given (in_scope scopes.now) choice.now (value_trees (map plain_value values.now)))) }
{
    let mut table = Scope::new(alloc);
    for (place, param) in params.iter().enumerate() {
        if place >= values.len() {
            return Ok(table);
        }
        let datum = datum_given(alloc, &values[place], scopes, choice)?;
        table.set(param.name.copy(alloc)?, datum)?;
    }
    Ok(table)
}

/// The name of a body or bundle in a value.
pub fn name_given(value: &Value) -> &str
    ensures { result.now ≡ name_given (plain_value value.now) }
{
    match value {
        Value::Text(content, _) => content.as_str(),
        Value::Word(name, _) => name.as_str(),
        Value::Call(name, _, _) => name.as_str(),
        Value::Ref(_, _) => "",
        Value::ListRef(_, _) => "",
        Value::List(_, _) => "",
    }
}
