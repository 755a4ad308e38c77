// What the attributes of bodies say.
ghost use Rattle.std.specs.Prelude.{◌≡◌, [], IfOk, option_copied};
ghost use Rattle.cfa_functions.specs.Calls.{list_given, text_given};
ghost use Rattle.cfa_tree.specs.Plain.{plain_attribute, plain_value};
ghost use Rattle.cfa_vars.specs.Named.{thing_at};
ghost use Rattle.cfa_vars.specs.Scopes.{in_scope};
ghost use Rattle.cfa_bodies.specs.Bodies.{text_of_said, list_of_said, has_many_items, said_by, read_attribute, saying_of, text_in, text_or_empty};

use cfa_base::{Name, Names, NoMemory};
use cfa_defines::has_many_items;
use cfa_functions::{ValueList, ValueText, list_of_value, text_of_value};
use cfa_kinds::{BodyType, Kind, body_attribute};
use cfa_tree::{Attribute, Value};
use cfa_vars::Scopes;
use std::alloc::Global;
use std::marker::Model;

/// What stands first under a name.
pub(crate) fn thing_at<'a, X>(things: &'a [(Name, X)], name: &str) -> Option<&'a X>
    ensures { option_copied result ≡ thing_at things.now name.now }
{
    for thing in things {
        if name == thing.0.as_str() {
            return Some(&thing.1);
        }
    }
    None
}

/// What an attribute of a body says.
#[derive(Drop)]
pub enum Said {
    Text(Name),
    Items(Names),
    /// Something in it is unresolved: this name, if it can be told.
    Unresolved(Option<Name>),
    /// A text of it is over the limit. The flag says whether it is one of a list of more than 4,096 items.
    Over(bool),
}

/// What a body says, under the names of its attributes.
#[derive(Drop)]
pub struct Sayings {
    items: Vec<(Name, Said)>,
}

impl Model for Sayings {
    ghost use Rattle.std.specs.Prelude.{List, ℕ};
    ghost use Rattle.cfa_bodies.specs.declared.sayings.Said.{Said};

    ghost Value = { List (List ℕ × Said) };

    ghost view = { λ s. s.items.items };
}

impl Sayings {
    /// What stands in a `Vec`, without taking memory.
    pub fn from_vec(items: Vec<(Name, Said)>) -> Sayings
        ensures { result ≡ items.items }
    {
        Sayings { items }
    }

    /// What is said, in the order of the attributes, without taking memory.
    pub fn as_slice(&self) -> &[(Name, Said)]
        ensures { result.now ≡ self.now }
    {
        self.items.as_slice()
    }

    /// What is said under a name, without taking memory.
    pub fn get(&self, name: &str) -> Option<&Said>
        ensures { option_copied result ≡ thing_at self.now name.now }
    {
        thing_at(self.items.as_slice(), name)
    }
}

fn list_said(alloc: Global, value: &Value, scopes: &Scopes<'_>) -> Result<Said, NoMemory>
    ensures { IfOk result (λ s. s
        ≡ list_of_said (has_many_items (in_scope scopes.now) (plain_value value.now))
        (list_given (in_scope scopes.now) [] (plain_value value.now))) }
{
    match list_of_value(alloc, value, scopes, &[])? {
        ValueList::Items(items) => Ok(Said::Items(items)),
        ValueList::Unresolved(name) => Ok(Said::Unresolved(name)),
        ValueList::TooLong => Ok(Said::Over(has_many_items(value, scopes))),
    }
}

fn text_said(alloc: Global, value: &Value, scopes: &Scopes<'_>) -> Result<Said, NoMemory>
    ensures { IfOk result (λ s. s
        ≡ text_of_said (text_given (in_scope scopes.now) [] (plain_value value.now))) }
{
    match text_of_value(alloc, value, scopes, &[])? {
        ValueText::Text(content) => Ok(Said::Text(content)),
        ValueText::Unresolved(name) => Ok(Said::Unresolved(name)),
        ValueText::TooLong => Ok(Said::Over(false)),
    }
}

fn said_by(
    alloc: Global,
    kind: Option<Kind>,
    value: &Value,
    scopes: &Scopes<'_>,
) -> Result<Option<Said>, NoMemory>
    ensures { IfOk result
        (λ s. s ≡ said_by (in_scope scopes.now) kind (plain_value value.now)) }
{
    match kind {
        None => Ok(None),
        Some(Kind::List | Kind::FullList) => Ok(Some(list_said(alloc, value, scopes)?)),
        Some(_) => Ok(Some(text_said(alloc, value, scopes)?)),
    }
}

fn read_attribute(body_type: BodyType, name: &str) -> Option<Kind>
    ensures { result ≡ read_attribute body_type name.now }
{
    if name == "dirlinks" {
        None
    } else {
        body_attribute(body_type, name)
    }
}

/// What an attribute of a body of a type says in the scopes of the body, under its name, if it is read.
pub(crate) fn saying_of(
    alloc: Global,
    body_type: BodyType,
    attribute: &Attribute,
    scopes: &Scopes<'_>,
) -> Result<Option<(Name, Said)>, NoMemory>
    ensures { IfOk result
        (λ s. s ≡ saying_of (in_scope scopes.now) body_type (plain_attribute attribute.now)) }
{
    let kind = read_attribute(body_type, attribute.name.as_str());
    match said_by(alloc, kind, &attribute.value, scopes)? {
        None => Ok(None),
        Some(said) => Ok(Some((attribute.name.copy(alloc)?, said))),
    }
}

/// What is said as a text, empty where it is none.
pub fn text_in(said: &Said) -> &str
    ensures { result.now ≡ text_in said.now }
{
    match said {
        Said::Text(content) => content.as_str(),
        Said::Items(_) => "",
        Said::Unresolved(_) => "",
        Said::Over(_) => "",
    }
}

/// What is said as a text, empty where none is or nothing is said.
pub fn text_or_empty<'s>(said: Option<&'s Said>) -> &'s str
    ensures { result.now ≡ text_or_empty (option_copied said.entry) }
{
    match said {
        None => "",
        Some(said) => text_in(said),
    }
}
