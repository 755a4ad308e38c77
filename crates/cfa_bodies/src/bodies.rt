// The bodies of a promise.
ghost use Rattle.std.specs.Prelude.{◌≡◌, [], ◌++◌, IfOk, OnOk, Some, map};
ghost use Rattle.std.specs.List.{cons_option, filter_map};
ghost use Rattle.cfa_tree.specs.declared.blocks.Block.TheVariants.{Body as a_body};
ghost use Rattle.cfa_tree.specs.Plain.{plain_attribute, plain_block, plain_promise, plain_value};
ghost use Rattle.cfa_tree.specs.Tree.{value_trees};
ghost use Rattle.cfa_vars.specs.Scopes.{in_scope};
ghost use Rattle.cfa_schema.specs.Seen.{tree_of};
ghost use Rattle.cfa_served.specs.Served.{body_of};
ghost use Rattle.cfa_defines.specs.OwnTexts.{arguments_of};
ghost use Rattle.cfa_bodies.specs.Bodies.{name_given, saying_of, sayings_in, body_by, bodies_of};

use crate::arguments::{bind, empty_text, name_given};
use crate::hearing::Bodies;
use crate::sayings::{Sayings, saying_of};
use cfa_base::{Name, NoMemory};
use cfa_defines::arguments_of;
use cfa_kinds::{BodyType, Kind, PromiseType, own_attribute};
use cfa_schema::Checked;
use cfa_tree::{Attribute, Body, Promise, Value};
use cfa_vars::Scopes;
use std::alloc::Global;

// Adds an item, if there is one.
fn push_if<T: Drop>(items: &mut Vec<T>, item: Option<T>) -> Result<(), NoMemory>
    ensures { OnOk result (items.new.items ≡ items.old.items ++ cons_option item []) }
{
    match item {
        Some(item) => Ok(items.push(item)?),
        None => Ok(()),
    }
}

fn sayings_of(
    alloc: Global,
    body_type: BodyType,
    attributes: &[Attribute],
    scopes: &Scopes<'_>,
) -> Result<Sayings, NoMemory>
    ensures { IfOk result (λ s. s ≡ filter_map (saying_of (in_scope scopes.now) body_type)
        (map plain_attribute attributes.now)) }
{
    let mut sayings = Vec::new(alloc);
    for attribute in attributes {
        push_if(
            &mut sayings,
            saying_of(alloc, body_type, attribute, scopes)?,
        )?;
    }
    Ok(Sayings::from_vec(sayings))
}

// What a body says that was given arguments. Its texts see its parameters and qualified names.
fn sayings_in(
    alloc: Global,
    body: &Body,
    body_type: BodyType,
    arguments: &[Value],
    scopes: &Scopes<'_>,
    choice: &[(Name, Name)],
) -> Result<Sayings, NoMemory>
    ensures { IfOk result (λ s. s ≡ sayings_in (in_scope scopes.now) choice.now body_type
        (value_trees (map plain_value arguments.now)) (Some (plain_block (a_body body.now)))) }
{
    let params = bind(alloc, body.params.as_slice(), arguments, scopes, choice)?;
    let own_name = empty_text(alloc)?;
    let inner = Scopes {
        own: &params,
        own_name: &own_name,
        shared: scopes.shared,
    };
    sayings_of(alloc, body_type, body.attributes.as_slice(), &inner)
}

// What a body says that an attribute names.
fn sayings_named(
    alloc: Global,
    checked: &Checked,
    body_type: BodyType,
    value: &Value,
    scopes: &Scopes<'_>,
    choice: &[(Name, Name)],
) -> Result<Sayings, NoMemory>
    ensures { IfOk result (λ s. s ≡ sayings_in (in_scope scopes.now) choice.now body_type
        (arguments_of (plain_value value.now))
        (body_of (tree_of checked.now) body_type (name_given (plain_value value.now)))) }
{
    match checked.body(body_type, name_given(value)) {
        None => Ok(Sayings::from_vec(Vec::new(alloc))),
        Some(body) => sayings_in(alloc, body, body_type, arguments_of(value), scopes, choice),
    }
}

fn body_by(
    alloc: Global,
    checked: &Checked,
    kind: Option<Kind>,
    attribute: &Attribute,
    scopes: &Scopes<'_>,
    choice: &[(Name, Name)],
) -> Result<Option<(Name, Sayings)>, NoMemory>
    ensures { IfOk result (λ b. b ≡ body_by (tree_of checked.now) (in_scope scopes.now) choice.now
        kind (plain_attribute attribute.now)) }
{
    match kind {
        Some(Kind::BodyOf(body_type)) => {
            let value = &attribute.value;
            let sayings = sayings_named(alloc, checked, body_type, value, scopes, choice)?;
            Ok(Some((attribute.name.copy(alloc)?, sayings)))
        }
        Some(_) => Ok(None),
        None => Ok(None),
    }
}

/// The bodies of a promise, with what they say in one combination of it.
#[tactic(auto, unfolding(crate::specs::Bodies::bodies_of))]
pub fn bodies_of(
    alloc: Global,
    checked: &Checked,
    promise_type: PromiseType,
    promise: &Promise,
    scopes: &Scopes<'_>,
    choice: &[(Name, Name)],
) -> Result<Bodies, NoMemory>
    ensures { IfOk result (λ b. b ≡ bodies_of (tree_of checked.now) (in_scope scopes.now)
        choice.now promise_type (plain_promise promise.now)) }
{
    let mut bodies = Vec::new(alloc);
    for attribute in promise.attributes.as_slice() {
        let kind = own_attribute(promise_type, attribute.name.as_str());
        push_if(
            &mut bodies,
            body_by(alloc, checked, kind, attribute, scopes, choice)?,
        )?;
    }
    Ok(Bodies::from_vec(bodies))
}
