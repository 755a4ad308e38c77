// Which agent bundle calls which.
ghost use Rattle.std.specs.Prelude.{◌≡◌, ◌∷◌, [], ◌++◌, IfOk, OnOk, if◌then◌else◌, map, option_map};
ghost use Rattle.std.specs.List.{flat_map};
ghost use Rattle.cfa_tree.specs.Plain.{plain_attribute, plain_block, plain_policy, plain_promise, plain_section, plain_value};
ghost use Rattle.cfa_calls.specs.Cycles.{seen_call};
ghost use Rattle.cfa_values.specs.Definitions.{is_one_of};
ghost use Rattle.cfa_values.specs.Kept.{seen_item};
ghost use Rattle.cfa_schema.specs.Valid.{call_in_attribute, called_by, callee_named, calls_in_block, calls_in_promise, calls_in_section, calls_of};

use cfa_base::{NameIndex, NoMemory};
use cfa_calls::Call;
use cfa_kinds::{BundleType, Kind, PromiseType, bundle_type, promise_attribute, promise_type};
use cfa_tree::{Attribute, Block, Bundle, Policy, Promise, Section, Value};
use cfa_values::{Item, Shape, known_text, shape_of};
use std::alloc::Global;

// The bundle that a value of `usebundle` names, with the value's place.
fn callee_in(value: &Value) -> Option<Item<'_>>
    ensures { option_map seen_item result ≡ callee_named (plain_value value.now) }
{
    match shape_of(value) {
        Shape::Text(content, place) => known_text(content, place),
        Shape::Word(name, place) => Some(Item { name, place }),
        Shape::Call(name, _, place) => Some(Item { name, place }),
        _ => None,
    }
}

fn call_by<'a>(caller: &'a str, value: &'a Value) -> Option<Call<'a>>
    ensures { option_map seen_call result
        ≡ called_by caller.now (callee_named (plain_value value.now)) }
{
    let callee = callee_in(value)?;
    Some(Call {
        caller,
        callee: callee.name,
        place: callee.place,
    })
}

fn call_in<'a>(caller: &'a str, attribute: &'a Attribute) -> Option<Call<'a>>
    ensures { option_map seen_call result
        ≡ call_in_attribute caller.now (plain_attribute attribute.now) }
{
    match promise_attribute(PromiseType::Methods, attribute.name.as_str()) {
        Some(Kind::AgentBundle) => call_by(caller, &attribute.value),
        _ => None,
    }
}

fn add_of_promise<'a>(
    calls: &mut Vec<Call<'a>>,
    caller: &'a str,
    promise: &'a Promise,
) -> Result<(), NoMemory>
    ensures { OnOk result (map seen_call calls.new.items ≡ map seen_call calls.old.items
        ++ calls_in_promise caller.now (plain_promise promise.now)) }
{
    for attribute in promise.attributes.as_slice() {
        if let Some(call) = call_in(caller, attribute) {
            calls.push(call)?;
        }
    }
    Ok(())
}

fn add_of_promises<'a>(
    calls: &mut Vec<Call<'a>>,
    caller: &'a str,
    promises: &'a [Promise],
) -> Result<(), NoMemory>
    ensures { OnOk result (map seen_call calls.new.items ≡ map seen_call calls.old.items
        ++ flat_map (calls_in_promise caller.now) (map plain_promise promises.now)) }
{
    for promise in promises {
        add_of_promise(calls, caller, promise)?;
    }
    Ok(())
}

fn add_of_section<'a>(
    calls: &mut Vec<Call<'a>>,
    caller: &'a str,
    section: &'a Section,
) -> Result<(), NoMemory>
    ensures { OnOk result (map seen_call calls.new.items ≡ map seen_call calls.old.items
        ++ calls_in_section caller.now (plain_section section.now)) }
{
    match promise_type(section.kind.as_str()) {
        Some(PromiseType::Methods) => add_of_promises(calls, caller, section.promises.as_slice()),
        _ => Ok(()),
    }
}

fn add_of_sections<'a>(
    calls: &mut Vec<Call<'a>>,
    caller: &'a str,
    sections: &'a [Section],
) -> Result<(), NoMemory>
    ensures { OnOk result (map seen_call calls.new.items ≡ map seen_call calls.old.items
        ++ flat_map (calls_in_section caller.now) (map plain_section sections.now)) }
{
    for section in sections {
        add_of_section(calls, caller, section)?;
    }
    Ok(())
}

fn add_of_bundle<'a>(calls: &mut Vec<Call<'a>>, bundle: &'a Bundle) -> Result<(), NoMemory>
    ensures { OnOk result (map seen_call calls.new.items
        ≡ map seen_call calls.old.items ++ calls_in_block (plain_block (Block.Bundle bundle.now))) }
{
    let caller = bundle.name.name.as_str();
    match bundle_type(bundle.kind.name.as_str()) {
        Some(BundleType::Agent) => add_of_sections(calls, caller, bundle.sections.as_slice()),
        _ => Ok(()),
    }
}

// Adds the calls of a bundle whose name none before it has, and its name to theirs.
fn add_if_first<'a>(
    calls: &mut Vec<Call<'a>>,
    names: &mut NameIndex<'a>,
    bundle: &'a Bundle,
) -> Result<(), NoMemory>
    ensures calls { OnOk result (map seen_call calls.new.items ≡ map seen_call calls.old.items
        ++ (if is_one_of bundle.now.name.name names.old then []
        else calls_in_block (plain_block (Block.Bundle bundle.now)))) }
    ensures names { OnOk result (names.new ≡ names.old ++ bundle.now.name.name ∷ []) }
{
    let is_first = names.add(bundle.name.name.as_str())?;
    if is_first {
        add_of_bundle(calls, bundle)?;
    }
    Ok(())
}

/// The calls of bundles by the methods promises of agent bundles, in text order. Of a name the first bundle alone calls.
#[tactic(auto, unfolding(crate::specs::Valid::calls_of))]
pub(crate) fn calls_of<'a>(alloc: Global, policy: &'a Policy) -> Result<Vec<Call<'a>>, NoMemory>
    ensures { IfOk result (λ calls. map seen_call calls.items
        ≡ calls_of (plain_policy policy.now)) }
{
    let mut calls = Vec::new(alloc);
    let mut names = NameIndex::new(alloc);
    for block in policy.blocks.as_slice() {
        if let Block::Bundle(bundle) = block {
            add_if_first(&mut calls, &mut names, bundle)?;
        }
    }
    Ok(calls)
}
