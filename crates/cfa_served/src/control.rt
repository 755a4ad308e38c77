// What `body common control` says, and what is known before the run.
ghost use Rattle.std.specs.Prelude.{◌≡◌, ◌∷◌, [], IfOk, Some, codes, map, option_map};
ghost use Rattle.std.specs.List.{filter_map};
ghost use Rattle.cfa_tree.specs.Plain.{plain_attribute, plain_block, plain_named, plain_policy, plain_value};
ghost use Rattle.cfa_tree.specs.Tree.{text};
ghost use Rattle.cfa_served.specs.Parts.{control_in};
ghost use Rattle.cfa_values.specs.Kept.{item_name, seen_item};
ghost use Rattle.cfa_served.specs.Control.{control_of, is_control, names_listed, sequence_of};
ghost use Rattle.cfa_served.specs.Served.{common_bundles_of, is_common, minutes_in, or_one};
ghost use Rattle.cfa_values.specs.Values.{known_named};

use crate::inputs::copy_names;
use cfa_base::{Name, Names, NoMemory};
use cfa_kinds::{BundleType, bundle_type, minutes};
use cfa_tree::{Attribute, Block, Body, Bundle, Named, Policy, Value};
use cfa_values::{Item, Shape, known_item, known_items, shape_of, value_named};
use std::alloc::Global;

fn is_control(kind: &Named, name: &Named) -> bool
    ensures { result ≡ is_control (plain_named kind.now) (plain_named name.now) }
{
    kind.name.as_str() == "common" && name.name.as_str() == "control"
}

// The attributes of a block, where it is `body common control`.
fn control_in(block: &Block) -> Option<&[Attribute]>
    ensures { option_map (λ attributes. map plain_attribute attributes.now) result
        ≡ control_in (plain_block block.now) }
{
    match block {
        Block::Bundle(_) => None,
        Block::Body(body) => {
            if is_control(&body.kind, &body.name) {
                Some(body.attributes.as_slice())
            } else {
                None
            }
        }
    }
}

/// The attributes of the first `body common control`, and none where there is no such body.
pub fn control_attributes(blocks: &[Block]) -> &[Attribute]
    ensures { map plain_attribute result.now ≡ control_of (map plain_block blocks.now) }
{
    for block in blocks {
        if let Some(attributes) = control_in(block) {
            return attributes;
        }
    }
    &[]
}

/// The names that a list names before the run, in order; a value that is no list names none.
pub fn listed_names<'a>(alloc: Global, value: &'a Value) -> Result<Vec<Item<'a>>, NoMemory>
    ensures { IfOk result (λ listed. map item_name listed.items
        ≡ names_listed (plain_value value.now)) }
{
    match shape_of(value) {
        Shape::List(items, _) => known_items(alloc, items),
        _ => Ok(Vec::new(alloc)),
    }
}

fn default_names(alloc: Global) -> Result<Names, NoMemory>
    ensures { IfOk result (λ names. names ≡ codes "main" ∷ []) }
{
    let mut names = Names::new(alloc);
    names.push(Name::from_text(alloc, "main")?)?;
    Ok(names)
}

fn names_in(alloc: Global, value: &Value) -> Result<Names, NoMemory>
    ensures { IfOk result (λ names. names ≡ names_listed (plain_value value.now)) }
{
    let listed = listed_names(alloc, value)?;
    copy_names(alloc, &listed)
}

/// The names of the bundles that are activated, in order: those of the first `bundlesequence`, else `main`.
#[tactic(auto, unfolding(crate::specs::Control::sequence_of))]
pub fn sequence_names(alloc: Global, policy: &Policy) -> Result<Names, NoMemory>
    ensures { IfOk result (λ names. names ≡ sequence_of (plain_policy policy.now)) }
{
    let control = control_attributes(policy.blocks.as_slice());
    match value_named(control, "bundlesequence") {
        Some(value) => names_in(alloc, value),
        None => default_names(alloc),
    }
}

fn is_common(bundle: &Bundle) -> bool
    ensures { result ≡ is_common (plain_block (Block.Bundle bundle.now)) }
{
    matches!(
        bundle_type(bundle.kind.name.as_str()),
        Some(BundleType::Common)
    )
}

/// The common bundles, in text order.
#[tactic(auto, unfolding(crate::specs::Served::common_bundles_of))]
pub fn common_bundles<'a>(alloc: Global, blocks: &'a [Block]) -> Result<Vec<&'a Bundle>, NoMemory>
    ensures { IfOk result
        (λ bundles. map (λ bundle. plain_block (Block.Bundle bundle.now)) bundles.items
        ≡ common_bundles_of (map plain_block blocks.now)) }
{
    let mut bundles = Vec::new(alloc);
    for block in blocks {
        if let Block::Bundle(bundle) = block
            && is_common(bundle)
        {
            bundles.push(bundle)?;
        }
    }
    Ok(bundles)
}

// The minutes that a body gives.
fn minutes_in(body: &Body) -> Option<u64>
    ensures { result ≡ minutes_in (Some (plain_block (Block.Body body.now))) }
{
    let value = value_named(body.attributes.as_slice(), "ifelapsed")?;
    let item = known_item(value)?;
    minutes(item.name)
}

/// The minutes that `body agent control` gives for all promises, where `agent` is that body; 1 where they are missing.
pub fn agent_minutes(agent: Option<&Body>) -> u64
    ensures { result ≡ or_one
        (minutes_in (option_map (λ body. plain_block (Block.Body body.now)) agent.entry)) }
{
    match agent {
        Some(body) => minutes_in(body).unwrap_or(1),
        None => 1,
    }
}
