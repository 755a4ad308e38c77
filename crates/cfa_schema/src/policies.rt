// A policy as a whole.
ghost use Rattle.std.specs.Prelude.{◌≡◌, IfOk, OnOk, Some, [], map, codes, option_map};
ghost use Rattle.std.specs.List.{flat_map, filter_map};
ghost use Rattle.cfa_tree.specs.Plain.{plain_attribute, plain_block, plain_policy};
ghost use Rattle.cfa_values.specs.Attributes.{value_of};
ghost use Rattle.cfa_schema.specs.Defined.{definitions_of};
ghost use Rattle.cfa_values.specs.Definitions.{is_agent, bundle_named};
ghost use Rattle.cfa_values.specs.Refusals.{noted};
ghost use Rattle.cfa_values.specs.Kept.{seen_item};
ghost use Rattle.cfa_schema.specs.Valid.{bundle_name, body_name, repeated_bodies_after, main_refusals, default_refusals, refusals};
ghost use Rattle.cfa_values.specs.Values.{repeated};

use crate::blocks::note_blocks;
use cfa_base::{NoMemory, PairIndex};
use cfa_kinds::BundleType;
use cfa_served::control_attributes;
use cfa_tree::{Attribute, Block, Policy};
use cfa_values::{Code, Definitions, Item, Refusal, has_attribute, note_if, note_repeated};
use std::alloc::Global;

// The names of bundles with their places.
fn bundle_items<'a>(alloc: Global, blocks: &'a [Block]) -> Result<Vec<Item<'a>>, NoMemory>
    ensures { IfOk result (λ items. map seen_item items.items
        ≡ filter_map bundle_name (map plain_block blocks.now)) }
{
    let mut items = Vec::new(alloc);
    for block in blocks {
        if let Block::Bundle(bundle) = block {
            items.push(Item {
                name: bundle.name.name.as_str(),
                place: bundle.name.place,
            })?;
        }
    }
    Ok(items)
}

// Notes each body that stands before already, by its type and name.
fn note_repeated_bodies(
    alloc: Global,
    blocks: &[Block],
    first: &mut Option<Refusal>,
) -> Result<(), NoMemory>
    ensures { OnOk result (first.new ≡ noted first.old
        (repeated_bodies_after [] (filter_map body_name (map plain_block blocks.now)))) }
{
    let mut bodies = PairIndex::new(alloc);
    for block in blocks {
        if let Block::Body(body) = block {
            let is_new = bodies.add(body.kind.name.as_str(), body.name.name.as_str())?;
            note_if(first, !is_new, Code::Duplicate, body.name.place);
        }
    }
    Ok(())
}

fn is_agent(bundle_type: Option<BundleType>) -> bool
    ensures { result ≡ is_agent bundle_type }
{
    matches!(bundle_type, Some(BundleType::Agent))
}

// Notes a bundle `main` that is activated without arguments and has parameters.
fn note_main(definitions: &Definitions<'_>, first: &mut Option<Refusal>)
    ensures { first.new ≡ noted first.old
        (main_refusals (bundle_named definitions.now (codes "main"))) }
{
    match definitions.find_bundle("main") {
        Some(main) => {
            let is_wrong = is_agent(main.bundle_type) && main.params > 0;
            note_if(first, is_wrong, Code::ArgumentCount, main.place);
        }
        None => {}
    }
}

// Notes what is wrong with the sequence that there is without a bundlesequence.
fn note_default(definitions: &Definitions<'_>, control: &[Attribute], first: &mut Option<Refusal>)
    ensures { first.new ≡ noted first.old
        (default_refusals definitions.now
        (value_of (codes "bundlesequence") (map plain_attribute control.now))) }
{
    if !has_attribute(control, "bundlesequence") {
        note_main(definitions, first);
    }
}

/// Notes the refusals of a policy by the lines of the table but that on cycles.
pub(crate) fn note_table(
    alloc: Global,
    policy: &Policy,
    definitions: &Definitions<'_>,
    first: &mut Option<Refusal>,
) -> Result<(), NoMemory>
    requires { definitions.now ≡ definitions_of (plain_policy policy.now) }
    ensures { OnOk result (first.new ≡ noted first.old (refusals (plain_policy policy.now))) }
{
    let blocks = policy.blocks.as_slice();
    note_repeated(alloc, &bundle_items(alloc, blocks)?, first)?;
    note_repeated_bodies(alloc, blocks, first)?;
    note_default(definitions, control_attributes(blocks), first);
    note_blocks(alloc, definitions, blocks, first)
}
