// What a policy defines.
ghost use Rattle.std.specs.Prelude.{◌≡◌, ◌∷◌, [], codes, IfOk, OnOk, map, option_map};
ghost use Rattle.cfa_tree.specs.Plain.{plain_block, plain_named, plain_policy, plain_value};
ghost use Rattle.cfa_schema.specs.Collected.{bundle_head_of, body_head_of, with_block};
ghost use Rattle.cfa_schema.specs.Defined.{has_sequence, definitions_of};
ghost use Rattle.cfa_values.specs.Definitions.{is_agent_head};
ghost use Rattle.cfa_served.specs.Control.{names_listed, sequence_of};
ghost use Rattle.cfa_values.specs.Kept.{seen_bundle, seen_body};

use cfa_base::{NameIndex, NoMemory};
use cfa_kinds::{BundleType, bundle_type};
use cfa_served::{control_attributes, listed_names};
use cfa_tree::{Block, Body, Bundle, Policy, Value};
use cfa_values::{BodyEntry, BundleEntry, Definitions, value_named};
use std::alloc::Global;

fn listed_sequence<'a>(alloc: Global, value: &'a Value) -> Result<NameIndex<'a>, NoMemory>
    ensures { IfOk result (λ names. names ≡ names_listed (plain_value value.now)) }
{
    let listed = listed_names(alloc, value)?;
    let mut names = NameIndex::new(alloc);
    for item in &listed {
        names.add(item.name)?;
    }
    Ok(names)
}

fn default_sequence<'a>(alloc: Global) -> Result<NameIndex<'a>, NoMemory>
    ensures { IfOk result (λ names. names ≡ codes "main" ∷ []) }
{
    let mut names = NameIndex::new(alloc);
    names.add("main")?;
    Ok(names)
}

// The bundles that are activated.
#[tactic(auto, unfolding(cfa_served::specs::Control::sequence_of))]
fn sequence_of<'a>(alloc: Global, policy: &'a Policy) -> Result<NameIndex<'a>, NoMemory>
    ensures { IfOk result (λ names. names ≡ sequence_of (plain_policy policy.now)) }
{
    let control = control_attributes(policy.blocks.as_slice());
    match value_named(control, "bundlesequence") {
        Some(value) => listed_sequence(alloc, value),
        None => default_sequence(alloc),
    }
}

fn bundle_entry(bundle: &Bundle) -> BundleEntry<'_>
    ensures { seen_bundle result ≡ bundle_head_of (plain_named bundle.now.kind)
        (plain_named bundle.now.name) (map plain_named bundle.now.params) }
{
    BundleEntry {
        bundle_type: bundle_type(bundle.kind.name.as_str()),
        name: bundle.name.name.as_str(),
        params: bundle.params.as_slice().len(),
        place: bundle.name.place,
    }
}

fn body_entry(body: &Body) -> BodyEntry<'_>
    ensures { seen_body result ≡ body_head_of (plain_named body.now.kind)
        (plain_named body.now.name) (map plain_named body.now.params) }
{
    BodyEntry {
        type_word: body.kind.name.as_str(),
        name: body.name.name.as_str(),
        params: body.params.as_slice().len(),
    }
}

fn add_block<'a>(definitions: &mut Definitions<'a>, block: &'a Block) -> Result<(), NoMemory>
    ensures { OnOk result (definitions.new ≡ with_block definitions.old (plain_block block.now)) }
{
    match block {
        Block::Bundle(bundle) => definitions.add_bundle(bundle_entry(bundle)),
        Block::Body(body) => definitions.add_body(body_entry(body)),
    }
}

/// What a policy defines: its bundles, its bodies and its sequence of bundles.
pub(crate) fn define<'a>(alloc: Global, policy: &'a Policy) -> Result<Definitions<'a>, NoMemory>
    ensures { IfOk result (λ d. d ≡ definitions_of (plain_policy policy.now)) }
{
    let sequence = sequence_of(alloc, policy)?;
    let mut definitions = Definitions::new(alloc, sequence);
    for block in policy.blocks.as_slice() {
        add_block(&mut definitions, block)?;
    }
    Ok(definitions)
}

fn is_agent(found: Option<BundleEntry<'_>>) -> bool
    ensures { result ≡ is_agent_head (option_map seen_bundle found.entry) }
{
    match found {
        Some(entry) => match entry.bundle_type {
            Some(BundleType::Agent) => true,
            Some(BundleType::Common) => false,
            Some(BundleType::EditLine) => false,
            None => false,
        },
        None => false,
    }
}

/// Whether there is a bundlesequence, or an agent bundle `main` that stands in for one.
#[tactic(auto, unfolding(crate::specs::Defined::has_sequence))]
pub(crate) fn has_sequence(policy: &Policy, definitions: &Definitions<'_>) -> bool
    requires { definitions.now ≡ definitions_of (plain_policy policy.now) }
    ensures { result ≡ has_sequence (plain_policy policy.now) }
{
    let control = control_attributes(policy.blocks.as_slice());
    value_named(control, "bundlesequence").is_some() || is_agent(definitions.find_bundle("main"))
}
