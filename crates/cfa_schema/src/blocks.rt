// Bundles with their sections, and bodies.
ghost use Rattle.std.specs.Prelude.{◌≡◌, IfOk, OnOk, Some, map, not};
ghost use Rattle.std.specs.List.{flat_map, list_any};
ghost use Rattle.cfa_tree.specs.Plain.{plain_attribute, plain_section, plain_named, plain_block};
ghost use Rattle.cfa_values.specs.Seen.{seen_context};
ghost use Rattle.cfa_kinds.specs.Kinds.{required};
ghost use Rattle.cfa_values.specs.Values.{name_in, repeated};
ghost use Rattle.cfa_values.specs.Refusals.{noted};
ghost use Rattle.cfa_values.specs.Kept.{seen_item};
ghost use Rattle.cfa_values.specs.Attributes.{has_attribute};
ghost use Rattle.cfa_schema.specs.Valid.{other_type, section_refusals, is_misnamed, lacks_required, body_by, block_refusals};

use crate::promises::note_promises;
use cfa_base::{NameIndex, NoMemory, Place};
use cfa_kinds::{
    BodyType, BundleType, body_type, bundle_type, has_promise_type, is_foreign_body_type,
    is_foreign_bundle_type, is_foreign_promise_type, promise_type, required,
};
use cfa_tree::{Attribute, Block, Body, Bundle, Named, Section};
use cfa_values::{
    Code, Context, Definitions, Home, Item, Refusal, Table, has_attribute, note_attributes,
    note_if, note_repeated,
};
use std::alloc::Global;

// Notes the word of a type that this profile leaves out, or that is unknown.
fn note_other_type(is_foreign: bool, place: Place, first: &mut Option<Refusal>)
    ensures { first.new ≡ noted first.old (other_type is_foreign place) }
{
    let code = if is_foreign {
        Code::TypeOutOfScope
    } else {
        Code::UnknownType
    };
    note_if(first, true, code, place);
}

fn note_section(
    alloc: Global,
    context: &Context<'_>,
    within: BundleType,
    section: &Section,
    first: &mut Option<Refusal>,
) -> Result<(), NoMemory>
    ensures { OnOk result (first.new ≡ noted first.old
        (section_refusals (seen_context context.now) within (plain_section section.now))) }
{
    let kind = section.kind.as_str();
    match promise_type(kind) {
        Some(promise_type) => {
            if has_promise_type(within, promise_type) {
                let promises = section.promises.as_slice();
                note_promises(alloc, context, promise_type, promises, first)
            } else {
                note_if(first, true, Code::TypeOutOfScope, section.place);
                Ok(())
            }
        }
        None => {
            note_other_type(is_foreign_promise_type(kind), section.place, first);
            Ok(())
        }
    }
}

fn note_sections(
    alloc: Global,
    context: &Context<'_>,
    within: BundleType,
    sections: &[Section],
    first: &mut Option<Refusal>,
) -> Result<(), NoMemory>
    ensures { OnOk result (first.new ≡ noted first.old
        (flat_map (section_refusals (seen_context context.now) within)
        (map plain_section sections.now))) }
{
    for section in sections {
        note_section(alloc, context, within, section, first)?;
    }
    Ok(())
}

// Parameters as names with their places.
fn param_items<'a>(alloc: Global, params: &'a [Named]) -> Result<Vec<Item<'a>>, NoMemory>
    ensures { IfOk result (λ items. map seen_item items.items ≡ map plain_named params.now) }
{
    let mut items = Vec::with_capacity(alloc, params.len())?;
    for param in params {
        items.push(Item {
            name: param.name.as_str(),
            place: param.place,
        })?;
    }
    Ok(items)
}

fn param_names<'a>(alloc: Global, params: &'a [Named]) -> Result<NameIndex<'a>, NoMemory>
    ensures { IfOk result (λ names. names ≡ map name_in (map plain_named params.now)) }
{
    let mut names = NameIndex::new(alloc);
    for param in params {
        names.add(param.name.as_str())?;
    }
    Ok(names)
}

fn note_params(alloc: Global, params: &[Named], first: &mut Option<Refusal>) -> Result<(), NoMemory>
    ensures { OnOk result (first.new ≡ noted first.old (repeated (map plain_named params.now))) }
{
    note_repeated(alloc, &param_items(alloc, params)?, first)
}

fn note_bundle(
    alloc: Global,
    definitions: &Definitions<'_>,
    bundle: &Bundle,
    first: &mut Option<Refusal>,
) -> Result<(), NoMemory>
    ensures { OnOk result (first.new ≡ noted first.old
        (block_refusals definitions.now (plain_block (Block.Bundle bundle.now)))) }
{
    note_params(alloc, bundle.params.as_slice(), first)?;
    let kind = bundle.kind.name.as_str();
    match bundle_type(kind) {
        Some(bundle_type) => {
            let context = Context {
                definitions,
                home: Home::Bundle(bundle.name.name.as_str()),
            };
            let sections = bundle.sections.as_slice();
            note_sections(alloc, &context, bundle_type, sections, first)
        }
        None => {
            note_other_type(is_foreign_bundle_type(kind), bundle.kind.place, first);
            Ok(())
        }
    }
}

// A control body is named `control`.
fn is_misnamed(body_type: BodyType, name: &str) -> bool
    ensures { result ≡ is_misnamed body_type name.now }
{
    match body_type {
        BodyType::Common => name != "control",
        BodyType::Agent => name != "control",
        _ => false,
    }
}

// Whether one of the names is that of no attribute.
fn lacks_one(names: &[&str], attributes: &[Attribute]) -> bool
    ensures { result
        ≡ list_any (λ name. not (has_attribute (map plain_attribute attributes.now) name.now))
        names.now }
{
    names.iter().any(|name| !has_attribute(attributes, name))
}

fn lacks_required(body_type: BodyType, attributes: &[Attribute]) -> bool
    ensures { result ≡ lacks_required (required body_type) (map plain_attribute attributes.now) }
{
    lacks_one(required(body_type), attributes)
}

// Notes the refusals of a body of a type of this profile, but for its parameters.
fn note_body_of(
    alloc: Global,
    context: &Context<'_>,
    body_type: BodyType,
    body: &Body,
    first: &mut Option<Refusal>,
) -> Result<(), NoMemory>
    ensures { OnOk result (first.new ≡ noted first.old
        (body_by (seen_context context.now) (plain_named body.now.kind) (plain_named body.now.name)
        (map plain_attribute body.now.attributes) (Some body_type))) }
{
    let attributes = body.attributes.as_slice();
    let place = body.name.place;
    let name = body.name.name.as_str();
    note_if(
        first,
        is_misnamed(body_type, name),
        Code::TypeOutOfScope,
        place,
    );
    note_if(
        first,
        lacks_required(body_type, attributes),
        Code::WrongValue,
        place,
    );
    note_attributes(alloc, context, Table::OfBody(body_type), attributes, first)
}

fn note_body<'a>(
    alloc: Global,
    definitions: &'a Definitions<'a>,
    body: &'a Body,
    first: &mut Option<Refusal>,
) -> Result<(), NoMemory>
    ensures { OnOk result (first.new
        ≡ noted first.old (block_refusals definitions.now (plain_block (Block.Body body.now)))) }
{
    let params = body.params.as_slice();
    note_params(alloc, params, first)?;
    let kind = body.kind.name.as_str();
    match body_type(kind) {
        Some(body_type) => {
            let names = param_names(alloc, params)?;
            let context = Context {
                definitions,
                home: Home::Body(&names),
            };
            note_body_of(alloc, &context, body_type, body, first)
        }
        None => {
            note_other_type(is_foreign_body_type(kind), body.kind.place, first);
            Ok(())
        }
    }
}

fn note_block(
    alloc: Global,
    definitions: &Definitions<'_>,
    block: &Block,
    first: &mut Option<Refusal>,
) -> Result<(), NoMemory>
    ensures { OnOk result (first.new
        ≡ noted first.old (block_refusals definitions.now (plain_block block.now))) }
{
    match block {
        Block::Bundle(bundle) => note_bundle(alloc, definitions, bundle, first),
        Block::Body(body) => note_body(alloc, definitions, body, first),
    }
}

/// Notes the refusals of the blocks of a policy, each by itself.
pub(crate) fn note_blocks(
    alloc: Global,
    definitions: &Definitions<'_>,
    blocks: &[Block],
    first: &mut Option<Refusal>,
) -> Result<(), NoMemory>
    ensures { OnOk result (first.new ≡ noted first.old
        (flat_map (block_refusals definitions.now) (map plain_block blocks.now))) }
{
    for block in blocks {
        note_block(alloc, definitions, block, first)?;
    }
    Ok(())
}
