// The places of bundles and bodies by their names.
ghost use Rattle.std.specs.Prelude.{◌≡◌, ℕ, List, IfOk, OnOk, map, option_and_then, option_map, slice_get};
ghost use Rattle.std.specs.Str.{bytes_eq};
ghost use Rattle.std.specs.FinMap as finite;
ghost use Rattle.cfa_base.specs.IndexTables.{Notes};
ghost use Rattle.cfa_tree.specs.Plain.{plain_block};
ghost use Rattle.cfa_served.specs.Served.{if_body, if_bundle, bundle_of, body_of};
ghost use Rattle.cfa_served.specs.Indexed.{AnswersPlaces, IsIndex, is_name, is_wanted, table_of};

use cfa_base::{Name, NoMemory, TextMap};
use cfa_kinds::{BodyType, body_word};
use cfa_tree::{Block, Body, Bundle};
use std::alloc::Global;

/// The blocks that a table of names is for: bundles, or bodies of a type.
#[derive(Clone, Copy, Debug, PartialEq, Eq)]
pub enum Wanted {
    Bundle,
    Body(BodyType),
}

/// The first places of the names of bundles, and of those of bodies of each type, among the blocks of a policy.
#[derive(Drop)]
pub struct Index {
    bundles: TextMap<usize>,
    delete: TextMap<usize>,
    copy_from: TextMap<usize>,
    edit_defaults: TextMap<usize>,
    perms: TextMap<usize>,
    classes: TextMap<usize>,
    action: TextMap<usize>,
    location: TextMap<usize>,
    replace_with: TextMap<usize>,
    edit_field: TextMap<usize>,
    common: TextMap<usize>,
    agent: TextMap<usize>,
}

// The name of a block that is wanted.
fn name_in(wanted: Wanted, block: &Block) -> Option<&str>
    ensures { (name : List ℕ) → is_wanted wanted name (plain_block block.now)
        ≡ is_name name (option_map (λ found. found.now) result) }
{
    match (wanted, block) {
        (Wanted::Bundle, Block::Bundle(bundle)) => Some(bundle.name.name.as_str()),
        (Wanted::Body(wanted), Block::Body(body)) => {
            if body_word(wanted) == body.kind.name.as_str() {
                Some(body.name.name.as_str())
            } else {
                None
            }
        }
        _ => None,
    }
}

// Notes the place of a name that has none.
fn note_place(
    alloc: Global,
    places: &mut TextMap<usize>,
    name: &str,
    place: usize,
) -> Result<(), NoMemory>
    ensures { OnOk result
        (Notes bytes_eq (finite.get places.old) (finite.get places.new) name.now place) }
{
    if places.get(name).is_some() {
        return Ok(());
    }
    places.insert(Name::from_text(alloc, name)?, place)
}

// The first places of the names of the blocks that are wanted.
fn first_places(alloc: Global, wanted: Wanted, blocks: &[Block]) -> Result<TextMap<usize>, NoMemory>
    ensures { IfOk result (λ places. AnswersPlaces wanted places (map plain_block blocks.now)) }
{
    let mut places = TextMap::new(alloc);
    for (place, block) in blocks.iter().enumerate() {
        if let Some(name) = name_in(wanted, block) {
            note_place(alloc, &mut places, name, place)?;
        }
    }
    Ok(places)
}

fn body_places(
    alloc: Global,
    body_type: BodyType,
    blocks: &[Block],
) -> Result<TextMap<usize>, NoMemory>
    ensures { IfOk result
        (λ places. AnswersPlaces (Wanted.Body body_type) places (map plain_block blocks.now)) }
{
    first_places(alloc, Wanted::Body(body_type), blocks)
}

// The block at the place of a name.
fn block_at<'a>(blocks: &'a [Block], places: &TextMap<usize>, name: &str) -> Option<&'a Block>
    ensures { option_map (λ block. plain_block block.now) result
        ≡ option_and_then (slice_get (map plain_block blocks.now))
        (finite.get places.now name.now) }
{
    let place = places.get(name)?;
    blocks.get(*place)
}

fn as_bundle(block: Option<&Block>) -> Option<&Bundle>
    ensures { option_map (λ bundle. plain_block (Block.Bundle bundle.now)) result
        ≡ option_and_then if_bundle (option_map (λ found. plain_block found.now) block.entry) }
{
    match block {
        Some(Block::Bundle(bundle)) => Some(bundle),
        _ => None,
    }
}

fn as_body(block: Option<&Block>) -> Option<&Body>
    ensures { option_map (λ body. plain_block (Block.Body body.now)) result
        ≡ option_and_then if_body (option_map (λ found. plain_block found.now) block.entry) }
{
    match block {
        Some(Block::Body(body)) => Some(body),
        _ => None,
    }
}

impl Index {
    /// The index of some blocks. It takes time near to their number.
    pub fn new(alloc: Global, blocks: &[Block]) -> Result<Index, NoMemory>
        ensures { IfOk result (λ index. IsIndex index (map plain_block blocks.now)) }
    {
        Ok(Index {
            bundles: first_places(alloc, Wanted::Bundle, blocks)?,
            delete: body_places(alloc, BodyType::Delete, blocks)?,
            copy_from: body_places(alloc, BodyType::CopyFrom, blocks)?,
            edit_defaults: body_places(alloc, BodyType::EditDefaults, blocks)?,
            perms: body_places(alloc, BodyType::Perms, blocks)?,
            classes: body_places(alloc, BodyType::Classes, blocks)?,
            action: body_places(alloc, BodyType::Action, blocks)?,
            location: body_places(alloc, BodyType::Location, blocks)?,
            replace_with: body_places(alloc, BodyType::ReplaceWith, blocks)?,
            edit_field: body_places(alloc, BodyType::EditField, blocks)?,
            common: body_places(alloc, BodyType::Common, blocks)?,
            agent: body_places(alloc, BodyType::Agent, blocks)?,
        })
    }

    fn body_places(&self, body_type: BodyType) -> &TextMap<usize>
        ensures { result.now ≡ table_of self.now (Wanted.Body body_type) }
    {
        match body_type {
            BodyType::Delete => &self.delete,
            BodyType::CopyFrom => &self.copy_from,
            BodyType::EditDefaults => &self.edit_defaults,
            BodyType::Perms => &self.perms,
            BodyType::Classes => &self.classes,
            BodyType::Action => &self.action,
            BodyType::Location => &self.location,
            BodyType::ReplaceWith => &self.replace_with,
            BodyType::EditField => &self.edit_field,
            BodyType::Common => &self.common,
            BodyType::Agent => &self.agent,
        }
    }

    /// The first bundle of a name, without taking memory, by a logarithm of comparisons. `blocks` are those of the index.
    pub fn bundle<'a>(&self, blocks: &'a [Block], name: &str) -> Option<&'a Bundle>
        requires { IsIndex self.now (map plain_block blocks.now) }
        ensures { option_map (λ bundle. plain_block (Block.Bundle bundle.now)) result
            ≡ bundle_of (map plain_block blocks.now) name.now }
    {
        as_bundle(block_at(blocks, &self.bundles, name))
    }

    /// The first body of a type and name, without taking memory, by a logarithm of comparisons. `blocks` are those of the
    /// index.
    pub fn body<'a>(&self, blocks: &'a [Block], body_type: BodyType, name: &str) -> Option<&'a Body>
        requires { IsIndex self.now (map plain_block blocks.now) }
        ensures { option_map (λ body. plain_block (Block.Body body.now)) result
            ≡ body_of (map plain_block blocks.now) body_type name.now }
    {
        as_body(block_at(blocks, self.body_places(body_type), name))
    }
}
