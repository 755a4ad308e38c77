// The reading of a policy, token by token.
ghost use Rattle.std.specs.Prelude.{◌≡◌, ◌↔◌, ◌++◌, ◌∷◌, [], Some, IfOk, IfErr, IsErrOf, IsTrue, map, option_map};
ghost use Rattle.cfa_base.specs.declared.places.Place as declared;
ghost use Rattle.cfa_lexer.specs.Lexed.{plain};
ghost use Rattle.cfa_tree.specs.Grammar.{depth_limit, ReadsWithin};
ghost use Rattle.cfa_tree.specs.Plain.{plain_attribute, plain_block, plain_policy, plain_section};
ghost use Rattle.cfa_parser.specs.Machine.{start, closed_bundle, closed_body, block_opened, bundle_next, body_next, within_blocks, heading_step, bundle_step, body_step, state_step, between_blocks, step, run, whole};
ghost use Rattle.cfa_parser.specs.Reading.{UnexpectedAt, TooDeepAt};
ghost use Rattle.cfa_parser.specs.Seen.{StepsTo, Takes, OnlyMemory, StopsAtToken, seen_heading, seen_heading_state, seen_bundle_state, seen_body_state, seen_state, seen_reader, seen_block_word};

use crate::ParseErr;
use crate::bundles::{
    BodyProgress, BodyState, BundleProgress, BundleState, take_in_body, take_in_bundle,
};
use crate::headings::{
    BlockWord, Heading, HeadingProgress, HeadingState, block_word, take_in_heading,
};
use cfa_base::{Kind, Parts, Place};
use cfa_lexer::Token;
use cfa_tree::{Attribute, Block, Body, Bundle, Policy, Section};
use std::alloc::Global;

// Where the reading stands within a policy.
#[derive(Drop)]
pub enum State {
    BetweenBlocks,
    InHeading(HeadingState),
    InBundle(Heading, Vec<Section>, BundleState),
    InBody(Heading, Vec<Attribute>, BodyState),
}

// The blocks that are whole, and what was read of the next.
#[derive(Drop)]
pub struct Reader {
    pub blocks: Vec<Block>,
    pub state: State,
}

fn with_bundle(
    blocks: Vec<Block>,
    heading: Heading,
    sections: Vec<Section>,
) -> Result<Vec<Block>, ParseErr>
    ensures ok { IfOk result
        (λ all. map plain_block all.items ≡ map plain_block blocks.items
        ++ closed_bundle (seen_heading heading) (map plain_section sections.items) ∷ []) }
    ensures memory { IfErr result OnlyMemory }
{
    let mut blocks = blocks;
    blocks.push(Block::Bundle(Bundle {
        kind: heading.kind,
        name: heading.name,
        params: Parts::from_vec(heading.params),
        sections: Parts::from_vec(sections),
        place: heading.place,
    }))?;
    Ok(blocks)
}

fn with_body(
    blocks: Vec<Block>,
    heading: Heading,
    attributes: Vec<Attribute>,
) -> Result<Vec<Block>, ParseErr>
    ensures ok { IfOk result
        (λ all. map plain_block all.items ≡ map plain_block blocks.items
        ++ closed_body (seen_heading heading) (map plain_attribute attributes.items) ∷ []) }
    ensures memory { IfErr result OnlyMemory }
{
    let mut blocks = blocks;
    blocks.push(Block::Body(Body {
        kind: heading.kind,
        name: heading.name,
        params: Parts::from_vec(heading.params),
        attributes: Parts::from_vec(attributes),
        place: heading.place,
    }))?;
    Ok(blocks)
}

// A block behind its brace.
fn opened(alloc: Global, heading: Heading) -> State
    ensures { seen_state result
        ≡ block_opened (seen_block_word heading.block) (seen_heading heading) }
{
    match heading.block {
        BlockWord::Bundle => State::InBundle(heading, Vec::new(alloc), BundleState::NoSection),
        BlockWord::Body => State::InBody(heading, Vec::new(alloc), BodyState::BetweenAttributes),
    }
}

fn take_block_word(blocks: Vec<Block>, token: &Token<'_>) -> Result<Reader, ParseErr>
    ensures { Takes seen_reader token.now (λ limit. state_step limit
        (map plain_block blocks.items) between_blocks) result }
{
    match token.kind {
        Kind::Word => match block_word(token.text) {
            Some(block) => Ok(Reader {
                blocks,
                state: State::InHeading(HeadingState::HasBlockWord(block, token.place)),
            }),
            None => Err(ParseErr::Unexpected(token.place)),
        },
        _ => Err(ParseErr::Unexpected(token.place)),
    }
}

fn take_heading_token(
    alloc: Global,
    blocks: Vec<Block>,
    heading: HeadingState,
    token: &Token<'_>,
) -> Result<Reader, ParseErr>
    ensures { Takes seen_reader token.now (λ _ k x p. within_blocks (map plain_block blocks.items)
        (heading_step (seen_heading_state heading) k x p)) result }
{
    match take_in_heading(alloc, heading, token)? {
        HeadingProgress::GoesOn(state) => Ok(Reader {
            blocks,
            state: State::InHeading(state),
        }),
        HeadingProgress::Opened(heading) => Ok(Reader {
            blocks,
            state: opened(alloc, heading),
        }),
    }
}

fn take_bundle_token(
    alloc: Global,
    blocks: Vec<Block>,
    heading: Heading,
    sections: Vec<Section>,
    state: BundleState,
    token: &Token<'_>,
) -> Result<Reader, ParseErr>
    ensures { Takes seen_reader token.now (λ limit k x p. bundle_next
        (map plain_block blocks.items) (seen_heading heading) (bundle_step limit
        (map plain_section sections.items) (seen_bundle_state state) k x p)) result }
{
    match take_in_bundle(alloc, sections, state, token)? {
        BundleProgress::GoesOn(sections, state) => Ok(Reader {
            blocks,
            state: State::InBundle(heading, sections, state),
        }),
        BundleProgress::Ended(sections) => Ok(Reader {
            blocks: with_bundle(blocks, heading, sections)?,
            state: State::BetweenBlocks,
        }),
    }
}

fn take_body_token(
    alloc: Global,
    blocks: Vec<Block>,
    heading: Heading,
    attributes: Vec<Attribute>,
    state: BodyState,
    token: &Token<'_>,
) -> Result<Reader, ParseErr>
    ensures { Takes seen_reader token.now (λ limit k x p. body_next (map plain_block blocks.items)
        (seen_heading heading) (body_step limit (map plain_attribute attributes.items)
        (seen_body_state state) k x p)) result }
{
    match take_in_body(alloc, attributes, state, token)? {
        BodyProgress::GoesOn(attributes, state) => Ok(Reader {
            blocks,
            state: State::InBody(heading, attributes, state),
        }),
        BodyProgress::Ended(attributes) => Ok(Reader {
            blocks: with_body(blocks, heading, attributes)?,
            state: State::BetweenBlocks,
        }),
    }
}

// What one more token makes of a policy.
fn take(alloc: Global, reader: Reader, token: &Token<'_>) -> Result<Reader, ParseErr>
    ensures { StepsTo seen_reader token.now.place
        (λ limit. step limit (seen_reader reader) (plain token.now)) result }
{
    let Reader { blocks, state } = reader;
    match state {
        State::BetweenBlocks => take_block_word(blocks, token),
        State::InHeading(heading) => take_heading_token(alloc, blocks, heading, token),
        State::InBundle(heading, sections, state) => {
            take_bundle_token(alloc, blocks, heading, sections, state, token)
        }
        State::InBody(heading, attributes, state) => {
            take_body_token(alloc, blocks, heading, attributes, state, token)
        }
    }
}

impl Reader {
    // Nothing was read.
    fn new(alloc: Global) -> Reader
        ensures { seen_reader result ≡ start }
    {
        Reader {
            blocks: Vec::new(alloc),
            state: State::BetweenBlocks,
        }
    }
}

// What all the tokens make of nothing, or the first token that is refused.
fn take_all(alloc: Global, tokens: &[Token<'_>]) -> Result<Reader, ParseErr>
    ensures ok { IfOk result
        (λ r. run depth_limit (Some start) (map plain tokens.now) ≡ Some (seen_reader r)) }
    ensures refused { IfErr result (StopsAtToken (map plain tokens.now)) }
{
    let mut reader = Reader::new(alloc);
    for token in tokens {
        reader = take(alloc, reader, token)?;
    }
    Ok(reader)
}

// Whether no block is open.
fn is_between_blocks(state: &State) -> bool
    ensures { IsTrue result ↔ state.now ≡ State.BetweenBlocks }
{
    matches!(state, State::BetweenBlocks)
}

// The policy, where no block is open. The state is let go by a call: taken apart here, its many cases would cost more than all other functions
// of this file.
fn whole_policy(reader: Reader) -> Option<Policy>
    ensures { option_map plain_policy result ≡ whole (seen_reader reader) }
{
    let Reader { blocks, state } = reader;
    let is_whole = is_between_blocks(&state);
    drop(state);
    if is_whole {
        Some(Policy {
            blocks: Parts::from_vec(blocks),
        })
    } else {
        None
    }
}

/// The policy that the tokens of a source read as, which ends at `end`. An `Err` other than want of memory names the
/// first token with which no policy begins, or the first that opens a 17th level, whichever stands first.
pub fn parse(alloc: Global, tokens: &[Token<'_>], end: Place) -> Result<Policy, ParseErr>
    // The tokens read as this policy, places included.
    ensures reads { IfOk result
        (λ policy. ReadsWithin depth_limit (map plain tokens.now) (plain_policy policy)) }
    ensures unexpected { (place : declared.Place) →
        IsErrOf result (ParseErr.Unexpected place) →
        UnexpectedAt (map plain tokens.now) end place }
    ensures too_deep { (place : declared.Place) →
        IsErrOf result (ParseErr.TooDeep place) → TooDeepAt (map plain tokens.now) place }
{
    let reader = take_all(alloc, tokens)?;
    whole_policy(reader).ok_or(ParseErr::Unexpected(end))
}
