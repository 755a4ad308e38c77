// The reading of a block's words and parameters up to its brace, token by token.
ghost use Rattle.std.specs.Prelude.{◌≡◌, Some, IfOk, IfErr, option_map};
ghost use Rattle.cfa_tree.specs.Plain.{plain_named};
ghost use Rattle.cfa_parser.specs.Machine.{block_word, named, with_param, has_block_word, has_kind, has_block_name, wants_first_param, has_param, wants_param, has_params, heading_step};
ghost use Rattle.cfa_parser.specs.Seen.{Takes, OnlyMemory, seen_block_word, seen_heading, seen_heading_state, seen_heading_progress};

use crate::ParseErr;
use cfa_base::{Kind, Name, Place};
use cfa_lexer::Token;
use cfa_tree::Named;
use std::alloc::Global;

// The word that begins a block.
#[derive(Clone, Copy, Debug, PartialEq, Eq)]
pub enum BlockWord {
    Bundle,
    Body,
}

// The first three words of a block, and its parameters so far.
#[derive(Drop)]
pub struct Heading {
    pub block: BlockWord,
    pub place: Place,
    pub kind: Named,
    pub name: Named,
    pub params: Vec<Named>,
}

// Where the reading stands in the words, parentheses and commas before a block's brace.
#[derive(Drop)]
pub enum HeadingState {
    HasBlockWord(BlockWord, Place),
    HasKind(BlockWord, Place, Named),
    // Parameters or the brace may follow.
    HasBlockName(Heading),
    WantsFirstParam(Heading),
    HasParam(Heading),
    WantsParam(Heading),
    // The brace must follow.
    HasParams(Heading),
}

// A heading goes on, or its brace has opened the block.
#[derive(Drop)]
pub enum HeadingProgress {
    GoesOn(HeadingState),
    Opened(Heading),
}

fn named(alloc: Global, token: &Token<'_>) -> Result<Named, ParseErr>
    ensures ok { IfOk result (λ n. plain_named n ≡ named token.now.text.now token.now.place) }
    ensures memory { IfErr result OnlyMemory }
{
    Ok(Named {
        name: Name::from_text(alloc, token.text)?,
        place: token.place,
    })
}

/// The block that this word begins.
pub fn block_word(word: &str) -> Option<BlockWord>
    ensures { option_map seen_block_word result ≡ block_word word.now }
{
    if word == "bundle" {
        Some(BlockWord::Bundle)
    } else if word == "body" {
        Some(BlockWord::Body)
    } else {
        None
    }
}

fn with_param(alloc: Global, heading: Heading, token: &Token<'_>) -> Result<Heading, ParseErr>
    ensures ok { IfOk result
        (λ h. seen_heading h
        ≡ with_param (seen_heading heading) (named token.now.text.now token.now.place)) }
    ensures memory { IfErr result OnlyMemory }
{
    let mut heading = heading;
    heading.params.push(named(alloc, token)?)?;
    Ok(heading)
}

// The word behind a block's first.
fn take_kind(
    alloc: Global,
    block: BlockWord,
    place: Place,
    token: &Token<'_>,
) -> Result<HeadingProgress, ParseErr>
    ensures { Takes seen_heading_progress token.now (λ _. heading_step (has_block_word
        (seen_block_word block) place)) result }
{
    match token.kind {
        Kind::Word => Ok(HeadingProgress::GoesOn(HeadingState::HasKind(
            block,
            place,
            named(alloc, token)?,
        ))),
        _ => Err(ParseErr::Unexpected(token.place)),
    }
}

// The word behind a block's kind.
fn take_name(
    alloc: Global,
    block: BlockWord,
    place: Place,
    kind: Named,
    token: &Token<'_>,
) -> Result<HeadingProgress, ParseErr>
    ensures { Takes seen_heading_progress token.now (λ _. heading_step (has_kind
        (seen_block_word block) place (plain_named kind))) result }
{
    match token.kind {
        Kind::Word => {
            let heading = Heading {
                block,
                place,
                kind,
                name: named(alloc, token)?,
                params: Vec::new(alloc),
            };
            Ok(HeadingProgress::GoesOn(HeadingState::HasBlockName(heading)))
        },
        _ => Err(ParseErr::Unexpected(token.place)),
    }
}

// The parameters or the brace behind a block's name.
fn take_behind_name(heading: Heading, token: &Token<'_>) -> Result<HeadingProgress, ParseErr>
    ensures { Takes seen_heading_progress token.now (λ _. heading_step (has_block_name
        (seen_heading heading))) result }
{
    match token.kind {
        Kind::OpenParen => Ok(HeadingProgress::GoesOn(HeadingState::WantsFirstParam(heading))),
        Kind::OpenBrace => Ok(HeadingProgress::Opened(heading)),
        _ => Err(ParseErr::Unexpected(token.place)),
    }
}

// A first parameter, or the end of none.
fn take_first_param(
    alloc: Global,
    heading: Heading,
    token: &Token<'_>,
) -> Result<HeadingProgress, ParseErr>
    ensures { Takes seen_heading_progress token.now (λ _. heading_step (wants_first_param
        (seen_heading heading))) result }
{
    match token.kind {
        Kind::Word => Ok(HeadingProgress::GoesOn(HeadingState::HasParam(with_param(
            alloc, heading, token,
        )?))),
        Kind::CloseParen => Ok(HeadingProgress::GoesOn(HeadingState::HasParams(heading))),
        _ => Err(ParseErr::Unexpected(token.place)),
    }
}

// A comma or the end behind a parameter.
fn take_behind_param(heading: Heading, token: &Token<'_>) -> Result<HeadingProgress, ParseErr>
    ensures { Takes seen_heading_progress token.now (λ _. heading_step (has_param
        (seen_heading heading))) result }
{
    match token.kind {
        Kind::Comma => Ok(HeadingProgress::GoesOn(HeadingState::WantsParam(heading))),
        Kind::CloseParen => Ok(HeadingProgress::GoesOn(HeadingState::HasParams(heading))),
        _ => Err(ParseErr::Unexpected(token.place)),
    }
}

// A further parameter.
fn take_param(
    alloc: Global,
    heading: Heading,
    token: &Token<'_>,
) -> Result<HeadingProgress, ParseErr>
    ensures { Takes seen_heading_progress token.now (λ _. heading_step (wants_param
        (seen_heading heading))) result }
{
    match token.kind {
        Kind::Word => Ok(HeadingProgress::GoesOn(HeadingState::HasParam(with_param(
            alloc, heading, token,
        )?))),
        _ => Err(ParseErr::Unexpected(token.place)),
    }
}

// The brace behind the parameters.
fn take_brace(heading: Heading, token: &Token<'_>) -> Result<HeadingProgress, ParseErr>
    ensures { Takes seen_heading_progress token.now (λ _. heading_step (has_params
        (seen_heading heading))) result }
{
    match token.kind {
        Kind::OpenBrace => Ok(HeadingProgress::Opened(heading)),
        _ => Err(ParseErr::Unexpected(token.place)),
    }
}

/// What one more token makes of a heading.
pub fn take_in_heading(
    alloc: Global,
    state: HeadingState,
    token: &Token<'_>,
) -> Result<HeadingProgress, ParseErr>
    ensures { Takes seen_heading_progress token.now (λ _. heading_step
        (seen_heading_state state)) result }
{
    match state {
        HeadingState::HasBlockWord(block, place) => take_kind(alloc, block, place, token),
        HeadingState::HasKind(block, place, kind) => take_name(alloc, block, place, kind, token),
        HeadingState::HasBlockName(heading) => take_behind_name(heading, token),
        HeadingState::WantsFirstParam(heading) => take_first_param(alloc, heading, token),
        HeadingState::HasParam(heading) => take_behind_param(heading, token),
        HeadingState::WantsParam(heading) => take_param(alloc, heading, token),
        HeadingState::HasParams(heading) => take_brace(heading, token),
    }
}
