// The statement of a source at a place: a promise, an attribute of a body, a guard, a section, or a bundle or body as a whole.
ghost use Rattle.std.specs.Prelude.{List, All, Contains, IfOk, IfSome};
ghost use Rattle.cfa_lexer.specs.declared.tokens.Token.{Token};
ghost use Rattle.cfa_uses.specs.Statements.{IsStatement};
ghost use Rattle.cfa_uses.specs.Parts.{IsPart, IsTextAt, IsMadeOf};

use crate::places::behind;
use cfa_base::{Kind, NoMemory, Place, is_before};
use cfa_lexer::Token;
use std::alloc::Global;

// How a part of a source ends.
#[derive(Clone, Copy, PartialEq, Eq)]
enum Ending {
    // The brace that opens a block.
    Heading,
    // The colon of a section.
    Section,
    // A semicolon, or the two colons of a guard.
    Statement,
    // The brace that closes a block.
    Close,
}

// A part of a source: its first word, where it begins, what stands behind it, and how it ends.
#[derive(Clone, Copy)]
struct Part<'a> {
    word: &'a str,
    from: Place,
    to: Place,
    ending: Ending,
}

// How a part ends with a token before which so many braces are open, if it does.
fn ending_of(depth: usize, kind: Kind) -> Option<Ending> {
    match (depth, kind) {
        (0, Kind::OpenBrace) => Some(Ending::Heading),
        (1, Kind::CloseBrace) => Some(Ending::Close),
        (1, Kind::Colon) => Some(Ending::Section),
        (1, Kind::Semicolon | Kind::DoubleColon) => Some(Ending::Statement),
        _ => None,
    }
}

fn depth_behind(depth: usize, kind: Kind) -> usize {
    match kind {
        Kind::OpenBrace => depth.saturating_add(1),
        Kind::CloseBrace => depth.saturating_sub(1),
        _ => depth,
    }
}

// The token that a part begins with, at one of its tokens.
fn begun_at<'a>(first: Option<Token<'a>>, token: Token<'a>) -> Token<'a>
    ensures { (tokens : List Token) → IfSome first.entry (Contains tokens) →
        Contains tokens token.entry → Contains tokens result }
{
    match first {
        Some(begun) => begun,
        None => token,
    }
}

// Adds the part that ends with a token, where one does.
fn add_part<'a>(
    parts: &mut Vec<Part<'a>>,
    begun: Token<'a>,
    token: Token<'a>,
    ending: Option<Ending>,
) -> Result<(), NoMemory>
    ensures { (tokens : List Token) → Contains tokens begun.entry → Contains tokens token.entry →
        All (IsPart tokens) parts.old.items → All (IsPart tokens) parts.new.items }
{
    let Some(ending) = ending else {
        return Ok(());
    };
    parts.push(Part {
        word: begun.text,
        from: begun.place,
        to: behind(token.place, token.text),
        ending,
    })?;
    Ok(())
}

// The parts of a source, in their order.
fn parts_of<'a>(alloc: Global, tokens: &[Token<'a>]) -> Result<Vec<Part<'a>>, NoMemory>
    ensures { IfOk result (λ parts. All (IsPart tokens.now) parts.items) }
{
    let mut parts = Vec::new(alloc);
    let mut depth = 0usize;
    let mut first: Option<Token<'a>> = None;
    for token in tokens {
        let begun = begun_at(first, *token);
        let ending = ending_of(depth, token.kind);
        add_part(&mut parts, begun, *token, ending)?;
        depth = depth_behind(depth, token.kind);
        first = if ending.is_none() { Some(begun) } else { None };
    }
    Ok(parts)
}

// The first part from one on that ends so, or so.
fn next_of<'a>(parts: &[Part<'a>], from: usize, one: Ending, other: Ending) -> Option<usize> {
    for place in from..parts.len() {
        if parts[place].ending == one || parts[place].ending == other {
            return Some(place);
        }
    }
    None
}

// The part that a place stands in.
fn place_of<'a>(parts: &[Part<'a>], at: Place) -> Option<usize> {
    for (place, part) in parts.iter().enumerate() {
        if is_before(at, part.to) {
            return Some(place);
        }
    }
    None
}

// The heading of the block that a part stands in.
fn heading_of<'a>(parts: &[Part<'a>], place: usize) -> Option<Part<'a>>
    ensures { IfSome result (λ part. Contains parts.now part) }
{
    let mut heading = None;
    for (at, part) in parts.iter().enumerate() {
        if at <= place && part.ending == Ending::Heading {
            heading = Some(*part);
        }
    }
    heading
}

/// What stands from one place on up to another.
#[derive(Clone, Copy)]
pub struct Statement<'a> {
    /// Its first word.
    pub word: &'a str,
    /// What begins at the place.
    pub text: &'a str,
    pub from: Place,
    pub to: Place,
    /// It is a bundle or a body.
    pub is_block: bool,
    /// Where the block begins that it stands in.
    pub block: Place,
}

// What stands behind the part that goes on with the promises of its section, or with its block.
fn last_of<'a>(parts: &[Part<'a>], place: usize) -> Option<Part<'a>>
    ensures { IfSome result (λ part. Contains parts.now part) }
{
    let part = *parts.get(place)?;
    match part.ending {
        Ending::Statement => Some(part),
        Ending::Section => {
            let next = next_of(
                parts,
                place.saturating_add(1),
                Ending::Section,
                Ending::Close,
            )?;
            parts.get(next.saturating_sub(1)).copied()
        }
        Ending::Heading | Ending::Close => {
            let close = next_of(parts, place, Ending::Close, Ending::Close)?;
            parts.get(close).copied()
        }
    }
}

/// The statement at a place. A section has its promises with it, and a heading its block.
pub fn statement_at<'a>(
    alloc: Global,
    tokens: &[Token<'a>],
    at: Place,
) -> Result<Option<Statement<'a>>, NoMemory>
    ensures { IfOk result (λ found. IfSome found (IsStatement tokens.now at)) }
{
    let parts = parts_of(alloc, tokens)?;
    Ok(statement_in(parts.as_slice(), at, text_at(tokens, at)))
}

fn text_at<'a>(tokens: &[Token<'a>], at: Place) -> &'a str
    ensures { IsTextAt tokens.now at result.now }
{
    for token in tokens {
        if token.place == at {
            return token.text;
        }
    }
    ""
}

fn statement_in<'a>(parts: &[Part<'a>], at: Place, text: &'a str) -> Option<Statement<'a>>
    ensures { IfSome result (IsMadeOf parts.now text.now) }
{
    let place = place_of(parts, at)?;
    let heading = heading_of(parts, place)?;
    let last = last_of(parts, place)?;
    let part = *parts.get(place)?;
    let is_block = matches!(part.ending, Ending::Heading | Ending::Close);
    let first = if is_block { heading } else { part };
    Some(Statement {
        word: first.word,
        text,
        from: first.from,
        to: last.to,
        is_block,
        block: heading.from,
    })
}
