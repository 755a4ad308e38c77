// What stands before a refusal, for who forgot a quote, a comma or a semicolon.
ghost use Rattle.std.specs.Prelude.{◌≡◌, false, [], IfOk};
ghost use Rattle.std.specs.String.{string_bytes};
ghost use Rattle.cfa_hints.specs.Codes.{is_unfinished};

use cfa_advice::{FIRST_PLACE, RefusedLine, Sources, behind_byte};
use cfa_base::{Kind, NoMemory, Place, is_before};
use cfa_lexer::{Token, lex};
use cfa_uses::behind;
use std::alloc::Global;

// Within so many tokens a text that wasn't closed is followed by what is refused.
const MOST_TOKENS: usize = 4;

// How many bytes stand before a place.
fn bytes_before(source: &[u8], at: Place) -> usize {
    let mut here = FIRST_PLACE;
    let mut count = 0usize;
    for byte in source {
        if !is_before(here, at) {
            return count;
        }
        here = behind_byte(here, *byte);
        count = count.saturating_add(1);
    }
    count
}

// The tokens before a place; none where these can't be told.
fn tokens_before(alloc: Global, source: &[u8], at: Place) -> Vec<Token<'_>> {
    let count = bytes_before(source, at).min(source.len());
    match lex(alloc, &source[..count], 0) {
        Ok(tokens) => tokens,
        Err(_) => Vec::new(alloc),
    }
}

// The last text of several lines among the last tokens.
fn long_text<'a>(tokens: &[Token<'a>]) -> Option<Token<'a>> {
    for token in tokens.iter().rev().take(MOST_TOKENS) {
        if token.kind == Kind::Text && token.text.contains('\n') {
            return Some(*token);
        }
    }
    None
}

// Where the last token ends, where that is in a line before this one.
fn end_before(tokens: &[Token<'_>], line: u32) -> Option<Place> {
    let token = tokens.last()?;
    let end = behind(token.place, token.text);
    if end.line < line { Some(end) } else { None }
}

fn told_of(alloc: Global, tokens: &[Token<'_>], line: u32) -> Result<String, NoMemory> {
    if let Some(token) = long_text(tokens) {
        let (line, col) = (token.place.line, token.place.col);
        return Ok(format!(in alloc;
            "        a text from {line}:{col} on runs over several lines: is a quote missing?\n"
        )?);
    }
    match end_before(tokens, line) {
        Some(end) => {
            let (line, col) = (end.line, end.col);
            Ok(format!(in alloc; "        what is missing may stand at {line}:{col}\n")?)
        }
        None => Ok(String::new(alloc)),
    }
}

/// What is told of the tokens before a refusal of the lexer or the grammar; else nothing.
pub fn before_text(
    alloc: Global,
    sources: &Sources,
    refused: RefusedLine<'_>,
) -> Result<String, NoMemory>
    ensures { is_unfinished refused.entry.code.now ≡ false →
        IfOk result (λ text. string_bytes text ≡ []) }
{
    if !is_unfinished(refused.code) {
        return Ok(String::new(alloc));
    }
    let source = sources.named(refused.name).unwrap_or(&[]);
    match refused.place() {
        Some(at) => {
            let tokens = tokens_before(alloc, source, at);
            told_of(alloc, tokens.as_slice(), at.line)
        }
        None => Ok(String::new(alloc)),
    }
}

fn is_unfinished(code: &str) -> bool
    ensures { result ≡ is_unfinished code.now }
{
    code == "L1" || code == "L2" || code == "P1"
}
