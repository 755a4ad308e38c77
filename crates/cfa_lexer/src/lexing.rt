// The lexer.
ghost use Rattle.std.specs.Prelude.{◌≡◌, ℕ, ◌+◌, ◌≤◌, ◌<◌, ◌↔◌, length, map, IfOk, IfErr, OnOk, IsErrOf, count_by};
ghost use Rattle.std.specs.List.{after_last};
ghost use Rattle.cfa_base.specs.Lexing.{is_newline, Lexes, FirstFault, bad_byte, unclosed_text, fault_at, place_after, first_place};
ghost use Rattle.cfa_base.specs.declared.places.Place as declared;
ghost use Rattle.cfa_lexer.specs.Lexed.{plain, max_len, IsText, StopsBeingText, IsFaultOf, err_of};

use crate::bytes::is_quote;
use crate::fronts::{gap_len, token_len};
use crate::placing::{first_place, place_after};
use crate::{LexErr, Token};
use cfa_base::{MOST_SOURCE_BYTES, Place};
use std::alloc::Global;

/// The place after the last byte of a source: its line is one more than the newlines before it, and its column one more
/// than the bytes since the last newline.
pub fn end_place(source: &[u8], file: u16) -> Place
    requires { length source.now ≤ max_len }
    ensures place { result ≡ place_after (first_place file) source.now }
    ensures line { result.line ≡ count_by is_newline source.now + 1 }
    ensures column { result.col ≡ length (after_last is_newline source.now) + 1 }
{
    place_after(first_place(file), source)
}

/// The tokens of a source, in order. An `Err` is the first of these in this order: the source is too long, it isn't
/// UTF-8, it has a byte at which no token begins or a text that isn't closed. Want of memory may come for any source that
/// is a text.
pub fn lex<'a>(alloc: Global, source: &'a [u8], file: u16) -> Result<Vec<Token<'a>>, LexErr>
    ensures text { OnOk result (IsText source.now) }
    ensures tokens { IfOk result
        (λ tokens. Lexes (first_place file) source.now (map plain tokens.items)) }
    ensures too_long { IsErrOf result LexErr.TooLong ↔ (max_len < length source.now) }
    ensures not_text { (place : declared.Place) →
        IsErrOf result (LexErr.NotText place) ↔ StopsBeingText source.now file place }
    ensures bad_byte { (place : declared.Place) →
        IsErrOf result (LexErr.BadByte place) →
        IsText source.now × FirstFault (first_place file) source.now (bad_byte place) }
    ensures unclosed_text { (place : declared.Place) →
        IsErrOf result (LexErr.UnclosedText place) →
        IsText source.now × FirstFault (first_place file) source.now (unclosed_text place) }
    ensures no_memory { IsErrOf result LexErr.NoMemory → IsText source.now }
{
    if source.len() > MOST_SOURCE_BYTES {
        return Err(LexErr::TooLong);
    }
    match str::from_utf8(source) {
        Ok(text) => scan(alloc, text, file),
        Err(error) => Err(LexErr::NotText(end_place(&source[..error.valid_up_to()], file))),
    }
}

// The tokens of a text, or its first fault.
fn scan<'a>(alloc: Global, text: &'a str, file: u16) -> Result<Vec<Token<'a>>, LexErr>
    requires { length text.now ≤ max_len }
    ensures ok { IfOk result
        (λ tokens. Lexes (first_place file) text.now (map plain tokens.items)) }
    ensures err { IfErr result (IsFaultOf text.now file) }
{
    let mut tokens = Vec::new(alloc);
    let mut rest = text;
    let mut place = first_place(file);
    while !rest.is_empty() {
        let bytes = rest.as_bytes();
        let gap = gap_len(bytes);
        if gap > 0 {
            let (front, after) = rest.split_at(gap);
            place = place_after(place, front.as_bytes());
            rest = after;
            continue;
        }
        let Some((kind, len)) = token_len(bytes) else {
            return Err(fault_at(place, bytes[0]));
        };
        let (text, after) = rest.split_at(len);
        tokens.push(Token { kind, text, place })?;
        place = place_after(place, text.as_bytes());
        rest = after;
    }
    Ok(tokens)
}

// What stands where no token begins.
fn fault_at(place: Place, byte: u8) -> LexErr
    ensures { result ≡ err_of (fault_at place byte) }
{
    if is_quote(byte) {
        LexErr::UnclosedText(place)
    } else {
        LexErr::BadByte(place)
    }
}
