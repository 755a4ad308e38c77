// What stands at the front of some bytes.
ghost use Rattle.std.specs.Prelude.{◌≡◌, ◌<◌, length, slice_index, false};
ghost use Rattle.std.specs.List.{take_while};
ghost use Rattle.cfa_base.specs.Lexing.{is_word_byte, is_reference, closes};
ghost use Rattle.cfa_lexer.specs.Fronts.{gap_len, IsPassingLen, symbol_of, TellsFront};

use crate::bytes::{is_quote, is_separator, len_before};
use cfa_base::{Kind, closing_bracket, is_name, is_word_byte, word_len};

/// How many bytes the separator or the comment at the front has, 0 where there is none.
pub fn gap_len(bytes: &[u8]) -> usize
    ensures { result ≡ gap_len bytes.now }
{
    if bytes.is_empty() {
        0
    } else if is_separator(bytes[0]) {
        1
    } else if bytes[0] == b'#' {
        len_before(b'\n', &bytes[1..]) + 1
    } else {
        0
    }
}

// How many bytes there are through the closing quote, behind an opening one.
fn closing_len(quote: u8, bytes: &[u8]) -> Option<usize>
    ensures { IsPassingLen (closes quote false) bytes.now result }
{
    let mut behind_backslash = false;
    for (i, byte) in bytes.iter().enumerate() {
        if behind_backslash {
            behind_backslash = false;
        } else if *byte == quote {
            return Some(i + 1);
        } else {
            behind_backslash = *byte == b'\\';
        }
    }
    None
}

// How many bytes the reference at the front has, behind whose sign nothing is known.
fn reference_len(bytes: &[u8]) -> Option<usize>
    requires { 0 < length bytes.now }
    ensures { IsPassingLen (is_reference (slice_index bytes.now 0)) bytes.now result }
{
    if bytes.len() < 2 {
        return None;
    }
    let Some(close) = closing_bracket(bytes[1]) else {
        return None;
    };
    let inner = &bytes[2..];
    let len = len_before(close, inner);
    if len < inner.len() && is_name(&inner[..len]) {
        Some(len + 3)
    } else {
        None
    }
}

// The longest symbol that two bytes begin with, and how many bytes it has.
fn symbol(first: u8, second: u8) -> Option<(Kind, usize)>
    ensures { result ≡ symbol_of first second }
{
    match (first, second) {
        (b'=', b'>') => Some((Kind::FatArrow, 2)),
        (b'-', b'>') => Some((Kind::ThinArrow, 2)),
        (b':', b':') => Some((Kind::DoubleColon, 2)),
        (b'|', b'|') => Some((Kind::Or, 2)),
        (b':', _) => Some((Kind::Colon, 1)),
        (b'|', _) => Some((Kind::Or, 1)),
        (b',', _) => Some((Kind::Comma, 1)),
        (b';', _) => Some((Kind::Semicolon, 1)),
        (b'{', _) => Some((Kind::OpenBrace, 1)),
        (b'}', _) => Some((Kind::CloseBrace, 1)),
        (b'(', _) => Some((Kind::OpenParen, 1)),
        (b')', _) => Some((Kind::CloseParen, 1)),
        (b'!', _) => Some((Kind::Bang, 1)),
        (b'.', _) => Some((Kind::Dot, 1)),
        (b'&', _) => Some((Kind::And, 1)),
        _ => None,
    }
}

/// The kind of the longest token at the front and how many bytes it has, or `None` where no token begins there.
pub fn token_len(bytes: &[u8]) -> Option<(Kind, usize)>
    requires { 0 < length bytes.now }
    ensures { TellsFront bytes.now result }
{
    let first = bytes[0];
    if is_word_byte(first) {
        return Some((Kind::Word, word_len(bytes)));
    }
    if is_quote(first) {
        let Some(len) = closing_len(first, &bytes[1..]) else {
            return None;
        };
        return Some((Kind::Text, len + 1));
    }
    if first == b'$' {
        let Some(len) = reference_len(bytes) else {
            return None;
        };
        return Some((Kind::Ref, len));
    }
    if first == b'@' {
        let Some(len) = reference_len(bytes) else {
            return None;
        };
        return Some((Kind::ListRef, len));
    }
    let second = if bytes.len() > 1 { bytes[1] } else { 0 };
    symbol(first, second)
}
