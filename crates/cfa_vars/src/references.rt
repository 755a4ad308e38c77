// The references of a text.
ghost use Rattle.std.specs.Prelude.{◌≡◌, ◌+◌, ◌<◌, ℕ, true, false, [], ◌∷◌, ◌++◌, length, take, drop, map, Some, None, MatchOption, IfSome, IsTrue};
ghost use Rattle.std.specs.List.{list_all, prefix_len, position_or_len};
ghost use Rattle.std.specs.Option.{option_map, option_copied};
ghost use Rattle.cfa_base.specs.Lexing.{is_name, is_name_byte};
ghost use Rattle.cfa_vars.specs.References.{is_qualified, bundle_part, word_part, name_before, reference_at, literal, reference, pieces, list_reference_of};

use cfa_base::{closing_bracket, is_name, is_word_byte};

fn is_name_byte(byte: u8) -> bool
    ensures { result ≡ is_name_byte byte }
{
    is_word_byte(byte) || byte == b'.'
}

/// The bundle and the word of a qualified name: what stands before its first dot, and what stands behind it, as they
/// are. `None` where the name has no dot.
pub fn split_name(name: &str) -> Option<(&str, &str)>
    ensures { MatchOption result (is_qualified name.now ≡ false)
        (λ parts. (is_qualified name.now ≡ true)
        × (parts.0.now ≡ bundle_part name.now) × (parts.1.now ≡ word_part name.now)) }
{
    name.split_once('.')
}

// How many name bytes a text begins with.
fn name_bytes(text: &[u8]) -> usize
    ensures { result ≡ prefix_len is_name_byte text.now }
{
    for (place, byte) in text.iter().enumerate() {
        if !is_name_byte(*byte) {
            return place;
        }
    }
    text.len()
}

// The length of the name that stands before a closing bracket.
fn name_length(rest: &[u8], close: u8) -> Option<usize>
    requires { 0 < close }
    ensures value { result ≡ option_map length (name_before (Some close) rest.now) }
    ensures within { IfSome result (λ size. size < length rest.now) }
{
    let length = name_bytes(rest);
    if length < rest.len() && rest[length] == close && is_name(&rest[..length]) {
        Some(length)
    } else {
        None
    }
}

// The length of the name of the reference at the front of a text.
#[tactic(auto, unfolding(crate::specs::References::reference_at))]
fn reference_length(text: &[u8]) -> Option<usize>
    ensures { result ≡ option_map length (reference_at text.now) }
{
    if text.len() < 2 || text[0] != b'$' {
        return None;
    }
    let close = closing_bracket(text[1])?;
    name_length(&text[2..], close)
}

/// A reference in a text: what stands before it, the name between its brackets, and what stands after it.
#[derive(Clone, Copy, Debug)]
pub struct Reference<'a> {
    pub before: &'a str,
    pub name: &'a str,
    pub after: &'a str,
}

// The reference whose `$` stands at a place.
fn cut(text: &str, place: usize, size: usize) -> Reference<'_>
    requires { option_map length (reference_at (drop place text.now)) ≡ Some size }
    ensures before { result.before.now ≡ take place text.now }
    ensures name { reference_at (drop place text.now) ≡ Some result.name.now }
    ensures size { length result.name.now ≡ size }
    ensures after { result.after.now ≡ drop (place + size + 3) text.now }
{
    Reference {
        before: &text[..place],
        name: &text[place + 2..place + 2 + size],
        after: &text[place + size + 3..],
    }
}

/// The first reference of a text, without taking memory. `None` where the text is literal bytes alone.
pub fn first_reference(text: &str) -> Option<Reference<'_>>
    ensures first { MatchOption result (pieces text.now ≡ map literal text.now)
        (λ r. pieces text.now
        ≡ map literal r.before.now ++ reference r.name.now ∷ pieces r.after.now) }
    ensures name { IfSome result (λ r. IsTrue (is_name r.name.now)) }
    ensures after { IfSome result (λ r. r.after.now
        ≡ drop (length r.before.now + length r.name.now + 3) text.now) }
    ensures shorter { IfSome result (λ r. length r.after.now < length text.now) }
{
    let bytes = text.as_bytes();
    for place in 0..bytes.len() {
        if let Some(size) = reference_length(&bytes[place..]) {
            return Some(cut(text, place, size));
        }
    }
    None
}

// The length of the name of a text that is wholly a list reference.
#[tactic(auto, unfolding(crate::specs::References::list_reference_of))]
fn list_reference_length(text: &[u8]) -> Option<usize>
    ensures { result ≡ option_map length (list_reference_of text.now) }
{
    if text.len() < 2 || text[0] != b'@' {
        return None;
    }
    let close = closing_bracket(text[1])?;
    let size = name_length(&text[2..], close)?;
    if size + 3 == text.len() {
        Some(size)
    } else {
        None
    }
}

/// The name of a text that is wholly a list reference, `@(name)` or `@{name}`, without taking memory. `None` for every
/// other text.
pub fn list_reference(text: &str) -> Option<&str>
    ensures { option_copied result ≡ list_reference_of text.now }
{
    let size = list_reference_length(text.as_bytes())?;
    Some(&text[2..2 + size])
}
