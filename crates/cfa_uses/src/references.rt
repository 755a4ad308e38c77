// The references of a text.
use crate::uses::Frame;
use cfa_base::{is_name, is_word_byte};

// What stands between the quotes of a text, as it is written.
pub fn content_of(text: &str) -> &str {
    match text.strip_prefix('"') {
        Some(inner) => inner.strip_suffix('"').unwrap_or(inner),
        None => match text.strip_prefix('\'') {
            Some(inner) => inner.strip_suffix('\'').unwrap_or(inner),
            None => text,
        },
    }
}

// The reference that goes on behind its `$`, and what stands behind it.
fn split_reference(piece: &str) -> Option<(&str, &str)> {
    if let Some(inner) = piece.strip_prefix('(') {
        return inner.split_once(')');
    }
    match piece.strip_prefix('{') {
        Some(inner) => inner.split_once('}'),
        None => None,
    }
}

// The name of the reference that goes on behind its `$`.
pub fn reference_of(piece: &str) -> Option<&str> {
    let (name, _) = split_reference(piece)?;
    if is_name(name.as_bytes()) {
        Some(name)
    } else {
        None
    }
}

// The name of a list reference that a text is as a whole.
pub fn list_of(content: &str) -> Option<&str> {
    let name = reference_of(content.strip_prefix('@')?)?;
    if content.len() == name.len().saturating_add(3) {
        Some(name)
    } else {
        None
    }
}

fn are_word_bytes(text: &str) -> bool {
    text.bytes().all(|byte| is_word_byte(byte))
}

// What stands behind the reference of a piece, where that may be a part of a name.
fn part_behind(piece: &str) -> Option<&str> {
    let (name, back) = split_reference(piece)?;
    if name.starts_with("const.") || !are_word_bytes(back) {
        None
    } else {
        Some(back)
    }
}

// Whether all that stands behind the references of a text may be parts of a name.
fn are_parts(rest: &str) -> bool {
    for piece in rest.split('$') {
        if part_behind(piece).is_none() {
            return false;
        }
    }
    true
}

fn last_piece(rest: &str) -> &str {
    match rest.rsplit_once('$') {
        Some((_, last)) => last,
        None => rest,
    }
}

// What the names begin and end with that a text with references may be. None for what is no name, and for what is one reference
// and no more.
pub fn frame_of(content: &str) -> Option<Frame<'_>> {
    let (front, rest) = content.split_once('$')?;
    if !are_word_bytes(front) || !are_parts(rest) {
        return None;
    }
    let back = part_behind(last_piece(rest))?;
    if front.is_empty() && back.is_empty() && !rest.contains('$') {
        None
    } else {
        Some(Frame { front, back })
    }
}
