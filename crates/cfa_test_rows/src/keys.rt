// The keys of locks, each told by the text that it is of.
use crate::reports::Report;
use cfa_base::{Key, Name};
use cfa_locks::key;
use std::alloc::Global;

// The key of a text. None comes for want of memory alone.
fn key_of(alloc: Global, text: &str) -> Option<Key> {
    let text = Name::from_text(alloc, text).ok()?;
    key(alloc, &text).ok()
}

// Adds the key of a text.
fn add_key(whole: &mut String, text: &str, report: &mut Report) {
    match key_of(report.alloc, text) {
        Some(key) => report.add(whole, &[key.text()]),
        None => report.require(false, text),
    }
}

/// A text with the key of each text that stands between two bars in its place.
pub fn with_keys(text: &str, report: &mut Report) -> String {
    let mut whole = String::new(report.alloc);
    let mut is_key = false;
    for part in text.split("|") {
        if is_key {
            add_key(&mut whole, part, report);
        } else {
            report.add(&mut whole, &[part]);
        }
        is_key = !is_key;
    }
    whole
}
