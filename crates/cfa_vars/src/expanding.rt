// The expansion of a text.
ghost use Rattle.std.specs.Prelude.{◌≡◌, [], ◌++◌, ◌<◌, ◌≤◌, IfOk, IfSome, MatchBool, None, is_none, length, map, option_copied};
ghost use Rattle.std.specs.String.{string_bytes, string_len};
ghost use Rattle.cfa_vars.specs.Named.{thing_at};
ghost use Rattle.cfa_vars.specs.References.{literal, pieces};
ghost use Rattle.cfa_vars.specs.Scopes.{in_scope};
ghost use Rattle.cfa_vars.specs.Expansion.{scalar, filled, first_unresolved, within_limit, done_or_too_long, is_done, expanded};

use crate::looking::{Scopes, Variable, list_key, look_up};
use crate::references::first_reference;
use cfa_base::{MOST_TEXT_BYTES, Name, NoMemory};
use std::alloc::Global;

/// What an expansion gives.
#[derive(Debug, Drop)]
pub enum Expanded {
    /// The text with each reference replaced.
    Done(Name),
    /// The first name from left to right that stands for no text, as it is written between its brackets.
    Unresolved(Name),
    /// Each name stands for a text, and the whole has more than 65,536 bytes.
    TooLong,
}

fn find_choice<'a>(choice: &'a [(Name, Name)], key: &str) -> Option<&'a str>
    ensures { option_copied result ≡ thing_at choice.now key.now }
{
    for item in choice {
        if key == item.0.as_str() {
            return Some(item.1.as_str());
        }
    }
    None
}

#[tactic(auto, unfolding(crate::specs::Expansion::scalar))]
fn scalar<'a>(scopes: &Scopes<'a>, choice: &'a [(Name, Name)], name: &str) -> Option<&'a str>
    ensures { option_copied result ≡ scalar (in_scope scopes.now) choice.now name.now }
{
    match look_up(scopes, name)? {
        Variable::Text(text) => Some(text),
        Variable::List(_) => find_choice(choice, list_key(scopes, name)),
    }
}

fn is_unresolved(scopes: &Scopes<'_>, choice: &[(Name, Name)], name: &str) -> bool
    ensures { result ≡ is_none (scalar (in_scope scopes.now) choice.now name.now) }
{
    scalar(scopes, choice, name).is_none()
}

fn first_unresolved<'t>(
    text: &'t str,
    scopes: &Scopes<'_>,
    choice: &[(Name, Name)],
) -> Option<&'t str>
    ensures { option_copied result ≡ first_unresolved (in_scope scopes.now) choice.now text.now }
{
    let mut rest = text;
    while let Some(found) = first_reference(rest) {
        if is_unresolved(scopes, choice, found.name) {
            return Some(found.name);
        }
        rest = found.after;
    }
    None
}

// Adds a part to a text if the whole stays within the limit, and tells whether it did.
fn add(whole: &mut String, part: &str) -> Result<bool, NoMemory>
    requires { string_len whole.old ≤ MOST_TEXT_BYTES }
    ensures added { IfOk result (λ fits. MatchBool fits
        (string_bytes whole.new ≡ string_bytes whole.old ++ part.now)
        (MOST_TEXT_BYTES < length (string_bytes whole.old ++ part.now))) }
    ensures within { string_len whole.new ≤ MOST_TEXT_BYTES }
{
    if part.len() > MOST_TEXT_BYTES - whole.len() {
        return Ok(false);
    }
    whole.push_str(part)?;
    Ok(true)
}

// The text with what each reference stands for in its place, or `None` where one stands for nothing, and past the limit.
fn fill(
    alloc: Global,
    text: &str,
    scopes: &Scopes<'_>,
    choice: &[(Name, Name)],
) -> Result<Option<String>, NoMemory>
    ensures done { IfOk result (λ whole. IfSome whole (λ w.
        expanded (in_scope scopes.now) choice.now text.now ≡ Expanded.Done (string_bytes w))) }
    ensures long { IfOk result (λ whole. whole ≡ None
        → first_unresolved (in_scope scopes.now) choice.now text.now ≡ None
        → within_limit (filled (in_scope scopes.now) choice.now text.now) ≡ None) }
{
    let mut whole = String::with_capacity(alloc, text.len())?;
    let mut rest = text;
    while let Some(found) = first_reference(rest) {
        let part = match scalar(scopes, choice, found.name) {
            Some(part) => part,
            None => return Ok(None),
        };
        if !add(&mut whole, found.before)? {
            return Ok(None);
        }
        if !add(&mut whole, part)? {
            return Ok(None);
        }
        rest = found.after;
    }
    if !add(&mut whole, rest)? {
        return Ok(None);
    }
    Ok(Some(whole))
}

// A text with some references.
#[tactic(auto, unfolding(crate::specs::Expansion::expanded))]
fn replace_each(
    alloc: Global,
    text: &Name,
    scopes: &Scopes<'_>,
    choice: &[(Name, Name)],
) -> Result<Expanded, NoMemory>
    ensures { IfOk result (λ e. e ≡ expanded (in_scope scopes.now) choice.now text.now) }
{
    if let Some(whole) = fill(alloc, text.as_str(), scopes, choice)? {
        return Ok(Expanded::Done(Name::from_string(whole)?));
    }
    match first_unresolved(text.as_str(), scopes, choice) {
        Some(name) => Ok(Expanded::Unresolved(Name::from_text(alloc, name)?)),
        None => Ok(Expanded::TooLong),
    }
}

// A text without any reference.
fn keep(alloc: Global, text: &Name) -> Result<Expanded, NoMemory>
    ensures { IfOk result (λ e. e ≡ done_or_too_long (within_limit text.now)) }
{
    if text.as_str().len() > MOST_TEXT_BYTES {
        return Ok(Expanded::TooLong);
    }
    Ok(Expanded::Done(text.copy(alloc)?))
}

/// A text with each of its references replaced once, from left to right: by the text of its variable, or, where the
/// variable is a list, by the item that `choice` has under the key of that list (`list_key`); the first pair with the
/// key counts. What is put in is not read again. A name stands for nothing, and is then told as `Unresolved`, where it
/// refers to no variable that is set (`look_up`), or to a list of which no item is chosen. A `$` that begins no
/// reference stays, and so does each `@`. `Unresolved` goes before `TooLong`. The time is linear in the text and in
/// what is put in, besides a logarithm of the shared scopes for each qualified name and a pass over `choice` for each list.
/// A text without any reference is shared, not copied.
pub fn expand(
    alloc: Global,
    text: &Name,
    scopes: &Scopes<'_>,
    choice: &[(Name, Name)],
) -> Result<Expanded, NoMemory>
    ensures { IfOk result (λ e. e ≡ expanded (in_scope scopes.now) choice.now text.now) }
{
    match first_reference(text.as_str()) {
        None => keep(alloc, text),
        Some(_) => replace_each(alloc, text, scopes, choice),
    }
}

/// Whether a text expands where no item of a list is chosen, without taking memory: each of its references stands for a text,
/// and the whole has no more than 65,536 bytes.
pub fn is_plain(text: &str, scopes: &Scopes<'_>) -> bool
    ensures { result ≡ is_done (expanded (in_scope scopes.now) [] text.now) }
{
    let mut left = MOST_TEXT_BYTES;
    let mut rest = text;
    while let Some(found) = first_reference(rest) {
        let part = match scalar(scopes, &[], found.name) {
            Some(part) => part,
            None => return false,
        };
        if found.before.len() > left {
            return false;
        }
        left -= found.before.len();
        if part.len() > left {
            return false;
        }
        left -= part.len();
        rest = found.after;
    }
    rest.len() <= left
}
