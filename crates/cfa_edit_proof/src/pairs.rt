// Whether two edits clash, and whether one clashes with itself.
ghost use Rattle.std.specs.Prelude.{◌≡◌, ℕ, Bool, List, IfOk, ◌≤◌};
ghost use Rattle.std.specs.List.{list_any};
ghost use Rattle.std.specs.Str.{chars};
ghost use Rattle.cfa_base.specs.Patterns.{PatternText, matches_in};
ghost use Rattle.cfa_edits.specs.declared.edits.Edit.TheVariants.{Delete, Field, Insert, Replace};
ghost use Rattle.cfa_edits.specs.declared.edits.Spot.{Spot};
ghost use Rattle.cfa_edit_proof.specs.Plain as plain;
ghost use Rattle.cfa_edit_proof.specs.Clashes as clashes;
ghost use Rattle.cfa_edit_proof.specs.Steps as steps;

use crate::texts::{chars_of, contains, is_in, is_plain, share};
use cfa_base::{Matcher, Name, Names, NoMemory, Pattern};
use cfa_edits::{Edit, EditErr, with_field};
use std::alloc::Global;

/// Whether the edit clashes with itself.
pub fn clashes_alone(alloc: Global, edit: &Edit) -> Result<bool, NoMemory>
    ensures { IfOk result (λ found. found ≡ clashes.clashes_alone edit.now) }
{
    match edit {
        Edit::Delete(_) => Ok(false),
        Edit::Field(_, separator, _, value) => {
            Ok(is_in(&chars_of(alloc, value.as_str())?, *separator))
        }
        Edit::Insert(_, _) => Ok(false),
        Edit::Replace(pattern, value, all) => replaces_anew(alloc, pattern, value, *all),
    }
}

// Whether a replace may write what it would replace, or be one of the first match alone.
fn replaces_anew(
    alloc: Global,
    pattern: &Pattern,
    value: &Name,
    all: bool,
) -> Result<bool, NoMemory>
    ensures { IfOk result
        (λ found. found ≡ clashes.clashes_alone (Replace pattern.now value.now all)) }
{
    if !all || !is_plain(pattern.text()) || value.as_str().is_empty() {
        return Ok(true);
    }
    let chars = chars_of(alloc, pattern.text())?;
    Ok(share(&chars_of(alloc, value.as_str())?, &chars))
}

/// Whether a delete by the pattern of the matcher clashes with the later edit.
pub fn delete_clashes(matcher: &mut Matcher<'_>, later: &Edit) -> bool
    ensures found { result ≡ steps.clash_of_two (Delete matcher.old) later.now }
    ensures same { matcher.new ≡ matcher.old }
{
    match later {
        Edit::Delete(_) => false,
        Edit::Field(_, _, _, _) => true,
        Edit::Insert(block, _) => matches_any(matcher, block),
        Edit::Replace(_, _, _) => true,
    }
}

fn matches_any(matcher: &mut Matcher<'_>, block: &Names) -> bool
    ensures found { result ≡ list_any (λ line. matches_in matcher.old line) block.now }
    ensures same { matcher.new ≡ matcher.old }
{
    for line in block.as_slice() {
        if matcher.matches(line.as_str()) {
            return true;
        }
    }
    false
}

/// Whether a field edit with the pattern of the matcher clashes with the later edit.
pub fn field_clashes(
    alloc: Global,
    matcher: &mut Matcher<'_>,
    separator: char,
    number: u16,
    value: &Name,
    later: &Edit,
) -> Result<bool, NoMemory>
    requires { 1 ≤ number }
    ensures found { IfOk result (λ found. found
        ≡ steps.clash_of_two (Field matcher.old separator number value.now) later.now) }
    ensures same { matcher.new ≡ matcher.old }
{
    match later {
        Edit::Delete(_) => Ok(false),
        Edit::Field(_, _, _, _) => Ok(true),
        Edit::Insert(block, _) => wants_any(alloc, matcher, separator, number, value, block),
        Edit::Replace(_, _, _) => Ok(true),
    }
}

fn wants_any(
    alloc: Global,
    matcher: &mut Matcher<'_>,
    separator: char,
    number: u16,
    value: &Name,
    block: &Names,
) -> Result<bool, NoMemory>
    requires { 1 ≤ number }
    ensures found { IfOk result (λ found. found ≡ list_any
        (λ line. clashes.wants_field matcher.old separator number value.now line) block.now) }
    ensures same { matcher.new ≡ matcher.old }
{
    for line in block.as_slice() {
        let line = line.as_str();
        if matcher.matches(line) && !has_field(alloc, separator, number, value, line)? {
            return Ok(true);
        }
    }
    Ok(false)
}

// Whether the line has a field of this number, and it is the value.
fn has_field(
    alloc: Global,
    separator: char,
    number: u16,
    value: &Name,
    line: &str,
) -> Result<bool, NoMemory>
    requires { 1 ≤ number }
    ensures { IfOk result
        (λ has. has ≡ clashes.has_field separator number value.now line.now) }
{
    match with_field(alloc, line, separator, number, value) {
        Ok(Some(changed)) => Ok(changed.as_str() == line),
        Ok(None) => Ok(false),
        Err(_) => Err(NoMemory),
    }
}

/// Whether an insert of the block clashes with the later edit.
pub fn insert_clashes(block: &Names, later: &Edit) -> bool
    ensures { (spot : Spot) → result ≡ steps.clash_of_two (Insert block.now spot) later.now }
{
    match later {
        Edit::Delete(_) => false,
        Edit::Field(_, _, _, _) => false,
        Edit::Insert(_, _) => false,
        Edit::Replace(pattern, _, _) => contains_any(block, pattern.text()),
    }
}

fn contains_any(block: &Names, text: &str) -> bool
    ensures { result ≡ list_any (λ line. plain.contains line text.now) block.now }
{
    for line in block.as_slice() {
        if contains(line.as_str(), text) {
            return true;
        }
    }
    false
}

/// Whether a replace of a pattern of these characters clashes with the later edit.
pub fn replace_clashes(alloc: Global, pattern: &[char], later: &Edit) -> Result<bool, NoMemory>
    ensures { IfOk result (λ found. (text : PatternText) (value : List ℕ) (all : Bool)
        → chars text.text ≡ pattern.now
        → found ≡ steps.clash_of_two (Replace text value all) later.now) }
{
    match later {
        Edit::Delete(_) => Ok(false),
        Edit::Field(_, _, _, _) => Ok(false),
        Edit::Insert(_, _) => Ok(false),
        Edit::Replace(_, value, _) => Ok(share(&chars_of(alloc, value.as_str())?, pattern)),
    }
}

/// The rule by which two edits of these kinds may clash.
pub fn rule_between(first: &Edit, second: &Edit) -> u8
    ensures { result ≡ steps.rule_between first.now second.now }
{
    match (first, second) {
        (Edit::Delete(_), Edit::Insert(_, _)) => 2,
        (Edit::Insert(_, _), _) => 3,
        (Edit::Field(_, _, _, _), Edit::Insert(_, _)) => 6,
        (Edit::Replace(_, _, _), _) => 5,
        _ => 4,
    }
}
