// The first of the later edits that clashes with an edit.
ghost use Rattle.std.specs.Prelude.{◌≡◌, ℕ, ◌+◌, ◌<◌, ◌≤◌, Bool, true, false, List, length, IfOk};
ghost use Rattle.std.specs.List.{AllWithin, HoldsAt};
ghost use Rattle.std.specs.Str.{chars};
ghost use Rattle.cfa_base.specs.Patterns.{PatternText};
ghost use Rattle.cfa_edits.specs.Scripts.{IsEdit};
ghost use Rattle.cfa_edits.specs.declared.edits.Edit.TheVariants.{Delete, Field, Insert, Replace};
ghost use Rattle.cfa_edits.specs.declared.edits.Spot.{Spot};
ghost use Rattle.cfa_edit_proof.specs.Steps.{is_replace, IsFirstPlace};

use crate::pairs::{delete_clashes, field_clashes, insert_clashes, replace_clashes};
use crate::texts::chars_of;
use cfa_base::{CompiledPattern, Matcher, Name, Names, NoMemory};
use cfa_edits::Edit;
use std::alloc::Global;

/// The place of the first replace, or the number of edits.
pub fn first_replace(edits: &[Edit]) -> usize
    ensures before { AllWithin (λ edit. is_replace edit ≡ false) edits.now 0 result }
    ensures within { result ≤ length edits.now }
    ensures first { result < length edits.now
        → HoldsAt (λ edit. is_replace edit ≡ true) edits.now result }
{
    for place in 0..edits.len() {
        if is_replace(&edits[place]) {
            return place;
        }
    }
    edits.len()
}

fn is_replace(edit: &Edit) -> bool
    ensures { result ≡ is_replace edit.now }
{
    match edit {
        Edit::Delete(_) => false,
        Edit::Field(_, _, _, _) => false,
        Edit::Insert(_, _) => false,
        Edit::Replace(_, _, _) => true,
    }
}

/// The place of the first edit from one place on that clashes with this edit. No edit before the place `replaces` is a
/// replace.
pub fn first_clashing(
    alloc: Global,
    edit: &Edit,
    edits: &[Edit],
    from: usize,
    replaces: usize,
) -> Result<Option<usize>, NoMemory>
    requires edit { IsEdit edit.now }
    requires within { from ≤ length edits.now }
    requires replaces { AllWithin (λ edit. is_replace edit ≡ false) edits.now 0 replaces }
    requires inside { replaces ≤ length edits.now }
    ensures { IfOk result (IsFirstPlace edit.now edits.now from) }
{
    match edit {
        Edit::Delete(pattern) => {
            let compiled = CompiledPattern::of(alloc, pattern)?;
            let mut matcher = compiled.matcher(alloc)?;
            Ok(first_deleted(&mut matcher, edits, from))
        }
        Edit::Field(pattern, separator, number, value) => {
            let compiled = CompiledPattern::of(alloc, pattern)?;
            let mut matcher = compiled.matcher(alloc)?;
            first_wanting(alloc, &mut matcher, *separator, *number, value, edits, from)
        }
        Edit::Insert(block, _) => Ok(first_replacing(block, edits, from, replaces)),
        Edit::Replace(pattern, _, _) => {
            first_writing(alloc, &chars_of(alloc, pattern.text())?, edits, from)
        }
    }
}

fn first_deleted(matcher: &mut Matcher<'_>, edits: &[Edit], from: usize) -> Option<usize>
    requires { from ≤ length edits.now }
    ensures { IsFirstPlace (Delete matcher.old) edits.now from result }
{
    for place in from..edits.len() {
        if delete_clashes(matcher, &edits[place]) {
            return Some(place);
        }
    }
    None
}

fn first_wanting(
    alloc: Global,
    matcher: &mut Matcher<'_>,
    separator: char,
    number: u16,
    value: &Name,
    edits: &[Edit],
    from: usize,
) -> Result<Option<usize>, NoMemory>
    requires counted { 1 ≤ number }
    requires within { from ≤ length edits.now }
    ensures { IfOk result
        (IsFirstPlace (Field matcher.old separator number value.now) edits.now from) }
{
    for place in from..edits.len() {
        if field_clashes(alloc, matcher, separator, number, value, &edits[place])? {
            return Ok(Some(place));
        }
    }
    Ok(None)
}

// Inserts clash with replaces alone, so what stands before the first of these is passed over.
fn first_replacing(block: &Names, edits: &[Edit], from: usize, replaces: usize) -> Option<usize>
    requires within { from ≤ length edits.now }
    requires replaces { AllWithin (λ edit. is_replace edit ≡ false) edits.now 0 replaces }
    requires inside { replaces ≤ length edits.now }
    ensures { (spot : Spot) → IsFirstPlace (Insert block.now spot) edits.now from result }
{
    let start = if from < replaces { replaces } else { from };
    for place in start..edits.len() {
        if insert_clashes(block, &edits[place]) {
            return Some(place);
        }
    }
    None
}

fn first_writing(
    alloc: Global,
    pattern: &[char],
    edits: &[Edit],
    from: usize,
) -> Result<Option<usize>, NoMemory>
    requires { from ≤ length edits.now }
    ensures { IfOk result (λ found. (text : PatternText) (value : List ℕ) (all : Bool)
        → chars text.text ≡ pattern.now
        → IsFirstPlace (Replace text value all) edits.now from found) }
{
    for place in from..edits.len() {
        if replace_clashes(alloc, pattern, &edits[place])? {
            return Ok(Some(place));
        }
    }
    Ok(None)
}
