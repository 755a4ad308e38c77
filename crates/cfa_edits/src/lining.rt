// Edits line by line: deletes, replaces and field edits, over a deck.
ghost use Rattle.std.specs.Prelude.{◌≡◌, ℕ, ◌≤◌, map, Ok, IfErr, OnOk};
ghost use Rattle.cfa_base.specs.Patterns.{replaced};
ghost use Rattle.cfa_edits.specs.Edits.{unmatched, field_edited, each_becomes, or_field_count};
ghost use Rattle.cfa_edits.specs.Answers.{IsRefusalOf};

use crate::EditErr;
use crate::fields::with_field;
use cfa_base::{CompiledPattern, Matcher, Name, Pattern};
use cfa_lines::Deck;
use std::alloc::Global;

// Takes out each line that the matcher matches.
fn take_out(deck: &mut Deck, matcher: &mut Matcher<'_>)
    ensures { deck.new.lines ≡ unmatched matcher.old deck.old.lines }
{
    deck.rewind();
    while let Some(line) = deck.at() {
        if matcher.matches(line) {
            deck.remove();
        } else {
            deck.step();
        }
    }
}

/// Takes out each line that the pattern matches.
pub fn delete(alloc: Global, deck: &mut Deck, pattern: &Pattern) -> Result<(), EditErr>
    ensures ok { OnOk result (deck.new.lines ≡ unmatched pattern.now deck.old.lines) }
    ensures memory { IfErr result (λ error. error ≡ EditErr.NoMemory) }
{
    let compiled = CompiledPattern::of(alloc, pattern)?;
    let mut matcher = compiled.matcher(alloc)?;
    take_out(deck, &mut matcher);
    Ok(())
}

// Writes the value in the place of what the matcher finds in each line.
fn write_over(
    alloc: Global,
    deck: &mut Deck,
    matcher: &mut Matcher<'_>,
    value: &Name,
    all: bool,
) -> Result<(), EditErr>
    ensures ok { OnOk result (deck.new.lines
        ≡ map (λ line. replaced matcher.old line value.now all) deck.old.lines) }
    ensures memory { IfErr result (λ error. error ≡ EditErr.NoMemory) }
{
    deck.rewind();
    while let Some(line) = deck.at() {
        if !matcher.matches(line) {
            deck.step();
            continue;
        }
        let changed = matcher.replace(alloc, line, value, all)?;
        deck.put(changed);
    }
    Ok(())
}

/// Writes the value in the place of what the pattern finds in each line.
pub fn replace(
    alloc: Global,
    deck: &mut Deck,
    pattern: &Pattern,
    value: &Name,
    all: bool,
) -> Result<(), EditErr>
    ensures ok { OnOk result (deck.new.lines
        ≡ map (λ line. replaced pattern.now line value.now all) deck.old.lines) }
    ensures memory { IfErr result (λ error. error ≡ EditErr.NoMemory) }
{
    let compiled = CompiledPattern::of(alloc, pattern)?;
    let mut matcher = compiled.matcher(alloc)?;
    write_over(alloc, deck, &mut matcher, value, all)
}

// Gives a field of each line that the matcher matches a value.
fn give_fields(
    alloc: Global,
    deck: &mut Deck,
    matcher: &mut Matcher<'_>,
    separator: char,
    number: u16,
    value: &Name,
) -> Result<(), EditErr>
    requires { 1 ≤ number }
    ensures ok { OnOk result (or_field_count (each_becomes
        (λ line. field_edited matcher.old separator number value.now line) deck.old.lines)
        ≡ Ok deck.new.lines) }
    ensures refused { IfErr result (IsRefusalOf (or_field_count (each_becomes
        (λ line. field_edited matcher.old separator number value.now line) deck.old.lines))) }
{
    deck.rewind();
    while let Some(line) = deck.at() {
        if !matcher.matches(line) {
            deck.step();
            continue;
        }
        let Some(changed) = with_field(alloc, line, separator, number, value)? else {
            return Err(EditErr::FieldCount);
        };
        deck.put(changed);
    }
    Ok(())
}

/// Gives a field of each matched line a value.
pub fn edit_fields(
    alloc: Global,
    deck: &mut Deck,
    pattern: &Pattern,
    separator: char,
    number: u16,
    value: &Name,
) -> Result<(), EditErr>
    requires { 1 ≤ number }
    ensures ok { OnOk result (or_field_count (each_becomes
        (λ line. field_edited pattern.now separator number value.now line) deck.old.lines)
        ≡ Ok deck.new.lines) }
    ensures refused { IfErr result (IsRefusalOf (or_field_count (each_becomes
        (λ line. field_edited pattern.now separator number value.now line) deck.old.lines))) }
{
    let compiled = CompiledPattern::of(alloc, pattern)?;
    let mut matcher = compiled.matcher(alloc)?;
    give_fields(alloc, deck, &mut matcher, separator, number, value)
}
