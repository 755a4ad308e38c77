// Edits of their promisers and what their bodies say.
ghost use Rattle.std.specs.Prelude.{◌≡◌, ◌==◌, ◌||◌, not, Some, IfOk, IsTrue, chars, map, option_copied};
ghost use Rattle.std.specs.List.{list_any};
ghost use Rattle.std.specs.Str.Parse.{digits_value};
ghost use Rattle.cfa_base.specs.Patterns.{SizeRefusal, pattern_of};
ghost use Rattle.cfa_functions.specs.Builds.{refused_in};
ghost use Rattle.cfa_base.specs.declared.patterns.How.TheVariants.{Whole, Part};
ghost use Rattle.cfa_kinds.specs.declared.kinds.Form.TheVariants.{FieldNumber};
ghost use Rattle.cfa_kinds.specs.declared.kinds.PromiseType.TheVariants.{FieldEdits, InsertLines, ReplacePatterns};
ghost use Rattle.cfa_kinds.specs.Forms.{has_form};
ghost use Rattle.cfa_scripts.specs.EditPromises.{is_right, is_word_said, is_one_line, first_character, pattern_read, pattern_if_given, delete_for, is_right_field, field_by, field_for, block_of, spot_for, insert_by, insert_for, replace_by, replace_for, edit_for};
ghost use Rattle.cfa_scripts.specs.ScriptBuilds.{IsBuiltAs, anchor_built, pattern_for};

use crate::contributing::Contribution;
use cfa_base::{How, Name, Names, NoMemory, Pattern, PatternErr, Patterns};
use cfa_bodies::{Bodies, Said, text_in, text_or_empty};
use cfa_edits::{Edit, Spot};
use cfa_functions::CallErr;
use cfa_kinds::{Form, PromiseType, has_form};
use std::alloc::{AllocError, Global};

/// Whether what is said, if anything, has a form.
pub fn is_right(form: Form, said: Option<&Said>) -> bool
    ensures { result ≡ is_right form (option_copied said.entry) }
{
    match said {
        None => true,
        Some(said) => has_form(form, text_in(said)),
    }
}

fn is_word_said(word: &str, said: Option<&Said>) -> bool
    ensures { result ≡ is_word_said word.now (option_copied said.entry) }
{
    match said {
        None => false,
        Some(said) => text_in(said) == word,
    }
}

fn is_one_line(text: &str) -> bool
    ensures { result ≡ is_one_line text.now }
{
    for byte in text.as_bytes() {
        if *byte == b'\n' {
            return false;
        }
    }
    true
}

fn first_character(alloc: Global, text: &str) -> Result<char, NoMemory>
    ensures { IfOk result (λ c. c ≡ first_character (chars text.now)) }
{
    let characters: Vec<char> = text.chars().collect(alloc)?;
    match characters.first() {
        Some(character) => Ok(*character),
        None => Ok('\0'),
    }
}

fn field_number(text: &str) -> u16
    requires { IsTrue (has_form FieldNumber text.now) }
    ensures { result ≡ digits_value 10 text.now }
{
    match text.parse::<u16>() {
        Ok(number) => number,
        Err(_) => 0,
    }
}

// The pattern of a text, if it reads. The text that a refusal tells is copied first, so that want of memory comes before the
// build.
fn read_pattern<P: Patterns>(
    alloc: Global,
    text: &str,
    how: How,
    pats: &mut P,
) -> Result<Option<Pattern>, CallErr>
    ensures pattern { IfOk result (λ p. p ≡ pattern_read how text.now) }
    ensures sizes { SizeRefusal (IsBuiltAs (Some (pattern_of how text.now))) (refused_in result)
        (P.shown pats.old) (P.shown pats.new) }
{
    let pattern = Name::from_text(alloc, text)?;
    let refused = Name::from_text(alloc, text)?;
    match pats.build(alloc, &pattern, how) {
        Ok(pattern) => Ok(Some(pattern)),
        Err(PatternErr::Bad) => Ok(None),
        Err(PatternErr::TooBig) => Err(CallErr::PatternTooBig(refused)),
        Err(PatternErr::NoMemory) => Err(CallErr::NoMemory),
    }
}

fn pattern_if_given<P: Patterns>(
    alloc: Global,
    said: Option<&Said>,
    pats: &mut P,
) -> Result<Option<Option<Pattern>>, CallErr>
    ensures pattern { IfOk result (λ p. p ≡ pattern_if_given (option_copied said.entry)) }
    ensures sizes { SizeRefusal (IsBuiltAs (anchor_built (option_copied said.entry)))
        (refused_in result) (P.shown pats.old) (P.shown pats.new) }
{
    match said {
        None => Ok(Some(None)),
        Some(said) => match read_pattern(alloc, text_in(said), How::Whole, pats)? {
            Some(pattern) => Ok(Some(Some(pattern))),
            None => Ok(None),
        },
    }
}

fn is_right_field(separator: &str, number: &str, value: &str, operation: Option<&Said>) -> bool
    ensures { result
        ≡ is_right_field separator.now number.now value.now (option_copied operation.entry) }
{
    has_form(Form::Character, separator)
        && has_form(Form::FieldNumber, number)
        && is_one_line(value)
        && is_right(Form::FieldOperation, operation)
}

fn field_by(
    alloc: Global,
    pattern: Pattern,
    separator: &str,
    number: &str,
    value: &str,
    operation: Option<&Said>,
) -> Result<Contribution, NoMemory>
    ensures { IfOk result (λ c. c ≡ field_by pattern separator.now number.now value.now
        (option_copied operation.entry)) }
{
    if !is_right_field(separator, number, value, operation) {
        return Ok(Contribution::BadValue);
    }
    let character = first_character(alloc, separator)?;
    let value = Name::from_text(alloc, value)?;
    Ok(Contribution::Edit(Edit::Field(pattern, character, field_number(number), value)))
}

fn parts_of<'t>(alloc: Global, text: &'t str) -> Result<Vec<&'t str>, AllocError>
    ensures { IfOk result (λ parts. map (λ part. part.now) parts.items
        ≡ block_of text.entry.now) }
{
    text.split('\n').collect(alloc)
}

fn block_of(alloc: Global, promiser: &str) -> Result<Names, NoMemory>
    ensures { IfOk result (λ block. block ≡ block_of promiser.now) }
{
    let parts = parts_of(alloc, promiser)?;
    Names::from_texts(alloc, &parts)
}

fn spot_for(anchor: Option<Pattern>, is_before: bool, is_first: bool) -> Spot
    ensures { result ≡ spot_for anchor is_before is_first }
{
    match (anchor, is_before) {
        (None, true) => Spot::Start,
        (None, false) => Spot::End,
        (Some(pattern), true) => Spot::Before(pattern, is_first),
        (Some(pattern), false) => Spot::After(pattern, is_first),
    }
}

fn insert_by(
    alloc: Global,
    promiser: &str,
    anchor: Option<Pattern>,
    side: Option<&Said>,
    end: Option<&Said>,
) -> Result<Contribution, NoMemory>
    ensures { IfOk result (λ c. c ≡ insert_by promiser.now anchor
        (option_copied side.entry) (option_copied end.entry)) }
{
    if !(is_right(Form::Side, side) && is_right(Form::End, end)) {
        return Ok(Contribution::BadValue);
    }
    let spot = spot_for(
        anchor,
        is_word_said("before", side),
        is_word_said("first", end),
    );
    Ok(Contribution::Edit(Edit::Insert(block_of(alloc, promiser)?, spot)))
}

fn replace_by(
    alloc: Global,
    pattern: Pattern,
    value: &str,
    occurrences: Option<&Said>,
) -> Result<Contribution, NoMemory>
    ensures { IfOk result (λ c. c
        ≡ replace_by pattern value.now (option_copied occurrences.entry)) }
{
    if !(is_one_line(value) && is_right(Form::Occurrences, occurrences)) {
        return Ok(Contribution::BadValue);
    }
    let all = !is_word_said("first", occurrences);
    let value = Name::from_text(alloc, value)?;
    Ok(Contribution::Edit(Edit::Replace(pattern, value, all)))
}

fn delete_edit<P: Patterns>(
    alloc: Global,
    promiser: &Name,
    pats: &mut P,
) -> Result<Contribution, CallErr>
    ensures value { IfOk result (λ c. c ≡ delete_for promiser.now) }
    ensures sizes { SizeRefusal (IsBuiltAs (Some (pattern_of Whole promiser.now)))
        (refused_in result) (P.shown pats.old) (P.shown pats.new) }
{
    match read_pattern(alloc, promiser.as_str(), How::Whole, pats)? {
        Some(pattern) => Ok(Contribution::Edit(Edit::Delete(pattern))),
        None => Ok(Contribution::BadPattern),
    }
}

fn field_edit<P: Patterns>(
    alloc: Global,
    promiser: &Name,
    bodies: &Bodies,
    pats: &mut P,
) -> Result<Contribution, CallErr>
    ensures value { IfOk result (λ c. c ≡ edit_for FieldEdits promiser.now bodies.now) }
    ensures sizes { SizeRefusal (IsBuiltAs (pattern_for FieldEdits promiser.now bodies.now))
        (refused_in result) (P.shown pats.old) (P.shown pats.new) }
{
    match read_pattern(alloc, promiser.as_str(), How::Whole, pats)? {
        Some(pattern) => {
            let separator = text_or_empty(bodies.said("edit_field", "field_separator"));
            let number = text_or_empty(bodies.said("edit_field", "select_field"));
            let value = text_or_empty(bodies.said("edit_field", "field_value"));
            let operation = bodies.said("edit_field", "field_operation");
            Ok(field_by(alloc, pattern, separator, number, value, operation)?)
        }
        None => Ok(Contribution::BadPattern),
    }
}

fn insert_edit<P: Patterns>(
    alloc: Global,
    promiser: &Name,
    bodies: &Bodies,
    pats: &mut P,
) -> Result<Contribution, CallErr>
    ensures value { IfOk result (λ c. c ≡ edit_for InsertLines promiser.now bodies.now) }
    ensures sizes { SizeRefusal (IsBuiltAs (pattern_for InsertLines promiser.now bodies.now))
        (refused_in result) (P.shown pats.old) (P.shown pats.new) }
{
    match pattern_if_given(alloc, bodies.said("location", "select_line_matching"), pats)? {
        Some(anchor) => {
            let side = bodies.said("location", "before_after");
            let end = bodies.said("location", "first_last");
            Ok(insert_by(alloc, promiser.as_str(), anchor, side, end)?)
        }
        None => Ok(Contribution::BadPattern),
    }
}

fn replace_edit<P: Patterns>(
    alloc: Global,
    promiser: &Name,
    bodies: &Bodies,
    pats: &mut P,
) -> Result<Contribution, CallErr>
    ensures value { IfOk result (λ c. c ≡ edit_for ReplacePatterns promiser.now bodies.now) }
    ensures sizes { SizeRefusal (IsBuiltAs (pattern_for ReplacePatterns promiser.now bodies.now))
        (refused_in result) (P.shown pats.old) (P.shown pats.new) }
{
    match read_pattern(alloc, promiser.as_str(), How::Part, pats)? {
        Some(pattern) => {
            let value = text_or_empty(bodies.said("replace_with", "replace_value"));
            let occurrences = bodies.said("replace_with", "occurrences");
            Ok(replace_by(alloc, pattern, value, occurrences)?)
        }
        None => Ok(Contribution::BadPattern),
    }
}

/// The edit of a promise of a type, by its promiser and what its bodies say.
pub(crate) fn edit_for<P: Patterns>(
    alloc: Global,
    promise_type: PromiseType,
    promiser: &Name,
    bodies: &Bodies,
    pats: &mut P,
) -> Result<Contribution, CallErr>
    ensures value { IfOk result (λ c. c ≡ edit_for promise_type promiser.now bodies.now) }
    ensures sizes { SizeRefusal (IsBuiltAs (pattern_for promise_type promiser.now bodies.now))
        (refused_in result) (P.shown pats.old) (P.shown pats.new) }
{
    match promise_type {
        PromiseType::FieldEdits => field_edit(alloc, promiser, bodies, pats),
        PromiseType::InsertLines => insert_edit(alloc, promiser, bodies, pats),
        PromiseType::ReplacePatterns => replace_edit(alloc, promiser, bodies, pats),
        _ => delete_edit(alloc, promiser, pats),
    }
}
