// What functions make of their arguments.
ghost use Rattle.std.specs.Prelude.{◌≡◌, ◌<◌, ◌==◌, [], if◌then◌else◌, IfOk, None, Ok, Some, map, length, option_copied, slice_get};
ghost use Rattle.std.specs.String.{string_bytes};
ghost use Rattle.std.specs.Fmt.{decimal};
ghost use Rattle.cfa_base.specs.Joined.{joined};
ghost use Rattle.cfa_functions.specs.Functions.{canonical_byte, canonified, concatenated, followed_by, item_at, text_made};
ghost use Rattle.cfa_functions.specs.Given.{argument_of, joined_so_far};
ghost use Rattle.cfa_functions.specs.declared.answering.Lack.TheVariants.{Hidden};
ghost use Rattle.cfa_kinds.specs.declared.functions.TextFunction.TheVariants.{Nth, Concat};

use crate::answering::{Answer, Lack, limited};
use crate::reading::Given;
use crate::wanting::{as_text, list_and_number, one_list, one_text, text_and_list};
use cfa_base::{Name, NoMemory, is_decimal, is_word_byte};
use cfa_kinds::TextFunction;
use std::alloc::Global;

fn canonical_byte(byte: u8) -> u8
    ensures value { result ≡ canonical_byte byte }
    ensures ascii { result < 128 }
{
    if is_word_byte(byte) { byte } else { b'_' }
}

/// A text with an underscore in the place of each byte that a class name doesn't have.
pub fn canonify(alloc: Global, text: &Name) -> Result<Name, NoMemory>
    ensures { IfOk result (λ n. n ≡ canonified text.now) }
{
    let mut whole = String::new(alloc);
    for byte in text.as_str().as_bytes() {
        whole.push(canonical_byte(*byte) as char)?;
    }
    Ok(Name::from_string(whole)?)
}

fn hidden_if(is_hidden: bool) -> Option<Lack>
    ensures { result ≡ (if is_hidden then Some Hidden else None) }
{
    if is_hidden { Some(Lack::Hidden) } else { None }
}

// Adds the texts of arguments, and tells what they lack.
fn add_texts(whole: &mut String, arguments: &[Given<'_>]) -> Result<Option<Lack>, NoMemory>
    ensures { IfOk result (λ lack. joined_so_far lack (string_bytes whole.new)
        ≡ followed_by (Ok (string_bytes whole.old))
        (concatenated (map argument_of arguments.now))) }
{
    let mut is_hidden = false;
    for argument in arguments {
        match as_text(argument) {
            Ok(text) => whole.push_str(text.as_str())?,
            Err(Lack::Missing) => return Ok(Some(Lack::Missing)),
            Err(Lack::Hidden) => is_hidden = true,
        }
    }
    Ok(hidden_if(is_hidden))
}

fn concat(alloc: Global, arguments: &[Given<'_>]) -> Result<Answer, NoMemory>
    ensures { IfOk result (λ a. a ≡ text_made Concat (map argument_of arguments.now)) }
{
    let mut whole = String::new(alloc);
    match add_texts(&mut whole, arguments)? {
        Some(lack) => Ok(lack.answer()),
        None => Ok(limited(Name::from_string(whole)?)),
    }
}

fn glue_before<'g>(place: usize, glue: &'g Name) -> &'g str
    ensures { result.now ≡ (if place == 0 then [] else glue.now) }
{
    if place == 0 { "" } else { glue.as_str() }
}

fn join(alloc: Global, glue: &Name, items: &[Name]) -> Result<Name, NoMemory>
    ensures { IfOk result (λ n. n ≡ joined glue.now items.now) }
{
    let mut whole = String::new(alloc);
    for (place, item) in items.iter().enumerate() {
        whole.push_str(glue_before(place, glue))?;
        whole.push_str(item.as_str())?;
    }
    Ok(Name::from_string(whole)?)
}

fn count(alloc: Global, items: &[Name]) -> Result<Name, NoMemory>
    ensures { IfOk result (λ n. n ≡ decimal (length items.now)) }
{
    let count = items.len();
    Ok(Name::from_string(format!(in alloc; "{count}")?)?)
}

fn item_of(items: &[Name], place: usize) -> Option<&Name>
    ensures { option_copied result ≡ slice_get items.now place }
{
    items.get(place)
}

#[tactic(auto, unfolding(crate::specs::Functions::item_at))]
fn item_at<'g>(items: &'g [Name], text: &str) -> Option<&'g Name>
    ensures { option_copied result ≡ item_at items.now text.now }
{
    if !is_decimal(text.as_bytes()) {
        return None;
    }
    match text.parse::<usize>() {
        Ok(place) => item_of(items, place),
        Err(_) => None,
    }
}

fn nth(alloc: Global, arguments: &[Given<'_>]) -> Result<Answer, NoMemory>
    ensures { IfOk result (λ a. a ≡ text_made Nth (map argument_of arguments.now)) }
{
    match list_and_number(arguments) {
        Ok((items, place)) => match item_at(items.as_slice(), place.as_str()) {
            Some(item) => Ok(limited(item.copy(alloc)?)),
            None => Ok(Answer::Unresolved),
        },
        Err(lack) => Ok(lack.answer()),
    }
}

pub(crate) fn make_text(
    alloc: Global,
    function: TextFunction,
    arguments: &[Given<'_>],
) -> Result<Answer, NoMemory>
    ensures { IfOk result (λ a. a ≡ text_made function (map argument_of arguments.now)) }
{
    match function {
        TextFunction::Canonify => match one_text(arguments) {
            Ok(text) => Ok(limited(canonify(alloc, text)?)),
            Err(lack) => Ok(lack.answer()),
        },
        TextFunction::Concat => concat(alloc, arguments),
        TextFunction::Join => match text_and_list(arguments) {
            Ok((glue, items)) => Ok(limited(join(alloc, glue, items.as_slice())?)),
            Err(lack) => Ok(lack.answer()),
        },
        TextFunction::Length => match one_list(arguments) {
            Ok(items) => Ok(limited(count(alloc, items.as_slice())?)),
            Err(lack) => Ok(lack.answer()),
        },
        TextFunction::Nth => nth(alloc, arguments),
    }
}
