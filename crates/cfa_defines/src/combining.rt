// The combinations of what a promise reads.
ghost use Rattle.std.specs.Prelude.{◌≡◌, [], ◌∷◌, ◌++◌, IfOk, OnOk, option_copied};
ghost use Rattle.std.specs.List.{list_any, filter_map};
ghost use Rattle.cfa_vars.specs.Scopes.{in_scope, look};
ghost use Rattle.cfa_vars.specs.Expansion.{expanded};
ghost use Rattle.cfa_defines.specs.OwnTexts.{held_list, lacking_in, first_lacking, is_long_list, has_too_many, choices_among, is_past_limit, found_or_too_long, combined};
ghost use Rattle.cfa_defines.specs.OfTheCode.{text_read, has_text_too_long, needs_choice};
ghost use Rattle.cfa_defines.specs.VarsPromises.{choices_unless};

use crate::reads::Read;
use cfa_base::{MOST_COMBINATIONS, Name, Names, NoMemory};
use cfa_vars::{
    Choice, ChoiceList, Choices, Expanded, Scopes, Variable, combinations, expand, first_unset_in,
    is_plain, look_up,
};
use std::alloc::Global;

/// What reading comes to.
#[derive(Drop)]
pub enum Combined {
    /// The first name that keeps something from being read.
    Lacks(Name),
    TooMany,
    /// A text is too long in one of so many combinations.
    TooLong(usize),
    Found(ChoiceList),
}

/// The list that a name refers to.
pub fn held_list<'a>(scopes: &Scopes<'a>, name: &str) -> Option<&'a Names>
    ensures { option_copied result ≡ held_list (look (in_scope scopes.now) name.now) }
{
    match look_up(scopes, name) {
        Some(Variable::List(items)) => Some(items),
        Some(Variable::Text(_)) => None,
        None => None,
    }
}

fn lacking_in<'r>(read: &'r Read, scopes: &Scopes<'_>) -> Option<&'r str>
    ensures { option_copied result ≡ lacking_in (in_scope scopes.now) read.now }
{
    match read {
        Read::Text(text) => first_unset_in(text.as_str(), scopes),
        Read::List(name) => match held_list(scopes, name.as_str()) {
            None => Some(name.as_str()),
            Some(_) => None,
        },
    }
}

fn first_lacking<'r>(reads: &'r [Read], scopes: &Scopes<'_>) -> Option<&'r str>
    ensures { option_copied result ≡ first_lacking (in_scope scopes.now) reads.now }
{
    for read in reads {
        if let Some(name) = lacking_in(read, scopes) {
            return Some(name);
        }
    }
    None
}

fn is_long_list(read: &Read, scopes: &Scopes<'_>) -> bool
    ensures { result ≡ is_long_list (in_scope scopes.now) read.now }
{
    match read {
        Read::Text(_) => false,
        Read::List(name) => match held_list(scopes, name.as_str()) {
            None => false,
            Some(items) => items.as_slice().len() > MOST_COMBINATIONS,
        },
    }
}

fn has_long_list(reads: &[Read], scopes: &Scopes<'_>) -> bool
    ensures { result ≡ list_any (is_long_list (in_scope scopes.now)) reads.now }
{
    for read in reads {
        if is_long_list(read, scopes) {
            return true;
        }
    }
    false
}

fn add_text(texts: &mut Vec<Name>, read: Read) -> Result<(), NoMemory>
    ensures { OnOk result
        (texts.new.items ≡ texts.old.items ++ filter_map text_read (read ∷ [])) }
{
    match read {
        Read::Text(text) => Ok(texts.push(text)?),
        Read::List(_) => Ok(()),
    }
}

// The texts among what is read.
#[tactic(auto, using(crate::proofs::Rules::appended))]
fn texts_among(alloc: Global, reads: Vec<Read>) -> Result<Vec<Name>, NoMemory>
    ensures { IfOk result (λ texts. texts.items ≡ filter_map text_read reads.items) }
{
    let mut texts = Vec::new(alloc);
    for read in reads {
        add_text(&mut texts, read)?;
    }
    Ok(texts)
}

fn is_too_long(
    alloc: Global,
    text: &Name,
    scopes: &Scopes<'_>,
    choice: &Choice,
) -> Result<bool, NoMemory>
    ensures { IfOk result
        (λ b. b ≡ is_past_limit (expanded (in_scope scopes.now) choice.now text.now)) }
{
    match expand(alloc, text, scopes, choice.as_slice())? {
        Expanded::Done(_) => Ok(false),
        Expanded::Unresolved(_) => Ok(false),
        Expanded::TooLong => Ok(true),
    }
}

fn has_too_long(
    alloc: Global,
    texts: &[Name],
    scopes: &Scopes<'_>,
    choice: &Choice,
) -> Result<bool, NoMemory>
    ensures { IfOk result (λ b. b
        ≡ has_text_too_long (in_scope scopes.now) texts.now choice.now) }
{
    for text in texts {
        if is_too_long(alloc, text, scopes, choice)? {
            return Ok(true);
        }
    }
    Ok(false)
}

// Whether a text is too long in one of some combinations.
fn is_once_too_long(
    alloc: Global,
    texts: &[Name],
    scopes: &Scopes<'_>,
    choices: &[Choice],
) -> Result<bool, NoMemory>
    ensures { IfOk result (λ b. b
        ≡ list_any (has_text_too_long (in_scope scopes.now) texts.now) choices.now) }
{
    for choice in choices {
        if has_too_long(alloc, texts, scopes, choice)? {
            return Ok(true);
        }
    }
    Ok(false)
}

fn found_or_too_long(
    alloc: Global,
    texts: &[Name],
    scopes: &Scopes<'_>,
    choices: ChoiceList,
) -> Result<Combined, NoMemory>
    ensures { IfOk result (λ c. c ≡ found_or_too_long
        (list_any (has_text_too_long (in_scope scopes.now) texts.now) choices) choices) }
{
    if is_once_too_long(alloc, texts, scopes, choices.as_slice())? {
        Ok(Combined::TooLong(choices.as_slice().len()))
    } else {
        Ok(Combined::Found(choices))
    }
}

/// The combinations of what is read, whatever its texts give in them; `None` where something is lacking or too many.
pub(crate) fn choose(
    alloc: Global,
    reads: Vec<Read>,
    scopes: &Scopes<'_>,
) -> Result<Option<ChoiceList>, NoMemory>
    ensures { IfOk result (λ c. c ≡ choices_unless (first_lacking (in_scope scopes.now) reads.items)
        (has_too_many (in_scope scopes.now) reads.items)
        (choices_among (in_scope scopes.now) reads.items)) }
{
    if let Some(_lacking) = first_lacking(&reads, scopes) {
        return Ok(None);
    }
    if has_long_list(&reads, scopes) {
        return Ok(None);
    }
    let texts = texts_among(alloc, reads)?;
    match combinations(alloc, &texts, scopes)? {
        Choices::Unresolved(_) => Ok(None),
        Choices::TooMany => Ok(None),
        Choices::Found(choices) => Ok(Some(choices)),
    }
}

fn needs_choice(read: &Read, scopes: &Scopes<'_>) -> bool
    ensures { result ≡ needs_choice (in_scope scopes.now) read.now }
{
    match read {
        Read::Text(text) => !is_plain(text.as_str(), scopes),
        Read::List(_) => true,
    }
}

fn needs_choices(reads: &[Read], scopes: &Scopes<'_>) -> bool
    ensures { result ≡ list_any (needs_choice (in_scope scopes.now)) reads.now }
{
    for read in reads {
        if needs_choice(read, scopes) {
            return true;
        }
    }
    false
}

// The choice of nothing.
fn one_choice(alloc: Global) -> Result<ChoiceList, NoMemory>
    ensures { IfOk result (λ c. c ≡ [] ∷ []) }
{
    let mut choices = Vec::new(alloc);
    choices.push(Choice::from_vec(Vec::new(alloc)))?;
    Ok(ChoiceList::from_vec(choices))
}

fn combine_each(alloc: Global, reads: Vec<Read>, scopes: &Scopes<'_>) -> Result<Combined, NoMemory>
    ensures { IfOk result (λ c. c ≡ combined (in_scope scopes.now) reads.items) }
{
    if let Some(name) = first_lacking(&reads, scopes) {
        return Ok(Combined::Lacks(Name::from_text(alloc, name)?));
    }
    if has_long_list(&reads, scopes) {
        return Ok(Combined::TooMany);
    }
    let texts = texts_among(alloc, reads)?;
    match combinations(alloc, &texts, scopes)? {
        Choices::Unresolved(name) => Ok(Combined::Lacks(name)),
        Choices::TooMany => Ok(Combined::TooMany),
        Choices::Found(choices) => found_or_too_long(alloc, &texts, scopes, choices),
    }
}

/// The combinations of what is read, or why there are none. It takes no longer than the expansion of the texts in each
/// combination.
pub fn combine(alloc: Global, reads: Vec<Read>, scopes: &Scopes<'_>) -> Result<Combined, NoMemory>
    ensures { IfOk result (λ c. c ≡ combined (in_scope scopes.now) reads.items) }
{
    if needs_choices(&reads, scopes) {
        return combine_each(alloc, reads, scopes);
    }
    Ok(Combined::Found(one_choice(alloc)?))
}
