// The combinations of the items of lists.
ghost use Rattle.std.specs.Prelude.{◌≡◌, ◌++◌, ◌∷◌, [], ◌+◌, ◌<◌, drop, IfOk, OnOk, is_none, length, map, option_copied, ◌==◌};
ghost use Rattle.std.specs.List.{list_any, flat_map};
ghost use Rattle.cfa_vars.specs.References.{names_in};
ghost use Rattle.cfa_vars.specs.Scopes.{in_scope, look};
ghost use Rattle.cfa_vars.specs.Choices.{all_choices, extended, gathered, seen_lists, are_too_many, first_unset, lists_among, choices_of};

use crate::looking::{Scopes, Variable, list_key, look_up};
use crate::references::first_reference;
use cfa_base::{MOST_COMBINATIONS, Name, Names, NoMemory};
use indexmap::IndexMap;
use std::alloc::Global;
use std::marker::Model;

/// One combination: for each list variable its key (`list_key`) with the item that is chosen, in the order in which
/// the lists are referred to.
#[derive(Debug, Drop)]
pub struct Choice {
    items: Vec<(Name, Name)>,
}

impl Model for Choice {
    ghost use Rattle.std.specs.Prelude.{List, ℕ};

    ghost Value = { List (List ℕ × List ℕ) };

    ghost view = { λ c. c.items.items };
}

impl Choice {
    /// The pairs of a `Vec`, without taking memory.
    pub fn from_vec(items: Vec<(Name, Name)>) -> Choice
        ensures { result ≡ items.items }
    {
        Choice { items }
    }

    /// The pairs, as `expand` takes them, without taking memory.
    pub fn as_slice(&self) -> &[(Name, Name)]
        ensures { result.now ≡ self.now }
    {
        self.items.as_slice()
    }

    fn copy(&self, alloc: Global) -> Result<Choice, NoMemory>
        ensures { IfOk result (λ c. c ≡ self.now) }
    {
        let mut items = Vec::new(alloc);
        for pair in &self.items {
            items.push((pair.0.copy(alloc)?, pair.1.copy(alloc)?))?;
        }
        Ok(Choice { items })
    }

    // This choice with one more item.
    fn with(self, alloc: Global, key: &str, item: &Name) -> Result<Choice, NoMemory>
        ensures { IfOk result (λ c. c ≡ self ++ (key.now, item.now) ∷ []) }
    {
        let mut items = self.items;
        items.push((Name::from_text(alloc, key)?, item.copy(alloc)?))?;
        Ok(Choice { items })
    }
}

/// A list of combinations.
#[derive(Debug, Drop)]
pub struct ChoiceList {
    items: Vec<Choice>,
}

impl Model for ChoiceList {
    ghost use Rattle.std.specs.Prelude.{List, ℕ};

    ghost Value = { List (List (List ℕ × List ℕ)) };

    ghost view = { λ c. c.items.items };
}

impl ChoiceList {
    /// The combinations of a `Vec`, without taking memory.
    pub fn from_vec(items: Vec<Choice>) -> ChoiceList
        ensures { result ≡ items.items }
    {
        ChoiceList { items }
    }

    /// The combinations, without taking memory.
    pub fn as_slice(&self) -> &[Choice]
        ensures { result.now ≡ self.now }
    {
        self.items.as_slice()
    }
}

/// What the lists of some texts give.
#[derive(Debug, Drop)]
pub enum Choices {
    /// All choices of an item of each list.
    Found(ChoiceList),
    /// The first name, in the order of the texts and from left to right, that refers to no variable that is set.
    Unresolved(Name),
    /// More than 4,096 combinations, or a list of more than 4,096 items, also where another list is empty.
    TooMany,
}

// The lists that texts refer to, under their keys, in the order of first reference.
type Lists<'a> = IndexMap<&'a str, &'a Names>;

fn is_unset(scopes: &Scopes<'_>, name: &str) -> bool
    ensures { result ≡ is_none (look (in_scope scopes.now) name.now) }
{
    look_up(scopes, name).is_none()
}

/// The first name of a text, from left to right, that refers to no variable that is set, without taking memory.
pub fn first_unset_in<'t>(text: &'t str, scopes: &Scopes<'_>) -> Option<&'t str>
    ensures { option_copied result ≡ first_unset (in_scope scopes.now) (names_in text.now) }
{
    let mut rest = text;
    while let Some(found) = first_reference(rest) {
        if is_unset(scopes, found.name) {
            return Some(found.name);
        }
        rest = found.after;
    }
    None
}

fn first_unset<'t>(texts: &'t [Name], scopes: &Scopes<'_>) -> Option<&'t str>
    ensures { option_copied result
        ≡ first_unset (in_scope scopes.now) (flat_map names_in texts.now) }
{
    for text in texts {
        if let Some(name) = first_unset_in(text.as_str(), scopes) {
            return Some(name);
        }
    }
    None
}

fn gather_name<'a>(
    lists: &mut Lists<'a>,
    name: &'a str,
    scopes: &Scopes<'a>,
) -> Result<(), NoMemory>
    ensures { OnOk result (seen_lists lists.new.entries
        ≡ gathered (in_scope scopes.now) (seen_lists lists.old.entries) (name.now ∷ [])) }
{
    if let Some(Variable::List(items)) = look_up(scopes, name) {
        let _same = lists.insert(list_key(scopes, name), items)?;
    }
    Ok(())
}

fn gather_text<'a>(
    lists: &mut Lists<'a>,
    text: &'a str,
    scopes: &Scopes<'a>,
) -> Result<(), NoMemory>
    ensures { OnOk result (seen_lists lists.new.entries
        ≡ gathered (in_scope scopes.now) (seen_lists lists.old.entries) (names_in text.now)) }
{
    let mut rest = text;
    while let Some(found) = first_reference(rest) {
        gather_name(lists, found.name, scopes)?;
        rest = found.after;
    }
    Ok(())
}

fn gather<'a>(alloc: Global, texts: &'a [Name], scopes: &Scopes<'a>) -> Result<Lists<'a>, NoMemory>
    ensures { IfOk result (λ lists. seen_lists lists.entries
        ≡ lists_among (in_scope scopes.now) (flat_map names_in texts.now)) }
{
    let mut lists = IndexMap::new(alloc);
    for text in texts {
        gather_text(&mut lists, text.as_str(), scopes)?;
    }
    Ok(lists)
}

fn count_of(lists: &Lists<'_>) -> usize
    ensures { result ≡ length (seen_lists lists.now.entries) }
{
    lists.len()
}

fn list_at<'a>(lists: &Lists<'a>, place: usize) -> (&'a str, &'a Names)
    requires { place < length (seen_lists lists.now.entries) }
    ensures { drop place (seen_lists lists.now.entries)
        ≡ (result.0.now, result.1.now) ∷ drop (place + 1) (seen_lists lists.now.entries) }
{
    let (key, items) = lists.get_index(place).unwrap();
    (*key, *items)
}

#[tactic(auto, unfolding(crate::specs::Choices::are_too_many))]
fn are_too_many(lists: &Lists<'_>) -> bool
    ensures { result ≡ are_too_many (seen_lists lists.now.entries) }
{
    let mut count = 1;
    for place in 0..count_of(lists) {
        let (_, items) = list_at(lists, place);
        let length = items.as_slice().len();
        if length > MOST_COMBINATIONS {
            return true;
        }
        count = (count * length).min(MOST_COMBINATIONS + 1);
    }
    count > MOST_COMBINATIONS
}

fn has_empty(lists: &Lists<'_>) -> bool
    ensures { result ≡ list_any (λ l. length l.1 == 0) (seen_lists lists.now.entries) }
{
    for place in 0..count_of(lists) {
        let (_, items) = list_at(lists, place);
        if items.as_slice().is_empty() {
            return true;
        }
    }
    false
}

// Adds a choice with each of some items to a list. The last of them takes the choice itself, so that a list of one item
// costs no copy.
fn extend_one(
    alloc: Global,
    done: &mut Vec<Choice>,
    choice: Choice,
    key: &str,
    items: &[Name],
) -> Result<(), NoMemory>
    ensures { OnOk result (done.new.items
        ≡ done.old.items ++ map (λ item. choice ++ (key.now, item) ∷ []) items.now) }
{
    if items.is_empty() {
        return Ok(());
    }
    let last = items.len() - 1;
    for item in &items[..last] {
        done.push(choice.copy(alloc)?.with(alloc, key, item)?)?;
    }
    done.push(choice.with(alloc, key, &items[last])?)?;
    Ok(())
}

fn extend(
    alloc: Global,
    choices: Vec<Choice>,
    key: &str,
    items: &[Name],
) -> Result<Vec<Choice>, NoMemory>
    ensures { IfOk result (λ done. done.items ≡ extended choices.items key.now items.now) }
{
    let mut done = Vec::new(alloc);
    for choice in choices {
        extend_one(alloc, &mut done, choice, key, items)?;
    }
    Ok(done)
}

fn choose(alloc: Global, lists: &Lists<'_>) -> Result<ChoiceList, NoMemory>
    ensures { IfOk result (λ c. c ≡ all_choices (seen_lists lists.now.entries)) }
{
    let mut choices = Vec::new(alloc);
    if has_empty(lists) {
        return Ok(ChoiceList { items: choices });
    }
    choices.push(Choice {
        items: Vec::new(alloc),
    })?;
    for place in 0..count_of(lists) {
        let (key, items) = list_at(lists, place);
        choices = extend(alloc, choices, key, items.as_slice())?;
    }
    Ok(ChoiceList { items: choices })
}

/// All combinations of the items of the list variables that some texts refer to. The lists are ordered by their first
/// reference, texts in the order given and each from left to right; each list variable counts once, under its key
/// (`list_key`), however it is referred to. The first list is outermost. Texts without a list have the one empty
/// combination, and texts with an empty list have none. `Unresolved` goes before `TooMany`. The time is linear in the
/// texts and in the combinations, besides a logarithm of the shared scopes for each qualified name.
#[tactic(auto, unfolding(crate::specs::Choices::choices_of))]
pub fn combinations(alloc: Global, texts: &[Name], scopes: &Scopes<'_>) -> Result<Choices, NoMemory>
    ensures { IfOk result (λ c. c ≡ choices_of (in_scope scopes.now) texts.now) }
{
    if let Some(name) = first_unset(texts, scopes) {
        return Ok(Choices::Unresolved(Name::from_text(alloc, name)?));
    }
    let lists = gather(alloc, texts, scopes)?;
    if are_too_many(&lists) {
        return Ok(Choices::TooMany);
    }
    Ok(Choices::Found(choose(alloc, &lists)?))
}
