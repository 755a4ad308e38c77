// What keeps a combination from being made.
ghost use Rattle.std.specs.Prelude.{◌≡◌, IfOk, map, option_copied};
ghost use Rattle.std.specs.List.{list_any};
ghost use Rattle.cfa_vars.specs.Named.{thing_at};
ghost use Rattle.cfa_bodies.specs.Bodies.{said_in, all_said, is_many, is_over, first_unresolved, heard};

use crate::sayings::{Said, Sayings, thing_at};
use cfa_base::{MOST_COMBINATIONS, Name, NoMemory, copy_name};
use std::alloc::Global;
use std::marker::Model;

/// The bodies of a promise in text order, under the names of its attributes.
#[derive(Drop)]
pub struct Bodies {
    items: Vec<(Name, Sayings)>,
}

impl Model for Bodies {
    ghost use Rattle.std.specs.Prelude.{List, ℕ};
    ghost use Rattle.cfa_bodies.specs.declared.sayings.Said.{Said};

    ghost Value = { List (List ℕ × List (List ℕ × Said)) };

    ghost view = { λ b. b.items.items };
}

/// What is heard in the bodies of a promise.
#[derive(Drop)]
pub enum Heard {
    /// Something is unresolved: this name, if it can be told.
    Lacks(Option<Name>),
    TooMany,
    TooLong,
    All,
}

impl Bodies {
    /// The bodies of a `Vec`, without taking memory.
    pub fn from_vec(items: Vec<(Name, Sayings)>) -> Bodies
        ensures { result ≡ items.items }
    {
        Bodies { items }
    }

    /// What the body of an attribute says, without taking memory.
    pub fn get(&self, name: &str) -> Option<&Sayings>
        ensures { option_copied result ≡ thing_at self.now name.now }
    {
        thing_at(self.items.as_slice(), name)
    }

    /// What the body of an attribute says under a name, without taking memory.
    pub fn said(&self, body_name: &str, name: &str) -> Option<&Said>
        ensures { option_copied result ≡ said_in self.now body_name.now name.now }
    {
        self.get(body_name)?.get(name)
    }
}

fn is_many(said: &Said) -> bool
    ensures { result ≡ is_many said.now }
{
    match said {
        Said::Text(_) => false,
        Said::Items(items) => items.as_slice().len() > MOST_COMBINATIONS,
        Said::Unresolved(_) => false,
        Said::Over(has_many) => *has_many,
    }
}

fn is_over(said: &Said) -> bool
    ensures { result ≡ is_over said.now }
{
    matches!(said, Said::Over(_))
}

fn says_many(sayings: &[(Name, Said)]) -> bool
    ensures { result ≡ list_any is_many (map (λ s. s.1) sayings.now) }
{
    for saying in sayings {
        if is_many(&saying.1) {
            return true;
        }
    }
    false
}

fn says_over(sayings: &[(Name, Said)]) -> bool
    ensures { result ≡ list_any is_over (map (λ s. s.1) sayings.now) }
{
    for saying in sayings {
        if is_over(&saying.1) {
            return true;
        }
    }
    false
}

fn unresolved_among(sayings: &[(Name, Said)]) -> Option<&Option<Name>>
    ensures { option_copied result ≡ first_unresolved (map (λ s. s.1) sayings.now) }
{
    for saying in sayings {
        if let Said::Unresolved(name) = &saying.1 {
            return Some(name);
        }
    }
    None
}

fn is_any_many(bodies: &[(Name, Sayings)]) -> bool
    ensures { result ≡ list_any is_many (all_said bodies.now) }
{
    for body in bodies {
        if says_many(body.1.as_slice()) {
            return true;
        }
    }
    false
}

fn is_any_over(bodies: &[(Name, Sayings)]) -> bool
    ensures { result ≡ list_any is_over (all_said bodies.now) }
{
    for body in bodies {
        if says_over(body.1.as_slice()) {
            return true;
        }
    }
    false
}

fn first_unresolved(bodies: &[(Name, Sayings)]) -> Option<&Option<Name>>
    ensures { option_copied result ≡ first_unresolved (all_said bodies.now) }
{
    for body in bodies {
        if let Some(name) = unresolved_among(body.1.as_slice()) {
            return Some(name);
        }
    }
    None
}

/// What is heard: something unresolved before a list that is too long, and that before a text that is.
#[tactic(auto, unfolding(crate::specs::Bodies::heard))]
pub fn hear(alloc: Global, bodies: &Bodies) -> Result<Heard, NoMemory>
    ensures { IfOk result (λ h. h ≡ heard bodies.now) }
{
    let items = bodies.items.as_slice();
    if let Some(name) = first_unresolved(items) {
        return Ok(Heard::Lacks(copy_name(alloc, name.as_ref())?));
    }
    if is_any_many(items) {
        return Ok(Heard::TooMany);
    }
    if is_any_over(items) {
        Ok(Heard::TooLong)
    } else {
        Ok(Heard::All)
    }
}
