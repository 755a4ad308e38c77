// The deck: two stacks of lines, those before the place and those from it on.
ghost use Rattle.std.specs.Prelude.{◌≡◌, ℕ, List, [], ◌∷◌, ◌++◌, ◌+◌, ◌-◌, ◌<◌, ◌≤◌, ◌^◌, length, map, IfOk, OnOk, OnErr, option_copied, slice_get, slice_set, remove, insert, string_bytes, vec_len, vec_capacity};
ghost use Rattle.cfa_lines.specs.Decks.{lines_of, parts_of, lines_of_parts, text_of, ended, lines_at};

use cfa_base::{Name, Names, NoMemory};
use std::alloc::Global;
use std::marker::Model;

/// The lines of a text and a place among them, from 0, at most one past the last. Each of the two stacks keeps room for
/// every line, so moving the place takes no memory.
#[derive(Debug, Drop)]
pub struct Deck {
    before: Vec<Name>,
    after: Vec<Name>,
}

impl Model for Deck {
    ghost use Rattle.std.specs.Prelude.{reverse, ◌++◌, ◌+◌, ◌≤◌, vec_len, vec_capacity};
    ghost use Rattle.cfa_lines.specs.Decks.{PlacedLines};

    ghost Value = { PlacedLines };

    ghost view = { λ d. record {
      lines = d.before.items ++ reverse d.after.items;
      place = vec_len d.before;
    } };

    ghost invariant = { λ d.
        (vec_len d.before + vec_len d.after ≤ vec_capacity d.before)
        × (vec_len d.before + vec_len d.after ≤ vec_capacity d.after) };
}

impl Deck {
    /// The lines of a text, at the first.
    pub fn from_text(alloc: Global, text: &str) -> Result<Deck, NoMemory>
        ensures { IfOk result (λ deck. deck ≡ lines_at (lines_of text.now) 0) }
    {
        let mut after = lines(alloc, text)?;
        after.reverse();
        let before = Vec::with_capacity(alloc, after.len())?;
        Ok(Deck { before, after })
    }

    /// The lines of a list, at the first. Their bytes aren't copied.
    pub fn from_names(alloc: Global, names: &Names) -> Result<Deck, NoMemory>
        ensures { IfOk result (λ deck. deck ≡ lines_at names.now 0) }
    {
        let mut after = shared(alloc, names.as_slice())?;
        after.reverse();
        let before = Vec::with_capacity(alloc, after.len())?;
        Ok(Deck { before, after })
    }

    /// The lines, without taking memory.
    pub fn into_names(self) -> Names
        ensures { result ≡ self.lines }
    {
        let Deck {
            mut before,
            mut after,
        } = self;
        while let Some(line) = after.pop() {
            before.push(line).unwrap();
        }
        Names::from_vec(before)
    }

    /// How many lines there are, without taking memory.
    pub fn count(&self) -> usize
        ensures { result ≡ length self.now.lines }
    {
        self.before.len() + self.after.len()
    }

    /// The text of the lines.
    pub fn to_text(&self, alloc: Global) -> Result<Name, NoMemory>
        ensures { IfOk result (λ text. text ≡ text_of self.now.lines) }
    {
        let mut text = String::new(alloc);
        self.write_to(&mut text)?;
        Ok(Name::from_string(text)?)
    }

    // Writes the lines at the end of a text.
    fn write_to(&self, text: &mut String) -> Result<(), NoMemory>
        ensures { OnOk result
            (string_bytes text.new ≡ string_bytes text.old ++ text_of self.now.lines) }
    {
        push_lines(text, &self.before)?;
        for line in self.after.iter().rev() {
            push_line(text, line)?;
        }
        Ok(())
    }

    /// The line at the place, without taking memory. `None` at the end.
    pub fn at(&self) -> Option<&str>
        ensures line { option_copied result ≡ slice_get self.now.lines self.now.place }
        ensures within { self.now.place ≤ length self.now.lines }
        ensures small { length self.now.lines < 2 ^ 64 }
    {
        match self.after.last() {
            Some(line) => Some(line.as_str()),
            None => None,
        }
    }

    /// Goes one line on, without taking memory.
    pub fn step(&mut self)
        requires { self.old.place < length self.old.lines }
        ensures { self.new ≡ lines_at self.old.lines (self.old.place + 1) }
    {
        let line = self.after.pop().unwrap();
        self.before.push(line).unwrap();
    }

    // Goes one line back.
    fn step_back(&mut self)
        requires { 0 < self.old.place }
        ensures { self.new ≡ lines_at self.old.lines (self.old.place - 1) }
    {
        let line = self.before.pop().unwrap();
        self.after.push(line).unwrap();
    }

    /// Goes to a place over the lines between, without taking memory.
    pub fn go_to(&mut self, place: usize)
        requires { place ≤ length self.old.lines }
        ensures { self.new ≡ lines_at self.old.lines place }
    {
        let here = self.before.len();
        if place < here {
            self.go_back(here - place);
        } else {
            self.go_on(place - here);
        }
    }

    // Goes so many lines back.
    fn go_back(&mut self, count: usize)
        requires { count ≤ self.old.place }
        ensures { self.new ≡ lines_at self.old.lines (self.old.place - count) }
    {
        for _passed in 0..count {
            self.step_back();
        }
    }

    // Goes so many lines on.
    fn go_on(&mut self, count: usize)
        requires { self.old.place + count ≤ length self.old.lines }
        ensures { self.new ≡ lines_at self.old.lines (self.old.place + count) }
    {
        for _passed in 0..count {
            self.step();
        }
    }

    /// Goes back to the first line, without taking memory.
    pub fn rewind(&mut self)
        ensures { self.new ≡ lines_at self.old.lines 0 }
    {
        while let Some(line) = self.before.pop() {
            self.after.push(line).unwrap();
        }
    }

    /// Takes the line at the place out, without taking memory. The place is then that of the next line.
    pub fn remove(&mut self)
        requires { self.old.place < length self.old.lines }
        ensures { self.new ≡ lines_at (remove self.old.lines self.old.place) self.old.place }
    {
        let _line = self.after.pop().unwrap();
    }

    /// Puts a line in the place of the one at the place, which goes one further, without taking memory.
    pub fn put(&mut self, line: Name)
        requires { self.old.place < length self.old.lines }
        ensures { self.new
            ≡ lines_at (slice_set self.old.lines self.old.place line) (self.old.place + 1) }
    {
        let _replaced = self.after.pop().unwrap();
        self.before.push(line).unwrap();
    }

    /// Puts a line in before the place, which goes one further. After want of memory the deck is as it was.
    pub fn insert(&mut self, line: &str) -> Result<(), NoMemory>
        ensures ok { OnOk result (self.new
            ≡ lines_at (insert self.old.lines self.old.place line.now) (self.old.place + 1)) }
        ensures err { OnErr result (self.new ≡ self.old) }
    {
        self.before.reserve(self.after.len() + 1)?;
        self.after.reserve(self.before.len() + 1)?;
        let added = Name::from_text(*self.before.allocator(), line)?;
        self.before.push(added).unwrap();
        Ok(())
    }
}

/// The lines of a text, in order.
pub fn split_lines(alloc: Global, text: &str) -> Result<Names, NoMemory>
    ensures { IfOk result (λ names. names ≡ lines_of text.now) }
{
    Ok(Names::from_vec(lines(alloc, text)?))
}

// Writes lines at the end of a text.
fn push_lines(text: &mut String, lines: &[Name]) -> Result<(), NoMemory>
    ensures { OnOk result (string_bytes text.new ≡ string_bytes text.old ++ text_of lines.now) }
{
    for line in lines {
        push_line(text, line)?;
    }
    Ok(())
}

// Writes a line and its newline at the end of a text.
fn push_line(text: &mut String, line: &Name) -> Result<(), NoMemory>
    ensures { OnOk result (string_bytes text.new ≡ string_bytes text.old ++ ended line.now) }
{
    text.push_str(line.as_str())?;
    Ok(text.push_str("\n")?)
}

// The lines of a text, in order.
fn lines(alloc: Global, text: &str) -> Result<Vec<Name>, NoMemory>
    ensures { IfOk result (λ lines. lines.items ≡ lines_of text.now) }
{
    let parts = parts(alloc, text)?;
    copies(alloc, without_empty_last(&parts))
}

// The parts of a text between newlines.
fn parts(alloc: Global, text: &str) -> Result<Vec<&str>, NoMemory>
    ensures { IfOk result (λ parts. map (λ part. part.now) parts.items ≡ parts_of text.now) }
{
    Ok(text.split('\n').collect(alloc)?)
}

// The parts without the last where it is empty.
fn without_empty_last<'p, 't>(parts: &'p [&'t str]) -> &'p [&'t str]
    ensures { map (λ part. part.now) result.now
        ≡ lines_of_parts (map (λ part. part.now) parts.now) }
{
    if let Some((last, rest)) = parts.split_last() {
        if last.is_empty() {
            return rest;
        }
    }
    parts
}

// The same texts, without a copy of their bytes.
fn shared(alloc: Global, names: &[Name]) -> Result<Vec<Name>, NoMemory>
    ensures { IfOk result (λ shared. shared.items ≡ names.now) }
{
    let mut shared = Vec::with_capacity(alloc, names.len())?;
    for name in names {
        shared.push(name.copy(alloc)?)?;
    }
    Ok(shared)
}

// A copy of each part.
fn copies(alloc: Global, parts: &[&str]) -> Result<Vec<Name>, NoMemory>
    ensures { IfOk result (λ copies. copies.items ≡ map (λ part. part.now) parts.now) }
{
    let mut copies = Vec::with_capacity(alloc, parts.len())?;
    for part in parts {
        copies.push(Name::from_text(alloc, part)?)?;
    }
    Ok(copies)
}
