// Texts, and lists of texts.
ghost use Rattle.std.specs.Rc.{rc_str_bytes};
ghost use Rattle.std.specs.Prelude.{◌≡◌, ◌↔◌, IsTrue, List, ℕ, [], ◌∷◌, ◌++◌, IfOk, OnOk, OnErr, map, option_copied, slice_get};
ghost use Rattle.std.specs.Cmp.Lexicographic.{pointwise};
ghost use Rattle.std.specs.Str.{bytes_eq};
ghost use Rattle.std.specs.String.{string_bytes};

use crate::NoMemory;
use std::alloc::Global;
use std::marker::Model;
use std::rc::RcStr;

/// A text in UTF-8, which its copies have in common. Contracts see the list of its bytes.
#[derive(Debug, Drop)]
pub struct Name {
    text: RcStr,
}

impl Model for Name {
    ghost use Rattle.std.specs.Prelude.{List, ℕ};
    ghost use Rattle.std.specs.Rc.{rc_str_bytes};

    ghost Value = { List ℕ };

    ghost view = { λ n. rc_str_bytes n.text };
}

impl Name {
    /// The text of a `String`. What room it has left over is given back.
    pub fn from_string(text: String) -> Result<Name, NoMemory>
        ensures { IfOk result (λ n. n ≡ string_bytes text) }
    {
        let mut text = text;
        text.shrink_to_fit();
        let text = RcStr::from_string(text)?;
        Ok(Name { text })
    }

    /// A text with these bytes.
    pub fn from_text(alloc: Global, text: &str) -> Result<Name, NoMemory>
        ensures { IfOk result (λ n. n ≡ text.now) }
    {
        let text = RcStr::from_str(alloc, text)?;
        Ok(Name { text })
    }

    /// The text, without taking memory.
    pub fn as_str(&self) -> &str
        ensures { result.now ≡ self.now }
    {
        self.text.as_str()
    }

    /// The text as a key of a map, without taking memory.
    pub fn as_key(&self) -> &RcStr
        ensures { rc_str_bytes result.now ≡ self.now }
    {
        &self.text
    }

    /// The same without the `Name`.
    pub fn into_key(self) -> RcStr
        ensures { rc_str_bytes result ≡ self }
    {
        self.text
    }

    /// The same text, without a copy of its bytes. The parameter is that of all copies.
    pub fn copy(&self, _alloc: Global) -> Result<Name, NoMemory>
        ensures { IfOk result (λ n. n ≡ self.now) }
    {
        let text = self.text.clone()?;
        Ok(Name { text })
    }
}

/// Whether the names have equal texts.
pub fn is_same_name(name: &Name, other: &Name) -> bool
    ensures { result ≡ bytes_eq name.now other.now }
{
    name.as_str() == other.as_str()
}

/// The same text, where there is one.
pub fn copy_name(alloc: Global, name: Option<&Name>) -> Result<Option<Name>, NoMemory>
    ensures { IfOk result (λ n. n ≡ option_copied name.entry) }
{
    match name {
        Some(name) => Ok(Some(name.copy(alloc)?)),
        None => Ok(None),
    }
}

/// A list of texts, in order.
#[derive(Debug, Drop)]
pub struct Names {
    items: Vec<Name>,
}

impl Model for Names {
    ghost Value = { List (List ℕ) };

    ghost view = { λ n. n.items.items };
}

impl Names {
    /// The empty list, without taking memory.
    pub fn new(alloc: Global) -> Names
        ensures { result ≡ [] }
    {
        Names {
            items: Vec::new(alloc),
        }
    }

    /// The texts of a `Vec`, without taking memory.
    pub fn from_vec(items: Vec<Name>) -> Names
        ensures { result ≡ items.items }
    {
        Names { items }
    }

    /// The list of copies of these texts.
    pub fn from_texts(alloc: Global, texts: &[&str]) -> Result<Names, NoMemory>
        ensures { IfOk result (λ names. names ≡ map (λ text. text.now) texts.now) }
    {
        let mut names = Names::new(alloc);
        for text in texts {
            names.push(Name::from_text(alloc, text)?)?;
        }
        Ok(names)
    }

    /// The texts, without taking memory.
    pub fn as_slice(&self) -> &[Name]
        ensures { result.now ≡ self.now }
    {
        self.items.as_slice()
    }

    /// The text at a place from 0, without taking memory. `None` past the end.
    pub fn get(&self, place: usize) -> Option<&Name>
        ensures { option_copied result ≡ slice_get self.now place }
    {
        self.items.get(place)
    }

    /// Adds a text at the end. After want of memory the list is as it was.
    pub fn push(&mut self, name: Name) -> Result<(), NoMemory>
        ensures ok { OnOk result (self.new ≡ self.old ++ name ∷ []) }
        ensures err { OnErr result (self.new ≡ self.old) }
    {
        self.items.push(name)?;
        Ok(())
    }

    /// An equal list of its own.
    pub fn copy(&self, alloc: Global) -> Result<Names, NoMemory>
        ensures { IfOk result (λ n. n ≡ self.now) }
    {
        let mut items = Vec::new(alloc);
        for name in &self.items {
            items.push(name.copy(alloc)?)?;
        }
        Ok(Names { items })
    }

    /// Whether the other list has equal texts.
    pub fn equals(&self, other: &Names) -> bool
        ensures { IsTrue result ↔ (self.now ≡ other.now) }
    {
        are_same_names(self.as_slice(), other.as_slice())
    }
}

/// Whether the lists have equal texts.
pub fn are_same_names(names: &[Name], others: &[Name]) -> bool
    ensures { result ≡ pointwise bytes_eq names.now others.now }
{
    if names.len() != others.len() {
        return false;
    }
    for (i, name) in names.iter().enumerate() {
        if !is_same_name(name, &others[i]) {
            return false;
        }
    }
    true
}
