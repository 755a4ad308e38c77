// The sources of a call, read again, and where their lines stand.
ghost use Rattle.std.specs.Prelude.{◌≡◌, ℕ, List, [], Contains, IfSome};
ghost use Rattle.cfa_advice.specs.Sources.{AreNamed};

use cfa_base::{Bytes, Name};
use cfa_outside::Inputs;
use std::alloc::Global;
use std::marker::Model;

/// The sources that a call read, by their names. Contracts see the list of the names with the texts.
#[derive(Drop)]
pub struct Sources {
    texts: Vec<(Name, Bytes)>,
}

impl Model for Sources {
    ghost use Rattle.std.specs.Prelude.{List, ℕ};

    ghost Value = { List (List ℕ × List ℕ) };

    ghost view = { λ s. s.texts.items };
}

// The most bytes that are read again: those of a journal.
const MOST_BYTES: u32 = 16_777_216;

// What can't be read again is left out.
fn read_one<I: Inputs>(alloc: Global, name: &Name, inputs: &mut I) -> Option<(Name, Bytes)>
    ensures { IfSome result (λ text. text.0 ≡ name.now) }
{
    let Ok(bytes) = inputs.read(alloc, name, MOST_BYTES) else {
        return None;
    };
    let Ok(name) = name.copy(alloc) else {
        return None;
    };
    Some((name, bytes))
}

// Adds the source of a name. One that can't be read, and one for which there is no memory, is left out.
fn read_to<I: Inputs>(alloc: Global, name: &Name, inputs: &mut I, texts: &mut Vec<(Name, Bytes)>)
    ensures { (names : List (List ℕ)) → Contains names name.now →
        AreNamed names texts.old.items → AreNamed names texts.new.items }
{
    if let Some(text) = read_one(alloc, name, inputs) {
        let _ = texts.push(text);
    }
}

impl Sources {
    /// No sources.
    pub fn none(alloc: Global) -> Sources
        ensures { result ≡ [] }
    {
        Sources {
            texts: Vec::new(alloc),
        }
    }

    /// The sources of these names that can be read.
    pub fn read<I: Inputs>(alloc: Global, names: &[Name], inputs: &mut I) -> Sources
        ensures { AreNamed names.now result }
    {
        let mut texts = Vec::new(alloc);
        for name in names {
            read_to(alloc, name, inputs, &mut texts);
        }
        Sources { texts }
    }

    /// The sources, with their names.
    pub fn texts(&self) -> &[(Name, Bytes)]
        ensures { result.now ≡ self.now }
    {
        self.texts.as_slice()
    }

    /// The source of a name.
    pub fn named(&self, name: &str) -> Option<&[u8]>
        ensures { IfSome result (λ text. Contains self.now (name.now, text.now)) }
    {
        for text in &self.texts {
            if text.0.as_str() == name {
                return Some(text.1.as_slice());
            }
        }
        None
    }

    /// The source in which a bundle is defined, and its name.
    pub fn with_bundle(&self, bundle: &str) -> Option<(&str, &[u8])>
        ensures { IfSome result (λ text. Contains self.now (text.0.now, text.1.now)) }
    {
        for text in &self.texts {
            if has_bundle(text.1.as_slice(), bundle) {
                return Some((text.0.as_str(), text.1.as_slice()));
            }
        }
        None
    }
}

fn is_gap(byte: u8) -> bool {
    byte.is_ascii_whitespace() || matches!(byte, b'(' | b'{' | b'}' | b';')
}

// Whether the words `bundle`, a type and this name stand one after another.
fn has_bundle(source: &[u8], bundle: &str) -> bool {
    let mut before: [&[u8]; 2] = [b"", b""];
    for word in source.split(|byte| is_gap(*byte)) {
        if word.is_empty() {
            continue;
        }
        if word == bundle.as_bytes() && before[0] == b"bundle".as_slice() {
            return true;
        }
        before = [before[1], word];
    }
    false
}
