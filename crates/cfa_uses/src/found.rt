// Where a walk stands in the files of a policy, and what it has found there.
ghost use Rattle.cfa_uses.specs.Found.{IsUnused};

use crate::places::{behind, further};
use crate::references::{frame_of, list_of, reference_of};
use crate::uses::{Mention, Restart, Uses};
use cfa_base::{NoMemory, Place};
use std::alloc::Global;

// Where the walk stands in a file.
#[derive(Clone, Copy, PartialEq, Eq)]
pub enum Part {
    Between,
    Heading,
    // Where a section, a guard or a promise begins.
    Statement,
    // In the attributes of a promise or a body.
    Attributes,
}

#[derive(Drop)]
pub struct Walk<'a> {
    pub uses: Uses<'a>,
    pub source: &'a str,
    pub part: Part,
    pub is_bundle: bool,
    // How many words of the heading were read.
    pub words: usize,
    pub kind: &'a str,
    pub block: &'a str,
    pub section: &'a str,
    // The promiser, the number of its promise in the bundle, and its line.
    pub promiser: &'a str,
    pub number: u32,
    pub line: u32,
    // Empty before the first attribute of a promise.
    pub attribute: &'a str,
    // How many braces and brackets are open in an attribute.
    pub braces: usize,
    pub brackets: usize,
}

// Promisees, and attributes that are never read.
pub fn is_read(attribute: &str) -> bool {
    !matches!(attribute, "" | "comment" | "handle" | "meta" | "version")
}

pub fn raises(attribute: &str) -> bool {
    attribute == "classes" || attribute.starts_with("promise_") || attribute == "repair_failed"
}

pub fn makes_names(function: &str) -> bool {
    matches!(function, "canonify" | "concat" | "join")
}

impl<'a> Walk<'a> {
    pub fn new(alloc: Global) -> Walk<'a>
        ensures { IsUnused result.uses }
    {
        Walk {
            uses: Uses::new(alloc),
            source: "",
            part: Part::Between,
            is_bundle: false,
            words: 0,
            kind: "",
            block: "",
            section: "",
            promiser: "",
            number: 0,
            line: 0,
            attribute: "",
            braces: 0,
            brackets: 0,
        }
    }

    pub fn mention(&self, at: Place, of: &'a str, name: &'a str) -> Mention<'a> {
        Mention {
            source: self.source,
            line: at.line,
            col: at.col,
            of,
            name,
        }
    }

    // A qualified name has its bundle; the others are of this bundle, and in a body they are its parameters.
    pub fn add_reference(&mut self, at: Place, name: &'a str) -> Result<(), NoMemory> {
        let (bundle, variable) = match name.split_once('.') {
            Some(pair) => pair,
            None if self.is_bundle => (self.block, name),
            None => return Ok(()),
        };
        if bundle != "const" {
            let reference = self.mention(at, bundle, variable);
            self.uses.references.push(reference)?;
        }
        Ok(())
    }

    pub fn add_references(&mut self, at: Place, content: &'a str) -> Result<(), NoMemory> {
        if let Some(name) = list_of(content) {
            self.add_reference(at, name)?;
        }
        let Some((front, rest)) = content.split_once('$') else {
            return Ok(());
        };
        let mut at = behind(at, front);
        for piece in rest.split('$') {
            if let Some(name) = reference_of(piece) {
                self.add_reference(at, name)?;
            }
            at = behind(further(at, 1), piece);
        }
        Ok(())
    }

    // A class that may be raised.
    pub fn raise(&mut self, content: &'a str) -> Result<(), NoMemory> {
        if let Some(frame) = frame_of(content) {
            self.uses.add_frame(frame)?;
        }
        if !content.contains('$') {
            self.uses.raised.add(content)?;
        }
        Ok(())
    }

    // A class that a guard or a class text asks for.
    pub fn ask_class(&mut self, at: Place, class: &'a str) -> Result<(), NoMemory> {
        let mention = self.mention(at, "", class);
        self.uses.classes.push(mention)?;
        self.uses.asked.add(class)?;
        Ok(())
    }

    // The classes of a class text. Those of one with references are known in a run alone.
    pub fn ask(&mut self, at: Place, content: &'a str) -> Result<(), NoMemory> {
        if content.contains('$') || content.contains('@') {
            self.uses.asks_freely = true;
            return Ok(());
        }
        let mut at = at;
        for word in content.split(|letter: char| !letter.is_ascii_alphanumeric() && letter != '_') {
            if !word.is_empty() {
                self.ask_class(at, word)?;
            }
            at = further(behind(at, word), 1);
        }
        Ok(())
    }

    // What a promise of a class asks for, outside of calls.
    pub fn is_class_text(&self) -> bool {
        self.is_bundle && self.section == "classes" && self.brackets == 0 && is_read(self.attribute)
    }

    pub fn note_value(&mut self, content: &'a str) -> Result<(), NoMemory> {
        if !content.contains('$') {
            self.uses.values.add(content)?;
        } else if self.attribute != "content" {
            if let Some(frame) = frame_of(content) {
                self.uses.add_frame(frame)?;
            }
        }
        Ok(())
    }

    pub fn note_restart(&mut self) -> Result<(), NoMemory> {
        self.uses.restarts.push(Restart {
            bundle: self.block,
            number: self.number,
            line: self.line,
            service: self.promiser,
        })?;
        Ok(())
    }
}
