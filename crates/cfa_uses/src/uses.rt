// What a policy defines, sets, raises, calls and asks for.
ghost use Rattle.std.specs.Prelude.{◌≡◌};
ghost use Rattle.std.specs.List.{list_any};
ghost use Rattle.cfa_uses.specs.Found.{IsUnused};
ghost use Rattle.cfa_uses.specs.Naming.{is_pair_listed, fits, may_be_made};

use crate::sets::{NameSet, PairSet};
use cfa_base::NoMemory;
use std::alloc::Global;

// The most texts with references that may be names of classes or bundles. With more nothing is told of these.
const MOST_FRAMES: usize = 100;

/// A name in a source, and where it stands.
#[derive(Clone, Copy)]
pub struct Mention<'a> {
    pub source: &'a str,
    pub line: u32,
    pub col: u32,
    /// The bundle of a variable; the type of a bundle; empty for a class.
    pub of: &'a str,
    pub name: &'a str,
}

/// A promise that restarts a service.
#[derive(Clone, Copy)]
pub struct Restart<'a> {
    pub bundle: &'a str,
    /// Its number in the bundle, and its line, each from 1.
    pub number: u32,
    pub line: u32,
    pub service: &'a str,
}

/// What a text with references begins and ends with.
#[derive(Clone, Copy)]
pub struct Frame<'a> {
    pub front: &'a str,
    pub back: &'a str,
}

/// All of it.
#[derive(Drop)]
pub struct Uses<'a> {
    pub bundles: Vec<Mention<'a>>,
    /// The names of bundles and bodies.
    pub blocks: NameSet<'a>,
    pub restarts: Vec<Restart<'a>>,
    /// References to variables, and the classes that guards and class texts ask for.
    pub references: Vec<Mention<'a>>,
    pub classes: Vec<Mention<'a>>,
    /// Bundles and their variables.
    pub variables: PairSet<'a>,
    /// Texts and words of attributes; of these the classes that are raised; and the classes that are asked for.
    pub values: NameSet<'a>,
    pub raised: NameSet<'a>,
    pub asked: NameSet<'a>,
    /// Texts with references that may be names of classes or bundles.
    pub frames: Vec<Frame<'a>>,
    /// A name of a class or a bundle may be made by a function.
    pub makes_names: bool,
    /// A class text has references.
    pub asks_freely: bool,
    pub has_sequence: bool,
}

impl<'a> Uses<'a> {
    pub fn new(alloc: Global) -> Uses<'a>
        ensures { IsUnused result }
    {
        Uses {
            bundles: Vec::new(alloc),
            blocks: NameSet::new(alloc),
            restarts: Vec::new(alloc),
            references: Vec::new(alloc),
            classes: Vec::new(alloc),
            variables: PairSet::new(alloc),
            values: NameSet::new(alloc),
            raised: NameSet::new(alloc),
            asked: NameSet::new(alloc),
            frames: Vec::new(alloc),
            makes_names: false,
            asks_freely: false,
            has_sequence: false,
        }
    }

    /// The names of bundles and bodies.
    pub fn into_blocks(self) -> NameSet<'a>
        ensures { result ≡ self.entry.blocks }
    {
        let Uses { blocks, .. } = self;
        blocks
    }

    pub fn is_set(&self, bundle: &str, name: &str) -> bool
        ensures { result ≡ is_pair_listed self.now.variables (bundle.now, name.now) }
    {
        self.variables.has(bundle, name)
    }

    pub fn add_frame(&mut self, frame: Frame<'a>) -> Result<(), NoMemory> {
        if self.frames.len() < MOST_FRAMES {
            self.frames.push(frame)?;
        } else {
            self.makes_names = true;
        }
        Ok(())
    }

    /// Whether a name may come from a value: as one, or from a text with references.
    pub fn may_be_made(&self, name: &str) -> bool
        ensures { let uses = self.now in
            result ≡ may_be_made uses.makes_names uses.values uses.frames.items name.now }
    {
        self.makes_names || self.values.has(name) || has_fit(self.frames.as_slice(), name)
    }
}

fn has_fit(frames: &[Frame<'_>], name: &str) -> bool
    ensures { result ≡ list_any (fits name.now) frames.now }
{
    frames.iter().any(|frame| is_fit(*frame, name))
}

fn is_fit(frame: Frame<'_>, name: &str) -> bool
    ensures { result ≡ fits name.now frame.entry }
{
    name.as_bytes().starts_with(frame.front.as_bytes())
        && name.as_bytes().ends_with(frame.back.as_bytes())
}
