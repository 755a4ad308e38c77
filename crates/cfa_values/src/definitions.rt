// What a policy defines.
ghost use Rattle.std.specs.Prelude.{◌≡◌, ◌++◌, [], ◌∷◌, OnOk, option_map, slice_get};
ghost use Rattle.cfa_values.specs.Definitions.{bundle_named, body_named, is_one_of, is_shared};
ghost use Rattle.cfa_values.specs.Kept.{seen_bundle, seen_body};

use cfa_base::{NameIndex, NoMemory, PairIndex, Place};
use cfa_kinds::BundleType;
use std::alloc::Global;
use std::marker::Model;

/// A bundle by its type, where that is one of the profile, its name with its place, and how many parameters it has.
#[derive(Clone, Copy, Debug)]
pub struct BundleEntry<'a> {
    pub bundle_type: Option<BundleType>,
    pub name: &'a str,
    pub params: usize,
    pub place: Place,
}

/// A body by the word of its type, its name, and how many parameters it has.
#[derive(Clone, Copy, Debug)]
pub struct BodyEntry<'a> {
    pub type_word: &'a str,
    pub name: &'a str,
    pub params: usize,
}

/// The bundles and bodies of a policy, and the sequence of bundles that are activated, with look-ups by name.
#[derive(Drop)]
pub struct Definitions<'a> {
    bundles: Vec<BundleEntry<'a>>,
    bundle_names: NameIndex<'a>,
    bodies: Vec<BodyEntry<'a>>,
    body_names: PairIndex<'a>,
    sequence: NameIndex<'a>,
}

impl<'a> Model for Definitions<'a> {
    ghost use Rattle.std.specs.Prelude.{◌≡◌, map};
    ghost use Rattle.cfa_values.specs.Definitions.{Definitions as DefinitionLists};
    ghost use Rattle.cfa_values.specs.Kept.{seen_bundle, seen_body, bundle_key, body_key};

    ghost Value = { DefinitionLists };

    ghost view = { λ d. record {
      bundles = map seen_bundle d.bundles.items;
      bodies = map seen_body d.bodies.items;
      sequence = d.sequence;
    } };

    ghost invariant = { λ d. (d.bundle_names ≡ map bundle_key (map seen_bundle d.bundles.items))
        × (d.body_names ≡ map body_key (map seen_body d.bodies.items)) };
}

fn bundle_at<'a>(bundles: &[BundleEntry<'a>], place: usize) -> Option<BundleEntry<'a>>
    ensures { result ≡ slice_get bundles.now place }
{
    bundles.get(place).copied()
}

fn body_at<'a>(bodies: &[BodyEntry<'a>], place: usize) -> Option<BodyEntry<'a>>
    ensures { result ≡ slice_get bodies.now place }
{
    bodies.get(place).copied()
}

impl<'a> Definitions<'a> {
    /// Nothing is defined, and this is the sequence.
    pub fn new(alloc: Global, sequence: NameIndex<'a>) -> Definitions<'a>
        ensures { result ≡ record { bundles = []; bodies = []; sequence = sequence.entry } }
    {
        Definitions {
            bundles: Vec::new(alloc),
            bundle_names: NameIndex::new(alloc),
            bodies: Vec::new(alloc),
            body_names: PairIndex::new(alloc),
            sequence,
        }
    }

    pub fn add_bundle(&mut self, entry: BundleEntry<'a>) -> Result<(), NoMemory>
        ensures { OnOk result (self.new
            ≡ record self.old { bundles = self.old.bundles ++ seen_bundle entry.entry ∷ [] }) }
    {
        self.bundles.reserve(1)?;
        self.bundle_names.add(entry.name)?;
        self.bundles.push(entry).unwrap();
        Ok(())
    }

    pub fn add_body(&mut self, entry: BodyEntry<'a>) -> Result<(), NoMemory>
        ensures { OnOk result (self.new
            ≡ record self.old { bodies = self.old.bodies ++ seen_body entry.entry ∷ [] }) }
    {
        self.bodies.reserve(1)?;
        self.body_names.add(entry.type_word, entry.name)?;
        self.bodies.push(entry).unwrap();
        Ok(())
    }

    /// The first bundle of a name.
    pub fn find_bundle(&self, name: &str) -> Option<BundleEntry<'a>>
        ensures { option_map seen_bundle result ≡ bundle_named self.now name.now }
    {
        match self.bundle_names.find(name) {
            Some(place) => bundle_at(&self.bundles, place),
            None => None,
        }
    }

    /// The first body of a type and name.
    pub fn find_body(&self, type_word: &str, name: &str) -> Option<BodyEntry<'a>>
        ensures { option_map seen_body result ≡ body_named self.now type_word.now name.now }
    {
        match self.body_names.find(type_word, name) {
            Some(place) => body_at(&self.bodies, place),
            None => None,
        }
    }

    fn is_in_sequence(&self, name: &str) -> bool
        ensures { result ≡ is_one_of name.now self.now.sequence }
    {
        self.sequence.find(name).is_some()
    }

    /// Whether every text may refer to the variables of the bundle of a name.
    pub fn is_shared(&self, name: &str) -> bool
        ensures { result ≡ is_shared self.now name.now }
    {
        match self.find_bundle(name) {
            Some(entry) => match entry.bundle_type {
                Some(BundleType::Common) => true,
                Some(BundleType::Agent) => self.is_in_sequence(name),
                Some(BundleType::EditLine) => false,
                None => false,
            },
            None => false,
        }
    }
}
