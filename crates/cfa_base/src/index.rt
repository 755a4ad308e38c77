// Indexes of names, and of pairs of names.
ghost use Rattle.std.specs.Prelude.{◌≡◌, ℕ, List, [], ◌∷◌, ◌++◌, IfOk, OnOk, OnErr, is_none, length};
ghost use Rattle.cfa_base.specs.Index.{place_of, pair_place_of};
ghost use Rattle.cfa_base.specs.IndexTables.{noted, NotesName, pair_of, pair_noted, NotesPair};

use crate::NoMemory;
use std::alloc::Global;
use std::collections::HashMap;
use std::marker::Model;

/// A list of names, with the first place of each. Contracts see the list.
#[derive(Drop)]
pub struct NameIndex<'a> {
    names: Vec<&'a str>,
    places: HashMap<&'a str, usize>,
}

impl<'a> Model for NameIndex<'a> {
    ghost use Rattle.std.specs.Prelude.{List, ℕ};
    ghost use Rattle.cfa_base.specs.IndexTables.{Answers, texts_of};

    ghost Value = { List (List ℕ) };

    ghost view = { λ index. texts_of index.names.items };

    ghost invariant = { λ index. Answers index.names.items index.places };
}

impl<'a> NameIndex<'a> {
    /// No names, without taking memory.
    pub fn new(alloc: Global) -> NameIndex<'a>
        ensures { result ≡ [] }
    {
        NameIndex {
            names: Vec::new(alloc),
            places: HashMap::new(alloc),
        }
    }

    /// Adds a name at the end. The answer is whether it is new. After want of memory the list is as it was.
    pub fn add(&mut self, name: &'a str) -> Result<bool, NoMemory>
        ensures ok { OnOk result (self.new ≡ self.old ++ name.now ∷ []) }
        ensures answer { IfOk result (λ is_new. is_new ≡ is_none (place_of self.old name.now)) }
        ensures err { OnErr result (self.new ≡ self.old) }
    {
        self.names.reserve(1)?;
        let is_new = note_if_new(&mut self.places, name, self.names.len())?;
        self.names.push(name).unwrap();
        Ok(is_new)
    }

    /// How many names the list has, each as often as it was added.
    pub fn len(&self) -> usize
        ensures { result ≡ length self.now }
    {
        self.names.len()
    }

    /// The first place of a name, without taking memory.
    pub fn find(&self, name: &str) -> Option<usize>
        ensures { result ≡ place_of self.now name.now }
    {
        self.places.get(name).copied()
    }
}

// Notes the place of a name that has none. The answer is whether it had none.
fn note_if_new<'a>(
    places: &mut HashMap<&'a str, usize>,
    name: &'a str,
    place: usize,
) -> Result<bool, NoMemory>
    ensures ok { OnOk result (NotesName places.old places.new name.now place) }
    ensures answer { IfOk result (λ is_new. is_new ≡ is_none (noted places.old name.now)) }
    ensures err { OnErr result
        ((other : List ℕ) → noted places.new other ≡ noted places.old other) }
{
    if places.contains_key(name) {
        return Ok(false);
    }
    places.insert(name, place)?;
    Ok(true)
}

/// A list of pairs of names, with the first place of each. Contracts see the list.
#[derive(Drop)]
pub struct PairIndex<'a> {
    pairs: Vec<(&'a str, &'a str)>,
    places: HashMap<(&'a str, &'a str), usize>,
}

impl<'a> Model for PairIndex<'a> {
    ghost use Rattle.std.specs.Prelude.{List, ℕ};
    ghost use Rattle.cfa_base.specs.IndexTables.{AnswersPairs, pairs_of};

    ghost Value = { List (List ℕ × List ℕ) };

    ghost view = { λ index. pairs_of index.pairs.items };

    ghost invariant = { λ index. AnswersPairs index.pairs.items index.places };
}

impl<'a> PairIndex<'a> {
    /// No pairs, without taking memory.
    pub fn new(alloc: Global) -> PairIndex<'a>
        ensures { result ≡ [] }
    {
        PairIndex {
            pairs: Vec::new(alloc),
            places: HashMap::new(alloc),
        }
    }

    /// Adds a pair at the end. The answer is whether it is new. After want of memory the list is as it was.
    pub fn add(&mut self, first: &'a str, second: &'a str) -> Result<bool, NoMemory>
        ensures ok { OnOk result (self.new ≡ self.old ++ (first.now, second.now) ∷ []) }
        ensures answer { IfOk result
            (λ is_new. is_new ≡ is_none (pair_place_of self.old (first.now, second.now))) }
        ensures err { OnErr result (self.new ≡ self.old) }
    {
        self.pairs.reserve(1)?;
        let is_new = note_pair_if_new(&mut self.places, (first, second), self.pairs.len())?;
        self.pairs.push((first, second)).unwrap();
        Ok(is_new)
    }

    /// The first place of a pair, without taking memory.
    pub fn find(&self, first: &str, second: &str) -> Option<usize>
        ensures { result ≡ pair_place_of self.now (first.now, second.now) }
    {
        self.places.get(&(first, second)).copied()
    }
}

// Notes the place of a pair that has none. The answer is whether it had none.
fn note_pair_if_new<'a>(
    places: &mut HashMap<(&'a str, &'a str), usize>,
    pair: (&'a str, &'a str),
    place: usize,
) -> Result<bool, NoMemory>
    ensures ok { OnOk result (NotesPair places.old places.new (pair_of pair.entry) place) }
    ensures answer { IfOk result
        (λ is_new. is_new ≡ is_none (pair_noted places.old (pair_of pair.entry))) }
    ensures err { OnErr result
        ((other : List ℕ × List ℕ) → pair_noted places.new other ≡ pair_noted places.old other) }
{
    if places.contains_key(&pair) {
        return Ok(false);
    }
    places.insert(pair, place)?;
    Ok(true)
}
