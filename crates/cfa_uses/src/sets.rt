// Sets of names, and of pairs of names, in the order in which they were added.
ghost use Rattle.std.specs.Prelude.{◌≡◌, [], IfOk, OnOk, OnErr, not};
ghost use Rattle.cfa_base.specs.Index.{is_listed};
ghost use Rattle.cfa_base.specs.IndexTables.{texts_of, pairs_of};
ghost use Rattle.cfa_uses.specs.Naming.{with_name, is_pair_listed, with_pair};

use cfa_base::{NameIndex, NoMemory, PairIndex};
use std::alloc::Global;
use std::marker::Model;

/// Names, each once. Contracts see the list.
#[derive(Drop)]
pub struct NameSet<'a> {
    index: NameIndex<'a>,
    names: Vec<&'a str>,
}

impl<'a> Model for NameSet<'a> {
    ghost use Rattle.std.specs.Prelude.{◌≡◌, List, ℕ};
    ghost use Rattle.cfa_base.specs.IndexTables.{texts_of};

    ghost Value = { List (List ℕ) };

    ghost view = { λ set. texts_of set.names.items };

    ghost invariant = { λ set. set.index ≡ texts_of set.names.items };
}

impl<'a> NameSet<'a> {
    pub fn new(alloc: Global) -> NameSet<'a>
        ensures { result ≡ [] }
    {
        NameSet {
            index: NameIndex::new(alloc),
            names: Vec::new(alloc),
        }
    }

    /// The answer is whether the name is new. After want of memory the names are as they were.
    pub fn add(&mut self, name: &'a str) -> Result<bool, NoMemory>
        ensures ok { OnOk result (self.new ≡ with_name self.old name.now) }
        ensures answer { IfOk result (λ is_new. is_new ≡ not (is_listed self.old name.now)) }
        ensures err { OnErr result (self.new ≡ self.old) }
    {
        if self.has(name) {
            return Ok(false);
        }
        self.names.reserve(1)?;
        self.index.add(name)?;
        self.names.push(name).unwrap();
        Ok(true)
    }

    #[tactic(auto, using(crate::proofs::ListedLemmas::listed_by_place))]
    pub fn has(&self, name: &str) -> bool
        ensures { result ≡ is_listed self.now name.now }
    {
        self.index.find(name).is_some()
    }

    /// The names, in the order in which they were added.
    pub fn names(&self) -> &[&'a str]
        ensures { texts_of result.now ≡ self.now }
    {
        self.names.as_slice()
    }
}

/// Pairs of names, each once. Contracts see the list.
#[derive(Drop)]
pub struct PairSet<'a> {
    index: PairIndex<'a>,
    pairs: Vec<(&'a str, &'a str)>,
}

impl<'a> Model for PairSet<'a> {
    ghost use Rattle.std.specs.Prelude.{◌≡◌, List, ℕ};
    ghost use Rattle.cfa_base.specs.IndexTables.{pairs_of};

    ghost Value = { List (List ℕ × List ℕ) };

    ghost view = { λ set. pairs_of set.pairs.items };

    ghost invariant = { λ set. set.index ≡ pairs_of set.pairs.items };
}

impl<'a> PairSet<'a> {
    pub fn new(alloc: Global) -> PairSet<'a>
        ensures { result ≡ [] }
    {
        PairSet {
            index: PairIndex::new(alloc),
            pairs: Vec::new(alloc),
        }
    }

    /// The answer is whether the pair is new. After want of memory the pairs are as they were.
    pub fn add(&mut self, first: &'a str, second: &'a str) -> Result<bool, NoMemory>
        ensures ok { OnOk result (self.new ≡ with_pair self.old (first.now, second.now)) }
        ensures answer { IfOk result
            (λ is_new. is_new ≡ not (is_pair_listed self.old (first.now, second.now))) }
        ensures err { OnErr result (self.new ≡ self.old) }
    {
        if self.has(first, second) {
            return Ok(false);
        }
        self.pairs.reserve(1)?;
        self.index.add(first, second)?;
        self.pairs.push((first, second)).unwrap();
        Ok(true)
    }

    #[tactic(auto, using(crate::proofs::ListedLemmas::pair_listed_by_place))]
    pub fn has(&self, first: &str, second: &str) -> bool
        ensures { result ≡ is_pair_listed self.now (first.now, second.now) }
    {
        self.index.find(first, second).is_some()
    }

    /// The pairs, in the order in which they were added.
    pub fn pairs(&self) -> &[(&'a str, &'a str)]
        ensures { pairs_of result.now ≡ self.now }
    {
        self.pairs.as_slice()
    }
}
