// A site that counts what calls on it add to its log.
ghost use Rattle.std.specs.Prelude.{◌≡◌, ◌+◌, ◌-◌, ◌^◌, ◌<◌, true};
ghost use Rattle.cfa_demo.specs.Counts.{counted, refusals, additions, changes_made, CountsAreExact};

use cfa_base::{Bytes, Key, Name};
use cfa_outside::{Change, Look, OutsideErr, Path, Perms, ServiceRow, Site};
use std::alloc::Global;

/// A site with two counts: of the entries that calls on it add to its log, and of the changes among these that are no
/// records of the journal. Where a count stands at its end, a call answers want of memory and isn't made.
pub struct CountingSite<S> {
    pub site: S,
    pub entries: u64,
    pub changes: u64,
}

// Whether a count may rise once more.
fn may_rise(count: u64) -> bool
    ensures { result ≡ true → count < 2 ^ 64 - 1 }
{
    count < u64::MAX
}

// How many entries a call adds that was answered so and changes nothing.
fn refusals<T>(answer: &Result<T, OutsideErr>) -> u64
    ensures { result ≡ refusals answer.now }
{
    match answer {
        Err(OutsideErr::Failed) => 1,
        _ => 0,
    }
}

// How many entries the call of a change adds that was answered so.
fn additions(answer: &Result<(), OutsideErr>) -> u64
    ensures { result ≡ additions answer.now }
{
    match answer {
        Err(OutsideErr::NoMemory) => 0,
        _ => 1,
    }
}

// How many changes the call of this one makes that was answered so.
fn changes_made(answer: &Result<(), OutsideErr>, change: &Change) -> u64
    ensures { result ≡ changes_made answer.now change.now }
{
    match (answer, change) {
        (Err(_), _) => 0,
        (Ok(_), Change::Append(_)) => 0,
        (Ok(_), _) => 1,
    }
}

impl<S: Site> Site for CountingSite<S> {
    ghost shown = { λ c. counted c.entries c.changes (S.shown c.site) };

    ghost use Rattle.cfa_demo.specs.Counts.{counted_parents};

    ghost parents = { λ c. counted_parents c.entries c.changes (S.shown c.site)
        (S.parents c.site) };

    fn look(&mut self, alloc: Global, path: &Path) -> Result<Look, OutsideErr> {
        if !may_rise(self.entries) {
            return Err(OutsideErr::NoMemory);
        }
        let answer = self.site.look(alloc, path);
        self.entries += refusals(&answer);
        answer
    }

    fn read(&mut self, alloc: Global, path: &Path) -> Result<Bytes, OutsideErr> {
        if !may_rise(self.entries) {
            return Err(OutsideErr::NoMemory);
        }
        let answer = self.site.read(alloc, path);
        self.entries += refusals(&answer);
        answer
    }

    fn perms(&mut self, alloc: Global, path: &Path) -> Result<Perms, OutsideErr> {
        if !may_rise(self.entries) {
            return Err(OutsideErr::NoMemory);
        }
        let answer = self.site.perms(alloc, path);
        self.entries += refusals(&answer);
        answer
    }

    fn children(&mut self, alloc: Global, path: &Path) -> Result<u64, OutsideErr> {
        if !may_rise(self.entries) {
            return Err(OutsideErr::NoMemory);
        }
        let answer = self.site.children(alloc, path);
        self.entries += refusals(&answer);
        answer
    }

    fn service(&mut self, alloc: Global, name: &Name) -> Result<Option<ServiceRow>, OutsideErr> {
        if !may_rise(self.entries) {
            return Err(OutsideErr::NoMemory);
        }
        let answer = self.site.service(alloc, name);
        self.entries += refusals(&answer);
        answer
    }

    fn lock(&mut self, alloc: Global, key: &Key) -> Result<Option<u64>, OutsideErr> {
        if !may_rise(self.entries) {
            return Err(OutsideErr::NoMemory);
        }
        let answer = self.site.lock(alloc, key);
        self.entries += refusals(&answer);
        answer
    }

    fn change(&mut self, alloc: Global, change: &Change) -> Result<(), OutsideErr> {
        if !may_rise(self.entries) || !may_rise(self.changes) {
            return Err(OutsideErr::NoMemory);
        }
        let answer = self.site.change(alloc, change);
        self.entries += additions(&answer);
        self.changes += changes_made(&answer, change);
        answer
    }
}

/// The law that the counts are exact: what a counting site shows tells which entries its site's log has more, how many they
/// are and how many of them are changes that are no records.
pub fn counts_are_exact()
    ensures { CountsAreExact }
{}
