// The calls on an object in memory.
ghost use Rattle.std.specs.Prelude.{◌≡◌, ◌≤◌, ◌++◌, ◌∷◌, [], false, OnOk, OnErr};
ghost use Rattle.cfa_outside.specs.Turns.{no_calls, after_call, is_next_listed, with_fault};

use cfa_base::{Name, Names, NoMemory};
use std::alloc::Global;
use std::marker::Model;

/// The calls on an object in memory, numbered from 1: which of them fail, how many there were, and how many failed.
#[derive(Debug, Drop)]
pub(crate) struct Turns {
    listed: Vec<u32>,
    calls: u32,
    faults: u64,
}

impl Model for Turns {
    ghost use Rattle.cfa_outside.specs.Turns.{Numbering};

    ghost Value = { Numbering };

    ghost view = { λ t. record { listed = t.listed.items; calls = t.calls; faults = t.faults } };
}

impl Turns {
    /// No calls so far; those of these numbers fail.
    pub(crate) fn new(listed: Vec<u32>) -> Turns
        ensures { result ≡ no_calls listed.items }
    {
        Turns {
            listed,
            calls: 0,
            faults: 0,
        }
    }

    /// Numbers a call. The answer is whether its number is listed.
    pub(crate) fn take(&mut self) -> bool
        ensures turn { self.new ≡ after_call false self.old }
        ensures listed { result ≡ is_next_listed self.old }
    {
        self.calls = self.calls.saturating_add(1);
        self.listed.contains(&self.calls)
    }

    /// Counts the last call as a fault.
    pub(crate) fn fail(&mut self)
        ensures counted { self.new ≡ with_fault self.old }
        ensures later { self.old.faults ≤ self.new.faults }
    {
        self.faults = self.faults.saturating_add(1);
    }
}

/// Adds a copy of a name at the end. After want of memory the list is as it was.
pub(crate) fn note(alloc: Global, names: &mut Names, name: &Name) -> Result<(), NoMemory>
    ensures ok { OnOk result (names.new ≡ names.old ++ name.now ∷ []) }
    ensures err { OnErr result (names.new ≡ names.old) }
{
    names.push(name.copy(alloc)?)
}
