// Scopes: what variables hold.
ghost use Rattle.std.specs.Prelude.{◌≡◌, [], OnOk, OnErr, option_copied};
ghost use Rattle.cfa_vars.specs.Named.{thing_at, put};

use cfa_base::{Name, Names, NoMemory};
use indexmap::IndexMap;
use std::alloc::Global;
use std::marker::Model;
use std::rc::RcStr;

/// What a variable holds.
#[derive(Debug, Drop)]
pub enum Datum {
    Text(Name),
    List(Names),
}

/// The variables of one activation of a bundle, or the parameters of a body. Contracts see the names with what they
/// hold, in the order in which the names were first set.
#[derive(Drop)]
pub struct Scope {
    values: IndexMap<RcStr, Datum>,
}

impl Model for Scope {
    ghost use Rattle.std.specs.Prelude.{List, ℕ};
    ghost use Rattle.cfa_vars.specs.declared.scoping.Datum.{Datum};
    ghost use Rattle.std.specs.Rc.{rc_str_bytes};
    ghost use Rattle.cfa_base.specs.TextMaps.{by_bytes};

    ghost Value = { List (List ℕ × Datum) };

    ghost view = { λ s. by_bytes rc_str_bytes s.values.entries };
}

impl Scope {
    /// The scope in which nothing is set, without taking memory.
    pub fn new(alloc: Global) -> Scope
        ensures { result ≡ [] }
    {
        Scope {
            values: IndexMap::new(alloc),
        }
    }

    /// Sets a variable. What it held before is dropped, and it keeps its place in the order of first setting. After want
    /// of memory the scope is as it was.
    pub fn set(&mut self, name: Name, value: Datum) -> Result<(), NoMemory>
        ensures ok { OnOk result (self.new ≡ put self.old name value) }
        ensures err { OnErr result (self.new ≡ self.old) }
    {
        let _before = self.values.insert(name.into_key(), value)?;
        Ok(())
    }

    /// What a variable holds, without taking memory. `None` where it was never set.
    pub fn get(&self, name: &Name) -> Option<&Datum>
        ensures { option_copied result ≡ thing_at self.now name.now }
    {
        self.find(name.as_str())
    }

    pub(crate) fn find(&self, name: &str) -> Option<&Datum>
        ensures { option_copied result ≡ thing_at self.now name.now }
    {
        self.values.get(name)
    }
}
