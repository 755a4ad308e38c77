// The scopes that may be referred to from everywhere.
ghost use Rattle.std.specs.Prelude.{◌≡◌, ◌<◌, ℕ, List, [], IfSome, None, OnOk, OnErr, Some, false, length, map, option_copied, option_map, slice_get, slice_set};
ghost use Rattle.cfa_base.specs.Index.{is_listed};
ghost use Rattle.cfa_vars.specs.Named.{thing_at, put};
ghost use Rattle.cfa_vars.specs.Tables.{Table};
ghost use Rattle.cfa_vars.specs.Shared.{begun, name_of, table_of};

use crate::{Datum, Scope};
use cfa_base::{Name, NoMemory, TextMap};
use std::alloc::Global;
use std::marker::Model;

/// Scopes under the names of their bundles, each name once, in the order in which they were begun. Contracts see the list of the
/// names with what the scopes hold. A look-up costs a logarithm of comparisons.
#[derive(Drop)]
pub struct SharedScopes {
    scopes: Vec<(Name, Scope)>,
    places: TextMap<usize>,
}

impl Model for SharedScopes {
    ghost use Rattle.std.specs.Prelude.{List, ℕ};
    ghost use Rattle.cfa_vars.specs.Tables.{Table};
    ghost use Rattle.cfa_vars.specs.Shared.{PlacesAre};

    ghost Value = { List (List ℕ × Table) };

    ghost view = { λ s. s.scopes.items };

    ghost invariant = { λ s. PlacesAre s.scopes.items s.places };
}

impl SharedScopes {
    /// No scopes, without taking memory.
    pub fn new(alloc: Global) -> SharedScopes
        ensures { result ≡ [] }
    {
        SharedScopes {
            scopes: Vec::new(alloc),
            places: TextMap::new(alloc),
        }
    }

    /// Begins the scope of a bundle, in which nothing is set, unless it has one. After want of memory the scopes are as they
    /// were.
    pub fn begin(&mut self, alloc: Global, name: &Name) -> Result<(), NoMemory>
        ensures ok { OnOk result (self.new ≡ begun self.old name.now) }
        ensures err { OnErr result (self.new ≡ self.old) }
    {
        if self.places.contains(name.as_str()) {
            return Ok(());
        }
        let key = name.copy(alloc)?;
        let copy = name.copy(alloc)?;
        self.scopes.reserve(1)?;
        self.places.insert(key, self.scopes.len())?;
        self.scopes.push((copy, Scope::new(alloc))).unwrap();
        Ok(())
    }

    /// How many scopes there are.
    pub fn len(&self) -> usize
        ensures { result ≡ length self.now }
    {
        self.scopes.len()
    }

    /// The scope at a place from 0, without taking memory. `None` past the end.
    pub fn at(&self, place: usize) -> Option<&Scope>
        ensures { option_copied result ≡ option_map table_of (slice_get self.now place) }
    {
        match self.scopes.get(place) {
            Some(scope) => Some(&scope.1),
            None => None,
        }
    }

    /// The place of the scope of a bundle, without taking memory. `None` where it has none.
    pub fn place_of(&self, name: &Name) -> Option<usize>
        ensures found { IfSome result (λ place.
            slice_get (map name_of self.now) place ≡ Some name.now) }
        ensures missing { result ≡ None → is_listed (map name_of self.now) name.now ≡ false }
    {
        self.places.get(name.as_str()).copied()
    }

    /// The scope of a bundle, without taking memory. `None` where it has none.
    pub fn get(&self, bundle: &str) -> Option<&Scope>
        ensures { option_copied result ≡ thing_at self.now bundle.now }
    {
        match self.places.get(bundle) {
            Some(place) => self.at(*place),
            None => None,
        }
    }

    /// Sets a variable of the scope at a place. After want of memory the scopes are as they were.
    pub fn set_at(&mut self, place: usize, name: Name, datum: Datum) -> Result<(), NoMemory>
        requires { place < length self.old }
        ensures ok { OnOk result ((bundle : List ℕ) (table : Table)
            → slice_get self.old place ≡ Some (bundle, table)
            → self.new ≡ slice_set self.old place (bundle, put table name datum)) }
        ensures err { OnErr result (self.new ≡ self.old) }
    {
        self.scopes[place].1.set(name, datum)
    }

    /// Lets nothing be set in the scope at a place.
    pub fn clear_at(&mut self, alloc: Global, place: usize)
        requires { place < length self.old }
        ensures { (bundle : List ℕ) (table : Table)
            → slice_get self.old place ≡ Some (bundle, table)
            → self.new ≡ slice_set self.old place (bundle, []) }
    {
        self.scopes[place].1 = Scope::new(alloc);
    }
}
