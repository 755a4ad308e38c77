// Environments: what was raised and marked.
ghost use Rattle.std.specs.Prelude.{◌≡◌, ◌≢◌, ℕ, List, None, IfOk, OnOk, OnErr, if◌then◌else◌, option_copied};
ghost use Rattle.std.specs.Option.{option_or};
ghost use Rattle.cfa_statuses.specs.declared.levels.Status.TheVariants.{No as no, Yes as yes};
ghost use Rattle.cfa_statuses.specs.Status.{greater};
ghost use Rattle.cfa_base.specs.Index.{is_listed};
ghost use Rattle.cfa_outcomes.specs.Environments.{status_of, source_of, mark_of, with_class, with_mark, first_environment};

use crate::marking::Marks;
use cfa_base::{Name, Names, NoMemory, PromiseId, TextMap};
use cfa_statuses::{Status, Statuses};
use std::alloc::Global;
use std::marker::Model;

/// The statuses of classes, the promises that first raised them, and the marks of instances, each by its path and its
/// text. A class that was never raised and an instance that was never marked are No. A look-up and a change of a class
/// cost a logarithm of comparisons, and those of a mark the hashes of its path and text. Contracts see three finite maps,
/// read by `status_of`, `source_of` and `mark_of`.
#[derive(Drop)]
pub struct Environment {
    alloc: Global,
    statuses: Statuses,
    sources: TextMap<PromiseId>,
    marks: Marks,
}

impl Model for Environment {
    ghost use Rattle.cfa_outcomes.specs.Environments.{EnvironmentMaps};
    ghost use Rattle.cfa_outcomes.specs.EnvironmentCodes.{environment_code};

    ghost Value = { EnvironmentMaps };

    ghost coded = { environment_code };

    ghost view = { λ e. record { statuses = e.statuses; sources = e.sources; marks = e.marks } };
}

impl Environment {
    /// The environment where these classes are Yes, no class has a source, and no instance is marked.
    pub fn new(alloc: Global, classes: &Names) -> Result<Environment, NoMemory>
        ensures ok { IfOk result (λ e. e ≡ first_environment classes.now) }
        ensures statuses { IfOk result (λ e. (class : List ℕ) →
            status_of e class ≡ (if is_listed classes.now class then yes else no)) }
        ensures no_source { IfOk result (λ e. (class : List ℕ) → source_of e class ≡ None) }
        ensures no_mark { IfOk result (λ e. (path text : List ℕ) → mark_of e path text ≡ no) }
    {
        let mut statuses = Statuses::new(alloc);
        for class in classes.as_slice() {
            statuses.raise(class.copy(alloc)?, Status::Yes)?;
        }
        Ok(Environment {
            alloc,
            statuses,
            sources: TextMap::new(alloc),
            marks: Marks::new(alloc),
        })
    }

    /// Gives a class the greater of its status and `to`. Its source is `source`, where it has none yet. After want of
    /// memory the environment is as it was.
    pub fn raise(
        &mut self,
        class: Name,
        to: Status,
        source: Option<PromiseId>,
    ) -> Result<(), NoMemory>
        ensures ok { OnOk result (self.new ≡ with_class self.old class to source) }
        ensures class { OnOk result
            (status_of self.new class ≡ greater (status_of self.old class) to) }
        ensures other_classes { OnOk result ((other : List ℕ) → other ≢ class →
            status_of self.new other ≡ status_of self.old other) }
        ensures source { OnOk result
            (source_of self.new class ≡ option_or (source_of self.old class) source) }
        ensures other_sources { OnOk result ((other : List ℕ) → other ≢ class →
            source_of self.new other ≡ source_of self.old other) }
        ensures marks { OnOk result ((path text : List ℕ) →
            mark_of self.new path text ≡ mark_of self.old path text) }
        ensures err { OnErr result (self.new ≡ self.old) }
    {
        if self.sources.contains(class.as_str()) {
            return self.statuses.raise(class, to);
        }
        match source {
            Some(source) => self.raise_first(class, to, source),
            None => self.statuses.raise(class, to),
        }
    }

    // Raises a class that has no source yet.
    fn raise_first(&mut self, class: Name, to: Status, source: PromiseId) -> Result<(), NoMemory>
        requires { source_of self.old class ≡ None }
        ensures ok { OnOk result (self.new ≡ with_class self.old class to (Some source)) }
        ensures err { OnErr result (self.new ≡ self.old) }
    {
        let key = class.copy(self.alloc)?;
        let copy = class.copy(self.alloc)?;
        self.sources.insert(key, source)?;
        match self.statuses.raise(copy, to) {
            Ok(()) => Ok(()),
            Err(wanting) => {
                self.sources.remove(class.as_str());
                Err(wanting)
            }
        }
    }

    /// The status of a class, without taking memory.
    pub fn status(&self, class: &Name) -> Status
        ensures { result ≡ status_of self.now class.now }
    {
        self.statuses.get(class)
    }

    /// The source of the first raise of a class that had one, without taking memory. `None` where no raise had one.
    pub fn source(&self, class: &Name) -> Option<&PromiseId>
        ensures { option_copied result ≡ source_of self.now class.now }
    {
        self.sources.get(class.as_str())
    }

    /// The mark of an instance, without taking memory.
    pub fn done(&self, path: &Name, text: &Name) -> Status
        ensures { result ≡ mark_of self.now path.now text.now }
    {
        self.marks.get(path, text)
    }

    /// Gives an instance the greater of its mark and `to`. The path is copied where none of its instances has a mark yet.
    /// After want of memory the environment is as it was.
    pub fn mark(&mut self, path: &Name, text: Name, to: Status) -> Result<(), NoMemory>
        ensures ok { OnOk result (self.new ≡ with_mark self.old path.now text to) }
        ensures mark { OnOk result
            (mark_of self.new path.now text ≡ greater (mark_of self.old path.now text) to) }
        ensures others { OnOk result ((other_path other_text : List ℕ) →
            ¬ ((other_path ≡ path.now) × (other_text ≡ text)) →
            mark_of self.new other_path other_text ≡ mark_of self.old other_path other_text) }
        ensures classes { OnOk result ((class : List ℕ) →
            status_of self.new class ≡ status_of self.old class) }
        ensures sources { OnOk result ((class : List ℕ) →
            source_of self.new class ≡ source_of self.old class) }
        ensures err { OnErr result (self.new ≡ self.old) }
    {
        self.marks.raise(self.alloc, path, text, to)
    }

    /// The statuses of all classes, without taking memory.
    pub fn statuses(&self) -> &Statuses
        ensures { result.now ≡ self.now.statuses }
    {
        &self.statuses
    }
}
