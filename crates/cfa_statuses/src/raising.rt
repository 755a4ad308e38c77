// The statuses that classes were raised to.
ghost use Rattle.std.specs.Prelude.{◌≡◌, ◌≢◌, List, ℕ, OnOk, OnErr};
ghost use Rattle.cfa_statuses.specs.declared.levels.Status.TheVariants.{No as no};
ghost use Rattle.cfa_statuses.specs.Status.{greater};
ghost use Rattle.cfa_statuses.specs.Raised.{none_raised, status_in, raised};

use crate::Status;
use cfa_base::{Name, NoMemory, TextMap};
use std::alloc::Global;
use std::marker::Model;

/// The statuses of classes, by their names. A class that was never raised is No. Contracts see a map from the names to
/// the statuses that were given, read by `status_in`.
#[derive(Drop)]
pub struct Statuses {
    given: TextMap<Status>,
}

impl Model for Statuses {
    ghost use Rattle.std.specs.Coded.{coded_list, coded_ℕ};
    ghost use Rattle.std.specs.FinMap as map;
    ghost use Rattle.cfa_statuses.specs.contracts.levels.Status as status_row;
    ghost use Rattle.cfa_statuses.specs.Raised.{Raised};

    ghost Value = { Raised };

    ghost coded = { map.code (coded_list coded_ℕ) status_row.the_row.coded };

    ghost view = { λ s. s.given };
}

impl Statuses {
    /// The statuses where every class is No, without taking memory.
    pub fn new(alloc: Global) -> Statuses
        ensures empty { result ≡ none_raised }
        ensures all_no { (name : List ℕ) → status_in result name ≡ no }
    {
        Statuses {
            given: TextMap::new(alloc),
        }
    }

    /// Gives a class the greater of its status and `to`. After want of memory every class is as it was.
    #[tactic(auto, unfolding(crate::specs::Raised::raised))]
    pub fn raise(&mut self, class: Name, to: Status) -> Result<(), NoMemory>
        ensures ok { OnOk result (self.new ≡ raised self.old class to) }
        ensures class { OnOk result
            (status_in self.new class ≡ greater (status_in self.old class) to) }
        ensures others { OnOk result
            ((name : List ℕ) → name ≢ class → status_in self.new name ≡ status_in self.old name) }
        ensures err { OnErr result (self.new ≡ self.old) }
    {
        let status = self.get(&class).greater(to);
        self.given.insert(class, status)?;
        Ok(())
    }

    /// The status of a class, without taking memory.
    #[tactic(auto, unfolding(crate::specs::Raised::status_in))]
    pub fn get(&self, class: &Name) -> Status
        ensures { result ≡ status_in self.now class.now }
    {
        match self.given.get(class.as_str()) {
            Some(status) => *status,
            None => Status::No,
        }
    }
}
