// The marks of the instances of one path, by their texts.
ghost use Rattle.std.specs.Prelude.{◌≡◌, OnOk, OnErr};
ghost use Rattle.cfa_statuses.specs.Raised.{none_raised, status_in, raised};

use cfa_base::{Name, NoMemory};
use cfa_statuses::Status;
use std::alloc::Global;
use std::collections::HashMap;
use std::marker::Model;
use std::rc::RcStr;

// By the hashes of the texts. The texts of a path are long and begin alike, so that each comparison of two of them would
// read most of both.
#[derive(Drop)]
pub struct TextMarks {
    rows: HashMap<RcStr, Status>,
}

impl Model for TextMarks {
    ghost use Rattle.std.specs.Rc.{rc_str_bytes};
    ghost use Rattle.cfa_base.specs.TextMaps.{text_map};
    ghost use Rattle.cfa_statuses.specs.Raised.{Raised};
    ghost use Rattle.cfa_outcomes.specs.EnvironmentCodes.{raised_code};

    ghost Value = { Raised };

    ghost coded = { raised_code };

    ghost view = { λ m. text_map rc_str_bytes m.rows.entries };
}

impl TextMarks {
    pub fn new(alloc: Global) -> TextMarks
        ensures { result ≡ none_raised }
    {
        TextMarks {
            rows: HashMap::new(alloc),
        }
    }

    pub fn get(&self, text: &Name) -> Status
        ensures { result ≡ status_in self.now text.now }
    {
        match self.rows.get(text.as_str()) {
            Some(status) => *status,
            None => Status::No,
        }
    }

    // Gives a mark the greater of what it was and `to`. Takes memory only for a text that has no mark yet.
    pub fn raise(&mut self, text: Name, to: Status) -> Result<(), NoMemory>
        ensures ok { OnOk result (self.new ≡ raised self.old text to) }
        ensures err { OnErr result (self.new ≡ self.old) }
    {
        match self.rows.get_mut(text.as_str()) {
            Some(status) => {
                *status = status.greater(to);
                Ok(())
            }
            None => {
                self.rows.insert(text.into_key(), to)?;
                Ok(())
            }
        }
    }
}
