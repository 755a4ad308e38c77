// The marks of instances.
ghost use Rattle.std.specs.Prelude.{◌≡◌, OnOk, OnErr};
ghost use Rattle.std.specs.FinMap as finite;
ghost use Rattle.std.specs.Rc.{rc_str_bytes};
ghost use Rattle.cfa_outcomes.specs.Environments.{mark_in, marked};

use crate::text_marks::TextMarks;
use cfa_base::{Name, NoMemory};
use cfa_statuses::Status;
use std::alloc::Global;
use std::collections::HashMap;
use std::marker::Model;
use std::rc::RcStr;

// By the hashes of paths, and of one path by those of texts. As a rule a look-up and a change cost what it takes to hash and
// compare one path and one text, however many there are.
#[derive(Drop)]
pub struct Marks {
    rows: HashMap<RcStr, TextMarks>,
}

impl Model for Marks {
    ghost use Rattle.std.specs.Rc.{rc_str_bytes};
    ghost use Rattle.cfa_base.specs.TextMaps.{text_map};
    ghost use Rattle.cfa_outcomes.specs.Environments.{Marks};
    ghost use Rattle.cfa_outcomes.specs.EnvironmentCodes.{marks_code};

    ghost Value = { Marks };

    ghost coded = { marks_code };

    ghost view = { λ m. text_map rc_str_bytes m.rows.entries };
}

impl Marks {
    pub fn new(alloc: Global) -> Marks
        ensures { result ≡ finite.empty }
    {
        Marks {
            rows: HashMap::new(alloc),
        }
    }

    pub fn get(&self, path: &Name, text: &Name) -> Status
        ensures { result ≡ mark_in self.now path.now text.now }
    {
        match self.rows.get(path.as_str()) {
            Some(texts) => texts.get(text),
            None => Status::No,
        }
    }

    // Gives a mark the greater of what it was and `to`. Copies the path where it has no mark yet.
    pub fn raise(
        &mut self,
        alloc: Global,
        path: &Name,
        text: Name,
        to: Status,
    ) -> Result<(), NoMemory>
        ensures ok { OnOk result (self.new ≡ marked self.old path.now text to) }
        ensures err { OnErr result (self.new ≡ self.old) }
    {
        match self.rows.get_mut(path.as_str()) {
            Some(texts) => texts.raise(text, to),
            None => {
                let key = path.copy(alloc)?;
                let mut texts = TextMarks::new(alloc);
                texts.raise(text, to)?;
                self.rows.insert(key.into_key(), texts)?;
                Ok(())
            }
        }
    }
}
