// Lists of parts.
ghost use Rattle.std.specs.Prelude.{◌≡◌, ◌++◌, ◌∷◌, [], OnOk};

use crate::NoMemory;
use std::marker::Model;

/// Parts of one kind, in order: the attributes of a promise, say, or the visits of a walk. Contracts see their list.
#[derive(Debug, Drop)]
pub struct Parts<T> {
    items: Vec<T>,
}

impl<T> Model for Parts<T> {
    ghost use Rattle.std.specs.Prelude.{List};
    ghost use Rattle.std.specs.Coded.{coded_list};

    ghost Value = { List T };

    ghost coded = { coded_list T.code };

    ghost view = { λ a. a.items.items };
}

impl<T> Parts<T> {
    /// The parts of a `Vec`, without taking memory. What room it has left over is given back.
    pub fn from_vec(items: Vec<T>) -> Parts<T>
        ensures { result ≡ items.items }
    {
        let mut items = items;
        items.shrink_to_fit();
        Parts { items }
    }

    /// The parts, without taking memory.
    pub fn as_slice(&self) -> &[T]
        ensures { result.now ≡ self.now }
    {
        self.items.as_slice()
    }

    /// The parts as a `Vec`, without taking memory.
    pub fn into_vec(self) -> Vec<T>
        ensures { result.items ≡ self }
    {
        self.items
    }
}

impl<T: Drop> Parts<T> {
    /// Adds a part at the end.
    pub fn push(&mut self, part: T) -> Result<(), NoMemory>
        ensures { OnOk result (self.new ≡ self.old ++ part ∷ []) }
    {
        Ok(self.items.push(part)?)
    }

    /// Adds the parts of another list at the end.
    pub fn append(&mut self, more: Parts<T>) -> Result<(), NoMemory>
        ensures { OnOk result (self.new ≡ self.old ++ more) }
    {
        append_all(&mut self.items, more.items)
    }
}

// Adds the items of a list at the end of another.
fn append_all<T: Drop>(items: &mut Vec<T>, more: Vec<T>) -> Result<(), NoMemory>
    ensures { OnOk result (items.new.items ≡ items.old.items ++ more.items) }
{
    for item in more {
        items.push(item)?;
    }
    Ok(())
}
