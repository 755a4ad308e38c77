// Edits, lists of edits, and the refusals of lines.

use cfa_base::{Name, Names, Pattern};
use std::alloc::{AllocError, AllocFailed};
use thiserror::Error;

/// One edit of the lines of a text.
#[derive(Drop)]
pub enum Edit {
    /// Takes out each line that the pattern matches.
    Delete(Pattern),
    /// In each line that the pattern matches, cut at each separator, gives the field of this number, from 1 on, a value.
    Field(Pattern, char, u16, Name),
    /// Puts in the lines that aren't there, in their order, each once.
    Insert(Names, Spot),
    /// Writes the value as plain text in the place of each part of a line that the pattern finds, or of the first alone.
    Replace(Pattern, Name, bool),
}

/// Where lines go in. An anchor is the first or the last line that the pattern matches; true is the first.
#[derive(Drop)]
pub enum Spot {
    /// Before all lines.
    Start,
    /// Behind all lines.
    End,
    /// Directly before the anchor.
    Before(Pattern, bool),
    /// Directly behind the anchor.
    After(Pattern, bool),
}

/// Why lines were not edited.
#[derive(Clone, Copy, Debug, PartialEq, Eq, Error)]
pub enum EditErr {
    /// Lines were to go in at an anchor, and no line matches its pattern.
    #[error("no line matches the anchor")]
    NoAnchor,
    /// A matched line has fewer fields than the number of the one that was to get a value.
    #[error("a matched line has too few fields")]
    FieldCount,
    /// No memory was left.
    #[error("out of memory")]
    NoMemory,
}

impl From<cfa_base::NoMemory> for EditErr {
    ghost use Rattle.cfa_edits.specs.declared.edits.EditErr.TheVariants.{NoMemory};
    ghost use Rattle.std.specs.Prelude.{◌≡◌};

    ghost from_gives = { λ _ e. e ≡ NoMemory };

    fn from(_: cfa_base::NoMemory) -> Self {
        EditErr::NoMemory
    }
}

impl From<AllocError> for EditErr {
    ghost use Rattle.cfa_edits.specs.declared.edits.EditErr.TheVariants.{NoMemory};
    ghost use Rattle.std.specs.Prelude.{◌≡◌};

    ghost from_gives = { λ _ e. e ≡ NoMemory };

    fn from(_: AllocError) -> Self {
        EditErr::NoMemory
    }
}

impl<T: Drop> From<AllocFailed<T>> for EditErr {
    ghost use Rattle.cfa_edits.specs.declared.edits.EditErr.TheVariants.{NoMemory};
    ghost use Rattle.std.specs.Prelude.{◌≡◌};

    ghost from_gives = { λ _ e. e ≡ NoMemory };

    fn from(_: AllocFailed<T>) -> Self {
        EditErr::NoMemory
    }
}
