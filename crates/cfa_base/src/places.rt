// Places in a policy's text.
ghost use Rattle.std.specs.Prelude.{◌≡◌};
ghost use Rattle.cfa_base.specs.Order.{is_before};

use crate::Name;

/// A byte of a policy: its file (0 is the main file, its inputs follow from 1), its line from 1, and its column, which
/// is the number of the byte in its line, from 1.
#[derive(Clone, Copy, Debug, PartialEq, Eq)]
pub struct Place {
    pub file: u16,
    pub line: u32,
    pub col: u32,
}

/// Whether one place stands before another, by file, line and column.
pub fn is_before(place: Place, other: Place) -> bool
    ensures { result ≡ is_before place other }
{
    if place.file != other.file {
        return place.file < other.file;
    }
    if place.line != other.line {
        return place.line < other.line;
    }
    place.col < other.col
}

/// A promise by its bundle, its number in the bundle from 1 in text order, and the line of its promiser from 1.
#[derive(Debug, Drop)]
pub struct PromiseId {
    pub bundle: Name,
    pub number: u32,
    pub line: u32,
}
