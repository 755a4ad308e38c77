// What promises that edit give to a script.
use cfa_base::Name;
use cfa_edits::Edit;

/// What one combination of a promise that edits gives to the script.
#[derive(Drop)]
pub(crate) enum Contribution {
    Edit(Edit),
    /// Something that is read is unresolved: this name, if it can be told.
    Unresolved(Option<Name>),
    TooMany,
    TooLong,
    /// Its pattern doesn't read.
    BadPattern,
    /// A value of it is none of its kind.
    BadValue,
}
