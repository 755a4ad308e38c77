// What class expressions say, alone and several together.
ghost use Rattle.std.specs.Prelude.{◌≡◌, []};
ghost use Rattle.cfa_defines.specs.ClassPromises.{joined, opposite};
ghost use Rattle.cfa_defines.specs.OfTheCode.{operation, together};

use cfa_base::Name;
use cfa_statuses::Status;

/// What an expression says.
#[derive(Drop)]
pub(crate) enum Said {
    /// Its status, and its first Maybe class.
    Says(Status, Option<Name>),
    /// It is none: nothing comes of its combination.
    NoExpression,
    /// Nothing comes of the promise as a whole.
    Stops,
}

impl Said {
    /// What the negation of the expression says.
    pub(crate) fn opposite(self) -> Said
        ensures { result ≡ opposite self }
    {
        match self {
            Said::Says(status, maybe) => Said::Says(status.swapped(), maybe),
            Said::NoExpression => Said::NoExpression,
            Said::Stops => Said::Stops,
        }
    }
}

/// How several expressions are taken together: all of them, or one.
#[derive(Clone, Copy)]
pub(crate) enum Join {
    All,
    One,
}

impl Join {
    /// What no expression says.
    pub(crate) fn start(self) -> Said
        ensures { result ≡ together self [] }
    {
        match self {
            Join::All => Said::Says(Status::Yes, None),
            Join::One => Said::Says(Status::No, None),
        }
    }

    fn status(self, first: Status, next: Status) -> Status
        ensures { result ≡ operation self first next }
    {
        match self {
            Join::All => first.lesser(next),
            Join::One => first.greater(next),
        }
    }

    /// What two say together.
    pub(crate) fn join(self, first: Said, next: Said) -> Said
        ensures { result ≡ joined (operation self) first next }
    {
        match (first, next) {
            (Said::Says(status, maybe), Said::Says(other, more)) => {
                Said::Says(self.status(status, other), maybe.or(more))
            }
            (Said::Stops, _) => Said::Stops,
            (_, Said::Stops) => Said::Stops,
            (Said::NoExpression, _) => Said::NoExpression,
            (_, Said::NoExpression) => Said::NoExpression,
        }
    }
}
