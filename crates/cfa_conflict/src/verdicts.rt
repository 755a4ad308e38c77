// What an analysis answers.
ghost use Rattle.std.specs.Prelude.{◌≡◌};
ghost use Rattle.cfa_conflict.specs.Conflicts.{code_of};

use cfa_base::{Name, PromiseId};

/// Why two promises are in conflict.
#[derive(Clone, Copy, Debug, PartialEq, Eq)]
pub enum Cause {
    /// A service is restarted at each run.
    Restarts,
    /// A promise that is kept where all are may come or not, as another one is repaired or not.
    ComesAndGoes,
    /// A promise undoes what another one asked for before it.
    Undoes,
    /// A variable is set, or lines are edited, or not, as another promise is repaired or not.
    Unsettled,
}

impl Cause {
    /// The code of the cause, as it is printed.
    pub fn code(self) -> &'static str
        ensures { result.now ≡ code_of self }
    {
        match self {
            Cause::Restarts => "C1",
            Cause::ComesAndGoes => "C2",
            Cause::Undoes => "C3",
            Cause::Unsettled => "C4",
        }
    }
}

/// Two promises in conflict, which may be one promise twice.
#[derive(Debug, Drop)]
pub struct Conflict {
    pub cause: Cause,
    /// Where one promise undoes what another asked for, the one that is undone; where one waits for a class, the source of the
    /// class.
    pub first: PromiseId,
    /// The one that undoes, or waits.
    pub second: PromiseId,
    /// What they meet in, as it is printed.
    pub resource: Name,
}

/// What the analysis of a policy answers.
#[derive(Debug, Drop)]
pub enum Verdict {
    /// No two promises are in conflict; so many instances with acts are visited where all is kept.
    Accepted(u32),
    /// The first conflict.
    Conflict(Conflict),
}
