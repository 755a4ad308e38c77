// How instances end.
use cfa_outcomes::Outcome;

/// How an instance ends, or may end.
#[derive(Clone, Copy, Debug, PartialEq, Eq)]
pub enum Ending {
    /// As it did in a run, or as it does wherever all is kept.
    One(Outcome),
    /// As kept or as repaired.
    KeptOrRepaired,
}
