// How far a run has come.
ghost use Rattle.std.specs.Prelude.{◌≤◌};
ghost use Rattle.cfa_base.specs.declared.limits.TheConstants.{LAST_MOMENT};

use crate::running::Tally;

/// What a run began with, and what came of it so far.
#[derive(Clone, Copy, Debug)]
pub struct Running {
    /// The moment of the run, in seconds since 1970.
    pub moment: u64,
    /// Whether locks are looked at and set.
    pub locks: bool,
    /// How many instances with acts were actuated.
    pub number: u32,
    /// Whether a record of the run stands in the journal.
    pub has_record: bool,
    /// How its instances ended.
    pub tally: Tally,
    ghost in_range: { moment ≤ LAST_MOMENT },
}
