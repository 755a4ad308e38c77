// Where a run without a failure lies.
ghost use Rattle.cfa_convergence.specs.Contained.{UnfailingRunsAreContained};

use crate::keys::keys_tell_works;
use cfa_laws::{instances_are_keyed, instances_are_same, raises_lie_together};

/// A run without a failure lies within the open walk, where nothing is unsettled there.
pub fn unfailing_runs_are_contained()
    ensures { UnfailingRunsAreContained }
{
    keys_tell_works();
    raises_lie_together();
    instances_are_same();
    instances_are_keyed();
}
