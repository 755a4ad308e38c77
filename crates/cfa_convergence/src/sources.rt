// Where nothing is unsettled.
ghost use Rattle.cfa_convergence.specs.Sources.{UnlistedAreSettled};

use crate::keys::keys_tell_works;
use cfa_laws::{instances_are_keyed, keys_are_lines, raises_have_first, unsettled_are_maybe};

/// Where the open walk lists no unsettled promise, none is unsettled.
pub fn unlisted_are_settled()
    ensures { UnlistedAreSettled }
{
    keys_tell_works();
    raises_have_first();
    unsettled_are_maybe();
    instances_are_keyed();
    keys_are_lines();
}
