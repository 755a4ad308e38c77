// What a rerun does.
ghost use Rattle.cfa_convergence.specs.Reruns.{RerunsAreKept};

use crate::runs::{runs_are_determined, runs_are_told};
use cfa_acts::kept_where_post_holds;
use cfa_laws::instances_are_keyed;

/// On a world on which the posts of all live instances hold, a run without locks and without a failed call is the walk in which all
/// is kept, and changes nothing.
pub fn reruns_are_kept()
    ensures { RerunsAreKept }
{
    runs_are_determined();
    runs_are_told();
    instances_are_keyed();
    kept_where_post_holds();
}
