// What a run without a failure leaves behind.
ghost use Rattle.cfa_convergence.specs.Settling.{FreeRunsSettle};

use crate::lasting::live_posts_hold;
use crate::reruns::reruns_are_kept;

/// Where a policy is free of conflicts, a run without locks that ends with no instance failed leaves a world on which the policy
/// settles.
pub fn free_runs_settle()
    ensures { FreeRunsSettle }
{
    live_posts_hold();
    reruns_are_kept();
}
