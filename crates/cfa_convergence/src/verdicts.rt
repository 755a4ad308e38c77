// What an accepted policy does.
ghost use Rattle.cfa_schema.specs.Seen.{tree_of};
ghost use Rattle.cfa_convergence.specs.Verdicts.{AcceptedAreFree, AcceptedRunsSettle};

use crate::keys::keys_tell_works;
use crate::policies::checked_policies_are_known;
use crate::settling::free_runs_settle;
use cfa_laws::{
    instances_are_keyed, instances_are_same, keys_are_lines, raises_have_first,
    raises_lie_together, unsettled_are_maybe,
};
use cfa_schema::Checked;

/// Where the analysis of a policy answers that it is accepted, its walks are free of conflicts.
pub fn accepted_are_free(checked: &Checked)
    ensures { AcceptedAreFree (tree_of checked.now) }
{
    checked_policies_are_known(checked);
    keys_tell_works();
    raises_lie_together();
    raises_have_first();
    instances_are_same();
    unsettled_are_maybe();
    instances_are_keyed();
    keys_are_lines();
}

/// Where a policy is accepted, a run without locks that ends with no instance failed leaves a world on which the policy settles.
pub fn accepted_runs_settle(checked: &Checked)
    ensures { AcceptedRunsSettle (tree_of checked.now) }
{
    checked_policies_are_known(checked);
    accepted_are_free(checked);
    free_runs_settle();
}
