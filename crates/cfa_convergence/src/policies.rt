// What is known of a policy that was checked.
ghost use Rattle.cfa_schema.specs.Seen.{tree_of};
ghost use Rattle.cfa_convergence.specs.Policies.{HasKnown};

use cfa_schema::{
    Checked, lines_are_counts, named_blocks_are_there, names_are_words, served_bundles_stand,
    served_names_are_words,
};

/// The names of the bundles of a policy that was checked are plain, and so is the name of each bundle that one of its promises calls.
pub fn checked_policies_are_known(checked: &Checked)
    ensures { HasKnown (tree_of checked.now) }
{
    let _ = checked.policy();
    named_blocks_are_there();
    names_are_words();
    lines_are_counts();
    served_bundles_stand();
    served_names_are_words();
}
