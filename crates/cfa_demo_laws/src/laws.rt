// Laws over the definition of the demo policy.
ghost use Rattle.cfa_demo_laws.specs.Accepted.{DemoIsAccepted};
ghost use Rattle.cfa_demo_laws.specs.Laws.{DemoIsText, DemoReads, DemoIsValid, DemoIsValidAs, DemoIsOneTree, DemoIsNeverRefused};
ghost use Rattle.cfa_demo_laws.specs.Resolved.{DemoCountsOne, DemoNeverDisturbs};
ghost use Rattle.cfa_demo_laws.specs.Runs.{DemoRunsFit, DemoWalksAreSure};

use cfa_sources::a_policy_has_one_answer;

/// The text of a demo is read to its tree, and nothing of it is refused.
pub fn demos_are_read()
    ensures is_text { DemoIsText }
    ensures reads { DemoReads }
{}

/// The tree of a demo is a valid policy.
pub fn demos_are_valid()
    ensures { DemoIsValid }
{}

/// Under its name a demo is taken as the policy of its tree, of no other tree, and is never refused.
pub fn demos_are_taken()
    ensures valid_as { DemoIsValidAs }
    ensures one_tree { DemoIsOneTree }
    ensures never_refused { DemoIsNeverRefused }
{
    a_policy_has_one_answer();
}

/// Each promise of a demo counts one visit, and no act of its instances disturbs an act of an instance of the demo.
pub fn demos_are_undisturbed()
    ensures one_visit { DemoCountsOne }
    ensures undisturbed { DemoNeverDisturbs }
{}

/// No run of a demo counts more visits than it may, no promise of it is unsettled, and each visit surely comes.
pub fn demos_are_walked()
    ensures fits { DemoRunsFit }
    ensures sure { DemoWalksAreSure }
{}

/// The analysis of a demo finds no conflict.
pub fn demos_are_accepted()
    ensures { DemoIsAccepted }
{}
