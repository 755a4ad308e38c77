// Laws over the definitions of a call.
ghost use Rattle.cfa_main.specs.Calls.{DoesOneThing, TakenIsNotRefused};
ghost use Rattle.cfa_main.specs.Stages.{OneSetting};

use cfa_history::rows_are_one;
use cfa_journal::one_journal;
use cfa_sources::{a_file_has_one_answer, a_policy_has_one_answer};

/// A policy or a journal that is taken isn't refused.
pub fn taken_requests_are_not_refused()
    ensures { TakenIsNotRefused }
{
    one_journal();
    rows_are_one();
    a_file_has_one_answer();
    a_policy_has_one_answer();
}

/// A policy is run in one setting: by its words and moment and the texts of its inputs.
pub fn a_policy_is_run_in_one_setting()
    ensures { OneSetting }
{
    a_policy_has_one_answer();
}

/// What a call does is one thing alone: by its words and moment, the texts of its inputs and the site's world.
pub fn a_call_does_one_thing()
    ensures { DoesOneThing }
{
    one_journal();
    rows_are_one();
    a_file_has_one_answer();
    a_policy_has_one_answer();
}
