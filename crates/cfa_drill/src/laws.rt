// What holds of several agents on one host, each the contract of a function that changes nothing.
ghost use Rattle.cfa_schema.specs.Seen.{tree_of};
ghost use Rattle.cfa_drill.specs.Marking.{TurnsHaveTheirMarks};
ghost use Rattle.cfa_drill.specs.Settling.{AcceptedAgentsSettle, FreeAgentsSettle};
ghost use Rattle.cfa_drill.specs.Traces.{StepsAreInterleaved};

use cfa_convergence::{
    accepted_are_free, actuations_are_keyed, checked_policies_are_known, posts_last,
    reruns_are_kept, runs_are_determined, runs_are_told, unfailing_runs_are_contained,
};
use cfa_frames::{
    histories_only_grow, moves_keep_what_is_left, steps_are_whole, steps_keep_what_is_left,
    steps_make_the_run,
};
use cfa_schema::Checked;

/// Agents that take turns make one trace of actuations, and each that has ended has made a run.
pub fn steps_are_interleaved()
    ensures { StepsAreInterleaved }
{
    steps_are_whole();
    steps_keep_what_is_left();
    steps_make_the_run();
    moves_keep_what_is_left();
    histories_only_grow();
}

/// Where a policy is free of conflicts, agents of it, moved in any order, all ended and none failed, leave a world on which it settles.
pub fn free_agents_settle()
    ensures { FreeAgentsSettle }
{
    steps_are_interleaved();
    runs_are_told();
    runs_are_determined();
    unfailing_runs_are_contained();
    actuations_are_keyed();
    posts_last();
    reruns_are_kept();
}

/// Where a policy is accepted, agents of it, moved in any order, all ended and none failed, leave a world on which it settles.
pub fn accepted_agents_settle(checked: &Checked)
    ensures { AcceptedAgentsSettle (tree_of checked.now) }
{
    checked_policies_are_known(checked);
    accepted_are_free(checked);
    free_agents_settle();
}

/// The marks of a turn hang on what its own step added, not on what other turns did.
pub fn turns_have_their_marks()
    ensures { TurnsHaveTheirMarks }
{}
