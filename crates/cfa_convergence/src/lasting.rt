// What actuations leave behind.
ghost use Rattle.cfa_convergence.specs.Lasting.{PostsLast};
ghost use Rattle.cfa_convergence.specs.Settling.{LivePostsHold};

use crate::containment::unfailing_runs_are_contained;
use crate::keys::keys_tell_works;
use crate::runs::{runs_are_determined, runs_are_told};
use cfa_acts::{
    kept_where_post_holds, needed_change_fits, needed_change_keeps_post, needed_change_makes_post,
};
use cfa_laws::instances_are_keyed;
use cfa_outside::keeps_parents;

/// Where no live instance is in conflict, the posts of each that every agent has actuated hold.
pub fn posts_last()
    ensures { PostsLast }
{
    keys_tell_works();
    kept_where_post_holds();
    needed_change_fits();
    needed_change_makes_post();
    needed_change_keeps_post();
    keeps_parents();
}

/// Where a policy is free of conflicts, a run without locks that ends with no instance failed has actuated each live instance, and
/// the posts of its acts hold of the world that is left.
pub fn live_posts_hold()
    ensures { LivePostsHold }
{
    runs_are_told();
    runs_are_determined();
    unfailing_runs_are_contained();
    posts_last();
    instances_are_keyed();
}
