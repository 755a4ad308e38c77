//! Convergence: where a policy is accepted, a run without locks that ends with no promise failed leaves a world on which a rerun
//! without locks changes nothing.
#![tactic(auto)]

mod actuations;
mod containment;
mod keys;
mod lasting;
mod policies;
mod reruns;
mod running;
mod runs;
mod settling;
mod sources;
mod verdicts;

pub use actuations::actuations_are_keyed;
pub use containment::unfailing_runs_are_contained;
pub use keys::keys_tell_works;
pub use lasting::{live_posts_hold, posts_last};
pub use policies::checked_policies_are_known;
pub use reruns::reruns_are_kept;
pub use running::run;
pub use runs::{runs_are_determined, runs_are_told};
pub use settling::free_runs_settle;
pub use sources::unlisted_are_settled;
pub use verdicts::{accepted_are_free, accepted_runs_settle};
