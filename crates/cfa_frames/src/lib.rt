//! What a run has still to do, as a stack of frames: its moves and steps, and what holds of them.
#![tactic(auto)]

mod laws;
mod steps;

pub use laws::{
    calls_never_lack_depth, frames_stay_nested, histories_only_grow, moves_are_quiet,
    moves_keep_what_is_left, moves_lower_the_weight, moves_make_the_run,
};
pub use steps::{
    each_run_has_its_own_steps, steps_are_whole, steps_end_with_an_actuation,
    steps_keep_what_is_left, steps_make_the_run,
};
