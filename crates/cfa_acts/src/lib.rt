//! What a promise asks of a host, act by act: what holds where an act is kept, what it needs where it isn't, which
//! acts undo what others ask for, and which are the same.
#![tactic(auto)]

mod acts;
mod deciding;
mod disturbing;
mod edits;
mod files;
mod laws;
mod permissions;
mod reasons;
mod same;
mod seeing;
mod services;

pub use acts::{Act, Decision, Reason};
pub use deciding::decide;
pub use disturbing::disturbs;
pub use laws::{
    has_script, kept_where_post_holds, needed_change_fits, needed_change_keeps_post,
    needed_change_makes_post, settles_as_lines,
};
pub use same::are_same_acts;
