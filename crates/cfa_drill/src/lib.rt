//! Several agents of one policy on one host, moved in any order.
#![tactic(auto)]

mod laws;

pub use laws::{
    accepted_agents_settle, free_agents_settle, steps_are_interleaved, turns_have_their_marks,
};
