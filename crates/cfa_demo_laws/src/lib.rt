//! Laws of the demo policy, whatever the number of its promises: what is read of its text, that it is valid and never refused, and
//! that it is accepted.
#![tactic(auto)]

mod laws;

pub use laws::{
    demos_are_accepted, demos_are_read, demos_are_taken, demos_are_undisturbed, demos_are_valid,
    demos_are_walked,
};
