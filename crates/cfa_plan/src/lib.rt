//! Laws of an overlay, which shows a host with changes that it keeps to itself: what a look at it shows, and that each change of
//! what it keeps is that change of what shows.
#![tactic(auto)]

mod laws;

pub use laws::{
    directories_are_empty_without_children, overlays_begin_as_hosts, overlays_keep_changes,
    overlays_show_looks,
};
