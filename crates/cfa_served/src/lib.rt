//! What a policy serves: promises by their ids, bundles and bodies by their names, and what its control bodies say.
#![tactic(auto)]

mod control;
mod index;
mod inputs;
mod promise_ids;

pub use control::{
    agent_minutes, common_bundles, control_attributes, listed_names, sequence_names,
};
pub use index::{Index, Wanted};
pub use inputs::input_names;
pub use promise_ids::{find_promise, find_typed_promise, list_ids};
