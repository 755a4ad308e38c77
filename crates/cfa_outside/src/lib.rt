//! The outside of a run: the world of a host, the site through which it is seen and changed, where policies are read
//! from, where lines are put and what builds patterns, each with an object in memory.
#![tactic(auto)]

mod errors;
mod memory_inputs;
mod memory_sink;
mod memory_site;
mod nodes;
mod paths;
mod regex_patterns;
mod sinks;
mod sites;
mod sources;
mod turns;
mod worlds;

pub use cfa_base::Patterns;
pub use errors::{NodeErr, OutsideErr};
pub use memory_inputs::MemoryInputs;
pub use memory_sink::MemorySink;
pub use memory_site::MemorySite;
pub use nodes::{Nodes, root_perms};
pub use paths::{Path, PathErr};
pub use regex_patterns::RegexPatterns;
pub use sinks::Sink;
pub use sites::{Call, Change, Entry, Look, Site, keeps_parents};
pub use sources::Inputs;
pub use worlds::{Node, Perms, ServiceRow, World};
