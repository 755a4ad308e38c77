// What stands in a world.
ghost use Rattle.std.specs.Prelude.{◌≡◌, [], IfOk};
ghost use Rattle.std.specs.FinMap as map;

use crate::Nodes;
use cfa_base::{Bytes, Name, NoMemory, TextMap};
use std::alloc::Global;

/// The mode of a node, as the lower twelve bits of `st_mode` in POSIX, and the names of its owner and group.
#[derive(Debug, Drop)]
pub struct Perms {
    pub mode: u16,
    pub owner: Name,
    pub group: Name,
}

impl Perms {
    /// Equal permissions of their own.
    pub fn copy(&self, alloc: Global) -> Result<Perms, NoMemory>
        ensures { IfOk result (λ p. p ≡ self.now) }
    {
        Ok(Perms {
            mode: self.mode,
            owner: self.owner.copy(alloc)?,
            group: self.group.copy(alloc)?,
        })
    }
}

/// What stands at a path: a file with its bytes, or a directory.
#[derive(Debug, Drop)]
pub enum Node {
    File(Bytes, Perms),
    Dir(Perms),
}

/// What a service is told of: whether it runs, whether it is enabled, and how often it was restarted.
#[derive(Clone, Copy, Debug, PartialEq, Eq)]
pub struct ServiceRow {
    pub running: bool,
    pub enabled: bool,
    pub restarts: u32,
}

/// All of a host that a run may see or change: its nodes, the row of each service by name, the moment of each lock by
/// its key in seconds since 1970, and the journal.
#[derive(Debug, Drop)]
pub struct World {
    pub nodes: Nodes,
    pub services: TextMap<ServiceRow>,
    pub locks: TextMap<u64>,
    pub journal: Bytes,
}

impl World {
    /// A world with nothing in it, without taking memory.
    pub fn new(alloc: Global) -> World
        ensures nodes { result.nodes ≡ map.empty }
        ensures services { result.services ≡ map.empty }
        ensures locks { result.locks ≡ map.empty }
        ensures journal { result.journal ≡ [] }
    {
        World {
            nodes: Nodes::new(alloc),
            services: TextMap::new(alloc),
            locks: TextMap::new(alloc),
            journal: Bytes::from_vec(Vec::new(alloc)),
        }
    }
}
