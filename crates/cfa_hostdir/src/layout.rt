// What stands where in the folder of a host.
use crate::errors::Part;
use std::alloc::{AllocError, Global};

/// A table of a host.
#[derive(Clone, Copy)]
pub enum Table {
    Perms,
    Services,
    Locks,
}

impl Table {
    /// What of the folder the table is.
    pub fn part(self) -> Part {
        match self {
            Table::Perms => Part::Perms,
            Table::Services => Part::Services,
            Table::Locks => Part::Locks,
        }
    }
}

/// The paths of what stands in the folder of a host.
#[derive(Drop)]
pub struct Layout {
    /// The folder itself.
    pub root: String,
    /// The nodes of the host.
    pub tree: String,
    /// Where what comes by one rename is built.
    pub stage: String,
    pub journal: String,
    /// The rows that changed since the tables were written.
    pub changes: String,
    perms: String,
    services: String,
    locks: String,
}

fn path_in(alloc: Global, root: &str, name: &str) -> Result<String, AllocError> {
    let mut path = String::from_str(alloc, root)?;
    path.push('/')?;
    path.push_str(name)?;
    Ok(path)
}

impl Layout {
    pub fn new(alloc: Global, root: &str) -> Result<Layout, AllocError> {
        Ok(Layout {
            root: String::from_str(alloc, root)?,
            tree: path_in(alloc, root, "tree")?,
            stage: path_in(alloc, root, "new")?,
            journal: path_in(alloc, root, "journal")?,
            changes: path_in(alloc, root, "changes")?,
            perms: path_in(alloc, root, "perms.tab")?,
            services: path_in(alloc, root, "services.tab")?,
            locks: path_in(alloc, root, "locks.tab")?,
        })
    }

    pub fn table(&self, table: Table) -> &str {
        match table {
            Table::Perms => self.perms.as_str(),
            Table::Services => self.services.as_str(),
            Table::Locks => self.locks.as_str(),
        }
    }

    /// The real path of a path of the host.
    pub fn real(&self, alloc: Global, path: &str) -> Result<String, AllocError> {
        let mut real = String::from_str(alloc, self.tree.as_str())?;
        real.push_str(path)?;
        Ok(real)
    }
}
