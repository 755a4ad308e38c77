// What is seen of a host whose folder is held.
use crate::errors::{HostErr, Why, refused};
use crate::files::read_found;
use crate::held::Held;
use crate::looking::{Spot, count_nodes, has_nodes};
use cfa_base::{Bytes, MOST_FILE_BYTES};
use cfa_outside::{Look, Path, Perms, root_perms};
use std::alloc::Global;
use std::fs::OpenFile;
use std::io::Write;
use std::rt::Files;

impl<F: Write + OpenFile> Held<F> {
    pub fn look<R: Files<File = F>>(
        &mut self,
        rt: &R,
        alloc: Global,
        path: &Path,
    ) -> Result<Look, HostErr> {
        let real = self.layout.real(alloc, path.text().as_str())?;
        match self.spot(rt, real.as_str())? {
            Spot::Missing(_) => Ok(Look::Nothing),
            Spot::Blocked => Ok(Look::Blocked),
            Spot::File(found) => Ok(Look::File(found.size)),
            Spot::Dir => Ok(Look::Dir(!has_nodes(rt, real.as_str())?)),
        }
    }

    pub fn read<R: Files<File = F>>(
        &mut self,
        rt: &R,
        alloc: Global,
        path: &Path,
    ) -> Result<Bytes, HostErr> {
        let real = self.layout.real(alloc, path.text().as_str())?;
        let found = self.file_at(rt, real.as_str())?;
        read_found(rt, alloc, real.as_str(), found, MOST_FILE_BYTES as u64)
    }

    pub fn perms<R: Files<File = F>>(
        &mut self,
        rt: &R,
        alloc: Global,
        path: &Path,
    ) -> Result<Perms, HostErr> {
        let text = path.text().as_str();
        let real = self.layout.real(alloc, text)?;
        let mode = match self.spot(rt, real.as_str())? {
            Spot::File(_) => 0o600,
            Spot::Dir => 0o700,
            Spot::Missing(_) | Spot::Blocked => return Err(refused(Why::Misfit)),
        };
        match self.tables.perms.get(text) {
            Some(row) => Ok(row.1.copy(alloc)?),
            None => Ok(root_perms(alloc, mode)?),
        }
    }

    pub fn children<R: Files<File = F>>(
        &mut self,
        rt: &R,
        alloc: Global,
        path: &Path,
    ) -> Result<u64, HostErr> {
        let real = self.layout.real(alloc, path.text().as_str())?;
        match self.spot(rt, real.as_str())? {
            Spot::Dir => count_nodes(rt, real.as_str()),
            Spot::File(_) | Spot::Missing(_) | Spot::Blocked => Err(refused(Why::Misfit)),
        }
    }
}
