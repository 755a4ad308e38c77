// Changes of a host. All texts are made before the first effect, and a row is put in memory before
// its line is written and taken back where that fails. So an error leaves the host as it was.
use crate::errors::{HostErr, Part, Why, at, refused};
use crate::growing::When;
use crate::held::Held;
use crate::kept_rows::KeptRows;
use crate::layout::Table;
use crate::looking::{Spot, ends_component, folder_of, part_of};
use crate::putting::{Leaf, put, remove};
use cfa_base::{Bytes, Key, Name};
use cfa_outside::{Change, Path, Perms, ServiceRow};
use cfa_tables::{RowChange, change_line};
use std::alloc::Global;
use std::fs::OpenFile;
use std::io::Write;
use std::rt::Files;

// The line of a changed row that is made for it alone, and let go by name.
fn line_of(alloc: Global, change: RowChange) -> Result<Bytes, HostErr> {
    let line = change_line(alloc, &change);
    drop(change);
    Ok(line?)
}

// The row of a node's permissions.
fn perms_row(alloc: Global, path: &Path, perms: &Perms) -> Result<(Path, Perms), HostErr> {
    Ok((path.copy(alloc)?, perms.copy(alloc)?))
}

fn perms_line(alloc: Global, path: &Path, perms: &Perms) -> Result<Bytes, HostErr> {
    let (path, perms) = perms_row(alloc, path, perms)?;
    line_of(alloc, RowChange::Permissions(path, perms))
}

fn gone_line(alloc: Global, path: &Path) -> Result<Bytes, HostErr> {
    line_of(alloc, RowChange::Gone(path.copy(alloc)?))
}

fn service_line(alloc: Global, name: &Name, row: ServiceRow) -> Result<Bytes, HostErr> {
    line_of(alloc, RowChange::Service(name.copy(alloc)?, row))
}

fn lock_line(alloc: Global, key: &Key, moment: u64) -> Result<Bytes, HostErr> {
    line_of(alloc, RowChange::Lock(key.copy(), moment))
}

// The line of a lock that is set behind so many bytes of the journal.
fn behind_line(alloc: Global, journal: u64, key: &Key, moment: u64) -> Result<Bytes, HostErr> {
    line_of(alloc, RowChange::LockBehind(journal, key.copy(), moment))
}

// A row that was put stays where its line was written, and gives way to what it replaced where it
// wasn't.
fn keep_if<V: Drop>(
    noted: Result<(), HostErr>,
    rows: &mut KeptRows<V>,
    key: &str,
    old: Option<V>,
) -> Result<(), HostErr> {
    if noted.is_err() {
        rows.restore(key, old);
    }
    noted
}

impl<F: Write + OpenFile> Held<F> {
    // Takes away the row of a node that isn't there.
    fn forget_row<R: Files<File = F>>(
        &mut self,
        rt: &R,
        alloc: Global,
        path: &str,
    ) -> Result<(), HostErr> {
        let line = match self.tables.perms.get(path) {
            Some(row) => gone_line(alloc, &row.0)?,
            None => return Ok(()),
        };
        self.note(rt, Table::Perms, &line, When::AtOnce)?;
        self.tables.perms.remove(path);
        Ok(())
    }

    // Takes away the rows of a path and of what stands above it from the part of its real path that
    // ends at `end` on. Nothing stands there, and what comes there now is new.
    fn forget_rows<R: Files<File = F>>(
        &mut self,
        rt: &R,
        alloc: Global,
        path: &str,
        end: usize,
    ) -> Result<(), HostErr> {
        let first = end.saturating_sub(self.layout.tree.len()).max(1);
        for place in first..path.len().saturating_add(1) {
            if ends_component(path, place) {
                let node = path.get(..place).ok_or(refused(Why::Misfit))?;
                self.forget_row(rt, alloc, node)?;
            }
        }
        Ok(())
    }

    fn put_leaf<R: Files<File = F>>(
        &mut self,
        rt: &R,
        alloc: Global,
        path: &Path,
        leaf: Leaf<'_>,
    ) -> Result<(), HostErr> {
        let text = path.text().as_str();
        let real = self.layout.real(alloc, text)?;
        let spot = self.spot(rt, real.as_str())?;
        let end = match (spot, leaf) {
            (Spot::Missing(end), _) => end,
            (Spot::File(_), Leaf::File(_)) => real.len(),
            _ => return Err(refused(Why::Misfit)),
        };
        let folder = folder_of(part_of(real.as_str(), end)?)?;
        self.settle_above(rt, alloc, folder)?;
        if let Spot::Missing(end) = spot {
            self.forget_rows(rt, alloc, text, end)?;
        }
        let stage = self.layout.stage.as_str();
        let lasting = put(rt, alloc, stage, real.as_str(), end, leaf)?;
        self.keep(alloc, folder, lasting)
    }

    fn remove_node<R: Files<File = F>>(
        &mut self,
        rt: &R,
        alloc: Global,
        path: &Path,
    ) -> Result<(), HostErr> {
        let text = path.text().as_str();
        let real = self.layout.real(alloc, text)?;
        let spot = self.spot(rt, real.as_str())?;
        if let Spot::Missing(_) | Spot::Blocked = spot {
            return Err(refused(Why::Misfit));
        }
        let folder = folder_of(real.as_str())?;
        self.settle_above(rt, alloc, folder)?;
        self.forget_walked();
        let lasting = remove(rt, real.as_str(), spot)?;
        self.keep(alloc, folder, lasting)?;
        // The row of a node that is gone counts for nothing, so the change is made also where the
        // row stays.
        let _ = self.forget_row(rt, alloc, text);
        Ok(())
    }

    // Refuses a path at which no node stands, and brings the name of one that does to the disk.
    fn find_node<R: Files<File = F>>(
        &mut self,
        rt: &R,
        alloc: Global,
        text: &str,
    ) -> Result<(), HostErr> {
        let real = self.layout.real(alloc, text)?;
        match self.spot(rt, real.as_str())? {
            Spot::File(_) | Spot::Dir => self.settle_above(rt, alloc, real.as_str()),
            Spot::Missing(_) | Spot::Blocked => Err(refused(Why::Misfit)),
        }
    }

    fn put_perms_row<R: Files<File = F>>(
        &mut self,
        rt: &R,
        alloc: Global,
        path: &Path,
        perms: &Perms,
        line: &Bytes,
    ) -> Result<(), HostErr> {
        let text = path.text().as_str();
        let row = perms_row(alloc, path, perms)?;
        let old = self.tables.perms.put_at(alloc, text, row)?;
        let noted = self.note(rt, Table::Perms, line, When::AtOnce);
        keep_if(noted, &mut self.tables.perms, text, old)
    }

    fn set_perms<R: Files<File = F>>(
        &mut self,
        rt: &R,
        alloc: Global,
        path: &Path,
        perms: &Perms,
    ) -> Result<(), HostErr> {
        self.find_node(rt, alloc, path.text().as_str())?;
        let line = perms_line(alloc, path, perms)?;
        self.put_perms_row(rt, alloc, path, perms, &line)
    }

    fn put_service<R: Files<File = F>>(
        &mut self,
        rt: &R,
        alloc: Global,
        name: &Name,
        row: ServiceRow,
    ) -> Result<(), HostErr> {
        let text = name.as_str();
        if !self.tables.services.has(text) {
            return at(Part::Services, Err(refused(Why::Misfit)));
        }
        let line = service_line(alloc, name, row)?;
        let kept = (name.copy(alloc)?, row);
        let old = self.tables.services.put_at(alloc, text, kept)?;
        let noted = self.note(rt, Table::Services, &line, When::AtOnce);
        keep_if(noted, &mut self.tables.services, text, old)
    }

    // Sets a lock. Where the record before it waits for its sync, the lock waits too, and its row
    // tells behind how many bytes of the journal it counts: the two stand in two files, and a disk
    // may write either first.
    fn put_lock<R: Files<File = F>>(
        &mut self,
        rt: &R,
        alloc: Global,
        key: &Key,
        moment: u64,
    ) -> Result<(), HostErr> {
        let text = key.text();
        let (line, when) = match self.waiting_at() {
            Some(journal) => (behind_line(alloc, journal, key, moment)?, When::Later),
            None => (lock_line(alloc, key, moment)?, When::AtOnce),
        };
        let row = (key.copy(), moment);
        let old = self.tables.locks.put_at(alloc, text, row)?;
        let noted = self.note(rt, Table::Locks, &line, when);
        keep_if(noted, &mut self.tables.locks, text, old)
    }

    // Brings what waits for a sync to the disk, where a change can't wait with it, or be synced
    // with it. So no node and no row of a table is changed before all records are there that were
    // written.
    fn settle_before(&mut self, change: &Change) -> Result<(), HostErr> {
        match change {
            Change::Append(_) => self.settle_lock(),
            Change::PutLock(_, _) => {
                if self.waiting_at().is_some() {
                    return Ok(());
                }
                self.settle()
            }
            Change::PutFile(_, _)
            | Change::PutDir(_)
            | Change::Remove(_)
            | Change::SetPerms(_, _)
            | Change::PutService(_, _) => self.settle(),
        }
    }

    /// Makes a change. It lasts when this returns, and was made in order. But a record that tells
    /// that a repair was done, the lock that is set behind it, and a record that tells that the
    /// next one is begun last when a change that is none of these returns, or `write_tables`.
    pub fn change<R: Files<File = F>>(
        &mut self,
        rt: &R,
        alloc: Global,
        change: &Change,
    ) -> Result<(), HostErr> {
        self.make_ready(rt, alloc)?;
        self.settle_before(change)?;
        let made = match change {
            Change::PutFile(path, bytes) => {
                self.put_leaf(rt, alloc, path, Leaf::File(bytes.as_slice()))
            }
            Change::PutDir(path) => self.put_leaf(rt, alloc, path, Leaf::Dir),
            Change::Remove(path) => self.remove_node(rt, alloc, path),
            Change::SetPerms(path, perms) => self.set_perms(rt, alloc, path, perms),
            Change::PutService(name, row) => self.put_service(rt, alloc, name, *row),
            Change::PutLock(key, moment) => self.put_lock(rt, alloc, key, *moment),
            Change::Append(bytes) => self.append(rt, bytes),
        };
        self.forget_file();
        made
    }
}
