// A host whose folder is held: what it answers, and how it writes its tables.
use crate::errors::{HostErr, Part, Why, at, refused};
use crate::growing::{Growing, When};
use crate::kept_rows::HostTables;
use crate::layout::{Layout, Table};
use crate::looking::{Found, Kind, Spot, folder_of, kind_at, walk};
use crate::putting::{Lasting, Leaf, put};
use crate::settled::Settled;
use crate::walked::Walked;
use cfa_base::Bytes;
use std::alloc::Global;
use std::fs::OpenFile;
use std::io::Write;
use std::rt::Files;

// The tables are written once the changed rows have more bytes than this, and than so many for each
// row of the tables.
const LEAST_CHANGES: u64 = 1 << 20;

const CHANGES_PER_ROW: u64 = 256;

/// Which tables have rows that changed since they were written.
#[derive(Clone, Copy)]
pub struct Changed {
    perms: bool,
    services: bool,
    locks: bool,
}

impl Changed {
    pub const NONE: Changed = Changed {
        perms: false,
        services: false,
        locks: false,
    };

    pub const ALL: Changed = Changed {
        perms: true,
        services: true,
        locks: true,
    };

    fn set(&mut self, table: Table) {
        match table {
            Table::Perms => self.perms = true,
            Table::Services => self.services = true,
            Table::Locks => self.locks = true,
        }
    }

    fn has(self, table: Table) -> bool {
        match table {
            Table::Perms => self.perms,
            Table::Services => self.services,
            Table::Locks => self.locks,
        }
    }
}

// The folder in which the folder of a host stands.
fn above(root: &str) -> &str {
    match folder_of(root) {
        Ok("") => "/",
        Ok(folder) => folder,
        Err(_) => ".",
    }
}

// When a record is to last. One that tells that a repair was done is synced with what follows it:
// where it is lost, the journal tells that the repair was begun, and what it did is there. One that
// tells that a repair is begun is synced before its first change is made, or with the record of the
// file that this puts: where it is lost, nothing was changed behind it.
fn when_of(record: &[u8]) -> When {
    if record.starts_with(b"done ") || record.starts_with(b"open ") {
        When::Later
    } else {
        When::AtOnce
    }
}

/// What an agent before left in the folder.
#[derive(Clone, Copy)]
pub struct Left {
    /// The tables of which changed rows stand in `changes`.
    pub changed: Changed,
    /// The journal tells of a repair that was begun, and not of its end.
    pub is_open: bool,
}

/// A host whose folder is held.
#[derive(Drop)]
pub struct Held<F> {
    pub layout: Layout,
    // The open folder: it is held as long as this is.
    _folder: F,
    pub tables: HostTables,
    changed: Changed,
    changes: Growing<F>,
    journal: Growing<F>,
    // The length of the changed rows at which the tables are written.
    most_changes: u64,
    // False once a change of the tree is seen that may not last.
    sound: bool,
    // An agent before was stopped in a repair.
    is_open: bool,
    // What agents before left is on the disk.
    is_ready: bool,
    settled: Settled,
    walked: Walked,
}

impl<F: Write + OpenFile> Held<F> {
    pub fn new(
        alloc: Global,
        layout: Layout,
        folder: F,
        tables: HostTables,
        left: Left,
        changes: Growing<F>,
        journal: Growing<F>,
    ) -> Held<F> {
        Held {
            layout,
            _folder: folder,
            tables,
            changed: left.changed,
            changes,
            journal,
            most_changes: LEAST_CHANGES,
            sound: true,
            is_open: left.is_open,
            is_ready: false,
            settled: Settled::new(alloc),
            walked: Walked::new(alloc),
        }
    }

    /// Whether it is known what stands on the disk. Where it isn't, no change is made any more.
    pub fn is_sound(&self) -> bool {
        let files = self.changes.is_sound() && self.journal.is_sound();
        self.sound && files && self.settled.is_sound()
    }

    /// A change was made in a folder. Where it may not last, it is told as refused.
    pub fn keep(&mut self, alloc: Global, folder: &str, lasting: Lasting) -> Result<(), HostErr> {
        match lasting {
            Lasting::Durable => {
                // Where there is no memory for it, the folder is synced once more.
                let _ = self.settled.add(alloc, folder);
                Ok(())
            }
            Lasting::Unsure(why) => {
                self.sound = false;
                Err(refused(why))
            }
        }
    }

    // Brings what agents before left to the disk: the folder, the journal and the changed rows, and
    // all folders of the tree where one was stopped in a repair. The changed rows are written into
    // the tables before the journal grows, so that the row of a lock that doesn't count never comes
    // to count.
    fn bring_left<R: Files<File = F>>(&mut self, rt: &R, alloc: Global) -> Result<(), HostErr> {
        let root = self.layout.root.as_str();
        at(Part::Folder, self.settled.settle(rt, alloc, above(root)))?;
        at(Part::Folder, self.settled.settle(rt, alloc, root))?;
        at(Part::Journal, self.journal.make_ready(rt, root))?;
        at(Part::Changes, self.changes.make_ready(rt, root))?;
        let tree = self.layout.tree.as_str();
        if self.is_open && !matches!(kind_at(rt, tree)?, Kind::Missing) {
            at(Part::Tree, self.settled.settle_beneath(rt, alloc, tree))?;
        }
        self.fold(rt, alloc)
    }

    /// Makes the host ready to be changed: what agents before left is on the disk before anything
    /// is built on it.
    pub fn make_ready<R: Files<File = F>>(&mut self, rt: &R, alloc: Global) -> Result<(), HostErr> {
        if !self.is_sound() {
            return Err(refused(Why::Unsure));
        }
        if !self.is_ready {
            self.bring_left(rt, alloc)?;
            self.is_ready = true;
        }
        Ok(())
    }

    /// Brings the folders above a folder of the tree to the disk.
    pub fn settle_above<R: Files<File = F>>(
        &mut self,
        rt: &R,
        alloc: Global,
        folder: &str,
    ) -> Result<(), HostErr> {
        let from = self.layout.root.len();
        self.settled.settle_above(rt, alloc, folder, from)
    }

    /// Brings the row of the last lock to the disk, where that isn't done. It counts for nothing as
    /// long as the record before it isn't there.
    pub fn settle_lock(&mut self) -> Result<(), HostErr> {
        at(Part::Changes, self.changes.settle())
    }

    /// Brings the last records, and the row of a lock that waits with them, to the disk, where that
    /// isn't done.
    pub fn settle(&mut self) -> Result<(), HostErr> {
        self.settle_lock()?;
        at(Part::Journal, self.journal.settle())
    }

    /// The length of the journal, where its last record waits for a sync: what is built on that
    /// record can wait with it.
    pub fn waiting_at(&self) -> Option<u64> {
        if self.journal.is_pending() && !self.changes.is_pending() {
            Some(self.journal.len())
        } else {
            None
        }
    }

    /// What stands at a real path of the host. Where it is in the directory in which a file was
    /// found last, it is walked to from there.
    pub fn spot<R: Files<File = F>>(&mut self, rt: &R, real: &str) -> Result<Spot, HostErr> {
        let from = self.walked.start_of(real, self.layout.tree.len());
        let spot = walk(rt, real, from)?;
        if let Spot::File(found) = spot {
            self.walked.keep(real, found)?;
        }
        Ok(spot)
    }

    /// Directories may be gone: each path is walked to from the root again.
    pub fn forget_walked(&mut self) {
        self.walked.forget();
    }

    /// Another file may stand where one was found.
    pub fn forget_file(&mut self) {
        self.walked.forget_file();
    }

    /// The file at a real path, which is looked at unless it is the one that was found last.
    pub fn file_at<R: Files<File = F>>(&mut self, rt: &R, real: &str) -> Result<Found, HostErr> {
        if let Some(found) = self.walked.file_at(real) {
            return Ok(found);
        }
        match self.spot(rt, real)? {
            Spot::File(found) => Ok(found),
            Spot::Missing(_) | Spot::Blocked | Spot::Dir => Err(refused(Why::Misfit)),
        }
    }

    /// Adds the line of a changed row, or leaves the lines as they were.
    pub fn note<R: Files<File = F>>(
        &mut self,
        rt: &R,
        table: Table,
        line: &Bytes,
        when: When,
    ) -> Result<(), HostErr> {
        self.changed.set(table);
        let root = self.layout.root.as_str();
        let noted = self.changes.append(rt, root, line.as_slice(), when);
        at(Part::Changes, noted)
    }

    /// Adds bytes at the end of the journal, or leaves it as it was.
    pub fn append<R: Files<File = F>>(&mut self, rt: &R, bytes: &Bytes) -> Result<(), HostErr> {
        let record = bytes.as_slice();
        let root = self.layout.root.as_str();
        let added = self.journal.append(rt, root, record, when_of(record));
        at(Part::Journal, added)
    }

    fn write_table<R: Files<File = F>>(
        &self,
        rt: &R,
        alloc: Global,
        table: Table,
    ) -> Result<(), HostErr> {
        let text = self.tables.text_of(alloc, table)?;
        let path = self.layout.table(table);
        let stage = self.layout.stage.as_str();
        let leaf = Leaf::File(text.as_slice());
        match put(rt, alloc, stage, path, path.len(), leaf)? {
            Lasting::Durable => Ok(()),
            Lasting::Unsure(why) => Err(refused(why)),
        }
    }

    // Writes each table that has changed rows, and then takes these rows' lines away. Where that is
    // cut off at any place, the lines still tell the rows.
    fn fold<R: Files<File = F>>(&mut self, rt: &R, alloc: Global) -> Result<(), HostErr> {
        if self.changes.len() == 0 {
            return Ok(());
        }
        for table in [Table::Perms, Table::Services, Table::Locks] {
            if self.changed.has(table) {
                at(table.part(), self.write_table(rt, alloc, table))?;
            }
        }
        let root = self.layout.root.as_str();
        at(Part::Changes, self.changes.clear(rt, root))?;
        self.changed = Changed::NONE;
        let by_rows = self.tables.count().saturating_mul(CHANGES_PER_ROW);
        self.most_changes = by_rows.max(LEAST_CHANGES);
        Ok(())
    }

    /// Brings all that was done to the disk, and writes the tables where rows changed since they
    /// were written.
    pub fn write_tables<R: Files<File = F>>(
        &mut self,
        rt: &R,
        alloc: Global,
    ) -> Result<(), HostErr> {
        self.settle()?;
        if self.changes.len() == 0 {
            return Ok(());
        }
        self.make_ready(rt, alloc)?;
        self.fold(rt, alloc)
    }

    /// Writes the tables where the changed rows have become long, so that each row is written a few
    /// times at most.
    pub fn keep_short<R: Files<File = F>>(&mut self, rt: &R, alloc: Global) {
        if self.is_sound() && self.changes.len() > self.most_changes {
            let _ = self.write_tables(rt, alloc);
        }
    }
}
