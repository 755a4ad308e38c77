// The real host as a site.
ghost use Rattle.std.specs.Prelude.{◌≡◌, None};

use crate::Exclusive;
use crate::errors::{HostErr, Refusal, Why, refusal_of, refused};
use crate::faults::{Fault, counted, fault_at};
use crate::held::Held;
use crate::opening::open_host;
use cfa_base::{Bytes, Key, Name};
use cfa_outside::{Call, Change, Look, OutsideErr, Path, Perms, ServiceRow, Site};
use std::alloc::Global;
use std::rt::Files;

// The path at which a change is made, where it has one.
fn path_of_change(change: &Change) -> &str {
    match change {
        Change::PutFile(path, _)
        | Change::PutDir(path)
        | Change::Remove(path)
        | Change::SetPerms(path, _) => path.text().as_str(),
        Change::PutService(_, _) | Change::PutLock(_, _) | Change::Append(_) => "",
    }
}

// The folder of a host, which is opened at the first call.
#[derive(Drop)]
struct Host<R: Files> {
    rt: R,
    root: Name,
    // Why a folder couldn't be opened, which refuses every call from then on.
    refusal: Option<Refusal>,
    held: Option<Held<R::File>>,
}

/// A host in a folder: its nodes in `tree`, its tables, its journal. It tells nothing of its
/// content. The folder is opened at the first call, made where it is missing, and held against
/// other agents from then on.
#[derive(Drop)]
pub struct HostSite<R: Files> {
    host: Host<R>,
    faults: u64,
    last: Option<Fault>,
}

impl<R: Files + Drop> HostSite<R> {
    /// The host in the folder at a path, without taking memory. Nothing is opened yet.
    pub fn new(rt: R, root: Name) -> HostSite<R> {
        HostSite {
            host: Host {
                rt,
                root,
                refusal: None,
                held: None,
            },
            faults: 0,
            last: None,
        }
    }

    /// What is known of the call that failed last, where one did: which call it was, at which path
    /// of the machine, and the system's word.
    pub fn last_fault(&self) -> Option<&Fault> {
        self.last.as_ref()
    }

    // Notes a call that was refused; `node` is its path, where it has one.
    fn note(&mut self, alloc: Global, call: Call, node: &str, refusal: Option<Refusal>)
        ensures { self.new.faults ≡ self.old.faults }
    {
        if let Some(refusal) = refusal {
            let root = self.host.root.as_str();
            self.last = Some(fault_at(alloc, root, call, node, refusal));
        }
    }

    /// Brings the last records, and a lock that waits with them, to the disk, and tells whether all
    /// that was changed is there. To be asked at the end of a command: a record that tells that a
    /// repair was done, or is begun, is synced with what follows it.
    pub fn settle(&mut self) -> bool {
        match &mut self.host.held {
            Some(held) => held.settle().is_ok(),
            None => true,
        }
    }

    /// Brings the last records to the disk, writes the tables where rows changed since they were
    /// written, and tells whether nothing is left to be written. Where it can't, the next agent at
    /// this folder reads the changed rows, and only a power cut may still take the last records
    /// away.
    pub fn write_tables(&mut self, alloc: Global) -> bool {
        match &mut self.host.held {
            Some(held) => held.write_tables(&self.host.rt, alloc).is_ok(),
            None => true,
        }
    }
}

impl<R: Files> Host<R>
where
    R::File: Exclusive,
{
    fn open(&mut self, alloc: Global) -> Result<(), HostErr> {
        if self.held.is_some() {
            return Ok(());
        }
        if let Some(refusal) = self.refusal {
            return Err(HostErr::Refused(refusal));
        }
        match open_host(&self.rt, alloc, self.root.as_str()) {
            Ok(held) => {
                self.held = Some(held);
                Ok(())
            }
            Err(error) => {
                if let HostErr::Refused(refusal) = error {
                    self.refusal = Some(refusal);
                }
                Err(error)
            }
        }
    }

    fn look(&mut self, alloc: Global, path: &Path) -> Result<Look, HostErr> {
        self.open(alloc)?;
        match &mut self.held {
            Some(held) => held.look(&self.rt, alloc, path),
            None => Err(refused(Why::Unsure)),
        }
    }

    fn read(&mut self, alloc: Global, path: &Path) -> Result<Bytes, HostErr> {
        self.open(alloc)?;
        match &mut self.held {
            Some(held) => held.read(&self.rt, alloc, path),
            None => Err(refused(Why::Unsure)),
        }
    }

    fn perms(&mut self, alloc: Global, path: &Path) -> Result<Perms, HostErr> {
        self.open(alloc)?;
        match &mut self.held {
            Some(held) => held.perms(&self.rt, alloc, path),
            None => Err(refused(Why::Unsure)),
        }
    }

    fn children(&mut self, alloc: Global, path: &Path) -> Result<u64, HostErr> {
        self.open(alloc)?;
        match &mut self.held {
            Some(held) => held.children(&self.rt, alloc, path),
            None => Err(refused(Why::Unsure)),
        }
    }

    fn service(&mut self, alloc: Global, name: &Name) -> Result<Option<ServiceRow>, HostErr> {
        self.open(alloc)?;
        match &self.held {
            Some(held) => match held.tables.services.get(name.as_str()) {
                Some(row) => Ok(Some(row.1)),
                None => Ok(None),
            },
            None => Err(refused(Why::Unsure)),
        }
    }

    fn lock(&mut self, alloc: Global, key: &Key) -> Result<Option<u64>, HostErr> {
        self.open(alloc)?;
        match &self.held {
            Some(held) => match held.tables.locks.get(key.text()) {
                Some(row) => Ok(Some(row.1)),
                None => Ok(None),
            },
            None => Err(refused(Why::Unsure)),
        }
    }

    fn change(&mut self, alloc: Global, change: &Change) -> Result<(), HostErr> {
        self.open(alloc)?;
        match &mut self.held {
            Some(held) => {
                held.change(&self.rt, alloc, change)?;
                held.keep_short(&self.rt, alloc);
                Ok(())
            }
            None => Err(refused(Why::Unsure)),
        }
    }
}

impl<R: Files + Drop> Site for HostSite<R>
where
    R::File: Exclusive,
{
    ghost shown = { λ h. record { told = None; faults = h.faults } };

    ghost parents = { λ h. tt };

    fn look(&mut self, alloc: Global, path: &Path) -> Result<Look, OutsideErr> {
        let answer = self.host.look(alloc, path);
        self.note(alloc, Call::Look, path.text().as_str(), refusal_of(&answer));
        counted(&mut self.faults, answer)
    }

    fn read(&mut self, alloc: Global, path: &Path) -> Result<Bytes, OutsideErr> {
        let answer = self.host.read(alloc, path);
        self.note(alloc, Call::Read, path.text().as_str(), refusal_of(&answer));
        counted(&mut self.faults, answer)
    }

    fn perms(&mut self, alloc: Global, path: &Path) -> Result<Perms, OutsideErr> {
        let answer = self.host.perms(alloc, path);
        self.note(
            alloc,
            Call::Perms,
            path.text().as_str(),
            refusal_of(&answer),
        );
        counted(&mut self.faults, answer)
    }

    fn children(&mut self, alloc: Global, path: &Path) -> Result<u64, OutsideErr> {
        let answer = self.host.children(alloc, path);
        self.note(
            alloc,
            Call::Children,
            path.text().as_str(),
            refusal_of(&answer),
        );
        counted(&mut self.faults, answer)
    }

    fn service(&mut self, alloc: Global, name: &Name) -> Result<Option<ServiceRow>, OutsideErr> {
        let answer = self.host.service(alloc, name);
        self.note(alloc, Call::Service, "", refusal_of(&answer));
        counted(&mut self.faults, answer)
    }

    fn lock(&mut self, alloc: Global, key: &Key) -> Result<Option<u64>, OutsideErr> {
        let answer = self.host.lock(alloc, key);
        self.note(alloc, Call::Lock, "", refusal_of(&answer));
        counted(&mut self.faults, answer)
    }

    fn change(&mut self, alloc: Global, change: &Change) -> Result<(), OutsideErr> {
        let answer = self.host.change(alloc, change);
        self.note(
            alloc,
            Call::Change,
            path_of_change(change),
            refusal_of(&answer),
        );
        counted(&mut self.faults, answer)
    }
}
