// A site that keeps what was last looked at before each promise that failed, and the locks that were found.
ghost use Rattle.std.specs.Prelude.{◌≡◌};

use cfa_base::{Bytes, Key, Name};
use cfa_outside::{Change, Look, OutsideErr, Path, Perms, ServiceRow, Site};
use std::alloc::Global;

// The most promises of which is kept what they were about.
const MOST_FAILURES: usize = 1000;

// The most locks that are kept of instances that were skipped.
const MOST_SKIPPED: usize = 1000;

/// What was looked at.
#[derive(Drop)]
pub enum Sight {
    /// A path, and what stood there.
    Path(Name, Look),
    /// A service, and whether it has a row.
    Service(Name, bool),
}

/// What was last looked at before each promise that failed, in their order, and the locks that were found and not set again.
#[derive(Drop)]
pub struct Sights {
    alloc: Global,
    last: Option<Sight>,
    failures: Vec<Option<Sight>>,
    // The lock that was found last, until it is set.
    found: Option<Key>,
    skipped: Vec<Key>,
}

// Whether the record of a journal tells a failure.
fn tells_failure(record: &[u8]) -> bool {
    let Ok(text) = str::from_utf8(record) else {
        return false;
    };
    text.starts_with("fail ") || text.starts_with("done ") && text.contains(" failed ")
}

impl Sights {
    fn new(alloc: Global) -> Sights {
        Sights {
            alloc,
            last: None,
            failures: Vec::new(alloc),
            found: None,
            skipped: Vec::new(alloc),
        }
    }

    /// What the failed promise of a number, from 0, was about.
    pub fn get(&self, number: usize) -> Option<&Sight> {
        match self.failures.get(number) {
            Some(sight) => sight.as_ref(),
            None => None,
        }
    }

    /// Whether locks were found that weren't set before the next one was looked at.
    pub fn has_skipped(&self) -> bool {
        self.found.is_some() || !self.skipped.is_empty()
    }

    /// Whether the lock with these digits is one of them.
    pub fn is_skipped(&self, digits: &[u8]) -> bool {
        if let Some(found) = &self.found {
            if found.digits() == digits {
                return true;
            }
        }
        for key in &self.skipped {
            if key.digits() == digits {
                return true;
            }
        }
        false
    }

    // What was found before, and wasn't set, was that of an instance that was skipped.
    fn note_lock(&mut self, key: &Key, is_found: bool) {
        if let Some(before) = self.found.take() {
            if self.skipped.len() < MOST_SKIPPED {
                let _ = self.skipped.push(before);
            }
        }
        if is_found {
            self.found = Some(key.copy());
        }
    }

    fn note_set(&mut self, key: &Key) {
        let Some(found) = self.found.take() else {
            return;
        };
        if found.digits() != key.digits() {
            self.found = Some(found);
        }
    }

    // Where there is no memory for it nothing is kept.
    fn note_path(&mut self, path: &Path, look: Look) {
        self.last = match path.text().copy(self.alloc) {
            Ok(path) => Some(Sight::Path(path, look)),
            Err(_) => None,
        };
    }

    fn note_service(&mut self, name: &Name, has_row: bool) {
        self.last = match name.copy(self.alloc) {
            Ok(name) => Some(Sight::Service(name, has_row)),
            Err(_) => None,
        };
    }

    fn note_record(&mut self, record: &[u8]) {
        if tells_failure(record) && self.failures.len() < MOST_FAILURES {
            let sight = self.last.take();
            let _ = self.failures.push(sight);
        }
    }

    fn note_change(&mut self, change: &Change) {
        match change {
            Change::Append(record) => self.note_record(record.as_slice()),
            Change::PutLock(key, _) => self.note_set(key),
            _ => {}
        }
    }
}

/// A site that keeps what was last looked at on another one before each promise that failed, and the locks that were found there.
#[derive(Drop)]
pub struct NotingSite<S> {
    inner: S,
    sights: Sights,
}

impl<S: Drop> NotingSite<S> {
    /// The same site, of which is kept what is seen from now on.
    pub fn new(alloc: Global, inner: S) -> NotingSite<S>
        ensures { result.inner ≡ inner }
    {
        NotingSite {
            inner,
            sights: Sights::new(alloc),
        }
    }

    pub fn sights(&self) -> &Sights {
        &self.sights
    }

    /// The site itself.
    pub fn inner(&mut self) -> &mut S {
        &mut self.inner
    }
}

impl<S: Site + Drop> Site for NotingSite<S> {
    ghost shown = { λ s. S.shown s.inner };

    ghost parents = { λ s. S.parents s.inner };

    fn look(&mut self, alloc: Global, path: &Path) -> Result<Look, OutsideErr> {
        let answer = self.inner.look(alloc, path);
        if let Ok(look) = answer {
            self.sights.note_path(path, look);
        }
        answer
    }

    fn read(&mut self, alloc: Global, path: &Path) -> Result<Bytes, OutsideErr> {
        self.inner.read(alloc, path)
    }

    fn perms(&mut self, alloc: Global, path: &Path) -> Result<Perms, OutsideErr> {
        self.inner.perms(alloc, path)
    }

    fn children(&mut self, alloc: Global, path: &Path) -> Result<u64, OutsideErr> {
        self.inner.children(alloc, path)
    }

    fn service(&mut self, alloc: Global, name: &Name) -> Result<Option<ServiceRow>, OutsideErr> {
        let answer = self.inner.service(alloc, name);
        if let Ok(row) = answer {
            self.sights.note_service(name, row.is_some());
        }
        answer
    }

    fn lock(&mut self, alloc: Global, key: &Key) -> Result<Option<u64>, OutsideErr> {
        let answer = self.inner.lock(alloc, key);
        if let Ok(moment) = answer {
            self.sights.note_lock(key, moment.is_some());
        }
        answer
    }

    fn change(&mut self, alloc: Global, change: &Change) -> Result<(), OutsideErr> {
        let answer = self.inner.change(alloc, change);
        self.sights.note_change(change);
        answer
    }
}
