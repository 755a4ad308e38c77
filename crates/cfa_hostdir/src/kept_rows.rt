// The tables of a host in memory.
use crate::errors::HostErr;
use crate::layout::Table;
use cfa_base::{Bytes, Key, Name, NoMemory};
use cfa_outside::{Path, Perms, ServiceRow};
use cfa_rows::Format;
use cfa_tables::{Locks, Permissions, RowChange, Services, read_locks, read_perms, read_services};
use std::alloc::{AllocError, AllocFailed, Global};
use std::collections::BTreeMap;

/// The rows of a table, by the texts of their keys.
#[derive(Drop)]
pub struct KeptRows<V> {
    rows: BTreeMap<String, V>,
}

impl<V: Drop> KeptRows<V> {
    fn new(alloc: Global) -> KeptRows<V> {
        KeptRows {
            rows: BTreeMap::new(alloc),
        }
    }

    pub fn get(&self, key: &str) -> Option<&V> {
        self.rows.get(key)
    }

    pub fn has(&self, key: &str) -> bool {
        self.rows.contains_key(key)
    }

    // Puts a row, and gives the one that it replaces.
    fn put(&mut self, key: String, row: V) -> Result<Option<V>, AllocFailed<(String, V)>> {
        self.rows.insert(key, row)
    }

    /// Puts a row at the text of its key, and gives the one that it replaces.
    pub fn put_at(&mut self, alloc: Global, key: &str, row: V) -> Result<Option<V>, HostErr> {
        let key = String::from_str(alloc, key)?;
        Ok(self.put(key, row)?)
    }

    // Puts a row at the text of its key, where there was memory for that.
    fn take(&mut self, key: Result<String, AllocError>, row: V) -> Result<(), HostErr> {
        self.put(key?, row)?;
        Ok(())
    }

    pub fn remove(&mut self, key: &str) {
        let _ = self.rows.remove(key);
    }

    /// Puts back what a row replaced, without taking memory.
    pub fn restore(&mut self, key: &str, old: Option<V>) {
        match old {
            Some(row) => {
                if let Some(place) = self.rows.get_mut(key) {
                    *place = row;
                }
            }
            None => self.remove(key),
        }
    }
}

// The text of a table.
fn text_by<F: Format>(alloc: Global, table: &KeptRows<F::Row>) -> Result<Bytes, NoMemory> {
    let mut text = Bytes::from_vec(Vec::new(alloc));
    for (_, row) in table.rows.iter() {
        F::append(alloc, &mut text, row)?;
        text.append(b"\n")?;
    }
    Ok(text)
}

/// The rows of all tables.
#[derive(Drop)]
pub struct HostTables {
    pub perms: KeptRows<(Path, Perms)>,
    pub services: KeptRows<(Name, ServiceRow)>,
    pub locks: KeptRows<(Key, u64)>,
}

impl HostTables {
    pub fn new(alloc: Global) -> HostTables {
        HostTables {
            perms: KeptRows::new(alloc),
            services: KeptRows::new(alloc),
            locks: KeptRows::new(alloc),
        }
    }

    /// The number of rows.
    pub fn count(&self) -> u64 {
        let perms = self.perms.rows.len() as u64;
        perms
            .saturating_add(self.services.rows.len() as u64)
            .saturating_add(self.locks.rows.len() as u64)
    }

    fn put_perms(&mut self, alloc: Global, path: Path, perms: Perms) -> Result<(), HostErr> {
        let key = String::from_str(alloc, path.text().as_str());
        self.perms.take(key, (path, perms))
    }

    fn put_service(&mut self, alloc: Global, name: Name, row: ServiceRow) -> Result<(), HostErr> {
        let key = String::from_str(alloc, name.as_str());
        self.services.take(key, (name, row))
    }

    fn put_lock(&mut self, alloc: Global, key: Key, moment: u64) -> Result<(), HostErr> {
        let text = String::from_str(alloc, key.text());
        self.locks.take(text, (key, moment))
    }

    /// Takes the rows of a table's text.
    pub fn take_table(&mut self, alloc: Global, table: Table, text: &Bytes) -> Result<(), HostErr> {
        match table {
            Table::Perms => self.take_perms(alloc, text),
            Table::Services => self.take_services(alloc, text),
            Table::Locks => self.take_locks(alloc, text),
        }
    }

    fn take_perms(&mut self, alloc: Global, text: &Bytes) -> Result<(), HostErr> {
        for (path, perms) in read_perms(alloc, text)? {
            self.put_perms(alloc, path, perms)?;
        }
        Ok(())
    }

    fn take_services(&mut self, alloc: Global, text: &Bytes) -> Result<(), HostErr> {
        for (name, row) in read_services(alloc, text)? {
            self.put_service(alloc, name, row)?;
        }
        Ok(())
    }

    fn take_locks(&mut self, alloc: Global, text: &Bytes) -> Result<(), HostErr> {
        for (key, moment) in read_locks(alloc, text)? {
            self.put_lock(alloc, key, moment)?;
        }
        Ok(())
    }

    /// Takes a changed row.
    pub fn take_change(&mut self, alloc: Global, change: RowChange) -> Result<(), HostErr> {
        match change {
            RowChange::Permissions(path, perms) => self.put_perms(alloc, path, perms),
            RowChange::Gone(path) => {
                self.perms.remove(path.text().as_str());
                Ok(())
            }
            RowChange::Service(name, row) => self.put_service(alloc, name, row),
            RowChange::Lock(key, moment) | RowChange::LockBehind(_, key, moment) => {
                self.put_lock(alloc, key, moment)
            }
        }
    }

    /// The text of a table.
    pub fn text_of(&self, alloc: Global, table: Table) -> Result<Bytes, NoMemory> {
        match table {
            Table::Perms => text_by::<Permissions>(alloc, &self.perms),
            Table::Services => text_by::<Services>(alloc, &self.services),
            Table::Locks => text_by::<Locks>(alloc, &self.locks),
        }
    }
}
