// Which folders this process brought to the disk itself. What another process left in a folder, as
// an agent that was killed behind a rename, isn't known to be there.
use crate::errors::{HostErr, answer_of};
use crate::looking::{Kind, ends_component, kind_at, part_of};
use std::alloc::Global;
use std::collections::BTreeMap;
use std::fs::OpenFile;
use std::io::Read;
use std::rt::Files;
use std::{fs, str};

/// The folders that were synced since this process began, by their real paths. What it changes in
/// one of them it syncs by itself.
#[derive(Drop)]
pub struct Settled {
    folders: BTreeMap<String, ()>,
    // False once a sync failed.
    sound: bool,
}

impl Settled {
    /// No folder was synced yet. No memory is taken.
    pub fn new(alloc: Global) -> Settled {
        Settled {
            folders: BTreeMap::new(alloc),
            sound: true,
        }
    }

    pub fn is_sound(&self) -> bool {
        self.sound
    }

    /// A folder was synced.
    pub fn add(&mut self, alloc: Global, folder: &str) -> Result<(), HostErr> {
        if !self.folders.contains_key(folder) {
            self.folders.insert(String::from_str(alloc, folder)?, ())?;
        }
        Ok(())
    }

    /// Syncs a folder, where that isn't done.
    pub fn settle<R: Files>(&mut self, rt: &R, alloc: Global, folder: &str) -> Result<(), HostErr> {
        if self.folders.contains_key(folder) {
            return Ok(());
        }
        let synced = answer_of(fs::open(rt, folder)?.sync_all());
        self.sound = self.sound && synced.is_ok();
        synced?;
        self.add(alloc, folder)
    }

    /// Syncs each folder above a folder, from the one on whose path has `from` bytes, where that
    /// isn't done.
    pub fn settle_above<R: Files>(
        &mut self,
        rt: &R,
        alloc: Global,
        folder: &str,
        from: usize,
    ) -> Result<(), HostErr> {
        for end in from..folder.len() {
            if ends_component(folder, end) {
                self.settle(rt, alloc, part_of(folder, end)?)?;
            }
        }
        Ok(())
    }

    /// Syncs a folder and all folders beneath it, where that isn't done.
    pub fn settle_beneath<R: Files>(
        &mut self,
        rt: &R,
        alloc: Global,
        top: &str,
    ) -> Result<(), HostErr> {
        let mut folders = Vec::new(alloc);
        folders.push(String::from_str(alloc, top)?)?;
        for _ in 0..u64::MAX {
            let Some(folder) = folders.pop() else {
                break;
            };
            push_all(rt, alloc, folder.as_str(), &mut folders)?;
            self.settle(rt, alloc, folder.as_str())?;
        }
        Ok(())
    }
}

// Adds the path of what has a name in a folder to others, where it is a folder.
fn push_folder<R: Files>(
    rt: &R,
    alloc: Global,
    folder: &str,
    name: &str,
    folders: &mut Vec<String>,
) -> Result<(), HostErr> {
    let mut path = String::from_str(alloc, folder)?;
    path.push('/')?;
    path.push_str(name)?;
    match kind_at(rt, path.as_str())? {
        Kind::Dir => folders.push(path)?,
        Kind::Missing | Kind::File(_) | Kind::Other => {}
    }
    Ok(())
}

// Adds the paths of those of some names in a folder that are folders. A name that is no text is no
// node's.
fn push_folders<R: Files>(
    rt: &R,
    alloc: Global,
    folder: &str,
    names: &[u8],
    folders: &mut Vec<String>,
) -> Result<(), HostErr> {
    for name in names.split(|byte| *byte == 0) {
        if let Ok(name) = str::from_utf8(name) {
            if !name.is_empty() && name != "." && name != ".." {
                push_folder(rt, alloc, folder, name, folders)?;
            }
        }
    }
    Ok(())
}

// Adds the paths of all folders in a folder.
fn push_all<R: Files>(
    rt: &R,
    alloc: Global,
    folder: &str,
    folders: &mut Vec<String>,
) -> Result<(), HostErr> {
    let mut dir = rt.open_dir(folder)?;
    let mut names = [0u8; 4096];
    for _ in 0..u64::MAX {
        let count = dir.read(&mut names)?;
        if count == 0 {
            break;
        }
        push_folders(rt, alloc, folder, &names[..count], folders)?;
    }
    Ok(())
}
