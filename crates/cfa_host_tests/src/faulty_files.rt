// The machine's files, with faults that a row asks for, and with what is synced told.
//
// A fault is asked for by a file where the test runs: `no_sync` refuses each sync, `no_room` each
// write, `no_access` each opening, and with `device` a device is seen at each path. The last name
// of each path that is synced is added to `synced` there, a line each.
use cfa_hostdir::Exclusive;
use std::alloc::Allocator;
use std::fs::{File, Metadata, OpenFile, OpenOptions};
use std::io::{Read, Seek, SeekFrom, Write};
use std::rt::Files;
use std::{fs, io};

// The system's numbers of what is refused.
const NO_ACCESS: i32 = 13;

const NO_SYNC: i32 = 5;

const NO_ROOM: i32 = 28;

#[derive(Drop)]
pub struct FaultyFiles {
    rt: HostRuntime,
}

#[derive(Drop)]
pub struct FaultyFile {
    rt: HostRuntime,
    file: File,
    // The last name of its path.
    name: String,
}

fn is_there(rt: &HostRuntime, fault: &str) -> bool {
    rt.metadata(fault).is_ok()
}

// Refuses where a fault is asked for.
fn refuse(rt: &HostRuntime, fault: &str, error: i32) -> io::Result<()> {
    if is_there(rt, fault) {
        Err(io::Error::from_raw_os_error(error))
    } else {
        Ok(())
    }
}

// The last name of a path.
fn last_name(path: &str) -> &str {
    match path.rsplit_once('/') {
        Some((_, name)) => name,
        None => path,
    }
}

impl FaultyFiles {
    pub fn new(rt: HostRuntime) -> FaultyFiles {
        FaultyFiles { rt }
    }
}

impl FaultyFile {
    // Tells that the file is synced, unless that is refused.
    fn tell_sync(&self) -> io::Result<()> {
        refuse(&self.rt, "no_sync", NO_SYNC)?;
        let mut options = OpenOptions::new();
        options.append(true).create(true);
        let mut told = options.open(&self.rt, "synced")?;
        told.write_all(self.name.as_str().as_bytes())?;
        told.write_all(b"\n")
    }
}

impl Read for FaultyFile {
    fn read(&mut self, buf: &mut [u8]) -> io::Result<usize> {
        self.file.read(buf)
    }
}

impl Write for FaultyFile {
    fn write(&mut self, buf: &[u8]) -> io::Result<usize> {
        refuse(&self.rt, "no_room", NO_ROOM)?;
        self.file.write(buf)
    }

    fn flush(&mut self) -> io::Result<()> {
        self.file.flush()
    }
}

impl Seek for FaultyFile {
    fn seek(&mut self, to: SeekFrom) -> io::Result<u64> {
        self.file.seek(to)
    }
}

impl OpenFile for FaultyFile {
    fn metadata(&self) -> io::Result<Metadata> {
        self.file.metadata()
    }

    fn set_len(&self, size: u64) -> io::Result<()> {
        self.file.set_len(size)
    }

    fn sync_all(&self) -> io::Result<()> {
        self.tell_sync()?;
        self.file.sync_all()
    }

    fn sync_data(&self) -> io::Result<()> {
        self.tell_sync()?;
        self.file.sync_data()
    }
}

impl Exclusive for FaultyFile {
    fn take_hold(&self) -> bool {
        self.file.take_hold()
    }
}

impl Files for FaultyFiles {
    type File = FaultyFile;

    type Dir = <HostRuntime as Files>::Dir;

    fn open_file(&self, how: &OpenOptions, path: &str) -> io::Result<FaultyFile> {
        refuse(&self.rt, "no_access", NO_ACCESS)?;
        let name = String::from_str(self.rt.alloc(), last_name(path))?;
        let file = self.rt.open_file(how, path)?;
        Ok(FaultyFile {
            rt: self.rt.clone()?,
            file,
            name,
        })
    }

    fn open_dir(&self, path: &str) -> io::Result<<HostRuntime as Files>::Dir> {
        self.rt.open_dir(path)
    }

    fn metadata(&self, path: &str) -> io::Result<Metadata> {
        self.rt.metadata(path)
    }

    fn symlink_metadata(&self, path: &str) -> io::Result<Metadata> {
        if is_there(&self.rt, "device") {
            self.rt.symlink_metadata("/dev/null")
        } else {
            self.rt.symlink_metadata(path)
        }
    }

    fn copy(&self, from: &str, to: &str) -> io::Result<u64> {
        self.rt.copy(from, to)
    }

    fn rename(&self, from: &str, to: &str) -> io::Result<()> {
        self.rt.rename(from, to)
    }

    fn remove_file(&self, path: &str) -> io::Result<()> {
        self.rt.remove_file(path)
    }

    fn create_dir(&self, path: &str) -> io::Result<()> {
        self.rt.create_dir(path)
    }

    fn remove_dir(&self, path: &str) -> io::Result<()> {
        self.rt.remove_dir(path)
    }

    fn remove_dir_all<B: Allocator>(&self, alloc: B, path: &str) -> io::Result<()> {
        self.rt.remove_dir_all(alloc, path)
    }
}
