// Real files, read and written whole.
use crate::errors::{HostErr, Why, answer_of, refused};
use crate::looking::{Found, Kind, kind_at};
use cfa_base::Bytes;
use std::alloc::Global;
use std::fs;
use std::fs::{OpenFile, OpenOptions};
use std::io::{Read, Write};
use std::os::unix::fs::MetadataExt;
use std::rt::Files;

pub fn sync_folder<R: Files>(rt: &R, path: &str) -> Result<(), HostErr> {
    answer_of(fs::open(rt, path)?.sync_all())
}

/// Makes a file with these bytes and syncs it. Where something stands there already, a link too,
/// none is made.
pub fn write_new<R: Files>(rt: &R, path: &str, bytes: &[u8]) -> Result<(), HostErr> {
    let mut options = OpenOptions::new();
    options.write(true).create_new(true);
    let mut file = options.open(rt, path)?;
    file.write_all(bytes)?;
    answer_of(file.sync_all())
}

// The bytes up to the end, which stood at `len`, of which there are to be no more than `most`.
fn read_to_end<F: Read>(
    alloc: Global,
    file: &mut F,
    len: u64,
    most: u64,
) -> Result<Bytes, HostErr> {
    let mut all = Bytes::from_vec(Vec::new(alloc));
    let mut piece = [0u8; 4096];
    for _ in 0..u64::MAX {
        if all.as_slice().len() as u64 >= len {
            return Ok(all);
        }
        let count = file.read(&mut piece)?;
        if count == 0 {
            return Ok(all);
        }
        all.append(&piece[..count])?;
        if all.as_slice().len() as u64 > most {
            return Err(refused(Why::OfAnotherLength));
        }
    }
    Err(refused(Why::OfAnotherLength))
}

/// The bytes of a regular file of no more than `most` bytes. What is opened is held against what
/// was found, so that a file that was put in its place meanwhile isn't read.
pub fn read_found<R: Files>(
    rt: &R,
    alloc: Global,
    path: &str,
    found: Found,
    most: u64,
) -> Result<Bytes, HostErr> {
    let mut file = fs::open(rt, path)?;
    let opened = file.metadata()?;
    if opened.dev() != found.device || opened.ino() != found.inode {
        return Err(refused(Why::Swapped));
    }
    if opened.len() > most {
        return Err(refused(Why::OfAnotherLength));
    }
    read_to_end(alloc, &mut file, opened.len(), most)
}

/// The bytes of a regular file, none where nothing stands there.
pub fn read_if_there<R: Files>(
    rt: &R,
    alloc: Global,
    path: &str,
    most: u64,
) -> Result<Bytes, HostErr> {
    match kind_at(rt, path)? {
        Kind::Missing => Ok(Bytes::from_vec(Vec::new(alloc))),
        Kind::File(found) => read_found(rt, alloc, path, found, most),
        Kind::Dir | Kind::Other => Err(refused(Why::OfAnotherKind)),
    }
}
