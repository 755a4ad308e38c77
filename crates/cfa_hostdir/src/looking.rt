// What stands at a real path. No symbolic link is followed: each component is looked at by itself.
ghost use Rattle.std.specs.Prelude.{◌≡◌, ◌==◌, ◌&&◌, not, length};
ghost use Rattle.cfa_outside.specs.Worlds.{is_below};

use crate::errors::{HostErr, Why, refused};
use std::fs::Metadata;
use std::io::{ErrorKind, Read};
use std::os::unix::fs::MetadataExt;
use std::rt::Files;

/// A regular file that was found: its size, and which file it is.
#[derive(Clone, Copy)]
pub struct Found {
    pub size: u64,
    pub device: u64,
    pub inode: u64,
}

/// What stands at the end of a real path.
#[derive(Clone, Copy)]
pub enum Kind {
    Missing,
    /// A regular file.
    File(Found),
    Dir,
    /// A symbolic link or a special file.
    Other,
}

/// What stands at a real path whose directories were looked at too.
#[derive(Clone, Copy)]
pub enum Spot {
    /// Nothing. The path up to this place is the first part that is missing.
    Missing(usize),
    /// Nothing, and a file stands above.
    Blocked,
    File(Found),
    Dir,
}

// What the system tells of what stands at a path.
fn kind_of(found: &Metadata) -> Kind {
    if found.is_file() {
        Kind::File(Found {
            size: found.len(),
            device: found.dev(),
            inode: found.ino(),
        })
    } else if found.is_dir() {
        Kind::Dir
    } else {
        Kind::Other
    }
}

pub fn kind_at<R: Files>(rt: &R, path: &str) -> Result<Kind, HostErr> {
    match rt.symlink_metadata(path) {
        Ok(found) => Ok(kind_of(&found)),
        Err(error) if error.kind() == ErrorKind::NotFound => Ok(Kind::Missing),
        Err(error) => Err(HostErr::from(error)),
    }
}

/// The first bytes of a path.
pub fn part_of(path: &str, end: usize) -> Result<&str, HostErr> {
    path.get(..end).ok_or(refused(Why::Misfit))
}

/// The folder above a path.
pub fn folder_of(path: &str) -> Result<&str, HostErr> {
    match path.rsplit_once('/') {
        Some((above, _)) => Ok(above),
        None => Err(refused(Why::Misfit)),
    }
}

// Whether the other path begins with this one and a slash.
fn goes_on(path: &[u8], other: &[u8]) -> bool
    ensures { result ≡ is_below path.now other.now }
{
    if other.len() <= path.len() {
        return false;
    }
    let front = &other[..path.len()];
    front == path && other[path.len()] == b'/'
}

/// Whether the path is beneath a directory. Nothing is beneath an empty path.
pub fn is_beneath(path: &str, directory: &str) -> bool
    ensures { result ≡ (not (length directory.now == 0) && is_below directory.now path.now) }
{
    !directory.is_empty() && goes_on(directory.as_bytes(), path.as_bytes())
}

/// Whether a component of the path ends at this place.
pub fn ends_component(path: &str, at: usize) -> bool {
    let bytes = path.as_bytes();
    at >= bytes.len() || bytes[at] == b'/'
}

/// Looks at each component from the one that ends at `from` on.
pub fn walk<R: Files>(rt: &R, path: &str, from: usize) -> Result<Spot, HostErr> {
    for end in from..path.len() {
        if ends_component(path, end) {
            match kind_at(rt, part_of(path, end)?)? {
                Kind::Missing => return Ok(Spot::Missing(end)),
                Kind::Dir => {}
                Kind::File(_) => return Ok(Spot::Blocked),
                Kind::Other => return Err(refused(Why::OfAnotherKind)),
            }
        }
    }
    match kind_at(rt, path)? {
        Kind::Missing => Ok(Spot::Missing(path.len())),
        Kind::Dir => Ok(Spot::Dir),
        Kind::File(found) => Ok(Spot::File(found)),
        Kind::Other => Err(refused(Why::OfAnotherKind)),
    }
}

// Whether a buffer of names, each ended by a zero byte, has one that isn't `.` or `..`.
fn has_name(names: &[u8]) -> bool {
    for name in names.split(|byte| *byte == 0) {
        if !name.is_empty() && name != b".".as_slice() && name != b"..".as_slice() {
            return true;
        }
    }
    false
}

// How many names of a buffer, each ended by a zero byte, aren't `.` or `..`.
fn count_names(names: &[u8]) -> u64 {
    let mut count = 0u64;
    for name in names.split(|byte| *byte == 0) {
        if !name.is_empty() && name != b".".as_slice() && name != b"..".as_slice() {
            count = count.saturating_add(1);
        }
    }
    count
}

/// How many nodes stand directly in a directory.
pub fn count_nodes<R: Files>(rt: &R, path: &str) -> Result<u64, HostErr> {
    let mut dir = rt.open_dir(path)?;
    let mut names = [0u8; 4096];
    let mut nodes = 0u64;
    for _ in 0..u64::MAX {
        let count = dir.read(&mut names)?;
        if count == 0 {
            return Ok(nodes);
        }
        nodes = nodes.saturating_add(count_names(&names[..count]));
    }
    Err(refused(Why::OfAnotherLength))
}

/// Whether something stands in a directory.
pub fn has_nodes<R: Files>(rt: &R, path: &str) -> Result<bool, HostErr> {
    let mut dir = rt.open_dir(path)?;
    let mut names = [0u8; 4096];
    for _ in 0..u64::MAX {
        let count = dir.read(&mut names)?;
        if count == 0 {
            return Ok(false);
        }
        if has_name(&names[..count]) {
            return Ok(true);
        }
    }
    Err(refused(Why::OfAnotherLength))
}
