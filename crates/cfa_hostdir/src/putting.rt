// Files and directories, put and taken away as a whole. What is put is built at the stage, synced
// from the deepest up, and comes by one rename; then the folder above is synced.
use crate::errors::{HostErr, Part, Why, answer_of, at, refused};
use crate::files::{sync_folder, write_new};
use crate::looking::{Kind, Spot, ends_component, folder_of, kind_at, part_of};
use std::alloc::Global;
use std::fs;
use std::fs::OpenFile;
use std::rt::Files;

/// What is put at the end of a path.
#[derive(Clone, Copy)]
pub enum Leaf<'a> {
    File(&'a [u8]),
    Dir,
}

/// Whether a change that was made is known to last.
#[derive(Clone, Copy)]
pub enum Lasting {
    Durable,
    /// It is seen, and nobody knows whether it is seen after a power cut; and why.
    Unsure(Why),
}

// Takes away what a change that was cut off left at the stage.
fn clear_stage<R: Files>(rt: &R, alloc: Global, stage: &str) -> Result<(), HostErr> {
    match kind_at(rt, stage)? {
        Kind::Missing => Ok(()),
        Kind::File(_) => answer_of(rt.remove_file(stage)),
        Kind::Dir => answer_of(rt.remove_dir_all(alloc, stage)),
        Kind::Other => Err(refused(Why::OfAnotherKind)),
    }
}

// Makes the leaf at `staged`, with the directories that the path names from the stage on, and syncs
// all of them.
fn build<R: Files>(rt: &R, staged: &str, from: usize, leaf: Leaf<'_>) -> Result<(), HostErr> {
    for end in from..staged.len() {
        if ends_component(staged, end) {
            rt.create_dir(part_of(staged, end)?)?;
        }
    }
    match leaf {
        Leaf::File(bytes) => write_new(rt, staged, bytes)?,
        Leaf::Dir => {
            rt.create_dir(staged)?;
            sync_folder(rt, staged)?;
        }
    }
    for end in (from..staged.len()).rev() {
        if ends_component(staged, end) {
            sync_folder(rt, part_of(staged, end)?)?;
        }
    }
    Ok(())
}

// Builds the leaf at the stage, where nothing else is left.
fn prepare<R: Files>(
    rt: &R,
    alloc: Global,
    stage: &str,
    staged: &str,
    leaf: Leaf<'_>,
) -> Result<(), HostErr> {
    clear_stage(rt, alloc, stage)?;
    let built = build(rt, staged, stage.len(), leaf);
    if built.is_err() {
        let _ = clear_stage(rt, alloc, stage);
    }
    built
}

// The folder was opened before the change, so that nothing but its sync can fail behind the change.
fn synced<F: OpenFile>(folder: &F) -> Lasting {
    match folder.sync_all() {
        Ok(()) => Lasting::Durable,
        Err(error) => Lasting::Unsure(Why::System(error.raw_os_error().unwrap_or(0))),
    }
}

/// Puts the leaf at `path`. The path up to `end` is the first part that is missing, or the whole
/// path.
pub fn put<R: Files>(
    rt: &R,
    alloc: Global,
    stage: &str,
    path: &str,
    end: usize,
    leaf: Leaf<'_>,
) -> Result<Lasting, HostErr> {
    let (top, rest) = path.split_at_checked(end).ok_or(refused(Why::Misfit))?;
    let folder = fs::open(rt, folder_of(top)?)?;
    let mut staged = String::from_str(alloc, stage)?;
    staged.push_str(rest)?;
    at(
        Part::Stage,
        prepare(rt, alloc, stage, staged.as_str(), leaf),
    )?;
    if let Err(error) = rt.rename(stage, top) {
        let _ = clear_stage(rt, alloc, stage);
        return Err(HostErr::from(error));
    }
    Ok(synced(&folder))
}

/// Takes away the file or the empty directory at a path.
pub fn remove<R: Files>(rt: &R, path: &str, spot: Spot) -> Result<Lasting, HostErr> {
    let folder = fs::open(rt, folder_of(path)?)?;
    match spot {
        Spot::File(_) => rt.remove_file(path)?,
        Spot::Dir => rt.remove_dir(path)?,
        Spot::Missing(_) | Spot::Blocked => return Err(refused(Why::Misfit)),
    }
    Ok(synced(&folder))
}
