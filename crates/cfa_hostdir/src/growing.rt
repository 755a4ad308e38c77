// Files of a host that grow at their end: the journal, and the rows that changed since the tables
// were written.
use crate::errors::{HostErr, Why, answer_of, refused};
use crate::files::sync_folder;
use crate::looking::{Kind, kind_at};
use std::fs::{OpenFile, OpenOptions};
use std::io::Write;
use std::rt::Files;

/// How many additions to a file may wait for a sync. One more is written before it is synced with
/// them, so that one more than these may not be on the disk.
pub const MOST_WAITING: u8 = 2;

/// When what is added to a file is to last.
#[derive(Clone, Copy, PartialEq, Eq)]
pub enum When {
    /// As soon as it is added.
    AtOnce,
    /// As soon as the file is settled, or something is added that is to last at once.
    Later,
}

/// A file that grows at its end. It is opened, and what another process left in it is synced, when
/// it is first settled or written.
#[derive(Drop)]
pub struct Growing<F> {
    path: String,
    file: Option<F>,
    len: u64,
    // How many of the last additions aren't known to be on the disk.
    waiting: u8,
    // False once nobody knows what stands at its end.
    sound: bool,
}

fn cut_to<F: OpenFile>(file: &F, len: u64) -> Result<(), HostErr> {
    file.set_len(len)?;
    answer_of(file.sync_data())
}

// Opens a file at its end, and tells whether it was missing and is made now.
fn open_at<R: Files>(rt: &R, path: &str) -> Result<(R::File, bool), HostErr> {
    let is_new = match kind_at(rt, path)? {
        Kind::Missing => true,
        Kind::File(_) => false,
        Kind::Dir | Kind::Other => return Err(refused(Why::OfAnotherKind)),
    };
    let mut options = OpenOptions::new();
    options.append(true).create(true);
    Ok((options.open(rt, path)?, is_new))
}

// Brings a file to the disk, of which the first `len` bytes count, and its name where it is new.
fn bring<R: Files>(
    rt: &R,
    root: &str,
    file: &R::File,
    len: u64,
    is_new: bool,
) -> Result<(), HostErr> {
    let now = file.metadata()?.len();
    if now < len {
        return Err(refused(Why::OfAnotherLength));
    }
    if now > len {
        file.set_len(len)?;
    }
    file.sync_all()?;
    if is_new {
        sync_folder(rt, root)?;
    }
    Ok(())
}

impl<F: Write + OpenFile> Growing<F> {
    /// The file at a path, of which the first `len` bytes count.
    pub fn new(path: String, len: u64) -> Growing<F> {
        Growing {
            path,
            file: None,
            len,
            waiting: 0,
            sound: true,
        }
    }

    pub fn len(&self) -> u64 {
        self.len
    }

    pub fn is_sound(&self) -> bool {
        self.sound
    }

    /// Whether what was added last isn't known to be on the disk.
    pub fn is_pending(&self) -> bool {
        self.waiting > 0
    }

    fn open<R: Files<File = F>>(&mut self, rt: &R, root: &str) -> Result<(), HostErr> {
        if !self.sound {
            return Err(refused(Why::Unsure));
        }
        if self.file.is_none() {
            let (file, is_new) = open_at(rt, self.path.as_str())?;
            let brought = bring(rt, root, &file, self.len, is_new);
            self.file = Some(file);
            self.sound = brought.is_ok();
            return brought;
        }
        Ok(())
    }

    // Writes bytes at the end, or leaves the file as it was.
    fn write(&mut self, bytes: &[u8]) -> Result<(), HostErr> {
        let Some(file) = &mut self.file else {
            return Err(refused(Why::Unsure));
        };
        match file.write_all(bytes) {
            Ok(()) => {
                self.len = self.len.saturating_add(bytes.len() as u64);
                Ok(())
            }
            Err(error) => {
                self.sound = cut_to(file, self.len).is_ok();
                Err(HostErr::from(error))
            }
        }
    }

    // Syncs what was added since the file had so many bytes. Where that fails it is taken away; and
    // what was added before it and was never synced can't be known to be there, from then on.
    fn sync_from(&mut self, len: u64) -> Result<(), HostErr> {
        let Some(file) = &self.file else {
            return Err(refused(Why::Unsure));
        };
        let synced = answer_of(file.sync_data());
        if synced.is_err() {
            self.sound = cut_to(file, len).is_ok() && self.waiting == 0;
            self.len = len;
        } else {
            self.waiting = 0;
        }
        synced
    }

    /// Brings what another process left in the file to the disk. Nothing is made where the file has
    /// no bytes.
    pub fn make_ready<R: Files<File = F>>(&mut self, rt: &R, root: &str) -> Result<(), HostErr> {
        if self.len == 0 {
            return Ok(());
        }
        self.open(rt, root)
    }

    /// Syncs what was added last, where that isn't done. A second sync behind one that failed would
    /// tell nothing of it.
    pub fn settle(&mut self) -> Result<(), HostErr> {
        if self.waiting == 0 {
            return Ok(());
        }
        if !self.sound {
            return Err(refused(Why::Unsure));
        }
        self.sync_from(self.len)
    }

    /// Adds bytes at the end, or leaves the file as it was. Where as many additions wait as may,
    /// these wait no more than what is to last at once.
    pub fn append<R: Files<File = F>>(
        &mut self,
        rt: &R,
        root: &str,
        bytes: &[u8],
        when: When,
    ) -> Result<(), HostErr> {
        self.open(rt, root)?;
        let len = self.len;
        self.write(bytes)?;
        if when == When::Later && self.waiting < MOST_WAITING {
            self.waiting = self.waiting.saturating_add(1);
            return Ok(());
        }
        self.sync_from(len)
    }

    /// Takes away all bytes.
    pub fn clear<R: Files<File = F>>(&mut self, rt: &R, root: &str) -> Result<(), HostErr> {
        self.open(rt, root)?;
        let Some(file) = &self.file else {
            return Err(refused(Why::Unsure));
        };
        let cleared = cut_to(file, 0);
        match cleared {
            Ok(()) => self.len = 0,
            Err(_) => self.sound = false,
        }
        cleared
    }
}
