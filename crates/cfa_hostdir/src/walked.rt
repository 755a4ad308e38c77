// What was walked to last, so that the next path needs fewer looks.
use crate::errors::HostErr;
use crate::looking::{Found, folder_of, is_beneath};
use std::alloc::Global;

/// The directory in which a file was found last, and that file.
#[derive(Drop)]
pub struct Walked {
    // The real path of the directory, empty where there is none. It was walked to, and no part of
    // it was a link.
    directory: String,
    // The real path of the file, which counts where it is known which file it is.
    path: String,
    found: Option<Found>,
}

impl Walked {
    /// Nothing was walked to yet. No memory is taken.
    pub fn new(alloc: Global) -> Walked {
        Walked {
            directory: String::new(alloc),
            path: String::new(alloc),
            found: None,
        }
    }

    /// The place in a real path from which on it is to be walked: behind the directory, where it is
    /// beneath that, and else behind the first `tree` bytes.
    pub fn start_of(&self, real: &str, tree: usize) -> usize {
        let directory = self.directory.as_str();
        if is_beneath(real, directory) {
            directory.len().saturating_add(1)
        } else {
            tree
        }
    }

    /// The file at a real path, where it is the one that was found last.
    pub fn file_at(&self, real: &str) -> Option<Found> {
        if self.path.as_str() == real {
            self.found
        } else {
            None
        }
    }

    /// A file was found at a real path.
    pub fn keep(&mut self, real: &str, found: Found) -> Result<(), HostErr> {
        let directory = folder_of(real)?;
        if self.directory.as_str() != directory {
            self.directory.clear();
            self.directory.push_str(directory)?;
        }
        self.found = None;
        self.path.clear();
        self.path.push_str(real)?;
        self.found = Some(found);
        Ok(())
    }

    /// Another file may stand where one was found.
    pub fn forget_file(&mut self) {
        self.found = None;
    }

    /// Directories may be gone: each path is walked to from the root again.
    pub fn forget(&mut self) {
        self.directory.clear();
        self.found = None;
    }
}
