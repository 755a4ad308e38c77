// Why a step on the folder of a host gave no answer.
use cfa_base as base;
use cfa_rows::RowsErr;
use cfa_tables::TableErr;
use std::alloc::{AllocError, AllocFailed};
use std::io;

/// What of the folder of a host a step was about.
#[derive(Clone, Copy, Debug, PartialEq, Eq)]
pub enum Part {
    /// The folder itself, or the one in which it stands.
    Folder,
    /// `tree`, in which the nodes stand.
    Tree,
    /// What stands at the path of the call, or above it.
    Node,
    /// `new`, where what is put is built.
    Stage,
    Journal,
    /// The rows that changed since the tables were written.
    Changes,
    Perms,
    Services,
    Locks,
}

/// Why an object of the machine refused.
#[derive(Clone, Copy, Debug, PartialEq, Eq)]
pub enum Why {
    /// The system refused. The number of its error, of which `io::Error::from_raw_os_error` tells
    /// the words, or 0 where it told none.
    System(i32),
    /// Another agent holds the folder.
    Taken,
    /// A link, a special file, a file in the place of a folder, or a folder in the place of a file.
    OfAnotherKind,
    /// The line of this number, from 1, is no row in its place.
    BadRow(u64),
    /// It has more bytes than are read, or fewer than were written.
    OfAnotherLength,
    /// It isn't the file that was looked at.
    Swapped,
    /// The change doesn't fit what stands there.
    Misfit,
    /// A sync failed before, so that nobody knows what stands on the disk.
    Unsure,
}

/// What refused, and why.
#[derive(Clone, Copy, Debug, PartialEq, Eq)]
pub struct Refusal {
    pub part: Part,
    pub why: Why,
}

/// Why a step on the folder of a host gave no answer.
#[derive(Clone, Copy, Debug, PartialEq, Eq)]
pub enum HostErr {
    /// The system refused, or what stands in the folder is nothing that an agent leaves there.
    Refused(Refusal),
    NoMemory,
}

/// The refusal of a node.
pub fn refused(why: Why) -> HostErr {
    HostErr::Refused(Refusal {
        part: Part::Node,
        why,
    })
}

/// The answer of a step on a part of the folder.
pub fn at<T>(part: Part, answer: Result<T, HostErr>) -> Result<T, HostErr> {
    match answer {
        Ok(value) => Ok(value),
        Err(HostErr::Refused(refusal)) => Err(HostErr::Refused(Refusal {
            part,
            why: refusal.why,
        })),
        Err(HostErr::NoMemory) => Err(HostErr::NoMemory),
    }
}

/// What refused, where an answer is a refusal.
pub fn refusal_of<T>(answer: &Result<T, HostErr>) -> Option<Refusal> {
    match answer {
        Err(HostErr::Refused(refusal)) => Some(*refusal),
        Ok(_) | Err(HostErr::NoMemory) => None,
    }
}

impl From<io::Error> for HostErr {
    fn from(error: io::Error) -> Self {
        if error.kind() == io::ErrorKind::OutOfMemory {
            HostErr::NoMemory
        } else {
            refused(Why::System(error.raw_os_error().unwrap_or(0)))
        }
    }
}

impl From<AllocError> for HostErr {
    fn from(_: AllocError) -> Self {
        HostErr::NoMemory
    }
}

impl<T: Drop> From<AllocFailed<T>> for HostErr {
    fn from(_: AllocFailed<T>) -> Self {
        HostErr::NoMemory
    }
}

impl From<base::NoMemory> for HostErr {
    fn from(_: base::NoMemory) -> Self {
        HostErr::NoMemory
    }
}

impl From<TableErr> for HostErr {
    fn from(error: TableErr) -> Self {
        match error {
            TableErr::BadTable(line) => refused(Why::BadRow(line)),
            TableErr::NoMemory => HostErr::NoMemory,
        }
    }
}

impl From<RowsErr> for HostErr {
    fn from(error: RowsErr) -> Self {
        match error {
            RowsErr::BadLine(line) => refused(Why::BadRow(line)),
            RowsErr::NoMemory => HostErr::NoMemory,
        }
    }
}

/// The answer of a step that the system was asked for.
pub fn answer_of(step: io::Result<()>) -> Result<(), HostErr> {
    Ok(step?)
}
