// Acts, and what may come of them.
use cfa_base::{Bytes, Name, Names};
use cfa_edits::Script;
use cfa_outside::{Call, Change, Path};

/// One thing that a promise asks of a host. Each call on an act has `IsAct` of `specs/Acts.antt` for a condition: the bytes
/// of a `Content` are UTF-8 and at most `MOST_FILE_BYTES`, and no `Bust` holds `Reason::Fault`.
#[derive(Debug, Drop)]
pub enum Act {
    /// A file stands at the path, whatever its content.
    Create(Path),
    /// A directory stands at the path.
    MakeDir(Path),
    /// Nothing stands at the path. The flag says whether an empty directory may be taken away too.
    Delete(Path, bool),
    /// A file with these bytes stands at the path.
    Content(Path, Bytes),
    /// The file at the first path, the source, stands with the same bytes at the second.
    Copy(Path, Path),
    /// The file at the path is a text that the script leaves as it is.
    Edit(Path, Script),
    /// What stands at the path has this mode, one of these owners and one of these groups. An empty list is one that
    /// isn't given.
    Perms(Path, Option<u16>, Names, Names),
    /// The service runs.
    Start(Name),
    /// The service doesn't run.
    Stop(Name),
    /// The service is enabled.
    Enable(Name),
    /// The service isn't enabled.
    Disable(Name),
    /// The service is restarted, each time anew.
    Restart(Name),
    /// What stands for an act that couldn't be made: it fails for this reason.
    Bust(Reason),
}

/// Why an act fails. The reasons are numbered F1 to F13 in this order.
#[derive(Clone, Copy, Debug, PartialEq, Eq)]
pub enum Reason {
    /// The promiser is no path.
    BadPath,
    /// What the act works on isn't there.
    Missing,
    /// Something else stands at the path or above it.
    Obstructed,
    /// The file to edit isn't UTF-8.
    NotText,
    /// The edits would change their own result again.
    NonConvergent,
    /// No line matches where lines are to be inserted.
    NoAnchor,
    /// A matched line has too few fields.
    FieldCount,
    /// The host has no such service.
    UnknownService,
    /// A pattern doesn't read.
    BadPattern,
    /// A value isn't of its kind, or can't be changed as is asked.
    BadValue,
    /// A call on the host failed.
    Fault,
    /// A text or a file is over its limit.
    TooLong,
    /// A promise has too many combinations.
    TooMany,
}

/// What an act needs in a host's world.
#[derive(Debug, Drop)]
pub enum Decision {
    /// Nothing: what it asks for holds.
    Kept,
    /// This change, after which what it asks for holds.
    Needs(Change),
    /// It can't be brought about, for this reason, which is never `Reason::Fault`.
    Fail(Reason),
    /// It can't be told: this call on the host failed.
    Fault(Call),
}
