// The calls by which a host is seen and changed.
ghost use Rattle.std.specs.Prelude.{◌≡◌, [], ◌∷◌, IfOk, IfSome, IsTrue};
ghost use Rattle.std.specs.FinMap as map;
ghost use Rattle.cfa_base.specs.Shown.{Shown, Follows};
ghost use Rattle.cfa_outside.specs.Answered.{Answered};
ghost use Rattle.cfa_outside.specs.Worlds.{takes_file, takes_directory, is_removable, is_readable, is_directory, bytes_in, perms_in, children_of, HasParents};
ghost use Rattle.cfa_outside.specs.Sites.{Told, look_of, fits, adds, Seen, ChangesKeepParents, LogsKeepParents};
ghost use Rattle.cfa_outside.specs.declared.sites.Entry.TheVariants.{Did, Refused};

use crate::{OutsideErr, Path, Perms, ServiceRow};
use cfa_base::{Bytes, Key, Name, NoMemory};
use std::alloc::Global;

/// What a look at a path shows.
#[derive(Clone, Copy, Debug, PartialEq, Eq)]
pub enum Look {
    /// No node stands there, and no file above.
    Nothing,
    /// No node stands there, and a file stands above.
    Blocked,
    /// A file, with its size in bytes.
    File(u64),
    /// A directory, and whether it is empty.
    Dir(bool),
}

impl Look {
    /// Whether a file may be put there.
    pub fn takes_file(self) -> bool
        ensures { result ≡ takes_file self }
    {
        matches!(self, Look::Nothing | Look::File(_))
    }

    /// Whether a directory may be put there.
    pub fn takes_directory(self) -> bool
        ensures { result ≡ takes_directory self }
    {
        matches!(self, Look::Nothing)
    }

    /// Whether what stands there may be removed.
    pub fn is_removable(self) -> bool
        ensures { result ≡ is_removable self }
    {
        matches!(self, Look::File(_) | Look::Dir(true))
    }
}

/// One change of a world.
#[derive(Debug, Drop)]
pub enum Change {
    /// The file at this path gets these bytes. It is made where it is missing, with the directories above. It fits
    /// where no directory stands at the path and no file above.
    PutFile(Path, Bytes),
    /// A directory is made at this path, with the directories above. It fits where nothing stands at the path and no
    /// file above.
    PutDir(Path),
    /// What stands at this path is taken away. It fits for a file and for an empty directory.
    Remove(Path),
    /// What stands at this path gets these permissions. It fits where something stands.
    SetPerms(Path, Perms),
    /// The service gets this row. It fits where it has one.
    PutService(Name, ServiceRow),
    /// The lock gets this moment, in seconds since 1970.
    PutLock(Key, u64),
    /// The journal gets these bytes at its end.
    Append(Bytes),
}

impl Change {
    /// An equal change of its own.
    pub fn copy(&self, alloc: Global) -> Result<Change, NoMemory>
        ensures { IfOk result (λ c. c ≡ self.now) }
    {
        Ok(match self {
            Change::PutFile(path, bytes) => Change::PutFile(path.copy(alloc)?, bytes.copy(alloc)?),
            Change::PutDir(path) => Change::PutDir(path.copy(alloc)?),
            Change::Remove(path) => Change::Remove(path.copy(alloc)?),
            Change::SetPerms(path, perms) => {
                Change::SetPerms(path.copy(alloc)?, perms.copy(alloc)?)
            }
            Change::PutService(name, row) => Change::PutService(name.copy(alloc)?, *row),
            Change::PutLock(key, moment) => Change::PutLock(key.copy(), *moment),
            Change::Append(bytes) => Change::Append(bytes.copy(alloc)?),
        })
    }
}

/// The calls of a site.
#[derive(Clone, Copy, Debug, PartialEq, Eq)]
pub enum Call {
    Look,
    Read,
    Perms,
    Service,
    Lock,
    Change,
    Children,
}

/// What a site's log keeps of a call: a change that was made, or a call that was refused. Any other
/// call leaves no entry.
#[derive(Debug, Drop)]
pub enum Entry {
    Did(Change),
    Refused(Call),
}

/// A host, through which alone a run sees and changes the world.
pub trait Site {
    /// The world and the log, where the site tells them, and how often a call on it failed, as a number below 2 ^ 64
    /// that stands still at its end.
    ghost shown: { Self → Shown Told };

    /// What stands at the path. `Failed` is logged as refused.
    fn look(&mut self, alloc: Global, path: &Path) -> Result<Look, OutsideErr>
        ensures answer { IfOk result
            (λ look. IfSome (shown self.old).told (λ t. look ≡ look_of t.world path.now)) }
        ensures shown { Seen Call.Look (shown self.old) (shown self.new) result };

    /// The bytes of the file at the path, which has at most `MOST_FILE_BYTES` where the site tells it. `Failed` is
    /// logged as refused.
    fn read(&mut self, alloc: Global, path: &Path) -> Result<Bytes, OutsideErr>
        requires { IfSome (shown self.old).told
            (λ t. IsTrue (is_readable (map.get t.world.nodes path.now))) }
        ensures answer { IfOk result (λ bytes. IfSome (shown self.old).told
            (λ t. bytes_in (map.get t.world.nodes path.now) ≡ Some bytes)) }
        ensures shown { Seen Call.Read (shown self.old) (shown self.new) result };

    /// The permissions of what stands at the path: something does, where the site tells it. `Failed` is logged as
    /// refused.
    fn perms(&mut self, alloc: Global, path: &Path) -> Result<Perms, OutsideErr>
        requires { IfSome (shown self.old).told
            (λ t. IsTrue (map.contains_key t.world.nodes path.now)) }
        ensures answer { IfOk result (λ perms. IfSome (shown self.old).told
            (λ t. perms_in (map.get t.world.nodes path.now) ≡ Some perms)) }
        ensures shown { Seen Call.Perms (shown self.old) (shown self.new) result };

    /// How many nodes stand directly in the directory at the path: one stands there, where the site tells it. `Failed`
    /// is logged as refused.
    fn children(&mut self, alloc: Global, path: &Path) -> Result<u64, OutsideErr>
        requires { IfSome (shown self.old).told
            (λ t. IsTrue (is_directory (map.get t.world.nodes path.now))) }
        ensures answer { IfOk result (λ count. IfSome (shown self.old).told
            (λ t. count ≡ children_of t.world.nodes path.now)) }
        ensures shown { Seen Call.Children (shown self.old) (shown self.new) result };

    /// The row of the service; `None` where the host has no such service. `Failed` is logged as refused.
    fn service(&mut self, alloc: Global, name: &Name) -> Result<Option<ServiceRow>, OutsideErr>
        ensures answer { IfOk result (λ row. IfSome (shown self.old).told
            (λ t. row ≡ map.get t.world.services name.now)) }
        ensures shown { Seen Call.Service (shown self.old) (shown self.new) result };

    /// The moment of the lock; `None` where it was never taken. `Failed` is logged as refused.
    fn lock(&mut self, alloc: Global, key: &Key) -> Result<Option<u64>, OutsideErr>
        ensures answer { IfOk result (λ moment. IfSome (shown self.old).told
            (λ t. moment ≡ map.get t.world.locks key.now)) }
        ensures shown { Seen Call.Lock (shown self.old) (shown self.new) result };

    /// Makes the change, which fits the world where the site tells it, and logs it. `Failed` makes none, and is logged
    /// as refused.
    fn change(&mut self, alloc: Global, change: &Change) -> Result<(), OutsideErr>
        requires { IfSome (shown self.old).told (λ t. IsTrue (fits change.now t.world)) }
        ensures shown { Answered (λ _. Follows (adds (Did change.now ∷ [])))
            (adds (Refused Call.Change ∷ [])) (shown self.old) (shown self.new) result };

    /// Where a site tells its world, each node stands in directories up to the root.
    ghost parents: { (site : Self) → IfSome (shown site).told (λ t. HasParents t.world.nodes) };
}

/// The law that a world stays one: where each node's parent is a directory or the root, a change that fits keeps it so,
/// and so does a log whose changes fit.
pub fn keeps_parents()
    ensures change { ChangesKeepParents }
    ensures log { LogsKeepParents }
{}
