// Records.
ghost use Rattle.std.specs.Prelude.{◌≡◌, IfOk, IsTrue};
ghost use Rattle.cfa_base.specs.Keys.{is_key};
ghost use Rattle.cfa_journal.specs.declared.records.Digest.TheVariants as Digest;

use cfa_base::{Key, Name, NoMemory, PromiseId};
use std::alloc::Global;
use std::marker::Model;
use std::rc::Rc;

/// A key that the copies of a digest have in common. Contracts see its digits.
#[derive(Debug, Drop)]
pub struct SharedKey {
    key: Rc<Key>,
}

impl Model for SharedKey {
    ghost use Rattle.std.specs.Prelude.{List, ℕ};

    ghost Value = { List ℕ };

    ghost view = { λ k. k.key.value };
}

impl SharedKey {
    /// A key of its own.
    pub fn new(alloc: Global, key: Key) -> Result<SharedKey, NoMemory>
        ensures { IfOk result (λ shared. shared ≡ key) }
    {
        let key = Rc::new(alloc, key)?;
        Ok(SharedKey { key })
    }

    /// The 64 digits, without taking memory.
    pub fn digits(&self) -> &[u8]
        ensures same { result.now ≡ self.now }
        ensures key { IsTrue (is_key self.now) }
    {
        self.key.as_ref().digits()
    }

    /// The same key for one digest more, without a copy of it.
    pub fn share(&self) -> Result<SharedKey, NoMemory>
        ensures { IfOk result (λ shared. shared ≡ self.now) }
    {
        let key = self.key.clone()?;
        Ok(SharedKey { key })
    }
}

/// What a journal tells of a file's content.
#[derive(Debug, Drop)]
pub enum Digest {
    /// There is no file.
    Nothing,
    /// The file has too many bytes, and isn't read for its digest.
    Over,
    /// The SHA-256 of its bytes.
    Sha(SharedKey),
}

impl Digest {
    /// The digest of a content of this SHA-256.
    pub fn of(alloc: Global, key: Key) -> Result<Digest, NoMemory>
        ensures { IfOk result (λ digest. digest ≡ Digest.Sha key) }
    {
        Ok(Digest::Sha(SharedKey::new(alloc, key)?))
    }

    /// The same digest once more, without a copy of its key.
    pub fn share(&self) -> Result<Digest, NoMemory>
        ensures { IfOk result (λ digest. digest ≡ self.now) }
    {
        match self {
            Digest::Nothing => Ok(Digest::Nothing),
            Digest::Over => Ok(Digest::Over),
            Digest::Sha(key) => Ok(Digest::Sha(key.share()?)),
        }
    }
}

/// A record of a journal. Instances with acts are numbered from 1 in their run, reasons are those of failures, from 1 to
/// 13, and moments are seconds since 1970.
#[derive(Debug, Drop)]
pub enum Record {
    /// A run of version 1 begins at this moment. It has no `File`.
    Run(u64),
    /// A run of version 2 begins at this moment.
    Run2(u64),
    /// The first change of an instance comes next: its number, its promise, the key of its lock.
    Open(u32, PromiseId, Key),
    /// An instance writes a file next: its number, the file's path, what stands there, and what is to stand there.
    File(u32, Name, Digest, Digest),
    /// The last change of an instance was made: its number, and its changes.
    Repaired(u32, u32),
    /// An instance failed after a change was begun: its number, and the reason.
    Failed(u32, u8),
    /// An instance failed before any change: its number, its promise, the key of its lock, the reason.
    Fail(u32, PromiseId, Key, u8),
}
