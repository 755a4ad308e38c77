// Byte strings.
ghost use Rattle.std.specs.Prelude.{◌≡◌, ◌++◌, List, ℕ, IfOk, OnOk, OnErr};

use crate::NoMemory;
use std::alloc::Global;
use std::marker::Model;

/// Any bytes, such as a file's content or a journal. Contracts see the list of the bytes.
#[derive(Debug, Drop)]
pub struct Bytes {
    items: Vec<u8>,
}

impl Model for Bytes {
    ghost Value = { List ℕ };

    ghost view = { λ b. b.items.items };
}

impl Bytes {
    /// The bytes of a `Vec`, without taking memory.
    pub fn from_vec(items: Vec<u8>) -> Bytes
        ensures { result ≡ items.items }
    {
        Bytes { items }
    }

    /// A copy of these bytes.
    pub fn from_slice(alloc: Global, bytes: &[u8]) -> Result<Bytes, NoMemory>
        ensures { IfOk result (λ b. b ≡ bytes.now) }
    {
        Ok(Bytes {
            items: Vec::from_slice(alloc, bytes)?,
        })
    }

    /// The bytes, without taking memory.
    pub fn as_slice(&self) -> &[u8]
        ensures { result.now ≡ self.now }
    {
        self.items.as_slice()
    }

    /// Adds bytes at the end; those that stand there aren't copied while there is room. After want of memory the bytes
    /// are as they were.
    pub fn append(&mut self, more: &[u8]) -> Result<(), NoMemory>
        ensures ok { OnOk result (self.new ≡ self.old ++ more.now) }
        ensures err { OnErr result (self.new ≡ self.old) }
    {
        self.items.extend_from_slice(more)?;
        Ok(())
    }

    /// An equal byte string of its own.
    pub fn copy(&self, alloc: Global) -> Result<Bytes, NoMemory>
        ensures { IfOk result (λ b. b ≡ self.now) }
    {
        Bytes::from_slice(alloc, self.as_slice())
    }
}
