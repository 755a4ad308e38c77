//! Locks: the key of a text, and when what was done is due again; and the digest of a file's content.
#![tactic(auto)]

ghost use Rattle.std.specs.Prelude.{◌≡◌, IfOk};
ghost use Rattle.cfa_locks.specs.Locks.{digest_of, key_of, is_due};

use cfa_base::{Bytes, Key, Name, NoMemory};
use sha2::{Digest, Sha256};
use std::alloc::Global;

// The SHA-256 (FIPS 180-4) of some bytes in lower case hexadecimal digits.
fn digits(alloc: Global, bytes: &[u8]) -> Result<Key, NoMemory>
    ensures { IfOk result (λ key. key ≡ digest_of bytes.now) }
{
    let digest = Sha256::digest(bytes);
    let digits = hex::encode(alloc, digest)?;
    match Key::read(digits.as_bytes()) {
        Some(key) => Ok(key),
        None => unreachable!(),
    }
}

/// The key of a text: its SHA-256 in lower case hexadecimal digits.
pub fn key(alloc: Global, text: &Name) -> Result<Key, NoMemory>
    ensures { IfOk result (λ key. key ≡ key_of text.now) }
{
    digits(alloc, text.as_str().as_bytes())
}

/// The digest of a content: its SHA-256 in lower case hexadecimal digits, as `sha256sum` prints it.
pub fn digest(alloc: Global, bytes: &Bytes) -> Result<Key, NoMemory>
    ensures { IfOk result (λ key. key ≡ digest_of bytes.now) }
{
    digits(alloc, bytes.as_slice())
}

/// Whether what was last done at a moment is due again: so many whole minutes lie between the two moments, or the last one
/// lies in the future. Moments are seconds since 1970. It takes no memory.
pub fn due(last: u64, now: u64, ifelapsed: u32) -> bool
    ensures { result ≡ is_due last now ifelapsed }
{
    now < last || (now - last) / 60 >= u64::from(ifelapsed)
}
