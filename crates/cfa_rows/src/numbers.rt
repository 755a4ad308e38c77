// Numbers in rows.
ghost use Rattle.std.specs.Prelude.{◌≡◌, ◌++◌, ◌<◌, ◌^◌, OnErr, OnOk};
ghost use Rattle.std.specs.Fmt.{decimal};
ghost use Rattle.cfa_rows.specs.Rows.{Reads};

use cfa_base::{Bytes, NoMemory, is_decimal};
use std::alloc::Global;
use std::str;

/// The number that a text is in decimal, without a sign and without a leading zero. `None` for any other text, and for
/// numbers past 64 bits.
pub fn read_number(text: &[u8]) -> Option<u64>
    ensures { Reads decimal (λ n. n < 2 ^ 64) text.now result }
{
    if !is_decimal(text) {
        return None;
    }
    match str::from_utf8(text) {
        Ok(digits) => digits.parse().ok(),
        Err(_) => None,
    }
}

/// Adds a number in decimal at the end of bytes. After want of memory they are as they were.
pub fn append_number(alloc: Global, bytes: &mut Bytes, number: u64) -> Result<(), NoMemory>
    ensures ok { OnOk result (bytes.new ≡ bytes.old ++ decimal number) }
    ensures err { OnErr result (bytes.new ≡ bytes.old) }
{
    bytes.append(format!(in alloc; "{number}")?.as_bytes())
}
