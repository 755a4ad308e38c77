// Plain texts, and what two texts have in common.
ghost use Rattle.std.specs.Prelude.{◌≡◌, IfOk};
ghost use Rattle.std.specs.List.{list_all};
ghost use Rattle.std.specs.Str.{chars};
ghost use Rattle.cfa_edit_proof.specs.Plain as plain;

use cfa_base::NoMemory;
use std::alloc::Global;

/// Whether the text is plain.
pub fn is_plain(text: &str) -> bool
    ensures { result ≡ plain.is_plain text.now }
{
    !text.is_empty() && are_plain(text.as_bytes())
}

fn are_plain(bytes: &[u8]) -> bool
    ensures { result ≡ list_all plain.is_plain_byte bytes.now }
{
    for byte in bytes {
        if !is_plain_byte(*byte) {
            return false;
        }
    }
    true
}

fn is_plain_byte(byte: u8) -> bool
    ensures { result ≡ plain.is_plain_byte byte }
{
    byte.is_ascii_alphanumeric() || byte == b'_' || byte == b' '
}

/// Whether the text stands somewhere in the line.
pub fn contains(line: &str, text: &str) -> bool
    ensures { result ≡ plain.contains line.now text.now }
{
    line.contains(text)
}

/// The characters of a text.
pub fn chars_of(alloc: Global, text: &str) -> Result<Vec<char>, NoMemory>
    ensures { IfOk result (λ list. list.items ≡ chars text.now) }
{
    Ok(text.chars().collect(alloc)?)
}

/// Whether the character is one of these.
pub fn is_in(chars: &[char], c: char) -> bool
    ensures { result ≡ plain.is_in chars.now c }
{
    for d in chars {
        if c == *d {
            return true;
        }
    }
    false
}

/// Whether one of the characters is one of the others.
pub fn share(chars: &[char], others: &[char]) -> bool
    ensures { result ≡ plain.share chars.now others.now }
{
    for c in chars {
        if is_in(others, *c) {
            return true;
        }
    }
    false
}
