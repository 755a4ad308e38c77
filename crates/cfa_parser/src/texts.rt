// What the spelling of a token means.
ghost use Rattle.std.specs.Prelude.{◌≡◌, ◌++◌, ◌∷◌, ℕ, List, IfOk, IfErr, IsTrue, false};
ghost use Rattle.std.specs.Str.{IsUtf8};
ghost use Rattle.cfa_base.specs.Lexing.{content_of, name_of, is_quoted, is_reference, is_escapable, unescaped};
ghost use Rattle.cfa_parser.specs.Seen.{OnlyMemory};

use crate::ParseErr;
use cfa_base::{Name, NoMemory};
use std::alloc::Global;

// Whether a backslash before this byte is dropped.
fn is_escapable(byte: u8) -> bool
    ensures { result ≡ is_escapable byte }
{
    matches!(byte, b'"' | b'\'' | b'\\')
}

// Adds what a byte between quotes stands for, and says whether it is a backslash that awaits the next byte.
fn push_unescaped(content: &mut Vec<u8>, behind_backslash: bool, byte: u8) -> Result<bool, ParseErr>
    ensures ok { IfOk result
        (λ behind. (rest : List ℕ) → content.new.items ++ unescaped behind rest
        ≡ content.old.items ++ unescaped behind_backslash (byte ∷ rest)) }
    ensures memory { IfErr result OnlyMemory }
{
    if behind_backslash {
        if !is_escapable(byte) {
            content.push(b'\\')?;
        }
        content.push(byte)?;
        Ok(false)
    } else if byte == b'\\' {
        Ok(true)
    } else {
        content.push(byte)?;
        Ok(false)
    }
}

// The bytes between two quotes, without the backslashes that are dropped.
fn unescaped(alloc: Global, bytes: &[u8]) -> Result<Vec<u8>, ParseErr>
    ensures ok { IfOk result (λ v. v.items ≡ unescaped false bytes.now) }
    ensures memory { IfErr result OnlyMemory }
{
    let mut content = Vec::with_capacity(alloc, bytes.len())?;
    let mut behind_backslash = false;
    for byte in bytes {
        behind_backslash = push_unescaped(&mut content, behind_backslash, *byte)?;
    }
    if behind_backslash {
        content.push(b'\\')?;
    }
    Ok(content)
}

fn name_from_utf8(bytes: Vec<u8>) -> Result<Name, NoMemory>
    requires { IsUtf8 bytes.items }
    ensures { IfOk result (λ name. name ≡ bytes.items) }
{
    Name::from_string(String::from_utf8(bytes).unwrap())
}

/// The content of a quoted text.
pub fn content(alloc: Global, text: &str) -> Result<Name, ParseErr>
    requires { IsTrue (is_quoted text.now) }
    ensures ok { IfOk result (λ n. n ≡ content_of text.now) }
    ensures memory { IfErr result OnlyMemory }
{
    let inner = &text.as_bytes()[1..text.len() - 1];
    Ok(name_from_utf8(unescaped(alloc, inner)?)?)
}

/// The name in the brackets of a reference, which begins with this sign.
pub fn referred_name(alloc: Global, sign: u8, text: &str) -> Result<Name, ParseErr>
    requires { IsTrue (is_reference sign text.now) }
    ensures ok { IfOk result (λ n. n ≡ name_of text.now) }
    ensures memory { IfErr result OnlyMemory }
{
    let inner = &text.as_bytes()[2..text.len() - 1];
    Ok(name_from_utf8(Vec::from_slice(alloc, inner)?)?)
}
