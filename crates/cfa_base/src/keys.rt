// Keys of locks.
ghost use Rattle.std.specs.Prelude.{◌≡◌, if◌then◌else◌, Some, None, IsTrue};
ghost use Rattle.std.specs.List.{list_all};
ghost use Rattle.cfa_base.specs.Keys.{is_key, is_hex_digit};

use std::marker::Model;

fn tests_as_hex_digit(byte: u8) -> bool
    ensures { result ≡ is_hex_digit byte }
{
    matches!(byte, b'0'..=b'9' | b'a'..=b'f')
}

fn tests_as_hex_digits(text: &[u8]) -> bool
    ensures { result ≡ list_all is_hex_digit text.now }
{
    text.iter().all(|byte| tests_as_hex_digit(*byte))
}

fn tests_as_key(text: &[u8]) -> bool
    ensures { result ≡ is_key text.now }
{
    text.len() == 64 && tests_as_hex_digits(text)
}

/// The key of a lock: 64 lower case hexadecimal digits, as SHA-256 is commonly written (FIPS 180-4 gives the
/// 32 bytes). Contracts see the list of the digits as ASCII.
#[derive(Debug, Drop)]
pub struct Key {
    digits: [u8; 64],
}

impl Model for Key {
    ghost use Rattle.std.specs.Prelude.{List, ℕ, ◌≡◌, true};
    ghost use Rattle.cfa_base.specs.Keys.{is_key};

    ghost Value = { List ℕ };

    ghost view = { λ k. k.digits };

    ghost invariant = { λ k. is_key k.digits ≡ true };
}

impl Key {
    /// The key that is written so, without taking memory. `None` for any other text, one with upper case digits
    /// included.
    pub fn read(text: &[u8]) -> Option<Key>
        ensures { result ≡ (if is_key text.now then Some text.now else None) }
    {
        if !tests_as_key(text) {
            return None;
        }
        let mut digits = [b'0'; 64];
        digits.copy_from_slice(text);
        Some(Key { digits })
    }

    /// The 64 digits, without taking memory.
    pub fn digits(&self) -> &[u8]
        ensures same { result.now ≡ self.now }
        ensures key { IsTrue (is_key self.now) }
    {
        &self.digits
    }

    /// An equal key of its own, without taking memory.
    pub fn copy(&self) -> Key
        ensures { result ≡ self.now }
    {
        Key {
            digits: self.digits,
        }
    }

    /// The 64 digits as a text, without taking memory.
    pub fn text(&self) -> &str
        ensures { result.now ≡ self.now }
    {
        match str::from_utf8(&self.digits) {
            Ok(text) => text,
            Err(_) => unreachable!(),
        }
    }
}
