// Escaped fields.
ghost use Rattle.std.specs.Prelude.{◌≡◌, IfOk};
ghost use Rattle.cfa_base.specs.declared.escapes.FieldErr.TheVariants.{NoMemory};
ghost use Rattle.cfa_base.specs.Escapes.{escaped, IsField, FieldsTellTexts};

use crate::{Name, want_of_memory as memory};
use percent_encoding::{
    AsciiSet, DecodeError, NON_ALPHANUMERIC, ascii_set, percent_decode, percent_encode,
};
use std::alloc::{AllocError, Global};
use thiserror::Error;

// The ASCII bytes that no field keeps.
const ESCAPED: AsciiSet = ascii_set!(
    NON_ALPHANUMERIC
        .remove(b'-')
        .remove(b'.')
        .remove(b'/')
        .remove(b'_')
        .remove(b'~')
);

/// Why a text can't be read as an escaped field.
#[derive(Clone, Copy, Debug, PartialEq, Eq, Error)]
pub enum FieldErr {
    /// It is the escaped field of no text.
    #[error("no escaped field in its written form")]
    BadField,
    #[error("out of memory")]
    NoMemory,
}

impl From<AllocError> for FieldErr {
    ghost from_gives = { λ _ e. e ≡ NoMemory };

    fn from(_: AllocError) -> Self {
        FieldErr::NoMemory
    }
}

impl From<memory::NoMemory> for FieldErr {
    ghost from_gives = { λ _ e. e ≡ NoMemory };

    fn from(_: memory::NoMemory) -> Self {
        FieldErr::NoMemory
    }
}

/// The escaped field of a text (RFC 3986, percent-encoding).
pub fn escape(alloc: Global, text: &Name) -> Result<Name, memory::NoMemory>
    ensures { IfOk result (λ field. field ≡ escaped text.now) }
{
    escape_bytes(alloc, text.as_str().as_bytes())
}

/// The same of a text that stands in bytes.
pub fn escape_bytes(alloc: Global, text: &[u8]) -> Result<Name, memory::NoMemory>
    ensures { IfOk result (λ field. field ≡ escaped text.now) }
{
    let mut field = String::new(alloc);
    percent_encode(text, ESCAPED).append_to(&mut field)?;
    Ok(Name::from_string(field)?)
}

/// The text whose escaped field this is. Other spellings, as `%2F` for a slash or `%c3` in lower case, are the field of no
/// text, and neither is one of bytes that aren't UTF-8.
pub fn unescape(alloc: Global, field: &Name) -> Result<Name, FieldErr>
    ensures ok { IfOk result (λ text. escaped text ≡ field.now) }
    ensures bad { result ≡ Err FieldErr.BadField → ¬ IsField field.now }
{
    unescape_bytes(alloc, field.as_str().as_bytes())
}

/// The same of a field that stands in bytes.
pub fn unescape_bytes(alloc: Global, field: &[u8]) -> Result<Name, FieldErr>
    ensures ok { IfOk result (λ text. escaped text ≡ field.now) }
    ensures bad { result ≡ Err FieldErr.BadField → ¬ IsField field.now }
{
    let text = match percent_decode(field).decode_utf8(alloc) {
        Ok(text) => Name::from_string(text.into_owned(alloc)?)?,
        Err(DecodeError::Utf8(_)) => return Err(FieldErr::BadField),
        Err(DecodeError::OutOfMemory) => return Err(FieldErr::NoMemory),
    };
    if escape(alloc, &text)?.as_str().as_bytes() == field {
        Ok(text)
    } else {
        Err(FieldErr::BadField)
    }
}

/// The law that equal fields are equal texts. So `unescape` gives back the text of which `escape` made the field.
pub fn fields_tell_texts()
    ensures { FieldsTellTexts }
{}
