// A source with blanks in the place of a statement, in which all else stands where it stood.
ghost use Rattle.std.specs.Prelude.{◌≡◌, ◌+◌, ◌^◌, ◌<◌, IfOk, map};
ghost use Rattle.cfa_base.specs.Lexing.{is_newline, place_past};
ghost use Rattle.cfa_advice.specs.Blanks.{IsNumbered, IsBlanked, shown_of};

use cfa_base::{Place, is_before};
use std::alloc::{AllocError, Global};

/// The place of the first byte of a source.
pub const FIRST_PLACE: Place = Place {
    file: 0,
    line: 1,
    col: 1,
};

/// The place behind a byte that stands at a place.
pub fn behind_byte(place: Place, byte: u8) -> Place
    ensures { place.line + 1 < 2 ^ 32 → place.col + 1 < 2 ^ 32 → result ≡ place_past place byte }
{
    let is_last = byte == b'\n';
    Place {
        file: place.file,
        line: place.line.saturating_add(u32::from(is_last)),
        col: if is_last {
            1
        } else {
            place.col.saturating_add(1)
        },
    }
}

/// The source with blanks from one place on up to another. Its lines are as many and as long as before.
pub fn blanked(alloc: Global, source: &[u8], from: Place, to: Place) -> Result<Vec<u8>, AllocError>
    ensures newlines { IfOk result
        (λ bytes. map is_newline bytes.items ≡ map is_newline source.now) }
    ensures bytes { IfOk result
        (λ bytes. IsNumbered source.now → IsBlanked source.now from to bytes.items) }
{
    let mut bytes = Vec::new(alloc);
    let mut place = FIRST_PLACE;
    for byte in source {
        let is_blank = !is_before(place, from) && is_before(place, to);
        bytes.push(shown_byte(*byte, is_blank))?;
        place = behind_byte(place, *byte);
    }
    Ok(bytes)
}

fn shown_byte(byte: u8, is_blank: bool) -> u8
    ensures { result ≡ shown_of is_blank byte }
{
    if is_blank && byte != b'\n' {
        b' '
    } else {
        byte
    }
}
