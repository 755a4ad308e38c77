// The place after some bytes.
ghost use Rattle.std.specs.Prelude.{◌≡◌, ◌+◌, ◌^◌, ◌<◌, length};
ghost use Rattle.cfa_base.specs.Lexing.{place_after, first_place};

use cfa_base::Place;

/// The place of a file's first byte.
pub fn first_place(file: u16) -> Place
    ensures { result ≡ first_place file }
{
    Place {
        file,
        line: 1,
        col: 1,
    }
}

/// The place after bytes that begin at a place.
pub fn place_after(place: Place, bytes: &[u8]) -> Place
    requires lines { place.line + length bytes.now < 2 ^ 32 }
    requires columns { place.col + length bytes.now < 2 ^ 32 }
    ensures { result ≡ place_after place bytes.now }
{
    let mut line = place.line;
    let mut col = place.col;
    for byte in bytes {
        if *byte == b'\n' {
            line += 1;
            col = 1;
        } else {
            col += 1;
        }
    }
    Place {
        file: place.file,
        line,
        col,
    }
}
