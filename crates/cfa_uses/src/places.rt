// Places in a source.
ghost use Rattle.cfa_uses.specs.Statements.{IsBehind};

use cfa_advice::behind_byte;
use cfa_base::Place;

// So many bytes further on in its line.
pub fn further(place: Place, count: u32) -> Place {
    Place {
        file: place.file,
        line: place.line,
        col: place.col.saturating_add(count),
    }
}

/// Behind a text that begins at a place.
pub fn behind(place: Place, text: &str) -> Place
    ensures { IsBehind place text.now result }
{
    let mut end = place;
    for byte in text.as_bytes() {
        end = behind_byte(end, *byte);
    }
    end
}
