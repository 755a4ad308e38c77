// Modes in octal digits.
ghost use Rattle.std.specs.Prelude.{◌≡◌, ◌++◌, OnOk};
ghost use Rattle.cfa_base.specs.Octal.{mode_text};
ghost use Rattle.cfa_rows.specs.Rows.{Reads};
ghost use Rattle.cfa_tables.specs.Tables.{IsMode};

use cfa_base::{Bytes, NoMemory, are_octal_digits, octal_digit};

/// The mode that a text is in four octal digits.
pub fn read_mode(field: &[u8]) -> Option<u16>
    ensures { Reads mode_text IsMode field.now result }
{
    if field.len() != 4 || !are_octal_digits(field) {
        return None;
    }
    let [a, b, c, d] = [
        u16::from(field[0]) - 48,
        u16::from(field[1]) - 48,
        u16::from(field[2]) - 48,
        u16::from(field[3]) - 48,
    ];
    Some(a * 512 + b * 64 + c * 8 + d)
}

/// Adds the four octal digits of a mode at the end of bytes.
#[tactic(auto, unfolding(cfa_base::specs::Octal::mode_text))]
pub fn append_mode(bytes: &mut Bytes, mode: u16) -> Result<(), NoMemory>
    ensures { OnOk result (bytes.new ≡ bytes.old ++ mode_text mode) }
{
    bytes.append(&[
        octal_digit(mode / 512),
        octal_digit(mode / 64),
        octal_digit(mode / 8),
        octal_digit(mode),
    ])
}
