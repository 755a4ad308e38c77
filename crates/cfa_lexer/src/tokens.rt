// The tokens of a source.
ghost use Rattle.std.specs.Prelude.{IsTrue};
ghost use Rattle.cfa_base.specs.Lexing.{spells};

use cfa_base::{Kind, Place};

/// A token of a source: its kind, its slice of the source, and the place of its first byte. The text spells a token of
/// the kind, and whoever makes a token by hand has to show that it does.
#[derive(Clone, Copy, Debug, PartialEq, Eq)]
pub struct Token<'a> {
    pub kind: Kind,
    pub text: &'a str,
    pub place: Place,
    pub ghost spelled: { IsTrue (spells kind text.now) },
}
