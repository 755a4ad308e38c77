// Texts and their lines.
ghost use Rattle.std.specs.Prelude.{◌≡◌, IfOk};
ghost use Rattle.cfa_lines.specs.Decks.{lines_of, text_of};

use cfa_base::{Name, Names, NoMemory};
use cfa_lines::Deck;
use std::alloc::Global;

/// The lines of a text.
pub fn split_lines(alloc: Global, text: &str) -> Result<Names, NoMemory>
    ensures { IfOk result (λ lines. lines ≡ lines_of text.now) }
{
    cfa_lines::split_lines(alloc, text)
}

/// The text of lines: each of them followed by a newline.
pub fn join_lines(alloc: Global, lines: &Names) -> Result<Name, NoMemory>
    ensures { IfOk result (λ text. text ≡ text_of lines.now) }
{
    Deck::from_names(alloc, lines)?.to_text(alloc)
}
