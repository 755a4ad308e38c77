// What calls answer.
ghost use Rattle.std.specs.Prelude.{◌≡◌};
ghost use Rattle.cfa_functions.specs.Functions.{limited, answer_for};

use cfa_base::{MOST_TEXT_BYTES, Name};

/// What a function call answers.
#[derive(Debug, Drop)]
pub enum Answer {
    /// The text of a text function.
    Text(Name),
    /// Whether the class of a class function holds.
    Class(bool),
    /// An argument refers to nothing, a list is none, a number is none of an item, or a pattern doesn't read.
    Unresolved,
    /// Nothing that can be told is unresolved, and an expanded argument or a text answer, also of a nested call, has
    /// more than 65,536 bytes.
    TooLong,
}

// Why a function lacks what it wants of its arguments.
#[derive(Clone, Copy)]
pub(crate) enum Lack {
    Missing,
    // It would stand in a text that is too long, and isn't looked at.
    Hidden,
}

impl Lack {
    pub(crate) fn answer(self) -> Answer
        ensures { result ≡ answer_for self }
    {
        match self {
            Lack::Missing => Answer::Unresolved,
            Lack::Hidden => Answer::TooLong,
        }
    }
}

pub(crate) fn limited(text: Name) -> Answer
    ensures { result ≡ limited text }
{
    if text.as_str().len() <= MOST_TEXT_BYTES {
        Answer::Text(text)
    } else {
        Answer::TooLong
    }
}
