// The codes and the words of reasons.
ghost use Rattle.std.specs.Prelude.{◌≡◌};
ghost use Rattle.cfa_acts.specs.Reasons.{code_of, word_of};

use crate::Reason;

impl Reason {
    /// The code, from F1 to F13, without taking memory.
    pub fn code(self) -> &'static str
        ensures { result.now ≡ code_of self }
    {
        match self {
            Reason::BadPath => "F1",
            Reason::Missing => "F2",
            Reason::Obstructed => "F3",
            Reason::NotText => "F4",
            Reason::NonConvergent => "F5",
            Reason::NoAnchor => "F6",
            Reason::FieldCount => "F7",
            Reason::UnknownService => "F8",
            Reason::BadPattern => "F9",
            Reason::BadValue => "F10",
            Reason::Fault => "F11",
            Reason::TooLong => "F12",
            Reason::TooMany => "F13",
        }
    }

    /// The word that stands behind the code, without taking memory.
    pub fn word(self) -> &'static str
        ensures { result.now ≡ word_of self }
    {
        match self {
            Reason::BadPath => "BadPath",
            Reason::Missing => "Missing",
            Reason::Obstructed => "Obstructed",
            Reason::NotText => "NotText",
            Reason::NonConvergent => "NonConvergent",
            Reason::NoAnchor => "NoAnchor",
            Reason::FieldCount => "FieldCount",
            Reason::UnknownService => "UnknownService",
            Reason::BadPattern => "BadPattern",
            Reason::BadValue => "BadValue",
            Reason::Fault => "Fault",
            Reason::TooLong => "TooLong",
            Reason::TooMany => "TooMany",
        }
    }
}
