// Clashes.

/// Two edits of a script that break a rule of the table of clashes, or one that breaks it by itself.
#[derive(Clone, Copy, Debug, PartialEq, Eq)]
pub struct Clash {
    /// The number of the one that stands first in the script, from 1.
    pub first: u32,
    /// The number of the other; the same where an edit clashes with itself.
    pub second: u32,
    /// The number of the rule, from 1 to 6.
    pub rule: u8,
}
