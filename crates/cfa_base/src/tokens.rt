// The kinds of a policy's tokens.

/// What kind of token stands in a policy's text. `And` is spelled `&`, and `Or` is spelled `|` or `||`.
#[derive(Clone, Copy, Debug, PartialEq, Eq)]
pub enum Kind {
    /// One or more ASCII letters, digits and underscores.
    Word,
    /// A quoted text, with its quotes.
    Text,
    /// `$(name)` or `${name}`.
    Ref,
    /// `@(name)` or `@{name}`.
    ListRef,
    FatArrow,
    ThinArrow,
    DoubleColon,
    Colon,
    Comma,
    Semicolon,
    OpenBrace,
    CloseBrace,
    OpenParen,
    CloseParen,
    Bang,
    Dot,
    And,
    Or,
}
