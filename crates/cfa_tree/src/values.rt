// Values: promisees, and what stands behind an attribute's arrow.
use cfa_base::{Name, Place};

/// A value, with the place where it begins.
#[derive(Drop)]
pub enum Value {
    /// A quoted text without its quotes, where a backslash before a quote or a backslash is dropped.
    Text(Name, Place),
    Word(Name, Place),
    /// A reference by the name in its brackets.
    Ref(Name, Place),
    /// A list reference by the name in its brackets.
    ListRef(Name, Place),
    List(Vec<Value>, Place),
    /// A word with arguments in parentheses; the place is that of the word.
    Call(Name, Vec<Value>, Place),
}
