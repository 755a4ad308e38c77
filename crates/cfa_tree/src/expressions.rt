// Class expressions.
use cfa_base::Name;

/// A class expression. `And` and `Or` of a tree that was read have two or more parts.
#[derive(Drop)]
pub enum Expr {
    /// A class by its name.
    Class(Name),
    Not(Box<Expr>),
    And(Vec<Expr>),
    Or(Vec<Expr>),
}
