// Class expressions.
ghost use Rattle.std.specs.Prelude.{◌≡◌, ◌++◌, List, ℕ, OnOk};
ghost use Rattle.cfa_printer.specs.OfTheCode.{Appends};
ghost use Rattle.cfa_tree.specs.Plain.{plain_expr};
ghost use Rattle.cfa_printer.specs.Printing.{all_of_in, one_of_in, printed_expr};

use crate::texts::{push_between, push_text};
use cfa_base::NoMemory;
use cfa_tree::Expr;

/// What a class expression stands in, which says when it takes parentheses. What stands under `!` stands as in an And.
#[derive(Clone, Copy)]
pub enum Around {
    Nothing,
    Or,
    And,
}

// What stands before and behind an And.
fn around_all_of(around: Around) -> (&'static str, &'static str)
    ensures { (inner : List ℕ) → all_of_in around inner ≡ result.0.now ++ (inner ++ result.1.now) }
{
    match around {
        Around::Nothing => ("", ""),
        Around::Or => ("", ""),
        Around::And => ("(", ")"),
    }
}

// What stands before and behind an Or.
fn around_one_of(around: Around) -> (&'static str, &'static str)
    ensures { (inner : List ℕ) → one_of_in around inner ≡ result.0.now ++ (inner ++ result.1.now) }
{
    match around {
        Around::Nothing => ("", ""),
        Around::Or => ("(", ")"),
        Around::And => ("(", ")"),
    }
}

/// Adds a class expression.
pub fn push_expr(out: &mut String, expr: &Expr, around: Around) -> Result<(), NoMemory>
    ensures { OnOk result (Appends out.old out.new (printed_expr around (plain_expr expr.now))) }
{
    match expr {
        Expr::Class(name) => push_text(out, name.as_str()),
        Expr::Not(inner) => {
            out.push_str("!")?;
            push_expr(out, inner, Around::And)
        }
        Expr::And(parts) => {
            let (opening, closing) = around_all_of(around);
            out.push_str(opening)?;
            for (i, part) in parts.iter().enumerate() {
                push_between(out, i, ".")?;
                push_expr(out, part, Around::And)?;
            }
            out.push_str(closing)?;
            Ok(())
        }
        Expr::Or(parts) => {
            let (opening, closing) = around_one_of(around);
            out.push_str(opening)?;
            for (i, part) in parts.iter().enumerate() {
                push_between(out, i, "|")?;
                push_expr(out, part, Around::Or)?;
            }
            out.push_str(closing)?;
            Ok(())
        }
    }
}
