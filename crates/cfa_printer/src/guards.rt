// Guards of promises.
ghost use Rattle.std.specs.Prelude.{◌≡◌, OnOk, map};
ghost use Rattle.cfa_printer.specs.OfTheCode.{Appends, guard_tree};
ghost use Rattle.cfa_tree.specs.Plain.{plain_expr};
ghost use Rattle.cfa_tree.specs.Tree.{expr_trees};
ghost use Rattle.cfa_printer.specs.Printing.{printed_guard, guard_line};
ghost use Rattle.cfa_printer.specs.SameExpr.{same_expr, same_exprs, same_guard};

use crate::expressions::{Around, push_expr};
use crate::texts::push_text;
use cfa_base::NoMemory;
use cfa_tree::Expr;

// Whether two class expressions are the same, part by part.
#[cycle(comparing)]
fn same_expr(a: &Expr, b: &Expr) -> bool
    ensures { result ≡ same_expr (plain_expr a.now) (plain_expr b.now) }
{
    match (a, b) {
        (Expr::Class(name), Expr::Class(other)) => name.as_str() == other.as_str(),
        (Expr::Not(inner), Expr::Not(other)) => same_expr(inner, other),
        (Expr::And(parts), Expr::And(others)) => same_exprs(parts.as_slice(), others.as_slice()),
        (Expr::Or(parts), Expr::Or(others)) => same_exprs(parts.as_slice(), others.as_slice()),
        _ => false,
    }
}

#[cycle(comparing)]
fn same_exprs(parts: &[Expr], others: &[Expr]) -> bool
    ensures { result ≡ same_exprs (expr_trees (map plain_expr parts.now))
        (expr_trees (map plain_expr others.now)) }
{
    if parts.len() != others.len() {
        return false;
    }
    for i in 0..parts.len() {
        if !same_expr(&parts[i], &others[i]) {
            return false;
        }
    }
    true
}

fn same_guard(a: Option<&Expr>, b: Option<&Expr>) -> bool
    ensures { result ≡ same_guard (guard_tree a.entry) (guard_tree b.entry) }
{
    match (a, b) {
        (None, None) => true,
        (None, Some(_)) => false,
        (Some(_), None) => false,
        (Some(a), Some(b)) => same_expr(a, b),
    }
}

fn push_guard(out: &mut String, guard: Option<&Expr>) -> Result<(), NoMemory>
    ensures { OnOk result (Appends out.old out.new (printed_guard (guard_tree guard.entry))) }
{
    match guard {
        None => push_text(out, "any"),
        Some(expr) => push_expr(out, expr, Around::Nothing),
    }
}

/// Adds the line of a guard, where it differs from that of the promise before.
pub fn push_guard_line(
    out: &mut String,
    before: Option<&Expr>,
    guard: Option<&Expr>,
) -> Result<(), NoMemory>
    ensures { OnOk result (Appends out.old out.new
        (guard_line (guard_tree before.entry) (guard_tree guard.entry))) }
{
    if same_guard(before, guard) {
        return Ok(());
    }
    out.push_str("    ")?;
    push_guard(out, guard)?;
    push_text(out, "::\n")
}
