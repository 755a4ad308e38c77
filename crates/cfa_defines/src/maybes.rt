// The first class that may be set or not.
ghost use Rattle.std.specs.Prelude.{◌≡◌, map, option_copied, option_map};
ghost use Rattle.cfa_statuses.specs.Raised.{greater_in};
ghost use Rattle.cfa_tree.specs.Plain.{plain_expr};
ghost use Rattle.cfa_tree.specs.Tree.{expr_trees};
ghost use Rattle.cfa_defines.specs.FirstMaybe.{first_maybe, first_maybe_among, first_maybe_of_guard};

use cfa_base::Name;
use cfa_statuses::{Status, Statuses};
use cfa_tree::{Expr, Guard};

/// The first class of an expression, in text order, whose status is Maybe, without taking memory. A class has the greater
/// of its global and its local status.
#[cycle(naming)]
pub fn first_maybe<'a>(expr: &'a Expr, global: &Statuses, local: &Statuses) -> Option<&'a Name>
    ensures { option_copied result
        ≡ first_maybe (plain_expr expr.now) (greater_in global.now local.now) }
{
    match expr {
        Expr::Class(name) => match global.get(name).greater(local.get(name)) {
            Status::No => None,
            Status::Maybe => Some(name),
            Status::Yes => None,
        },
        Expr::Not(inner) => first_maybe(inner, global, local),
        Expr::And(parts) => first_maybe_among(parts.as_slice(), global, local),
        Expr::Or(parts) => first_maybe_among(parts.as_slice(), global, local),
    }
}

#[cycle(naming)]
fn first_maybe_among<'a>(parts: &'a [Expr], global: &Statuses, local: &Statuses) -> Option<&'a Name>
    ensures { option_copied result
        ≡ first_maybe_among (expr_trees (map plain_expr parts.now))
        (greater_in global.now local.now) }
{
    for part in parts {
        if let Some(name) = first_maybe(part, global, local) {
            return Some(name);
        }
    }
    None
}

/// The first class of a guard whose status is Maybe, without taking memory.
pub fn first_maybe_of_guard<'a>(
    guard: &'a Option<Guard>,
    global: &Statuses,
    local: &Statuses,
) -> Option<&'a Name>
    ensures { option_copied result
        ≡ first_maybe_of_guard (option_map plain_expr guard.now) (greater_in global.now local.now) }
{
    match guard {
        None => None,
        Some(guard) => first_maybe(guard.expr(), global, local),
    }
}
