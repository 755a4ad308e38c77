// The value of a class expression.
ghost use Rattle.std.specs.Prelude.{◌≡◌};
ghost use Rattle.cfa_tree.specs.Plain.{plain_expr};
ghost use Rattle.cfa_statuses.specs.Status.{value_of};
ghost use Rattle.cfa_statuses.specs.Raised.{greater_in};

use crate::{Status, Statuses};
use cfa_tree::Expr;

/// The value of an expression where each class has the greater of its global and its local status, without taking
/// memory.
pub fn value(expr: &Expr, global: &Statuses, local: &Statuses) -> Status
    ensures { result ≡ value_of (plain_expr expr.now) (greater_in global.now local.now) }
{
    match expr {
        Expr::Class(name) => global.get(name).greater(local.get(name)),
        Expr::Not(inner) => value(inner, global, local).swapped(),
        Expr::And(parts) => {
            let mut least = Status::Yes;
            for part in parts {
                least = least.lesser(value(part, global, local));
            }
            least
        }
        Expr::Or(parts) => {
            let mut greatest = Status::No;
            for part in parts {
                greatest = greatest.greater(value(part, global, local));
            }
            greatest
        }
    }
}
