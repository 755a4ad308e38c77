//! Classes: the reading and the value of class expressions, the statuses that classes were raised to, and the calendar
//! classes of a moment.
#![tactic(auto)]

mod calendar;

pub use calendar::hard;
pub use cfa_base::LAST_MOMENT;
pub use cfa_statuses::{Status, Statuses, value};
pub use cfa_tree::{ExprErr, read_expr};
