// What changes nothing that is read of an environment or a scope.
ghost use Rattle.std.specs.Prelude.{◌≡◌, ◌+◌, ◌↔◌, IfOk, IsTrue, Some, option_copied};
ghost use Rattle.std.specs.Option.{option_or};
ghost use Rattle.cfa_vars.specs.Named.{thing_at};
ghost use Rattle.cfa_states.specs.Kept.{IsRaised};

use cfa_base::{Name, NoMemory, PromiseId, are_same_names, is_same_name};
use cfa_outcomes::Environment;
use cfa_statuses::Status;
use cfa_vars::{Datum, Scope};

/// One change more.
pub(crate) fn one_more(changes: u64) -> Result<u64, NoMemory>
    ensures { IfOk result (λ more. more ≡ changes + 1) }
{
    changes.checked_add(1).ok_or(NoMemory)
}

// Whether a class with this source keeps it where it is raised by another.
fn is_sourced(known: Option<&PromiseId>, source: &Option<PromiseId>) -> bool
    ensures { IsTrue result
        ↔ (option_or (option_copied known.entry) source.now ≡ option_copied known.entry) }
{
    match known {
        Some(_) => true,
        None => source.is_none(),
    }
}

/// Whether a raise leaves the status and the source of its class as they are.
pub(crate) fn is_raised(
    environment: &Environment,
    class: &Name,
    to: Status,
    source: &Option<PromiseId>,
) -> bool
    ensures { IsTrue result ↔ IsRaised environment.now class.now to source.now }
{
    let status = environment.status(class);
    if status.greater(to) != status {
        return false;
    }
    is_sourced(environment.source(class), source)
}

fn is_same_datum(datum: &Datum, other: &Datum) -> bool
    ensures { IsTrue result ↔ (datum.now ≡ other.now) }
{
    match datum {
        Datum::Text(text) => match other {
            Datum::Text(held) => is_same_name(text, held),
            Datum::List(_) => false,
        },
        Datum::List(items) => match other {
            Datum::Text(_) => false,
            Datum::List(held) => are_same_names(items.as_slice(), held.as_slice()),
        },
    }
}

/// Whether a variable of a scope is set to this.
pub(crate) fn is_set_to(scope: &Scope, name: &Name, datum: &Datum) -> bool
    ensures { IsTrue result ↔ (thing_at scope.now name.now ≡ Some datum.now) }
{
    match scope.get(name) {
        None => false,
        Some(held) => is_same_datum(held, datum),
    }
}
