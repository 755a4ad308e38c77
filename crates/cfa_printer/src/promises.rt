// Promises.
ghost use Rattle.std.specs.Prelude.{◌≡◌, ◌<◌, ◌++◌, None, length, map, option_copied, option_map, OnOk};
ghost use Rattle.cfa_printer.specs.OfTheCode.{Appends, line_above};
ghost use Rattle.cfa_tree.specs.Plain.{plain_value, plain_promise};
ghost use Rattle.cfa_tree.specs.Repeats.{guard_at, guard_before};
ghost use Rattle.cfa_printer.specs.Printing.{printed_promisee, printed_promise, printed_promises};

use crate::attributes::push_attributes;
use crate::guards::push_guard_line;
use crate::texts::{push_quoted, push_text};
use crate::values::push_value;
use cfa_base::NoMemory;
use cfa_tree::{Expr, Promise, Promises, Value};

fn push_promisee(out: &mut String, promisee: &Option<Value>) -> Result<(), NoMemory>
    ensures { OnOk result
        (Appends out.old out.new (printed_promisee (option_map plain_value promisee.now))) }
{
    match promisee {
        None => Ok(()),
        Some(value) => {
            out.push_str(" -> ")?;
            push_value(out, value)
        }
    }
}

fn push_promise(out: &mut String, promise: &Promise) -> Result<(), NoMemory>
    ensures { OnOk result (Appends out.old out.new (printed_promise (plain_promise promise.now))) }
{
    out.push_str("    ")?;
    push_quoted(out, promise.promiser.as_str())?;
    push_promisee(out, &promise.promisee)?;
    push_attributes(out, promise.attributes.as_slice())?;
    push_text(out, ";\n")
}

// The guard of the promise at this index.
fn guard_at(promises: &[Promise], index: usize) -> Option<&Expr>
    requires { index < length promises.now }
    ensures { option_copied result ≡ guard_at promises.now index }
{
    match &promises[index].guard {
        None => None,
        Some(guard) => Some(guard.expr()),
    }
}

// The guard of the promise before the one at this index.
fn guard_before(promises: &[Promise], index: usize) -> Option<&Expr>
    requires { index < length promises.now }
    ensures { option_copied result ≡ guard_before promises.now index }
{
    if index == 0 {
        return None;
    }
    guard_at(promises, index - 1)
}

// Adds the line of the guard of the promise at this index. Two guards are compared only where a guard's line stood
// between their promises.
fn push_line_above(out: &mut String, promises: &Promises, index: usize) -> Result<(), NoMemory>
    requires { index < length promises.now }
    ensures { OnOk result (Appends out.old out.new (line_above promises.now index)) }
{
    if promises.repeats_guard(index) {
        return Ok(());
    }
    let items = promises.as_slice();
    push_guard_line(out, guard_before(items, index), guard_at(items, index))
}

/// Adds the promises of a section, with the lines of their guards.
pub fn push_promises(out: &mut String, promises: &Promises) -> Result<(), NoMemory>
    ensures { OnOk result
        (Appends out.old out.new (printed_promises None (map plain_promise promises.now))) }
{
    for (i, promise) in promises.as_slice().iter().enumerate() {
        push_line_above(out, promises, i)?;
        push_promise(out, promise)?;
    }
    Ok(())
}
