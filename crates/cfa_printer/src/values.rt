// Values.
ghost use Rattle.std.specs.Prelude.{◌≡◌, ◌++◌, codes, map, OnOk};
ghost use Rattle.cfa_base.specs.Joined.{joined};
ghost use Rattle.cfa_printer.specs.OfTheCode.{Appends};
ghost use Rattle.cfa_tree.specs.Plain.{plain_value};
ghost use Rattle.cfa_printer.specs.Printing.{in_parentheses, listed, printed_value};

use crate::texts::{push_between, push_quoted, push_text};
use cfa_base::NoMemory;
use cfa_tree::Value;

// Adds a text in parentheses.
fn push_in_parentheses(out: &mut String, inner: &str) -> Result<(), NoMemory>
    ensures { OnOk result (Appends out.old out.new (in_parentheses inner.now)) }
{
    out.push_str("(")?;
    out.push_str(inner)?;
    push_text(out, ")")
}

// Adds a reference, as `$(name)`.
fn push_reference(out: &mut String, sign: &str, name: &str) -> Result<(), NoMemory>
    ensures { OnOk result (Appends out.old out.new (sign.now ++ in_parentheses name.now)) }
{
    out.push_str(sign)?;
    push_in_parentheses(out, name)
}

/// Adds a value.
#[cycle(printing)]
pub fn push_value(out: &mut String, value: &Value) -> Result<(), NoMemory>
    ensures { OnOk result (Appends out.old out.new (printed_value (plain_value value.now))) }
{
    match value {
        Value::Text(content, _) => push_quoted(out, content.as_str()),
        Value::Word(name, _) => push_text(out, name.as_str()),
        Value::Ref(name, _) => push_reference(out, "$", name.as_str()),
        Value::ListRef(name, _) => push_reference(out, "@", name.as_str()),
        Value::List(items, _) => push_list(out, items.as_slice()),
        Value::Call(function, arguments, _) => {
            push_call(out, function.as_str(), arguments.as_slice())
        }
    }
}

// Adds values with a comma between each two.
#[cycle(printing)]
fn push_values(out: &mut String, values: &[Value]) -> Result<(), NoMemory>
    ensures { OnOk result (Appends out.old out.new
        (joined (codes ", ") (map (λ v. printed_value (plain_value v)) values.now))) }
{
    for (i, value) in values.iter().enumerate() {
        push_between(out, i, ", ")?;
        push_value(out, value)?;
    }
    Ok(())
}

#[cycle(printing)]
fn push_list(out: &mut String, items: &[Value]) -> Result<(), NoMemory>
    ensures { OnOk result (Appends out.old out.new
        (listed (map (λ v. printed_value (plain_value v)) items.now))) }
{
    if items.is_empty() {
        return push_text(out, "{ }");
    }
    out.push_str("{ ")?;
    push_values(out, items)?;
    push_text(out, " }")
}

#[cycle(printing)]
fn push_call(out: &mut String, function: &str, arguments: &[Value]) -> Result<(), NoMemory>
    ensures { OnOk result (Appends out.old out.new (function.now ++ in_parentheses
        (joined (codes ", ") (map (λ v. printed_value (plain_value v)) arguments.now)))) }
{
    out.push_str(function)?;
    out.push_str("(")?;
    push_values(out, arguments)?;
    push_text(out, ")")
}
