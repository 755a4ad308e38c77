// Attributes of promises and bodies.
ghost use Rattle.std.specs.Prelude.{◌≡◌, ◌++◌, map, OnOk};
ghost use Rattle.std.specs.List.{flat_map};
ghost use Rattle.cfa_printer.specs.OfTheCode.{Appends};
ghost use Rattle.cfa_tree.specs.Plain.{plain_attribute};
ghost use Rattle.cfa_printer.specs.Printing.{printed_attribute, printed_attributes, printed_body_attribute};

use crate::texts::{push_between, push_text};
use crate::values::push_value;
use cfa_base::NoMemory;
use cfa_tree::Attribute;

fn push_attribute(out: &mut String, attribute: &Attribute) -> Result<(), NoMemory>
    ensures { OnOk result
        (Appends out.old out.new (printed_attribute (plain_attribute attribute.now))) }
{
    out.push_str(attribute.name.as_str())?;
    out.push_str(" => ")?;
    push_value(out, &attribute.value)
}

/// Adds the attributes of a promise.
pub fn push_attributes(out: &mut String, attributes: &[Attribute]) -> Result<(), NoMemory>
    ensures { OnOk result
        (Appends out.old out.new (printed_attributes (map plain_attribute attributes.now))) }
{
    if attributes.is_empty() {
        return Ok(());
    }
    out.push_str(" ")?;
    for (i, attribute) in attributes.iter().enumerate() {
        push_between(out, i, ", ")?;
        push_attribute(out, attribute)?;
    }
    Ok(())
}

fn push_body_attribute(out: &mut String, attribute: &Attribute) -> Result<(), NoMemory>
    ensures { OnOk result
        (Appends out.old out.new (printed_body_attribute (plain_attribute attribute.now))) }
{
    out.push_str("  ")?;
    push_attribute(out, attribute)?;
    push_text(out, ";\n")
}

/// Adds the attributes of a body, each on its line.
pub fn push_body_attributes(out: &mut String, attributes: &[Attribute]) -> Result<(), NoMemory>
    ensures { OnOk result (Appends out.old out.new
        (flat_map printed_body_attribute (map plain_attribute attributes.now))) }
{
    for attribute in attributes {
        push_body_attribute(out, attribute)?;
    }
    Ok(())
}
