// Sections, blocks and policies.
ghost use Rattle.std.specs.Prelude.{◌≡◌, ◌++◌, map, codes, IfOk, OnOk};
ghost use Rattle.std.specs.List.{flat_map};
ghost use Rattle.cfa_base.specs.Joined.{joined};
ghost use Rattle.cfa_printer.specs.OfTheCode.{Appends};
ghost use Rattle.cfa_tree.specs.Plain.{plain_named, plain_section, plain_block, plain_policy};
ghost use Rattle.cfa_printer.specs.Printing.{printed_name, printed_params, head_of, printed_section, printed_block, printed};

use crate::attributes::push_body_attributes;
use crate::promises::push_promises;
use crate::texts::{push_between, push_text};
use cfa_base::{Name, NoMemory};
use cfa_tree::{Block, Body, Bundle, Named, Policy, Section};
use std::alloc::Global;

fn push_section(out: &mut String, section: &Section) -> Result<(), NoMemory>
    ensures { OnOk result (Appends out.old out.new (printed_section (plain_section section.now))) }
{
    out.push_str("  ")?;
    out.push_str(section.kind.as_str())?;
    out.push_str(":\n")?;
    push_promises(out, &section.promises)
}

fn push_sections(out: &mut String, sections: &[Section]) -> Result<(), NoMemory>
    ensures { OnOk result
        (Appends out.old out.new (flat_map printed_section (map plain_section sections.now))) }
{
    for section in sections {
        push_section(out, section)?;
    }
    Ok(())
}

fn push_names(out: &mut String, names: &[Named]) -> Result<(), NoMemory>
    ensures { OnOk result (Appends out.old out.new
        (joined (codes ", ") (map printed_name (map plain_named names.now)))) }
{
    for (i, named) in names.iter().enumerate() {
        push_between(out, i, ", ")?;
        out.push_str(named.name.as_str())?;
    }
    Ok(())
}

fn push_params(out: &mut String, params: &[Named]) -> Result<(), NoMemory>
    ensures { OnOk result (Appends out.old out.new (printed_params (map plain_named params.now))) }
{
    if params.is_empty() {
        return Ok(());
    }
    out.push_str("(")?;
    push_names(out, params)?;
    push_text(out, ")")
}

// Adds a block up to its first brace, with its first word and the space behind it.
fn push_head(
    out: &mut String,
    first: &str,
    kind: &Named,
    name: &Named,
    params: &[Named],
) -> Result<(), NoMemory>
    ensures { OnOk result (Appends out.old out.new
        (head_of first.now (plain_named kind.now) (plain_named name.now)
        (map plain_named params.now))) }
{
    out.push_str(first)?;
    out.push_str(" ")?;
    out.push_str(kind.name.as_str())?;
    out.push_str(" ")?;
    out.push_str(name.name.as_str())?;
    push_params(out, params)?;
    push_text(out, "\n{\n")
}

fn push_bundle(out: &mut String, bundle: &Bundle) -> Result<(), NoMemory>
    ensures { OnOk result
        (Appends out.old out.new (printed_block (plain_block (Block.Bundle bundle.now)))) }
{
    push_head(
        out,
        "bundle",
        &bundle.kind,
        &bundle.name,
        bundle.params.as_slice(),
    )?;
    push_sections(out, bundle.sections.as_slice())?;
    push_text(out, "}\n")
}

fn push_body(out: &mut String, body: &Body) -> Result<(), NoMemory>
    ensures { OnOk result
        (Appends out.old out.new (printed_block (plain_block (Block.Body body.now)))) }
{
    push_head(out, "body", &body.kind, &body.name, body.params.as_slice())?;
    push_body_attributes(out, body.attributes.as_slice())?;
    push_text(out, "}\n")
}

fn push_block(out: &mut String, block: &Block) -> Result<(), NoMemory>
    ensures { OnOk result (Appends out.old out.new (printed_block (plain_block block.now))) }
{
    match block {
        Block::Bundle(bundle) => push_bundle(out, bundle),
        Block::Body(body) => push_body(out, body),
    }
}

/// The canonical text of a policy. For a policy that was read it reads back to the same policy, places aside
/// (`reading_back`). Each line ends with a newline, so that a policy without blocks is the empty text. The time is linear
/// in the tree.
pub fn print(alloc: Global, policy: &Policy) -> Result<Name, NoMemory>
    ensures { IfOk result (λ text. text ≡ printed (plain_policy policy.now)) }
{
    let mut out = String::new(alloc);
    for block in policy.blocks.as_slice() {
        push_block(&mut out, block)?;
    }
    Ok(Name::from_string(out)?)
}
