// Texts in quotes.
ghost use Rattle.std.specs.Prelude.{◌≡◌, ◌++◌, [], if◌then◌else◌, ◌==◌, OnOk};
ghost use Rattle.std.specs.List.{flat_map};
ghost use Rattle.std.specs.Char.{encode_utf8};
ghost use Rattle.cfa_printer.specs.OfTheCode.{Appends};
ghost use Rattle.cfa_printer.specs.Printing.{escaped, quoted};

use cfa_base::NoMemory;

/// Adds a text as it is.
pub fn push_text(out: &mut String, text: &str) -> Result<(), NoMemory>
    ensures { OnOk result (Appends out.old out.new text.now) }
{
    out.push_str(text)?;
    Ok(())
}

// Adds a character of a text in quotes.
fn push_escaped(out: &mut String, character: char) -> Result<(), NoMemory>
    ensures { OnOk result (Appends out.old out.new (flat_map escaped (encode_utf8 character))) }
{
    if character == '"' {
        return push_text(out, "\\\"");
    }
    if character == '\\' {
        return push_text(out, "\\\\");
    }
    out.push(character)?;
    Ok(())
}

// Adds each character of a text in quotes.
fn push_content(out: &mut String, content: &str) -> Result<(), NoMemory>
    ensures { OnOk result (Appends out.old out.new (flat_map escaped content.now)) }
{
    for character in content.chars() {
        push_escaped(out, character)?;
    }
    Ok(())
}

/// Adds a text in quotes.
pub fn push_quoted(out: &mut String, content: &str) -> Result<(), NoMemory>
    ensures { OnOk result (Appends out.old out.new (quoted content.now)) }
{
    out.push_str("\"")?;
    push_content(out, content)?;
    push_text(out, "\"")
}

/// Adds the separator before each text but the first.
pub fn push_between(out: &mut String, index: usize, separator: &str) -> Result<(), NoMemory>
    ensures { OnOk result (Appends out.old out.new (if index == 0 then [] else separator.now)) }
{
    if index == 0 {
        return Ok(());
    }
    push_text(out, separator)
}
