// The fields of a line.
ghost use Rattle.std.specs.Prelude.{◌≡◌, ℕ, ◌+◌, ◌≤◌, List, [], ◌++◌, IfOk, OnOk, IfErr, string_bytes, nat_lt, Option, Some, None, if◌then◌else◌, ◌==◌};
ghost use Rattle.std.specs.List.{count_by};
ghost use Rattle.std.specs.Str.{chars};
ghost use Rattle.std.specs.Option.{option_map};
ghost use Rattle.cfa_edits.specs.Edits as edits;
ghost use Rattle.cfa_edits.specs.Steps.{written_from};

use crate::EditErr;
use cfa_base::Name;
use std::alloc::Global;

/// The line with a value in the field of this number, from 1 on; `None` where it has fewer fields.
pub fn with_field(
    alloc: Global,
    line: &str,
    separator: char,
    number: u16,
    value: &Name,
) -> Result<Option<Name>, EditErr>
    requires { 1 ≤ number }
    ensures ok { IfOk result (λ changed. changed
        ≡ edits.with_field separator number value.now line.now) }
    ensures memory { IfErr result (λ error. error ≡ EditErr.NoMemory) }
{
    let chars = chars_of(alloc, line)?;
    let fields = separators(&chars, separator);
    if fields < usize::from(number) - 1 {
        return Ok(None);
    }
    let changed = written(alloc, &chars, separator, number, value)?;
    Ok(Some(changed))
}

fn chars_of(alloc: Global, line: &str) -> Result<Vec<char>, EditErr>
    ensures ok { IfOk result (λ list. list.items ≡ chars line.now) }
    ensures memory { IfErr result (λ error. error ≡ EditErr.NoMemory) }
{
    Ok(line.chars().collect(alloc)?)
}

// How often the separator stands among the characters.
fn separators(chars: &[char], separator: char) -> usize
    ensures { result ≡ count_by (λ c. c == separator) chars.now }
{
    chars.iter().filter(|c| **c == separator).count()
}

// The characters of a line, where the value stands for the field of this number.
fn written(
    alloc: Global,
    chars: &[char],
    separator: char,
    number: u16,
    value: &Name,
) -> Result<Name, EditErr>
    ensures ok { IfOk result (λ text. text ≡ (if number == 1 then value.now else [])
        ++ written_from separator number value.now 1 chars.now) }
    ensures memory { IfErr result (λ error. error ≡ EditErr.NoMemory) }
{
    let mut text = String::new(alloc);
    if number == 1 {
        text.push_str(value.as_str())?;
    }
    write_fields(&mut text, chars, separator, number, value)?;
    Ok(Name::from_string(text)?)
}

// Writes the characters of a line behind a text, where the value stands for the field of this number from 2 on.
fn write_fields(
    text: &mut String,
    chars: &[char],
    separator: char,
    number: u16,
    value: &Name,
) -> Result<(), EditErr>
    ensures ok { OnOk result (string_bytes text.new
        ≡ string_bytes text.old ++ written_from separator number value.now 1 chars.now) }
    ensures memory { IfErr result (λ error. error ≡ EditErr.NoMemory) }
{
    let mut field = 1usize;
    for c in chars {
        if *c == separator {
            text.push(*c)?;
            field += 1;
            if field == usize::from(number) {
                text.push_str(value.as_str())?;
            }
        } else if field != usize::from(number) {
            text.push(*c)?;
        }
    }
    Ok(())
}
