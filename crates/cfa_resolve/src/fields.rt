// The fields of key texts.
ghost use Rattle.std.specs.Prelude.{◌≡◌, ◌==◌, ◌++◌, [], ◌∷◌, OnOk, map, if◌then◌else◌};
ghost use Rattle.std.specs.List.{join_with_byte};
ghost use Rattle.std.specs.String.{string_bytes};
ghost use Rattle.cfa_base.specs.Escapes.{escaped};
ghost use Rattle.cfa_base.specs.Octal.{octal_digit, mode_text};
ghost use Rattle.cfa_resolve.specs.KeyTexts.{mode_field, names_field, yes_or_no};

use cfa_base::{Name, NoMemory, escape, octal_digit};
use std::alloc::Global;

/// Adds a separator and a text behind it.
pub(crate) fn add_field(whole: &mut String, separator: &str, field: &str) -> Result<(), NoMemory>
    ensures { OnOk result
        (string_bytes whole.new ≡ string_bytes whole.old ++ (separator.now ++ field.now)) }
{
    whole.push_str(separator)?;
    whole.push_str(field)?;
    Ok(())
}

/// Adds a separator and a text behind it, escaped.
pub(crate) fn add_escaped(
    alloc: Global,
    whole: &mut String,
    separator: &str,
    text: &Name,
) -> Result<(), NoMemory>
    ensures { OnOk result
        (string_bytes whole.new ≡ string_bytes whole.old ++ (separator.now ++ escaped text.now)) }
{
    add_field(whole, separator, escape(alloc, text)?.as_str())
}

fn comma_before(place: usize) -> &'static str
    ensures { result.now ≡ (if place == 0 then [] else 44 ∷ []) }
{
    if place == 0 { "" } else { "," }
}

/// Adds texts with a comma between each two.
pub(crate) fn add_joined(whole: &mut String, items: &[Name]) -> Result<(), NoMemory>
    ensures { OnOk result
        (string_bytes whole.new ≡ string_bytes whole.old ++ join_with_byte 44 items.now) }
{
    for (place, item) in items.iter().enumerate() {
        add_field(whole, comma_before(place), item.as_str())?;
    }
    Ok(())
}

fn add_joined_escaped(alloc: Global, whole: &mut String, names: &[Name]) -> Result<(), NoMemory>
    ensures { OnOk result (string_bytes whole.new
        ≡ string_bytes whole.old ++ join_with_byte 44 (map escaped names.now)) }
{
    for (place, name) in names.iter().enumerate() {
        add_escaped(alloc, whole, comma_before(place), name)?;
    }
    Ok(())
}

/// Adds a space and names as one field, an asterisk where there are none.
pub(crate) fn add_names(alloc: Global, whole: &mut String, names: &[Name]) -> Result<(), NoMemory>
    ensures { OnOk result
        (string_bytes whole.new ≡ string_bytes whole.old ++ (32 ∷ names_field names.now)) }
{
    whole.push(' ')?;
    if names.is_empty() {
        whole.push('*')?;
    }
    add_joined_escaped(alloc, whole, names)
}

fn push_digit(text: &mut String, number: u16) -> Result<(), NoMemory>
    ensures { OnOk result
        (string_bytes text.new ≡ string_bytes text.old ++ octal_digit number ∷ []) }
{
    text.push(octal_digit(number) as char)?;
    Ok(())
}

#[tactic(auto, unfolding(cfa_base::specs::Octal::mode_text))]
fn push_digits(text: &mut String, mode: u16) -> Result<(), NoMemory>
    ensures { OnOk result (string_bytes text.new ≡ string_bytes text.old ++ mode_text mode) }
{
    push_digit(text, mode / 512)?;
    push_digit(text, mode / 64)?;
    push_digit(text, mode / 8)?;
    push_digit(text, mode)
}

/// Adds a space and a mode as a field, an asterisk where there is none.
pub(crate) fn add_mode(whole: &mut String, mode: Option<u16>) -> Result<(), NoMemory>
    ensures { OnOk result
        (string_bytes whole.new ≡ string_bytes whole.old ++ (32 ∷ mode_field mode)) }
{
    whole.push(' ')?;
    match mode {
        None => Ok(whole.push('*')?),
        Some(mode) => push_digits(whole, mode),
    }
}

/// A flag as a field.
pub(crate) fn yes_or_no(flag: bool) -> &'static str
    ensures { result.now ≡ yes_or_no flag }
{
    if flag { "yes" } else { "no" }
}
