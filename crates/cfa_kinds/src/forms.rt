// The forms that a text of an attribute may be asked to have.
ghost use Rattle.std.specs.Prelude.{◌≡◌, ◌<◌, ◌≤◌, ◌&&◌, IsTrue, length, nat_le, chars};
ghost use Rattle.std.specs.Str.{all_ascii_digits};
ghost use Rattle.std.specs.Str.Parse.{digits_value};
ghost use Rattle.cfa_kinds.specs.Forms.{is_boolean, is_service_policy, is_digits, is_whole_number, has_no_leading_zero, is_number_from, is_mode, has_form, minutes_written};

use crate::kinds::Form;
use cfa_base::{are_digits, are_octal_digits};

#[tactic(auto, unfolding(crate::specs::Forms::is_boolean))]
fn is_boolean(text: &str) -> bool
    ensures { result ≡ is_boolean text.now }
{
    matches!(text, "true" | "false" | "yes" | "no" | "on" | "off")
}

#[tactic(auto, unfolding(crate::specs::Forms::is_service_policy))]
fn is_service_policy(text: &str) -> bool
    ensures { result ≡ is_service_policy text.now }
{
    matches!(text, "start" | "stop" | "enable" | "disable" | "restart")
}

fn is_digits(text: &[u8]) -> bool
    ensures { result ≡ is_digits text.now }
{
    matches!(text.len(), 1..=18) && are_digits(text)
}

fn is_whole_number(text: &[u8]) -> bool
    ensures { result ≡ is_whole_number text.now }
{
    match text {
        [b'-', rest @ ..] => is_digits(rest),
        _ => is_digits(text),
    }
}

fn has_no_leading_zero(text: &[u8]) -> bool
    ensures { result ≡ has_no_leading_zero text.now }
{
    match text {
        [] => false,
        [_] => true,
        [first, ..] => *first != b'0',
    }
}

// Whether the number that at most ten digits write lies between two numbers, both included.
fn lies_between(least: u64, greatest: u64, text: &str) -> bool
    requires some { 0 < length text.now }
    requires short { length text.now ≤ 10 }
    requires digits { IsTrue (all_ascii_digits text.now) }
    ensures { result ≡ (nat_le least (digits_value 10 text.now) && nat_le
        (digits_value 10 text.now) greatest) }
{
    match text.parse::<u64>() {
        Ok(number) => least <= number && number <= greatest,
        Err(_) => false,
    }
}

fn is_number_from(least: u64, greatest: u64, text: &str) -> bool
    ensures { result ≡ is_number_from least greatest text.now }
{
    text.len() <= 10
        && are_digits(text.as_bytes())
        && has_no_leading_zero(text.as_bytes())
        && lies_between(least, greatest, text)
}

fn is_mode(text: &[u8]) -> bool
    ensures { result ≡ is_mode text.now }
{
    matches!(text.len(), 3 | 4) && are_octal_digits(text)
}

fn count_characters(text: &str) -> usize
    ensures { result ≡ length (chars text.now) }
{
    text.chars().count()
}

/// Whether a text has a form.
pub fn has_form(form: Form, text: &str) -> bool
    ensures { result ≡ has_form form text.now }
{
    match form {
        Form::AnyText => true,
        Form::Boolean => is_boolean(text),
        Form::WholeNumber => is_whole_number(text.as_bytes()),
        Form::ServicePolicy => is_service_policy(text),
        Form::LinkChoice => matches!(text, "delete" | "keep"),
        Form::Digest => text == "digest",
        Form::NoBackup => text == "false",
        Form::Mode => is_mode(text.as_bytes()),
        Form::Minutes => is_number_from(0, 525_600, text),
        Form::Side => matches!(text, "before" | "after"),
        Form::End => matches!(text, "first" | "last"),
        Form::Occurrences => matches!(text, "all" | "first"),
        Form::Character => count_characters(text) == 1,
        Form::FieldNumber => is_number_from(1, 999, text),
        Form::FieldOperation => text == "set",
    }
}

/// The number that a text of the form `Minutes` writes. `None` where the text isn't of that form.
pub fn minutes(text: &str) -> Option<u64>
    ensures { result ≡ minutes_written text.now }
{
    if !has_form(Form::Minutes, text) {
        return None;
    }
    match text.parse::<u64>() {
        Ok(number) => Some(number),
        Err(_) => None,
    }
}
