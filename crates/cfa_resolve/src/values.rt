// Values of their kinds, and what is said as a text or a list.
ghost use Rattle.std.specs.Prelude.{◌≡◌, ◌≤◌, IfOk};
ghost use Rattle.cfa_kinds.specs.Forms.{minutes_written};
ghost use Rattle.cfa_tree.specs.Plain.{plain_promise};
ghost use Rattle.cfa_vars.specs.Scopes.{in_scope};
ghost use Rattle.cfa_resolve.specs.Instances.{promiser_in};
ghost use Rattle.cfa_resolve.specs.OfTheCode.{IsShort, seen_reached};
ghost use Rattle.cfa_resolve.specs.FileActs.{truth, mode_written, own_text};

use crate::reached::Reached;
use cfa_base::{Name, NoMemory};
use cfa_bodies::{empty_text, whole_or_empty};
use cfa_functions::text_of_value;
use cfa_kinds::{Form, has_form, minutes};
use cfa_tree::Promise;
use cfa_values::value_named;
use cfa_vars::{Expanded, Scopes, expand};
use std::alloc::Global;

/// Whether a text says yes or no.
pub(crate) fn truth(text: &str) -> Option<bool>
    ensures { result ≡ truth text.now }
{
    if matches!(text, "true" | "yes" | "on") {
        Some(true)
    } else if has_form(Form::Boolean, text) {
        Some(false)
    } else {
        None
    }
}

/// The mode that 3 or 4 octal digits write.
pub(crate) fn mode_written(text: &str) -> Option<u16>
    ensures { result ≡ mode_written text.now }
{
    if !has_form(Form::Mode, text) {
        return None;
    }
    match u16::from_str_radix(text, 8) {
        Ok(mode) => Some(mode),
        Err(_) => None,
    }
}

/// So many minutes, which are at most those of a year.
pub(crate) fn short_minutes(minutes: u64) -> u32
    requires { minutes ≤ 525600 }
    ensures { result ≡ minutes }
{
    minutes as u32
}

/// The minutes that a text writes.
pub(crate) fn minutes_written(text: &str) -> Option<u32>
    ensures { result ≡ minutes_written text.now }
{
    match minutes(text) {
        Some(number) => Some(short_minutes(number)),
        None => None,
    }
}

/// The text that an attribute of a promise itself gives.
pub(crate) fn own_text(
    alloc: Global,
    promise: &Promise,
    name: &str,
    scopes: &Scopes<'_>,
    choice: &[(Name, Name)],
) -> Result<Option<Name>, NoMemory>
    ensures value { IfOk result (λ t. t
        ≡ own_text (in_scope scopes.now) choice.now (plain_promise promise.now) name.now) }
    ensures short { IfOk result (λ t. IsShort t) }
{
    match value_named(promise.attributes.as_slice(), name) {
        None => Ok(None),
        Some(value) => {
            let text = text_of_value(alloc, value, scopes, choice)?;
            Ok(Some(whole_or_empty(alloc, text)?))
        }
    }
}

/// The promiser of a promise in a combination, empty where it has no text.
pub(crate) fn promiser_in(
    alloc: Global,
    reached: &Reached<'_>,
    choice: &[(Name, Name)],
) -> Result<Name, NoMemory>
    ensures { IfOk result (λ p. p ≡ promiser_in (seen_reached reached.now) choice.now) }
{
    match expand(alloc, &reached.promise.promiser, &reached.scopes, choice)? {
        Expanded::Done(whole) => Ok(whole),
        Expanded::Unresolved(_) => empty_text(alloc),
        Expanded::TooLong => empty_text(alloc),
    }
}
