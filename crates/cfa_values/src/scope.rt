// What the references of a text may name.
ghost use Rattle.std.specs.Prelude.{◌≡◌, ℕ, Bool, List, not, map};
ghost use Rattle.std.specs.List.{list_any};
ghost use Rattle.cfa_vars.specs.References.{literal, pieces, names_in};
ghost use Rattle.cfa_values.specs.Scope.{is_constant, is_bracket, begins_with_bracket, has_broken_reference, refers_out, is_literal};

use cfa_vars::{first_reference, list_reference};

/// Tells which names a text may refer to.
pub(crate) trait Admits {
    /// Whether a text may refer to a name.
    ghost admitted: { Self → List ℕ → Bool };

    /// Whether a text may refer to a name, as it stands between the brackets.
    fn admits(&self, name: &str) -> bool
        ensures { result ≡ admitted self.now name.now };
}

/// Whether a word is one of the constants, `const.n`, `const.t` and `const.dollar`, without the bundle.
#[tactic(auto, unfolding(crate::specs::Scope::is_constant))]
pub(crate) fn is_constant(word: &str) -> bool
    ensures { result ≡ is_constant word.now }
{
    matches!(word, "n" | "t" | "dollar")
}

fn is_bracket(byte: u8) -> bool
    ensures { result ≡ is_bracket byte }
{
    matches!(byte, b'(' | b'{')
}

fn begins_with_bracket(text: &[u8]) -> bool
    ensures { result ≡ begins_with_bracket (map literal text.now) }
{
    match text {
        [] => false,
        [first, ..] => is_bracket(*first),
    }
}

// Whether a `$` with a bracket behind it stands in bytes that are literal.
fn has_broken_literal(text: &[u8]) -> bool
    ensures { result ≡ has_broken_reference (map literal text.now) }
{
    for (place, byte) in text.iter().enumerate() {
        if *byte == b'$' && begins_with_bracket(&text[place + 1..]) {
            return true;
        }
    }
    false
}

/// Whether a text has a `$` with a bracket behind it that begins no reference, as in `$(a b)` or `$(x`.
pub(crate) fn has_broken_reference(text: &str) -> bool
    ensures { result ≡ has_broken_reference (pieces text.now) }
{
    let mut rest = text;
    while let Some(found) = first_reference(rest) {
        if has_broken_literal(found.before.as_bytes()) {
            return true;
        }
        rest = found.after;
    }
    has_broken_literal(rest.as_bytes())
}

/// Whether a text has no references, so that it is known before the run.
#[tactic(auto, unfolding(crate::specs::Scope::is_literal))]
pub(crate) fn is_literal(text: &str) -> bool
    ensures { result ≡ is_literal text.now }
{
    first_reference(text).is_none()
}

// Whether one of the references of a text names what it may not name.
fn has_refused_name<A: Admits>(text: &str, names: &A) -> bool
    ensures { result ≡ list_any (λ name. not (A.admitted names.now name)) (names_in text.now) }
{
    let mut rest = text;
    while let Some(found) = first_reference(rest) {
        if !names.admits(found.name) {
            return true;
        }
        rest = found.after;
    }
    false
}

/// Whether a text has a broken reference, or one that names what it may not name. Where the text is wholly a list
/// reference, its name is that of the list.
#[tactic(auto, unfolding(crate::specs::Scope::refers_out, crate::specs::Scope::names_referred))]
pub(crate) fn refers_out<A: Admits>(text: &str, names: &A) -> bool
    ensures { result ≡ refers_out (A.admitted names.now) text.now }
{
    if has_broken_reference(text) {
        return true;
    }
    match list_reference(text) {
        Some(name) => !names.admits(name),
        None => has_refused_name(text, names),
    }
}
