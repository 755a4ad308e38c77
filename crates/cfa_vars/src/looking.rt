// What names refer to.
ghost use Rattle.std.specs.Prelude.{◌≡◌, option_copied, option_map};
ghost use Rattle.cfa_vars.specs.Named.{thing_at};
ghost use Rattle.cfa_vars.specs.Scopes.{in_scope, datum_of, constant, is_own, look_in, look, key_of};

use crate::references::split_name;
use crate::{Datum, Scope, SharedScopes};
use cfa_base::{Name, Names, is_name};

/// What a text can refer to: the scope of its own bundle with the bundle's name, and the scopes of other bundles, each
/// under its bundle's name. For the texts of a body `own` holds its parameters and `own_name` is empty. A shared scope that
/// has the own name doesn't count.
#[derive(Clone, Copy)]
pub struct Scopes<'a> {
    pub own: &'a Scope,
    pub own_name: &'a Name,
    pub shared: &'a SharedScopes,
}

/// What a name refers to.
#[derive(Clone, Copy, Debug)]
pub enum Variable<'a> {
    Text(&'a str),
    List(&'a Names),
}

fn seen(datum: &Datum) -> Variable<'_>
    ensures { datum_of result ≡ datum.now }
{
    match datum {
        Datum::Text(text) => Variable::Text(text.as_str()),
        Datum::List(items) => Variable::List(items),
    }
}

fn find_in<'a>(scope: &'a Scope, word: &str) -> Option<Variable<'a>>
    ensures { option_map datum_of result ≡ thing_at scope.now word.now }
{
    Some(seen(scope.find(word)?))
}

/// What a word of the bundle `const` stands for: `n` the newline, `t` the tab, `dollar` a `$`. It has no others.
pub fn constant(word: &str) -> Option<&'static str>
    ensures { option_copied result ≡ constant word.now }
{
    match word {
        "n" => Some("\n"),
        "t" => Some("\t"),
        "dollar" => Some("$"),
        _ => None,
    }
}

fn is_own(scopes: &Scopes<'_>, bundle: &str) -> bool
    ensures { result ≡ is_own (in_scope scopes.now) bundle.now }
{
    bundle == scopes.own_name.as_str()
}

fn look_in<'a>(scopes: &Scopes<'a>, bundle: &str, word: &str) -> Option<Variable<'a>>
    ensures { option_map datum_of result ≡ look_in (in_scope scopes.now) bundle.now word.now }
{
    if bundle == "const" {
        return Some(Variable::Text(constant(word)?));
    }
    if is_own(scopes, bundle) {
        return find_in(scopes.own, word);
    }
    find_in(scopes.shared.get(bundle)?, word)
}

/// What a name refers to, without taking memory. A word is a variable of the own scope; `const.n`, `const.t` and
/// `const.dollar` are the newline, the tab and `$`; another `bundle.word` is a variable of that bundle, the own one
/// included. `None` where the text is no name or no such variable was set.
#[tactic(auto, unfolding(crate::specs::Scopes::look))]
pub fn look_up<'a>(scopes: &Scopes<'a>, name: &str) -> Option<Variable<'a>>
    ensures { option_map datum_of result ≡ look (in_scope scopes.now) name.now }
{
    if !is_name(name.as_bytes()) {
        return None;
    }
    match split_name(name) {
        Some((bundle, word)) => look_in(scopes, bundle, word),
        None => find_in(scopes.own, name),
    }
}

/// The name by which the choice of an item knows a list variable, without taking memory: the word alone where the
/// variable is of the own bundle, whether it is referred to as `word` or as `bundle.word`, and else `bundle.word`. So in
/// bundle `main` the lists `l` and `main.l` are one, under `l`.
#[tactic(auto, unfolding(crate::specs::Scopes::key_of))]
pub fn list_key<'a>(scopes: &Scopes<'_>, name: &'a str) -> &'a str
    ensures { result.now ≡ key_of (in_scope scopes.now) name.now }
{
    match split_name(name) {
        Some((bundle, word)) if is_own(scopes, bundle) => word,
        _ => name,
    }
}
