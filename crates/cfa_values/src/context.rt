// Where a value stands, and what its references may name.
ghost use Rattle.std.specs.Prelude.{◌≡◌};
ghost use Rattle.cfa_values.specs.Definitions.{is_one_of};
ghost use Rattle.cfa_values.specs.Refusals.{noted};
ghost use Rattle.cfa_values.specs.Scope.{admits_word, is_own};
ghost use Rattle.cfa_values.specs.Seen.{seen_home, seen_context};
ghost use Rattle.cfa_values.specs.Values.{may_name, text_scope, name_scope};

use crate::definitions::Definitions;
use crate::refusals::{Code, Refusal, note_if};
use crate::scope::{Admits, is_constant, refers_out};
use cfa_base::{NameIndex, Place};
use cfa_vars::split_name;

/// Where a text stands: in a bundle with its name, or in a body with its parameters.
#[derive(Clone, Copy)]
pub enum Home<'a> {
    Bundle(&'a str),
    Body(&'a NameIndex<'a>),
}

/// Where a value stands, and what the policy defines.
#[derive(Clone, Copy)]
pub struct Context<'a> {
    pub definitions: &'a Definitions<'a>,
    pub home: Home<'a>,
}

impl Home<'_> {
    fn admits_word(&self, word: &str) -> bool
        ensures { result ≡ admits_word (seen_home self.now) word.now }
    {
        match self {
            Home::Bundle(_) => true,
            Home::Body(params) => params.find(word).is_some(),
        }
    }

    fn is_own(&self, bundle: &str) -> bool
        ensures { result ≡ is_own (seen_home self.now) bundle.now }
    {
        match self {
            Home::Bundle(own) => bundle == *own,
            Home::Body(_) => false,
        }
    }
}

impl Admits for Context<'_> {
    ghost admitted = { λ c name. may_name (seen_context c) name };

    fn admits(&self, name: &str) -> bool
        ensures { result ≡ may_name (seen_context self.now) name.now }
    {
        match split_name(name) {
            Some((bundle, word)) => {
                if bundle == "const" {
                    is_constant(word)
                } else {
                    self.home.is_own(bundle) || self.definitions.is_shared(bundle)
                }
            }
            None => self.home.admits_word(name),
        }
    }
}

/// Notes a text whose references are broken or name what they may not.
pub fn note_text_scope(context: &Context<'_>, text: &str, place: Place, first: &mut Option<Refusal>)
    ensures { first.new ≡ noted first.old (text_scope (seen_context context.now) text.now place) }
{
    note_if(
        first,
        refers_out(text, context),
        Code::ReferenceOutOfScope,
        place,
    );
}

/// Notes a name that may not be referred to.
pub(crate) fn note_name_scope(
    context: &Context<'_>,
    name: &str,
    place: Place,
    first: &mut Option<Refusal>,
)
    ensures { first.new ≡ noted first.old (name_scope (seen_context context.now) name.now place) }
{
    note_if(
        first,
        !context.admits(name),
        Code::ReferenceOutOfScope,
        place,
    );
}
