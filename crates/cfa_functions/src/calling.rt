// Calls of functions.
ghost use Rattle.std.specs.Prelude.{◌≡◌, IfOk, None, Some, Ok, map};
ghost use Rattle.cfa_base.specs.Patterns.{SizeRefusal, matches_in};
ghost use Rattle.cfa_tree.specs.Plain.{plain_value};
ghost use Rattle.cfa_tree.specs.Tree.{value_trees};
ghost use Rattle.cfa_vars.specs.Scopes.{in_scope};
ghost use Rattle.cfa_functions.specs.Functions.{applied, as_text, class_answer, class_made, made};
ghost use Rattle.cfa_functions.specs.Calls.{answer_of};
ghost use Rattle.cfa_functions.specs.Given.{argument_of, text_or_hidden, pattern_answer};
ghost use Rattle.cfa_functions.specs.Builds.{IsBuilt, pattern_built, pattern_in, pattern_of_call, refused_in};
ghost use Rattle.cfa_functions.specs.declared.calling.CallErr.TheVariants.{NoMemory};
ghost use Rattle.cfa_kinds.specs.declared.functions.ClassFunction.TheVariants.{Strcmp, Regcmp, IsVariable};
ghost use Rattle.cfa_kinds.specs.declared.functions.Function.TheVariants.{OfClass};

use crate::answering::{Answer, Lack};
use crate::making::make_text;
use crate::reading::{Given, arguments_given};
use crate::wanting::{as_text, one_text, two_texts};
use cfa_base as base;
use cfa_base::{CompiledPattern, How, Name, Pattern, PatternErr, Patterns};
use cfa_kinds::{ClassFunction, Function, function_named};
use cfa_tree::Value;
use cfa_vars::{Scopes, look_up};
use std::alloc::{AllocError, AllocFailed, Global};
use thiserror::Error;

/// Why a function call has no answer.
#[derive(Debug, Drop, Error)]
pub enum CallErr {
    /// The pattern of this text was refused for its size.
    #[error("a pattern is too big")]
    PatternTooBig(Name),
    /// No memory was left for the answer.
    #[error("out of memory")]
    NoMemory,
}

impl From<base::NoMemory> for CallErr {
    ghost from_gives = { λ _ e. e ≡ NoMemory };

    fn from(_: base::NoMemory) -> Self {
        CallErr::NoMemory
    }
}

impl From<AllocError> for CallErr {
    ghost from_gives = { λ _ e. e ≡ NoMemory };

    fn from(_: AllocError) -> Self {
        CallErr::NoMemory
    }
}

impl<T: Drop> From<AllocFailed<T>> for CallErr {
    ghost from_gives = { λ _ e. e ≡ NoMemory };

    fn from(_: AllocFailed<T>) -> Self {
        CallErr::NoMemory
    }
}

fn compare(arguments: &[Given<'_>], scopes: &Scopes<'_>) -> Answer
    ensures { result ≡ class_made (in_scope scopes.now) Strcmp (map argument_of arguments.now) }
{
    match two_texts(arguments) {
        Ok((first, second)) => Answer::Class(first.as_str() == second.as_str()),
        Err(lack) => lack.answer(),
    }
}

fn find_variable(arguments: &[Given<'_>], scopes: &Scopes<'_>) -> Answer
    ensures { result ≡ class_made (in_scope scopes.now) IsVariable (map argument_of arguments.now) }
{
    match one_text(arguments) {
        Ok(name) => Answer::Class(look_up(scopes, name.as_str()).is_some()),
        Err(lack) => lack.answer(),
    }
}

// What a pattern that was built answers for a text, or for one that is hidden.
fn match_text(alloc: Global, built: Pattern, text: Option<&Name>) -> Result<Answer, CallErr>
    ensures answer { IfOk result (λ a. a
        ≡ class_answer (applied (matches_in built) (text_or_hidden text.entry))) }
    ensures sizes { refused_in result ≡ None }
{
    match text {
        Some(text) => {
            let compiled = CompiledPattern::of(alloc, &built)?;
            Ok(Answer::Class(compiled.matches(alloc, text)?))
        }
        None => Ok(Answer::TooLong),
    }
}

// What a pattern answers for a text, or for one that is hidden. The text that a refusal tells is copied first, so that
// want of memory comes before the build.
fn match_built<P: Patterns>(
    alloc: Global,
    pattern: &Name,
    text: Option<&Name>,
    pats: &mut P,
) -> Result<Answer, CallErr>
    ensures answer { IfOk result (λ a. a
        ≡ pattern_answer (Ok pattern.now) (text_or_hidden text.entry)) }
    ensures sizes { SizeRefusal (IsBuilt (Some pattern.now)) (refused_in result)
        (P.shown pats.old) (P.shown pats.new) }
{
    let refused = pattern.copy(alloc)?;
    match pats.build(alloc, pattern, How::Whole) {
        Ok(built) => match_text(alloc, built, text),
        Err(PatternErr::Bad) => Ok(Answer::Unresolved),
        Err(PatternErr::TooBig) => Err(CallErr::PatternTooBig(refused)),
        Err(PatternErr::NoMemory) => Err(CallErr::NoMemory),
    }
}

fn match_argument<P: Patterns>(
    alloc: Global,
    pattern: &Given<'_>,
    text: Option<&Name>,
    pats: &mut P,
) -> Result<Answer, CallErr>
    ensures answer { IfOk result (λ a. a
        ≡ pattern_answer (as_text (argument_of pattern.now)) (text_or_hidden text.entry)) }
    ensures sizes { SizeRefusal
        (IsBuilt (pattern_built (as_text (argument_of pattern.now)) (text_or_hidden text.entry)))
        (refused_in result) (P.shown pats.old) (P.shown pats.new) }
{
    match as_text(pattern) {
        Ok(pattern) => match_built(alloc, pattern, text, pats),
        Err(lack) => Ok(lack.answer()),
    }
}

// What a pattern answers for what is given as the text.
fn match_given<P: Patterns>(
    alloc: Global,
    pattern: &Given<'_>,
    text: &Given<'_>,
    pats: &mut P,
) -> Result<Answer, CallErr>
    ensures answer { IfOk result (λ a. a
        ≡ pattern_answer (as_text (argument_of pattern.now)) (as_text (argument_of text.now))) }
    ensures sizes { SizeRefusal
        (IsBuilt (pattern_built (as_text (argument_of pattern.now))
        (as_text (argument_of text.now))))
        (refused_in result) (P.shown pats.old) (P.shown pats.new) }
{
    match as_text(text) {
        Ok(text) => match_argument(alloc, pattern, Some(text), pats),
        Err(Lack::Missing) => Ok(Answer::Unresolved),
        Err(Lack::Hidden) => match_argument(alloc, pattern, None, pats),
    }
}

fn match_pattern<P: Patterns>(
    alloc: Global,
    arguments: &[Given<'_>],
    scopes: &Scopes<'_>,
    pats: &mut P,
) -> Result<Answer, CallErr>
    ensures answer { IfOk result (λ a. a
        ≡ class_made (in_scope scopes.now) Regcmp (map argument_of arguments.now)) }
    ensures sizes { SizeRefusal
        (IsBuilt (pattern_in (OfClass Regcmp) (map argument_of arguments.now)))
        (refused_in result) (P.shown pats.old) (P.shown pats.new) }
{
    match arguments {
        [pattern, text] => match_given(alloc, pattern, text, pats),
        _ => Ok(Answer::Unresolved),
    }
}

fn apply<P: Patterns>(
    alloc: Global,
    function: Function,
    arguments: &[Given<'_>],
    scopes: &Scopes<'_>,
    pats: &mut P,
) -> Result<Answer, CallErr>
    ensures answer { IfOk result (λ a. a
        ≡ made (in_scope scopes.now) function (map argument_of arguments.now)) }
    ensures sizes { SizeRefusal (IsBuilt (pattern_in function (map argument_of arguments.now)))
        (refused_in result) (P.shown pats.old) (P.shown pats.new) }
{
    match function {
        Function::OfText(function) => Ok(make_text(alloc, function, arguments)?),
        Function::OfClass(ClassFunction::Strcmp) => Ok(compare(arguments, scopes)),
        Function::OfClass(ClassFunction::IsVariable) => Ok(find_variable(arguments, scopes)),
        Function::OfClass(ClassFunction::Regcmp) => match_pattern(alloc, arguments, scopes, pats),
    }
}

/// The answer of a call of a function.
///
/// Each argument is expanded first (`text_of_value`). Where a list is wanted, a list reference, or a text that is wholly
/// one, gives the items of the list variable that it names, and another text those of the list variable that its
/// expansion names.
///
/// A text that is too long isn't looked at. A call that is unresolved whatever that text may be is `Unresolved`, wherever
/// what makes it so stands, and else `TooLong`.
///
/// No condition is put on the call. What the schema refuses, an unknown function or arguments of another number or kind,
/// is `Unresolved`; a text `@(x)` where a text is wanted stands for itself.
///
/// The pattern of `regcmp` is built wherever it is short enough and neither argument is unresolved; a pattern that
/// doesn't read makes the call `Unresolved`. `PatternTooBig` comes only where this build answered so, for a text that is
/// a pattern. After every other answer nothing was refused for its size.
#[tactic(auto, unfolding(crate::specs::Calls::answer_of, crate::specs::Builds::pattern_of_call))]
pub fn call<P: Patterns>(
    alloc: Global,
    name: &Name,
    args: &[Value],
    scopes: &Scopes<'_>,
    choice: &[(Name, Name)],
    pats: &mut P,
) -> Result<Answer, CallErr>
    ensures answer { IfOk result (λ a. a
        ≡ answer_of (in_scope scopes.now) choice.now name.now
        (value_trees (map plain_value args.now))) }
    ensures sizes { SizeRefusal
        (IsBuilt (pattern_of_call (in_scope scopes.now) choice.now name.now
        (value_trees (map plain_value args.now))))
        (refused_in result) (P.shown pats.old) (P.shown pats.new) }
{
    match function_named(name.as_str()) {
        Some(function) => {
            let arguments = arguments_given(alloc, function, args, scopes, choice)?;
            apply(alloc, function, arguments.as_slice(), scopes, pats)
        }
        None => Ok(Answer::Unresolved),
    }
}
