// The texts that values give, and what the arguments of a call give.
ghost use Rattle.std.specs.Prelude.{◌≡◌, ◌++◌, codes, IfOk, map, option_copied};
ghost use Rattle.cfa_tree.specs.Plain.{plain_value};
ghost use Rattle.cfa_tree.specs.Tree.{value_trees};
ghost use Rattle.cfa_vars.specs.Scopes.{in_scope, look};
ghost use Rattle.cfa_vars.specs.Expansion.{expanded};
ghost use Rattle.cfa_functions.specs.Calls.{expanded_text, answered_text, text_argument, items_of, list_named, referred_list, list_argument, argument_at, nested, text_given, arguments_given};
ghost use Rattle.cfa_functions.specs.Given.{argument_of};
ghost use Rattle.cfa_kinds.specs.Functions.{function_named, takes_list};

use crate::answering::Answer;
use crate::making::make_text;
use cfa_base::{Name, Names, NoMemory};
use cfa_kinds::{Function, function_named};
use cfa_tree::Value;
use cfa_vars::{Expanded, Scopes, Variable, expand, list_reference, look_up};
use std::alloc::Global;

/// What a value gives where a text is wanted.
#[derive(Debug, Drop)]
pub enum ValueText {
    Text(Name),
    /// The first name that stands for no text, where it is one that keeps the value from having a text.
    Unresolved(Option<Name>),
    /// Nothing that can be told is unresolved, and the text, or one in a nested call, has more than 65,536 bytes.
    TooLong,
}

// What an argument gives.
#[derive(Drop)]
pub(crate) enum Given<'a> {
    Text(Name),
    List(&'a Names),
    Unresolved,
    TooLong,
}

impl Given<'_> {
    fn of_text<'a>(text: ValueText) -> Given<'a>
        ensures { argument_of result ≡ text_argument text }
    {
        match text {
            ValueText::Text(text) => Given::Text(text),
            ValueText::Unresolved(_) => Given::Unresolved,
            ValueText::TooLong => Given::TooLong,
        }
    }
}

fn answered_text(answer: Answer) -> ValueText
    ensures { result ≡ answered_text answer }
{
    match answer {
        Answer::Text(text) => ValueText::Text(text),
        Answer::Class(_) => ValueText::Unresolved(None),
        Answer::Unresolved => ValueText::Unresolved(None),
        Answer::TooLong => ValueText::TooLong,
    }
}

fn expand_text(
    alloc: Global,
    text: &Name,
    scopes: &Scopes<'_>,
    choice: &[(Name, Name)],
) -> Result<ValueText, NoMemory>
    ensures { IfOk result (λ v. v
        ≡ expanded_text (expanded (in_scope scopes.now) choice.now text.now)) }
{
    match expand(alloc, text, scopes, choice)? {
        Expanded::Done(whole) => Ok(ValueText::Text(whole)),
        Expanded::Unresolved(name) => Ok(ValueText::Unresolved(Some(name))),
        Expanded::TooLong => Ok(ValueText::TooLong),
    }
}

/// The text of a reference by its name.
pub fn reference_text(alloc: Global, name: &Name) -> Result<Name, NoMemory>
    ensures { IfOk result (λ text. text ≡ codes "$(" ++ name.now ++ codes ")") }
{
    let name = name.as_str();
    Ok(Name::from_string(format!(in alloc; "$({name})")?)?)
}

fn find_list<'a>(scopes: &Scopes<'a>, name: &str) -> Given<'a>
    ensures { argument_of result ≡ items_of (look (in_scope scopes.now) name.now) }
{
    match look_up(scopes, name) {
        Some(Variable::List(items)) => Given::List(items),
        Some(Variable::Text(_)) => Given::Unresolved,
        None => Given::Unresolved,
    }
}

fn name_list<'a>(argument: Given<'a>, scopes: &Scopes<'a>) -> Given<'a>
    ensures { argument_of result ≡ list_named (in_scope scopes.now) (argument_of argument.entry) }
{
    match argument {
        Given::Text(name) => find_list(scopes, name.as_str()),
        Given::List(items) => Given::List(items),
        Given::Unresolved => Given::Unresolved,
        Given::TooLong => Given::TooLong,
    }
}

/// The name of a value that is a list reference, or a text that is wholly one, without taking memory. `None` for every
/// other value.
pub fn referred_list(value: &Value) -> Option<&str>
    ensures { option_copied result ≡ referred_list (plain_value value.now) }
{
    match value {
        Value::Text(text, _) => list_reference(text.as_str()),
        Value::Word(_, _) => None,
        Value::Ref(_, _) => None,
        Value::ListRef(name, _) => Some(name.as_str()),
        Value::List(_, _) => None,
        Value::Call(_, _, _) => None,
    }
}

fn list_argument<'a>(value: &Value, argument: Given<'a>, scopes: &Scopes<'a>) -> Given<'a>
    ensures { argument_of result
        ≡ list_argument (in_scope scopes.now) (referred_list (plain_value value.now))
        (argument_of argument.entry) }
{
    match referred_list(value) {
        Some(name) => find_list(scopes, name),
        None => name_list(argument, scopes),
    }
}

// A value as the argument that a function takes at a place, where the text of the value is known.
fn argument_at<'a>(
    function: Function,
    place: usize,
    value: &Value,
    argument: Given<'a>,
    scopes: &Scopes<'a>,
) -> Given<'a>
    ensures { argument_of result
        ≡ argument_at (in_scope scopes.now) (takes_list function place) (plain_value value.now)
        (argument_of argument.entry) }
{
    if function.takes_list(place) {
        list_argument(value, argument, scopes)
    } else {
        argument
    }
}

/// The text that a value gives, by the scopes and the items that are chosen for lists: a text, a word, and a reference
/// as `$(name)`, give their expanded text, and a call of a text function its answer. `Unresolved` goes before `TooLong`.
/// A list, a list reference and a call of another function give no text, and are `Unresolved` without a name; a text
/// `@(x)` stands for itself.
#[cycle(reading)]
pub fn text_of_value(
    alloc: Global,
    value: &Value,
    scopes: &Scopes<'_>,
    choice: &[(Name, Name)],
) -> Result<ValueText, NoMemory>
    ensures { IfOk result (λ v. v
        ≡ text_given (in_scope scopes.now) choice.now (plain_value value.now)) }
{
    match value {
        Value::Text(text, _) => expand_text(alloc, text, scopes, choice),
        Value::Word(text, _) => expand_text(alloc, text, scopes, choice),
        Value::Ref(name, _) => expand_text(alloc, &reference_text(alloc, name)?, scopes, choice),
        Value::ListRef(_, _) => Ok(ValueText::Unresolved(None)),
        Value::List(_, _) => Ok(ValueText::Unresolved(None)),
        Value::Call(name, arguments, _) => {
            answer_nested(alloc, name, arguments.as_slice(), scopes, choice)
        }
    }
}

// The text of a nested call, whose function is to answer a text.
#[cycle(reading)]
fn answer_nested(
    alloc: Global,
    name: &Name,
    values: &[Value],
    scopes: &Scopes<'_>,
    choice: &[(Name, Name)],
) -> Result<ValueText, NoMemory>
    ensures { IfOk result (λ v. v ≡ nested (function_named name.now)
        (λ f. arguments_given (in_scope scopes.now) choice.now f 0
        (value_trees (map plain_value values.now)))) }
{
    match function_named(name.as_str()) {
        Some(Function::OfText(function)) => {
            let arguments = arguments_given(
                alloc,
                Function::OfText(function),
                values,
                scopes,
                choice,
            )?;
            Ok(answered_text(make_text(alloc, function, arguments.as_slice())?))
        }
        Some(Function::OfClass(_)) => Ok(ValueText::Unresolved(None)),
        None => Ok(ValueText::Unresolved(None)),
    }
}

// What values give as the arguments of a function.
#[cycle(reading)]
pub(crate) fn arguments_given<'a>(
    alloc: Global,
    function: Function,
    values: &[Value],
    scopes: &Scopes<'a>,
    choice: &[(Name, Name)],
) -> Result<Vec<Given<'a>>, NoMemory>
    ensures { IfOk result (λ gs. map argument_of gs.items
        ≡ arguments_given (in_scope scopes.now) choice.now function 0
        (value_trees (map plain_value values.now))) }
{
    let mut arguments = Vec::new(alloc);
    for (place, value) in values.iter().enumerate() {
        let text = Given::of_text(text_of_value(alloc, value, scopes, choice)?);
        arguments.push(argument_at(function, place, value, text, scopes))?;
    }
    Ok(arguments)
}
