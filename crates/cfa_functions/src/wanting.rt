// What functions want of their arguments.
ghost use Rattle.std.specs.Prelude.{◌≡◌, map};
ghost use Rattle.cfa_functions.specs.Functions.{as_text, as_list, as_number, as_filled_list, both, of_one, of_two};
ghost use Rattle.cfa_functions.specs.Given.{argument_of, seen, seen_both};

use crate::answering::Lack;
use crate::reading::Given;
use cfa_base::{Name, Names, is_decimal};

pub(crate) fn as_text<'g>(argument: &'g Given<'_>) -> Result<&'g Name, Lack>
    ensures { seen result ≡ as_text (argument_of argument.now) }
{
    match argument {
        Given::Text(text) => Ok(text),
        Given::List(_) => Err(Lack::Missing),
        Given::Unresolved => Err(Lack::Missing),
        Given::TooLong => Err(Lack::Hidden),
    }
}

fn as_list<'a>(argument: &Given<'a>) -> Result<&'a Names, Lack>
    ensures { seen result ≡ as_list (argument_of argument.now) }
{
    match argument {
        Given::List(items) => Ok(*items),
        Given::Text(_) => Err(Lack::Missing),
        Given::Unresolved => Err(Lack::Missing),
        Given::TooLong => Err(Lack::Hidden),
    }
}

fn as_number<'g>(argument: &'g Given<'_>) -> Result<&'g Name, Lack>
    ensures { seen result ≡ as_number (argument_of argument.now) }
{
    match as_text(argument) {
        Ok(text) => {
            if is_decimal(text.as_str().as_bytes()) {
                Ok(text)
            } else {
                Err(Lack::Missing)
            }
        }
        Err(lack) => Err(lack),
    }
}

fn as_filled_list<'a>(argument: &Given<'a>) -> Result<&'a Names, Lack>
    ensures { seen result ≡ as_filled_list (argument_of argument.now) }
{
    match as_list(argument) {
        Ok(items) => {
            if items.as_slice().is_empty() {
                Err(Lack::Missing)
            } else {
                Ok(items)
            }
        }
        Err(lack) => Err(lack),
    }
}

// Two things that are wanted, of which one that is missing counts before one that is hidden.
fn both<A: Copy, B: Copy>(first: Result<A, Lack>, second: Result<B, Lack>) -> Result<(A, B), Lack>
    ensures { result ≡ both first second }
{
    match first {
        Ok(one) => match second {
            Ok(other) => Ok((one, other)),
            Err(lack) => Err(lack),
        },
        Err(Lack::Missing) => Err(Lack::Missing),
        Err(Lack::Hidden) => match second {
            Ok(_) => Err(Lack::Hidden),
            Err(lack) => Err(lack),
        },
    }
}

pub(crate) fn one_text<'g>(arguments: &'g [Given<'_>]) -> Result<&'g Name, Lack>
    ensures { seen result ≡ of_one as_text (map argument_of arguments.now) }
{
    match arguments {
        [argument] => as_text(argument),
        _ => Err(Lack::Missing),
    }
}

pub(crate) fn one_list<'a>(arguments: &[Given<'a>]) -> Result<&'a Names, Lack>
    ensures { seen result ≡ of_one as_list (map argument_of arguments.now) }
{
    match arguments {
        [argument] => as_list(argument),
        _ => Err(Lack::Missing),
    }
}

pub(crate) fn two_texts<'g>(arguments: &'g [Given<'_>]) -> Result<(&'g Name, &'g Name), Lack>
    ensures { seen_both result ≡ of_two as_text as_text (map argument_of arguments.now) }
{
    match arguments {
        [first, second] => both(as_text(first), as_text(second)),
        _ => Err(Lack::Missing),
    }
}

pub(crate) fn text_and_list<'g, 'a>(
    arguments: &'g [Given<'a>],
) -> Result<(&'g Name, &'a Names), Lack>
    ensures { seen_both result ≡ of_two as_text as_list (map argument_of arguments.now) }
{
    match arguments {
        [text, items] => both(as_text(text), as_list(items)),
        _ => Err(Lack::Missing),
    }
}

pub(crate) fn list_and_number<'g, 'a>(
    arguments: &'g [Given<'a>],
) -> Result<(&'a Names, &'g Name), Lack>
    ensures { seen_both result ≡ of_two as_filled_list as_number (map argument_of arguments.now) }
{
    match arguments {
        [items, place] => both(as_filled_list(items), as_number(place)),
        _ => Err(Lack::Missing),
    }
}
