// The reading of values, token by token.
ghost use Rattle.std.specs.Prelude.{◌≡◌, ◌∷◌, Some, None, IfOk, IfErr, option_map};
ghost use Rattle.cfa_tree.specs.Plain.{plain_value};
ghost use Rattle.cfa_parser.specs.Seen.{StepsTo, Takes, OnlyMemory, seen_list, seen_call, seen_calls, seen_value, seen_value_progress};
ghost use Rattle.cfa_parser.specs.Values.{value_taken, list_closed, call_closed, list_opened, list_ended, wants_step, paren_step, behind_step, word_step, value_step, value_start, has_item, has_argument};

use crate::ParseErr;
use crate::texts::{content, referred_name};
use cfa_base::{Kind, Name, Place};
use cfa_lexer::Token;
use cfa_tree::{DEPTH_LIMIT, Value};
use std::alloc::Global;

// A list that is open: the items so far, and its place.
#[derive(Drop)]
pub struct OpenList {
    pub items: Vec<Value>,
    pub place: Place,
}

// A call that is open: the list around it, if it is an item, its word, and the arguments so far.
#[derive(Drop)]
pub struct OpenCall {
    pub around: Option<OpenList>,
    pub function: Name,
    pub place: Place,
    pub arguments: Vec<Value>,
}

// A value or an item is wanted; a word was read, which may be a call's; a call's parenthesis was read; an item was read;
// an argument was read; or the value is whole. The open calls stand innermost last.
#[derive(Drop)]
pub enum ValueState {
    WantsValue(Option<OpenList>, Vec<OpenCall>),
    HasWord(Name, Place, Option<OpenList>, Vec<OpenCall>),
    HasParen(OpenCall, Vec<OpenCall>),
    HasItem(OpenList, Vec<OpenCall>),
    HasArgument(OpenCall, Vec<OpenCall>),
    HasValue(Value),
}

// A value goes on, or it has ended before a token.
#[derive(Drop)]
pub enum ValueProgress {
    GoesOn(ValueState),
    Ended(Value),
}

// A value was read: it is an item of the open list, else an argument of the innermost call, else the whole.
fn value_taken(
    value: Value,
    inside: Option<OpenList>,
    calls: Vec<OpenCall>,
) -> Result<ValueState, ParseErr>
    ensures ok { IfOk result
        (λ s. seen_value s
        ≡ value_taken (plain_value value) (option_map seen_list inside) (seen_calls calls.items)) }
    ensures memory { IfErr result OnlyMemory }
{
    let mut calls = calls;
    match inside {
        Some(list) => {
            let mut list = list;
            list.items.push(value)?;
            Ok(ValueState::HasItem(list, calls))
        }
        None => match calls.pop() {
            Some(call) => {
                let mut call = call;
                call.arguments.push(value)?;
                Ok(ValueState::HasArgument(call, calls))
            }
            None => Ok(ValueState::HasValue(value)),
        },
    }
}

fn list_closed(list: OpenList, calls: Vec<OpenCall>) -> Result<ValueState, ParseErr>
    ensures ok { IfOk result
        (λ s. seen_value s ≡ list_closed (seen_list list) (seen_calls calls.items)) }
    ensures memory { IfErr result OnlyMemory }
{
    value_taken(Value::List(list.items, list.place), None, calls)
}

fn call_closed(call: OpenCall, calls: Vec<OpenCall>) -> Result<ValueState, ParseErr>
    ensures ok { IfOk result
        (λ s. seen_value s ≡ call_closed (seen_call call) (seen_calls calls.items)) }
    ensures memory { IfErr result OnlyMemory }
{
    value_taken(
        Value::Call(call.function, call.arguments, call.place),
        call.around,
        calls,
    )
}

// An opening brace where a value is wanted: no item of a list is itself a list.
fn open_list(
    alloc: Global,
    inside: Option<OpenList>,
    calls: Vec<OpenCall>,
    place: Place,
) -> Result<ValueState, ParseErr>
    ensures { StepsTo seen_value place
        (λ _. list_opened place (option_map seen_list inside) (seen_calls calls.items)) result }
{
    match inside {
        Some(_) => Err(ParseErr::Unexpected(place)),
        None => {
            let list = OpenList {
                items: Vec::new(alloc),
                place,
            };
            Ok(ValueState::WantsValue(Some(list), calls))
        }
    }
}

// A closing brace where a value is wanted: a list may end behind its brace or a comma.
fn end_list(
    inside: Option<OpenList>,
    calls: Vec<OpenCall>,
    place: Place,
) -> Result<ValueState, ParseErr>
    ensures { StepsTo seen_value place
        (λ _. list_ended (option_map seen_list inside) (seen_calls calls.items)) result }
{
    match inside {
        Some(list) => list_closed(list, calls),
        None => Err(ParseErr::Unexpected(place)),
    }
}

fn take_wanted(
    alloc: Global,
    inside: Option<OpenList>,
    calls: Vec<OpenCall>,
    token: &Token<'_>,
) -> Result<ValueState, ParseErr>
    ensures { Takes seen_value token.now (λ _. wants_step (option_map seen_list inside)
        (seen_calls calls.items)) result }
{
    match token.kind {
        Kind::Text => value_taken(
            Value::Text(content(alloc, token.text)?, token.place),
            inside,
            calls,
        ),
        Kind::Ref => value_taken(
            Value::Ref(referred_name(alloc, b'$', token.text)?, token.place),
            inside,
            calls,
        ),
        Kind::ListRef => value_taken(
            Value::ListRef(referred_name(alloc, b'@', token.text)?, token.place),
            inside,
            calls,
        ),
        Kind::Word => Ok(ValueState::HasWord(
            Name::from_text(alloc, token.text)?,
            token.place,
            inside,
            calls,
        )),
        Kind::OpenBrace => open_list(alloc, inside, calls, token.place),
        Kind::CloseBrace => end_list(inside, calls, token.place),
        _ => Err(ParseErr::Unexpected(token.place)),
    }
}

fn take_behind_item(
    list: OpenList,
    calls: Vec<OpenCall>,
    token: &Token<'_>,
) -> Result<ValueProgress, ParseErr>
    ensures { Takes seen_value_progress token.now (λ _ k _ _. behind_step (has_item
        (seen_list list) (seen_calls calls.items)) k) result }
{
    match token.kind {
        Kind::Comma => Ok(ValueProgress::GoesOn(ValueState::WantsValue(Some(list), calls))),
        Kind::CloseBrace => Ok(ValueProgress::GoesOn(list_closed(list, calls)?)),
        _ => Err(ParseErr::Unexpected(token.place)),
    }
}

fn take_behind_argument(
    call: OpenCall,
    calls: Vec<OpenCall>,
    token: &Token<'_>,
) -> Result<ValueProgress, ParseErr>
    ensures { Takes seen_value_progress token.now (λ _ k _ _. behind_step (has_argument
        (seen_call call) (seen_calls calls.items)) k) result }
{
    let mut calls = calls;
    match token.kind {
        Kind::Comma => {
            calls.push(call)?;
            Ok(ValueProgress::GoesOn(ValueState::WantsValue(None, calls)))
        }
        Kind::CloseParen => Ok(ValueProgress::GoesOn(call_closed(call, calls)?)),
        _ => Err(ParseErr::Unexpected(token.place)),
    }
}

// A token behind a value.
fn take_behind(value: ValueState, token: &Token<'_>) -> Result<ValueProgress, ParseErr>
    ensures { Takes seen_value_progress token.now (λ _ k _ _. behind_step
        (seen_value value) k) result }
{
    match value {
        ValueState::HasItem(list, calls) => take_behind_item(list, calls, token),
        ValueState::HasArgument(call, calls) => take_behind_argument(call, calls, token),
        ValueState::HasValue(whole) => Ok(ValueProgress::Ended(whole)),
        ValueState::WantsValue(_, _) => Err(ParseErr::Unexpected(token.place)),
        ValueState::HasWord(_, _, _, _) => Err(ParseErr::Unexpected(token.place)),
        ValueState::HasParen(_, _) => Err(ParseErr::Unexpected(token.place)),
    }
}

// A token behind a word: a parenthesis makes it a call's, any other stands behind the word as a value.
fn take_behind_word(
    alloc: Global,
    name: Name,
    place: Place,
    inside: Option<OpenList>,
    calls: Vec<OpenCall>,
    token: &Token<'_>,
) -> Result<ValueProgress, ParseErr>
    ensures { Takes seen_value_progress token.now (λ limit k _ _. word_step limit name place
        (option_map seen_list inside) (seen_calls calls.items) k) result }
{
    match token.kind {
        Kind::OpenParen => {
            if calls.len() >= DEPTH_LIMIT {
                return Err(ParseErr::TooDeep(token.place));
            }
            let call = OpenCall {
                around: inside,
                function: name,
                place,
                arguments: Vec::new(alloc),
            };
            Ok(ValueProgress::GoesOn(ValueState::HasParen(call, calls)))
        }
        _ => take_behind(value_taken(Value::Word(name, place), inside, calls)?, token),
    }
}

// A token behind a call's parenthesis: the arguments end, or the first begins.
fn take_behind_paren(
    alloc: Global,
    call: OpenCall,
    calls: Vec<OpenCall>,
    token: &Token<'_>,
) -> Result<ValueState, ParseErr>
    ensures { Takes seen_value token.now (λ _. paren_step (seen_call call)
        (seen_calls calls.items)) result }
{
    let mut calls = calls;
    match token.kind {
        Kind::CloseParen => call_closed(call, calls),
        _ => {
            calls.push(call)?;
            take_wanted(alloc, None, calls, token)
        }
    }
}

/// Nothing of a value was read.
pub fn value_start(alloc: Global) -> ValueState
    ensures { seen_value result ≡ value_start }
{
    ValueState::WantsValue(None, Vec::new(alloc))
}

/// What one more token makes of a value.
pub fn take_in_value(
    alloc: Global,
    value: ValueState,
    token: &Token<'_>,
) -> Result<ValueProgress, ParseErr>
    ensures { Takes seen_value_progress token.now (λ limit. value_step limit
        (seen_value value)) result }
{
    match value {
        ValueState::WantsValue(inside, calls) => {
            Ok(ValueProgress::GoesOn(take_wanted(alloc, inside, calls, token)?))
        }
        ValueState::HasWord(name, place, inside, calls) => {
            take_behind_word(alloc, name, place, inside, calls, token)
        }
        ValueState::HasParen(call, calls) => {
            Ok(ValueProgress::GoesOn(take_behind_paren(alloc, call, calls, token)?))
        }
        ValueState::HasItem(list, calls) => take_behind_item(list, calls, token),
        ValueState::HasArgument(call, calls) => take_behind_argument(call, calls, token),
        ValueState::HasValue(whole) => Ok(ValueProgress::Ended(whole)),
    }
}
