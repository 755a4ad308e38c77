// What the expressions of a classes promise say.
ghost use Rattle.std.specs.Prelude.{◌≡◌, IfOk, map};
ghost use Rattle.cfa_base.specs.Patterns.{SizeRefusal};
ghost use Rattle.cfa_statuses.specs.Raised.{greater_in};
ghost use Rattle.cfa_functions.specs.Builds.{IsBuilt, pattern_of_call, refused_in};
ghost use Rattle.cfa_functions.specs.Calls.{answer_of};
ghost use Rattle.cfa_tree.specs.Plain.{plain_promise, plain_value};
ghost use Rattle.cfa_tree.specs.Tree.{value_trees, values_in};
ghost use Rattle.cfa_vars.specs.Scopes.{look};
ghost use Rattle.cfa_defines.specs.OwnTexts.{held_list};
ghost use Rattle.cfa_defines.specs.Items.{items_or_none, items_written};
ghost use Rattle.cfa_defines.specs.ClassPromises.{answer_said, given_said, text_said, joined};
ghost use Rattle.cfa_defines.specs.Builds.{BuiltAmong, pattern_of_value, expressions_of};
ghost use Rattle.cfa_defines.specs.OfTheCode.{operation, together, variables_of, status_of, value_in, item_in, items_in, list_in, expressed_in};

use crate::combining::held_list;
use crate::maybes::first_maybe;
use crate::saying::{Join, Said};
use cfa_base::{Name, NoMemory, Patterns, copy_name};
use cfa_functions::{Answer, CallErr, ValueText, call, referred_list, text_of_value};
use cfa_statuses::{Status, Statuses, value};
use cfa_tree::{ExprErr, Promise, Value, read_expr};
use cfa_values::value_named;
use cfa_vars::Scopes;
use std::alloc::Global;

/// What expressions are read in: variables, the items that are chosen for lists, and the statuses of classes.
#[derive(Clone, Copy)]
pub(crate) struct Context<'a> {
    pub scopes: Scopes<'a>,
    pub choice: &'a [(Name, Name)],
    pub global: &'a Statuses,
    pub local: &'a Statuses,
}

// What a class text says.
fn text_said(
    alloc: Global,
    content: &Name,
    global: &Statuses,
    local: &Statuses,
) -> Result<Said, NoMemory>
    ensures { IfOk result
        (λ s. s ≡ text_said (greater_in global.now local.now) content.now) }
{
    match read_expr(alloc, content) {
        Ok(expr) => {
            let maybe = copy_name(alloc, first_maybe(&expr, global, local))?;
            Ok(Said::Says(value(&expr, global, local), maybe))
        }
        Err(ExprErr::BadExpression) => Ok(Said::NoExpression),
        Err(ExprErr::NoMemory) => Err(NoMemory),
    }
}

fn given_said(
    alloc: Global,
    text: ValueText,
    global: &Statuses,
    local: &Statuses,
) -> Result<Said, NoMemory>
    ensures { IfOk result (λ s. s ≡ given_said (greater_in global.now local.now) text) }
{
    match text {
        ValueText::Text(content) => text_said(alloc, &content, global, local),
        ValueText::Unresolved(_) => Ok(Said::Stops),
        ValueText::TooLong => Ok(Said::Stops),
    }
}

fn answer_said(answer: Answer) -> Said
    ensures { result ≡ answer_said answer }
{
    match answer {
        Answer::Text(_) => Said::Stops,
        Answer::Class(true) => Said::Says(Status::Yes, None),
        Answer::Class(false) => Said::Says(Status::No, None),
        Answer::Unresolved => Said::Stops,
        Answer::TooLong => Said::Stops,
    }
}

// What a call of a function says.
fn call_said<P: Patterns>(
    alloc: Global,
    name: &Name,
    arguments: &[Value],
    context: &Context<'_>,
    pats: &mut P,
) -> Result<Said, CallErr>
    ensures said { IfOk result (λ s. s ≡ answer_said
        (answer_of (variables_of context.now) context.now.choice.now name.now
        (value_trees (map plain_value arguments.now)))) }
    ensures sizes { SizeRefusal
        (IsBuilt (pattern_of_call (variables_of context.now) context.now.choice.now name.now
        (value_trees (map plain_value arguments.now))))
        (refused_in result) (P.shown pats.old) (P.shown pats.new) }
{
    let answer = call(
        alloc,
        name,
        arguments,
        &context.scopes,
        context.choice,
        pats,
    )?;
    Ok(answer_said(answer))
}

// What a class text, or a call of a class function, says.
fn value_said<P: Patterns>(
    alloc: Global,
    value: &Value,
    context: &Context<'_>,
    pats: &mut P,
) -> Result<Said, CallErr>
    ensures said { IfOk result (λ s. s ≡ value_in context.now (plain_value value.now)) }
    ensures sizes { SizeRefusal
        (IsBuilt (pattern_of_value (variables_of context.now) context.now.choice.now
        (plain_value value.now)))
        (refused_in result) (P.shown pats.old) (P.shown pats.new) }
{
    match value {
        Value::Call(name, arguments, _) => {
            call_said(alloc, name, arguments.as_slice(), context, pats)
        }
        Value::Text(_, _) | Value::Word(_, _) | Value::Ref(_, _) => {
            let text = text_of_value(alloc, value, &context.scopes, context.choice)?;
            Ok(given_said(alloc, text, context.global, context.local)?)
        }
        Value::ListRef(_, _) | Value::List(_, _) => Ok(Said::Stops),
    }
}

// What was said together with what some class texts say.
fn join_texts(
    alloc: Global,
    join: Join,
    said: Said,
    texts: &[Name],
    context: &Context<'_>,
) -> Result<Said, NoMemory>
    ensures { IfOk result (λ s. s ≡ joined (operation join) said
        (together join (map (text_said (status_of context.now)) texts.now))) }
{
    let mut said = said;
    for text in texts {
        let next = text_said(alloc, text, context.global, context.local)?;
        said = join.join(said, next);
    }
    Ok(said)
}

// What was said together with what the items of a list say.
fn join_named(
    alloc: Global,
    join: Join,
    said: Said,
    name: &str,
    context: &Context<'_>,
) -> Result<Said, NoMemory>
    ensures { IfOk result (λ s. s ≡ joined (operation join) said
        (together join (map (text_said (status_of context.now))
        (items_or_none (held_list (look (variables_of context.now) name.now)))))) }
{
    match held_list(&context.scopes, name) {
        Some(items) => join_texts(alloc, join, said, items.as_slice(), context),
        None => Ok(said),
    }
}

// What was said together with what an item of `and` or `or` says.
fn join_item<P: Patterns>(
    alloc: Global,
    join: Join,
    said: Said,
    item: &Value,
    context: &Context<'_>,
    pats: &mut P,
) -> Result<Said, CallErr>
    ensures said { IfOk result (λ s. s ≡ joined (operation join) said
        (together join (item_in context.now (plain_value item.now)))) }
    ensures sizes { SizeRefusal
        (IsBuilt (pattern_of_value (variables_of context.now) context.now.choice.now
        (plain_value item.now)))
        (refused_in result) (P.shown pats.old) (P.shown pats.new) }
{
    match referred_list(item) {
        Some(name) => Ok(join_named(alloc, join, said, name, context)?),
        None => Ok(join.join(said, value_said(alloc, item, context, pats)?)),
    }
}

// What the items that stand between the brackets of a list say together.
fn items_said<P: Patterns>(
    alloc: Global,
    join: Join,
    items: &[Value],
    context: &Context<'_>,
    pats: &mut P,
) -> Result<Said, CallErr>
    ensures said { IfOk result (λ s. s
        ≡ together join (items_in context.now (value_trees (map plain_value items.now)))) }
    ensures sizes { SizeRefusal
        (BuiltAmong (variables_of context.now) context.now.choice.now (map plain_value items.now))
        (refused_in result) (P.shown pats.old) (P.shown pats.new) }
{
    let mut said = join.start();
    for item in items {
        said = join_item(alloc, join, said, item, context, pats)?;
    }
    Ok(said)
}

// What the items of a list say together.
fn list_said<P: Patterns>(
    alloc: Global,
    join: Join,
    value: &Value,
    context: &Context<'_>,
    pats: &mut P,
) -> Result<Said, CallErr>
    ensures said { IfOk result
        (λ s. s ≡ together join (list_in context.now (plain_value value.now))) }
    ensures sizes { SizeRefusal
        (BuiltAmong (variables_of context.now) context.now.choice.now
        (values_in (items_written (plain_value value.now))))
        (refused_in result) (P.shown pats.old) (P.shown pats.new) }
{
    if let Some(name) = referred_list(value) {
        return Ok(join_named(alloc, join, join.start(), name, context)?);
    }
    match value {
        Value::List(items, _) => items_said(alloc, join, items.as_slice(), context, pats),
        _ => Ok(join.start()),
    }
}

/// What the expressions of a promise say in one combination: that of `expression`, else the opposite of that of `not`, else
/// all of `and`, else one of `or`.
pub(crate) fn expressed<P: Patterns>(
    alloc: Global,
    promise: &Promise,
    context: &Context<'_>,
    pats: &mut P,
) -> Result<Said, CallErr>
    ensures said { IfOk result
        (λ s. s ≡ expressed_in context.now (plain_promise promise.now)) }
    ensures sizes { SizeRefusal
        (BuiltAmong (variables_of context.now) context.now.choice.now
        (expressions_of (plain_promise promise.now)))
        (refused_in result) (P.shown pats.old) (P.shown pats.new) }
{
    let attributes = promise.attributes.as_slice();
    if let Some(value) = value_named(attributes, "expression") {
        return value_said(alloc, value, context, pats);
    }
    if let Some(value) = value_named(attributes, "not") {
        return Ok(value_said(alloc, value, context, pats)?.opposite());
    }
    if let Some(value) = value_named(attributes, "and") {
        return list_said(alloc, Join::All, value, context, pats);
    }
    match value_named(attributes, "or") {
        Some(value) => list_said(alloc, Join::One, value, context, pats),
        None => Ok(Said::Stops),
    }
}
