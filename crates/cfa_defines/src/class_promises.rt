// What classes promises raise.
ghost use Rattle.std.specs.Prelude.{◌≡◌, IfOk, map, Some};
ghost use Rattle.cfa_base.specs.Patterns.{SizeRefusal};
ghost use Rattle.cfa_statuses.specs.Raised.{greater_in};
ghost use Rattle.cfa_functions.specs.Builds.{refused_in};
ghost use Rattle.cfa_tree.specs.Plain.{plain_promise};
ghost use Rattle.cfa_vars.specs.Scopes.{in_scope};
ghost use Rattle.cfa_defines.specs.Builds.{BuiltAmong, BuiltBy, expressions_of};
ghost use Rattle.cfa_defines.specs.ClassPromises.{raised_in, raises_from, raises_of};
ghost use Rattle.cfa_defines.specs.OfTheCode.{variables_of, status_of};
ghost use Rattle.cfa_defines.specs.SeenRaises.{seen_raise};

use crate::expressions::{Context, expressed};
use crate::saying::Said;
use cfa_base::{Name, Patterns};
use cfa_functions::{CallErr, canonify};
use cfa_statuses::{Status, Statuses};
use cfa_tree::Promise;
use cfa_vars::{Choice, ChoiceList, Expanded, Scopes, expand};
use std::alloc::Global;

/// What a classes promise raises in one combination.
#[derive(Debug, Drop)]
pub struct Raise {
    /// The class, canonified.
    pub class: Name,
    /// The status that its expression says; that of its guard is not in it.
    pub status: Status,
    /// The first Maybe class of its expressions.
    pub maybe: Option<Name>,
}

// The class of a combination, with what its expressions say. It has none where its promiser has no text.
fn raised_in<P: Patterns>(
    alloc: Global,
    promise: &Promise,
    context: &Context<'_>,
    pats: &mut P,
) -> Result<Option<(Name, Said)>, CallErr>
    ensures raised { IfOk result (λ r. r
        ≡ raised_in (status_of context.now) (variables_of context.now)
        (plain_promise promise.now) context.now.choice.now) }
    ensures sizes { SizeRefusal
        (BuiltAmong (variables_of context.now) context.now.choice.now
        (expressions_of (plain_promise promise.now)))
        (refused_in result) (P.shown pats.old) (P.shown pats.new) }
{
    match expand(alloc, &promise.promiser, &context.scopes, context.choice)? {
        Expanded::Done(name) => {
            let class = canonify(alloc, &name)?;
            Ok(Some((class, expressed(alloc, promise, context, pats)?)))
        }
        Expanded::Unresolved(_) => Ok(None),
        Expanded::TooLong => Ok(None),
    }
}

fn raises_from<'a, P: Patterns>(
    alloc: Global,
    promise: &Promise,
    choices: &'a [Choice],
    scopes: &Scopes<'a>,
    global: &'a Statuses,
    local: &'a Statuses,
    pats: &mut P,
) -> Result<Vec<Raise>, CallErr>
    ensures raises { IfOk result (λ raises. map seen_raise raises.items
        ≡ raises_from (greater_in global.now local.now) (in_scope scopes.now)
        (plain_promise promise.now) choices.now) }
    ensures sizes { SizeRefusal
        (BuiltBy (in_scope scopes.now) (plain_promise promise.now) (Some choices.now))
        (refused_in result) (P.shown pats.old) (P.shown pats.new) }
{
    let mut raises = Vec::new(alloc);
    for choice in choices {
        let context = Context {
            scopes: *scopes,
            choice: choice.as_slice(),
            global,
            local,
        };
        match raised_in(alloc, promise, &context, pats)? {
            Some((class, said)) => match said {
                Said::Says(status, maybe) => raises.push(Raise {
                    class,
                    status,
                    maybe,
                })?,
                Said::NoExpression => {}
                Said::Stops => return Ok(Vec::new(alloc)),
            },
            None => return Ok(Vec::new(alloc)),
        }
    }
    Ok(raises)
}

/// What a classes promise raises in its combinations, one after the other. All of them read the scopes and the statuses as
/// they are handed in. A text or call that is too long in one of them, or a call that is unresolved, keeps the promise from
/// raising anything; where a class text is no expression, only that combination raises nothing. `PatternTooBig` comes only
/// where the pattern of a call was refused so.
#[tactic(auto, unfolding(crate::specs::ClassPromises::raises_of))]
pub fn raises_of<P: Patterns>(
    alloc: Global,
    promise: &Promise,
    choices: &Option<ChoiceList>,
    scopes: &Scopes<'_>,
    global: &Statuses,
    local: &Statuses,
    pats: &mut P,
) -> Result<Vec<Raise>, CallErr>
    ensures raises { IfOk result (λ raises. map seen_raise raises.items
        ≡ raises_of (greater_in global.now local.now) (in_scope scopes.now)
        (plain_promise promise.now) choices.now) }
    ensures sizes { SizeRefusal
        (BuiltBy (in_scope scopes.now) (plain_promise promise.now) choices.now)
        (refused_in result) (P.shown pats.old) (P.shown pats.new) }
{
    match choices {
        None => Ok(Vec::new(alloc)),
        Some(choices) => {
            raises_from(
                alloc,
                promise,
                choices.as_slice(),
                scopes,
                global,
                local,
                pats,
            )
        }
    }
}
