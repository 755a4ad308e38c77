// The classes that are raised for an outcome.
ghost use Rattle.std.specs.Prelude.{◌≡◌, ◌++◌, IfOk, codes, filter, map, not};
ghost use Rattle.cfa_functions.specs.Functions.{canonified};
ghost use Rattle.cfa_resolve.specs.FileActs.{is_empty, outcome_classes};

use cfa_base::{Name, Names, NoMemory};
use cfa_bodies::{Bodies, Said};
use cfa_functions::canonify;
use std::alloc::Global;

fn classes_among(alloc: Global, texts: &[Name]) -> Result<Names, NoMemory>
    ensures { IfOk result (λ classes. classes
        ≡ map canonified (filter (λ content. not (is_empty content)) texts.now)) }
{
    let mut classes = Names::new(alloc);
    for text in texts {
        if !text.as_str().is_empty() {
            classes.push(canonify(alloc, text)?)?;
        }
    }
    Ok(classes)
}

/// The classes for each outcome.
#[derive(Drop)]
pub(crate) struct Outcomes {
    pub kept: Names,
    pub repaired: Names,
    pub failed: Names,
}

/// The classes that the `classes` body of a promise lists under a name.
#[tactic(auto, unfolding(crate::specs::FileActs::outcome_classes))]
pub(crate) fn outcome_classes(alloc: Global, bodies: &Bodies, name: &str) -> Result<Names, NoMemory>
    ensures { IfOk result (λ classes. classes ≡ outcome_classes bodies.now name.now) }
{
    match bodies.said("classes", name) {
        Some(Said::Items(items)) => classes_among(alloc, items.as_slice()),
        Some(_) => Ok(Names::new(alloc)),
        None => Ok(Names::new(alloc)),
    }
}

/// The classes that the `classes` body of a promise lists for each outcome.
pub(crate) fn outcomes_of(alloc: Global, bodies: &Bodies) -> Result<Outcomes, NoMemory>
    ensures kept { IfOk result
        (λ o. o.kept ≡ outcome_classes bodies.now (codes "promise_kept")) }
    ensures repaired { IfOk result
        (λ o. o.repaired ≡ outcome_classes bodies.now (codes "promise_repaired")) }
    ensures failed { IfOk result
        (λ o. o.failed ≡ outcome_classes bodies.now (codes "repair_failed")) }
{
    Ok(Outcomes {
        kept: outcome_classes(alloc, bodies, "promise_kept")?,
        repaired: outcome_classes(alloc, bodies, "promise_repaired")?,
        failed: outcome_classes(alloc, bodies, "repair_failed")?,
    })
}
