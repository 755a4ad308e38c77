// What follows when an instance has ended.
ghost use Rattle.std.specs.Prelude.{◌≡◌, [], ◌∷◌, IfOk, OnOk};
ghost use Rattle.cfa_states.specs.History.{History, Told};
ghost use Rattle.cfa_states.specs.Kept.{Keeps, KeepsLocally, IsSame, IsLater, AreLater};
ghost use Rattle.cfa_states.specs.Tellers.{outcomes_in};
ghost use Rattle.cfa_resolve.specs.declared.instances.Instance.{Instance as AnyInstance};
ghost use Rattle.cfa_visits.specs.Endings.{raise_ending};
ghost use Rattle.cfa_states.specs.Passes.{classes_for, in_every_list, raise_each, raised_to, visit_status};
ghost use Rattle.cfa_states.specs.Views.{Setting};

use cfa_base::{Name, NameIndex, Names, NoMemory};
use cfa_outcomes::Outcome;
use cfa_resolve::{Instance, copy_id};
use cfa_states::{Activation, Ending, State};
use cfa_statuses::Status;
use std::alloc::Global;

/// The classes that are raised for an outcome.
fn classes_for(instance: &Instance, outcome: Outcome) -> &Names
    ensures { result.now ≡ classes_for instance.now outcome }
{
    match outcome {
        Outcome::Kept => &instance.kept,
        Outcome::Repaired => &instance.repaired,
        Outcome::Failed => &instance.failed,
    }
}

// Raises the classes of an outcome to the status of the visit, everywhere.
fn raise_outcome(
    alloc: Global,
    instance: &Instance,
    outcome: Outcome,
    status: Status,
    state: &mut State,
) -> Result<(), NoMemory>
    ensures keeps { OnOk result ((s : Setting) (h : History) → Keeps s state.old h
        → Keeps s state.new (raise_each instance.now (outcome ∷ []) status
        (classes_for instance.now outcome) h)) }
    ensures later { OnOk result (IsLater state.old state.new) }
{
    for class in classes_for(instance, outcome).as_slice() {
        let source = copy_id(alloc, &instance.source)?;
        state.raise(class.copy(alloc)?, status, Some(source))?;
    }
    Ok(())
}

// The classes of a list, to be looked up.
fn indexed<'a>(alloc: Global, classes: &'a Names) -> Result<NameIndex<'a>, NoMemory>
    ensures { IfOk result (λ index. index ≡ classes.entry.now) }
{
    let mut index = NameIndex::new(alloc);
    for class in classes.as_slice() {
        index.add(class.as_str())?;
    }
    Ok(index)
}

// The status to which a class of an instance is raised that may be kept or repaired: that of the visit where both lists have
// the class, and else Maybe.
fn raised_to(kept: &NameIndex<'_>, repaired: &NameIndex<'_>, class: &Name, status: Status) -> Status
    ensures { (i : AnyInstance) → kept.now ≡ i.kept → repaired.now ≡ i.repaired → result
        ≡ raised_to status (in_every_list i (Outcome.Kept ∷ (Outcome.Repaired ∷ [])) class.now) }
{
    if kept.find(class.as_str()).is_none() {
        return Status::Maybe;
    }
    if repaired.find(class.as_str()).is_none() {
        return Status::Maybe;
    }
    status
}

// Raises classes of an instance that may be kept or repaired.
fn raise_classes(
    alloc: Global,
    instance: &Instance,
    classes: &Names,
    kept: &NameIndex<'_>,
    repaired: &NameIndex<'_>,
    status: Status,
    state: &mut State,
) -> Result<(), NoMemory>
    requires kept { kept.now ≡ instance.now.kept }
    requires repaired { repaired.now ≡ instance.now.repaired }
    ensures keeps { OnOk result ((s : Setting) (h : History) → Keeps s state.old h
        → Keeps s state.new (raise_each instance.now (Outcome.Kept ∷ (Outcome.Repaired ∷ []))
        status classes.now h)) }
    ensures later { OnOk result (IsLater state.old state.new) }
{
    for class in classes.as_slice() {
        let to = raised_to(kept, repaired, class, status);
        let source = copy_id(alloc, &instance.source)?;
        state.raise(class.copy(alloc)?, to, Some(source))?;
    }
    Ok(())
}

// Raises the classes of an instance that may be kept or repaired.
fn raise_both(
    alloc: Global,
    instance: &Instance,
    status: Status,
    state: &mut State,
) -> Result<(), NoMemory>
    ensures keeps { OnOk result ((s : Setting) (h : History) → Keeps s state.old h
        → Keeps s state.new (raise_ending instance.now Ending.KeptOrRepaired status h)) }
    ensures later { OnOk result (IsLater state.old state.new) }
{
    let (kept, repaired) = (&instance.kept, &instance.repaired);
    let in_kept = indexed(alloc, kept)?;
    let in_repaired = indexed(alloc, repaired)?;
    raise_classes(alloc, instance, kept, &in_kept, &in_repaired, status, state)?;
    raise_classes(
        alloc,
        instance,
        repaired,
        &in_kept,
        &in_repaired,
        status,
        state,
    )
}

/// Ends a visit of an instance: notes in its activation how it ended or may end, and raises the classes for that, everywhere.
pub fn end_visit(
    alloc: Global,
    instance: &Instance,
    ending: Ending,
    status: Status,
    state: &mut State,
    activation: &mut Activation,
) -> Result<(), NoMemory>
    ensures same { IsSame activation.old activation.new }
    ensures notes { (s : Setting) (h : History) (i : AnyInstance) → i.path ≡ activation.old.path
        → KeepsLocally s activation.old h
        → KeepsLocally s activation.new (Told i (outcomes_in ending) ∷ h) }
    ensures keeps { OnOk result ((s : Setting) (h : History) → Keeps s state.old h
        → Keeps s state.new (raise_ending instance.now ending status h)) }
    ensures later { OnOk result (AreLater state.old state.new activation.old activation.new) }
{
    activation.note(ending);
    match ending {
        Ending::One(outcome) => raise_outcome(alloc, instance, outcome, status, state),
        Ending::KeptOrRepaired => raise_both(alloc, instance, status, state),
    }
}

/// The status of a visit: the least of what the guard, the activation and earlier visits allow.
pub fn visit_status(guard: Status, activation: Status, mark: Status) -> Status
    ensures { result ≡ visit_status guard activation mark }
{
    guard.lesser(activation.lesser(mark.swapped()))
}
