// The instances of combinations.
ghost use Rattle.std.specs.Prelude.{◌≡◌, ◌≢◌, ◌∷◌, [], Option, Some, IfOk, codes, option_copied};
ghost use Rattle.cfa_acts.specs.Acts.{IsAct, IsOwn};
ghost use Rattle.cfa_schema.specs.Seen.{tree_of};
ghost use Rattle.cfa_served.specs.Served.{minutes_of};
ghost use Rattle.cfa_tree.specs.Plain.{plain_promise, plain_value};
ghost use Rattle.cfa_values.specs.Attributes.{value_of};
ghost use Rattle.cfa_resolve.specs.declared.instances.Work.TheVariants.{Acts as of_acts};
ghost use Rattle.cfa_resolve.specs.FileActs.{file_acts, service_act};
ghost use Rattle.cfa_resolve.specs.Instances.{instance_of, bust_instance, promiser_in, text_of, call_by, work_by, classed, timed, minutes_said, minutes_in, made_instance, handed_instance};
ghost use Rattle.cfa_bodies.specs.Bodies.{Bodies as AnyBodies};
ghost use Rattle.cfa_resolve.specs.KeyTexts.{key_text};
ghost use Rattle.cfa_resolve.specs.OfTheCode.{IsShort, seen_reached};
ghost use Rattle.cfa_scripts.specs.declared.scripting.Scripted.{Scripted as AnyScripted};

use crate::classes::{Outcomes, outcomes_of};
use crate::copies::copy_id;
use crate::files::file_acts;
use crate::keys::key_text;
use crate::reached::Reached;
use crate::services::service_act;
use crate::values::{minutes_written, own_text, promiser_in, short_minutes};
use crate::{Acts, Instance, Work};
use cfa_acts::{Act, Reason};
use cfa_base::{Name, Names, NoMemory, Parts, PromiseId};
use cfa_bodies::{Bodies, Said, data_given, empty_text, name_given, text_in};
use cfa_defines::arguments_of;
use cfa_kinds::PromiseType;
use cfa_schema::Checked;
use cfa_scripts::Scripted;
use cfa_tree::Value;
use cfa_values::value_named;
use std::alloc::Global;

// The names of an instance: its path, its promise and its key text.
fn names_of(
    alloc: Global,
    reached: &Reached<'_>,
    promiser: &Name,
    work: &Work,
    outcomes: &Outcomes,
    minutes: u32,
) -> Result<(Name, PromiseId, Name), NoMemory>
    ensures { IfOk result (λ names. names ≡ (
      (seen_reached reached.now).path,
      (seen_reached reached.now).id,
      key_text (seen_reached reached.now).id promiser.now work.now
          outcomes.now.kept outcomes.now.repaired outcomes.now.failed minutes,
    )) }
{
    let text = key_text(alloc, reached.id, promiser, work, outcomes, minutes)?;
    let path = reached.path.copy(alloc)?;
    Ok((path, copy_id(alloc, reached.id)?, text))
}

fn instance_of(
    alloc: Global,
    reached: &Reached<'_>,
    promiser: &Name,
    work: Work,
    outcomes: Outcomes,
    minutes: u32,
) -> Result<Instance, NoMemory>
    ensures { IfOk result (λ i. i ≡ instance_of (seen_reached reached.now) promiser.now work
        outcomes.kept outcomes.repaired outcomes.failed minutes) }
{
    let (path, source, text) = names_of(alloc, reached, promiser, &work, &outcomes, minutes)?;
    Ok(Instance {
        path,
        source,
        work,
        kept: outcomes.kept,
        repaired: outcomes.repaired,
        failed: outcomes.failed,
        elapsed: minutes,
        text,
    })
}

fn one_act(alloc: Global, act: Act) -> Result<Acts, NoMemory>
    requires { IsAct act }
    ensures { IfOk result (λ acts. acts ≡ act ∷ []) }
{
    let mut items = Vec::new(alloc);
    items.push(act)?;
    Acts::from_vec(alloc, items)
}

fn bust_work(alloc: Global, reason: Reason) -> Result<Work, NoMemory>
    requires { IsOwn reason }
    ensures { IfOk result (λ w. w ≡ of_acts (Act.Bust reason ∷ [])) }
{
    Ok(Work::Acts(one_act(alloc, Act::Bust(reason))?))
}

fn control_minutes(checked: &Checked) -> u32
    ensures { result ≡ minutes_of (tree_of checked.now) }
{
    short_minutes(checked.minutes())
}

/// The one instance of what is too many or too long.
pub(crate) fn bust_instance(
    alloc: Global,
    reached: &Reached<'_>,
    reason: Reason,
) -> Result<Instance, NoMemory>
    requires { IsOwn reason }
    ensures { IfOk result (λ i. i ≡ bust_instance (seen_reached reached.now) reason) }
{
    let work = bust_work(alloc, reason)?;
    let none = Outcomes {
        kept: Names::new(alloc),
        repaired: Names::new(alloc),
        failed: Names::new(alloc),
    };
    let minutes = control_minutes(reached.checked);
    let promiser = &reached.promise.promiser;
    instance_of(alloc, reached, promiser, work, none, minutes)
}

fn call_of(
    alloc: Global,
    reached: &Reached<'_>,
    value: &Value,
    choice: &[(Name, Name)],
) -> Result<Work, NoMemory>
    ensures { IfOk result (λ w. w
        ≡ call_by (seen_reached reached.now) choice.now (Some (plain_value value.now))) }
{
    let name = Name::from_text(alloc, name_given(value))?;
    let arguments = data_given(alloc, arguments_of(value), &reached.scopes, choice)?;
    Ok(Work::Call(name, Parts::from_vec(arguments)))
}

// The bundle that a methods promise calls.
fn call_work(
    alloc: Global,
    reached: &Reached<'_>,
    choice: &[(Name, Name)],
) -> Result<Work, NoMemory>
    ensures { IfOk result (λ w. w ≡ call_by (seen_reached reached.now) choice.now
        (value_of (codes "usebundle") (plain_promise reached.now.promise.now).attributes)) }
{
    match value_named(reached.promise.attributes.as_slice(), "usebundle") {
        None => Ok(Work::Call(empty_text(alloc)?, Parts::from_vec(Vec::new(alloc)))),
        Some(value) => call_of(alloc, reached, value, choice),
    }
}

// The texts of the attributes `create` and `content` of a files promise.
fn file_texts(
    alloc: Global,
    reached: &Reached<'_>,
    choice: &[(Name, Name)],
) -> Result<(Option<Name>, Option<Name>), NoMemory>
    ensures create { IfOk result
        (λ both. both.0 ≡ text_of (seen_reached reached.now) choice.now (codes "create")) }
    ensures content { IfOk result
        (λ both. both.1 ≡ text_of (seen_reached reached.now) choice.now (codes "content")) }
    ensures short { IfOk result (λ both. IsShort both.1) }
{
    let (promise, scopes) = (reached.promise, &reached.scopes);
    let create = own_text(alloc, promise, "create", scopes, choice)?;
    Ok((create, own_text(alloc, promise, "content", scopes, choice)?))
}

fn files_work(
    alloc: Global,
    reached: &Reached<'_>,
    promiser: &Name,
    bodies: &Bodies,
    choice: &[(Name, Name)],
    scripted: Option<Scripted>,
) -> Result<Work, NoMemory>
    ensures { IfOk result (λ w. w ≡ of_acts (file_acts promiser.now
        (text_of (seen_reached reached.now) choice.now (codes "create"))
        (text_of (seen_reached reached.now) choice.now (codes "content")) bodies.now scripted)) }
{
    let (create, content) = file_texts(alloc, reached, choice)?;
    let acts = file_acts(
        alloc,
        promiser.as_str(),
        &create,
        &content,
        bodies,
        scripted,
    )?;
    Ok(Work::Acts(Acts::from_vec(alloc, acts)?))
}

fn services_work(
    alloc: Global,
    reached: &Reached<'_>,
    promiser: &Name,
    choice: &[(Name, Name)],
) -> Result<Work, NoMemory>
    ensures { IfOk result (λ w. w ≡ of_acts (service_act promiser.now
        (text_of (seen_reached reached.now) choice.now (codes "service_policy")) ∷ [])) }
{
    let policy = own_text(
        alloc,
        reached.promise,
        "service_policy",
        &reached.scopes,
        choice,
    )?;
    let act = service_act(promiser.copy(alloc)?, &policy);
    Ok(Work::Acts(one_act(alloc, act)?))
}

// What a promise that isn't one of files asks for in one combination, where this is its promiser.
fn other_work(
    alloc: Global,
    reached: &Reached<'_>,
    promiser: &Name,
    choice: &[(Name, Name)],
) -> Result<Work, NoMemory>
    requires { promiser.now ≡ promiser_in (seen_reached reached.now) choice.now }
    ensures { reached.now.promise_type ≢ PromiseType.Files
        → (bodies : AnyBodies) (scripted : Option AnyScripted) → IfOk result
        (λ w. w ≡ work_by (seen_reached reached.now) choice.now bodies scripted
        reached.now.promise_type) }
{
    match reached.promise_type {
        PromiseType::Services => services_work(alloc, reached, promiser, choice),
        PromiseType::Methods => call_work(alloc, reached, choice),
        PromiseType::Reports => Ok(Work::Report(promiser.copy(alloc)?)),
        _ => Ok(Work::Acts(Acts::from_vec(alloc, Vec::new(alloc))?)),
    }
}

// What a promise asks for in one combination, where this is its promiser.
fn work_by(
    alloc: Global,
    reached: &Reached<'_>,
    promiser: &Name,
    bodies: &Bodies,
    choice: &[(Name, Name)],
    scripted: Option<Scripted>,
) -> Result<Work, NoMemory>
    requires { promiser.now ≡ promiser_in (seen_reached reached.now) choice.now }
    ensures { IfOk result (λ w. w ≡ work_by (seen_reached reached.now) choice.now bodies.now
        scripted reached.now.promise_type) }
{
    if reached.promise_type == PromiseType::Files {
        return files_work(alloc, reached, promiser, bodies, choice, scripted);
    }
    drop(scripted);
    other_work(alloc, reached, promiser, choice)
}

fn minutes_said(reached: &Reached<'_>, said: Option<&Said>) -> Option<u32>
    ensures { result ≡ minutes_said (seen_reached reached.now) (option_copied said.entry) }
{
    match said {
        None => Some(control_minutes(reached.checked)),
        Some(said) => minutes_written(text_in(said)),
    }
}

fn minutes_in(reached: &Reached<'_>, bodies: &Bodies) -> Option<u32>
    ensures { result ≡ minutes_in (seen_reached reached.now) bodies.now }
{
    minutes_said(reached, bodies.said("action", "ifelapsed"))
}

// The instance of work, with the classes that the bodies of its promise say.
fn classed(
    alloc: Global,
    reached: &Reached<'_>,
    bodies: &Bodies,
    promiser: &Name,
    work: Work,
    minutes: u32,
) -> Result<Instance, NoMemory>
    ensures { IfOk result (λ i. i
        ≡ classed (seen_reached reached.now) bodies.now promiser.now work minutes) }
{
    let outcomes = outcomes_of(alloc, bodies)?;
    instance_of(alloc, reached, promiser, work, outcomes, minutes)
}

// The instance of a combination, where these are its promiser and its minutes.
fn timed(
    alloc: Global,
    reached: &Reached<'_>,
    promiser: &Name,
    bodies: &Bodies,
    choice: &[(Name, Name)],
    scripted: Option<Scripted>,
    minutes: Option<u32>,
) -> Result<Instance, NoMemory>
    requires { promiser.now ≡ promiser_in (seen_reached reached.now) choice.now }
    ensures { IfOk result (λ i. i
        ≡ timed (seen_reached reached.now) choice.now bodies.now scripted minutes) }
{
    match minutes {
        None => {
            drop(scripted);
            let work = bust_work(alloc, Reason::BadValue)?;
            classed(alloc, reached, bodies, promiser, work, 1)
        }
        Some(minutes) => {
            let work = work_by(alloc, reached, promiser, bodies, choice, scripted)?;
            classed(alloc, reached, bodies, promiser, work, minutes)
        }
    }
}

/// The instance of a combination, where nothing that its bodies and its edit bundle say keeps it from being made.
#[tactic(auto, unfolding(crate::specs::Instances::made_instance))]
pub(crate) fn made_instance(
    alloc: Global,
    reached: &Reached<'_>,
    bodies: &Bodies,
    choice: &[(Name, Name)],
    scripted: Option<Scripted>,
) -> Result<Instance, NoMemory>
    ensures { IfOk result (λ i. i
        ≡ made_instance (seen_reached reached.now) choice.now bodies.now scripted) }
{
    let promiser = promiser_in(alloc, reached, choice)?;
    let minutes = minutes_in(reached, bodies);
    timed(alloc, reached, &promiser, bodies, choice, scripted, minutes)
}

/// The instance of what a promise of the edit bundle hands over.
#[tactic(auto, unfolding(crate::specs::Instances::handed_instance))]
pub(crate) fn handed_instance(
    alloc: Global,
    reached: &Reached<'_>,
    bodies: &Bodies,
    reason: Reason,
) -> Result<Instance, NoMemory>
    requires { IsOwn reason }
    ensures { IfOk result
        (λ i. i ≡ handed_instance (seen_reached reached.now) bodies.now reason) }
{
    let work = bust_work(alloc, reason)?;
    let minutes = minutes_in(reached, bodies).unwrap_or(1);
    let written = &reached.promise.promiser;
    classed(alloc, reached, bodies, written, work, minutes)
}
