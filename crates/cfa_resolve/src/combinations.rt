// What the combinations of a promise come to.
ghost use Rattle.std.specs.Prelude.{◌≡◌, ◌+◌, ◌^◌, ◌++◌, [], ◌≤◌, ◌<◌, IfOk, IsErrOf, OnOk, option_map};
ghost use Rattle.std.specs.List.{cons_option};
ghost use Rattle.cfa_base.specs.Patterns.{SizeRefusal};
ghost use Rattle.cfa_tree.specs.Plain.{plain_value};
ghost use Rattle.cfa_acts.specs.Acts.{IsOwn};
ghost use Rattle.cfa_scripts.specs.Refusals.{too_big_in as script_too_big_in};
ghost use Rattle.cfa_resolve.specs.declared.combinations.Made.TheVariants.{Instance as an_instance};
ghost use Rattle.cfa_resolve.specs.Instances.{bust_instance};
ghost use Rattle.cfa_base.specs.Index.{is_listed};
ghost use Rattle.cfa_resolve.specs.Resolution.{caller_of, edit_call, walked_for, visits_in, unsettled_in, made_by_script, unless_unresolved, made, made_for, instance_in, name_in, with_name, instances_for, names_after, inner_visits, inner_unsettled, IsBuiltByCall, IsBuiltAmong};
ghost use Rattle.cfa_resolve.specs.OfTheCode.{seen_reached};
ghost use Rattle.cfa_resolve.specs.Viewed.{too_big_in};

use crate::making::{bust_instance, handed_instance, made_instance};
use crate::reached::Reached;
use crate::{Instance, ResolveErr};
use cfa_acts::Reason;
use cfa_base::{Name, Names, NoMemory, Parts, Patterns};
use cfa_bodies::{Bodies, Heard, bodies_of, hear};
use cfa_kinds::PromiseType;
use cfa_scripts::{Caller, ScriptErr, Scripted, Unsettled, Walked, walk_bundle};
use cfa_tree::Value;
use cfa_values::value_named;
use cfa_vars::Choice;
use std::alloc::Global;

/// What one combination comes to.
#[derive(Drop)]
pub(crate) enum Made {
    Instance(Instance),
    /// Something keeps it from being made: this name, if it can be told.
    Nothing(Option<Name>),
}

// The value of the attribute that calls the edit bundle of a promise.
fn edit_call<'r>(reached: &Reached<'r>) -> Option<&'r Value>
    ensures { option_map (λ value. plain_value value.now) result
        ≡ edit_call (seen_reached reached.now) }
{
    match reached.promise_type {
        PromiseType::Files => value_named(reached.promise.attributes.as_slice(), "edit_line"),
        _ => None,
    }
}

// What comes of the edit bundle in one combination, if the promise calls one.
fn walk_for<P: Patterns>(
    alloc: Global,
    reached: &Reached<'_>,
    choice: &[(Name, Name)],
    left: u64,
    pats: &mut P,
) -> Result<Option<Walked>, ScriptErr>
    ensures walk { IfOk result (λ w. w ≡ walked_for (seen_reached reached.now) choice.now) }
    ensures within { IfOk result (λ w. visits_in w ≤ left) }
    ensures too_large { IsErrOf result ScriptErr.TooLarge →
        left < visits_in (walked_for (seen_reached reached.now) choice.now) }
    ensures sizes { SizeRefusal (IsBuiltByCall (caller_of (seen_reached reached.now) choice.now)
        (edit_call (seen_reached reached.now)))
        (script_too_big_in result) (P.shown pats.old) (P.shown pats.new) }
{
    match edit_call(reached) {
        None => Ok(None),
        Some(call) => {
            let caller = Caller {
                checked: reached.checked,
                scopes: reached.scopes,
                statuses: reached.statuses,
                choice,
            };
            Ok(Some(walk_bundle(alloc, &caller, call, left, pats)?))
        }
    }
}

// What one combination comes to, where nothing that its bodies say keeps it from being made.
fn make_scripted(
    alloc: Global,
    reached: &Reached<'_>,
    choice: &[(Name, Name)],
    bodies: &Bodies,
    scripted: Option<Scripted>,
) -> Result<Made, NoMemory>
    ensures { IfOk result (λ m. m
        ≡ made_by_script (seen_reached reached.now) choice.now bodies.now scripted) }
{
    match scripted {
        Some(Scripted::Unresolved(name)) => Ok(Made::Nothing(name)),
        Some(Scripted::TooMany) => Ok(Made::Instance(handed_instance(
            alloc,
            reached,
            bodies,
            Reason::TooMany,
        )?)),
        Some(Scripted::TooLong) => Ok(Made::Instance(handed_instance(
            alloc,
            reached,
            bodies,
            Reason::TooLong,
        )?)),
        other => Ok(Made::Instance(made_instance(alloc, reached, bodies, choice, other)?)),
    }
}

// The instance of a list or text of a body that is too long, unless something in the edit bundle is unresolved.
fn make_bust(
    alloc: Global,
    reached: &Reached<'_>,
    scripted: Option<Scripted>,
    reason: Reason,
) -> Result<Made, NoMemory>
    requires { IsOwn reason }
    ensures { IfOk result (λ m. m ≡ unless_unresolved scripted
        (an_instance (bust_instance (seen_reached reached.now) reason))) }
{
    match scripted {
        Some(Scripted::Unresolved(name)) => Ok(Made::Nothing(name)),
        _ => Ok(Made::Instance(bust_instance(alloc, reached, reason)?)),
    }
}

#[tactic(auto, unfolding(crate::specs::Resolution::made))]
fn make(
    alloc: Global,
    reached: &Reached<'_>,
    choice: &[(Name, Name)],
    scripted: Option<Scripted>,
) -> Result<Made, NoMemory>
    ensures { IfOk result (λ m. m ≡ made (seen_reached reached.now) choice.now scripted) }
{
    let bodies = bodies_of(
        alloc,
        reached.checked,
        reached.promise_type,
        reached.promise,
        &reached.scopes,
        choice,
    )?;
    match hear(alloc, &bodies)? {
        Heard::Lacks(name) => Ok(Made::Nothing(name)),
        Heard::TooMany => make_bust(alloc, reached, scripted, Reason::TooMany),
        Heard::TooLong => make_bust(alloc, reached, scripted, Reason::TooLong),
        Heard::All => make_scripted(alloc, reached, choice, &bodies, scripted),
    }
}

// Whether a name is among these.
fn is_listed(names: &[Name], name: &str) -> bool
    ensures { result ≡ is_listed names.now name.now }
{
    for other in names {
        if other.as_str() == name {
            return true;
        }
    }
    false
}

// Adds a name, if there is one that isn't among them.
fn add_name(names: &mut Names, name: Option<Name>) -> Result<(), NoMemory>
    ensures { OnOk result (names.new ≡ with_name names.old name) }
{
    match name {
        None => Ok(()),
        Some(name) => {
            if is_listed(names.as_slice(), name.as_str()) {
                Ok(())
            } else {
                names.push(name)
            }
        }
    }
}

fn add_made(instances: &mut Vec<Instance>, names: &mut Names, made: Made) -> Result<(), NoMemory>
    ensures instances { OnOk result (instances.new.items
        ≡ instances.old.items ++ cons_option (instance_in made) []) }
    ensures names { OnOk result (names.new ≡ with_name names.old (name_in made)) }
{
    match made {
        Made::Instance(instance) => Ok(instances.push(instance)?),
        Made::Nothing(name) => add_name(names, name),
    }
}

/// What was made of combinations so far.
#[derive(Drop)]
pub(crate) struct AllMade {
    pub instances: Vec<Instance>,
    pub names: Names,
    pub unsettled: Parts<Unsettled>,
    /// How many visits the edit bundle counted.
    pub visits: u64,
}

fn count_walk(walk: &Option<Walked>) -> u64
    ensures { result ≡ visits_in walk.now }
{
    match walk {
        Some(walk) => walk.visits,
        None => 0,
    }
}

// Adds one combination to what was made.
fn add_choice(
    alloc: Global,
    reached: &Reached<'_>,
    choice: &[(Name, Name)],
    walk: Option<Walked>,
    all: &mut AllMade,
) -> Result<(), NoMemory>
    requires room { all.old.visits + visits_in walk < 2 ^ 64 }
    requires walk { walk ≡ walked_for (seen_reached reached.now) choice.now }
    ensures instances { OnOk result (all.new.instances.items ≡ all.old.instances.items
        ++ cons_option (instance_in (made_for (seen_reached reached.now) choice.now)) []) }
    ensures names { OnOk result (all.new.names
        ≡ with_name all.old.names (name_in (made_for (seen_reached reached.now) choice.now))) }
    ensures unsettled { OnOk result (all.new.unsettled
        ≡ all.old.unsettled ++ unsettled_in (walked_for (seen_reached reached.now) choice.now)) }
    ensures visits { OnOk result (all.new.visits
        ≡ all.old.visits + visits_in (walked_for (seen_reached reached.now) choice.now)) }
{
    all.visits += count_walk(&walk);
    let scripted = match walk {
        Some(walk) => {
            all.unsettled.append(walk.unsettled)?;
            Some(walk.scripted)
        }
        None => None,
    };
    let made = make(alloc, reached, choice, scripted)?;
    add_made(&mut all.instances, &mut all.names, made)
}

// No instances, with room for the one that most promises have.
fn room_for_one(alloc: Global) -> Result<Vec<Instance>, NoMemory>
    ensures { IfOk result (λ instances. instances.items ≡ []) }
{
    Ok(Vec::with_capacity(alloc, 1)?)
}

/// What is made of all combinations, unless the edit bundle counts more visits than are left.
pub(crate) fn make_all<P: Patterns>(
    alloc: Global,
    reached: &Reached<'_>,
    choices: &[Choice],
    left: u64,
    pats: &mut P,
) -> Result<AllMade, ResolveErr>
    ensures instances { IfOk result
        (λ all. all.instances.items ≡ instances_for (seen_reached reached.now) choices.now) }
    ensures names { IfOk result
        (λ all. all.names ≡ names_after (seen_reached reached.now) [] choices.now) }
    ensures unsettled { IfOk result
        (λ all. all.unsettled ≡ inner_unsettled (seen_reached reached.now) choices.now) }
    ensures visits { IfOk result
        (λ all. all.visits ≡ inner_visits (seen_reached reached.now) choices.now) }
    ensures within { IfOk result (λ all. all.visits ≤ left) }
    ensures too_large { IsErrOf result ResolveErr.TooLarge →
        left < inner_visits (seen_reached reached.now) choices.now }
    ensures sizes { SizeRefusal (IsBuiltAmong (seen_reached reached.now) choices.now)
        (too_big_in result) (P.shown pats.old) (P.shown pats.new) }
{
    let mut all = AllMade {
        instances: room_for_one(alloc)?,
        names: Names::new(alloc),
        unsettled: Parts::from_vec(Vec::new(alloc)),
        visits: 0,
    };
    for choice in choices {
        let walk = walk_for(alloc, reached, choice.as_slice(), left - all.visits, pats)?;
        add_choice(alloc, reached, choice.as_slice(), walk, &mut all)?;
    }
    Ok(all)
}
