// The actuation of an instance on a site.
ghost use Rattle.std.specs.Prelude.{◌≡◌, ◌+◌, ◌≤◌, All, IfOk, IfErr, IfSome, IsTrue, length};
ghost use Rattle.cfa_outside.specs.Sites.{fits};
ghost use Rattle.cfa_acts.specs.Acts.{IsAct};
ghost use Rattle.cfa_journal.specs.Records.{IsId, IsRecord};
ghost use Rattle.cfa_agent.specs.Actuations.{file_record};
ghost use Rattle.cfa_agent.specs.Digesting.{OfWorld, recorded};
ghost use Rattle.cfa_agent.specs.Actuating.{IsRecorded, opening, opening_at, ChangeTried, ChangeMade, IsRefusedLook, ActTaken, ActsDone, acted, Actuates};

use crate::digesting::{DigestErr, find_record};
use crate::recording::{Heading, begin, close};
use cfa_acts::{Act, Decision, Reason, decide};
use cfa_base::{LAST_MOMENT, NoMemory};
use cfa_journal::Record;
use cfa_output::Stop;
use cfa_outside::{Call, Change, OutsideErr, Site};
use cfa_resolve::Instance;
use std::alloc::Global;

/// What an actuation came to.
#[derive(Clone, Copy, Debug)]
pub struct Actuation {
    /// How many changes it made.
    pub changes: u32,
    /// Why it failed, if an act failed.
    pub failure: Option<Reason>,
    /// The call on the site that was refused in one of its acts, if one was.
    pub refused: Option<Call>,
}

/// What came of an act.
#[derive(Clone, Copy, Debug)]
pub enum Step {
    /// Nothing was to be changed.
    Kept,
    /// Its change was made.
    Changed,
    /// It can't be brought about.
    Failed(Reason),
    /// This call on the site was refused.
    Refused(Call),
}

// Makes a needed change.
fn change_site<S: Site>(alloc: Global, change: &Change, site: &mut S) -> Result<Step, NoMemory>
    requires { IfSome (S.shown site.old).told (λ t. IsTrue (fits change.now t.world)) }
    ensures { ChangeTried change.now (S.shown site.old) (S.shown site.new) result }
{
    match site.change(alloc, change) {
        Ok(()) => Ok(Step::Changed),
        Err(OutsideErr::Failed) => Ok(Step::Refused(Call::Change)),
        Err(OutsideErr::NoMemory) => Err(NoMemory),
    }
}

// Makes a needed change, behind the records that stand before it.
fn change_recorded<S: Site>(
    alloc: Global,
    heading: Heading,
    instance: &Instance,
    changes: u32,
    file: Option<Record>,
    change: &Change,
    site: &mut S,
) -> Result<Step, Stop>
    requires recorded { IsRecorded heading instance.now }
    requires file { IfSome file IsRecord }
    requires told { OfWorld (λ world. recorded file
        ≡ file_record heading.number change.now world) (S.shown site.old) }
    requires fits { IfSome (S.shown site.old).told (λ t. IsTrue (fits change.now t.world)) }
    ensures { ChangeMade heading.number change.now (opening_at changes heading instance.now)
        (S.shown site.old) (S.shown site.new) result }
{
    begin(alloc, changes, heading, instance, file, site)?;
    Ok(change_site(alloc, change, site)?)
}

// Makes a needed change. What stands there is looked at before any record of it.
fn make_change<S: Site>(
    alloc: Global,
    heading: Heading,
    instance: &Instance,
    changes: u32,
    change: &Change,
    site: &mut S,
) -> Result<Step, Stop>
    requires recorded { IsRecorded heading instance.now }
    requires fits { IfSome (S.shown site.old).told (λ t. IsTrue (fits change.now t.world)) }
    ensures { ChangeMade heading.number change.now (opening_at changes heading instance.now)
        (S.shown site.old) (S.shown site.new) result }
{
    match find_record(alloc, heading.number, change, site) {
        Ok(file) => change_recorded(alloc, heading, instance, changes, file, change, site),
        Err(DigestErr::Failed(call)) => Ok(Step::Refused(call)),
        Err(DigestErr::NoMemory) => Err(Stop::Memory),
    }
}

// A failed look. No look is a change.
fn refused_look(call: Call) -> Result<Step, NoMemory>
    ensures { IfOk result (IsRefusedLook call) }
{
    match call {
        Call::Change => Err(NoMemory),
        call => Ok(Step::Refused(call)),
    }
}

// Decides what an act needs, and does it.
fn take_act<S: Site>(
    alloc: Global,
    heading: Heading,
    instance: &Instance,
    changes: u32,
    act: &Act,
    site: &mut S,
) -> Result<Step, Stop>
    requires act { IsAct act.now }
    requires recorded { IsRecorded heading instance.now }
    ensures { ActTaken heading.number act.now (opening_at changes heading instance.now)
        (S.shown site.old) (S.shown site.new) result }
{
    match decide(alloc, act, site)? {
        Decision::Kept => Ok(Step::Kept),
        Decision::Fail(reason) => Ok(Step::Failed(reason)),
        Decision::Fault(call) => Ok(refused_look(call)?),
        Decision::Needs(change) => make_change(alloc, heading, instance, changes, &change, site),
    }
}

// One change more. So many changes that they can't be counted don't fit in any memory.
fn one_more(changes: u32) -> Result<u32, NoMemory>
    ensures { IfOk result (λ more. more ≡ changes + 1) }
{
    changes.checked_add(1).ok_or(NoMemory)
}

// Does what the acts of an instance need, up to the first that fails, without the record that closes it.
fn run_acts<S: Site>(
    alloc: Global,
    heading: Heading,
    instance: &Instance,
    acts: &[Act],
    site: &mut S,
) -> Result<Actuation, Stop>
    requires acts { All IsAct acts.now }
    requires recorded { IsRecorded heading instance.now }
    ensures { ActsDone heading.number acts.now (acted heading.number (opening heading instance.now))
        (S.shown site.old) (S.shown site.new) result }
{
    let mut changes = 0;
    for act in acts {
        match take_act(alloc, heading, instance, changes, act, site)? {
            Step::Kept => {}
            Step::Changed => changes = one_more(changes)?,
            Step::Failed(reason) => {
                return Ok(Actuation {
                    changes,
                    failure: Some(reason),
                    refused: None,
                });
            }
            Step::Refused(call) => {
                return Ok(Actuation {
                    changes,
                    failure: Some(Reason::Fault),
                    refused: Some(call),
                });
            }
        }
    }
    Ok(Actuation {
        changes,
        failure: None,
        refused: None,
    })
}

/// Does what the acts of an instance need, one after the other up to the first that fails, with the records of the
/// journal. A failed call of an act makes the instance fail; a failed record stops the actuation, and so may want of
/// memory, at any place.
pub fn actuate<S: Site>(
    alloc: Global,
    moment: u64,
    number: u32,
    instance: &Instance,
    acts: &[Act],
    has_record: bool,
    site: &mut S,
) -> Result<Actuation, Stop>
    requires acts { All IsAct acts.now }
    requires moment { moment ≤ LAST_MOMENT }
    requires number { 1 ≤ number }
    requires source { IsId instance.now.source }
    ensures done { Actuates moment number instance.now acts.now has_record
        (S.shown site.old) (S.shown site.new) result }
    ensures later { (S.shown site.old).faults ≤ (S.shown site.new).faults }
{
    let heading = Heading {
        moment,
        number,
        has_record,
    };
    let ended = run_acts(alloc, heading, instance, acts, site)?;
    close(alloc, heading, instance, ended, site)?;
    Ok(ended)
}
