// The records of an actuation.
ghost use Rattle.std.specs.Prelude.{◌≡◌, ◌<◌, ◌≤◌, ◌++◌, ℕ, [], ◌∷◌, IfOk, IfSome, IsTrue};
ghost use Rattle.cfa_outside.specs.declared.worlds.World.{World};
ghost use Rattle.cfa_outside.specs.declared.sites.Entry.TheVariants.{Did};
ghost use Rattle.cfa_outside.specs.Sites.{fits};
ghost use Rattle.cfa_journal.specs.declared.records.Record.TheVariants as Record;
ghost use Rattle.cfa_journal.specs.Records.{IsRecord, IsReason, IsMoment, IsCount};
ghost use Rattle.cfa_locks.specs.Locks.{key_of};
ghost use Rattle.cfa_agent.specs.Actuations.{number_of, appended};
ghost use Rattle.cfa_agent.specs.Digesting.{recorded};
ghost use Rattle.cfa_agent.specs.Actuating.{Writes, IsRecorded, run_before, opening, opening_at, failing, is_begun, closing_repaired, closing_failed, closing};

use crate::actuating::Actuation;
use cfa_acts::Reason;
use cfa_base::NoMemory;
use cfa_journal::{Record, write};
use cfa_locks::key;
use cfa_output::{Object, Stop};
use cfa_outside::{Call, Change, OutsideErr, Site};
use cfa_resolve::{Instance, copy_id};
use std::alloc::Global;

/// What the records of an instance tell of it besides its promise.
#[derive(Clone, Copy, Debug)]
pub struct Heading {
    /// The moment of the run, in seconds since 1970.
    pub moment: u64,
    /// The number of the instance in the run, from 1.
    pub number: u32,
    /// Whether the run has a record already.
    pub has_record: bool,
}

/// The number of a reason, from 1 to 13.
pub fn number_of(reason: Reason) -> u8
    ensures exact { result ≡ number_of reason }
    ensures range { IsReason result }
{
    match reason {
        Reason::BadPath => 1,
        Reason::Missing => 2,
        Reason::Obstructed => 3,
        Reason::NotText => 4,
        Reason::NonConvergent => 5,
        Reason::NoAnchor => 6,
        Reason::FieldCount => 7,
        Reason::UnknownService => 8,
        Reason::BadPattern => 9,
        Reason::BadValue => 10,
        Reason::Fault => 11,
        Reason::TooLong => 12,
        Reason::TooMany => 13,
    }
}

// The change that appends the line of a record.
fn append_of(alloc: Global, item: &Record) -> Result<Change, NoMemory>
    requires { IsRecord item.now }
    ensures { IfOk result (λ change. Did change ≡ appended item.now) }
{
    Ok(Change::Append(write(alloc, item)?))
}

fn open_of(alloc: Global, heading: Heading, instance: &Instance) -> Result<Change, NoMemory>
    requires { IsRecorded heading instance.now }
    ensures { IfOk result (λ change. Did change ≡ appended
        (Record.Open heading.number instance.now.source (key_of instance.now.text))) }
{
    let id = copy_id(alloc, &instance.source)?;
    let key = key(alloc, &instance.text)?;
    append_of(alloc, &Record::Open(heading.number, id, key))
}

fn fail_of(
    alloc: Global,
    heading: Heading,
    instance: &Instance,
    reason: Reason,
) -> Result<Change, NoMemory>
    requires { IsRecorded heading instance.now }
    ensures { IfOk result (λ change. Did change ≡ appended
        (Record.Fail heading.number instance.now.source (key_of instance.now.text)
        (number_of reason))) }
{
    let id = copy_id(alloc, &instance.source)?;
    let key = key(alloc, &instance.text)?;
    append_of(
        alloc,
        &Record::Fail(heading.number, id, key, number_of(reason)),
    )
}

/// Makes a change that no act asks for, and that fits every world: a record or a lock.
pub fn put<S: Site>(alloc: Global, change: Change, site: &mut S) -> Result<(), Stop>
    requires { (world : World) → IsTrue (fits change world) }
    ensures { Writes (Did change ∷ []) (S.shown site.old) (S.shown site.new) result }
{
    match site.change(alloc, &change) {
        Ok(()) => Ok(()),
        Err(OutsideErr::Failed) => Err(Stop::Outside(Object::Site)),
        Err(OutsideErr::NoMemory) => Err(Stop::Memory),
    }
}

fn put_record<S: Site>(alloc: Global, item: &Record, site: &mut S) -> Result<(), Stop>
    requires { IsRecord item.now }
    ensures { Writes (appended item.now ∷ []) (S.shown site.old) (S.shown site.new) result }
{
    let change = append_of(alloc, item)?;
    put(alloc, change, site)
}

// Writes that the run begins, unless it has a record already.
fn put_run<S: Site>(alloc: Global, heading: Heading, site: &mut S) -> Result<(), Stop>
    requires { IsMoment heading.moment }
    ensures { Writes (run_before heading) (S.shown site.old) (S.shown site.new) result }
{
    if heading.has_record {
        return Ok(());
    }
    put_record(alloc, &Record::Run2(heading.moment), site)
}

// Writes that the first change of an instance comes next.
fn open<S: Site>(
    alloc: Global,
    heading: Heading,
    instance: &Instance,
    site: &mut S,
) -> Result<(), Stop>
    requires { IsRecorded heading instance.now }
    ensures { Writes (opening heading instance.now)
        (S.shown site.old) (S.shown site.new) result }
{
    put_run(alloc, heading, site)?;
    let record = open_of(alloc, heading, instance)?;
    put(alloc, record, site)
}

// Writes that the first change of an instance comes next, where none was made so far.
fn open_at<S: Site>(
    alloc: Global,
    changes: u32,
    heading: Heading,
    instance: &Instance,
    site: &mut S,
) -> Result<(), Stop>
    requires { IsRecorded heading instance.now }
    ensures { Writes (opening_at changes heading instance.now)
        (S.shown site.old) (S.shown site.new) result }
{
    if changes > 0 {
        return Ok(());
    }
    open(alloc, heading, instance, site)
}

// Writes a record, if there is one.
fn put_any<S: Site>(alloc: Global, item: Option<Record>, site: &mut S) -> Result<(), Stop>
    requires { IfSome item IsRecord }
    ensures { Writes (recorded item) (S.shown site.old) (S.shown site.new) result }
{
    match item {
        Some(item) => put_record(alloc, &item, site),
        None => Ok(()),
    }
}

/// Writes what stands before a change of an instance that has made so many: that its first one comes next, and the record
/// of the file, if it puts one.
pub fn begin<S: Site>(
    alloc: Global,
    changes: u32,
    heading: Heading,
    instance: &Instance,
    file: Option<Record>,
    site: &mut S,
) -> Result<(), Stop>
    requires recorded { IsRecorded heading instance.now }
    requires file { IfSome file IsRecord }
    ensures { Writes (opening_at changes heading instance.now ++ recorded file)
        (S.shown site.old) (S.shown site.new) result }
{
    open_at(alloc, changes, heading, instance, site)?;
    put_any(alloc, file, site)
}

// Writes that an instance failed without a change.
fn put_fail<S: Site>(
    alloc: Global,
    heading: Heading,
    instance: &Instance,
    reason: Reason,
    site: &mut S,
) -> Result<(), Stop>
    requires { IsRecorded heading instance.now }
    ensures { Writes (failing heading instance.now reason)
        (S.shown site.old) (S.shown site.new) result }
{
    put_run(alloc, heading, site)?;
    let record = fail_of(alloc, heading, instance, reason)?;
    put(alloc, record, site)
}

// Whether a change was made, or one was begun and refused.
fn is_begun(changes: u32, refused: Option<Call>) -> bool
    ensures { result ≡ is_begun changes refused }
{
    match refused {
        Some(Call::Change) => true,
        Some(_) | None => changes > 0,
    }
}

// Writes how an instance ended in which no act failed.
fn close_repaired<S: Site>(
    alloc: Global,
    heading: Heading,
    changes: u32,
    site: &mut S,
) -> Result<(), Stop>
    requires { IsCount heading.number }
    ensures { Writes (closing_repaired heading changes)
        (S.shown site.old) (S.shown site.new) result }
{
    if changes == 0 {
        return Ok(());
    }
    put_record(alloc, &Record::Repaired(heading.number, changes), site)
}

// Writes how an instance ended in which an act failed.
fn close_failed<S: Site>(
    alloc: Global,
    heading: Heading,
    instance: &Instance,
    begun: bool,
    reason: Reason,
    site: &mut S,
) -> Result<(), Stop>
    requires { IsRecorded heading instance.now }
    ensures { Writes (closing_failed heading instance.now begun reason)
        (S.shown site.old) (S.shown site.new) result }
{
    if !begun {
        return put_fail(alloc, heading, instance, reason, site);
    }
    let record = Record::Failed(heading.number, number_of(reason));
    put_record(alloc, &record, site)
}

/// Writes how an instance ended, where a change was begun or an act failed.
pub fn close<S: Site>(
    alloc: Global,
    heading: Heading,
    instance: &Instance,
    ended: Actuation,
    site: &mut S,
) -> Result<(), Stop>
    requires { IsRecorded heading instance.now }
    ensures { Writes (closing heading instance.now ended)
        (S.shown site.old) (S.shown site.new) result }
{
    match ended.failure {
        None => close_repaired(alloc, heading, ended.changes, site),
        Some(reason) => {
            let begun = is_begun(ended.changes, ended.refused);
            close_failed(alloc, heading, instance, begun, reason, site)
        }
    }
}
