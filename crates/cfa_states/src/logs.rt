// What is kept of a walk while it is made.
ghost use Rattle.std.specs.Prelude.{◌≡◌, ◌∷◌, [], ◌++◌, IfOk, List, OnOk, OnErr, length, map, option_copied, unwrap_or};
ghost use Rattle.cfa_base.specs.Index.{pair_place_of};
ghost use Rattle.cfa_resolve.specs.declared.instances.Instance.{Instance as AnyInstance};
ghost use Rattle.cfa_states.specs.Logs.{IsOf, first_place, name_at, visit_at, with_visit, with_blames, walk_of};
ghost use Rattle.cfa_states.specs.Names.{name_of, names_of};
ghost use Rattle.cfa_states.specs.Walks.{blame_for, blame_by, place_among, with_first};

use crate::register::{Register, short};
use crate::waits::Wait;
use crate::walks::{Blame, Visit, Walk};
use cfa_base::{Name, NoMemory, PairIndex, Parts, PromiseId};
use cfa_resolve::{Instance, copy_id};
use cfa_statuses::Status;
use std::alloc::Global;
use std::marker::Model;

/// A visit, with the path and the key text of its instance, as contracts see it.
#[derive(Drop)]
pub struct Listing {
    pub path: Name,
    pub text: Name,
    pub status: Status,
    pub blame: Option<Blame>,
}

// The instance of a visit: its place, or its path and key text where no place is known of it.
#[derive(Drop)]
pub(crate) enum RowOf {
    Placed(u32),
    Named(Name, Name),
}

// A visit as it is kept. It has no key text of its own where its instance is listed: a key text holds the whole content of a file. In a
// run each visit but the first of an instance comes where those before it may come or not, and so has the place that was noted.
#[derive(Drop)]
pub(crate) struct Row {
    pub of: RowOf,
    pub status: Status,
    pub blame: Option<Blame>,
}

/// The instances that were visited, each once, the visits, and what is unsettled, so far. Contracts see three lists.
#[derive(Drop)]
pub struct Log {
    instances: Register,
    rows: Vec<Row>,
    unsettled: Vec<Blame>,
}

impl Model for Log {
    ghost use Rattle.std.specs.Prelude.{All, map};
    ghost use Rattle.cfa_states.specs.Logs.{IsPlaced, listing_at, Rows};

    ghost Value = { Rows };

    ghost view = { λ l.
        (l.instances, map (listing_at l.instances) l.rows.items, l.unsettled.items) };

    ghost invariant = { λ l. All (IsPlaced l.instances) l.rows.items };
}

/// A wait of a promise.
pub(crate) fn blame_for(alloc: Global, promise: &PromiseId, wait: &Wait) -> Result<Blame, NoMemory>
    ensures { IfOk result (λ blame. blame ≡ blame_for promise.now wait.now) }
{
    Ok(Blame {
        source: copy_id(alloc, &wait.source)?,
        promise: copy_id(alloc, promise)?,
        class: wait.class.copy(alloc)?,
    })
}

// What a visit is blamed on.
fn blame_by(
    alloc: Global,
    status: Status,
    is_first: bool,
    promise: &PromiseId,
    waits: Option<&Wait>,
) -> Result<Option<Blame>, NoMemory>
    ensures { IfOk result (λ blame. blame
        ≡ blame_by status is_first promise.now (option_copied waits.entry)) }
{
    match (status, is_first, waits) {
        (Status::Maybe, true, Some(wait)) => Ok(Some(blame_for(alloc, promise, wait)?)),
        (Status::Maybe, true, None) => Ok(None),
        (Status::Maybe, false, _) => Ok(None),
        (Status::No, _, _) => Ok(None),
        (Status::Yes, _, _) => Ok(None),
    }
}

fn row_of(alloc: Global, instances: &Register, instance: &Instance) -> Result<RowOf, NoMemory>
    ensures { IfOk result (λ of. IsOf instances.now of instance.now) }
{
    let (path, text) = (&instance.path, &instance.text);
    match instances.find(path, text) {
        Some(place) => Ok(RowOf::Placed(place)),
        None => Ok(RowOf::Named(path.copy(alloc)?, text.copy(alloc)?)),
    }
}

// Adds an instance that is visited for the first time, and answers what a visit of it is kept by.
fn note_visit(
    alloc: Global,
    instances: &mut Register,
    instance: &Instance,
    status: Status,
    is_first: bool,
) -> Result<RowOf, NoMemory>
    ensures ok { OnOk result (instances.new ≡ with_first is_first instance.now instances.old) }
    ensures of { IfOk result (λ of. IsOf instances.new of instance.now) }
    ensures err { OnErr result (instances.new ≡ instances.old) }
{
    if is_first {
        return Ok(RowOf::Placed(instances.add(alloc, instance, status)?));
    }
    row_of(alloc, instances, instance)
}

impl Log {
    /// The log in which nothing is listed.
    pub(crate) fn new(alloc: Global) -> Log
        ensures { result ≡ ([], [], []) }
    {
        Log {
            instances: Register::new(alloc),
            rows: Vec::new(alloc),
            unsettled: Vec::new(alloc),
        }
    }

    /// Lists a visit.
    pub(crate) fn list(
        &mut self,
        alloc: Global,
        instance: &Instance,
        status: Status,
        is_first: bool,
        waits: Option<&Wait>,
    ) -> Result<(), NoMemory>
        ensures { OnOk result (self.new ≡ with_visit instance.now status is_first
            (option_copied waits.entry) self.old) }
    {
        let blame = blame_by(alloc, status, is_first, &instance.source, waits)?;
        let of = note_visit(alloc, &mut self.instances, instance, status, is_first)?;
        self.rows.push(Row { of, status, blame })?;
        Ok(())
    }

    /// Adds what is unsettled.
    pub(crate) fn blame(&mut self, blame: Blame) -> Result<(), NoMemory>
        ensures { OnOk result (self.new ≡ with_blames (blame ∷ []) self.old) }
    {
        self.unsettled.push(blame)?;
        Ok(())
    }
}

// ---- the walk

/// The paths and key texts of instances.
pub fn names_of<'a>(alloc: Global, instances: &'a [Instance]) -> Result<PairIndex<'a>, NoMemory>
    ensures { IfOk result (λ names. names ≡ names_of instances.entry.now) }
{
    let mut names = PairIndex::new(alloc);
    for instance in instances {
        names.add(instance.path.as_str(), instance.text.as_str())?;
    }
    Ok(names)
}

// The first place of a path and a key text, or 0.
fn first_of(names: &PairIndex<'_>, path: &str, text: &str) -> usize
    ensures { (instances : List AnyInstance) → names.now ≡ names_of instances
        → result ≡ place_among instances path.now text.now }
{
    names.find(path, text).unwrap_or(0)
}

// Adds the names of the instance at a place, which is their first one where they are new, and answers their first place.
fn add_names<'a>(
    names: &mut PairIndex<'a>,
    instance: &'a Instance,
    place: usize,
) -> Result<usize, NoMemory>
    requires { length names.old ≡ place }
    ensures names { OnOk result (names.new ≡ names.old ++ name_of instance.now ∷ []) }
    ensures first { IfOk result (λ first. first ≡ unwrap_or (pair_place_of
        (names.old ++ name_of instance.now ∷ []) (name_of instance.now)) 0) }
{
    let (path, text) = (instance.path.as_str(), instance.text.as_str());
    if names.add(path, text)? {
        return Ok(place);
    }
    Ok(names.find(path, text).unwrap_or(0))
}

// Instances with their first places, by their names, and by their places, so that a visit that has a place hashes no key text.
#[derive(Drop)]
struct Located<'a> {
    instances: &'a [Instance],
    names: PairIndex<'a>,
    firsts: Vec<usize>,
    ghost named: { names ≡ names_of instances.now },
    ghost placed: { firsts.items ≡ map (first_place instances.now) instances.now },
}

fn locate<'a>(alloc: Global, instances: &'a [Instance]) -> Result<Located<'a>, NoMemory>
    ensures { IfOk result (λ located. located.instances.now ≡ instances.entry.now) }
{
    let mut names = PairIndex::new(alloc);
    let mut firsts = Vec::new(alloc);
    for (place, instance) in instances.iter().enumerate() {
        firsts.push(add_names(&mut names, instance, place)?)?;
    }
    Ok(Located {
        instances,
        names,
        firsts,
    })
}

// The first place of the names of a visit, or 0.
fn place_of(located: &Located<'_>, of: &RowOf) -> usize
    ensures { result ≡ place_among located.now.instances.now
        (name_at located.now.instances.now of.now).0
        (name_at located.now.instances.now of.now).1 }
{
    match of {
        RowOf::Placed(place) => match located.firsts.get(*place as usize) {
            Some(first) => *first,
            None => first_of(&located.names, "", ""),
        },
        RowOf::Named(path, text) => first_of(&located.names, path.as_str(), text.as_str()),
    }
}

fn visit_at(located: &Located<'_>, row: Row) -> Result<Visit, NoMemory>
    ensures { IfOk result (λ visit. visit ≡ visit_at located.now.instances.now row) }
{
    let instance = short(place_of(located, &row.of))?;
    Ok(Visit {
        instance,
        status: row.status,
        blame: row.blame,
    })
}

fn visits_at(
    alloc: Global,
    instances: &[Instance],
    rows: Vec<Row>,
) -> Result<Parts<Visit>, NoMemory>
    ensures { IfOk result (λ visits. visits ≡ map (visit_at instances.now) rows.items) }
{
    let located = locate(alloc, instances)?;
    let mut visits = Vec::new(alloc);
    for row in rows {
        visits.push(visit_at(&located, row)?)?;
    }
    Ok(Parts::from_vec(visits))
}

/// The walk of a log: each visit has the place of its instance.
pub fn walk_of(alloc: Global, log: Log) -> Result<Walk, NoMemory>
    ensures { IfOk result (λ walk. walk ≡ walk_of log) }
{
    let rows = log.rows;
    let instances = log.instances;
    let unsettled = log.unsettled;
    let visits = visits_at(alloc, instances.as_slice(), rows)?;
    Ok(Walk {
        instances: Parts::from_vec(instances.into_vec()),
        visits,
        unsettled: Parts::from_vec(unsettled),
    })
}
