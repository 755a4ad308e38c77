// What a walk of a policy came to: the instances that it lists, its visits, and its unsettled promises.
use cfa_base::{Name, Parts, PromiseId};
use cfa_resolve::Instance;
use cfa_statuses::Status;

/// Why something may come or not: a class may be set or not, as this promise may be repaired or not.
#[derive(Drop)]
pub struct Blame {
    /// The promise that first raised the class by its outcome.
    pub source: PromiseId,
    /// The promise whose guard waits for the class, or an instance of which comes or not.
    pub promise: PromiseId,
    /// The first class that may be set or not of that guard, or of the guard of the call that it waits for.
    pub class: Name,
}

/// A visit that a walk lists.
#[derive(Drop)]
pub struct Visit {
    /// The place of its instance among those of the walk, from 0.
    pub instance: u32,
    /// Whether the visit comes in every run, or in some.
    pub status: Status,
    /// What it waits for. Given where it may come or not and is the first of its instance.
    pub blame: Option<Blame>,
}

/// What a walk of a policy lists.
#[derive(Drop)]
pub struct Walk {
    /// The instances, in the order of their first visits.
    pub instances: Parts<Instance>,
    /// The visits, in their order.
    pub visits: Parts<Visit>,
    /// The promises that set a variable or edit lines and whose guards may hold or not, in the order in which they are reached.
    pub unsettled: Parts<Blame>,
}
