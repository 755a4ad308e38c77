// A bundle that is being gone through, with a place in it.
ghost use Rattle.std.specs.Prelude.{◌≡◌, IfOk, slice_get};
ghost use Rattle.cfa_machine.specs.Machines.{fresh_held, row_in, row_of};
ghost use Rattle.cfa_states.specs.Numbered.{agent_types};

use cfa_kinds::PromiseType;
use cfa_outcomes::Outcome;
use cfa_resolve::Instance;
use cfa_states::{Activation, Found, Known, Numbered};
use cfa_statuses::Status;
use cfa_visits::{Remembered, instances_of};

/// How far the visit in hand is, with the place of its instance in the row in hand and its status.
#[derive(Clone, Copy)]
pub enum Doing {
    /// There is none.
    Idle,
    /// It is to be said whether the instance is skipped.
    Asked(usize, Status),
    /// It is to be said how the instance ended: of a call, with the worst outcome in its bundle.
    Running(usize, Status, Outcome),
}

/// The instances in hand: the row of the promise that was reached last, and the next of them.
#[derive(Clone, Copy)]
pub struct Hand {
    pub row: usize,
    pub next: usize,
}

/// An activation that is gone through, how deep calls may go in it, its promises with what was found out of each, the
/// passes behind this one, the type in hand by its number, the next promise, the guard of the one before it, and what is
/// in hand: the status of a guard, its instances, and the visit of one.
#[derive(Drop)]
pub struct Frame<'a> {
    pub depth: usize,
    pub activation: Activation,
    pub promises: Vec<Numbered<'a>>,
    pub rows: Vec<Option<Found>>,
    pub passes: usize,
    pub kind: usize,
    pub place: usize,
    pub before: Option<Known>,
    pub guard: Status,
    pub hand: Option<Hand>,
    pub doing: Doing,
}

// The types whose promises a pass reaches, one after the other.
fn types_in_pass() -> [PromiseType; 6]
    ensures { result ≡ agent_types }
{
    [
        PromiseType::Vars,
        PromiseType::Classes,
        PromiseType::Files,
        PromiseType::Methods,
        PromiseType::Services,
        PromiseType::Reports,
    ]
}

/// The type of this number, of those that a pass goes through.
pub(crate) fn type_at(kind: usize) -> Option<PromiseType>
    ensures { result ≡ slice_get agent_types kind }
{
    types_in_pass().get(kind).copied()
}

/// The instances of a promise that were found out, if any were.
pub(crate) fn row_of(rows: &[Option<Found>], row: usize) -> &[Instance]
    ensures { result.now ≡ row_of rows.now row }
{
    match rows.get(row) {
        None => &[],
        Some(found) => instances_of(found),
    }
}

/// The instances in hand, those that were visited among them.
pub(crate) fn row_in(rows: &[Option<Found>], hand: Option<Hand>) -> &[Instance]
    ensures { result.now ≡ row_in rows.now hand }
{
    match hand {
        None => &[],
        Some(hand) => row_of(rows, hand.row),
    }
}

/// The frame of an activation that begins.
pub(crate) fn fresh_frame(depth: usize, activation: Activation, made: Remembered<'_>) -> Frame<'_>
    ensures { result ≡ fresh_held depth activation made.entry }
{
    let place = made.promises.len();
    Frame {
        depth,
        activation,
        promises: made.promises,
        rows: made.rows,
        passes: 3,
        kind: 6,
        place,
        before: None,
        guard: Status::Yes,
        hand: None,
        doing: Doing::Idle,
    }
}
