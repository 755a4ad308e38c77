// The walks of a policy: a run in which nothing is done, and what it lists.
ghost use Rattle.std.specs.Prelude.{◌≡◌, IfOk, IfErr};
ghost use Rattle.cfa_states.specs.History.{History};
ghost use Rattle.cfa_states.specs.Kept.{KeepsLog};
ghost use Rattle.cfa_states.specs.Views.{Setting};
ghost use Rattle.cfa_states.specs.Walks.{walked};
ghost use Rattle.cfa_walk.specs.declared.listing.WalkErr.TheVariants as errors;
ghost use Rattle.cfa_walk.specs.Ended.{refusal_of};
ghost use Rattle.cfa_walk.specs.Listed.{HasWalked, IsRefused, WalkPatterns};
ghost use Rattle.cfa_walk.specs.Settings.{setting_of};
ghost use Rattle.cfa_walk.specs.Tellings.{ending_of};

use crate::walking::make_run;
use crate::{Context, Teller};
use cfa_base::{Name, NoMemory, Patterns};
use cfa_machine::Machine;
use cfa_outcomes::Outcome;
use cfa_output::Stop;
use cfa_resolve::{Instance, Work};
use cfa_schema::Checked;
use cfa_states::{Ending, State, Walk, walk_of};
use cfa_statuses::Status;
use std::alloc::Global;
use thiserror::Error;

/// How the instances of a walk end. A report is kept.
#[derive(Clone, Copy, Debug, PartialEq, Eq)]
pub enum Telling {
    /// Each is kept.
    AllKept,
    /// Each may be kept or repaired.
    Open,
}

/// Why a policy was not walked.
#[derive(Debug, Drop, Error)]
pub enum WalkErr {
    /// More visits are needed than a walk may make.
    #[error("too many visits")]
    TooLarge,
    /// The pattern of this text was refused for its size.
    #[error("a pattern is too big")]
    PatternTooBig(Name),
    /// No memory was left.
    #[error("out of memory")]
    NoMemory,
}

impl From<NoMemory> for WalkErr {
    ghost use Rattle.cfa_walk.specs.declared.listing.WalkErr.TheVariants as errors;

    ghost from_gives = { λ _ e. e ≡ errors.NoMemory };

    fn from(_: NoMemory) -> Self {
        WalkErr::NoMemory
    }
}

// How an instance ends, or may end.
fn ending_of(telling: Telling, work: &Work) -> Ending
    ensures { result ≡ ending_of telling work.now }
{
    match (work, telling) {
        (Work::Report(_), _) => Ending::One(Outcome::Kept),
        (_, Telling::AllKept) => Ending::One(Outcome::Kept),
        (_, Telling::Open) => Ending::KeptOrRepaired,
    }
}

impl Teller<(), ()> for Telling {
    ghost use Rattle.std.specs.Prelude.{◌≡◌, ⊤};
    ghost use Rattle.cfa_walk.specs.declared.listing.Telling.{Telling as AnyTelling};
    ghost use Rattle.cfa_walk.specs.Tellings.{told_by};

    ghost given = { AnyTelling };

    ghost teller = { told_by };

    ghost agrees = { λ w telling. w.0 ≡ telling };

    ghost behind = { λ w telling h. ⊤ };

    ghost faults = { λ w. (0, 0) };

    ghost counts = { λ v w. ⊤ };

    ghost counts_none = { λ w. tt };

    ghost counts_then = { λ v w x first second. tt };

    ghost steady = { λ w telling event h quiet b. b };

    fn visit(
        &mut self,
        _alloc: Global,
        _instance: &Instance,
        _status: Status,
        _site: &mut (),
        _out: &mut (),
    ) -> Result<bool, Stop> {
        Ok(false)
    }

    fn tell(
        &mut self,
        _alloc: Global,
        instance: &Instance,
        _called: Outcome,
        _site: &mut (),
        _out: &mut (),
    ) -> Result<Ending, Stop> {
        Ok(ending_of(*self, &instance.work))
    }
}

// Why a policy was not walked whose run was stopped.
fn refusal_of(stop: Stop) -> WalkErr
    ensures { result ≡ refusal_of stop }
{
    match stop {
        Stop::Visits => WalkErr::TooLarge,
        Stop::Pattern(text) => WalkErr::PatternTooBig(text),
        Stop::Memory => WalkErr::NoMemory,
        // No object of the outside was handed in.
        Stop::Outside(_) => WalkErr::NoMemory,
    }
}

// The walk that a state has logged.
fn take_walk(alloc: Global, state: &mut State) -> Result<Walk, WalkErr>
    ensures walked { IfOk result (λ walk. (s : Setting) (h : History)
        → KeepsLog s state.old.log h → walk ≡ walked s h) }
    ensures refused { IfErr result (λ refusal. refusal ≡ errors.NoMemory) }
{
    match state.log.take() {
        Some(log) => Ok(walk_of(alloc, log)?),
        None => Err(WalkErr::NoMemory),
    }
}

/// Walks a policy in a context: goes the way of a run without locks in which each instance ends as is told, touches nothing,
/// and lists what was visited.
///
/// `TooLarge` comes exactly where more visits are needed than `MOST_VISITS`.
pub fn walk<P: Patterns>(
    alloc: Global,
    checked: &Checked,
    context: &Context,
    telling: Telling,
    pats: &mut P,
) -> Result<Walk, WalkErr>
    ensures walked { IfOk result (HasWalked (setting_of checked.now context.now) telling) }
    ensures refused { IfErr result (IsRefused (setting_of checked.now context.now) telling) }
    ensures patterns { WalkPatterns result (P.shown pats.old) (P.shown pats.new) }
{
    let mut machine = Machine::new(alloc, checked, &context.classes, true)?;
    let mut teller = telling;
    match make_run(alloc, &mut machine, &mut teller, &mut (), &mut (), pats) {
        Ok(()) => {
            let walked = take_walk(alloc, &mut machine.state);
            drop(machine);
            walked
        }
        Err(stop) => {
            drop(machine);
            Err(refusal_of(stop))
        }
    }
}
