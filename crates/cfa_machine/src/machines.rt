// A run that stands between two of its moves.
ghost use Rattle.std.specs.Prelude.{◌≡◌, [], ◌++◌, IfErr, IfOk, None, Ok, OnOk, Option};
ghost use Rattle.std.specs.Option.{option_to_list};
ghost use Rattle.cfa_frames.specs.Frames.{beginning};
ghost use Rattle.cfa_frames.specs.Moves.{doing_need, ended, ending, entered, moved, need_of, skipped};
ghost use Rattle.cfa_machine.specs.Answering.{Enters, entered_doing};
ghost use Rattle.cfa_machine.specs.Needs.{need_ahead, need_if, seen_need};
ghost use Rattle.cfa_machine.specs.Stacks.{Begins, Came, Holds, Stands, TopHolds, seen_ahead, seen_stack};
ghost use Rattle.cfa_machine.specs.Stacks.{AreAll, CalledAs, PushesOnto, TopKeeps};
ghost use Rattle.cfa_machine.specs.Tops.{called_top, worst_of};
ghost use Rattle.cfa_machine.specs.Machines.{seen_frame};
ghost use Rattle.cfa_machine.specs.declared.frames.Frame.{Frame as AnyFrame};
ghost use Rattle.cfa_resolve.specs.declared.instances.Instance.{Instance as AnyInstance};
ghost use Rattle.cfa_schema.specs.Seen.{tree_of};
ghost use Rattle.cfa_states.specs.History.{History};
ghost use Rattle.cfa_states.specs.Levels.{EndedAs, PatternsAre};
ghost use Rattle.cfa_states.specs.Logs.{first_log};
ghost use Rattle.cfa_states.specs.Tellers.{outcomes_in};
ghost use Rattle.cfa_states.specs.Views.{Setting};
ghost use Rattle.cfa_statuses.specs.declared.levels.Status.{Status as AnyStatus};

use crate::answering::{end_running, skip_visit};
use crate::beginning::{common_top, named_top};
use crate::frames::{Doing, Frame, row_in};
use crate::tops::{Top, called_top, enter_top, step_top, worst_of};
use cfa_base::{Names, NoMemory, Patterns};
use cfa_frames::frames_stay_nested;
use cfa_outcomes::Outcome;
use cfa_output::Stop;
use cfa_resolve::Instance;
use cfa_schema::Checked;
use cfa_states::{Ending, State};
use cfa_statuses::Status;
use cfa_tree::Bundle;
use cfa_visits::names_are_plain;
use std::alloc::Global;

/// A run between two of its moves: its policy, how deep calls may go, what is kept of its history, the innermost bundle
/// that is being gone through and those below it, and what is ahead: the common bundles with the next of the round, the
/// rounds behind it, and the bundles of the sequence with the next of them.
#[derive(Drop)]
pub struct Machine<'a> {
    pub checked: &'a Checked,
    pub depth: usize,
    pub state: State,
    pub top: Top<'a>,
    pub below: Vec<Frame<'a>>,
    pub commons: Vec<&'a Bundle>,
    pub round: usize,
    pub rounds: usize,
    pub names: Names,
    pub at: usize,
}

/// What a run waits for.
#[derive(Drop)]
pub enum Need<'a> {
    /// Nothing: it goes on by itself.
    Nothing,
    /// Whether the instance is skipped that is visited with this status.
    Visit(&'a Instance, Status),
    /// How the instance ended that is visited with this status.
    Ending(&'a Instance, Status),
    /// Nothing is left to do.
    Over,
}

// What a bundle waits for.
fn need_in<'b>(frame: &'b Frame<'_>) -> Need<'b>
    ensures { seen_need result ≡ doing_need (seen_frame frame.now).doing }
{
    match frame.doing {
        Doing::Idle => Need::Nothing,
        Doing::Asked(at, status) => match row_in(frame.rows.as_slice(), frame.hand).get(at) {
            None => Need::Nothing,
            Some(instance) => Need::Visit(instance, status),
        },
        Doing::Running(at, status, _) => match row_in(frame.rows.as_slice(), frame.hand).get(at) {
            None => Need::Nothing,
            Some(instance) => Need::Ending(instance, status),
        },
    }
}

impl<'a> Machine<'a> {
    /// A run in which nothing has happened, with a log of its visits where one is asked for.
    pub fn new(
        alloc: Global,
        checked: &'a Checked,
        classes: &Names,
        is_logged: bool,
    ) -> Result<Machine<'a>, NoMemory>
        ensures begins { IfOk result (λ m. Begins checked.now classes.now m) }
        ensures log { IfOk result (λ m. m.state.log ≡ first_log is_logged) }
    {
        let commons = checked.common_bundles(alloc)?;
        let round = commons.len();
        Ok(Machine {
            checked,
            depth: checked.policy().blocks.as_slice().len(),
            state: State::new(alloc, checked, classes, is_logged)?,
            top: Top::Nothing,
            below: Vec::new(alloc),
            commons,
            round,
            rounds: 3,
            names: checked.sequence(alloc)?,
            at: 0,
        })
    }

    // Whether bundles are ahead.
    fn has_more(&self) -> bool
        ensures { need_ahead (seen_ahead self.now) ≡ need_if result }
    {
        if self.round < self.commons.len() {
            return true;
        }
        if self.rounds > 0 {
            return true;
        }
        self.at < self.names.as_slice().len()
    }

    /// What it waits for.
    pub fn need(&self) -> Need<'_>
        ensures { seen_need result ≡ need_of (seen_stack self.now) }
    {
        match &self.top {
            Top::Nothing => {
                if self.has_more() {
                    Need::Nothing
                } else {
                    Need::Over
                }
            }
            Top::Common(_) => Need::Nothing,
            Top::Agent(frame) => need_in(frame),
        }
    }

    /// The worst outcome in the bundle of the call that it is to be told of.
    pub fn called(&self) -> Outcome
        ensures { (s : Setting) (h : History) → Stands s self.now h
            → (instance : AnyInstance) (status : AnyStatus)
            → need_of (seen_stack self.now) ≡ ending instance status
            → EndedAs instance.work instance result h }
    {
        match &self.top {
            Top::Nothing => Outcome::Kept,
            Top::Common(_) => Outcome::Kept,
            Top::Agent(frame) => match frame.doing {
                Doing::Idle => Outcome::Kept,
                Doing::Asked(_, _) => Outcome::Kept,
                Doing::Running(_, _, worst) => worst,
            },
        }
    }

    // Begins the next bundle that is ahead.
    fn begin(&mut self, alloc: Global) -> Result<(), Stop>
        requires holds { Holds self.old }
        requires none { self.old.top ≡ Top.Nothing }
        ensures moved { (s : Setting) (h : History) → Stands s self.old h
            → Came s self.new result (moved s (seen_stack self.old) h) }
        ensures holds { OnOk result (Holds self.new) }
        ensures policy { self.new.checked.now ≡ self.old.checked.now }
        ensures memory { IfErr result (λ stop. stop ≡ Stop.Memory) }
    {
        frames_stay_nested();
        if let Some(bundle) = self.commons.get(self.round) {
            self.top = common_top(alloc, bundle, &self.state)?;
            self.round += 1;
            return Ok(());
        }
        if self.rounds > 0 {
            self.rounds -= 1;
            self.round = 0;
            return Ok(());
        }
        match self.names.as_slice().get(self.at) {
            None => Ok(()),
            Some(name) => {
                self.top = named_top(alloc, self.checked, self.depth, name, &mut self.state)?;
                self.at += 1;
                Ok(())
            }
        }
    }

    // Leaves the innermost bundle.
    fn leave(&mut self)
        ensures { (left : Option AnyFrame)
            × (self.old.below.items ≡ self.new.below.items ++ option_to_list left)
            × (left ≡ None → self.old.below.items ≡ [])
            × (self.new ≡ record self.old
            { top = called_top left (worst_of self.old.top); below = self.new.below }) }
    {
        let worst = worst_of(&self.top);
        let below = self.below.pop();
        self.top = called_top(below, worst);
    }

    /// Moves a run that waits for nothing; one that waits stays as it is.
    ///
    /// `Visits` comes exactly where more visits would be counted than `MOST_VISITS`.
    pub fn advance<P: Patterns>(&mut self, alloc: Global, pats: &mut P) -> Result<(), Stop>
        requires holds { Holds self.old }
        ensures moved { (s : Setting) (h : History) → Stands s self.old h
            → Came s self.new result (moved s (seen_stack self.old) h) }
        ensures holds { OnOk result (Holds self.new) }
        ensures policy { self.new.checked.now ≡ self.old.checked.now }
        ensures patterns { PatternsAre result (P.shown pats.old) (P.shown pats.new) }
    {
        frames_stay_nested();
        if let Top::Nothing = self.top {
            return self.begin(alloc);
        }
        match step_top(alloc, self.checked, &mut self.top, &mut self.state, pats) {
            Err(stop) => Err(stop),
            Ok(true) => Ok(()),
            Ok(false) => {
                self.leave();
                Ok(())
            }
        }
    }

    /// The visit in hand is skipped.
    pub fn skip(&mut self, alloc: Global) -> Result<(), NoMemory>
        requires holds { Holds self.old }
        ensures moved { OnOk result ((s : Setting) (h : History) → Stands s self.old h
            → Came s self.new (Ok tt) (skipped (seen_stack self.old) h)) }
        ensures holds { OnOk result (Holds self.new) }
        ensures policy { self.new.checked.now ≡ self.old.checked.now }
    {
        frames_stay_nested();
        match &mut self.top {
            Top::Nothing => Ok(()),
            Top::Common(_) => Ok(()),
            Top::Agent(frame) => skip_visit(alloc, frame, &mut self.state),
        }
    }

    // A bundle begins above the one that calls it.
    fn push(&mut self, frame: Frame<'a>) -> Result<(), NoMemory>
        ensures pushed { OnOk result (PushesOnto self.old.top self.old self.new frame.entry) }
        ensures policy { self.new.checked.now ≡ self.old.checked.now }
    {
        let caller = std::mem::replace(&mut self.top, Top::Agent(frame));
        match caller {
            Top::Nothing => Ok(()),
            Top::Common(_) => Ok(()),
            Top::Agent(caller) => {
                self.below.push(caller)?;
                Ok(())
            }
        }
    }

    /// The visit in hand isn't skipped: the bundle begins that its instance calls.
    pub fn enter(&mut self, alloc: Global) -> Result<(), NoMemory>
        requires holds { Holds self.old }
        ensures moved { OnOk result ((s : Setting) (h : History) → Stands s self.old h
            → Came s self.new (Ok tt) (entered s (seen_stack self.old) h)) }
        ensures holds { OnOk result (Holds self.new) }
        ensures policy { self.new.checked.now ≡ self.old.checked.now }
    {
        frames_stay_nested();
        names_are_plain(self.checked);
        match enter_top(alloc, self.checked, &mut self.top, &mut self.state)? {
            None => Ok(()),
            Some(frame) => self.push(frame),
        }
    }

    /// The instance of the visit in hand ended, or may end, so.
    pub fn end(&mut self, alloc: Global, ending: Ending) -> Result<(), NoMemory>
        requires holds { Holds self.old }
        ensures moved { OnOk result ((s : Setting) (h : History) → Stands s self.old h
            → Came s self.new (Ok tt) (ended (outcomes_in ending) (seen_stack self.old) h)) }
        ensures holds { OnOk result (Holds self.new) }
        ensures policy { self.new.checked.now ≡ self.old.checked.now }
    {
        frames_stay_nested();
        match &mut self.top {
            Top::Nothing => Ok(()),
            Top::Common(_) => Ok(()),
            Top::Agent(frame) => end_running(alloc, frame, ending, &mut self.state),
        }
    }
}
