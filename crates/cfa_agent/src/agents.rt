// An agent: a run that goes on step by step, on whatever site it is handed.
ghost use Rattle.std.specs.Prelude.{◌≡◌, ◌<◌, ◌≤◌, ◌⊎◌, ℕ, Bool, [], IfOk};
ghost use Rattle.cfa_frames.specs.Moves.{Next};
ghost use Rattle.cfa_frames.specs.Steps.{begun};
ghost use Rattle.cfa_machine.specs.Stacks.{Holds, Stands};
ghost use Rattle.cfa_states.specs.History.{History};
ghost use Rattle.cfa_states.specs.Views.{Setting};
ghost use Rattle.cfa_walk.specs.Settings.{setting_of};
ghost use Rattle.cfa_agent.specs.Agents.{Answers, IsAgain, IsAt, IsLeftBy, IsMore, IsResting, IsSound};
ghost use Rattle.cfa_agent.specs.Agents.{Sound, StepAs, StepCounts, StepRefuses, Stays};
ghost use Rattle.cfa_agent.specs.Agents.{tally_kept, weight_left};
ghost use Rattle.cfa_agent.specs.Ran.{IfBothTold};
ghost use Rattle.cfa_agent.specs.declared.agents.Progress.TheVariants.{Going};

use crate::progress::Running;
use crate::running::{Tally, begin};
use cfa_base::{LAST_MOMENT, Name, NoMemory, Patterns};
use cfa_frames::steps_end_with_an_actuation;
use cfa_machine::Machine;
use cfa_output::Stop;
use cfa_outside::Site;
use cfa_schema::Checked;
use cfa_walk::{Context, step};
use std::alloc::Global;
use std::mem::replace;

/// What a step came to.
#[derive(Debug, Drop)]
pub enum Stepped {
    /// An instance with acts was actuated, and there may be more to do.
    More,
    /// Nothing is left to do.
    Ended,
    /// The run was stopped.
    Stopped(Stop),
}

/// How far an agent has come.
#[derive(Drop)]
pub enum Progress<'a> {
    /// The run goes on from here.
    Going(Machine<'a>, Running),
    /// It has come to its end, with these counts.
    Ended(Tally),
    /// It was stopped, with these counts.
    Stopped(Stop, Tally),
}

/// A run of a policy that goes on step by step. A step goes on until one instance with acts was
/// actuated, or to the end of the run. An agent that has ended or was stopped does nothing more.
#[derive(Drop)]
pub struct Agent<'a> {
    alloc: Global,
    progress: Progress<'a>,
    lines: Vec<Name>,
}

// No counts.
const NO_TALLY: Tally = Tally {
    kept: 0,
    repaired: 0,
    failed: 0,
    skipped: 0,
};

// The same stop once more. Want of memory for its text is want of memory.
fn copy_stop(alloc: Global, stop: &Stop) -> Stop
    ensures { IsAgain stop.now result }
{
    match stop {
        Stop::Outside(object) => Stop::Outside(*object),
        Stop::Memory => Stop::Memory,
        Stop::Visits => Stop::Visits,
        Stop::Pattern(text) => match text.copy(alloc) {
            Ok(text) => Stop::Pattern(text),
            Err(NoMemory) => Stop::Memory,
        },
    }
}

// What becomes of a run by how its step ended, and what is answered.
fn leave<'a>(
    alloc: Global,
    machine: Machine<'a>,
    running: Running,
    stepped: Result<bool, Stop>,
) -> (Progress<'a>, Stepped)
    ensures { IsLeftBy machine.entry running stepped result.0 result.1 }
{
    match stepped {
        Ok(true) => (Progress::Going(machine, running), Stepped::More),
        Ok(false) => (Progress::Ended(running.tally), Stepped::Ended),
        Err(stop) => {
            let kept = copy_stop(alloc, &stop);
            (
                Progress::Stopped(kept, running.tally),
                Stepped::Stopped(stop),
            )
        }
    }
}

// Makes a step of a run that goes on.
fn go_on<'a, S: Site, P: Patterns>(
    alloc: Global,
    machine: Machine<'a>,
    running: Running,
    lines: &mut Vec<Name>,
    site: &mut S,
    pats: &mut P,
) -> (Progress<'a>, Stepped)
    requires holds { Holds machine }
    requires stands { (s : Setting) × ((h : History) × Stands s machine h) }
    ensures stepped { (s : Setting) (moment : ℕ) (locks : Bool) (x : Next)
        → IsAt s moment locks (Going machine.entry running) x
        → IfBothTold (λ before after. StepAs s moment locks x lines.old.items lines.new.items
        before after result.0 result.1) (S.shown site.old) (S.shown site.new) }
    ensures sound { IsSound result.0 }
    ensures answers { Answers result.0 result.1 }
    ensures counts { StepCounts result.1 (S.shown site.old) (S.shown site.new) }
    ensures patterns { StepRefuses result.1 (P.shown pats.old) (P.shown pats.new) }
    ensures lighter { IsMore result.1
        → weight_left result.0 < weight_left (Going machine.entry running) }
{
    let mut machine = machine;
    let mut running = running;
    let stepped = step(alloc, &mut machine, &mut running, site, lines, pats);
    leave(alloc, machine, running, stepped)
}

impl<'a> Agent<'a> {
    /// An agent of a policy, in the classes of a context, that has done nothing yet. With `locks` an
    /// instance whose lock was last set too few minutes ago is skipped, and each other one sets its
    /// lock when it has ended. `moment` is the time in seconds since 1970-01-01T00:00:00Z.
    pub fn new(
        alloc: Global,
        checked: &'a Checked,
        context: &Context,
        moment: u64,
        locks: bool,
    ) -> Result<Agent<'a>, NoMemory>
        requires { moment ≤ LAST_MOMENT }
        ensures begins { IfOk result (λ agent.
            IsAt (setting_of checked.now context.now) moment locks agent.progress
            (begun (setting_of checked.now context.now))) }
        ensures lines { IfOk result (λ agent. agent.lines.items ≡ []) }
        ensures sound { IfOk result Sound }
    {
        let machine = Machine::new(alloc, checked, &context.classes, false)?;
        Ok(Agent {
            alloc,
            progress: Progress::Going(machine, begin(moment, locks)),
            lines: Vec::new(alloc),
        })
    }

    /// Goes on up to and with the next actuation of an instance with acts, on this site, or to the
    /// end of the run.
    pub fn step<S: Site, P: Patterns>(
        &mut self,
        alloc: Global,
        site: &mut S,
        pats: &mut P,
    ) -> Stepped
        requires sound { Sound self.old }
        // It makes the step of the definition from where it stands, on the world that this site has
        // then, under the marks of what it adds.
        ensures stepped { (s : Setting) (moment : ℕ) (locks : Bool) (x : Next)
            → IsAt s moment locks self.old.progress x
            → IfBothTold (λ before after. StepAs s moment locks x self.old.lines.items
            self.new.lines.items before after self.new.progress result)
            (S.shown site.old) (S.shown site.new) }
        ensures sound { Sound self.new }
        ensures answers { Answers self.new.progress result }
        // What has ended or was stopped answers the same again, and touches nothing.
        ensures rests { IsResting self.old.progress → Stays self.old.progress self.new.progress
            self.old.lines.items self.new.lines.items (S.shown site.old) (S.shown site.new)
            (P.shown pats.old) (P.shown pats.new) }
        // Where the site stopped it, its count of faults rose.
        ensures counts { IsResting self.old.progress ⊎
            StepCounts result (S.shown site.old) (S.shown site.new) }
        // The builder of patterns is as it was, unless it refused the text that stopped the run.
        ensures patterns { IsResting self.old.progress ⊎
            StepRefuses result (P.shown pats.old) (P.shown pats.new) }
        ensures lighter { IsMore result →
            weight_left self.new.progress < weight_left self.old.progress }
    {
        match replace(&mut self.progress, Progress::Ended(NO_TALLY)) {
            Progress::Going(machine, running) => {
                let (progress, stepped) = go_on(
                    alloc,
                    machine,
                    running,
                    &mut self.lines,
                    site,
                    pats,
                );
                self.progress = progress;
                stepped
            }
            Progress::Ended(tally) => {
                steps_end_with_an_actuation();
                self.progress = Progress::Ended(tally);
                Stepped::Ended
            }
            Progress::Stopped(stop, tally) => {
                let again = copy_stop(alloc, &stop);
                self.progress = Progress::Stopped(stop, tally);
                Stepped::Stopped(again)
            }
        }
    }

    /// Takes the lines that its steps told and that weren't taken yet, in order.
    pub fn take_lines(&mut self) -> Vec<Name>
        ensures taken { result.items ≡ self.old.lines.items }
        ensures left { self.new.lines.items ≡ [] }
        ensures stays { self.new.progress ≡ self.old.progress }
    {
        replace(&mut self.lines, Vec::new(self.alloc))
    }

    /// How many instances were kept, repaired, failed and skipped so far.
    pub fn tally(&self) -> Tally
        ensures { result ≡ tally_kept self.now.progress }
    {
        match &self.progress {
            Progress::Going(_, running) => running.tally,
            Progress::Ended(tally) => *tally,
            Progress::Stopped(_, tally) => *tally,
        }
    }
}
