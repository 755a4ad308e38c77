// What is kept of the history of a run while it is made.
ghost use Rattle.std.specs.Prelude.{◌≡◌, [], ◌∷◌, ◌≤◌, ◌<◌, ◌-◌, ◌&&◌, IfOk, OnOk, IsTrue, Some, None, List, ℕ, map, length, slice_get, slice_set, false, if◌then◌else◌, option_copied};
ghost use Rattle.std.specs.FinMap as finite;
ghost use Rattle.std.specs.List.{filter_map};
ghost use Rattle.std.specs.Str.{bytes_eq};
ghost use Rattle.cfa_schema.specs.Seen.{tree_of};
ghost use Rattle.cfa_vars.specs.Scopes.{Table};
ghost use Rattle.cfa_states.specs.History.{History, Raised, Listed, everywhere};
ghost use Rattle.cfa_outcomes.specs.Environments.{mark_of, source_of};
ghost use Rattle.cfa_states.specs.Kept.{Keeps, wait_at, IsLater};
ghost use Rattle.cfa_states.specs.Logs.{first_log, logged_blames, logged_visit};
ghost use Rattle.cfa_states.specs.Views.{Setting};
ghost use Rattle.cfa_states.specs.Waits.{is_call, is_call_to, is_unvisited, waits_in};
ghost use Rattle.cfa_states.specs.Walks.{blame_edit};

use crate::activations::inner_path;
use crate::changing::{is_raised, one_more};
use crate::logs::{Log, blame_for};
use crate::shared_scopes::shared_scopes;
use crate::waits::{Wait, copy_wait, wait_on};
use crate::walks::Blame;
use cfa_base::{Name, Names, NoMemory, PromiseId, TextMap};
use cfa_outcomes::Environment;
use cfa_resolve::{Instance, Unsettled, Work};
use cfa_schema::Checked;
use cfa_statuses::Status;
use cfa_vars::SharedScopes;
use std::alloc::Global;

/// The most visits that a run counts.
pub const MOST_VISITS: u64 = 1000000;

/// The statuses and sources of global classes with the marks of instances, the scopes that may be referred to from
/// everywhere, how many visits are left, what the first visits of calls waited for by the paths of their bundles, where
/// any did, what a walk lists, where one is asked for, and how many changes of the statuses and the scopes there were.
#[derive(Drop)]
pub struct State {
    pub environment: Environment,
    pub shared: SharedScopes,
    pub left: u64,
    pub calls: Option<TextMap<Wait>>,
    pub log: Option<Log>,
    pub changes: u64,
}

fn first_log(alloc: Global, is_logged: bool) -> Option<Log>
    ensures { result ≡ first_log is_logged }
{
    if is_logged {
        Some(Log::new(alloc))
    } else {
        None
    }
}

// What waits at paths, taken out.
fn taken(alloc: Global, calls: &mut Option<TextMap<Wait>>) -> TextMap<Wait>
    ensures { (path : List ℕ) → finite.get result path ≡ wait_at calls.old path }
{
    match calls.take() {
        None => TextMap::new(alloc),
        Some(map) => map,
    }
}

// What waits at a path becomes this.
fn set_wait(
    alloc: Global,
    calls: &mut Option<TextMap<Wait>>,
    path: Name,
    waits: Option<Wait>,
) -> Result<(), NoMemory>
    ensures { OnOk result ((other : List ℕ) → wait_at calls.new other
        ≡ (if bytes_eq path other then waits else wait_at calls.old other)) }
{
    let mut map = taken(alloc, calls);
    match waits {
        None => map.remove(path.as_str()),
        Some(wait) => map.insert(path, wait)?,
    }
    *calls = Some(map);
    Ok(())
}

fn is_call(work: &Work) -> bool
    ensures { result ≡ is_call work.now }
{
    match work {
        Work::Acts(_) => false,
        Work::Call(_, _) => true,
        Work::Report(_) => false,
    }
}

// Keeps what the first visit of an instance waits for, where it is a call.
fn keep_wait(
    alloc: Global,
    calls: &mut Option<TextMap<Wait>>,
    instance: &Instance,
    is_first: bool,
    waits: Option<&Wait>,
) -> Result<(), NoMemory>
    ensures { OnOk result ((path : List ℕ) → wait_at calls.new path
        ≡ (if is_first && is_call_to path instance.now then option_copied waits.entry
        else wait_at calls.old path)) }
{
    if !is_first || !is_call(&instance.work) {
        return Ok(());
    }
    if waits.is_none() && calls.is_none() {
        return Ok(());
    }
    let path = inner_path(alloc, instance)?;
    let waits = copy_wait(alloc, waits)?;
    set_wait(alloc, calls, path, waits)
}

// Logs a visit, where a walk is asked for.
fn log_visit(
    alloc: Global,
    log: &mut Option<Log>,
    instance: &Instance,
    status: Status,
    is_first: bool,
    waits: Option<&Wait>,
) -> Result<(), NoMemory>
    ensures { OnOk result (log.new ≡ logged_visit instance.now status is_first
        (option_copied waits.entry) log.old) }
{
    match log {
        None => Ok(()),
        Some(log) => log.list(alloc, instance, status, is_first, waits),
    }
}

// Whether an instance with this mark was never visited.
fn is_unvisited(mark: Status) -> bool
    ensures { result ≡ is_unvisited mark }
{
    match mark {
        Status::No => true,
        Status::Maybe => false,
        Status::Yes => false,
    }
}

impl State {
    /// The state in which nothing has happened, with a log where one is asked for.
    pub fn new(
        alloc: Global,
        checked: &Checked,
        classes: &Names,
        is_logged: bool,
    ) -> Result<State, NoMemory>
        ensures keeps { IfOk result (λ state.
            Keeps (record { policy = tree_of checked.now; classes = classes.now }) state []) }
        ensures log { IfOk result (λ state. state.log ≡ first_log is_logged) }
    {
        Ok(State {
            environment: Environment::new(alloc, classes)?,
            shared: shared_scopes(alloc, checked)?,
            left: MOST_VISITS,
            calls: None,
            log: first_log(alloc, is_logged),
            changes: 0,
        })
    }

    /// Counts visits, unless more are asked for than are left.
    pub(crate) fn count(&mut self, visits: u64) -> bool
        ensures left { IsTrue result
            → self.new ≡ record self.old { left = self.old.left - visits } }
        ensures within { IsTrue result → visits ≤ self.old.left }
        ensures full { result ≡ false → self.old.left < visits }
        ensures stays { result ≡ false → self.new ≡ self.old }
    {
        if visits > self.left {
            return false;
        }
        self.left -= visits;
        true
    }

    /// Raises a class for every activation.
    pub fn raise(
        &mut self,
        class: Name,
        to: Status,
        source: Option<PromiseId>,
    ) -> Result<(), NoMemory>
        ensures keeps { OnOk result ((s : Setting) (h : History) → Keeps s self.old h
            → Keeps s self.new (Raised everywhere class to source ∷ h)) }
        ensures later { OnOk result (IsLater self.old self.new) }
    {
        if is_raised(&self.environment, &class, to, &source) {
            return Ok(());
        }
        self.changes = one_more(self.changes)?;
        self.environment.raise(class, to, source)?;
        Ok(())
    }

    /// Lists a visit of an instance, and what it waits for. The caller has shown that this is the mark of the instance so far.
    pub fn list(
        &mut self,
        alloc: Global,
        instance: &Instance,
        status: Status,
        mark: Status,
        waits: Option<&Wait>,
    ) -> Result<(), NoMemory>
        requires { mark
            ≡ mark_of self.old.environment instance.now.path instance.now.text }
        ensures keeps { OnOk result ((s : Setting) (h : History)
            → option_copied waits.entry ≡ waits_in s h instance.now.path → Keeps s self.old h
            → Keeps s self.new (Listed instance.now status ∷ h)) }
        ensures later { OnOk result (IsLater self.old self.new) }
    {
        let is_first = is_unvisited(mark);
        keep_wait(alloc, &mut self.calls, instance, is_first, waits)?;
        log_visit(alloc, &mut self.log, instance, status, is_first, waits)?;
        let text = instance.text.copy(alloc)?;
        self.environment.mark(&instance.path, text, status)?;
        Ok(())
    }

    /// Notes what is unsettled, where a walk is asked for.
    pub(crate) fn log_blame(&mut self, blame: Blame) -> Result<(), NoMemory>
        ensures { OnOk result (self.new
            ≡ record self.old { log = logged_blames (blame ∷ []) self.old.log }) }
    {
        match &mut self.log {
            None => Ok(()),
            Some(log) => log.blame(blame),
        }
    }

    /// Notes what is unsettled in an edit bundle, where a walk is asked for.
    pub fn log_edits(&mut self, alloc: Global, unsettled: &[Unsettled]) -> Result<(), NoMemory>
        ensures { OnOk result (self.new ≡ record self.old {
          log = logged_blames
              (filter_map (blame_edit (source_of self.old.environment)) unsettled.now)
              self.old.log;
        }) }
    {
        for one in unsettled {
            let source = self.environment.source(&one.origin);
            if let Some(wait) = wait_on(alloc, &one.class, source)? {
                self.log_blame(blame_for(alloc, &one.promise, &wait)?)?;
            }
        }
        Ok(())
    }

    /// What the first visit of the call that activates a path waited for.
    pub(crate) fn wait_of_call(&self, path: &Name) -> Option<&Wait>
        ensures { option_copied result ≡ wait_at self.now.calls path.now }
    {
        match &self.calls {
            None => None,
            Some(calls) => calls.get(path.as_str()),
        }
    }

    /// Makes the shared scope at a place empty.
    pub(crate) fn clear_scope(&mut self, alloc: Global, place: usize)
        requires { place < length self.old.shared }
        ensures environment { self.new.environment ≡ self.old.environment }
        ensures left { self.new.left ≡ self.old.left }
        ensures calls { self.new.calls ≡ self.old.calls }
        ensures log { self.new.log ≡ self.old.log }
        ensures shared { (path : List ℕ) (table : Table)
            → slice_get self.old.shared place ≡ Some (path, table)
            → self.new.shared ≡ slice_set self.old.shared place (path, []) }
    {
        self.shared.clear_at(alloc, place);
    }
}
