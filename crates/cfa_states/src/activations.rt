// What is kept of an activation of a bundle.
ghost use Rattle.std.specs.Prelude.{◌≡◌, ◌<◌, [], ◌∷◌, IfOk, OnOk, IfSome, Some, None, List, option_map, option_copied, false};
ghost use Rattle.cfa_statuses.specs.declared.levels.Status.TheVariants.{Yes as yes};
ghost use Rattle.cfa_tree.specs.Plain.{plain_expr};
ghost use Rattle.cfa_vars.specs.declared.scoping.Datum.{Datum};
ghost use Rattle.cfa_vars.specs.Scopes.{in_scope};
ghost use Rattle.cfa_resolve.specs.declared.instances.Instance.{Instance};
ghost use Rattle.cfa_base.specs.Index.{is_listed};
ghost use Rattle.cfa_states.specs.declared.states.State.{State};
ghost use Rattle.cfa_states.specs.History.{History, Begun, Set, Raised, Told, within, source_in};
ghost use Rattle.cfa_states.specs.Kept.{Keeps, KeepsLocally, Stands, IsSame, IsOf, IsFresh, IsUntouched, home_of, scope_at, AreLater, IsLaterHere, guard_value, scopes_now};
ghost use Rattle.cfa_states.specs.Tellers.{outcomes_in, worse, worst, inner_path};
ghost use Rattle.cfa_states.specs.Views.{Setting, scopes_in, guard_status, shared_names};

use crate::changing::{is_raised, is_set_to, one_more};
use crate::endings::Ending;
use crate::states::State;
use crate::waits::Wait;
use cfa_base::{Name, Names, NoMemory, PromiseId};
use cfa_outcomes::{Environment, Outcome};
use cfa_resolve::Instance;
use cfa_statuses::{Status, value};
use cfa_tree::Guard;
use cfa_vars::{Datum, Scope, Scopes};
use std::alloc::Global;

/// An activation: its path and its bundle, the status that it was called with, its local classes, the worst outcome of its
/// instances so far, what the instances of the promise that was reached last wait for, the place of its scope among the
/// shared ones, or a scope of its own, and how many changes of its local classes and of that scope there were.
#[derive(Drop)]
pub struct Activation {
    pub path: Name,
    pub bundle: Name,
    pub status: Status,
    pub local: Environment,
    pub worst: Outcome,
    pub waits: Option<Wait>,
    pub place: Option<usize>,
    pub own: Scope,
    pub changes: u64,
}

// The scope of an activation.
fn own_scope<'a>(state: &'a State, activation: &'a Activation) -> &'a Scope
    ensures { result.now
        ≡ scope_at state.now.shared activation.now.place activation.now.own }
{
    match activation.place {
        None => &activation.own,
        Some(place) => match state.shared.at(place) {
            None => &activation.own,
            Some(scope) => scope,
        },
    }
}

/// What the texts of an activation's promises may refer to.
pub fn scopes_of<'a>(state: &'a State, activation: &'a Activation) -> Scopes<'a>
    ensures kept { (s : Setting) (h : History) → Stands s state.now activation.now h
        → in_scope result ≡ scopes_in s h (home_of activation.now) }
    ensures now { in_scope result ≡ scopes_now state.now activation.now }
{
    Scopes {
        own: own_scope(state, activation),
        own_name: &activation.bundle,
        shared: &state.shared,
    }
}

/// Sets a variable of an activation.
pub(crate) fn set_variable(
    state: &mut State,
    activation: &mut Activation,
    name: Name,
    datum: Datum,
) -> Result<(), NoMemory>
    ensures same { OnOk result (IsSame activation.old activation.new) }
    ensures stands { OnOk result ((s : Setting) (h : History)
        → Stands s state.old activation.old h
        → Stands s state.new activation.new (Set activation.old.path name datum ∷ h)) }
    ensures later { OnOk result (AreLater state.old state.new activation.old activation.new) }
{
    if is_set_to(own_scope(state, activation), &name, &datum) {
        return Ok(());
    }
    match activation.place {
        None => {
            activation.changes = one_more(activation.changes)?;
            activation.own.set(name, datum)?;
        }
        Some(place) => {
            if place < state.shared.len() {
                state.changes = one_more(state.changes)?;
                state.shared.set_at(place, name, datum)?;
            } else {
                activation.changes = one_more(activation.changes)?;
                activation.own.set(name, datum)?;
            }
        }
    }
    Ok(())
}

impl Activation {
    // An activation in which nothing has happened.
    fn new(
        alloc: Global,
        path: Name,
        bundle: &Name,
        status: Status,
        place: Option<usize>,
    ) -> Result<Activation, NoMemory>
        ensures is_of { IfOk result (IsOf path bundle.now status) }
        ensures place { IfOk result (λ a. a.place ≡ place) }
        ensures fresh { IfOk result IsFresh }
    {
        Ok(Activation {
            path,
            bundle: bundle.copy(alloc)?,
            status,
            local: Environment::new(alloc, &Names::new(alloc))?,
            worst: Outcome::Kept,
            waits: None,
            place,
            own: Scope::new(alloc),
            changes: 0,
        })
    }

    /// Begins an activation of a bundle of the sequence, with its shared scope made empty; `None` where no shared scope has
    /// its name.
    pub fn of_sequence(
        alloc: Global,
        state: &mut State,
        bundle: &Name,
    ) -> Result<Option<Activation>, NoMemory>
        ensures is_of { IfOk result (λ made. IfSome made (IsOf bundle.now bundle.now yes)) }
        ensures stands { IfOk result (λ made. IfSome made (λ a. (s : Setting) (h : History)
            → Keeps s state.old h → Stands s state.new a (Begun bundle.now [] ∷ h))) }
        ensures missing { IfOk result (λ made. made ≡ None
            → (s : Setting) (h : History) → Keeps s state.old h
            → is_listed (shared_names s.policy) bundle.now ≡ false) }
        ensures same { IfOk result (λ made. made ≡ None → state.new ≡ state.old) }
    {
        match state.shared.place_of(bundle) {
            None => Ok(None),
            Some(place) => {
                let path = bundle.copy(alloc)?;
                let made = Activation::new(alloc, path, bundle, Status::Yes, Some(place))?;
                state.clear_scope(alloc, place);
                Ok(Some(made))
            }
        }
    }

    /// An activation of a common bundle, of which nothing was kept; `None` where no shared scope has its name.
    pub fn of_common(
        alloc: Global,
        state: &State,
        bundle: &Name,
    ) -> Result<Option<Activation>, NoMemory>
        ensures is_of { IfOk result (λ made. IfSome made (IsOf bundle.now bundle.now yes)) }
        ensures stands { IfOk result (λ made. IfSome made (λ a. (s : Setting) (h : History)
            → Keeps s state.now h → IsUntouched h bundle.now → Stands s state.now a h)) }
        ensures missing { IfOk result (λ made. made ≡ None
            → (s : Setting) (h : History) → Keeps s state.now h
            → is_listed (shared_names s.policy) bundle.now ≡ false) }
    {
        match state.shared.place_of(bundle) {
            None => Ok(None),
            Some(place) => {
                let path = bundle.copy(alloc)?;
                let made = Activation::new(alloc, path, bundle, Status::Yes, Some(place))?;
                Ok(Some(made))
            }
        }
    }

    /// Begins an activation of a called bundle, with a scope of its own.
    pub fn of_call(
        alloc: Global,
        path: Name,
        bundle: &Name,
        status: Status,
    ) -> Result<Activation, NoMemory>
        ensures is_of { IfOk result (IsOf path bundle.now status) }
        ensures stands { IfOk result (λ a. (s : Setting) (state : State) (h : History)
            (given : List Datum) → Keeps s state h → is_listed (shared_names s.policy) path ≡ false
            → Stands s state a (Begun path given ∷ h)) }
    {
        let made = Activation::new(alloc, path, bundle, status, None)?;
        Ok(made)
    }

    /// Raises a class within the activation.
    pub(crate) fn raise(
        &mut self,
        class: Name,
        to: Status,
        source: Option<PromiseId>,
    ) -> Result<(), NoMemory>
        ensures same { OnOk result (IsSame self.old self.new) }
        ensures keeps { OnOk result ((s : Setting) (h : History) → KeepsLocally s self.old h
            → KeepsLocally s self.new (Raised (within self.old.path) class to source ∷ h)) }
        ensures later { OnOk result (IsLaterHere self.old self.new) }
    {
        if is_raised(&self.local, &class, to, &source) {
            return Ok(());
        }
        self.changes = one_more(self.changes)?;
        self.local.raise(class, to, source)?;
        Ok(())
    }

    /// Notes how an instance of the activation ended, or may end.
    pub fn note(&mut self, ending: Ending)
        ensures same { IsSame self.old self.new }
        ensures keeps { (s : Setting) (h : History) (instance : Instance)
            → instance.path ≡ self.old.path → KeepsLocally s self.old h
            → KeepsLocally s self.new (Told instance (outcomes_in ending) ∷ h) }
        ensures later { IsLaterHere self.old self.new }
    {
        self.worst = worse(worst_of(ending), self.worst);
    }
}

// The worst outcome with which an instance may end.
fn worst_of(ending: Ending) -> Outcome
    ensures { result ≡ worst (outcomes_in ending) }
{
    match ending {
        Ending::One(outcome) => outcome,
        Ending::KeptOrRepaired => Outcome::Repaired,
    }
}

fn worse(outcome: Outcome, other: Outcome) -> Outcome
    ensures { result ≡ worse outcome other }
{
    match (outcome, other) {
        (Outcome::Failed, _) => Outcome::Failed,
        (Outcome::Kept, other) => other,
        (Outcome::Repaired, Outcome::Failed) => Outcome::Failed,
        (Outcome::Repaired, _) => Outcome::Repaired,
    }
}

/// The path of a called bundle: that of the caller, a newline, and the key text of the call.
pub fn inner_path(alloc: Global, instance: &Instance) -> Result<Name, NoMemory>
    ensures { IfOk result (λ path. path ≡ inner_path instance.now) }
{
    let path = instance.path.as_str();
    let text = instance.text.as_str();
    Ok(Name::from_string(format!(in alloc; "{path}\n{text}")?)?)
}

/// The status of a guard in an activation.
pub fn guard_status(state: &State, activation: &Activation, guard: &Option<Guard>) -> Status
    ensures kept { (s : Setting) (h : History) → Stands s state.now activation.now h
        → result ≡ guard_status s h activation.now.path (option_map plain_expr guard.now) }
    ensures now { result ≡ guard_value (option_map plain_expr guard.now)
        state.now.environment.statuses activation.now.local.statuses }
{
    match guard {
        None => Status::Yes,
        Some(guard) => value(
            guard.expr(),
            state.environment.statuses(),
            activation.local.statuses(),
        ),
    }
}

/// The source of a class in an activation.
pub(crate) fn source_of<'a>(
    state: &'a State,
    activation: &'a Activation,
    class: &Name,
) -> Option<&'a PromiseId>
    ensures { (s : Setting) (h : History) → Stands s state.now activation.now h
        → option_copied result ≡ source_in h activation.now.path class.now }
{
    match state.environment.source(class) {
        Some(source) => Some(source),
        None => activation.local.source(class),
    }
}
