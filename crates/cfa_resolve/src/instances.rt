// Instances of promises.
ghost use Rattle.std.specs.Prelude.{◌≡◌, All, IfOk};
ghost use Rattle.cfa_acts.specs.Acts.{IsAct};
ghost use Rattle.cfa_resolve.specs.declared.instances.ResolveErr.TheVariants.{NoMemory};

use cfa_acts::Act;
use cfa_base as base;
use cfa_base::{Name, Names, Parts, PromiseId};
use cfa_kinds::PromiseType;
use cfa_scripts::{ScriptErr, Unsettled};
use cfa_statuses::Statuses;
use cfa_tree::Promise;
use cfa_vars::{Datum, Scopes};
use std::alloc::Global;
use std::marker::Model;
use std::rc::Rc;
use thiserror::Error;

/// Acts, in the order in which they are made, which the copies of an instance have in common.
#[derive(Drop)]
pub struct Acts {
    items: Rc<Vec<Act>>,
}

impl Model for Acts {
    ghost use Rattle.std.specs.Prelude.{List, All};
    ghost use Rattle.cfa_acts.specs.declared.acts.Act.{Act};
    ghost use Rattle.cfa_acts.specs.Acts.{IsAct};

    ghost Value = { List Act };

    ghost view = { λ a. a.items.value.items };

    ghost invariant = { λ a. All IsAct a.items.value.items };
}

impl Acts {
    /// The acts of a `Vec`. What room it has left over is given back.
    pub fn from_vec(alloc: Global, items: Vec<Act>) -> Result<Acts, base::NoMemory>
        requires { All IsAct items.items }
        ensures { IfOk result (λ acts. acts ≡ items.items) }
    {
        let mut items = items;
        items.shrink_to_fit();
        let items = Rc::new(alloc, items)?;
        Ok(Acts { items })
    }

    /// The same acts for one instance more, without a copy of them.
    pub fn share(&self) -> Result<Acts, base::NoMemory>
        ensures { IfOk result (λ acts. acts ≡ self.now) }
    {
        let items = self.items.clone()?;
        Ok(Acts { items })
    }

    /// The acts, without taking memory.
    pub fn as_slice(&self) -> &[Act]
        ensures acts { result.now ≡ self.now }
        ensures facts { All IsAct self.now }
    {
        self.items.as_ref().as_slice()
    }
}

/// What an instance asks for.
#[derive(Drop)]
pub enum Work {
    /// Acts on the host, one after the other.
    Acts(Acts),
    /// An activation of a bundle with arguments.
    Call(Name, Parts<Datum>),
    /// A line that is put.
    Report(Name),
}

/// One combination of a promise. It is named by its path and its text.
#[derive(Drop)]
pub struct Instance {
    /// The activation in which its promise was reached.
    pub path: Name,
    /// Its promise.
    pub source: PromiseId,
    pub work: Work,
    /// The classes that are raised where it is kept, canonified, none of them empty.
    pub kept: Names,
    /// Those that are raised where it is repaired.
    pub repaired: Names,
    /// Those that are raised where it failed.
    pub failed: Names,
    /// How many minutes have to go by before it is due again.
    pub elapsed: u32,
    /// Its key text, which tells its promise, work, classes and minutes.
    pub text: Name,
}

/// What a promise resolves to.
#[derive(Drop)]
pub struct Resolved {
    pub instances: Parts<Instance>,
    /// The names that kept something from being made, once each, in the order in which they are met.
    pub unresolved: Names,
    /// The promises of its edit bundle whose guards may hold or not, in the order in which they are reached.
    pub unsettled: Parts<Unsettled>,
    /// How many visits the promise counts, those of the promises of its edit bundle included.
    pub visits: u64,
}

/// What a promise is resolved in: the variables that its texts may refer to, the global classes, and the path of its
/// activation.
#[derive(Clone, Copy)]
pub struct View<'a> {
    pub scopes: Scopes<'a>,
    pub statuses: &'a Statuses,
    pub path: &'a Name,
}

/// A promise of a policy, with its id and its type.
#[derive(Clone, Copy)]
pub struct FoundPromise<'a> {
    pub id: &'a PromiseId,
    pub promise_type: PromiseType,
    pub promise: &'a Promise,
}

/// Why a promise was not resolved.
#[derive(Debug, Drop, Error)]
pub enum ResolveErr {
    /// The promise counts more visits than are left.
    #[error("more visits than are left")]
    TooLarge,
    /// The pattern of this text was refused for its size.
    #[error("a pattern is too big")]
    PatternTooBig(Name),
    /// No memory was left.
    #[error("out of memory")]
    NoMemory,
}

impl From<base::NoMemory> for ResolveErr {
    ghost from_gives = { λ _ e. e ≡ NoMemory };

    fn from(_: base::NoMemory) -> Self {
        ResolveErr::NoMemory
    }
}

impl From<ScriptErr> for ResolveErr {
    ghost use Rattle.cfa_resolve.specs.OfTheCode.{error_of};

    ghost from_gives = { λ s e. e ≡ error_of s };

    fn from(error: ScriptErr) -> Self {
        match error {
            ScriptErr::TooLarge => ResolveErr::TooLarge,
            ScriptErr::PatternTooBig(text) => ResolveErr::PatternTooBig(text),
            ScriptErr::NoMemory => ResolveErr::NoMemory,
        }
    }
}
