// The gathering of promises under their guards.
ghost use Rattle.std.specs.Prelude.{◌≡◌, ◌∷◌, ◌++◌, [], None, Some, IfOk, IsTrue, length};
ghost use Rattle.cfa_tree.specs.Repeats.{guard_before};

use crate::{Attribute, Expr, Guard, Promise, Promises, Value};
use cfa_base::{Name, NoMemory, Parts, Place};
use std::alloc::Global;

/// The promises of a section so far, and the guard that holds for the next.
#[derive(Drop)]
pub struct GuardedPromises {
    pub promises: Promises,
    pub guard: Option<Guard>,
    // whether the last promise stands under this guard too
    repeats: bool,
    ghost in_step: { IsTrue repeats → guard ≡ guard_before promises (length promises) },
}

fn share(guard: &Option<Guard>) -> Result<Option<Guard>, NoMemory>
    ensures { IfOk result (λ g. g ≡ guard.now) }
{
    match guard {
        None => Ok(None),
        Some(guard) => Ok(Some(guard.share()?)),
    }
}

impl GuardedPromises {
    /// No promise, and no guard.
    pub fn new(alloc: Global) -> GuardedPromises
        ensures promises { result.promises ≡ [] }
        ensures guard { result.guard ≡ None }
    {
        GuardedPromises {
            promises: Promises::new(alloc),
            guard: None,
            repeats: true,
        }
    }

    /// The guard that holds from now on.
    pub fn under(self, alloc: Global, guard: Expr) -> Result<GuardedPromises, NoMemory>
        ensures promises { IfOk result (λ g. g.promises ≡ self.promises) }
        ensures guard { IfOk result (λ g. g.guard ≡ Some guard) }
    {
        Ok(GuardedPromises {
            promises: self.promises,
            guard: Some(Guard::new(alloc, guard)?),
            repeats: false,
        })
    }

    /// One promise more, under the guard that holds.
    pub fn with(
        self,
        promiser: Name,
        promisee: Option<Value>,
        attributes: Parts<Attribute>,
        place: Place,
    ) -> Result<GuardedPromises, NoMemory>
        ensures promises { IfOk result (λ g. g.promises ≡ self.promises ++ record {
          guard = self.guard;
          promiser = promiser;
          promisee = promisee;
          attributes = attributes;
          place = place;
        } ∷ []) }
        ensures guard { IfOk result (λ g. g.guard ≡ self.guard) }
    {
        let promise = Promise {
            guard: share(&self.guard)?,
            promiser,
            promisee,
            attributes,
            place,
        };
        Ok(GuardedPromises {
            promises: self.promises.with(promise, self.repeats)?,
            guard: self.guard,
            repeats: true,
        })
    }

    /// The promises so far, without taking memory.
    pub fn into_promises(self) -> Promises
        ensures { result ≡ self.promises }
    {
        self.promises
    }
}
