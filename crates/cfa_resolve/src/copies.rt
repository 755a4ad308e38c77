// Copies of instances, of ids and of what variables hold.
ghost use Rattle.std.specs.Prelude.{◌≡◌, IfOk};

use crate::classes::Outcomes;
use crate::{Instance, Work};
use cfa_base::{NoMemory, Parts, PromiseId};
use cfa_vars::Datum;
use std::alloc::Global;

/// A copy of the id of a promise.
pub fn copy_id(alloc: Global, id: &PromiseId) -> Result<PromiseId, NoMemory>
    ensures { IfOk result (λ copy. copy ≡ id.now) }
{
    Ok(PromiseId {
        bundle: id.bundle.copy(alloc)?,
        number: id.number,
        line: id.line,
    })
}

/// A copy of what a variable holds.
pub fn copy_datum(alloc: Global, datum: &Datum) -> Result<Datum, NoMemory>
    ensures { IfOk result (λ copy. copy ≡ datum.now) }
{
    match datum {
        Datum::Text(text) => Ok(Datum::Text(text.copy(alloc)?)),
        Datum::List(items) => Ok(Datum::List(items.copy(alloc)?)),
    }
}

// A copy of the arguments of a call.
fn copy_data(alloc: Global, given: &[Datum]) -> Result<Parts<Datum>, NoMemory>
    ensures { IfOk result (λ copy. copy ≡ given.now) }
{
    let mut items = Vec::new(alloc);
    for datum in given {
        items.push(copy_datum(alloc, datum)?)?;
    }
    Ok(Parts::from_vec(items))
}

impl Work {
    /// A copy of the work. It has the acts in common with it.
    pub fn copy(&self, alloc: Global) -> Result<Work, NoMemory>
        ensures { IfOk result (λ copy. copy ≡ self.now) }
    {
        match self {
            Work::Acts(acts) => Ok(Work::Acts(acts.share()?)),
            Work::Call(name, given) => {
                Ok(Work::Call(name.copy(alloc)?, copy_data(alloc, given.as_slice())?))
            },
            Work::Report(content) => Ok(Work::Report(content.copy(alloc)?)),
        }
    }
}

impl Instance {
    // A copy of its classes.
    fn outcomes(&self, alloc: Global) -> Result<Outcomes, NoMemory>
        ensures kept { IfOk result (λ o. o.kept ≡ self.now.kept) }
        ensures repaired { IfOk result (λ o. o.repaired ≡ self.now.repaired) }
        ensures failed { IfOk result (λ o. o.failed ≡ self.now.failed) }
    {
        Ok(Outcomes {
            kept: self.kept.copy(alloc)?,
            repaired: self.repaired.copy(alloc)?,
            failed: self.failed.copy(alloc)?,
        })
    }

    /// A copy of the instance. It has the acts in common with it.
    pub fn copy(&self, alloc: Global) -> Result<Instance, NoMemory>
        ensures { IfOk result (λ copy. copy ≡ self.now) }
    {
        let outcomes = self.outcomes(alloc)?;
        let (path, text) = (self.path.copy(alloc)?, self.text.copy(alloc)?);
        let source = copy_id(alloc, &self.source)?;
        Ok(Instance {
            path,
            source,
            work: self.work.copy(alloc)?,
            kept: outcomes.kept,
            repaired: outcomes.repaired,
            failed: outcomes.failed,
            elapsed: self.elapsed,
            text,
        })
    }
}
