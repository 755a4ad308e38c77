// The locks of instances.
ghost use Rattle.std.specs.Prelude.{◌≡◌};
ghost use Rattle.cfa_agent.specs.Locking.{is_too_early, lock_entries, Skips};
ghost use Rattle.cfa_agent.specs.Actuating.{Writes};

use crate::recording::put;
use cfa_locks::{due, key};
use cfa_output::{Object, Stop};
use cfa_outside::{Change, OutsideErr, Site};
use cfa_resolve::Instance;
use std::alloc::Global;

// Whether an instance whose lock was last set at this moment, if ever, is to be skipped.
fn is_too_early(moment: u64, instance: &Instance, last: Option<u64>) -> bool
    ensures { result ≡ is_too_early moment instance.now last }
{
    match last {
        Some(last) => !due(last, moment, instance.elapsed),
        None => false,
    }
}

/// Whether an instance is to be skipped, since its lock was set too few minutes ago. Without locks none is, and the site
/// isn't asked.
pub fn is_skipped<S: Site>(
    alloc: Global,
    moment: u64,
    has_locks: bool,
    instance: &Instance,
    site: &mut S,
) -> Result<bool, Stop>
    ensures { Skips moment has_locks instance.now (S.shown site.old) (S.shown site.new) result }
{
    if !has_locks {
        return Ok(false);
    }
    let key = key(alloc, &instance.text)?;
    match site.lock(alloc, &key) {
        Ok(last) => Ok(is_too_early(moment, instance, last)),
        Err(OutsideErr::Failed) => Err(Stop::Outside(Object::Site)),
        Err(OutsideErr::NoMemory) => Err(Stop::Memory),
    }
}

/// Sets the lock of an instance that has ended. Without locks nothing is set.
pub fn set_lock<S: Site>(
    alloc: Global,
    moment: u64,
    has_locks: bool,
    instance: &Instance,
    site: &mut S,
) -> Result<(), Stop>
    ensures { Writes (lock_entries moment has_locks instance.now)
        (S.shown site.old) (S.shown site.new) result }
{
    if !has_locks {
        return Ok(());
    }
    let key = key(alloc, &instance.text)?;
    put(alloc, Change::PutLock(key, moment), site)
}
