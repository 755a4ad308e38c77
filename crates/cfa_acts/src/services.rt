// What acts on services need.
ghost use Rattle.std.specs.Prelude.{◌≡◌, IfOk};
ghost use Rattle.cfa_acts.specs.Acts.{decision};
ghost use Rattle.cfa_acts.specs.Seeing.{Sees, IsWhole, running_act, enabled_act, put_running, put_enabled};
ghost use Rattle.cfa_acts.specs.Acts.{restarts};

use crate::seeing::{SeeErr, see_row};
use crate::{Act, Decision, Reason};
use cfa_base::{Name, NoMemory};
use cfa_outside::{Change, ServiceRow, Site};
use std::alloc::Global;

/// What `Start` needs, or `Stop` where the service isn't to run.
pub fn decide_running<S: Site>(
    alloc: Global,
    name: &Name,
    running: bool,
    site: &mut S,
) -> Result<Decision, SeeErr>
    ensures seen { Sees (λ d world. d ≡ decision (running_act running name.now) world)
        (S.shown site.old) (S.shown site.new) result }
    ensures whole { IfOk result IsWhole }
{
    let row = see_row(alloc, name, site)?;
    Ok(change_running(alloc, name, running, row)?)
}

fn change_running(
    alloc: Global,
    name: &Name,
    running: bool,
    row: Option<ServiceRow>,
) -> Result<Decision, NoMemory>
    ensures exact { IfOk result (λ d. d ≡ put_running running name.now row) }
    ensures whole { IfOk result IsWhole }
{
    match row {
        None => Ok(Decision::Fail(Reason::UnknownService)),
        Some(row) if row.running == running => Ok(Decision::Kept),
        Some(row) => {
            let changed = ServiceRow { running, ..row };
            Ok(Decision::Needs(Change::PutService(name.copy(alloc)?, changed)))
        }
    }
}

/// What `Enable` needs, or `Disable` where the service isn't to be enabled.
pub fn decide_enabled<S: Site>(
    alloc: Global,
    name: &Name,
    enabled: bool,
    site: &mut S,
) -> Result<Decision, SeeErr>
    ensures seen { Sees (λ d world. d ≡ decision (enabled_act enabled name.now) world)
        (S.shown site.old) (S.shown site.new) result }
    ensures whole { IfOk result IsWhole }
{
    let row = see_row(alloc, name, site)?;
    Ok(change_enabled(alloc, name, enabled, row)?)
}

fn change_enabled(
    alloc: Global,
    name: &Name,
    enabled: bool,
    row: Option<ServiceRow>,
) -> Result<Decision, NoMemory>
    ensures exact { IfOk result (λ d. d ≡ put_enabled enabled name.now row) }
    ensures whole { IfOk result IsWhole }
{
    match row {
        None => Ok(Decision::Fail(Reason::UnknownService)),
        Some(row) if row.enabled == enabled => Ok(Decision::Kept),
        Some(row) => {
            let changed = ServiceRow { enabled, ..row };
            Ok(Decision::Needs(Change::PutService(name.copy(alloc)?, changed)))
        }
    }
}

pub fn decide_restart<S: Site>(alloc: Global, name: &Name, site: &mut S) -> Result<Decision, SeeErr>
    ensures seen { Sees (λ d world. d ≡ decision (Act.Restart name.now) world)
        (S.shown site.old) (S.shown site.new) result }
    ensures whole { IfOk result IsWhole }
{
    let row = see_row(alloc, name, site)?;
    Ok(restart(alloc, name, row)?)
}

fn restart(alloc: Global, name: &Name, row: Option<ServiceRow>) -> Result<Decision, NoMemory>
    ensures exact { IfOk result (λ d. d ≡ restarts name.now row) }
    ensures whole { IfOk result IsWhole }
{
    match row {
        None => Ok(Decision::Fail(Reason::UnknownService)),
        Some(row) if row.restarts == u32::MAX => Ok(Decision::Fail(Reason::BadValue)),
        Some(row) => {
            let changed = ServiceRow {
                running: true,
                restarts: row.restarts + 1,
                ..row
            };
            Ok(Decision::Needs(Change::PutService(name.copy(alloc)?, changed)))
        }
    }
}
