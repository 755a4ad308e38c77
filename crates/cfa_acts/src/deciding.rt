// What an act needs in the world of a site.
ghost use Rattle.std.specs.Prelude.{◌≡◌, IfOk};
ghost use Rattle.cfa_acts.specs.Acts.{IsAct, decision};
ghost use Rattle.cfa_acts.specs.Decided.{Decides};
ghost use Rattle.cfa_acts.specs.Seeing.{Sees, IsWhole};

use crate::edits::decide_edit;
use crate::files::{decide_content, decide_copy, decide_create, decide_delete, decide_make_dir};
use crate::permissions::decide_perms;
use crate::seeing::SeeErr;
use crate::services::{decide_enabled, decide_restart, decide_running};
use crate::{Act, Decision};
use cfa_base::NoMemory;
use cfa_outside::Site;
use std::alloc::Global;

/// What an act needs in the site's world, found by looking alone: the site is never changed. `Fault` is the one answer that
/// the world doesn't determine.
pub fn decide<S: Site>(alloc: Global, act: &Act, site: &mut S) -> Result<Decision, NoMemory>
    requires { IsAct act.now }
    // Kept, the needed change, which fits, or the reason, as the world says. A fault has its cause in this call, and its
    // refused call in the log. Else the site is as it was.
    ensures { Decides act.now (S.shown site.old) (S.shown site.new) result }
{
    match find(alloc, act, site) {
        Ok(decision) => Ok(decision),
        Err(SeeErr::Failed(call)) => Ok(Decision::Fault(call)),
        Err(SeeErr::NoMemory) => Err(NoMemory),
    }
}

fn find<S: Site>(alloc: Global, act: &Act, site: &mut S) -> Result<Decision, SeeErr>
    requires { IsAct act.now }
    ensures seen { Sees (λ d world. d ≡ decision act.now world)
        (S.shown site.old) (S.shown site.new) result }
    ensures whole { IfOk result IsWhole }
{
    match act {
        Act::Create(path) => decide_create(alloc, path, site),
        Act::MakeDir(path) => decide_make_dir(alloc, path, site),
        Act::Delete(path, with_directories) => decide_delete(alloc, path, *with_directories, site),
        Act::Content(path, bytes) => decide_content(alloc, path, bytes, site),
        Act::Copy(source, path) => decide_copy(alloc, source, path, site),
        Act::Edit(path, script) => decide_edit(alloc, path, script, site),
        Act::Perms(path, mode, owners, groups) => {
            decide_perms(alloc, path, *mode, owners, groups, site)
        }
        Act::Start(name) => decide_running(alloc, name, true, site),
        Act::Stop(name) => decide_running(alloc, name, false, site),
        Act::Enable(name) => decide_enabled(alloc, name, true, site),
        Act::Disable(name) => decide_enabled(alloc, name, false, site),
        Act::Restart(name) => decide_restart(alloc, name, site),
        Act::Bust(reason) => Ok(Decision::Fail(*reason)),
    }
}
