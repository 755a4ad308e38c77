// Faults, counted, and what is known of the last one.
ghost use Rattle.std.specs.Prelude.{◌≡◌, ◌≤◌, IsErrOf, OnOk};
ghost use Rattle.cfa_base.specs.Causes.{Rose};
ghost use Rattle.cfa_outside.specs.declared.errors.OutsideErr.TheVariants.{Failed};

use crate::errors::{HostErr, Part, Refusal, Why};
use cfa_outside::{Call, OutsideErr};
use std::alloc::{AllocError, Global};

/// The call that failed, of which object of the outside.
#[derive(Clone, Copy, Debug, PartialEq, Eq)]
pub enum FailedCall {
    /// A call of the site, a host in a folder.
    Site(Call),
    /// A reading of an input.
    Read,
    /// A put on standard output.
    Put,
}

/// What is known of a call that failed, for who tells it to a person.
#[derive(Drop)]
pub struct Fault {
    pub call: FailedCall,
    /// The path in the machine's file system, from the folder in which the agent runs, of what
    /// refused, as `host/journal` or `host/tree/etc/motd`; of an input its name. None for standard
    /// output, and where there was no memory for it.
    pub path: Option<String>,
    /// Why it refused: the number of the system's error, the line of a table, or another cause.
    pub why: Why,
}

/// The answer of a call, with the fault counted where the host refused.
pub fn counted<T>(faults: &mut u64, answer: Result<T, HostErr>) -> Result<T, OutsideErr>
    ensures ok { OnOk result (faults.new ≡ faults.old) }
    ensures rose { IsErrOf result Failed → Rose faults.old faults.new }
    ensures later { faults.old ≤ faults.new }
{
    match answer {
        Ok(value) => Ok(value),
        Err(HostErr::NoMemory) => Err(OutsideErr::NoMemory),
        Err(HostErr::Refused(_)) => {
            *faults = faults.saturating_add(1);
            Err(OutsideErr::Failed)
        }
    }
}

// The name of a part in the folder of a host.
fn name_of(part: Part) -> &'static str {
    match part {
        Part::Folder => "",
        Part::Tree | Part::Node => "/tree",
        Part::Stage => "/new",
        Part::Journal => "/journal",
        Part::Changes => "/changes",
        Part::Perms => "/perms.tab",
        Part::Services => "/services.tab",
        Part::Locks => "/locks.tab",
    }
}

/// The path of a part of the host in a folder; `node` is the path of the call, where it has one.
pub fn path_of(alloc: Global, root: &str, part: Part, node: &str) -> Result<String, AllocError> {
    let mut path = String::from_str(alloc, root)?;
    path.push_str(name_of(part))?;
    if part == Part::Node {
        path.push_str(node)?;
    }
    Ok(path)
}

/// What is known of a call on the host in a folder that was refused.
pub fn fault_at(alloc: Global, root: &str, call: Call, node: &str, refusal: Refusal) -> Fault {
    Fault {
        call: FailedCall::Site(call),
        path: path_of(alloc, root, refusal.part, node).ok(),
        why: refusal.why,
    }
}
