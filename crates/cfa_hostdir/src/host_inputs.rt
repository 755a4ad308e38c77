// Files as inputs.
ghost use Rattle.std.specs.Prelude.{◌≡◌, None};

use crate::errors::{HostErr, Refusal, Why, refusal_of, refused};
use crate::faults::{FailedCall, Fault, counted};
use cfa_base::{Bytes, Name};
use cfa_outside::{Inputs, OutsideErr};
use std::alloc::Global;
use std::fs;
use std::io::Read;
use std::rt::Files;

/// Files as inputs, each under its path. They tell nothing of their content.
#[derive(Drop)]
pub struct HostInputs<R> {
    rt: R,
    faults: u64,
    last: Option<Fault>,
}

impl<R: Drop> HostInputs<R> {
    /// The files that the runtime opens, without taking memory.
    pub fn new(rt: R) -> HostInputs<R> {
        HostInputs {
            rt,
            faults: 0,
            last: None,
        }
    }

    /// What is known of the reading that failed last, where one did.
    pub fn last_fault(&self) -> Option<&Fault> {
        self.last.as_ref()
    }

    // Notes a reading that was refused.
    fn note(&mut self, alloc: Global, name: &str, refusal: Option<Refusal>)
        ensures { self.new.faults ≡ self.old.faults }
    {
        if let Some(refusal) = refusal {
            self.last = Some(Fault {
                call: FailedCall::Read,
                path: String::from_str(alloc, name).ok(),
                why: refusal.why,
            });
        }
    }
}

// At most the first `limit` bytes of a file.
fn read_front<R: Files>(alloc: Global, rt: &R, path: &str, limit: usize) -> Result<Bytes, HostErr> {
    // Who opens a pipe may wait for ever; it, a device and a folder are no inputs.
    if !rt.metadata(path)?.is_file() {
        return Err(refused(Why::OfAnotherKind));
    }
    let mut file = fs::open(rt, path)?;
    let mut all = Vec::new(alloc);
    let mut piece = [0u8; 4096];
    for _ in 0..limit {
        let most = piece.len().min(limit.saturating_sub(all.len()));
        if most == 0 {
            break;
        }
        let count = file.read(&mut piece[..most])?;
        if count == 0 {
            break;
        }
        all.extend_from_slice(&piece[..count])?;
    }
    Ok(Bytes::from_vec(all))
}

impl<R: Files + Drop> Inputs for HostInputs<R> {
    ghost shown = { λ h. record { told = None; faults = h.faults } };

    fn read(&mut self, alloc: Global, name: &Name, limit: u32) -> Result<Bytes, OutsideErr> {
        let answer = read_front(alloc, &self.rt, name.as_str(), limit as usize);
        self.note(alloc, name.as_str(), refusal_of(&answer));
        counted(&mut self.faults, answer)
    }
}
