// Standard output as a sink.
ghost use Rattle.std.specs.Prelude.{None, IfOk, length};
ghost use Rattle.cfa_outside.specs.Sinks.{TakesSome};

use crate::errors::Why;
use crate::faults::{FailedCall, Fault};
use cfa_outside::{OutsideErr, Sink};
use std::io;
use std::io::Write;

/// Standard output as a sink. It tells nothing of what was put.
#[derive(Drop)]
pub struct HostSink<R> {
    rt: R,
    faults: u64,
    last: Option<Fault>,
}

impl<R: Drop> HostSink<R> {
    /// The standard output of the runtime, without taking memory.
    pub fn new(rt: R) -> HostSink<R> {
        HostSink {
            rt,
            faults: 0,
            last: None,
        }
    }

    /// What is known of the put that failed last, where one did.
    pub fn last_fault(&self) -> Option<&Fault> {
        self.last.as_ref()
    }
}

// How many bytes were put, where some were, or else the number of the system's error.
fn write_some<R: Print>(rt: &R, bytes: &[u8]) -> Result<usize, i32>
    ensures { IfOk result (λ count. TakesSome (length bytes.now) count) }
{
    let count = match io::writer(rt).write(bytes) {
        Ok(count) => count,
        Err(error) => return Err(error.raw_os_error().unwrap_or(0)),
    };
    if count == 0 && !bytes.is_empty() {
        return Err(0);
    }
    Ok(count)
}

impl<R: Print + Drop> Sink for HostSink<R> {
    ghost shown = { λ h. record { told = None; faults = h.faults } };

    fn put(&mut self, bytes: &[u8]) -> Result<usize, OutsideErr> {
        if bytes.is_empty() {
            return Ok(0);
        }
        match write_some(&self.rt, bytes) {
            Ok(count) => Ok(count),
            Err(error) => {
                self.last = Some(Fault {
                    call: FailedCall::Put,
                    path: None,
                    why: Why::System(error),
                });
                self.faults = self.faults.saturating_add(1);
                Err(OutsideErr::Failed)
            }
        }
    }
}
