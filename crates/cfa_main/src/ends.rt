// The ends of a call, and their statuses.
ghost use Rattle.std.specs.Prelude.{◌≡◌};
ghost use Rattle.cfa_output.specs.Lines.{stop_line};
ghost use Rattle.cfa_main.specs.Done.{status_of};
ghost use Rattle.cfa_main.specs.Stages.{PutsEnd, PutsStop, PutsFailure, status_of_stop};

use cfa_output::{Failure, Object, Stop, put_all};
use cfa_outside::Sink;

/// How the work of a call ended.
#[derive(Clone, Copy, Debug, PartialEq, Eq)]
pub enum End {
    /// It came to its end.
    Ended,
    /// It came to its end, and a promise failed.
    PromiseFailed,
    /// Two promises of the policy are in conflict, or edits of a script clash.
    InConflict,
}

const REFUSED: u8 = 1;

/// The status of an end.
pub fn end_status(end: End) -> u8
    ensures { result ≡ status_of end }
{
    match end {
        End::Ended => 0,
        End::PromiseFailed => 2,
        End::InConflict => 3,
    }
}

/// The status of a stop.
pub fn stop_status(stop: &Stop) -> u8
    ensures { result ≡ status_of_stop stop.now }
{
    match stop {
        Stop::Outside(_) => 4,
        Stop::Memory => 5,
        Stop::Visits => 6,
        Stop::Pattern(_) => 6,
    }
}

// Puts the last line of a call, and answers its status, or that of a sink that failed.
fn put_last<O: Sink>(line: &str, status: u8, out: &mut O) -> u8
    ensures { PutsEnd line.now status (O.shown out.old) (O.shown out.new) result }
{
    match put_all(out, line.as_bytes()) {
        Ok(()) => status,
        Err(_) => stop_status(&Stop::Outside(Object::Sink)),
    }
}

/// Puts the line of a stop where it has one, and answers the status.
pub fn put_stop<O: Sink>(stop: &Stop, out: &mut O) -> u8
    ensures { PutsStop (stop_line stop.now) (status_of_stop stop.now)
        (O.shown out.old) (O.shown out.new) result }
{
    match stop.line() {
        Some(line) => put_last(line, stop_status(stop), out),
        None => stop_status(stop),
    }
}

/// Puts the line of a refusal or of a stop, and answers the status.
pub fn put_failure<O: Sink>(failure: &Failure, out: &mut O) -> u8
    ensures { PutsFailure failure.now (O.shown out.old) (O.shown out.new) result }
{
    match failure {
        Failure::Refused(line) => put_last(line.as_str(), REFUSED, out),
        Failure::Stopped(stop) => put_stop(stop, out),
    }
}
