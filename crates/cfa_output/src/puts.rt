// The putting of bytes.
ghost use Rattle.std.specs.Prelude.{OnOk, OnErr};
ghost use Rattle.cfa_base.specs.Shown.{Follows};
ghost use Rattle.cfa_outside.specs.Sinks.{adds_bytes};
ghost use Rattle.cfa_output.specs.Puts.{PutsShort};

use cfa_outside::Sink;
use thiserror::Error;

/// A put on the sink failed.
#[derive(Clone, Copy, Debug, PartialEq, Eq, Error)]
#[error("the sink failed")]
pub struct SinkFailed;

/// Puts all of the bytes, piece by piece, until the sink has them or fails. Where it fails, a first part of them was put,
/// which isn't all.
pub fn put_all<O: Sink>(out: &mut O, bytes: &[u8]) -> Result<(), SinkFailed>
    ensures ok { OnOk result (Follows (adds_bytes bytes.now) (O.shown out.old) (O.shown out.new)) }
    ensures failed { OnErr result (PutsShort bytes.now (O.shown out.old) (O.shown out.new)) }
{
    let mut count = 0;
    while count < bytes.len() {
        match out.put(&bytes[count..]) {
            Ok(more) => count += more,
            Err(_) => return Err(SinkFailed),
        }
    }
    Ok(())
}
