// Objects of the outside that never fail: the text of one name, a builder that builds nothing, and a sink that keeps
// nothing.
ghost use Rattle.std.specs.Prelude.{◌≡◌, [], ◌∷◌, None};

use cfa_base::{Bytes, How, Name, Pattern, PatternErr, Patterns};
use cfa_outside::{Inputs, OutsideErr, Sink};
use std::alloc::Global;

/// One text with its name. No reading of it fails: that of another name is answered with want of memory.
#[derive(Drop)]
pub struct OneText {
    pub name: Name,
    pub text: Name,
}

impl Inputs for OneText {
    ghost use Rattle.std.specs.Prelude.{[], ◌∷◌, Some};
    ghost use Rattle.cfa_outside.specs.Inputs.{Library};

    ghost shown = { λ one. record {
      told = Some (record { texts = (one.name, one.text) ∷ []; failed = [] });
      faults = 0;
    } };

    fn read(&mut self, alloc: Global, name: &Name, limit: u32) -> Result<Bytes, OutsideErr> {
        if name.as_str() != self.name.as_str() {
            return Err(OutsideErr::NoMemory);
        }
        let bytes = self.text.as_str().as_bytes();
        let limit = limit as usize;
        if limit < bytes.len() {
            Ok(Bytes::from_slice(alloc, &bytes[..limit])?)
        } else {
            Ok(Bytes::from_slice(alloc, bytes)?)
        }
    }
}

/// A builder of patterns that builds none: it is always out of memory.
#[derive(Clone, Copy, Debug)]
pub struct NoPatterns {}

impl Patterns for NoPatterns {
    ghost use Rattle.std.specs.Prelude.{[], Some};

    ghost shown = { λ _. record { told = Some []; faults = 0 } };

    fn build(&mut self, _: Global, _: &Name, _: How) -> Result<Pattern, PatternErr> {
        Err(PatternErr::NoMemory)
    }
}

/// A sink that takes all that is put, and keeps and tells nothing of it.
#[derive(Clone, Copy, Debug)]
pub struct Nowhere {}

impl Sink for Nowhere {
    ghost use Rattle.std.specs.Prelude.{None};

    ghost shown = { λ _. record { told = None; faults = 0 } };

    fn put(&mut self, bytes: &[u8]) -> Result<usize, OutsideErr> {
        Ok(bytes.len())
    }
}
