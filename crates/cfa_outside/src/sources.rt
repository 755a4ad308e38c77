// Where policies and journals are read from.
ghost use Rattle.std.specs.Prelude.{◌≡◌, Some, option_map, take, IfOk, IfSome};
ghost use Rattle.cfa_base.specs.Shown.{Shown, Untouched};
ghost use Rattle.cfa_outside.specs.Answered.{Answered};
ghost use Rattle.cfa_outside.specs.Inputs.{Library, text_of, fails};

use crate::OutsideErr;
use cfa_base::{Bytes, Name};
use std::alloc::Global;

/// Texts that are read by their names. No reading changes them.
pub trait Inputs {
    /// The texts and the names whose reading failed, where the object tells them, and how often a reading failed, as a
    /// number below 2 ^ 64 that stands still at its end.
    ghost shown: { Self → Shown Library };

    /// The first bytes of the text of that name, at most `limit`. `Failed` adds the name to those whose reading
    /// failed; a missing name is one cause of it.
    fn read(&mut self, alloc: Global, name: &Name, limit: u32) -> Result<Bytes, OutsideErr>
        ensures answer { IfOk result (λ bytes. IfSome (shown self.old).told
            (λ t. option_map (take limit) (text_of t.texts name.now) ≡ Some bytes)) }
        ensures shown { Answered (λ _. Untouched) (fails name.now)
            (shown self.old) (shown self.new) result };
}
