// Where lines are put.
ghost use Rattle.std.specs.Prelude.{◌≡◌, ℕ, List, [], take, length, IfOk, IsErrOf};
ghost use Rattle.cfa_base.specs.Shown.{Shown, Follows};
ghost use Rattle.cfa_outside.specs.Answered.{Answered};
ghost use Rattle.cfa_outside.specs.Sinks.{TakesSome, adds_bytes};

use crate::OutsideErr;

/// A place where bytes are put one after another, such as standard output.
pub trait Sink {
    /// The bytes so far, where the object tells them, and how often a put failed, as a number below 2 ^ 64 that stands
    /// still at its end.
    ghost shown: { Self → Shown (List ℕ) };

    /// Adds first bytes of the piece, and answers how many: at least one, unless the piece is empty. `Failed` adds
    /// nothing. An empty piece always gets 0. It never answers want of memory.
    fn put(&mut self, bytes: &[u8]) -> Result<usize, OutsideErr>
        ensures taken { IfOk result (λ count. TakesSome (length bytes.now) count) }
        ensures shown { Answered (λ count. Follows (adds_bytes (take count bytes.now))) (λ put. put)
            (shown self.old) (shown self.new) result }
        ensures no_memory { IsErrOf result OutsideErr.NoMemory → ⊥ }
        ensures empty { bytes.now ≡ [] → result ≡ Ok 0 };
}
