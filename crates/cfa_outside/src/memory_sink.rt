// A sink in memory.
ghost use Rattle.std.specs.Prelude.{◌≡◌, ◌≤◌, ◌-◌, min, [], take, length, IfOk, IsErrOf, vec_capacity};

use crate::turns::Turns;
use crate::{OutsideErr, Sink};
use cfa_base::NoMemory;
use std::alloc::Global;

/// A sink in memory that holds so many bytes. Puts are numbered from 1.
#[derive(Debug, Drop)]
pub struct MemorySink {
    bytes: Vec<u8>,
    space: usize,
    turns: Turns,
    ghost room: { space ≤ vec_capacity bytes },
}

impl MemorySink {
    ghost use Rattle.cfa_outside.specs.MemorySink.{bytes_of, space_of, turns_of};
    ghost use Rattle.cfa_outside.specs.Turns.{no_calls};

    /// A sink that holds `space` bytes, taken now, whose puts of the listed numbers fail.
    pub fn new(alloc: Global, space: usize, refuse: Vec<u32>) -> Result<MemorySink, NoMemory>
        ensures bytes { IfOk result (λ sink. bytes_of sink ≡ []) }
        ensures space { IfOk result (λ sink. space_of sink ≡ space) }
        ensures turns { IfOk result (λ sink. turns_of sink ≡ no_calls refuse.items) }
    {
        Ok(MemorySink {
            bytes: Vec::with_capacity(alloc, space)?,
            space,
            turns: Turns::new(refuse),
        })
    }

    /// The bytes so far, without taking memory.
    pub fn bytes(&self) -> &[u8]
        ensures { result.now ≡ bytes_of self.now }
    {
        self.bytes.as_slice()
    }
}

impl Sink for MemorySink {
    ghost use Rattle.cfa_base.specs.Shown.{Follows};
    ghost use Rattle.cfa_outside.specs.Answered.{Answered};
    ghost use Rattle.cfa_outside.specs.Sinks.{TakesSome, adds_bytes};
    ghost use Rattle.cfa_outside.specs.MemorySink.{bytes_of, space_of, turns_of, shown_of, fails_next};
    ghost use Rattle.cfa_outside.specs.Turns.{TakesTurn};

    ghost shown = { shown_of };

    fn put(&mut self, bytes: &[u8]) -> Result<usize, OutsideErr>
        ensures taken { IfOk result (λ count. TakesSome (length bytes.now) count) }
        ensures shown { Answered (λ count. Follows (adds_bytes (take count bytes.now))) (λ put. put)
            (shown_of self.old) (shown_of self.new) result }
        ensures no_memory { IsErrOf result OutsideErr.NoMemory → ⊥ }
        ensures empty { bytes.now ≡ [] → result ≡ Ok 0 }
        ensures turn { TakesTurn (fails_next self.old (length bytes.now))
            (turns_of self.old) (turns_of self.new) result }
        ensures space { space_of self.new ≡ space_of self.old }
        ensures fits { IfOk result (λ count.
            count ≡ min (length bytes.now) (space_of self.old - length (bytes_of self.old))) }
    {
        let is_listed = self.turns.take();
        if bytes.is_empty() {
            return Ok(0);
        }
        if is_listed || self.bytes.len() >= self.space {
            self.turns.fail();
            return Err(OutsideErr::Failed);
        }
        let count = bytes.len().min(self.space - self.bytes.len());
        self.bytes.extend_from_slice(&bytes[..count]).unwrap();
        Ok(count)
    }
}
