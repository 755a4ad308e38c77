// Inputs in memory.
ghost use Rattle.std.specs.Prelude.{◌≡◌, [], Some, option_map, option_copied, take, IfOk};
ghost use Rattle.cfa_base.specs.Shown.{Untouched};
ghost use Rattle.cfa_outside.specs.Answered.{Answered};
ghost use Rattle.cfa_outside.specs.Inputs.{text_of, fails};
ghost use Rattle.cfa_outside.specs.MemoryInputs.{texts_of, failed_names, turns_of, shown_of, fails_next};
ghost use Rattle.cfa_outside.specs.Turns.{no_calls, TakesTurn};

use crate::turns::{Turns, note};
use crate::{Inputs, OutsideErr};
use cfa_base::{Bytes, Name, Names, NoMemory};
use std::alloc::Global;

/// Texts in memory, by name. Readings are numbered from 1.
#[derive(Debug, Drop)]
pub struct MemoryInputs {
    texts: Vec<(Name, Bytes)>,
    failed: Names,
    turns: Turns,
}

impl MemoryInputs {
    /// Inputs with these texts, whose readings of the listed numbers fail. Of two texts with one name the first
    /// stands.
    pub fn new(
        alloc: Global,
        texts: Vec<(Name, Bytes)>,
        refuse: Vec<u32>,
    ) -> Result<MemoryInputs, NoMemory>
        ensures texts { IfOk result (λ inputs. texts_of inputs ≡ texts.items) }
        ensures failed { IfOk result (λ inputs. failed_names inputs ≡ []) }
        ensures turns { IfOk result (λ inputs. turns_of inputs ≡ no_calls refuse.items) }
    {
        Ok(MemoryInputs {
            texts,
            failed: Names::new(alloc),
            turns: Turns::new(refuse),
        })
    }
}

fn find<'a>(texts: &'a [(Name, Bytes)], name: &str) -> Option<&'a Bytes>
    ensures { option_copied result ≡ text_of texts.now name.now }
{
    for text in texts {
        if name == text.0.as_str() {
            return Some(&text.1);
        }
    }
    None
}

fn first_bytes(bytes: &[u8], limit: u32) -> &[u8]
    ensures { result.now ≡ take limit bytes.now }
{
    let limit = limit as usize;
    if limit < bytes.len() {
        &bytes[..limit]
    } else {
        bytes
    }
}

impl Inputs for MemoryInputs {
    ghost shown = { shown_of };

    fn read(&mut self, alloc: Global, name: &Name, limit: u32) -> Result<Bytes, OutsideErr>
        ensures answer { IfOk result
            (λ bytes. option_map (take limit) (text_of (texts_of self.old) name.now) ≡ Some bytes) }
        ensures shown { Answered (λ _. Untouched) (fails name.now)
            (shown_of self.old) (shown_of self.new) result }
        ensures turn { TakesTurn (fails_next self.old name.now)
            (turns_of self.old) (turns_of self.new) result }
    {
        let is_listed = self.turns.take();
        match find(&self.texts, name.as_str()) {
            Some(bytes) if !is_listed => {
                Ok(Bytes::from_slice(alloc, first_bytes(bytes.as_slice(), limit))?)
            }
            _ => {
                note(alloc, &mut self.failed, name)?;
                self.turns.fail();
                Err(OutsideErr::Failed)
            }
        }
    }
}
