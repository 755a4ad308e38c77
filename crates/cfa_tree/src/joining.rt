// The joining of policies.
ghost use Rattle.std.specs.Prelude.{◌≡◌, IfOk};
ghost use Rattle.std.specs.List.{flat_map};
ghost use Rattle.cfa_tree.specs.Plain.{plain_policy};

use crate::Policy;
use cfa_base::{NoMemory, Parts};
use std::alloc::Global;

/// One policy of several, as of its files: the blocks of the first, then those of the next, and so on.
pub fn join(alloc: Global, parts: Vec<Policy>) -> Result<Policy, NoMemory>
    ensures { IfOk result (λ p. plain_policy p ≡ flat_map plain_policy parts.items) }
{
    let mut blocks = Vec::new(alloc);
    for part in parts {
        blocks.extend(part.blocks.into_vec())?;
    }
    Ok(Policy {
        blocks: Parts::from_vec(blocks),
    })
}
