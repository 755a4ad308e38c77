// Policies that were checked.
ghost use Rattle.std.specs.Prelude.{◌≡◌, IfOk, map, option_map};
ghost use Rattle.std.proofs.Props.{props};
ghost use Rattle.cfa_tree.specs.Plain.{plain_block, plain_policy, plain_promise};
ghost use Rattle.cfa_calls.specs.Cycles.{NoneOnCycle};
ghost use Rattle.cfa_served.specs.Checked.{promise_ids_of, promise_of, typed_promise_of};
ghost use Rattle.cfa_served.specs.Control.{sequence_of};
ghost use Rattle.cfa_served.specs.Indexed.{IsIndex};
ghost use Rattle.cfa_served.specs.Served.{body_of, bundle_of, common_bundles_of, minutes_of};
ghost use Rattle.cfa_schema.specs.Sourced.{IsSourced};
ghost use Rattle.cfa_schema.specs.Valid.{Valid, calls_of};

use cfa_base::{Names, NoMemory, PromiseId};
use cfa_kinds::{BodyType, PromiseType};
use cfa_served::{
    Index, agent_minutes, common_bundles, find_promise, find_typed_promise, list_ids,
    sequence_names,
};
use cfa_tree::{Block, Body, Bundle, Policy, Promise};
use std::alloc::Global;

/// A policy that is valid, with its bundles and bodies by their names, and the minutes that it gives for all promises, which
/// each of them asks for. Only `check` makes one.
#[derive(Drop)]
pub struct Checked {
    policy: Policy,
    index: Index,
    minutes: u64,
    ghost valid: { ∥ Valid (plain_policy policy) × IsSourced (plain_policy policy) ∥₁ },
    ghost indexed: { IsIndex index (plain_policy policy) } by { Prim.hlevel props },
    ghost timed: { minutes ≡ minutes_of (plain_policy policy) },
}

impl Checked {
    ghost use Rattle.cfa_schema.specs.Seen.{tree_of};

    pub(crate) fn new(policy: Policy, index: Index) -> Checked
        requires valid { Valid (plain_policy policy) }
        requires sourced { IsSourced (plain_policy policy) }
        requires indexed { IsIndex index (plain_policy policy) }
        ensures { tree_of result ≡ plain_policy policy }
    {
        let control = index.body(policy.blocks.as_slice(), BodyType::Agent, "control");
        let minutes = agent_minutes(control);
        Checked {
            policy,
            index,
            minutes,
        }
    }

    /// The policy, without taking memory.
    pub fn policy(&self) -> &Policy
        ensures plain { plain_policy result.now ≡ tree_of self.now }
        ensures valid { ∥ Valid (tree_of self.now) ∥₁ }
        ensures sourced { ∥ IsSourced (tree_of self.now) ∥₁ }
        ensures acyclic { NoneOnCycle (calls_of (tree_of self.now)) }
    {
        &self.policy
    }

    /// The promise that an id names, without taking memory. `None` where there is none: the bundle isn't defined, it has
    /// fewer promises, or the promiser stands on another line. It takes a logarithm of the bundles and the sections of
    /// one.
    pub fn promise(&self, id: &PromiseId) -> Option<&Promise>
        ensures { option_map (λ p. plain_promise p.now) result
            ≡ promise_of (tree_of self.now) id.now }
    {
        find_promise(&self.index, &self.policy, id)
    }

    /// The same promise with its type. `None` also where that isn't one of the profile, as no valid policy has it.
    pub fn typed_promise(&self, id: &PromiseId) -> Option<(PromiseType, &Promise)>
        ensures { option_map (λ found. (found.0, plain_promise found.1.now)) result
            ≡ typed_promise_of (tree_of self.now) id.now }
    {
        find_typed_promise(&self.index, &self.policy, id)
    }

    /// The ids of all promises, in text order.
    pub fn promise_ids(&self, alloc: Global) -> Result<Vec<PromiseId>, NoMemory>
        ensures { IfOk result (λ ids. ids.items ≡ promise_ids_of (tree_of self.now)) }
    {
        list_ids(alloc, self.policy.blocks.as_slice())
    }

    /// The bundle of a name, without taking memory, by a logarithm of comparisons.
    pub fn bundle(&self, name: &str) -> Option<&Bundle>
        ensures { option_map (λ bundle. plain_block (Block.Bundle bundle.now)) result
            ≡ bundle_of (tree_of self.now) name.now }
    {
        self.index.bundle(self.policy.blocks.as_slice(), name)
    }

    /// The body of a type and name, without taking memory, by a logarithm of comparisons.
    pub fn body(&self, body_type: BodyType, name: &str) -> Option<&Body>
        ensures { option_map (λ body. plain_block (Block.Body body.now)) result
            ≡ body_of (tree_of self.now) body_type name.now }
    {
        self.index
            .body(self.policy.blocks.as_slice(), body_type, name)
    }

    /// The names of the bundles that are activated, in order: those of the bundlesequence, else `main`.
    pub fn sequence(&self, alloc: Global) -> Result<Names, NoMemory>
        ensures { IfOk result (λ names. names ≡ sequence_of (tree_of self.now)) }
    {
        sequence_names(alloc, &self.policy)
    }

    /// The common bundles, in text order.
    pub fn common_bundles(&self, alloc: Global) -> Result<Vec<&Bundle>, NoMemory>
        ensures { IfOk result
            (λ bundles. map (λ bundle. plain_block (Block.Bundle bundle.now)) bundles.items
            ≡ common_bundles_of (tree_of self.now)) }
    {
        common_bundles(alloc, self.policy.blocks.as_slice())
    }

    /// The minutes that `body agent control` gives for all promises, 1 where they are missing; without taking memory.
    pub fn minutes(&self) -> u64
        ensures { result ≡ minutes_of (tree_of self.now) }
    {
        self.minutes
    }
}
