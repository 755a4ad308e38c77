// The check of a policy, and its first refusal.
ghost use Rattle.std.specs.Prelude.{◌≡◌, IfOk, IsErrOf, OnOk, IfSome, IfNone, IsTrue, None, Some, if◌then◌else◌};
ghost use Rattle.cfa_base.specs.Lexing.{first_place};
ghost use Rattle.cfa_base.specs.Patterns.{SizeRefusal};
ghost use Rattle.cfa_tree.specs.Plain.{plain_policy};
ghost use Rattle.cfa_schema.specs.Defined.{definitions_of, has_sequence};
ghost use Rattle.cfa_schema.specs.Collected.{NotesCycle};
ghost use Rattle.cfa_values.specs.Refusals.{refusal};
ghost use Rattle.cfa_schema.specs.Valid.{NoneApplies, IsFirst, FirstRefusal, IsRefusedForSize, Valid, calls_of};
ghost use Rattle.cfa_schema.specs.Errors.{refused_for_size};
ghost use Rattle.cfa_schema.specs.Seen.{tree_of};
ghost use Rattle.cfa_schema.specs.Sourced.{IsSourced};
ghost use Rattle.cfa_values.specs.declared.refusals.Refusal.{Refusal};

use crate::bundle_calls::calls_of;
use crate::checked::Checked;
use crate::definitions::{define, has_sequence};
use crate::errors::SchemaErr;
use crate::patterns::check_patterns;
use crate::policies::note_table;
use cfa_base::{NoMemory, Patterns, Place};
use cfa_calls::first_on_cycle;
use cfa_served::Index;
use cfa_tree::Policy;
use cfa_values::{Code, Definitions, Refusal, note_if};
use std::alloc::Global;

// Notes the first call that lies on a cycle.
fn note_cycle(alloc: Global, policy: &Policy, first: &mut Option<Refusal>) -> Result<(), NoMemory>
    ensures { OnOk result (NotesCycle (calls_of (plain_policy policy.now)) first.old first.new) }
{
    let calls = calls_of(alloc, policy)?;
    match first_on_cycle(alloc, &calls)? {
        Some(place) => note_if(first, true, Code::CallCycle, place),
        None => {}
    }
    Ok(())
}

// The first refusal by a line of the table that speaks of a place.
fn table_refusal(
    alloc: Global,
    policy: &Policy,
    definitions: &Definitions<'_>,
) -> Result<Option<Refusal>, NoMemory>
    requires { definitions.now ≡ definitions_of (plain_policy policy.now) }
    ensures some { IfOk result (λ first. IfSome first (IsFirst (plain_policy policy.now))) }
    ensures none { IfOk result (λ first. IfNone first (NoneApplies (plain_policy policy.now))) }
{
    let mut first = None;
    note_table(alloc, policy, definitions, &mut first)?;
    note_cycle(alloc, policy, &mut first)?;
    Ok(first)
}

// The refusal of a policy that has no sequence.
fn sequence_refusal(has_sequence: bool) -> Option<Refusal>
    ensures { result ≡ (if has_sequence then None else Some
        (refusal Code.NoSequence (first_place 0))) }
{
    if has_sequence {
        return None;
    }
    Some(Refusal {
        code: Code::NoSequence,
        place: Place {
            file: 0,
            line: 1,
            col: 1,
        },
    })
}

/// The first refusal of a policy but for its patterns.
pub(crate) fn first_refusal(alloc: Global, policy: &Policy) -> Result<Option<Refusal>, NoMemory>
    ensures some { IfOk result (λ first. IfSome first (FirstRefusal (plain_policy policy.now))) }
    ensures none { IfOk result (λ first. IfNone first
        (NoneApplies (plain_policy policy.now) × IsTrue (has_sequence (plain_policy policy.now)))) }
{
    let definitions = define(alloc, policy)?;
    match table_refusal(alloc, policy, &definitions)? {
        Some(refusal) => Ok(Some(refusal)),
        None => Ok(sequence_refusal(has_sequence(policy, &definitions))),
    }
}

/// Checks a policy that was read from its files. `Refused` has its first refusal: of those with the codes 1 to 9, 11 and 12
/// the first in the order of places, and of one place the one of the lowest code; where there is none of these, 10; else 13.
/// `PatternTooBig` has a text that the builder refused for its size; patterns are built in text order once nothing else is
/// refused. The policy is consumed.
pub fn check<P: Patterns>(alloc: Global, policy: Policy, pats: &mut P) -> Result<Checked, SchemaErr>
    requires { IsSourced (plain_policy policy) }

    ensures checked { IfOk result (λ c. tree_of c ≡ plain_policy policy) }
    ensures valid { OnOk result (Valid (plain_policy policy)) }
    ensures refused { (r : Refusal) → IsErrOf result (SchemaErr.Refused r)
        → FirstRefusal (plain_policy policy) r }
    ensures shown { SizeRefusal (IsRefusedForSize (plain_policy policy)) (refused_for_size result)
        (P.shown pats.old) (P.shown pats.new) }
{
    if let Some(refusal) = first_refusal(alloc, &policy)? {
        return Err(SchemaErr::Refused(refusal));
    }
    let index = Index::new(alloc, policy.blocks.as_slice())?;
    check_patterns(alloc, &policy, pats)?;
    Ok(Checked::new(policy, index))
}
