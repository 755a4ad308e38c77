// The first clash of a script.
ghost use Rattle.std.specs.Prelude.{◌≡◌, ℕ, ◌+◌, ◌<◌, ◌≤◌, ◌^◌, None, false, length, All, IfOk};
ghost use Rattle.std.specs.List.{AllWithin};
ghost use Rattle.cfa_edits.specs.Scripts.{IsEdit, AreEdits};
ghost use Rattle.cfa_edit_proof.specs.Quiet.{IsFirstClash, Settles};
ghost use Rattle.cfa_edit_proof.specs.Decisions.{NeverUnsettled};
ghost use Rattle.cfa_edit_proof.specs.Steps.{is_replace, IsFirstOf};

use crate::Clash;
use crate::laws::{have_texts, quiet_never_fails, quiet_settles};
use crate::pairs::{clashes_alone, rule_between};
use crate::search::{first_clashing, first_replace};
use cfa_base::NoMemory;
use cfa_edits::{Edit, Script};
use std::alloc::Global;

/// The least clash of a script, by the number of its first edit, then of its second, then of the rule; `None` where the
/// script is quiet.
pub fn quiet(alloc: Global, script: &Script) -> Result<Option<Clash>, NoMemory>
    requires { length script.now < 2 ^ 32 }
    ensures least { IfOk result (IsFirstClash script.now) }
    ensures settles { IfOk result (λ found. found ≡ None → Settles script.now) }
    ensures decided { IfOk result (λ found. found ≡ None → NeverUnsettled script.now) }
{
    let edits = script.edits();
    let replaces = first_replace(edits);
    for place in 0..edits.len() {
        if let Some(clash) = first_of(alloc, edits, place, replaces)? {
            return Ok(Some(clash));
        }
    }
    have_texts(edits);
    quiet_settles();
    quiet_never_fails();
    Ok(None)
}

// The least of the clashes whose first edit stands at this place.
fn first_of(
    alloc: Global,
    edits: &[Edit],
    place: usize,
    replaces: usize,
) -> Result<Option<Clash>, NoMemory>
    requires edits { AreEdits edits.now }
    requires few { length edits.now < 2 ^ 32 }
    requires within { place < length edits.now }
    requires replaces { AllWithin (λ edit. is_replace edit ≡ false) edits.now 0 replaces }
    requires inside { replaces ≤ length edits.now }
    ensures { IfOk result (IsFirstOf edits.now (place + 1)) }
{
    let edit = &edits[place];
    let number = place as u32 + 1;
    if clashes_alone(alloc, edit)? {
        return Ok(Some(Clash {
            first: number,
            second: number,
            rule: 1,
        }));
    }
    let Some(second) = first_clashing(alloc, edit, edits, place + 1, replaces)? else {
        return Ok(None);
    };
    Ok(Some(Clash {
        first: number,
        second: second as u32 + 1,
        rule: rule_between(edit, &edits[second]),
    }))
}
