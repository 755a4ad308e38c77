// Which instances are live.
ghost use Rattle.std.specs.Prelude.{◌≡◌, ◌&&◌, IfOk, is_some, length};
ghost use Rattle.std.specs.List.{filter};
ghost use Rattle.cfa_base.specs.Index.{pair_place_of};
ghost use Rattle.cfa_resolve.specs.declared.instances.Instance.{Instance};
ghost use Rattle.cfa_states.specs.Names.{name_of};
ghost use Rattle.cfa_conflict.specs.Conflicts.{has_acts, live_instances};

use crate::pairs::has_acts;
use cfa_base::{NoMemory, PairIndex};
use cfa_resolve::Instance;
use cfa_walk::Walk;

/// Whether the instance has acts and one of these names.
pub(crate) fn is_live(names: &PairIndex<'_>, instance: &Instance) -> bool
    ensures { result ≡ (has_acts instance.now.work
        && is_some (pair_place_of names.now (name_of instance.now))) }
{
    has_acts(&instance.work)
        && names
            .find(instance.path.as_str(), instance.text.as_str())
            .is_some()
}

fn with_acts(instances: &[Instance]) -> usize
    ensures { result ≡ length (filter (λ (i : Instance). has_acts i.work) instances.now) }
{
    let mut count = 0;
    for instance in instances {
        if has_acts(&instance.work) {
            count += 1;
        }
    }
    count
}

/// How many instances of a walk have acts. The walk of a policy has at most `MOST_VISITS` of them, so only a walk made by hand
/// has too many.
pub(crate) fn live_instances(kept: &Walk) -> Result<u32, NoMemory>
    ensures { IfOk result (λ count. count ≡ live_instances kept.now) }
{
    match u32::try_from(with_acts(kept.instances.as_slice())) {
        Ok(count) => Ok(count),
        Err(_) => Err(NoMemory),
    }
}
