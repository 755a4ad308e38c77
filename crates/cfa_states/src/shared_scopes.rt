// The scopes of the bundles whose variables may be referred to from everywhere.
ghost use Rattle.std.specs.Prelude.{◌≡◌, [], IfOk, map};
ghost use Rattle.cfa_schema.specs.Seen.{tree_of};
ghost use Rattle.cfa_served.specs.Served.{common_bundles_of};
ghost use Rattle.cfa_vars.specs.Shared.{begun_each};
ghost use Rattle.cfa_states.specs.Numbered.{name_of};
ghost use Rattle.cfa_states.specs.Views.{shared_names};

use cfa_base::NoMemory;
use cfa_schema::Checked;
use cfa_vars::SharedScopes;
use std::alloc::Global;

fn common_scopes(alloc: Global, checked: &Checked) -> Result<SharedScopes, NoMemory>
    ensures { IfOk result (λ scopes. scopes
        ≡ begun_each [] (map name_of (common_bundles_of (tree_of checked.now)))) }
{
    let bundles = checked.common_bundles(alloc)?;
    let mut scopes = SharedScopes::new(alloc);
    for bundle in bundles.as_slice() {
        scopes.begin(alloc, &bundle.name.name)?;
    }
    Ok(scopes)
}

/// The scopes of the common bundles and of those of the sequence, each once, in which nothing is set.
pub(crate) fn shared_scopes(alloc: Global, checked: &Checked) -> Result<SharedScopes, NoMemory>
    ensures { IfOk result (λ scopes. scopes
        ≡ map (λ name. (name, [])) (shared_names (tree_of checked.now))) }
{
    let mut scopes = common_scopes(alloc, checked)?;
    let sequence = checked.sequence(alloc)?;
    for name in sequence.as_slice() {
        scopes.begin(alloc, name)?;
    }
    Ok(scopes)
}
