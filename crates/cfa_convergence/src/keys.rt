// What tells instances apart.
ghost use Rattle.cfa_convergence.specs.Keys.{KeysTellWorks};

use cfa_edits::texts_tell_scripts;

/// Instances with equal key texts have the same acts, or are both calls, or both reports.
pub fn keys_tell_works()
    ensures { KeysTellWorks }
{
    texts_tell_scripts();
}
