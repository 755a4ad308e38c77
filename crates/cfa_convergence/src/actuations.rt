// What a run actuates.
ghost use Rattle.cfa_convergence.specs.Keyed.{ActuationsAreKeyed};

use cfa_laws::instances_are_keyed;

/// The instances that a run actuates have key texts.
pub fn actuations_are_keyed()
    ensures { ActuationsAreKeyed }
{
    instances_are_keyed();
}
