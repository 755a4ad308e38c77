// What a run is determined by.
ghost use Rattle.cfa_convergence.specs.Told.{RunsAreDetermined, RunsAreTold};

/// A run is determined by what is told of its instances.
pub fn runs_are_determined()
    ensures { RunsAreDetermined }
{}

/// What a run was told of its instances is what its teller tells.
pub fn runs_are_told()
    ensures { RunsAreTold }
{}
