// What classes promises raise.
ghost use Rattle.cfa_laws.specs.Sources.{RaisesHaveFirst};
ghost use Rattle.cfa_laws.specs.Statuses.{RaisesLieTogether};

/// Where statuses lie together, so do those to which a classes promise raises.
pub fn raises_lie_together()
    ensures { RaisesLieTogether }
{}

/// A class that is raised to Maybe waits for a class that may be set or not.
pub fn raises_have_first()
    ensures { RaisesHaveFirst }
{}
