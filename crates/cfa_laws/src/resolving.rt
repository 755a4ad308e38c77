// What promises resolve to.
ghost use Rattle.cfa_laws.specs.Sources.{UnsettledAreMaybe};
ghost use Rattle.cfa_laws.specs.Statuses.{InstancesAreSame};

/// Where statuses lie together and nothing is unsettled in its edit bundle, a promise resolves to the same instances.
pub fn instances_are_same()
    ensures { InstancesAreSame }
{}

/// What is unsettled in an edit bundle goes back to a global class that may be set or not.
pub fn unsettled_are_maybe()
    ensures { UnsettledAreMaybe }
{}
