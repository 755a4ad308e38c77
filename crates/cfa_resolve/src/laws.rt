// Laws of resolution.
ghost use Rattle.cfa_resolve.specs.Laws.{InstancesAreNamed, InstancesAreFew};

/// The instances that a promise resolves to have the path of its activation and its id.
pub fn instances_are_named()
    ensures { InstancesAreNamed }
{}

/// The instances that a promise resolves to are no more than the visits that it counts.
pub fn instances_are_few()
    ensures { InstancesAreFew }
{}
