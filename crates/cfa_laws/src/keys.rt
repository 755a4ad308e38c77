// What key texts tell of instances.
ghost use Rattle.cfa_laws.specs.Keys.{InstancesAreKeyed, KeysAreLines};

/// The instances of a promise have the path of its activation, and the key texts of what they are.
pub fn instances_are_keyed()
    ensures { InstancesAreKeyed }
{}

/// The key text of an instance is one line, where its promise calls no bundle by a name with a newline.
pub fn keys_are_lines()
    ensures { KeysAreLines }
{}
