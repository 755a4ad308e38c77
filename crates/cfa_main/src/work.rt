// The work that a call is asked for.
use cfa_base::Name;
use cfa_schema::Checked;
use cfa_walk::Context;

/// A valid policy with the classes that are set from the start.
#[derive(Drop)]
pub struct PolicyInContext {
    pub checked: Checked,
    /// The classes of the calendar, and then those that are handed in.
    pub context: Context,
}

/// A valid policy that is run.
#[derive(Drop)]
pub struct PolicyRun {
    pub policy: PolicyInContext,
    /// Whether locks count.
    pub locks: bool,
    /// Whether it is run only where it is accepted.
    pub strict: bool,
}

/// What is to be done once the words and the moment of a call are taken, and what its words name.
#[derive(Drop)]
pub enum Work {
    /// This policy is run.
    Run(PolicyRun),
    /// This policy is judged.
    Judge(PolicyInContext),
    /// The edits of this policy are searched for clashes.
    Search(PolicyInContext),
    /// This text is shown: that of a policy, of an audit or of a history.
    Show(Name),
}
