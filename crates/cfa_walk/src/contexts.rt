// What a policy is run in.
use cfa_base::Names;

/// The classes that are set from the start: those of the calendar, and those that are handed in.
#[derive(Drop)]
pub struct Context {
    pub classes: Names,
}
