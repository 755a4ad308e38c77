// Promises whose guards may hold or not.
use cfa_base::{Name, PromiseId};

/// A promise of an edit bundle whose guard may hold or not.
#[derive(Drop)]
pub struct Unsettled {
    pub promise: PromiseId,
    /// The first class of its guard that may be set or not.
    pub class: Name,
    /// That class where it is global, else the global class that it goes back to.
    pub origin: Name,
}
