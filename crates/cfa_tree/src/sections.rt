// Sections of bundles.
use crate::Promises;
use cfa_base::{Name, Place};

/// The promises of one type, with the place of the type's word.
#[derive(Drop)]
pub struct Section {
    pub kind: Name,
    pub promises: Promises,
    pub place: Place,
}
