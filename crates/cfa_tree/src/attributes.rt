// Attributes of promises and bodies.
use crate::Value;
use cfa_base::{Name, Place};

/// `NAME => VALUE`, with the place of its name.
#[derive(Drop)]
pub struct Attribute {
    pub name: Name,
    pub value: Value,
    pub place: Place,
}
