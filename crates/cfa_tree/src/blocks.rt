// Blocks: bundles and bodies.
use crate::{Attribute, Section};
use cfa_base::{Name, Parts, Place};

/// A word, with its place.
#[derive(Drop)]
pub struct Named {
    pub name: Name,
    pub place: Place,
}

/// `bundle KIND NAME(PARAMS) { SECTIONS }`, with the place of its first word.
#[derive(Drop)]
pub struct Bundle {
    pub kind: Named,
    pub name: Named,
    pub params: Parts<Named>,
    pub sections: Parts<Section>,
    pub place: Place,
}

/// `body KIND NAME(PARAMS) { ATTRIBUTES }`, with the place of its first word.
#[derive(Drop)]
pub struct Body {
    pub kind: Named,
    pub name: Named,
    pub params: Parts<Named>,
    pub attributes: Parts<Attribute>,
    pub place: Place,
}

#[derive(Drop)]
pub enum Block {
    Bundle(Bundle),
    Body(Body),
}

/// A policy, or one file of it.
#[derive(Drop)]
pub struct Policy {
    pub blocks: Parts<Block>,
}
