// An activation's promise.
use cfa_base::{Name, PromiseId};
use cfa_kinds::PromiseType;
use cfa_schema::Checked;
use cfa_statuses::Statuses;
use cfa_tree::Promise;
use cfa_vars::Scopes;

/// An activation's promise, with what it is resolved in.
#[derive(Clone, Copy)]
pub(crate) struct Reached<'a> {
    pub checked: &'a Checked,
    pub id: &'a PromiseId,
    pub promise_type: PromiseType,
    pub promise: &'a Promise,
    pub scopes: Scopes<'a>,
    pub statuses: &'a Statuses,
    pub path: &'a Name,
}
