//! What a promise resolves to in a view of variables and classes: its instances with their work, and why it did nothing.
#![tactic(auto)]

mod classes;
mod combinations;
mod copies;
mod editing;
mod fields;
mod files;
mod instances;
mod keys;
mod laws;
mod making;
mod permissions;
mod reached;
mod resolving;
mod services;
mod values;

pub use cfa_scripts::Unsettled;
pub use copies::{copy_datum, copy_id};
pub use instances::{Acts, FoundPromise, Instance, ResolveErr, Resolved, View, Work};
pub use laws::{instances_are_few, instances_are_named};
pub use resolving::{is_acting, resolve, resolve_promise};
