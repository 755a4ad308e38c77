// How far a walk of an edit bundle has come.
ghost use Rattle.std.specs.Prelude.{◌≡◌};
ghost use Rattle.cfa_scripts.specs.EditBundles.{walk_at_first};

use crate::blaming::Unsettled;
use crate::contributing::Contribution;
use cfa_base::{Name, Parts, TextMap};
use cfa_schema::Checked;
use cfa_statuses::Statuses;
use cfa_vars::{Scope, Scopes, SharedScopes};
use std::alloc::Global;

/// What promises of an edit bundle left: its variables, its classes, and the global classes that these go back to.
#[derive(Drop)]
pub(crate) struct Inside {
    pub own: Scope,
    pub raised: Statuses,
    pub origins: TextMap<Name>,
}

/// What a walk has come to so far.
#[derive(Drop)]
pub(crate) struct Walk {
    pub inside: Inside,
    /// How many visits were counted.
    pub visits: u64,
    pub unsettled: Parts<Unsettled>,
    pub edits: Parts<Contribution>,
}

/// What an edit bundle is walked in.
#[derive(Clone, Copy)]
pub(crate) struct Around<'a> {
    pub checked: &'a Checked,
    pub bundle: &'a Name,
    pub shared: &'a SharedScopes,
    pub statuses: &'a Statuses,
}

impl Walk {
    /// A walk that has not begun, where the parameters are set.
    pub(crate) fn new(alloc: Global, params: Scope) -> Walk
        ensures { result ≡ walk_at_first params }
    {
        Walk {
            inside: Inside {
                own: params,
                raised: Statuses::new(alloc),
                origins: TextMap::new(alloc),
            },
            visits: 0,
            unsettled: Parts::from_vec(Vec::new(alloc)),
            edits: Parts::from_vec(Vec::new(alloc)),
        }
    }
}
