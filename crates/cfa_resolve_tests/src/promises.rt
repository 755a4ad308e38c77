// What the promises of a policy resolve to, by their ids.
use crate::telling::Told;
use cfa_base::{Bytes, Name, Names, PromiseId};
use cfa_outside::{MemoryInputs, RegexPatterns};
use cfa_resolve::{ResolveErr, Resolved, View, is_acting, resolve};
use cfa_schema::Checked;
use cfa_sources::read_policy;
use cfa_statuses::Statuses;
use cfa_vars::{Datum, Scope, Scopes, SharedScopes};
use std::alloc::Global;
use std::process::ExitCode;

const POLICY: &str = "bundle agent main
{
  vars:
    'v' string => 'x';
  files:
    '/d/$(l)' create => 'true', perms => m('755');
  services:
    '$(s)' service_policy => 'restart', action => each('60');
  reports:
    '$(l)$(y)';
    '$(e)';
    '$(l)$(two)';
}
body perms m(x) { mode => '$(x)'; }
body action each(n) { ifelapsed => '$(n)'; }
";

// The lists of the scope, of which the last has no items.
const LISTS: [(&str, &[&str]); 4] = [
    ("l", &["p", "q"]),
    ("two", &["1", "2"]),
    ("s", &["sshd"]),
    ("e", &[]),
];

// Each promise, and an id of another line: the number and the line of each, and the number of its visits, its key texts, and the
// first name that it lacks. Four visits are more than are left.
const TOLD: &str = "1@4 has no instances
2@6 2 [main 2;create /d/p;perms /d/p 0755 * *;k=;r=;f=;e=1] [main 2;create /d/q;perms /d/q 0755 * *;k=;r=;f=;e=1]
3@8 1 [main 3;restart sshd;k=;r=;f=;e=60]
4@10 1 lacks y
5@11 1
6@12 too large
2@7 is no promise
";

fn set_list(alloc: Global, own: &mut Scope, name: &str, items: &[&str]) -> Option<()> {
    let name = Name::from_text(alloc, name).ok()?;
    let items = Names::from_texts(alloc, items).ok()?;
    own.set(name, Datum::List(items)).ok()
}

fn scope_of(told: &mut Told) -> Scope {
    let mut own = Scope::new(told.alloc);
    for (name, items) in LISTS {
        told.is_whole &= set_list(told.alloc, &mut own, name, items).is_some();
    }
    own
}

fn inputs_of(alloc: Global, name: &Name) -> Option<MemoryInputs> {
    let mut files = Vec::new(alloc);
    let policy = Bytes::from_slice(alloc, POLICY.as_bytes()).ok()?;
    files.push((name.copy(alloc).ok()?, policy)).ok()?;
    MemoryInputs::new(alloc, files, Vec::new(alloc)).ok()
}

fn checked_of(alloc: Global) -> Option<Checked> {
    let name = Name::from_text(alloc, "a.cf").ok()?;
    let mut inputs = inputs_of(alloc, &name)?;
    let mut pats = RegexPatterns::new(alloc, Vec::new(alloc));
    read_policy(alloc, &name, &mut inputs, &mut pats).ok()
}

// Tells the visits, the key texts and the first name that is lacking.
fn tell_resolved(resolved: &Resolved, told: &mut Told) {
    told.push(&[" "]);
    told.push_number(resolved.visits);
    for instance in resolved.instances.as_slice() {
        told.push(&[" [", instance.text.as_str(), "]"]);
    }
    if let Some(name) = resolved.unresolved.as_slice().first() {
        told.push(&[" lacks ", name.as_str()]);
    }
}

fn tell_error(error: ResolveErr, told: &mut Told) {
    told.push(&[match error {
        ResolveErr::TooLarge => " too large",
        _ => " has another fault",
    }]);
    drop(error);
}

// What is told of an id that has no instances.
fn unresolved(is_promise: bool) -> &'static str {
    if is_promise {
        " has no instances"
    } else {
        " is no promise"
    }
}

// Tells what a promise resolves to, with three visits left.
fn tell_promise(checked: &Checked, id: &PromiseId, told: &mut Told) {
    if !is_acting(checked, id) {
        let is_promise = checked.promise(id).is_some();
        return told.push(&[unresolved(is_promise)]);
    }
    let own = scope_of(told);
    let shared = SharedScopes::new(told.alloc);
    let scopes = Scopes {
        own: &own,
        own_name: &id.bundle,
        shared: &shared,
    };
    let view = View {
        scopes,
        statuses: &Statuses::new(told.alloc),
        path: &id.bundle,
    };
    let mut pats = RegexPatterns::new(told.alloc, Vec::new(told.alloc));
    match resolve(told.alloc, checked, id, &view, 3, &mut pats) {
        Ok(resolved) => {
            tell_resolved(&resolved, told);
            drop(resolved);
        }
        Err(error) => tell_error(error, told),
    }
}

// Tells an id, and what its promise resolves to.
fn tell_id(checked: &Checked, id: &PromiseId, told: &mut Told) {
    told.push_number(u64::from(id.number));
    told.push(&["@"]);
    told.push_number(u64::from(id.line));
    tell_promise(checked, id, told);
    told.push(&["\n"]);
}

// Tells each promise, and an id of another line.
fn tell_ids(checked: &Checked, told: &mut Told) -> Option<()> {
    let mut ids = checked.promise_ids(told.alloc).ok()?;
    let bundle = Name::from_text(told.alloc, "main").ok()?;
    let (number, line) = (2, 7);
    ids.push(PromiseId {
        bundle,
        number,
        line,
    })
    .ok()?;
    for id in ids.iter() {
        tell_id(checked, id, told);
    }
    Some(())
}

#[test]
fn promises_by_their_ids(rt: HostRuntime) -> ExitCode {
    let mut told = Told::new(rt.alloc());
    if let Some(checked) = checked_of(told.alloc) {
        told.is_whole &= tell_ids(&checked, &mut told).is_some();
        drop(checked);
    }
    let is_met = told.is_whole && told.text.as_str() == TOLD;
    ExitCode::from(u8::from(!is_met))
}
