// What promises meet in, as it is printed.
ghost use Rattle.std.specs.Prelude.{◌≡◌, IfOk};
ghost use Rattle.cfa_conflict.specs.Conflicts.{about, resource_of, class_resource};

use cfa_acts::Act;
use cfa_base::{Name, NoMemory, escape};
use std::alloc::Global;

fn about(alloc: Global, what: &str, name: &Name) -> Result<Name, NoMemory>
    ensures { IfOk result (λ text. text ≡ about what.now name.now) }
{
    let field = escape(alloc, name)?;
    let mut text = String::from_str(alloc, what)?;
    text.push_str(" ")?;
    text.push_str(field.as_str())?;
    Ok(Name::from_string(text)?)
}

/// What an act asks for.
#[tactic(auto, unfolding(crate::specs::Conflicts::resource_of))]
pub(crate) fn resource_of(alloc: Global, act: &Act) -> Result<Name, NoMemory>
    ensures { IfOk result (λ text. text ≡ resource_of act.now) }
{
    match act {
        Act::Create(path) | Act::MakeDir(path) | Act::Delete(path, _) => {
            about(alloc, "presence", path.text())
        }
        Act::Content(path, _) | Act::Copy(_, path) | Act::Edit(path, _) => {
            about(alloc, "content", path.text())
        }
        Act::Perms(path, _, _, _) => about(alloc, "perms", path.text()),
        Act::Start(name) | Act::Stop(name) => about(alloc, "running", name),
        Act::Enable(name) | Act::Disable(name) => about(alloc, "enabled", name),
        Act::Restart(name) => about(alloc, "restart", name),
        Act::Bust(_) => Name::from_text(alloc, ""),
    }
}

/// A class that a promise waits for.
pub(crate) fn class_resource(alloc: Global, class: &Name) -> Result<Name, NoMemory>
    ensures { IfOk result (λ text. text ≡ class_resource class.now) }
{
    about(alloc, "class", class)
}
