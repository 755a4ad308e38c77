// What services promises ask for.
ghost use Rattle.std.specs.Prelude.{◌≡◌, Some};
ghost use Rattle.cfa_acts.specs.Acts.{IsAct};
ghost use Rattle.cfa_resolve.specs.FileActs.{service_act};

use cfa_acts::{Act, Reason};
use cfa_base::Name;

#[tactic(auto, unfolding(crate::specs::FileActs::service_act))]
fn act_for(name: Name, policy: &str) -> Act
    ensures value { result ≡ service_act name (Some policy.now) }
    ensures fact { IsAct result }
{
    match policy {
        "start" => Act::Start(name),
        "stop" => Act::Stop(name),
        "enable" => Act::Enable(name),
        "disable" => Act::Disable(name),
        "restart" => Act::Restart(name),
        _ => Act::Bust(Reason::BadValue),
    }
}

/// The act of a services promise, `start` without a policy.
#[tactic(auto, unfolding(crate::specs::FileActs::service_act))]
pub(crate) fn service_act(name: Name, policy: &Option<Name>) -> Act
    ensures value { result ≡ service_act name policy.now }
    ensures fact { IsAct result }
{
    match policy {
        None => Act::Start(name),
        Some(policy) => act_for(name, policy.as_str()),
    }
}
