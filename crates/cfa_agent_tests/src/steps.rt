// Steps of an agent on one site, and each on another.
ghost use Rattle.std.specs.Prelude.{IfSome};
ghost use Rattle.cfa_agent.specs.Agents.{Sound};

use crate::telling::{Told, tell_entries, tell_step};
use cfa_agent::Agent;
use cfa_base::{Bytes, Name, Names};
use cfa_outside::{
    MemoryInputs, MemorySite, Node, Path, RegexPatterns, ServiceRow, World, root_perms,
};
use cfa_schema::Checked;
use cfa_sources::read_policy;
use cfa_walk::Context;
use std::alloc::Global;
use std::process::ExitCode;

const POLICY: &str = "bundle agent main
{
  vars:
    'settings' slist => { 'Port 22', 'PermitRootLogin no', 'X11Forwarding no' };
  files:
    '/etc/ssh/sshd_config'
      edit_line => ensure(@(settings)),
      classes => if_repaired('ssh_changed');
  services:
    ssh_changed::
      'sshd' service_policy => 'restart';
}
bundle edit_line ensure(lines)
{
  insert_lines:
    '$(lines)';
}
body classes if_repaired(x)
{
  promise_repaired => { '$(x)' };
}
";

// What each step answers, its lines, the counts so far, and what it adds to the log of its site. Behind the end nothing more is done.
const FOUR_STEPS: &str = "more
repaired main:2@6 1
kept 0 repaired 1 failed 0
append run 1704103200
append open 1
append file 1
file /etc/ssh/sshd_config
append done 1
more
repaired main:3@11 1
kept 0 repaired 2 failed 0
append open 2
service sshd
append done 2
ended
kept 0 repaired 2 failed 0
ended
kept 0 repaired 2 failed 0
";

// The moment of the run.
const MOMENT: u64 = 1704103200;

fn inputs_of(alloc: Global, name: &Name) -> Option<MemoryInputs> {
    let mut files = Vec::new(alloc);
    let policy = Bytes::from_slice(alloc, POLICY.as_bytes()).ok()?;
    files.push((name.copy(alloc).ok()?, policy)).ok()?;
    MemoryInputs::new(alloc, files, Vec::new(alloc)).ok()
}

fn checked_of(alloc: Global) -> Option<Checked> {
    let name = Name::from_text(alloc, "a.cf").ok()?;
    let mut inputs = inputs_of(alloc, &name)?;
    let mut pats = RegexPatterns::new(alloc, Vec::new(alloc));
    read_policy(alloc, &name, &mut inputs, &mut pats).ok()
}

fn add_node(alloc: Global, text: &str, node: Node, world: &mut World) -> Option<()> {
    let path = Path::read(alloc, &Name::from_text(alloc, text).ok()?).ok()?;
    world.nodes.add(alloc, &path, node).ok()
}

fn new_dir(alloc: Global) -> Option<Node> {
    Some(Node::Dir(root_perms(alloc, 0o755).ok()?))
}

// The file has the first of its lines, and the service runs.
fn new_world(alloc: Global) -> Option<World> {
    let mut world = World::new(alloc);
    add_node(alloc, "/etc", new_dir(alloc)?, &mut world)?;
    add_node(alloc, "/etc/ssh", new_dir(alloc)?, &mut world)?;
    let bytes = Bytes::from_slice(alloc, b"Port 22\n").ok()?;
    let file = Node::File(bytes, root_perms(alloc, 0o644).ok()?);
    add_node(alloc, "/etc/ssh/sshd_config", file, &mut world)?;
    let sshd = ServiceRow {
        running: true,
        enabled: true,
        restarts: 0,
    };
    let name = Name::from_text(alloc, "sshd").ok()?;
    world.services.insert(name, sshd).ok()?;
    Some(world)
}

fn new_site(alloc: Global) -> Option<MemorySite> {
    MemorySite::new(alloc, new_world(alloc)?, Vec::new(alloc), None).ok()
}

// Makes a step, and tells it with what it added to the log of its site.
fn step_on(agent: &mut Agent<'_>, site: &mut MemorySite, told: &mut Told)
    requires { Sound agent.old }
    ensures { Sound agent.new }
{
    let from = site.log().len();
    let mut pats = RegexPatterns::new(told.alloc, Vec::new(told.alloc));
    let stepped = agent.step(told.alloc, site, &mut pats);
    let lines = agent.take_lines();
    tell_step(&stepped, lines.as_slice(), agent.tally(), told);
    tell_entries(site, from, told);
}

// Makes a step on the site that stands, or on a new one.
fn next_step(
    agent: &mut Agent<'_>,
    site: &mut MemorySite,
    on_one: bool,
    told: &mut Told,
) -> Option<()>
    requires { Sound agent.old }
    ensures { IfSome result (λ done. Sound agent.new) }
{
    if !on_one {
        *site = new_site(told.alloc)?;
    }
    step_on(agent, site, told);
    Some(())
}

// Four steps, on one site or each on a new one.
fn four_steps(on_one: bool, told: &mut Told) -> Option<()> {
    let checked = checked_of(told.alloc)?;
    let context = Context {
        classes: Names::new(told.alloc),
    };
    let Ok(mut agent) = Agent::new(told.alloc, &checked, &context, MOMENT, false) else {
        return None;
    };
    let mut site = new_site(told.alloc)?;
    next_step(&mut agent, &mut site, on_one, told)?;
    next_step(&mut agent, &mut site, on_one, told)?;
    next_step(&mut agent, &mut site, on_one, told)?;
    next_step(&mut agent, &mut site, on_one, told)?;
    Some(())
}

fn is_told(on_one: bool, alloc: Global) -> bool {
    let mut told = Told::new(alloc);
    four_steps(on_one, &mut told).is_some() && told.is_whole && told.text.as_str() == FOUR_STEPS
}

#[test]
fn steps_on_one_site(rt: HostRuntime) -> ExitCode {
    ExitCode::from(u8::from(!is_told(true, rt.alloc())))
}

// Each step puts on its own site what is its alone: the record of the run stands on the first.
#[test]
fn steps_on_a_site_each(rt: HostRuntime) -> ExitCode {
    ExitCode::from(u8::from(!is_told(false, rt.alloc())))
}
