// A world in memory, whose nodes are added one by one, and which is taken out of its site and
// looked at in another one.
use crate::reports::Report;
use crate::texts::parts;
use cfa_base::Bytes;
use cfa_outside::{MemorySite, Node, Path, Site, World, root_perms};
use std::alloc::Global;
use std::process::ExitCode;

// Each directory or file of two bytes that is added, and the answer.
const ADDED: &str = "dir /etc => Ok(())
file /etc/motd => Ok(())
dir /empty => Ok(())
file /empty.d => Ok(())
dir /etc => Err(Misplaced)
file /etc/motd/x => Err(Misplaced)
dir /x/y => Err(Misplaced)";

// Each path, what a look shows there, and whether it takes a file, takes a directory and may be
// removed.
const LOOKS: &str = "/etc => Dir(false) false false false
/empty => Dir(true) false false true
/etc/motd => File(2) true false true
/etc/motd/x => Blocked false false false
/etc/motd/x/y => Blocked false false false
/et => Nothing true true false
/empty/x/y => Nothing true true false";

fn node_of(alloc: Global, kind: &str) -> Option<Node> {
    let perms = root_perms(alloc, 0o640).ok()?;
    match kind {
        "file" => Some(Node::File(Bytes::from_slice(alloc, b"hi").ok()?, perms)),
        _ => Some(Node::Dir(perms)),
    }
}

fn add(world: &mut World, kind: &str, path: &Path, report: &mut Report) -> Option<()> {
    let added = world
        .nodes
        .add(report.alloc, path, node_of(report.alloc, kind)?);
    report.tell(&added);
    Some(())
}

fn add_told(world: &mut World, node: &str, report: &mut Report) -> Option<()> {
    let (kind, path) = parts(node, " ");
    let path = report.path(path)?;
    add(world, kind, &path, report)
}

fn compare_added(world: &mut World, report: &mut Report) {
    for row in ADDED.lines() {
        let (node, wanted) = parts(row, " => ");
        let is_made = add_told(world, node, report).is_some();
        report.require(is_made, row);
        report.compare("added", row, wanted);
    }
}

fn word_of(is_so: bool) -> &'static str {
    if is_so { " true" } else { " false" }
}

fn tell_look(site: &mut MemorySite, path: &str, report: &mut Report) -> Option<()> {
    let path = report.path(path)?;
    let look = site.look(report.alloc, &path).ok()?;
    report.tell(&look);
    report.push(&[
        word_of(look.takes_file()),
        word_of(look.takes_directory()),
        word_of(look.is_removable()),
    ]);
    Some(())
}

fn compare_looks(site: &mut MemorySite, report: &mut Report) {
    for row in LOOKS.lines() {
        let (path, wanted) = parts(row, " => ");
        let is_made = tell_look(site, path, report).is_some();
        report.require(is_made, row);
        report.compare("looks", row, wanted);
    }
}

fn site_of(alloc: Global, world: World) -> Option<MemorySite> {
    MemorySite::new(alloc, world, Vec::new(alloc), None).ok()
}

fn world_of(report: &mut Report) -> World {
    let mut world = World::new(report.alloc);
    compare_added(&mut world, report);
    world
}

// A site whose world was that of another one.
fn moved(report: &mut Report) -> Option<MemorySite> {
    let site = site_of(report.alloc, world_of(report))?;
    site_of(report.alloc, site.into_world())
}

fn look_at_world(report: &mut Report) -> bool {
    match moved(report) {
        Some(mut site) => {
            compare_looks(&mut site, report);
            drop(site);
            true
        }
        None => false,
    }
}

#[test]
fn worlds_are_looked_at(rt: HostRuntime) -> ExitCode {
    let mut report = Report::new(rt);
    let is_made = look_at_world(&mut report);
    report.require(is_made, "a site");
    report.end()
}
