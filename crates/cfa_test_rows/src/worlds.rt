// Hosts in memory by the lines of a table, each of which begins with a plus sign.
use crate::keys::with_keys;
use crate::reports::Report;
use crate::texts::parts;
use cfa_base::{Bytes, Name, unescape_bytes};
use cfa_outside::{MemorySite, Node, Path, ServiceRow, World, root_perms};
use std::alloc::Global;

fn path_of(alloc: Global, text: &str) -> Option<Path> {
    let text = Name::from_text(alloc, text).ok()?;
    Path::read(alloc, &text).ok()
}

fn add_node(alloc: Global, world: &mut World, path: &str, node: Node) -> Option<()> {
    match path_of(alloc, path) {
        Some(path) => world.nodes.add(alloc, &path, node).ok(),
        None => {
            drop(node);
            None
        }
    }
}

fn add_file(alloc: Global, world: &mut World, path: &str, bytes: &[u8]) -> Option<()> {
    let perms = root_perms(alloc, 0o600).ok()?;
    let file = Node::File(Bytes::from_slice(alloc, bytes).ok()?, perms);
    add_node(alloc, world, path, file)
}

fn add_dir(alloc: Global, world: &mut World, path: &str) -> Option<()> {
    let perms = root_perms(alloc, 0o700).ok()?;
    add_node(alloc, world, path, Node::Dir(perms))
}

// Adds a file whose bytes are told as an escaped field.
fn add_told(alloc: Global, world: &mut World, path: &str, field: &str) -> Option<()> {
    let content = unescape_bytes(alloc, field.as_bytes()).ok()?;
    add_file(alloc, world, path, content.as_str().as_bytes())
}

// Adds a file of so many letters.
fn add_long(world: &mut World, path: &str, size: &str, report: &mut Report) -> Option<()> {
    let letters = report.letters(size);
    add_file(report.alloc, world, path, letters.as_str().as_bytes())
}

// The word is the first of the two, or else the second.
fn is_first(word: &str, first: &str, second: &str, report: &mut Report) -> bool {
    report.require(word == first || word == second, word);
    word == first
}

fn add_service(world: &mut World, text: &str, report: &mut Report) -> Option<()> {
    let (name, rest) = parts(text, " ");
    let (running, rest) = parts(rest, " ");
    let (enabled, restarts) = parts(rest, " ");
    let row = ServiceRow {
        running: is_first(running, "running", "stopped", report),
        enabled: is_first(enabled, "enabled", "disabled", report),
        restarts: report.count(restarts),
    };
    let name = Name::from_text(report.alloc, name).ok()?;
    world.services.insert(name, row).ok()
}

fn add_lock(world: &mut World, text: &str, report: &mut Report) -> Option<()> {
    let lock = with_keys(text, report);
    let (key, moment) = parts(lock.as_str(), " ");
    let moment = report.number(moment);
    let key = Name::from_text(report.alloc, key).ok()?;
    world.locks.insert(key, moment).ok()
}

// Adds what is told, and answers nothing where it can't be read or made.
fn add_given(world: &mut World, given: &str, report: &mut Report) -> Option<()> {
    let (kind, text) = parts(given, " ");
    let (path, field) = parts(text, " ");
    match kind {
        "dir" => add_dir(report.alloc, world, text),
        "file" => add_told(report.alloc, world, path, field),
        "raw" => add_file(report.alloc, world, text, &[255]),
        "long" => add_long(world, path, field, report),
        "service" => add_service(world, text, report),
        "lock" => add_lock(world, text, report),
        "new" => Some(()),
        _ => None,
    }
}

// Adds what the lines of a host tell.
fn add_host(world: &mut World, heading: &str, report: &mut Report) {
    for line in heading.lines() {
        if let Some(given) = line.strip_prefix("+ ") {
            let is_added = add_given(world, given, report).is_some();
            report.require(is_added, line);
        }
    }
}

// What stands behind a mark in its line.
fn behind<'a>(heading: &'a str, mark: &str) -> &'a str {
    let (_, behind) = parts(heading, mark);
    let (told, _) = parts(behind, "\n");
    told
}

/// The site in memory of a heading: `+ dir PATH`, `+ file PATH BYTES` with the bytes as an escaped field, `+ raw PATH` of one byte
/// that begins no text, `+ long PATH SIZE`, `+ service NAME running|stopped enabled|disabled RESTARTS` and
/// `+ lock |KEY TEXT| MOMENT`. Its call of the number behind `! ` fails, and each call once as many changes were made as stand
/// behind `!! `. None comes for want of memory alone.
pub fn site_of(heading: &str, report: &mut Report) -> Option<MemorySite> {
    let stop = match behind(heading, "\n!! ") {
        "" => None,
        changes => Some(report.count(changes)),
    };
    let failing = match behind(heading, "\n! ") {
        "" => report.failing("0"),
        call => report.failing(call),
    };
    let mut world = World::new(report.alloc);
    add_host(&mut world, heading, report);
    MemorySite::new(report.alloc, world, failing, stop).ok()
}

/// The host of a run: what the run before left, or a new one of the lines that it tells, which are none behind `+ new`. Behind
/// `+ left` it is what was left, and no call on it fails any more.
pub fn host_behind(left: Option<MemorySite>, run: &str, report: &mut Report) -> Option<MemorySite> {
    if run.contains("\n+ left") {
        let world = left?.into_world();
        return MemorySite::new(report.alloc, world, Vec::new(report.alloc), None).ok();
    }
    if run.contains("\n+ ") {
        drop(left);
        return site_of(run, report);
    }
    left
}
