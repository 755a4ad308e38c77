// Calls of an agent on the real host, each as a text, and what it is answered.
use crate::faulty_files::FaultyFiles;
use crate::reports::Report;
use crate::texts::{ZEROS, parts};
use cfa_base::Key;
use cfa_hostdir::{Fault, HostSite};
use cfa_outside::{Change, Path, Perms, ServiceRow, Site};
use std::str;

pub type RealHost = HostSite<FaultyFiles>;

fn file_put(text: &str, report: &mut Report) -> Option<Change> {
    let (path, content) = parts(text, " ");
    let content = report.bytes(content)?;
    Some(Change::PutFile(report.path(path)?, content))
}

// The word is the first of the two, or else the second.
fn is_first(word: &str, first: &str, second: &str, report: &mut Report) -> bool {
    report.require(word == first || word == second, word);
    word == first
}

fn perms_put(text: &str, report: &mut Report) -> Option<Change> {
    let (path, perms) = parts(text, " ");
    let (mode, names) = parts(perms, " ");
    let (owner, group) = parts(names, " ");
    let mode = if is_first(mode, "644", "600", report) {
        0o644
    } else {
        0o600
    };
    let (owner, group) = (report.name(owner)?, report.name(group)?);
    Some(Change::SetPerms(report.path(path)?, Perms { mode, owner, group }))
}

fn service_put(text: &str, report: &mut Report) -> Option<Change> {
    let (name, rest) = parts(text, " ");
    let (running, rest) = parts(rest, " ");
    let (enabled, restarts) = parts(rest, " ");
    let row = ServiceRow {
        running: is_first(running, "running", "stopped", report),
        enabled: is_first(enabled, "enabled", "disabled", report),
        restarts: u32::try_from(report.number(restarts)).ok()?,
    };
    Some(Change::PutService(report.name(name)?, row))
}

fn change_of(kind: &str, text: &str, report: &mut Report) -> Option<Change> {
    match kind {
        "file" => file_put(text, report),
        "set" => perms_put(text, report),
        "service" => service_put(text, report),
        "lock" => Some(Change::PutLock(Key::read(ZEROS.as_bytes())?, report.number(text))),
        "append" => Some(Change::Append(report.bytes(text)?)),
        "dir" => Some(Change::PutDir(report.path(text)?)),
        "remove" => Some(Change::Remove(report.path(text)?)),
        _ => None,
    }
}

fn tell_bytes(site: &mut RealHost, path: &Path, report: &mut Report) {
    match site.read(report.alloc, path) {
        Ok(bytes) => report.put(&[str::from_utf8(bytes.as_slice()).unwrap_or("no text")]),
        Err(error) => report.tell(&error),
    }
}

fn tell_length(site: &mut RealHost, path: &Path, report: &mut Report) {
    match site.read(report.alloc, path) {
        Ok(bytes) => report.tell(&bytes.as_slice().len()),
        Err(error) => report.tell(&error),
    }
}

fn put_perms(perms: &Perms, report: &mut Report) {
    let mode = perms.mode;
    match format!(in report.alloc; "{mode:o}") {
        Ok(mode) => report.put(&[
            mode.as_str(),
            " ",
            perms.owner.as_str(),
            " ",
            perms.group.as_str(),
        ]),
        Err(_) => report.require(false, "memory"),
    }
}

fn tell_perms(site: &mut RealHost, path: &Path, report: &mut Report) {
    match site.perms(report.alloc, path) {
        Ok(perms) => put_perms(&perms, report),
        Err(error) => report.tell(&error),
    }
}

fn tell_path(site: &mut RealHost, word: &str, path: &str, report: &mut Report) -> Option<()> {
    let path = report.path(path)?;
    match word {
        "read" => tell_bytes(site, &path, report),
        "length" => tell_length(site, &path, report),
        "perms" => tell_perms(site, &path, report),
        "children" => {
            let count = site.children(report.alloc, &path);
            report.tell(&count);
        }
        _ => {
            let look = site.look(report.alloc, &path);
            report.tell(&look);
        }
    }
    Some(())
}

fn tell_row(site: &mut RealHost, name: &str, report: &mut Report) -> Option<()> {
    let name = report.name(name)?;
    let row = site.service(report.alloc, &name);
    report.tell(&row);
    Some(())
}

fn tell_tables(site: &mut RealHost, report: &mut Report) -> Option<()> {
    let are_written = site.write_tables(report.alloc);
    report.tell(&are_written);
    Some(())
}

fn put_fault(fault: &Fault, report: &mut Report) {
    report.tell(&fault.why);
    let why = report.take();
    let path = match &fault.path {
        Some(path) => path.as_str(),
        None => "no path",
    };
    report.put(&[path, " ", why.as_str()]);
}

fn tell_fault(site: &RealHost, report: &mut Report) {
    match site.last_fault() {
        Some(fault) => put_fault(fault, report),
        None => report.put(&["none"]),
    }
}

fn tell_moment(site: &mut RealHost, report: &mut Report) -> Option<()> {
    let moment = site.lock(report.alloc, &Key::read(ZEROS.as_bytes())?);
    report.tell(&moment);
    Some(())
}

fn tell_change(site: &mut RealHost, kind: &str, text: &str, report: &mut Report) -> Option<()> {
    let change = change_of(kind, text, report)?;
    let changed = site.change(report.alloc, &change);
    drop(change);
    report.tell(&changed);
    Some(())
}

// Makes a call of an agent, and takes what it is answered. `look`, `read`, `perms`, `children` and `row` are
// asked at a path or a name, and so is `length`, which reads a file and tells its bytes' number;
// `moment` is asked of the lock of 64 zeros; `tables` writes the tables; `fault` tells the last
// fault. The others are changes: `file PATH TEXT`, `set PATH MODE OWNER GROUP`, `service ROW`,
// `lock MOMENT`, `append TEXT`, `dir PATH` and `remove PATH`. None comes where the call can't be
// read.
pub fn make_call(site: &mut RealHost, call: &str, report: &mut Report) -> Option<()> {
    let (word, text) = parts(call, " ");
    match word {
        "look" | "read" | "length" | "perms" | "children" => tell_path(site, word, text, report),
        "row" => tell_row(site, text, report),
        "moment" => tell_moment(site, report),
        "tables" => tell_tables(site, report),
        "fault" => {
            tell_fault(site, report);
            Some(())
        }
        kind => tell_change(site, kind, text, report),
    }
}
