// What a run adds to the log of its host, as lines.
use crate::keys::with_keys;
use crate::reports::Report;
use cfa_base::{Bytes, escape_bytes};
use cfa_outside::{Call, Change, Entry, Perms, ServiceRow};
use std::str;

fn text_of(bytes: &Bytes) -> &str {
    str::from_utf8(bytes.as_slice()).unwrap_or("no text")
}

// Tells a file, with its bytes as an escaped field.
fn tell_file(path: &str, bytes: &Bytes, report: &mut Report) {
    match escape_bytes(report.alloc, bytes.as_slice()) {
        Ok(field) => report.push(&["file ", path, "=", field.as_str(), "\n"]),
        Err(_) => report.require(false, path),
    }
}

fn tell_service(name: &str, row: &ServiceRow, report: &mut Report) {
    let running = if row.running {
        " running "
    } else {
        " stopped "
    };
    let enabled = if row.enabled { "enabled " } else { "disabled " };
    let restarts = report.digits(u64::from(row.restarts));
    report.push(&["service ", name, running, enabled, restarts.as_str(), "\n"]);
}

// Tells permissions, with the mode in octal digits.
fn tell_perms(path: &str, perms: &Perms, report: &mut Report) {
    let (mode, owner, group) = (perms.mode, perms.owner.as_str(), perms.group.as_str());
    let line = report.made(format!(in report.alloc; "{mode:o} {owner} {group}\n"));
    report.push(&["perms ", path, " ", line.as_str()]);
}

fn tell_lock(key: &str, moment: u64, report: &mut Report) {
    let moment = report.digits(moment);
    report.push(&["lock ", key, " ", moment.as_str(), "\n"]);
}

fn tell_change(change: &Change, report: &mut Report) {
    match change {
        Change::PutFile(path, bytes) => tell_file(path.text().as_str(), bytes, report),
        Change::PutDir(path) => report.push(&["dir ", path.text().as_str(), "\n"]),
        Change::Remove(path) => report.push(&["remove ", path.text().as_str(), "\n"]),
        Change::SetPerms(path, perms) => tell_perms(path.text().as_str(), perms, report),
        Change::PutService(name, row) => tell_service(name.as_str(), row, report),
        Change::PutLock(key, moment) => tell_lock(key.text(), *moment, report),
        Change::Append(bytes) => report.push(&["append ", text_of(bytes)]),
    }
}

fn tell_refusal(call: Call, report: &mut Report) {
    let line = report.made(format!(in report.alloc; "refused {call:?}\n"));
    report.push(&[line.as_str()]);
}

// Tells the entries of a log, each as a line.
fn tell_log(log: &[Entry], report: &mut Report) {
    report.put.clear();
    for entry in log {
        match entry {
            Entry::Did(change) => tell_change(change, report),
            Entry::Refused(call) => tell_refusal(*call, report),
        }
    }
}

// Compares the entries of a log with a text, or with their number, `N entries`, which may be any. Each key is told by the text that it
// is of, between two bars.
pub fn compare_log(log: &[Entry], wanted: &str, report: &mut Report) {
    tell_log(log, report);
    let whole = with_keys(wanted, report);
    let is_met = match wanted.strip_suffix(" entries\n") {
        Some("any") => true,
        Some(count) => report.number(count) == report.put.as_str().lines().count() as u64,
        None => report.put.as_str() == whole.as_str(),
    };
    if !is_met {
        report.note("the log", wanted);
    }
}
