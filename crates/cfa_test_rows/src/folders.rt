// The real host in a folder that is made where the program runs.
use crate::reports::Report;
use crate::texts::parts;
use cfa_base::{Name, unescape_bytes};
use cfa_hostdir::HostSite;
use std::fs;

// Where the real host is kept, its tree and the table of its services.
const FOLDER: &str = "host";

const TREE: &str = "host/tree";

const SERVICES: &str = "host/services.tab";

// Makes a new folder with an empty tree.
fn make_folder(report: &mut Report) {
    let _ = fs::remove_dir_all(&report.rt, FOLDER);
    let is_made = fs::create_dir(&report.rt, FOLDER).is_ok()
        && fs::create_dir(&report.rt, TREE).is_ok();
    report.require(is_made, TREE);
}

// Writes a file, whose bytes are told as an escaped field.
fn put_file(rt: &HostRuntime, file: &str, field: &str) -> bool {
    match unescape_bytes(rt.alloc(), field.as_bytes()) {
        Ok(content) => fs::write(rt, file, content.as_str()).is_ok(),
        Err(_) => false,
    }
}

// Makes a directory or a file, `dir PATH` or `file PATH BYTES`, or adds the row of a service.
fn put_given(given: &str, services: &mut String, report: &mut Report) {
    let (kind, row) = parts(given, " ");
    let (path, field) = parts(row, " ");
    let mut node = String::new(report.alloc);
    report.add(&mut node, &[TREE, path]);
    let is_put = match kind {
        "dir" => fs::create_dir(&report.rt, node.as_str()).is_ok(),
        "file" => put_file(&report.rt, node.as_str(), field),
        "service" => {
            report.add(services, &[row, "\n"]);
            true
        }
        "new" => true,
        _ => false,
    };
    report.require(is_put, given);
}

// Puts what the lines of a host tell into its folder.
fn put_host(host: &str, report: &mut Report) {
    let mut services = String::new(report.alloc);
    for line in host.lines() {
        if let Some(given) = line.strip_prefix("+ ") {
            put_given(given, &mut services, report);
        }
    }
    let is_put = fs::write(&report.rt, SERVICES, services.as_str()).is_ok();
    report.require(is_put, SERVICES);
}

/// The host in a new folder, by its lines (`site_of`), which are of directories, files of text and services. None comes for want of
/// memory alone.
pub fn host_in(host: &str, report: &mut Report) -> Option<HostSite<HostRuntime>> {
    make_folder(report);
    put_host(host, report);
    let folder = Name::from_text(report.alloc, FOLDER).ok()?;
    Some(HostSite::new(report.rt.clone().ok()?, folder))
}
