// Rows of runs. Behind the title of a row stand the lines of the host as it is before (`site_of`), and the policy `a.cf`, to which the
// blocks below are added. Files behind it are as they stand (`files_of`), and one of the name `a.cf` stands for the policy. Then come
// runs on this host, one after the other: `$ ` and the call (`calls`); the entries that it adds to the host's log, each behind `> `,
// or their number alone, `> N entries`, or `> any entries`; and the lines that it puts, or `valid` for those of any verdict, `settled`
// for those of a run that repaired something and left nothing to be done, `unchanged` for those of one that did nothing then. A run
// that tells lines of a host itself is made on that host, as are those behind it. A line of a text that is much repeated is told once,
// `* FROM TO LINE` (`add_line`).
use crate::calls::{Top, compare_answer, make};
use crate::folders::host_in;
use crate::reports::Report;
use crate::run_logs::compare_log;
use crate::texts::{Files, add_file, add_line, files_of, parts};
use crate::worlds::{host_behind, site_of};
use cfa_hostdir::HostSite;
use cfa_outside::{MemorySite, Site};

fn add_blocks(policy: &mut String, name: &str, report: &mut Report) {
    let blocks = report.read(name, ".cf");
    report.add(policy, &[blocks.as_str()]);
}

// The policy of a heading, behind the text of a frame. What each may name stands behind it: bodies and edit bundles, and then texts
// and lists by their lengths, which are added to those alone that name one.
fn policy_of(frame: &str, heading: &str, report: &mut Report) -> String {
    let (_, lines) = parts(heading, "\n");
    let mut policy = report.made(frame.to_string(report.alloc));
    for line in lines.lines() {
        if !line.starts_with("+ ") && !line.starts_with("!") {
            add_line(&mut policy, line, report);
        }
    }
    add_blocks(&mut policy, "blocks", report);
    if policy.as_str().contains("long.") {
        add_blocks(&mut policy, "long", report);
    }
    policy
}

// The files of a heading, the policy last.
fn texts_of(frame: &str, heading: &str, report: &mut Report) -> Files {
    let (first, _) = parts(heading, "\n& ");
    let policy = policy_of(frame, first, report);
    let mut files = files_of(heading, report);
    add_file(&mut files, "a.cf", policy.as_str().as_bytes(), report);
    files
}

// The lines that a run puts, and apart from them the entries that it adds to the log.
fn read_run(behind: &str, lines: &mut String, log: &mut String, report: &mut Report) {
    for line in behind.lines() {
        if let Some(entry) = line.strip_prefix("> ") {
            add_line(log, entry, report);
        } else if !line.is_empty() && !line.starts_with("+ ") {
            add_line(lines, line, report);
        }
    }
}

// Makes the call of a run on a host, and compares what it puts and answers. Tells the entries that it is to add to the log.
fn run_on<T: Top, S: Site>(
    frame: &str,
    row: &str,
    run: &str,
    site: &mut S,
    report: &mut Report,
) -> String {
    let (line, behind) = parts(run, "\n");
    let files = texts_of(frame, row, report);
    let status = make::<T, S>(line, files, site, report);
    let (mut lines, mut log) = (String::new(report.alloc), String::new(report.alloc));
    read_run(behind, &mut lines, &mut log, report);
    compare_answer(line, lines.as_str(), status, report);
    log
}

// Makes a run on a host in memory, and compares.
fn compare_run<T: Top>(
    frame: &str,
    row: &str,
    run: &str,
    site: &mut MemorySite,
    report: &mut Report,
) {
    let before = site.log().len();
    let wanted = run_on::<T, MemorySite>(frame, row, run, site, report);
    let log = site.log().get(before..).unwrap_or(&[]);
    compare_log(log, wanted.as_str(), report);
}

// Makes the runs of a row on a host in memory, with the policy behind the text of a frame, and compares.
pub fn compare_row<T: Top>(frame: &str, row: &str, report: &mut Report) {
    report.rows = report.rows.saturating_add(1);
    let (heading, runs) = parts(row, "\n$ ");
    let mut host = site_of(heading, report);
    for run in runs.split("\n$ ") {
        host = host_behind(host, run, report);
        match &mut host {
            Some(site) => compare_run::<T>(frame, heading, run, site, report),
            None => report.require(false, run),
        }
    }
    drop(host);
}

// A text with a field in the places of the mark of its number.
fn with_field(text: &str, place: u64, field: &str, report: &mut Report) -> String {
    let mark = report.made(format!(in report.alloc; "<{place}>"));
    let field = report.replaced(field, "¶", "\n");
    report.replaced(text, mark.as_str(), field.as_str())
}

// A row with the fields of a line in the places of `<0>`, `<1>` ..
pub fn filled(row: &str, line: &str, report: &mut Report) -> String {
    let mut text = report.made(row.to_string(report.alloc));
    let mut place = 0u64;
    for field in line.split(" | ") {
        text = with_field(text.as_str(), place, field, report);
        place = place.saturating_add(1);
    }
    text
}

// Makes a run on the real host, which is a new one where the run tells one, and compares what it puts and answers.
fn compare_run_in<T: Top>(
    row: &str,
    run: &str,
    host: &mut Option<HostSite<HostRuntime>>,
    report: &mut Report,
) {
    if run.contains("\n+ ") {
        *host = host_in(run, report);
    }
    match host {
        Some(site) => drop(run_on::<T, HostSite<HostRuntime>>("", row, run, site, report)),
        None => report.require(false, run),
    }
}

// Makes the runs of a row on the real host, and compares.
pub fn compare_row_in<T: Top>(row: &str, report: &mut Report) {
    report.rows = report.rows.saturating_add(1);
    let (heading, runs) = parts(row, "\n$ ");
    let mut host = host_in(heading, report);
    for run in runs.split("\n$ ") {
        compare_run_in::<T>(heading, run, &mut host, report);
    }
    drop(host);
}
