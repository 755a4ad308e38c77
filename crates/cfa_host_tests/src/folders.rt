// The real host, in folders that the test makes where it runs.
//
// A row is `== ` and the name of its folder, which isn't there yet, and steps. `folder` makes it,
// `folder NAME` one in it, `write NAME TEXT` a file in it, `long NAME SIZE` one of so many bytes,
// `link NAME TARGET` a link, and `second NAME OTHER` a second name of a file. `broken FAULT` lets
// the machine's files have a fault from there on, and `mended FAULT` takes it away. The other steps
// are calls of the agent, with the answer behind ` => `, or of a second one behind `2 `; `has NAME`
// asks for the text of a file in the folder, and `synced` for what was synced in the row since that
// was asked last. `agent` lets the next agent follow the first one, and `agent PATH` one at a path
// in the folder. Texts have bars for newlines, `Z` for 64 zeros, and `^` for a zero byte.
use crate::faulty_files::FaultyFiles;
use crate::host_calls::{RealHost, make_call};
use crate::odd_things::{DAMAGED, LINKS, ODD, RECORDS};
use crate::refusals::{FAILING, LONG, SYNCED, ZERO_BYTES};
use crate::reports::Report;
use crate::texts::parts;
use cfa_hostdir::HostSite;
use std::fs;
use std::mem::replace;
use std::os::unix::fs::symlink;
use std::process::ExitCode;

// What is done lasts for the next agent, and behind a writing of the tables.
const LASTING: &str = "== lasting
folder
write services.tab sshd running enabled 0|
look /etc => Ok(Nothing)
file /etc/motd => Ok(())
look /etc => Ok(Dir(false))
look /etc/motd => Ok(File(0))
look /etc/motd/x => Ok(Blocked)
file /etc/motd hello => Ok(())
read /etc/motd => hello
children /etc => Ok(1)
children /etc/motd => Err(Failed)
children /none => Err(Failed)
file /a/b/c hello => Ok(())
perms /a/b/c => 600 root root
perms /a/b => 700 root root
set /a/b/c 644 ann www => Ok(())
file /a/b/c bye => Ok(())
perms /a/b/c => 644 ann www
look /a/b => Ok(Dir(false))
remove /a/b/c => Ok(())
look /a/b => Ok(Dir(true))
children /a/b => Ok(0)
file /a/x hello => Ok(())
children /a => Ok(2)
remove /a/x => Ok(())
remove /a/b => Ok(())
look /a/b => Ok(Nothing)
look /a => Ok(Dir(true))
file /a/b/c x => Ok(())
perms /a/b/c => 600 root root
set /a/b/c 644 root root => Ok(())
dir /e/f => Ok(())
look /n => Ok(Nothing)
service sshd stopped enabled 0 => Ok(())
service sshd running disabled 1 => Ok(())
row sshd => Ok(Some(ServiceRow { running: true, enabled: false, restarts: 1 }))
row none => Ok(None)
agent
look /etc => Ok(Dir(false))
read /etc/motd => hello
read /a/b/c => x
perms /a/b/c => 644 root root
perms /a/b => 700 root root
look /e/f => Ok(Dir(true))
row sshd => Ok(Some(ServiceRow { running: true, enabled: false, restarts: 1 }))
tables => true
agent
read /etc/motd => hello
read /a/b/c => x
perms /a/b/c => 644 root root
perms /a/b => 700 root root
row sshd => Ok(Some(ServiceRow { running: true, enabled: false, restarts: 1 }))
has services.tab => sshd running disabled 1|
has perms.tab => /a/b/c 0644 root root|
has changes => nothing
";

// Where an agent was killed: a row of a node that isn't there counts for nothing, lines that were
// cut off are taken away, the rows that changed go before those of the tables, and what was being
// built is gone.
const KILLED: &str = "== cut
folder
write changes perms /a 0700 root root|perms /b 07
write journal run 4|open 1
file /a one => Ok(())
append run 5| => Ok(())
lock 7 => Ok(())
moment => Ok(Some(7))
has changes => gone /a|lock Z 7|
has perms.tab => /a 0700 root root|
has journal => run 4|run 5|
has tree/a => one
agent
moment => Ok(Some(7))
== changed
folder
write services.tab a stopped enabled 0|b stopped enabled 0|
write locks.tab Z 5|
write changes service a running enabled 0|lock Z 6|service a running enabled 1|
row a => Ok(Some(ServiceRow { running: true, enabled: true, restarts: 1 }))
row b => Ok(Some(ServiceRow { running: false, enabled: true, restarts: 0 }))
moment => Ok(Some(6))
tables => true
has services.tab => a running enabled 1|b stopped enabled 0|
has locks.tab => Z 6|
has changes => nothing
== file_left
folder
write new half of it
file /a one => Ok(())
has tree/a => one
has new => no file
== folder_left
folder
folder new
write new/a half of it
dir /a/b => Ok(())
look /a => Ok(Dir(false))
look /a/b => Ok(Dir(true))
has new/a => no file
";

// One agent holds a folder at a time, and one that was refused stays so. A missing folder is made,
// and a file in its place is none.
const HOLDING: &str = "== held
file /a 1 => Ok(())
2 look /a => Err(Failed)
agent
2 look /a => Err(Failed)
look /a => Ok(File(1))
agent /tree/a
look /a => Err(Failed)
agent
look /a => Ok(File(1))
";

// The agents of a row, and what is found of the rows.
#[derive(Drop)]
struct Scene {
    report: Report,
    first: Option<RealHost>,
    second: Option<RealHost>,
}

fn host_in(root: &str, report: &Report) -> Option<RealHost> {
    let root = report.name(root)?;
    let files = FaultyFiles::new(report.rt.clone().ok()?);
    Some(HostSite::new(files, root))
}

// Lets a new agent follow one.
fn renew(agent: &mut Option<RealHost>, root: &str, report: &mut Report) {
    drop(replace(agent, host_in(root, report)));
    report.require(agent.is_some(), root);
}

fn call_on(agent: &mut Option<RealHost>, call: &str, report: &mut Report) {
    let is_made = match agent {
        Some(site) => make_call(site, call, report).is_some(),
        None => false,
    };
    report.require(is_made, call);
}

fn or_nothing(text: &str) -> &str {
    if text.is_empty() { "nothing" } else { text }
}

fn tell_file(folder: &str, name: &str, report: &mut Report) {
    let place = report.joined(&[folder, "/", name]);
    match fs::read_to_string(&report.rt, place.as_str()) {
        Ok(text) => report.put(&[or_nothing(text.as_str())]),
        Err(_) => report.put(&["no file"]),
    }
}

fn write_file(place: &str, told: &str, report: &mut Report) -> bool {
    let text = report.text(told);
    fs::write(&report.rt, place, text.as_str()).is_ok()
}

// Gives the file at the end of a place's folder a second name.
fn second_name(place: &str, name: &str, report: &mut Report) -> bool {
    let (folder, _) = parts(place, "/");
    let other = report.joined(&[folder, "/", name]);
    fs::hard_link(&report.rt, other.as_str(), place).is_ok()
}

// Makes a file of so many bytes.
fn write_long(place: &str, told: &str, report: &mut Report) -> bool {
    let size = report.number(told);
    match fs::create(&report.rt, place) {
        Ok(file) => file.set_len(size).is_ok(),
        Err(_) => false,
    }
}

// Makes a folder, a file or a link at a place, and tells whether it could.
fn make_at(place: &str, word: &str, text: &str, report: &mut Report) -> bool {
    match word {
        "folder" => fs::create_dir(&report.rt, place).is_ok(),
        "link" => symlink(&report.rt, text, place).is_ok(),
        "second" => second_name(place, text, report),
        "write" => write_file(place, text, report),
        "long" => write_long(place, text, report),
        _ => false,
    }
}

// Lets the machine's files have a fault, or takes it away.
fn set_fault(word: &str, fault: &str, report: &mut Report) {
    let is_set = match word {
        "broken" => fs::write(&report.rt, fault, "").is_ok(),
        _ => fs::remove_file(&report.rt, fault).is_ok(),
    };
    report.require(is_set, fault);
}

// Tells what was synced, and forgets it.
fn tell_synced(report: &mut Report) {
    match fs::read_to_string(&report.rt, "synced") {
        Ok(text) => report.put(&[text.as_str()]),
        Err(_) => report.put(&["nothing"]),
    }
    let _ = fs::remove_file(&report.rt, "synced");
}

fn arrange(folder: &str, step: &str, report: &mut Report) {
    let (word, rest) = parts(step, " ");
    let (name, text) = parts(rest, " ");
    let place = report.joined(&[folder, "/", name]);
    let is_made = make_at(place.as_str(), word, text, report);
    report.require(is_made, step);
}

// Makes the call of a step that has an answer.
fn make(folder: &str, call: &str, scene: &mut Scene) {
    let (word, rest) = parts(call, " ");
    match word {
        "has" => tell_file(folder, rest, &mut scene.report),
        "synced" => tell_synced(&mut scene.report),
        "2" => call_on(&mut scene.second, rest, &mut scene.report),
        _ => call_on(&mut scene.first, call, &mut scene.report),
    }
}

// Takes a step that has no answer.
fn take_step(folder: &str, step: &str, scene: &mut Scene) {
    let (word, rest) = parts(step, " ");
    match word {
        "agent" => {
            let root = scene.report.joined(&[folder, rest]);
            renew(&mut scene.first, root.as_str(), &mut scene.report);
        }
        "broken" | "mended" => set_fault(word, rest, &mut scene.report),
        _ => arrange(folder, step, &mut scene.report),
    }
}

fn compare_step(folder: &str, step: &str, scene: &mut Scene) {
    match step.split_once(" => ") {
        Some((call, told)) => {
            make(folder, call, scene);
            let wanted = scene.report.text(told);
            scene.report.compare(folder, step, wanted.as_str());
        }
        None => take_step(folder, step, scene),
    }
}

fn compare_row(row: &str, scene: &mut Scene) {
    let (folder, steps) = parts(row, "\n");
    renew(&mut scene.first, folder, &mut scene.report);
    renew(&mut scene.second, folder, &mut scene.report);
    let _ = fs::remove_dir_all(&scene.report.rt, folder);
    let _ = fs::remove_file(&scene.report.rt, "synced");
    for step in steps.lines() {
        compare_step(folder, step, scene);
    }
}

fn compare_rows(table: &str, scene: &mut Scene) {
    let (_, rows) = parts(table, "== ");
    for row in rows.split("== ") {
        compare_row(row, scene);
    }
}

fn compare_tables(scene: &mut Scene) {
    compare_rows(LASTING, scene);
    compare_rows(KILLED, scene);
    compare_rows(LINKS, scene);
    compare_rows(DAMAGED, scene);
    compare_rows(HOLDING, scene);
    compare_rows(ODD, scene);
    compare_rows(RECORDS, scene);
    compare_rows(SYNCED, scene);
    compare_rows(FAILING, scene);
    compare_rows(ZERO_BYTES, scene);
    compare_rows(LONG, scene);
}

fn scene_of(report: Report) -> Scene {
    Scene {
        report,
        first: None,
        second: None,
    }
}

#[test]
fn agents_in_folders(rt: HostRuntime) -> ExitCode {
    let mut scene = scene_of(Report::new(rt));
    compare_tables(&mut scene);
    let status = scene.report.end();
    drop(scene);
    status
}
