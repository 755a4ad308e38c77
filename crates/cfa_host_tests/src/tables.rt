// The tables of a host: which texts are tables, and what is written of their rows.
use crate::reports::Report;
use crate::texts::parts;
use cfa_base::{Bytes, NoMemory};
use cfa_hostdir::{
    TableErr, read_locks, read_perms, read_services, write_locks, write_perms, write_services,
};
use std::alloc::Global;
use std::process::ExitCode;

// The rows of a table, written again.
fn rewritten(alloc: Global, kind: &str, bytes: &Bytes) -> Result<Bytes, TableErr> {
    let text = match kind {
        "services" => write_services(alloc, read_services(alloc, bytes)?.as_slice()),
        "perms" => write_perms(alloc, read_perms(alloc, bytes)?.as_slice()),
        _ => write_locks(alloc, read_locks(alloc, bytes)?.as_slice()),
    };
    match text {
        Ok(text) => Ok(text),
        Err(NoMemory) => Err(TableErr::NoMemory),
    }
}

// Tells the first bad line from 1, or 0 where the text is a table that is written again as it was.
fn tell_bad_line(kind: &str, bytes: &Bytes, report: &mut Report) {
    match rewritten(report.alloc, kind, bytes) {
        Ok(again) if again.as_slice() == bytes.as_slice() => report.put(&["0"]),
        Ok(_) => report.put(&["another text"]),
        Err(TableErr::BadTable(line)) => report.tell(&line),
        Err(TableErr::NoMemory) => report.put(&["no memory"]),
    }
}

// A kind of tables, the first bad line or 0, and the text.
const TABLES: &str = "services 0
services 0 sshd running enabled 0|
services 1 sshd on|
services 0 a stopped disabled 4294967295|b running enabled 7|
services 2 b running enabled 0|a running enabled 0|
services 2 a running enabled 0|a stopped enabled 0|
services 1 a running enabled 4294967296|
services 1 a running enabled 01|
services 1 a running enabled +1|
services 1 a running enabled|
services 1 a running enabled 0
services 2 a running enabled 0|b running enabled 0
services 2 a running enabled 0||
services 1 |
services 1  running enabled 0|
services 1 a b running enabled 0|
services 1 a  running enabled 0|
services 1 a running enabled 0 |
services 1 a Running enabled 0|
services 0 a%20b running enabled 0|
services 1 %2F running enabled 0|
services 0 %C3%BC running enabled 0|
services 1 %c3%bc running enabled 0|
services 1 %C3 running enabled 0|
services 0 ab running enabled 0|a%7D running enabled 0|
services 2 a%7D running enabled 0|ab running enabled 0|
perms 0
perms 0 /etc/motd 0600 root root|
perms 1 /etc/motd 600 root root|
perms 0 /a 7777 a b|/a/b 0000 a b|
perms 2 /a/b 7777 a b|/a 0000 a b|
perms 1 /a 0608 root root|
perms 1 /a 00600 root root|
perms 1 /a 0600 root|
perms 1 /a 0600  root|
perms 1 /a 0600 root |
perms 1 /a 0600 root root x|
perms 1 /etc//motd 0600 root root|
perms 1 /etc%2Fmotd 0600 root root|
perms 1 /a/ 0600 root root|
perms 1 / 0600 root root|
perms 1 a 0600 root root|
locks 0
locks 0 Z 5|
locks 0 Z 18446744073709551615|
locks 1 Z 18446744073709551616|
locks 2 Z 5|Z 6|
locks 1 0 5|
locks 1 Z 05|";

fn compare_table(row: &str, report: &mut Report) {
    let (kind, rest) = parts(row, " ");
    let (line, text) = parts(rest, " ");
    match report.bytes(text) {
        Some(bytes) => tell_bad_line(kind, &bytes, report),
        None => report.require(false, row),
    }
    report.compare("tables", row, line);
}

#[test]
fn tables_read_back(rt: HostRuntime) -> ExitCode {
    let mut report = Report::new(rt);
    for row in TABLES.lines() {
        compare_table(row, &mut report);
    }
    report.end()
}
