// Histories of journals, with the lines that tell of them.
use cfa_base::Bytes;
use cfa_history::{History, history_of, no_more_records};
use cfa_journal::{JournalErr, MOST_JOURNAL_BYTES, read};
use std::alloc::Global;
use std::process::Abort;
use std::test::Fail;

const Z: &str = "0000000000000000000000000000000000000000000000000000000000000000";

const X: &str = "1111111111111111111111111111111111111111111111111111111111111111";

const Y: &str = "2222222222222222222222222222222222222222222222222222222222222222";

const W: &str = "3333333333333333333333333333333333333333333333333333333333333333";

// What a journal of this text tells.
fn history_in(alloc: Global, text: &str) -> Result<History, JournalErr> {
    let mut bytes = Bytes::from_vec(Vec::new(alloc));
    bytes.append(text.as_bytes())?;
    let journal = read(alloc, &bytes)?;
    no_more_records();
    Ok(history_of(alloc, &journal)?)
}

fn lines(alloc: Global, history: &History) -> Result<String, Fail> {
    let mut text = String::new(alloc);
    for row in history.rows.as_slice() {
        let id = format!(in alloc;
            "{}:{}@{}",
            row.id.bundle.as_str(),
            row.id.number,
            row.id.line
        )?;
        let done = format!(in alloc; "repaired {} changes {}", row.repaired, row.changes)?;
        let other = format!(in alloc; "failed {} open {}", row.failed, row.left_open)?;
        text.push_str(format!(in alloc; "{id} {done} {other} last {}\n", row.last)?.as_str())?;
    }
    for gap in history.gaps.as_slice() {
        let line = format!(in alloc; "unrecorded {} {}\n", gap.path.as_str(), gap.moment)?;
        text.push_str(line.as_str())?;
    }
    text.push_str(format!(in alloc; "runs {}\n", history.runs)?.as_str())?;
    Ok(text)
}

fn check(rt: &impl Abort, alloc: Global, text: &str, told: &str) -> Result<(), Fail> {
    let history = history_in(alloc, text)?;
    assert_eq!(rt; lines(alloc, &history)?.as_str(), told);
    Ok(())
}

#[test]
fn rows_of_promises(rt: HostRuntime) -> Result<(), Fail> {
    let alloc = rt.alloc();
    check(&rt, alloc, "", "runs 0\n")?;
    let first = format!(in alloc; "run 5\nopen 1 main:1@4 {Z}\ndone 1 repaired 1\n")?;
    let second = format!(in alloc; "open 2 main:2@5 {Z}\nope")?;
    let text = format!(in alloc; "{first}{second}")?;
    let told = "main:1@4 repaired 1 changes 1 failed 0 open 0 last 5\n\
        main:2@5 repaired 0 changes 0 failed 0 open 1 last 5\nruns 1\n";
    check(&rt, alloc, text.as_str(), told)?;
    let failed = format!(in alloc; "run 7 2\nfail 1 main:10@4 {Z} F5\nopen 2 main:9@30 {Z}\n")?;
    let text = format!(in alloc; "{first}{failed}done 2 failed F3\n")?;
    let told = "main:1@4 repaired 1 changes 1 failed 0 open 0 last 5\n\
        main:9@30 repaired 0 changes 0 failed 1 open 0 last 7\n\
        main:10@4 repaired 0 changes 0 failed 1 open 0 last 7\nruns 2\n";
    check(&rt, alloc, text.as_str(), told)
}

#[test]
fn gaps_between_writes(rt: HostRuntime) -> Result<(), Fail> {
    let alloc = rt.alloc();
    let row = "main:1@4 repaired 2 changes 2 failed 0 open 0 last 70\n";
    for (found, gaps) in [
        (Y, "unrecorded /a 70\n"),
        (X, ""),
        ("*", ""),
        ("-", "unrecorded /a 70\n"),
    ] {
        let open = format!(in alloc; "open 1 main:1@4 {Z}\n")?;
        let first = format!(in alloc; "run 5 2\n{open}file 1 /a - {X}\ndone 1 repaired 1\n")?;
        let second = format!(in alloc;
            "run 70 2\n{open}file 1 /a {found} {X}\ndone 1 repaired 1\n"
        )?;
        let text = format!(in alloc; "{first}{second}")?;
        let told = format!(in alloc; "{row}{gaps}runs 2\n")?;
        check(&rt, alloc, text.as_str(), told.as_str())?;
    }
    Ok(())
}

// The first write's end, with what is counted of both.
const REPAIRED: (&str, &str) = ("done 1 repaired 1\n", "2 changes 2 failed 0 open 0");

const FAILED: (&str, &str) = ("done 1 failed F11\n", "1 changes 1 failed 1 open 0");

const LEFT_OPEN: (&str, &str) = ("", "1 changes 1 failed 0 open 1");

// Checks two writes to a file: what the first found and was to leave, how it ended, and what the second found.
fn check_gap(
    rt: &impl Abort,
    alloc: Global,
    ended: (&str, &str),
    digests: (&str, &str, &str),
    is_gap: bool,
) -> Result<(), Fail> {
    let (done, counts) = ended;
    let (before, after, found) = digests;
    let open = format!(in alloc; "open 1 main:1@4 {Z}\n")?;
    let first = format!(in alloc; "run 5 2\n{open}file 1 /a {before} {after}\n{done}")?;
    let second = format!(in alloc; "run 6 2\n{open}file 1 /a {found} {W}\ndone 1 repaired 1\n")?;
    let text = format!(in alloc; "{first}{second}")?;
    let gaps = if is_gap { "unrecorded /a 6\n" } else { "" };
    let told = format!(in alloc; "main:1@4 repaired {counts} last 6\n{gaps}runs 2\n")?;
    check(rt, alloc, text.as_str(), told.as_str())
}

// What a write found and was to leave, what the next one found, and whether something else changed the file in between, where the
// first write's repair came to its end, and where it failed or was left open.
#[test]
fn gaps_by_each_digest(rt: HostRuntime) -> Result<(), Fail> {
    let alloc = rt.alloc();
    let rows = [
        (X, Y, Y, false, false),
        (X, Y, X, true, false),
        (X, Y, W, true, true),
        (X, Y, "-", true, true),
        (X, Y, "*", false, false),
        (X, X, X, false, false),
        (X, X, Y, true, true),
        (X, "*", X, false, false),
        (X, "*", Y, false, false),
        (X, "*", "-", false, false),
        (X, "*", "*", false, false),
        ("*", Y, Y, false, false),
        ("*", Y, X, false, false),
        ("*", Y, "-", false, false),
        ("*", Y, "*", false, false),
        ("*", "*", X, false, false),
        ("*", "-", X, false, false),
        ("-", Y, "-", true, false),
        ("-", Y, Y, false, false),
        ("-", Y, X, true, true),
        ("-", Y, "*", false, false),
        ("-", "*", "-", false, false),
        (X, "-", "-", false, false),
        (X, "-", X, true, false),
        (X, "-", Y, true, true),
        ("-", "-", "-", false, false),
        ("-", "-", X, true, true),
    ];
    for (before, after, found, behind_repaired, behind_others) in rows {
        let digests = (before, after, found);
        check_gap(&rt, alloc, REPAIRED, digests, behind_repaired)?;
        check_gap(&rt, alloc, FAILED, digests, behind_others)?;
        check_gap(&rt, alloc, LEFT_OPEN, digests, behind_others)?;
    }
    Ok(())
}

// As many failures as a journal has room for, and a torn end that fills it to its last byte.
#[test]
fn the_longest_journal(rt: HostRuntime) -> Result<(), Fail> {
    let alloc = rt.alloc();
    let mut text = String::from_str(alloc, "run 5\n")?;
    for number in 1..189_757u32 {
        let line = format!(in alloc; "fail {number} main:1@4 {Z} F5\n")?;
        text.push_str(line.as_str())?;
    }
    text.push_str("fffffffffffffffffffffffffffffff")?;
    assert_eq!(rt; text.len(), MOST_JOURNAL_BYTES);
    let told = "main:1@4 repaired 0 changes 0 failed 189756 open 0 last 5\nruns 1\n";
    check(&rt, alloc, text.as_str(), told)?;
    text.push_str("f")?;
    assert!(rt; matches!(history_in(alloc, text.as_str()), Err(JournalErr::TooLong)));
    Ok(())
}
