// What a person is told of a whole call.
use crate::hints::looked_at;
use cfa_advice::{NotingSink, NotingSite, Sources, Style};
use cfa_base::{Bytes, Name};
use cfa_hints::{Heard, wants_journal, wants_sources};
use cfa_outside::{
    Change, MemorySink, MemorySite, Node, NodeErr, Path, Sink, Site, World, root_perms,
};
use std::alloc::Global;
use std::process::Abort;
use std::test::Fail;

// A host with the file /f, the directory /d, in which /d/e is one too, and no service.
const DIRS: [&str; 2] = ["/d", "/d/e"];

fn path_of(alloc: Global, text: &str) -> Result<Path, Fail> {
    let text = Name::from_text(alloc, text)?;
    match Path::read(alloc, &text) {
        Ok(path) => Ok(path),
        Err(_) => Err(Fail::new("the path is none")),
    }
}

fn is_added(added: Result<(), NodeErr>) -> Result<(), Fail> {
    match added {
        Ok(()) => Ok(()),
        Err(_) => Err(Fail::new("the node isn't added")),
    }
}

fn site_of(alloc: Global) -> Result<NotingSite<MemorySite>, Fail> {
    let mut world = World::new(alloc);
    for text in DIRS {
        let dir = Node::Dir(root_perms(alloc, 0o700)?);
        is_added(world.nodes.add(alloc, &path_of(alloc, text)?, dir))?;
    }
    let file = Node::File(Bytes::from_slice(alloc, b"x")?, root_perms(alloc, 0o600)?);
    is_added(world.nodes.add(alloc, &path_of(alloc, "/f")?, file))?;
    let site = MemorySite::new(alloc, world, Vec::new(alloc), None)?;
    Ok(NotingSite::new(alloc, site))
}

fn words_of(alloc: Global, line: &str) -> Result<Vec<Name>, Fail> {
    let mut words = Vec::new(alloc);
    for word in line.split(' ') {
        words.push(Name::from_text(alloc, word)?)?;
    }
    Ok(words)
}

// The sink of a call that put this line.
fn sink_of(alloc: Global, line: &str) -> Result<NotingSink<MemorySink>, Fail> {
    let mut sink = NotingSink::new(alloc, MemorySink::new(alloc, 1000, Vec::new(alloc))?);
    match sink.put(line.as_bytes()) {
        Ok(_) => Ok(sink),
        Err(_) => Err(Fail::new("the line isn't put")),
    }
}

fn style_of(is_terminal: bool) -> Style {
    Style {
        is_terminal,
        has_colour: false,
    }
}

// The first line that is told of a call with these words and this status, which put this line.
fn check_told(
    rt: &impl Abort,
    alloc: Global,
    site: &NotingSite<MemorySite>,
    (words, status, is_terminal, line): (&str, u8, bool, &str),
    told: &str,
) -> Result<(), Fail> {
    let words = words_of(alloc, words)?;
    let sink = sink_of(alloc, line)?;
    let sources = Sources::none(alloc);
    let heard = Heard {
        words: words.as_slice(),
        status,
        told: sink.told(),
        sights: site.sights(),
        sources: &sources,
        journal: b"",
        outside: Some("a.cf: no such file"),
        style: style_of(is_terminal),
    };
    let text = heard.advice(alloc)?;
    assert_eq!(rt; text.as_str().lines().next().unwrap_or(""), told);
    Ok(())
}

// The words of a call, its status, the line that it put, what is told in a pipe, and what is told on a terminal.
#[test]
fn what_a_call_tells(rt: HostRuntime) -> Result<(), Fail> {
    let rows = [
        (
            "chekc a.cf",
            1,
            "words: refused\n",
            "chekc: no such command",
            "chekc: no such command",
        ),
        (
            "check a.cf",
            1,
            "moment: refused\n",
            "the clock can't be read, or stands after the year 9998",
            "the clock can't be read, or stands after the year 9998",
        ),
        (
            "run a.cf",
            0,
            "settled: no (locks)\n",
            "",
            "with locks nothing is known of what they skip; run with -K to learn whether a rerun would change nothing",
        ),
        (
            "run a.cf",
            0,
            "settled: no (conflict)\n",
            "",
            "`check` with the same -D names the conflict",
        ),
        (
            "run a.cf",
            0,
            "settled: no (limit)\n",
            "",
            "the analysis needs more than 1,000,000 visits: shorten lists, or part the policy",
        ),
        ("run a.cf", 0, "settled: yes\n", "", ""),
        (
            "run a.cf",
            5,
            "stopped: memory\n",
            "no memory was left; what was done before stays done",
            "no memory was left; what was done before stays done",
        ),
        (
            "check a.cf",
            6,
            "stopped: pattern\n",
            "a pattern is too big for the crate regex: write smaller counts, or part it",
            "a pattern is too big for the crate regex: write smaller counts, or part it",
        ),
        (
            "check a.cf",
            4,
            "stopped: outside\n",
            "a.cf: no such file",
            "a.cf: no such file",
        ),
        ("show a.cf", 0, "failed main:1@4 F1 BadPath\n", "", ""),
    ];
    let site = site_of(rt.alloc())?;
    for (words, status, line, piped, there) in rows {
        check_told(&rt, rt.alloc(), &site, (words, status, false, line), piped)?;
        check_told(&rt, rt.alloc(), &site, (words, status, true, line), there)?;
    }
    Ok(())
}

// A site on which a promise failed behind a look at this path.
fn failed_at(alloc: Global, path: &str) -> Result<NotingSite<MemorySite>, Fail> {
    let mut site = site_of(alloc)?;
    let looked = site.look(alloc, &path_of(alloc, path)?);
    let record = Change::Append(Bytes::from_slice(alloc, b"fail 1 main:1@4 key F3\n")?);
    match (looked, site.change(alloc, &record)) {
        (Ok(_), Ok(())) => Ok(site),
        _ => Err(Fail::new("the site refuses")),
    }
}

// The path that was looked at last, the reason, and what is told.
#[test]
fn what_a_failed_promise_was_about(rt: HostRuntime) -> Result<(), Fail> {
    let rows = [
        (
            "/d",
            "F3 Obstructed",
            "/d: a directory stands there, and isn't empty",
        ),
        ("/d/e", "F3 Obstructed", "/d/e: a directory stands there"),
        ("/f", "F3 Obstructed", "/f: a file stands there"),
        ("/f/x", "F3 Obstructed", "/f/x: a file stands above it"),
        ("/n", "F2 Missing", "/n: nothing stands there"),
        ("/f", "F4 NotText", "/f: the file to edit isn't in UTF-8"),
        ("/f", "F11 Fault", "a call on the host failed"),
    ];
    for (path, reason, words) in rows {
        let alloc = rt.alloc();
        let line = format!(in alloc; "failed main:1@4 {reason}\n")?;
        let told = format!(in alloc; "main:1@4: {words}")?;
        let site = failed_at(alloc, path)?;
        check_told(
            &rt,
            alloc,
            &site,
            ("run a.cf", 2, false, line.as_str()),
            told.as_str(),
        )?;
    }
    Ok(())
}

// The words of a call, its status, whether its sources are read again in a pipe, and whether they are on a terminal.
#[test]
fn when_sources_are_read_again(rt: HostRuntime) -> Result<(), Fail> {
    let alloc = rt.alloc();
    let rows = [
        ("run a.cf", 0, false, true),
        ("check a.cf", 0, true, true),
        ("show a.cf", 0, false, false),
        ("show a.cf", 1, true, true),
        ("run a.cf", 2, true, true),
        ("check a.cf", 3, true, true),
        ("run a.cf", 4, false, false),
        ("check a.cf", 5, false, false),
    ];
    for (words, status, piped, there) in rows {
        let words = words_of(alloc, words)?;
        let words = words.as_slice();
        assert!(rt; wants_sources(alloc, words, status, style_of(false))? == piped);
        assert!(rt; wants_sources(alloc, words, status, style_of(true))? == there);
    }
    Ok(())
}

// The words of a call, its status, whether a lock was found that wasn't set, whether it is told on a terminal, and whether the journal is
// read.
#[test]
fn when_the_journal_is_read(rt: HostRuntime) -> Result<(), Fail> {
    let alloc = rt.alloc();
    let rows = [
        ("run a.cf", 0, true, true, true),
        ("run a.cf", 2, true, true, true),
        ("run a.cf", 0, true, false, false),
        ("run a.cf", 0, false, true, false),
        ("run a.cf", 4, true, true, false),
        ("demo 4", 0, true, true, false),
    ];
    for (words, status, is_found, is_terminal, is_read) in rows {
        let words = words_of(alloc, words)?;
        let site = looked_at(alloc, is_found)?;
        let style = style_of(is_terminal);
        let wants = wants_journal(alloc, words.as_slice(), status, site.sights(), style)?;
        assert!(rt; wants == is_read);
    }
    Ok(())
}
