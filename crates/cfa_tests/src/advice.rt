// What a person is told beside the lines.
use cfa_advice::{
    CAUSES, Fault, REASONS, Sources, Style, cause_of, excerpt_of, fault_of, push_conflict,
    push_failed, push_refused, read_conflict, read_failed, read_refused, reason_of, words_advice,
    words_fault,
};
use cfa_base::{Bytes, Name};
use cfa_outside::MemoryInputs;
use std::alloc::Global;
use std::process::Abort;
use std::test::Fail;

const PLAIN: Style = Style {
    is_terminal: false,
    has_colour: false,
};

// Each code of the documents, and some words of what it tells.
const FAULTS: [(&str, &str); 21] = [
    ("L1", "a text stands in quotes"),
    ("L2", "never closed"),
    ("L3", "no UTF-8 from this byte on"),
    ("L4", "at most 1,048,576 bytes"),
    ("P1", "something is missing before it"),
    ("P2", "at most 16 levels"),
    ("S1", "have this type"),
    ("S2", "left out here"),
    (
        "S3",
        "write the class as a guard before the promise: class::",
    ),
    ("S4", "isn't of the kind that its attribute takes"),
    ("S5", "write the body into the policy"),
    ("S6", "once `inputs` names that file"),
    ("S7", "another number of arguments"),
    ("S8", "stands twice"),
    ("S9", "calls back the one that calls it"),
    ("S10", "write `bundle agent main`"),
    ("S11", "no class expression"),
    ("S12", "write $(const.dollar)("),
    ("S13", "no regular expression"),
    ("J1", "no record in its place"),
    ("J2", "move it away between runs"),
];

const FAILURES: [(&str, &str); 13] = [
    ("F1", "a directory is written with /. at the end"),
    ("F2", "nothing stands there"),
    ("F3", "a directory that isn't empty"),
    ("F4", "isn't in UTF-8"),
    ("F5", "would never come to rest"),
    ("F6", "no line of the file matches"),
    ("F7", "fewer fields"),
    ("F8", "services.tab has no row of this service"),
    ("F9", "no regular expression"),
    ("F10", "isn't of its kind"),
    ("F11", "a call on the host failed"),
    ("F12", "more than 65,536 bytes"),
    ("F13", "more than 4,096 items"),
];

// Each cause, and some words of what the first promise is, of what the second one is, and of what to do.
const CONFLICTS: [(&str, &str, &str, &str); 4] = [
    (
        "C1",
        "each run restarts it",
        "each run restarts it",
        "under a class that a repair raises",
    ),
    (
        "C2",
        "decides the class",
        "is to hold, and waits",
        "raise the class for both outcomes",
    ),
    (
        "C3",
        "is undone",
        "undoes that",
        "@(list) hands all of them on",
    ),
    (
        "C4",
        "decides the class",
        "waits for the class",
        "set the variable or make the edit in any case",
    ),
];

fn tells(fault: Fault, words: &str) -> bool {
    fault.sentence().contains(words) && fault.page().starts_with("docs/")
}

// Each code of the documents has its sentence, and no other one.
#[test]
fn each_code_has_a_sentence(rt: HostRuntime) {
    for (code, words) in FAULTS {
        assert!(rt;
            fault_of(code).is_some_and(|fault| tells(fault, words)),
            "{code}"
        );
    }
    for code in ["L0", "L5", "P3", "S0", "S14", "F1", ""] {
        assert!(rt; fault_of(code).is_none(), "{code}");
    }
}

#[test]
fn each_reason_has_a_sentence(rt: HostRuntime) {
    for (code, words) in FAILURES {
        assert!(rt;
            reason_of(code).is_some_and(|reason| reason.sentence().contains(words)),
            "{code}"
        );
    }
    assert!(rt; REASONS.len() == FAILURES.len());
    assert!(rt; reason_of("F0").is_none() && reason_of("F14").is_none());
}

#[test]
fn each_cause_has_a_sentence(rt: HostRuntime) {
    for (code, first, second, words) in CONFLICTS {
        let is_told = cause_of(code).is_some_and(|cause| {
            cause.first().contains(first)
                && cause.second().contains(second)
                && cause.sentence().contains(words)
        });
        assert!(rt; is_told, "{code}");
    }
    assert!(rt; CAUSES.len() == CONFLICTS.len() && cause_of("C5").is_none());
}

// A line, the column of the mark, how it is shown, and how many columns stand before the mark.
#[test]
fn lines_and_marks(rt: HostRuntime) -> Result<(), Fail> {
    let rows: [(&[u8], u64, &str, usize); 6] = [
        (b"abc", 1, "abc", 0),
        (b"abc", 9, "abc", 3),
        (b"\tab\x1b\xffc", 5, "    ab<1b><ff>c", 10),
        ("größe 日本 x".as_bytes(), 16, "größe 日本 x", 11),
        (b"", 1, "", 0),
        (b"a\r", 2, "a<d>", 1),
    ];
    for (line, col, text, column) in rows {
        let excerpt = excerpt_of(rt.alloc(), line, col)?;
        assert_eq!(rt; excerpt.text.as_str(), text);
        assert_eq!(rt; excerpt.column, column);
    }
    Ok(())
}

// Of a line of 3,000 bytes what stands round the mark is shown.
#[test]
fn a_long_line(rt: HostRuntime) -> Result<(), Fail> {
    let alloc = rt.alloc();
    let mut line = String::new(alloc);
    for _ in 0..1500 {
        line.push('é')?;
    }
    let excerpt = excerpt_of(alloc, line.as_str().as_bytes(), 2001)?;
    assert_eq!(rt; excerpt.column, 32);
    assert_eq!(rt; excerpt.text.as_str().chars().count(), 64);
    assert!(rt; excerpt.text.as_str().starts_with("..é"));
    assert!(rt; excerpt.text.as_str().ends_with("é.."));
    Ok(())
}

// Refused words, with a stroke between two, and the first line that is told of them.
#[test]
fn refused_words(rt: HostRuntime) -> Result<(), Fail> {
    let rows = [
        (
            "--help",
            "usage: diwalmeq run POLICY [-K] [-D CLASSES] [--strict]",
        ),
        (
            "-h",
            "usage: diwalmeq run POLICY [-K] [-D CLASSES] [--strict]",
        ),
        (
            "help|run",
            "usage: diwalmeq run POLICY [-K] [-D CLASSES] [--strict]",
        ),
        ("--version", "diwalmeq 0.1.0"),
        ("version", "diwalmeq 0.1.0"),
        (
            "-K",
            "a command and a file are missing, or a word isn't in UTF-8",
        ),
        ("chekc|a.cf", "chekc: no such command"),
        ("check", "check: the file is missing"),
        (
            "run|a.cf|b.cf",
            "b.cf: one word too many; a command takes one file",
        ),
        ("check|a.cf|-K", "check doesn't take -K"),
        ("show|-Dx|a.cf", "show doesn't take -Dx"),
        ("audit|j|--strict", "audit doesn't take --strict"),
        ("history|j|-Da", "history doesn't take -Da"),
        ("edits|a.cf|-K", "edits doesn't take -K"),
        (
            "demo|0",
            "demo 0: the number of promises is from 1 to 10000, in digits alone",
        ),
        (
            "demo|10001",
            "demo 10001: the number of promises is from 1 to 10000, in digits alone",
        ),
        (
            "demo|07",
            "demo 07: the number of promises is from 1 to 10000, in digits alone",
        ),
        ("demo|10000|-K", "demo doesn't take -K"),
        (
            "run|a.cf|-D|a|-D|b",
            "-D: given twice; classes of one -D are separated by commas",
        ),
        (
            "run|a.cf|-KK",
            "-K: given twice; classes of one -D are separated by commas",
        ),
        (
            "run|a.cf|-D",
            "-D: its classes are missing, as in -D web,test",
        ),
        (
            "run|a.cf|-D|-K",
            "-D: its classes are missing, as in -D web,test",
        ),
        (
            "run|a.cf|-KDa,b-c",
            "\"b-c\": no class; a class is made of letters, digits and _",
        ),
        (
            "run|a.cf|--define=",
            "\"\": no class; a class is made of letters, digits and _",
        ),
        (
            "run|a.cf|--no-lock=x",
            "--no-lock=x: this option takes no value",
        ),
        ("run|a.cf|--stri", "--stri: no such option"),
        ("run|a.cf|-x", "-x: no such option"),
    ];
    for (words, first) in rows {
        check_words(&rt, rt.alloc(), words, first)?;
    }
    Ok(())
}

fn check_words(rt: &impl Abort, alloc: Global, words: &str, first: &str) -> Result<(), Fail> {
    let words: Vec<&str> = words.split('|').collect(alloc)?;
    let told = words_advice(alloc, words_fault(words.as_slice()))?;
    assert_eq!(rt; told.as_str().lines().next().unwrap_or(""), first);
    Ok(())
}

const POLICY: &str = "bundle agent main
{
  files:
    \"/etc/motd\" creat => \"true\";
  services:
    \"nginx\" service_policy => \"restart\";
}
";

fn sources(alloc: Global) -> Result<Sources, Fail> {
    let name = Name::from_text(alloc, "a.cf")?;
    let other = Name::from_text(alloc, "b.cf")?;
    let mut texts = Vec::new(alloc);
    texts.push((
        name.copy(alloc)?,
        Bytes::from_slice(alloc, POLICY.as_bytes())?,
    ))?;
    let mut inputs = MemoryInputs::new(alloc, texts, Vec::new(alloc))?;
    Ok(Sources::read(alloc, &[other, name], &mut inputs))
}

#[test]
fn a_refusal(rt: HostRuntime) -> Result<(), Fail> {
    let alloc = rt.alloc();
    let sources = sources(alloc)?;
    let mut text = String::new(alloc);
    let Some(line) = read_refused("a.cf:4:17 S3 UnknownAttribute") else {
        return Err(Fail::new("the line is none"));
    };
    push_refused(alloc, &mut text, PLAIN, &sources, line)?;
    assert_eq!(rt;
        text.as_str(),
        "a.cf:4:17: this attribute isn't taken here; for `if`, `ifvarclass` and `unless` write the class as a guard before the promise: class::
     4 |     \"/etc/motd\" creat => \"true\";
       |                 ^
        see docs/language.md, Attributes of promises, Attributes of bodies
"
    );
    Ok(())
}

#[test]
fn a_failed_promise(rt: HostRuntime) -> Result<(), Fail> {
    let alloc = rt.alloc();
    let sources = sources(alloc)?;
    let mut text = String::new(alloc);
    let Some(line) = read_failed("failed main:2@6 F8 UnknownService") else {
        return Err(Fail::new("the line is none"));
    };
    push_failed(alloc, &mut text, PLAIN, &sources, line, None)?;
    assert_eq!(rt;
        text.as_str(),
        "main:2@6: host/services.tab has no row of this service
     6 |     \"nginx\" service_policy => \"restart\";
       |     ^
"
    );
    Ok(())
}

#[test]
fn a_conflict_of_a_promise_with_itself(rt: HostRuntime) -> Result<(), Fail> {
    let alloc = rt.alloc();
    let sources = sources(alloc)?;
    let mut text = String::new(alloc);
    let Some(line) = read_conflict("conflict C1 main:2@6 main:2@6 restart nginx") else {
        return Err(Fail::new("the line is none"));
    };
    push_conflict(alloc, &mut text, PLAIN, &sources, line)?;
    assert_eq!(rt;
        text.as_str(),
        "main:2@6: each run restarts it (restart nginx)
     6 |     \"nginx\" service_policy => \"restart\";
       |     ^
restart under a class that a repair raises, and say `start` where the service is to run in any case
        see docs/analysis.md, The causes
"
    );
    Ok(())
}
