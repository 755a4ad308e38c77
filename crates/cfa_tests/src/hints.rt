// What is found for a person by walking the texts of a policy.
use cfa_advice::{NotingSite, Sources, Style, read_refused};
use cfa_base::{Bytes, Key, Name};
use cfa_hints::{Refuses, before_text, further_text, idle_text, skipped_text};
use cfa_outside::{Change, MemoryInputs, MemorySite, Site, World};
use std::alloc::Global;
use std::process::Abort;
use std::test::Fail;

const PLAIN: Style = Style {
    is_terminal: false,
    has_colour: false,
};

pub fn sources_of(alloc: Global, policy: &str) -> Result<Sources, Fail> {
    let name = Name::from_text(alloc, "a.cf")?;
    let mut texts = Vec::new(alloc);
    texts.push((
        name.copy(alloc)?,
        Bytes::from_slice(alloc, policy.as_bytes())?,
    ))?;
    let mut inputs = MemoryInputs::new(alloc, texts, Vec::new(alloc))?;
    Ok(Sources::read(alloc, &[name], &mut inputs))
}

fn check_idle(
    rt: &impl Abort,
    alloc: Global,
    policy: &str,
    classes: &str,
    told: &str,
) -> Result<(), Fail> {
    let sources = sources_of(alloc, policy)?;
    let text = idle_text(alloc, &sources, classes)?;
    assert_eq!(rt; text.as_str(), told);
    Ok(())
}

// A policy, the classes of -D, and what is told.
#[test]
fn what_never_comes_about(rt: HostRuntime) -> Result<(), Fail> {
    let rows = [
        (
            "bundle agent main { files: \"/a\" content => \"x\"; }",
            "",
            "",
        ),
        (
            "bundle agent main { vars: \"servers\" string => \"s\"; files: \"/a\" content => \"$(server)\"; }",
            "",
            "a.cf:1:76: server is never set, so that nothing comes of what refers to it (servers?)\n",
        ),
        (
            "bundle agent main { files: nginx_chnaged:: \"/a\" content => \"x\"; Monday:: \"/b\" content => \"x\"; }",
            "nginx_changed",
            "a.cf:1:28: nginx_chnaged is raised by nothing, and isn't given by -D (nginx_changed?)\n\
-D nginx_changed: no guard asks for it (nginx_chnaged?)\n",
        ),
        (
            "bundle agent main { reports: Hr02.Day1.Min05.Min55_00.Yr2024.May:: \"x\"; Hr2|Day01|Min5|Min55_60|monday:: \"y\"; }",
            "",
            "a.cf:1:73: Hr2 is raised by nothing, and isn't given by -D\n\
a.cf:1:77: Day01 is raised by nothing, and isn't given by -D\n\
a.cf:1:83: Min5 is raised by nothing, and isn't given by -D\n\
a.cf:1:88: Min55_60 is raised by nothing, and isn't given by -D\n\
a.cf:1:97: monday is raised by nothing, and isn't given by -D\n",
        ),
        (
            "bundle agent main { methods: \"x\" usebundle => one; }\nbundle agent one { }\nbundle agent two { }",
            "",
            "a.cf:3:14: two is neither in the sequence nor called\n",
        ),
        (
            "bundle agent main { classes: \"web\" expression => \"db.!old\"; files: web:: \"/a\" content => \"x\"; }",
            "db,elsewhere",
            "a.cf:1:55: old is raised by nothing, and isn't given by -D\n-D elsewhere: no guard asks for it\n",
        ),
        (
            "bundle agent main {\nclasses:\n\"a\" not => databsae;\n\"b\" or => { \"web|x1\", strcmp(\"y\", \"y\") };\nreports:\na.b:: \"z\"; }",
            "database,y",
            "a.cf:3:12: databsae is raised by nothing, and isn't given by -D (database?)\n\
a.cf:4:14: web is raised by nothing, and isn't given by -D\n\
a.cf:4:18: x1 is raised by nothing, and isn't given by -D\n\
-D database: no guard asks for it (databsae?)\n\
-D y: no guard asks for it\n",
        ),
        (
            "bundle agent main { vars: \"c\" string => \"x\"; classes: \"b\" expression => \"$(c)\"; reports: b:: \"z\"; }",
            "unasked",
            "",
        ),
    ];
    for (policy, classes, told) in rows {
        check_idle(&rt, rt.alloc(), policy, classes, told)?;
    }
    Ok(())
}

// A refusal of this policy, and what is told of what stands before it.
#[test]
fn what_stands_before(rt: HostRuntime) -> Result<(), Fail> {
    let alloc = rt.alloc();
    let policy =
        "bundle agent main\n{\n  files:\n    \"/a\" content => \"x;\n    \"/b\" create => \"true\"\n}\n";
    let rows = [
        (
            "a.cf:5:6 L1 BadByte",
            "        a text from 4:21 on runs over several lines: is a quote missing?\n",
        ),
        (
            "a.cf:3:3 P1 Unexpected",
            "        what is missing may stand at 2:2\n",
        ),
        ("a.cf:3:8 P1 Unexpected", ""),
        ("a.cf:1:1 L1 BadByte", ""),
        ("a.cf:3:3 S1 UnknownType", ""),
        ("b.cf:3:3 P1 Unexpected", ""),
        ("a.cf L4 TooLong", ""),
    ];
    let sources = sources_of(alloc, policy)?;
    for (line, told) in rows {
        let Some(refused) = read_refused(line) else {
            return Err(Fail::new("the line is none"));
        };
        assert_eq!(rt; before_text(alloc, &sources, refused)?.as_str(), told);
    }
    Ok(())
}

// Refuses the first word `wrong` of a file, at its place.
#[derive(Drop)]
struct WrongWord {}

fn first_wrong(alloc: Global, source: &[u8]) -> Option<Name> {
    let text = str::from_utf8(source).ok()?;
    let mut number = 0u64;
    for line in text.lines() {
        number = number.saturating_add(1);
        if let Some((front, _)) = line.split_once("wrong") {
            let col = front.len().saturating_add(1);
            let told = format!(in alloc; "a.cf:{number}:{col} S3 UnknownAttribute\n").ok()?;
            return Name::from_text(alloc, told.as_str()).ok();
        }
    }
    None
}

impl Refuses for WrongWord {
    fn first_refusal(&mut self, alloc: Global, texts: Vec<(Name, Bytes)>) -> Option<Name> {
        first_wrong(alloc, texts.first()?.1.as_slice())
    }
}

const WRONG: &str = "bundle agent main
{
  files:
    \"/a\" wrong => { \"1\", \"2\" }, wrong => \"3\";
    \"/b\" wrong => \"1\";
  wrong:
    \"ls\";
    \"wrong\";
  files:
    wrong => \"1\";
}
body perms wrong
{
  mode => \"wrong\";
}
";

// A promise is left out as a whole, a section with its promises, and a body with what stands in it.
#[test]
fn further_refusals(rt: HostRuntime) -> Result<(), Fail> {
    let alloc = rt.alloc();
    let sources = sources_of(alloc, WRONG)?;
    let Some(first) = read_refused("a.cf:4:10 S3 UnknownAttribute") else {
        return Err(Fail::new("the line is none"));
    };
    let text = further_text(alloc, PLAIN, &sources, first, &mut WrongWord {})?;
    assert_eq!(rt;
        text.as_str(),
        "further refusals, once what is refused before them is left out:
a.cf:5:10 S3 UnknownAttribute
     5 |     \"/b\" wrong => \"1\";
       |          ^
a.cf:6:3 S3 UnknownAttribute
     6 |   wrong:
       |   ^
a.cf:10:5 S3 UnknownAttribute
    10 |     wrong => \"1\";
       |     ^
a.cf:12:12 S3 UnknownAttribute
    12 | body perms wrong
       |            ^
"
    );
    Ok(())
}

// Refuses what it is told to, one after the other.
#[derive(Drop)]
struct Listed {
    lines: Vec<&'static str>,
}

impl Refuses for Listed {
    fn first_refusal(&mut self, alloc: Global, _: Vec<(Name, Bytes)>) -> Option<Name> {
        Name::from_text(alloc, self.lines.pop()?).ok()
    }
}

const INPUTS: &str = "body common control
{
  inputs => { \"$(lib)\" };
}
bundle agent main
{
  files:
    \"/a\" perms => known(\"600\");
    \"/b\" perms => unknown(\"600\");
    \"/c\" content => \"$(shared.x)\";
    \"/d\" content => \"$(sys.host)\";
}
bundle common shared
{
}
body perms known(mode)
{
}
";

// Where `inputs` is left out, a body and a bundle that stand somewhere may be unknown for that alone; others are unknown in any case.
#[test]
fn refusals_that_follow(rt: HostRuntime) -> Result<(), Fail> {
    let alloc = rt.alloc();
    let sources = sources_of(alloc, INPUTS)?;
    let Some(first) = read_refused("a.cf:3:15 S4 WrongValue") else {
        return Err(Fail::new("the line is none"));
    };
    let lines = vec![in alloc;
        "a.cf:11:21 S12 ReferenceOutOfScope",
        "a.cf:10:21 S12 ReferenceOutOfScope",
        "a.cf:9:19 S5 UnknownBody",
        "a.cf:8:19 S5 UnknownBody",
    ]?;
    let text = further_text(alloc, PLAIN, &sources, first, &mut Listed { lines })?;
    assert_eq!(rt;
        text.as_str(),
        "further refusals, once what is refused before them is left out:
a.cf:9:19 S5 UnknownBody
     9 |     \"/b\" perms => unknown(\"600\");
       |                   ^
a.cf:11:21 S12 ReferenceOutOfScope
    11 |     \"/d\" content => \"$(sys.host)\";
       |                     ^
"
    );
    Ok(())
}

const RESTART: &str = "bundle agent web
{
  services:
    changed::
      \"nginx\" service_policy => \"restart\"; \"ssh\" service_policy => \"start\";
      \"cron\" service_policy => restart;
}
";

const KEY: &str = "0123456789abcdef0123456789abcdef0123456789abcdef0123456789abcdef";

// The site of a run that looked at a lock, which was set before or wasn't.
pub fn looked_at(alloc: Global, is_set: bool) -> Result<NotingSite<MemorySite>, Fail> {
    let mut world = World::new(alloc);
    if is_set {
        world.locks.insert(Name::from_text(alloc, KEY)?, 5)?;
    }
    let site = MemorySite::new(alloc, world, Vec::new(alloc), None)?;
    let mut site = NotingSite::new(alloc, site);
    if let Some(key) = Key::read(KEY.as_bytes()) {
        let _ = site.lock(alloc, &key);
    }
    Ok(site)
}

// A promise by the journal, whether its lock was found, and how what is told begins. The line of a record may be an older one.
#[test]
fn a_skipped_restart(rt: HostRuntime) -> Result<(), Fail> {
    let alloc = rt.alloc();
    let sources = sources_of(alloc, RESTART)?;
    let rows = [
        ("web:1@5", true, "web:1@5: the restart of nginx was skipped"),
        ("web:1@4", true, "web:1@5: the restart of nginx was skipped"),
        ("web:3@6", true, "web:3@6: the restart of cron was skipped"),
        ("web:1@5", false, ""),
        ("web:2@5", true, ""),
        ("main:1@5", true, ""),
    ];
    for (id, is_set, told) in rows {
        let site = looked_at(alloc, is_set)?;
        let journal = format!(in alloc; "run 1\nopen 1 {id} {KEY}\ndone 1 repaired 1\n")?;
        let text = skipped_text(alloc, &sources, site.sights(), journal.as_str().as_bytes())?;
        assert!(rt; text.as_str().starts_with(told));
        assert!(rt; text.as_str().is_empty() == told.is_empty());
        assert!(rt; site.sights().has_skipped() == is_set);
    }
    Ok(())
}

// A lock that is set again behind its instance is none of one that was skipped.
#[test]
fn a_lock_that_is_set_again(rt: HostRuntime) -> Result<(), Fail> {
    let alloc = rt.alloc();
    let mut site = looked_at(alloc, true)?;
    let Some(key) = Key::read(KEY.as_bytes()) else {
        return Err(Fail::new("the key is none"));
    };
    let set = site.change(alloc, &Change::PutLock(key, 9));
    assert!(rt; set.is_ok());
    assert!(rt; !site.sights().has_skipped() && !site.sights().is_skipped(KEY.as_bytes()));
    Ok(())
}
