// What is told of what is taken in the place of a refused value, and of texts that are no patterns.
use crate::hints::sources_of;
use cfa_advice::read_refused;
use cfa_base::{How, Name, Patterns};
use cfa_hints::{NotingPatterns, patterns_text, takes_text};
use cfa_outside::RegexPatterns;
use std::test::Fail;

const POLICY: &str = "bundle agent main
{
  vars:
    \"x\" comment => \"c\";
  files:
    \"/a\" create => \"maybe\", perms => { \"x\" };
  services:
    \"n\" service_policy => \"go\";
}
body copy_from c(x)
{
  compare => \"no\";
}
body agent control
{
  ifelapsed => \"$(x)\";
}
bundle edit_line e
{
  insert_lines:
    \"x\" location => \"end\";
}
";

// A refusal of this policy, and what is told of it.
#[test]
fn what_is_taken(rt: HostRuntime) -> Result<(), Fail> {
    let alloc = rt.alloc();
    let rows = [
        (
            "a.cf:4:5 S4 WrongValue",
            "        a promise of this type has exactly one attribute of string, int, slist\n",
        ),
        (
            "a.cf:6:20 S4 WrongValue",
            "        create takes \"true\", \"false\", \"yes\", \"no\", \"on\" or \"off\"\n",
        ),
        (
            "a.cf:6:38 S4 WrongValue",
            "        perms takes the name of a body, with its arguments in brackets\n",
        ),
        (
            "a.cf:8:27 S4 WrongValue",
            "        service_policy takes \"start\", \"stop\", \"enable\", \"disable\" or \"restart\"\n",
        ),
        (
            "a.cf:10:16 S4 WrongValue",
            "        a body of this type has the attributes source\n",
        ),
        (
            "a.cf:12:14 S4 WrongValue",
            "        compare takes \"digest\"\n",
        ),
        (
            "a.cf:16:16 S4 WrongValue",
            "        ifelapsed takes a number from 0 to 525600, without references\n",
        ),
        (
            "a.cf:21:21 S4 WrongValue",
            "        location takes the name of a body, with its arguments in brackets\n",
        ),
        ("a.cf:8:27 S3 UnknownAttribute", ""),
        ("a.cf:8:28 S4 WrongValue", ""),
        ("b.cf:8:27 S4 WrongValue", ""),
    ];
    let sources = sources_of(alloc, POLICY)?;
    for (line, told) in rows {
        let Some(refused) = read_refused(line) else {
            return Err(Fail::new("the line is none"));
        };
        assert_eq!(rt; takes_text(alloc, &sources, refused)?.as_str(), told);
    }
    Ok(())
}

// Each text that is no pattern is told once, with the part that isn't read.
#[test]
fn texts_that_are_no_patterns(rt: HostRuntime) -> Result<(), Fail> {
    let alloc = rt.alloc();
    let inner = RegexPatterns::new(alloc, Vec::new(alloc));
    let mut pats = NotingPatterns::new(alloc, inner);
    for text in ["a(", "b", "a(", "bc)d"] {
        let text = Name::from_text(alloc, text)?;
        let is_pattern = pats.build(alloc, &text, How::Whole).is_ok();
        assert!(rt; is_pattern == (text.as_str() == "b"));
    }
    assert_eq!(rt;
        patterns_text(alloc, pats.bad())?.as_str(),
        "        \"a(\" is no regular expression: \"(\" at byte 2: unclosed group
        \"bc)d\" is no regular expression: \")\" at byte 3: unopened group
"
    );
    Ok(())
}
