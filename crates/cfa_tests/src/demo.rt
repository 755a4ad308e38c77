// The demo policy.
use cfa_demo::demo_policy;
use std::test::Fail;

const FIRST: &str = "bundle agent main
{
  files:
    \"/d/f0\" content => \"0\";
";

const TO_THE_FOURTH: &str = "    \"/d/f1\" create => \"true\";
    \"/d/f2\" create => \"true\", perms => m(\"644\");
    \"/d/f3\" content => \"3\", classes => r(\"c3\");
";

const BODIES: &str = "}
body perms m(x)
{
  mode => \"$(x)\";
}
body classes r(x)
{
  promise_repaired => { \"$(x)\" };
}
";

#[test]
fn demos_of_few_promises(rt: HostRuntime) -> Result<(), Fail> {
    let rows = [
        (1, "", ""),
        (4, TO_THE_FOURTH, ""),
        (5, TO_THE_FOURTH, "    \"/d/f4\" content => \"4\";\n"),
    ];
    for (n, fourth, fifth) in rows {
        let text = demo_policy(rt.alloc(), n)?;
        assert_eq!(rt;
            text.as_str(),
            format!(in rt.alloc(); "{FIRST}{fourth}{fifth}{BODIES}")?.as_str()
        );
    }
    Ok(())
}

// The greatest demo ends with a promise that sets a class.
#[test]
fn demo_of_ten_thousand_promises(rt: HostRuntime) -> Result<(), Fail> {
    let text = demo_policy(rt.alloc(), 10_000)?;
    let last = "    \"/d/f9999\" content => \"9999\", classes => r(\"c9999\");\n";
    let end = format!(in rt.alloc(); "{last}{BODIES}")?;
    assert!(rt; text.as_str().ends_with(end.as_str()));
    assert!(rt; text.as_str().len() < 600_000);
    assert_eq!(rt; text.as_str().lines().count(), 10_012);
    Ok(())
}
