// The text of the demo policy.
ghost use Rattle.std.specs.Prelude.{◌≡◌, ◌<◌, ◌≤◌, ◌++◌, length, IfOk, OnOk, string_bytes};
ghost use Rattle.cfa_demo.specs.Policies.{demo_text, ended, promise_line};

use cfa_base::{Name, NoMemory};
use std::alloc::{AllocError, Global};

const OPENING: &str = "bundle agent main\n{\n  files:\n";

const ENDING: &str = "}
body perms m(x)
{
  mode => \"$(x)\";
}
body classes r(x)
{
  promise_repaired => { \"$(x)\" };
}
";

/// The demo policy of `n` promises, which stand in the order of their numbers from 0. The time is linear in `n`.
pub fn demo_policy(alloc: Global, n: u32) -> Result<Name, NoMemory>
    ensures text { IfOk result (λ text. text ≡ demo_text n) }
    ensures short { n ≤ 10000 → IfOk result (λ text. length text < 600000) }
{
    let mut text = String::from_str(alloc, OPENING)?;
    for k in 0..n {
        push_promise(&mut text, k)?;
    }
    text.push_str(ENDING)?;
    Ok(Name::from_string(text)?)
}

// Adds the line of the promise of a number.
fn push_promise(text: &mut String, k: u32) -> Result<(), AllocError>
    ensures { OnOk result
        (string_bytes text.new ≡ string_bytes text.old ++ ended (promise_line k)) }
{
    match k % 4 {
        0 => write!(text, "    \"/d/f{k}\" content => \"{k}\";\n"),
        1 => write!(text, "    \"/d/f{k}\" create => \"true\";\n"),
        2 => write!(
            text,
            "    \"/d/f{k}\" create => \"true\", perms => m(\"644\");\n"
        ),
        _ => write!(
            text,
            "    \"/d/f{k}\" content => \"{k}\", classes => r(\"c{k}\");\n"
        ),
    }
}
