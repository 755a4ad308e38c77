// The reading of a policy from its files.
ghost use Rattle.std.specs.Prelude.{◌≤◌, length, map};
ghost use Rattle.cfa_tree.specs.Plain.{plain_policy};
ghost use Rattle.cfa_schema.specs.Sourced.{IsRead, IsSourced, AreRead, joined};
ghost use Rattle.cfa_sources.specs.Readings.{PolicyRead};
ghost use Rattle.cfa_sources.specs.Steps.{InputsRead, TreeChecked};

use crate::reading::{MAIN_FILE, read_file};
use crate::refusing::schema_line;
use cfa_base::{MOST_INPUTS, Name, Patterns};
use cfa_output::{Failure, Stop};
use cfa_outside::Inputs;
use cfa_schema::{Checked, SchemaErr, check};
use cfa_served::input_names;
use cfa_tree::{Policy, join};
use std::alloc::Global;

// Reads the inputs of these names one after another, and puts their trees behind the main file's.
fn read_inputs<I: Inputs>(
    alloc: Global,
    main: Policy,
    names: &[Name],
    inputs: &mut I,
) -> Result<Vec<Policy>, Failure>
    requires few { length names.now ≤ MOST_INPUTS }
    requires main_read { IsRead 0 (plain_policy main) }
    ensures { InputsRead (plain_policy main) names.now
        (I.shown inputs.old) (I.shown inputs.new) result }
{
    let mut parts = Vec::new(alloc);
    parts.push(main)?;
    for i in 0..names.len() {
        let file = i as u16 + 1;
        let tree = read_file(alloc, &names[i], file, inputs)?;
        parts.push(tree)?;
    }
    Ok(parts)
}

// Checks the tree of all files.
fn check_tree<P: Patterns>(
    alloc: Global,
    policy: &Name,
    inputs: &[Name],
    tree: Policy,
    pats: &mut P,
) -> Result<Checked, Failure>
    requires { IsSourced (plain_policy tree) }
    ensures { TreeChecked policy.now inputs.now (plain_policy tree)
        (P.shown pats.old) (P.shown pats.new) result }
{
    match check(alloc, tree, pats) {
        Ok(checked) => Ok(checked),
        Err(SchemaErr::Refused(refusal)) => {
            Err(Failure::Refused(schema_line(alloc, policy, inputs, refusal)?))
        }
        Err(SchemaErr::PatternTooBig(text)) => Err(Failure::Stopped(Stop::Pattern(text))),
        Err(SchemaErr::NoMemory) => Err(Failure::Stopped(Stop::Memory)),
    }
}

/// The valid policy of that name, read from its main file and its inputs in their order. It is refused with the line of the
/// first file that is refused; where all files are read, with the line of the first refusal of the whole policy. `Pattern`
/// has the text of a pattern that was refused for its size; patterns are built where nothing else is refused.
pub fn read_policy<I: Inputs, P: Patterns>(
    alloc: Global,
    policy: &Name,
    inputs: &mut I,
    pats: &mut P,
) -> Result<Checked, Failure>
    ensures { PolicyRead policy.now (I.shown inputs.old) (I.shown inputs.new)
        (P.shown pats.old) (P.shown pats.new) result }
{
    let main = read_file(alloc, policy, MAIN_FILE, inputs)?;
    let names = input_names(alloc, &main)?;
    let parts = read_inputs(alloc, main, names.as_slice(), inputs)?;
    let tree = join(alloc, parts)?;
    check_tree(alloc, policy, names.as_slice(), tree, pats)
}
