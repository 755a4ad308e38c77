// The search for clashes in the edits of a policy: its walk, what is found of the scripts that the walk lists, and its lines.
ghost use Rattle.std.specs.Prelude.{◌≡◌, ◌++◌, IfErr, IfOk, OnOk, flat_map, count_by, map, option_map, string_bytes};
ghost use Rattle.std.specs.List.{list_any};
ghost use Rattle.cfa_edit_proof.specs.Quiet.{IsFirstClash};
ghost use Rattle.cfa_output.specs.Lines.{line_of};
ghost use Rattle.cfa_main.specs.Searches.{AreFindings, finding_line, has_clash, IsFindingsText, is_quiet, line_by, rule_code, script_among, script_of_work, search_end, search_text, seen_finding, TellsFindings};
ghost use Rattle.cfa_main.specs.Stages.{PolicySearched, StopsPutting, setting_in};

use crate::auditing::append_line;
use crate::ends::End;
use crate::work::PolicyInContext;
use cfa_acts::Act;
use cfa_base::{Name, NoMemory, Patterns, PromiseId};
use cfa_edit_proof::{Clash, quiet};
use cfa_edits::Script;
use cfa_output::{Item, Stop, put_all};
use cfa_outside::Sink;
use cfa_resolve::{Instance, Work, copy_id};
use cfa_walk::{Telling, WalkErr, walk};
use std::alloc::Global;

/// An instance that edits a file, with the first clash of its script.
#[derive(Clone, Copy)]
pub struct Found<'a> {
    pub instance: &'a Instance,
    pub clash: Option<Clash>,
}

// The first script among acts.
fn script_among(acts: &[Act]) -> Option<&Script>
    ensures { option_map (λ script. script.now) result ≡ script_among acts.now }
{
    for act in acts {
        if let Act::Edit(_, script) = act {
            return Some(script);
        }
    }
    None
}

// The script of an instance that edits a file.
fn script_of(instance: &Instance) -> Option<&Script>
    ensures { option_map (λ script. script.now) result ≡ script_of_work instance.now.work }
{
    match &instance.work {
        Work::Acts(acts) => script_among(acts.as_slice()),
        Work::Call(_, _) | Work::Report(_) => None,
    }
}

// The first clash of a script. Each of its edits was visited, and no walk makes as many visits as edits can't be numbered.
fn first_clash(alloc: Global, script: &Script) -> Result<Option<Clash>, NoMemory>
    ensures { IfOk result (IsFirstClash script.now) }
{
    if script.edits().len() > u32::MAX as usize {
        return Err(NoMemory);
    }
    quiet(alloc, script)
}

// What is found of the instances that edit files.
fn find_clashes<'a>(alloc: Global, instances: &'a [Instance]) -> Result<Vec<Found<'a>>, NoMemory>
    ensures { IfOk result
        (λ found. AreFindings instances.entry.now (map seen_finding found.items)) }
{
    let mut found = Vec::new(alloc);
    for instance in instances {
        if let Some(script) = script_of(instance) {
            let clash = first_clash(alloc, script)?;
            found.push(Found { instance, clash })?;
        }
    }
    Ok(found)
}

// The code of a rule of clashes.
fn rule_code(alloc: Global, rule: u8) -> Result<Name, NoMemory>
    ensures { IfOk result (λ code. code ≡ rule_code rule) }
{
    Ok(Name::from_string(format!(in alloc; "K{rule}")?)?)
}

// What the line of a script tells.
fn item_by(alloc: Global, id: &PromiseId, clash: Option<Clash>) -> Result<Item, NoMemory>
    ensures { IfOk result (λ item. line_of item ≡ line_by id.now clash) }
{
    let id = copy_id(alloc, id)?;
    match clash {
        None => Ok(Item::Quiet(id)),
        Some(clash) => {
            let rule = rule_code(alloc, clash.rule)?;
            let first = u64::from(clash.first);
            Ok(Item::Clash(id, first, u64::from(clash.second), rule))
        }
    }
}

// Adds the lines of scripts.
fn append_findings(alloc: Global, text: &mut String, found: &[Found<'_>]) -> Result<(), NoMemory>
    ensures { OnOk result (string_bytes text.new ≡ string_bytes text.old
        ++ flat_map finding_line (map seen_finding found.now)) }
{
    for finding in found {
        let item = item_by(alloc, &finding.instance.source, finding.clash)?;
        append_line(alloc, text, item)?;
    }
    Ok(())
}

// How many scripts are quiet.
fn count_quiet(found: &[Found<'_>]) -> usize
    ensures { result ≡ count_by is_quiet (map seen_finding found.now) }
{
    let mut quiet = 0;
    for finding in found {
        if finding.clash.is_none() {
            quiet += 1;
        }
    }
    quiet
}

// Whether any script clashes.
fn any_clashes(found: &[Found<'_>]) -> bool
    ensures { result ≡ list_any has_clash (map seen_finding found.now) }
{
    for finding in found {
        if finding.clash.is_some() {
            return true;
        }
    }
    false
}

// How a search ends that tells these.
fn search_end(found: &[Found<'_>]) -> End
    ensures { result ≡ search_end (map seen_finding found.now) }
{
    if any_clashes(found) {
        End::InConflict
    } else {
        End::Ended
    }
}

// The lines of a search.
fn search_text(alloc: Global, found: &[Found<'_>]) -> Result<String, NoMemory>
    ensures { IfOk result
        (λ text. string_bytes text ≡ search_text (map seen_finding found.now)) }
{
    let mut text = String::new(alloc);
    append_findings(alloc, &mut text, found)?;
    let quiet = count_quiet(found) as u64;
    append_line(alloc, &mut text, Item::Edits(quiet, found.len() as u64))?;
    Ok(text)
}

// Tells what is found of the instances that edit files.
fn tell_findings<O: Sink>(alloc: Global, instances: &[Instance], out: &mut O) -> Result<End, Stop>
    ensures told { IfOk result
        (λ end. TellsFindings instances.now end (O.shown out.old) (O.shown out.new)) }
    ensures stopped { IfErr result (StopsPutting (IsFindingsText instances.now)
        (O.shown out.old) (O.shown out.new)) }
{
    let found = find_clashes(alloc, instances)?;
    let text = search_text(alloc, &found)?;
    put_all(out, text.as_bytes())?;
    Ok(search_end(&found))
}

/// Searches the edits of a policy for clashes: walks it, and puts what is found of each script, and how many are quiet.
pub fn search_policy<O: Sink, P: Patterns>(
    alloc: Global,
    policy: &PolicyInContext,
    out: &mut O,
    pats: &mut P,
) -> Result<End, Stop>
    ensures { PolicySearched (setting_in policy.now) (O.shown out.old) (O.shown out.new)
        (P.shown pats.old) (P.shown pats.new) result }
{
    match walk(alloc, &policy.checked, &policy.context, Telling::Open, pats) {
        Ok(walk) => tell_findings(alloc, walk.instances.as_slice(), out),
        Err(WalkErr::TooLarge) => Err(Stop::Visits),
        Err(WalkErr::PatternTooBig(text)) => Err(Stop::Pattern(text)),
        Err(WalkErr::NoMemory) => Err(Stop::Memory),
    }
}
