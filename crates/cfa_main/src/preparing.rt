// The first phase of a call: its words and its moment are read, and the policy or journal that the words name. Neither the
// site nor the sink is touched.
ghost use Rattle.std.specs.Prelude.{◌≡◌, ◌≤◌, ◌++◌, IfOk, IfErr};
ghost use Rattle.cfa_classes.specs.Calendar.{hard_classes};
ghost use Rattle.cfa_output.specs.Lines.{line_of};
ghost use Rattle.cfa_main.specs.Stages.{PolicyPrepared, RunPrepared, RequestPrepared, IsRefusalWith, Prepared};

use crate::auditing::audit_journal;
use crate::histories::recount_journal;
use crate::work::{PolicyInContext, PolicyRun, Work};
use cfa_base::{LAST_MOMENT, Name, Names, NoMemory, Patterns};
use cfa_classes::hard;
use cfa_output::{Failure, Item, line_of};
use cfa_outside::Inputs;
use cfa_printer::print;
use cfa_sources::{read_policy, read_tree_of};
use cfa_walk::Context;
use cfa_words::{Options, Request, read_words};
use std::alloc::Global;

// The classes of the calendar, and then those that are handed in.
fn context_of(alloc: Global, moment: u64, handed_in: &Names) -> Result<Context, NoMemory>
    requires { moment ≤ LAST_MOMENT }
    ensures { IfOk result
        (λ context. context.classes ≡ hard_classes moment ++ handed_in.now) }
{
    let mut classes = hard(alloc, moment)?;
    for class in handed_in.as_slice() {
        classes.push(class.copy(alloc)?)?;
    }
    Ok(Context { classes })
}

/// A policy, with the classes that are set from the start.
pub fn prepare_policy<I: Inputs, P: Patterns>(
    alloc: Global,
    policy: &Name,
    handed_in: &Names,
    moment: u64,
    inputs: &mut I,
    pats: &mut P,
) -> Result<PolicyInContext, Failure>
    requires { moment ≤ LAST_MOMENT }
    ensures { PolicyPrepared policy.now handed_in.now moment
        (I.shown inputs.old) (I.shown inputs.new) (P.shown pats.old) (P.shown pats.new) result }
{
    let checked = read_policy(alloc, policy, inputs, pats)?;
    let context = context_of(alloc, moment, handed_in)?;
    Ok(PolicyInContext { checked, context })
}

// The run of a policy.
fn prepare_run<I: Inputs, P: Patterns>(
    alloc: Global,
    policy: &Name,
    options: &Options,
    moment: u64,
    inputs: &mut I,
    pats: &mut P,
) -> Result<PolicyRun, Failure>
    requires { moment ≤ LAST_MOMENT }
    ensures { RunPrepared policy.now options.now moment (I.shown inputs.old) (I.shown inputs.new)
        (P.shown pats.old) (P.shown pats.new) result }
{
    let policy = prepare_policy(alloc, policy, &options.classes, moment, inputs, pats)?;
    Ok(PolicyRun {
        policy,
        locks: options.locks,
        strict: options.strict,
    })
}

// The work of a request.
fn prepare_request<I: Inputs, P: Patterns>(
    alloc: Global,
    request: &Request,
    moment: u64,
    inputs: &mut I,
    pats: &mut P,
) -> Result<Work, Failure>
    requires { moment ≤ LAST_MOMENT }
    ensures { RequestPrepared request.now moment (I.shown inputs.old) (I.shown inputs.new)
        (P.shown pats.old) (P.shown pats.new) result }
{
    match request {
        Request::Run(policy, options) => {
            let order = prepare_run(alloc, policy, options, moment, inputs, pats)?;
            Ok(Work::Run(order))
        }
        Request::Show(policy) => {
            let tree = read_tree_of(alloc, policy, inputs)?;
            let text = print(alloc, &tree);
            drop(tree);
            Ok(Work::Show(text?))
        }
        Request::Check(policy, classes) => {
            let policy = prepare_policy(alloc, policy, classes, moment, inputs, pats)?;
            Ok(Work::Judge(policy))
        }
        Request::Audit(journal) => Ok(Work::Show(audit_journal(alloc, journal, inputs)?)),
        Request::Edits(policy, classes) => {
            let policy = prepare_policy(alloc, policy, classes, moment, inputs, pats)?;
            Ok(Work::Search(policy))
        }
        Request::History(journal) => Ok(Work::Show(recount_journal(alloc, journal, inputs)?)),
    }
}

/// The refusal that this item tells.
pub fn refusal(alloc: Global, item: Item) -> Failure
    ensures { IsRefusalWith (line_of item) result }
{
    match line_of(alloc, item) {
        Ok(line) => Failure::Refused(line),
        Err(error) => Failure::from(error),
    }
}

/// Reads what a call is asked for, up to the work that is to be done.
pub fn prepare<I: Inputs, P: Patterns>(
    alloc: Global,
    words: &[Name],
    moment: u64,
    inputs: &mut I,
    pats: &mut P,
) -> Result<Work, Failure>
    ensures { Prepared words.now moment (I.shown inputs.old) (I.shown inputs.new)
        (P.shown pats.old) (P.shown pats.new) result }
{
    let Some(request) = read_words(alloc, words)? else {
        return Err(refusal(alloc, Item::WordsRefused));
    };
    if moment > LAST_MOMENT {
        drop(request);
        return Err(refusal(alloc, Item::MomentRefused));
    }
    let prepared = prepare_request(alloc, &request, moment, inputs, pats);
    drop(request);
    prepared
}
