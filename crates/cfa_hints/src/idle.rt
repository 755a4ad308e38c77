// What a policy says of which nothing comes: names that are never set, classes that nothing raises, bundles that nothing calls, and
// classes of -D that nothing asks for.
ghost use Rattle.std.specs.Prelude.{◌≤◌, ◌⊎◌, List, length, All, Contains, IfOk, IfSome};
ghost use Rattle.cfa_base.specs.Index.{Text};
ghost use Rattle.cfa_uses.specs.declared.uses.Uses.{Uses};
ghost use Rattle.cfa_hints.specs.Findings.{IsTrueOf, IsOneOf};

use crate::calendar::is_of_calendar;
use crate::near::{Nearest, nearest_of};
use crate::standing::stands;
use cfa_advice::Sources;
use cfa_base::{NoMemory, PairIndex};
use cfa_uses::{Mention, NameSet, Uses, uses_of};
use std::alloc::{AllocError, Global};

// The most of these that are told.
const MOST_TOLD: usize = 20;

/// Something of which nothing comes.
#[derive(Clone, Copy)]
pub enum Finding<'a> {
    /// A reference to a name that is never set, and the nearest one of its bundle that is, if any.
    Unset(Mention<'a>, &'a str),
    /// A class that nothing raises, where it is asked for, and the nearest one that something raises, if any.
    Unraised(Mention<'a>, &'a str),
    /// A bundle that is neither in the sequence nor called.
    Uncalled(Mention<'a>),
    /// A class of -D that nothing asks for, and the nearest one that something asks for, if any.
    Unasked(&'a str, &'a str),
}

// A place, the name there, what is told of it, and the name that is meant perhaps.
fn line_at(alloc: Global, at: Mention<'_>, what: &str, near: &str) -> Result<String, AllocError> {
    let (source, line, col, name) = (at.source, at.line, at.col, at.name);
    if near.is_empty() {
        format!(in alloc; "{source}:{line}:{col}: {name} {what}\n")
    } else {
        format!(in alloc; "{source}:{line}:{col}: {name} {what} ({near}?)\n")
    }
}

fn class_line(alloc: Global, class: &str, near: &str) -> Result<String, AllocError> {
    if near.is_empty() {
        format!(in alloc; "-D {class}: no guard asks for it\n")
    } else {
        format!(in alloc; "-D {class}: no guard asks for it ({near}?)\n")
    }
}

// The line that tells of a finding.
fn line_of(alloc: Global, finding: Finding<'_>) -> Result<String, AllocError> {
    match finding {
        Finding::Unset(at, near) => line_at(
            alloc,
            at,
            "is never set, so that nothing comes of what refers to it",
            near,
        ),
        Finding::Unraised(at, near) => line_at(
            alloc,
            at,
            "is raised by nothing, and isn't given by -D",
            near,
        ),
        Finding::Uncalled(at) => line_at(alloc, at, "is neither in the sequence nor called", ""),
        Finding::Unasked(class, near) => class_line(alloc, class, near),
    }
}

// Adds a finding, where there is one.
fn keep<'a>(found: &mut Vec<Finding<'a>>, finding: Option<Finding<'a>>) -> Result<(), NoMemory>
    ensures { (sources : List (Text × Text)) → (uses : Uses) → (defined : List Text) →
        IfSome finding.entry (IsTrueOf sources uses defined) →
        All (IsTrueOf sources uses defined) found.old.items →
        All (IsTrueOf sources uses defined) found.new.items }
{
    let Some(finding) = finding else {
        return Ok(());
    };
    found.push(finding)?;
    Ok(())
}

// Adds findings.
fn add<'a>(found: &mut Vec<Finding<'a>>, more: &[Finding<'a>]) -> Result<(), NoMemory>
    ensures { (sources : List (Text × Text)) → (uses : Uses) → (defined : List Text) →
        All (IsTrueOf sources uses defined) found.old.items →
        All (IsTrueOf sources uses defined) more.now →
        All (IsTrueOf sources uses defined) found.new.items }
{
    found.extend_from_slice(more)?;
    Ok(())
}

// The variable of its bundle that is nearest to one that is never set; empty where none is alike.
fn nearest_variable<'a>(uses: &Uses<'a>, wanted: Mention<'_>) -> &'a str {
    let mut best = Nearest::none();
    for (bundle, name) in uses.variables.pairs() {
        if *bundle == wanted.of {
            best = best.or(wanted.name, name);
        }
    }
    best.name()
}

// What is told of a reference, but once of each name.
fn unset_at<'a>(
    alloc: Global,
    seen: &mut PairIndex<'a>,
    sources: &Sources,
    uses: &Uses<'a>,
    mention: Mention<'a>,
) -> Result<Option<Finding<'a>>, NoMemory>
    requires { Contains uses.now.references.items mention }
    ensures { (defined : List Text) →
        IfOk result (λ found. IfSome found (IsTrueOf sources.now uses.now defined)) }
{
    if uses.is_set(mention.of, mention.name) || !seen.add(mention.of, mention.name)? {
        return Ok(None);
    }
    if !stands(alloc, sources, mention)? {
        return Ok(None);
    }
    let near = nearest_variable(uses, mention);
    Ok(Some(Finding::Unset(mention, near)))
}

fn unset_of<'a>(
    alloc: Global,
    sources: &Sources,
    uses: &Uses<'a>,
) -> Result<Vec<Finding<'a>>, NoMemory>
    ensures { (defined : List Text) →
        IfOk result (λ found. All (IsTrueOf sources.now uses.now defined) found.items) }
{
    let mut found = Vec::new(alloc);
    let mut seen = PairIndex::new(alloc);
    for mention in &uses.references {
        if found.len() >= MOST_TOLD {
            break;
        }
        let finding = unset_at(alloc, &mut seen, sources, uses, *mention)?;
        keep(&mut found, finding)?;
    }
    Ok(found)
}

fn nearest_class<'a>(uses: &Uses<'a>, defined: &NameSet<'a>, class: &str) -> &'a str
    ensures { IsOneOf uses.now.raised result.now ⊎ IsOneOf defined.now result.now }
{
    let near = nearest_of(class, uses.raised.names());
    if near.is_empty() {
        nearest_of(class, defined.names())
    } else {
        near
    }
}

// What is told of a class where it is asked for, but once of each.
fn unraised_at<'a>(
    alloc: Global,
    seen: &mut NameSet<'a>,
    sources: &Sources,
    uses: &Uses<'a>,
    defined: &NameSet<'a>,
    mention: Mention<'a>,
) -> Result<Option<Finding<'a>>, NoMemory>
    requires { Contains uses.now.classes.items mention }
    ensures { IfOk result
        (λ found. IfSome found (IsTrueOf sources.now uses.now defined.now)) }
{
    let class = mention.name;
    if uses.raised.has(class) || defined.has(class) || uses.may_be_made(class) {
        return Ok(None);
    }
    if is_of_calendar(class) || !seen.add(class)? || !stands(alloc, sources, mention)? {
        return Ok(None);
    }
    let near = nearest_class(uses, defined, class);
    Ok(Some(Finding::Unraised(mention, near)))
}

fn unraised_of<'a>(
    alloc: Global,
    sources: &Sources,
    uses: &Uses<'a>,
    defined: &NameSet<'a>,
) -> Result<Vec<Finding<'a>>, NoMemory>
    ensures { IfOk result
        (λ found. All (IsTrueOf sources.now uses.now defined.now) found.items) }
{
    let mut found = Vec::new(alloc);
    let mut seen = NameSet::new(alloc);
    for mention in &uses.classes {
        if found.len() >= MOST_TOLD {
            break;
        }
        let finding = unraised_at(alloc, &mut seen, sources, uses, defined, *mention)?;
        keep(&mut found, finding)?;
    }
    Ok(found)
}

// Whether a bundle is gone through in any case.
fn is_first(uses: &Uses<'_>, bundle: Mention<'_>) -> bool {
    bundle.of == "common" || bundle.name == "main" && !uses.has_sequence
}

fn uncalled_at<'a>(
    alloc: Global,
    sources: &Sources,
    uses: &Uses<'a>,
    bundle: Mention<'a>,
) -> Result<Option<Finding<'a>>, NoMemory>
    requires { Contains uses.now.bundles.items bundle }
    ensures { (defined : List Text) →
        IfOk result (λ found. IfSome found (IsTrueOf sources.now uses.now defined)) }
{
    if uses.may_be_made(bundle.name) {
        return Ok(None);
    }
    if is_first(uses, bundle) || !stands(alloc, sources, bundle)? {
        return Ok(None);
    }
    Ok(Some(Finding::Uncalled(bundle)))
}

fn uncalled_of<'a>(
    alloc: Global,
    sources: &Sources,
    uses: &Uses<'a>,
) -> Result<Vec<Finding<'a>>, NoMemory>
    ensures { (defined : List Text) →
        IfOk result (λ found. All (IsTrueOf sources.now uses.now defined) found.items) }
{
    let mut found = Vec::new(alloc);
    for bundle in &uses.bundles {
        if found.len() >= MOST_TOLD {
            break;
        }
        let finding = uncalled_at(alloc, sources, uses, *bundle)?;
        keep(&mut found, finding)?;
    }
    Ok(found)
}

fn unasked_at<'a>(uses: &Uses<'a>, class: &'a str) -> Option<Finding<'a>>
    ensures { (sources : List (Text × Text)) → (defined : List Text) →
        IfSome result (IsTrueOf sources uses.now defined) }
{
    if uses.asks_freely || uses.asked.has(class) {
        return None;
    }
    let near = nearest_of(class, uses.asked.names());
    Some(Finding::Unasked(class, near))
}

fn unasked_of<'a>(
    alloc: Global,
    uses: &Uses<'a>,
    defined: &NameSet<'a>,
) -> Result<Vec<Finding<'a>>, NoMemory>
    ensures { (sources : List (Text × Text)) →
        IfOk result (λ found. All (IsTrueOf sources uses.now defined.now) found.items) }
{
    let mut found = Vec::new(alloc);
    for class in defined.names() {
        if found.len() >= MOST_TOLD {
            break;
        }
        keep(&mut found, unasked_at(uses, class))?;
    }
    Ok(found)
}

/// Of what nothing comes in a policy, by what is found in its texts, and in the classes that its call sets from the start: up to 20
/// findings, one for each name, class and bundle. What may come of it after all, by a name that is put together in a run, isn't among them.
pub fn findings_of<'a>(
    alloc: Global,
    sources: &Sources,
    uses: &Uses<'a>,
    defined: &NameSet<'a>,
) -> Result<Vec<Finding<'a>>, NoMemory>
    ensures true_of { IfOk result
        (λ found. All (IsTrueOf sources.now uses.now defined.now) found.items) }
    ensures few { IfOk result (λ found. length found.items ≤ 20) }
{
    let mut found = unset_of(alloc, sources, uses)?;
    let unraised = unraised_of(alloc, sources, uses, defined)?;
    add(&mut found, unraised.as_slice())?;
    let uncalled = uncalled_of(alloc, sources, uses)?;
    add(&mut found, uncalled.as_slice())?;
    let unasked = unasked_of(alloc, uses, defined)?;
    add(&mut found, unasked.as_slice())?;
    found.truncate(MOST_TOLD);
    Ok(found)
}

// The classes of a list, with a comma between two.
fn classes_of<'a>(alloc: Global, list: &'a str) -> Result<NameSet<'a>, NoMemory> {
    let mut classes = NameSet::new(alloc);
    for class in list.split(',') {
        if !class.is_empty() {
            classes.add(class)?;
        }
    }
    Ok(classes)
}

/// What is told of a valid policy, and of the classes that its call set from the start: a line for each finding. The names of the
/// classes have a comma between two.
pub fn idle_text(alloc: Global, sources: &Sources, list: &str) -> Result<String, NoMemory> {
    let mut text = String::new(alloc);
    let defined = classes_of(alloc, list)?;
    let Some(uses) = uses_of(alloc, sources)? else {
        return Ok(text);
    };
    for finding in &findings_of(alloc, sources, &uses, &defined)? {
        let line = line_of(alloc, *finding)?;
        text.push_str(line.as_str())?;
    }
    Ok(text)
}
