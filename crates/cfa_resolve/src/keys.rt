// The key texts of instances.
ghost use Rattle.std.specs.Prelude.{◌≡◌, ◌++◌, ◌∷◌, [], IfOk, OnOk, codes, map};
ghost use Rattle.std.specs.List.{flat_map};
ghost use Rattle.std.specs.Fmt.{decimal};
ghost use Rattle.std.specs.String.{string_bytes};
ghost use Rattle.cfa_base.specs.Escapes.{escaped};
ghost use Rattle.cfa_resolve.specs.KeyTexts.{fields_after, mode_field, names_field, act_text, datum_text, work_text, classes_text, key_text};

use crate::Work;
use crate::classes::Outcomes;
use crate::fields::{add_escaped, add_field, add_joined, add_mode, add_names, yes_or_no};
use cfa_acts::Act;
use cfa_base::{Name, NoMemory, PromiseId, escape_bytes};
use cfa_vars::Datum;
use std::alloc::Global;

// Few key texts are longer. Room for so many bytes is taken at once.
const USUAL_LENGTH: usize = 96;

// Adds a word, a name behind it, escaped, and a field.
fn add_two(
    alloc: Global,
    whole: &mut String,
    word: &str,
    name: &Name,
    field: &str,
) -> Result<(), NoMemory>
    ensures { OnOk result (string_bytes whole.new ≡ string_bytes whole.old
        ++ (word.now ++ (escaped name.now ++ (32 ∷ field.now)))) }
{
    add_escaped(alloc, whole, word, name)?;
    add_field(whole, " ", field)
}

// Adds the text of a copy.
fn add_copy(alloc: Global, whole: &mut String, source: &Name, path: &Name) -> Result<(), NoMemory>
    ensures { OnOk result (string_bytes whole.new ≡ string_bytes whole.old
        ++ (59 ∷ fields_after (codes "copy") (escaped source.now ∷ escaped path.now ∷ []))) }
{
    add_escaped(alloc, whole, ";copy ", source)?;
    add_escaped(alloc, whole, " ", path)
}

// Adds the text of permissions.
fn add_perms(
    alloc: Global,
    whole: &mut String,
    path: &Name,
    mode: Option<u16>,
    owners: &[Name],
    groups: &[Name],
) -> Result<(), NoMemory>
    ensures { OnOk result (string_bytes whole.new ≡ string_bytes whole.old
        ++ (59 ∷ fields_after (codes "perms") (escaped path.now ∷ mode_field mode
        ∷ names_field owners.now ∷ names_field groups.now ∷ []))) }
{
    add_escaped(alloc, whole, ";perms ", path)?;
    add_mode(whole, mode)?;
    add_names(alloc, whole, owners)?;
    add_names(alloc, whole, groups)
}

// Adds the text of an act that can't be made.
fn add_bust(alloc: Global, whole: &mut String, code: &str, promiser: &Name) -> Result<(), NoMemory>
    ensures { OnOk result (string_bytes whole.new ≡ string_bytes whole.old
        ++ (59 ∷ fields_after (codes "bust") (code.now ∷ escaped promiser.now ∷ []))) }
{
    add_field(whole, ";bust ", code)?;
    add_escaped(alloc, whole, " ", promiser)
}

// Adds the text of an act, `;` before it.
fn add_act(alloc: Global, promiser: &Name, act: &Act, whole: &mut String) -> Result<(), NoMemory>
    ensures { OnOk result (string_bytes whole.new
        ≡ string_bytes whole.old ++ (59 ∷ act_text promiser.now act.now)) }
{
    match act {
        Act::Create(path) => add_escaped(alloc, whole, ";create ", path.text()),
        Act::MakeDir(path) => add_escaped(alloc, whole, ";mkdir ", path.text()),
        Act::Delete(path, with_directories) => {
            add_two(
                alloc,
                whole,
                ";delete ",
                path.text(),
                yes_or_no(*with_directories),
            )
        }
        Act::Content(path, bytes) => {
            let field = escape_bytes(alloc, bytes.as_slice())?;
            add_two(alloc, whole, ";content ", path.text(), field.as_str())
        }
        Act::Copy(source, path) => add_copy(alloc, whole, source.text(), path.text()),
        Act::Edit(path, script) => {
            add_two(alloc, whole, ";edit ", path.text(), script.text().as_str())
        }
        Act::Perms(path, mode, owners, groups) => {
            let (owners, groups) = (owners.as_slice(), groups.as_slice());
            add_perms(alloc, whole, path.text(), *mode, owners, groups)
        }
        Act::Start(name) => add_escaped(alloc, whole, ";start ", name),
        Act::Stop(name) => add_escaped(alloc, whole, ";stop ", name),
        Act::Enable(name) => add_escaped(alloc, whole, ";enable ", name),
        Act::Disable(name) => add_escaped(alloc, whole, ";disable ", name),
        Act::Restart(name) => add_escaped(alloc, whole, ";restart ", name),
        Act::Bust(reason) => add_bust(alloc, whole, reason.code(), promiser),
    }
}

// Adds the texts of acts, `;` before each.
fn add_acts(
    alloc: Global,
    promiser: &Name,
    acts: &[Act],
    whole: &mut String,
) -> Result<(), NoMemory>
    ensures { OnOk result (string_bytes whole.new ≡ string_bytes whole.old
        ++ flat_map (λ act. 59 ∷ act_text promiser.now act) acts.now) }
{
    for act in acts {
        add_act(alloc, promiser, act, whole)?;
    }
    Ok(())
}

// Adds a space and the text of a list.
fn add_list(alloc: Global, items: &[Name], whole: &mut String) -> Result<(), NoMemory>
    ensures { OnOk result (string_bytes whole.new ≡ string_bytes whole.old
        ++ (codes " l" ++ flat_map (λ item. 44 ∷ escaped item) items.now)) }
{
    whole.push_str(" l")?;
    for item in items {
        add_escaped(alloc, whole, ",", item)?;
    }
    Ok(())
}

// Adds a space and the text of an argument.
fn add_datum(alloc: Global, datum: &Datum, whole: &mut String) -> Result<(), NoMemory>
    ensures { OnOk result
        (string_bytes whole.new ≡ string_bytes whole.old ++ (32 ∷ datum_text datum.now)) }
{
    match datum {
        Datum::Text(content) => add_escaped(alloc, whole, " t", content),
        Datum::List(items) => add_list(alloc, items.as_slice(), whole),
    }
}

// Adds the text of a call, `;` before it.
fn add_call(
    alloc: Global,
    name: &Name,
    arguments: &[Datum],
    whole: &mut String,
) -> Result<(), NoMemory>
    ensures { OnOk result (string_bytes whole.new ≡ string_bytes whole.old
        ++ (59 ∷ fields_after (codes "call") (name.now ∷ map datum_text arguments.now))) }
{
    add_field(whole, ";call ", name.as_str())?;
    for datum in arguments {
        add_datum(alloc, datum, whole)?;
    }
    Ok(())
}

// Adds the parts of a work.
fn add_work(alloc: Global, promiser: &Name, work: &Work, whole: &mut String) -> Result<(), NoMemory>
    ensures { OnOk result (string_bytes whole.new
        ≡ string_bytes whole.old ++ work_text promiser.now work.now) }
{
    match work {
        Work::Acts(acts) => add_acts(alloc, promiser, acts.as_slice(), whole),
        Work::Call(name, data) => add_call(alloc, name, data.as_slice(), whole),
        Work::Report(content) => add_escaped(alloc, whole, ";report ", content),
    }
}

// Adds what stands before the classes of an outcome, and the classes.
fn add_classes(before: &str, classes: &[Name], whole: &mut String) -> Result<(), NoMemory>
    ensures { OnOk result (string_bytes whole.new
        ≡ string_bytes whole.old ++ (before.now ++ classes_text classes.now)) }
{
    whole.push_str(before)?;
    add_joined(whole, classes)
}

/// The key text of an instance. What couldn't be made tells this promiser there.
#[tactic(auto, unfolding(crate::specs::KeyTexts::key_text))]
pub(crate) fn key_text(
    alloc: Global,
    id: &PromiseId,
    promiser: &Name,
    work: &Work,
    outcomes: &Outcomes,
    minutes: u32,
) -> Result<Name, NoMemory>
    ensures { IfOk result (λ t. t ≡ key_text id.now promiser.now work.now outcomes.now.kept
        outcomes.now.repaired outcomes.now.failed minutes) }
{
    let (bundle, number) = (id.bundle.as_str(), id.number);
    let mut text = String::with_capacity(alloc, USUAL_LENGTH)?;
    write!(text, "{bundle} {number}")?;
    add_work(alloc, promiser, work, &mut text)?;
    add_classes(";k=", outcomes.kept.as_slice(), &mut text)?;
    add_classes(";r=", outcomes.repaired.as_slice(), &mut text)?;
    add_classes(";f=", outcomes.failed.as_slice(), &mut text)?;
    write!(text, ";e={minutes}")?;
    Ok(Name::from_string(text)?)
}
