// Scripts.
ghost use Rattle.std.specs.Prelude.{◌≡◌, ◌↔◌, ◌≤◌, Ok, IsTrue, IfOk, IfErr, IfSome, OnOk};
ghost use Rattle.cfa_edits.specs.Edits.{edited, edited_by};
ghost use Rattle.cfa_edits.specs.Scripts.{AreEdits, IsEdit, script_text};
ghost use Rattle.cfa_edits.specs.Answers.{IsRefusalOf};
ghost use Rattle.cfa_edits.specs.Laws.{TextsTellScripts};
ghost use Rattle.cfa_edits.specs.Steps.{block_of, blocks_of, AreAmong, HasLacking};

use crate::inserting::{insert, wanted_lines};
use crate::lining::{delete, edit_fields, replace};
use crate::writing::write_edits;
use crate::{Edit, EditErr};
use cfa_base::{Name, Names, NoMemory, Parts};
use cfa_lines::Deck;
use std::alloc::Global;
use std::collections::HashSet;
use std::fmt;
use std::marker::Model;

/// Edits of the lines of a text, deletes first, then field edits, inserts and replaces, with their text. Contracts see the
/// edits.
#[derive(Drop)]
pub struct Script {
    edits: Parts<Edit>,
    text: Name,
}

impl Model for Script {
    ghost use Rattle.std.specs.Prelude.{◌≡◌, List};
    ghost use Rattle.cfa_edits.specs.declared.edits.Edit.{Edit};
    ghost use Rattle.cfa_edits.specs.Scripts.{AreEdits, script_text};

    ghost Value = { List Edit };

    ghost view = { λ s. s.edits };

    ghost invariant = { λ s. AreEdits s.edits × (s.text ≡ script_text s.edits) };
}

impl fmt::Debug for Script {
    fn fmt<W: fmt::Write>(&self, f: &mut fmt::Formatter<W>) -> fmt::Result {
        f.write_str(self.text.as_str())
    }
}

impl Script {
    /// The script of these edits.
    pub fn new(alloc: Global, edits: Parts<Edit>) -> Result<Script, NoMemory>
        requires { AreEdits edits }
        ensures { IfOk result (λ script. script ≡ edits) }
    {
        let mut text = String::new(alloc);
        write_edits(alloc, &mut text, edits.as_slice())?;
        Ok(Script {
            edits,
            text: Name::from_string(text)?,
        })
    }

    /// The edits, without taking memory.
    pub fn edits(&self) -> &[Edit]
        ensures edits { result.now ≡ self.now }
        ensures facts { AreEdits self.now }
    {
        self.edits.as_slice()
    }

    /// The text of the edits, without taking memory.
    pub fn text(&self) -> &Name
        ensures { result.now ≡ script_text self.now }
    {
        &self.text
    }

    /// The lines after the edits in their order, or the first refusal.
    pub fn apply(&self, alloc: Global, lines: &Names) -> Result<Names, EditErr>
        ensures lines { IfOk result (λ left. edited self.now lines.now ≡ Ok left) }
        ensures refused { IfErr result (IsRefusalOf (edited self.now lines.now)) }
    {
        let mut deck = Deck::from_names(alloc, lines)?;
        edit_deck(alloc, &mut deck, self.edits())?;
        Ok(deck.into_names())
    }

    /// Whether the edits leave the lines as they are.
    pub fn settled(&self, alloc: Global, lines: &Names) -> Result<bool, NoMemory>
        ensures { IfOk result (λ yes. IsTrue yes ↔ (edited self.now lines.now ≡ Ok lines.now)) }
    {
        match self.apply(alloc, lines) {
            Ok(left) => Ok(left.equals(lines)),
            Err(EditErr::NoAnchor) => Ok(false),
            Err(EditErr::FieldCount) => Ok(false),
            Err(EditErr::NoMemory) => Err(NoMemory),
        }
    }
}

/// The law that scripts with equal texts have equal edits.
pub fn texts_tell_scripts()
    ensures { TextsTellScripts }
{}

// Edits the lines of a deck, one edit after the other.
fn edit_deck(alloc: Global, deck: &mut Deck, edits: &[Edit]) -> Result<(), EditErr>
    requires { AreEdits edits.now }
    ensures ok { OnOk result (edited edits.now deck.old.lines ≡ Ok deck.new.lines) }
    ensures refused { IfErr result (IsRefusalOf (edited edits.now deck.old.lines)) }
{
    let mut wanted = None;
    for edit in edits {
        wanted = edit_once(alloc, deck, edits, edit, wanted)?;
    }
    Ok(())
}

// Makes one of the edits. An insert hands on which lines of all blocks the deck still lacks, so that the next insert doesn't
// look for them again.
fn edit_once<'a>(
    alloc: Global,
    deck: &mut Deck,
    edits: &'a [Edit],
    edit: &'a Edit,
    wanted: Option<HashSet<&'a str>>,
) -> Result<Option<HashSet<&'a str>>, EditErr>
    requires edit { IsEdit edit.now }
    requires block { AreAmong (block_of edit.now) (blocks_of edits.now) }
    requires wanted { IfSome wanted
        (λ set. HasLacking set (blocks_of edits.now) deck.old.lines) }
    ensures ok { OnOk result (edited_by edit.now deck.old.lines ≡ Ok deck.new.lines) }
    ensures wanted { IfOk result (λ left. IfSome left
        (λ set. HasLacking set (blocks_of edits.now) deck.new.lines)) }
    ensures refused { IfErr result (IsRefusalOf (edited_by edit.now deck.old.lines)) }
{
    match edit {
        Edit::Delete(pattern) => {
            delete(alloc, deck, pattern)?;
            Ok(None)
        }
        Edit::Field(pattern, separator, number, value) => {
            edit_fields(alloc, deck, pattern, *separator, *number, value)?;
            Ok(None)
        }
        Edit::Insert(block, spot) => {
            let mut lines = wanted_lines(alloc, deck, edits, wanted)?;
            insert(alloc, deck, &mut lines, block, spot)?;
            Ok(Some(lines))
        }
        Edit::Replace(pattern, value, all) => {
            replace(alloc, deck, pattern, value, *all)?;
            Ok(None)
        }
    }
}
