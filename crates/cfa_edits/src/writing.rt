// The texts of edits.
ghost use Rattle.std.specs.Prelude.{◌≡◌, ◌++◌, ℕ, List, map, codes, OnOk, string_bytes, if◌then◌else◌};
ghost use Rattle.std.specs.List.{join_with_byte};
ghost use Rattle.cfa_base.specs.Escapes.{escaped};
ghost use Rattle.cfa_edits.specs.Scripts.{script_text, edit_text, spot_name, spot_pattern, block_text};

use crate::{Edit, Spot};
use cfa_base::{Names, NoMemory, escape_bytes};
use std::alloc::Global;

/// Writes the text of edits behind a text.
pub fn write_edits(alloc: Global, text: &mut String, edits: &[Edit]) -> Result<(), NoMemory>
    ensures { OnOk result (string_bytes text.new ≡ string_bytes text.old ++ script_text edits.now) }
{
    let mut is_first = true;
    for edit in edits {
        if !is_first {
            text.push_str(",")?;
        }
        is_first = false;
        write_edit(alloc, text, edit)?;
    }
    Ok(())
}

fn write_edit(alloc: Global, text: &mut String, edit: &Edit) -> Result<(), NoMemory>
    ensures { OnOk result (string_bytes text.new ≡ string_bytes text.old ++ edit_text edit.now) }
{
    match edit {
        Edit::Delete(pattern) => write_behind(alloc, text, "d:", pattern.text()),
        Edit::Field(pattern, separator, number, value) => {
            write_behind(alloc, text, "f:", pattern.text())?;
            write_behind(alloc, text, ":", separator.encode_utf8(&mut [0; 4]))?;
            write!(text, ":{number}")?;
            write_behind(alloc, text, ":", value.as_str())
        }
        Edit::Insert(block, spot) => {
            text.push_str("i:")?;
            write_spot(alloc, text, spot)?;
            text.push_str(":")?;
            write_block(alloc, text, block)
        }
        Edit::Replace(pattern, value, all) => {
            let word = if *all { "r:all:" } else { "r:first:" };
            write_behind(alloc, text, word, pattern.text())?;
            write_behind(alloc, text, ":", value.as_str())
        }
    }
}

// The name of a spot and the pattern of its anchor.
fn write_spot(alloc: Global, text: &mut String, spot: &Spot) -> Result<(), NoMemory>
    ensures { OnOk result (string_bytes text.new ≡ string_bytes text.old
        ++ (spot_name spot.now ++ (codes ":" ++ escaped (spot_pattern spot.now)))) }
{
    text.push_str(word_of(spot))?;
    text.push_str(":")?;
    match spot {
        Spot::Start => {}
        Spot::End => {}
        Spot::Before(pattern, _) => write_escaped(alloc, text, pattern.text())?,
        Spot::After(pattern, _) => write_escaped(alloc, text, pattern.text())?,
    }
    Ok(())
}

fn word_of(spot: &Spot) -> &'static str
    ensures { result.now ≡ spot_name spot.now }
{
    match spot {
        Spot::Start => "start",
        Spot::End => "end",
        Spot::Before(_, true) => "before-first",
        Spot::Before(_, false) => "before-last",
        Spot::After(_, true) => "after-first",
        Spot::After(_, false) => "after-last",
    }
}

fn write_block(alloc: Global, text: &mut String, block: &Names) -> Result<(), NoMemory>
    ensures { OnOk result (string_bytes text.new ≡ string_bytes text.old ++ block_text block.now) }
{
    let mut is_first = true;
    for line in block.as_slice() {
        if !is_first {
            text.push_str("+")?;
        }
        is_first = false;
        write_escaped(alloc, text, line.as_str())?;
    }
    Ok(())
}

// A word and a field behind it.
fn write_behind(alloc: Global, text: &mut String, word: &str, field: &str) -> Result<(), NoMemory>
    ensures { OnOk result (string_bytes text.new
        ≡ string_bytes text.old ++ (word.now ++ escaped field.now)) }
{
    text.push_str(word)?;
    write_escaped(alloc, text, field)
}

fn write_escaped(alloc: Global, text: &mut String, field: &str) -> Result<(), NoMemory>
    ensures { OnOk result (string_bytes text.new ≡ string_bytes text.old ++ escaped field.now) }
{
    let escaped = escape_bytes(alloc, field.as_bytes())?;
    Ok(text.push_str(escaped.as_str())?)
}
