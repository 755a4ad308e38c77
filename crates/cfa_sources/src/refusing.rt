// The lines of refusals.
ghost use Rattle.std.specs.Prelude.{◌≡◌, IfOk};
ghost use Rattle.cfa_output.specs.Lines.{source_long_line};
ghost use Rattle.cfa_sources.specs.Lines.{line_at};
ghost use Rattle.cfa_sources.specs.Checks.{file_name, schema_line};
ghost use Rattle.cfa_sources.specs.Steps.{LexTells, ParseTells};

use crate::headings::heading_of;
use cfa_base::{Name, NoMemory, Place};
use cfa_lexer::LexErr;
use cfa_output::{Item, Stop, line_of};
use cfa_parser::ParseErr;
use cfa_schema::Refusal;
use std::alloc::Global;

// The line of a refusal at a place of the file of this name.
fn line_at(
    alloc: Global,
    name: &Name,
    place: Place,
    code: &str,
    word: &str,
) -> Result<Name, NoMemory>
    ensures { IfOk result (λ line. line ≡ line_at name.now place code.now word.now) }
{
    let code = Name::from_text(alloc, code)?;
    let word = Name::from_text(alloc, word)?;
    let (row, col) = (u64::from(place.line), u64::from(place.col));
    line_of(
        alloc,
        Item::Refused(name.copy(alloc)?, row, col, code, word),
    )
}

// The line of a file that is too long.
fn long_line(alloc: Global, name: &Name) -> Result<Name, NoMemory>
    ensures { IfOk result (λ line. line ≡ source_long_line name.now) }
{
    line_of(alloc, Item::SourceLong(name.copy(alloc)?))
}

/// The line of the lexer's refusal of a file.
pub fn lex_line(alloc: Global, name: &Name, error: LexErr) -> Result<Name, Stop>
    ensures { LexTells name.now error result }
{
    match error {
        LexErr::TooLong => Ok(long_line(alloc, name)?),
        LexErr::NotText(place) => Ok(line_at(alloc, name, place, "L3", "NotText")?),
        LexErr::BadByte(place) => Ok(line_at(alloc, name, place, "L1", "BadByte")?),
        LexErr::UnclosedText(place) => Ok(line_at(alloc, name, place, "L2", "UnclosedText")?),
        LexErr::NoMemory => Err(Stop::Memory),
    }
}

/// The line of the parser's refusal of a file.
pub fn parse_line(alloc: Global, name: &Name, error: ParseErr) -> Result<Name, Stop>
    ensures { ParseTells name.now error result }
{
    match error {
        ParseErr::Unexpected(place) => Ok(line_at(alloc, name, place, "P1", "Unexpected")?),
        ParseErr::TooDeep(place) => Ok(line_at(alloc, name, place, "P2", "TooDeep")?),
        ParseErr::NoMemory => Err(Stop::Memory),
    }
}

/// The name of the file of a number, among those of a policy: its own, and those of its inputs.
pub fn file_name<'a>(policy: &'a Name, inputs: &'a [Name], file: u16) -> &'a Name
    ensures { result.now ≡ file_name policy.now inputs.now file }
{
    if file == 0 {
        return policy;
    }
    match inputs.get(file as usize - 1) {
        Some(name) => name,
        None => policy,
    }
}

/// The line of the first refusal of a policy, under the name of the file that it stands in.
pub fn schema_line(
    alloc: Global,
    policy: &Name,
    inputs: &[Name],
    refusal: Refusal,
) -> Result<Name, NoMemory>
    ensures { IfOk result (λ line. line ≡ schema_line policy.now inputs.now refusal) }
{
    let name = file_name(policy, inputs, refusal.place.file);
    let (code, word) = heading_of(refusal.code);
    line_at(alloc, name, refusal.place, code, word)
}
