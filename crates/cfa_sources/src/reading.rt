// The reading of one file.
ghost use Rattle.std.specs.Prelude.{map};
ghost use Rattle.cfa_base.specs.Lexing.{Lexes, first_place};
ghost use Rattle.cfa_lexer.specs.Lexed.{plain, IsText};
ghost use Rattle.cfa_sources.specs.Readings.{SourceRead, TreeRead};
ghost use Rattle.cfa_sources.specs.Steps.{TextRead};

use crate::refusing::{lex_line, parse_line};
use cfa_base::{Bytes, MOST_SOURCE_BYTES, Name};
use cfa_lexer::{Token, end_place, lex};
use cfa_output::{Failure, Object, Stop};
use cfa_outside::{Inputs, OutsideErr};
use cfa_parser::parse;
use cfa_tree::Policy;
use std::alloc::Global;

/// The number of a policy's main file.
pub const MAIN_FILE: u16 = 0;

// One byte more than a source may have, so that a longer one shows.
const READ_LIMIT: u32 = MOST_SOURCE_BYTES as u32 + 1;

/// The text of that name, of which no more is read than one byte more than a source may have. A failing reading is
/// `Outside(Inputs)`.
pub fn read_source<I: Inputs>(alloc: Global, name: &Name, inputs: &mut I) -> Result<Bytes, Stop>
    ensures { SourceRead name.now (I.shown inputs.old) (I.shown inputs.new) result }
{
    match inputs.read(alloc, name, READ_LIMIT) {
        Ok(source) => Ok(source),
        Err(OutsideErr::Failed) => Err(Stop::Outside(Object::Inputs)),
        Err(OutsideErr::NoMemory) => Err(Stop::Memory),
    }
}

// The tree that the tokens of a source read as.
fn read_tokens(
    alloc: Global,
    name: &Name,
    source: &[u8],
    tokens: &[Token<'_>],
    file: u16,
) -> Result<Policy, Failure>
    requires text { IsText source.now }
    requires lexes { Lexes (first_place file) source.now (map plain tokens.now) }
    ensures { TextRead file name.now source.now result }
{
    match parse(alloc, tokens, end_place(source, file)) {
        Ok(tree) => Ok(tree),
        Err(error) => Err(Failure::Refused(parse_line(alloc, name, error)?)),
    }
}

// The tree that a source reads as, as the file of this number and name.
fn read_text(alloc: Global, name: &Name, source: &[u8], file: u16) -> Result<Policy, Failure>
    ensures { TextRead file name.now source.now result }
{
    match lex(alloc, source, file) {
        Ok(tokens) => read_tokens(alloc, name, source, &tokens, file),
        Err(error) => Err(Failure::Refused(lex_line(alloc, name, error)?)),
    }
}

/// The tree of the file of this number and name.
pub fn read_file<I: Inputs>(
    alloc: Global,
    name: &Name,
    file: u16,
    inputs: &mut I,
) -> Result<Policy, Failure>
    ensures { TreeRead file name.now (I.shown inputs.old) (I.shown inputs.new) result }
{
    let source = read_source(alloc, name, inputs)?;
    read_text(alloc, name, source.as_slice(), file)
}

/// The tree of the file of that name, as a main file. It is refused with the line of its first fault.
pub fn read_tree_of<I: Inputs>(
    alloc: Global,
    name: &Name,
    inputs: &mut I,
) -> Result<Policy, Failure>
    ensures { TreeRead 0 name.now (I.shown inputs.old) (I.shown inputs.new) result }
{
    read_file(alloc, name, MAIN_FILE, inputs)
}
