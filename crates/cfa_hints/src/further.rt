// The refusals of a policy behind its first one: those that are first once what was refused before is taken out.
ghost use Rattle.std.specs.Prelude.{◌≡◌, ◌≤◌, false, [], length, IfOk};
ghost use Rattle.std.specs.String.{string_bytes};
ghost use Rattle.cfa_hints.specs.Codes.{is_of_schema};

use cfa_advice::{RefusedLine, Sources, Style, blanked, push_shown, read_refused};
use cfa_base::{Bytes, Name, NoMemory, Place};
use cfa_lexer::lex;
use cfa_uses::{NameSet, Statement, statement_at, uses_of};
use std::alloc::Global;

// The most refusals that are told.
const MOST_TOLD: usize = 20;

// The most readings of a policy, and the most bytes that are read for it in all, since somebody waits for what is told.
const MOST_READINGS: usize = 40;

const MOST_BYTES: usize = 4_194_304;

/// Who reads policies.
pub trait Refuses {
    /// The first refusal of a policy with these files, as its line is printed. None where it isn't refused.
    fn first_refusal(&mut self, alloc: Global, texts: Vec<(Name, Bytes)>) -> Option<Name>;
}

// Whether a refusal is one of the schema that has a statement at its place.
fn is_of_schema(code: &str) -> bool
    ensures { result ≡ is_of_schema code.now }
{
    code.as_bytes().starts_with(b"S") && code != "S10"
}

// What becomes of a refusal.
#[derive(Clone, Copy, PartialEq, Eq)]
enum Taken {
    // What is refused can't be taken out.
    Nothing,
    // It follows from what was taken out before.
    Following,
    Itself,
}

// The files of a policy, without what was refused.
#[derive(Drop)]
struct Rest<'a> {
    alloc: Global,
    texts: Vec<(Name, Bytes)>,
    // The names of the blocks that were there before.
    names: NameSet<'a>,
    // The blocks in which something is taken out, by their file and their beginning.
    blocks: Vec<(usize, Place)>,
    // Something is taken out without which a block may not be known.
    lacks_blocks: bool,
}

fn copies_of(alloc: Global, texts: &[(Name, Bytes)]) -> Result<Vec<(Name, Bytes)>, NoMemory> {
    let mut copies = Vec::new(alloc);
    for text in texts {
        copies.push((text.0.copy(alloc)?, text.1.copy(alloc)?))?;
    }
    Ok(copies)
}

// The statement of a source that is refused at a place. None where there is none, or the source has no tokens.
fn refused_in(alloc: Global, source: &[u8], at: Place) -> Result<Option<Statement<'_>>, NoMemory> {
    match lex(alloc, source, 0) {
        Ok(tokens) => statement_at(alloc, tokens.as_slice(), at),
        Err(_) => Ok(None),
    }
}

// Without these a block may not be known that is there.
fn makes_known(statement: Statement<'_>) -> bool {
    statement.is_block || matches!(statement.word, "inputs" | "bundlesequence")
}

// The names of the bundles and bodies of these files.
fn blocks_of(alloc: Global, sources: &Sources) -> Result<NameSet<'_>, NoMemory> {
    match uses_of(alloc, sources)? {
        Some(uses) => Ok(uses.into_blocks()),
        None => Ok(NameSet::new(alloc)),
    }
}

impl<'a> Rest<'a> {
    fn new(alloc: Global, sources: &'a Sources) -> Result<Rest<'a>, NoMemory> {
        Ok(Rest {
            alloc,
            texts: copies_of(alloc, sources.texts())?,
            names: blocks_of(alloc, sources)?,
            blocks: Vec::new(alloc),
            lacks_blocks: false,
        })
    }

    // How often a policy of this size is read.
    fn most_readings(&self) -> usize {
        let mut size = 0usize;
        for text in &self.texts {
            size = size.saturating_add(text.1.as_slice().len());
        }
        MOST_READINGS.min(MOST_BYTES / size.max(1))
    }

    fn place_of(&self, name: &str) -> Option<usize> {
        for (place, text) in self.texts.iter().enumerate() {
            if text.0.as_str() == name {
                return Some(place);
            }
        }
        None
    }

    fn has_touched(&self, place: usize, block: Place) -> bool {
        for touched in &self.blocks {
            if touched.0 == place && touched.1 == block {
                return true;
            }
        }
        false
    }

    // Whether a word or text has the name of a block that was there.
    fn names_block(&self, text: &str) -> bool {
        for word in text.split(|letter: char| !letter.is_ascii_alphanumeric() && letter != '_') {
            if self.names.has(word) {
                return true;
            }
        }
        false
    }

    fn follows(&self, place: usize, statement: Statement<'_>, code: &str) -> bool {
        statement.is_block && self.has_touched(place, statement.block)
            || self.lacks_blocks
                && matches!(code, "S5" | "S6" | "S12")
                && self.names_block(statement.text)
    }

    // The source of a place without what is refused there, and what that is.
    fn without(&self, place: usize, at: Place) -> Result<Option<(Bytes, Statement<'_>)>, NoMemory> {
        let Some(text) = self.texts.get(place) else {
            return Ok(None);
        };
        let source = text.1.as_slice();
        let Some(statement) = refused_in(self.alloc, source, at)? else {
            return Ok(None);
        };
        let bytes = blanked(self.alloc, source, statement.from, statement.to)?;
        Ok(Some((Bytes::from_vec(bytes), statement)))
    }

    // Puts a source in the place of another one, from which something of a block is taken out.
    fn put(&mut self, place: usize, bytes: Bytes, block: Place) -> Result<(), NoMemory> {
        if let Some(text) = self.texts.get_mut(place) {
            text.1 = bytes;
        }
        self.blocks.push((place, block))?;
        Ok(())
    }

    fn take_at(&mut self, place: usize, at: Place, code: &str) -> Result<Taken, NoMemory> {
        let Some((bytes, statement)) = self.without(place, at)? else {
            return Ok(Taken::Nothing);
        };
        let block = statement.block;
        let follows = self.follows(place, statement, code);
        let is_missed = makes_known(statement);
        self.lacks_blocks = self.lacks_blocks || is_missed;
        self.put(place, bytes, block)?;
        if follows {
            Ok(Taken::Following)
        } else {
            Ok(Taken::Itself)
        }
    }

    // Takes out what is refused.
    fn take_out(&mut self, line: RefusedLine<'_>) -> Result<Taken, NoMemory>
        ensures { is_of_schema line.entry.code.now ≡ false →
            IfOk result (λ taken. taken ≡ Taken.Nothing) }
    {
        if !is_of_schema(line.code) {
            return Ok(Taken::Nothing);
        }
        match (self.place_of(line.name), line.place()) {
            (Some(place), Some(at)) => self.take_at(place, at, line.code),
            _ => Ok(Taken::Nothing),
        }
    }
}

// Adds the next refusal, and answers whether there may be one behind it.
fn add_next<R: Refuses>(
    told: &mut Vec<Name>,
    rest: &mut Rest<'_>,
    reader: &mut R,
) -> Result<bool, NoMemory> {
    let alloc = rest.alloc;
    let texts = copies_of(alloc, rest.texts.as_slice())?;
    let Some(line) = reader.first_refusal(alloc, texts) else {
        return Ok(false);
    };
    let Some(refused) = read_line(line.as_str()) else {
        return Ok(false);
    };
    let taken = rest.take_out(refused)?;
    if taken == Taken::Itself {
        told.push(line)?;
    }
    Ok(taken != Taken::Nothing && told.len() < MOST_TOLD)
}

// A refusal, by its line as it is printed.
fn read_line(line: &str) -> Option<RefusedLine<'_>> {
    read_refused(line.strip_suffix('\n').unwrap_or(line))
}

/// Up to 20 refusals of a policy behind a first one of the schema: each line as it is printed. What is refused for want of what was
/// taken out before isn't among them.
pub fn further_refusals<R: Refuses>(
    alloc: Global,
    sources: &Sources,
    first: RefusedLine<'_>,
    reader: &mut R,
) -> Result<Vec<Name>, NoMemory>
    ensures few { IfOk result (λ lines. length lines.items ≤ 20) }
    ensures schema { is_of_schema first.entry.code.now ≡ false →
        IfOk result (λ lines. lines.items ≡ []) }
{
    let mut rest = Rest::new(alloc, sources)?;
    if rest.take_out(first)? == Taken::Nothing {
        return Ok(Vec::new(alloc));
    }
    let mut told = Vec::new(alloc);
    for _ in 0..rest.most_readings() {
        if !add_next(&mut told, &mut rest, reader)? {
            break;
        }
    }
    told.truncate(MOST_TOLD);
    Ok(told)
}

// Adds a refusal, as it is printed, with its line of the source.
fn push_line(
    alloc: Global,
    text: &mut String,
    style: Style,
    sources: &Sources,
    line: &str,
) -> Result<(), NoMemory> {
    text.push_str(line.strip_suffix('\n').unwrap_or(line))?;
    text.push_str("\n")?;
    if let Some(refused) = read_line(line) {
        if let Some(source) = sources.named(refused.name) {
            push_shown(alloc, text, style, source, refused.line, refused.col)?;
        }
    }
    Ok(())
}

const HEAD: &str = "further refusals, once what is refused before them is left out:\n";

/// What is told of the refusals behind a first one: each line as it is printed, with its line of the source.
pub fn further_text<R: Refuses>(
    alloc: Global,
    style: Style,
    sources: &Sources,
    first: RefusedLine<'_>,
    reader: &mut R,
) -> Result<String, NoMemory>
    ensures { is_of_schema first.entry.code.now ≡ false →
        IfOk result (λ text. string_bytes text ≡ []) }
{
    let lines = further_refusals(alloc, sources, first, reader)?;
    if lines.is_empty() {
        return Ok(String::new(alloc));
    }
    let mut text = String::from_str(alloc, HEAD)?;
    for line in &lines {
        push_line(alloc, &mut text, style, sources, line.as_str())?;
    }
    Ok(text)
}
