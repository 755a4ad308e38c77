// Inserts: which lines of a block aren't there, and where they go.
ghost use Rattle.std.specs.Prelude.{◌≡◌, ℕ, ◌+◌, ◌^◌, ◌<◌, ◌≤◌, ◌&&◌, ◌||◌, ◌++◌, [], false, not, List, take, drop, length, reverse, Ok, IfOk, IfErr, IfSome, OnOk};
ghost use Rattle.std.specs.List.{position_from};
ghost use Rattle.cfa_base.specs.Patterns.{matches_in};
ghost use Rattle.cfa_edits.specs.Edits.{Lines, is_among, lacking, anchor, last_from, spot_in, put_at, inserted};
ghost use Rattle.cfa_edits.specs.Answers.{IsRefusalOf};
ghost use Rattle.cfa_edits.specs.Steps.{lines_lent, has_line, HasLacking, block_of, blocks_of, AreAmong};

use crate::{Edit, EditErr, Spot};
use cfa_base::{CompiledPattern, Matcher, Names, Pattern};
use cfa_lines::Deck;
use std::alloc::Global;
use std::collections::HashSet;

/// Puts the lines of a block that aren't there in at the spot. What is wanted is which lines of all blocks aren't there.
pub fn insert<'a>(
    alloc: Global,
    deck: &mut Deck,
    wanted: &mut HashSet<&'a str>,
    block: &'a Names,
    spot: &Spot,
) -> Result<(), EditErr>
    ensures ok { (all : Lines) → AreAmong block.now all → HasLacking wanted.old all deck.old.lines
        → OnOk result (inserted spot.now (lacking deck.old.lines block.now) deck.old.lines
        ≡ Ok deck.new.lines) }
    ensures wanted { (all : Lines) → AreAmong block.now all
        → HasLacking wanted.old all deck.old.lines
        → OnOk result (HasLacking wanted.new all deck.new.lines) }
    ensures refused { (all : Lines) → AreAmong block.now all
        → HasLacking wanted.old all deck.old.lines → IfErr result (IsRefusalOf
        (inserted spot.now (lacking deck.old.lines block.now) deck.old.lines)) }
{
    let mut lines = Vec::new(alloc);
    gather(&mut lines, wanted, block)?;
    if lines.is_empty() {
        return Ok(());
    }
    put_at_spot(alloc, deck, &lines, spot)
}

/// Which lines of all blocks of the edits the deck hasn't, where they aren't known yet.
pub fn wanted_lines<'a>(
    alloc: Global,
    deck: &mut Deck,
    edits: &'a [Edit],
    known: Option<HashSet<&'a str>>,
) -> Result<HashSet<&'a str>, EditErr>
    requires { IfSome known (λ set. HasLacking set (blocks_of edits.now) deck.old.lines) }
    ensures ok { IfOk result (λ set. HasLacking set (blocks_of edits.now) deck.old.lines) }
    ensures memory { IfErr result (λ error. error ≡ EditErr.NoMemory) }
    ensures deck { deck.new.lines ≡ deck.old.lines }
{
    match known {
        Some(lines) => Ok(lines),
        None => lacking_lines(alloc, deck, edits),
    }
}

// Which lines of all blocks of the edits the deck hasn't.
fn lacking_lines<'a>(
    alloc: Global,
    deck: &mut Deck,
    edits: &'a [Edit],
) -> Result<HashSet<&'a str>, EditErr>
    ensures ok { IfOk result (λ set. HasLacking set (blocks_of edits.now) deck.old.lines) }
    ensures memory { IfErr result (λ error. error ≡ EditErr.NoMemory) }
    ensures deck { deck.new.lines ≡ deck.old.lines }
{
    let mut wanted = HashSet::new(alloc);
    add_blocks(&mut wanted, edits)?;
    take_out(&mut wanted, deck);
    Ok(wanted)
}

// Puts the lines in at the spot.
fn put_at_spot(alloc: Global, deck: &mut Deck, lines: &[&str], spot: &Spot) -> Result<(), EditErr>
    ensures ok { OnOk result (put_at (spot_in deck.old.lines spot.now) (lines_lent lines.now)
        deck.old.lines ≡ Ok deck.new.lines) }
    ensures refused { IfErr result (IsRefusalOf
        (put_at (spot_in deck.old.lines spot.now) (lines_lent lines.now) deck.old.lines)) }
{
    let Some(place) = place_in(alloc, deck, spot)? else {
        return Err(EditErr::NoAnchor);
    };
    deck.go_to(place);
    put_in(deck, lines)
}

// Adds the lines of all blocks of the edits to an empty set.
fn add_blocks<'a>(lines: &mut HashSet<&'a str>, edits: &'a [Edit]) -> Result<(), EditErr>
    requires { (line : List ℕ) → has_line lines.old line ≡ false }
    ensures ok { OnOk result
        ((line : List ℕ) → has_line lines.new line ≡ is_among (blocks_of edits.now) line) }
    ensures memory { IfErr result (λ error. error ≡ EditErr.NoMemory) }
{
    for edit in edits {
        add_block(lines, edit)?;
    }
    Ok(())
}

// Adds the lines that an edit may insert.
fn add_block<'a>(lines: &mut HashSet<&'a str>, edit: &'a Edit) -> Result<(), EditErr>
    ensures ok { OnOk result ((line : List ℕ) → has_line lines.new line
        ≡ (has_line lines.old line || is_among (block_of edit.now) line)) }
    ensures memory { IfErr result (λ error. error ≡ EditErr.NoMemory) }
{
    match edit {
        Edit::Delete(_) => Ok(()),
        Edit::Field(_, _, _, _) => Ok(()),
        Edit::Insert(block, _) => add_lines(lines, block),
        Edit::Replace(_, _, _) => Ok(()),
    }
}

// Adds the lines of a block.
fn add_lines<'a>(lines: &mut HashSet<&'a str>, block: &'a Names) -> Result<(), EditErr>
    ensures ok { OnOk result ((line : List ℕ) → has_line lines.new line
        ≡ (has_line lines.old line || is_among block.now line)) }
    ensures memory { IfErr result (λ error. error ≡ EditErr.NoMemory) }
{
    for line in block.as_slice() {
        let _is_new = lines.insert(line.as_str())?;
    }
    Ok(())
}

// Takes each line of the deck out of the set.
fn take_out(wanted: &mut HashSet<&str>, deck: &mut Deck)
    ensures set { (line : List ℕ) → has_line wanted.new line
        ≡ (has_line wanted.old line && not (is_among deck.old.lines line)) }
    ensures deck { deck.new.lines ≡ deck.old.lines }
{
    deck.rewind();
    while let Some(line) = deck.at() {
        let _was_wanted = wanted.remove(line);
        deck.step();
    }
}

// Adds the lines of the block that the set has to an empty list, in order, each once.
fn gather<'a>(
    lines: &mut Vec<&'a str>,
    wanted: &mut HashSet<&'a str>,
    block: &'a Names,
) -> Result<(), EditErr>
    requires { lines.old.items ≡ [] }
    ensures ok { (all there : Lines) → AreAmong block.now all → HasLacking wanted.old all there
        → OnOk result (lines_lent lines.new.items ≡ lacking there block.now) }
    ensures left { (all there : Lines) → AreAmong block.now all → HasLacking wanted.old all there
        → OnOk result (HasLacking wanted.new all (reverse block.now ++ there)) }
    ensures memory { IfErr result (λ error. error ≡ EditErr.NoMemory) }
{
    for line in block.as_slice() {
        if wanted.remove(line.as_str()) {
            lines.push(line.as_str())?;
        }
    }
    Ok(())
}

// How many lines stand before the spot, if its anchor is found.
fn place_in(alloc: Global, deck: &mut Deck, spot: &Spot) -> Result<Option<usize>, EditErr>
    ensures ok { IfOk result (λ place. place ≡ spot_in deck.old.lines spot.now) }
    ensures within { IfOk result (λ place. IfSome place (λ n. n ≤ length deck.old.lines)) }
    ensures memory { IfErr result (λ error. error ≡ EditErr.NoMemory) }
    ensures deck { deck.new.lines ≡ deck.old.lines }
{
    match spot {
        Spot::Start => Ok(Some(0)),
        Spot::End => Ok(Some(deck.count())),
        Spot::Before(pattern, is_first) => anchor_in(alloc, deck, pattern, *is_first),
        Spot::After(pattern, is_first) => match anchor_in(alloc, deck, pattern, *is_first)? {
            Some(place) => Ok(Some(place + 1)),
            None => Ok(None),
        },
    }
}

// The place of the first or of the last line that the pattern matches.
fn anchor_in(
    alloc: Global,
    deck: &mut Deck,
    pattern: &Pattern,
    is_first: bool,
) -> Result<Option<usize>, EditErr>
    ensures ok { IfOk result (λ place. place ≡ anchor pattern.now is_first deck.old.lines) }
    ensures within { IfOk result (λ place. IfSome place (λ n. n < length deck.old.lines)) }
    ensures small { IfOk result (λ place. IfSome place (λ n. n + 1 < 2 ^ 64)) }
    ensures memory { IfErr result (λ error. error ≡ EditErr.NoMemory) }
    ensures deck { deck.new.lines ≡ deck.old.lines }
{
    let compiled = CompiledPattern::of(alloc, pattern)?;
    let mut matcher = compiled.matcher(alloc)?;
    Ok(anchor_by(deck, &mut matcher, is_first))
}

// The place of the first or of the last line that the matcher matches.
fn anchor_by(deck: &mut Deck, matcher: &mut Matcher<'_>, is_first: bool) -> Option<usize>
    ensures place { result ≡ anchor matcher.old is_first deck.old.lines }
    ensures within { IfSome result (λ n. n < length deck.old.lines) }
    ensures small { IfSome result (λ n. n + 1 < 2 ^ 64) }
    ensures deck { deck.new.lines ≡ deck.old.lines }
{
    if is_first {
        first_in(deck, matcher)
    } else {
        last_in(deck, matcher)
    }
}

// The place of the first line that the pattern matches.
fn first_in(deck: &mut Deck, matcher: &mut Matcher<'_>) -> Option<usize>
    ensures place { result ≡ position_from (λ line. matches_in matcher.old line) 0 deck.old.lines }
    ensures within { IfSome result (λ n. n < length deck.old.lines) }
    ensures small { IfSome result (λ n. n + 1 < 2 ^ 64) }
    ensures deck { deck.new.lines ≡ deck.old.lines }
{
    let mut place = 0usize;
    deck.rewind();
    while let Some(line) = deck.at() {
        if matcher.matches(line) {
            return Some(place);
        }
        place += 1;
        deck.step();
    }
    None
}

// The place of the last line that the pattern matches.
fn last_in(deck: &mut Deck, matcher: &mut Matcher<'_>) -> Option<usize>
    ensures place { result ≡ last_from (λ line. matches_in matcher.old line) 0 deck.old.lines }
    ensures within { IfSome result (λ n. n < length deck.old.lines) }
    ensures small { IfSome result (λ n. n + 1 < 2 ^ 64) }
    ensures deck { deck.new.lines ≡ deck.old.lines }
{
    let mut found = None;
    let mut place = 0usize;
    deck.rewind();
    while let Some(line) = deck.at() {
        if matcher.matches(line) {
            found = Some(place);
        }
        place += 1;
        deck.step();
    }
    found
}

// Puts the lines in before the place.
fn put_in(deck: &mut Deck, lines: &[&str]) -> Result<(), EditErr>
    requires { deck.old.place ≤ length deck.old.lines }
    ensures ok { OnOk result (deck.new.lines ≡ take deck.old.place deck.old.lines
        ++ (lines_lent lines.now ++ drop deck.old.place deck.old.lines)) }
    ensures memory { IfErr result (λ error. error ≡ EditErr.NoMemory) }
{
    for line in lines {
        deck.insert(line)?;
    }
    Ok(())
}
