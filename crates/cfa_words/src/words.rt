// The words of a command line, read by the parser of command lines.
ghost use Rattle.std.specs.Prelude.{◌≡◌, IfOk, ℕ, List, codes, map, option_map, true, ◌==◌, Bool, Some};
ghost use Rattle.std.specs.List.{list_all, slice_split};
ghost use Rattle.std.specs.Str.{is_utf8};
ghost use Rattle.clap.specs.Words.{app_of, first_value, found_of, one_text};
ghost use Rattle.clap.specs.Values.{bool_text};
ghost use Rattle.cfa_words.specs.Words.{asked, asked_of, class_list, class_names, given, is_class as class_test, words_asked, check_asked, run_asked, show_asked, audit_asked, edits_asked, history_asked};
ghost use Rattle.cfa_words.specs.Demos.{demo_asked, demo_given, demo_with, demo_number};
ghost use Rattle.cfa_words.specs.OfTheCode.{given_of, lines_given, text_in, command_line as command_line_app};

use cfa_base::{Name, Names, NoMemory, is_decimal, is_word};
use clap::error::ErrorKind;
use clap::{Arg, ArgAction, ArgMatches, Command};
use std::alloc::{AllocError, Global};

/// How a policy is to be run.
#[derive(Debug, Drop)]
pub struct Options {
    /// The classes of `-D`, in their order.
    pub classes: Names,
    /// Locks count: `-K` was not given.
    pub locks: bool,
    /// `--strict` was given.
    pub strict: bool,
}

/// What a command line asks for, with the policy's or the journal's file as it was named.
#[derive(Debug, Drop)]
pub enum Request {
    /// `run POLICY`: reads, checks, analyses, then runs.
    Run(Name, Options),
    /// `check POLICY`: reads, checks and analyses, with the classes of `-D` in their order.
    Check(Name, Names),
    /// `show POLICY`: reads the one file, and prints its canonical text.
    Show(Name),
    /// `audit JOURNAL`: reads a journal, and prints what it tells of its runs.
    Audit(Name),
    /// `edits POLICY`: reads, checks and walks, with the classes of `-D` in their order, and tells which scripts of edits always settle.
    Edits(Name, Names),
    /// `history JOURNAL`: reads a journal, and prints what it tells of each promise.
    History(Name),
}

// What a command line gives, before its command is looked at.
#[derive(Clone, Copy, Drop)]
struct Line<'a> {
    command: Option<&'a str>,
    argument: Option<&'a str>,
    extra: Option<&'a str>,
    without_locks: bool,
    strict: bool,
    classes: Option<&'a str>,
}

/// Reads the words of a command line, which come without the program's name. `None` where they are refused, for
/// whatever reason; a call fails only for want of memory.
pub fn read_words(alloc: Global, words: &[Name]) -> Result<Option<Request>, NoMemory>
    ensures { IfOk result (λ r. r ≡ asked words.now) }
{
    let texts = texts_of(alloc, words)?;
    let Some(line) = line_of(alloc, texts.as_slice())? else {
        return Ok(None);
    };
    request_of(alloc, &line)
}

/// The number of promises of the demo that the words of a command line ask for. `None` where they ask for something else
/// or are refused; a call fails only for want of memory.
pub fn read_demo(alloc: Global, words: &[Name]) -> Result<Option<u32>, NoMemory>
    ensures { IfOk result (λ r. r ≡ demo_asked words.now) }
{
    let texts = texts_of(alloc, words)?;
    match line_of(alloc, texts.as_slice())? {
        Some(line) => Ok(demo_of(&line)),
        None => Ok(None),
    }
}

fn texts_of<'a>(alloc: Global, words: &'a [Name]) -> Result<Vec<&'a str>, NoMemory>
    ensures texts { IfOk result (λ v. map (λ t. t.now) v.items ≡ words.entry.now) }
    ensures utf8 { IfOk result (λ v. list_all is_utf8 (map (λ t. t.now) v.items) ≡ true) }
{
    let mut texts = Vec::new(alloc);
    for word in words {
        texts.push(word.as_str())?;
    }
    Ok(texts)
}

// What the parser is told of a command line.
fn command_line<'a>(alloc: Global) -> Result<Command<'a>, AllocError>
    ensures { IfOk result (λ c. app_of c ≡ command_line_app) }
{
    Command::new(alloc, "diwalmeq")
        .no_binary_name(true)
        .disable_help_flag(true)
        .disable_version_flag(true)
        .arg(Arg::new(alloc, "command").required(true))?
        .arg(Arg::new(alloc, "argument").required(true))?
        .arg(Arg::new(alloc, "extra"))?
        .arg(
            Arg::new(alloc, "no-lock")
                .short('K')
                .long("no-lock")
                .action(ArgAction::SetTrue),
        )?
        .arg(
            Arg::new(alloc, "strict")
                .long("strict")
                .action(ArgAction::SetTrue),
        )?
        .arg(Arg::new(alloc, "define").short('D').long("define"))
}

// What the words give, or `None` where the parser refuses them.
fn line_of<'a>(alloc: Global, words: &'a [&'a str]) -> Result<Option<Line<'a>>, NoMemory>
    requires { list_all is_utf8 (map (λ t. t.now) words.now) ≡ true }
    ensures { IfOk result (λ r. lines_given r ≡ given (map (λ t. t.now) words.entry.now)) }
{
    match command_line(alloc)?.try_get_matches_from(words) {
        Ok(matches) => Ok(Some(Line::of(&matches))),
        Err(error) => match error.kind() {
            ErrorKind::OutOfMemory => Err(NoMemory),
            _ => Ok(None),
        },
    }
}

impl<'a> Line<'a> {
    fn of(matches: &ArgMatches<'a>) -> Line<'a>
        ensures command { text_in result.command
            ≡ first_value (found_of matches.now) (codes "command") }
        ensures argument { text_in result.argument
            ≡ first_value (found_of matches.now) (codes "argument") }
        ensures extra { text_in result.extra
            ≡ first_value (found_of matches.now) (codes "extra") }
        ensures classes { text_in result.classes
            ≡ first_value (found_of matches.now) (codes "define") }
        ensures without_locks { (flag : Bool)
            → one_text (found_of matches.now) (codes "no-lock") ≡ Some (bool_text flag)
            → result.without_locks ≡ flag }
        ensures strict { (flag : Bool)
            → one_text (found_of matches.now) (codes "strict") ≡ Some (bool_text flag)
            → result.strict ≡ flag }
    {
        Line {
            command: matches.get_str("command"),
            argument: matches.get_str("argument"),
            extra: matches.get_str("extra"),
            without_locks: matches.get_flag("no-lock"),
            strict: matches.get_flag("strict"),
            classes: matches.get_str("define"),
        }
    }
}

// What the line asks for, by its command.
fn request_of(alloc: Global, line: &Line) -> Result<Option<Request>, NoMemory>
    ensures { IfOk result (λ r. r ≡ words_asked (given_of line.now).words (given_of line.now)) }
{
    match (line.command, line.argument, line.extra) {
        (Some(command), Some(argument), None) => match command {
            "run" => run(alloc, argument, line),
            "check" => check(alloc, argument, line),
            "show" => show(alloc, argument, line),
            "audit" => audit(alloc, argument, line),
            "edits" => edits(alloc, argument, line),
            "history" => history(alloc, argument, line),
            _ => Ok(None),
        },
        _ => Ok(None),
    }
}

// The demo that the line asks for.
fn demo_of(line: &Line) -> Option<u32>
    ensures { result ≡ demo_given (given_of line.now).words (given_of line.now) }
{
    match (line.command, line.argument, line.extra) {
        (Some(command), Some(argument), None) => match command {
            "demo" => demo(argument, line),
            _ => None,
        },
        _ => None,
    }
}

fn demo(number: &str, line: &Line) -> Option<u32>
    ensures { result ≡ demo_with number.now (given_of line.now) }
{
    if line.without_locks || line.strict || line.classes.is_some() {
        return None;
    }
    demo_number(number)
}

// The most promises that a demo may have.
const MOST_PROMISES: u32 = 10_000;

fn demo_number(text: &str) -> Option<u32>
    ensures { result ≡ demo_number text.now }
{
    if !is_decimal(text.as_bytes()) {
        return None;
    }
    match text.parse::<u32>() {
        Ok(number) if 0 < number && number <= MOST_PROMISES => Some(number),
        _ => None,
    }
}

fn run(alloc: Global, policy: &str, line: &Line) -> Result<Option<Request>, NoMemory>
    ensures { IfOk result (λ r. r ≡ run_asked policy.now (given_of line.now)) }
{
    let Some(classes) = classes_of(alloc, line.classes)? else {
        return Ok(None);
    };
    let options = Options {
        classes,
        locks: !line.without_locks,
        strict: line.strict,
    };
    Ok(Some(Request::Run(Name::from_text(alloc, policy)?, options)))
}

fn check(alloc: Global, policy: &str, line: &Line) -> Result<Option<Request>, NoMemory>
    ensures { IfOk result (λ r. r ≡ check_asked policy.now (given_of line.now)) }
{
    if line.without_locks || line.strict {
        return Ok(None);
    }
    let Some(classes) = classes_of(alloc, line.classes)? else {
        return Ok(None);
    };
    Ok(Some(Request::Check(Name::from_text(alloc, policy)?, classes)))
}

fn show(alloc: Global, policy: &str, line: &Line) -> Result<Option<Request>, NoMemory>
    ensures { IfOk result (λ r. r ≡ show_asked policy.now (given_of line.now)) }
{
    if line.without_locks || line.strict || line.classes.is_some() {
        return Ok(None);
    }
    Ok(Some(Request::Show(Name::from_text(alloc, policy)?)))
}

fn audit(alloc: Global, journal: &str, line: &Line) -> Result<Option<Request>, NoMemory>
    ensures { IfOk result (λ r. r ≡ audit_asked journal.now (given_of line.now)) }
{
    if line.without_locks || line.strict || line.classes.is_some() {
        return Ok(None);
    }
    Ok(Some(Request::Audit(Name::from_text(alloc, journal)?)))
}

fn edits(alloc: Global, policy: &str, line: &Line) -> Result<Option<Request>, NoMemory>
    ensures { IfOk result (λ r. r ≡ edits_asked policy.now (given_of line.now)) }
{
    if line.without_locks || line.strict {
        return Ok(None);
    }
    let Some(classes) = classes_of(alloc, line.classes)? else {
        return Ok(None);
    };
    Ok(Some(Request::Edits(Name::from_text(alloc, policy)?, classes)))
}

fn history(alloc: Global, journal: &str, line: &Line) -> Result<Option<Request>, NoMemory>
    ensures { IfOk result (λ r. r ≡ history_asked journal.now (given_of line.now)) }
{
    if line.without_locks || line.strict || line.classes.is_some() {
        return Ok(None);
    }
    Ok(Some(Request::History(Name::from_text(alloc, journal)?)))
}

// The classes between the commas, or `None` where one of them is no class.
fn classes_of(alloc: Global, list: Option<&str>) -> Result<Option<Names>, NoMemory>
    ensures { IfOk result (λ r. r ≡ class_names (text_in list.entry)) }
{
    match list {
        None => Ok(Some(Names::new(alloc))),
        Some(text) => classes_between_commas(alloc, text),
    }
}

fn classes_between_commas(alloc: Global, list: &str) -> Result<Option<Names>, NoMemory>
    ensures { IfOk result (λ r. r ≡ class_list list.now) }
{
    let parts = parts_of(alloc, list)?;
    let mut classes = Names::new(alloc);
    for part in &parts {
        if !is_class(part) {
            return Ok(None);
        }
        classes.push(Name::from_text(alloc, part)?)?;
    }
    Ok(Some(classes))
}

fn parts_of<'a>(alloc: Global, list: &'a str) -> Result<Vec<&'a str>, AllocError>
    ensures { IfOk result (λ v. map (λ t. t.now) v.items
        ≡ slice_split (λ b. b == 44) list.entry.now) }
{
    list.split(',').collect(alloc)
}

fn is_class(text: &str) -> bool
    ensures { result ≡ class_test text.now }
{
    is_word(text.as_bytes())
}
