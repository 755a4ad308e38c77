// What is taken where a value is refused, or an attribute is missing.
ghost use Rattle.std.specs.Prelude.{◌≡◌, false, [], IfOk};
ghost use Rattle.std.specs.String.{string_bytes};
ghost use Rattle.cfa_hints.specs.Codes.{is_of_value};

use crate::values::{kind_rest, kind_words};
use cfa_advice::{RefusedLine, Sources};
use cfa_base::{Kind, NoMemory, Place};
use cfa_kinds::{body_attribute, body_type, choices, promise_attribute, promise_type, required};
use cfa_lexer::{Token, lex};
use std::alloc::{AllocError, Global};

// Where a place stands: in a bundle or a body, which are at depth 1, and in which of its parts.
#[derive(Clone, Copy)]
struct Spot<'a> {
    is_bundle: bool,
    depth: usize,
    // How many words of the heading stand before.
    words: usize,
    // The type of a body, or the section of a bundle.
    kind: &'a str,
    // Empty before the first attribute of a promise.
    attribute: &'a str,
}

impl<'a> Spot<'a> {
    fn new() -> Spot<'a> {
        Spot {
            is_bundle: false,
            depth: 0,
            words: 0,
            kind: "",
            attribute: "",
        }
    }

    fn take_heading_word(&mut self, word: &'a str) {
        match self.words {
            0 => self.is_bundle = word == "bundle",
            1 => self.kind = word,
            _ => {}
        }
        self.words = self.words.saturating_add(1);
    }

    fn take_word(&mut self, word: &'a str, next: Kind) {
        match next {
            Kind::Colon => self.kind = word,
            Kind::FatArrow => self.attribute = word,
            _ => {}
        }
    }

    fn close_brace(&mut self) {
        self.depth = self.depth.saturating_sub(1);
        if self.depth == 0 {
            self.words = 0;
            self.kind = "";
            self.attribute = "";
        }
    }

    fn take(&mut self, token: &Token<'a>, next: Kind) {
        match token.kind {
            Kind::OpenBrace => self.depth = self.depth.saturating_add(1),
            Kind::CloseBrace => self.close_brace(),
            Kind::Word if self.depth == 0 => self.take_heading_word(token.text),
            Kind::Word if self.depth == 1 => self.take_word(token.text, next),
            Kind::Semicolon => self.attribute = "",
            _ => {}
        }
    }

    // What the attribute takes that the place stands in.
    fn taken(self) -> Option<cfa_kinds::Kind> {
        if self.is_bundle {
            promise_attribute(promise_type(self.kind)?, self.attribute)
        } else {
            body_attribute(body_type(self.kind)?, self.attribute)
        }
    }

    // The attributes of which a promise has exactly one.
    fn one_of(self) -> &'static [&'static str] {
        match promise_type(self.kind) {
            Some(promise) if self.is_bundle => choices(promise),
            _ => &[],
        }
    }

    // The attributes that a body must have.
    fn all_of(self) -> &'static [&'static str] {
        match body_type(self.kind) {
            Some(body) if !self.is_bundle => required(body),
            _ => &[],
        }
    }
}

// The place of a token. None where no token begins there.
fn spot_at<'a>(tokens: &[Token<'a>], at: Place) -> Option<Spot<'a>> {
    let mut spot = Spot::new();
    for (place, token) in tokens.iter().enumerate() {
        if token.place == at {
            return Some(spot);
        }
        let next = match tokens.get(place.saturating_add(1)) {
            Some(next) => next.kind,
            None => Kind::Semicolon,
        };
        spot.take(token, next);
    }
    None
}

fn push_names(text: &mut String, front: &str, names: &[&'static str]) -> Result<(), AllocError> {
    if names.is_empty() {
        return Ok(());
    }
    text.push_str(front)?;
    for (place, name) in names.iter().enumerate() {
        text.push_str(if place == 0 { " " } else { ", " })?;
        text.push_str(name)?;
    }
    text.push_str("\n")
}

fn told_of(alloc: Global, spot: Spot<'_>) -> Result<String, NoMemory> {
    let mut text = String::new(alloc);
    if spot.attribute.is_empty() {
        push_names(
            &mut text,
            "        a promise of this type has exactly one attribute of",
            spot.one_of(),
        )?;
        push_names(
            &mut text,
            "        a body of this type has the attributes",
            spot.all_of(),
        )?;
    } else if let Some(kind) = spot.taken() {
        let (words, rest) = (kind_words(kind), kind_rest(kind));
        let told = format!(in alloc; "        {} takes {words}{rest}\n", spot.attribute)?;
        text.push_str(told.as_str())?;
    }
    Ok(text)
}

fn told_at(alloc: Global, source: &[u8], at: Place) -> Result<String, NoMemory> {
    match lex(alloc, source, 0) {
        Ok(tokens) => match spot_at(tokens.as_slice(), at) {
            Some(spot) => told_of(alloc, spot),
            None => Ok(String::new(alloc)),
        },
        Err(_) => Ok(String::new(alloc)),
    }
}

/// What is told of what is taken where a value was refused, or an attribute is missing; else nothing.
pub fn takes_text(
    alloc: Global,
    sources: &Sources,
    refused: RefusedLine<'_>,
) -> Result<String, NoMemory>
    ensures { is_of_value refused.entry.code.now ≡ false →
        IfOk result (λ text. string_bytes text ≡ []) }
{
    if refused.code != "S4" {
        return Ok(String::new(alloc));
    }
    match (refused.place(), sources.named(refused.name)) {
        (Some(at), Some(source)) => told_at(alloc, source, at),
        _ => Ok(String::new(alloc)),
    }
}
