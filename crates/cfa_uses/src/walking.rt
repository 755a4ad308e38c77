// A walk over the tokens of a policy's files, for what they define, set, raise, call and ask for.
ghost use Rattle.std.specs.Prelude.{◌≡◌, false, [], IfOk, IfSome, IfNone, IsSome, IsTrue, is_some};
ghost use Rattle.cfa_uses.specs.Found.{AllHaveTokens, SomeHasFault, TellsTokens, IsUnused};

use crate::found::{Part, Walk, is_read, makes_names, raises};
use crate::places::further;
use crate::references::content_of;
use crate::uses::Uses;
use cfa_advice::Sources;
use cfa_base::{Bytes, Kind, Name, NoMemory, Place};
use cfa_lexer::{LexErr, Token, lex};
use std::alloc::Global;

// The tokens of a source, where it has some.
fn tokens_of<'a>(alloc: Global, source: &'a [u8]) -> Result<Option<Vec<Token<'a>>>, NoMemory>
    ensures { IfOk result (λ found. TellsTokens (is_some found) source.now) }
{
    match lex(alloc, source, 0) {
        Ok(tokens) => Ok(Some(tokens)),
        Err(LexErr::NoMemory) => Err(NoMemory),
        Err(LexErr::TooLong) => Ok(None),
        Err(LexErr::NotText(_)) => Ok(None),
        Err(LexErr::BadByte(_)) => Ok(None),
        Err(LexErr::UnclosedText(_)) => Ok(None),
    }
}

impl<'a> Walk<'a> {
    fn begin_block(&mut self, word: &str) {
        self.part = Part::Heading;
        self.is_bundle = word == "bundle";
        self.words = 0;
        self.number = 0;
        self.section = "";
        self.attribute = "";
        self.braces = 0;
        self.brackets = 0;
    }

    fn take_heading_word(&mut self, at: Place, word: &'a str) -> Result<(), NoMemory> {
        let words = self.words;
        self.words = words.saturating_add(1);
        if words == 0 {
            self.kind = word;
        } else if words == 1 {
            self.block = word;
            self.uses.blocks.add(word)?;
            if self.is_bundle {
                let bundle = self.mention(at, self.kind, word);
                self.uses.bundles.push(bundle)?;
            }
        } else if self.is_bundle {
            self.uses.variables.add(self.block, word)?;
        }
        Ok(())
    }

    fn take_promiser(&mut self, at: Place, content: &'a str) -> Result<(), NoMemory> {
        self.part = Part::Attributes;
        self.promiser = content;
        self.number = self.number.saturating_add(1);
        self.line = at.line;
        self.attribute = "";
        match self.section {
            "vars" => {
                self.uses.variables.add(self.block, content)?;
            }
            "classes" => self.raise(content)?,
            _ => {}
        }
        self.add_references(at, content)
    }

    // A text, a word or a reference of an attribute.
    fn take_value(&mut self, at: Place, content: &'a str) -> Result<(), NoMemory> {
        if !is_read(self.attribute) {
            return Ok(());
        }
        self.note_value(content)?;
        if self.attribute == "service_policy" && content == "restart" {
            self.note_restart()?;
        }
        self.add_references(at, content)
    }

    // The same where it is no name of a function. A class text is no value of which a name is made.
    fn take_whole(&mut self, at: Place, content: &'a str) -> Result<(), NoMemory> {
        if self.is_class_text() {
            self.ask(at, content)?;
            return self.add_references(at, content);
        }
        self.take_value(at, content)
    }

    fn take_text(&mut self, at: Place, content: &'a str) -> Result<(), NoMemory> {
        if raises(self.attribute) {
            self.raise(content)?;
        }
        self.take_whole(at, content)
    }

    fn take_word(&mut self, at: Place, word: &'a str, next: Kind) -> Result<(), NoMemory> {
        if next == Kind::FatArrow {
            self.attribute = word;
            if word == "bundlesequence" {
                self.uses.has_sequence = true;
            }
            return Ok(());
        }
        if next != Kind::OpenParen {
            return self.take_whole(at, word);
        }
        if makes_names(word) {
            self.uses.makes_names = true;
        }
        self.take_value(at, word)
    }

    fn close_brace(&mut self) {
        if self.braces == 0 {
            self.part = Part::Between;
        } else {
            self.braces = self.braces.saturating_sub(1);
        }
    }

    fn take_in_attributes(
        &mut self,
        at: Place,
        token: &Token<'a>,
        next: Kind,
    ) -> Result<(), NoMemory> {
        match token.kind {
            Kind::Word => self.take_word(at, token.text, next)?,
            Kind::Text => self.take_text(further(at, 1), content_of(token.text))?,
            Kind::Ref | Kind::ListRef => self.take_whole(at, token.text)?,
            Kind::OpenParen => self.brackets = self.brackets.saturating_add(1),
            Kind::CloseParen => self.brackets = self.brackets.saturating_sub(1),
            Kind::OpenBrace => self.braces = self.braces.saturating_add(1),
            Kind::CloseBrace => self.close_brace(),
            Kind::Semicolon if self.is_bundle => self.part = Part::Statement,
            _ => {}
        }
        Ok(())
    }

    fn take_in_bundle(&mut self, at: Place, token: &Token<'a>, next: Kind) -> Result<(), NoMemory> {
        match token.kind {
            Kind::Word if next == Kind::Colon => self.section = token.text,
            Kind::Word => self.ask_class(at, token.text)?,
            Kind::Text => self.take_promiser(further(at, 1), content_of(token.text))?,
            Kind::CloseBrace => self.part = Part::Between,
            _ => {}
        }
        Ok(())
    }

    fn take_in_heading(&mut self, at: Place, token: &Token<'a>) -> Result<(), NoMemory> {
        match token.kind {
            Kind::Word => self.take_heading_word(at, token.text)?,
            Kind::OpenBrace if self.is_bundle => self.part = Part::Statement,
            Kind::OpenBrace => self.part = Part::Attributes,
            _ => {}
        }
        Ok(())
    }

    fn take(&mut self, token: &Token<'a>, next: Kind) -> Result<(), NoMemory> {
        let at = token.place;
        match self.part {
            Part::Between => {
                self.begin_block(token.text);
                Ok(())
            }
            Part::Heading => self.take_in_heading(at, token),
            Part::Statement => self.take_in_bundle(at, token, next),
            Part::Attributes => self.take_in_attributes(at, token, next),
        }
    }

    fn take_all(&mut self, tokens: &[Token<'a>]) -> Result<(), NoMemory> {
        self.part = Part::Between;
        for (place, token) in tokens.iter().enumerate() {
            let next = match tokens.get(place.saturating_add(1)) {
                Some(next) => next.kind,
                None => Kind::Semicolon,
            };
            self.take(token, next)?;
        }
        Ok(())
    }

    // The answer is whether the file has tokens.
    fn take_file(&mut self, alloc: Global, file: &'a (Name, Bytes)) -> Result<bool, NoMemory>
        ensures { IfOk result (λ has_tokens. TellsTokens has_tokens file.now.1) }
    {
        self.source = file.0.as_str();
        let Some(tokens) = tokens_of(alloc, file.1.as_slice())? else {
            return Ok(false);
        };
        self.take_all(tokens.as_slice())?;
        Ok(true)
    }

    fn take_files(&mut self, alloc: Global, files: &'a [(Name, Bytes)]) -> Result<bool, NoMemory>
        ensures tokens { IfOk result (λ all. IsTrue all → AllHaveTokens files.now) }
        ensures fault { IfOk result (λ all. all ≡ false → SomeHasFault files.now) }
        ensures none { files.now ≡ [] → self.new ≡ self.old }
    {
        for file in files {
            if !self.take_file(alloc, file)? {
                return Ok(false);
            }
        }
        Ok(true)
    }
}

/// What the files of a policy define, set, raise, call and ask for. None where one of them has no tokens.
pub fn uses_of<'a>(alloc: Global, sources: &'a Sources) -> Result<Option<Uses<'a>>, NoMemory>
    ensures tokens { IfOk result (λ found. IsSome found → AllHaveTokens sources.now) }
    ensures fault { IfOk result (λ found. IfNone found (SomeHasFault sources.now)) }
    ensures none { sources.now ≡ [] → IfOk result (λ found. IfSome found IsUnused) }
{
    let mut walk = Walk::new(alloc);
    let has_tokens = walk.take_files(alloc, sources.texts())?;
    let Walk { uses, .. } = walk;
    if has_tokens { Ok(Some(uses)) } else { Ok(None) }
}
