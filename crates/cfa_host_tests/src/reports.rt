// What is found of the rows of a test.
use crate::texts::ZEROS;
use cfa_base::{Bytes, Name};
use cfa_outside::Path;
use std::alloc::Global;
use std::fmt::Debug;
use std::mem::replace;
use std::process::ExitCode;

// What isn't met so far. No reader of a row stops at what can't be read or made: it is noted here,
// the row goes on without it, and so it is told when the test ends.
#[derive(Drop)]
pub struct Report {
    pub rt: HostRuntime,
    pub alloc: Global,
    // What was answered last.
    answer: String,
    is_met: bool,
    unmet: String,
}

// Says something, as far as there is memory.
fn say(text: &mut String, pieces: &[&str]) {
    for piece in pieces {
        let _ = text.push_str(piece);
    }
}

impl Report {
    pub fn new(rt: HostRuntime) -> Report {
        let alloc = rt.alloc();
        Report {
            rt,
            alloc,
            answer: String::new(alloc),
            is_met: true,
            unmet: String::new(alloc),
        }
    }

    // Notes what can't be read or made, where it can't.
    pub fn require(&mut self, is_had: bool, what: &str) {
        if !is_had {
            self.is_met = false;
            say(&mut self.unmet, &["\ncan't be had: ", what]);
        }
    }

    // Takes pieces as the answer.
    pub fn put(&mut self, pieces: &[&str]) {
        self.answer.clear();
        say(&mut self.answer, pieces);
    }

    // Takes the answer away.
    pub fn take(&mut self) -> String {
        replace(&mut self.answer, String::new(self.alloc))
    }

    // Adds pieces to the answer.
    pub fn push(&mut self, pieces: &[&str]) {
        say(&mut self.answer, pieces);
    }

    // Takes the text of what a call answers as the answer.
    pub fn tell(&mut self, answer: &impl Debug) {
        match format!(in self.alloc; "{answer:?}") {
            Ok(text) => self.answer = text,
            Err(_) => self.require(false, "memory"),
        }
    }

    // Notes that the answer in a row isn't the one that is wanted.
    fn note(&mut self, table: &str, row: &str, wanted: &str) {
        self.is_met = false;
        say(&mut self.unmet, &["\n", table, ": ", row, "\nput: "]);
        say(&mut self.unmet, &[self.answer.as_str()]);
        say(&mut self.unmet, &["\nwanted: ", wanted]);
    }

    // Compares the answer in a row with the one that is wanted.
    pub fn compare(&mut self, table: &str, row: &str, wanted: &str) {
        if self.answer.as_str() != wanted {
            self.note(table, row, wanted);
        }
        self.answer.clear();
    }

    // The text that pieces make together.
    pub fn joined(&mut self, pieces: &[&str]) -> String {
        let mut text = String::new(self.alloc);
        for piece in pieces {
            let is_added = text.push_str(piece).is_ok();
            self.require(is_added, "memory");
        }
        text
    }

    // A text with a newline for each bar, 64 zeros for each `Z`, and a zero byte for each `^`.
    pub fn text(&mut self, told: &str) -> String {
        let mut text = String::new(self.alloc);
        for letter in told.chars() {
            let is_added = match letter {
                '|' => text.push('\n').is_ok(),
                'Z' => text.push_str(ZEROS).is_ok(),
                '^' => text.push('\0').is_ok(),
                _ => text.push(letter).is_ok(),
            };
            self.require(is_added, "memory");
        }
        text
    }

    pub fn bytes(&mut self, told: &str) -> Option<Bytes> {
        let text = self.text(told);
        Bytes::from_slice(self.alloc, text.as_str().as_bytes()).ok()
    }

    // The number that a text tells.
    pub fn number(&mut self, text: &str) -> u64 {
        match text.parse::<u64>() {
            Ok(number) => number,
            Err(_) => {
                self.require(false, text);
                0
            }
        }
    }

    pub fn name(&self, text: &str) -> Option<Name> {
        Name::from_text(self.alloc, text).ok()
    }

    pub fn path(&self, text: &str) -> Option<Path> {
        let text = self.name(text)?;
        Path::read(self.alloc, &text).ok()
    }

    // Tells what isn't met, and fails the test for it.
    pub fn end(&self) -> ExitCode {
        if !self.is_met {
            let unmet = self.unmet.as_str();
            let _ = eprintln!(self.rt; "{unmet}");
        }
        ExitCode::from(u8::from(!self.is_met))
    }
}
