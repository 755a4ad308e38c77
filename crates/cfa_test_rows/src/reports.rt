// What is found of the rows of a table.
use crate::texts::parts;
use std::alloc::{AllocError, Global};
use std::fs;

/// The numbers of the rows that were read and of the calls that they made, and what isn't met in the row at hand. No reader of a row
/// stops at what can't be read or made: it is noted here, something empty stands in its place, and so the row is told, with no word
/// more where memory ended.
#[derive(Drop)]
pub struct Report {
    pub rt: HostRuntime,
    pub alloc: Global,
    /// What was put last, or told else of a call.
    pub put: String,
    /// All could be printed so far.
    pub is_printed: bool,
    pub rows: u32,
    pub calls: u32,
    is_met: bool,
    unmet: String,
}

// Says something, as far as there is memory.
fn say(text: &mut String, pieces: &[&str]) {
    for piece in pieces {
        let _ = text.push_str(piece);
    }
}

impl Report {
    /// Nothing was found yet.
    pub fn new(rt: HostRuntime) -> Report {
        let alloc = rt.alloc();
        Report {
            rt,
            alloc,
            put: String::new(alloc),
            is_printed: true,
            rows: 0,
            calls: 0,
            is_met: true,
            unmet: String::new(alloc),
        }
    }

    /// Notes that what was put isn't as it is to be.
    pub fn note(&mut self, what: &str, wanted: &str) {
        self.is_met = false;
        say(&mut self.unmet, &[what, "\nput: "]);
        say(&mut self.unmet, &[self.put.as_str()]);
        say(&mut self.unmet, &["\nwanted: ", wanted, "\n"]);
    }

    /// Notes what can't be read or made, where it can't.
    pub fn require(&mut self, is_had: bool, what: &str) {
        if !is_had {
            self.is_met = false;
            say(&mut self.unmet, &["can't be had: ", what, "\n"]);
        }
    }

    /// Adds pieces to what was put.
    pub fn push(&mut self, pieces: &[&str]) {
        for piece in pieces {
            self.is_met &= self.put.push_str(piece).is_ok();
        }
    }

    /// Adds pieces to a text.
    pub fn add(&mut self, text: &mut String, pieces: &[&str]) {
        for piece in pieces {
            self.is_met &= text.push_str(piece).is_ok();
        }
    }

    /// The text that was made.
    pub fn made(&mut self, made: Result<String, AllocError>) -> String {
        match made {
            Ok(text) => text,
            Err(_) => {
                self.is_met = false;
                String::new(self.alloc)
            }
        }
    }

    /// A text with another one in the places of a mark.
    pub fn replaced(&mut self, text: &str, mark: &str, other: &str) -> String {
        self.made(text.replace(self.alloc, mark, other))
    }

    /// The digits of a number.
    pub fn digits(&mut self, number: u64) -> String {
        self.made(format!(in self.alloc; "{number}"))
    }

    /// The number that a text tells.
    pub fn number(&mut self, text: &str) -> u64 {
        match text.parse::<u64>() {
            Ok(number) => number,
            Err(_) => {
                self.require(false, text);
                0
            }
        }
    }

    /// The number below 2 ^ 32 that a text tells.
    pub fn count(&mut self, text: &str) -> u32 {
        match u32::try_from(self.number(text)) {
            Ok(count) => count,
            Err(_) => {
                self.require(false, text);
                0
            }
        }
    }

    /// So many times the letter a.
    pub fn letters(&mut self, size: &str) -> String {
        let size = self.count(size) as usize;
        self.made("a".repeat(self.alloc, size))
    }

    /// The list of the calls that fail, of which there is one. No call has the number 0.
    pub fn failing(&mut self, call: &str) -> Vec<u32> {
        let mut list = Vec::new(self.alloc);
        self.is_met &= list.push(self.count(call)).is_ok();
        list
    }

    /// The text of a file beside the program.
    pub fn read(&mut self, name: &str, ending: &str) -> String {
        let mut file = String::new(self.alloc);
        self.add(&mut file, &[name, ending]);
        match fs::read_to_string(&self.rt, file.as_str()) {
            Ok(text) => text,
            Err(_) => {
                self.require(false, file.as_str());
                String::new(self.alloc)
            }
        }
    }

    /// Prints what isn't met in a row, behind the name of its table and its title.
    pub fn tell(&mut self, name: &str, row: &str) {
        if !self.is_met {
            let (title, _) = parts(row, "\n");
            let unmet = self.unmet.as_str();
            self.is_printed &= println!(self.rt; "{name}: {title}: {unmet}").is_ok();
        }
        self.unmet.clear();
        self.is_met = true;
    }

    /// Prints the numbers of a table, and counts anew.
    pub fn tell_numbers(&mut self, table: &str) {
        let (rows, calls) = (self.rows, self.calls);
        self.is_printed &= println!(self.rt; "{table}: {rows} rows, {calls} calls").is_ok();
        self.rows = 0;
        self.calls = 0;
    }
}
