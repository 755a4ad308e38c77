// What is told of the steps of an agent.
use cfa_agent::{Stepped, Tally};
use cfa_base::Name;
use cfa_outside::{Change, Entry, MemorySite};
use std::alloc::Global;

// What was told so far. Nothing stops where there is no memory: it is noted here, and so the test fails.
#[derive(Drop)]
pub struct Told {
    pub alloc: Global,
    pub text: String,
    pub is_whole: bool,
}

impl Told {
    pub fn new(alloc: Global) -> Told {
        Told {
            alloc,
            text: String::new(alloc),
            is_whole: true,
        }
    }

    // Adds pieces.
    pub fn push(&mut self, pieces: &[&str]) {
        for piece in pieces {
            self.is_whole &= self.text.push_str(piece).is_ok();
        }
    }

    // Adds a number, with what stands before it.
    pub fn push_number(&mut self, before: &str, number: u64) {
        match format!(in self.alloc; "{before}{number}") {
            Ok(digits) => self.push(&[digits.as_str()]),
            Err(_) => self.is_whole = false,
        }
    }
}

// Tells the first two words of a record.
fn tell_record(bytes: &[u8], told: &mut Told) {
    match str::from_utf8(bytes) {
        Ok(text) => {
            told.push(&["append"]);
            for word in text.split(' ').take(2) {
                told.push(&[" ", word]);
            }
            told.push(&["\n"]);
        }
        Err(_) => told.is_whole = false,
    }
}

fn tell_change(change: &Change, told: &mut Told) {
    match change {
        Change::PutFile(path, _) => told.push(&["file ", path.text().as_str(), "\n"]),
        Change::Append(bytes) => tell_record(bytes.as_slice(), told),
        Change::PutService(name, _) => told.push(&["service ", name.as_str(), "\n"]),
        Change::PutDir(_) | Change::Remove(_) | Change::SetPerms(_, _) | Change::PutLock(_, _) =>
            told.push(&["another change\n"]),
    }
}

// Tells the entries of a site behind so many.
pub fn tell_entries(site: &MemorySite, from: usize, told: &mut Told) {
    for entry in site.log().iter().skip(from) {
        match entry {
            Entry::Did(change) => tell_change(change, told),
            Entry::Refused(_) => told.push(&["refused\n"]),
        }
    }
}

// Tells what a step answered, its lines and the counts.
pub fn tell_step(stepped: &Stepped, lines: &[Name], tally: Tally, told: &mut Told) {
    told.push(&[match stepped {
        Stepped::More => "more\n",
        Stepped::Ended => "ended\n",
        Stepped::Stopped(_) => "stopped\n",
    }]);
    for line in lines {
        told.push(&[line.as_str()]);
    }
    told.push_number("kept ", tally.kept);
    told.push_number(" repaired ", tally.repaired);
    told.push_number(" failed ", tally.failed);
    told.push(&["\n"]);
}
