// What is told of promises.
use std::alloc::Global;

// What was told so far. Nothing stops where there is no memory: it is noted here, and so the test fails.
#[derive(Drop)]
pub struct Told {
    pub alloc: Global,
    pub text: String,
    pub is_whole: bool,
}

impl Told {
    pub fn new(alloc: Global) -> Told {
        Told {
            alloc,
            text: String::new(alloc),
            is_whole: true,
        }
    }

    // Adds pieces.
    pub fn push(&mut self, pieces: &[&str]) {
        for piece in pieces {
            self.is_whole &= self.text.push_str(piece).is_ok();
        }
    }

    // Adds a number.
    pub fn push_number(&mut self, number: u64) {
        match format!(in self.alloc; "{number}") {
            Ok(digits) => self.push(&[digits.as_str()]),
            Err(_) => self.is_whole = false,
        }
    }
}
