// A sink that keeps what was put on another one, and inputs that keep the names that were asked for.
ghost use Rattle.std.specs.Prelude.{◌≡◌};

use cfa_base::{Bytes, Name, Names};
use cfa_outside::{Inputs, OutsideErr, Sink};
use std::alloc::Global;

// The most lines that are kept, and the most bytes of one.
const MOST_LINES: usize = 1000;

const MOST_BYTES: usize = 65_536;

/// The lines that were put, but for those of reports and of what was repaired. Of a long line and of many lines the first are kept,
/// and the last line besides.
#[derive(Drop)]
pub struct ToldLines {
    alloc: Global,
    lines: Vec<Bytes>,
    // The last line that found no room.
    last: Option<Bytes>,
    // How many bytes of the line that is being put are still to come.
    rest: usize,
}

impl ToldLines {
    fn new(alloc: Global) -> ToldLines {
        ToldLines {
            alloc,
            lines: Vec::new(alloc),
            last: None,
            rest: 0,
        }
    }

    /// The lines, in their order.
    pub fn lines(&self) -> &[Bytes] {
        self.lines.as_slice()
    }

    /// The last line, where it found no room among the others.
    pub fn last(&self) -> Option<&Bytes> {
        self.last.as_ref()
    }

    fn keep(&mut self, line: &[u8]) {
        let most = line.len().min(MOST_BYTES);
        // A line for which there is no memory isn't kept.
        let Ok(line) = Bytes::from_slice(self.alloc, &line[..most]) else {
            return;
        };
        if self.lines.len() < MOST_LINES {
            let _ = self.lines.push(line);
        } else {
            self.last = Some(line);
        }
    }

    // Takes note of a put, of which so many bytes were taken. What isn't the rest of a line begins one.
    fn note(&mut self, bytes: &[u8], count: usize) {
        if self.rest == 0 {
            if !bytes.starts_with(b"R: ") && !bytes.starts_with(b"repaired ") {
                self.keep(bytes);
            }
            self.rest = bytes.len();
        }
        self.rest = self.rest.saturating_sub(count);
    }
}

/// A sink that keeps what is put on another one.
#[derive(Drop)]
pub struct NotingSink<O> {
    inner: O,
    told: ToldLines,
}

impl<O: Drop> NotingSink<O> {
    /// The same sink, of which is kept what is put from now on.
    pub fn new(alloc: Global, inner: O) -> NotingSink<O>
        ensures { result.inner ≡ inner }
    {
        NotingSink {
            inner,
            told: ToldLines::new(alloc),
        }
    }

    pub fn told(&self) -> &ToldLines {
        &self.told
    }

    /// The sink itself.
    pub fn inner(&self) -> &O {
        &self.inner
    }
}

impl<O: Sink + Drop> Sink for NotingSink<O> {
    ghost shown = { λ s. O.shown s.inner };

    fn put(&mut self, bytes: &[u8]) -> Result<usize, OutsideErr> {
        let answer = self.inner.put(bytes);
        if let Ok(count) = answer {
            self.told.note(bytes, count);
        }
        answer
    }
}

/// Inputs that keep the names that were asked for.
#[derive(Drop)]
pub struct NotingInputs<I> {
    inner: I,
    names: Names,
}

impl<I: Drop> NotingInputs<I> {
    /// The same inputs, of which is kept what is asked for from now on.
    pub fn new(alloc: Global, inner: I) -> NotingInputs<I>
        ensures { result.inner ≡ inner }
    {
        NotingInputs {
            inner,
            names: Names::new(alloc),
        }
    }

    /// The names, in the order in which they were asked for; none where there is no memory for them.
    pub fn copy_names(&self, alloc: Global) -> Names {
        match self.names.copy(alloc) {
            Ok(names) => names,
            Err(_) => Names::new(alloc),
        }
    }

    /// The inputs themselves.
    pub fn inner(&mut self) -> &mut I {
        &mut self.inner
    }
}

// A name for which there is no memory isn't kept.
fn note_name(alloc: Global, names: &mut Names, name: &Name) {
    if let Ok(name) = name.copy(alloc) {
        let _ = names.push(name);
    }
}

impl<I: Inputs + Drop> Inputs for NotingInputs<I> {
    ghost shown = { λ s. I.shown s.inner };

    fn read(&mut self, alloc: Global, name: &Name, limit: u32) -> Result<Bytes, OutsideErr> {
        note_name(alloc, &mut self.names, name);
        self.inner.read(alloc, name, limit)
    }
}
