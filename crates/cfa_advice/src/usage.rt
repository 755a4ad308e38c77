// The words of a command line that are refused: what is wrong with them, and how they are written.

use cfa_base::is_decimal;

/// Why the words are refused.
#[derive(Clone, Copy, Debug, PartialEq, Eq)]
pub enum WordsFault<'a> {
    /// They ask for help.
    Help,
    /// They ask which version this is.
    Version,
    /// There are none.
    NoCommand,
    /// The command has no file.
    NoFile(&'a str),
    /// This is no number of promises of a demo.
    DemoNumber(&'a str),
    /// This word is one too many.
    TooMany(&'a str),
    /// No command has this name.
    UnknownCommand(&'a str),
    /// No option has this name.
    UnknownOption(&'a str),
    /// This option is given twice.
    Twice(&'a str),
    /// This option takes nothing.
    NoValue(&'a str),
    /// This option has no list of classes.
    NoClasses(&'a str),
    /// This is no class.
    BadClass(&'a str),
    /// The command doesn't take this option.
    NotItsOwn(&'a str, &'a str),
}

// What was seen of the words so far: each word, or the option as it was written.
#[derive(Drop)]
struct Seen<'a> {
    command: Option<&'a str>,
    file: Option<&'a str>,
    extra: Option<&'a str>,
    locks: Option<&'a str>,
    strict: Option<&'a str>,
    define: Option<&'a str>,
    // The list of its classes.
    classes: Option<&'a str>,
    // The next word is the list of this option.
    waiting: Option<&'a str>,
    // The options ended.
    ended: bool,
    fault: Option<WordsFault<'a>>,
}

fn is_class(text: &str) -> bool {
    !text.is_empty()
        && text
            .bytes()
            .all(|byte| byte.is_ascii_alphanumeric() || byte == b'_')
}

// The first part of a list that is no class.
fn bad_class(list: &str) -> Option<&str> {
    for part in list.split(',') {
        if !is_class(part) {
            return Some(part);
        }
    }
    None
}

// From 1 to 10000, without a zero in front.
fn is_demo_number(text: &str) -> bool {
    is_decimal(text.as_bytes()) && text != "0" && (text.len() < 5 || text == "10000")
}

fn is_dashed(word: &str) -> bool {
    word.len() > 1 && word.starts_with('-')
}

impl<'a> Seen<'a> {
    fn new() -> Seen<'a> {
        Seen {
            command: None,
            file: None,
            extra: None,
            locks: None,
            strict: None,
            define: None,
            classes: None,
            waiting: None,
            ended: false,
            fault: None,
        }
    }

    // The first fault stands.
    fn fail(&mut self, fault: WordsFault<'a>) {
        if self.fault.is_none() {
            self.fault = Some(fault);
        }
    }

    fn take_plain(&mut self, word: &'a str) {
        if self.command.is_none() {
            self.command = Some(word);
        } else if self.file.is_none() {
            self.file = Some(word);
        } else if self.extra.is_none() {
            self.extra = Some(word);
        }
    }

    fn take_locks(&mut self, word: &'a str) {
        if self.locks.is_some() {
            self.fail(WordsFault::Twice(word));
        }
        self.locks = Some(word);
    }

    fn take_strict(&mut self, word: &'a str) {
        if self.strict.is_some() {
            self.fail(WordsFault::Twice(word));
        }
        self.strict = Some(word);
    }

    fn take_define(&mut self, word: &'a str) {
        if self.define.is_some() {
            self.fail(WordsFault::Twice(word));
        }
        self.define = Some(word);
    }

    fn take_classes(&mut self, list: &'a str) {
        self.classes = Some(list);
        if let Some(part) = bad_class(list) {
            self.fail(WordsFault::BadClass(part));
        }
    }

    // `--NAME` or `--NAME=VALUE`.
    fn take_long(&mut self, word: &'a str, name: &'a str) {
        match name {
            "" => self.ended = true,
            "help" => self.fail(WordsFault::Help),
            "version" => self.fail(WordsFault::Version),
            "no-lock" => self.take_locks(word),
            "strict" => self.take_strict(word),
            "define" => {
                self.take_define(word);
                self.waiting = Some(word);
            }
            _ => self.take_valued(word, name),
        }
    }

    fn take_valued(&mut self, word: &'a str, name: &'a str) {
        match name.split_once('=') {
            Some(("define", list)) => {
                self.take_define(word);
                self.take_classes(list);
            }
            Some(("no-lock" | "strict", _)) => self.fail(WordsFault::NoValue(word)),
            _ => self.fail(WordsFault::UnknownOption(word)),
        }
    }

    // `-D` with what stands behind it in its word.
    fn take_short_define(&mut self, word: &'a str, rest: &'a str) {
        self.take_define(word);
        if rest.is_empty() {
            self.waiting = Some(word);
        } else {
            self.take_classes(rest.strip_prefix('=').unwrap_or(rest));
        }
    }

    // `-K`, `-D` or both.
    fn take_short(&mut self, word: &'a str, letters: &'a str) {
        let rest = match letters.strip_prefix('K') {
            Some(rest) => {
                self.take_locks(word);
                rest
            }
            None => letters,
        };
        if rest.is_empty() {
            return;
        }
        match rest.strip_prefix('D') {
            Some(behind) => self.take_short_define(word, behind),
            None => match rest {
                "h" => self.fail(WordsFault::Help),
                "V" => self.fail(WordsFault::Version),
                _ if rest.starts_with('K') => self.fail(WordsFault::Twice("-K")),
                _ => self.fail(WordsFault::UnknownOption(word)),
            },
        }
    }

    fn take_option(&mut self, word: &'a str) {
        if let Some(name) = word.strip_prefix("--") {
            self.take_long(word, name);
        } else if let Some(letters) = word.strip_prefix('-') {
            self.take_short(word, letters);
        }
    }

    fn take(&mut self, word: &'a str) {
        if let Some(option) = self.waiting {
            self.waiting = None;
            if is_dashed(word) {
                self.fail(WordsFault::NoClasses(option));
            } else {
                self.take_classes(word);
            }
        } else if !self.ended && is_dashed(word) {
            self.take_option(word);
        } else {
            self.take_plain(word);
        }
    }

    // What the command doesn't take of the options that were given.
    fn not_its_own(&self, command: &'a str) -> Option<WordsFault<'a>> {
        let takes_define = matches!(command, "run" | "check" | "edits");
        if command != "run" {
            if let Some(option) = self.locks.or(self.strict) {
                return Some(WordsFault::NotItsOwn(command, option));
            }
        }
        match self.define {
            Some(option) if !takes_define => Some(WordsFault::NotItsOwn(command, option)),
            _ => None,
        }
    }

    // What is wrong with the words that are no options.
    fn plain_fault(&self) -> Option<WordsFault<'a>> {
        let Some(command) = self.command else {
            return Some(WordsFault::NoCommand);
        };
        match command {
            "help" => return Some(WordsFault::Help),
            "version" => return Some(WordsFault::Version),
            "run" | "check" | "show" | "edits" | "audit" | "history" | "demo" => {}
            _ => return Some(WordsFault::UnknownCommand(command)),
        }
        let Some(file) = self.file else {
            return Some(WordsFault::NoFile(command));
        };
        if let Some(word) = self.extra {
            return Some(WordsFault::TooMany(word));
        }
        if command == "demo" && !is_demo_number(file) {
            return Some(WordsFault::DemoNumber(file));
        }
        self.not_its_own(command)
    }

    fn end(self) -> Option<WordsFault<'a>> {
        if let Some(fault) = self.fault {
            return Some(fault);
        }
        match self.waiting {
            Some(option) => Some(WordsFault::NoClasses(option)),
            None => self.plain_fault(),
        }
    }
}

/// What words give that aren't refused: the command, its file, and the list of classes that are set from the start; each empty where
/// there is none.
#[derive(Clone, Copy, Debug)]
pub struct Given<'a> {
    pub command: &'a str,
    pub file: &'a str,
    pub classes: &'a str,
}

fn see<'a>(words: &[&'a str]) -> Seen<'a> {
    let mut seen = Seen::new();
    for word in words {
        seen.take(word);
    }
    seen
}

/// What words give that aren't refused.
pub fn given_by<'a>(words: &[&'a str]) -> Given<'a> {
    let seen = see(words);
    Given {
        command: seen.command.unwrap_or(""),
        file: seen.file.unwrap_or(""),
        classes: seen.classes.unwrap_or(""),
    }
}

/// What is wrong with words that are refused: that of an option before that of a command or a file. `None` where nothing is found.
pub fn words_fault<'a>(words: &[&'a str]) -> Option<WordsFault<'a>> {
    see(words).end()
}
