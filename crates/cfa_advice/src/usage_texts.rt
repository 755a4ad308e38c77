// What is told of words that are refused.
use crate::usage::WordsFault;
use std::alloc::{AllocError, Global};

const USAGE: &str = "usage: diwalmeq run POLICY [-K] [-D CLASSES] [--strict]
       diwalmeq check POLICY [-D CLASSES]
       diwalmeq show POLICY
       diwalmeq edits POLICY [-D CLASSES]
       diwalmeq audit JOURNAL
       diwalmeq history JOURNAL
       diwalmeq demo NUMBER
";

const COMMANDS: &str = "
run      brings the host in the folder `host` of this folder to the state that the policy promises
check    tells whether the policy is accepted, or names its first fault or conflict; touches no host
show     prints the policy in its canonical text
edits    tells which edits of files settle on any file; touches no host
audit    tells of each run in a journal, as host/journal
history  tells what became of each promise in the runs of a journal, and which files changed in between
demo     runs a policy of so many promises, from 1 to 10000, twice on the host in the folder `host`, and tells what each run did

-K, --no-lock         run without locks: look at each promise, and tell whether a rerun would change nothing
-D, --define CLASSES  classes that are set from the start, with a comma between two
--strict              run no policy that isn't accepted

Inputs of a policy are read from the folder in which the command runs. Status: 0 done, 1 refused, 2 a promise
failed, 3 conflict, 4 a file, a lock, the journal or the output failed, 5 no memory, 6 a limit.
docs/running.md has more.
";

const VERSION: &str = "diwalmeq 0.1.0
";

// What is wrong, by the word at fault.
fn sentence_of(alloc: Global, fault: WordsFault<'_>) -> Result<String, AllocError> {
    match fault {
        WordsFault::Help | WordsFault::Version => Ok(String::new(alloc)),
        WordsFault::NoCommand => {
            String::from_str(
                alloc,
                "a command and a file are missing, or a word isn't in UTF-8\n",
            )
        }
        WordsFault::NoFile("demo") => {
            String::from_str(alloc, "demo: the number of promises is missing\n")
        }
        WordsFault::NoFile(command) => format!(in alloc; "{command}: the file is missing\n"),
        WordsFault::DemoNumber(word) => {
            format!(in alloc;
                "demo {word}: the number of promises is from 1 to 10000, in digits alone\n"
            )
        }
        WordsFault::TooMany(word) => {
            format!(in alloc; "{word}: one word too many; a command takes one file\n")
        }
        WordsFault::UnknownCommand(word) => format!(in alloc; "{word}: no such command\n"),
        WordsFault::UnknownOption(word) => format!(in alloc; "{word}: no such option\n"),
        WordsFault::Twice(word) => {
            format!(in alloc; "{word}: given twice; classes of one -D are separated by commas\n")
        }
        WordsFault::NoValue(word) => format!(in alloc; "{word}: this option takes no value\n"),
        WordsFault::NoClasses(word) => {
            format!(in alloc; "{word}: its classes are missing, as in -D web,test\n")
        }
        WordsFault::BadClass(word) => {
            format!(in alloc; "{word:?}: no class; a class is made of letters, digits and _\n")
        }
        WordsFault::NotItsOwn(command, word) => {
            format!(in alloc; "{command} doesn't take {word}\n")
        }
    }
}

/// What is told of refused words: what is wrong with them, and how they are written.
pub fn words_advice(alloc: Global, fault: Option<WordsFault<'_>>) -> Result<String, AllocError> {
    let Some(fault) = fault else {
        return String::from_str(alloc, USAGE);
    };
    if fault == WordsFault::Version {
        return String::from_str(alloc, VERSION);
    }
    let mut text = sentence_of(alloc, fault)?;
    text.push_str(USAGE)?;
    if fault == WordsFault::Help {
        text.push_str(COMMANDS)?;
    }
    Ok(text)
}
