// Why promises fail and are in conflict, for people.
ghost use Rattle.std.specs.Prelude.{◌≡◌, IfSome};
ghost use Rattle.cfa_advice.specs.Codes.{code_of_reason, code_of_cause};

/// Why a promise fails.
#[derive(Clone, Copy, Debug, PartialEq, Eq)]
pub enum Reason {
    BadPath,
    Missing,
    Obstructed,
    NotText,
    NonConvergent,
    NoAnchor,
    FieldCount,
    UnknownService,
    BadPattern,
    BadValue,
    Fault,
    TooLong,
    TooMany,
}

/// All of them, in the order of their codes F1 to F13.
pub const REASONS: [Reason; 13] = [
    Reason::BadPath,
    Reason::Missing,
    Reason::Obstructed,
    Reason::NotText,
    Reason::NonConvergent,
    Reason::NoAnchor,
    Reason::FieldCount,
    Reason::UnknownService,
    Reason::BadPattern,
    Reason::BadValue,
    Reason::Fault,
    Reason::TooLong,
    Reason::TooMany,
];

impl Reason {
    /// The code that a line of a failed promise tells it by.
    pub fn code(self) -> &'static str
        ensures { result.now ≡ code_of_reason self }
    {
        match self {
            Reason::BadPath => "F1",
            Reason::Missing => "F2",
            Reason::Obstructed => "F3",
            Reason::NotText => "F4",
            Reason::NonConvergent => "F5",
            Reason::NoAnchor => "F6",
            Reason::FieldCount => "F7",
            Reason::UnknownService => "F8",
            Reason::BadPattern => "F9",
            Reason::BadValue => "F10",
            Reason::Fault => "F11",
            Reason::TooLong => "F12",
            Reason::TooMany => "F13",
        }
    }

    /// What kept the promise from being kept.
    pub fn sentence(self) -> &'static str {
        match self {
            Reason::BadPath => BAD_PATH,
            Reason::Missing => MISSING,
            Reason::Obstructed => OBSTRUCTED,
            Reason::NotText => "the file to edit isn't in UTF-8",
            Reason::NonConvergent => NON_CONVERGENT,
            Reason::NoAnchor => NO_ANCHOR,
            Reason::FieldCount =>
                "a line that the pattern matches has fewer fields than the edit asks for",
            Reason::UnknownService => UNKNOWN_SERVICE,
            Reason::BadPattern => "the expanded text is no regular expression",
            Reason::BadValue => BAD_VALUE,
            Reason::Fault => "a call on the host failed",
            Reason::TooLong =>
                "an expanded text has more than 65,536 bytes, or a file more than 16,777,216",
            Reason::TooMany =>
                "a list has more than 4,096 items, or the lists have more combinations",
        }
    }
}

const MISSING: &str =
    "nothing stands there: the file to edit, the source to copy, or what is to get \
permissions";

const NO_ANCHOR: &str =
    "no line of the file matches the pattern that the insert asks for; a pattern matches \
a whole line";

const BAD_PATH: &str =
    "the promiser or the source is no path: it begins with /, has no `.` or `..`, and no / at its \
end; a directory is written with /. at the end, as /srv/www/. for /srv/www";

const OBSTRUCTED: &str =
    "something stands in the way: a file where a directory is asked for or the other way \
round, a file above the path, or a directory that isn't empty and is to be deleted";

const NON_CONVERGENT: &str =
    "edited once more, the result would be another one, so that the edit would never \
come to rest; write a pattern that the result doesn't match";

const UNKNOWN_SERVICE: &str = "host/services.tab has no row of this service";

const BAD_VALUE: &str =
    "an expanded value isn't of its kind: a mode of 3 or 4 octal digits, a word or a number as the \
attribute takes it";

/// The reason that is told by this code.
pub fn reason_of(code: &str) -> Option<Reason>
    ensures { IfSome result (λ reason. code_of_reason reason ≡ code.now) }
{
    for reason in REASONS {
        if reason.code() == code {
            return Some(reason);
        }
    }
    None
}

/// Why promises are in conflict.
#[derive(Clone, Copy, Debug, PartialEq, Eq)]
pub enum Cause {
    Restarts,
    ComesAndGoes,
    Undoes,
    Waits,
}

/// All of them, in the order of their codes C1 to C4.
pub const CAUSES: [Cause; 4] = [
    Cause::Restarts,
    Cause::ComesAndGoes,
    Cause::Undoes,
    Cause::Waits,
];

impl Cause {
    /// The code that a line of a conflict tells it by.
    pub fn code(self) -> &'static str
        ensures { result.now ≡ code_of_cause self }
    {
        match self {
            Cause::Restarts => "C1",
            Cause::ComesAndGoes => "C2",
            Cause::Undoes => "C3",
            Cause::Waits => "C4",
        }
    }

    /// What the first promise is in the conflict.
    pub fn first(self) -> &'static str {
        match self {
            Cause::Restarts => "each run restarts it",
            Cause::ComesAndGoes | Cause::Waits => "what becomes of it decides the class",
            Cause::Undoes => "what it asks for is undone",
        }
    }

    /// What the second promise is in the conflict.
    pub fn second(self) -> &'static str {
        match self {
            Cause::Restarts => "each run restarts it",
            Cause::ComesAndGoes => "it is to hold, and waits for the class",
            Cause::Undoes => "it undoes that",
            Cause::Waits => "the variable or the edit waits for the class",
        }
    }

    /// How such a conflict is resolved.
    pub fn sentence(self) -> &'static str {
        match self {
            Cause::Restarts => RESTARTS,
            Cause::ComesAndGoes =>
                "take the guard away, or raise the class for both outcomes, kept and repaired",
            Cause::Undoes => UNDOES,
            Cause::Waits =>
                "set the variable or make the edit in any case, or let a class of -D decide it",
        }
    }
}

const RESTARTS: &str =
    "restart under a class that a repair raises, and say `start` where the service is to \
run in any case";

const UNDOES: &str =
    "leave one of the two, or let a class of -D tell which holds where; give all lines of a file to one \
edit, as a list: $(list) makes a promise for each item, @(list) hands all of them on";

/// The cause that is told by this code.
pub fn cause_of(code: &str) -> Option<Cause>
    ensures { IfSome result (λ cause. code_of_cause cause ≡ code.now) }
{
    for cause in CAUSES {
        if cause.code() == code {
            return Some(cause);
        }
    }
    None
}
