// Why policies and journals are refused, for people.
ghost use Rattle.std.specs.Prelude.{◌≡◌, IfSome};
ghost use Rattle.cfa_advice.specs.Codes.{code_of};

/// Why a policy or a journal is refused.
#[derive(Clone, Copy, Debug, PartialEq, Eq)]
pub enum Fault {
    BadByte,
    UnclosedText,
    NotText,
    LongSource,
    Unexpected,
    TooDeep,
    UnknownType,
    TypeOutOfScope,
    UnknownAttribute,
    WrongValue,
    UnknownBody,
    UnknownBundle,
    ArgumentCount,
    Duplicate,
    CallCycle,
    NoSequence,
    BadClassText,
    ReferenceOutOfScope,
    BadPattern,
    BadRecord,
    LongJournal,
}

/// All of them.
pub const FAULTS: [Fault; 21] = [
    Fault::BadByte,
    Fault::UnclosedText,
    Fault::NotText,
    Fault::LongSource,
    Fault::Unexpected,
    Fault::TooDeep,
    Fault::UnknownType,
    Fault::TypeOutOfScope,
    Fault::UnknownAttribute,
    Fault::WrongValue,
    Fault::UnknownBody,
    Fault::UnknownBundle,
    Fault::ArgumentCount,
    Fault::Duplicate,
    Fault::CallCycle,
    Fault::NoSequence,
    Fault::BadClassText,
    Fault::ReferenceOutOfScope,
    Fault::BadPattern,
    Fault::BadRecord,
    Fault::LongJournal,
];

impl Fault {
    /// The code that a line of a refusal tells it by.
    pub fn code(self) -> &'static str
        ensures { result.now ≡ code_of self }
    {
        match self {
            Fault::BadByte => "L1",
            Fault::UnclosedText => "L2",
            Fault::NotText => "L3",
            Fault::LongSource => "L4",
            Fault::Unexpected => "P1",
            Fault::TooDeep => "P2",
            Fault::UnknownType => "S1",
            Fault::TypeOutOfScope => "S2",
            Fault::UnknownAttribute => "S3",
            Fault::WrongValue => "S4",
            Fault::UnknownBody => "S5",
            Fault::UnknownBundle => "S6",
            Fault::ArgumentCount => "S7",
            Fault::Duplicate => "S8",
            Fault::CallCycle => "S9",
            Fault::NoSequence => "S10",
            Fault::BadClassText => "S11",
            Fault::ReferenceOutOfScope => "S12",
            Fault::BadPattern => "S13",
            Fault::BadRecord => "J1",
            Fault::LongJournal => "J2",
        }
    }

    /// What is wrong at its place, and what to write there.
    pub fn sentence(self) -> &'static str {
        match self {
            Fault::BadByte => BAD_BYTE,
            Fault::UnclosedText => UNCLOSED_TEXT,
            Fault::NotText => "the file is no UTF-8 from this byte on; save it as UTF-8",
            Fault::LongSource => "a file has at most 1,048,576 bytes; part it by `inputs`",
            Fault::Unexpected => UNEXPECTED,
            Fault::TooDeep => "at most 16 levels of `!`, `(` and calls may be open at once",
            Fault::UnknownType => UNKNOWN_TYPE,
            Fault::TypeOutOfScope => TYPE_OUT_OF_SCOPE,
            Fault::UnknownAttribute => UNKNOWN_ATTRIBUTE,
            Fault::WrongValue => WRONG_VALUE,
            Fault::UnknownBody => UNKNOWN_BODY,
            Fault::UnknownBundle => UNKNOWN_BUNDLE,
            Fault::ArgumentCount => ARGUMENT_COUNT,
            Fault::Duplicate => "this stands twice; the second one is shown",
            Fault::CallCycle =>
                "this bundle calls back the one that calls it, so the calls never end",
            Fault::NoSequence => NO_SEQUENCE,
            Fault::BadClassText => BAD_CLASS_TEXT,
            Fault::ReferenceOutOfScope => REFERENCE_OUT_OF_SCOPE,
            Fault::BadPattern => BAD_PATTERN,
            Fault::BadRecord => BAD_RECORD,
            Fault::LongJournal =>
                "a journal has at most 16,777,216 bytes; move it away between runs",
        }
    }

    /// The page that has more, and its part.
    pub fn page(self) -> &'static str {
        match self {
            Fault::BadByte | Fault::UnclosedText | Fault::NotText | Fault::LongSource => {
                "docs/language.md, Tokens"
            }
            Fault::Unexpected | Fault::TooDeep => "docs/language.md, Grammar",
            Fault::UnknownType | Fault::TypeOutOfScope => "docs/language.md, Types",
            Fault::UnknownAttribute | Fault::WrongValue => {
                "docs/language.md, Attributes of promises, Attributes of bodies"
            }
            Fault::UnknownBody
            | Fault::UnknownBundle
            | Fault::ArgumentCount
            | Fault::Duplicate
            | Fault::CallCycle
            | Fault::BadClassText => "docs/language.md, Refusals",
            Fault::NoSequence | Fault::ReferenceOutOfScope => {
                "docs/language.md, Files, sequence and references"
            }
            Fault::BadPattern => "docs/language.md, Patterns",
            Fault::BadRecord | Fault::LongJournal => "docs/formats.md, The journal",
        }
    }
}

const BAD_BYTE: &str = "nothing begins with this byte: a text stands in quotes, and `$` and `@` \
stand before a name in brackets, as $(name) and @(list)";

const UNCLOSED_TEXT: &str =
    "this text is never closed; where it should be whole, a quote is missing \
further up, and this quote was taken for the opening one";

const UNEXPECTED: &str =
    "no policy goes on like this: something is missing before it, as `;`, `,`, \
a quote or a bracket, or it is too much";

const UNKNOWN_TYPE: &str = "no bundles, bodies or promises have this type";

const TYPE_OUT_OF_SCOPE: &str =
    "CFEngine has this type and it is left out here, or promises of it don't \
stand in bundles of this type, or the body isn't named `control`";

const UNKNOWN_ATTRIBUTE: &str =
    "this attribute isn't taken here; for `if`, `ifvarclass` and `unless` write \
the class as a guard before the promise: class::";

const WRONG_VALUE: &str =
    "the value isn't of the kind that its attribute takes, its function isn't \
known, or an attribute that is needed here is missing";

const UNKNOWN_BODY: &str =
    "no body of this name is defined for this attribute; there is no standard \
library, so write the body into the policy or into one of its inputs";

const UNKNOWN_BUNDLE: &str =
    "no bundle of this name is defined, or not one of the type that is wanted here; \
a bundle in another file is known once `inputs` names that file";

const ARGUMENT_COUNT: &str =
    "the call has another number of arguments than what it calls has parameters; \
a bundle of the sequence, and `main` without one, has none";

const NO_SEQUENCE: &str =
    "nothing says what is run: write `bundle agent main`, or `body common control` \
with a bundlesequence";

const BAD_CLASS_TEXT: &str =
    "this is no class expression: names of letters, digits and underscores, with \
`.`, `|`, `!` and brackets between them";

const REFERENCE_OUT_OF_SCOPE: &str =
    "this text refers to what it may not name, or a `$(` or `${` in it \
begins no reference; for the characters write $(const.dollar)( and $(const.dollar){";

const BAD_PATTERN: &str =
    "this is no regular expression; a character that stands for itself, as `(`, gets a \
backslash or stands in square brackets";

const BAD_RECORD: &str =
    "this line is no record in its place, so that the journal was damaged or somebody \
else wrote to it; the lines before it are sound";

/// The fault that is told by this code.
pub fn fault_of(code: &str) -> Option<Fault>
    ensures { IfSome result (λ fault. code_of fault ≡ code.now) }
{
    for fault in FAULTS {
        if fault.code() == code {
            return Some(fault);
        }
    }
    None
}
