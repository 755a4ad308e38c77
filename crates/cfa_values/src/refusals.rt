// Refusals, and the first of several.
ghost use Rattle.std.specs.Prelude.{◌≡◌};
ghost use Rattle.cfa_values.specs.Refusals.{number_of, is_same_place, is_sooner, only_if, noted};

use cfa_base::{Place, is_before};

/// The lines of the table of refusals.
#[derive(Clone, Copy, Debug, PartialEq, Eq)]
pub enum Code {
    /// The word of a type that isn't known.
    UnknownType,
    /// A type that this profile leaves out, or that doesn't belong there.
    TypeOutOfScope,
    /// An attribute that isn't in the table of its type.
    UnknownAttribute,
    /// A value that isn't of its kind, or one that is missing.
    WrongValue,
    /// A body that isn't defined.
    UnknownBody,
    /// A bundle that isn't defined, or of another type.
    UnknownBundle,
    /// Another number of arguments.
    ArgumentCount,
    /// A name that stands before already.
    Duplicate,
    /// A call of bundles that lies on a cycle.
    CallCycle,
    /// No bundlesequence, and no agent bundle `main`.
    NoSequence,
    /// A class text that is no expression.
    BadClassText,
    /// A reference that is broken, or names what may not be referred to.
    ReferenceOutOfScope,
    /// A text that is no pattern.
    BadPattern,
}

impl Code {
    /// The number that the line is printed with, as 3 for S3.
    pub fn number(self) -> u8
        ensures { result ≡ number_of self }
    {
        match self {
            Code::UnknownType => 1,
            Code::TypeOutOfScope => 2,
            Code::UnknownAttribute => 3,
            Code::WrongValue => 4,
            Code::UnknownBody => 5,
            Code::UnknownBundle => 6,
            Code::ArgumentCount => 7,
            Code::Duplicate => 8,
            Code::CallCycle => 9,
            Code::NoSequence => 10,
            Code::BadClassText => 11,
            Code::ReferenceOutOfScope => 12,
            Code::BadPattern => 13,
        }
    }
}

/// Why a policy isn't valid: a line of the table of refusals, and the place of the word or value at fault. Of a text it is
/// the place of its opening quote.
#[derive(Clone, Copy, Debug, PartialEq, Eq)]
pub struct Refusal {
    pub code: Code,
    pub place: Place,
}

#[tactic(auto, unfolding(crate::specs::Refusals::is_sooner))]
fn is_sooner(refusal: Refusal, other: Refusal) -> bool
    ensures { result ≡ is_sooner refusal other }
{
    is_before(refusal.place, other.place)
        || (is_same_place(refusal.place, other.place)
            && refusal.code.number() < other.code.number())
}

fn is_same_place(place: Place, other: Place) -> bool
    ensures { result ≡ is_same_place place other }
{
    place.file == other.file && place.line == other.line && place.col == other.col
}

/// Notes a refusal, where the condition holds: the first so far stays first unless this one is sooner.
pub fn note_if(first: &mut Option<Refusal>, condition: bool, code: Code, place: Place)
    ensures { first.new ≡ noted first.old (only_if condition code place) }
{
    if !condition {
        return;
    }
    let refusal = Refusal { code, place };
    match *first {
        Some(so_far) if !is_sooner(refusal, so_far) => {}
        _ => *first = Some(refusal),
    }
}
