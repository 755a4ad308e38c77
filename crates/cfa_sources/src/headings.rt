// The codes and the words of the lines of the table of refusals.
ghost use Rattle.std.specs.Prelude.{◌≡◌};
ghost use Rattle.cfa_sources.specs.Headings.{heading_of};

use cfa_schema::Code;

/// The code and the word that a line of the table of refusals is printed with.
pub fn heading_of(code: Code) -> (&'static str, &'static str)
    ensures code { result.0.now ≡ (heading_of code).code }
    ensures word { result.1.now ≡ (heading_of code).word }
{
    match code {
        Code::UnknownType => ("S1", "UnknownType"),
        Code::TypeOutOfScope => ("S2", "TypeOutOfScope"),
        Code::UnknownAttribute => ("S3", "UnknownAttribute"),
        Code::WrongValue => ("S4", "WrongValue"),
        Code::UnknownBody => ("S5", "UnknownBody"),
        Code::UnknownBundle => ("S6", "UnknownBundle"),
        Code::ArgumentCount => ("S7", "ArgumentCount"),
        Code::Duplicate => ("S8", "Duplicate"),
        Code::CallCycle => ("S9", "CallCycle"),
        Code::NoSequence => ("S10", "NoSequence"),
        Code::BadClassText => ("S11", "BadClassText"),
        Code::ReferenceOutOfScope => ("S12", "ReferenceOutOfScope"),
        Code::BadPattern => ("S13", "BadPattern"),
    }
}
