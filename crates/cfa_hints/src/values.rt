// What an attribute takes, in words.
use cfa_kinds::{Form, Kind};

// What a text of a form is.
fn form_words(form: Form) -> &'static str {
    match form {
        Form::AnyText => "a text",
        Form::Boolean => "\"true\", \"false\", \"yes\", \"no\", \"on\" or \"off\"",
        Form::WholeNumber => "a whole number of at most 18 digits",
        Form::ServicePolicy => "\"start\", \"stop\", \"enable\", \"disable\" or \"restart\"",
        Form::LinkChoice => "\"delete\" or \"keep\"",
        Form::Digest => "\"digest\"",
        Form::NoBackup => "\"false\"",
        Form::Mode => "3 or 4 octal digits, as \"644\"",
        Form::Minutes => "a number from 0 to 525600",
        Form::Side => "\"before\" or \"after\"",
        Form::End => "\"first\" or \"last\"",
        Form::Occurrences => "\"all\" or \"first\"",
        Form::Character => "one character",
        Form::FieldNumber => "a number from 1 to 999",
        Form::FieldOperation => "\"set\"",
    }
}

// What a value of a kind is.
pub fn kind_words(kind: Kind) -> &'static str {
    match kind {
        Kind::Text(form) | Kind::Literal(form) | Kind::TextOrCall(form) => form_words(form),
        Kind::Pattern => "a text, which is a pattern for a whole line",
        Kind::List => "a list of texts, as { \"a\", \"b\" }",
        Kind::FullList => "a list of texts, as { \"a\", \"b\" }, none of them empty",
        Kind::ClassText =>
            "a class expression as a text, or a call of strcmp, regcmp or isvariable",
        Kind::ClassTexts =>
            "a list of class expressions as texts, or of calls of strcmp, regcmp or isvariable",
        Kind::BodyOf(_) => "the name of a body, with its arguments in brackets",
        Kind::EditBundle => "the name of an edit_line bundle, with its arguments in brackets",
        Kind::AgentBundle => "the name of an agent bundle, with its arguments in brackets",
        Kind::BundleNames => "a list of the names of bundles, as { \"main\" }",
        Kind::InputNames => "a list of at most 16 names of files, as { \"lib.cf\" }",
    }
}

// What stands behind that.
pub fn kind_rest(kind: Kind) -> &'static str {
    match kind {
        Kind::Literal(_) | Kind::BundleNames | Kind::InputNames => ", without references",
        Kind::TextOrCall(_) => ", or a call of canonify, concat, join, length or nth",
        _ => "",
    }
}
