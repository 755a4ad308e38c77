// The types of bundles, promises and bodies, and the kinds of values.
ghost use Rattle.std.specs.Prelude.{◌≡◌};
ghost use Rattle.cfa_kinds.specs.Kinds.{bundle_type, is_foreign_bundle_type, promise_type, is_foreign_promise_type, has_promise_type, body_type, is_foreign_body_type, body_word};

/// A type of bundles.
#[derive(Clone, Copy, Debug, PartialEq, Eq)]
pub enum BundleType {
    Agent,
    Common,
    EditLine,
}

/// A type of promises.
#[derive(Clone, Copy, Debug, PartialEq, Eq)]
pub enum PromiseType {
    Vars,
    Classes,
    Files,
    Methods,
    Services,
    Reports,
    DeleteLines,
    FieldEdits,
    InsertLines,
    ReplacePatterns,
}

/// A type of bodies. `Common` and `Agent` are those of the control bodies.
#[derive(Clone, Copy, Debug, PartialEq, Eq)]
pub enum BodyType {
    Delete,
    CopyFrom,
    EditDefaults,
    Perms,
    Classes,
    Action,
    Location,
    ReplaceWith,
    EditField,
    Common,
    Agent,
}

/// What a text is to be where it is known before the run.
#[derive(Clone, Copy, Debug, PartialEq, Eq)]
pub enum Form {
    AnyText,
    /// `true`, `false`, `yes`, `no`, `on` or `off`.
    Boolean,
    /// An optional `-` and 1 to 18 decimal digits.
    WholeNumber,
    /// `start`, `stop`, `enable`, `disable` or `restart`.
    ServicePolicy,
    /// `delete` or `keep`.
    LinkChoice,
    /// `digest`.
    Digest,
    /// `false`.
    NoBackup,
    /// 3 or 4 octal digits.
    Mode,
    /// A number from 0 to 525600.
    Minutes,
    /// `before` or `after`.
    Side,
    /// `first` or `last`.
    End,
    /// `all` or `first`.
    Occurrences,
    /// One character.
    Character,
    /// A number from 1 to 999.
    FieldNumber,
    /// `set`.
    FieldOperation,
}

/// What an attribute takes as its value.
#[derive(Clone, Copy, Debug, PartialEq, Eq)]
pub enum Kind {
    /// A text of a form.
    Text(Form),
    /// A text of a form, without references.
    Literal(Form),
    /// A text of a form, or a call of a text function.
    TextOrCall(Form),
    /// A text that is a pattern for whole lines.
    Pattern,
    /// A list of texts.
    List,
    /// A list that isn't empty, of texts that aren't empty.
    FullList,
    /// A class text, or a call of a class function.
    ClassText,
    /// A list of these.
    ClassTexts,
    /// A body of a type.
    BodyOf(BodyType),
    /// An edit_line bundle.
    EditBundle,
    /// An agent bundle, or its name as a text without references.
    AgentBundle,
    /// A list of the names of bundles, without references.
    BundleNames,
    /// A list of at most 16 names of files, without references.
    InputNames,
}

/// The type of bundles that a word names. `None` also for the types that this profile leaves out.
#[tactic(auto, unfolding(crate::specs::Kinds::bundle_type))]
pub fn bundle_type(word: &str) -> Option<BundleType>
    ensures { result ≡ bundle_type word.now }
{
    match word {
        "agent" => Some(BundleType::Agent),
        "common" => Some(BundleType::Common),
        "edit_line" => Some(BundleType::EditLine),
        _ => None,
    }
}

/// Whether a word names a type of bundles of CFEngine that this profile leaves out.
#[tactic(auto, unfolding(crate::specs::Kinds::is_foreign_bundle_type))]
pub fn is_foreign_bundle_type(word: &str) -> bool
    ensures { result ≡ is_foreign_bundle_type word.now }
{
    matches!(word, "server" | "monitor" | "edit_xml")
}

/// The type of promises that a word names. `None` also for the types that this profile leaves out.
#[tactic(auto, unfolding(crate::specs::Kinds::promise_type))]
pub fn promise_type(word: &str) -> Option<PromiseType>
    ensures { result ≡ promise_type word.now }
{
    match word {
        "vars" => Some(PromiseType::Vars),
        "classes" => Some(PromiseType::Classes),
        "files" => Some(PromiseType::Files),
        "methods" => Some(PromiseType::Methods),
        "services" => Some(PromiseType::Services),
        "reports" => Some(PromiseType::Reports),
        "delete_lines" => Some(PromiseType::DeleteLines),
        "field_edits" => Some(PromiseType::FieldEdits),
        "insert_lines" => Some(PromiseType::InsertLines),
        "replace_patterns" => Some(PromiseType::ReplacePatterns),
        _ => None,
    }
}

/// Whether a word names a type of promises of CFEngine that this profile leaves out.
#[tactic(auto, unfolding(crate::specs::Kinds::is_foreign_promise_type))]
pub fn is_foreign_promise_type(word: &str) -> bool
    ensures { result ≡ is_foreign_promise_type word.now }
{
    matches!(
        word,
        "commands"
            | "packages"
            | "processes"
            | "storage"
            | "databases"
            | "users"
            | "access"
            | "measurements"
            | "meta"
            | "defaults"
    )
}

/// Whether a bundle of a type may have promises of a type.
pub fn has_promise_type(bundle: BundleType, promise: PromiseType) -> bool
    ensures { result ≡ has_promise_type bundle promise }
{
    match promise {
        PromiseType::Vars | PromiseType::Classes => true,
        PromiseType::Files | PromiseType::Methods | PromiseType::Services | PromiseType::Reports =>
            matches!(bundle, BundleType::Agent),
        PromiseType::DeleteLines
        | PromiseType::FieldEdits
        | PromiseType::InsertLines
        | PromiseType::ReplacePatterns => matches!(bundle, BundleType::EditLine),
    }
}

/// The type of bodies that a word names. `None` also for the types that this profile leaves out.
#[tactic(auto, unfolding(crate::specs::Kinds::body_type))]
pub fn body_type(word: &str) -> Option<BodyType>
    ensures { result ≡ body_type word.now }
{
    match word {
        "delete" => Some(BodyType::Delete),
        "copy_from" => Some(BodyType::CopyFrom),
        "edit_defaults" => Some(BodyType::EditDefaults),
        "perms" => Some(BodyType::Perms),
        "classes" => Some(BodyType::Classes),
        "action" => Some(BodyType::Action),
        "location" => Some(BodyType::Location),
        "replace_with" => Some(BodyType::ReplaceWith),
        "edit_field" => Some(BodyType::EditField),
        "common" => Some(BodyType::Common),
        "agent" => Some(BodyType::Agent),
        _ => None,
    }
}

/// Whether a word names a type of bodies of CFEngine that this profile leaves out.
#[tactic(auto, unfolding(crate::specs::Kinds::is_foreign_body_type))]
pub fn is_foreign_body_type(word: &str) -> bool
    ensures { result ≡ is_foreign_body_type word.now }
{
    matches!(word, "file")
}

/// The word that names a type of bodies.
pub fn body_word(body: BodyType) -> &'static str
    ensures { result.now ≡ body_word body }
{
    match body {
        BodyType::Delete => "delete",
        BodyType::CopyFrom => "copy_from",
        BodyType::EditDefaults => "edit_defaults",
        BodyType::Perms => "perms",
        BodyType::Classes => "classes",
        BodyType::Action => "action",
        BodyType::Location => "location",
        BodyType::ReplaceWith => "replace_with",
        BodyType::EditField => "edit_field",
        BodyType::Common => "common",
        BodyType::Agent => "agent",
    }
}
