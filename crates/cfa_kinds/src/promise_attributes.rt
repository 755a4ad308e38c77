// What the attributes of promises take.
ghost use Rattle.std.specs.Prelude.{◌≡◌, map};
ghost use Rattle.cfa_kinds.specs.Kinds.{shared_attribute, vars_attribute, classes_attribute, outcome_attribute, files_attribute, methods_attribute, services_attribute, field_edits_attribute, insert_lines_attribute, replace_patterns_attribute, own_attribute, promise_attribute, choices};

use crate::{BodyType, Form, Kind, PromiseType};

#[tactic(auto, unfolding(crate::specs::Kinds::shared_attribute))]
fn shared_attribute(name: &str) -> Option<Kind>
    ensures { result ≡ shared_attribute name.now }
{
    match name {
        "comment" => Some(Kind::Text(Form::AnyText)),
        "handle" => Some(Kind::Text(Form::AnyText)),
        "meta" => Some(Kind::List),
        _ => None,
    }
}

#[tactic(auto, unfolding(crate::specs::Kinds::vars_attribute))]
fn vars_attribute(name: &str) -> Option<Kind>
    ensures { result ≡ vars_attribute name.now }
{
    match name {
        "string" => Some(Kind::TextOrCall(Form::AnyText)),
        "int" => Some(Kind::TextOrCall(Form::WholeNumber)),
        "slist" => Some(Kind::List),
        _ => None,
    }
}

#[tactic(auto, unfolding(crate::specs::Kinds::classes_attribute))]
fn classes_attribute(name: &str) -> Option<Kind>
    ensures { result ≡ classes_attribute name.now }
{
    match name {
        "expression" => Some(Kind::ClassText),
        "not" => Some(Kind::ClassText),
        "and" => Some(Kind::ClassTexts),
        "or" => Some(Kind::ClassTexts),
        _ => None,
    }
}

#[tactic(auto, unfolding(crate::specs::Kinds::outcome_attribute))]
fn outcome_attribute(name: &str) -> Option<Kind>
    ensures { result ≡ outcome_attribute name.now }
{
    match name {
        "classes" => Some(Kind::BodyOf(BodyType::Classes)),
        "action" => Some(Kind::BodyOf(BodyType::Action)),
        _ => None,
    }
}

#[tactic(auto, unfolding(crate::specs::Kinds::files_attribute))]
fn files_attribute(name: &str) -> Option<Kind>
    ensures { result ≡ files_attribute name.now }
{
    match name {
        "create" => Some(Kind::Text(Form::Boolean)),
        "content" => Some(Kind::Text(Form::AnyText)),
        "delete" => Some(Kind::BodyOf(BodyType::Delete)),
        "copy_from" => Some(Kind::BodyOf(BodyType::CopyFrom)),
        "edit_defaults" => Some(Kind::BodyOf(BodyType::EditDefaults)),
        "perms" => Some(Kind::BodyOf(BodyType::Perms)),
        "edit_line" => Some(Kind::EditBundle),
        _ => outcome_attribute(name),
    }
}

#[tactic(auto, unfolding(crate::specs::Kinds::methods_attribute))]
fn methods_attribute(name: &str) -> Option<Kind>
    ensures { result ≡ methods_attribute name.now }
{
    match name {
        "usebundle" => Some(Kind::AgentBundle),
        _ => outcome_attribute(name),
    }
}

#[tactic(auto, unfolding(crate::specs::Kinds::services_attribute))]
fn services_attribute(name: &str) -> Option<Kind>
    ensures { result ≡ services_attribute name.now }
{
    match name {
        "service_policy" => Some(Kind::Text(Form::ServicePolicy)),
        _ => outcome_attribute(name),
    }
}

#[tactic(auto, unfolding(crate::specs::Kinds::field_edits_attribute))]
fn field_edits_attribute(name: &str) -> Option<Kind>
    ensures { result ≡ field_edits_attribute name.now }
{
    match name {
        "edit_field" => Some(Kind::BodyOf(BodyType::EditField)),
        _ => None,
    }
}

#[tactic(auto, unfolding(crate::specs::Kinds::insert_lines_attribute))]
fn insert_lines_attribute(name: &str) -> Option<Kind>
    ensures { result ≡ insert_lines_attribute name.now }
{
    match name {
        "location" => Some(Kind::BodyOf(BodyType::Location)),
        _ => None,
    }
}

#[tactic(auto, unfolding(crate::specs::Kinds::replace_patterns_attribute))]
fn replace_patterns_attribute(name: &str) -> Option<Kind>
    ensures { result ≡ replace_patterns_attribute name.now }
{
    match name {
        "replace_with" => Some(Kind::BodyOf(BodyType::ReplaceWith)),
        _ => None,
    }
}

/// What an attribute of a type of promises takes, without those that every type has. `None` where the type lacks it.
pub fn own_attribute(promise: PromiseType, name: &str) -> Option<Kind>
    ensures { result ≡ own_attribute promise name.now }
{
    match promise {
        PromiseType::Vars => vars_attribute(name),
        PromiseType::Classes => classes_attribute(name),
        PromiseType::Files => files_attribute(name),
        PromiseType::Methods => methods_attribute(name),
        PromiseType::Services => services_attribute(name),
        PromiseType::Reports => outcome_attribute(name),
        PromiseType::DeleteLines => None,
        PromiseType::FieldEdits => field_edits_attribute(name),
        PromiseType::InsertLines => insert_lines_attribute(name),
        PromiseType::ReplacePatterns => replace_patterns_attribute(name),
    }
}

/// What an attribute of a type of promises takes. `None` where the type lacks it.
pub fn promise_attribute(promise: PromiseType, name: &str) -> Option<Kind>
    ensures { result ≡ promise_attribute promise name.now }
{
    match shared_attribute(name) {
        Some(kind) => Some(kind),
        None => own_attribute(promise, name),
    }
}

/// The attributes of which a promise of a type has exactly one. None are asked for where there are none here.
pub fn choices(promise: PromiseType) -> &'static [&'static str]
    ensures { map (λ name. name.now) result.now ≡ choices promise }
{
    match promise {
        PromiseType::Vars => &["string", "int", "slist"],
        PromiseType::Classes => &["expression", "not", "and", "or"],
        PromiseType::Methods => &["usebundle"],
        PromiseType::FieldEdits => &["edit_field"],
        PromiseType::ReplacePatterns => &["replace_with"],
        _ => &[],
    }
}
