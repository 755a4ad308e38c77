// What the attributes of bodies take.
ghost use Rattle.std.specs.Prelude.{◌≡◌, map};
ghost use Rattle.cfa_kinds.specs.Kinds.{delete_attribute, copy_from_attribute, edit_defaults_attribute, perms_attribute, classes_body_attribute, action_attribute, location_attribute, replace_with_attribute, edit_field_attribute, common_attribute, agent_attribute, body_attribute, required};

use crate::{BodyType, Form, Kind};

#[tactic(auto, unfolding(crate::specs::Kinds::delete_attribute))]
fn delete_attribute(name: &str) -> Option<Kind>
    ensures { result ≡ delete_attribute name.now }
{
    match name {
        "dirlinks" => Some(Kind::Text(Form::LinkChoice)),
        "rmdirs" => Some(Kind::Text(Form::Boolean)),
        _ => None,
    }
}

#[tactic(auto, unfolding(crate::specs::Kinds::copy_from_attribute))]
fn copy_from_attribute(name: &str) -> Option<Kind>
    ensures { result ≡ copy_from_attribute name.now }
{
    match name {
        "source" => Some(Kind::Text(Form::AnyText)),
        "compare" => Some(Kind::Text(Form::Digest)),
        _ => None,
    }
}

#[tactic(auto, unfolding(crate::specs::Kinds::edit_defaults_attribute))]
fn edit_defaults_attribute(name: &str) -> Option<Kind>
    ensures { result ≡ edit_defaults_attribute name.now }
{
    match name {
        "empty_file_before_editing" => Some(Kind::Text(Form::Boolean)),
        "edit_backup" => Some(Kind::Text(Form::NoBackup)),
        _ => None,
    }
}

#[tactic(auto, unfolding(crate::specs::Kinds::perms_attribute))]
fn perms_attribute(name: &str) -> Option<Kind>
    ensures { result ≡ perms_attribute name.now }
{
    match name {
        "mode" => Some(Kind::Text(Form::Mode)),
        "owners" => Some(Kind::FullList),
        "groups" => Some(Kind::FullList),
        _ => None,
    }
}

#[tactic(auto, unfolding(crate::specs::Kinds::classes_body_attribute))]
fn classes_body_attribute(name: &str) -> Option<Kind>
    ensures { result ≡ classes_body_attribute name.now }
{
    match name {
        "promise_kept" => Some(Kind::List),
        "promise_repaired" => Some(Kind::List),
        "repair_failed" => Some(Kind::List),
        _ => None,
    }
}

#[tactic(auto, unfolding(crate::specs::Kinds::action_attribute))]
fn action_attribute(name: &str) -> Option<Kind>
    ensures { result ≡ action_attribute name.now }
{
    match name {
        "ifelapsed" => Some(Kind::Text(Form::Minutes)),
        _ => None,
    }
}

#[tactic(auto, unfolding(crate::specs::Kinds::location_attribute))]
fn location_attribute(name: &str) -> Option<Kind>
    ensures { result ≡ location_attribute name.now }
{
    match name {
        "before_after" => Some(Kind::Text(Form::Side)),
        "first_last" => Some(Kind::Text(Form::End)),
        "select_line_matching" => Some(Kind::Pattern),
        _ => None,
    }
}

#[tactic(auto, unfolding(crate::specs::Kinds::replace_with_attribute))]
fn replace_with_attribute(name: &str) -> Option<Kind>
    ensures { result ≡ replace_with_attribute name.now }
{
    match name {
        "replace_value" => Some(Kind::Text(Form::AnyText)),
        "occurrences" => Some(Kind::Text(Form::Occurrences)),
        _ => None,
    }
}

#[tactic(auto, unfolding(crate::specs::Kinds::edit_field_attribute))]
fn edit_field_attribute(name: &str) -> Option<Kind>
    ensures { result ≡ edit_field_attribute name.now }
{
    match name {
        "field_separator" => Some(Kind::Text(Form::Character)),
        "select_field" => Some(Kind::Text(Form::FieldNumber)),
        "field_value" => Some(Kind::Text(Form::AnyText)),
        "field_operation" => Some(Kind::Text(Form::FieldOperation)),
        _ => None,
    }
}

#[tactic(auto, unfolding(crate::specs::Kinds::common_attribute))]
fn common_attribute(name: &str) -> Option<Kind>
    ensures { result ≡ common_attribute name.now }
{
    match name {
        "bundlesequence" => Some(Kind::BundleNames),
        "inputs" => Some(Kind::InputNames),
        "version" => Some(Kind::Text(Form::AnyText)),
        _ => None,
    }
}

#[tactic(auto, unfolding(crate::specs::Kinds::agent_attribute))]
fn agent_attribute(name: &str) -> Option<Kind>
    ensures { result ≡ agent_attribute name.now }
{
    match name {
        "ifelapsed" => Some(Kind::Literal(Form::Minutes)),
        _ => None,
    }
}

/// What an attribute of a type of bodies takes. `None` where the type lacks it.
pub fn body_attribute(body: BodyType, name: &str) -> Option<Kind>
    ensures { result ≡ body_attribute body name.now }
{
    match body {
        BodyType::Delete => delete_attribute(name),
        BodyType::CopyFrom => copy_from_attribute(name),
        BodyType::EditDefaults => edit_defaults_attribute(name),
        BodyType::Perms => perms_attribute(name),
        BodyType::Classes => classes_body_attribute(name),
        BodyType::Action => action_attribute(name),
        BodyType::Location => location_attribute(name),
        BodyType::ReplaceWith => replace_with_attribute(name),
        BodyType::EditField => edit_field_attribute(name),
        BodyType::Common => common_attribute(name),
        BodyType::Agent => agent_attribute(name),
    }
}

/// The attributes that a body of a type must have.
pub fn required(body: BodyType) -> &'static [&'static str]
    ensures { map (λ name. name.now) result.now ≡ required body }
{
    match body {
        BodyType::CopyFrom => &["source"],
        BodyType::ReplaceWith => &["replace_value"],
        BodyType::EditField => &["field_separator", "select_field", "field_value"],
        _ => &[],
    }
}
