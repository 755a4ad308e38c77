// The reading of bundles and bodies behind their brace, token by token.
ghost use Rattle.std.specs.Prelude.{◌≡◌, ◌++◌, ◌∷◌, [], Some, None, IfOk, IfErr, map};
ghost use Rattle.cfa_tree.specs.Plain.{plain_attribute, plain_section, plain_value};
ghost use Rattle.cfa_parser.specs.Machine.{closed_section, section_step, within, in_section_step, bundle_step, body_step, body_value_next, between_promises, between_attributes, has_word, has_section_word, no_section, has_body_name};
ghost use Rattle.cfa_parser.specs.Seen.{Takes, OnlyMemory, seen_value_progress, seen_open_section, seen_section_state, seen_bundle_state, seen_bundle_progress, seen_body_state, seen_body_progress};

use crate::ParseErr;
use crate::sections::{OpenSection, SectionState, take_in_section};
use crate::values::{ValueProgress, ValueState, take_in_value, value_start};
use cfa_base::{Kind, Name, Place};
use cfa_lexer::Token;
use cfa_tree::{Attribute, Section};
use std::alloc::Global;

// Where the reading stands within a bundle.
#[derive(Drop)]
pub enum BundleState {
    NoSection,
    HasSectionWord(Name, Place),
    InSection(OpenSection, SectionState),
}

// The sections that are whole, and what was read of the next; or the bundle's end.
#[derive(Drop)]
pub enum BundleProgress {
    GoesOn(Vec<Section>, BundleState),
    Ended(Vec<Section>),
}

// Where the reading stands within a body.
#[derive(Drop)]
pub enum BodyState {
    BetweenAttributes,
    HasBodyName(Name, Place),
    InBodyValue(Name, Place, ValueState),
}

// The attributes that are whole, and what was read of the next; or the body's end.
#[derive(Drop)]
pub enum BodyProgress {
    GoesOn(Vec<Attribute>, BodyState),
    Ended(Vec<Attribute>),
}

fn with_section(sections: Vec<Section>, section: OpenSection) -> Result<Vec<Section>, ParseErr>
    ensures ok { IfOk result
        (λ all. map plain_section all.items
        ≡ map plain_section sections.items ++ closed_section (seen_open_section section) ∷ []) }
    ensures memory { IfErr result OnlyMemory }
{
    let mut sections = sections;
    sections.push(Section {
        kind: section.kind,
        promises: section.promises.into_promises(),
        place: section.place,
    })?;
    Ok(sections)
}

fn stay_in_section(
    alloc: Global,
    sections: Vec<Section>,
    section: OpenSection,
    state: SectionState,
    token: &Token<'_>,
) -> Result<BundleProgress, ParseErr>
    ensures { Takes seen_bundle_progress token.now (λ limit k x p. within
        (map plain_section sections.items) (section_step limit (seen_open_section section)
        (seen_section_state state) k x p)) result }
{
    let standing = take_in_section(alloc, section, state, token)?;
    Ok(BundleProgress::GoesOn(
        sections,
        BundleState::InSection(standing.section, standing.state),
    ))
}

fn take_between_promises(
    alloc: Global,
    sections: Vec<Section>,
    section: OpenSection,
    token: &Token<'_>,
) -> Result<BundleProgress, ParseErr>
    ensures { Takes seen_bundle_progress token.now (λ limit. in_section_step limit
        (map plain_section sections.items) (seen_open_section section) between_promises) result }
{
    match token.kind {
        Kind::CloseBrace => Ok(BundleProgress::Ended(with_section(sections, section)?)),
        _ => stay_in_section(
            alloc,
            sections,
            section,
            SectionState::BetweenPromises,
            token,
        ),
    }
}

fn take_behind_word(
    alloc: Global,
    sections: Vec<Section>,
    section: OpenSection,
    name: Name,
    place: Place,
    token: &Token<'_>,
) -> Result<BundleProgress, ParseErr>
    ensures { Takes seen_bundle_progress token.now (λ limit. in_section_step limit
        (map plain_section sections.items) (seen_open_section section)
        (has_word name place)) result }
{
    match token.kind {
        Kind::Colon => Ok(BundleProgress::GoesOn(
            with_section(sections, section)?,
            BundleState::InSection(
                OpenSection::new(alloc, name, place),
                SectionState::BetweenPromises,
            ),
        )),
        _ => stay_in_section(
            alloc,
            sections,
            section,
            SectionState::HasWord(name, place),
            token,
        ),
    }
}

fn take_in_open_section(
    alloc: Global,
    sections: Vec<Section>,
    section: OpenSection,
    state: SectionState,
    token: &Token<'_>,
) -> Result<BundleProgress, ParseErr>
    ensures { Takes seen_bundle_progress token.now (λ limit. in_section_step limit
        (map plain_section sections.items) (seen_open_section section)
        (seen_section_state state)) result }
{
    match state {
        SectionState::BetweenPromises => take_between_promises(alloc, sections, section, token),
        SectionState::HasWord(name, place) => {
            take_behind_word(alloc, sections, section, name, place, token)
        }
        further => stay_in_section(alloc, sections, section, further, token),
    }
}

fn take_first_word(
    alloc: Global,
    sections: Vec<Section>,
    token: &Token<'_>,
) -> Result<BundleProgress, ParseErr>
    ensures { Takes seen_bundle_progress token.now (λ limit. bundle_step limit
        (map plain_section sections.items) no_section) result }
{
    match token.kind {
        Kind::Word => {
            let word = Name::from_text(alloc, token.text)?;
            Ok(BundleProgress::GoesOn(sections, BundleState::HasSectionWord(word, token.place)))
        }
        Kind::CloseBrace => Ok(BundleProgress::Ended(sections)),
        _ => Err(ParseErr::Unexpected(token.place)),
    }
}

fn take_colon(
    alloc: Global,
    sections: Vec<Section>,
    word: Name,
    place: Place,
    token: &Token<'_>,
) -> Result<BundleProgress, ParseErr>
    ensures { Takes seen_bundle_progress token.now (λ limit. bundle_step limit
        (map plain_section sections.items) (has_section_word word place)) result }
{
    match token.kind {
        Kind::Colon => Ok(BundleProgress::GoesOn(
            sections,
            BundleState::InSection(
                OpenSection::new(alloc, word, place),
                SectionState::BetweenPromises,
            ),
        )),
        _ => Err(ParseErr::Unexpected(token.place)),
    }
}

/// What one more token makes of a bundle.
pub fn take_in_bundle(
    alloc: Global,
    sections: Vec<Section>,
    state: BundleState,
    token: &Token<'_>,
) -> Result<BundleProgress, ParseErr>
    ensures { Takes seen_bundle_progress token.now (λ limit. bundle_step limit
        (map plain_section sections.items) (seen_bundle_state state)) result }
{
    match state {
        BundleState::NoSection => take_first_word(alloc, sections, token),
        BundleState::HasSectionWord(word, place) => take_colon(alloc, sections, word, place, token),
        BundleState::InSection(section, within) => {
            take_in_open_section(alloc, sections, section, within, token)
        }
    }
}

fn take_body_name(
    alloc: Global,
    attributes: Vec<Attribute>,
    token: &Token<'_>,
) -> Result<BodyProgress, ParseErr>
    ensures { Takes seen_body_progress token.now (λ limit. body_step limit
        (map plain_attribute attributes.items) between_attributes) result }
{
    match token.kind {
        Kind::Word => {
            let name = Name::from_text(alloc, token.text)?;
            Ok(BodyProgress::GoesOn(attributes, BodyState::HasBodyName(name, token.place)))
        }
        Kind::CloseBrace => Ok(BodyProgress::Ended(attributes)),
        _ => Err(ParseErr::Unexpected(token.place)),
    }
}

fn take_body_arrow(
    alloc: Global,
    attributes: Vec<Attribute>,
    name: Name,
    place: Place,
    token: &Token<'_>,
) -> Result<BodyProgress, ParseErr>
    ensures { Takes seen_body_progress token.now (λ limit. body_step limit
        (map plain_attribute attributes.items) (has_body_name name place)) result }
{
    match token.kind {
        Kind::FatArrow => Ok(BodyProgress::GoesOn(
            attributes,
            BodyState::InBodyValue(name, place, value_start(alloc)),
        )),
        _ => Err(ParseErr::Unexpected(token.place)),
    }
}

fn take_behind_body_value(
    attributes: Vec<Attribute>,
    name: Name,
    place: Place,
    progress: ValueProgress,
    token: &Token<'_>,
) -> Result<BodyProgress, ParseErr>
    ensures { Takes seen_body_progress token.now (λ _ k _ _. body_value_next
        (map plain_attribute attributes.items) name place (Some
        (seen_value_progress progress)) k) result }
{
    let mut attributes = attributes;
    match progress {
        ValueProgress::GoesOn(value) => Ok(BodyProgress::GoesOn(
            attributes,
            BodyState::InBodyValue(name, place, value),
        )),
        ValueProgress::Ended(value) => match token.kind {
            Kind::Semicolon => {
                attributes.push(Attribute { name, value, place })?;
                Ok(BodyProgress::GoesOn(attributes, BodyState::BetweenAttributes))
            }
            _ => Err(ParseErr::Unexpected(token.place)),
        },
    }
}

fn take_body_value(
    alloc: Global,
    attributes: Vec<Attribute>,
    name: Name,
    place: Place,
    value: ValueState,
    token: &Token<'_>,
) -> Result<BodyProgress, ParseErr>
    ensures { Takes seen_body_progress token.now (λ limit. body_step limit
        (map plain_attribute attributes.items) (seen_body_state
        (BodyState.InBodyValue name place value))) result }
{
    let progress = take_in_value(alloc, value, token)?;
    take_behind_body_value(attributes, name, place, progress, token)
}

/// What one more token makes of a body.
pub fn take_in_body(
    alloc: Global,
    attributes: Vec<Attribute>,
    state: BodyState,
    token: &Token<'_>,
) -> Result<BodyProgress, ParseErr>
    ensures { Takes seen_body_progress token.now (λ limit. body_step limit
        (map plain_attribute attributes.items) (seen_body_state state)) result }
{
    match state {
        BodyState::BetweenAttributes => take_body_name(alloc, attributes, token),
        BodyState::HasBodyName(name, place) => take_body_arrow(
            alloc, attributes, name, place, token,
        ),
        BodyState::InBodyValue(name, place, value) => {
            take_body_value(alloc, attributes, name, place, value, token)
        }
    }
}
