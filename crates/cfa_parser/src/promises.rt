// The reading of a promise, token by token, behind its promiser.
ghost use Rattle.std.specs.Prelude.{◌≡◌, Some, IfOk, IfErr, option_map};
ghost use Rattle.cfa_tree.specs.Plain.{plain_value};
ghost use Rattle.cfa_parser.specs.Machine.{new_promise, with_attribute, with_promise, stands, attribute_next, promisee_next, attribute_end, value_next, promiser_next, arrow_next, section_step, between_promises};
ghost use Rattle.cfa_parser.specs.Seen.{Takes, OnlyMemory, seen_value_progress, seen_open_section, seen_open_promise, seen_section_state, seen_section};

use crate::ParseErr;
use crate::sections::{OpenPromise, OpenSection, SectionState, StandingSection};
use crate::values::{ValueProgress, ValueState, take_in_value, value_start};
use cfa_base::{Kind, Name, Parts, Place};
use cfa_lexer::Token;
use cfa_tree::{Attribute, Value};
use std::alloc::Global;

fn new_promise(alloc: Global, promiser: Name, place: Place, promisee: Option<Value>) -> OpenPromise
    ensures { seen_open_promise result
        ≡ new_promise promiser place (option_map plain_value promisee) }
{
    OpenPromise {
        promiser,
        place,
        promisee,
        attributes: Vec::new(alloc),
    }
}

fn with_attribute(
    promise: OpenPromise,
    name: Name,
    place: Place,
    value: Value,
) -> Result<OpenPromise, ParseErr>
    ensures ok { IfOk result
        (λ o. seen_open_promise o
        ≡ with_attribute (seen_open_promise promise) name place (plain_value value)) }
    ensures memory { IfErr result OnlyMemory }
{
    let mut promise = promise;
    promise.attributes.push(Attribute { name, value, place })?;
    Ok(promise)
}

// A promise has ended: it stands under the section's guard.
fn close_promise(section: OpenSection, promise: OpenPromise) -> Result<StandingSection, ParseErr>
    ensures ok { IfOk result
        (λ s. stands (with_promise (seen_open_section section) (seen_open_promise promise))
        between_promises ≡ Some (seen_section s)) }
    ensures memory { IfErr result OnlyMemory }
{
    let attributes = Parts::from_vec(promise.attributes);
    let promises = section.promises.with(
        promise.promiser,
        promise.promisee,
        attributes,
        promise.place,
    )?;
    Ok(StandingSection {
        section: OpenSection {
            kind: section.kind,
            place: section.place,
            promises,
        },
        state: SectionState::BetweenPromises,
    })
}

// A token that may begin an attribute or end the promise.
pub fn take_attribute(
    alloc: Global,
    section: OpenSection,
    promise: OpenPromise,
    token: &Token<'_>,
) -> Result<StandingSection, ParseErr>
    ensures { Takes seen_section token.now (λ _. attribute_next (seen_open_section section)
        (seen_open_promise promise)) result }
{
    match token.kind {
        Kind::Word => {
            let name = Name::from_text(alloc, token.text)?;
            Ok(StandingSection {
                section,
                state: SectionState::HasName(promise, name, token.place),
            })
        }
        Kind::Semicolon => close_promise(section, promise),
        _ => Err(ParseErr::Unexpected(token.place)),
    }
}

fn take_behind_promisee(
    alloc: Global,
    section: OpenSection,
    promiser: Name,
    place: Place,
    progress: ValueProgress,
    token: &Token<'_>,
) -> Result<StandingSection, ParseErr>
    ensures { Takes seen_section token.now (λ _. promisee_next
        (seen_open_section section) promiser place (Some (seen_value_progress progress))) result }
{
    match progress {
        ValueProgress::GoesOn(value) => Ok(StandingSection {
            section,
            state: SectionState::InPromisee(promiser, place, value),
        }),
        ValueProgress::Ended(value) => {
            let promise = new_promise(alloc, promiser, place, Some(value));
            take_attribute(alloc, section, promise, token)
        }
    }
}

// A token within a promisee, or behind it.
pub fn take_promisee_token(
    alloc: Global,
    section: OpenSection,
    promiser: Name,
    place: Place,
    value: ValueState,
    token: &Token<'_>,
) -> Result<StandingSection, ParseErr>
    ensures { Takes seen_section token.now (λ limit. section_step limit (seen_open_section section)
        (seen_section_state (SectionState.InPromisee promiser place value))) result }
{
    let progress = take_in_value(alloc, value, token)?;
    take_behind_promisee(alloc, section, promiser, place, progress, token)
}

// A token behind an attribute.
fn take_behind_attribute(
    section: OpenSection,
    promise: OpenPromise,
    token: &Token<'_>,
) -> Result<StandingSection, ParseErr>
    ensures { Takes seen_section token.now (λ _ k _ _. attribute_end (seen_open_section section)
        (seen_open_promise promise) k) result }
{
    match token.kind {
        Kind::Comma => Ok(StandingSection {
            section,
            state: SectionState::WantsAttribute(promise),
        }),
        Kind::Semicolon => close_promise(section, promise),
        _ => Err(ParseErr::Unexpected(token.place)),
    }
}

fn take_behind_value(
    section: OpenSection,
    promise: OpenPromise,
    name: Name,
    place: Place,
    progress: ValueProgress,
    token: &Token<'_>,
) -> Result<StandingSection, ParseErr>
    ensures { Takes seen_section token.now (λ _ k _ _. value_next (seen_open_section section)
        (seen_open_promise promise) name place (Some (seen_value_progress progress)) k) result }
{
    match progress {
        ValueProgress::GoesOn(value) => Ok(StandingSection {
            section,
            state: SectionState::InValue(promise, name, place, value),
        }),
        ValueProgress::Ended(value) => {
            let promise = with_attribute(promise, name, place, value)?;
            take_behind_attribute(section, promise, token)
        }
    }
}

// A token within an attribute's value, or behind it.
pub fn take_value_token(
    alloc: Global,
    section: OpenSection,
    promise: OpenPromise,
    name: Name,
    place: Place,
    value: ValueState,
    token: &Token<'_>,
) -> Result<StandingSection, ParseErr>
    ensures { Takes seen_section token.now (λ limit. section_step limit (seen_open_section section)
        (seen_section_state (SectionState.InValue promise name place value))) result }
{
    let progress = take_in_value(alloc, value, token)?;
    take_behind_value(section, promise, name, place, progress, token)
}

// A token behind a promiser.
pub fn take_behind_promiser(
    alloc: Global,
    section: OpenSection,
    promiser: Name,
    place: Place,
    token: &Token<'_>,
) -> Result<StandingSection, ParseErr>
    ensures { Takes seen_section token.now (λ _. promiser_next
        (seen_open_section section) promiser place) result }
{
    match token.kind {
        Kind::ThinArrow => Ok(StandingSection {
            section,
            state: SectionState::InPromisee(promiser, place, value_start(alloc)),
        }),
        _ => {
            let promise = new_promise(alloc, promiser, place, None);
            take_attribute(alloc, section, promise, token)
        }
    }
}

// A token behind an attribute's name.
pub fn take_arrow(
    alloc: Global,
    section: OpenSection,
    promise: OpenPromise,
    name: Name,
    place: Place,
    token: &Token<'_>,
) -> Result<StandingSection, ParseErr>
    ensures { Takes seen_section token.now (λ _ k _ _. arrow_next (seen_open_section section)
        (seen_open_promise promise) name place k) result }
{
    match token.kind {
        Kind::FatArrow => Ok(StandingSection {
            section,
            state: SectionState::InValue(promise, name, place, value_start(alloc)),
        }),
        _ => Err(ParseErr::Unexpected(token.place)),
    }
}
