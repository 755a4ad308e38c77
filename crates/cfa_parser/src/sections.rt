// The reading of a section, token by token: its guards, and where its promises begin and end.
ghost use Rattle.std.specs.Prelude.{◌≡◌, Some};
ghost use Rattle.cfa_tree.specs.Guards.{guard_step};
ghost use Rattle.cfa_tree.specs.SeenGuards.{seen_guard, seen_guard_progress};
ghost use Rattle.cfa_parser.specs.Machine.{new_section, guard_next, section_step, between_next};
ghost use Rattle.cfa_parser.specs.Seen.{Takes, at_place, seen_open_section, seen_section_state, seen_section};

use crate::ParseErr;
use crate::promises::{
    take_arrow, take_attribute, take_behind_promiser, take_promisee_token, take_value_token,
};
use crate::texts::content;
use crate::values::ValueState;
use cfa_base::{Kind, Name, Place};
use cfa_lexer::Token;
use cfa_tree::{
    Attribute, GuardErr, GuardProgress, GuardState, GuardedPromises, Value, guard_start,
    guard_with_class, take_in_guard,
};
use std::alloc::Global;

// A section that is open: its word, the promises so far, and the guard that holds.
#[derive(Drop)]
pub struct OpenSection {
    pub kind: Name,
    pub place: Place,
    pub promises: GuardedPromises,
}

// A promise that is open: its promiser and promisee, and the attributes so far.
#[derive(Drop)]
pub struct OpenPromise {
    pub promiser: Name,
    pub place: Place,
    pub promisee: Option<Value>,
    pub attributes: Vec<Attribute>,
}

// Where the reading stands within a section.
#[derive(Drop)]
pub enum SectionState {
    // A promise, a guard, a section or the bundle's end may follow.
    BetweenPromises,
    // A word, which begins a guard or a section.
    HasWord(Name, Place),
    InGuard(GuardState),
    HasPromiser(Name, Place),
    InPromisee(Name, Place, ValueState),
    // An attribute or the promise's end may follow.
    WantsAttribute(OpenPromise),
    HasName(OpenPromise, Name, Place),
    InValue(OpenPromise, Name, Place, ValueState),
}

// A section with its state.
#[derive(Drop)]
pub struct StandingSection {
    pub section: OpenSection,
    pub state: SectionState,
}

impl OpenSection {
    pub fn new(alloc: Global, kind: Name, place: Place) -> OpenSection
        ensures { seen_open_section result ≡ new_section kind place }
    {
        OpenSection {
            kind,
            place,
            promises: GuardedPromises::new(alloc),
        }
    }
}

fn take_behind_guard(
    alloc: Global,
    section: OpenSection,
    progress: GuardProgress,
    token: &Token<'_>,
) -> Result<StandingSection, ParseErr>
    ensures { Takes seen_section token.now (λ _ k _ _. guard_next (seen_open_section section) (Some
        (seen_guard_progress progress)) k) result }
{
    match progress {
        GuardProgress::GoesOn(guard) => Ok(StandingSection {
            section,
            state: SectionState::InGuard(guard),
        }),
        GuardProgress::Ended(expr) => match token.kind {
            Kind::DoubleColon => Ok(StandingSection {
                section: OpenSection {
                    kind: section.kind,
                    place: section.place,
                    promises: section.promises.under(alloc, expr)?,
                },
                state: SectionState::BetweenPromises,
            }),
            _ => Err(ParseErr::Unexpected(token.place)),
        },
    }
}

// The fault of a token that can't continue a guard.
fn at_place(error: GuardErr, place: Place) -> ParseErr
    ensures { result ≡ at_place error place }
{
    match error {
        GuardErr::Unexpected => ParseErr::Unexpected(place),
        GuardErr::TooDeep => ParseErr::TooDeep(place),
        GuardErr::NoMemory => ParseErr::NoMemory,
    }
}

// A token within a guard, or behind it.
fn take_guard_token(
    alloc: Global,
    section: OpenSection,
    guard: GuardState,
    token: &Token<'_>,
) -> Result<StandingSection, ParseErr>
    ensures { Takes seen_section token.now (λ limit k x _. guard_next (seen_open_section section)
        (guard_step limit (seen_guard guard) k x) k) result }
{
    match take_in_guard(alloc, guard, token.kind, token.text) {
        Ok(progress) => take_behind_guard(alloc, section, progress, token),
        Err(error) => Err(at_place(error, token.place)),
    }
}

// A token between promises, where the section goes on.
fn take_between(
    alloc: Global,
    section: OpenSection,
    token: &Token<'_>,
) -> Result<StandingSection, ParseErr>
    ensures { Takes seen_section token.now (λ limit. between_next limit
        (seen_open_section section)) result }
{
    match token.kind {
        Kind::Text => {
            let promiser = content(alloc, token.text)?;
            Ok(StandingSection {
                section,
                state: SectionState::HasPromiser(promiser, token.place),
            })
        }
        Kind::Word => {
            let name = Name::from_text(alloc, token.text)?;
            Ok(StandingSection {
                section,
                state: SectionState::HasWord(name, token.place),
            })
        }
        Kind::Bang => take_guard_token(alloc, section, guard_start(alloc), token),
        Kind::OpenParen => take_guard_token(alloc, section, guard_start(alloc), token),
        _ => Err(ParseErr::Unexpected(token.place)),
    }
}

/// What one more token makes of a section, where it stays in it.
pub fn take_in_section(
    alloc: Global,
    section: OpenSection,
    state: SectionState,
    token: &Token<'_>,
) -> Result<StandingSection, ParseErr>
    ensures { Takes seen_section token.now (λ limit. section_step limit (seen_open_section section)
        (seen_section_state state)) result }
{
    match state {
        SectionState::BetweenPromises => take_between(alloc, section, token),
        SectionState::HasWord(name, _) => {
            take_guard_token(alloc, section, guard_with_class(alloc, name)?, token)
        }
        SectionState::InGuard(guard) => take_guard_token(alloc, section, guard, token),
        SectionState::HasPromiser(promiser, place) => {
            take_behind_promiser(alloc, section, promiser, place, token)
        }
        SectionState::InPromisee(promiser, place, value) => {
            take_promisee_token(alloc, section, promiser, place, value, token)
        }
        SectionState::WantsAttribute(promise) => take_attribute(alloc, section, promise, token),
        SectionState::HasName(promise, name, place) => {
            take_arrow(alloc, section, promise, name, place, token)
        }
        SectionState::InValue(promise, name, place, value) => {
            take_value_token(alloc, section, promise, name, place, value, token)
        }
    }
}
