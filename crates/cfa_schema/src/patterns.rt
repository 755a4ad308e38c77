// The patterns of a policy that are known before the run.
ghost use Rattle.std.specs.Prelude.{◌≡◌, ◌++◌, IfErr, IfOk, OnOk, All, map, option_map, option_to_list};
ghost use Rattle.std.specs.List.{flat_map};
ghost use Rattle.cfa_base.specs.Patterns.{SizeRefusal};
ghost use Rattle.cfa_tree.specs.Plain.{plain_attribute, plain_block, plain_policy, plain_promise, plain_section, plain_value};
ghost use Rattle.cfa_schema.specs.Collected.{promiser_how, pattern_of_promiser, seen_pattern, IfRefused, HasFirstBad, HasRefused, IsBad, IsRefusedAs};
ghost use Rattle.cfa_schema.specs.Errors.{refused_for_size};
ghost use Rattle.cfa_kinds.specs.Kinds.{promise_type};
ghost use Rattle.cfa_values.specs.Values.{known_named};
ghost use Rattle.cfa_schema.specs.Valid.{IsPattern, pattern_in_attribute, pattern_named, patterns_in_block, patterns_in_section, patterns_of};

use crate::errors::SchemaErr;
use cfa_base as base;
use cfa_base::{How, Name, PatternErr, Patterns, Place};
use cfa_kinds::{BodyType, Kind, PromiseType, body_attribute, body_type, promise_type};
use cfa_tree::{Attribute, Block, Body, Policy, Promise, Section, Value};
use cfa_values::{Code, Refusal, is_known, known_item};
use std::alloc::Global;

/// A pattern that is known before the run, how it is to match, and its place.
#[derive(Clone, Copy, Debug)]
struct KnownPattern<'a> {
    how: How,
    text: &'a str,
    place: Place,
}

// How the promisers of a type of promises match, where they are patterns.
fn how_promisers_match(kind: &str) -> Option<How>
    ensures { result ≡ promiser_how (promise_type kind.now) }
{
    match promise_type(kind) {
        Some(PromiseType::DeleteLines) => Some(How::Whole),
        Some(PromiseType::FieldEdits) => Some(How::Whole),
        Some(PromiseType::ReplacePatterns) => Some(How::Part),
        _ => None,
    }
}

fn add_promisers<'a>(
    patterns: &mut Vec<KnownPattern<'a>>,
    how: How,
    promises: &'a [Promise],
) -> Result<(), base::NoMemory>
    ensures { OnOk result (map seen_pattern patterns.new.items
        ≡ map seen_pattern patterns.old.items ++ flat_map (pattern_of_promiser how)
        (map plain_promise promises.now)) }
{
    for promise in promises {
        let text = promise.promiser.as_str();
        if is_known(text) {
            patterns.push(KnownPattern {
                how,
                text,
                place: promise.place,
            })?;
        }
    }
    Ok(())
}

fn add_of_section<'a>(
    patterns: &mut Vec<KnownPattern<'a>>,
    section: &'a Section,
) -> Result<(), base::NoMemory>
    ensures { OnOk result (map seen_pattern patterns.new.items
        ≡ map seen_pattern patterns.old.items ++ patterns_in_section (plain_section section.now)) }
{
    match how_promisers_match(section.kind.as_str()) {
        Some(how) => add_promisers(patterns, how, section.promises.as_slice()),
        None => Ok(()),
    }
}

fn add_of_sections<'a>(
    patterns: &mut Vec<KnownPattern<'a>>,
    sections: &'a [Section],
) -> Result<(), base::NoMemory>
    ensures { OnOk result (map seen_pattern patterns.new.items
        ≡ map seen_pattern patterns.old.items ++ flat_map patterns_in_section
        (map plain_section sections.now)) }
{
    for section in sections {
        add_of_section(patterns, section)?;
    }
    Ok(())
}

fn pattern_in(body_type: BodyType, attribute: &Attribute) -> Option<KnownPattern<'_>>
    ensures { option_to_list (option_map seen_pattern result)
        ≡ pattern_in_attribute body_type (plain_attribute attribute.now) }
{
    match body_attribute(body_type, attribute.name.as_str()) {
        Some(Kind::Pattern) => known_pattern(&attribute.value),
        _ => None,
    }
}

fn known_pattern(value: &Value) -> Option<KnownPattern<'_>>
    ensures { option_to_list (option_map seen_pattern result)
        ≡ pattern_named (known_named (plain_value value.now)) }
{
    let item = known_item(value)?;
    Some(KnownPattern {
        how: How::Whole,
        text: item.name,
        place: item.place,
    })
}

fn add_of_attributes<'a>(
    patterns: &mut Vec<KnownPattern<'a>>,
    body_type: BodyType,
    attributes: &'a [Attribute],
) -> Result<(), base::NoMemory>
    ensures { OnOk result (map seen_pattern patterns.new.items
        ≡ map seen_pattern patterns.old.items
        ++ flat_map (pattern_in_attribute body_type) (map plain_attribute attributes.now)) }
{
    for attribute in attributes {
        if let Some(pattern) = pattern_in(body_type, attribute) {
            patterns.push(pattern)?;
        }
    }
    Ok(())
}

fn add_of_body<'a>(
    patterns: &mut Vec<KnownPattern<'a>>,
    body: &'a Body,
) -> Result<(), base::NoMemory>
    ensures { OnOk result (map seen_pattern patterns.new.items
        ≡ map seen_pattern patterns.old.items
        ++ patterns_in_block (plain_block (Block.Body body.now))) }
{
    match body_type(body.kind.name.as_str()) {
        Some(body_type) => add_of_attributes(patterns, body_type, body.attributes.as_slice()),
        None => Ok(()),
    }
}

fn add_of_block<'a>(
    patterns: &mut Vec<KnownPattern<'a>>,
    block: &'a Block,
) -> Result<(), base::NoMemory>
    ensures { OnOk result (map seen_pattern patterns.new.items
        ≡ map seen_pattern patterns.old.items ++ patterns_in_block (plain_block block.now)) }
{
    match block {
        Block::Bundle(bundle) => add_of_sections(patterns, bundle.sections.as_slice()),
        Block::Body(body) => add_of_body(patterns, body),
    }
}

/// The patterns that are known before the run, in text order.
#[tactic(auto, unfolding(crate::specs::Valid::patterns_of))]
fn patterns_of<'a>(
    alloc: Global,
    policy: &'a Policy,
) -> Result<Vec<KnownPattern<'a>>, base::NoMemory>
    ensures { IfOk result (λ patterns. map seen_pattern patterns.items
        ≡ patterns_of (plain_policy policy.now)) }
{
    let mut patterns = Vec::new(alloc);
    for block in policy.blocks.as_slice() {
        add_of_block(&mut patterns, block)?;
    }
    Ok(patterns)
}

// Builds a pattern. The text that a refusal tells is copied first, so that want of memory comes before the build.
fn build_one<P: Patterns>(
    alloc: Global,
    pattern: KnownPattern<'_>,
    pats: &mut P,
) -> Result<(), SchemaErr>
    ensures good { OnOk result (IsPattern (seen_pattern pattern.entry)) }
    ensures bad { IfErr result (λ e. IfRefused e (IsBad (seen_pattern pattern.entry))) }
    ensures shown { SizeRefusal (IsRefusedAs (seen_pattern pattern.entry)) (refused_for_size result)
        (P.shown pats.old) (P.shown pats.new) }
{
    let text = Name::from_text(alloc, pattern.text)?;
    match pats.build(alloc, &text, pattern.how) {
        Ok(_) => Ok(()),
        Err(PatternErr::Bad) => Err(SchemaErr::Refused(Refusal {
            code: Code::BadPattern,
            place: pattern.place,
        })),
        Err(PatternErr::TooBig) => Err(SchemaErr::PatternTooBig(text)),
        Err(PatternErr::NoMemory) => Err(SchemaErr::NoMemory),
    }
}

fn build_all<P: Patterns>(
    alloc: Global,
    patterns: &[KnownPattern<'_>],
    pats: &mut P,
) -> Result<(), SchemaErr>
    ensures good { OnOk result (All IsPattern (map seen_pattern patterns.now)) }
    ensures bad { IfErr result (λ e. IfRefused e (HasFirstBad (map seen_pattern patterns.now))) }
    ensures shown { SizeRefusal (HasRefused (map seen_pattern patterns.now))
        (refused_for_size result)
        (P.shown pats.old) (P.shown pats.new) }
{
    for pattern in patterns {
        build_one(alloc, *pattern, pats)?;
    }
    Ok(())
}

/// Builds the patterns that are known before the run, in text order, up to the first that isn't built. `Refused` has the
/// first that is none, and `PatternTooBig` the text of one that the builder refused for its size; all before it are
/// patterns.
pub(crate) fn check_patterns<P: Patterns>(
    alloc: Global,
    policy: &Policy,
    pats: &mut P,
) -> Result<(), SchemaErr>
    ensures good { OnOk result (All IsPattern (patterns_of (plain_policy policy.now))) }
    ensures bad { IfErr result
        (λ e. IfRefused e (HasFirstBad (patterns_of (plain_policy policy.now)))) }
    ensures shown { SizeRefusal (HasRefused (patterns_of (plain_policy policy.now)))
        (refused_for_size result) (P.shown pats.old) (P.shown pats.new) }
{
    let patterns = patterns_of(alloc, policy)?;
    build_all(alloc, &patterns, pats)
}
