// What many paths find in an input.
ghost use Rattle.std.specs.Prelude.{◌≡◌, option_map, IfOk, IfErr};
ghost use Rattle.sonic_error.specs.Errors.{IsPlainError};
ghost use Rattle.sonic_text.specs.Strings.{strict};
ghost use Rattle.sonic_parser.specs.Honest.{IsHonest};
ghost use Rattle.sonic_find.specs.Answers.{span_text};
ghost use Rattle.sonic_find.specs.Causes.{IsAnswerable, IsAnswerableBy, IsRefusal, IsRefusalBy};
ghost use Rattle.sonic_lazy.specs.LazyValues.{raw_bytes};
ghost use Rattle.sonic_find.specs.Found.{FlagEscapes, AreParts, span_in, spans_of};
ghost use Rattle.sonic_find.specs.declared.outcome.PathOutcome.TheVariants.{Found};
ghost use Rattle.sonic_parser.specs.ValueSpans.{FlagsEscape};
ghost use Rattle.sonic_parser.specs.declared.value_span.ValueSpan.{ValueSpan};
ghost use Rattle.sonic_lazy.specs.Shown.{AreValues, AreValuesBy};
ghost use Rattle.sonic_lazy.specs.Internal.Shown.{HaveTexts};
ghost use Rattle.sonic_find.specs.Parts.{IsPart};

use crate::lazyvalue::LazyValue;
use sonic_error::{Error, ErrorCode};
use sonic_find::PathOutcome;
use sonic_find::internal::locate_many;
use sonic_input::JsonInput;
use sonic_parser::ValueSpan;
use sonic_pointer::{KeyRule, PointerTree};
use std::alloc::{AllocError, Global};

// The lazy values in an input where they were found, in their order.
fn values<'de, I: JsonInput<'de>>(
    alloc: Global,
    json: I,
    found: &[PathOutcome<ValueSpan>],
) -> Result<Vec<Option<LazyValue<'de>>>, AllocError>
    requires parts { AreParts (I.JsonInput.content json) found.now }
    requires escaped { FlagEscapes (I.JsonInput.content json) found.now }
    ensures { IfOk result (λ values.
        HaveTexts (I.JsonInput.content json) values.items (spans_of found.now)) }
{
    let mut values = Vec::with_capacity(alloc, found.len())?;
    for slot in found {
        values.push(value_at(json, *slot))?;
    }
    Ok(values)
}

// The lazy value in an input where one was found.
fn value_at<'de, I: JsonInput<'de>>(json: I, slot: PathOutcome<ValueSpan>) -> Option<LazyValue<'de>>
    requires part { (x : ValueSpan) → slot ≡ Found x → IsPart (I.JsonInput.content json) x.start x.end }
    requires escaped { (x : ValueSpan) → slot ≡ Found x → FlagsEscape (I.JsonInput.content json) x }
    ensures { option_map raw_bytes result
        ≡ option_map (span_text (I.JsonInput.content json)) (span_in slot) }
{
    match slot {
        PathOutcome::Found(span) => Some(LazyValue::at(json, span)),
        PathOutcome::Missing(_) | PathOutcome::Fails(_) => None,
    }
}

/// What the paths of a tree lead to, in the order in which they were added.
///
/// It is `None` for a path whose key an object with members lacks, and then the root is a whole
/// value. What follows the last byte that the paths need may be anything. Of equal keys the
/// first counts. The nearest place at which a path leads nowhere is the error, or the fault of the
/// text.
///
/// With the paths `["a"]`, `["b"]` and `["c", 1]` over `{"a":1,"c":[2,3]}` it is the values `1`,
/// none and `3`.
pub fn get_many<'de, I: JsonInput<'de>>(
    alloc: Global,
    json: I,
    tree: &PointerTree,
) -> Result<Vec<Option<LazyValue<'de>>>, Error>
    ensures ok { IfOk result (λ values.
        AreValues (I.JsonInput.content json) I.JsonInput.is_bytes tree.now values.items) }
    ensures err { IfErr result (λ error. IsRefusal (I.JsonInput.content json) I.JsonInput.is_bytes
        tree.now error) }
    ensures complete { IsAnswerable (I.JsonInput.content json) I.JsonInput.is_bytes tree.now
        → IfErr result (λ error. IsPlainError error ErrorCode.NoMemory) }
    ensures honest { IfErr result (IsHonest strict (I.JsonInput.content json) 0) }
{
    get_many_with(alloc, json, tree, KeyRule::First)
}

/// What the paths of a tree lead to under a rule for equal keys, in the order in which they were added.
///
/// [`get_many`] is it under the first. An object in which a key is looked for under another rule has to be
/// whole: under [`KeyRule::Last`] the last member with the key counts, and under [`KeyRule::Refuse`]
/// there may be one alone: a second one is the error `DuplicateKey` at its quote, unless a path leads
/// nowhere before it. Keys that no path names may repeat. What is looked for below a member that doesn't
/// count plays no part.
///
/// With the path `["a"]` over `{"a":1,"a":2}` it is the value `1` by `First`, `2` by `Last`, and by `Refuse`
/// the error at 7. Over `{"a":1,` it is `1` by `First`, and by the others the end of the text.
#[tactic(auto, using(crate::proofs::ShownLemmas::answers))]
pub fn get_many_with<'de, I: JsonInput<'de>>(
    alloc: Global,
    json: I,
    tree: &PointerTree,
    rule: KeyRule,
) -> Result<Vec<Option<LazyValue<'de>>>, Error>
    ensures ok { IfOk result (λ values.
        AreValuesBy rule (I.JsonInput.content json) I.JsonInput.is_bytes tree.now values.items) }
    ensures err { IfErr result (λ error. IsRefusalBy rule (I.JsonInput.content json)
        I.JsonInput.is_bytes tree.now error) }
    ensures complete { IsAnswerableBy rule (I.JsonInput.content json) I.JsonInput.is_bytes tree.now
        → IfErr result (λ error. IsPlainError error ErrorCode.NoMemory) }
    ensures honest { IfErr result (IsHonest strict (I.JsonInput.content json) 0) }
{
    let found = locate_many(alloc, json, tree, rule)?;
    match values(alloc, json, &found) {
        Ok(values) => Ok(values),
        Err(_) => Err(Error::plain(ErrorCode::NoMemory)),
    }
}
