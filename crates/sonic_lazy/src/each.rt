// Where each of many paths leads in an input, with lazy values.
ghost use Rattle.std.specs.Prelude.{◌≡◌, IfOk, IfErr};
ghost use Rattle.sonic_error.specs.Errors.{IsPlainError};
ghost use Rattle.sonic_text.specs.Strings.{strict};
ghost use Rattle.sonic_parser.specs.Honest.{IsHonest};
ghost use Rattle.sonic_parser.specs.ValueSpans.{FlagsEscape};
ghost use Rattle.sonic_parser.specs.declared.value_span.ValueSpan.{ValueSpan};
ghost use Rattle.sonic_pointer.specs.declared.rule.KeyRule.TheVariants.{First};
ghost use Rattle.sonic_find.specs.Found.{AreParts, FlagEscapes, slots_of, told_at};
ghost use Rattle.sonic_find.specs.Outcomes.{IsEachRefusalBy, IsEachTold};
ghost use Rattle.sonic_find.specs.Parts.{IsPart};
ghost use Rattle.sonic_find.specs.declared.outcome.PathOutcome.TheVariants.{Found};
ghost use Rattle.sonic_lazy.specs.Shown.{AreOutcomesBy, ShowEach, ShowsOutcome};

use crate::lazyvalue::LazyValue;
use sonic_error::{Error, ErrorCode};
use sonic_find::PathOutcome;
use sonic_find::internal::locate_each;
use sonic_input::JsonInput;
use sonic_parser::ValueSpan;
use sonic_pointer::{KeyRule, PointerTree};
use std::alloc::{AllocError, Global};

/// Where each path of a tree leads, in the order in which they were added: the outcome of each, whatever
/// the others lead to.
///
/// [`get_many`](crate::get_many) answers all paths or none. Here a path that leads nowhere is told so in its
/// place, `Missing` where an object lacks its key, or else `Fails` with the code and the place, and the
/// others are told as if they were alone. The error is a fault of the text, where it comes before all paths
/// are settled. Of equal keys the first counts.
///
/// With the paths `["level"]` and `["http", "status"]` over `{"level":"info","http":null}` it is the value
/// `"info"`, and a `Fails` at 26, the last byte of `null`.
pub fn get_each<'de, I: JsonInput<'de>>(
    alloc: Global,
    json: I,
    tree: &PointerTree,
) -> Result<Vec<PathOutcome<LazyValue<'de>>>, Error>
    ensures ok { IfOk result (λ outcomes. AreOutcomesBy First (I.JsonInput.content json)
        I.JsonInput.is_bytes tree.now outcomes.items) }
    ensures err { IfErr result (IsEachRefusalBy First (I.JsonInput.content json) I.JsonInput.is_bytes
        tree.now) }
    ensures complete { IsEachTold First (I.JsonInput.content json) I.JsonInput.is_bytes tree.now
        → IfErr result (λ error. IsPlainError error ErrorCode.NoMemory) }
    ensures honest { IfErr result (IsHonest strict (I.JsonInput.content json) 0) }
{
    get_each_with(alloc, json, tree, KeyRule::First)
}

/// Where each path of a tree leads under a rule for equal keys: [`get_each`] is it under the first.
///
/// With the path `["a"]` over `{"a":1,"a":2}` it is the value `1` by `First`, `2` by `Last`, and by `Refuse` it
/// is `Fails` at 7 with `DuplicateKey`.
pub fn get_each_with<'de, I: JsonInput<'de>>(
    alloc: Global,
    json: I,
    tree: &PointerTree,
    rule: KeyRule,
) -> Result<Vec<PathOutcome<LazyValue<'de>>>, Error>
    ensures ok { IfOk result (λ outcomes. AreOutcomesBy rule (I.JsonInput.content json)
        I.JsonInput.is_bytes tree.now outcomes.items) }
    ensures err { IfErr result (IsEachRefusalBy rule (I.JsonInput.content json) I.JsonInput.is_bytes
        tree.now) }
    ensures complete { IsEachTold rule (I.JsonInput.content json) I.JsonInput.is_bytes tree.now
        → IfErr result (λ error. IsPlainError error ErrorCode.NoMemory) }
    ensures honest { IfErr result (IsHonest strict (I.JsonInput.content json) 0) }
{
    let found = locate_each(alloc, json, tree, rule)?;
    match outcomes(alloc, json, &found) {
        Ok(outcomes) => Ok(outcomes),
        Err(_) => Err(Error::plain(ErrorCode::NoMemory)),
    }
}

// The outcomes with lazy values in an input, in their order.
fn outcomes<'de, I: JsonInput<'de>>(
    alloc: Global,
    json: I,
    found: &[PathOutcome<ValueSpan>],
) -> Result<Vec<PathOutcome<LazyValue<'de>>>, AllocError>
    requires parts { AreParts (I.JsonInput.content json) found.now }
    requires escaped { FlagEscapes (I.JsonInput.content json) found.now }
    ensures { IfOk result (λ outcomes. ShowEach (I.JsonInput.content json) (slots_of found.now)
        outcomes.items) }
{
    let mut outcomes = Vec::with_capacity(alloc, found.len())?;
    for slot in found {
        outcomes.push(outcome_at(json, *slot))?;
    }
    Ok(outcomes)
}

// The outcome with the lazy value in an input, where one was found.
fn outcome_at<'de, I: JsonInput<'de>>(
    json: I,
    slot: PathOutcome<ValueSpan>,
) -> PathOutcome<LazyValue<'de>>
    requires part { (x : ValueSpan) → slot ≡ Found x → IsPart (I.JsonInput.content json) x.start x.end }
    requires escaped { (x : ValueSpan) → slot ≡ Found x → FlagsEscape (I.JsonInput.content json) x }
    ensures { ShowsOutcome (I.JsonInput.content json) (told_at slot) result }
{
    match slot {
        PathOutcome::Found(span) => PathOutcome::Found(LazyValue::at(json, span)),
        PathOutcome::Missing(brace) => PathOutcome::Missing(brace),
        PathOutcome::Fails(stop) => PathOutcome::Fails(stop),
    }
}
