// Where each of many paths leads in an input, whatever the others lead to.
ghost use Rattle.std.specs.Prelude.{◌≡◌, [], length, IfOk, IfErr, OnOk, OnErr};
ghost use Rattle.sonic_error.specs.Errors.{IsPlainError};
ghost use Rattle.sonic_error.specs.declared.code.ErrorCode.TheVariants.{NoMemory};
ghost use Rattle.sonic_text.specs.Documents.{StartsWithUtf8Value};
ghost use Rattle.sonic_text.specs.Strings.{strict};
ghost use Rattle.sonic_parser.specs.Faults.{IsStopFor};
ghost use Rattle.sonic_parser.specs.Honest.{IsHonest};
ghost use Rattle.sonic_find.specs.Found.{AreParts, FlagEscapes, slots_of, told_at};
ghost use Rattle.sonic_find.specs.Outcomes.{EachAnswer, IsEachAnswerBy, IsEachRefusalBy, IsEachTold};
ghost use Rattle.sonic_find.specs.Internal.Each.{AreTellings, IsTelling};
ghost use Rattle.sonic_find.specs.Internal.Walk.{IsEachError};

use crate::answer::{Memory, follow_all};
use crate::many_unchecked::fill_each;
use crate::outcome::PathOutcome;
use crate::span::Span;
use sonic_error::{Error, ErrorCode};
use sonic_input::JsonInput;
use sonic_parser::{Fault, ValueSpan};
use sonic_pointer::{KeyRule, PointerTree};
use std::alloc::{AllocError, Global};

/// Where each path of a tree leads in an input under a rule, in the order of the paths.
///
/// A path that leads nowhere is told so in its place, with the code and the place where
/// [`find_many`](crate::find_many) would give up, and the others are told as if they were alone. A key
/// in an empty object is `Missing`, as in any other object. The error is the fault of the text, where it
/// comes before all paths are settled, or the first byte of what they need that isn't UTF-8. Where some
/// object lacks a key, all of the text has to be whole; else what follows the last byte that a path needs
/// plays no part. The text is read once.
///
/// With the paths `["level"]` and `["http", "status"]` over `{"level":"info","http":null}` the outcomes are
/// `Found` from 9 to 15, and `Fails` at 26, the last byte of `null`, with the mismatch of a `null` where an
/// object is wanted.
pub fn find_each<'de, I: JsonInput<'de>>(
    alloc: Global,
    json: I,
    tree: &PointerTree,
    rule: KeyRule,
) -> Result<Vec<PathOutcome<Span>>, Error>
    ensures ok { IfOk result (λ told. IsEachAnswerBy rule (I.JsonInput.content json) I.JsonInput.is_bytes
        tree.now (EachAnswer.outcomes told.items)) }
    ensures err { IfErr result (IsEachRefusalBy rule (I.JsonInput.content json) I.JsonInput.is_bytes
        tree.now) }
    ensures complete { IsEachTold rule (I.JsonInput.content json) I.JsonInput.is_bytes tree.now
        → IfErr result (λ error. IsPlainError error NoMemory) }
    ensures honest { IfErr result (IsHonest strict (I.JsonInput.content json) 0) }
{
    let located = locate_each(alloc, json, tree, rule)?;
    match spans(alloc, &located) {
        Ok(told) => Ok(told),
        Err(_) => Err(Error::plain(ErrorCode::NoMemory)),
    }
}

// The outcomes with spans as callers have them.
fn spans(
    alloc: Global,
    located: &[PathOutcome<ValueSpan>],
) -> Result<Vec<PathOutcome<Span>>, AllocError>
    ensures { IfOk result (λ told. told.items ≡ slots_of located.now) }
{
    let mut told = Vec::with_capacity(alloc, located.len())?;
    for outcome in located {
        told.push(span_of(*outcome))?;
    }
    Ok(told)
}

// An outcome with a span.
pub(crate) fn span_of(outcome: PathOutcome<ValueSpan>) -> PathOutcome<Span>
    ensures { result ≡ told_at outcome }
{
    match outcome {
        PathOutcome::Found(ValueSpan { start, end, .. }) => PathOutcome::Found(Span { start, end }),
        PathOutcome::Missing(brace) => PathOutcome::Missing(brace),
        PathOutcome::Fails(stop) => PathOutcome::Fails(stop),
    }
}

/// The same, where each value that was found says whether it is a string with a backslash: what
/// `get_each` of `sonic_lazy` makes its lazy values of, and [`find_each`](crate::find_each) its spans.
///
/// With the path `["a"]` over `{"a":"\n"}` it is `Found` from 5 to 9, with a backslash.
pub fn locate_each<'de, I: JsonInput<'de>>(
    alloc: Global,
    json: I,
    tree: &PointerTree,
    rule: KeyRule,
) -> Result<Vec<PathOutcome<ValueSpan>>, Error>
    ensures ok { IfOk result (λ found. IsEachAnswerBy rule (I.JsonInput.content json) I.JsonInput.is_bytes
        tree.now (EachAnswer.outcomes (slots_of found.items))) }
    ensures escaped { IfOk result (λ found. FlagEscapes (I.JsonInput.content json) found.items) }
    ensures parts { IfOk result (λ found. AreParts (I.JsonInput.content json) found.items) }
    ensures err { IfErr result (IsEachRefusalBy rule (I.JsonInput.content json) I.JsonInput.is_bytes
        tree.now) }
    ensures complete { IsEachTold rule (I.JsonInput.content json) I.JsonInput.is_bytes tree.now
        → IfErr result (λ error. IsPlainError error NoMemory) }
    ensures honest { IfErr result (IsHonest strict (I.JsonInput.content json) 0) }
{
    let mut memory = Memory {
        found: Vec::new(alloc),
        opened: None,
    };
    let text = json.to_u8_slice();
    match locate_each_in(alloc, &mut memory, json, tree, rule) {
        Ok(()) => Ok(memory.found),
        Err(fault) => Err(fault.error(text)),
    }
}

// The same in memory that is used again, in which nothing is found after a fault.
pub(crate) fn locate_each_in<'de, I: JsonInput<'de>>(
    alloc: Global,
    memory: &mut Memory,
    json: I,
    tree: &PointerTree,
    rule: KeyRule,
) -> Result<(), Fault>
    ensures ok { OnOk result (IsEachAnswerBy rule (I.JsonInput.content json) I.JsonInput.is_bytes
        tree.now (EachAnswer.outcomes (slots_of memory.new.found.items))) }
    ensures escaped { OnOk result (FlagEscapes (I.JsonInput.content json) memory.new.found.items) }
    ensures parts { OnOk result (AreParts (I.JsonInput.content json) memory.new.found.items) }
    ensures err { IfErr result (IsStopFor (IsEachError rule (I.JsonInput.content json)
        I.JsonInput.is_bytes tree.now)) }
    ensures cleared { OnErr result (memory.new.found.items ≡ []) }
{
    if tree.size() == 0 {
        memory.found.clear();
        return Ok(());
    }
    match follow_all(alloc, memory, &json, tree, rule, true) {
        Ok(()) => {
            tell_all(&mut memory.found);
            Ok(())
        }
        Err(fault) => {
            memory.found.clear();
            Err(fault)
        }
    }
}

// Tells each slot as callers are told of it.
fn tell_all<V: Copy>(slots: &mut [PathOutcome<V>])
    ensures { AreTellings slots.old slots.new }
{
    for i in 0..slots.len() {
        slots[i] = tell(slots[i]);
    }
}

// What callers are told: an empty object lacks a key as any other does.
pub(crate) fn tell<V: Copy>(slot: PathOutcome<V>) -> PathOutcome<V>
    ensures { IsTelling slot result }
{
    match slot {
        PathOutcome::Fails(stop) => match stop.code {
            ErrorCode::GetInEmptyObject => PathOutcome::Missing(stop.place),
            _ => slot,
        },
        PathOutcome::Found(_) | PathOutcome::Missing(_) => slot,
    }
}

/// Where each path of a tree leads, without memory, in an input that begins with a value in UTF-8.
///
/// It fills one slot for each path with what [`find_each`] tells, which no such input refuses. What follows
/// the input's value may be anything; an input that was taken by [`validate`](crate::validate) begins so.
/// Each node that follows a prefix is looked up by itself from the prefix's value, which `n` nodes so read
/// `n` times.
///
/// With the paths `["a", "x"]` and `["b"]` over `{"a":1,"b":2}` the slots are `Fails` at 5, with the mismatch
/// of a number where an object is wanted, and `Found` from 11 to 12.
pub fn find_each_unchecked<'de, I: JsonInput<'de>>(
    json: I,
    tree: &PointerTree,
    out: &mut [PathOutcome<Span>],
)
    requires starts { StartsWithUtf8Value (I.JsonInput.content json) }
    requires long { length out.old ≡ length tree.now }
    ensures { IsEachAnswerBy KeyRule.First (I.JsonInput.content json) I.JsonInput.is_bytes tree.now
        (EachAnswer.outcomes out.new) }
{
    fill_each(json.to_u8_slice(), tree, out);
    tell_all(out);
}
