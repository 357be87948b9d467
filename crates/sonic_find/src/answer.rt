// The answer of a list of paths.
ghost use Rattle.std.specs.Prelude.{◌≡◌, ◌≢◌, ◌⊎◌, ◌≤◌, ℕ, [], Some, false, length, replicate, slice_get, IfOk, IfErr, OnOk, OnErr};
ghost use Rattle.sonic_error.specs.Errors.{IsPlainError};
ghost use Rattle.sonic_text.specs.Strings.{strict};
ghost use Rattle.sonic_parser.specs.Faults.{IsStopFor};
ghost use Rattle.sonic_parser.specs.Honest.{IsHonest};
ghost use Rattle.sonic_find.specs.declared.outcome.PathOutcome.{PathOutcome};
ghost use Rattle.sonic_find.specs.declared.outcome.PathOutcome.TheVariants.{Missing};
ghost use Rattle.sonic_find.specs.declared.span.Span.{Span};
ghost use Rattle.sonic_find.specs.Answers.{IsAnswerBy, Answer};
ghost use Rattle.sonic_find.specs.Causes.{IsAnswerableBy, IsRefusalBy};
ghost use Rattle.sonic_find.specs.Found.{AreParts, FlagEscapes, slots_of, spans_of, told_at};
ghost use Rattle.sonic_find.specs.Outcomes.{EachAnswer, IsEachAnswerBy, NoneTold};
ghost use Rattle.sonic_find.specs.Internal.Walk.{root_point, whole_question, slot_need, IsStop, IsError, IsFurthest, IsRefused, IsAllReached, AllReached};

use crate::outcome::PathOutcome;
use crate::state::Walk;
use crate::utf8::check;
use crate::walk::follow;
use sonic_error::{Error, ErrorCode};
use sonic_input::{JsonInput, Read};
use sonic_parser::{Fault, ValueSpan};
use sonic_pointer::{KeyRule, PointerTree};
use sonic_text::{Kind, Stop};
use std::alloc::Global;

// What a walk takes of memory, and the next one uses again.
#[derive(Drop)]
pub(crate) struct Memory {
    // Where each path leads.
    pub(crate) found: Vec<PathOutcome<ValueSpan>>,
    // The kinds of the containers that were open while a value was skipped.
    pub(crate) opened: Option<Vec<Kind>>,
}

/// Where the values are that the paths of a tree find in an input under a rule, in the order of the
/// paths, with `Missing` for one that lacks its key.
///
/// The nearest place at which another path leads nowhere is the error, or the fault of the text,
/// whichever comes first; where there is neither, the first byte that isn't UTF-8. What follows the
/// last byte that the paths need plays no part. It is what `get_many_with` of `sonic_lazy` makes its
/// lazy values of, and [`find_many`](crate::find_many) its spans.
///
/// With the path `["a"]` over `{"a":1,"a":2}` it is from 5 to 6 by `First`, and from 11 to 12 by
/// `Last`.
pub fn locate_many<'de, I: JsonInput<'de>>(
    alloc: Global,
    json: I,
    tree: &PointerTree,
    rule: KeyRule,
) -> Result<Vec<PathOutcome<ValueSpan>>, Error>
    ensures ok { IfOk result (λ found. IsAnswerBy rule (I.JsonInput.content json) I.JsonInput.is_bytes
        tree.now (Answer.spans (spans_of found.items))) }
    ensures escaped { IfOk result (λ found. FlagEscapes (I.JsonInput.content json) found.items) }
    ensures parts { IfOk result (λ found. AreParts (I.JsonInput.content json) found.items) }
    ensures err { IfErr result (λ error. IsRefusalBy rule (I.JsonInput.content json) I.JsonInput.is_bytes
        tree.now error) }
    ensures complete { IsAnswerableBy rule (I.JsonInput.content json) I.JsonInput.is_bytes tree.now
        → IfErr result (λ error. IsPlainError error ErrorCode.NoMemory) }
    ensures honest { IfErr result (IsHonest strict (I.JsonInput.content json) 0) }
{
    let mut memory = Memory {
        found: Vec::new(alloc),
        opened: None,
    };
    let text = json.to_u8_slice();
    match locate_in(alloc, &mut memory, json, tree, rule) {
        Ok(()) => Ok(memory.found),
        Err(fault) => Err(fault.error(text)),
    }
}

// The same in memory that is used again, in which nothing is found after a fault.
#[inline(always)]
pub(crate) fn locate_in<'de, I: JsonInput<'de>>(
    alloc: Global,
    memory: &mut Memory,
    json: I,
    tree: &PointerTree,
    rule: KeyRule,
) -> Result<(), Fault>
    ensures ok { OnOk result (IsAnswerBy rule (I.JsonInput.content json) I.JsonInput.is_bytes
        tree.now (Answer.spans (spans_of memory.new.found.items))) }
    ensures each { OnOk result (IsEachAnswerBy rule (I.JsonInput.content json) I.JsonInput.is_bytes
        tree.now (EachAnswer.outcomes (slots_of memory.new.found.items))) }
    ensures escaped { OnOk result (FlagEscapes (I.JsonInput.content json) memory.new.found.items) }
    ensures parts { OnOk result (AreParts (I.JsonInput.content json) memory.new.found.items) }
    ensures none_fails { OnOk result (NoneTold (slots_of memory.new.found.items)) }
    ensures err { IfErr result (IsStopFor (λ s. IsAnswerBy rule (I.JsonInput.content json)
        I.JsonInput.is_bytes tree.now (Answer.error s))) }
    ensures within { IfErr result (IsStopFor (λ s. s.place ≤ length (I.JsonInput.content json))) }
    ensures cleared { OnErr result (memory.new.found.items ≡ []) }
    ensures complete { IsAnswerableBy rule (I.JsonInput.content json) I.JsonInput.is_bytes tree.now
        → IfErr result (λ fault. fault ≡ Fault.OutOfMemory) }
{
    match answer(alloc, memory, &json, tree, rule) {
        Ok(()) => Ok(()),
        Err(fault) => {
            memory.found.clear();
            Err(fault)
        }
    }
}

// The values that the paths of a tree are answered with under a rule, in their order, or the one error.
//
// What follows the last byte that is needed plays no part.
#[inline(always)]
fn answer<'de, I: JsonInput<'de>>(
    alloc: Global,
    memory: &mut Memory,
    json: &I,
    tree: &PointerTree,
    rule: KeyRule,
) -> Result<(), Fault>
    ensures ok { OnOk result (IsAnswerBy rule (I.JsonInput.content json.now) I.JsonInput.is_bytes
        tree.now (Answer.spans (spans_of memory.new.found.items))) }
    ensures each { OnOk result (IsEachAnswerBy rule (I.JsonInput.content json.now) I.JsonInput.is_bytes
        tree.now (EachAnswer.outcomes (slots_of memory.new.found.items))) }
    ensures escaped { OnOk result (FlagEscapes (I.JsonInput.content json.now) memory.new.found.items) }
    ensures parts { OnOk result (AreParts (I.JsonInput.content json.now) memory.new.found.items) }
    ensures none_fails { OnOk result (NoneTold (slots_of memory.new.found.items)) }
    ensures err { IfErr result (IsStopFor (IsError rule (I.JsonInput.content json.now)
        I.JsonInput.is_bytes tree.now)) }
{
    if tree.size() == 0 {
        memory.found.clear();
        return Ok(());
    }
    follow_all(alloc, memory, json, tree, rule, false)?;
    Ok(())
}

// Where the paths of a tree that has some lead under a rule, in their order, each by itself or, unless
// `each` is asked for, up to the first that fails; or the one error.
//
// What follows the last byte that is needed plays no part.
#[inline(always)]
pub(crate) fn follow_all<'de, I: JsonInput<'de>>(
    alloc: Global,
    memory: &mut Memory,
    json: &I,
    tree: &PointerTree,
    rule: KeyRule,
    each: bool,
) -> Result<(), Fault>
    requires { tree.now ≢ [] }
    ensures reached { OnOk result (IsAllReached rule (I.JsonInput.content json.now)
        I.JsonInput.is_bytes tree.now each (slots_of memory.new.found.items)) }
    ensures escaped { OnOk result (FlagEscapes (I.JsonInput.content json.now) memory.new.found.items) }
    ensures parts { OnOk result (AreParts (I.JsonInput.content json.now) memory.new.found.items) }
    ensures err { IfErr result (IsStopFor (IsRefused rule (I.JsonInput.content json.now)
        I.JsonInput.is_bytes tree.now each)) }
{
    let text = json.to_u8_slice();
    memory.found.clear();
    memory.found.resize(tree.size(), PathOutcome::none())?;
    let read = Read::unscanned(json.to_json_slice());
    let reach = reach(alloc, memory, read, tree, rule, each)?;
    if json.need_utf8_valid() {
        check(text, reach)?;
    }
    Ok(())
}

// Follows the paths of a tree that has some, from the start of a text, and fills their slots: how far
// the text is needed.
#[inline(always)]
fn reach(
    alloc: Global,
    memory: &mut Memory,
    read: Read<'_>,
    tree: &PointerTree,
    rule: KeyRule,
    each: bool,
) -> Result<usize, Fault>
    requires start { read.place ≡ 0 }
    requires some { tree.now ≢ [] }
    requires slots { memory.old.found.items ≡ replicate (length tree.now) (Missing 0) }
    ensures reached { IfOk result (λ reach.
        AllReached rule read.entry.text tree.now each (slots_of memory.new.found.items) reach) }
    ensures escaped { OnOk result (FlagEscapes read.entry.text memory.new.found.items) }
    ensures err { IfErr result (IsStopFor (IsStop
        (root_point (whole_question rule read.entry.text tree.now each)) false)) }
{
    let view = tree.view();
    let slots = std::mem::replace(&mut memory.found, Vec::new(alloc));
    let mut walk = Walk::new(alloc, read, slots, rule, each, view.prefixes())?;
    walk.swap_memory(&mut memory.opened);
    let followed = follow(&mut walk, &view, false);
    let (text, end, lacking) = (walk.text(), walk.place(), walk.lacks_key());
    walk.swap_memory(&mut memory.opened);
    memory.found = walk.into_slots();
    followed?;
    if lacking {
        return Ok(end);
    }
    Ok(furthest_need(text, &memory.found))
}

// The furthest need of the slots, which lies in the text, or 0 where there is none.
fn furthest_need(text: &[u8], found: &[PathOutcome<ValueSpan>]) -> usize
    requires { (k : ℕ) (x : PathOutcome Span) → slice_get (slots_of found.now) k ≡ Some x
        → slot_need x ≤ length text.now }
    ensures { IsFurthest (slots_of found.now) result }
{
    let mut reach = 0;
    for slot in found {
        reach = further(reach, need(text, *slot));
    }
    reach
}

// The further of two places.
fn further(reach: usize, need: usize) -> usize
    ensures after { reach ≤ result }
    ensures need { need ≤ result }
    ensures one { (result ≡ reach) ⊎ (result ≡ need) }
{
    if reach < need { need } else { reach }
}

// How far a slot needs the text: to the end of its value, or after the byte that says why there is none.
fn need(text: &[u8], slot: PathOutcome<ValueSpan>) -> usize
    requires { slot_need (told_at slot) ≤ length text.now }
    ensures { result ≡ slot_need (told_at slot) }
{
    match slot {
        PathOutcome::Found(ValueSpan { end, .. }) => end,
        PathOutcome::Missing(place) | PathOutcome::Fails(Stop { place, .. }) => place + 1,
    }
}
