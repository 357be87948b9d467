// Where many paths lead in many texts, one after the other, without memory of its own for each.
ghost use Rattle.std.specs.Prelude.{◌≡◌, ◌<◌, ◌≤◌, [], Some, length, map, slice_get, IfErr, OnOk, OnErr};
ghost use Rattle.sonic_error.specs.Errors.{IsPlainError};
ghost use Rattle.sonic_text.specs.Strings.{strict};
ghost use Rattle.sonic_parser.specs.Faults.{IsStopFor};
ghost use Rattle.sonic_parser.specs.Honest.{IsHonest};
ghost use Rattle.sonic_find.specs.Answers.{IsAnswerBy, Answer};
ghost use Rattle.sonic_find.specs.Causes.{IsAnswerableBy, IsRefusalBy};
ghost use Rattle.sonic_find.specs.Outcomes.{EachAnswer, IsEachAnswerBy, IsEachRefusalBy, IsEachTold, NoneTold, told_span};
ghost use Rattle.sonic_find.specs.Parts.{AreFoundParts};

use crate::answer::{Memory, locate_in};
use crate::each::{locate_each_in, span_of};
use crate::outcome::PathOutcome;
use crate::span::Span;
use sonic_error::{Error, ErrorCode};
use sonic_input::JsonInput;
use sonic_parser::Fault;
use sonic_pointer::{KeyRule, PointerTree};
use std::alloc::Global;
use std::marker::Model;

/// The memory of a walk, which the next walk uses again.
///
/// Who asks many texts one after the other, as the lines of a log, keeps one for all of them, so
/// that a text mostly needs no new memory. No clause says how much is taken. A clause sees where the last
/// walk says that each path leads, in the order of the paths, with spans in bytes of the text.
#[derive(Drop)]
pub struct WalkBuffers {
    memory: Memory,
}

impl Model for WalkBuffers {
    ghost use Rattle.std.specs.Prelude.{List};
    ghost use Rattle.sonic_find.specs.declared.outcome.PathOutcome.{PathOutcome};
    ghost use Rattle.sonic_find.specs.declared.span.Span.{Span};
    ghost use Rattle.sonic_find.specs.Found.{slots_of};

    ghost Value = { List (PathOutcome Span) };

    ghost view = { λ buffers. slots_of buffers.memory.found.items };
}

impl WalkBuffers {
    /// Buffers of no walk yet. They take no memory.
    pub fn new(alloc: Global) -> WalkBuffers
        ensures { result ≡ [] }
    {
        let found = Vec::new(alloc);
        let opened = None;
        WalkBuffers {
            memory: Memory { found, opened },
        }
    }

    /// How many paths the last walk followed, and 0 after an error.
    pub fn len(&self) -> usize
        ensures { result ≡ length self.now }
    {
        self.memory.found.len()
    }

    /// Where the path with this number, from 0, leads in the last walk.
    ///
    /// After `find_many_by` with the paths `["a", 1]` and `["z"]` over `{"a":[1,2]}` it is `Found` from 8 to 9
    /// of the number 0, and `Missing` at 10 of 1.
    #[inline]
    pub fn at(&self, number: usize) -> PathOutcome<Span>
        requires { number < length self.now }
        ensures { slice_get self.now number ≡ Some result }
    {
        span_of(self.memory.found[number])
    }
}

/// Where the paths of a tree lead in an input under a rule for equal keys, if none fails, in buffers that are
/// used again.
///
/// With `KeyRule::First` it is what [`find_many`](crate::find_many) answers, with its errors. Each path is
/// told that it is `Found` or `Missing`, as [`find_each_by`] tells it. After an error the buffers are empty:
/// nothing of what an earlier walk found is left.
///
/// With the path `["a"]` over `{"a":1,"a":2}` they hold `Found` from 5 to 6 by `First`, and from 11 to 12 by
/// `Last`.
pub fn find_many_by<'de, I: JsonInput<'de>>(
    alloc: Global,
    buffers: &mut WalkBuffers,
    json: I,
    tree: &PointerTree,
    rule: KeyRule,
) -> Result<(), Error>
    ensures ok { OnOk result (IsAnswerBy rule (I.JsonInput.content json) I.JsonInput.is_bytes tree.now
        (Answer.spans (map told_span buffers.new))) }
    ensures each { OnOk result (IsEachAnswerBy rule (I.JsonInput.content json) I.JsonInput.is_bytes
        tree.now (EachAnswer.outcomes buffers.new)) }
    ensures parts { OnOk result (AreFoundParts (I.JsonInput.content json) buffers.new) }
    ensures none_fails { OnOk result (NoneTold buffers.new) }
    ensures err { IfErr result (IsRefusalBy rule (I.JsonInput.content json) I.JsonInput.is_bytes tree.now) }
    ensures cleared { OnErr result (buffers.new ≡ []) }
    ensures complete { IsAnswerableBy rule (I.JsonInput.content json) I.JsonInput.is_bytes tree.now
        → IfErr result (λ error. IsPlainError error ErrorCode.NoMemory) }
    ensures honest { IfErr result (IsHonest strict (I.JsonInput.content json) 0) }
{
    let text = json.to_u8_slice();
    match fill_buffers(alloc, buffers, json, tree, rule) {
        Ok(()) => Ok(()),
        Err(fault) => Err(fault.error(text)),
    }
}

/// What [`find_many_by`] finds, or the place and the code of its error, for whom these suffice: neither
/// line nor column is counted. At the end of the input the place is its length.
///
/// With the path `["a"]` over `{"a":tru}` it is `Fault::At` 8, with `ErrorCode::InvalidLiteral`, and
/// over `{"a":` it is `Fault::At` 5, with `ErrorCode::EofWhileParsing`.
#[inline(always)]
pub fn fill_buffers<'de, I: JsonInput<'de>>(
    alloc: Global,
    buffers: &mut WalkBuffers,
    json: I,
    tree: &PointerTree,
    rule: KeyRule,
) -> Result<(), Fault>
    ensures ok { OnOk result (IsAnswerBy rule (I.JsonInput.content json) I.JsonInput.is_bytes tree.now
        (Answer.spans (map told_span buffers.new))) }
    ensures each { OnOk result (IsEachAnswerBy rule (I.JsonInput.content json) I.JsonInput.is_bytes
        tree.now (EachAnswer.outcomes buffers.new)) }
    ensures parts { OnOk result (AreFoundParts (I.JsonInput.content json) buffers.new) }
    ensures none_fails { OnOk result (NoneTold buffers.new) }
    ensures err { IfErr result (IsStopFor (λ s. IsAnswerBy rule (I.JsonInput.content json)
        I.JsonInput.is_bytes tree.now (Answer.error s))) }
    ensures within { IfErr result (IsStopFor (λ s. s.place ≤ length (I.JsonInput.content json))) }
    ensures cleared { OnErr result (buffers.new ≡ []) }
    ensures complete { IsAnswerableBy rule (I.JsonInput.content json) I.JsonInput.is_bytes tree.now
        → IfErr result (λ fault. fault ≡ Fault.OutOfMemory) }
{
    locate_in(alloc, &mut buffers.memory, json, tree, rule)
}

/// Where each path of a tree leads in an input under a rule for equal keys, whatever the others lead to, in
/// buffers that are used again.
///
/// It is what [`find_each`](crate::find_each) tells, with its errors. After an error the buffers are empty.
///
/// With the paths `["a"]` and `["a", "x"]` over `{"a":1}` they hold `Found` from 5 to 6, and `Fails` at 5.
pub fn find_each_by<'de, I: JsonInput<'de>>(
    alloc: Global,
    buffers: &mut WalkBuffers,
    json: I,
    tree: &PointerTree,
    rule: KeyRule,
) -> Result<(), Error>
    ensures ok { OnOk result (IsEachAnswerBy rule (I.JsonInput.content json) I.JsonInput.is_bytes
        tree.now (EachAnswer.outcomes buffers.new)) }
    ensures parts { OnOk result (AreFoundParts (I.JsonInput.content json) buffers.new) }
    ensures err { IfErr result (IsEachRefusalBy rule (I.JsonInput.content json) I.JsonInput.is_bytes
        tree.now) }
    ensures cleared { OnErr result (buffers.new ≡ []) }
    ensures complete { IsEachTold rule (I.JsonInput.content json) I.JsonInput.is_bytes tree.now
        → IfErr result (λ error. IsPlainError error ErrorCode.NoMemory) }
    ensures honest { IfErr result (IsHonest strict (I.JsonInput.content json) 0) }
{
    let text = json.to_u8_slice();
    match fill_each_buffers(alloc, buffers, json, tree, rule) {
        Ok(()) => Ok(()),
        Err(fault) => Err(fault.error(text)),
    }
}

/// What [`find_each_by`] tells, or the place and the code of its error, for whom these suffice: neither
/// line nor column is counted. At the end of the input the place is its length.
///
/// With the path `["a"]` over `{"a":tru}` it is `Fault::At` 8, with `ErrorCode::InvalidLiteral`.
#[inline(always)]
pub fn fill_each_buffers<'de, I: JsonInput<'de>>(
    alloc: Global,
    buffers: &mut WalkBuffers,
    json: I,
    tree: &PointerTree,
    rule: KeyRule,
) -> Result<(), Fault>
    ensures ok { OnOk result (IsEachAnswerBy rule (I.JsonInput.content json) I.JsonInput.is_bytes
        tree.now (EachAnswer.outcomes buffers.new)) }
    ensures parts { OnOk result (AreFoundParts (I.JsonInput.content json) buffers.new) }
    ensures err { IfErr result (IsStopFor (λ s. IsEachAnswerBy rule (I.JsonInput.content json)
        I.JsonInput.is_bytes tree.now (EachAnswer.error s))) }
    ensures within { IfErr result (IsStopFor (λ s. s.place ≤ length (I.JsonInput.content json))) }
    ensures cleared { OnErr result (buffers.new ≡ []) }
    ensures complete { IsEachTold rule (I.JsonInput.content json) I.JsonInput.is_bytes tree.now
        → IfErr result (λ fault. fault ≡ Fault.OutOfMemory) }
{
    locate_each_in(alloc, &mut buffers.memory, json, tree, rule)
}
