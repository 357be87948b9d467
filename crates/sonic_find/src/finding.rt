// Where paths lead in an input, as spans of it.
ghost use Rattle.std.specs.Prelude.{◌≡◌, None, true, false, length, map, replicate, IfErr, OnErr, OnOk};
ghost use Rattle.sonic_error.specs.Errors.{IsPlainError};
ghost use Rattle.sonic_text.specs.Documents.{StartsWithUtf8Value};
ghost use Rattle.sonic_text.specs.Strings.{strict};
ghost use Rattle.sonic_parser.specs.Honest.{IsHonest};
ghost use Rattle.sonic_pointer.specs.Nodes.{path_of};
ghost use Rattle.sonic_find.specs.Answers.{IsAnswer, Answer};
ghost use Rattle.sonic_find.specs.Causes.{IsAnswerable, IsRefusal};
ghost use Rattle.sonic_find.specs.Found.{slot_in};
ghost use Rattle.sonic_find.specs.Spans.{IsFinding, IsSureFinding, pairs_of};

use crate::answer::locate_many;
use crate::cursor::Cursor;
use crate::each::span_of;
use crate::many_unchecked::clear;
use crate::outcome::PathOutcome;
use crate::path::{locate, locate_from};
use crate::span::Span;
use sonic_error::{Error, ErrorCode};
use sonic_input::{JsonInput, Read};
use sonic_parser::ValueSpan;
use sonic_pointer::{KeyRule, PointerNode, PointerTree};
use std::alloc::Global;

/// The span of the value to which one path leads in an input: of what `get` of `sonic_lazy` answers,
/// with its errors.
///
/// The path `["a", 1]` over `{"a":[2,3]` leads to the span from 8 to 9.
pub fn find<'de, I: JsonInput<'de>>(
    alloc: Global,
    json: I,
    path: &[PointerNode<'_>],
) -> Result<Span, Error>
    ensures finding { IsFinding (I.JsonInput.content json) I.JsonInput.is_bytes (path_of path.now) result }
    ensures honest { IfErr result (IsHonest strict (I.JsonInput.content json) 0) }
{
    let text = json.to_u8_slice();
    let read = Read::unscanned(json.to_json_slice());
    match locate_from(alloc, read, json.need_utf8_valid(), path) {
        Ok(ValueSpan { start, end, .. }) => Ok(Span { start, end }),
        Err(fault) => Err(fault.error(text)),
    }
}

/// The span of the value to which one path leads in an input that begins with a value in UTF-8: of
/// what `get_unchecked` of `sonic_lazy` answers, with its errors, without memory.
///
/// The path `["a", 1]` over `{"a":[2,3]} x` leads to the span from 8 to 9.
pub fn find_unchecked<'de, I: JsonInput<'de>>(
    json: I,
    path: &[PointerNode<'_>],
) -> Result<Span, Error>
    requires { StartsWithUtf8Value (I.JsonInput.content json) }
    ensures { IsSureFinding (I.JsonInput.content json) I.JsonInput.is_bytes (path_of path.now) result }
{
    let text = json.to_u8_slice();
    let mut cursor = Cursor::unchecked(Read::unscanned(json.to_json_slice()));
    match locate(&mut cursor, path) {
        Ok(ValueSpan { start, end, .. }) => Ok(Span { start, end }),
        Err(fault) => Err(fault.error(text)),
    }
}

/// The spans of the values to which the paths of a tree lead in an input.
///
/// It fills one slot for each path with what `get_many` of `sonic_lazy` answers: the span of its
/// value in bytes of the input, or `None` where its key is lacked. After an error, which is that of
/// `get_many`, each slot is `None`.
///
/// With the paths `["a", 1]` and `["z"]` over `{"a":[1,2]}` the slots are the span from 8 to 9 and
/// `None`.
pub fn find_many<'de, I: JsonInput<'de>>(
    alloc: Global,
    json: I,
    tree: &PointerTree,
    out: &mut [Option<Span>],
) -> Result<(), Error>
    requires { length out.old ≡ length tree.now }
    ensures ok { OnOk result (IsAnswer (I.JsonInput.content json) I.JsonInput.is_bytes tree.now
        (Answer.spans (pairs_of out.new))) }
    ensures err { IfErr result (IsRefusal (I.JsonInput.content json) I.JsonInput.is_bytes tree.now) }
    ensures cleared { OnErr result (out.new ≡ replicate (length out.old) None) }
    ensures complete { IsAnswerable (I.JsonInput.content json) I.JsonInput.is_bytes tree.now
        → IfErr result (λ error. IsPlainError error ErrorCode.NoMemory) }
    ensures honest { IfErr result (IsHonest strict (I.JsonInput.content json) 0) }
{
    clear(out);
    let found = locate_many(alloc, json, tree, KeyRule::First)?;
    fill(out, &found);
    Ok(())
}

// Fills the slots with what was found.
fn fill(out: &mut [Option<Span>], found: &[PathOutcome<ValueSpan>])
    requires { length found.now ≡ length out.old }
    ensures { out.new ≡ map slot_in found.now }
{
    for (i, slot) in found.iter().enumerate() {
        out[i] = span_of(*slot).found();
    }
}
