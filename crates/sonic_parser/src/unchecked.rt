// Where a value ends that is known to be whole, and what comes after it in its container, without
// memory.
//
// Strings are passed up to their quotes, and of the brackets outside them only those of the value's
// own kind are counted. What else is between the brackets is not looked at.
ghost use Rattle.std.specs.Prelude.{◌≡◌, ◌↔◌, ◌⊎◌, ℕ, ◌+◌, ◌<◌, ◌≤◌, Bool, List, true, false, length, IsTrue};
ghost use Rattle.sonic_blocks.specs.Firsts.{is_one_of};
ghost use Rattle.sonic_blocks.specs.Outside.{IsClear};
ghost use Rattle.sonic_text.specs.Brackets.{LeavesString};
ghost use Rattle.sonic_text.specs.Numbers.{IsNumber};
ghost use Rattle.sonic_text.specs.Places.{byte, after_space};
ghost use Rattle.sonic_text.specs.Strings.{IsEscapedString};
ghost use Rattle.sonic_text.specs.Values.{opening, IsKey, IsValue};
ghost use Rattle.sonic_parser.specs.Containers.{GoesOn};
ghost use Rattle.sonic_parser.specs.Internal.Skipping.{IsComplete};
ghost use Rattle.sonic_parser.specs.Internal.Unchecked.{IsMark, IsWholeString};
ghost use Rattle.sonic_parser.specs.Parts.{IsAfterValue};
ghost use Rattle.sonic_parser.specs.ValueSpans.{string_span, IsKeyAt};

use crate::blocks::{open_string, whole_container};
use crate::container::AfterItem;
use sonic_blocks::internal::first_of;
use sonic_text::internal::skip_number;
use sonic_text::{Kind, StringEnd, skip_space};

// The end of the string whose first quote is at a place: after the next quote that no backslash
// escapes.
#[inline(always)]
fn whole_string(text: &[u8], start: usize) -> StringEnd
    requires { IsWholeString text.now start }
    ensures end { (s : ℕ) → IsClear text.now s start → LeavesString text.now s start result.end }
    ensures escaped { IsTrue result.escaped ↔ IsEscapedString text.now start result.end }
{
    let Some(mark) = first_of(text, start + 1, b'"', b'\\', b'\\') else {
        unreachable!();
    };
    if text[mark] == b'"' {
        let (end, escaped) = (mark + 1, false);
        return StringEnd { end, escaped };
    }
    let (end, escaped) = (open_string(text, mark), true);
    StringEnd { end, escaped }
}

// The first place from a place on that holds no white space, which is known to hold one of two bytes.
#[inline(always)]
fn mark_after_space(text: &[u8], place: usize, a: u8, b: u8) -> usize
    requires marks { IsMark a × IsMark b }
    requires known { (byte text.now (after_space text.now place) ≡ a)
        ⊎ (byte text.now (after_space text.now place) ≡ b) }
    ensures place { result ≡ after_space text.now place }
    ensures within { result < length text.now }
{
    // Mostly it is the byte at hand.
    let first = text[place];
    if first == a || first == b {
        return place;
    }
    let Some(mark) = first_of(text, place, a, b, b) else {
        unreachable!();
    };
    mark
}

// How a container that is known to be whole goes on after the item whose value ended at a place.
#[inline(always)]
pub(crate) fn whole_next(text: &[u8], end: usize, kind: Kind) -> AfterItem
    requires { GoesOn text.now kind end }
    ensures { IsAfterValue text.now kind end result }
{
    let mark = mark_after_space(text, end, b',', kind.closing());
    if text[mark] == b',' {
        AfterItem::Item(skip_space(text, mark + 1))
    } else {
        AfterItem::End(mark + 1)
    }
}

// The key of the member at a place, which is known to have one, and where its value begins.
#[inline(always)]
pub(crate) fn whole_key(text: &[u8], place: usize, lossy: bool) -> (StringEnd, usize)
    requires { (v : ℕ) × (b : List ℕ) × IsKey lossy text.now place v b }
    ensures { IsKeyAt lossy text.now place (string_span place result.0) result.1 }
{
    let string = whole_string(text, place);
    let colon = mark_after_space(text, string.end, b':', b':');
    let value = skip_space(text, colon + 1);
    (string, value)
}

// The end of the number at a place.
#[inline(always)]
fn whole_number(text: &[u8], start: usize) -> usize
    requires { (j : ℕ) × IsNumber text.now start j }
    ensures { (j : ℕ) → IsNumber text.now start j → result ≡ j }
{
    match skip_number(text, start) {
        Some(end) => end,
        None => unreachable!(),
    }
}

// Where the value at a place ends, and whether it is a string with a backslash.
pub(crate) fn whole_value(text: &[u8], start: usize, lossy: bool) -> (usize, bool)
    requires { (j : ℕ) × IsValue lossy text.now start j }
    ensures { IsComplete lossy text.now start (record { start = start; end = result.0; escaped = result.1 }) }
{
    match text[start] {
        b'"' => {
            let StringEnd { end, escaped } = whole_string(text, start);
            (end, escaped)
        }
        b'{' | b'[' => (whole_container(text, start), false),
        b'n' | b't' => (start + 4, false),
        b'f' => (start + 5, false),
        _ => (whole_number(text, start), false),
    }
}
