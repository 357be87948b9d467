// The syntax of containers: what comes before the first item, before a member's value, and after
// an item.
ghost use Rattle.std.specs.Prelude.{◌≡◌, ◌+◌, ◌<◌, ◌≤◌, ℕ, Bool, List, length, IfOk, IfErr, IfSome};
ghost use Rattle.sonic_text.specs.Places.{byte};
ghost use Rattle.sonic_text.specs.Values.{opening, IsKey};
ghost use Rattle.sonic_text.specs.Faults.{IsKeyFault};
ghost use Rattle.sonic_parser.specs.Internal.Containers.{IsAfterBracket};
ghost use Rattle.sonic_parser.specs.Containers.{IsSeparatorFault};
ghost use Rattle.sonic_parser.specs.Parts.{IsAfterValue};
ghost use Rattle.sonic_parser.specs.ValueSpans.{string_span, IsKeyAt};

use sonic_error::ErrorCode;
use sonic_text::internal::{short_space, short_stop, skip_string, stop_at};
use sonic_text::{Kind, Stop, StringEnd, byte_at, skip_space, string_end};

// Where so many bytes are left, what is short is read without a look at the text's end.
pub(crate) const NEAR: usize = 128;

/// How a container goes on.
#[derive(Clone, Copy, Debug, PartialEq, Eq)]
pub enum AfterItem {
    /// With an item, which is expected here.
    Item(usize),
    /// With its closing bracket, which ends here.
    End(usize),
}

// How the container goes on whose bracket is at a place.
#[inline(always)]
pub(crate) fn first_item(text: &[u8], place: usize, kind: Kind) -> AfterItem
    requires within { place ≤ length text.now }
    requires bracket { byte text.now place ≡ opening kind }
    ensures { IsAfterBracket text.now kind place result }
{
    let first = skip_space(text, place + 1);
    if byte_at(text, first) == kind.closing() {
        AfterItem::End(first + 1)
    } else {
        AfterItem::Item(first)
    }
}

/// How a container of this kind goes on after the item whose value ended at a place, or why it doesn't:
/// with the next item after a comma, or with the closing bracket (RFC 8259, sections 4 and 5).
///
/// After the `1` of `[1 , 2]` the next item is expected at 5.
#[inline(always)]
pub fn next_item(text: &[u8], end: usize, kind: Kind) -> Result<AfterItem, Stop>
    requires { end ≤ length text.now }
    ensures ok { IfOk result (λ next. IsAfterValue text.now kind end next) }
    ensures err { IfErr result (λ s. IsSeparatorFault text.now kind end s) }
{
    let byte = byte_at(text, end);
    if byte == b',' {
        return Ok(AfterItem::Item(skip_space(text, end + 1)));
    }
    if byte == kind.closing() {
        return Ok(AfterItem::End(end + 1));
    }
    let place = skip_space(text, end);
    let byte = byte_at(text, place);
    if byte == b',' {
        Ok(AfterItem::Item(skip_space(text, place + 1)))
    } else if byte == kind.closing() {
        Ok(AfterItem::End(place + 1))
    } else {
        Err(stop_at(text, place, kind.code_after_item()))
    }
}

// The key that is expected at a place with the colon after it, and where the member's value is
// expected.
#[inline]
#[tactic(auto, using(crate::proofs::BeginningLemmas::keys))]
pub(crate) fn key_end(text: &[u8], place: usize, lossy: bool) -> Result<(StringEnd, usize), Stop>
    requires { place ≤ length text.now }
    ensures ok { IfOk result (λ key. IsKeyAt lossy text.now place (string_span place key.0) key.1) }
    ensures err { IfErr result (λ s. IsKeyFault lossy text.now place s) }
{
    if byte_at(text, place) != b'"' {
        return Err(stop_at(text, place, ErrorCode::ExpectObjectKeyOrEnd));
    }
    let string = string_end(text, place, lossy)?;
    let colon = skip_space(text, string.end);
    if byte_at(text, colon) != b':' {
        return Err(stop_at(text, colon, ErrorCode::ExpectedColon));
    }
    let value = skip_space(text, colon + 1);
    Ok((string, value))
}

// The same without the reason, where the key is short: `None` says nothing of the text.
#[inline(always)]
fn short_key(text: &[u8], place: usize) -> Option<usize>
    requires { place + 36 ≤ length text.now }
    ensures { (m : Bool) → IfSome result (λ value. (place < value) × (value ≤ length text.now)
        × (b : List ℕ) × IsKey m text.now place value b) }
{
    if text[place] != b'"' {
        return None;
    }
    // Not by `short_string`, whose `Option` a compiler makes of the quote: the colon's place would wait for it.
    let stop = short_stop(text, place)?;
    if text[stop] != b'"' || text[stop + 1] != b':' {
        return None;
    }
    Some(short_space(text, stop + 2))
}

// The place where the value is expected of the member whose key is expected at a place, or `None` where
// there is no key with a colon.
#[inline(always)]
pub(crate) fn skip_key(text: &[u8], place: usize, lossy: bool) -> Option<usize>
    requires { place ≤ length text.now }
    ensures { IfSome result (λ value. (place < value) × (value ≤ length text.now)
        × (b : List ℕ) × IsKey lossy text.now place value b) }
{
    if text.len() - place >= NEAR
        && let Some(value) = short_key(text, place)
    {
        return Some(value);
    }
    if byte_at(text, place) != b'"' {
        return None;
    }
    let end = skip_string(text, place, lossy)?;
    if byte_at(text, end) == b':' {
        return Some(skip_space(text, end + 1));
    }
    let colon = skip_space(text, end);
    match byte_at(text, colon) {
        b':' => Some(skip_space(text, colon + 1)),
        _ => None,
    }
}
