// One item of a container after the other.
ghost use Rattle.std.specs.Prelude.{◌≡◌, ◌<◌, ◌≤◌, ◌^◌, ℕ, None, true, length, IfOk, IfErr, IfSome, OnOk, IsTrue, IsFalse};
ghost use Rattle.sonic_text.specs.Faults.{IsKeyFault};
ghost use Rattle.sonic_text.specs.Places.{byte, after_space};
ghost use Rattle.sonic_text.specs.Strings.{strict};
ghost use Rattle.sonic_text.specs.Values.{opening, ItemsFit};
ghost use Rattle.sonic_text.specs.declared.kind.Kind.{Kind};
ghost use Rattle.sonic_parser.specs.Faults.{IsStopFor};
ghost use Rattle.sonic_c.specs.Containers.{IsHeadAt, IsExpectedItem, IsNthItem, HasItemCount, HasPassed};
ghost use Rattle.sonic_c.specs.Internal.Items.{IsItemStop};

use crate::span::Span;
use sonic_find::internal::Cursor;
use sonic_input::{JsonSlice, Read};
use sonic_parser::Fault;
use sonic_text::{Kind, Stop};
use std::alloc::Global;

/// An item of a container: the span of its key, twice 0 for an element of an array, and that of its
/// value.
#[repr(C)]
#[derive(Clone, Copy)]
pub struct Item {
    /// Where the key is, with its quotes.
    pub key: Span,
    /// Where the value is.
    pub value: Span,
}

// A cursor at the first byte of a text from a place on that is no white space.
pub(crate) fn cursor_at(alloc: Global, text: &[u8], place: usize) -> Cursor<'_>
    requires { place ≤ length text.now }
    ensures { result ≡ record {
      text = text.now;
      place = after_space text.now place;
      checks = true;
    } }
{
    let mut read = Read::unscanned(JsonSlice::Raw(text));
    read.set_index(place);
    Cursor::checked(alloc, read)
}

// Passes the item that comes after those that were passed, if there is one, or the closing bracket.
pub(crate) fn pass_item(
    cursor: &mut Cursor<'_>,
    kind: Kind,
    first: bool,
) -> Result<Option<Item>, Fault>
    requires checks { IsTrue cursor.old.checks }
    requires bracket { IsTrue first → byte cursor.old.text cursor.old.place ≡ opening kind }
    ensures item { IfOk result (λ found. IfSome found (λ item. (n : ℕ)
        → HasPassed cursor.old.text kind n first cursor.old.place → IsNthItem cursor.old.text kind n item)) }
    ensures end { IfOk result (λ found. IfSome found (λ item. item.value.end ≡ cursor.new.place)) }
    ensures later { IfOk result (λ found. IfSome found (λ _. cursor.old.place < cursor.new.place)) }
    ensures fits { IfOk result (λ found. IfSome found (λ _. cursor.new.place < 2 ^ 64)) }
    ensures closed { IfOk result (λ found. found ≡ None → (n : ℕ)
        → HasPassed cursor.old.text kind n first cursor.old.place → HasItemCount cursor.old.text n cursor.new.place) }
    ensures moved { cursor.new ≡ record cursor.old { place = cursor.new.place } }
    ensures err { IfErr result (IsStopFor (λ s. (n : ℕ)
        → HasPassed cursor.old.text kind n first cursor.old.place → IsItemStop cursor.old.text kind n s)) }
    ensures stop { IfErr result (IsStopFor (λ s. s.place ≤ length cursor.old.text)) }
{
    if !go_on(cursor, kind, first)? {
        return Ok(None);
    }
    let item = item_at(cursor, kind)?;
    Ok(Some(item))
}

// Goes on to the item that comes after those that were passed, or past the closing bracket: whether there
// is one.
fn go_on(cursor: &mut Cursor<'_>, kind: Kind, first: bool) -> Result<bool, Stop>
    requires checks { IsTrue cursor.old.checks }
    requires bracket { IsTrue first → byte cursor.old.text cursor.old.place ≡ opening kind }
    ensures item { IfOk result (λ more. IsTrue more → (n : ℕ)
        → HasPassed cursor.old.text kind n first cursor.old.place
        → ItemsFit strict cursor.old.text kind (after_space cursor.old.text 0) n cursor.new.place) }
    ensures closed { IfOk result (λ more. IsFalse more → (n : ℕ)
        → HasPassed cursor.old.text kind n first cursor.old.place → HasItemCount cursor.old.text n cursor.new.place) }
    ensures later { IfOk result (λ more. IsTrue more → cursor.old.place < cursor.new.place) }
    ensures moved { cursor.new ≡ record cursor.old { place = cursor.new.place } }
    ensures err { IfErr result (λ s. (n : ℕ)
        → HasPassed cursor.old.text kind n first cursor.old.place → IsItemStop cursor.old.text kind n s) }
    ensures stop { IfErr result (λ s. s.place ≤ length cursor.old.text) }
{
    if first {
        return Ok(cursor.enter(kind));
    }
    match cursor.next_item(kind) {
        Ok(more) => Ok(more),
        Err(stop) => Err(stop),
    }
}

// Passes the item that is expected at the cursor.
fn item_at(cursor: &mut Cursor<'_>, kind: Kind) -> Result<Item, Fault>
    requires checks { IsTrue cursor.old.checks }
    ensures item { IfOk result (IsExpectedItem cursor.old.text kind cursor.old.place) }
    ensures end { IfOk result (λ item. item.value.end ≡ cursor.new.place) }
    ensures later { OnOk result (cursor.old.place < cursor.new.place) }
    ensures fits { OnOk result (cursor.new.place < 2 ^ 64) }
    ensures moved { cursor.new ≡ record cursor.old { place = cursor.new.place } }
    ensures err { IfErr result (IsStopFor (λ s. (n : ℕ)
        → ItemsFit strict cursor.old.text kind (after_space cursor.old.text 0) n cursor.old.place
        → IsItemStop cursor.old.text kind n s)) }
    ensures stop { IfErr result (IsStopFor (λ s. s.place ≤ length cursor.old.text)) }
{
    let key = key_at(cursor, kind)?;
    let value = Span::of_value(cursor.skip()?);
    Ok(Item { key, value })
}

// Passes what comes before the value of the item that is expected at the cursor: nothing, or a key.
fn key_at(cursor: &mut Cursor<'_>, kind: Kind) -> Result<Span, Stop>
    requires checks { IsTrue cursor.old.checks }
    ensures head { IfOk result (IsHeadAt cursor.old.text kind cursor.old.place cursor.new.place) }
    ensures moved { cursor.new ≡ record cursor.old { place = cursor.new.place } }
    ensures err { IfErr result (λ s. (kind ≡ Kind.Object)
        × IsKeyFault strict cursor.old.text cursor.old.place s) }
{
    match kind {
        Kind::Array => Ok(Span { start: 0, end: 0 }),
        Kind::Object => Ok(Span::of_value(cursor.key()?)),
    }
}
