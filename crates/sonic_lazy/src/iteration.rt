// How far an iterator has come in its container.
ghost use Rattle.std.specs.Prelude.{◌≡◌, ◌<◌, ◌≤◌, ◌^◌, None, true, false, length, slice_range, IfSome, IfNone, IfOk, IfErr, IsErrOf, OnOk, IsTrue, IsFalse};
ghost use Rattle.std.specs.Str.{IsUtf8};
ghost use Rattle.sonic_input.specs.Slices.{slice_bytes};
ghost use Rattle.sonic_text.specs.declared.kind.Kind.{Kind};
ghost use Rattle.sonic_text.specs.Documents.{StartsWithUtf8Value};
ghost use Rattle.sonic_text.specs.Places.{after_space};
ghost use Rattle.sonic_parser.specs.Faults.{IsStopFor};
ghost use Rattle.sonic_lazy.specs.Internal.Items.{IsAfterItems, IsFound, IsFoundPart};
ghost use Rattle.sonic_parser.specs.ValueSpans.{FlagsEscape};
ghost use Rattle.sonic_find.specs.Cursors.{HasWhole};
ghost use Rattle.sonic_lazy.specs.Items.{stopped, AreClosed, EndsItems};
ghost use Rattle.sonic_lazy.specs.Iterators.{iterator_over, IsGiven, IsOver};
ghost use Rattle.sonic_lazy.specs.LazyValues.{raw_bytes};
ghost use Rattle.sonic_find.specs.Parts.{IsPart};

use crate::items::{Found, find_item};
use crate::lazyvalue::LazyValue;
use sonic_find::internal::{Cursor, check};
use sonic_input::{JsonInput, JsonSlice, Read};
use sonic_parser::{Fault, ValueSpan};
use sonic_text::{Kind, Stop};
use std::alloc::Global;
use std::marker::Model;

// The items of a container, of which some were given.
#[derive(Drop)]
pub(crate) struct Items<'de> {
    kind: Kind,
    raw: JsonSlice<'de>,
    text: &'de [u8],
    cursor: Cursor<'de>,
    // Whether the text came as bytes whose UTF-8 is looked at before the first item.
    is_bytes: bool,
    given: usize,
    ended: bool,
}

impl<'de> Model for Items<'de> {
    ghost use Rattle.sonic_lazy.specs.Iterators.{IteratorState};

    ghost Value = { IteratorState };

    ghost use Rattle.sonic_lazy.specs.Internal.Items.{iterator_state_of, IsIterator};

    ghost view = { iterator_state_of };

    ghost invariant = { IsIterator };
}

impl<'de> Items<'de> {
    // The items of the container of this kind that begins an input, which are looked at.
    pub(crate) fn checked<I: JsonInput<'de>>(alloc: Global, json: I, kind: Kind) -> Items<'de>
        ensures { result ≡ iterator_over kind (I.JsonInput.content json) I.JsonInput.is_bytes true }
    {
        let raw = json.to_json_slice();
        let cursor = Cursor::checked(alloc, Read::unscanned(raw));
        Items {
            kind,
            raw,
            text: json.to_u8_slice(),
            cursor,
            is_bytes: json.need_utf8_valid(),
            given: 0,
            ended: false,
        }
    }

    // The items of the container of this kind that begins a text, which begins with a value in UTF-8.
    pub(crate) fn unchecked(raw: JsonSlice<'de>, kind: Kind) -> Items<'de>
        requires { StartsWithUtf8Value (slice_bytes raw) }
        ensures { result ≡ iterator_over kind (slice_bytes raw.entry) false false }
    {
        let cursor = Cursor::unchecked(Read::unscanned(raw));
        Items {
            kind,
            raw,
            text: raw.bytes(),
            cursor,
            is_bytes: false,
            given: 0,
            ended: false,
        }
    }

    // The next item.
    pub(crate) fn next(&mut self) -> Option<Result<Found, Fault>>
        ensures found { IfSome result (λ r.
            IfOk r (IsGiven (λ t n x. IsFoundPart t self.old.kind n x) self.old self.new)) }
        ensures going { IfSome result (λ r. IfErr r (λ _. IsFalse self.old.ended)) }
        ensures fault { IfSome result (λ r. IfErr r (IsStopFor (λ s.
            EndsItems self.old.text self.old.is_bytes self.old.kind self.old.given (stopped s)))) }
        ensures within { IfSome result (λ r. IfErr r (IsStopFor (λ s. s.place ≤ length self.old.text))) }
        ensures memory { IfSome result (λ r.
            IsErrOf r Fault.OutOfMemory → IsTrue self.old.checks) }
        ensures ended { IfSome result (λ r. IfErr r (λ _. self.new ≡ record self.old { ended = true })) }
        ensures none { IfNone result (IsOver self.old self.new) }
    {
        if self.ended {
            return None;
        }
        match find_next(&mut self.cursor, self.kind, self.given, self.is_bytes) {
            Ok(Some(found)) => {
                self.given += 1;
                Some(Ok(found))
            }
            Ok(None) => {
                self.ended = true;
                None
            }
            Err(fault) => {
                self.ended = true;
                Some(Err(fault))
            }
        }
    }

    // Ends, whatever comes.
    pub(crate) fn end(&mut self)
        ensures { self.new ≡ record self.old { ended = true } }
    {
        self.ended = true;
    }

    // The whole text.
    pub(crate) fn text(&self) -> &'de [u8]
        ensures { result.now ≡ self.now.text }
    {
        self.text
    }

    // A value of the text.
    pub(crate) fn lazy_value(&self, found: ValueSpan) -> LazyValue<'de>
        requires part { IsPart self.now.text found.start found.end }
        requires escaped { FlagsEscape self.now.text found }
        ensures { raw_bytes result ≡ slice_range self.now.text found.start found.end }
    {
        LazyValue::whole(self.raw.part(found.start, found.end), found.escaped)
    }
}

// Passes the item that comes after those that were given, if there is one, in a text that came as
// bytes, whose UTF-8 is looked at before the first item, or not.
fn find_next(
    cursor: &mut Cursor<'_>,
    kind: Kind,
    given: usize,
    is_bytes: bool,
) -> Result<Option<Found>, Fault>
    requires after { IsAfterItems cursor.old.text kind given cursor.old.place }
    requires whole { IsFalse cursor.old.checks → HasWhole cursor.old.text (after_space cursor.old.text 0) }
    requires utf8 { IsTrue is_bytes → 0 < given → IsUtf8 cursor.old.text }
    ensures utf8 { OnOk result (IsTrue is_bytes → IsUtf8 cursor.old.text) }
    ensures found { IfOk result (λ found. IfSome found (IsFound cursor.old.text kind given)) }
    ensures place { IfOk result (λ found. IfSome found (λ x. cursor.new.place ≡ x.value.end)) }
    ensures fits { IfOk result (λ found. IfSome found (λ x. x.value.end < 2 ^ 64)) }
    ensures closed { IfOk result (λ found. found ≡ None → AreClosed cursor.old.text kind given) }
    ensures moved { cursor.new ≡ record cursor.old { place = cursor.new.place } }
    ensures err { IfErr result (IsStopFor (λ s. EndsItems cursor.old.text is_bytes kind given (stopped s))) }
    ensures within { IfErr result (IsStopFor (λ s. s.place ≤ length cursor.old.text)) }
    ensures memory { IsErrOf result Fault.OutOfMemory → IsTrue cursor.old.checks }
{
    look(cursor.text(), given, is_bytes)?;
    find_item(cursor, kind, given)
}

// Looks at the UTF-8 of a text that came as bytes, before the first item.
fn look(text: &[u8], given: usize, is_bytes: bool) -> Result<(), Stop>
    requires { IsTrue is_bytes → 0 < given → IsUtf8 text.now }
    ensures ok { OnOk result (IsTrue is_bytes → IsUtf8 text.now) }
    ensures err { IfErr result (λ s. (kind : Kind) → EndsItems text.now is_bytes kind given (stopped s)) }
    ensures within { IfErr result (λ s. s.place ≤ length text.now) }
{
    if is_bytes && given == 0 {
        return check(text, text.len());
    }
    Ok(())
}
