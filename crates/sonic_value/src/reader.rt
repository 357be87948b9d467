// A cursor that makes plain values of what it passes.
ghost use Rattle.std.specs.Prelude.{◌≡◌, ◌≢◌, ◌+◌, ◌-◌, ◌≤◌, ◌<◌, ℕ, List, None, length, slice_range, string_bytes, IfOk, IfErr, IfSome, OnOk, IsTrue, IsFalse};
ghost use Rattle.std.specs.Cow.{cow_str_bytes};
ghost use Rattle.std.specs.Str.{IsUtf8};
ghost use Rattle.sonic_parser.specs.Containers.{IsEnd, IsSeparated, IsSeparatorFault};
ghost use Rattle.sonic_parser.specs.Faults.{IsStopFor};
ghost use Rattle.sonic_parser.specs.ValueSpans.{IsKeyAt, IsStringSpan};
ghost use Rattle.sonic_text.specs.Faults.{IsFault, IsKeyFault};
ghost use Rattle.sonic_text.specs.Numbers.{IsNumber};
ghost use Rattle.sonic_text.specs.Places.{byte, after_space};
ghost use Rattle.sonic_text.specs.Strings.{strict, IsString, IsEscapedString};
ghost use Rattle.sonic_text.specs.Values.{opening, closing, IsValue};
ghost use Rattle.sonic_text.specs.declared.kind.Kind.{Kind};
ghost use Rattle.sonic_value.specs.Internal.Keeping.{spelling};
ghost use Rattle.sonic_value.specs.Internal.Readers.{IsValueRead, IsUnreadValue, IsScalarSpan, IsKeptText, IsKept, IsHeadRead};
ghost use Rattle.sonic_value.specs.Views.{tree};

use crate::Value;
use sonic_input::{JsonSlice, Read};
use sonic_parser::{Fault, Parser, ValueSpan};
use sonic_text::{Kind, Stop, byte_at};
use std::alloc::{AllocError, Global};
use std::borrow::CowStr;
use std::marker::Model;

// A parser, and where the memory for the values comes from.
#[derive(Drop)]
pub(crate) struct Reader<'de> {
    parser: Parser<'de>,
    alloc: Global,
    // The text is known to be UTF-8. Else strings are spelled out, as what they denote may be no text.
    utf8: bool,
}

impl<'de> Model for Reader<'de> {
    ghost use Rattle.sonic_value.specs.Internal.Readers.{ReaderState};

    ghost Value = { ReaderState };

    ghost use Rattle.sonic_value.specs.Internal.ReaderViews.{cursor_of, IsReader};

    ghost view = { cursor_of };

    ghost invariant = { IsReader };
}

impl<'de> Reader<'de> {
    // At a place of a text, which is UTF-8 where this says so.
    pub(crate) fn at(alloc: Global, text: &'de [u8], place: usize, utf8: bool) -> Reader<'de>
        requires utf8 { IsTrue utf8 → IsUtf8 text.now }
        requires inside { place ≤ length text.now }
        ensures { result ≡ record { source = record { text = text.now; is_utf8 = utf8 }; place = place } }
    {
        let mut read = Read::unscanned(JsonSlice::Raw(text));
        read.set_index(place);
        Reader {
            parser: Parser::new(read),
            alloc,
            utf8,
        }
    }

    // Where the memory comes from.
    pub(crate) fn alloc(&self) -> Global {
        self.alloc
    }

    // The cursor.
    pub(crate) fn place(&self) -> usize
        ensures place { result ≡ self.now.place }
        ensures inside { result ≤ length self.now.source.text }
    {
        self.parser.offset()
    }

    // Passes white space.
    pub(crate) fn skip_space(&mut self)
        ensures { self.new ≡ record self.old { place = after_space self.old.source.text self.old.place } }
    {
        self.parser.skip_space_peek();
    }

    // The kind of the container that begins at the cursor, if one does.
    pub(crate) fn container(&self) -> Option<Kind>
        ensures some { IfSome result (λ kind. byte self.now.source.text self.now.place ≡ opening kind) }
        ensures none { result ≡ None → (kind : Kind)
            → byte self.now.source.text self.now.place ≢ opening kind }
    {
        Kind::opened_by(byte_at(self.parser.text(), self.parser.offset()))
    }

    // Goes past the bracket of the container of this kind at the cursor: whether an item is expected,
    // at which the cursor then is, or after the closing bracket.
    pub(crate) fn enter(&mut self, kind: Kind) -> bool
        requires { byte self.old.source.text self.old.place ≡ opening kind }
        ensures item { IsTrue result
            → (self.new.place ≡ after_space self.old.source.text (self.old.place + 1))
            × (byte self.old.source.text self.new.place ≢ closing kind) }
        ensures empty { IsFalse result
            → IsEnd self.old.source.text kind (self.old.place + 1) self.new.place }
        ensures moved { self.new ≡ record self.old { place = self.new.place } }
    {
        self.parser.enter(kind)
    }

    // Goes on after an item of a container of this kind: whether another one comes.
    pub(crate) fn next_item(&mut self, kind: Kind) -> Result<bool, Stop>
        ensures item { IfOk result (λ more. IsTrue more
            → IsSeparated self.old.source.text self.old.place self.new.place) }
        ensures end { IfOk result (λ more. IsFalse more
            → IsEnd self.old.source.text kind self.old.place self.new.place) }
        ensures moved { self.new ≡ record self.old { place = self.new.place } }
        ensures err { IfErr result (IsSeparatorFault self.old.source.text kind self.old.place) }
    {
        self.parser.next_item(kind)
    }

    // Reads the key at the cursor, up to the member's value.
    pub(crate) fn key(&mut self) -> Result<String, Fault>
        ensures ok { IfOk result (λ key.
            IsHeadRead self.old.source Kind.Object self.old.place self.new.place (Some (string_bytes key))) }
        ensures moved { self.new ≡ record self.old { place = self.new.place } }
        ensures err { IfErr result (IsStopFor (IsKeyFault strict self.old.source.text self.old.place)) }
    {
        let key = self.pass_key()?;
        Ok(self.string(key)?)
    }

    // The same, borrowed where it can be.
    pub(crate) fn borrowed_key(&mut self) -> Result<CowStr<'de>, Fault>
        ensures ok { IfOk result (λ key.
            IsHeadRead self.old.source Kind.Object self.old.place self.new.place (Some (cow_str_bytes key))) }
        ensures moved { self.new ≡ record self.old { place = self.new.place } }
        ensures err { IfErr result (IsStopFor (IsKeyFault strict self.old.source.text self.old.place)) }
    {
        let key = self.pass_key()?;
        if self.utf8 {
            return Ok(key.text(self.alloc, self.parser.text())?);
        }
        Ok(CowStr::Owned(self.string(key)?))
    }

    // Passes the key at the cursor, up to the member's value.
    fn pass_key(&mut self) -> Result<ValueSpan, Stop>
        ensures ok { IfOk result (λ key.
            IsKeyAt strict self.old.source.text self.old.place key self.new.place) }
        ensures moved { self.new ≡ record self.old { place = self.new.place } }
        ensures err { IfErr result (IsKeyFault strict self.old.source.text self.old.place) }
    {
        self.parser.key()
    }

    // Passes the value at the cursor, however deep it is.
    pub(crate) fn skip_value(&mut self) -> Result<(), Fault>
        ensures ok { OnOk result (IsValue strict self.old.source.text self.old.place self.new.place) }
        ensures moved { self.new ≡ record self.old { place = self.new.place } }
        ensures err { IfErr result (IsStopFor (IsFault strict self.old.source.text self.old.place)) }
    {
        self.parser.skip_value(self.alloc)?;
        Ok(())
    }

    // Reads the value at the cursor, which is no container.
    pub(crate) fn scalar(&mut self) -> Result<Value, Fault>
        requires { (kind : Kind) → byte self.old.source.text self.old.place ≢ opening kind }
        ensures ok { IfOk result (λ value. (depth_left : ℕ)
            → IsValueRead self.old.source depth_left self.old.place self.new.place (tree value)) }
        ensures moved { self.new ≡ record self.old { place = self.new.place } }
        ensures err { IfErr result (IsStopFor (λ s. (depth_left : ℕ)
            → IsUnreadValue self.old.source.text depth_left self.old.place s)) }
    {
        let value = self.parser.skip_value(self.alloc)?;
        Ok(self.scalar_value(value)?)
    }

    // A value of the text that is no container.
    fn scalar_value(&self, value: ValueSpan) -> Result<Value, AllocError>
        requires { IsScalarSpan self.now.source.text value }
        ensures { IfOk result (λ made. IsKept self.now.source value.start value.end (tree made)) }
    {
        let text = self.parser.text();
        match byte_at(text, value.start) {
            b'n' => Ok(Value::Null),
            b't' => Ok(Value::Bool(true)),
            b'f' => Ok(Value::Bool(false)),
            b'"' => Ok(Value::String(self.string(value)?)),
            _ => Ok(Value::Number(number_text(self.alloc, text, value)?)),
        }
    }

    // What a string of the text denotes, or how that is spelled.
    fn string(&self, string: ValueSpan) -> Result<String, AllocError>
        requires { IsStringSpan self.now.source.text string }
        ensures { IfOk result (λ made.
            IsKeptText self.now.source string.start string.end (string_bytes made)) }
    {
        let text = self.parser.text();
        if self.utf8 {
            return string.owned_text(self.alloc, text);
        }
        let bytes = string.bytes(self.alloc, text)?;
        spelled(self.alloc, &bytes)
    }
}

// Bytes spelled out, two letters for each.
pub(crate) fn spelled(alloc: Global, bytes: &[u8]) -> Result<String, AllocError>
    ensures { IfOk result (λ made. string_bytes made ≡ spelling bytes.now) }
{
    let mut letters = String::new(alloc);
    for byte in bytes {
        letters.push((b'a' + byte / 16) as char)?;
        letters.push((b'a' + byte % 16) as char)?;
    }
    Ok(letters)
}

// The text of a number.
fn number_text(alloc: Global, text: &[u8], number: ValueSpan) -> Result<String, AllocError>
    requires { IsNumber text.now number.start number.end }
    ensures { IfOk result (λ made. string_bytes made ≡ slice_range text.now number.start number.end) }
{
    let bytes = &text[number.start..number.end];
    // SAFETY: a number is ASCII.
    String::from_str(alloc, unsafe { std::str::from_utf8_unchecked(bytes) })
}
