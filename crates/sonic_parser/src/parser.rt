ghost use Rattle.std.specs.Prelude.{◌≡◌, ◌≢◌, ◌⊎◌, ◌+◌, ◌-◌, ◌^◌, ◌<◌, ◌≤◌, true, false, length, slice_range, IfSome, IfNone, IfOk, IfErr, IsErrOf, OnSome, OnOk, OnErr};
ghost use Rattle.std.specs.Option.{SomeIff};
ghost use Rattle.std.specs.Str.{IsUtf8};
ghost use Rattle.sonic_error.specs.Errors.{error_code, IsErrorAt};
ghost use Rattle.sonic_text.specs.Places.{byte, IsDigit};
ghost use Rattle.sonic_text.specs.declared.kind.Kind.{Kind};
ghost use Rattle.sonic_text.specs.Faults.{IsFault, IsKeyFault};
ghost use Rattle.sonic_text.specs.Literals.{IsLiteral, IsLiteralFault};
ghost use Rattle.sonic_text.specs.Numbers.{IsNumber, IsNumberFault};
ghost use Rattle.sonic_text.specs.Values.{opening, IsValue, ItemsFit};
ghost use Rattle.sonic_parser.specs.Containers.{IsEnd, IsSeparated, IsSeparatorFault};
ghost use Rattle.sonic_parser.specs.Faults.{IsStopFor};
ghost use Rattle.sonic_parser.specs.Honest.{IsHonest};

use crate::container::{AfterItem, first_item, key_end, next_item};
use crate::fault::Fault;
use crate::space::{SpaceBlock, words_from};
use crate::value_span::ValueSpan;
use sonic_error::{Error, ErrorCode};
use sonic_input::Read;
use sonic_text::{Kind, Stop, byte_at, literal_end, number_end};
use std::alloc::Global;
use std::marker::Model;

// What is said of a value of another type than is wanted.
mod mismatch;
// Strings, read as text.
mod strings;
// What is known to be whole, passed without a second look.
mod unchecked;
// Values, passed as they come.
mod values;

/// A parser that reads the values of a text one after the other.
///
/// ```text
/// let mut parser = Parser::new(Read::from(" [1, 2] x"));
/// assert_eq!(rt; parser.skip_one(alloc)?.0, b"[1, 2]");
/// assert_eq!(rt; parser.offset(), 7);
/// assert_eq!(rt; parser.skip_space(), Some(b'x'));
/// ```
#[derive(Drop)]
pub struct Parser<'de> {
    read: Read<'de>,
    lossy: bool,
    // The kinds of the containers that are open while one is skipped: kept, so that each value that
    // is skipped after the first finds the memory there.
    opened: Option<Vec<Kind>>,
    // The white space of the last whole block in which some was passed.
    kept: Option<SpaceBlock>,
}

impl<'de> Model for Parser<'de> {
    ghost use Rattle.sonic_parser.specs.Parsers.{ParserState};

    ghost Value = { ParserState };

    ghost use Rattle.sonic_parser.specs.Internal.Views.{parser_state_of, KeepsSpace};

    ghost view = { parser_state_of };

    ghost invariant = { KeepsSpace };
}

impl<'de> Parser<'de> {
    ghost use Rattle.sonic_parser.specs.Parsers.{moved, value_start, IsSkipped, IsUnskipped, IsStopped, IsFilledContainer, IsOutOfMemory, IsEntered, IsKeyPassed, IsPassed};

    /// A strict parser, which starts at the reader's place.
    pub fn new(read: Read<'de>) -> Parser<'de>
        ensures text { result.text ≡ read.entry.text }
        ensures place { result.place ≡ read.entry.place }
        ensures next_invalid { result.next_invalid ≡ read.entry.next_invalid }
        ensures is_bytes { result.is_bytes ≡ read.entry.is_bytes }
        ensures lossy { result.lossy ≡ false }
    {
        Parser {
            read,
            lossy: false,
            opened: None,
            kept: None,
        }
    }

    /// The same parser, which takes surrogate escapes that aren't in pairs.
    pub fn utf8_lossy(self) -> Parser<'de>
        ensures { result ≡ record self.entry { lossy = true } }
    {
        Parser {
            read: self.read,
            lossy: true,
            opened: self.opened,
            kept: self.kept,
        }
    }

    /// Exchanges the memory in which values are skipped with that of another parser, whose texts may
    /// be others: what one took is used again by the next.
    ///
    /// It begins without any. Nothing is read, and nothing else changes.
    pub fn swap_memory(&mut self, opened: &mut Option<Vec<Kind>>)
        ensures { self.new ≡ self.old }
    {
        std::mem::swap(&mut self.opened, opened);
    }

    /// The cursor, as an index of the text's bytes.
    #[inline]
    pub fn offset(&self) -> usize
        ensures place { result ≡ self.now.place }
        ensures inside { result ≤ length self.now.text }
    {
        self.read.index()
    }

    /// Moves the cursor to a place: the index of a byte, or the text's length.
    ///
    /// What is read next is expected there, whether or not it comes before what was read.
    #[inline]
    pub fn set_offset(&mut self, place: usize)
        requires { place ≤ length self.old.text }
        ensures { self.new ≡ moved self.old place }
    {
        self.read.set_index(place);
    }

    /// The whole text, wherever the cursor is.
    #[inline]
    pub fn text(&self) -> &'de [u8]
        ensures { result.now ≡ self.now.text }
    {
        self.read.as_u8_slice()
    }

    /// The first byte from the cursor on that is no white space, past which the cursor moves, or
    /// `None` where there is none, with the cursor at the end.
    #[inline]
    pub fn skip_space(&mut self) -> Option<u8>
        ensures byte { SomeIff result (value_start self.old < length self.old.text) (byte self.old.text (value_start self.old)) }
        ensures some { OnSome result (self.new ≡ moved self.old (value_start self.old + 1)) }
        ensures none { IfNone result (self.new ≡ moved self.old (length self.old.text)) }
    {
        let byte = self.skip_space_peek()?;
        self.read.eat(1);
        Some(byte)
    }

    /// The same byte as `skip_space` gives, with the cursor on it.
    #[inline]
    pub fn skip_space_peek(&mut self) -> Option<u8>
        ensures byte { SomeIff result (value_start self.old < length self.old.text) (byte self.old.text (value_start self.old)) }
        ensures moved { self.new ≡ moved self.old (value_start self.old) }
        ensures none { IfNone result (self.new.place ≡ length self.old.text) }
    {
        let place = self.value_place();
        self.read.set_index(place);
        self.read.peek()
    }

    // The place where the next value is expected, or the end.
    #[inline]
    fn value_place(&mut self) -> usize
        ensures place { result ≡ value_start self.old }
        ensures within { result ≤ length self.old.text }
        ensures kept { self.new ≡ self.old }
    {
        let text = self.read.as_u8_slice();
        let place = self.read.index();
        // Mostly it is at hand.
        if byte_at(text, place) > b' ' {
            return place;
        }
        words_from(text, place, &mut self.kept)
    }

    /// The error for what was found at the byte before the cursor, or, where the text came as bytes
    /// that aren't UTF-8, the error for that.
    ///
    /// After the `x` of `[x`, `ErrorCode::InvalidJsonValue` has the offset 1.
    pub fn error(&self, reason: ErrorCode) -> Error
        ensures broken { self.now.next_invalid ≢ usize.MAX
            → IsErrorAt result ErrorCode.InvalidUTF8 self.now.text self.now.next_invalid }
        ensures unbroken { self.now.next_invalid ≡ usize.MAX
            → IsErrorAt result reason self.now.text (self.now.place - 1) }
    {
        match self.read.check_utf8_final() {
            Ok(()) => Error::syntax(reason, self.text(), self.offset().saturating_sub(1)),
            Err(error) => error,
        }
    }

    // Moves to a place.
    pub(crate) fn move_to(&mut self, place: usize)
        requires { place ≤ length self.old.text }
        ensures { self.new ≡ moved self.old place }
    {
        self.read.set_index(place);
    }

    // Moves past what is from one place to another, and gives it.
    fn pass(&mut self, start: usize, end: usize) -> &'de [u8]
        requires order { start ≤ end }
        requires within { end ≤ length self.old.text }
        ensures part { result.now ≡ slice_range self.old.text start end }
        ensures moved { self.new ≡ moved self.old end }
    {
        self.read.set_index(end);
        self.read.slice(start, end)
    }

    // Moves to the place of a stop.
    fn stop(&mut self, stop: Stop) -> Error
        requires { stop.place ≤ length self.old.text }
        ensures error { IsErrorAt result stop.code self.old.text stop.place }
        ensures moved { self.new ≡ moved self.old stop.place }
    {
        self.read.set_index(stop.place);
        Error::syntax(stop.code, self.read.as_u8_slice(), stop.place)
    }

    /// Passes the word that begins at the cursor, or stops at the first letter that is missing or
    /// differs.
    ///
    /// At the start of `null,` the word `null` moves the cursor to the comma. At the start of `nx`
    /// it is `ErrorCode::InvalidLiteral` at 1, and of `nul` it is `ErrorCode::EofWhileParsing`.
    #[tactic(auto, using(crate::proofs::RefusalLemmas::refusals))]
    pub fn parse_literal(&mut self, literal: &str) -> Result<(), Error>
        ensures ok { OnOk result (IsLiteral literal.now self.old.text self.old.place self.new.place) }
        ensures moved { OnOk result (self.new ≡ moved self.old self.new.place) }
        ensures err { IfErr result (λ error.
            IsStopped (IsLiteralFault literal.now self.old.text self.old.place) self.old self.new error) }
    {
        match literal_end(self.read.as_u8_slice(), self.read.index(), literal) {
            Ok(end) => {
                self.read.set_index(end);
                Ok(())
            }
            Err(stop) => Err(self.stop(stop)),
        }
    }

    /// Passes the number whose first byte, `first`, comes before the cursor (RFC 8259, section 6).
    ///
    /// It is the longest number: after the `1` of `1.2.3` it is `1.2`, with the cursor at the
    /// second dot.
    #[tactic(auto, using(crate::proofs::RefusalLemmas::refusals))]
    pub fn skip_number(&mut self, first: u8) -> Result<&'de str, Error>
        requires after { 0 < self.old.place }
        requires first { byte self.old.text (self.old.place - 1) ≡ first }
        requires begins { (first ≡ 45) ⊎ IsDigit first }
        ensures number { OnOk result (IsNumber self.old.text (self.old.place - 1) self.new.place) }
        ensures text { IfOk result (λ number.
            number.now ≡ slice_range self.old.text (self.old.place - 1) self.new.place) }
        ensures moved { OnOk result (self.new ≡ moved self.old self.new.place) }
        ensures err { IfErr result (λ error.
            IsStopped (IsNumberFault self.old.text (self.old.place - 1)) self.old self.new error) }
    {
        let _ = first;
        let text = self.read.as_u8_slice();
        let start = self.read.index() - 1;
        match number_end(text, start) {
            Ok(end) => Ok(number_text(self.pass(start, end))),
            Err(stop) => Err(self.stop(stop)),
        }
    }

    /// Enters the container of this kind that begins at the cursor: whether it has an item.
    ///
    /// The cursor moves to the first item, or, where there is none, after the closing bracket: of
    /// `[ 1]` to the `1`, and of `[ ]x` to the `x`.
    #[inline]
    pub fn enter(&mut self, kind: Kind) -> bool
        requires { byte self.old.text self.old.place ≡ opening kind }
        ensures item { result ≡ true → IsEntered kind self.old self.new }
        ensures empty { result ≡ false
            → IsEnd self.old.text kind (self.old.place + 1) self.new.place }
        ensures moved { self.new ≡ moved self.old self.new.place }
    {
        match first_item(self.read.as_u8_slice(), self.read.index(), kind) {
            AfterItem::Item(first) => {
                self.read.set_index(first);
                true
            }
            AfterItem::End(end) => {
                self.read.set_index(end);
                false
            }
        }
    }

    /// Goes on after an item of a container of this kind, whose value ended at the cursor: whether
    /// another item follows.
    ///
    /// The cursor moves past the comma and the white space after it to the next item, or after
    /// the closing bracket. After an error it is where it was.
    #[inline]
    pub fn next_item(&mut self, kind: Kind) -> Result<bool, Stop>
        ensures item { IfOk result (λ more. more ≡ true
            → IsSeparated self.old.text self.old.place self.new.place) }
        ensures end { IfOk result (λ more. more ≡ false
            → IsEnd self.old.text kind self.old.place self.new.place) }
        ensures moved { self.new ≡ moved self.old self.new.place }
        ensures fits { OnOk result (self.new.place < 2 ^ 64) }
        ensures err { IfErr result (λ s. IsSeparatorFault self.old.text kind self.old.place s) }
        ensures within { IfErr result (λ s. s.place ≤ length self.old.text) }
        ensures kept { OnErr result (self.new ≡ self.old) }
    {
        match next_item(self.read.as_u8_slice(), self.read.index(), kind)? {
            AfterItem::Item(next) => {
                self.read.set_index(next);
                Ok(true)
            }
            AfterItem::End(end) => {
                self.read.set_index(end);
                Ok(false)
            }
        }
    }

    /// Passes the key that begins at the cursor, its colon and the white space round that, and
    /// gives where the key is.
    ///
    /// Of `"a" : 1` the key is from 0 to 3, and the cursor moves to the `1`. After an error it is
    /// where it was.
    #[inline]
    pub fn key(&mut self) -> Result<ValueSpan, Stop>
        ensures ok { IfOk result (IsKeyPassed self.old self.new) }
        ensures moved { self.new ≡ moved self.old self.new.place }
        ensures err { IfErr result (λ s.
            IsKeyFault self.old.lossy self.old.text self.old.place s) }
        ensures within { IfErr result (λ s. s.place ≤ length self.old.text) }
        ensures kept { OnErr result (self.new ≡ self.old) }
    {
        let start = self.read.index();
        let (string, value) = key_end(self.read.as_u8_slice(), start, self.lossy)?;
        self.read.set_index(value);
        Ok(ValueSpan::of_string(start, string))
    }
}

// The text of a number.
fn number_text(bytes: &[u8]) -> &str
    requires { IsUtf8 bytes.now }
    ensures { result.now ≡ bytes.now }
{
    // SAFETY: the bytes are UTF-8.
    unsafe { std::str::from_utf8_unchecked(bytes) }
}
