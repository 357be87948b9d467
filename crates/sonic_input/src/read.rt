// The cursor that a parser reads an input with.
ghost use Rattle.std.specs.Prelude.{◌≡◌, ◌≢◌, ◌+◌, ◌-◌, ◌<◌, ◌≤◌, ◌↔◌, ℕ, true, false, length, slice_index, slice_range, IsOk, IsSome, IfSome, IfNone, OnSome, IfErr};
ghost use Rattle.std.specs.Option.{SomeIff};
ghost use Rattle.std.specs.Str.{IsUtf8};
ghost use Rattle.sonic_error.specs.Errors.{IsErrorAt};
ghost use Rattle.sonic_input.specs.ReadStates.{IsNextInvalid, no_invalid};

use crate::input::JsonInput;
use crate::slice::JsonSlice;
use sonic_error::{Error, ErrorCode, Result};
use std::marker::Model;

/// A cursor over an input, which knows the first place where its UTF-8 is broken.
///
/// The cursor is an index of the input's bytes, from 0 to their number. That place is an index
/// too, or `usize::MAX` where nothing is broken. Inputs that are text already are never looked
/// at for it, and a reader of [`Read::unscanned`] has none until it is looked for.
///
/// ```text
/// let mut read = Read::from("[1]");
/// assert_eq!(rt; read.next(), Some(b'['));
/// assert_eq!(rt; read.peek(), Some(b'1'));
/// assert_eq!(rt; read.index(), 1);
/// assert_eq!(rt; read.remain(), 2);
/// ```
#[derive(Drop)]
pub struct Read<'de> {
    input: JsonSlice<'de>,
    text: &'de [u8],
    index: usize,
    next_invalid_utf8: usize,
    // Whether the bytes were looked at for it, or nothing can be broken.
    is_scanned: bool,
    need_utf8_valid: bool,
}

impl<'de> Model for Read<'de> {
    ghost use Rattle.sonic_input.specs.ReadStates.{ReadState};

    ghost Value = { ReadState };

    ghost use Rattle.sonic_input.specs.Internal.Reads.{read_state_of, IsSoundRead};

    ghost view = { read_state_of };

    ghost invariant = { IsSoundRead };
}

// The first place from `place` on where the UTF-8 of the bytes from there is broken.
fn first_broken(text: &[u8], place: usize) -> usize
    requires { place ≤ length text.now }
    ensures next_invalid { IsNextInvalid true text.now place result }
    ensures bound { result ≢ no_invalid → result ≤ length text.now }
{
    match simdutf8::compat::from_utf8(&text[place..]) {
        Ok(_) => usize::MAX,
        Err(error) => place + error.valid_up_to(),
    }
}

impl<'de> Read<'de> {
    ghost use Rattle.sonic_input.specs.Slices.{slice_bytes, is_shared};

    /// A cursor at the first byte of the input, whose bytes are looked at.
    ///
    /// Bytes are read once for the first broken place: of the bytes 0x22 0xFF 0x22 it is 1.
    pub fn from<I: JsonInput<'de>>(input: I) -> Read<'de>
        ensures text { result.text ≡ I.JsonInput.content input }
        ensures place { result.place ≡ 0 }
        ensures is_bytes { result.is_bytes ≡ I.JsonInput.is_bytes }
        ensures is_shared { result.is_shared ≡ I.JsonInput.shares }
        ensures next_invalid { IsNextInvalid result.is_bytes result.text 0 result.next_invalid }
        ensures is_scanned { result.is_scanned ≡ true }
    {
        let need_utf8_valid = input.need_utf8_valid();
        let text = input.to_u8_slice();
        Read {
            input: input.to_json_slice(),
            text,
            index: 0,
            next_invalid_utf8: if need_utf8_valid {
                first_broken(text, 0)
            } else {
                usize::MAX
            },
            is_scanned: true,
            need_utf8_valid,
        }
    }

    /// A cursor at the first byte of a slice that is known to be UTF-8.
    ///
    /// The slice counts as text, whatever input it is a part of, so nothing in it is broken.
    pub fn of_slice(slice: JsonSlice<'de>) -> Read<'de>
        requires { IsUtf8 (slice_bytes slice) }
        ensures text { result.text ≡ slice_bytes slice.entry }
        ensures place { result.place ≡ 0 }
        ensures is_bytes { result.is_bytes ≡ false }
        ensures is_shared { result.is_shared ≡ is_shared slice.entry }
        ensures next_invalid { result.next_invalid ≡ usize.MAX }
        ensures is_scanned { result.is_scanned ≡ true }
    {
        Read {
            input: slice,
            text: slice.bytes(),
            index: 0,
            next_invalid_utf8: usize::MAX,
            is_scanned: true,
            need_utf8_valid: false,
        }
    }

    /// A cursor at the first byte of a slice whose bytes aren't looked at.
    ///
    /// The slice counts as bytes that may be no UTF-8, and no broken place is known until
    /// `check_invalid_utf8` looks for one: till then `next_invalid_utf8` and `check_utf8_final`
    /// say nothing of the bytes. So what isn't read isn't looked at either.
    pub fn unscanned(slice: JsonSlice<'de>) -> Read<'de>
        ensures text { result.text ≡ slice_bytes slice.entry }
        ensures place { result.place ≡ 0 }
        ensures is_bytes { result.is_bytes ≡ true }
        ensures is_shared { result.is_shared ≡ is_shared slice.entry }
        ensures next_invalid { result.next_invalid ≡ usize.MAX }
        ensures is_scanned { result.is_scanned ≡ false }
    {
        Read {
            input: slice,
            text: slice.bytes(),
            index: 0,
            next_invalid_utf8: usize::MAX,
            is_scanned: false,
            need_utf8_valid: true,
        }
    }

    /// How many bytes are left from the cursor on.
    ///
    /// After the first byte of `[1]` it is 2.
    #[inline]
    pub fn remain(&self) -> usize
        ensures { result ≡ length self.now.text - self.now.place }
    {
        self.text.len() - self.index
    }

    /// The cursor, as an index of the input's bytes.
    ///
    /// At the end it is their number: 3 after the last byte of `[1]`.
    #[inline]
    pub fn index(&self) -> usize
        ensures place { result ≡ self.now.place }
        ensures inside { result ≤ length self.now.text }
    {
        self.index
    }

    /// Moves the cursor `n` bytes on, without a look at them.
    ///
    /// Of `Read::from("[1]")` the byte at the cursor is `]` after `eat(2)`.
    #[inline]
    pub fn eat(&mut self, n: usize)
        requires { n ≤ length self.old.text - self.old.place }
        ensures { self.new ≡ record self.old { place = self.old.place + n } }
    {
        self.index += n;
    }

    /// Moves the cursor `n` bytes back.
    ///
    /// With the cursor at 2 it is at 0 after `backward(2)`.
    #[inline]
    pub fn backward(&mut self, n: usize)
        requires { n ≤ self.old.place }
        ensures { self.new ≡ record self.old { place = self.old.place - n } }
    {
        self.index -= n;
    }

    /// Moves the cursor to the byte with this index, or to the end.
    ///
    /// Of `Read::from("[1]")` the byte at the cursor is `1` after `set_index(1)`, and there is
    /// none after `set_index(3)`.
    #[inline]
    pub fn set_index(&mut self, index: usize)
        requires { index ≤ length self.old.text }
        ensures { self.new ≡ record self.old { place = index } }
    {
        self.index = index;
    }

    /// The byte at the cursor, or `None` at the end.
    ///
    /// Of `Read::from("[1]")` it is `Some(b'[')`.
    #[inline]
    pub fn peek(&self) -> Option<u8>
        ensures { SomeIff result (self.now.place < length self.now.text)
            (slice_index self.now.text self.now.place) }
    {
        if self.index < self.text.len() {
            Some(self.text[self.index])
        } else {
            None
        }
    }

    /// The byte at the cursor, which moves past it, or `None` at the end.
    ///
    /// Two calls on `Read::from("[")` give `Some(b'[')` and `None`.
    #[inline]
    pub fn next(&mut self) -> Option<u8>
        ensures byte { SomeIff result (self.old.place < length self.old.text)
            (slice_index self.old.text self.old.place) }
        ensures some { OnSome result (self.new ≡ record self.old { place = self.old.place + 1 }) }
        ensures none { IfNone result (self.new ≡ self.old) }
    {
        if self.index < self.text.len() {
            let byte = self.text[self.index];
            self.index += 1;
            Some(byte)
        } else {
            None
        }
    }

    /// The next `n` bytes, or `None` where fewer are left.
    ///
    /// Of `Read::from("[1]")` the next 2 are `b"[1"`.
    pub fn peek_n(&self, n: usize) -> Option<&'de [u8]>
        ensures variant { IsSome result ↔ (self.now.place + n ≤ length self.now.text) }
        ensures bytes { IfSome result (λ bytes.
            bytes.now ≡ slice_range self.now.text self.now.place (self.now.place + n)) }
    {
        if n <= self.text.len() - self.index {
            Some(&self.text[self.index..self.index + n])
        } else {
            None
        }
    }

    /// The next `n` bytes, past which the cursor moves, or `None` where fewer are left.
    ///
    /// Of `Read::from("[1]")` the next 2 are `b"[1"`, and then only `]` is left.
    pub fn next_n(&mut self, n: usize) -> Option<&'de [u8]>
        ensures variant { IsSome result ↔ (self.old.place + n ≤ length self.old.text) }
        ensures bytes { IfSome result (λ bytes.
            bytes.now ≡ slice_range self.old.text self.old.place (self.old.place + n)) }
        ensures some { OnSome result (self.new ≡ record self.old { place = self.old.place + n }) }
        ensures none { IfNone result (self.new ≡ self.old) }
    {
        let bytes = self.peek_n(n)?;
        self.index += n;
        Some(bytes)
    }

    /// The byte with this index, wherever the cursor is.
    ///
    /// Of `Read::from("[1]")` the byte at 2 is `b']'`.
    #[inline]
    pub fn at(&self, index: usize) -> u8
        requires { index < length self.now.text }
        ensures { result ≡ slice_index self.now.text index }
    {
        self.text[index]
    }

    /// The bytes from the one with index `start` to the one before `end`.
    ///
    /// Of `Read::from("[12]")` those from 1 to 3 are `b"12"`.
    pub fn slice(&self, start: usize, end: usize) -> &'de [u8]
        requires order { start ≤ end }
        requires inside { end ≤ length self.now.text }
        ensures { result.now ≡ slice_range self.now.text start end }
    {
        &self.text[start..end]
    }

    /// The same part as a slice of the input, whose text may share the input's bytes.
    ///
    /// Of `Read::from("[12]")` the part from 1 to 3 is `JsonSlice::Raw(b"12")`.
    pub fn slice_ref(&self, start: usize, end: usize) -> JsonSlice<'de>
        requires order { start ≤ end }
        requires inside { end ≤ length self.now.text }
        ensures bytes { slice_bytes result ≡ slice_range self.now.text start end }
        ensures variant { is_shared result ≡ self.now.is_shared }
    {
        self.input.part(start, end)
    }

    /// The whole input, wherever the cursor is.
    ///
    /// Of `Read::from("[1]")` it is `b"[1]"`.
    #[inline]
    pub fn as_u8_slice(&self) -> &'de [u8]
        ensures text { result.now ≡ self.now.text }
        ensures utf8 { self.now.is_bytes ≡ false → IsUtf8 result.now }
    {
        self.text
    }

    /// Whether the input came as bytes, which may not be UTF-8.
    ///
    /// It is so for `Read::from(bytes)` with a `&[u8]` or a `&Bytes`, and never of a text.
    pub fn need_utf8_valid(&self) -> bool
        ensures { result ≡ self.now.is_bytes }
    {
        self.need_utf8_valid
    }

    /// The first place where the UTF-8 is broken, or `usize::MAX`.
    ///
    /// Of the bytes 0x22 0xFF 0x22 it is 1. An unscanned reader has `usize::MAX` too.
    pub fn next_invalid_utf8(&self) -> usize
        ensures next_invalid { result ≡ self.now.next_invalid }
        ensures scanned { self.now.is_scanned ≡ true
            → (from : ℕ) × IsNextInvalid self.now.is_bytes self.now.text from result }
        ensures unscanned { self.now.is_scanned ≡ false
            → (self.now.is_bytes ≡ true) × (result ≡ usize.MAX) }
        ensures inside { result ≢ usize.MAX → result ≤ length self.now.text }
    {
        self.next_invalid_utf8
    }

    /// The error `ErrorCode::InvalidUTF8` at the first broken place, if there is one.
    ///
    /// For the bytes 0x22 0xFF 0x22 it is an error in line 1, column 2.
    pub fn check_utf8_final(&self) -> Result<()>
        ensures variant { IsOk result ↔ (self.now.next_invalid ≡ usize.MAX) }
        ensures err { IfErr result (λ error.
            IsErrorAt error ErrorCode.InvalidUTF8 self.now.text self.now.next_invalid) }
    {
        if self.next_invalid_utf8 == usize::MAX {
            return Ok(());
        }
        Err(Error::syntax(ErrorCode::InvalidUTF8, self.text, self.next_invalid_utf8))
    }

    /// Looks for the first place where the bytes from the cursor on are broken.
    ///
    /// So a caller passes a broken place that doesn't matter: with the cursor after it, the next
    /// one is found. Of text there is none, and nothing is looked at.
    pub fn check_invalid_utf8(&mut self)
        ensures kept { self.new ≡ record self.old { next_invalid = self.new.next_invalid; is_scanned = true } }
        ensures bytes { self.old.is_bytes ≡ true
            → IsNextInvalid true self.old.text self.old.place self.new.next_invalid }
        ensures text { self.old.is_bytes ≡ false → self.new ≡ self.old }
    {
        if self.need_utf8_valid {
            self.next_invalid_utf8 = first_broken(self.text, self.index);
            self.is_scanned = true;
        }
    }
}
