// The cursor of a walk through a text.
ghost use Rattle.std.specs.Prelude.{◌≡◌, ◌≢◌, ◌+◌, ◌<◌, ◌≤◌, ◌^◌, true, false, length, take, IfOk, IfErr, IfSome, IfNone, IsErrOf, OnOk, is_some, IsTrue, IsFalse};
ghost use Rattle.std.specs.Option.{IsSomeAnd};
ghost use Rattle.std.specs.Str.{IsUtf8};
ghost use Rattle.sonic_error.specs.declared.code.ErrorCode.TheVariants.{InvalidUTF8};
ghost use Rattle.sonic_error.specs.Texts.{valid_up_to};
ghost use Rattle.sonic_text.specs.Places.{byte, after_space};
ghost use Rattle.sonic_text.specs.Strings.{strict};
ghost use Rattle.sonic_text.specs.Values.{opening, IsValue, ItemsFit};
ghost use Rattle.sonic_text.specs.Faults.{IsFault, IsKeyFault};
ghost use Rattle.sonic_parser.specs.Containers.{IsEnd, IsSeparated, IsSeparatorFault};
ghost use Rattle.sonic_parser.specs.Faults.{IsStopFor};
ghost use Rattle.sonic_parser.specs.Parsers.{IsFilledContainer};
ghost use Rattle.sonic_parser.specs.ValueSpans.{FlagsEscape, IsKeyAt};
ghost use Rattle.sonic_find.specs.Cursors.{IsAfterItem, IsAtKey, IsSkippable};
ghost use Rattle.sonic_find.specs.Internal.Walk.{IsNoEntry, IsPassedDead, IsUnopened};
ghost use Rattle.sonic_find.specs.Paths.{empty_code, wanted_of};

use crate::utf8::check_from;
use sonic_error::{ErrorCode, Note, Wanted};
use sonic_input::Read;
use sonic_parser::{Fault, Parser, ValueSpan};
use sonic_text::{Kind, Stop, byte_at, skip_space, type_of};
use std::alloc::Global;
use std::marker::Model;

// After so many bytes the UTF-8 of a piece is looked at, while a cache still has it.
const PIECE: usize = 1 << 16;

/// A parser at the place that a walk has come to, by which the crates above go through a text as
/// paths do.
///
/// It looks at what it skips, or takes each value for whole, and skips it without memory. A clause
/// sees the text, the place, and whether it looks.
#[derive(Drop)]
pub struct Cursor<'de> {
    parser: Parser<'de>,
    // Where the memory comes from for looking at what is skipped.
    memory: Option<Global>,
    // How many bytes of the text were looked at, and are UTF-8.
    utf8: usize,
    // The place where the next piece ends, or `usize::MAX` where none is looked at.
    look_at: usize,
}

// A value in which no node of a kind leads on, and where and why each that asks for the kind fails.
#[derive(Clone, Copy)]
pub(crate) struct Dead {
    pub(crate) value: ValueSpan,
    pub(crate) stop: Stop,
}

impl<'de> Model for Cursor<'de> {
    ghost use Rattle.sonic_find.specs.Cursors.{CursorState};

    ghost Value = { CursorState };

    ghost use Rattle.sonic_find.specs.Internal.CursorViews.{cursor_state_of, IsCursor};

    ghost view = { cursor_state_of };

    ghost invariant = { IsCursor };
}

impl<'de> Cursor<'de> {
    /// A cursor that looks at what it skips, from the reader's place on, after white space.
    pub fn checked(alloc: Global, read: Read<'de>) -> Cursor<'de>
        ensures { result ≡ record {
          text = read.entry.text;
          place = after_space read.entry.text read.entry.place;
          checks = true;
        } }
    {
        Cursor::new(read, Some(alloc), false)
    }

    /// A cursor that takes each value for whole, from the reader's place on, after white space.
    pub fn unchecked(read: Read<'de>) -> Cursor<'de>
        ensures { result ≡ record {
          text = read.entry.text;
          place = after_space read.entry.text read.entry.place;
          checks = false;
        } }
    {
        Cursor::new(read, None, false)
    }

    // The same, with memory or without. Where `check_utf8` is asked at the end, what is passed is
    // looked at `in_pieces`, up to the first that is broken.
    //
    // White space is passed before there is a parser, as one that was used would have to be copied.
    pub(crate) fn new(read: Read<'de>, memory: Option<Global>, in_pieces: bool) -> Cursor<'de>
        ensures { result ≡ record {
          text = read.entry.text;
          place = after_space read.entry.text read.entry.place;
          checks = is_some memory;
        } }
    {
        let mut read = read;
        read.set_index(skip_space(read.as_u8_slice(), read.index()));
        let parser = Parser::new(read);
        let look_at = if in_pieces { PIECE } else { usize::MAX };
        Cursor {
            parser,
            memory,
            utf8: 0,
            look_at,
        }
    }

    // Exchanges the memory in which values are skipped with that of another walk.
    pub(crate) fn swap_memory(&mut self, opened: &mut Option<Vec<Kind>>)
        ensures { self.new ≡ self.old }
    {
        self.parser.swap_memory(opened);
    }

    /// The place that the cursor has come to: the index of a byte.
    pub fn place(&self) -> usize
        ensures place { result ≡ self.now.place }
        ensures inside { result ≤ length self.now.text }
    {
        self.parser.offset()
    }

    /// Moves the cursor to a place: the index of a byte, or the text's length.
    pub fn set_place(&mut self, place: usize)
        requires { place ≤ length self.old.text }
        ensures { self.new ≡ record self.old { place = place } }
    {
        self.parser.set_offset(place);
    }

    /// The whole text.
    pub fn text(&self) -> &'de [u8]
        ensures { result.now ≡ self.now.text }
    {
        self.parser.text()
    }

    /// Skips the value at the cursor, and gives where it is. Memory runs out only at a container that
    /// has items.
    #[inline(always)]
    pub fn skip(&mut self) -> Result<ValueSpan, Fault>
        requires { IsSkippable self.old }
        ensures value { OnOk result (IsValue strict self.old.text self.old.place self.new.place) }
        ensures span { IfOk result (λ value. (value.start ≡ self.old.place) × (value.end ≡ self.new.place)) }
        ensures escaped { IfOk result (FlagsEscape self.old.text) }
        ensures moved { self.new ≡ record self.old { place = self.new.place } }
        ensures err { IfErr result (IsStopFor (λ s. IsFault strict self.old.text self.old.place s)) }
        ensures memory { IsErrOf result Fault.OutOfMemory → IsTrue self.old.checks }
        ensures filled { IsErrOf result Fault.OutOfMemory
            → IsFilledContainer self.old.text self.old.place }
    {
        let skipped = match self.memory {
            Some(alloc) => self.parser.skip_value(alloc),
            None => Ok(self.parser.skip_value_unchecked()),
        };
        let place = self.parser.offset();
        if place >= self.look_at && self.check_utf8(place).is_err() {
            self.look_at = usize::MAX;
        }
        skipped
    }

    // Whether the text up to `reach` is UTF-8, as `check` says it, without a second look at the pieces
    // that were passed.
    #[inline(never)]
    pub(crate) fn check_utf8(&mut self, reach: usize) -> Result<(), Stop>
        requires { reach ≤ length self.old.text }
        ensures ok { OnOk result (IsUtf8 (take reach self.old.text)) }
        ensures err { IfErr result (λ s. (IsUtf8 (take reach self.old.text) → ⊥)
            × (s ≡ record { place = valid_up_to (take reach self.old.text); code = InvalidUTF8 })
            × (s.place ≤ length self.old.text)) }
        ensures moved { self.new ≡ self.old }
    {
        let known = if self.utf8 <= reach { self.utf8 } else { 0 };
        check_from(self.parser.text(), known, reach)?;
        self.utf8 = reach;
        self.look_at = reach.saturating_add(PIECE);
        Ok(())
    }

    // Enters the container of this kind at the cursor, up to its first item, or says why there is none.
    #[inline(always)]
    pub(crate) fn enter_or_explain(&mut self, kind: Kind) -> Result<(), Fault>
        requires { IsSkippable self.old }
        ensures ok { OnOk result (ItemsFit strict self.old.text kind self.old.place 0 self.new.place) }
        ensures moved { self.new ≡ record self.old { place = self.new.place } }
        ensures err { IfErr result (IsStopFor (IsNoEntry self.old.text self.old.place kind)) }
        ensures memory { IsErrOf result Fault.OutOfMemory → IsTrue self.old.checks }
    {
        match self.enter_or_pass(kind)? {
            None => Ok(()),
            Some(dead) => Err(Fault::At(dead.stop)),
        }
    }

    // Enters the container of this kind at the cursor, up to its first item, or passes the value that
    // is no such container, or an empty one.
    #[inline(always)]
    pub(crate) fn enter_or_pass(&mut self, kind: Kind) -> Result<Option<Dead>, Fault>
        requires { IsSkippable self.old }
        ensures entered { IfOk result (λ dead. IfNone dead
            (ItemsFit strict self.old.text kind self.old.place 0 self.new.place)) }
        ensures passed { IfOk result (λ dead. IfSome dead
            (IsPassedDead self.old.text kind self.old.place self.new.place)) }
        ensures moved { self.new ≡ record self.old { place = self.new.place } }
        ensures err { IfErr result (IsStopFor (IsUnopened self.old.text kind self.old.place)) }
        ensures memory { IsErrOf result Fault.OutOfMemory → IsTrue self.old.checks }
    {
        let start = self.parser.offset();
        if byte_at(self.parser.text(), start) != kind.opening() {
            return self.pass_other(kind);
        }
        if self.enter(kind) {
            return Ok(None);
        }
        let end = self.parser.offset();
        let place = end - 1;
        let code = empty_code(kind);
        Ok(Some(Dead {
            value: ValueSpan::plain(start, end),
            stop: Stop { place, code },
        }))
    }

    /// Goes past the bracket of the container of this kind at the cursor: whether an item is expected,
    /// at which the cursor then is, or after the closing bracket.
    #[inline(always)]
    pub fn enter(&mut self, kind: Kind) -> bool
        requires { byte self.old.text self.old.place ≡ opening kind }
        ensures item { IsTrue result
            → ItemsFit strict self.old.text kind self.old.place 0 self.new.place }
        ensures empty { IsFalse result
            → IsEnd self.old.text kind (self.old.place + 1) self.new.place }
        ensures moved { self.new ≡ record self.old { place = self.new.place } }
    {
        self.parser.enter(kind)
    }

    // Passes the value at the cursor, which is no container of this kind.
    fn pass_other(&mut self, kind: Kind) -> Result<Option<Dead>, Fault>
        requires skippable { IsSkippable self.old }
        requires other { byte self.old.text self.old.place ≢ opening kind }
        ensures passed { IfOk result (λ dead. IsSomeAnd dead
            (IsPassedDead self.old.text kind self.old.place self.new.place)) }
        ensures moved { self.new ≡ record self.old { place = self.new.place } }
        ensures err { IfErr result (IsStopFor (IsUnopened self.old.text kind self.old.place)) }
        ensures memory { IsErrOf result Fault.OutOfMemory → IsTrue self.old.checks }
    {
        let found = type_of(byte_at(self.parser.text(), self.parser.offset()));
        let value = self.skip()?;
        let place = self.parser.offset() - 1;
        let wanted = wanted_of(kind);
        let code = ErrorCode::Message(Note::Mismatch { found, wanted });
        Ok(Some(Dead {
            value,
            stop: Stop { place, code },
        }))
    }

    /// Goes on after an item of a container of this kind: whether another one comes.
    #[inline(always)]
    pub fn next_item(&mut self, kind: Kind) -> Result<bool, Stop>
        requires { IsAfterItem kind self.old }
        ensures item { IfOk result (λ more. IsTrue more
            → IsSeparated self.old.text self.old.place self.new.place) }
        ensures end { IfOk result (λ more. IsFalse more
            → IsEnd self.old.text kind self.old.place self.new.place) }
        ensures moved { self.new ≡ record self.old { place = self.new.place } }
        ensures fits { OnOk result (self.new.place < 2 ^ 64) }
        ensures err { IfErr result (λ s. IsSeparatorFault self.old.text kind self.old.place s) }
    {
        match self.memory {
            Some(_) => self.parser.next_item(kind),
            None => Ok(self.parser.next_item_unchecked(kind)),
        }
    }

    /// Passes the key at the cursor, up to the member's value, and gives where the key is.
    #[inline(always)]
    pub fn key(&mut self) -> Result<ValueSpan, Stop>
        requires { IsAtKey self.old }
        ensures ok { IfOk result (λ key. IsKeyAt strict self.old.text self.old.place key self.new.place) }
        ensures moved { self.new ≡ record self.old { place = self.new.place } }
        ensures err { IfErr result (λ s. IsKeyFault strict self.old.text self.old.place s) }
    {
        match self.memory {
            Some(_) => self.parser.key(),
            None => Ok(self.parser.key_unchecked()),
        }
    }
}

// The code for an empty container.
pub(crate) fn empty_code(kind: Kind) -> ErrorCode
    ensures { result ≡ empty_code kind }
{
    match kind {
        Kind::Array => ErrorCode::GetInEmptyArray,
        Kind::Object => ErrorCode::GetInEmptyObject,
    }
}

// What is wanted where a container is.
pub(crate) fn wanted_of(kind: Kind) -> Wanted
    ensures { result ≡ wanted_of kind }
{
    match kind {
        Kind::Array => Wanted::Array,
        Kind::Object => Wanted::Object,
    }
}
