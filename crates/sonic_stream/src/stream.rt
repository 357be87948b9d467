// A reader of a stream of records, and what is next in one.
ghost use Rattle.std.specs.Prelude.{◌≡◌, ◌≢◌, ℕ, ◌≤◌, ◌<◌, [], ◌++◌, false, true, length, IfSome, IfNone, IfOk, IfErr, OnOk, OnErr, IsTrue, IsFalse};
ghost use Rattle.sonic_text.specs.Faults.{IsFault};
ghost use Rattle.sonic_text.specs.Strings.{strict};
ghost use Rattle.sonic_text.specs.Values.{IsValue};
ghost use Rattle.sonic_parser.specs.Honest.{MayGoOnFrom};
ghost use Rattle.sonic_parser.specs.Parsers.{IsFilledContainer};
ghost use Rattle.sonic_stream.specs.Streams.{IsLineFeed, IsSettled, NoLineFeed};

use memchr::memchr;
use sonic_error::ErrorCode;
use sonic_input::{JsonSlice, Read};
use sonic_parser::Parser;
use sonic_text::{Stop, is_whitespace};
use std::alloc::{AllocError, Global};
use std::marker::Model;

/// What is next in a stream of records, as [`RecordStream::next`] answers it. All places are counted in
/// bytes, from 0.
///
/// Of the piece `1 -` that is `Record { start: 0, end: 1 }` and then `NeedsMore`; after `finish` it is
/// `Cut` and then `End`.
#[derive(Clone, Copy, Debug, PartialEq, Eq)]
pub enum NextRecord {
    /// A whole record: the bytes of `held` from `start` to `end`.
    Record { start: usize, end: usize },
    /// Bytes are missing: what is held is no record yet, but may become one.
    NeedsMore,
    /// A record that no more bytes make whole, which was dropped with the rest of its line: the place of
    /// the fault in the whole stream, and what is wrong there.
    Wrong { place: usize, code: ErrorCode },
    /// The stream ended inside a record, which was dropped.
    Cut,
    /// The stream ended, and nothing is left of it.
    End,
}

/// A reader of a stream of records that comes in pieces, as a log that is still being written.
///
/// A record is a value (RFC 8259, section 3). A number or a literal ends by the white space after it, or
/// by the stream's end, and each other value by its last byte. So of the pieces `[1` and `2] 3` the first
/// needs more, and then `[12]` is a record; the `3` may still become `34`, up to `finish`.
///
/// A record that is cut keeps its bytes, and is read again from its start once there are more. One that is
/// wrong takes the rest of its line with it: of `] [1]`, a line feed and `2` the one record is `2`. A
/// record's bytes may be no UTF-8, which `get` of `sonic_lazy` looks for.
#[derive(Drop)]
pub struct RecordStream {
    held: Vec<u8>,
    // Where the next record begins in them.
    next: usize,
    // How many bytes of the stream came before them.
    before: usize,
    // The rest of a wrong record's line is still to come.
    is_skipping: bool,
    is_ended: bool,
}

impl Model for RecordStream {
    ghost use Rattle.sonic_stream.specs.Streams.{Stream};

    ghost Value = { Stream };

    ghost use Rattle.sonic_stream.specs.Internal.Counts.{IsCounted};
    ghost use Rattle.sonic_stream.specs.Internal.StreamViews.{stream_of};

    ghost view = { stream_of };

    ghost invariant = { IsCounted };
}

// The first line feed from a place on.
fn line_feed(text: &[u8], from: usize) -> Option<usize>
    requires { from ≤ length text.now }
    ensures some { IfSome result (λ e. IsLineFeed text.now from e) }
    ensures none { IfNone result (NoLineFeed text.now from (length text.now)) }
{
    match memchr(b'\n', &text[from..]) {
        Some(n) => Some(from + n),
        None => None,
    }
}

// The bytes of both, one after the other.
fn joined(alloc: Global, first: &[u8], second: &[u8]) -> Result<Vec<u8>, AllocError>
    ensures { IfOk result (λ bytes. bytes.items ≡ first.now ++ second.now) }
{
    let mut bytes = Vec::new(alloc);
    bytes.extend_from_slice(first)?;
    bytes.extend_from_slice(second)?;
    Ok(bytes)
}

// Whether the value from one place to another ends there whatever comes.
fn is_settled(text: &[u8], is_ended: bool, start: usize, end: usize) -> bool
    requires value { IsValue strict text.now start end }
    ensures yes { IsTrue result → IsSettled text.now is_ended start end }
    ensures no { IsFalse result → ¬ IsSettled text.now is_ended start end }
{
    match text[start] {
        b'"' | b'[' | b'{' => true,
        _ if end == text.len() => is_ended,
        _ => is_whitespace(text[end]),
    }
}

impl RecordStream {
    ghost use Rattle.sonic_stream.specs.Streams.{start_of, IsAdded, IsNextRecord, IsNeverOne, IsPastLine, IsWrong};

    /// A stream of which nothing came yet. It takes no memory.
    ///
    /// What is next in it is `NeedsMore`, and after `finish` it is `End`.
    pub fn new(alloc: Global) -> RecordStream
        ensures { result ≡ record { held = []; next = 0; before = 0; is_skipping = false; is_ended = false } }
    {
        RecordStream {
            held: Vec::new(alloc),
            next: 0,
            before: 0,
            is_skipping: false,
            is_ended: false,
        }
    }

    /// The bytes that are held, up to the next `add`. `NextRecord::Record` says which of them are a record.
    ///
    /// After the pieces `[1` and `2] 3` they are `[12] 3`, and the first record is the bytes from 0 to 4.
    pub fn held(&self) -> &[u8]
        ensures { result.now ≡ self.now.held }
    {
        &self.held
    }

    /// How many bytes of the stream came before those that are held: a record's place in the stream is as
    /// many more than its `start`.
    ///
    /// Of the piece `1 [` the record `1` is given, and then `2]` comes: 1 byte came before ` [2]`, and the
    /// record `[2]` is at 1 in these, so at 2 in the stream.
    pub fn before(&self) -> usize
        ensures { result ≡ self.now.before }
    {
        self.before
    }

    /// No more pieces come: what is cut now stays cut. If one comes after all, the stream goes on.
    ///
    /// Of the piece `12` alone `NeedsMore` is next, as a digit may follow, and after this the record `12`.
    pub fn finish(&mut self)
        ensures { self.new ≡ record self.old { is_ended = true } }
    {
        self.is_ended = true;
    }

    // Drops the rest of the line from a place on.
    fn pass_line(&mut self, from: usize)
        requires { from ≤ length self.old.held }
        ensures { IsPastLine self.old from self.new }
    {
        match line_feed(&self.held, from) {
            Some(end) => {
                self.next = end + 1;
                self.is_skipping = false;
            }
            None => {
                self.next = self.held.len();
                self.is_skipping = true;
            }
        }
    }

    /// Takes a piece of the stream, after what is left of those before: what was given or dropped is held
    /// no longer. A piece may end anywhere, as `{"a"` does before `: 1}`.
    ///
    /// On an error nothing has changed: memory ran out, or the stream has more bytes than a `usize` counts.
    pub fn add(&mut self, alloc: Global, piece: &[u8]) -> Result<(), AllocError>
        ensures ok { OnOk result (IsAdded self.old piece.now self.new) }
        ensures err { OnErr result (self.new ≡ self.old) }
    {
        let Some(_) = (self.before + self.held.len()).checked_add(piece.len()) else {
            return Err(AllocError);
        };
        let held = joined(alloc, &self.held[self.next..], piece)?;
        self.before += self.next;
        self.next = 0;
        self.held = held;
        self.is_ended = false;
        if self.is_skipping {
            self.pass_line(0);
        }
        Ok(())
    }

    // A parser of what is held, at the next record.
    fn parser(&self) -> Parser<'_>
        ensures text { result.text ≡ self.now.held }
        ensures place { result.place ≡ self.now.next }
        ensures strict { result.lossy ≡ strict }
    {
        let mut read = Read::unscanned(JsonSlice::Raw(&self.held));
        read.set_index(self.next);
        Parser::new(read)
    }

    // Whether nothing but white space is left.
    fn is_over(&self) -> bool
        ensures yes { IsTrue result → start_of self.now ≡ length self.now.held }
        ensures no { IsFalse result → start_of self.now < length self.now.held }
    {
        self.parser().skip_space_peek().is_none()
    }

    // What is next where the value that is expected is whole.
    fn whole(&mut self, start: usize, end: usize) -> NextRecord
        requires start { start ≡ start_of self.old }
        requires value { IsValue strict self.old.held start end }
        ensures { IsNextRecord self.old self.new result }
    {
        if is_settled(self.held(), self.is_ended, start, end) {
            self.next = end;
            NextRecord::Record { start, end }
        } else if end == self.held().len() {
            NextRecord::NeedsMore
        } else {
            self.wrong(Stop {
                place: end,
                code: ErrorCode::TrailingCharacters,
            })
        }
    }

    // What is next where the value that is expected is cut.
    fn cut(&mut self) -> NextRecord
        requires none { (j : ℕ) → ¬ IsValue strict self.old.held (start_of self.old) j }
        requires goes_on { MayGoOnFrom strict self.old.held self.old.next }
        ensures { IsNextRecord self.old self.new result }
    {
        if !self.is_ended {
            return NextRecord::NeedsMore;
        }
        if self.is_over() {
            return NextRecord::End;
        }
        self.next = self.held().len();
        NextRecord::Cut
    }

    // What is next where no bytes make the value that is expected whole.
    fn wrong(&mut self, stop: Stop) -> NextRecord
        requires within { stop.place < length self.old.held }
        requires wrong { IsWrong self.old stop }
        requires never { IsNeverOne self.old stop }
        ensures { IsNextRecord self.old self.new result }
    {
        let place = self.before + stop.place;
        self.pass_line(stop.place);
        NextRecord::Wrong {
            place,
            code: stop.code,
        }
    }

    // The value that is expected: where it begins and ends, or what is wrong with it and where.
    fn find_record(&self, alloc: Global) -> Result<(usize, usize), Stop>
        ensures start { IfOk result (λ found. found.0 ≡ start_of self.now) }
        ensures value { IfOk result (λ found. IsValue strict self.now.held found.0 found.1) }
        ensures none { IfErr result (λ stop. stop.code ≢ ErrorCode.NoMemory
            → (j : ℕ) → ¬ IsValue strict self.now.held (start_of self.now) j) }
        ensures honest { IfErr result (λ stop. stop.code ≡ ErrorCode.EofWhileParsing
            → MayGoOnFrom strict self.now.held self.now.next) }
        ensures fault { IfErr result (λ stop. stop.code ≢ ErrorCode.EofWhileParsing
            → stop.code ≢ ErrorCode.NoMemory
            → IsFault strict self.now.held (start_of self.now) stop) }
        ensures memory { IfErr result (λ stop. stop.code ≡ ErrorCode.NoMemory
            → IsFilledContainer self.now.held (start_of self.now)) }
    {
        let mut parser = self.parser();
        match parser.skip_one(alloc) {
            Ok((record, _)) => {
                let end = parser.offset();
                Ok((end - record.len(), end))
            }
            Err(error) => Err(Stop {
                place: error.offset(),
                code: error.code(),
            }),
        }
    }

    /// The next record, or why there is none. Of `[1] 2` it is `[1]`, from 0 to 3, and then `NeedsMore`.
    ///
    /// What is dropped as `Wrong` would be no record however the stream went on. On an error memory ran
    /// out, and nothing has changed. Only a record that is an array or an object with items takes memory.
    pub fn next(&mut self, alloc: Global) -> Result<NextRecord, AllocError>
        ensures ok { IfOk result (IsNextRecord self.old self.new) }
        ensures err { OnErr result (self.new ≡ self.old) }
        ensures memory { OnErr result (IsFilledContainer self.old.held (start_of self.old)) }
    {
        match self.find_record(alloc) {
            Ok((start, end)) => Ok(self.whole(start, end)),
            Err(stop) => match stop.code {
                ErrorCode::NoMemory => Err(AllocError),
                ErrorCode::EofWhileParsing => Ok(self.cut()),
                _ => Ok(self.wrong(stop)),
            },
        }
    }
}
