// Strings, read as text.
ghost use Rattle.std.specs.Prelude.{◌≡◌, ◌≢◌, ◌⊎◌, ◌↔◌, ℕ, ◌+◌, ◌-◌, ◌<◌, ◌≤◌, false, List, [], length, None, IfSome, IfOk, IfErr, OnOk, OnErr};
ghost use Rattle.std.specs.Borrow.{sem};
ghost use Rattle.std.specs.Io.BufRead.{Rests};
ghost use Rattle.std.specs.Str.{IsUtf8};
ghost use Rattle.std.specs.Str.Lossy.{utf8_lossy};
ghost use Rattle.sonic_error.specs.Errors.{error_code};
ghost use Rattle.sonic_text.specs.Places.{byte};
ghost use Rattle.sonic_text.specs.Strings.{strict, IsString};
ghost use Rattle.sonic_parser.specs.Parsers.{IsStopped};
ghost use Rattle.sonic_parser.specs.Rows.{bytes_row};
ghost use Rattle.sonic_parser.specs.Internal.StringsAhead.{IsAhead};
ghost use Rattle.sonic_parser.specs.Texts.{reference_text, IsBorrowed, text_of, IsTextThere, IsNextKnown, IsTextRead, IsNoText, IsShortOfText, IsBufferAfter};

use super::Parser;
use crate::reference::Reference;
use sonic_error::{Error, ErrorCode, Result};
use sonic_text::{Stop, string_end, unescape_into};
use std::alloc::AllocError;

// A string whose end is known.
#[derive(Clone, Copy)]
struct StringAhead {
    // The place after its last quote.
    end: usize,
    // Whether its text is all that is between the quotes.
    direct: bool,
}

// The string that begins at a place, if it has a text. Only bytes may be no UTF-8.
fn string_ahead(
    text: &[u8],
    start: usize,
    is_bytes: bool,
    lossy: bool,
) -> std::result::Result<StringAhead, Stop>
    requires quote { byte text.now start ≡ 34 }
    requires utf8 { is_bytes ≡ false → IsUtf8 text.now }
    ensures ok { IfOk result (IsAhead lossy text.now start) }
    ensures err { IfErr result (λ s. IsNoText lossy text.now start s) }
    ensures within { IfErr result (λ s. s.place ≤ length text.now) }
    ensures code { IfErr result (λ s. s.code ≢ ErrorCode.NoMemory) }
{
    let string = match string_end(text, start, lossy) {
        Ok(string) => string,
        Err(stop) => return Err(stop),
    };
    let end = string.end;
    let direct = !string.escaped;
    if !is_bytes {
        return Ok(StringAhead { end, direct });
    }
    match simdutf8::compat::from_utf8(&text[start + 1..end - 1]) {
        Ok(_) => Ok(StringAhead { end, direct }),
        Err(_) if lossy => {
            let direct = false;
            Ok(StringAhead { end, direct })
        }
        Err(error) => {
            let place = start + 1 + error.valid_up_to();
            let code = ErrorCode::InvalidUTF8;
            Err(Stop { place, code })
        }
    }
}

// Writes the text of the string that begins at a place, in the stead of what a buffer holds, which is
// empty where memory runs out.
fn write_text(
    buf: &mut Vec<u8>,
    text: &[u8],
    start: usize,
    string: StringAhead,
    lossy: bool,
) -> std::result::Result<(), AllocError>
    requires { IsAhead lossy text.now start string }
    ensures ok { OnOk result ((b : List ℕ) × IsString lossy text.now start string.end b
        × (buf.new.items ≡ text_of lossy b)) }
    ensures text { OnOk result (IsUtf8 buf.new.items) }
    ensures err { OnErr result (buf.new.items ≡ []) }
{
    buf.clear();
    match unescape_into(buf, text, start, string.end, lossy) {
        Ok(()) if lossy => replace_invalid(buf),
        Ok(()) => Ok(()),
        Err(_) => Err(AllocError),
    }
}

// Puts U+FFFD in the place of each sequence of the bytes that is no UTF-8, and leaves none of them
// where memory runs out.
fn replace_invalid(bytes: &mut Vec<u8>) -> std::result::Result<(), AllocError>
    ensures ok { OnOk result (bytes.new.items ≡ utf8_lossy bytes.old.items) }
    ensures text { OnOk result (IsUtf8 bytes.new.items) }
    ensures err { OnErr result (bytes.new.items ≡ []) }
{
    if let Ok(_) = simdutf8::basic::from_utf8(bytes) {
        return Ok(());
    }
    match String::from_utf8_lossy(*bytes.allocator(), bytes) {
        Ok(text) => {
            *bytes = text.into_bytes();
            Ok(())
        }
        Err(error) => {
            bytes.clear();
            Err(error)
        }
    }
}

// The text in a buffer that holds one.
fn text_in(buf: &[u8]) -> &str
    requires { IsUtf8 buf.now }
    ensures { result.now ≡ buf.now }
{
    // SAFETY: the bytes are UTF-8.
    unsafe { std::str::from_utf8_unchecked(buf) }
}

impl<'de> Parser<'de> {
    // The string whose first quote comes before the cursor, if it has a text.
    fn ahead(&self) -> std::result::Result<StringAhead, Stop>
        requires after { 0 < self.now.place }
        requires quote { byte self.now.text (self.now.place - 1) ≡ 34 }
        ensures ok { IfOk result (IsAhead self.now.lossy self.now.text (self.now.place - 1)) }
        ensures err { IfErr result (IsNoText self.now.lossy self.now.text (self.now.place - 1)) }
        ensures within { IfErr result (λ s. s.place ≤ length self.now.text) }
        ensures code { IfErr result (λ s. s.code ≢ ErrorCode.NoMemory) }
    {
        let text = self.read.as_u8_slice();
        let is_bytes = self.read.need_utf8_valid();
        string_ahead(text, self.read.index() - 1, is_bytes, self.lossy)
    }

    // Moves past a string that ends at a place: a lossy reader also past what is broken before it.
    fn pass_string(&mut self, end: usize)
        requires within { end ≤ length self.old.text }
        ensures next_invalid { IsNextKnown self.old self.new }
        ensures moved { self.new.place ≡ end }
        ensures kept { self.new
            ≡ record self.old { place = self.new.place; next_invalid = self.new.next_invalid } }
    {
        self.read.set_index(end);
        if self.lossy && self.read.next_invalid_utf8() < end {
            self.read.check_invalid_utf8();
        }
    }

    // The text of the string whose first quote comes before the cursor, where it is in the input, and
    // `None` where it was written to the buffer.
    fn read_text(&mut self, buf: &mut Vec<u8>) -> Result<Option<&'de str>>
        requires after { 0 < self.old.place }
        requires quote { byte self.old.text (self.old.place - 1) ≡ 34 }
        ensures there { IfOk result (λ found. IfSome found (λ text.
            IsTextRead self.old self.new text.now × IsTextThere self.old.text (self.old.place - 1) self.new.place)) }
        ensures copied { IfOk result (λ found. found ≡ None
            → IsTextRead self.old self.new buf.new.items × ¬ IsTextThere self.old.text (self.old.place - 1) self.new.place) }
        ensures utf8 { IfOk result (λ found. found ≡ None → IsUtf8 buf.new.items) }
        ensures err { IfErr result (λ error. IsStopped (IsNoText self.old.lossy self.old.text (self.old.place - 1)) self.old self.new error
            ⊎ IsShortOfText self.old self.new error) }
        ensures memory { IfErr result (λ error.
            error_code error ≡ ErrorCode.NoMemory → IsShortOfText self.old self.new error) }
        ensures kept { IfOk result (λ found. IfSome found (λ _. buf.new.items ≡ buf.old.items)) }
        ensures left { IfErr result (λ error.
            error_code error ≢ ErrorCode.NoMemory → buf.new.items ≡ buf.old.items) }
        ensures emptied { IfErr result (λ error.
            error_code error ≡ ErrorCode.NoMemory → buf.new.items ≡ []) }
    {
        let string = match self.ahead() {
            Ok(string) => string,
            Err(stop) => return Err(self.stop(stop)),
        };
        let text = self.text();
        let start = self.offset() - 1;
        if string.direct {
            self.pass_string(string.end);
            return Ok(Some(text_in(&text[start + 1..string.end - 1])));
        }
        match write_text(buf, text, start, string, self.lossy) {
            Ok(()) => {
                self.pass_string(string.end);
                Ok(None)
            }
            Err(_) => Err(Error::plain(ErrorCode::NoMemory)),
        }
    }

    /// Reads the string whose first quote comes before the cursor as text (RFC 8259, section 7), and
    /// moves the cursor after its last quote.
    ///
    /// The text is borrowed from the input where all between the quotes is it: without a backslash, and
    /// UTF-8. Else it is written to `buf`, in place of what that held. A strict parser has the error
    /// `ErrorCode::InvalidUTF8` at the first place where the contents aren't UTF-8; a lossy one puts
    /// U+FFFD there, and then knows of the next broken place after the string. A fault, and contents
    /// that are broken, leave `buf` as it was; only where memory runs out it is empty. Memory is taken
    /// for a text alone that isn't borrowed: of a strict parser, that of a string with a backslash.
    ///
    /// ```text
    /// let mut parser = Parser::new(Read::from(r#""a\n""#));
    /// parser.skip_space();
    /// let text = Parser::parse_str(&mut buf, &mut parser)?;
    /// assert_eq!(rt; text.as_str(), "a\n");
    /// ```
    pub fn parse_str<'own>(
        buf: &'own mut Vec<u8>,
        parser: &mut Parser<'de>,
    ) -> Result<Reference<'de, 'own>>
        requires after { 0 < parser.old.place }
        requires quote { byte parser.old.text (parser.old.place - 1) ≡ 34 }
        ensures* left { sem 𝓛 (Rests bytes_row buf.entry (λ left.
            IsBufferAfter result buf.old.items left.items)) }
        ensures ok { IfOk result (λ found. IsTextRead parser.old parser.new (reference_text found)) }
        ensures borrowed { IfOk result (λ found.
            IsBorrowed found ↔ IsTextThere parser.old.text (parser.old.place - 1) parser.new.place) }
        ensures err { IfErr result (λ error.
            IsStopped (IsNoText parser.old.lossy parser.old.text (parser.old.place - 1)) parser.old parser.new error
            ⊎ IsShortOfText parser.old parser.new error) }
        ensures memory { IfErr result (λ error.
            error_code error ≡ ErrorCode.NoMemory → IsShortOfText parser.old parser.new error) }
    {
        match parser.read_text(buf) {
            Ok(Some(text)) => Ok(Reference::Borrowed(text)),
            Ok(None) => Ok(Reference::Copied(text_in(buf))),
            Err(error) => Err(error),
        }
    }
}
