// Where a value of a text is, and what a string of a text denotes (RFC 8259, section 7).
ghost use Rattle.std.specs.Prelude.{◌≡◌, ◌↔◌, false, string_bytes, IfOk, IsTrue, OnErr};
ghost use Rattle.sonic_text.specs.Strings.{strict, IsString, IsEscapedString};
ghost use Rattle.sonic_parser.specs.ValueSpans.{string_span, IsStringSpan, DenotesUtf8, IsTextAt};

use crate::status::ParseStatus;
use sonic_text::{StringEnd, unescape_into};
use std::alloc::{AllocError, Global};
use std::borrow::CowStr;

/// Where a value or a key of a text is, in bytes, and whether it is a string with a backslash.
///
/// It is what a reader keeps of what it passed, so that nobody looks at a string twice. The string of
/// `["a\n"]` is from 1 to 6 and has a backslash.
#[derive(Clone, Copy, Debug, PartialEq)]
pub struct ValueSpan {
    /// The index of the first byte.
    pub start: usize,
    /// The index after the last byte.
    pub end: usize,
    /// Whether it is a string with a backslash.
    pub escaped: bool,
}

impl ValueSpan {
    /// The span of a value that is no string with a backslash.
    #[inline(always)]
    pub fn plain(start: usize, end: usize) -> ValueSpan
        ensures { result ≡ record { start = start; end = end; escaped = false } }
    {
        ValueSpan {
            start,
            end,
            escaped: false,
        }
    }

    // The span of a string that begins at a place.
    #[inline(always)]
    pub(crate) fn of_string(start: usize, string: StringEnd) -> ValueSpan
        ensures { result ≡ string_span start string }
    {
        ValueSpan {
            start,
            end: string.end,
            escaped: string.escaped,
        }
    }

    /// What the value needs before its text can be used.
    #[inline]
    pub fn status(self) -> ParseStatus
        ensures { (result ≡ ParseStatus.HasEscaped) ↔ IsTrue self.escaped }
    {
        if self.escaped {
            ParseStatus::HasEscaped
        } else {
            ParseStatus::None
        }
    }

    /// What the string denotes, borrowed exactly where it has no backslash.
    ///
    /// In a text in UTF-8 what each string denotes is UTF-8. The only error is that memory ran out,
    /// and memory is taken for a string with a backslash alone. Of `"a"` it is
    /// `CowStr::Borrowed("a")`, and of `"\u0061"` the owned text `a`.
    pub fn text<'a>(self, alloc: Global, text: &'a [u8]) -> Result<CowStr<'a>, AllocError>
        requires string { IsStringSpan text.now self }
        requires utf8 { DenotesUtf8 text.now self.start self.end }
        ensures ok { IfOk result (IsTextAt text.now self.start self.end) }
        ensures memory { OnErr result (IsEscapedString text.now self.start self.end) }
    {
        if self.escaped {
            Ok(CowStr::Owned(self.owned_text(alloc, text)?))
        } else {
            Ok(CowStr::Borrowed(self.borrowed_text(text)))
        }
    }

    /// What the string denotes, as text of its own.
    ///
    /// In a text in UTF-8 what each string denotes is UTF-8. The only error is that memory ran out.
    /// Of `"\u0061"` it is `a`.
    pub fn owned_text(self, alloc: Global, text: &[u8]) -> Result<String, AllocError>
        requires string { IsStringSpan text.now self }
        requires utf8 { DenotesUtf8 text.now self.start self.end }
        ensures { IfOk result (λ made. IsString strict text.now self.start self.end (string_bytes made)) }
    {
        let bytes = self.bytes(alloc, text)?;
        // SAFETY: what the string denotes is UTF-8.
        Ok(unsafe { String::from_utf8_unchecked(bytes) })
    }

    /// The bytes that the string denotes.
    ///
    /// The only error is that memory ran out. Of `"\u00e9"` they are c3 a9.
    pub fn bytes(self, alloc: Global, text: &[u8]) -> Result<Vec<u8>, AllocError>
        requires { IsStringSpan text.now self }
        ensures { IfOk result (λ made. IsString strict text.now self.start self.end made.items) }
    {
        if !self.escaped {
            return Vec::from_slice(alloc, self.contents(text));
        }
        let mut bytes = Vec::new(alloc);
        match unescape_into(&mut bytes, text, self.start, self.end, false) {
            Ok(()) => Ok(bytes),
            Err(_) => Err(AllocError),
        }
    }

    // What a string without a backslash denotes, as text.
    fn borrowed_text(self, text: &[u8]) -> &str
        requires string { IsStringSpan text.now self }
        requires utf8 { DenotesUtf8 text.now self.start self.end }
        requires plain { ¬ IsEscapedString text.now self.start self.end }
        ensures { IsString strict text.now self.start self.end result.now }
    {
        let contents = self.contents(text);
        // SAFETY: what the string denotes is UTF-8, and without a backslash that is its contents.
        unsafe { std::str::from_utf8_unchecked(contents) }
    }

    // What a string without a backslash denotes: all between its quotes.
    fn contents(self, text: &[u8]) -> &[u8]
        requires string { IsStringSpan text.now self }
        requires plain { ¬ IsEscapedString text.now self.start self.end }
        ensures { IsString strict text.now self.start self.end result.now }
    {
        &text[self.start + 1..self.end - 1]
    }
}
