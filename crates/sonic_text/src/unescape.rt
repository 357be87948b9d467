// Strings with their escapes undone (RFC 8259, section 7), where a whole string is known to be.
ghost use Rattle.std.specs.Prelude.{◌≡◌, ◌≢◌, ℕ, ◌+◌, ◌<◌, ◌≤◌, ◌++◌, Bool, List, length, None, IfSome, IfErr, OnOk, OnErr, unwrap_or, encode_utf8};
ghost use Rattle.sonic_error.specs.Errors.{IsPlainError};
ghost use Rattle.sonic_text.specs.Places.{byte};
ghost use Rattle.sonic_text.specs.Strings.{escaped, IsEscape, IsLow, IsLowEscape, IsChar, IsUnicodeChar, IsString};

use crate::hex::hex4_at;
use crate::utf8::codepoint_to_utf8;
use sonic_blocks::internal::first_backslash;
use sonic_error::{Error, ErrorCode};
use std::alloc::AllocError;

/// What each letter after a backslash denotes (RFC 8259, section 7), and 0 for a byte that
/// denotes nothing there: at `n` a line feed, at `"` itself, and at `u` and `x` 0.
#[rattlefmt::skip]
pub const ESCAPED_TAB: [u8; 256] = [
    0, 0, 0, 0, 0, 0, 0, 0, 0, 0, 0, 0, 0, 0, 0, 0,
    0, 0, 0, 0, 0, 0, 0, 0, 0, 0, 0, 0, 0, 0, 0, 0,
    0, 0, 0x22, 0, 0, 0, 0, 0, 0, 0, 0, 0, 0, 0, 0, 0x2f,
    0, 0, 0, 0, 0, 0, 0, 0, 0, 0, 0, 0, 0, 0, 0, 0,
    0, 0, 0, 0, 0, 0, 0, 0, 0, 0, 0, 0, 0, 0, 0, 0,
    0, 0, 0, 0, 0, 0, 0, 0, 0, 0, 0, 0, 0x5c, 0, 0, 0,
    0, 0, 0x08, 0, 0, 0, 0x0c, 0, 0, 0, 0, 0, 0, 0, 0x0a, 0,
    0, 0, 0x0d, 0, 0x09, 0, 0, 0, 0, 0, 0, 0, 0, 0, 0, 0,
    0, 0, 0, 0, 0, 0, 0, 0, 0, 0, 0, 0, 0, 0, 0, 0,
    0, 0, 0, 0, 0, 0, 0, 0, 0, 0, 0, 0, 0, 0, 0, 0,
    0, 0, 0, 0, 0, 0, 0, 0, 0, 0, 0, 0, 0, 0, 0, 0,
    0, 0, 0, 0, 0, 0, 0, 0, 0, 0, 0, 0, 0, 0, 0, 0,
    0, 0, 0, 0, 0, 0, 0, 0, 0, 0, 0, 0, 0, 0, 0, 0,
    0, 0, 0, 0, 0, 0, 0, 0, 0, 0, 0, 0, 0, 0, 0, 0,
    0, 0, 0, 0, 0, 0, 0, 0, 0, 0, 0, 0, 0, 0, 0, 0,
    0, 0, 0, 0, 0, 0, 0, 0, 0, 0, 0, 0, 0, 0, 0, 0,
];

/// What the letter denotes after a backslash, and 0 if it denotes nothing there.
#[inline(always)]
pub(crate) fn escaped_of(letter: u8) -> u8
    ensures { result ≡ unwrap_or (escaped letter) 0 }
{
    ESCAPED_TAB[letter as usize]
}

/// The second half of a surrogate pair whose escape is at `place`, if there is one (RFC 7493, 2.1).
pub(crate) fn low_surrogate_at(text: &[u8], place: usize) -> Option<u32>
    requires { place ≤ length text.now }
    ensures some { IfSome result (λ l. IsEscape text.now place l × IsLow l) }
    ensures none { result ≡ None → ¬ (IsLowEscape text.now place) }
{
    if text.len() - place < 6 {
        return None;
    }
    if text[place] != b'\\' || text[place + 1] != b'u' {
        return None;
    }
    let half = hex4_at(text, place + 2)?;
    if half < 0xDC00 || half > 0xDFFF {
        return None;
    }
    Some(half)
}

/// The code point of the char that begins with the escape `\u` at `place`, and the place after it.
///
/// Two escapes of a surrogate pair are one char, and a single surrogate denotes U+FFFD.
fn unicode_at(text: &[u8], place: usize) -> (u32, usize)
    requires { (n : ℕ) × IsEscape text.now place n }
    ensures one { (m : Bool) (n q : ℕ) (b : List ℕ) → IsEscape text.now place n
        → IsUnicodeChar m text.now place n q b → (q ≡ result.1) × (b ≡ encode_utf8 result.0) }
    ensures small { result.0 ≤ 0x10FFFF }
{
    let Some(unit) = hex4_at(text, place + 2) else {
        return (0, place);
    };
    if unit < 0xD800 || unit > 0xDFFF {
        return (unit, place + 6);
    }
    if unit > 0xDBFF {
        return (0xFFFD, place + 6);
    }
    match low_surrogate_at(text, place + 6) {
        Some(half) => {
            let code = 0x1_0000 + (unit - 0xD800) * 0x400 + (half - 0xDC00);
            (code, place + 12)
        }
        None => (0xFFFD, place + 6),
    }
}

/// The code point of the char that begins with the backslash at `place`, and the place after it.
pub(crate) fn escape_at(text: &[u8], place: usize) -> (u32, usize)
    requires escape { byte text.now place ≡ 92 }
    requires char { (m : Bool) × (q : ℕ) × (b : List ℕ) × IsChar m text.now place q b }
    ensures one { (m : Bool) (q : ℕ) (b : List ℕ) → IsChar m text.now place q b
        → (q ≡ result.1) × (b ≡ encode_utf8 result.0) }
    ensures small { result.0 ≤ 0x10FFFF }
{
    let letter = text[place + 1];
    if letter == b'u' {
        return unicode_at(text, place);
    }
    (escaped_of(letter) as u32, place + 2)
}

/// The place of the first backslash from `place` on, or of the closing quote before `end`.
fn plain_end(text: &[u8], place: usize, end: usize) -> usize
    requires { (place < end) × (end ≤ length text.now) }
    ensures within { (place ≤ result) × (result < end) }
    ensures plain { (k : ℕ) → place ≤ k → k < result → byte text.now k ≢ 92 }
    ensures stop { result + 1 ≢ end → byte text.now result ≡ 92 }
{
    first_backslash(&text[..end - 1], place)
}

/// Appends the bytes that a string denotes; where memory is wanting, some of the first of them.
fn append_chars(
    out: &mut Vec<u8>,
    text: &[u8],
    start: usize,
    end: usize,
    lossy: bool,
) -> Result<(), AllocError>
    requires { (b : List ℕ) × IsString lossy text.now start end b }
    ensures ok { OnOk result ((b : List ℕ) × IsString lossy text.now start end b
        × (out.new.items ≡ out.old.items ++ b)) }
    ensures err { OnErr result ((c : List ℕ) × (out.new.items ≡ out.old.items ++ c)) }
{
    out.reserve(end - start)?;
    let mut place = start + 1;
    'chars: loop {
        let stop = plain_end(text, place, end);
        out.extend_from_slice(&text[place..stop])?;
        if stop + 1 == end {
            return Ok(());
        }
        let (code, next) = escape_at(text, stop);
        let mut buffer = [0; 4];
        let len = codepoint_to_utf8(code, &mut buffer);
        out.extend_from_slice(&buffer[..len])?;
        place = next;
    }
}

/// Appends the bytes that the string from `start` to `end`, both quotes included, denotes
/// (RFC 8259, section 7); where memory is wanting, it leaves `out` as it was.
///
/// The string must be one of a strict or a lossy reader, as `lossy` says. Of `"a\u00e9\n"` it
/// appends the bytes 61 c3 a9 0a, and of `"\ud800x"`, if `lossy`, ef bf bd 78.
pub fn unescape_into(
    out: &mut Vec<u8>,
    text: &[u8],
    start: usize,
    end: usize,
    lossy: bool,
) -> sonic_error::Result<()>
    requires { (b : List ℕ) × IsString lossy text.now start end b }
    ensures ok { OnOk result ((b : List ℕ) × IsString lossy text.now start end b
        × (out.new.items ≡ out.old.items ++ b)) }
    ensures err { OnErr result (out.new.items ≡ out.old.items) }
    ensures only_memory { IfErr result (λ e. IsPlainError e ErrorCode.NoMemory) }
{
    let len = out.len();
    match append_chars(out, text, start, end, lossy) {
        Ok(()) => Ok(()),
        Err(_) => {
            out.truncate(len);
            Err(Error::plain(ErrorCode::NoMemory))
        }
    }
}
