ghost use Rattle.std.specs.Prelude.{◌≡◌, ◌+◌, ◌<◌, ◌≤◌, ◌↔◌, ℕ, List, length, true, false, IsTrue, IfOk, IfErr, IfSome, is_some, Some, None};
ghost use Rattle.sonic_error.specs.declared.code.ErrorCode.TheVariants.{InvalidUnicodeCodePoint};
ghost use Rattle.sonic_text.specs.declared.stop.Stop.{Stop};
ghost use Rattle.sonic_text.specs.Places.{byte, stop_at};
ghost use Rattle.sonic_text.specs.Internal.Reading.{AreSpecial, IsInString, EndsString, IsReadSoFar, CharsLeadOn};
ghost use Rattle.sonic_text.specs.Strings.{escaped, hex_digit, is_low_surrogate_byte, IsHex4, IsLow, IsChar, IsEscapeFault, IsString, IsEscapedString, IsStringFault, IsUnescaped};

use crate::hex::{digit_of, hex4_at};
use crate::scan::{byte_at, stop_at};
use crate::stop::Stop;
use crate::unescape::{escaped_of, low_surrogate_at};
use sonic_blocks::internal::plain_end;
use sonic_blocks::{StringBlock, next_bit};
use sonic_error::ErrorCode;

/// Where a string of a text ends (RFC 8259, section 7), and whether it has an escape.
///
/// For the string `"a\n"` at the place 0 it is `StringEnd { end: 5, escaped: true }`.
#[derive(Clone, Copy, Debug, PartialEq, Eq)]
pub struct StringEnd {
    /// The place after the closing quote.
    pub end: usize,
    /// Whether a backslash is between the quotes.
    pub escaped: bool,
}

// Whether a byte may be `n` places after the start of an escape of a second half.
#[tactic(auto, unfolding(crate::specs::Strings::is_low_surrogate_byte, crate::specs::Strings::hex_within, crate::specs::Strings::hex_digit))]
fn low_surrogate_byte(n: usize, byte: u8) -> bool
    ensures { result ≡ is_low_surrogate_byte n byte }
{
    match n {
        0 => byte == b'\\',
        1 => byte == b'u',
        2 => matches!(byte, b'D' | b'd'),
        3 => matches!(byte, b'C'..=b'F' | b'c'..=b'f'),
        _ => matches!(byte, b'0'..=b'9' | b'A'..=b'F' | b'a'..=b'f'),
    }
}

// How many bytes of an escape of a second half are at a place, up to six.
#[tactic(auto, using(crate::proofs::HexDigitLemmas::low_some))]
fn low_surrogate_bytes(text: &[u8], place: usize) -> usize
    requires { place ≤ length text.now }
    ensures few { result ≤ 6 }
    ensures within { place + result ≤ length text.now }
    ensures right { (d : ℕ) → d < result → is_low_surrogate_byte d (byte text.now (place + d)) ≡ true }
    ensures wrong { result < 6 → is_low_surrogate_byte result (byte text.now (place + result)) ≡ false }
{
    let mut n = 0;
    while n < 6 && low_surrogate_byte(n, byte_at(text, place + n)) {
        n += 1;
    }
    n
}

// What the hexadecimal digit at a place denotes, and more than 15 if none is there.
#[tactic(auto, using(crate::proofs::HexDigitLemmas::hex_some))]
fn digit_at(text: &[u8], place: usize) -> u8
    ensures digit { result < 16 → (hex_digit (byte text.now place) ≡ Some result)
        × (place < length text.now) }
    ensures other { 15 < result → hex_digit (byte text.now place) ≡ None }
{
    digit_of(byte_at(text, place))
}

// The first wrong byte of the `\u` escape at a place whose number is none, or a second half's.
#[cold]
fn number_fault(text: &[u8], place: usize, lossy: bool) -> Stop
    requires backslash { byte text.now place ≡ 92 }
    requires letter { byte text.now (place + 1) ≡ 117 }
    requires wrong { (n : ℕ) → IsHex4 text.now (place + 2) n → (lossy ≡ false) × IsLow n }
    ensures { IsEscapeFault lossy text.now place result }
{
    let first = digit_at(text, place + 2);
    let second = digit_at(text, place + 3);
    let code = ErrorCode::InvalidUnicodeCodePoint;
    if first > 15 {
        stop_at(text, place + 2, code)
    } else if second > 15 {
        stop_at(text, place + 3, code)
    } else if !lossy && first == 13 && second > 11 {
        let code = ErrorCode::InvalidSurrogateUnicodeCodePoint;
        stop_at(text, place + 3, code)
    } else if digit_at(text, place + 4) > 15 {
        stop_at(text, place + 4, code)
    } else {
        stop_at(text, place + 5, code)
    }
}

// The number of the four hexadecimal digits after the `\u` at a place.
#[inline(always)]
fn number_at(text: &[u8], place: usize, lossy: bool) -> Result<u32, Stop>
    requires backslash { byte text.now place ≡ 92 }
    requires letter { byte text.now (place + 1) ≡ 117 }
    ensures ok { IfOk result (λ n. (place + 6 ≤ length text.now) × IsHex4 text.now (place + 2) n
        × (lossy ≡ false → ¬ IsLow n)) }
    ensures err { IfErr result (λ s. IsEscapeFault lossy text.now place s) }
{
    match hex4_at(text, place + 2) {
        Some(number) if lossy || number < 0xDC00 || number > 0xDFFF => Ok(number),
        _ => Err(number_fault(text, place, lossy)),
    }
}

// The place after the `\u` escape, or the pair of them, that begins at a place.
#[inline(always)]
fn unicode_end(text: &[u8], place: usize, lossy: bool) -> Result<usize, Stop>
    requires backslash { byte text.now place ≡ 92 }
    requires letter { byte text.now (place + 1) ≡ 117 }
    ensures ok { IfOk result (λ j. (place < j) × (j ≤ length text.now)
        × (b : List ℕ) × IsChar lossy text.now place j b) }
    ensures short { IfOk result (λ j. j ≤ place + 12) }
    ensures err { IfErr result (λ s. IsEscapeFault lossy text.now place s) }
{
    let number = number_at(text, place, lossy)?;
    if number < 0xD800 || number > 0xDBFF {
        return Ok(place + 6);
    }
    match low_surrogate_at(text, place + 6) {
        Some(_) => Ok(place + 12),
        None if lossy => Ok(place + 6),
        None => {
            let n = low_surrogate_bytes(text, place + 6);
            let code = ErrorCode::InvalidSurrogateUnicodeCodePoint;
            Err(stop_at(text, place + 6 + n, code))
        }
    }
}

// The place after the escape that begins at a place, or its first wrong byte.
#[inline(always)]
fn escape_end(text: &[u8], place: usize, lossy: bool) -> Result<usize, Stop>
    requires { byte text.now place ≡ 92 }
    ensures ok { IfOk result (λ j. (place < j) × (j ≤ length text.now)
        × (b : List ℕ) × IsChar lossy text.now place j b) }
    ensures short { IfOk result (λ j. j ≤ place + 12) }
    ensures err { IfErr result (λ s. IsEscapeFault lossy text.now place s) }
{
    let letter = byte_at(text, place + 1);
    if escaped_of(letter) != 0 {
        Ok(place + 2)
    } else if letter == b'u' {
        unicode_end(text, place, lossy)
    } else {
        let code = ErrorCode::InvalidEscape;
        Err(stop_at(text, place + 1, code))
    }
}

// The first place from `place` on whose byte doesn't denote itself.
#[inline(always)]
fn skip_plain(text: &[u8], place: usize) -> usize
    requires { place ≤ length text.now }
    ensures later { place ≤ result }
    ensures within { result ≤ length text.now }
    ensures plain { (k : ℕ) → place ≤ k → k < result → IsUnescaped (byte text.now k) }
    ensures stop { ¬ IsUnescaped (byte text.now result) }
{
    plain_end(text, place)
}

// How far the chars of a string lead that begin in a block of bytes.
#[derive(Clone, Copy)]
enum Passed {
    // To the closing quote, and the string ends here.
    Closed(usize),
    // To here, after the block.
    Reached(usize),
    // To here, where the block says nothing more.
    Left(usize),
}

// The special bytes among the 32 at a place, which don't denote themselves, one bit for each, if 32
// are left.
#[inline(always)]
fn special_at(text: &[u8], place: usize) -> Option<u64>
    requires { place ≤ length text.now }
    ensures { IfSome result (AreSpecial text.now place) }
{
    let bytes = text[place..].first_chunk::<32>()?;
    Some(StringBlock::new(bytes).special_bits())
}

// How far the chars lead that begin in the 32 bytes at a place.
//
// The special bytes of the block are passed one after the other, so that an escape costs no second
// look at the bytes after it.
#[inline(always)]
fn pass_block(text: &[u8], base: usize, lossy: bool) -> Passed
    requires { base ≤ length text.now }
    ensures later { CharsLeadOn text.now base result }
    ensures passed { (i : ℕ) → IsInString lossy text.now i base → IsReadSoFar lossy text.now i result }
{
    let Some(special) = special_at(text, base) else {
        return Passed::Left(base);
    };
    let mut place = base;
    let mut left = special;
    'chars: while let Some(near) = next_bit(left, 0) {
        let stop = place + near;
        if text[stop] == b'"' {
            return Passed::Closed(stop + 1);
        }
        if text[stop] != b'\\' {
            return Passed::Left(stop);
        }
        let Ok(end) = escape_end(text, stop, lossy) else {
            return Passed::Left(stop);
        };
        left >>= end - place;
        place = end;
    }
    Passed::Reached(place.max(base + 32))
}

// The end of the string whose chars fit up to a place, char by char.
fn chars_end(text: &[u8], from: usize, lossy: bool) -> Result<usize, Stop>
    requires { from ≤ length text.now }
    ensures ok { (i : ℕ) → IsInString lossy text.now i from → IfOk result (EndsString lossy text.now i) }
    ensures err { (i : ℕ) → IsInString lossy text.now i from → IfErr result (λ s. IsStringFault lossy text.now i s) }
{
    let mut place = from;
    'chars: loop {
        place = skip_plain(text, place);
        let byte = byte_at(text, place);
        if byte == b'"' {
            return Ok(place + 1);
        }
        if byte != b'\\' {
            let code = ErrorCode::ControlCharacterWhileParsingString;
            return Err(stop_at(text, place, code));
        }
        place = escape_end(text, place, lossy)?;
    }
}

// The end of the string whose chars fit up to a place, block by block.
fn rest_end(text: &[u8], from: usize, lossy: bool) -> Result<usize, Stop>
    requires { from ≤ length text.now }
    ensures ok { (i : ℕ) → IsInString lossy text.now i from → IfOk result (EndsString lossy text.now i) }
    ensures err { (i : ℕ) → IsInString lossy text.now i from → IfErr result (λ s. IsStringFault lossy text.now i s) }
{
    let mut place = from;
    'blocks: loop {
        match pass_block(text, place, lossy) {
            Passed::Closed(end) => return Ok(end),
            Passed::Reached(next) => place = next,
            Passed::Left(next) => return chars_end(text, next, lossy),
        }
    }
}

/// Where the string that begins at `start` ends (RFC 8259, section 7), or its first byte that
/// doesn't fit.
///
/// A strict reader takes surrogate escapes in pairs only (RFC 7493, section 2.1); a lossy one takes
/// single ones too. `string_end(b"\"a\\n\",", 0, false)` is
/// `Ok(StringEnd { end: 5, escaped: true })`, and `string_end(b"\"\\x\"", 0, false)` stops at 2
/// with `InvalidEscape`. What the bytes from 0x80 up encode is no matter here.
pub fn string_end(text: &[u8], start: usize, lossy: bool) -> Result<StringEnd, Stop>
    requires { byte text.now start ≡ 34 }
    ensures ok { IfOk result (λ s. (start < s.end) × (s.end ≤ length text.now)
        × (b : List ℕ) × IsString lossy text.now start s.end b) }
    ensures escaped { IfOk result (λ s.
        IsTrue s.escaped ↔ IsEscapedString text.now start s.end) }
    ensures err { IfErr result (λ s. IsStringFault lossy text.now start s) }
{
    let place = skip_plain(text, start + 1);
    let byte = byte_at(text, place);
    if byte == b'"' {
        let end = place + 1;
        return Ok(StringEnd {
            end,
            escaped: false,
        });
    }
    if byte != b'\\' {
        let code = ErrorCode::ControlCharacterWhileParsingString;
        return Err(stop_at(text, place, code));
    }
    let end = rest_end(text, place, lossy)?;
    Ok(StringEnd { end, escaped: true })
}

// The end of the string whose chars fit up to a place, or `None` where it has a fault.
#[inline(never)]
fn skip_rest(text: &[u8], from: usize, lossy: bool) -> Option<usize>
    requires { from ≤ length text.now }
    ensures some { (i : ℕ) → IsInString lossy text.now i from → IfSome result (EndsString lossy text.now i) }
    ensures none { (i : ℕ) → IsInString lossy text.now i from → result ≡ None
        → (s : Stop) × IsStringFault lossy text.now i s }
{
    match rest_end(text, from, lossy) {
        Ok(end) => Some(end),
        Err(_) => None,
    }
}

/// The place after the string that begins at `start`, or `None` where it has a fault: what
/// [`string_end`] answers, without the reason.
///
/// `skip_string(b"\"a\\n\",", 0, false)` is `Some(5)`, and `skip_string(b"\"\\x\"", 0, false)` is
/// `None`. A string without an escape is passed without a call.
#[inline(always)]
pub fn skip_string(text: &[u8], start: usize, lossy: bool) -> Option<usize>
    requires { byte text.now start ≡ 34 }
    ensures some { IfSome result (λ j. (start < j) × (j ≤ length text.now)
        × (b : List ℕ) × IsString lossy text.now start j b) }
    ensures none { result ≡ None → (s : Stop) × IsStringFault lossy text.now start s }
{
    let place = skip_plain(text, start + 1);
    let byte = byte_at(text, place);
    if byte == b'"' {
        return Some(place + 1);
    }
    if byte != b'\\' {
        return None;
    }
    skip_rest(text, place, lossy)
}
