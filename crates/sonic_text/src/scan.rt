ghost use Rattle.std.specs.Prelude.{◌≡◌, ◌<◌, ◌≤◌, length};
ghost use Rattle.sonic_text.specs.Places.{byte, after_space, digits_end, stop_at, IsDigit};
ghost use Rattle.sonic_text.specs.Values.{type_of};

use crate::stop::Stop;
use sonic_blocks::internal::{digits_end, space_end};
use sonic_error::{ErrorCode, JsonType};

/// The byte at a place, and 0 after the end, where no rule of the grammar asks for a 0.
///
/// So a byte that is missing needs no case of its own: `byte_at(b"[1", 1)` is `b'1'`, and
/// `byte_at(b"[1", 2)` is 0.
#[inline]
pub fn byte_at(text: &[u8], place: usize) -> u8
    ensures value { result ≡ byte text.now place }
    ensures within { 0 < result → place < length text.now }
{
    if place < text.len() { text[place] } else { 0 }
}

/// The stop at a place that holds no byte that fits; at the end of the text the end is the reason.
///
/// In `[1;` the place 2 stops with the code that is given, and the place 3 with `EofWhileParsing`.
pub fn stop_at(text: &[u8], place: usize, code: ErrorCode) -> Stop
    requires { place ≤ length text.now }
    ensures { result ≡ stop_at text.now place code }
{
    if place < text.len() {
        Stop { place, code }
    } else {
        let code = ErrorCode::EofWhileParsing;
        Stop { place, code }
    }
}

/// The first place from `start` on that holds no white space (RFC 8259, section 2), or the end.
///
/// `skip_space(b" \n1", 0)` is 2.
#[inline(always)]
pub fn skip_space(text: &[u8], start: usize) -> usize
    requires { start ≤ length text.now }
    ensures place { result ≡ after_space text.now start }
    ensures later { start ≤ result }
    ensures within { result ≤ length text.now }
{
    // Most places hold none, and most runs of it are one blank.
    let first = byte_at(text, start);
    if first > b' ' {
        return start;
    }
    if first == b' ' && byte_at(text, start + 1) > b' ' {
        return start + 1;
    }
    space_end(text, start)
}

/// The first place from `start` on that holds no digit, or the end.
///
/// `skip_digits(b"120]", 0)` is 3.
#[inline(always)]
pub fn skip_digits(text: &[u8], start: usize) -> usize
    requires { start ≤ length text.now }
    ensures place { result ≡ digits_end text.now start }
    ensures later { start ≤ result }
    ensures some { IsDigit (byte text.now start) → start < result }
    ensures within { result ≤ length text.now }
{
    digits_end(text, start)
}

/// The type of the value whose first byte this is.
///
/// Of `[` it is `JsonType::Array`, and of `-` it is `JsonType::Number`. Of a byte with which no
/// value begins it says nothing.
pub fn type_of(first: u8) -> JsonType
    ensures { result ≡ type_of first }
{
    match first {
        b'n' => JsonType::Null,
        b't' | b'f' => JsonType::Boolean,
        b'"' => JsonType::String,
        b'[' => JsonType::Array,
        b'{' => JsonType::Object,
        _ => JsonType::Number,
    }
}
