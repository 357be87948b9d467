// What is short and near, read without a look at the text's end for each byte.
//
// Each call asks for so many bytes after its place that it never meets the end, and says nothing where
// what it looks for is longer than it looks.
ghost use Rattle.std.specs.Prelude.{◌≡◌, ◌+◌, ◌<◌, ◌≤◌, Bool, ℕ, List, drop, length, IfSome};
ghost use Rattle.std.specs.List.{prefix_len};
ghost use Rattle.sonic_blocks.specs.Runs.{is_plain};
ghost use Rattle.sonic_text.specs.Places.{byte, after_space};
ghost use Rattle.sonic_text.specs.Strings.{IsString};
ghost use Rattle.sonic_text.specs.Numbers.{IsInt, IsFraction, IsExponent, IsNumber};

use sonic_blocks::internal::{short_digits_end, short_plain_end, space_end};

/// The first place from `start` on that holds no white space (RFC 8259, section 2), or the end: what
/// [`skip_space`](crate::skip_space) answers, where two bytes are left.
///
/// `short_space(b" 1,2", 0)` is 1.
#[inline(always)]
pub fn short_space(text: &[u8], start: usize) -> usize
    requires { start + 2 ≤ length text.now }
    ensures place { result ≡ after_space text.now start }
    ensures later { start ≤ result }
    ensures within { result ≤ length text.now }
{
    if text[start] > b' ' {
        return start;
    }
    if text[start] == b' ' && text[start + 1] > b' ' {
        return start + 1;
    }
    space_end(text, start)
}

/// The first quote, backslash or control byte after the quote at `start`, where fewer than 32 bytes are
/// before it: if it is a quote, the string ends behind it (RFC 8259, section 7). `None` says nothing of
/// the text.
///
/// Of `"ab"` and thirty bytes more from 0 on it is 3.
#[inline(always)]
pub fn short_stop(text: &[u8], start: usize) -> Option<usize>
    requires near { start + 33 ≤ length text.now }
    requires quote { byte text.now start ≡ 34 }
    ensures near { IfSome result (λ stop. (start < stop) × (stop < start + 33)) }
    ensures first { IfSome result (λ stop. stop ≡ start + 1 + prefix_len is_plain (drop (start + 1) text.now)) }
    ensures string { IfSome result (λ stop. byte text.now stop ≡ 34
        → (m : Bool) → (b : List ℕ) × IsString m text.now start (stop + 1) b) }
{
    let stop = match short_plain_end(text, start + 1) {
        Some(stop) => stop,
        None => short_plain_end(text, start + 17)?,
    };
    Some(stop)
}

/// The place after the string that begins at `start` (RFC 8259, section 7), where fewer than 32 bytes
/// are between its quotes and none of them is a backslash. `None` says nothing of the text.
///
/// Of `"ab"` and thirty bytes more from 0 on it is 4.
#[inline(always)]
pub fn short_string(text: &[u8], start: usize) -> Option<usize>
    requires near { start + 33 ≤ length text.now }
    requires quote { byte text.now start ≡ 34 }
    ensures { IfSome result (λ end. (start < end) × (end ≤ start + 33)
        × ((m : Bool) → (b : List ℕ) × IsString m text.now start end b)) }
{
    let stop = short_stop(text, start)?;
    if text[stop] == b'"' {
        Some(stop + 1)
    } else {
        None
    }
}

// The end of the integer without a sign at a place.
#[inline(always)]
fn short_int(text: &[u8], start: usize) -> Option<usize>
    requires { start + 16 ≤ length text.now }
    ensures int { IfSome result (λ end. IsInt text.now start end) }
    ensures near { IfSome result (λ end. (start < end) × (end < start + 16)) }
{
    match text[start] {
        b'0' if text[start + 1].is_ascii_digit() => None,
        b'0' => Some(start + 1),
        b'1'..=b'9' => short_digits_end(text, start),
        _ => None,
    }
}

// The end of the fraction at a place, or the place itself where there is none.
#[inline(always)]
fn short_fraction(text: &[u8], start: usize) -> Option<usize>
    requires { start + 17 ≤ length text.now }
    ensures fraction { IfSome result (λ end. IsFraction text.now start end) }
    ensures near { IfSome result (λ end. (start ≤ end) × (end ≤ start + 16)) }
{
    if text[start] != b'.' {
        return Some(start);
    }
    if !text[start + 1].is_ascii_digit() {
        return None;
    }
    short_digits_end(text, start + 1)
}

// The end of the exponent at a place, or the place itself where there is none.
#[inline(always)]
fn short_exponent(text: &[u8], start: usize) -> Option<usize>
    requires { start + 18 ≤ length text.now }
    ensures exponent { IfSome result (λ end. IsExponent text.now start end) }
    ensures near { IfSome result (λ end. (start ≤ end) × (end ≤ start + 17)) }
{
    if !matches!(text[start], b'e' | b'E') {
        return Some(start);
    }
    let digits = match text[start + 1] {
        b'+' | b'-' => start + 2,
        _ => start + 1,
    };
    if !text[digits].is_ascii_digit() {
        return None;
    }
    short_digits_end(text, digits)
}

/// The end of the number at `start` (RFC 8259, section 6), where none of its parts has more than 15
/// digits. `None` says nothing of the text.
///
/// Of `-1.5e3` and 58 bytes more from 0 on it is 6.
#[inline(always)]
pub fn short_number(text: &[u8], start: usize) -> Option<usize>
    requires { start + 64 ≤ length text.now }
    ensures { IfSome result (λ end. (start < end) × (end ≤ start + 50) × IsNumber text.now start end) }
{
    let digits = if text[start] == b'-' {
        start + 1
    } else {
        start
    };
    let whole = short_int(text, digits)?;
    let fraction = short_fraction(text, whole)?;
    short_exponent(text, fraction)
}
