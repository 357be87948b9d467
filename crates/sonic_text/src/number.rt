ghost use Rattle.std.specs.Prelude.{◌≡◌, ◌≢◌, ◌<◌, ◌≤◌, ◌^◌, length, None, IfOk, IfErr, IfSome, FitsSigned};
ghost use Rattle.std.specs.Int.{w64};
ghost use Rattle.std.specs.Option.{SomeIff};
ghost use Rattle.std.specs.Str.Parse.{digits_value, signed_digits_value};
ghost use Rattle.sonic_error.specs.declared.code.ErrorCode.TheVariants.{InvalidNumber};
ghost use Rattle.sonic_text.specs.declared.stop.Stop.{Stop};
ghost use Rattle.sonic_text.specs.Places.{byte, stop_at, IsDigit};
ghost use Rattle.sonic_text.specs.Numbers.{after_minus, after_sign, IsInt, IsIntFault, IsFraction, IsFractionFault, IsE, IsExponent, IsExponentFault, IsNumber, IsNumberFault, IsWholeText};

use crate::scan::{byte_at, skip_digits, stop_at};
use crate::stop::Stop;
use sonic_error::ErrorCode;

// The place after the minus sign, if one is at `start`.
#[inline(always)]
fn skip_minus(text: &[u8], start: usize) -> usize
    requires { start ≤ length text.now }
    ensures place { result ≡ after_minus text.now start }
    ensures later { start ≤ result }
    ensures within { result ≤ length text.now }
{
    if byte_at(text, start) == b'-' {
        start + 1
    } else {
        start
    }
}

// The place after the sign, if one is at `start`.
fn skip_sign(text: &[u8], start: usize) -> usize
    requires { start ≤ length text.now }
    ensures place { result ≡ after_sign text.now start }
    ensures later { start ≤ result }
    ensures within { result ≤ length text.now }
{
    match byte_at(text, start) {
        b'+' | b'-' => start + 1,
        _ => start,
    }
}

// The end of the integer without a sign at a place, or the first place that doesn't fit.
#[inline(always)]
fn int_end(text: &[u8], start: usize) -> Result<usize, usize>
    requires { start ≤ length text.now }
    ensures ok { IfOk result (λ j. (start < j) × (j ≤ length text.now) × IsInt text.now start j) }
    ensures err { IfErr result (λ p. (p ≤ length text.now)
        × IsIntFault text.now start (stop_at text.now p InvalidNumber)) }
{
    match byte_at(text, start) {
        b'0' if byte_at(text, start + 1).is_ascii_digit() => Err(start + 1),
        b'0' => Ok(start + 1),
        b'1'..=b'9' => Ok(skip_digits(text, start)),
        _ => Err(start),
    }
}

// The end of the fraction at a place, or the place itself where there is none.
#[inline(always)]
fn fraction_end(text: &[u8], start: usize) -> Result<usize, usize>
    requires { start ≤ length text.now }
    ensures ok { IfOk result (λ j. (start ≤ j) × (j ≤ length text.now) × IsFraction text.now start j) }
    ensures err { IfErr result (λ p. (p ≤ length text.now)
        × IsFractionFault text.now start (stop_at text.now p InvalidNumber)) }
{
    if byte_at(text, start) != b'.' {
        return Ok(start);
    }
    let digits = start + 1;
    if byte_at(text, digits).is_ascii_digit() {
        Ok(skip_digits(text, digits))
    } else {
        Err(digits)
    }
}

// The end of the exponent whose `e` is at a place.
#[inline(never)]
fn power_end(text: &[u8], start: usize) -> Result<usize, usize>
    requires { IsE (byte text.now start) }
    ensures ok { IfOk result (λ j. (start ≤ j) × (j ≤ length text.now) × IsExponent text.now start j) }
    ensures err { IfErr result (λ p. (p ≤ length text.now)
        × IsExponentFault text.now start (stop_at text.now p InvalidNumber)) }
{
    let digits = skip_sign(text, start + 1);
    if byte_at(text, digits).is_ascii_digit() {
        Ok(skip_digits(text, digits))
    } else {
        Err(digits)
    }
}

// The end of the exponent at a place, or the place itself where there is none.
#[inline(always)]
fn exponent_end(text: &[u8], start: usize) -> Result<usize, usize>
    requires { start ≤ length text.now }
    ensures ok { IfOk result (λ j. (start ≤ j) × (j ≤ length text.now) × IsExponent text.now start j) }
    ensures err { IfErr result (λ p. (p ≤ length text.now)
        × IsExponentFault text.now start (stop_at text.now p InvalidNumber)) }
{
    match byte_at(text, start) {
        b'e' | b'E' => power_end(text, start),
        _ => Ok(start),
    }
}

// The end of the number at a place, or the first place that doesn't fit, in registers.
#[inline(always)]
fn parts_end(text: &[u8], start: usize) -> Result<usize, usize>
    requires { start ≤ length text.now }
    ensures ok { IfOk result (λ j. (start < j) × (j ≤ length text.now) × IsNumber text.now start j) }
    ensures err { IfErr result (λ p. (p ≤ length text.now)
        × IsNumberFault text.now start (stop_at text.now p InvalidNumber)) }
{
    let whole = int_end(text, skip_minus(text, start))?;
    let fraction = fraction_end(text, whole)?;
    exponent_end(text, fraction)
}

/// The end of the number at `start`, or the first place where a digit is expected and none
/// is, or where one follows a first 0.
///
/// The number is one of RFC 8259, section 6, and the longest one. After it anything may follow:
/// `number_end(b"1.2.3", 0)` is `Ok(3)`. `number_end(b"-x", 0)` stops at 1 and
/// `number_end(b"01", 0)` at 1, both with `InvalidNumber`, and `number_end(b"1e", 0)` at 2 with
/// `EofWhileParsing`.
pub fn number_end(text: &[u8], start: usize) -> Result<usize, Stop>
    requires { start ≤ length text.now }
    ensures ok { IfOk result (λ j. (start < j) × (j ≤ length text.now) × IsNumber text.now start j) }
    ensures err { IfErr result (λ s. IsNumberFault text.now start s) }
{
    match parts_end(text, start) {
        Ok(end) => Ok(end),
        Err(place) => Err(stop_at(text, place, ErrorCode::InvalidNumber)),
    }
}

/// The end of the number at `start`, or `None` where none is: what [`number_end`] answers, without
/// the reason.
///
/// `skip_number(b"1.2.3", 0)` is `Some(3)`, and `skip_number(b"01", 0)` is `None`.
#[inline(always)]
pub fn skip_number(text: &[u8], start: usize) -> Option<usize>
    requires { start ≤ length text.now }
    ensures some { IfSome result (λ j. (start < j) × (j ≤ length text.now) × IsNumber text.now start j) }
    ensures none { result ≡ None → (s : Stop) × IsNumberFault text.now start s }
{
    match parts_end(text, start) {
        Ok(end) => Some(end),
        Err(_) => None,
    }
}

/// The value of the number, where it is an integer with no sign that fits in 64 bits.
///
/// The text is one number of RFC 8259, section 6, and nothing else: `whole_u64("300")` is
/// `Some(300)`. A fraction or an exponent makes it no integer, whatever its value is, and `-0` has
/// a sign: `whole_u64("1e3")`, `whole_u64("-0")` and `whole_u64("18446744073709551616")` are `None`.
pub fn whole_u64(text: &str) -> Option<u64>
    requires { IsNumber text.now 0 (length text.now) }
    ensures { SomeIff result
        (IsWholeText text.now × (byte text.now 0 ≢ 45) × (digits_value 10 text.now < 2 ^ 64))
        (digits_value 10 text.now) }
{
    text.parse::<u64>().ok()
}

/// The value of the number, where it is an integer that fits in 64 bits with a sign.
///
/// The text is one number of RFC 8259, section 6, and nothing else: `whole_i64("-300")` is
/// `Some(-300)`, and `whole_i64("-0")` is `Some(0)`. A fraction or an exponent makes it no integer,
/// whatever its value is: `whole_i64("1.0")` and `whole_i64("9223372036854775808")` are `None`.
pub fn whole_i64(text: &str) -> Option<i64>
    requires { IsNumber text.now 0 (length text.now) }
    ensures { SomeIff result
        (IsWholeText text.now × FitsSigned w64 (signed_digits_value 10 text.now))
        (signed_digits_value 10 text.now) }
{
    text.parse::<i64>().ok()
}
