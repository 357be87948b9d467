// Numbers that keep their text.
ghost use Rattle.std.specs.Prelude.{◌≡◌, ◌≢◌, ◌↔◌, ◌<◌, ◌≤◌, ◌^◌, ℕ, List, None, length, IsSome, IsTrue, IfSome, IfOk, IfErr, OnErr, nat_eq, FitsSigned, is_some};
ghost use Rattle.std.proofs.Common.{rules};
ghost use Rattle.std.specs.Cmp.{partial_equiv_from_equiv};
ghost use Rattle.std.specs.Cmp.Lexicographic.{pointwise, nat_list_eq_equiv};
ghost use Rattle.std.specs.Cmp.Rules.{hashing};
ghost use Rattle.std.specs.Hash as fed;
ghost use Rattle.std.specs.Int.{w64};
ghost use Rattle.std.specs.Option.{SomeIff};
ghost use Rattle.std.specs.Str.Parse.{digits_value, signed_digits_value};
ghost use Rattle.sonic_error.specs.Errors.{IsPlainError};
ghost use Rattle.sonic_text.specs.Numbers.{IsWholeText};
ghost use Rattle.sonic_text.specs.Places.{byte};
ghost use Rattle.sonic_parser.specs.Faults.{IsStopFor};
ghost use Rattle.sonic_lazy.specs.RawNumbers.{IsNumberText, IsNumberDocument, IsNoNumber, IsNumberError};

use crate::lazyvalue::LazyValue;
use crate::value_trait::JsonValueTrait;
use sonic_error::{ErrorCode, Note, Result, Wanted};
use sonic_find::internal::pass_alone;
use sonic_input::{FastStr, JsonSlice, Read};
use sonic_parser::{Fault, ValueSpan};
use sonic_text::internal::skip_number;
use sonic_text::{Stop, type_of, whole_i64, whole_u64};
use std::alloc::Global;
use std::fmt;
use std::hash::{Hash, Hasher};
use std::marker::Model;

/// A number of any size and precision, by its text (RFC 8259, section 6).
///
/// Numbers are equal and hashed as their texts are, so `1.0` and `1` differ, and a clause sees the
/// text.
///
/// ```text
/// let number = RawNumber::from_str(alloc, " 1.10")?;
/// assert_eq!(rt; number.as_str(), "1.10");
/// assert_eq!(rt; number.as_i64(), None);
/// ```
#[derive(Drop)]
pub struct RawNumber {
    text: FastStr,
}

impl Model for RawNumber {
    ghost use Rattle.std.specs.Prelude.{ℕ, List};
    ghost use Rattle.sonic_lazy.specs.RawNumbers.{IsNumberText};

    ghost Value = { List ℕ };

    ghost view = { λ number. number.text };

    ghost invariant = { λ number. IsNumberText number.text };
}

impl RawNumber {
    /// The number that a document is, or that a string has between its quotes.
    ///
    /// Else the error is the first of these: the fault of the document's value;
    /// `ErrorCode::TrailingCharacters`; for a value of another type a `Note::Mismatch` at its last
    /// byte; and `ErrorCode::InvalidNumber` at the first quote of another string. Running out of
    /// memory is `ErrorCode::NoMemory` without a place.
    ///
    /// Of ` 123 ` and of `"123"` it is `123`, and of `"12x"` the error has the offset 0.
    pub fn from_str(alloc: Global, json: &str) -> Result<RawNumber>
        ensures ok { IfOk result (IsNumberDocument json.now) }
        ensures err { IfErr result (IsNumberError json.now) }
        ensures complete { (n : List ℕ) → IsNumberDocument json.now n
            → IfErr result (λ error. IsPlainError error ErrorCode.NoMemory) }
    {
        let number = match number_of(alloc, json.as_bytes()) {
            Ok(number) => number,
            Err(fault) => return Err(fault.error(json.as_bytes())),
        };
        match FastStr::new(alloc, number) {
            Ok(text) => Ok(RawNumber { text }),
            Err(error) => Err(error),
        }
    }

    /// The text: of the number `1.10` it is `"1.10"`.
    pub fn as_str(&self) -> &str
        ensures text { result.now ≡ self.now }
        ensures number { IsNumberText result.now }
    {
        self.text.as_str()
    }

    /// The value where it is an integer that fits in 64 bits with a sign, by its text: `Some(-1)` for
    /// `-1`, and `None` for `1.0`.
    pub fn as_i64(&self) -> Option<i64>
        ensures { SomeIff result (IsWholeText self.now × FitsSigned w64 (signed_digits_value 10 self.now))
            (signed_digits_value 10 self.now) }
    {
        whole_i64(self.as_str())
    }

    /// The value where it is an integer with no sign that fits in 64 bits, by its text: `Some(1)` for
    /// `1`, and `None` for `-0`.
    pub fn as_u64(&self) -> Option<u64>
        ensures { SomeIff result
            (IsWholeText self.now × (byte self.now 0 ≢ 45) × (digits_value 10 self.now < 2 ^ 64))
            (digits_value 10 self.now) }
    {
        whole_u64(self.as_str())
    }

    /// Whether `as_i64` is `Some`.
    pub fn is_i64(&self) -> bool
        ensures { IsTrue result ↔ (IsWholeText self.now × FitsSigned w64 (signed_digits_value 10 self.now)) }
    {
        self.as_i64().is_some()
    }

    /// Whether `as_u64` is `Some`.
    pub fn is_u64(&self) -> bool
        ensures { IsTrue result
            ↔ (IsWholeText self.now × (byte self.now 0 ≢ 45) × (digits_value 10 self.now < 2 ^ 64)) }
    {
        self.as_u64().is_some()
    }
}

// The text of the number that a document is, or that a string has between its quotes.
fn number_of(alloc: Global, text: &[u8]) -> std::result::Result<&str, Fault>
    ensures ok { IfOk result (λ number. IsNumberDocument text.now number.now) }
    ensures number { IfOk result (λ number. IsNumberText number.now) }
    ensures err { IfErr result (IsStopFor (IsNoNumber text.now)) }
    ensures within { IfErr result (IsStopFor (λ s. s.place ≤ length text.now)) }
{
    let ValueSpan { start, end, .. } = pass_alone(alloc, Read::unscanned(JsonSlice::Raw(text)))?;
    let first = text[start];
    if first == b'"' {
        return match whole_number(&text[start + 1..end - 1]) {
            Some(number) => Ok(number),
            None => Err(stop_at(start, ErrorCode::InvalidNumber)),
        };
    }
    match whole_number(&text[start..end]) {
        Some(number) => Ok(number),
        None => {
            let found = type_of(first);
            let wanted = Wanted::Number;
            let code = ErrorCode::Message(Note::Mismatch { found, wanted });
            Err(stop_at(end - 1, code))
        }
    }
}

// The fault of the text with this place and code.
fn stop_at(place: usize, code: ErrorCode) -> Fault
    ensures { result ≡ Fault.At (record { place = place; code = code }) }
{
    Fault::At(Stop { place, code })
}

// The bytes as text, where they are a number from end to end.
fn whole_number(bytes: &[u8]) -> Option<&str>
    ensures some { IfSome result (λ number. (number.now ≡ bytes.now) × IsNumberText number.now) }
    ensures none { result ≡ None → ¬ IsNumberText bytes.now }
{
    match skip_number(bytes, 0) {
        Some(end) if end == bytes.len() => {
            // SAFETY: each byte of a number is ASCII.
            Some(unsafe { std::str::from_utf8_unchecked(bytes) })
        }
        _ => None,
    }
}

impl<'a> LazyValue<'a> {
    ghost use Rattle.sonic_lazy.specs.LazyValues.{raw_bytes};

    /// The number with its text where the value is one, and else `None`. A quoted number is a string.
    ///
    /// The only error is `ErrorCode::NoMemory`, and of a number alone. Of `1.10` it is the number
    /// `1.10`.
    pub fn as_raw_number(&self, alloc: Global) -> Result<Option<RawNumber>>
        ensures some { IfOk result (λ found. IsSome found ↔ IsNumberText (raw_bytes self.now)) }
        ensures text { IfOk result (λ found. IfSome found (λ number. number ≡ raw_bytes self.now)) }
        ensures err { IfErr result (λ error. IsPlainError error ErrorCode.NoMemory) }
        ensures memory { OnErr result (IsNumberText (raw_bytes self.now)) }
    {
        if !self.is_number() {
            return Ok(None);
        }
        match self.as_raw_faststr(alloc) {
            Ok(text) => Ok(Some(RawNumber { text })),
            Err(error) => Err(error),
        }
    }
}

impl PartialEq for RawNumber {
    ghost eq = { pointwise nat_eq };

    ghost laws = { partial_equiv_from_equiv nat_list_eq_equiv };

    fn eq(&self, other: &RawNumber) -> bool {
        self.as_str() == other.as_str()
    }
}

impl Eq for RawNumber {
    ghost laws = { nat_list_eq_equiv };
}

impl Hash for RawNumber {
    ghost hash_input = { fed.str };

    ghost respects_eq = { Prim.search (hashing, rules) };

    fn hash<H: Hasher>(&self, state: &mut H) {
        self.as_str().hash(state);
    }
}

impl fmt::Debug for RawNumber {
    fn fmt<W: fmt::Write>(&self, f: &mut fmt::Formatter<W>) -> fmt::Result {
        fmt::Debug::fmt(&self.as_str(), f)
    }
}
