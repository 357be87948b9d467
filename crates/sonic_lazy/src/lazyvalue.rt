// One value that was found in a text and isn't read yet.
ghost use Rattle.std.proofs.Common.{rules};
ghost use Rattle.std.specs.Cmp.Rules.{comparing, hashing};
ghost use Rattle.sonic_input.specs.Slices.{slice_bytes};
ghost use Rattle.sonic_lazy.specs.Wholes.{IsWholeValue};

use crate::value_trait::JsonValueTrait;
use sonic_error::ErrorCode;
use sonic_input::{FastStr, JsonInput, JsonSlice};
use sonic_parser::ValueSpan;
use std::alloc::{AllocError, Global};
use std::borrow::CowStr;
use std::cmp::Ordering;
use std::fmt;
use std::hash::{Hash, Hasher};

/// One whole value of a text, which isn't read yet.
///
/// It borrows its text, which is UTF-8 and has no white space at its ends. Values are equal,
/// ordered and hashed as their texts are, so `1.0` and `1` differ.
///
/// ```text
/// let value = LazyValue::whole(JsonSlice::from("[1, 2]"), false);
/// assert_eq!(rt; value.as_raw_str(), "[1, 2]");
/// ```
#[derive(Drop)]
pub struct LazyValue<'a> {
    raw: JsonSlice<'a>,
    has_escaped: bool,
    ghost whole: { ∥ IsWholeValue (slice_bytes raw) has_escaped ∥₁ },
}

impl<'a> LazyValue<'a> {
    ghost use Rattle.std.specs.Prelude.{◌≡◌, ◌↔◌, IsSome, IsTrue, IfSome, IfOk, IfErr, OnErr, slice_range};
    ghost use Rattle.sonic_find.specs.Parts.{IsPart};
    ghost use Rattle.sonic_parser.specs.ValueSpans.{FlagsEscape};
    ghost use Rattle.std.specs.Cow.{IsBorrowedStr, cow_str_bytes};
    ghost use Rattle.sonic_error.specs.Errors.{IsPlainError};
    ghost use Rattle.sonic_lazy.specs.LazyValues.{raw_bytes, has_escapes};
    ghost use Rattle.sonic_lazy.specs.Scalars.{text, scalar_of};
    ghost use Rattle.sonic_lazy.specs.StringTexts.{IsTextOf, IsEscapedText};

    /// The value whose text this is, and whether it is a string with a backslash.
    ///
    /// Nothing is looked at. `LazyValue::whole(JsonSlice::from("[1]"), false)` is the array of a 1.
    pub fn whole(raw: JsonSlice<'a>, has_escaped: bool) -> LazyValue<'a>
        requires { IsWholeValue (slice_bytes raw) has_escaped }
        ensures text { raw_bytes result ≡ slice_bytes raw.entry }
        ensures escapes { has_escapes result ≡ has_escaped }
    {
        LazyValue { raw, has_escaped }
    }

    // The value of an input that was found where the span is.
    #[tactic(auto, using(crate::proofs::WholeLemmas::entries))]
    pub(crate) fn at<I: JsonInput<'a>>(input: I, found: ValueSpan) -> LazyValue<'a>
        requires value { IsPart (I.JsonInput.content input) found.start found.end }
        requires escaped { FlagsEscape (I.JsonInput.content input) found }
        ensures { raw_bytes result ≡ slice_range (I.JsonInput.content input) found.start found.end }
    {
        LazyValue::whole(input.from_range(found.start, found.end), found.escaped)
    }

    /// The text of the value, as long as the value is borrowed.
    ///
    /// Of the value `[1]` it is `"[1]"`, and of the value `"a"` it has both quotes.
    pub fn as_raw_str(&self) -> &str
        ensures { result.now ≡ raw_bytes self.now }
    {
        self.text()
    }

    /// The text of the value, as long as the input lives.
    ///
    /// Of the value `[1]` it is `CowStr::Borrowed("[1]")`.
    pub fn as_raw_cow(&self) -> CowStr<'a>
        ensures text { cow_str_bytes result ≡ raw_bytes self.now }
        ensures borrowed { IsBorrowedStr result }
    {
        CowStr::Borrowed(self.text())
    }

    /// The text of the value as text of its own, which outlives the input.
    ///
    /// The only error is `ErrorCode::NoMemory`. Of the value `"a"` it has both quotes. Whether it
    /// shares the bytes of a shared input is said by no clause.
    // Inlined, what it gives is moved byte by byte.
    #[inline(never)]
    pub fn as_raw_faststr(&self, alloc: Global) -> sonic_error::Result<FastStr>
        ensures ok { IfOk result (λ made. made ≡ raw_bytes self.now) }
        ensures err { IfErr result (λ error. IsPlainError error ErrorCode.NoMemory) }
    {
        self.raw.as_faststr(alloc)
    }

    /// What the value denotes where it is a string (RFC 8259, section 7), and else `None`.
    ///
    /// The text is borrowed from the input exactly where the string has no backslash, and else
    /// made anew at each call. Of `"a"` it is `CowStr::Borrowed("a")`, of `"\u0061"` the owned text
    /// `a`, and of `1` it is `None`. The only error is `ErrorCode::NoMemory`, and a value that is no
    /// string with a backslash has none.
    pub fn as_str(&self, alloc: Global) -> sonic_error::Result<Option<CowStr<'a>>>
        ensures some { IfOk result (λ found. IsSome found ↔ (scalar_of (raw_bytes self.now) ≡ text)) }
        ensures text { IfOk result (λ found. IfSome found (IsTextOf (raw_bytes self.now))) }
        ensures err { IfErr result (λ error. IsPlainError error ErrorCode.NoMemory) }
        ensures memory { OnErr result (IsEscapedText (raw_bytes self.now)) }
    {
        if !self.is_str() {
            return Ok(None);
        }
        let text = self.raw.bytes();
        let string = ValueSpan {
            start: 0,
            end: text.len(),
            escaped: self.has_escaped,
        };
        Ok(Some(string.text(alloc, text)?))
    }

    /// Whether the value is a string with a backslash, which denotes other bytes than those between
    /// its quotes.
    ///
    /// Of `"\n"` it is true, and of `"n"` and `["\n"]` it isn't.
    pub fn has_escaped(&self) -> bool
        ensures escapes { result ≡ has_escapes self.now }
        ensures text { IsTrue result ↔ IsEscapedText (raw_bytes self.now) }
    {
        self.has_escaped
    }

    // The part of the input that is the value.
    pub(crate) fn raw(&self) -> JsonSlice<'a>
        ensures { slice_bytes result ≡ raw_bytes self.now }
    {
        self.raw
    }

    fn text(&self) -> &'a str
        ensures { result.now ≡ raw_bytes self.now }
    {
        // SAFETY: that the bytes are UTF-8 is a part of `whole`, an invariant of the type.
        unsafe { std::str::from_utf8_unchecked(self.raw.bytes()) }
    }
}

/// The same value, which takes no memory.
impl<'a> Clone for LazyValue<'a> {
    ghost use Rattle.std.specs.Prelude.{◌≡◌, ⊤};

    ghost is_clone = { λ value copy. copy ≡ value };

    ghost is_infallible = { λ value. ⊤ };

    fn clone(&self) -> Result<LazyValue<'a>, AllocError> {
        Ok(LazyValue {
            raw: self.raw,
            has_escaped: self.has_escaped,
        })
    }
}

/// The value `null`.
impl<'a> Default for LazyValue<'a> {
    ghost use Rattle.std.specs.Prelude.{◌≡◌, codes, IsFalse};
    ghost use Rattle.sonic_lazy.specs.LazyValues.{raw_bytes, has_escapes};

    ghost is_default = { λ value. (raw_bytes value ≡ codes "null") × IsFalse (has_escapes value) };

    fn default() -> LazyValue<'a> {
        LazyValue {
            raw: JsonSlice::default(),
            has_escaped: false,
        }
    }
}

impl<'a> PartialEq for LazyValue<'a> {
    ghost use Rattle.std.specs.Prelude.{nat_eq};
    ghost use Rattle.std.specs.Ordering.{on};
    ghost use Rattle.std.specs.Cmp.Lexicographic.{pointwise};
    ghost use Rattle.sonic_lazy.specs.LazyValues.{raw_bytes};

    ghost eq = { on raw_bytes (pointwise nat_eq) };

    ghost laws = { Prim.search (comparing, rules) };

    fn eq(&self, other: &LazyValue<'a>) -> bool {
        self.raw == other.raw
    }
}

impl<'a> Eq for LazyValue<'a> {
    ghost laws = { Prim.search (comparing, rules) };
}

impl<'a> PartialOrd for LazyValue<'a> {
    ghost use Rattle.std.specs.Cmp.{partial_order_from_own_ties};
    ghost use Rattle.std.specs.Ordering.{nat_cmp, on, as_partial_cmp};
    ghost use Rattle.std.specs.Cmp.Lexicographic.{slice_cmp};
    ghost use Rattle.sonic_lazy.specs.LazyValues.{raw_bytes};

    ghost partial_cmp = { as_partial_cmp (on raw_bytes (slice_cmp nat_cmp)) };

    ghost laws = { partial_order_from_own_ties (Prim.search (comparing, rules)) (Prim.search (comparing, rules)) };

    fn partial_cmp(&self, other: &LazyValue<'a>) -> Option<Ordering> {
        Some(self.cmp(other))
    }
}

impl<'a> Ord for LazyValue<'a> {
    ghost use Rattle.std.specs.Ordering.{nat_cmp, on};
    ghost use Rattle.std.specs.Cmp.Lexicographic.{slice_cmp};
    ghost use Rattle.sonic_lazy.specs.LazyValues.{raw_bytes};

    ghost cmp = { on raw_bytes (slice_cmp nat_cmp) };

    ghost total = { Prim.search (comparing, rules) };

    ghost matches_partial_cmp = { Prim.search (comparing, rules) };

    ghost matches_eq = { Prim.search (comparing, rules) };

    fn cmp(&self, other: &LazyValue<'a>) -> Ordering {
        self.raw.cmp(&other.raw)
    }
}

impl<'a> Hash for LazyValue<'a> {
    ghost use Rattle.std.specs.Hash as fed;
    ghost use Rattle.sonic_lazy.specs.LazyValues.{raw_bytes};

    ghost hash_input = { λ value. fed.slice fed.u8 (raw_bytes value) };

    ghost respects_eq = { Prim.search (hashing, rules) };

    fn hash<H: Hasher>(&self, state: &mut H) {
        self.raw.hash(state);
    }
}

impl<'a> fmt::Display for LazyValue<'a> {
    ghost use Rattle.std.specs.Prelude.{Some};
    ghost use Rattle.sonic_lazy.specs.LazyValues.{raw_bytes};

    ghost output = { λ value. Some (raw_bytes value) };

    fn fmt<W: fmt::Write>(&self, f: &mut fmt::Formatter<W>) -> fmt::Result {
        fmt::Display::fmt(&self.text(), f)
    }
}

/// The text of the value in quotes, as that of a `&str` is shown: of `["a"]` it is `"[\"a\"]"`.
impl<'a> fmt::Debug for LazyValue<'a> {
    fn fmt<W: fmt::Write>(&self, f: &mut fmt::Formatter<W>) -> fmt::Result {
        fmt::Debug::fmt(&self.text(), f)
    }
}
