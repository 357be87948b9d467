// The kinds of input that JSON is read from.
ghost use Rattle.std.specs.Prelude.{◌≡◌, ◌≤◌, ℕ, Bool, true, false, List, length, slice_range, string_bytes};
ghost use Rattle.std.specs.Str.{IsUtf8};
ghost use Rattle.sonic_input.specs.Slices.{slice_bytes, is_shared};

use crate::faststr::FastStr;
use crate::shared::SharedSlice;
use crate::slice::JsonSlice;
use bytes::Bytes;

mod sealed {
    pub trait Sealed {}
}

/// What JSON can be read from: `&[u8]`, `&str`, `&String`, `&Bytes` and `&FastStr`.
///
/// No other type can implement it. `&[u8]` and `&Bytes` may hold bytes that aren't UTF-8, and
/// a reader finds these before it hands out text. The others are text already.
pub trait JsonInput<'de>: Copy + sealed::Sealed {
    // The bytes of the input.
    ghost content: { Self → List ℕ };

    // It may hold bytes that aren't UTF-8.
    ghost is_bytes: { Bool };

    // Text that is made of it shares its bytes.
    ghost shares: { Bool };

    /// Whether the input may hold bytes that aren't UTF-8.
    ///
    /// It is so for `&[u8]` and `&Bytes`.
    fn need_utf8_valid(&self) -> bool
        ensures { result ≡ is_bytes };

    /// The whole input, `Shared` for `&Bytes` and `&FastStr`, and else `Raw`.
    ///
    /// `"[1]".to_json_slice()` is `JsonSlice::Raw(b"[1]")`.
    fn to_json_slice(&self) -> JsonSlice<'de>
        ensures bytes { slice_bytes result ≡ content self.now }
        ensures variant { is_shared result ≡ shares };

    /// The input from the byte with index `start` to the one before `end`, of the same variant
    /// as the whole.
    ///
    /// `"[12]".from_range(1, 3)` is `JsonSlice::Raw(b"12")`.
    fn from_range(&self, start: usize, end: usize) -> JsonSlice<'de>
        requires order { start ≤ end }
        requires inside { end ≤ length (content self.now) }
        ensures bytes { slice_bytes result ≡ slice_range (content self.now) start end }
        ensures variant { is_shared result ≡ shares };

    /// The bytes of the input.
    ///
    /// `"é".to_u8_slice()` is `[0xC3, 0xA9]`.
    fn to_u8_slice(&self) -> &'de [u8]
        ensures bytes { result.now ≡ content self.now }
        ensures utf8 { is_bytes ≡ false → IsUtf8 (content self.now) };
}

impl<'de> sealed::Sealed for &'de [u8] {}

impl<'de> sealed::Sealed for &'de str {}

impl<'de> sealed::Sealed for &'de String {}

impl<'de> sealed::Sealed for &'de Bytes {}

impl<'de> sealed::Sealed for &'de FastStr {}

impl<'de> JsonInput<'de> for &'de [u8] {
    ghost content = { λ input. input.now };

    ghost is_bytes = { true };

    ghost shares = { false };

    fn need_utf8_valid(&self) -> bool {
        true
    }

    fn to_json_slice(&self) -> JsonSlice<'de> {
        JsonSlice::Raw(*self)
    }

    fn from_range(&self, start: usize, end: usize) -> JsonSlice<'de> {
        let bytes: &'de [u8] = *self;
        JsonSlice::Raw(&bytes[start..end])
    }

    fn to_u8_slice(&self) -> &'de [u8] {
        *self
    }
}

impl<'de> JsonInput<'de> for &'de str {
    ghost content = { λ input. input.now };

    ghost is_bytes = { false };

    ghost shares = { false };

    fn need_utf8_valid(&self) -> bool {
        false
    }

    fn to_json_slice(&self) -> JsonSlice<'de> {
        JsonSlice::Raw(self.to_u8_slice())
    }

    fn from_range(&self, start: usize, end: usize) -> JsonSlice<'de> {
        JsonSlice::Raw(&self.to_u8_slice()[start..end])
    }

    fn to_u8_slice(&self) -> &'de [u8] {
        let text: &'de str = *self;
        text.as_bytes()
    }
}

impl<'de> JsonInput<'de> for &'de String {
    ghost content = { λ input. string_bytes input.now };

    ghost is_bytes = { false };

    ghost shares = { false };

    fn need_utf8_valid(&self) -> bool {
        false
    }

    fn to_json_slice(&self) -> JsonSlice<'de> {
        JsonSlice::Raw(self.to_u8_slice())
    }

    fn from_range(&self, start: usize, end: usize) -> JsonSlice<'de> {
        JsonSlice::Raw(&self.to_u8_slice()[start..end])
    }

    fn to_u8_slice(&self) -> &'de [u8] {
        let text: &'de String = *self;
        text.as_str().as_bytes()
    }
}

impl<'de> JsonInput<'de> for &'de Bytes {
    ghost content = { λ input. input.now };

    ghost is_bytes = { true };

    ghost shares = { true };

    fn need_utf8_valid(&self) -> bool {
        true
    }

    fn to_json_slice(&self) -> JsonSlice<'de> {
        let bytes: &'de Bytes = *self;
        JsonSlice::Shared(SharedSlice::new(bytes, 0, bytes.len()))
    }

    fn from_range(&self, start: usize, end: usize) -> JsonSlice<'de> {
        let bytes: &'de Bytes = *self;
        JsonSlice::Shared(SharedSlice::new(bytes, start, end))
    }

    fn to_u8_slice(&self) -> &'de [u8] {
        let bytes: &'de Bytes = *self;
        bytes.as_slice()
    }
}

impl<'de> JsonInput<'de> for &'de FastStr {
    ghost content = { λ input. input.now };

    ghost is_bytes = { false };

    ghost shares = { true };

    fn need_utf8_valid(&self) -> bool {
        false
    }

    fn to_json_slice(&self) -> JsonSlice<'de> {
        let bytes: &'de Bytes = self.bytes();
        JsonSlice::Shared(SharedSlice::new(bytes, 0, bytes.len()))
    }

    fn from_range(&self, start: usize, end: usize) -> JsonSlice<'de> {
        let bytes: &'de Bytes = self.bytes();
        JsonSlice::Shared(SharedSlice::new(bytes, start, end))
    }

    fn to_u8_slice(&self) -> &'de [u8] {
        let bytes: &'de Bytes = self.bytes();
        bytes.as_slice()
    }
}
