// A part of an input, borrowed from it.
ghost use Rattle.std.proofs.Common.{rules};
ghost use Rattle.std.specs.Cmp.Rules.{comparing, hashing};

use crate::faststr::FastStr;
use crate::input::JsonInput;
use crate::memory::no_memory;
use crate::shared::SharedSlice;
use bytes::Bytes;
use sonic_error::{ErrorCode, Result};
use std::alloc::Global;
use std::cmp::Ordering;
use std::hash::{Hash, Hasher};

/// A part of an input, or the whole of it.
///
/// It borrows the input, and remembers whether text that is made of it can share the input's
/// bytes: `Shared` can, and text made of `Raw` is a copy. Slices are equal, ordered and hashed
/// as their bytes are, whatever the variant.
#[derive(Clone, Copy, Debug)]
pub enum JsonSlice<'de> {
    /// A part of bytes that aren't shared.
    Raw(&'de [u8]),
    /// A part of shared bytes.
    Shared(SharedSlice<'de>),
}

impl<'de> JsonSlice<'de> {
    ghost use Rattle.std.specs.Prelude.{◌≡◌, ◌≤◌, length, slice_range, IsUtf8, IfOk, IfErr};
    ghost use Rattle.sonic_error.specs.Errors.{IsPlainError};
    ghost use Rattle.sonic_input.specs.Slices.{slice_bytes, is_shared};

    /// The bytes, for as long as the slice is borrowed.
    ///
    /// `bytes` gives them for as long as the input lives. `JsonSlice::Raw(b"ab").as_ref()` is
    /// `b"ab"`.
    pub fn as_ref(&self) -> &[u8]
        ensures { result.now ≡ slice_bytes self.now }
    {
        self.bytes()
    }

    /// The bytes, for as long as the input lives.
    ///
    /// `JsonSlice::Raw(b"ab").bytes()` is `b"ab"`.
    pub fn bytes(&self) -> &'de [u8]
        ensures { result.now ≡ slice_bytes self.now }
    {
        match self {
            JsonSlice::Raw(bytes) => *bytes,
            JsonSlice::Shared(shared) => shared.bytes(),
        }
    }

    /// The bytes from the one with index `start` to the one before `end`, of the same variant.
    ///
    /// `JsonSlice::Raw(b"[12]").part(1, 3)` is `JsonSlice::Raw(b"12")`.
    pub fn part(&self, start: usize, end: usize) -> JsonSlice<'de>
        requires order { start ≤ end }
        requires inside { end ≤ length (slice_bytes self.now) }
        ensures bytes { slice_bytes result ≡ slice_range (slice_bytes self.now) start end }
        ensures variant { is_shared result ≡ is_shared self.now }
    {
        match self {
            JsonSlice::Raw(bytes) => JsonSlice::Raw(&bytes[start..end]),
            JsonSlice::Shared(shared) => JsonSlice::Shared(shared.part(start, end)),
        }
    }

    /// The bytes as text of its own, which outlives the input.
    ///
    /// Text of `Raw` is a copy, and text of `Shared` is another owner of the shared bytes. The
    /// only error is `ErrorCode::NoMemory`. Of `JsonSlice::Raw(b"ab")` the text is `ab`.
    pub fn as_faststr(&self, alloc: Global) -> Result<FastStr>
        requires { IsUtf8 (slice_bytes self.now) }
        ensures ok { IfOk result (λ text. text ≡ slice_bytes self.now) }
        ensures err { IfErr result (λ error. IsPlainError error ErrorCode.NoMemory) }
    {
        let shared = match self {
            JsonSlice::Raw(bytes) => Bytes::copy_from_slice(alloc, *bytes),
            JsonSlice::Shared(shared) => shared.share(),
        };
        match shared {
            Ok(bytes) => Ok(FastStr::from_known(bytes)),
            Err(error) => Err(no_memory(error)),
        }
    }
}

/// The slice `null`, as where there is no value.
impl<'de> Default for JsonSlice<'de> {
    ghost use Rattle.std.specs.Prelude.{◌≡◌, codes, false};
    ghost use Rattle.sonic_input.specs.Slices.{slice_bytes, is_shared};

    ghost is_default = { λ slice. (slice_bytes slice ≡ codes "null") × (is_shared slice ≡ false) };

    fn default() -> JsonSlice<'de> {
        JsonSlice::Raw(b"null")
    }
}

impl<'de> From<&'de [u8]> for JsonSlice<'de> {
    ghost use Rattle.std.specs.Prelude.{◌≡◌, false};
    ghost use Rattle.sonic_input.specs.Slices.{slice_bytes, is_shared};

    ghost from_gives = { λ input slice. (slice_bytes slice ≡ input.now) × (is_shared slice ≡ false) };

    fn from(input: &'de [u8]) -> JsonSlice<'de> {
        input.to_json_slice()
    }
}

impl<'de> From<&'de str> for JsonSlice<'de> {
    ghost use Rattle.std.specs.Prelude.{◌≡◌, false};
    ghost use Rattle.sonic_input.specs.Slices.{slice_bytes, is_shared};

    ghost from_gives = { λ input slice. (slice_bytes slice ≡ input.now) × (is_shared slice ≡ false) };

    fn from(input: &'de str) -> JsonSlice<'de> {
        input.to_json_slice()
    }
}

impl<'de> From<&'de String> for JsonSlice<'de> {
    ghost use Rattle.std.specs.Prelude.{◌≡◌, false, string_bytes};
    ghost use Rattle.sonic_input.specs.Slices.{slice_bytes, is_shared};

    ghost from_gives = { λ input slice. (slice_bytes slice ≡ string_bytes input.now) × (is_shared slice ≡ false) };

    fn from(input: &'de String) -> JsonSlice<'de> {
        input.to_json_slice()
    }
}

impl<'de> From<&'de Bytes> for JsonSlice<'de> {
    ghost use Rattle.std.specs.Prelude.{◌≡◌, true};
    ghost use Rattle.sonic_input.specs.Slices.{slice_bytes, is_shared};

    ghost from_gives = { λ input slice. (slice_bytes slice ≡ input.now) × (is_shared slice ≡ true) };

    fn from(input: &'de Bytes) -> JsonSlice<'de> {
        input.to_json_slice()
    }
}

impl<'de> From<&'de FastStr> for JsonSlice<'de> {
    ghost use Rattle.std.specs.Prelude.{◌≡◌, true};
    ghost use Rattle.sonic_input.specs.Slices.{slice_bytes, is_shared};

    ghost from_gives = { λ input slice. (slice_bytes slice ≡ input.now) × (is_shared slice ≡ true) };

    fn from(input: &'de FastStr) -> JsonSlice<'de> {
        input.to_json_slice()
    }
}

impl<'de> PartialEq for JsonSlice<'de> {
    ghost use Rattle.std.specs.Prelude.{nat_eq};
    ghost use Rattle.std.specs.Ordering.{on};
    ghost use Rattle.std.specs.Cmp.Lexicographic.{pointwise};
    ghost use Rattle.sonic_input.specs.Slices.{slice_bytes};

    ghost eq = { on slice_bytes (pointwise nat_eq) };

    ghost laws = { Prim.search (comparing, rules) };

    fn eq(&self, other: &JsonSlice<'de>) -> bool {
        self.bytes() == other.bytes()
    }
}

impl<'de> Eq for JsonSlice<'de> {
    ghost laws = { Prim.search (comparing, rules) };
}

impl<'de> PartialOrd for JsonSlice<'de> {
    ghost use Rattle.std.specs.Cmp.{partial_order_from_own_ties};
    ghost use Rattle.std.specs.Ordering.{nat_cmp, on, as_partial_cmp};
    ghost use Rattle.std.specs.Cmp.Lexicographic.{slice_cmp};
    ghost use Rattle.sonic_input.specs.Slices.{slice_bytes};

    ghost partial_cmp = { as_partial_cmp (on slice_bytes (slice_cmp nat_cmp)) };

    ghost laws = { partial_order_from_own_ties (Prim.search (comparing, rules)) (Prim.search (comparing, rules)) };

    fn partial_cmp(&self, other: &JsonSlice<'de>) -> Option<Ordering> {
        Some(self.cmp(other))
    }
}

impl<'de> Ord for JsonSlice<'de> {
    ghost use Rattle.std.specs.Ordering.{nat_cmp, on};
    ghost use Rattle.std.specs.Cmp.Lexicographic.{slice_cmp};
    ghost use Rattle.sonic_input.specs.Slices.{slice_bytes};

    ghost cmp = { on slice_bytes (slice_cmp nat_cmp) };

    ghost total = { Prim.search (comparing, rules) };

    ghost matches_partial_cmp = { Prim.search (comparing, rules) };

    ghost matches_eq = { Prim.search (comparing, rules) };

    fn cmp(&self, other: &JsonSlice<'de>) -> Ordering {
        self.bytes().cmp(other.bytes())
    }
}

impl<'de> Hash for JsonSlice<'de> {
    ghost use Rattle.std.specs.Hash as fed;
    ghost use Rattle.sonic_input.specs.Slices.{slice_bytes};

    ghost hash_input = { λ slice. fed.slice fed.u8 (slice_bytes slice) };

    ghost respects_eq = { Prim.search (hashing, rules) };

    fn hash<H: Hasher>(&self, state: &mut H) {
        self.bytes().hash(state);
    }
}
