// Text that several owners share.
ghost use Rattle.std.specs.Prelude.{◌≡◌, ◌≤◌, ◌==◌, ◌↔◌, length, slice_range, nat_eq, refl, Some, IsUtf8, IsCharBoundary, IsOk, IfOk, IfErr};
ghost use Rattle.std.specs.Ordering.{nat_cmp};
ghost use Rattle.std.specs.Hash as fed;
ghost use Rattle.std.specs.Cmp.Lexicographic.{pointwise, slice_cmp, nat_list_eq_equiv, nat_list_cmp_total, texts_ties, texts_po};
ghost use Rattle.std.specs.Cmp.{partial_equiv_from_equiv};
ghost use Rattle.std.specs.Cmp.Rules.{hashing};
ghost use Rattle.std.proofs.Common.{rules};
ghost use Rattle.sonic_error.specs.Errors.{IsPlainError};

use crate::memory::no_memory;
use bytes::Bytes;
use sonic_error::{ErrorCode, Result};
use std::alloc::Global;
use std::cmp::Ordering;
use std::fmt;
use std::hash::{Hash, Hasher};
use std::marker::Model;

/// UTF-8 text over shared bytes.
///
/// A clone and a slice are made to own the bytes of the text that they come from, without a copy.
/// No clause says so, as a clause sees the bytes alone. Texts are equal, ordered and hashed as
/// `&str` is.
///
/// ```text
/// let text = FastStr::new(alloc, "é1")?;
/// let letter = text.slice(alloc, 0, 2)?;
/// assert_eq!(rt; letter.as_str(), "é");
/// ```
#[derive(Drop)]
pub struct FastStr {
    bytes: Bytes,
}

impl Model for FastStr {
    ghost use Rattle.std.specs.Prelude.{ℕ, List, IsUtf8};

    ghost Value = { List ℕ };

    ghost view = { λ text. text.bytes };

    ghost invariant = { λ text. IsUtf8 text.bytes };
}

impl FastStr {
    /// A copy of the text.
    ///
    /// The only error is `ErrorCode::NoMemory`.
    pub fn new(alloc: Global, text: &str) -> Result<FastStr>
        ensures ok { IfOk result (λ made. made ≡ text.now) }
        ensures err { IfErr result (λ error. IsPlainError error ErrorCode.NoMemory) }
    {
        match Bytes::copy_from_slice(alloc, text.as_bytes()) {
            Ok(bytes) => Ok(FastStr { bytes }),
            Err(error) => Err(no_memory(error)),
        }
    }

    /// The bytes as text that is known to be UTF-8: nothing is looked at.
    pub(crate) fn from_known(bytes: Bytes) -> FastStr
        requires { IsUtf8 bytes }
        ensures { result ≡ bytes }
    {
        FastStr { bytes }
    }

    /// The bytes as text, without a copy.
    ///
    /// Bytes that aren't UTF-8 come back: `FastStr::from_bytes(bytes)` is `Err(bytes)` for the
    /// bytes 0x61 0xFF.
    pub fn from_bytes(bytes: Bytes) -> std::result::Result<FastStr, Bytes>
        ensures variant { IsOk result ↔ IsUtf8 bytes }
        ensures ok { IfOk result (λ made. made ≡ bytes) }
        ensures err { IfErr result (λ back. back ≡ bytes) }
    {
        match simdutf8::compat::from_utf8(bytes.as_slice()) {
            Ok(_) => Ok(FastStr { bytes }),
            Err(_) => Err(bytes),
        }
    }

    /// The text.
    ///
    /// Of `FastStr::new(alloc, "é1")?` it is `"é1"`.
    pub fn as_str(&self) -> &str
        ensures { result.now ≡ self.now }
    {
        // SAFETY: that the bytes are UTF-8 is an invariant of the type.
        unsafe { std::str::from_utf8_unchecked(self.bytes.as_slice()) }
    }

    /// The length of the text in bytes: 3 for `é1`.
    pub fn len(&self) -> usize
        ensures { result ≡ length self.now }
    {
        self.bytes.len()
    }

    /// Whether the text has no byte, as `FastStr::new(alloc, "")?`.
    pub fn is_empty(&self) -> bool
        ensures { result ≡ (length self.now == 0) }
    {
        self.bytes.is_empty()
    }

    /// The bytes that the text shares.
    ///
    /// Of `FastStr::new(alloc, "é1")?` they are 0xC3 0xA9 0x31.
    pub fn bytes(&self) -> &Bytes
        ensures value { result.now ≡ self.now }
        ensures utf8 { IsUtf8 result.now }
    {
        &self.bytes
    }

    /// Another owner of the same text.
    ///
    /// The only error is `ErrorCode::NoMemory`. Of `é1` the clone is `é1`.
    pub fn clone(&self, alloc: Global) -> Result<FastStr>
        ensures ok { IfOk result (λ made. made ≡ self.now) }
        ensures err { IfErr result (λ error. IsPlainError error ErrorCode.NoMemory) }
    {
        // The bytes keep the allocator that they were made with.
        let _ = alloc;
        match self.bytes.clone() {
            Ok(bytes) => Ok(FastStr { bytes }),
            Err(error) => Err(no_memory(error)),
        }
    }

    /// An owner of the text from the byte with index `start` to the one before `end`.
    ///
    /// The only error is `ErrorCode::NoMemory`. Of `é1` the slice from 0 to 2 is `é`.
    pub fn slice(&self, alloc: Global, start: usize, end: usize) -> Result<FastStr>
        requires order { start ≤ end }
        requires inside { end ≤ length self.now }
        requires start { IsCharBoundary self.now start }
        requires end { IsCharBoundary self.now end }
        ensures ok { IfOk result (λ made. made ≡ slice_range self.now start end) }
        ensures err { IfErr result (λ error. IsPlainError error ErrorCode.NoMemory) }
    {
        // The bytes keep the allocator that they were made with.
        let _ = alloc;
        match self.bytes.slice(start..end) {
            Ok(bytes) => Ok(FastStr { bytes }),
            Err(error) => Err(no_memory(error)),
        }
    }
}

impl PartialEq for FastStr {
    ghost eq = { pointwise nat_eq };

    ghost laws = { partial_equiv_from_equiv nat_list_eq_equiv };

    fn eq(&self, other: &FastStr) -> bool {
        self.as_str() == other.as_str()
    }
}

impl Eq for FastStr {
    ghost laws = { nat_list_eq_equiv };
}

impl PartialOrd for FastStr {
    ghost partial_cmp = { λ text other. Some (slice_cmp nat_cmp text other) };

    ghost laws = { texts_po };

    fn partial_cmp(&self, other: &FastStr) -> Option<Ordering> {
        Some(self.cmp(other))
    }
}

impl Ord for FastStr {
    ghost cmp = { slice_cmp nat_cmp };

    ghost total = { nat_list_cmp_total };

    ghost matches_partial_cmp = { λ text other. refl };

    ghost matches_eq = { texts_ties };

    fn cmp(&self, other: &FastStr) -> Ordering {
        self.as_str().cmp(other.as_str())
    }
}

impl Hash for FastStr {
    ghost hash_input = { fed.str };

    ghost respects_eq = { Prim.search (hashing, rules) };

    fn hash<H: Hasher>(&self, state: &mut H) {
        self.as_str().hash(state);
    }
}

impl fmt::Display for FastStr {
    ghost output = { λ text. Some text };

    fn fmt<W: fmt::Write>(&self, f: &mut fmt::Formatter<W>) -> fmt::Result {
        fmt::Display::fmt(&self.as_str(), f)
    }
}

impl fmt::Debug for FastStr {
    fn fmt<W: fmt::Write>(&self, f: &mut fmt::Formatter<W>) -> fmt::Result {
        fmt::Debug::fmt(&self.as_str(), f)
    }
}
