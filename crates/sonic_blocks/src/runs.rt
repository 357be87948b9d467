// Where a run of bytes of one kind ends, and where the first byte of another kind is.
ghost use Rattle.std.specs.Prelude.{◌≡◌, ◌+◌, ◌<◌, ◌≤◌, ◌↔◌, IsTrue, length, drop, MatchOption, IfSome, IfNone};
ghost use Rattle.std.specs.List.{prefix_len};
ghost use Rattle.std.specs.Char.{is_ascii_digit};
ghost use Rattle.sonic_blocks.specs.Bits.{is_space};
ghost use Rattle.sonic_blocks.specs.Firsts.{is_one_of, IsFirst, HasNone};
ghost use Rattle.sonic_blocks.specs.Runs.{is_no_backslash, is_plain};

use std::simd::prelude::*;

// A kind of bytes, known by a byte and by lanes of bytes.
trait ByteKind {
    ghost use Rattle.std.specs.Prelude.{◌≡◌, ℕ, Bool, map, not};
    ghost use Rattle.std.specs.Simd.Lanes.{mask_l};

    // Whether a byte is of the kind.
    ghost test: { Self → ℕ → Bool };

    fn holds(&self, byte: u8) -> bool
        ensures { result ≡ test self.now byte };

    // The lanes that hold a byte of no such kind.
    fn misses(&self, lanes: u8x16) -> u64
        ensures { result ≡ mask_l (map (λ b. not (test self.now b)) lanes) };
}

// Digits.
#[derive(Clone, Copy)]
struct Digits;

impl ByteKind for Digits {
    ghost test = { λ kind. is_ascii_digit };

    #[inline(always)]
    fn holds(&self, byte: u8) -> bool {
        byte.is_ascii_digit()
    }

    #[inline(always)]
    fn misses(&self, lanes: u8x16) -> u64 {
        (lanes - u8x16::splat(b'0'))
            .simd_ge(u8x16::splat(10))
            .to_bitmask()
    }
}

// White space.
#[derive(Clone, Copy)]
struct Spaces;

impl ByteKind for Spaces {
    ghost test = { λ kind. is_space };

    #[inline(always)]
    fn holds(&self, byte: u8) -> bool {
        matches!(byte, b' ' | b'\t' | b'\n' | b'\r')
    }

    #[inline(always)]
    fn misses(&self, lanes: u8x16) -> u64 {
        (lanes.simd_ne(u8x16::splat(b' '))
            & lanes.simd_ne(u8x16::splat(b'\t'))
            & lanes.simd_ne(u8x16::splat(b'\n'))
            & lanes.simd_ne(u8x16::splat(b'\r'))).to_bitmask()
    }
}

// Bytes that are themselves in a string.
#[derive(Clone, Copy)]
struct Plain;

impl ByteKind for Plain {
    ghost test = { λ kind. is_plain };

    #[inline(always)]
    fn holds(&self, byte: u8) -> bool {
        byte >= 0x20 && byte != b'"' && byte != b'\\'
    }

    #[inline(always)]
    fn misses(&self, lanes: u8x16) -> u64 {
        (lanes.simd_eq(u8x16::splat(b'"'))
            | lanes.simd_eq(u8x16::splat(b'\\'))
            | lanes.simd_lt(u8x16::splat(0x20))).to_bitmask()
    }
}

// All bytes but a backslash.
#[derive(Clone, Copy)]
struct NoBackslash;

impl ByteKind for NoBackslash {
    ghost test = { λ kind. is_no_backslash };

    #[inline(always)]
    fn holds(&self, byte: u8) -> bool {
        byte != b'\\'
    }

    #[inline(always)]
    fn misses(&self, lanes: u8x16) -> u64 {
        lanes.simd_eq(u8x16::splat(b'\\')).to_bitmask()
    }
}

// All bytes but three.
#[derive(Clone, Copy)]
struct Others {
    a: u8,
    b: u8,
    c: u8,
}

impl ByteKind for Others {
    ghost use Rattle.std.specs.Prelude.{not};
    ghost use Rattle.sonic_blocks.specs.Firsts.{is_one_of};

    ghost test = { λ kind byte. not (is_one_of kind.a kind.b kind.c byte) };

    #[inline(always)]
    fn holds(&self, byte: u8) -> bool {
        byte != self.a && byte != self.b && byte != self.c
    }

    #[inline(always)]
    fn misses(&self, lanes: u8x16) -> u64 {
        (lanes.simd_eq(u8x16::splat(self.a))
            | lanes.simd_eq(u8x16::splat(self.b))
            | lanes.simd_eq(u8x16::splat(self.c))).to_bitmask()
    }
}

// The first place from `place` on that holds no byte of the kind, or the end.
#[inline(always)]
fn run_end<K: ByteKind>(kind: &K, text: &[u8], place: usize) -> usize
    requires { place ≤ length text.now }
    ensures run { result ≡ place + prefix_len (K.test kind.now) (drop place text.now) }
    ensures within { result ≤ length text.now }
{
    let mut at = place;
    while text.len() - at >= 16 {
        if let Some(end) = short_end(kind, text, at) {
            return end;
        }
        at += 16;
    }
    run_end_slowly(kind, text, at)
}

// The same, where a run may be long: 64 bytes a turn behind the first 256.
#[inline(always)]
fn long_run_end<K: ByteKind>(kind: &K, text: &[u8], place: usize) -> usize
    requires { place ≤ length text.now }
    ensures run { result ≡ place + prefix_len (K.test kind.now) (drop place text.now) }
    ensures within { result ≤ length text.now }
{
    if text.len() - place <= 256 {
        return run_end(kind, text, place);
    }
    let near = place + 256;
    let mut at = place;
    while near - at >= 16 {
        if let Some(end) = short_end(kind, text, at) {
            return end;
        }
        at += 16;
    }
    far_run_end(kind, text, at)
}

// The same, 64 bytes a turn.
#[inline(never)]
fn far_run_end<K: ByteKind>(kind: &K, text: &[u8], place: usize) -> usize
    requires { place ≤ length text.now }
    ensures run { result ≡ place + prefix_len (K.test kind.now) (drop place text.now) }
    ensures within { result ≤ length text.now }
{
    let mut at = place;
    while text.len() - at >= 64 && all_hold(kind, text, at) {
        at += 64;
    }
    run_end(kind, text, at)
}

// Whether the 64 bytes at a place are all of the kind.
#[inline(always)]
fn all_hold<K: ByteKind>(kind: &K, text: &[u8], place: usize) -> bool
    requires { place + 64 ≤ length text.now }
    ensures { IsTrue result ↔ 64 ≤ prefix_len (K.test kind.now) (drop place text.now) }
{
    let a = kind.misses(u8x16::from_slice(&text[place..]));
    let b = kind.misses(u8x16::from_slice(&text[place + 16..]));
    let c = kind.misses(u8x16::from_slice(&text[place + 32..]));
    let d = kind.misses(u8x16::from_slice(&text[place + 48..]));
    a | b | c | d == 0
}

// The first place that holds no byte of the kind, where it is one of the 16 bytes at `place`.
#[inline(always)]
fn short_end<K: ByteKind>(kind: &K, text: &[u8], place: usize) -> Option<usize>
    requires { place + 16 ≤ length text.now }
    ensures some { IfSome result (λ end. end ≡ place + prefix_len (K.test kind.now) (drop place text.now)) }
    ensures near { IfSome result (λ end. end < place + 16) }
    ensures none { IfNone result (16 ≤ prefix_len (K.test kind.now) (drop place text.now)) }
{
    let misses = kind.misses(u8x16::from_slice(&text[place..]));
    if misses == 0 {
        None
    } else {
        Some(place + misses.trailing_zeros() as usize)
    }
}

// The first place from `place` on that holds no byte of the kind, or the end, byte by byte.
#[inline(never)]
fn run_end_slowly<K: ByteKind>(kind: &K, text: &[u8], place: usize) -> usize
    requires { place ≤ length text.now }
    ensures run { result ≡ place + prefix_len (K.test kind.now) (drop place text.now) }
    ensures within { result ≤ length text.now }
{
    let mut at = place;
    while at < text.len() && kind.holds(text[at]) {
        at += 1;
    }
    at
}

/// The first place from `place` on that holds no digit, or the end.
///
/// Of `120]` from 0 on it is 3.
#[inline(always)]
pub fn digits_end(text: &[u8], place: usize) -> usize
    requires { place ≤ length text.now }
    ensures run { result ≡ place + prefix_len is_ascii_digit (drop place text.now) }
    ensures within { result ≤ length text.now }
{
    run_end(&Digits, text, place)
}

/// The first place from `place` on that holds no digit, where it is one of the 16 bytes there.
///
/// Of `120]` and twelve bytes more from 0 on it is 3.
#[inline(always)]
pub fn short_digits_end(text: &[u8], place: usize) -> Option<usize>
    requires { place + 16 ≤ length text.now }
    ensures some { IfSome result (λ end. end ≡ place + prefix_len is_ascii_digit (drop place text.now)) }
    ensures near { IfSome result (λ end. end < place + 16) }
    ensures none { IfNone result (16 ≤ prefix_len is_ascii_digit (drop place text.now)) }
{
    short_end(&Digits, text, place)
}

/// The first place from `place` on that holds no white space (RFC 8259, section 2), or the end.
///
/// Of ` \n1` from 0 on it is 2.
#[inline(always)]
pub fn space_end(text: &[u8], place: usize) -> usize
    requires { place ≤ length text.now }
    ensures run { result ≡ place + prefix_len is_space (drop place text.now) }
    ensures within { result ≤ length text.now }
{
    run_end(&Spaces, text, place)
}

/// The first quote, backslash or control byte from `place` on, or the end: the bytes before it are
/// themselves in a string (RFC 8259, section 7).
///
/// Of `ab"` from 0 on it is 2.
#[inline(always)]
pub fn plain_end(text: &[u8], place: usize) -> usize
    requires { place ≤ length text.now }
    ensures run { result ≡ place + prefix_len is_plain (drop place text.now) }
    ensures within { result ≤ length text.now }
{
    long_run_end(&Plain, text, place)
}

/// The first quote, backslash or control byte from `place` on, where it is one of the 16 bytes there.
///
/// Of `ab"` and thirteen bytes more from 0 on it is 2.
#[inline(always)]
pub fn short_plain_end(text: &[u8], place: usize) -> Option<usize>
    requires { place + 16 ≤ length text.now }
    ensures some { IfSome result (λ end. end ≡ place + prefix_len is_plain (drop place text.now)) }
    ensures near { IfSome result (λ end. end < place + 16) }
    ensures none { IfNone result (16 ≤ prefix_len is_plain (drop place text.now)) }
{
    short_end(&Plain, text, place)
}

/// The first backslash from `place` on, or the end.
///
/// Of `a\n` from 0 on it is 1.
#[inline(always)]
pub fn first_backslash(text: &[u8], place: usize) -> usize
    requires { place ≤ length text.now }
    ensures run { result ≡ place + prefix_len is_no_backslash (drop place text.now) }
    ensures within { result ≤ length text.now }
{
    long_run_end(&NoBackslash, text, place)
}

/// The first place from `place` on whose byte is one of three, or `None` where there is none.
///
/// Places are counted in bytes from the start of the text: in `{"a":1}` the first of `"`, `:` and
/// `,` from 2 on is at 3.
pub fn first_of(text: &[u8], place: usize, a: u8, b: u8, c: u8) -> Option<usize>
    requires { place ≤ length text.now }
    ensures { MatchOption result (HasNone (is_one_of a b c) text.now place)
        (λ i. IsFirst (is_one_of a b c) text.now place i) }
{
    let end = run_end(&Others { a, b, c }, text, place);
    if end < text.len() { Some(end) } else { None }
}
