// The backslashes, the quotes and the control bytes among 32 bytes.
ghost use Rattle.std.specs.Prelude.{◌≡◌, ◌<◌, ◌==◌, ◌↔◌, ℕ, true, not, nat_lt, map, slice_index, IsTrue, bit_and};
ghost use Rattle.std.specs.Int.{trailing_zeros};
ghost use mir.Syntax.{w32};
ghost use lib.Lanes.{mask_l};
ghost use Rattle.sonic_blocks.specs.Bits.{is_set};
ghost use Rattle.sonic_blocks.specs.Firsts.{first_place};
ghost use Rattle.sonic_blocks.specs.Runs.{is_plain};

use std::marker::Model;
use std::simd::prelude::*;

/// Which of 32 bytes are backslashes, quotes, and control bytes below 0x20, which a string has none
/// of (RFC 8259, section 7).
///
/// A clause sees the first place of each kind, from 0, and 32 where there is none.
///
/// ```text
/// let block = StringBlock::new(b"no escape in it\" and 16 bytes on");
/// assert!(rt; block.has_quote_first());
/// assert_eq!(rt; block.quote_index(), 15);
/// ```
#[derive(Drop)]
pub struct StringBlock {
    bs_bits: u32,
    quote_bits: u32,
    unescaped_bits: u32,
}

impl Model for StringBlock {
    ghost use Rattle.sonic_blocks.specs.Firsts.{FirstPlaces};

    ghost Value = { FirstPlaces };

    ghost use Rattle.sonic_blocks.specs.Internal.StringBlocks.{first_places, AreApart};

    ghost view = { first_places };

    ghost invariant = { AreApart };
}

impl StringBlock {
    /// The bits of these bytes.
    #[inline(always)]
    pub fn new(v: &[u8; 32]) -> StringBlock
        ensures backslash { result.backslash ≡ first_place (λ b. b == 92) v.now }
        ensures quote { result.quote ≡ first_place (λ b. b == 34) v.now }
        ensures control { result.control ≡ first_place (λ b. nat_lt b 32) v.now }
        ensures special { (k : ℕ) → k < 32
            → is_set result.special k ≡ not (is_plain (slice_index v.now k)) }
        ensures few { (k : ℕ) → is_set result.special k ≡ true → k < 32 }
    {
        let lanes = u8x32::from_array(*v);
        StringBlock {
            bs_bits: equal_to(lanes, b'\\'),
            quote_bits: equal_to(lanes, b'"'),
            unescaped_bits: controls(lanes),
        }
    }

    /// The special bytes, one bit for each: those of the three kinds, which a string doesn't have as they
    /// are.
    ///
    /// Of the block above it is the bit 15 alone.
    #[inline(always)]
    pub fn special_bits(&self) -> u64
        ensures { result ≡ self.now.special }
    {
        (self.bs_bits | self.quote_bits | self.unescaped_bits) as u64
    }

    /// Whether a control byte comes before every quote, so that it is inside the string.
    pub fn has_unescaped(&self) -> bool
        ensures { IsTrue result ↔ (self.now.control < self.now.quote) }
    {
        comes_before(self.unescaped_bits, self.quote_bits)
    }

    /// Whether a quote comes before every backslash and every control byte, so that it ends the
    /// string.
    pub fn has_quote_first(&self) -> bool
        ensures { IsTrue result ↔ ((self.now.quote < self.now.backslash) × (self.now.quote < self.now.control)) }
    {
        comes_before(self.quote_bits, self.bs_bits)
            && comes_before(self.quote_bits, self.unescaped_bits)
    }

    /// Whether a backslash comes before every quote, so that it escapes a byte of the string.
    pub fn has_backslash(&self) -> bool
        ensures { IsTrue result ↔ (self.now.backslash < self.now.quote) }
    {
        comes_before(self.bs_bits, self.quote_bits)
    }

    /// The place of the first quote, or 32.
    pub fn quote_index(&self) -> usize
        ensures { result ≡ self.now.quote }
    {
        self.quote_bits.trailing_zeros() as usize
    }

    /// The place of the first backslash, or 32.
    pub fn bs_index(&self) -> usize
        ensures { result ≡ self.now.backslash }
    {
        self.bs_bits.trailing_zeros() as usize
    }

    /// The place of the first control byte, or 32.
    pub fn unescaped_index(&self) -> usize
        ensures { result ≡ self.now.control }
    {
        self.unescaped_bits.trailing_zeros() as usize
    }
}

// The lanes that hold the byte.
#[inline(always)]
fn equal_to(lanes: u8x32, byte: u8) -> u32
    ensures { result ≡ mask_l (map (λ x. x == byte) lanes) }
{
    lanes.simd_eq(u8x32::splat(byte)).to_bitmask() as u32
}

// The lanes that hold a byte below 0x20.
#[inline(always)]
fn controls(lanes: u8x32) -> u32
    ensures { result ≡ mask_l (map (λ x. nat_lt x 32) lanes) }
{
    lanes.simd_lt(u8x32::splat(0x20)).to_bitmask() as u32
}

// Whether the lowest bit of the first word is below the lowest of the second, where they have no bit
// in common. A word without a bit has its lowest at 32.
fn comes_before(first: u32, second: u32) -> bool
    requires { bit_and first second ≡ 0 }
    ensures { IsTrue result ↔ (trailing_zeros w32 first < trailing_zeros w32 second) }
{
    second.wrapping_sub(1) & first != 0
}
