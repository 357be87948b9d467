// White space in a block of 64 bytes, as bits.
ghost use Rattle.std.specs.Prelude.{◌≡◌, ◌==◌, ℕ, ◌<◌, not, get_or, slice_index};
ghost use Rattle.sonic_blocks.specs.Bits.{is_set, is_space};

use std::simd::prelude::*;

// The lanes that hold the byte.
#[inline(always)]
pub(crate) fn equal_to(lanes: u8x64, byte: u8) -> u64
    ensures { (k : ℕ) → k < 64 → is_set result k ≡ (get_or lanes k 0 == byte) }
{
    lanes.simd_eq(u8x64::splat(byte)).to_bitmask()
}

// The lanes that hold white space.
pub(crate) fn spaces(lanes: u8x64) -> u64
    ensures { (k : ℕ) → k < 64 → is_set result k ≡ is_space (get_or lanes k 0) }
{
    (lanes.simd_eq(u8x64::splat(b' '))
        | lanes.simd_eq(u8x64::splat(b'\t'))
        | lanes.simd_eq(u8x64::splat(b'\n'))
        | lanes.simd_eq(u8x64::splat(b'\r'))).to_bitmask()
}

/// The bytes of a block that are no white space (RFC 8259, section 2), one bit for each byte.
///
/// Of a tab, a carriage return, a line feed, a blank and 60 times `x` the lowest four bits are
/// clear.
pub fn get_nonspace_bits(block: &[u8; 64]) -> u64
    ensures { (k : ℕ) → k < 64 → is_set result k ≡ not (is_space (slice_index block.now k)) }
{
    !spaces(u8x64::from_array(*block))
}
