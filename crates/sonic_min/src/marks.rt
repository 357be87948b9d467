// The brackets, commas and colons of a block of 64 bytes, and its quotes and backslashes.
ghost use Rattle.std.specs.Prelude.{◌≡◌, ℕ, ◌+◌, ◌<◌, ◌≤◌, ◌==◌, length, get_or, slice_index};
ghost use Rattle.sonic_blocks.specs.Bits.{is_set};
ghost use Rattle.sonic_blocks.specs.Views.{IsMask};
ghost use Rattle.sonic_text.specs.Places.{byte};
ghost use Rattle.sonic_min.specs.Internal.Marks.{is_structural};

use std::simd::prelude::*;

// One bit for each byte of a block.
#[derive(Clone, Copy)]
pub(crate) struct Block {
    pub(crate) backslash: u64,
    pub(crate) quote: u64,
    // The brackets, commas and colons, inside strings and outside.
    pub(crate) structurals: u64,
}

// The lanes that hold the byte.
#[inline(always)]
fn equal_to(lanes: u8x64, byte: u8) -> u64
    ensures { (k : ℕ) → k < 64 → is_set result k ≡ (get_or lanes k 0 == byte) }
{
    lanes.simd_eq(u8x64::splat(byte)).to_bitmask()
}

// The lanes that hold a bracket, a comma or a colon.
#[inline(always)]
fn structurals(lanes: u8x64) -> u64
    ensures { (k : ℕ) → k < 64 → is_set result k ≡ is_structural (get_or lanes k 0) }
{
    (lanes.simd_eq(u8x64::splat(b','))
        | lanes.simd_eq(u8x64::splat(b':'))
        | lanes.simd_eq(u8x64::splat(b'['))
        | lanes.simd_eq(u8x64::splat(b']'))
        | lanes.simd_eq(u8x64::splat(b'{'))
        | lanes.simd_eq(u8x64::splat(b'}'))).to_bitmask()
}

// The block from `place` on. A bit past the text's end is clear.
#[inline(always)]
pub(crate) fn block_at(text: &[u8], place: usize) -> Block
    requires { place ≤ length text.now }
    ensures backslash { IsMask text.now place 92 result.backslash }
    ensures quote { IsMask text.now place 34 result.quote }
    ensures structurals { (k : ℕ) → k < 64 → is_set result.structurals k ≡ is_structural (byte text.now (place + k)) }
{
    let lanes = lanes_at(text, place);
    Block {
        backslash: equal_to(lanes, b'\\'),
        quote: equal_to(lanes, b'"'),
        structurals: structurals(lanes),
    }
}

// The 64 bytes from `place` on, and zeros past the end.
#[inline(always)]
pub(crate) fn lanes_at(text: &[u8], place: usize) -> u8x64
    requires { place ≤ length text.now }
    ensures { (k : ℕ) → k < 64 → get_or result k 0 ≡ slice_index text.now (place + k) }
{
    if text.len() - place >= 64 {
        return u8x64::from_slice(&text[place..]);
    }
    last_lanes(text, place)
}

// The last bytes, fewer than 64, and zeros: nothing is read past the end.
#[inline(never)]
fn last_lanes(text: &[u8], place: usize) -> u8x64
    requires { (place ≤ length text.now) × (length text.now < place + 64) }
    ensures { (k : ℕ) → k < 64 → get_or result k 0 ≡ slice_index text.now (place + k) }
{
    let mut last = [0; 64];
    let mut i = 0;
    while i < text.len() - place {
        last[i] = text[place + i];
        i += 1;
    }
    u8x64::from_array(last)
}
