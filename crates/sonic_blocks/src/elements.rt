// Numbers between commas, in a block of 64 bytes.
ghost use Rattle.std.specs.Prelude.{◌≡◌, ℕ, ◌-◌, ◌<◌, ◌≤◌, true, get_or, slice_index};
ghost use Rattle.std.specs.Char.{is_ascii_digit};
ghost use Rattle.sonic_blocks.specs.Bits.{is_set};
ghost use Rattle.sonic_blocks.specs.Elements.{AreWholeElements, fits_after};
ghost use Rattle.sonic_blocks.specs.Internal.NumberMasks.{AreNumberMasks};

use crate::lanes::equal_to;
use std::simd::prelude::*;

// Which of 64 bytes are these, one bit for each byte.
#[derive(Clone, Copy)]
struct NumberMasks {
    digit: u64,
    zero: u64,
    comma: u64,
    blank: u64,
    minus: u64,
    dot: u64,
}

// The lanes that hold a digit.
#[inline(always)]
fn digits(lanes: u8x64) -> u64
    ensures { (k : ℕ) → k < 64 → is_set result k ≡ is_ascii_digit (get_or lanes k 0) }
{
    (lanes - u8x64::splat(b'0'))
        .simd_lt(u8x64::splat(10))
        .to_bitmask()
}

// The bytes of a block that elements with such numbers are made of.
#[inline(always)]
fn number_masks(block: &[u8; 64]) -> NumberMasks
    ensures { AreNumberMasks (slice_index block.now) result }
{
    let lanes = u8x64::from_array(*block);
    NumberMasks {
        digit: digits(lanes),
        zero: equal_to(lanes, b'0'),
        comma: equal_to(lanes, b','),
        blank: equal_to(lanes, b' '),
        minus: equal_to(lanes, b'-'),
        dot: equal_to(lanes, b'.'),
    }
}

// Whether the first 16 bytes of a block are of these kinds.
#[inline(always)]
fn begins_elements(block: &[u8; 64]) -> bool {
    let lanes = u8x16::from_slice(&block[..16]);
    let kinds = (lanes - u8x16::splat(b'0')).simd_lt(u8x16::splat(10))
        | lanes.simd_eq(u8x16::splat(b','))
        | lanes.simd_eq(u8x16::splat(b' '))
        | lanes.simd_eq(u8x16::splat(b'-'))
        | lanes.simd_eq(u8x16::splat(b'.'));
    kinds.to_bitmask() == 0xffff
}

// The bytes that fit after the byte before them, where a comma comes before the first.
#[inline(always)]
fn fitting(masks: NumberMasks) -> u64
    ensures { (bytes : ℕ → ℕ) → AreNumberMasks bytes masks → (k : ℕ) → k < 64
        → is_set result k ≡ fits_after bytes k }
{
    let after_digit = masks.digit << 1;
    let after_comma = masks.comma << 1 | 1;
    let after_blank = masks.blank << 1;
    let after_dot = masks.dot << 1;
    let after_first_zero = (masks.zero & !(after_digit | after_dot)) << 1;
    // Adding the first digit of each fraction clears its digits, and sets the bit after them.
    let behind_fractions = (after_dot & masks.digit).wrapping_add(masks.digit);
    masks.comma & after_digit
        | masks.blank & after_comma
        | masks.minus & (after_comma | after_blank)
        | masks.dot & after_digit & !behind_fractions
        | masks.digit & !after_first_zero
}

// The bits below the lowest one that is clear.
#[inline(always)]
fn lowest_run(bits: u64) -> u64
    ensures { (k : ℕ) → k < 64 → is_set result k ≡ true → (j : ℕ) → j ≤ k → is_set bits j ≡ true }
{
    bits & (!bits).wrapping_sub(1)
}

// The number of the highest bit that is set and one more, or 0 where none is.
#[inline(always)]
fn bit_length(bits: u64) -> usize
    ensures within { result ≤ 64 }
    ensures last { 0 < result → is_set bits (result - 1) ≡ true }
{
    64 - bits.leading_zeros() as usize
}

/// How many bytes of a block are whole elements of an array, where one is expected at its first byte:
/// each is perhaps a blank, a number without an exponent, and a comma (RFC 8259, sections 5 and 6).
///
/// The last of these bytes is the last comma before the first byte that doesn't fit, so behind them an
/// element is expected; where there is no such comma it is 0. Of `100, -20, 3.25, 4, 5e5,` and further
/// bytes it is 18. Where one of the first 16 bytes is of another kind, as a quote or a bracket, the others
/// aren't looked at, and it is 0: so few elements are passed faster one by one.
#[inline(always)]
pub fn whole_elements(block: &[u8; 64]) -> usize
    ensures { AreWholeElements (slice_index block.now) result }
{
    if !begins_elements(block) {
        return 0;
    }
    let masks = number_masks(block);
    bit_length(masks.comma & lowest_run(fitting(masks)))
}
