// How often a byte occurs.
ghost use Rattle.std.specs.Prelude.{◌≡◌, ◌==◌, ◌+◌, ◌≤◌, count_by, drop, length, map};
ghost use lib.Lanes.{mask_l};

use std::simd::prelude::*;

// The lanes that hold the byte.
fn equal_to(lanes: u8x64, byte: u8) -> u64
    ensures { result ≡ mask_l (map (λ x. x == byte) lanes) }
{
    lanes.simd_eq(u8x64::splat(byte)).to_bitmask()
}

/// How many bytes of a text are this one.
///
/// Of `a\nb\n` the line feeds are 2.
pub fn count_of(text: &[u8], byte: u8) -> usize
    ensures { result ≡ count_by (λ x. x == byte) text.now }
{
    let mut at = 0;
    let mut count = 0;
    while text.len() - at >= 64 {
        let found = equal_to(u8x64::from_slice(&text[at..]), byte);
        count += found.count_ones() as usize;
        at += 64;
    }
    count + count_slowly(&text[at..], byte)
}

// The same, byte by byte.
fn count_slowly(text: &[u8], byte: u8) -> usize
    ensures count { result ≡ count_by (λ x. x == byte) text.now }
    ensures few { result ≤ length text.now }
{
    let mut count = 0;
    for other in text {
        if *other == byte {
            count += 1;
        }
    }
    count
}
