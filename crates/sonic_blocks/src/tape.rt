// A text that is seen by blocks of 64 bytes alone.
ghost use Rattle.std.specs.Prelude.{◌≡◌, ℕ, ◌+◌, ◌^◌, ◌<◌, ◌≤◌, length, get_or, slice_index, nat_lt};
ghost use Rattle.sonic_blocks.specs.Bits.{is_set};
ghost use Rattle.sonic_blocks.specs.Views.{AreMasks};

use crate::lanes::{equal_to, spaces};
use crate::steps::Steps;
use std::marker::Model;
use std::simd::prelude::*;
use std::sync::ledger::Ledger;

/// Which of 64 bytes are these, one bit for each byte.
#[derive(Clone, Copy, Drop)]
pub struct Masks {
    pub backslash: u64,
    pub quote: u64,
    pub open_brace: u64,
    pub close_brace: u64,
    pub open_bracket: u64,
    pub close_bracket: u64,
    pub comma: u64,
    /// The bytes that are no white space.
    pub nonspace: u64,
}

/// A text that is seen by [`Masks`] alone, each view of it one step of a counter.
///
/// Nothing else shows the text, so that a caller who holds a tape can't look at it uncounted.
///
/// ```text
/// let tape = Tape::new(b"[1]");
/// assert_eq!(rt; tape.masks_at(0, &mut steps).close_bracket, 4);
/// ```
#[derive(Drop)]
pub struct Tape<'a> {
    text: &'a [u8],
}

impl<'a> Model for Tape<'a> {
    ghost use Rattle.std.specs.Prelude.{ℕ, List};

    ghost Value = { List ℕ };

    ghost view = { λ tape. tape.text.now };
}

impl<'a> Tape<'a> {
    /// The tape of a text.
    pub fn new(text: &'a [u8]) -> Tape<'a>
        ensures { result ≡ text.now }
    {
        Tape { text }
    }

    /// How many bytes the text has.
    pub fn len(&self) -> usize
        ensures value { result ≡ length self.now }
        ensures small { result < 2 ^ 63 }
    {
        self.text.len()
    }

    /// The masks of the 64 bytes from `place` on. A bit past the text's end is clear. It is one step.
    ///
    /// Of `{"a":1}` the quotes from 0 on are 10, the bits 1 and 3.
    #[inline(always)]
    pub fn masks_at<L: Ledger>(&self, place: usize, steps: &mut Steps<L>) -> Masks
        requires { place ≤ length self.now }
        ensures masks { AreMasks self.now place result }
        ensures step { steps.new ≡ steps.old + 1 }
    {
        steps.tick();
        masks_of(self.text, place)
    }
}

// The masks of the 64 bytes from `place` on.
#[inline(always)]
fn masks_of(text: &[u8], place: usize) -> Masks
    requires { place ≤ length text.now }
    ensures { AreMasks text.now place result }
{
    let lanes = lanes_at(text, place);
    Masks {
        backslash: equal_to(lanes, b'\\'),
        quote: equal_to(lanes, b'"'),
        open_brace: equal_to(lanes, b'{'),
        close_brace: equal_to(lanes, b'}'),
        open_bracket: equal_to(lanes, b'['),
        close_bracket: equal_to(lanes, b']'),
        comma: equal_to(lanes, b','),
        nonspace: !spaces(lanes) & lowest(text.len() - place),
    }
}

// The n lowest bits, or all 64.
#[inline(always)]
fn lowest(n: usize) -> u64
    ensures { (k : ℕ) → k < 64 → is_set result k ≡ nat_lt k n }
{
    if n < 64 { (1 << n) - 1 } else { u64::MAX }
}

// The 64 bytes from `place` on, and zeros past the end.
#[inline(always)]
fn lanes_at(text: &[u8], place: usize) -> u8x64
    requires { place ≤ length text.now }
    ensures { (k : ℕ) → k < 64 → get_or result k 0 ≡ slice_index text.now (place + k) }
{
    if text.len() - place >= 64 {
        return u8x64::from_slice(&text[place..]);
    }
    last_lanes(text, place)
}

// The last bytes, fewer than 64, and zeros: nothing is read past the end.
fn last_lanes(text: &[u8], place: usize) -> u8x64
    requires { (place ≤ length text.now) × (length text.now < place + 64) }
    ensures { (k : ℕ) → k < 64 → get_or result k 0 ≡ slice_index text.now (place + k) }
{
    let mut last = [0; 64];
    let mut i = 0;
    while i < text.len() - place {
        last[i] = text[place + i];
        i += 1;
    }
    u8x64::from_array(last)
}
