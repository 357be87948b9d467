// How many bytes the text of a document over lines has, counted by blocks of 64 bytes.
//
// No clause says that the count is right: room is taken for so many, and if the text had more, memory would
// be said to have run out. That it's right is tested.
ghost use Rattle.std.specs.Prelude.{◌≡◌, ◌⊎◌, ◌<◌, ◌≤◌, length};

use crate::marks::lanes_at;
use sonic_blocks::get_string_bits;
use std::simd::prelude::*;

// One bit for each byte of a block, all outside strings but the bytes that are kept.
#[derive(Clone, Copy)]
struct Bits {
    // The bytes that are no white space, and those in strings.
    kept: u64,
    commas: u64,
    colons: u64,
    opening: u64,
    closing: u64,
}

// How far the bytes are counted.
#[derive(Clone, Copy)]
struct Count {
    bytes: usize,
    // How many blanks a line begins with here.
    blanks: usize,
    // Whether nothing is kept of what came after the bracket of a container that opened here.
    is_empty: bool,
}

// The lanes that hold the byte.
#[inline(always)]
fn equal_to(lanes: u8x64, byte: u8) -> u64 {
    lanes.simd_eq(u8x64::splat(byte)).to_bitmask()
}

// The block of a valid document from `place` on, where the state of strings is carried on.
#[inline(always)]
fn bits_at(text: &[u8], place: usize, in_string: &mut u64, in_escape: &mut u64) -> Bits
    requires place { place ≤ length text.now }
    requires string { (in_string.old ≡ 0) ⊎ (in_string.old ≡ u64.MAX) }
    requires escape { in_escape.old < 2 }
    ensures string { (in_string.new ≡ 0) ⊎ (in_string.new ≡ u64.MAX) }
    ensures escape { in_escape.new < 2 }
{
    let lanes = lanes_at(text, place);
    let backslash = equal_to(lanes, b'\\');
    let quote = equal_to(lanes, b'"');
    let inside = get_string_bits(backslash, quote, in_string, in_escape);
    // This bit is all that tells a bracket from a brace.
    let braces = lanes | u8x64::splat(b'{' ^ b'[');
    Bits {
        kept: lanes.simd_gt(u8x64::splat(b' ')).to_bitmask() | inside,
        commas: equal_to(lanes, b',') & !inside,
        colons: equal_to(lanes, b':') & !inside,
        opening: equal_to(braces, b'{') & !inside,
        closing: equal_to(braces, b'}') & !inside,
    }
}

impl Count {
    // Adds a line feed and blanks, so many times.
    #[inline(always)]
    fn add_lines(&mut self, lines: u32) {
        let line = self.blanks.wrapping_add(1);
        self.bytes = self.bytes.wrapping_add(line.wrapping_mul(lines as usize));
    }

    // Adds the lines after commas that come before the next bracket.
    #[inline(always)]
    fn pass(&mut self, kept: u64, commas: u64) {
        self.add_lines(commas.count_ones());
        self.is_empty = self.is_empty && kept == 0;
    }

    // Adds the line that an opening bracket ends, as if its container weren't empty.
    #[inline(always)]
    fn open(&mut self, width: usize) {
        self.blanks = self.blanks.wrapping_add(width);
        self.add_lines(1);
        self.is_empty = true;
    }

    // Adds the line of a closing bracket, or takes that of the opening one away.
    #[inline(always)]
    fn close(&mut self, width: usize) {
        if self.is_empty {
            self.bytes = self.bytes.wrapping_sub(self.blanks).wrapping_sub(1);
        }
        self.blanks = self.blanks.wrapping_sub(width);
        if !self.is_empty {
            self.add_lines(1);
        }
        self.is_empty = false;
    }

    // Adds a block.
    #[inline(always)]
    fn add_block(&mut self, bits: Bits, width: usize) {
        let bytes = bits.kept.count_ones() + bits.colons.count_ones();
        self.bytes = self.bytes.wrapping_add(bytes as usize);
        let brackets = bits.opening | bits.closing;
        let (mut left, mut after) = (brackets, u64::MAX);
        for _ in 0..brackets.count_ones() {
            let bracket = left & left.wrapping_neg();
            let before = after & bracket.wrapping_sub(1);
            self.pass(bits.kept & before, bits.commas & before);
            if bits.opening & bracket != 0 {
                self.open(width);
            } else {
                self.close(width);
            }
            left ^= bracket;
            after = !(bracket | bracket.wrapping_sub(1));
        }
        self.pass(bits.kept & after, bits.commas & after);
    }
}

// How many bytes the text of a valid document over lines has.
pub(crate) fn wide_length(text: &[u8], width: usize) -> usize {
    let (mut in_string, mut in_escape) = (0, 0);
    let mut count = Count {
        bytes: 0,
        blanks: 0,
        is_empty: false,
    };
    let mut place = 0;
    while place < text.len() {
        let bits = bits_at(text, place, &mut in_string, &mut in_escape);
        count.add_block(bits, width);
        place += 64;
    }
    count.bytes
}
