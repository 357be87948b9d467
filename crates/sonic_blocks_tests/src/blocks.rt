// What no clause says: the masks of a text by its blocks, and the bracket that closes all, against
// plain loops over bytes.
ghost use Rattle.std.specs.Prelude.{◌≡◌, ◌+◌, ◌<◌, ◌≤◌, length};

use crate::same::{same, same_at};
use sonic_blocks::internal::closing_bit;
use sonic_blocks::{Masks, Steps, Tape};
use std::marker::Brand;
use std::process::Abort;
use std::sync::ledger::{Blank, Ledger};

// The bits of the 64 bytes from a place on that are this byte.
fn bits_of(text: &[u8], place: usize, byte: u8) -> u64
    requires { place ≤ length text.now }
{
    let mut bits = 0;
    for (k, other) in text[place..].iter().take(64).enumerate() {
        if *other == byte {
            bits |= 1 << k;
        }
    }
    bits
}

// The bits of the 64 bytes from a place on that are no white space.
fn words_of(text: &[u8], place: usize) -> u64
    requires { place ≤ length text.now }
{
    let mut bits = 0;
    for (k, byte) in text[place..].iter().take(64).enumerate() {
        if !b" \t\n\r".contains(byte) {
            bits |= 1 << k;
        }
    }
    bits
}

// The masks from a place on are those of the bytes there.
fn check_masks(rt: &impl Abort, text: &[u8], place: usize, masks: &Masks)
    requires { place ≤ length text.now }
{
    same_at(rt, masks.backslash, bits_of(text, place, b'\\'), place);
    same_at(rt, masks.quote, bits_of(text, place, b'"'), place);
    same_at(rt, masks.open_brace, bits_of(text, place, b'{'), place);
    same_at(rt, masks.close_brace, bits_of(text, place, b'}'), place);
    same_at(rt, masks.open_bracket, bits_of(text, place, b'['), place);
    same_at(rt, masks.close_bracket, bits_of(text, place, b']'), place);
    same_at(rt, masks.comma, bits_of(text, place, b','), place);
    same_at(rt, masks.nonspace, words_of(text, place), place);
}

// The masks at each place of a text, its end with it.
fn check_tape<L: Ledger>(rt: &impl Abort, text: &[u8], blank: Blank)
    requires name { blank.name ≡ L.name }
    requires parts { blank.parts ≡ L.parts }
    requires some { 0 < L.parts }
{
    let mut steps = Steps::<L>::new(blank);
    let tape = Tape::new(text);
    same(rt, tape.len(), text.len());
    for place in 0..text.len() + 1 {
        check_masks(rt, text, place, &tape.masks_at(place, &mut steps));
    }
}

fn check_text(rt: &impl Abort, text: &[u8]) {
    check_tape::<Brand>(rt, text, Blank::new(1));
}

#[test]
fn finds_the_masks_at_each_place(rt: HostRuntime) {
    check_text(&rt, b"");
    check_text(&rt, b"{\"a\":1}");
    let mut text = [0; 200];
    for (place, byte) in text.iter_mut().enumerate() {
        // Each of the bytes and those beside it, in another order in each block.
        *byte = b"\\\"{}[], \t\n\r[]^|~z!#+-\x0b\x0c\x08\x0e\x1f\x7f\xdc\xa2\xfb"[place * 7 % 30];
    }
    check_text(&rt, &text);
}

// The bit at which all is closed, counted bit by bit.
fn closing_bit_slowly(opens: u64, closes: u64, depth: u64) -> Option<u32> {
    let mut open = depth;
    for bit in 0..64 {
        open = open.wrapping_add(opens >> bit & 1);
        if closes >> bit & 1 == 1 {
            if open == 1 {
                return Some(bit);
            }
            open = open.wrapping_sub(1);
        }
    }
    None
}

// Brackets that are apart are closed at this bit, and the count bit by bit says so too.
fn check_closing(rt: &impl Abort, brackets: (u64, u64), depth: u8, bit: Option<u32>) {
    let (opens, closes) = brackets;
    if opens & closes != 0 {
        panic!(rt; "{opens} and {closes} have a bit in common");
    }
    same_at(
        rt,
        closing_bit(opens, closes, depth as usize),
        bit,
        brackets,
    );
    same_at(
        rt,
        closing_bit_slowly(opens, closes, depth as u64),
        bit,
        brackets,
    );
}

#[test]
fn finds_the_bit_that_closes_all(rt: HostRuntime) {
    check_closing(&rt, (4, 0x69), 2, Some(5));
    check_closing(&rt, (0, 0), 0, None);
    check_closing(&rt, (0, u64::MAX), 64, Some(63));
    check_closing(&rt, (0, u64::MAX), 65, None);
    check_closing(&rt, (1, 1 << 63), 0, Some(63));
    check_closing(&rt, (1, 1 << 63), 1, None);
    // Sixty-four brackets that open and close in turn, and as many of which the last ones close.
    check_closing(
        &rt,
        (0x5555_5555_5555_5555, 0xaaaa_aaaa_aaaa_aaaa),
        0,
        Some(1),
    );
    check_closing(&rt, (0x5555_5555_5555_5555, 0xaaaa_aaaa_aaaa_aaaa), 1, None);
    check_closing(&rt, (0xffff_ffff, 0xffff_ffff_0000_0000), 0, Some(63));
    check_closing(&rt, (0xffff_ffff, 0xffff_ffff_0000_0000), 1, None);
    check_closing(&rt, (0x7fff_ffff, 0xffff_ffff_8000_0000), 1, Some(62));
}
