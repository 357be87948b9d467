// What no clause says: that the calls answer the worked examples of their documents.
use crate::same::{same, same_at};
use sonic_blocks::{get_escaped, get_nonspace_bits, get_string_bits, next_bit, prefix_xor};
use std::process::Abort;

#[test]
fn finds_the_parity_of_bits(rt: HostRuntime) {
    same(&rt, prefix_xor(18), 14);
    same(&rt, prefix_xor(0), 0);
    same(&rt, prefix_xor(1), u64::MAX);
    same(&rt, prefix_xor(1 << 63), 1 << 63);
    same(&rt, prefix_xor(u64::MAX), 0x5555_5555_5555_5555);
}

// These backslashes escape these bytes, with the carry before and after.
fn check_escaped(rt: &impl Abort, carry: bool, backslash: u64, escaped: u64, after: bool) {
    let mut prev_escaped = carry as u64;
    same_at(
        rt,
        get_escaped(&mut prev_escaped, backslash),
        escaped,
        (carry, backslash),
    );
    same_at(rt, prev_escaped, after as u64, (carry, backslash));
}

#[test]
fn finds_escaped_bytes(rt: HostRuntime) {
    check_escaped(&rt, false, 7, 10, false);
    check_escaped(&rt, true, 1, 1, false);
    check_escaped(&rt, false, 1 << 63, 0, true);
    check_escaped(&rt, false, 0, 0, false);
    check_escaped(&rt, true, 0, 1, false);
    check_escaped(&rt, false, u64::MAX, 0xaaaa_aaaa_aaaa_aaaa, false);
    check_escaped(&rt, true, u64::MAX, 0x5555_5555_5555_5555, true);
    check_escaped(&rt, false, 3 << 62, 1 << 63, false);
}

#[test]
fn finds_strings(rt: HostRuntime) {
    let (mut prev_instring, mut prev_escaped) = (0, 0);
    same(
        &rt,
        get_string_bits(0, 34, &mut prev_instring, &mut prev_escaped),
        30,
    );
    same(&rt, (prev_instring, prev_escaped), (0, 0));
    // The quote at 2 is escaped, so that the string goes on into the next block.
    same(
        &rt,
        get_string_bits(2, 5, &mut prev_instring, &mut prev_escaped),
        u64::MAX,
    );
    same(&rt, (prev_instring, prev_escaped), (u64::MAX, 0));
    same(
        &rt,
        get_string_bits(0, 8, &mut prev_instring, &mut prev_escaped),
        7,
    );
    same(&rt, (prev_instring, prev_escaped), (0, 0));
}

#[test]
fn finds_bytes_that_are_no_space(rt: HostRuntime) {
    let mut block = [b'x'; 64];
    same(&rt, get_nonspace_bits(&block), u64::MAX);
    block[0] = b'\t';
    block[1] = b'\r';
    block[2] = b'\n';
    block[3] = b' ';
    same(&rt, get_nonspace_bits(&block), u64::MAX - 15);
    // A form feed and the bytes beside the four are no white space.
    for byte in *b"\x08\x0b\x0c\x0e\x1f\x21\x00\xa0\xff" {
        same_at(&rt, get_nonspace_bits(&[byte; 64]), u64::MAX, byte);
    }
    for byte in *b" \t\n\r" {
        same_at(&rt, get_nonspace_bits(&[byte; 64]), 0, byte);
    }
}

#[test]
fn finds_the_next_bit(rt: HostRuntime) {
    same(&rt, next_bit(34, 0), Some(1));
    same(&rt, next_bit(34, 1), Some(1));
    same(&rt, next_bit(34, 2), Some(5));
    same(&rt, next_bit(34, 6), None);
    same(&rt, next_bit(0, 0), None);
    same(&rt, next_bit(1 << 63, 63), Some(63));
}
