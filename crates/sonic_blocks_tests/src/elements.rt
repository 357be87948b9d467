// What no clause says: that as many bytes are counted as the worked examples say.
use crate::same::{same, same_at};
use sonic_blocks::internal::whole_elements;
use std::process::Abort;

// A block that begins with this text and goes on with one byte.
fn block_of(text: &str, filler: u8) -> [u8; 64] {
    let mut block = [filler; 64];
    for (i, byte) in text.as_bytes().iter().enumerate() {
        if i < 64 {
            block[i] = *byte;
        }
    }
    block
}

// So many bytes of the text are counted.
fn check_elements(rt: &impl Abort, text: &str, filler: u8, count: usize) {
    same_at(rt, whole_elements(&block_of(text, filler)), count, text);
}

#[test]
fn counts_whole_elements(rt: HostRuntime) {
    let cases = [
        ("100, -20, 3.25, 4, 5e5,", b'7', 18),
        ("1000000,-2.0000,3.25,0.50,-0.0,4.,", b'7', 31),
        ("1000000,-2.0000,1.5.2,", b'7', 16),
        ("1000000,-2.0000,.5,", b'7', 16),
        ("1000000,-2.0000,00.5,", b'7', 16),
        ("1000000,-2.0000,1.-5,", b'7', 16),
        ("1000000,-200000,1,02,", b'7', 18),
        ("1000000,-200000,0,-0,10,", b']', 24),
        (" 100000,-200000, 2,  3,", b'7', 19),
        ("1000000,-200000,,2,", b'7', 16),
        ("1000000,-200000,- 2,", b'7', 16),
        ("1000000,-200000,--2,", b'7', 16),
        ("1000000,-200000,2-3,", b'7', 16),
        ("1000000,-200000,2 ,", b'7', 16),
        ("1000000,-200000,\n2,", b'7', 16),
        ("1000000,-200000,2e3,", b'7', 16),
        ("1000000,-200000,01,", b'7', 16),
        ("1000000,-200000,-01,", b'7', 16),
        ("1,,", b'7', 2),
        ("01,", b'7', 0),
        (",1,", b'7', 0),
        ("", b'1', 0),
        ("", b',', 0),
        ("", b' ', 0),
    ];
    for (text, filler, count) in cases {
        check_elements(&rt, text, filler, count);
    }
}

// Another byte among the first 16.
#[test]
fn counts_none_of_few(rt: HostRuntime) {
    same(&rt, whole_elements(&block_of("1,2,3,4,5,6,7]", b' ')), 0);
    same(&rt, whole_elements(&block_of("1,2,3,4,5,6,7e0", b'1')), 0);
}

// The last comma is counted at each place of a block.
#[test]
fn counts_to_each_place(rt: HostRuntime) {
    for last in 1..64usize {
        let mut block = [b'1'; 64];
        block[last] = b',';
        same_at(&rt, whole_elements(&block), last + 1, last);
    }
}
