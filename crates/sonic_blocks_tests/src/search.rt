// What no clause says: that the calls answer the worked examples of their documents, at each place
// of a block and after it.
ghost use Rattle.std.specs.Prelude.{◌+◌, ◌≤◌, length};

use crate::same::{same, same_at};
use sonic_blocks::StringBlock;
use sonic_blocks::internal::{
    count_of, digits_end, first_backslash, first_of, plain_end, short_digits_end, short_plain_end,
    space_end,
};
use std::process::Abort;

// The first places of a backslash, a quote and a control byte, and what they say.
fn check_block(rt: &impl Abort, bytes: &[u8; 32], firsts: (usize, usize, usize)) {
    let block = StringBlock::new(bytes);
    let found = (
        block.bs_index(),
        block.quote_index(),
        block.unescaped_index(),
    );
    same_at(rt, found, firsts, bytes);
    let (backslash, quote, control) = firsts;
    same_at(rt, block.has_backslash(), backslash < quote, bytes);
    same_at(rt, block.has_unescaped(), control < quote, bytes);
    same_at(
        rt,
        block.has_quote_first(),
        quote < backslash && quote < control,
        bytes,
    );
}

#[test]
fn finds_the_first_of_each_kind(rt: HostRuntime) {
    check_block(&rt, &[b'x'; 32], (32, 32, 32));
    check_block(&rt, b"no escape in it\" and 16 bytes on", (32, 15, 32));
    check_block(
        &rt,
        b"\\\"\x1f\\\"\x1fxxxxxxxxxxxxxxxxxxxxxxxxxx",
        (0, 1, 2),
    );
    check_block(&rt, b"xxxxxxxxxxxxxxxxxxxxxxxxxxxxx\x1f\"\\", (31, 30, 29));
    // A blank, a hash and a bracket are beside the three, and the greatest bytes aren't below 0x20.
    check_block(
        &rt,
        b" #[]!\x7f\x80\xa0\xff                       ",
        (32, 32, 32),
    );
}

#[test]
fn finds_all_special_bytes(rt: HostRuntime) {
    let block = StringBlock::new(b"no escape in it\" and 16 bytes on");
    same(&rt, block.special_bits(), 1 << 15);
    let block = StringBlock::new(b"\\\"\x1f #[]!\x7f\x80\xa0\xffxxxxxxxxxxxxxxxxxxx\\");
    same(&rt, block.special_bits(), 7 + (1 << 31));
}

#[test]
fn finds_the_first_of_three_bytes(rt: HostRuntime) {
    same(&rt, first_of(b"{\"a\":1}", 2, b'"', b':', b','), Some(3));
    same(&rt, first_of(b"{\"a\":1}", 7, b'"', b':', b','), None);
    same(&rt, first_of(b"", 0, b'"', b':', b','), None);
    let mut text = [b'x'; 200];
    for wanted in 0..200 {
        text[wanted] = b',';
        for from in 0..=wanted {
            same_at(
                &rt,
                first_of(&text, from, b'"', b':', b','),
                Some(wanted),
                from,
            );
        }
        same_at(
            &rt,
            first_of(&text, wanted + 1, b'"', b':', b','),
            None,
            wanted,
        );
        text[wanted] = b'x';
    }
}

#[derive(Clone, Copy)]
enum Run {
    Digits,
    Spaces,
    Plain,
    NoBackslash,
}

fn run_end(run: Run, text: &[u8], from: usize) -> usize
    requires { from ≤ length text.now }
{
    match run {
        Run::Digits => digits_end(text, from),
        Run::Spaces => space_end(text, from),
        Run::Plain => plain_end(text, from),
        Run::NoBackslash => first_backslash(text, from),
    }
}

// The same, where only the 16 bytes at the place are looked at.
fn short_end(run: Run, text: &[u8], from: usize) -> Option<usize>
    requires { from + 16 ≤ length text.now }
{
    match run {
        Run::Digits => short_digits_end(text, from),
        Run::Plain => short_plain_end(text, from),
        Run::Spaces | Run::NoBackslash => near(run_end(run, text, from), from),
    }
}

// A place that is one of 16 from another one on.
fn near(end: usize, from: usize) -> Option<usize> {
    if end.saturating_sub(from) < 16 {
        Some(end)
    } else {
        None
    }
}

// A run of a byte that ends at each place of three blocks, by another byte and by the end of the
// text.
fn check_runs(rt: &impl Abort, run: Run, inside: u8, other: u8) {
    let mut text = [inside; 50];
    same_at(rt, run_end(run, &text, 0), 50, inside);
    for end in 0..50 {
        text[end] = other;
        for from in 0..=end {
            same_at(rt, run_end(run, &text, from), end, (inside, other, from));
            if from <= 34 {
                same_at(
                    rt,
                    short_end(run, &text, from),
                    near(end, from),
                    (inside, other, from),
                );
            }
            same_at(
                rt,
                run_end(run, &text[..end], from),
                end,
                (inside, other, from),
            );
        }
        text[end] = inside;
    }
}

#[test]
fn finds_the_ends_of_runs(rt: HostRuntime) {
    for digit in *b"0189" {
        for other in *b"/:.e \x00\xb0" {
            check_runs(&rt, Run::Digits, digit, other);
        }
    }
    for space in *b" \t\n\r" {
        for other in *b"x!\x0b\x0c\x1f\x00\xa0" {
            check_runs(&rt, Run::Spaces, space, other);
        }
    }
    for inside in *b"[]\"/\x00\xff" {
        check_runs(&rt, Run::NoBackslash, inside, b'\\');
    }
    for plain in *b" !#[]~\x7f\xff" {
        for other in *b"\"\\\x1f\x00\n" {
            check_runs(&rt, Run::Plain, plain, other);
        }
    }
}

// The same, at each place of a text that is passed in longer turns.
#[test]
fn finds_the_ends_of_long_runs(rt: HostRuntime) {
    for (run, other) in [(Run::Plain, b'"'), (Run::NoBackslash, b'\\')] {
        let mut text = [b'x'; 700];
        same_at(&rt, run_end(run, &text, 0), 700, other);
        for end in 0..700 {
            text[end] = other;
            for from in [0, 1, 17, 300] {
                if from <= end {
                    same_at(&rt, run_end(run, &text, from), end, (other, from));
                    same_at(&rt, run_end(run, &text[..end], from), end, (other, from));
                }
            }
            text[end] = b'x';
        }
    }
}

#[test]
fn counts_a_byte(rt: HostRuntime) {
    same(&rt, count_of(b"a\nb\n", b'\n'), 2);
    same(&rt, count_of(b"", b'\n'), 0);
    let mut text = [b'x'; 200];
    for end in 0..200 {
        same_at(&rt, count_of(&text, b','), end, end);
        same_at(&rt, count_of(&text[..end], b','), end, end);
        same_at(&rt, count_of(&text[end..], b','), 0, end);
        text[end] = b',';
    }
}
