// What no clause says: how long what is near may be, and that it ends where the other readers end it.
use crate::same::same_at;
use sonic_text::internal::{
    short_number, short_space, short_stop, short_string, skip_number, skip_string,
};
use sonic_text::skip_space;
use std::process::Abort;

// A text, and the filler after it.
fn padded(text: &[u8], filler: u8) -> [u8; 128] {
    let mut bytes = [filler; 128];
    for (at, byte) in text.iter().enumerate() {
        if at < 128 {
            bytes[at] = *byte;
        }
    }
    bytes
}

fn check_number(rt: &impl Abort, text: &[u8], end: Option<usize>) {
    for filler in *b",]} \nx\x00" {
        let bytes = padded(text, filler);
        same_at(rt, short_number(&bytes, 0), end, (text, filler));
        if end.is_some() {
            same_at(rt, skip_number(&bytes, 0), end, (text, filler));
        }
    }
}

#[test]
fn ends_near_numbers(rt: HostRuntime) {
    check_number(&rt, b"0", Some(1));
    check_number(&rt, b"-0", Some(2));
    check_number(&rt, b"7", Some(1));
    check_number(&rt, b"-12.50", Some(6));
    check_number(&rt, b"1e5", Some(3));
    check_number(&rt, b"1E+05", Some(5));
    check_number(&rt, b"-0.5e-10", Some(8));
    check_number(&rt, b"1.2.3", Some(3));
    check_number(&rt, b"0-", Some(1));
    check_number(&rt, b"123456789012345", Some(15));
    check_number(
        &rt,
        b"-123456789012345.123456789012345e-123456789012345",
        Some(49),
    );
}

#[test]
fn says_nothing_of_other_numbers(rt: HostRuntime) {
    for text in [
        "",
        "-",
        "+1",
        ".5",
        "01",
        "-01",
        "1.",
        "1.e1",
        "1e",
        "1e+",
        "1ex",
        "--1",
        "-x",
        "1234567890123456",
        "1.1234567890123456",
        "1e1234567890123456",
    ] {
        check_number(&rt, text.as_bytes(), None);
    }
}

// A quote, so many bytes of one kind, another byte, and again bytes of that kind.
fn quoted(inside: u8, count: usize, last: u8) -> [u8; 128] {
    let mut bytes = [inside; 128];
    bytes[0] = b'"';
    if count < 127 {
        bytes[count + 1] = last;
    }
    bytes
}

// What the reader of near strings answers at the start of the text, where a quote and enough bytes are.
fn short_end(text: &[u8]) -> Option<usize> {
    if text.len() >= 33 && text[0] == b'"' {
        short_string(text, 0)
    } else {
        None
    }
}

// The first byte there that isn't itself in a string, where it is near.
fn short_special(text: &[u8]) -> Option<usize> {
    if text.len() >= 33 && text[0] == b'"' {
        short_stop(text, 0)
    } else {
        None
    }
}

// What the reader of all strings answers there.
fn quick_end(text: &[u8]) -> Option<usize> {
    if !text.is_empty() && text[0] == b'"' {
        skip_string(text, 0, false)
    } else {
        None
    }
}

#[test]
fn ends_near_strings(rt: HostRuntime) {
    for inside in *b" a,]\x7f\x80\xff" {
        for count in 0..40 {
            let bytes = quoted(inside, count, b'"');
            let end = if count < 32 { Some(count + 2) } else { None };
            let stop = if count < 32 { Some(count + 1) } else { None };
            same_at(&rt, short_end(&bytes), end, (inside, count));
            same_at(&rt, short_special(&bytes), stop, (inside, count));
            same_at(&rt, quick_end(&bytes), Some(count + 2), (inside, count));
        }
    }
}

#[test]
fn says_nothing_of_other_strings(rt: HostRuntime) {
    for other in *b"\\\n\x00\x1f" {
        for count in 0..40 {
            let bytes = quoted(b'a', count, other);
            let stop = if count < 32 { Some(count + 1) } else { None };
            same_at(&rt, short_end(&bytes), None, (other, count));
            same_at(&rt, short_special(&bytes), stop, (other, count));
        }
    }
}

#[test]
fn ends_near_space(rt: HostRuntime) {
    for space in *b" \t\n\r" {
        for count in 0..40 {
            let mut bytes = [space; 40];
            bytes[count] = b'1';
            same_at(&rt, short_space(&bytes, 0), count, (space, count));
            same_at(&rt, skip_space(&bytes, 0), count, (space, count));
        }
    }
}
