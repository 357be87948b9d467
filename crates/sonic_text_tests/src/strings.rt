// What no clause says: that the reader of strings answers the worked examples of its documents,
// at every state of its escapes.
use crate::same::{same, same_at};
use sonic_error::ErrorCode;
use sonic_text::internal::skip_string;
use sonic_text::{Stop, StringEnd, string_end};
use std::process::Abort;

const STRICT: bool = false;

const LOSSY: bool = true;

const END: ErrorCode = ErrorCode::EofWhileParsing;

const CONTROL: ErrorCode = ErrorCode::ControlCharacterWhileParsingString;

const LETTER: ErrorCode = ErrorCode::InvalidEscape;

const DIGIT: ErrorCode = ErrorCode::InvalidUnicodeCodePoint;

const HALF: ErrorCode = ErrorCode::InvalidSurrogateUnicodeCodePoint;

// What the reader answers at the start of the text, where a quote is there.
fn answer(text: &[u8], lossy: bool) -> Option<Result<StringEnd, Stop>> {
    if !text.is_empty() && text[0] == b'"' {
        Some(string_end(text, 0, lossy))
    } else {
        None
    }
}

// What the reader that tells no reason answers there.
fn quick_end(text: &[u8], lossy: bool) -> Option<usize> {
    if !text.is_empty() && text[0] == b'"' {
        skip_string(text, 0, lossy)
    } else {
        None
    }
}

fn check_end(rt: &impl Abort, text: &[u8], lossy: bool, end: usize, escaped: bool) {
    let wanted = Some(Ok(StringEnd { end, escaped }));
    same_at(rt, answer(text, lossy), wanted, (text, lossy));
    same_at(rt, quick_end(text, lossy), Some(end), (text, lossy));
}

fn check_stop(rt: &impl Abort, text: &[u8], lossy: bool, place: usize, code: ErrorCode) {
    let wanted = Some(Err(Stop { place, code }));
    same_at(rt, answer(text, lossy), wanted, (text, lossy));
    same_at(rt, quick_end(text, lossy), None, (text, lossy));
}

// The same end for both ways of reading.
fn check_ends(rt: &impl Abort, text: &[u8], end: usize, escaped: bool) {
    check_end(rt, text, STRICT, end, escaped);
    check_end(rt, text, LOSSY, end, escaped);
}

// The same stop for both ways of reading.
fn check_stops(rt: &impl Abort, text: &[u8], place: usize, code: ErrorCode) {
    check_stop(rt, text, STRICT, place, code);
    check_stop(rt, text, LOSSY, place, code);
}

#[test]
fn ends_plain_strings(rt: HostRuntime) {
    check_ends(&rt, b"\"\"", 2, false);
    check_ends(&rt, b"\"abc\"", 5, false);
    check_ends(&rt, b"\"a\" ,\"b\\n\"", 3, false);
    check_ends(&rt, b"\"\x7f\"", 3, false);
    check_ends(&rt, b"\" \x80\xc3\xff\"", 6, false);
    let (end, escaped) = (4, false);
    let wanted = Ok(StringEnd { end, escaped });
    same(&rt, string_end(b"[\"a\"]", 1, STRICT), wanted);
    same(&rt, string_end(b"\\\"a\"", 1, STRICT), wanted);
}

#[test]
fn stops_at_plain_bytes(rt: HostRuntime) {
    check_stops(&rt, b"\"", 1, END);
    check_stops(&rt, b"\"abc", 4, END);
    check_stops(&rt, b"\"\x1f\"", 1, CONTROL);
    check_stops(&rt, b"\"a\x0a\"", 2, CONTROL);
    check_stops(&rt, b"\"\\n\x00\"", 3, CONTROL);
}

#[test]
fn ends_escapes(rt: HostRuntime) {
    check_ends(&rt, b"\"\\\"\\\\\\/\\b\\f\\n\\r\\t\"", 18, true);
    check_ends(&rt, b"\"\\u00e9\"", 8, true);
    check_ends(&rt, b"\"\\u00E9x\"", 9, true);
    check_ends(&rt, b"\"\\u0123\\u4567\\u89ab\\uABCD\\uefEF\"", 32, true);
    check_ends(&rt, b"\"\\ud7ff\\ue000\"", 14, true);
    check_ends(&rt, b"\"\\ud83d\\ude00\"", 14, true);
    check_ends(&rt, b"\"\\uD800\\uDFFF\\udbff\\udc00\"", 26, true);
}

#[test]
fn stops_at_letters(rt: HostRuntime) {
    check_stops(&rt, b"\"\\", 2, END);
    check_stops(&rt, b"\"\\x\"", 2, LETTER);
    check_stops(&rt, b"\"ab\\U0041\"", 4, LETTER);
    check_stops(&rt, b"\"\\\x0a\"", 2, LETTER);
    check_stops(&rt, b"\"\\0\"", 2, LETTER);
    check_stops(&rt, b"\"\\\xc3\"", 2, LETTER);
}

#[test]
fn stops_at_digits(rt: HostRuntime) {
    let text = b"\"\\u0041";
    for n in 2..8 {
        check_stops(&rt, &text[..n], n, END);
    }
    for wrong in *b"Gg:@`/\"\\ \x00\x80" {
        for n in 3..7 {
            let mut text = *b"\"\\u0041\"";
            text[n] = wrong;
            check_stops(&rt, &text, n, DIGIT);
        }
    }
    check_stops(&rt, b"\"\\udg00\"", 4, DIGIT);
    check_stops(&rt, b"\"\\ud8g0\"", 5, DIGIT);
}

#[test]
fn takes_second_halves_alone_if_lossy(rt: HostRuntime) {
    for &text in &[
        b"\"\\ude00\"",
        b"\"\\udc00\"",
        b"\"\\uDFFF\"",
        b"\"\\uDc0D\"",
    ] {
        check_stop(&rt, text, STRICT, 4, HALF);
        check_end(&rt, text, LOSSY, 8, true);
    }
    let reversed = b"\"\\ude00\\ud83d\"";
    check_stop(&rt, reversed, STRICT, 4, HALF);
    check_end(&rt, reversed, LOSSY, 14, true);
    let third = b"\"\\ud83d\\ude00\\ude00\"";
    check_stop(&rt, third, STRICT, 16, HALF);
    check_end(&rt, third, LOSSY, 20, true);
    check_stop(&rt, b"\"\\ude", STRICT, 4, HALF);
    check_stop(&rt, b"\"\\ude", LOSSY, 5, END);
}

#[test]
fn stops_after_first_halves(rt: HostRuntime) {
    let text = b"\"\\ud83d\\ude00";
    for n in 7..14 {
        check_stops(&rt, &text[..n], n, END);
    }
    for wrong in *b"xG\" \x00\x80" {
        for n in 7..13 {
            let mut text = *b"\"\\ud83d\\ude00\"";
            text[n] = wrong;
            check_stop(&rt, &text, STRICT, n, HALF);
        }
    }
    check_stop(&rt, b"\"\\ud800\"", STRICT, 7, HALF);
    check_stop(&rt, b"\"\\ud83d\\n\"", STRICT, 8, HALF);
    check_stop(&rt, b"\"\\ud83d\\u0041\"", STRICT, 9, HALF);
    check_stop(&rt, b"\"\\ud83d\\ud83d\"", STRICT, 10, HALF);
}

#[test]
fn takes_first_halves_alone_if_lossy(rt: HostRuntime) {
    check_end(&rt, b"\"\\ud800\"", LOSSY, 8, true);
    check_end(&rt, b"\"\\ud83dxude00\"", LOSSY, 14, true);
    check_end(&rt, b"\"\\ud83d\\n\"", LOSSY, 10, true);
    check_end(&rt, b"\"\\ud83d\\u0041\"", LOSSY, 14, true);
    check_end(&rt, b"\"\\ud83d\\ud83d\\ude00\"", LOSSY, 20, true);
    check_stop(&rt, b"\"\\ud83d\\xde00\"", LOSSY, 8, LETTER);
    for n in 9..13 {
        let mut text = *b"\"\\ud83d\\ude00\"";
        text[n] = b'x';
        check_stop(&rt, &text, LOSSY, n, DIGIT);
    }
}
