// Strings read as text, by a strict and by a lossy parser: where the text is, what the buffer holds
// afterwards, where the cursor is, and what is known then of broken bytes.
ghost use Rattle.std.specs.Prelude.{◌≡◌, ◌<◌, ◌-◌};
ghost use Rattle.sonic_text.specs.Places.{byte};

use crate::same::{same, same_at};
use sonic_error::{Error, ErrorCode};
use sonic_input::Read;
use sonic_parser::{Parser, Reference};
use std::alloc::Global;
use std::borrow::CowStr;
use std::process::Abort;
use std::test::Fail;

const END: ErrorCode = ErrorCode::EofWhileParsing;

const CONTROL: ErrorCode = ErrorCode::ControlCharacterWhileParsingString;

const ESCAPE: ErrorCode = ErrorCode::InvalidEscape;

const DIGIT: ErrorCode = ErrorCode::InvalidUnicodeCodePoint;

const HALF: ErrorCode = ErrorCode::InvalidSurrogateUnicodeCodePoint;

const BROKEN: ErrorCode = ErrorCode::InvalidUTF8;

// What the buffer holds before a string is read.
const OLD: &[u8] = b"old";

// What a read comes to: a text and the cursor, or an error and its place.
#[derive(Clone, Copy)]
enum Outcome {
    Borrowed(&'static str, usize),
    Copied(&'static str, usize),
    Stopped(usize, ErrorCode),
}

use Outcome::{Borrowed, Copied, Stopped};

// A parser after the first quote of a text, with so many bytes before it.
fn parser_after_quote<'de>(
    rt: &impl Abort,
    text: &'de [u8],
    before: usize,
    lossy: bool,
) -> Parser<'de>
    ensures after { 0 < result.place }
    ensures quote { byte result.text (result.place - 1) ≡ 34 }
{
    let mut read = Read::from(text);
    assert!(rt; read.next_n(before).is_some(), "{text:?}");
    let mut parser = Parser::new(read);
    if lossy {
        parser = parser.utf8_lossy();
    }
    if parser.skip_space() != Some(b'"') {
        panic!(rt; "{text:?} has no quote");
    }
    parser
}

// Checks what reading the string at the start of a text comes to.
fn check(
    rt: &impl Abort,
    alloc: Global,
    text: &[u8],
    lossy: bool,
    outcome: Outcome,
) -> Result<(), Fail> {
    let mut buf = Vec::new(alloc);
    buf.extend_from_slice(OLD)?;
    let mut parser = parser_after_quote(rt, text, 0, lossy);
    match (Parser::parse_str(&mut buf, &mut parser), outcome) {
        (Ok(Reference::Borrowed(found)), Borrowed(wanted, _)) => {
            same_at(rt, found, wanted, (text, lossy));
        }
        (Ok(Reference::Copied(found)), Copied(wanted, _)) => {
            same_at(rt, found, wanted, (text, lossy));
        }
        (Err(found), Stopped(place, code)) => {
            assert!(rt; place <= text.len());
            same_at(rt, found, Error::syntax(code, text, place), (text, lossy));
        }
        _ => panic!(rt; "{text:?} {lossy} comes to something else"),
    }
    let (left, cursor) = match outcome {
        Borrowed(_, end) => (OLD, end),
        Copied(text, end) => (text.as_bytes(), end),
        Stopped(place, _) => (OLD, place),
    };
    same_at(rt, &buf[..], left, (text, lossy));
    same_at(rt, parser.offset(), cursor, (text, lossy));
    Ok(())
}

// Strings that a strict parser and a lossy one read as the same.
fn same_for_both() -> [(&'static [u8], Outcome); 21] {
    [
        (b"\"\"", Borrowed("", 2)),
        (b"\"ab\",", Borrowed("ab", 4)),
        (b"\"\xc3\xa9\"\"", Borrowed("\u{e9}", 4)),
        (b"\"ab\"\xff", Borrowed("ab", 4)),
        (b"\"a\\n\"", Copied("a\n", 5)),
        (
            b"\"\\\"\\\\\\/\\b\\f\\n\\r\\t\" ",
            Copied("\"\\/\u{8}\u{c}\n\r\t", 18),
        ),
        (b"\"\\u00e9\\uD83D\\ude00\"", Copied("\u{e9}\u{1F600}", 20)),
        (b"\"\xc3\xa9\\u0000\"", Copied("\u{e9}\0", 10)),
        (b"\"", Stopped(1, END)),
        (b"\"ab", Stopped(3, END)),
        (b"\"a\\", Stopped(3, END)),
        (b"\"a\x1f\"", Stopped(2, CONTROL)),
        (b"\"a\n\"", Stopped(2, CONTROL)),
        (b"\"\\x\"", Stopped(2, ESCAPE)),
        (b"\"a\\n\\\x00\"", Stopped(5, ESCAPE)),
        (b"\"\\u\"", Stopped(3, DIGIT)),
        (b"\"\\u12", Stopped(5, END)),
        (b"\"\\n\\u12g4\"", Stopped(7, DIGIT)),
        (b"\"\xff\\x\"", Stopped(3, ESCAPE)),
        (b"\"\xff\x01\"", Stopped(2, CONTROL)),
        (b"\"\\n\xff", Stopped(4, END)),
    ]
}

// Strings of which a strict parser has an error, and a lossy one a text.
fn lossy_alone() -> [(&'static [u8], Outcome, Outcome); 14] {
    [
        (b"\"\xff\"", Stopped(1, BROKEN), Copied("\u{FFFD}", 3)),
        (
            b"\"ab\xff\xfec\"",
            Stopped(3, BROKEN),
            Copied("ab\u{FFFD}\u{FFFD}c", 7),
        ),
        (b"\"\\n\xff\"", Stopped(3, BROKEN), Copied("\n\u{FFFD}", 5)),
        (
            b"\"\xe2\x82\"\xac",
            Stopped(1, BROKEN),
            Copied("\u{FFFD}", 4),
        ),
        (
            b"\"a\xe2\\u0082\"",
            Stopped(2, BROKEN),
            Copied("a\u{FFFD}\u{82}", 10),
        ),
        (
            b"\"\xed\xa0\x80\"",
            Stopped(1, BROKEN),
            Copied("\u{FFFD}\u{FFFD}\u{FFFD}", 5),
        ),
        (b"\"\\ud800\"", Stopped(7, HALF), Copied("\u{FFFD}", 8)),
        (b"\"\\ud800x\"", Stopped(7, HALF), Copied("\u{FFFD}x", 9)),
        (
            b"\"\\uDBFF\\u0041\"",
            Stopped(9, HALF),
            Copied("\u{FFFD}A", 14),
        ),
        (
            b"\"\\ud800\\ud800\"",
            Stopped(10, HALF),
            Copied("\u{FFFD}\u{FFFD}", 14),
        ),
        (b"\"\\udc00\"", Stopped(4, HALF), Copied("\u{FFFD}", 8)),
        (
            b"\"\\udfff\\n\"",
            Stopped(4, HALF),
            Copied("\u{FFFD}\n", 10),
        ),
        (
            b"\"\\ud800\xff\"",
            Stopped(7, HALF),
            Copied("\u{FFFD}\u{FFFD}", 9),
        ),
        (
            b"\"\xff\\ud800\"",
            Stopped(8, HALF),
            Copied("\u{FFFD}\u{FFFD}", 9),
        ),
    ]
}

#[test]
fn reads_text_or_says_why_there_is_none(rt: HostRuntime) -> Result<(), Fail> {
    for (text, outcome) in same_for_both() {
        check(&rt, rt.alloc(), text, false, outcome)?;
        check(&rt, rt.alloc(), text, true, outcome)?;
    }
    for (text, strict, lossy) in lossy_alone() {
        check(&rt, rt.alloc(), text, false, strict)?;
        check(&rt, rt.alloc(), text, true, lossy)?;
    }
    Ok(())
}

// Checks the error that the parser has after a string with so many bytes before it was read.
fn check_known(
    rt: &impl Abort,
    alloc: Global,
    text: &[u8],
    before: usize,
    lossy: bool,
    wanted: (usize, ErrorCode),
) {
    let mut buf = Vec::new(alloc);
    let mut parser = parser_after_quote(rt, text, before, lossy);
    let _ = Parser::parse_str(&mut buf, &mut parser);
    let (place, code) = wanted;
    assert!(rt; place <= text.len());
    same_at(
        rt,
        parser.error(ErrorCode::InvalidNumber),
        Error::syntax(code, text, place),
        (text, lossy),
    );
}

#[test]
fn knows_of_broken_bytes_after_a_string(rt: HostRuntime) {
    let alloc = rt.alloc();
    let number = ErrorCode::InvalidNumber;
    for &lossy in &[false, true] {
        check_known(&rt, alloc, b"\"ab\"", 0, lossy, (3, number));
        check_known(&rt, alloc, b"\"ab\"\xff", 0, lossy, (4, BROKEN));
        check_known(&rt, alloc, b"\"a\\n\" \xff", 0, lossy, (6, BROKEN));
        check_known(&rt, alloc, b"\"\xff\\x\"", 0, lossy, (1, BROKEN));
    }
    check_known(&rt, alloc, b"\"\xff\"", 0, false, (1, BROKEN));
    check_known(&rt, alloc, b"\"\xff\"", 0, true, (2, number));
    check_known(&rt, alloc, b"\"\xff\xff\" \xff", 0, true, (5, BROKEN));
    check_known(&rt, alloc, b"\xff\"ab\"", 1, false, (0, BROKEN));
    check_known(&rt, alloc, b"\xff\"ab\"", 1, true, (4, number));
    check_known(&rt, alloc, b"\xff\"ab\"\xff", 1, true, (5, BROKEN));
}

#[test]
fn copies_into_one_buffer_after_the_other(rt: HostRuntime) -> Result<(), Fail> {
    let alloc = rt.alloc();
    let text = "\"\\n\"\"ab\"";
    let mut parser = parser_after_quote(&rt, text.as_bytes(), 0, false);
    let mut buf = Vec::new(alloc);
    let Ok(first) = Parser::parse_str(&mut buf, &mut parser) else {
        panic!(rt; "the first string is broken");
    };
    same(&rt, first.as_str(), "\n");
    match first.to_cow(alloc) {
        Ok(CowStr::Owned(text)) => same(&rt, &text[..], "\n"),
        _ => panic!(rt; "a copied text is owned"),
    }
    if parser.skip_space() != Some(b'"') {
        panic!(rt; "a string follows");
    }
    let Ok(second) = Parser::parse_str(&mut buf, &mut parser) else {
        panic!(rt; "the second string is broken");
    };
    same(&rt, second.as_str(), "ab");
    match second.to_cow(alloc) {
        Ok(CowStr::Borrowed(text)) => same(&rt, text, "ab"),
        _ => panic!(rt; "a borrowed text stays borrowed"),
    }
    Ok(())
}

#[test]
fn reads_random_bytes_as_the_standard_library_does(rt: HostRuntime) -> Result<(), Fail> {
    let alloc = rt.alloc();
    let mut state = 1_u64;
    for len in 0..1_000 {
        let mut contents = Vec::new(alloc);
        for _ in 0..len % 40 {
            state = state
                .wrapping_mul(6_364_136_223_846_793_005)
                .wrapping_add(1);
            let byte = (state >> 56) as u8;
            if byte >= 0x20 && byte != b'"' && byte != b'\\' {
                contents.push(byte)?;
            }
        }
        let wanted = String::from_utf8_lossy(alloc, &contents)?;
        let mut text = Vec::new(alloc);
        text.push(b'"')?;
        text.extend_from_slice(&contents)?;
        text.push(b'"')?;
        let mut buf = Vec::new(alloc);
        let mut parser = parser_after_quote(&rt, &text, 0, true);
        match Parser::parse_str(&mut buf, &mut parser) {
            Ok(found) => same(&rt, found.as_str(), &wanted[..]),
            Err(error) => panic!(rt; "{error}"),
        }
    }
    Ok(())
}
