// Worked examples of texts over lines, and deep ones.
use crate::same::{same, same_at};
use bytes::Bytes;
use sonic_error::ErrorCode;
use sonic_find::validate;
use sonic_input::{FastStr, JsonInput};
use sonic_min::{indent, minify};
use std::alloc::Global;
use std::process::Abort;
use std::test::Fail;

// A text, a width, and its text over lines.
const TEXTS: [(&str, usize, &str); 22] = [
    (
        "{\"a\":[1,{}],\"b\":[]}",
        2,
        "{\n  \"a\": [\n    1,\n    {}\n  ],\n  \"b\": []\n}",
    ),
    // Scalars, alone and with white space around them.
    ("null", 2, "null"),
    (" \t\r\n-1.5e+3\n\r\t ", 4, "-1.5e+3"),
    ("\n\"a b\"\n", 8, "\"a b\""),
    ("true", 0, "true"),
    // Empty containers, at each depth.
    (" [ ] ", 2, "[]"),
    ("{\n}", 8, "{}"),
    ("[[ ]]", 2, "[\n  []\n]"),
    ("[{ }]", 1, "[\n {}\n]"),
    ("{\"a\":[{}]}", 3, "{\n   \"a\": [\n      {}\n   ]\n}"),
    ("[[[]]]", 2, "[\n  [\n    []\n  ]\n]"),
    ("[[],[]]", 2, "[\n  [],\n  []\n]"),
    // No blanks, and the most.
    ("[1,[2]]", 0, "[\n1,\n[\n2\n]\n]"),
    ("{\"a\" : 1}", 0, "{\n\"a\": 1\n}"),
    ("[[1]]", 8, "[\n        [\n                1\n        ]\n]"),
    // A text that is over lines is laid out anew.
    ("[\n        1 ,\n\n 2]", 1, "[\n 1,\n 2\n]"),
    // Members keep their order and their repeats, and the last of several containers ends where it does.
    (
        "{\"b\":1,\"a\":{\"b\":2},\"b\":[3]}",
        1,
        "{\n \"b\": 1,\n \"a\": {\n  \"b\": 2\n },\n \"b\": [\n  3\n ]\n}",
    ),
    // Scalars and keys keep their bytes.
    ("[1.0,1.00e0,-0]", 1, "[\n 1.0,\n 1.00e0,\n -0\n]"),
    (
        "{\"\\u0061\":\"\\u0020\\/\u{e9}\u{2028}\"}",
        2,
        "{\n  \"\\u0061\": \"\\u0020\\/\u{e9}\u{2028}\"\n}",
    ),
    // Brackets, commas and colons in strings.
    (
        "{\"a\\\" , [\" : \"{ } ] : ,\"}",
        2,
        "{\n  \"a\\\" , [\": \"{ } ] : ,\"\n}",
    ),
    ("{ \"\" : \"\" }", 2, "{\n  \"\": \"\"\n}"),
    (
        "[{\"a\":null},{\"a\":false}]",
        2,
        "[\n  {\n    \"a\": null\n  },\n  {\n    \"a\": false\n  }\n]",
    ),
];

// Checks the text over lines of an input, and that it has the same small text.
fn check<'de, I: JsonInput<'de>>(
    rt: &impl Abort,
    alloc: Global,
    json: I,
    width: usize,
    wanted: &[u8],
) {
    assert!(rt; width <= 8);
    match (indent(alloc, json, width), minify(alloc, json)) {
        (Ok(wide), Ok(small)) => {
            same_at(rt, wide.as_bytes(), wanted, json.to_u8_slice());
            match minify(alloc, wide.as_str()) {
                Ok(again) => same_at(rt, again.as_bytes(), small.as_bytes(), json.to_u8_slice()),
                Err(error) => panic!(rt; "{error}"),
            }
        }
        (Err(error), _) | (_, Err(error)) => panic!(rt; "{error}"),
    }
}

#[test]
fn answers_worked_examples_over_each_kind_of_input(rt: HostRuntime) -> Result<(), Fail> {
    let alloc = rt.alloc();
    for &(text, width, wide) in &TEXTS {
        let owned = String::from_str(alloc, text)?;
        let shared = FastStr::new(alloc, text)?;
        check(&rt, alloc, text, width, wide.as_bytes());
        check(&rt, alloc, text.as_bytes(), width, wide.as_bytes());
        check(&rt, alloc, &owned, width, wide.as_bytes());
        check(&rt, alloc, &shared, width, wide.as_bytes());
        check(&rt, alloc, shared.bytes(), width, wide.as_bytes());
        check(&rt, alloc, wide, width, wide.as_bytes());
    }
    Ok(())
}

// Bytes that are no document, with the code and the offset of the error. The end of an input is
// reported at its last byte.
const FAULTS: [(&[u8], ErrorCode, usize); 18] = [
    (b"", ErrorCode::EofWhileParsing, 0),
    (b" \n", ErrorCode::EofWhileParsing, 1),
    (b" ]", ErrorCode::InvalidJsonValue, 1),
    (b"[1 , ]", ErrorCode::InvalidJsonValue, 5),
    (b"[1 2] x", ErrorCode::ExpectedArrayCommaOrEnd, 3),
    (b"{\"a\":1 2}", ErrorCode::ExpectedObjectCommaOrEnd, 7),
    (b"{ \"a\":1 , }", ErrorCode::ExpectObjectKeyOrEnd, 10),
    (b"{ \"a\" 1}", ErrorCode::ExpectedColon, 6),
    (b"[[1], [2]", ErrorCode::EofWhileParsing, 8),
    (b"tru", ErrorCode::EofWhileParsing, 2),
    (b"trux", ErrorCode::InvalidLiteral, 3),
    (b"01", ErrorCode::InvalidNumber, 1),
    (
        b"\"a\nb\"",
        ErrorCode::ControlCharacterWhileParsingString,
        2,
    ),
    (b"\"\\x\"", ErrorCode::InvalidEscape, 2),
    (b"1 2", ErrorCode::TrailingCharacters, 2),
    (b"[ 1 ] x", ErrorCode::TrailingCharacters, 6),
    (b"[\"a\xc3\", 1] ", ErrorCode::InvalidUTF8, 3),
    (b"\xff1", ErrorCode::InvalidJsonValue, 0),
];

#[test]
fn refuses_as_validate_does(rt: HostRuntime) -> Result<(), Fail> {
    let alloc = rt.alloc();
    for &(text, code, offset) in &FAULTS {
        match (indent(alloc, text, 2), validate(alloc, text)) {
            (Err(error), Err(other)) => {
                same_at(&rt, error.code(), code, text);
                same_at(&rt, error.offset(), offset, text);
                same_at(&rt, other.code(), code, text);
                same_at(&rt, other.offset(), offset, text);
            }
            _ => panic!(&rt; "no error where {code} is at {offset}"),
        }
    }
    Ok(())
}

// So many arrays in each other.
fn nested(alloc: Global, depth: usize) -> Result<Vec<u8>, Fail> {
    let mut text = Vec::new(alloc);
    text.resize(depth, b'[')?;
    for _ in 0..depth {
        text.push(b']')?;
    }
    Ok(text)
}

// The text over lines of so many arrays in each other, at least one.
fn nested_over_lines(alloc: Global, depth: usize, width: usize) -> Result<Vec<u8>, Fail> {
    let mut text = Vec::new(alloc);
    for level in 1..depth {
        text.extend_from_slice(b"[\n")?;
        for _ in 0..level.saturating_mul(width) {
            text.push(b' ')?;
        }
    }
    text.extend_from_slice(b"[]")?;
    for level in 1..depth {
        text.push(b'\n')?;
        for _ in 0..depth
            .saturating_sub(1)
            .saturating_sub(level)
            .saturating_mul(width)
        {
            text.push(b' ')?;
        }
        text.push(b']')?;
    }
    Ok(text)
}

#[test]
fn takes_arrays_in_arrays(rt: HostRuntime) -> Result<(), Fail> {
    let alloc = rt.alloc();
    for (depth, width) in [(1, 2), (2, 3), (9, 1), (1000, 8), (100_000, 0)] {
        let text = nested(alloc, depth)?;
        let wide = nested_over_lines(alloc, depth, width)?;
        match indent(alloc, text.as_slice(), width) {
            Ok(made) => same(&rt, made.as_bytes(), wide.as_slice()),
            Err(error) => panic!(&rt; "{error}"),
        }
    }
    Ok(())
}

// A text with marks in strings and out of them, tokens longer than 32 bytes, and its text over lines.
const ACROSS: &str =
    "{ \"a , [\\\" b\" : [ 1 , \"0123456789 0123456789 : 0123456789\" , { } ,\n[ [ -7\t] ] ]\r}";

const ACROSS_LINES: &str =
    "{\n \"a , [\\\" b\": [\n  1,\n  \"0123456789 0123456789 : 0123456789\",\n  {},\n  [\n   [\n    -7\n   ]\n  ]\n ]\n}";

#[test]
fn lays_out_a_text_at_each_offset_of_two_blocks(rt: HostRuntime) -> Result<(), Fail> {
    let alloc = rt.alloc();
    for before in 0..128 {
        let mut text = Vec::new(alloc);
        text.resize(before, b' ')?;
        text.extend_from_slice(ACROSS.as_bytes())?;
        check(&rt, alloc, text.as_slice(), 1, ACROSS_LINES.as_bytes());
    }
    Ok(())
}
