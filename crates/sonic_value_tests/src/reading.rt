// Texts that are read as plain values, and why others aren't.
use crate::same::{same, same_at};
use sonic_error::{ErrorCode, Result as Answer};
use sonic_lazy::validate;
use sonic_pointer::PointerNode;
use sonic_value::Value;
use std::alloc::Global;
use std::process::Abort;
use std::test::Fail;

// The text of a scalar: a literal, a number's own text or a string's; and a container's bracket.
fn first_text(value: &Value) -> &str {
    match value {
        Value::Null => "null",
        Value::Bool(true) => "true",
        Value::Bool(false) => "false",
        Value::Number(text) => text.as_str(),
        Value::String(text) => text.as_str(),
        Value::Array(_) => "[",
        Value::Object(_) => "{",
    }
}

fn read(rt: &impl Abort, alloc: Global, json: &str) -> Value {
    match Value::from_str(alloc, json) {
        Ok(value) => value,
        Err(error) => panic!(rt; "{json}: {error}"),
    }
}

// Scalars with white space round them, and their texts.
fn scalar_texts() -> [(&'static str, &'static str); 13] {
    [
        ("null", "null"),
        (" true\n", "true"),
        ("\tfalse\r", "false"),
        ("-0", "-0"),
        ("0.10", "0.10"),
        ("1E+400 ", "1E+400"),
        ("18446744073709551616", "18446744073709551616"),
        ("\"\"", ""),
        ("\" a\"", " a"),
        ("\"\\\"\\\\\\/\\n\\u0041\"", "\"\\/\nA"),
        ("\"\\ud83d\\ude00\"", "\u{1f600}"),
        ("\"\u{e9}\\u00e9\"", "\u{e9}\u{e9}"),
        ("\"\\u0000\"", "\0"),
    ]
}

#[test]
fn reads_scalars(rt: HostRuntime) -> Result<(), Fail> {
    let alloc = rt.alloc();
    for (json, wanted) in scalar_texts() {
        let value = read(&rt, alloc, json);
        same_at(&rt, first_text(&value), wanted, json);
        match Value::from_slice(alloc, json.as_bytes()) {
            Ok(value) => same_at(&rt, first_text(&value), wanted, json),
            Err(error) => panic!(rt; "{json}: {error}"),
        }
    }
    Ok(())
}

#[test]
fn reads_containers(rt: HostRuntime) -> Result<(), Fail> {
    let alloc = rt.alloc();
    match &read(&rt, alloc, "{\"a\":1,\"\\u0061\" : 2 , \"\":[ ]}") {
        Value::Object(members) => {
            assert_eq!(rt; members.len(), 3);
            for (i, (key, value)) in members.iter().enumerate() {
                same(&rt, key.as_str(), ["a", "a", ""][i]);
                same(&rt, first_text(value), ["1", "2", "["][i]);
            }
        }
        other => panic!(rt; "{} is no object", first_text(other)),
    }
    match &read(&rt, alloc, " [ [1, 2] ,{ }, \"x\",[ ] ] ") {
        Value::Array(elements) => {
            assert_eq!(rt; elements.len(), 4);
            for (i, element) in elements.iter().enumerate() {
                same(&rt, first_text(element), ["[", "{", "x", "["][i]);
            }
            match &elements[0] {
                Value::Array(inner) => {
                    assert_eq!(rt; inner.len(), 2);
                    same(&rt, first_text(&inner[1]), "2");
                }
                other => panic!(rt; "{} is no array", first_text(other)),
            }
        }
        other => panic!(rt; "{} is no array", first_text(other)),
    }
    Ok(())
}

#[test]
fn keeps_equal_keys(rt: HostRuntime) -> Result<(), Fail> {
    let alloc = rt.alloc();
    let json = "{\"a\":1,\"a\":2}";
    let value = read(&rt, alloc, json);
    match (value.to_string(alloc), value.clone(alloc)) {
        (Ok(text), Ok(copy)) => {
            same(&rt, &text[..], json);
            assert!(rt; value == copy);
        }
        _ => panic!(rt; "memory is ample"),
    }
    match value.get(PointerNode::Key("a")) {
        Some(first) => same(&rt, first_text(first), "1"),
        None => panic!(rt; "the key is there"),
    }
    Ok(())
}

// Checks that a text isn't read, and why.
fn check_error(
    rt: &impl Abort,
    answer: Answer<Value>,
    json: &str,
    (code, offset): (ErrorCode, usize),
) {
    match answer {
        Err(error) => {
            same_at(rt, error.code(), code, json);
            same_at(rt, error.offset(), offset, json);
        }
        Ok(_) => panic!(rt; "{json} is read"),
    }
}

// Texts that are no document, and why.
fn broken_texts() -> [(&'static str, ErrorCode, usize); 14] {
    [
        ("", ErrorCode::EofWhileParsing, 0),
        ("[1,", ErrorCode::EofWhileParsing, 2),
        ("[1,]", ErrorCode::InvalidJsonValue, 3),
        ("[1 2]", ErrorCode::ExpectedArrayCommaOrEnd, 3),
        ("[1}", ErrorCode::ExpectedArrayCommaOrEnd, 2),
        ("{\"a\":}", ErrorCode::InvalidJsonValue, 5),
        ("{\"a\":1]", ErrorCode::ExpectedObjectCommaOrEnd, 6),
        ("{\"a\" 1}", ErrorCode::ExpectedColon, 5),
        ("{a:1}", ErrorCode::ExpectObjectKeyOrEnd, 1),
        ("{\"a\":[1.]}", ErrorCode::InvalidNumber, 8),
        ("{\"a\":\"\\x\"}", ErrorCode::InvalidEscape, 7),
        ("[1] x", ErrorCode::TrailingCharacters, 4),
        ("nul", ErrorCode::EofWhileParsing, 2),
        ("\u{FEFF}1", ErrorCode::InvalidJsonValue, 0),
    ]
}

#[test]
fn says_why_a_text_is_no_document(rt: HostRuntime) -> Result<(), Fail> {
    let alloc = rt.alloc();
    for (json, code, offset) in broken_texts() {
        check_error(&rt, Value::from_str(alloc, json), json, (code, offset));
        check_error(
            &rt,
            Value::from_slice(alloc, json.as_bytes()),
            json,
            (code, offset),
        );
        match validate(alloc, json) {
            Err(error) => same_at(&rt, (error.code(), error.offset()), (code, offset), json),
            Ok(()) => panic!(rt; "{json} is valid"),
        }
    }
    Ok(())
}

// A text with so many open brackets after a prefix, this inside, and as many closed ones before
// the rest.
fn nested(
    alloc: Global,
    before: &str,
    depth: usize,
    inside: &str,
    after: &str,
) -> Result<String, Fail> {
    let mut text = String::new(alloc);
    text.push_str(before)?;
    for _ in 0..depth {
        text.push_str("[")?;
    }
    text.push_str(inside)?;
    for _ in 0..depth {
        text.push_str("]")?;
    }
    text.push_str(after)?;
    Ok(text)
}

#[test]
fn reads_up_to_255_open_containers(rt: HostRuntime) -> Result<(), Fail> {
    let alloc = rt.alloc();
    let member = "{\"b\":[1,2],\"a\":";
    for &(before, depth, inside, after) in &[
        ("", 255, "", ""),
        (" ", 255, "1", "\n"),
        (member, 254, "\"[\"", "}"),
        ("[[],{\"a\":[]},", 254, "1,2", ",[[]]]"),
    ] {
        let json = nested(alloc, before, depth, inside, after)?;
        same(&rt, first_text(&read(&rt, alloc, &json)).len(), 1);
    }
    Ok(())
}

#[test]
fn stops_at_the_first_container_inside_255_others(rt: HostRuntime) -> Result<(), Fail> {
    let alloc = rt.alloc();
    let limit = ErrorCode::RecursionLimitExceeded;
    let member = "{\"b\":[1,2],\"a\":";
    for &(before, depth, inside, after, code, offset) in &[
        ("", 256, "", "", limit, 255),
        ("", 300, "1", "", limit, 255),
        ("", 255, "{\"a\":1}", "", limit, 255),
        (member, 255, "", "}", limit, 269),
        // A fault before it, or after it.
        ("[x,", 256, "", "]", ErrorCode::InvalidJsonValue, 1),
        ("", 255, "x", "", ErrorCode::InvalidJsonValue, 255),
        ("", 256, "x", "", limit, 255),
        ("[1 ", 300, "", "]", ErrorCode::ExpectedArrayCommaOrEnd, 3),
        // Text behind the value.
        ("", 256, "", " x", limit, 255),
        ("", 255, "", " x", ErrorCode::TrailingCharacters, 511),
    ] {
        let json = nested(alloc, before, depth, inside, after)?;
        check_error(&rt, Value::from_str(alloc, &json), &json, (code, offset));
        check_error(
            &rt,
            Value::from_slice(alloc, json.as_bytes()),
            &json,
            (code, offset),
        );
    }
    Ok(())
}

// Bytes that are no UTF-8, and why they aren't read.
fn broken_bytes() -> [(&'static [u8], ErrorCode, usize); 11] {
    [
        (b"\"\x80\x90\"", ErrorCode::InvalidUTF8, 1),
        (b"{\"\xff\":1}", ErrorCode::InvalidUTF8, 2),
        (b"[\"a\", \"\\n\xc3\"]", ErrorCode::InvalidUTF8, 9),
        (
            b"[\"\xc3\xa9\", \"\xed\xa0\x80\"]",
            ErrorCode::InvalidUTF8,
            8,
        ),
        (b"\"\xff\" x", ErrorCode::TrailingCharacters, 4),
        (b"[\"\xff\"x]", ErrorCode::ExpectedArrayCommaOrEnd, 4),
        (b"{\"\xff\" 1}", ErrorCode::ExpectedColon, 5),
        (b"[1]\xff", ErrorCode::TrailingCharacters, 3),
        (b"\xff", ErrorCode::InvalidJsonValue, 0),
        (b"[1,\xff]", ErrorCode::InvalidJsonValue, 3),
        (b"[\"\x80\", x]", ErrorCode::InvalidJsonValue, 6),
    ]
}

#[test]
fn tells_of_broken_bytes_last(rt: HostRuntime) -> Result<(), Fail> {
    let alloc = rt.alloc();
    for (json, code, offset) in broken_bytes() {
        check_error(&rt, Value::from_slice(alloc, json), "bytes", (code, offset));
        match validate(alloc, json) {
            Err(error) => same(&rt, (error.code(), error.offset()), (code, offset)),
            Ok(()) => panic!(rt; "they are valid"),
        }
    }
    Ok(())
}
