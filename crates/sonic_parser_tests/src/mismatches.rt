// The errors where a value of another type is wanted: with the cursor after the value, or at its fault.
use crate::same::{same, same_at};
use sonic_error::{Error, ErrorCode, JsonType, Note, Wanted};
use sonic_input::Read;
use sonic_parser::Parser;
use std::alloc::Global;
use std::process::Abort;
use std::test::Fail;

// A code for each type: a number is wanted where it isn't one, and else an object.
fn other(found: JsonType) -> ErrorCode {
    let wanted = match found {
        JsonType::Number => Wanted::Object,
        _ => Wanted::Number,
    };
    ErrorCode::Message(Note::Mismatch { found, wanted })
}

// Checks the error after the first byte of the value in a text.
fn check(rt: &impl Abort, alloc: Global, text: &[u8], lossy: bool, place: usize, code: ErrorCode) {
    let mut parser = Parser::new(Read::from(text));
    if lossy {
        parser = parser.utf8_lossy();
    }
    let Some(first) = parser.skip_space() else {
        panic!(rt; "{text:?} has no value");
    };
    let wanted = match first {
        b'-' | b'0'..=b'9' => Wanted::Object,
        _ => Wanted::Number,
    };
    assert!(rt; place <= text.len());
    same_at(
        rt,
        parser.peek_invalid_type(alloc, first, wanted),
        Error::syntax(code, text, place),
        (text, lossy),
    );
    let cursor = match code {
        ErrorCode::Message(_) => place + 1,
        _ => place,
    };
    same_at(rt, parser.offset(), cursor, (text, lossy));
}

// Values of each type, with the places of their last bytes.
fn whole_values() -> [(&'static [u8], usize, JsonType); 13] {
    [
        (b"null", 3, JsonType::Null),
        (b" true,", 4, JsonType::Boolean),
        (b"false", 4, JsonType::Boolean),
        (b"1", 0, JsonType::Number),
        (b"-0.5e+7]", 6, JsonType::Number),
        (b"1.2.3", 2, JsonType::Number),
        (b"\"\"", 1, JsonType::String),
        (b"\"\\u00e9\\\"\"x", 9, JsonType::String),
        (b"\"\xff\"", 2, JsonType::String),
        (b"[ ]", 2, JsonType::Array),
        (b"[1, {\"a\":\"]\"}] x", 13, JsonType::Array),
        (b"{}}", 1, JsonType::Object),
        (b"\n{\"a\":[1,2]} ", 11, JsonType::Object),
    ]
}

// Values with a fault, whatever is wanted.
fn broken_values() -> [(&'static [u8], usize, ErrorCode); 12] {
    [
        (b"nul", 3, ErrorCode::EofWhileParsing),
        (b"trve", 2, ErrorCode::InvalidLiteral),
        (b"-x", 1, ErrorCode::InvalidNumber),
        (b"01", 1, ErrorCode::InvalidNumber),
        (b"1.", 2, ErrorCode::EofWhileParsing),
        (b"\"a", 2, ErrorCode::EofWhileParsing),
        (b"\"\xff\\x\"", 3, ErrorCode::InvalidEscape),
        (b"[1,x]", 3, ErrorCode::InvalidJsonValue),
        (b"[", 1, ErrorCode::EofWhileParsing),
        (b"{\"a\" 1}", 5, ErrorCode::ExpectedColon),
        (b"x", 0, ErrorCode::InvalidJsonValue),
        (b"]", 0, ErrorCode::InvalidJsonValue),
    ]
}

#[test]
fn tells_the_fault_or_the_other_type(rt: HostRuntime) {
    for &lossy in &[false, true] {
        for (text, place, found) in whole_values() {
            check(&rt, rt.alloc(), text, lossy, place, other(found));
        }
        for (text, place, code) in broken_values() {
            check(&rt, rt.alloc(), text, lossy, place, code);
        }
    }
    let half = b"[\"\\ud800\"]";
    let code = ErrorCode::InvalidSurrogateUnicodeCodePoint;
    check(&rt, rt.alloc(), half, false, 8, code);
    check(&rt, rt.alloc(), half, true, 9, other(JsonType::Array));
}

#[test]
fn shows_the_value_that_was_found(rt: HostRuntime) -> Result<(), Fail> {
    let mut parser = Parser::new(Read::from("1e999 "));
    let Some(first) = parser.skip_space() else {
        panic!(rt; "a number is there");
    };
    let error = parser.peek_invalid_type(rt.alloc(), first, Wanted::Object);
    let shown = format!(in rt.alloc(); "{error}")?;
    same(
        &rt,
        &shown[..],
        "invalid type: number, expected a JSON object at line 1 column 5\n\n\t1e999 \n\t....^.\n",
    );
    Ok(())
}
