// What no clause says: that documents are looked at over each kind of input, and where memory is
// ample. The expected values are by the grammar.
use crate::same::{same, same_at};
use bytes::Bytes;
use sonic_error::ErrorCode;
use sonic_input::{FastStr, JsonInput};
use sonic_lazy::{from_str, validate};
use std::alloc::Global;
use std::process::Abort;
use std::test::Fail;

// The code and the offset of an error.
type Reason = (ErrorCode, usize);

// Checks the code and the offset of the error, or that there is none.
fn check<'de, I: JsonInput<'de>>(rt: &impl Abort, alloc: Global, input: I, wanted: Option<Reason>) {
    match (validate(alloc, input), wanted) {
        (Ok(()), None) => {}
        (Err(error), Some((code, offset))) => {
            same(rt, error.code(), code);
            same_at(rt, error.offset(), offset, code);
        }
        (Ok(()), Some((code, offset))) => panic!(rt; "no error where {code} is at {offset}"),
        (Err(error), None) => panic!(rt; "{error}"),
    }
}

// Checks that the text is read as its one value, without white space round it, or has that reason.
fn check_value(rt: &impl Abort, alloc: Global, text: &str, wanted: Option<Reason>) {
    match (from_str(alloc, text), wanted) {
        (Ok(value), None) => {
            same(rt, value.as_raw_str(), text.trim());
            same_at(rt, value.has_escaped(), text.contains('\\'), text);
        }
        (Err(error), Some((code, offset))) => {
            same(rt, error.code(), code);
            same_at(rt, error.offset(), offset, code);
        }
        _ => panic!(rt; "{text} is read otherwise"),
    }
}

// A text, and the reason why it is no document, if it is none. The end of an input is reported at
// its last byte.
const TEXTS: [(&str, Option<Reason>); 29] = [
    ("null", None),
    ("\t\"\\n\" ", None),
    (" \t\r\n7 \t\r\n", None),
    ("\"\u{e9}\u{1F600}\"", None),
    ("{\"a\":[1,{\"b\":[]}],\"a\":-0.5e3}\n", None),
    ("{\"a\":1} ", None),
    // No value is there.
    ("", Some((ErrorCode::EofWhileParsing, 0))),
    (" \n", Some((ErrorCode::EofWhileParsing, 1))),
    ("x", Some((ErrorCode::InvalidJsonValue, 0))),
    (" ]", Some((ErrorCode::InvalidJsonValue, 1))),
    // A byte order mark is no white space.
    ("\u{FEFF}1", Some((ErrorCode::InvalidJsonValue, 0))),
    ("\u{A0}1", Some((ErrorCode::InvalidJsonValue, 0))),
    // The root has a fault.
    ("tru", Some((ErrorCode::EofWhileParsing, 2))),
    ("trux", Some((ErrorCode::InvalidLiteral, 3))),
    ("-", Some((ErrorCode::EofWhileParsing, 0))),
    ("01", Some((ErrorCode::InvalidNumber, 1))),
    ("[1,]", Some((ErrorCode::InvalidJsonValue, 3))),
    ("[1 2] x", Some((ErrorCode::ExpectedArrayCommaOrEnd, 3))),
    ("{\"a\":1,}", Some((ErrorCode::ExpectObjectKeyOrEnd, 7))),
    ("{\"a\" 1}", Some((ErrorCode::ExpectedColon, 5))),
    ("{\"a\":1", Some((ErrorCode::EofWhileParsing, 5))),
    (
        "\"a\nb\"",
        Some((ErrorCode::ControlCharacterWhileParsingString, 2)),
    ),
    // The root is whole, and text follows it.
    ("1 2", Some((ErrorCode::TrailingCharacters, 2))),
    ("[1] x", Some((ErrorCode::TrailingCharacters, 4))),
    ("{}}", Some((ErrorCode::TrailingCharacters, 2))),
    ("{} x", Some((ErrorCode::TrailingCharacters, 3))),
    ("null,", Some((ErrorCode::TrailingCharacters, 4))),
    ("\"\" \n\u{0}", Some((ErrorCode::TrailingCharacters, 4))),
    ("1\u{FEFF}", Some((ErrorCode::TrailingCharacters, 1))),
];

#[test]
fn looks_at_documents_of_each_kind_of_input(rt: HostRuntime) -> Result<(), Fail> {
    let alloc = rt.alloc();
    for &(text, wanted) in &TEXTS {
        let owned = String::from_str(alloc, text)?;
        let shared = FastStr::new(alloc, text)?;
        check_value(&rt, alloc, text, wanted);
        check(&rt, alloc, text, wanted);
        check(&rt, alloc, text.as_bytes(), wanted);
        check(&rt, alloc, &owned, wanted);
        check(&rt, alloc, &shared, wanted);
        check(&rt, alloc, shared.bytes(), wanted);
    }
    Ok(())
}

// Bytes that aren't UTF-8, and the reason why they are no document.
const BROKEN: [(&[u8], Reason); 10] = [
    // Before the value, where the byte is none that a value begins with.
    (b"\xFF1", (ErrorCode::InvalidJsonValue, 0)),
    (b" \xEF\xBB", (ErrorCode::InvalidJsonValue, 1)),
    // Inside it: a string alone takes such bytes.
    (b"\"\xFF\"", (ErrorCode::InvalidUTF8, 1)),
    (b"[\"a\xC3\", 1] ", (ErrorCode::InvalidUTF8, 3)),
    (b"{\"\xE2\x82\":0,\"\xFF\":1}", (ErrorCode::InvalidUTF8, 2)),
    (b"[\xFF]", (ErrorCode::InvalidJsonValue, 1)),
    // After it.
    (b"1\xFF", (ErrorCode::TrailingCharacters, 1)),
    // The fault of the root and the text after it come first.
    (b"[\"\xFF\",]", (ErrorCode::InvalidJsonValue, 5)),
    (b"\"\xFF\" x", (ErrorCode::TrailingCharacters, 4)),
    (b"\"\xFF", (ErrorCode::EofWhileParsing, 1)),
];

#[test]
fn looks_at_utf8_last(rt: HostRuntime) -> Result<(), Fail> {
    let alloc = rt.alloc();
    for &(bytes, wanted) in &BROKEN {
        let shared = Bytes::copy_from_slice(alloc, bytes)?;
        check(&rt, alloc, bytes, Some(wanted));
        check(&rt, alloc, &shared, Some(wanted));
    }
    Ok(())
}

// Brackets of arrays: so many that open, and so many that close.
fn nested(alloc: Global, open: usize, closed: usize) -> Result<String, Fail> {
    let mut text = "[".repeat(alloc, open)?;
    text.push_str(&"]".repeat(alloc, closed)?)?;
    Ok(text)
}

#[test]
fn takes_any_depth(rt: HostRuntime) -> Result<(), Fail> {
    const DEPTH: usize = 100_000;
    let alloc = rt.alloc();
    let whole = nested(alloc, DEPTH, DEPTH)?;
    check(&rt, alloc, &whole, None);
    let cut = nested(alloc, DEPTH, DEPTH - 1)?;
    check(
        &rt,
        alloc,
        &cut,
        Some((ErrorCode::EofWhileParsing, 2 * DEPTH - 2)),
    );
    let more = nested(alloc, DEPTH, DEPTH + 1)?;
    check(
        &rt,
        alloc,
        &more,
        Some((ErrorCode::TrailingCharacters, 2 * DEPTH)),
    );
    Ok(())
}
