// Worked examples, and white space and backslashes at each offset of a block.
use crate::reference::plain_small;
use crate::same::same_at;
use bytes::Bytes;
use sonic_error::ErrorCode;
use sonic_find::validate;
use sonic_input::{FastStr, JsonInput};
use sonic_min::minify;
use std::alloc::Global;
use std::process::Abort;
use std::test::Fail;

// A text, and its text without white space outside strings.
const TEXTS: [(&str, &str); 20] = [
    ("[ 1 , \"a b\" ]", "[1,\"a b\"]"),
    // Scalars, alone and with white space around them.
    ("null", "null"),
    (" \t\r\n-1.5e+3\n\r\t ", "-1.5e+3"),
    ("\n\"a b\"\n", "\"a b\""),
    (" \"\" ", "\"\""),
    ("true ", "true"),
    // Empty containers.
    ("[]", "[]"),
    (" [ ] ", "[]"),
    ("\t{\n}\r", "{}"),
    ("[ [ ] , { } ]", "[[],{}]"),
    // Members keep their order and their repeats.
    (
        "{ \"a\" : 1 ,\r\n \"b c\" : [ 2 , 3 ] , \"a\" : null }",
        "{\"a\":1,\"b c\":[2,3],\"a\":null}",
    ),
    // Scalars and keys keep their bytes.
    ("[1.0, 1.00e0, -0]", "[1.0,1.00e0,-0]"),
    (
        "[\"\\u0020\", \"\\/\", \"\u{e9}\u{2028}\"]",
        "[\"\\u0020\",\"\\/\",\"\u{e9}\u{2028}\"]",
    ),
    (
        "{\"\\u0061\" : {\" \" : \" \"}}",
        "{\"\\u0061\":{\" \":\" \"}}",
    ),
    // Quotes and backslashes in strings, and brackets, commas and colons.
    ("[\"\\\" , \" , 1]", "[\"\\\" , \",1]"),
    ("[\"\\\\\" , \" ]\", 1 ]", "[\"\\\\\",\" ]\",1]"),
    (
        "[ \"[ 1 , 2 ]\" , \"{ \\\" : 1 }\" ]",
        "[\"[ 1 , 2 ]\",\"{ \\\" : 1 }\"]",
    ),
    // More than one block of 64 bytes.
    (
        "[ \"0123456789 0123456789 0123456789 0123456789 0123456789 0123456789\" , 1 ]",
        "[\"0123456789 0123456789 0123456789 0123456789 0123456789 0123456789\",1]",
    ),
    (
        "                                                                         7",
        "7",
    ),
    (
        "[1, 2, 3, 4, 5, 6, 7, 8, 9, 10, 11, 12, 13, 14, 15, 16, 17, 18, 19, 20, 21, 22, 23, 24]",
        "[1,2,3,4,5,6,7,8,9,10,11,12,13,14,15,16,17,18,19,20,21,22,23,24]",
    ),
];

// Checks the text of an input.
fn check<'de, I: JsonInput<'de>>(rt: &impl Abort, alloc: Global, json: I, wanted: &[u8]) {
    match minify(alloc, json) {
        Ok(small) => same_at(rt, small.as_bytes(), wanted, json.to_u8_slice()),
        Err(error) => panic!(rt; "{error}"),
    }
}

#[test]
fn answers_worked_examples_over_each_kind_of_input(rt: HostRuntime) -> Result<(), Fail> {
    let alloc = rt.alloc();
    for &(text, small) in &TEXTS {
        let owned = String::from_str(alloc, text)?;
        let shared = FastStr::new(alloc, text)?;
        check(&rt, alloc, text, small.as_bytes());
        check(&rt, alloc, text.as_bytes(), small.as_bytes());
        check(&rt, alloc, &owned, small.as_bytes());
        check(&rt, alloc, &shared, small.as_bytes());
        check(&rt, alloc, shared.bytes(), small.as_bytes());
        check(&rt, alloc, small, small.as_bytes());
        same_at(
            &rt,
            plain_small(alloc, text.as_bytes())?.as_slice(),
            small.as_bytes(),
            text,
        );
    }
    Ok(())
}

// Bytes that are no document, with the code and the offset of the error. The end of an input is
// reported at its last byte.
const FAULTS: [(&[u8], ErrorCode, usize); 16] = [
    (b"", ErrorCode::EofWhileParsing, 0),
    (b" \n", ErrorCode::EofWhileParsing, 1),
    (b" ]", ErrorCode::InvalidJsonValue, 1),
    (b"[1 , ]", ErrorCode::InvalidJsonValue, 5),
    (b"[1 2] x", ErrorCode::ExpectedArrayCommaOrEnd, 3),
    (b"{ \"a\":1 , }", ErrorCode::ExpectObjectKeyOrEnd, 10),
    (b"{ \"a\" 1}", ErrorCode::ExpectedColon, 6),
    (b"tru", ErrorCode::EofWhileParsing, 2),
    (b"trux", ErrorCode::InvalidLiteral, 3),
    (b"01", ErrorCode::InvalidNumber, 1),
    (
        b"\"a\nb\"",
        ErrorCode::ControlCharacterWhileParsingString,
        2,
    ),
    (b"\"\\x\"", ErrorCode::InvalidEscape, 2),
    (b"1 2", ErrorCode::TrailingCharacters, 2),
    (b"[ 1 ] x", ErrorCode::TrailingCharacters, 6),
    (b"[\"a\xc3\", 1] ", ErrorCode::InvalidUTF8, 3),
    (b"\xff1", ErrorCode::InvalidJsonValue, 0),
];

#[test]
fn refuses_as_validate_does(rt: HostRuntime) -> Result<(), Fail> {
    let alloc = rt.alloc();
    for &(text, code, offset) in &FAULTS {
        match (minify(alloc, text), validate(alloc, text)) {
            (Err(error), Err(other)) => {
                same_at(&rt, error.code(), code, text);
                same_at(&rt, error.offset(), offset, text);
                same_at(&rt, other.code(), code, text);
                same_at(&rt, other.offset(), offset, text);
            }
            _ => panic!(&rt; "no error where {code} is at {offset}"),
        }
    }
    Ok(())
}

// The most bytes before what is tried: two blocks and a little.
const MOST: usize = 130;

// Parts of a text, one after the other, the second so many times.
fn joined(alloc: Global, parts: [&[u8]; 3], count: usize) -> Result<Vec<u8>, Fail> {
    let [before, part, after] = parts;
    let mut text = Vec::new(alloc);
    text.extend_from_slice(before)?;
    for _ in 0..count {
        text.extend_from_slice(part)?;
    }
    text.extend_from_slice(after)?;
    Ok(text)
}

// Each byte of white space, outside a string and inside one, where a blank alone may be.
const SPACES: [(&[u8], &[u8]); 4] = [
    (b"\" , 1 ]", b"\",1]"),
    (b"\"\t,\t1\t]", b"\",1]"),
    (b"\"\n,\n1\n]", b"\",1]"),
    (b"\"\r,\r1\r]", b"\",1]"),
];

#[test]
fn drops_white_space_at_each_offset(rt: HostRuntime) -> Result<(), Fail> {
    let alloc = rt.alloc();
    for count in 0..MOST + 1 {
        for &(after, small) in &SPACES {
            let text = joined(alloc, [b"[\"", b"a", after], count)?;
            let wanted = joined(alloc, [b"[\"", b"a", small], count)?;
            check(&rt, alloc, text.as_slice(), wanted.as_slice());
        }
        for space in [b" ", b"\t", b"\n", b"\r"] {
            let text = joined(alloc, [b"", space, b"[1,2]"], count)?;
            check(&rt, alloc, text.as_slice(), b"[1,2]");
            let text = joined(alloc, [b"[1,2", space, b"]"], count)?;
            check(&rt, alloc, text.as_slice(), b"[1,2]");
            let text = joined(alloc, [b"{}", space, b""], count)?;
            check(&rt, alloc, text.as_slice(), b"{}");
        }
    }
    Ok(())
}

#[test]
fn keeps_blanks_in_strings_at_each_offset(rt: HostRuntime) -> Result<(), Fail> {
    let alloc = rt.alloc();
    for count in 0..MOST + 1 {
        let text = joined(alloc, [b"\"", b"a", b" b , c\""], count)?;
        check(&rt, alloc, text.as_slice(), text.as_slice());
        let text = joined(alloc, [b"\"", b" ", b"\""], count)?;
        check(&rt, alloc, text.as_slice(), text.as_slice());
        let text = joined(alloc, [b"[\"", b" ", b"\", \" \"]"], count)?;
        let wanted = joined(alloc, [b"[\"", b" ", b"\",\" \"]"], count)?;
        check(&rt, alloc, text.as_slice(), wanted.as_slice());
    }
    Ok(())
}

// Backslashes before a quote, of which an even number leaves it the end of the string.
#[test]
fn takes_runs_of_backslashes(rt: HostRuntime) -> Result<(), Fail> {
    let alloc = rt.alloc();
    for count in 0..MOST + 1 {
        let (after, small): (&[u8], &[u8]) = if count % 2 == 0 {
            (b"\" , \" \" ]", b"\",\" \"]")
        } else {
            (b"\" , \" , \" \" ]", b"\" , \",\" \"]")
        };
        let text = joined(alloc, [b"[ \"", b"\\", after], count)?;
        let wanted = joined(alloc, [b"[\"", b"\\", small], count)?;
        check(&rt, alloc, text.as_slice(), wanted.as_slice());
    }
    Ok(())
}
