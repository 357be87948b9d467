// What no clause says: that numbers are kept as worked examples say, also of 100,000 digits, and
// where memory is ample. The expected values are by RFC 8259, section 6.
use crate::same::{same, same_at};
use sonic_error::{ErrorCode, JsonType, Note, Wanted};
use sonic_input::FastStr;
use sonic_lazy::{RawNumber, get};
use std::alloc::Global;
use std::hash::{DefaultHasher, Hash, Hasher};
use std::process::Abort;
use std::test::Fail;

// A document, the number that it is, and its value as an integer.
type Case = (&'static str, &'static str, Option<i64>, Option<u64>);

fn numbers() -> [Case; 12] {
    [
        ("123", "123", Some(123), Some(123)),
        (" \t\r\n-1 \n", "-1", Some(-1), None),
        ("-0", "-0", Some(0), None),
        ("1.10", "1.10", None, None),
        ("1.2333", "1.2333", None, None),
        ("1E+400", "1E+400", None, None),
        (
            "9223372036854775807",
            "9223372036854775807",
            Some(i64::MAX),
            Some(i64::MAX as u64),
        ),
        (
            "18446744073709551615",
            "18446744073709551615",
            None,
            Some(u64::MAX),
        ),
        ("18446744073709551616", "18446744073709551616", None, None),
        ("\"1.2333\"", "1.2333", None, None),
        (" \"-7\" ", "-7", Some(-7), None),
        ("\"0\"", "0", Some(0), Some(0)),
    ]
}

// That a document of this type is no number.
fn other(found: JsonType) -> ErrorCode {
    let wanted = Wanted::Number;
    ErrorCode::Message(Note::Mismatch { found, wanted })
}

// A text that is no number, and the code and the offset of its error. The end of an input is
// reported at its last byte.
fn refused() -> [(&'static str, ErrorCode, usize); 34] {
    [
        // No document.
        ("", ErrorCode::EofWhileParsing, 0),
        ("-", ErrorCode::EofWhileParsing, 0),
        ("1.", ErrorCode::EofWhileParsing, 1),
        ("01", ErrorCode::InvalidNumber, 1),
        ("+1", ErrorCode::InvalidJsonValue, 0),
        ("\"12", ErrorCode::EofWhileParsing, 2),
        ("\"1\n\"", ErrorCode::ControlCharacterWhileParsingString, 2),
        ("\"1\\x\"", ErrorCode::InvalidEscape, 3),
        ("tru", ErrorCode::EofWhileParsing, 2),
        ("[1", ErrorCode::EofWhileParsing, 1),
        ("{\"a\":01}", ErrorCode::InvalidNumber, 6),
        // Text follows.
        ("12 x", ErrorCode::TrailingCharacters, 3),
        ("12x", ErrorCode::TrailingCharacters, 2),
        ("\"12\" 1", ErrorCode::TrailingCharacters, 5),
        ("\"12x\",", ErrorCode::TrailingCharacters, 5),
        ("true false", ErrorCode::TrailingCharacters, 5),
        // Another type, at the last byte of the value.
        ("null", other(JsonType::Null), 3),
        ("true", other(JsonType::Boolean), 3),
        (" false ", other(JsonType::Boolean), 5),
        ("[]", other(JsonType::Array), 1),
        ("[1]\n", other(JsonType::Array), 2),
        ("{\"a\": 1}", other(JsonType::Object), 7),
        // Another string, at its first quote.
        ("\"12x\"", ErrorCode::InvalidNumber, 0),
        ("\"\"", ErrorCode::InvalidNumber, 0),
        (" \" 1\"", ErrorCode::InvalidNumber, 1),
        ("\"1 \"", ErrorCode::InvalidNumber, 0),
        ("\"01\"", ErrorCode::InvalidNumber, 0),
        ("\"1.\"", ErrorCode::InvalidNumber, 0),
        ("\"-\"", ErrorCode::InvalidNumber, 0),
        ("\"+1\"", ErrorCode::InvalidNumber, 0),
        ("\"true\"", ErrorCode::InvalidNumber, 0),
        ("\"\\u0031\"", ErrorCode::InvalidNumber, 0),
        ("\"1\\u0030\"", ErrorCode::InvalidNumber, 0),
        ("\"\u{663}\"", ErrorCode::InvalidNumber, 0),
    ]
}

fn hash_of<T: Hash>(value: &T) -> u64 {
    let mut state = DefaultHasher::new();
    value.hash(&mut state);
    state.finish()
}

// The number that the document is.
fn number(rt: &impl Abort, alloc: Global, json: &str) -> RawNumber {
    match RawNumber::from_str(alloc, json) {
        Ok(number) => number,
        Err(error) => panic!(rt; "{error}"),
    }
}

#[test]
fn keeps_the_text_of_a_number(rt: HostRuntime) -> Result<(), Fail> {
    for (json, text, signed, unsigned) in numbers() {
        let number = number(&rt, rt.alloc(), json);
        same(&rt, number.as_str(), text);
        same_at(&rt, number.as_i64(), signed, text);
        same_at(&rt, number.as_u64(), unsigned, text);
        same_at(&rt, number.is_i64(), signed.is_some(), text);
        same_at(&rt, number.is_u64(), unsigned.is_some(), text);
    }
    Ok(())
}

#[test]
fn says_why_a_text_is_no_number(rt: HostRuntime) -> Result<(), Fail> {
    for (json, code, offset) in refused() {
        match RawNumber::from_str(rt.alloc(), json) {
            Ok(number) => panic!(rt; "{json} is {number:?}"),
            Err(error) => {
                same_at(&rt, error.code(), code, json);
                same_at(&rt, error.offset(), offset, json);
            }
        }
    }
    Ok(())
}

#[test]
fn compares_numbers_by_their_texts(rt: HostRuntime) -> Result<(), Fail> {
    let alloc = rt.alloc();
    let plain = number(&rt, alloc, " 1.0");
    let quoted = number(&rt, alloc, "\"1.0\"");
    same(&rt, &plain, &quoted);
    assert!(rt; hash_of(&plain) == hash_of(&quoted));
    for &same_value in &["1", "1.00", "10e-1"] {
        assert!(rt; plain != number(&rt, alloc, same_value), "{same_value}");
    }
    Ok(())
}

#[test]
fn takes_the_number_of_a_lazy_value(rt: HostRuntime) -> Result<(), Fail> {
    let alloc = rt.alloc();
    for &(json, is_number) in &[
        ("1.10", true),
        ("-0", true),
        ("1E+400", true),
        ("\"1\"", false),
        ("null", false),
        ("true", false),
        ("[1]", false),
        ("{\"a\": 1}", false),
    ] {
        let shared = FastStr::new(alloc, json)?;
        for value in [get(alloc, json, &[])?, get(alloc, &shared, &[])?] {
            let found = value.as_raw_number(alloc)?;
            let text = match &found {
                Some(number) => Some(number.as_str()),
                None => None,
            };
            same(&rt, text, if is_number { Some(json) } else { None });
        }
    }
    Ok(())
}

#[test]
fn keeps_numbers_of_any_length(rt: HostRuntime) -> Result<(), Fail> {
    let alloc = rt.alloc();
    let mut json = String::from_str(alloc, "\"")?;
    for _ in 0..100_000_u32 {
        json.push('7')?;
    }
    json.push('"')?;
    let number = number(&rt, alloc, &json);
    same(&rt, number.as_str().len(), 100_000);
    same(&rt, number.as_u64(), None);
    Ok(())
}
