// What no clause says: that lazy values are what worked examples say, also through an `Option`, a
// `Result` and a reference. The expected values are by RFC 8259.
use crate::same::{same, same_at};
use sonic_error::{Error, ErrorCode, JsonType};
use sonic_input::FastStr;
use sonic_lazy::{JsonValueTrait, LazyValue, get};
use std::alloc::Global;
use std::borrow::CowStr;
use std::process::Abort;
use std::test::Fail;

// What a text is: its type, which of true and false, and its value as an integer.
#[derive(Clone, Copy)]
struct Case<'a> {
    text: &'a str,
    kind: JsonType,
    truth: Option<bool>,
    signed: Option<i64>,
    unsigned: Option<u64>,
}

// A text that is no integer, and neither true nor false.
fn other(text: &str, kind: JsonType) -> Case<'_> {
    Case {
        text,
        kind,
        truth: None,
        signed: None,
        unsigned: None,
    }
}

// A number, with its value as an integer.
fn number(text: &str, signed: Option<i64>, unsigned: Option<u64>) -> Case<'_> {
    Case {
        text,
        kind: JsonType::Number,
        truth: None,
        signed,
        unsigned,
    }
}

// True or false.
fn boolean(text: &str, truth: bool) -> Case<'_> {
    Case {
        text,
        kind: JsonType::Boolean,
        truth: Some(truth),
        signed: None,
        unsigned: None,
    }
}

fn cases() -> [Case<'static>; 24] {
    [
        other("null", JsonType::Null),
        boolean("true", true),
        boolean("false", false),
        number("0", Some(0), Some(0)),
        number("-0", Some(0), None),
        number("-1", Some(-1), None),
        number("123", Some(123), Some(123)),
        number("1.10", None, None),
        number("1.0", None, None),
        number("1e3", None, None),
        number("9223372036854775807", Some(i64::MAX), Some(i64::MAX as u64)),
        number("9223372036854775808", None, Some(0x8000_0000_0000_0000)),
        number("-9223372036854775808", Some(i64::MIN), None),
        number("-9223372036854775809", None, None),
        number("18446744073709551615", None, Some(u64::MAX)),
        number("18446744073709551616", None, None),
        other("\"\"", JsonType::String),
        other("\"a\"", JsonType::String),
        other("\"1\"", JsonType::String),
        other("\"true\"", JsonType::String),
        other("\"\\u00e9\"", JsonType::String),
        other("[]", JsonType::Array),
        other("[null, 1]", JsonType::Array),
        other("{}", JsonType::Object),
    ]
}

// The value that the text begins with.
fn root<'a>(rt: &impl Abort, alloc: Global, text: &'a str) -> LazyValue<'a> {
    match get(alloc, text, &[]) {
        Ok(value) => value,
        Err(error) => panic!(rt; "{error}"),
    }
}

/// Checks all that the value says of itself.
fn check<V: JsonValueTrait>(rt: &impl Abort, value: &V, wanted: &Case<'_>) {
    let text = wanted.text;
    same_at(rt, value.get_type(), wanted.kind, text);
    same_at(rt, value.as_bool(), wanted.truth, text);
    same_at(rt, value.as_i64(), wanted.signed, text);
    same_at(rt, value.as_u64(), wanted.unsigned, text);
    same_at(rt, value.is_true(), wanted.truth == Some(true), text);
    same_at(rt, value.is_false(), wanted.truth == Some(false), text);
    same_at(rt, value.is_i64(), wanted.signed.is_some(), text);
    same_at(rt, value.is_u64(), wanted.unsigned.is_some(), text);
    for &(is, kind) in &[
        (value.is_null(), JsonType::Null),
        (value.is_boolean(), JsonType::Boolean),
        (value.is_number(), JsonType::Number),
        (value.is_str(), JsonType::String),
        (value.is_object(), JsonType::Object),
        (value.is_array(), JsonType::Array),
    ] {
        same_at(rt, is, wanted.kind == kind, text);
    }
}

#[test]
fn says_what_a_value_is(rt: HostRuntime) -> Result<(), Fail> {
    for case in &cases() {
        check(&rt, &root(&rt, rt.alloc(), case.text), case);
    }
    Ok(())
}

#[test]
fn says_the_same_through_wrappers(rt: HostRuntime) -> Result<(), Fail> {
    for case in &cases() {
        let value = root(&rt, rt.alloc(), case.text);
        check(&rt, &Some(value.clone()?), case);
        check::<Result<LazyValue<'_>, Error>>(&rt, &Ok(value.clone()?), case);
        check(&rt, &&value, case);
        check(&rt, &Some(&value), case);
    }
    Ok(())
}

#[test]
fn takes_no_value_for_null(rt: HostRuntime) -> Result<(), Fail> {
    let null = other("nothing", JsonType::Null);
    check::<Option<LazyValue<'_>>>(&rt, &None, &null);
    check(&rt, &get(rt.alloc(), "[1", &[]), &null);
    check::<Result<LazyValue<'_>, ErrorCode>>(&rt, &Err(ErrorCode::NoMemory), &null);
    check::<Option<Result<LazyValue<'_>, ErrorCode>>>(&rt, &None, &null);
    Ok(())
}

// A string, what it denotes, and whether that is a part of the input.
const STRINGS: [(&str, &str, bool); 7] = [
    ("\"\"", "", true),
    ("\"hello\"", "hello", true),
    ("\"\u{e9}\u{1F600}\"", "\u{e9}\u{1F600}", true),
    ("\"\\\"hello\\\"\"", "\"hello\"", false),
    ("\"\\u00e9\"", "\u{e9}", false),
    ("\"\\ud83d\\ude00!\"", "\u{1F600}!", false),
    ("\"a\\\\b\\/\\n\"", "a\\b/\n", false),
];

#[test]
fn gives_what_a_string_denotes(rt: HostRuntime) -> Result<(), Fail> {
    for &(raw, text, is_borrowed) in &STRINGS {
        let value = root(&rt, rt.alloc(), raw);
        match value.as_str(rt.alloc()) {
            Ok(Some(CowStr::Borrowed(found))) => {
                same(&rt, found, text);
                assert!(rt; is_borrowed, "{raw}");
            }
            Ok(Some(CowStr::Owned(found))) => {
                same(&rt, found.as_str(), text);
                assert!(rt; !is_borrowed, "{raw}");
            }
            Ok(None) => panic!(rt; "no string: {raw}"),
            Err(error) => panic!(rt; "{error}"),
        }
    }
    Ok(())
}

#[test]
fn gives_no_text_of_other_values(rt: HostRuntime) -> Result<(), Fail> {
    for case in &cases() {
        let value = root(&rt, rt.alloc(), case.text);
        let is_string = matches!(value.as_str(rt.alloc()), Ok(Some(_)));
        same_at(&rt, is_string, case.kind == JsonType::String, "{}");
    }
    Ok(())
}

// Checks the raw text as text of its own.
fn check_raw(rt: &impl Abort, alloc: Global, value: &LazyValue<'_>, raw: &str) {
    match value.as_raw_faststr(alloc) {
        Ok(text) => same(rt, text.as_str(), raw),
        Err(error) => panic!(rt; "{error}"),
    }
}

#[test]
fn gives_the_raw_text_as_text_of_its_own(rt: HostRuntime) -> Result<(), Fail> {
    let alloc = rt.alloc();
    for &(raw, _, _) in &STRINGS {
        check_raw(&rt, alloc, &root(&rt, alloc, raw), raw);
        let Ok(shared) = FastStr::new(alloc, raw) else {
            panic!(&rt; "no memory");
        };
        match get(alloc, &shared, &[]) {
            Ok(value) => check_raw(&rt, alloc, &value, raw),
            Err(error) => panic!(&rt; "{error}"),
        }
    }
    Ok(())
}
