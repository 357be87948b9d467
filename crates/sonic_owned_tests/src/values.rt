// Values that are read, made, opened, copied and written.
use crate::same::{same, same_at};
use sonic_error::{ErrorCode, JsonType};
use sonic_input::FastStr;
use sonic_lazy::{JsonContainerTrait, JsonValueTrait};
use sonic_owned::{LazyArray, LazyObject, OwnedLazyValue};
use std::alloc::Global;
use std::borrow::CowStr;
use std::process::Abort;
use std::test::Fail;

// Checks the text of a value.
fn check_text(rt: &impl Abort, alloc: Global, value: &OwnedLazyValue, wanted: &str) {
    match value.to_string(alloc) {
        Ok(text) => same(rt, &text[..], wanted),
        Err(error) => panic!(rt; "{error}"),
    }
}

fn read(rt: &impl Abort, alloc: Global, json: &str) -> OwnedLazyValue {
    match OwnedLazyValue::from_str(alloc, json) {
        Ok(value) => value,
        Err(error) => panic!(rt; "{error}"),
    }
}

fn load(rt: &impl Abort, alloc: Global, value: &mut OwnedLazyValue) {
    if let Err(error) = value.load(alloc) {
        panic!(rt; "{error}");
    }
}

// Texts, and what is written of them before and after they are opened.
fn opened_texts() -> [(&'static str, &'static str, &'static str); 12] {
    [
        ("{\"\\/\" : 1}", "{\"\\/\" : 1}", "{\"/\":1}"),
        (
            " [ 1 , [ 2 ] , {\"a\" : 3}]\n",
            "[ 1 , [ 2 ] , {\"a\" : 3}]",
            "[1,[ 2 ],{\"a\" : 3}]",
        ),
        (
            "{ \"a\":\"\\u0061\", \"a\" :null }",
            "{ \"a\":\"\\u0061\", \"a\" :null }",
            "{\"a\":\"\\u0061\",\"a\":null}",
        ),
        (
            "{\"\\u0022\\n\\u001f\\u00e9\":0}",
            "{\"\\u0022\\n\\u001f\\u00e9\":0}",
            "{\"\\\"\\n\\u001f\u{e9}\":0}",
        ),
        ("[ ]", "[ ]", "[]"),
        ("\t{\n} ", "{\n}", "{}"),
        ("{\"\":[]}", "{\"\":[]}", "{\"\":[]}"),
        (" 1.10 ", "1.10", "1.10"),
        ("\"\\/\"", "\"\\/\"", "\"\\/\""),
        ("true", "true", "true"),
        ("null\r\n", "null", "null"),
        ("-0", "-0", "-0"),
    ]
}

#[test]
fn writes_what_was_read_and_what_was_opened(rt: HostRuntime) -> Result<(), Fail> {
    let alloc = rt.alloc();
    for (json, before, after) in opened_texts() {
        let mut value = read(&rt, alloc, json);
        check_text(&rt, alloc, &value, before);
        same_at(&rt, &format!(in alloc; "{value:?}")?[..], before, json);
        load(&rt, alloc, &mut value);
        check_text(&rt, alloc, &value, after);
        // A level is opened once.
        load(&rt, alloc, &mut value);
        check_text(&rt, alloc, &value, after);
        match value.clone(alloc) {
            Ok(copy) => check_text(&rt, alloc, &copy, after),
            Err(error) => panic!(rt; "{error}"),
        }
    }
    Ok(())
}

// Texts that are no document, and why.
fn broken_texts() -> [(&'static str, ErrorCode, usize); 13] {
    [
        ("", ErrorCode::EofWhileParsing, 0),
        ("{\"a\":", ErrorCode::EofWhileParsing, 4),
        ("{\"a\":123", ErrorCode::EofWhileParsing, 7),
        ("{\"a\":}", ErrorCode::InvalidJsonValue, 5),
        ("{\"a\": x}", ErrorCode::InvalidJsonValue, 6),
        ("{\"a\":1.}", ErrorCode::InvalidNumber, 7),
        ("{\"a:1.}", ErrorCode::EofWhileParsing, 6),
        ("{\"a\" 1}", ErrorCode::ExpectedColon, 5),
        ("{\"a\"[1}}", ErrorCode::ExpectedColon, 4),
        ("[1] x", ErrorCode::TrailingCharacters, 4),
        ("1 2", ErrorCode::TrailingCharacters, 2),
        (
            "\"\\ud800\"",
            ErrorCode::InvalidSurrogateUnicodeCodePoint,
            7,
        ),
        ("\u{FEFF}1", ErrorCode::InvalidJsonValue, 0),
    ]
}

#[test]
fn says_why_a_text_is_no_document(rt: HostRuntime) -> Result<(), Fail> {
    for (json, code, offset) in broken_texts() {
        match OwnedLazyValue::from_str(rt.alloc(), json) {
            Err(error) => {
                same_at(&rt, error.code(), code, json);
                same_at(&rt, error.offset(), offset, json);
            }
            Ok(_) => panic!(rt; "{json} is no document"),
        }
    }
    Ok(())
}

#[test]
fn is_what_its_text_says(rt: HostRuntime) -> Result<(), Fail> {
    let alloc = rt.alloc();
    let Ok(lazy) = sonic_lazy::from_str(alloc, "true") else {
        panic!(rt; "it is a document");
    };
    match OwnedLazyValue::from_lazy(alloc, &lazy) {
        Ok(value) => assert!(rt; value.is_true() && !value.is_false()),
        Err(error) => panic!(rt; "{error}"),
    }
    let falsehood = read(&rt, alloc, "false");
    assert!(rt; falsehood.is_false() && !falsehood.is_true());
    same(&rt, read(&rt, alloc, "-7").as_i64(), Some(-7));
    same(&rt, read(&rt, alloc, "7").as_u64(), Some(7));
    same(&rt, read(&rt, alloc, "\"7\"").as_u64(), None);
    same(&rt, read(&rt, alloc, "[7]").get_type(), JsonType::Array);
    same(&rt, OwnedLazyValue::default().get_type(), JsonType::Null);
    same(&rt, OwnedLazyValue::from(()).get_type(), JsonType::Null);
    same(&rt, OwnedLazyValue::from(true).as_bool(), Some(true));
    same(&rt, OwnedLazyValue::from(false).as_bool(), Some(false));
    match read(&rt, alloc, "1.10").as_raw_number(alloc) {
        Ok(Some(number)) => same(&rt, number.as_str(), "1.10"),
        _ => panic!(rt; "1.10 is a number"),
    }
    match read(&rt, alloc, "\"1\"").as_raw_number(alloc) {
        Ok(None) => {}
        _ => panic!(rt; "a quoted number is a string"),
    }
    Ok(())
}

// Numbers that were made: their text, and what they answer.
fn made_numbers() -> [(OwnedLazyValue, &'static str, Option<i64>, Option<u64>); 8] {
    [
        (0u64.into(), "0", Some(0), Some(0)),
        (7u64.into(), "7", Some(7), Some(7)),
        (
            u64::MAX.into(),
            "18446744073709551615",
            None,
            Some(u64::MAX),
        ),
        (
            (i64::MAX as u64 + 1).into(),
            "9223372036854775808",
            None,
            Some(i64::MAX as u64 + 1),
        ),
        (0i64.into(), "0", Some(0), Some(0)),
        ((-1i64).into(), "-1", Some(-1), None),
        (
            i64::MIN.into(),
            "-9223372036854775808",
            Some(i64::MIN),
            None,
        ),
        (
            i64::MAX.into(),
            "9223372036854775807",
            Some(i64::MAX),
            Some(i64::MAX as u64),
        ),
    ]
}

#[test]
fn makes_numbers(rt: HostRuntime) -> Result<(), Fail> {
    let alloc = rt.alloc();
    for (value, text, signed, unsigned) in made_numbers() {
        check_text(&rt, alloc, &value, text);
        same(&rt, value.get_type(), JsonType::Number);
        same(&rt, value.as_bool(), None);
        same(&rt, value.as_i64(), signed);
        same(&rt, value.as_u64(), unsigned);
        match (value.as_raw_number(alloc), value.as_str(alloc)) {
            (Ok(Some(number)), Ok(None)) => same(&rt, number.as_str(), text),
            _ => panic!(rt; "{text} is a number and no string"),
        }
        match value.clone(alloc) {
            Ok(copy) => same(&rt, copy.as_i64(), signed),
            Err(error) => panic!(rt; "{error}"),
        }
    }
    Ok(())
}

#[test]
fn reads_the_text_of_strings(rt: HostRuntime) -> Result<(), Fail> {
    let alloc = rt.alloc();
    match read(&rt, alloc, "\"x\"").as_str(alloc) {
        Ok(Some(CowStr::Borrowed(text))) => same(&rt, text, "x"),
        _ => panic!(rt; "a string without a backslash is borrowed"),
    }
    match read(&rt, alloc, "\"\\n\"").as_str(alloc) {
        Ok(Some(CowStr::Owned(text))) => same(&rt, &text[..], "\n"),
        _ => panic!(rt; "a string with a backslash is made anew"),
    }
    let made = OwnedLazyValue::from_text(FastStr::new(alloc, "a\"\n")?);
    check_text(&rt, alloc, &made, "\"a\\\"\\n\"");
    match made.as_str(alloc) {
        Ok(Some(CowStr::Borrowed(text))) => same(&rt, text, "a\"\n"),
        _ => panic!(rt; "the text of a made string is borrowed"),
    }
    match read(&rt, alloc, "[]").as_str(alloc) {
        Ok(None) => {}
        _ => panic!(rt; "an array is no string"),
    }
    Ok(())
}

#[test]
fn has_a_level_once_it_is_opened(rt: HostRuntime) -> Result<(), Fail> {
    let alloc = rt.alloc();
    let mut object = read(&rt, alloc, "{\"a\":1}");
    assert!(rt; object.as_object().is_none() && object.as_array().is_none());
    load(&rt, alloc, &mut object);
    assert!(rt; object.as_object().is_some() && object.as_array().is_none());
    let mut array = read(&rt, alloc, "[1]");
    load(&rt, alloc, &mut array);
    assert!(rt; array.as_object().is_none() && array.as_array().is_some());
    let empty = OwnedLazyValue::from(LazyArray::new(alloc));
    check_text(&rt, alloc, &empty, "[]");
    let empty = OwnedLazyValue::from(LazyObject::new(alloc));
    check_text(&rt, alloc, &empty, "{}");
    match array.as_array() {
        Some(level) => same(
            &rt,
            &format!(in alloc; "{level:?} {object:?}")?[..],
            "[1] {\"a\":1}",
        ),
        None => panic!(rt; "the array was opened"),
    }
    Ok(())
}

#[test]
fn keeps_deep_values_unopened(rt: HostRuntime) -> Result<(), Fail> {
    const DEPTH: usize = 100_000;
    let alloc = rt.alloc();
    let mut text = "[".repeat(alloc, DEPTH)?;
    text.push_str(&"]".repeat(alloc, DEPTH)?)?;
    let mut value = read(&rt, alloc, &text);
    load(&rt, alloc, &mut value);
    match value.clone(alloc) {
        Ok(copy) => check_text(&rt, alloc, &copy, &text),
        Err(error) => panic!(rt; "{error}"),
    }
    Ok(())
}

#[test]
fn goes_as_deep_as_memory_lasts(rt: HostRuntime) -> Result<(), Fail> {
    const PAIRS: usize = 500_000;
    let alloc = rt.alloc();
    let mut value = OwnedLazyValue::from(true);
    for _ in 0..PAIRS {
        let mut array = LazyArray::new(alloc);
        assert!(rt; array.push(OwnedLazyValue::from(())).is_ok());
        assert!(rt; array.push(value).is_ok());
        let array = OwnedLazyValue::from(array);
        let mut object = LazyObject::new(alloc);
        assert!(rt; object.append_pair(FastStr::new(alloc, "a")?, array).is_ok());
        value = OwnedLazyValue::from(object);
    }
    let mut text = "{\"a\":[null,".repeat(alloc, PAIRS)?;
    text.push_str("true")?;
    text.push_str(&"]}".repeat(alloc, PAIRS)?)?;
    check_text(&rt, alloc, &value, &text);
    match value.clone(alloc) {
        Ok(copy) => check_text(&rt, alloc, &copy, &text),
        Err(error) => panic!(rt; "{error}"),
    }
    Ok(())
}
