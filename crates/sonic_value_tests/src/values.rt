// Values that are made by hand: written, copied, compared, and what they are.
use crate::same::{same, same_at};
use sonic_error::JsonType;
use sonic_lazy::{JsonContainerTrait, JsonValueTrait};
use sonic_value::Value;
use std::alloc::{AllocError, Global};
use std::process::Abort;
use std::test::Fail;

fn number(alloc: Global, text: &str) -> Result<Value, AllocError> {
    Ok(Value::Number(String::from_str(alloc, text)?))
}

fn string(alloc: Global, text: &str) -> Result<Value, AllocError> {
    Ok(Value::String(String::from_str(alloc, text)?))
}

fn member(alloc: Global, key: &str, value: Value) -> Result<(String, Value), AllocError> {
    Ok((String::from_str(alloc, key)?, value))
}

// Checks what is written of a value and of its copy, and that both are equal.
fn check_text(rt: &impl Abort, alloc: Global, value: &Value, wanted: &str) {
    match (value.to_string(alloc), value.clone(alloc)) {
        (Ok(text), Ok(copy)) => {
            same(rt, &text[..], wanted);
            assert!(rt; *value == copy, "{wanted}");
            match copy.to_string(alloc) {
                Ok(text) => same(rt, &text[..], wanted),
                Err(error) => panic!(rt; "{error}"),
            }
        }
        _ => panic!(rt; "memory is ample"),
    }
}

// An object with each kind of value, a repeated key, and keys that are quoted with escapes.
fn sample(alloc: Global) -> Result<Value, AllocError> {
    let mut numbers = Vec::new(alloc);
    numbers.push(number(alloc, "0")?)?;
    numbers.push(number(alloc, "-1.5e3")?)?;
    numbers.push(Value::Array(Vec::new(alloc)))?;
    numbers.push(Value::Object(Vec::new(alloc)))?;
    let mut inner = Vec::new(alloc);
    inner.push(member(alloc, "", Value::Null)?)?;
    let mut members = Vec::new(alloc);
    members.push(member(alloc, "a", Value::Bool(true))?)?;
    members.push(member(alloc, "a", Value::Array(numbers))?)?;
    members.push(member(alloc, "\"\\\n\u{1f}", Value::Object(inner))?)?;
    members.push(member(alloc, "\u{e9}", string(alloc, "\u{1F600}\t/\"")?)?)?;
    Ok(Value::Object(members))
}

#[test]
fn writes_and_copies_values(rt: HostRuntime) -> Result<(), Fail> {
    let alloc = rt.alloc();
    check_text(&rt, alloc, &Value::Null, "null");
    check_text(&rt, alloc, &Value::default(), "null");
    check_text(&rt, alloc, &Value::Bool(true), "true");
    check_text(&rt, alloc, &Value::Bool(false), "false");
    check_text(&rt, alloc, &Value::Array(Vec::new(alloc)), "[]");
    check_text(&rt, alloc, &Value::Object(Vec::new(alloc)), "{}");
    for &text in &["0", "-0", "1.10", "1E+2", "18446744073709551616", "", "1e"] {
        check_text(&rt, alloc, &number(alloc, text)?, text);
    }
    for &(text, quoted) in &[
        ("", "\"\""),
        ("a\"b", "\"a\\\"b\""),
        ("\\", "\"\\\\\""),
        ("\u{0}\u{8}\u{c}\r", "\"\\u0000\\b\\f\\r\""),
        ("\u{7f}\u{e9}\u{10FFFF}", "\"\u{7f}\u{e9}\u{10FFFF}\""),
    ] {
        check_text(&rt, alloc, &string(alloc, text)?, quoted);
    }
    let twice = object(alloc, "a", "a")?;
    check_text(&rt, alloc, &twice, "{\"a\":null,\"a\":null}");
    let value = sample(alloc)?;
    let wanted =
        "{\"a\":true,\"a\":[0,-1.5e3,[],{}],\"\\\"\\\\\\n\\u001f\":{\"\":null},\"\u{e9}\":\"\u{1F600}\\t/\\\"\"}";
    check_text(&rt, alloc, &value, wanted);
    same(
        &rt,
        &format!(in alloc; "{value} {value:?}")?[..],
        &format!(in alloc; "{wanted} {wanted}")?[..],
    );
    Ok(())
}

// An array of two values.
fn pair(alloc: Global, first: Value, second: Value) -> Result<Value, AllocError> {
    let mut elements = Vec::new(alloc);
    elements.push(first)?;
    elements.push(second)?;
    Ok(Value::Array(elements))
}

// An object of two members.
fn object(alloc: Global, first: &str, second: &str) -> Result<Value, AllocError> {
    let mut members = Vec::new(alloc);
    members.push(member(alloc, first, Value::Null)?)?;
    members.push(member(alloc, second, Value::Null)?)?;
    Ok(Value::Object(members))
}

// Values no two of which are equal.
fn different_values(alloc: Global) -> Result<Vec<Value>, AllocError> {
    let mut values = Vec::new(alloc);
    values.push(Value::Null)?;
    values.push(Value::Bool(true))?;
    values.push(Value::Bool(false))?;
    values.push(number(alloc, "1")?)?;
    values.push(number(alloc, "2")?)?;
    values.push(number(alloc, "1.0")?)?;
    values.push(string(alloc, "1")?)?;
    values.push(string(alloc, "")?)?;
    values.push(Value::Array(Vec::new(alloc)))?;
    values.push(Value::Object(Vec::new(alloc)))?;
    values.push(pair(alloc, Value::Null, Value::Bool(true))?)?;
    values.push(pair(alloc, Value::Bool(true), Value::Null)?)?;
    values.push(object(alloc, "a", "b")?)?;
    values.push(object(alloc, "b", "a")?)?;
    values.push(object(alloc, "a", "a")?)?;
    values.push(sample(alloc)?)?;
    Ok(values)
}

#[test]
fn compares_values(rt: HostRuntime) -> Result<(), Fail> {
    let alloc = rt.alloc();
    let values = different_values(alloc)?;
    let again = different_values(alloc)?;
    for (i, one) in values.iter().enumerate() {
        for (j, other) in again.iter().enumerate() {
            same_at(&rt, *one == *other, i == j, (one, other));
            same_at(&rt, *one != *other, i != j, (one, other));
        }
    }
    Ok(())
}

// Texts of numbers, and the integers that they are.
fn integers() -> [(&'static str, Option<i64>, Option<u64>); 14] {
    [
        ("0", Some(0), Some(0)),
        ("-0", Some(0), None),
        ("-7", Some(-7), None),
        ("9223372036854775808", None, Some(9223372036854775808)),
        ("-9223372036854775808", Some(i64::MIN), None),
        ("18446744073709551615", None, Some(u64::MAX)),
        ("18446744073709551616", None, None),
        ("1.0", None, None),
        ("1e0", None, None),
        ("", None, None),
        ("1e", None, None),
        ("+1", None, None),
        ("01", None, None),
        ("1 ", None, None),
    ]
}

#[test]
fn is_the_number_that_it_was_made_of(rt: HostRuntime) -> Result<(), Fail> {
    for (text, signed, unsigned) in integers() {
        let value = number(rt.alloc(), text)?;
        same_at(&rt, value.get_type(), JsonType::Number, text);
        same_at(&rt, value.as_i64(), signed, text);
        same_at(&rt, value.as_u64(), unsigned, text);
        same_at(&rt, value.is_i64(), signed.is_some(), text);
        same_at(&rt, value.is_u64(), unsigned.is_some(), text);
    }
    Ok(())
}

#[test]
fn is_what_its_variant_says(rt: HostRuntime) -> Result<(), Fail> {
    let null = Value::Null;
    same(&rt, (null.is_null(), null.is_boolean()), (true, false));
    same(&rt, Value::Bool(true).is_true(), true);
    same(&rt, Value::Bool(false).is_false(), true);
    let text = string(rt.alloc(), "7")?;
    same(
        &rt,
        (text.is_str(), text.as_u64(), text.as_bool()),
        (true, None, None),
    );
    Ok(())
}

#[test]
fn is_the_array_that_it_was_made_of(rt: HostRuntime) -> Result<(), Fail> {
    let array = pair(rt.alloc(), Value::Null, Value::Null)?;
    same(&rt, (array.is_array(), array.is_object()), (true, false));
    match (array.as_array(), array.as_object()) {
        (Some(elements), None) => same(&rt, elements.len(), 2),
        _ => panic!(&rt; "it is an array"),
    }
    Ok(())
}

#[test]
fn is_the_object_that_it_was_made_of(rt: HostRuntime) -> Result<(), Fail> {
    let object = object(rt.alloc(), "a", "a")?;
    same(&rt, (object.is_object(), object.is_array()), (true, false));
    match (object.as_object(), object.as_array()) {
        (Some(members), None) => same(&rt, members.len(), 2),
        _ => panic!(&rt; "it is an object"),
    }
    Ok(())
}
