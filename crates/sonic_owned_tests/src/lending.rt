// Parts that are lent, and what is left in their place.
use crate::same::same;
use sonic_error::ErrorCode;
use sonic_input::FastStr;
use sonic_lazy::JsonValueTrait;
use sonic_owned::OwnedLazyValue;
use sonic_pointer::PointerNode;
use sonic_pointer::PointerNode::{Index, Key};
use std::alloc::Global;
use std::process::Abort;
use std::test::Fail;

fn read(rt: &impl Abort, alloc: Global, json: &str) -> OwnedLazyValue {
    match OwnedLazyValue::from_str(alloc, json) {
        Ok(value) => value,
        Err(error) => panic!(rt; "{error}"),
    }
}

fn check_text(rt: &impl Abort, alloc: Global, value: &OwnedLazyValue, wanted: &str) {
    match value.to_string(alloc) {
        Ok(text) => same(rt, &text[..], wanted),
        Err(error) => panic!(rt; "{error}"),
    }
}

// Sets `true` where a path leads, and checks the text of the whole.
fn check(
    rt: &impl Abort,
    alloc: Global,
    path: &[PointerNode<'_>],
    wanted: &str,
) -> Result<(), Fail> {
    let json = r#" {"a": [0, {"b": "x"}], "\u0062": [ ], "a": 1} "#;
    let mut value = read(rt, alloc, json);
    match value.pointer_mut(alloc, path) {
        Ok(Some(part)) => *part = OwnedLazyValue::from(true),
        Ok(None) => {}
        Err(error) => panic!(rt; "{error}"),
    }
    check_text(rt, alloc, &value, wanted);
    Ok(())
}

#[test]
fn lends_what_a_path_leads_to(rt: HostRuntime) -> Result<(), Fail> {
    let alloc = rt.alloc();
    check(&rt, alloc, &[], "true")?;
    check(&rt, alloc, &[Key("a")], r#"{"a":true,"b":[ ],"a":1}"#)?;
    check(
        &rt,
        alloc,
        &[Key("a"), Index(1)],
        r#"{"a":[0,true],"b":[ ],"a":1}"#,
    )?;
    check(
        &rt,
        alloc,
        &[Key("a"), Index(1), Key("b")],
        r#"{"a":[0,{"b":true}],"b":[ ],"a":1}"#,
    )?;
    check(
        &rt,
        alloc,
        &[Key("b"), Index(0)],
        r#"{"a":[0, {"b": "x"}],"b":[],"a":1}"#,
    )?;
    // No level is opened where the path goes on by a node of the other kind.
    check(
        &rt,
        alloc,
        &[Key("b"), Key("a")],
        r#"{"a":[0, {"b": "x"}],"b":[ ],"a":1}"#,
    )?;
    check(
        &rt,
        alloc,
        &[Index(0)],
        r#"{"a": [0, {"b": "x"}], "\u0062": [ ], "a": 1}"#,
    )
}

#[test]
fn lends_an_item(rt: HostRuntime) -> Result<(), Fail> {
    let alloc = rt.alloc();
    let mut value = read(&rt, alloc, "[1, [2]]");
    match value.get_mut(alloc, Index(1)) {
        Ok(Some(item)) => *item = OwnedLazyValue::from(false),
        _ => panic!(rt; "there are two elements"),
    }
    match value.get_mut(alloc, Index(2)) {
        Ok(None) => {}
        _ => panic!(rt; "there are no more"),
    }
    check_text(&rt, alloc, &value, "[1,false]");
    Ok(())
}

#[test]
fn sets_an_element_of_an_array_in_an_object(rt: HostRuntime) -> Result<(), Fail> {
    let alloc = rt.alloc();
    let mut value = read(&rt, alloc, r#"{"c": [0, 1, 2]}"#);
    match value.get_mut(alloc, Key("d")) {
        Ok(None) => {}
        _ => panic!(rt; "there is no member `d`"),
    }
    match value.pointer_mut(alloc, &[Key("c"), Index(1)]) {
        Ok(Some(part)) => *part = OwnedLazyValue::from(3u64),
        _ => panic!(rt; "there are three elements"),
    }
    check_text(&rt, alloc, &value, r#"{"c":[0,3,2]}"#);
    match value.pointer_mut(alloc, &[Key("c"), Index(0)]) {
        Ok(Some(part)) => {
            match part.as_str(alloc) {
                Ok(None) => {}
                _ => panic!(rt; "a number is no string"),
            }
            match part.as_raw_number(alloc) {
                Ok(Some(number)) => same(&rt, number.as_str(), "0"),
                _ => panic!(rt; "it is a number"),
            }
        }
        _ => panic!(rt; "there are three elements"),
    }
    Ok(())
}

#[test]
fn lends_an_object(rt: HostRuntime) -> Result<(), Fail> {
    let alloc = rt.alloc();
    let mut value = read(&rt, alloc, r#"{"a": "hello world"}"#);
    let key = FastStr::new(alloc, "foo")?;
    let bar = OwnedLazyValue::from_text(FastStr::new(alloc, "bar")?);
    match value.as_object_mut(alloc) {
        Ok(Some(object)) => assert!(rt; object.append_pair(key, bar).is_ok()),
        _ => panic!(rt; "it is an object"),
    }
    match value.as_array_mut(alloc) {
        Ok(None) => {}
        _ => panic!(rt; "it is no array"),
    }
    check_text(&rt, alloc, &value, r#"{"a":"hello world","foo":"bar"}"#);
    Ok(())
}

#[test]
fn lends_an_array(rt: HostRuntime) -> Result<(), Fail> {
    let alloc = rt.alloc();
    let mut value = read(&rt, alloc, r#"["a", "hello world"]"#);
    match value.as_object_mut(alloc) {
        Ok(None) => {}
        _ => panic!(rt; "it is no object"),
    }
    check_text(&rt, alloc, &value, r#"["a", "hello world"]"#);
    let bar = OwnedLazyValue::from_text(FastStr::new(alloc, "bar")?);
    match value.as_array_mut(alloc) {
        Ok(Some(array)) => assert!(rt; array.push(bar).is_ok()),
        _ => panic!(rt; "it is an array"),
    }
    check_text(&rt, alloc, &value, r#"["a","hello world","bar"]"#);
    Ok(())
}

#[test]
fn lends_no_level_of_other_kinds(rt: HostRuntime) -> Result<(), Fail> {
    let alloc = rt.alloc();
    for &json in &["null", "true", "1", "\"[]\""] {
        let mut value = read(&rt, alloc, json);
        match value.as_array_mut(alloc) {
            Ok(None) => {}
            _ => panic!(rt; "{json} is no array"),
        }
        match value.as_object_mut(alloc) {
            Ok(None) => {}
            _ => panic!(rt; "{json} is no object"),
        }
        check_text(&rt, alloc, &value, json);
    }
    Ok(())
}

#[test]
fn lends_by_paths_of_255_nodes(rt: HostRuntime) -> Result<(), Fail> {
    let alloc = rt.alloc();
    let long = [Index(0); 256];
    for &json in &["true", r#"{"c": [0, 1, 2]}"#] {
        let mut value = read(&rt, alloc, json);
        match value.pointer_mut(alloc, &long) {
            Err(error) => {
                same(&rt, error.code(), ErrorCode::RecursionLimitExceeded);
                same(&rt, error.line(), 0);
            }
            Ok(_) => panic!(rt; "the path is too long"),
        }
        match value.pointer_mut(alloc, &long[1..]) {
            Ok(None) => {}
            _ => panic!(rt; "{json} has no element"),
        }
        check_text(&rt, alloc, &value, json);
    }
    Ok(())
}
