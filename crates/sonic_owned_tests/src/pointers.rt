// Where paths lead, before a value is opened and after.
use crate::same::same;
use sonic_error::JsonType;
use sonic_lazy::{JsonContainerTrait, JsonValueTrait};
use sonic_owned::{OwnedLazyValue, OwnedView};
use sonic_pointer::PointerNode;
use sonic_pointer::PointerNode::{Index, Key};
use std::alloc::Global;
use std::process::Abort;
use std::test::Fail;

// Checks the text of what a path leads to, or that it leads nowhere.
fn check(
    rt: &impl Abort,
    alloc: Global,
    value: &OwnedLazyValue,
    path: &[PointerNode<'_>],
    wanted: Option<&str>,
) -> Result<(), Fail> {
    match (value.pointer(path), wanted) {
        (Some(OwnedView::Raw(found)), Some(text)) => same(rt, found.as_raw_str(), text),
        (Some(OwnedView::Node(found)), Some(text)) => {
            same(rt, &format!(in alloc; "{found}")?[..], text);
        }
        (None, None) => {}
        _ => panic!(rt; "the path leads elsewhere"),
    }
    Ok(())
}

// Checks what a view denotes, or that it is no string.
fn check_view(rt: &impl Abort, alloc: Global, view: &OwnedView<'_>, wanted: Option<&str>) {
    match (view.as_str(alloc), wanted) {
        (Ok(Some(text)), Some(wanted)) => same(rt, text.as_str(), wanted),
        (Ok(None), None) => {}
        _ => panic!(rt; "the view is another value"),
    }
}

#[test]
fn follows_paths_however_far_a_value_is_opened(rt: HostRuntime) -> Result<(), Fail> {
    let alloc = rt.alloc();
    let json = r#"{"a":[0,{"b":"x"}],"\u0062":true,"a":1}"#;
    let Ok(mut value) = OwnedLazyValue::from_str(alloc, json) else {
        panic!(rt; "it is a document");
    };
    for _ in 0..2 {
        check(&rt, alloc, &value, &[Key("a")], Some(r#"[0,{"b":"x"}]"#))?;
        check(
            &rt,
            alloc,
            &value,
            &[Key("a"), Index(1), Key("b")],
            Some(r#""x""#),
        )?;
        check(&rt, alloc, &value, &[Key("b")], Some("true"))?;
        check(&rt, alloc, &value, &[Key("c")], None)?;
        check(&rt, alloc, &value, &[Index(0)], None)?;
        check(&rt, alloc, &value, &[Key("a"), Index(2)], None)?;
        check(&rt, alloc, &value, &[Key("b"), Key("c")], None)?;
        assert!(rt; value.load(alloc).is_ok());
    }
    assert!(rt; value.get(Key("a")).is_some());
    assert!(rt; value.get(Index(0)).is_none());
    Ok(())
}

#[test]
fn looks_on_from_what_it_found(rt: HostRuntime) -> Result<(), Fail> {
    let alloc = rt.alloc();
    let json = r#"{"a":"x","b":[0,{"c":"\u006e"}]}"#;
    let Ok(mut value) = OwnedLazyValue::from_str(alloc, json) else {
        panic!(rt; "it is a document");
    };
    for _ in 0..2 {
        let (Some(text), Some(array)) = (value.get(Key("a")), value.get(Key("b"))) else {
            panic!(rt; "both keys are there");
        };
        check_view(&rt, alloc, &text, Some("x"));
        check_view(&rt, alloc, &array, None);
        assert!(rt; array.get(Key("c")).is_none());
        assert!(rt; array.get(Index(2)).is_none());
        assert!(rt; array.pointer(&[]).is_some());
        match array.pointer(&[Index(1), Key("c")]) {
            Some(text) => check_view(&rt, alloc, &text, Some("n")),
            None => panic!(rt; "the path leads to a string"),
        }
        assert!(rt; value.load(alloc).is_ok());
    }
    Ok(())
}

#[test]
fn denotes_the_text_of_a_string(rt: HostRuntime) -> Result<(), Fail> {
    let alloc = rt.alloc();
    let Ok(value) = OwnedLazyValue::from_str(alloc, r#"{"a":"x"}"#) else {
        panic!(rt; "it is a document");
    };
    match value.get(Key("a")) {
        Some(text) => check_view(&rt, alloc, &text, Some("x")),
        None => panic!(rt; "the key is there"),
    }
    Ok(())
}

// What paths lead to in one document: its type, which truth value it is, and which integer.
fn views() -> [(PointerNode<'static>, JsonType, Option<bool>, Option<i64>); 6] {
    [
        (Key("a"), JsonType::Array, None, None),
        (Key("b"), JsonType::Boolean, Some(false), None),
        (Key("c"), JsonType::Number, None, Some(7)),
        (Key("d"), JsonType::Number, None, None),
        (Key("e"), JsonType::String, None, None),
        (Key("f"), JsonType::Null, None, None),
    ]
}

#[test]
fn says_what_it_found(rt: HostRuntime) -> Result<(), Fail> {
    let alloc = rt.alloc();
    let json = r#"{"a":[0],"b":false,"c":7,"d":7.0,"e":"7","f":null}"#;
    let Ok(mut value) = OwnedLazyValue::from_str(alloc, json) else {
        panic!(rt; "it is a document");
    };
    for _ in 0..2 {
        for (node, kind, truth, integer) in views() {
            let view = value.get(node);
            same(&rt, view.get_type(), kind);
            same(&rt, view.as_bool(), truth);
            same(&rt, view.as_i64(), integer);
            same(&rt, view.is_u64(), integer.is_some());
            assert!(rt; view.as_array().is_none() && view.as_object().is_none());
        }
        assert!(rt; value.load(alloc).is_ok());
    }
    match value.get_mut(alloc, Key("a")) {
        Ok(Some(array)) => assert!(rt; array.load(alloc).is_ok()),
        _ => panic!(rt; "the key is there"),
    }
    match value.get(Key("a")).as_array() {
        Some(array) => same(&rt, array.len(), 1),
        None => panic!(rt; "the array is opened"),
    }
    assert!(rt; value.pointer(&[]).as_object().is_some());
    Ok(())
}

#[test]
fn follows_long_paths(rt: HostRuntime) -> Result<(), Fail> {
    const NODES: usize = 1_000;
    let alloc = rt.alloc();
    let mut json = "[".repeat(alloc, NODES)?;
    json.push_str("7")?;
    json.push_str(&"]".repeat(alloc, NODES)?)?;
    let Ok(mut value) = OwnedLazyValue::from_str(alloc, &json) else {
        panic!(rt; "it is a document");
    };
    let path = [Index(0); NODES];
    let past = [Index(0); NODES + 1];
    for _ in 0..2 {
        check(&rt, alloc, &value, &path, Some("7"))?;
        check(&rt, alloc, &value, &past, None)?;
        assert!(rt; value.load(alloc).is_ok());
    }
    Ok(())
}
