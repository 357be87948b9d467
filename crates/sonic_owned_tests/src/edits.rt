// Edits, and parts that are changed where they are.
use crate::same::{same, same_at};
use sonic_error::ErrorCode;
use sonic_input::FastStr;
use sonic_lazy::JsonValueTrait;
use sonic_owned::{Change, LazyArray, LazyObject, OwnedLazyValue};
use sonic_pointer::PointerNode;
use sonic_pointer::PointerNode::{Index, Key};
use std::alloc::Global;
use std::process::Abort;
use std::test::Fail;

// What an edit does: a word, a key if the word takes one, and the text of a value if it takes one.
type Wanted = (&'static str, &'static str, &'static str);

// A document, the path and the change of an edit, whether it is made, and the text afterwards.
type Case = (
    &'static str,
    &'static [PointerNode<'static>],
    Wanted,
    bool,
    &'static str,
);

const CASES: [Case; 26] = [
    (
        r#"{"a" : [1, 2] , "b":{ "c" : 0 }}"#,
        &[Key("a"), Index(1)],
        ("set", "", "true"),
        true,
        r#"{"a":[1,true],"b":{ "c" : 0 }}"#,
    ),
    (r#"[ 1 ]"#, &[], ("set", "", "{ }"), true, "{ }"),
    (r#"[ 1 ]"#, &[], ("take", "", ""), true, "null"),
    (r#"[ 1 ]"#, &[], ("push", "", "[ ]"), true, "[1,[ ]]"),
    (r#"[ ]"#, &[], ("push", "", "1"), true, "[1]"),
    (r#"{ }"#, &[], ("pair", "k\n", "1"), true, r#"{"k\n":1}"#),
    (
        r#"{"a":1}"#,
        &[],
        ("pair", "a", "2"),
        true,
        r#"{"a":1,"a":2}"#,
    ),
    // The first of equal keys is changed, however it is spelled.
    (
        r#"{"\u0061":1,"a":2}"#,
        &[Key("a")],
        ("set", "", "3"),
        true,
        r#"{"a":3,"a":2}"#,
    ),
    (
        r#"{"a":{"b":[{"c": 1}]},"d": [ ]}"#,
        &[Key("a"), Key("b"), Index(0)],
        ("pair", "e", "\"x\""),
        true,
        r#"{"a":{"b":[{"c":1,"e":"x"}]},"d":[ ]}"#,
    ),
    (
        r#"{"a":{"b":[{"c": 1}]},"d": [ ]}"#,
        &[Key("a"), Key("b")],
        ("take", "", ""),
        true,
        r#"{"a":{"b":null},"d":[ ]}"#,
    ),
    // An element is taken and null is left: the others keep their positions.
    ("[0,1,2]", &[Index(1)], ("take", "", ""), true, "[0,null,2]"),
    (r#""text""#, &[], ("set", "", "0"), true, "0"),
    // A value that spans lines is put as it is.
    (
        "[0]",
        &[Index(0)],
        ("set", "", "[\n1\n]"),
        true,
        "[[\n1\n]]",
    ),
    // The path doesn't lead. Where the kind is another, nothing is opened.
    ("[ 0 ]", &[Index(1)], ("set", "", "1"), false, "[0]"),
    ("[ 0 ]", &[Key("a")], ("set", "", "1"), false, "[ 0 ]"),
    ("{ }", &[Key("a")], ("set", "", "1"), false, "{}"),
    (
        r#"{"a": 1}"#,
        &[Index(0)],
        ("take", "", ""),
        false,
        r#"{"a": 1}"#,
    ),
    ("1.0", &[Index(0)], ("set", "", "1"), false, "1.0"),
    (
        r#"[{"a": [ ]}]"#,
        &[Index(0), Key("a"), Index(0)],
        ("set", "", "1"),
        false,
        r#"[{"a":[]}]"#,
    ),
    // What is appended to is of another kind, and stays as it was.
    ("[ 0 ]", &[], ("pair", "k", "1"), false, "[ 0 ]"),
    (r#"{"a": 0}"#, &[], ("push", "", "1"), false, r#"{"a": 0}"#),
    ("null", &[], ("push", "", "1"), false, "null"),
    (r#""[]""#, &[], ("push", "", "1"), false, r#""[]""#),
    (
        r#"[{ "a" : 0 }]"#,
        &[Index(0)],
        ("push", "", "1"),
        false,
        r#"[{ "a" : 0 }]"#,
    ),
    // The levels on the way are opened, as far as it leads, and none beside it.
    (
        r#"{"a" : [ 1 ] , "b":{ "c" : 0 }}"#,
        &[Key("a"), Index(1)],
        ("set", "", "1"),
        false,
        r#"{"a":[1],"b":{ "c" : 0 }}"#,
    ),
    (
        r#"{"a" : [ 1 ] , "b":{ "c" : 0 }}"#,
        &[Key("d"), Key("c")],
        ("take", "", ""),
        false,
        r#"{"a":[ 1 ],"b":{ "c" : 0 }}"#,
    ),
];

// The value that a text is.
fn read(rt: &impl Abort, alloc: Global, json: &str) -> OwnedLazyValue {
    match OwnedLazyValue::from_str(alloc, json) {
        Ok(value) => value,
        Err(error) => panic!(rt; "{error}"),
    }
}

// The change that is wanted.
fn change(rt: &impl Abort, alloc: Global, wanted: Wanted) -> Result<Change, Fail> {
    let (word, key, value) = wanted;
    Ok(match word {
        "set" => Change::Set(read(rt, alloc, value)),
        "push" => Change::Push(read(rt, alloc, value)),
        "pair" => Change::Pair(FastStr::new(alloc, key)?, read(rt, alloc, value)),
        _ => Change::Take,
    })
}

#[test]
fn makes_edits_where_they_lead_and_keeps_all_else(rt: HostRuntime) -> Result<(), Fail> {
    let alloc = rt.alloc();
    for &(json, path, wanted, is_made, text) in &CASES {
        let mut value = read(&rt, alloc, json);
        match value.edit(alloc, path, change(&rt, alloc, wanted)?) {
            Ok(made) => same(&rt, made, is_made),
            Err(error) => panic!(rt; "{error}"),
        }
        same(&rt, &format!(in alloc; "{value}")?[..], text);
    }
    Ok(())
}

#[test]
fn changes_a_part_where_it_is(rt: HostRuntime) -> Result<(), Fail> {
    let alloc = rt.alloc();
    let mut value = read(&rt, alloc, r#"{"c": [0, 1, 2]}"#);
    match value.with_mut(alloc, &[Key("c"), Index(1)], |part| {
        *part = OwnedLazyValue::from(3u64);
        7
    }) {
        Ok(given) => same(&rt, given, Some(7)),
        Err(error) => panic!(rt; "{error}"),
    }
    same(&rt, &format!(in alloc; "{value}")?[..], r#"{"c":[0,3,2]}"#);
    match value.with_mut(alloc, &[Key("c"), Index(0)], |part| part.as_u64()) {
        Ok(given) => same(&rt, given, Some(Some(0))),
        Err(error) => panic!(rt; "{error}"),
    }
    match value.with_mut(alloc, &[Key("d")], |_| 7) {
        Ok(given) => same(&rt, given, None),
        Err(error) => panic!(rt; "{error}"),
    }
    // A value that isn't opened is opened on the way, and means what it meant.
    same(&rt, &format!(in alloc; "{value}")?[..], r#"{"c":[0,3,2]}"#);
    Ok(())
}

#[test]
fn refuses_paths_of_more_than_255_nodes_first(rt: HostRuntime) -> Result<(), Fail> {
    let alloc = rt.alloc();
    let mut path = Vec::new(alloc);
    let mut json = String::new(alloc);
    for _ in 0..255 {
        path.push(Index(0))?;
        json.push('[')?;
    }
    json.push('0')?;
    for _ in 0..255 {
        json.push(']')?;
    }
    let mut value = read(&rt, alloc, json.as_str());
    match value.edit(alloc, path.as_slice(), Change::Take) {
        Ok(made) => assert!(rt; made),
        Err(error) => panic!(rt; "{error}"),
    }
    path.push(Index(0))?;
    let mut value = read(&rt, alloc, "[ ]");
    for change in [Change::Take, Change::Set(OwnedLazyValue::from(true))] {
        match value.edit(alloc, path.as_slice(), change) {
            Ok(_) => panic!(rt; "the path has 256 nodes"),
            Err(error) => {
                same(&rt, error.code(), ErrorCode::RecursionLimitExceeded);
                same(&rt, error.line(), 0);
            }
        }
    }
    assert!(rt; value.with_mut(alloc, path.as_slice(), |_| ()).is_err());
    same(&rt, &format!(in alloc; "{value}")?[..], "[ ]");
    Ok(())
}

#[test]
fn takes_a_value_and_leaves_null(rt: HostRuntime) -> Result<(), Fail> {
    let alloc = rt.alloc();
    let mut value = read(&rt, alloc, r#"{"a": [1, 2] , "a":3}"#);
    assert!(rt; value.load(alloc).is_ok());
    let taken = value.take();
    assert!(rt; value.is_null());
    same(
        &rt,
        &format!(in alloc; "{taken}")?[..],
        r#"{"a":[1, 2],"a":3}"#,
    );
    Ok(())
}

#[test]
fn lends_the_items_of_a_level(rt: HostRuntime) -> Result<(), Fail> {
    let alloc = rt.alloc();
    let mut array = LazyArray::new(alloc);
    assert!(rt; array.push(read(&rt, alloc, "[ 0 ]")).is_ok());
    match array.at_mut(0) {
        Some(element) => *element = OwnedLazyValue::from(true),
        None => panic!(rt; "there is one element"),
    }
    assert!(rt; array.at_mut(1).is_none());
    let mut object = LazyObject::new(alloc);
    for &key in &["a", "a"] {
        let key = FastStr::new(alloc, key)?;
        assert!(rt; object.append_pair(key, OwnedLazyValue::from(())).is_ok());
    }
    match object.at_mut(1) {
        Some(value) => *value = OwnedLazyValue::from(array),
        None => panic!(rt; "there are two members"),
    }
    assert!(rt; object.at_mut(2).is_none());
    let value = OwnedLazyValue::from(object);
    same(
        &rt,
        &format!(in alloc; "{value}")?[..],
        r#"{"a":null,"a":[true]}"#,
    );
    Ok(())
}

#[test]
fn makes_ten_thousand_edits(rt: HostRuntime) -> Result<(), Fail> {
    let alloc = rt.alloc();
    let mut value = read(&rt, alloc, r#"{"a":[]}"#);
    for number in 0..10_000u64 {
        match value.edit(
            alloc,
            &[Key("a")],
            Change::Push(OwnedLazyValue::from(number)),
        ) {
            Ok(made) => assert!(rt; made),
            Err(error) => panic!(rt; "{error}"),
        }
    }
    match value.edit(alloc, &[Key("a"), Index(9_999)], Change::Take) {
        Ok(made) => assert!(rt; made),
        Err(error) => panic!(rt; "{error}"),
    }
    let text = format!(in alloc; "{value}")?;
    same(&rt, text.len(), 48_897);
    Ok(())
}
