// Items that are put between others, and items that are removed.
use crate::same::{same, same_at};
use sonic_input::FastStr;
use sonic_lazy::{JsonContainerTrait, JsonValueTrait};
use sonic_owned::{Change, LazyArray, LazyObject, OwnedLazyValue};
use sonic_pointer::PointerNode;
use sonic_pointer::PointerNode::{Index, Key};
use std::alloc::Global;
use std::process::Abort;
use std::test::Fail;

// A document, a path, a position, and the text afterwards, or `None` where the edit is refused.
type Place = (
    &'static str,
    &'static [PointerNode<'static>],
    usize,
    Option<&'static str>,
);

// The element `{ }` is put there.
const INSERTED: [Place; 14] = [
    ("[ ]", &[], 0, Some("[{ }]")),
    ("[ 1 , 2 ]", &[], 0, Some("[{ },1,2]")),
    ("[ 1 , 2 ]", &[], 1, Some("[1,{ },2]")),
    // After the last one.
    ("[ 1 , 2 ]", &[], 2, Some("[1,2,{ }]")),
    // What isn't opened keeps its text.
    (
        "[[ 1 ],{ \"a\" : 2 }]",
        &[],
        1,
        Some("[[ 1 ],{ },{ \"a\" : 2 }]"),
    ),
    (
        "{\"a\" : [ 0 ] , \"b\":[ ]}",
        &[Key("a")],
        1,
        Some("{\"a\":[0,{ }],\"b\":[ ]}"),
    ),
    ("[[ 0 ],[ 1 ]]", &[Index(1)], 0, Some("[[ 0 ],[{ },1]]")),
    // There is no such place.
    ("[ ]", &[], 1, None),
    ("[ 1 , 2 ]", &[], 3, None),
    ("[ 1 , 2 ]", &[], usize::MAX, None),
    // The value is of another kind, or the path doesn't lead.
    ("{ \"0\" : 1 }", &[], 0, None),
    ("{ \"0\" : 1 }", &[], 1, None),
    ("\"[1]\"", &[], 0, None),
    ("[1]", &[Index(1)], 0, None),
];

// The element there is removed.
const REMOVED: [Place; 12] = [
    ("[ 1 ]", &[], 0, Some("[]")),
    ("[ 1 , 2 , 3 ]", &[], 0, Some("[2,3]")),
    ("[ 1 , 2 , 3 ]", &[], 1, Some("[1,3]")),
    ("[ 1 , 2 , 3 ]", &[], 2, Some("[1,2]")),
    (
        "[[ 1 ],2,{ \"a\" : 2 }]",
        &[],
        1,
        Some("[[ 1 ],{ \"a\" : 2 }]"),
    ),
    (
        "{\"a\" : [ 0 , [ ] ] , \"b\":[ ]}",
        &[Key("a")],
        0,
        Some("{\"a\":[[ ]],\"b\":[ ]}"),
    ),
    ("[ ]", &[], 0, None),
    ("[ 1 , 2 , 3 ]", &[], 3, None),
    ("[ 1 , 2 , 3 ]", &[], usize::MAX, None),
    ("{ \"0\" : 1 }", &[], 0, None),
    ("null", &[], 0, None),
    ("[1]", &[Index(1)], 0, None),
];

// A document, a path, a key, and the text afterwards, or `None` where the edit is refused.
type Named = (
    &'static str,
    &'static [PointerNode<'static>],
    &'static str,
    Option<&'static str>,
);

// The first member with the key is removed.
const UNNAMED: [Named; 13] = [
    ("{ \"a\" : 1 }", &[], "a", Some("{}")),
    ("{ \"a\" : 1 , \"b\" : 2 }", &[], "a", Some("{\"b\":2}")),
    ("{ \"a\" : 1 , \"b\" : [ 2 ] }", &[], "b", Some("{\"a\":1}")),
    (
        "{ \"a\" : [ 1 ] , \"b\" : 2 }",
        &[],
        "b",
        Some("{\"a\":[ 1 ]}"),
    ),
    // Of equal keys the first, however it is spelled.
    (
        "{\"b\":0,\"\\u0061\":1,\"a\":2,\"a\":3}",
        &[],
        "a",
        Some("{\"b\":0,\"a\":2,\"a\":3}"),
    ),
    (
        "{\"\":1,\"a\":{\"\":2}}",
        &[Key("a")],
        "",
        Some("{\"\":1,\"a\":{}}"),
    ),
    (
        "[{ \"a\" : 1 },{ \"a\" : 2 }]",
        &[Index(1)],
        "a",
        Some("[{ \"a\" : 1 },{}]"),
    ),
    ("{ }", &[], "a", None),
    ("{ \"a\" : 1 }", &[], "A", None),
    ("{ \"a\" : 1 }", &[], "aa", None),
    ("[ \"a\" ]", &[], "a", None),
    ("\"a\"", &[], "a", None),
    ("{\"a\":1}", &[Key("b")], "a", None),
];

// The value that a text is.
fn read(rt: &impl Abort, alloc: Global, json: &str) -> OwnedLazyValue {
    match OwnedLazyValue::from_str(alloc, json) {
        Ok(value) => value,
        Err(error) => panic!(rt; "{error}"),
    }
}

// Makes a change, and checks the text afterwards; a refused one leaves it as it was.
fn check(
    rt: &impl Abort,
    alloc: Global,
    mut value: OwnedLazyValue,
    path: &[PointerNode<'_>],
    change: Change,
    wanted: Option<&str>,
) -> Result<(), Fail> {
    let before = format!(in alloc; "{value}")?;
    match value.edit(alloc, path, change) {
        Ok(made) => same_at(rt, made, wanted.is_some(), &before[..]),
        Err(error) => panic!(rt; "{error}"),
    }
    let after = format!(in alloc; "{value}")?;
    same(rt, &after[..], wanted.unwrap_or(&before[..]));
    Ok(())
}

// The value that a text is, opened.
fn opened(rt: &impl Abort, alloc: Global, json: &str) -> OwnedLazyValue {
    let mut value = read(rt, alloc, json);
    assert!(rt; value.load(alloc).is_ok());
    value
}

#[test]
fn puts_elements_before_others(rt: HostRuntime) -> Result<(), Fail> {
    let alloc = rt.alloc();
    for &(json, path, i, wanted) in &INSERTED {
        let change = Change::Insert(i, read(&rt, alloc, "{ }"));
        check(&rt, alloc, read(&rt, alloc, json), path, change, wanted)?;
        let change = Change::Insert(i, read(&rt, alloc, "{ }"));
        check(&rt, alloc, opened(&rt, alloc, json), path, change, wanted)?;
    }
    Ok(())
}

#[test]
fn removes_elements(rt: HostRuntime) -> Result<(), Fail> {
    let alloc = rt.alloc();
    for &(json, path, i, wanted) in &REMOVED {
        let change = Change::RemoveElement(i);
        check(&rt, alloc, read(&rt, alloc, json), path, change, wanted)?;
        let change = Change::RemoveElement(i);
        check(&rt, alloc, opened(&rt, alloc, json), path, change, wanted)?;
    }
    Ok(())
}

#[test]
fn removes_the_first_member_with_a_key(rt: HostRuntime) -> Result<(), Fail> {
    let alloc = rt.alloc();
    for &(json, path, key, wanted) in &UNNAMED {
        let change = Change::RemoveMember(FastStr::new(alloc, key)?);
        check(&rt, alloc, read(&rt, alloc, json), path, change, wanted)?;
        let change = Change::RemoveMember(FastStr::new(alloc, key)?);
        check(&rt, alloc, opened(&rt, alloc, json), path, change, wanted)?;
    }
    Ok(())
}

#[test]
fn changes_the_list_of_an_array(rt: HostRuntime) -> Result<(), Fail> {
    let alloc = rt.alloc();
    let mut array = LazyArray::new(alloc);
    assert!(rt; array.remove(0).is_none());
    for &(i, number) in &[(0, 3u64), (0, 1), (1, 2), (3, 4)] {
        assert!(rt; i <= array.len());
        assert!(rt; array.insert(i, OwnedLazyValue::from(number)).is_ok());
    }
    for &(i, wanted) in &[
        (4, None),
        (3, Some(4)),
        (1, Some(2)),
        (2, None),
        (0, Some(1)),
    ] {
        same_at(&rt, array.remove(i).as_u64(), wanted, i);
    }
    same(&rt, array.len(), 1);
    same(&rt, array.at(0).as_u64(), Some(3));
    Ok(())
}

#[test]
fn removes_members_of_an_object(rt: HostRuntime) -> Result<(), Fail> {
    let alloc = rt.alloc();
    let mut object = LazyObject::new(alloc);
    assert!(rt; object.remove(0).is_none());
    for &(key, truth) in &[("a", true), ("b", false), ("a", false)] {
        let key = FastStr::new(alloc, key)?;
        assert!(rt; object.append_pair(key, OwnedLazyValue::from(truth)).is_ok());
    }
    for &(i, wanted) in &[
        (3, None),
        (0, Some(("a", true))),
        (1, Some(("a", false))),
        (0, Some(("b", false))),
    ] {
        match (object.remove(i), wanted) {
            (Some((key, value)), Some((name, truth))) => {
                same(&rt, key.as_str(), name);
                same(&rt, value.as_bool(), Some(truth));
            }
            (None, None) => {}
            _ => panic!(rt; "the member {i} is another one"),
        }
    }
    assert!(rt; object.is_empty());
    Ok(())
}

// A document, a path, and the text of what it leads to, as it is before the root is opened and then.
const TEXTS: [(&str, &[PointerNode<'static>], &str, &str); 6] = [
    (
        "{ \"\\u0061\" : [ 1 , 2 ] }",
        &[],
        "{ \"\\u0061\" : [ 1 , 2 ] }",
        "{\"a\":[ 1 , 2 ]}",
    ),
    (
        "{ \"a\" : [ 1 , 2 ] }",
        &[Key("a")],
        "[ 1 , 2 ]",
        "[ 1 , 2 ]",
    ),
    ("[ \"\\n\" ]", &[Index(0)], "\"\\n\"", "\"\\n\""),
    ("[ ]", &[], "[ ]", "[]"),
    ("{ }", &[], "{ }", "{}"),
    ("1.0", &[], "1.0", "1.0"),
];

// Checks the text of what a path leads to, and of the value that is made of it.
fn check_text(
    rt: &impl Abort,
    alloc: Global,
    value: &OwnedLazyValue,
    path: &[PointerNode<'_>],
    wanted: &str,
) -> Result<(), Fail> {
    let Some(view) = value.pointer(path) else {
        panic!(rt; "the path leads");
    };
    match (view.text(alloc), view.closed(alloc)) {
        (Ok(text), Ok(closed)) => {
            same(rt, text.as_str(), wanted);
            same(rt, &format!(in alloc; "{closed}")?[..], wanted);
            assert!(rt; closed.as_array().is_none() && closed.as_object().is_none());
        }
        _ => panic!(rt; "memory is ample"),
    }
    Ok(())
}

#[test]
fn closes_values(rt: HostRuntime) -> Result<(), Fail> {
    let alloc = rt.alloc();
    for &(json, path, before, after) in &TEXTS {
        check_text(&rt, alloc, &read(&rt, alloc, json), path, before)?;
        check_text(&rt, alloc, &opened(&rt, alloc, json), path, after)?;
    }
    Ok(())
}
