// What patches make of values: expected values by RFC 6902, section 4, whose appendix A has examples
// of the same kinds, and RFC 6901, section 4.
use crate::same::same_at;
use sonic_owned::OwnedLazyValue;
use sonic_patch::{Patch, PatchError, apply, read_patch};
use std::alloc::{AllocError, Global};
use std::process::Abort;
use std::test::Fail;

// The text of what is made, or which operation isn't made and why, counted from 0.
#[derive(Clone, Copy, PartialEq, Eq, Debug)]
enum Found<'a> {
    Made(&'a str),
    Missing(usize),
    TestFailed(usize),
    IntoChild(usize),
    NoMemory,
    Other,
}

// What an error tells.
fn refusal(error: &PatchError) -> Found<'static> {
    match *error {
        PatchError::Missing { op } => Found::Missing(op),
        PatchError::TestFailed { op } => Found::TestFailed(op),
        PatchError::IntoChild { op } => Found::IntoChild(op),
        PatchError::NoMemory => Found::NoMemory,
        _ => Found::Other,
    }
}

fn patch_of(rt: &impl Abort, alloc: Global, json: &str) -> Patch {
    match read_patch(alloc, json) {
        Ok(patch) => patch,
        Err(_) => panic!(rt; "no patch: {json}"),
    }
}

fn value_of(rt: &impl Abort, alloc: Global, json: &str) -> OwnedLazyValue {
    match OwnedLazyValue::from_str(alloc, json) {
        Ok(value) => value,
        Err(error) => panic!(rt; "{error}"),
    }
}

// Makes a patch on a document. Where it is refused, the document's text is as it was.
fn check_row(rt: &impl Abort, alloc: Global, row: &Row) -> Result<(), Fail> {
    let &(json, document, wanted) = row;
    let patch = patch_of(rt, alloc, json);
    let mut value = value_of(rt, alloc, document);
    let result = apply(alloc, &mut value, &patch);
    let text = value.to_string(alloc)?;
    match result {
        Ok(()) => same_at(rt, Found::Made(text.as_str()), wanted, row),
        Err(error) => {
            same_at(rt, refusal(&error), wanted, row);
            same_at(rt, text.as_str(), document, row);
        }
    }
    Ok(())
}

// A patch, a document, and what comes of it.
type Row = (&'static str, &'static str, Found<'static>);

fn check(rt: &impl Abort, alloc: Global, rows: &[Row]) -> Result<(), Fail> {
    for row in rows {
        check_row(rt, alloc, row)?;
    }
    Ok(())
}

const ADDS: [Row; 19] = [
    ("[]", "[ 1 ]", Found::Made("[ 1 ]")),
    (
        r#"[{"op":"add","path":"/size","value":"L"}]"#,
        r#"{"colour":"red"}"#,
        Found::Made(r#"{"colour":"red","size":"L"}"#),
    ),
    // A member that is there keeps its place.
    (
        r#"[{"op":"add","path":"/a","value":9}]"#,
        r#"{"a":1,"b":2}"#,
        Found::Made(r#"{"a":9,"b":2}"#),
    ),
    // Of repeated keys the first is meant, however it is spelled.
    (
        r#"[{"op":"add","path":"/a","value":9}]"#,
        r#"{"b":0,"\u0061":1,"a":2}"#,
        Found::Made(r#"{"b":0,"a":9,"a":2}"#),
    ),
    (
        r#"[{"op":"add","path":"/list/1","value":"new"}]"#,
        r#"{"list":["first","last"]}"#,
        Found::Made(r#"{"list":["first","new","last"]}"#),
    ),
    (
        r#"[{"op":"add","path":"/0","value":1}]"#,
        "[]",
        Found::Made("[1]"),
    ),
    (
        r#"[{"op":"add","path":"/2","value":3}]"#,
        "[1,2]",
        Found::Made("[1,2,3]"),
    ),
    (
        r#"[{"op":"add","path":"/-","value":["x",[]]}]"#,
        "[0]",
        Found::Made(r#"[0,["x",[]]]"#),
    ),
    (
        r#"[{"op":"add","path":"/-","value":1},{"op":"add","path":"/-","value":2}]"#,
        "[]",
        Found::Made("[1,2]"),
    ),
    (
        r#"[{"op":"add","path":"/inner","value":{"deep":{}}}]"#,
        r#"{"outer":1}"#,
        Found::Made(r#"{"outer":1,"inner":{"deep":{}}}"#),
    ),
    // The empty pointer is the whole, and the empty token a key.
    (
        r#"[{"op":"add","path":"","value":{ "x" : 1 }}]"#,
        "[1,2]",
        Found::Made(r#"{ "x" : 1 }"#),
    ),
    (
        r#"[{"op":"add","path":"/","value":1}]"#,
        r#"{"a":0}"#,
        Found::Made(r#"{"a":0,"":1}"#),
    ),
    (
        r#"[{"op":"add","path":"/a~1b/m~0n","value":1}]"#,
        r#"{"a/b":{}}"#,
        Found::Made(r#"{"a/b":{"m~n":1}}"#),
    ),
    // A member whose key is an index or a dash.
    (
        r#"[{"op":"add","path":"/0","value":1},{"op":"add","path":"/-","value":2}]"#,
        "{}",
        Found::Made(r#"{"0":1,"-":2}"#),
    ),
    // What isn't opened keeps its text.
    (
        r#"[{"op":"add","path":"/a/-","value":3.0}]"#,
        r#"{"a" : [1, 2] , "b":{ }}"#,
        Found::Made(r#"{"a":[1,2,3.0],"b":{ }}"#),
    ),
    // What it is added to isn't there, or is no container.
    (
        r#"[{"op":"add","path":"/none/b","value":1}]"#,
        r#"{"a":{}}"#,
        Found::Missing(0),
    ),
    (
        r#"[{"op":"add","path":"/a/b","value":1}]"#,
        r#"{"a":"b"}"#,
        Found::Missing(0),
    ),
    (
        r#"[{"op":"add","path":"/3","value":1}]"#,
        "[1,2]",
        Found::Missing(0),
    ),
    (
        r#"[{"op":"add","path":"/a","value":1}]"#,
        "[1,2]",
        Found::Missing(0),
    ),
];

const REMOVES: [Row; 11] = [
    (
        r#"[{"op":"remove","path":"/size"}]"#,
        r#"{"size":"L","colour":"red"}"#,
        Found::Made(r#"{"colour":"red"}"#),
    ),
    (
        r#"[{"op":"remove","path":"/list/1"}]"#,
        r#"{"list":[1,2,3]}"#,
        Found::Made(r#"{"list":[1,3]}"#),
    ),
    (
        r#"[{"op":"remove","path":"/a"}]"#,
        r#"{"a":1,"b":2,"a":3}"#,
        Found::Made(r#"{"b":2,"a":3}"#),
    ),
    (
        r#"[{"op":"remove","path":"/a"},{"op":"remove","path":"/a"}]"#,
        r#"{"a":1,"b":2,"a":3}"#,
        Found::Made(r#"{"b":2}"#),
    ),
    (
        r#"[{"op":"remove","path":"/0/0"}]"#,
        "[[{}]]",
        Found::Made("[[]]"),
    ),
    (
        r#"[{"op":"remove","path":""}]"#,
        r#"{"a":1}"#,
        Found::Made("null"),
    ),
    (
        r#"[{"op":"remove","path":"/b"}]"#,
        r#"{"a":1}"#,
        Found::Missing(0),
    ),
    (r#"[{"op":"remove","path":"/5"}]"#, "[1]", Found::Missing(0)),
    (r#"[{"op":"remove","path":"/-"}]"#, "[1]", Found::Missing(0)),
    (
        r#"[{"op":"remove","path":"/a/b"}]"#,
        r#"{"a":1}"#,
        Found::Missing(0),
    ),
    // Of what was made before a refusal nothing is kept.
    (
        r#"[{"op":"remove","path":"/a"},{"op":"remove","path":"/a"}]"#,
        r#"{"a" : 1}"#,
        Found::Missing(1),
    ),
];

const REPLACES: [Row; 8] = [
    (
        r#"[{"op":"replace","path":"/size","value":["S"]}]"#,
        r#"{"size":"L","colour":"red"}"#,
        Found::Made(r#"{"size":["S"],"colour":"red"}"#),
    ),
    (
        r#"[{"op":"replace","path":"/0","value":0}]"#,
        "[1,2]",
        Found::Made("[0,2]"),
    ),
    (
        r#"[{"op":"replace","path":"/a","value":9}]"#,
        r#"{"a":1,"a":2}"#,
        Found::Made(r#"{"a":9,"a":2}"#),
    ),
    (
        r#"[{"op":"replace","path":"","value":false}]"#,
        "[1,2]",
        Found::Made("false"),
    ),
    (
        r#"[{"op":"replace","path":"/b","value":1}]"#,
        r#"{"a":1}"#,
        Found::Missing(0),
    ),
    (
        r#"[{"op":"replace","path":"/1","value":1}]"#,
        "[1]",
        Found::Missing(0),
    ),
    (
        r#"[{"op":"replace","path":"/-","value":1}]"#,
        "[1]",
        Found::Missing(0),
    ),
    (
        r#"[{"op":"replace","path":"/a/b","value":1}]"#,
        r#"{"a":[1]}"#,
        Found::Missing(0),
    ),
];

const MOVES: [Row; 16] = [
    (
        r#"[{"op":"move","from":"/left/x","path":"/right/y"}]"#,
        r#"{"left":{"x":1,"z":2},"right":{"w":3}}"#,
        Found::Made(r#"{"left":{"z":2},"right":{"w":3,"y":1}}"#),
    ),
    (
        r#"[{"op":"move","from":"/1","path":"/3"}]"#,
        "[0,1,2,3]",
        Found::Made("[0,2,3,1]"),
    ),
    (
        r#"[{"op":"move","from":"/3","path":"/0"}]"#,
        "[0,1,2,3]",
        Found::Made("[3,0,1,2]"),
    ),
    (
        r#"[{"op":"move","from":"/0","path":"/-"}]"#,
        "[0,1,2,3]",
        Found::Made("[1,2,3,0]"),
    ),
    // The place is found after the value was taken out.
    (
        r#"[{"op":"move","from":"/0","path":"/1/a"}]"#,
        "[1,{},{}]",
        Found::Made(r#"[{},{"a":1}]"#),
    ),
    (
        r#"[{"op":"move","from":"/0","path":"/3"}]"#,
        "[0,1,2]",
        Found::Missing(0),
    ),
    // Onto itself: an element stays, and a member comes to the end.
    (
        r#"[{"op":"move","from":"/1","path":"/1"}]"#,
        "[0,1,2]",
        Found::Made("[0,1,2]"),
    ),
    (
        r#"[{"op":"move","from":"/a","path":"/a"}]"#,
        r#"{"a":1,"b":2}"#,
        Found::Made(r#"{"b":2,"a":1}"#),
    ),
    (
        r#"[{"op":"move","from":"/a","path":"/a"}]"#,
        r#"{"a":1,"a":2}"#,
        Found::Made(r#"{"a":1}"#),
    ),
    // The whole onto itself, and a part onto the whole.
    (
        r#"[{"op":"move","from":"","path":""}]"#,
        "[ 1 ]",
        Found::Made("[ 1 ]"),
    ),
    (
        r#"[{"op":"move","from":"/a","path":""}]"#,
        r#"{"a":[ 1 ],"b":2}"#,
        Found::Made("[ 1 ]"),
    ),
    // Into its child, also where there is none.
    (
        r#"[{"op":"move","from":"/a","path":"/a/b"}]"#,
        r#"{"a":{}}"#,
        Found::IntoChild(0),
    ),
    (
        r#"[{"op":"move","from":"","path":"/a"}]"#,
        r#"{"a":{}}"#,
        Found::IntoChild(0),
    ),
    (
        r#"[{"op":"move","from":"/x","path":"/x/y/z"}]"#,
        "{}",
        Found::IntoChild(0),
    ),
    // A key that begins another is no parent of it.
    (
        r#"[{"op":"move","from":"/a","path":"/ab"}]"#,
        r#"{"a":1}"#,
        Found::Made(r#"{"ab":1}"#),
    ),
    (
        r#"[{"op":"move","from":"/x","path":"/y"}]"#,
        r#"{"y":1}"#,
        Found::Missing(0),
    ),
];

const COPIES: [Row; 8] = [
    (
        r#"[{"op":"copy","from":"/a","path":"/b"}]"#,
        r#"{"a":{ "x" : 1.0 }}"#,
        Found::Made(r#"{"a":{ "x" : 1.0 },"b":{ "x" : 1.0 }}"#),
    ),
    (
        r#"[{"op":"copy","from":"/1","path":"/0"}]"#,
        "[0,1]",
        Found::Made("[1,0,1]"),
    ),
    (
        r#"[{"op":"copy","from":"/a","path":"/a/b"}]"#,
        r#"{"a":{}}"#,
        Found::Made(r#"{"a":{"b":{}}}"#),
    ),
    (
        r#"[{"op":"copy","from":"","path":"/-"}]"#,
        "[1]",
        Found::Made("[1,[1]]"),
    ),
    (
        r#"[{"op":"copy","from":"/0","path":""}]"#,
        "[{ }]",
        Found::Made("{ }"),
    ),
    // A level that was opened is copied by its text.
    (
        r#"[{"op":"add","path":"/a/x","value":1},{"op":"copy","from":"/a","path":"/b"}]"#,
        r#"{"a":{ "\u0079" : [ 0 ] }}"#,
        Found::Made(r#"{"a":{"y":[ 0 ],"x":1},"b":{"y":[ 0 ],"x":1}}"#),
    ),
    (
        r#"[{"op":"copy","from":"/b","path":"/c"}]"#,
        r#"{"a":1}"#,
        Found::Missing(0),
    ),
    (
        r#"[{"op":"copy","from":"/a","path":"/b/c"}]"#,
        r#"{"a":1}"#,
        Found::Missing(0),
    ),
];

const TESTS: [Row; 14] = [
    // A test opens nothing.
    (
        r#"[{"op":"test","path":"/a/1","value":2},{"op":"test","path":"/b","value":"x"}]"#,
        r#"{"a" : [1, 2] , "b":"\u0078"}"#,
        Found::Made(r#"{"a" : [1, 2] , "b":"\u0078"}"#),
    ),
    (
        r#"[{"op":"test","path":"","value":{"b":[1,2],"a":null}}]"#,
        r#"{"a":null,"b":[1,2]}"#,
        Found::Made(r#"{"a":null,"b":[1,2]}"#),
    ),
    (
        r#"[{"op":"test","path":"/","value":1},{"op":"test","path":"/~01","value":2}]"#,
        r#"{"":1,"~1":2}"#,
        Found::Made(r#"{"":1,"~1":2}"#),
    ),
    // What was made before is seen.
    (
        r#"[{"op":"add","path":"/0","value":[1]},{"op":"test","path":"","value":[[1],2]}]"#,
        "[2]",
        Found::Made("[[1],2]"),
    ),
    (
        r#"[{"op":"test","path":"/a","value":1.0}]"#,
        r#"{"a":1}"#,
        Found::TestFailed(0),
    ),
    (
        r#"[{"op":"test","path":"/a","value":"1"}]"#,
        r#"{"a":1}"#,
        Found::TestFailed(0),
    ),
    (
        r#"[{"op":"test","path":"/a","value":[2,1]}]"#,
        r#"{"a":[1,2]}"#,
        Found::TestFailed(0),
    ),
    (
        r#"[{"op":"test","path":"/a","value":{}}]"#,
        r#"{"a":{"b":1}}"#,
        Found::TestFailed(0),
    ),
    (
        r#"[{"op":"test","path":"/a","value":2}]"#,
        r#"{"a":1,"a":2}"#,
        Found::TestFailed(0),
    ),
    (
        r#"[{"op":"test","path":"/b","value":null}]"#,
        r#"{"a":1}"#,
        Found::Missing(0),
    ),
    (
        r#"[{"op":"test","path":"/-","value":1}]"#,
        "[1]",
        Found::Missing(0),
    ),
    (
        r#"[{"op":"test","path":"/0/0","value":1}]"#,
        "[1]",
        Found::Missing(0),
    ),
    // The first operation that isn't made counts, and nothing of those before it is kept.
    (
        r#"[{"op":"add","path":"/b","value":2},{"op":"test","path":"/b","value":3},{"op":"remove","path":"/c"}]"#,
        r#"{"a" : 1}"#,
        Found::TestFailed(1),
    ),
    (
        r#"[{"op":"remove","path":"/a"},{"op":"test","path":"/a","value":1},{"op":"move","from":"","path":"/a"}]"#,
        r#"{"a" : 1}"#,
        Found::Missing(1),
    ),
];

// How an index is spelled.
const INDEXES: [Row; 14] = [
    (
        r#"[{"op":"test","path":"/0","value":"a"}]"#,
        r#"["a","b"]"#,
        Found::Made(r#"["a","b"]"#),
    ),
    (
        r#"[{"op":"test","path":"/10","value":10}]"#,
        "[0,1,2,3,4,5,6,7,8,9,10]",
        Found::Made("[0,1,2,3,4,5,6,7,8,9,10]"),
    ),
    (
        r#"[{"op":"test","path":"/00","value":"a"}]"#,
        r#"["a","b"]"#,
        Found::Missing(0),
    ),
    (
        r#"[{"op":"test","path":"/01","value":"b"}]"#,
        r#"["a","b"]"#,
        Found::Missing(0),
    ),
    (
        r#"[{"op":"test","path":"/+1","value":"b"}]"#,
        r#"["a","b"]"#,
        Found::Missing(0),
    ),
    (
        r#"[{"op":"test","path":"/-1","value":"b"}]"#,
        r#"["a","b"]"#,
        Found::Missing(0),
    ),
    (
        r#"[{"op":"test","path":"/ 1","value":"b"}]"#,
        r#"["a","b"]"#,
        Found::Missing(0),
    ),
    (
        r#"[{"op":"test","path":"/1e0","value":"b"}]"#,
        r#"["a","b"]"#,
        Found::Missing(0),
    ),
    (
        r#"[{"op":"test","path":"/","value":"a"}]"#,
        r#"["a","b"]"#,
        Found::Missing(0),
    ),
    (
        r#"[{"op":"test","path":"/0x1","value":"b"}]"#,
        r#"["a","b"]"#,
        Found::Missing(0),
    ),
    (
        r#"[{"op":"add","path":"/01","value":1}]"#,
        "[0]",
        Found::Missing(0),
    ),
    // 2^64 and one more are no places, though 64 bits would hold what is left of them.
    (
        r#"[{"op":"test","path":"/18446744073709551616","value":"a"}]"#,
        r#"["a","b"]"#,
        Found::Missing(0),
    ),
    (
        r#"[{"op":"add","path":"/18446744073709551617","value":1}]"#,
        r#"["a","b"]"#,
        Found::Missing(0),
    ),
    (
        r#"[{"op":"add","path":"/18446744073709551615","value":1}]"#,
        r#"["a","b"]"#,
        Found::Missing(0),
    ),
];

#[test]
fn adds_and_removes(rt: HostRuntime) -> Result<(), Fail> {
    check(&rt, rt.alloc(), &ADDS)?;
    check(&rt, rt.alloc(), &REMOVES)
}

#[test]
fn replaces_and_moves(rt: HostRuntime) -> Result<(), Fail> {
    check(&rt, rt.alloc(), &REPLACES)?;
    check(&rt, rt.alloc(), &MOVES)
}

#[test]
fn copies_and_tests(rt: HostRuntime) -> Result<(), Fail> {
    check(&rt, rt.alloc(), &COPIES)?;
    check(&rt, rt.alloc(), &TESTS)?;
    check(&rt, rt.alloc(), &INDEXES)
}

// So many operations, each of which has this text.
fn repeated(alloc: Global, operation: &str, count: usize) -> Result<String, AllocError> {
    let mut json = String::from_str(alloc, "[")?;
    for i in 0..count {
        if 0 < i {
            json.push_str(",")?;
        }
        json.push_str(operation)?;
    }
    json.push_str("]")?;
    Ok(json)
}

// An operation, how often it is made, a document, and the length of the text of what is made.
const MANY: [(&str, usize, &str, usize); 3] = [
    // Each copy of the whole doubles it: of a text of n bytes it makes one of 2 n + 1.
    (r#"{"op":"copy","from":"","path":"/-"}"#, 12, "[0]", 16383),
    (
        r#"{"op":"move","from":"/0","path":"/-"}"#,
        1000,
        "[1,[ ],3]",
        9,
    ),
    (r#"{"op":"add","path":"/0","value":1}"#, 1000, "[]", 2001),
];

#[test]
fn makes_many_operations(rt: HostRuntime) -> Result<(), Fail> {
    let alloc = rt.alloc();
    for &(operation, count, document, length) in &MANY {
        let json = repeated(alloc, operation, count)?;
        let patch = patch_of(&rt, alloc, json.as_str());
        let mut value = value_of(&rt, alloc, document);
        let made = apply(alloc, &mut value, &patch).is_ok();
        let text = value.to_string(alloc)?;
        same_at(&rt, made, true, operation);
        same_at(&rt, text.len(), length, operation);
    }
    Ok(())
}
