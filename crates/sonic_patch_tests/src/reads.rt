// What texts say as patches: expected values by RFC 6902, sections 3 and 4, and RFC 6901,
// section 3.
use crate::same::same_at;
use sonic_patch::{PatchError, read_patch};
use std::alloc::{AllocError, Global};
use std::process::Abort;
use std::test::Fail;

// So many operations, or why the text says none: at an operation, counted from 0, or at an offset.
#[derive(Clone, Copy, PartialEq, Eq, Debug)]
enum Found {
    Operations(usize),
    Json(usize),
    NotArray,
    Shape(usize),
    Pointer(usize),
    TooLong(usize),
    NoMemory,
    Other,
}

fn read(alloc: Global, json: &str) -> Found {
    match read_patch(alloc, json) {
        Ok(patch) => Found::Operations(patch.len()),
        Err(PatchError::Json(error)) => Found::Json(error.offset()),
        Err(PatchError::NotArray) => Found::NotArray,
        Err(PatchError::Shape { op }) => Found::Shape(op),
        Err(PatchError::Pointer { op }) => Found::Pointer(op),
        Err(PatchError::TooLong { op }) => Found::TooLong(op),
        Err(PatchError::NoMemory) => Found::NoMemory,
        Err(_) => Found::Other,
    }
}

type Row = (&'static str, Found);

fn check(rt: &impl Abort, alloc: Global, rows: &[Row]) {
    for &(json, wanted) in rows {
        same_at(rt, read(alloc, json), wanted, json);
    }
}

// Texts as a whole.
const TEXTS: [Row; 14] = [
    ("[]", Found::Operations(0)),
    (" \t[\n]\r", Found::Operations(0)),
    ("{}", Found::NotArray),
    ("null", Found::NotArray),
    ("\"[]\"", Found::NotArray),
    ("1", Found::NotArray),
    (r#"{"op":"remove","path":""}"#, Found::NotArray),
    ("", Found::Json(0)),
    ("[", Found::Json(0)),
    ("[] x", Found::Json(3)),
    ("[1,]", Found::Json(3)),
    ("nul", Found::Json(2)),
    (r#"[{"op":"remove","path":"/a"}"#, Found::Json(27)),
    // The text's fault is told before that of an operation.
    (r#"[{"op":"remove"},{"op":]"#, Found::Json(23)),
];

// Each word, with the members that it needs.
const WORDS: [Row; 16] = [
    (
        r#"[{"op":"add","path":"/a","value":1}]"#,
        Found::Operations(1),
    ),
    (r#"[{"op":"remove","path":"/a"}]"#, Found::Operations(1)),
    (
        r#"[{"op":"replace","path":"/a","value":[]}]"#,
        Found::Operations(1),
    ),
    (
        r#"[{"op":"move","from":"/a","path":"/b"}]"#,
        Found::Operations(1),
    ),
    (
        r#"[{"op":"copy","from":"","path":"/-"}]"#,
        Found::Operations(1),
    ),
    (
        r#"[{"op":"test","path":"","value":null}]"#,
        Found::Operations(1),
    ),
    (
        r#"[{"value":{},"path":"/a","op":"add"}]"#,
        Found::Operations(1),
    ),
    (
        r#"[{"\u006fp":"t\u0065st","p\u0061th":"\/a","value":1.0}]"#,
        Found::Operations(1),
    ),
    (
        r#"[{"op":"remove","path":"/a"} , {"op":"remove","path":"/b"}]"#,
        Found::Operations(2),
    ),
    // Other members are passed over, whatever they are.
    (
        r#"[{"op":"remove","path":"/a","value":1,"from":2,"-":[3],"":{}}]"#,
        Found::Operations(1),
    ),
    (
        r#"[{"op":"add","path":"/a","value":1,"from":"a"}]"#,
        Found::Operations(1),
    ),
    (
        r#"[{"op":"move","from":"/a","path":"/b","value":{}}]"#,
        Found::Operations(1),
    ),
    // The first of equal keys counts.
    (
        r#"[{"op":"remove","op":1,"path":"/a","path":"a"}]"#,
        Found::Operations(1),
    ),
    (r#"[{"op":1,"op":"remove","path":"/a"}]"#, Found::Shape(0)),
    (
        r#"[{"op":"remove","path":"a","path":"/a"}]"#,
        Found::Pointer(0),
    ),
    (
        r#"[{"op":"copy","path":"/a","from":"/b","from":null}]"#,
        Found::Operations(1),
    ),
];

// Elements that are no operations.
const SHAPES: [Row; 27] = [
    ("[null]", Found::Shape(0)),
    ("[[]]", Found::Shape(0)),
    ("[\"remove\"]", Found::Shape(0)),
    ("[{}]", Found::Shape(0)),
    (r#"[{"path":"/a","value":1}]"#, Found::Shape(0)),
    (r#"[{"op":"Remove","path":"/a"}]"#, Found::Shape(0)),
    (r#"[{"op":"remov","path":"/a"}]"#, Found::Shape(0)),
    (r#"[{"op":"removes","path":"/a"}]"#, Found::Shape(0)),
    (r#"[{"op":"","path":"/a"}]"#, Found::Shape(0)),
    (r#"[{"op":["remove"],"path":"/a"}]"#, Found::Shape(0)),
    (r#"[{"op":null,"path":"/a"}]"#, Found::Shape(0)),
    (r#"[{"Op":"remove","path":"/a"}]"#, Found::Shape(0)),
    (r#"[{"op":"remove"}]"#, Found::Shape(0)),
    (r#"[{"op":"remove","path":null}]"#, Found::Shape(0)),
    (r#"[{"op":"remove","path":["a"]}]"#, Found::Shape(0)),
    (r#"[{"op":"add","path":"/a"}]"#, Found::Shape(0)),
    (r#"[{"op":"replace","path":"/a"}]"#, Found::Shape(0)),
    (r#"[{"op":"test","path":"/a"}]"#, Found::Shape(0)),
    (r#"[{"op":"move","path":"/a"}]"#, Found::Shape(0)),
    (r#"[{"op":"move","path":"/a","from":1}]"#, Found::Shape(0)),
    (r#"[{"op":"copy","path":"/a"}]"#, Found::Shape(0)),
    (
        r#"[{"op":"copy","path":"/a","from":["/b"]}]"#,
        Found::Shape(0),
    ),
    (r#"[{"op":"move","from":"/a"}]"#, Found::Shape(0)),
    (r#"[{"op":"remove","path":"/a"},0]"#, Found::Shape(1)),
    // It is told before a pointer that is none, and the first operation before a later one.
    (r#"[{"op":"copy","path":"~"}]"#, Found::Shape(0)),
    (r#"[{"op":"add","path":"a"}]"#, Found::Shape(0)),
    (r#"[{"op":"remove","path":"a"},{}]"#, Found::Pointer(0)),
];

// Pointers.
const POINTERS: [Row; 24] = [
    (r#"[{"op":"remove","path":""}]"#, Found::Operations(1)),
    (r#"[{"op":"remove","path":"/"}]"#, Found::Operations(1)),
    (r#"[{"op":"remove","path":"//"}]"#, Found::Operations(1)),
    (r#"[{"op":"remove","path":"/~0"}]"#, Found::Operations(1)),
    (r#"[{"op":"remove","path":"/~1"}]"#, Found::Operations(1)),
    (
        r#"[{"op":"remove","path":"/~01~10/a~0b~1c/\u0000"}]"#,
        Found::Operations(1),
    ),
    (
        r#"[{"op":"remove","path":"/é ~0é/01/-"}]"#,
        Found::Operations(1),
    ),
    (r#"[{"op":"remove","path":"a"}]"#, Found::Pointer(0)),
    (r#"[{"op":"remove","path":" /a"}]"#, Found::Pointer(0)),
    (r#"[{"op":"remove","path":"~1a"}]"#, Found::Pointer(0)),
    (r#"[{"op":"remove","path":"~"}]"#, Found::Pointer(0)),
    (r#"[{"op":"remove","path":"/~"}]"#, Found::Pointer(0)),
    (r#"[{"op":"remove","path":"/~2"}]"#, Found::Pointer(0)),
    (r#"[{"op":"remove","path":"/~/0"}]"#, Found::Pointer(0)),
    (r#"[{"op":"remove","path":"/~~0"}]"#, Found::Pointer(0)),
    (r#"[{"op":"remove","path":"/a/b~"}]"#, Found::Pointer(0)),
    (r#"[{"op":"remove","path":"/a~0/~é/b"}]"#, Found::Pointer(0)),
    (r#"[{"op":"move","from":"","path":"a"}]"#, Found::Pointer(0)),
    (r#"[{"op":"move","from":"a","path":""}]"#, Found::Pointer(0)),
    (
        r#"[{"op":"copy","from":"/~","path":"/a"}]"#,
        Found::Pointer(0),
    ),
    (
        r#"[{"op":"copy","from":"/a","path":"/~9"}]"#,
        Found::Pointer(0),
    ),
    (
        "[{\"op\":\"add\",\"path\":\"#/a\",\"value\":1}]",
        Found::Pointer(0),
    ),
    // A `from` that isn't needed is passed over.
    (
        r#"[{"op":"remove","path":"/a","from":"~"}]"#,
        Found::Operations(1),
    ),
    (
        r#"[{"op":"remove","path":""},{"op":"test","path":"x","value":0}]"#,
        Found::Pointer(1),
    ),
];

#[test]
fn reads_what_each_word_needs(rt: HostRuntime) {
    check(&rt, rt.alloc(), &TEXTS);
    check(&rt, rt.alloc(), &WORDS);
}

#[test]
fn refuses_what_is_no_operation(rt: HostRuntime) {
    check(&rt, rt.alloc(), &SHAPES);
    check(&rt, rt.alloc(), &POINTERS);
}

// A patch between whose two texts a pointer of so many tokens stands.
fn patch_of(alloc: Global, before: &str, count: usize, after: &str) -> Result<String, AllocError> {
    let mut patch = String::from_str(alloc, before)?;
    for _ in 0..count {
        patch.push_str("/~1")?;
    }
    patch.push_str(after)?;
    Ok(patch)
}

// What comes before a pointer and after it, the tokens of the pointer, and what is found.
const LONG: [(&str, usize, &str, Found); 8] = [
    (
        r#"[{"op":"remove","path":""#,
        255,
        r#""}]"#,
        Found::Operations(1),
    ),
    (
        r#"[{"op":"remove","path":""#,
        256,
        r#""}]"#,
        Found::TooLong(0),
    ),
    (
        r#"[{"op":"remove","path":""#,
        100000,
        r#""}]"#,
        Found::TooLong(0),
    ),
    // It is told after the other refusals of the operation, and for a `from` that is needed alone.
    (
        r#"[{"op":"remove","path":""#,
        256,
        r#"~"}]"#,
        Found::Pointer(0),
    ),
    (r#"[{"op":"add","path":""#, 256, r#""}]"#, Found::Shape(0)),
    (
        r#"[{"op":"copy","path":"a","from":""#,
        256,
        r#""}]"#,
        Found::Pointer(0),
    ),
    (
        r#"[{"op":"copy","path":"","from":""#,
        256,
        r#""}]"#,
        Found::TooLong(0),
    ),
    (
        r#"[{"op":"remove","path":"","from":""#,
        256,
        r#""}]"#,
        Found::Operations(1),
    ),
];

#[test]
fn takes_pointers_of_at_most_255_tokens(rt: HostRuntime) -> Result<(), Fail> {
    let alloc = rt.alloc();
    for &(before, count, after, wanted) in &LONG {
        let patch = patch_of(alloc, before, count, after)?;
        same_at(&rt, read(alloc, patch.as_str()), wanted, (before, count));
    }
    Ok(())
}
