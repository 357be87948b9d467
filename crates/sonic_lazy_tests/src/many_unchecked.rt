// What no clause says: that look-ups of many paths without memory answer worked examples, and what
// `get_many` does. The expected spans are by the grammar, each path read by itself.
ghost use Rattle.std.specs.Prelude.{◌≡◌, length};
ghost use Rattle.sonic_text.specs.Documents.{StartsWithUtf8Value};

use crate::lookups::{ANSWERED, Paths, REFUSED, tree_of};
use crate::one::starts;
use crate::same::{same, same_at};
use sonic_error::{Error, ErrorCode, JsonType, Note, Wanted};
use sonic_lazy::{LazyValue, Span, find_many_unchecked, get_many, get_many_unchecked};
use sonic_pointer::PointerNode::{Index, Key};
use sonic_pointer::PointerTree;
use std::alloc::Global;
use std::process::Abort;
use std::test::Fail;

// The spans, or the code and the offset of the error.
type Spans = Result<&'static [Option<Span>], (ErrorCode, usize)>;

// The paths, a text, and what they find in it.
type Found = (Paths, &'static str, Spans);

const ARRAY_FOR_OBJECT: ErrorCode = ErrorCode::Message(Note::Mismatch {
    found: JsonType::Array,
    wanted: Wanted::Object,
});

const FOUND: [Found; 7] = [
    (
        &[&[Key("a"), Index(1)], &[Key("z")]],
        "{\"a\":[1,2]} x",
        Ok(&[Some(Span { start: 8, end: 9 }), None]),
    ),
    (
        &[&[Key("z")], &[Key("a"), Key("x")]],
        "{\"a\":[1,2]} x",
        Err((ARRAY_FOR_OBJECT, 9)),
    ),
    // No path asks for nothing.
    (&[], "7", Ok(&[])),
    // A prefix of another path, and equal paths.
    (
        &[&[], &[Index(0), Index(0)], &[Index(0)], &[Index(0)]],
        " [[5 ]]",
        Ok(&[
            Some(Span { start: 1, end: 7 }),
            Some(Span { start: 3, end: 4 }),
            Some(Span { start: 2, end: 6 }),
            Some(Span { start: 2, end: 6 }),
        ]),
    ),
    // The first of equal keys counts.
    (
        &[&[Key("a"), Key("x")], &[Key("b")]],
        "{\"b\":\"}\",\"a\":{\"y\":1},\"a\":{\"x\":2}}",
        Ok(&[None, Some(Span { start: 5, end: 8 })]),
    ),
    // The nearest stop is reported, in whatever order the children are.
    (
        &[&[Key("a"), Index(9)], &[Key("b"), Index(9)]],
        "{\"b\":[1],\"a\":[2]}",
        Err((ErrorCode::GetIndexOutOfArray, 7)),
    ),
    (
        &[&[Key("a"), Index(9)], &[Key("b"), Index(9)]],
        "{\"a\":[1],\"b\":[2]}",
        Err((ErrorCode::GetIndexOutOfArray, 7)),
    ),
];

// Checks the spans that the paths find in bytes, or the error, after which each slot is empty.
fn check_spans(
    rt: &impl Abort,
    tree: &PointerTree,
    text: &[u8],
    wanted: Spans,
    slots: &mut [Option<Span>],
)
    requires starts { StartsWithUtf8Value text.now }
    requires long { length slots.old ≡ length tree.now }
{
    match (find_many_unchecked(text, tree, slots), wanted) {
        (Ok(()), Ok(spans)) => same(rt, &*slots, spans),
        (Err(error), Err((code, offset))) => {
            same(rt, error.code(), code);
            same_at(rt, error.offset(), offset, code);
            for slot in &*slots {
                same(rt, *slot, None);
            }
        }
        (Ok(()), Err((code, offset))) => panic!(rt; "no error where {code} is at {offset}"),
        (Err(error), Ok(_)) => panic!(rt; "{error}"),
    }
}

#[test]
fn finds_spans(rt: HostRuntime) -> Result<(), Fail> {
    let alloc = rt.alloc();
    for &(paths, text, wanted) in &FOUND {
        let bytes = text.as_bytes();
        assert!(rt; starts(alloc, bytes), "{text}");
        let tree = tree_of(&rt, alloc, paths);
        // A slot that was full before is emptied.
        let full = Some(Span { start: 0, end: 1 });
        let mut slots = vec![in alloc; full; tree.size()]?;
        check_spans(&rt, &tree, bytes, wanted, &mut slots);
    }
    Ok(())
}

// What a look-up of many paths answers.
type Answer<'de> = Result<Vec<Option<LazyValue<'de>>>, Error>;

// Checks that two answers are the same.
fn check_same(rt: &impl Abort, one: &Answer<'_>, other: &Answer<'_>) {
    match (one, other) {
        (Ok(values), Ok(others)) => {
            same(rt, values.len(), others.len());
            for (value, other) in values.iter().zip(others) {
                match (value, other) {
                    (Some(value), Some(other)) => {
                        same(rt, value.as_raw_str(), other.as_raw_str());
                    }
                    (None, None) => {}
                    _ => panic!(rt; "a value is found once"),
                }
            }
        }
        (Err(error), Err(other)) => {
            same(rt, error.code(), other.code());
            same(rt, error.offset(), other.offset());
        }
        _ => panic!(rt; "an error is found once"),
    }
}

// Compares both look-ups of the paths in a text, if it begins with a value.
fn compare(rt: &impl Abort, alloc: Global, paths: Paths, text: &str) {
    let bytes = text.as_bytes();
    if !starts(alloc, bytes) {
        return;
    }
    let tree = tree_of(rt, alloc, paths);
    let checked = get_many(alloc, bytes, &tree);
    check_same(rt, &checked, &get_many_unchecked(alloc, bytes, &tree));
}

#[test]
fn answers_as_get_many_does(rt: HostRuntime) {
    let alloc = rt.alloc();
    for &(paths, text, _) in &ANSWERED {
        compare(&rt, alloc, paths, text);
    }
    for &(paths, text, _, _) in &REFUSED {
        compare(&rt, alloc, paths, text);
    }
    for &(paths, text, _) in &FOUND {
        compare(&rt, alloc, paths, text);
    }
}

// The tokens of an object, between which white space may be.
const TOKENS: [&str; 24] = [
    "{",
    "\"a\"",
    ":",
    "[",
    "1",
    ",",
    "{",
    "\"\\\"}\"",
    ":",
    "[",
    "]",
    ",",
    "\"\"",
    ":",
    "{",
    "}",
    "}",
    "]",
    ",",
    "\"b\"",
    ":",
    "\"],\\\\\"",
    "}",
    "",
];

const IN_TOKENS: Paths = &[
    &[Key("a"), Index(1), Key("\"}")],
    &[Key("a"), Index(0)],
    &[Key("b")],
    &[Key("z")],
    &[],
];

// The tokens, and so many blanks of each kind in turn before each of them and after the last.
fn spaced(alloc: Global, blanks: usize) -> Result<String, Fail> {
    let mut text = String::new(alloc);
    for &token in &TOKENS {
        for n in 0..blanks {
            text.push([' ', '\t', '\n', '\r'][n % 4])?;
        }
        text.push_str(token)?;
    }
    Ok(text)
}

#[test]
fn passes_white_space_between_all_tokens(rt: HostRuntime) -> Result<(), Fail> {
    let alloc = rt.alloc();
    for blanks in 0..131 {
        let text = spaced(alloc, blanks)?;
        assert!(&rt; starts(alloc, text.as_bytes()), "{blanks}");
        compare(&rt, alloc, IN_TOKENS, &text);
    }
    Ok(())
}
