// What no clause says: that look-ups of many paths answer worked examples, over each kind of input
// and where memory is ample. The expected values are by the grammar, each path read by itself.
use crate::same::{same, same_at};
use bytes::Bytes;
use sonic_error::{ErrorCode, JsonType, Note, Wanted};
use sonic_input::{FastStr, JsonInput};
use sonic_lazy::get_many;
use sonic_pointer::PointerNode::{Index, Key};
use sonic_pointer::{PointerNode, PointerTree};
use std::alloc::Global;
use std::process::Abort;
use std::test::Fail;

// The paths of a tree.
pub(crate) type Paths = &'static [&'static [PointerNode<'static>]];

// The paths, a text, and what they find in it.
pub(crate) type Answered = (Paths, &'static str, &'static [Option<&'static str>]);

// The paths, a text, and the code and the offset of the one error.
pub(crate) type Refused = (Paths, &'static str, ErrorCode, usize);

pub(crate) fn tree_of(rt: &impl Abort, alloc: Global, paths: Paths) -> PointerTree {
    let mut tree = PointerTree::new(alloc);
    for path in paths {
        same_at(rt, tree.add_path(alloc, *path), Ok(()), path);
    }
    tree
}

// Checks the texts that the paths find in an input.
fn check_values<'de, I: JsonInput<'de>>(
    rt: &impl Abort,
    alloc: Global,
    input: I,
    tree: &PointerTree,
    wanted: &[Option<&str>],
) {
    match get_many(alloc, input, tree) {
        Ok(values) => {
            same(rt, values.len(), wanted.len());
            for (value, text) in values.iter().zip(wanted) {
                match (value, text) {
                    (Some(value), Some(text)) => same(rt, value.as_raw_str(), *text),
                    (None, None) => {}
                    _ => panic!(rt; "another entry than {text:?}"),
                }
            }
        }
        Err(error) => panic!(rt; "{error}"),
    }
}

// Checks the error that the paths are answered with.
fn check_error<'de, I: JsonInput<'de>>(
    rt: &impl Abort,
    alloc: Global,
    input: I,
    tree: &PointerTree,
    code: ErrorCode,
    offset: usize,
) {
    match get_many(alloc, input, tree) {
        Ok(_) => panic!(rt; "no error where {code} is expected"),
        Err(error) => {
            same(rt, error.code(), code);
            same_at(rt, error.offset(), offset, code);
        }
    }
}

pub(crate) const ANSWERED: [Answered; 15] = [
    (
        &[
            &[Key("u")],
            &[Key("unknown_key")],
            &[Key("a"), Key("b"), Key("c"), Index(1)],
        ],
        "\n{\"u\": 123, \"a\": {\"b\" : {\"c\": [null, \"found\"]}}}",
        &[Some("123"), None, Some("\"found\"")],
    ),
    // Without a path nothing is looked at.
    (&[], "}{", &[]),
    // The first of equal keys counts, whatever it leads to.
    (
        &[&[Key("a")], &[Key("b")]],
        "{\"a\":1,\"a\":2,\"b\":3}",
        &[Some("1"), Some("3")],
    ),
    (
        &[&[Key("a"), Key("x")]],
        "{\"a\":{\"y\":1},\"a\":{\"x\":2}} z",
        &[None],
    ),
    // Each of equal paths is answered, and nothing is read after what they need.
    (
        &[&[Key("a")], &[Key("a")]],
        "{\"a\":1,",
        &[Some("1"), Some("1")],
    ),
    // Paths that end where others go on, at every place.
    (
        &[
            &[Key("a"), Key("a_b"), Key("a_b_c")],
            &[Key("a"), Key("a_b")],
            &[Key("a"), Key("a_a"), Index(1)],
            &[Key("a")],
            &[Key("a")],
            &[Key("b"), Index(2)],
            &[],
            &[Key("unknown_key")],
        ],
        "{\"b\": [0, 1, true], \"a\": {\"a_b\":{\"a_b_c\":\"hello, world!\"}, \"a_a\": [0, 1, 2]}}",
        &[
            Some("\"hello, world!\""),
            Some("{\"a_b_c\":\"hello, world!\"}"),
            Some("1"),
            Some("{\"a_b\":{\"a_b_c\":\"hello, world!\"}, \"a_a\": [0, 1, 2]}"),
            Some("{\"a_b\":{\"a_b_c\":\"hello, world!\"}, \"a_a\": [0, 1, 2]}"),
            Some("true"),
            Some(
                "{\"b\": [0, 1, true], \"a\": {\"a_b\":{\"a_b_c\":\"hello, world!\"}, \"a_a\": [0, 1, 2]}}",
            ),
            None,
        ],
    ),
    // The answer has the order of the paths, and not that of the text.
    (
        &[&[Key("b")], &[Key("c")], &[Key("a")]],
        "{\"a\":1,\"b\":2,\"c\":3",
        &[Some("2"), Some("3"), Some("1")],
    ),
    (
        &[&[Index(2)], &[Index(0)], &[Index(1), Index(0)]],
        "[0,[10],20",
        &[Some("20"), Some("0"), Some("10")],
    ),
    // Keys are compared as the text that they denote.
    (
        &[
            &[Key("\u{e9}")],
            &[Key("\"")],
            &[Key("\u{1F600}")],
            &[Key("")],
        ],
        "{\"\\u00e9\":1,\"\\\"\":2,\"\\ud83d\\ude00\":3,\"\":4}",
        &[Some("1"), Some("2"), Some("3"), Some("4")],
    ),
    (
        &[&[Key("\\u0061")], &[Key("a")]],
        "{\"\\u0061\":1,\"\\\\u0061\":2}",
        &[Some("2"), Some("1")],
    ),
    (
        &[&[Key("ab")], &[Key("a")], &[Key("abc")]],
        "{\"a\":1,\"ab\":2}",
        &[Some("2"), Some("1"), None],
    ),
    // A key is lacked at every depth, and then the root is whole.
    (
        &[&[Index(0), Key("z")], &[Index(1), Key("z")], &[Index(2)]],
        "[{\"a\":1},{\"z\":[ ]},5]7",
        &[None, Some("[ ]"), Some("5")],
    ),
    (
        &[&[]],
        " [1, {\"a\": \"]\"}] x",
        &[Some("[1, {\"a\": \"]\"}]")],
    ),
    (&[&[]], "1230/(xxx", &[Some("1230")]),
    // An ordinary log record.
    (
        &[
            &[Key("user"), Key("id")],
            &[Key("user"), Key("name")],
            &[Key("tags"), Index(0)],
            &[Key("meta"), Key("trace")],
        ],
        "{\n  \"ts\": \"2024-05-01T12:00:00Z\",\n  \"user\": { \"id\": 42, \"name\": \"Zo\\u00eb\" },\n  \"tags\": [\"api\", \"v2\"],\n  \"meta\": { \"ms\": 12.5 }\n}\n",
        &[Some("42"), Some("\"Zo\\u00eb\""), Some("\"api\""), None],
    ),
];

#[test]
fn answers_paths_over_each_kind_of_input(rt: HostRuntime) -> Result<(), Fail> {
    let alloc = rt.alloc();
    for &(paths, text, wanted) in &ANSWERED {
        let tree = tree_of(&rt, alloc, paths);
        let owned = String::from_str(alloc, text)?;
        let shared = FastStr::new(alloc, text)?;
        check_values(&rt, alloc, text, &tree, wanted);
        check_values(&rt, alloc, text.as_bytes(), &tree, wanted);
        check_values(&rt, alloc, &owned, &tree, wanted);
        check_values(&rt, alloc, &shared, &tree, wanted);
        check_values(&rt, alloc, shared.bytes(), &tree, wanted);
    }
    Ok(())
}

// A value of a kind is where an object or an array is wanted.
const NUMBER_FOR_ARRAY: ErrorCode = ErrorCode::Message(Note::Mismatch {
    found: JsonType::Number,
    wanted: Wanted::Array,
});

const STRING_FOR_OBJECT: ErrorCode = ErrorCode::Message(Note::Mismatch {
    found: JsonType::String,
    wanted: Wanted::Object,
});

const ARRAY_FOR_OBJECT: ErrorCode = ErrorCode::Message(Note::Mismatch {
    found: JsonType::Array,
    wanted: Wanted::Object,
});

const NULL_FOR_OBJECT: ErrorCode = ErrorCode::Message(Note::Mismatch {
    found: JsonType::Null,
    wanted: Wanted::Object,
});

const BOOLEAN_FOR_OBJECT: ErrorCode = ErrorCode::Message(Note::Mismatch {
    found: JsonType::Boolean,
    wanted: Wanted::Object,
});

const OBJECT_FOR_ARRAY: ErrorCode = ErrorCode::Message(Note::Mismatch {
    found: JsonType::Object,
    wanted: Wanted::Array,
});

pub(crate) const REFUSED: [Refused; 18] = [
    // The text ends, or stops being JSON, before a path is settled.
    (&[&[Key("b")]], "{\"a\":1\n", ErrorCode::EofWhileParsing, 6),
    (
        &[&[Index(0), Key("z")]],
        "[{\"a\":1},",
        ErrorCode::EofWhileParsing,
        8,
    ),
    (
        &[&[Key("a")]],
        "{ xx \"a\":1}",
        ErrorCode::ExpectObjectKeyOrEnd,
        2,
    ),
    (
        &[&[Key("a")], &[Key("z")]],
        "{\"a\":1 \"z\":2}",
        ErrorCode::ExpectedObjectCommaOrEnd,
        7,
    ),
    // A lacking key needs the whole root, and the fault after it is reported.
    (&[&[Key("z")]], "{\"a\":tru}", ErrorCode::InvalidLiteral, 8),
    (
        &[&[Index(0), Key("z")], &[Index(0), Key("a")]],
        "[{\"a\":1}, 01]",
        ErrorCode::InvalidNumber,
        11,
    ),
    // A fail comes before the fault that follows it.
    (
        &[&[Key("a"), Key("x")], &[Key("b")]],
        "{\"a\":{},\"b\":tru}",
        ErrorCode::GetInEmptyObject,
        6,
    ),
    // A kind is reported after the whole value, and a fault inside the value before it.
    (
        &[&[Key("a"), Index(0)]],
        "{\"a\": -12.5e3 , \"b\":[",
        NUMBER_FOR_ARRAY,
        12,
    ),
    (
        &[&[Key("a"), Key("b")]],
        "{\"a\": \"\"invalid\", \"b\":null}",
        STRING_FOR_OBJECT,
        7,
    ),
    (
        &[&[Index(0), Index(1)]],
        "[{\"a\":[1,2}]",
        ErrorCode::ExpectedArrayCommaOrEnd,
        10,
    ),
    // The nearest of several fails is reported, whatever the order of the paths.
    (
        &[&[Key("b"), Key("x")], &[Key("a"), Key("x")]],
        "{\"a\":[],\"b\":{}}",
        ARRAY_FOR_OBJECT,
        6,
    ),
    (
        &[&[Key("a"), Index(7)], &[Key("a"), Index(0), Key("x")]],
        "{\"a\":[null,2]}",
        NULL_FOR_OBJECT,
        9,
    ),
    (
        &[&[Key("z")], &[Key("a"), Key("x"), Key("y")]],
        "{\"a\":{\"x\":true}}",
        BOOLEAN_FOR_OBJECT,
        13,
    ),
    // Empty containers and ends.
    (&[&[Index(0)]], "[ ]", ErrorCode::GetInEmptyArray, 2),
    (&[&[Key("a")]], "[]", ARRAY_FOR_OBJECT, 1),
    (&[&[Index(0)]], "{ }", OBJECT_FOR_ARRAY, 2),
    (
        &[&[Index(1)], &[Index(0)], &[Index(2)]],
        "[1]",
        ErrorCode::GetIndexOutOfArray,
        2,
    ),
    // A path that ends at a value asks for the whole of it, but only after the paths below.
    (
        &[&[Key("a")], &[Key("a"), Key("b"), Index(0)]],
        "{\"a\":{\"b\":[],\"c\":x}}",
        ErrorCode::GetInEmptyArray,
        11,
    ),
];

#[test]
fn refuses_paths_over_each_kind_of_input(rt: HostRuntime) -> Result<(), Fail> {
    let alloc = rt.alloc();
    for &(paths, text, code, offset) in &REFUSED {
        let tree = tree_of(&rt, alloc, paths);
        let owned = String::from_str(alloc, text)?;
        let shared = FastStr::new(alloc, text)?;
        check_error(&rt, alloc, text, &tree, code, offset);
        check_error(&rt, alloc, text.as_bytes(), &tree, code, offset);
        check_error(&rt, alloc, &owned, &tree, code, offset);
        check_error(&rt, alloc, &shared, &tree, code, offset);
        check_error(&rt, alloc, shared.bytes(), &tree, code, offset);
    }
    Ok(())
}

// The paths, bytes, and what they find in them.
type Prefix = (Paths, &'static [u8], &'static [Option<&'static str>]);

// Bytes that aren't UTF-8 after all that is needed: after the furthest end that was found, or
// after the root where a key is lacked.
const PREFIXES: [Prefix; 4] = [
    (&[&[Index(0)]], b"[1,\xFF", &[Some("1")]),
    (&[&[Index(0)]], b"[1,\"\xFF\"]", &[Some("1")]),
    (
        &[&[Key("b")], &[Key("a")]],
        b"{\"a\":1,\"b\":2,\"\xFF\":0}",
        &[Some("2"), Some("1")],
    ),
    (
        &[&[Key("z")], &[Key("a")]],
        b"{\"a\":1,\"b\":2}\xFF",
        &[None, Some("1")],
    ),
];

// The paths, bytes, and the code and the offset of the one error.
type Broken = (Paths, &'static [u8], ErrorCode, usize);

// And before its end. A fail and a fault are reported before them.
const BROKEN: [Broken; 7] = [
    (&[&[Index(0)]], b"[\"a\xC3\"]", ErrorCode::InvalidUTF8, 3),
    (
        &[&[Key("b")], &[Key("a")]],
        b"{\"\xFF\":0,\"a\":1,\"b\":2}",
        ErrorCode::InvalidUTF8,
        2,
    ),
    (
        &[&[Key("b")], &[Key("a")]],
        b"{\"a\":1,\"\xFF\":0,\"b\":2}",
        ErrorCode::InvalidUTF8,
        8,
    ),
    (
        &[&[Key("z")], &[Key("a")]],
        b"{\"a\":1,\"\xFF\":0}",
        ErrorCode::InvalidUTF8,
        8,
    ),
    (
        &[&[Key("a"), Key("x")]],
        b"{\"\xFF\":0,\"a\":{}}",
        ErrorCode::GetInEmptyObject,
        12,
    ),
    (
        &[&[Key("z")], &[Key("a")]],
        b"{\"a\":\"\xFF\",}",
        ErrorCode::ExpectObjectKeyOrEnd,
        9,
    ),
    (&[&[Index(1)]], b"[\"\xFF\"", ErrorCode::EofWhileParsing, 3),
];

#[test]
fn looks_at_utf8_as_far_as_it_is_needed(rt: HostRuntime) -> Result<(), Fail> {
    let alloc = rt.alloc();
    for &(paths, bytes, wanted) in &PREFIXES {
        let shared = Bytes::copy_from_slice(alloc, bytes)?;
        let tree = tree_of(&rt, alloc, paths);
        check_values(&rt, alloc, bytes, &tree, wanted);
        check_values(&rt, alloc, &shared, &tree, wanted);
    }
    for &(paths, bytes, code, offset) in &BROKEN {
        let shared = Bytes::copy_from_slice(alloc, bytes)?;
        let tree = tree_of(&rt, alloc, paths);
        check_error(&rt, alloc, bytes, &tree, code, offset);
        check_error(&rt, alloc, &shared, &tree, code, offset);
    }
    Ok(())
}
