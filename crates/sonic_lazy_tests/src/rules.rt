// What no clause says: that look-ups of many paths answer worked examples under each rule for equal
// keys. The expected values are by the definition of where a path leads under a rule, by hand.
use crate::lookups::{Paths, tree_of};
use crate::same::{same, same_at};
use sonic_error::ErrorCode::{
    DuplicateKey, EofWhileParsing, ExpectObjectKeyOrEnd, GetInEmptyArray, GetInEmptyObject,
    GetIndexOutOfArray, InvalidLiteral, InvalidUTF8,
};
use sonic_error::{ErrorCode, JsonType, Note, Wanted};
use sonic_input::JsonInput;
use sonic_lazy::get_many_with;
use sonic_pointer::PointerNode::{Index, Key};
use sonic_pointer::{KeyRule, PointerTree};
use std::alloc::Global;
use std::process::Abort;
use std::test::Fail;

// What the paths are answered.
#[derive(Clone, Copy)]
enum Answer<'a> {
    // The texts of the values, or nothing where a key is lacked.
    Texts(&'a [Option<&'a str>]),
    // The code and the offset of the one error.
    Refusal(ErrorCode, usize),
}

use Answer::{Refusal, Texts};

// The paths, a text, and their answers by the first of equal keys, by the last, and where a second
// one is refused.
type Row = (Paths, &'static [u8], [Answer<'static>; 3]);

// A number is where an object is wanted, or an array is.
const NUMBER_FOR_OBJECT: ErrorCode = ErrorCode::Message(Note::Mismatch {
    found: JsonType::Number,
    wanted: Wanted::Object,
});

const ARRAY_FOR_OBJECT: ErrorCode = ErrorCode::Message(Note::Mismatch {
    found: JsonType::Array,
    wanted: Wanted::Object,
});

const EQUAL: [Row; 15] = [
    // Each rule, and keys that are equal as the texts that they denote.
    (
        &[&[Key("a")]],
        b"{\"a\":1,\"a\":2}",
        [
            Texts(&[Some("1")]),
            Texts(&[Some("2")]),
            Refusal(DuplicateKey, 7),
        ],
    ),
    (
        &[&[Key("a")]],
        b" { \"a\" : 1 , \"a\" : 2 } ",
        [
            Texts(&[Some("1")]),
            Texts(&[Some("2")]),
            Refusal(DuplicateKey, 13),
        ],
    ),
    (
        &[&[Key("a")]],
        b"{\"a\":1,\"a\":2,\"a\":3}",
        [
            Texts(&[Some("1")]),
            Texts(&[Some("3")]),
            Refusal(DuplicateKey, 7),
        ],
    ),
    (
        &[&[Key("a")]],
        b"{\"a\":1,\"\\u0061\":2}",
        [
            Texts(&[Some("1")]),
            Texts(&[Some("2")]),
            Refusal(DuplicateKey, 7),
        ],
    ),
    (
        &[&[Key("a")]],
        b"{\"\\u0061\":1,\"a\":2}",
        [
            Texts(&[Some("1")]),
            Texts(&[Some("2")]),
            Refusal(DuplicateKey, 12),
        ],
    ),
    (
        &[&[Key("")]],
        b"{\"\":1,\"\":2}",
        [
            Texts(&[Some("1")]),
            Texts(&[Some("2")]),
            Refusal(DuplicateKey, 6),
        ],
    ),
    (
        &[&[Key("a")], &[Key("a")]],
        b"{\"a\":1,\"a\":2}",
        [
            Texts(&[Some("1"), Some("1")]),
            Texts(&[Some("2"), Some("2")]),
            Refusal(DuplicateKey, 7),
        ],
    ),
    (
        &[&[], &[Key("a")]],
        b"{\"a\":1,\"a\":2}",
        [
            Texts(&[Some("{\"a\":1,\"a\":2}"), Some("1")]),
            Texts(&[Some("{\"a\":1,\"a\":2}"), Some("2")]),
            Refusal(DuplicateKey, 7),
        ],
    ),
    // The nearest of several second quotes.
    (
        &[&[Key("b")], &[Key("a")]],
        b"{\"a\":1,\"b\":2,\"b\":3,\"a\":4}",
        [
            Texts(&[Some("2"), Some("1")]),
            Texts(&[Some("3"), Some("4")]),
            Refusal(DuplicateKey, 13),
        ],
    ),
    // Keys that no path names may repeat, and others are no repetition.
    (
        &[&[Key("b")]],
        b"{\"a\":1,\"a\":2,\"b\":3}",
        [
            Texts(&[Some("3")]),
            Texts(&[Some("3")]),
            Texts(&[Some("3")]),
        ],
    ),
    (
        &[&[Key("b")]],
        b"{\"b\":{\"a\":1,\"a\":2}}",
        [
            Texts(&[Some("{\"a\":1,\"a\":2}")]),
            Texts(&[Some("{\"a\":1,\"a\":2}")]),
            Texts(&[Some("{\"a\":1,\"a\":2}")]),
        ],
    ),
    (
        &[&[]],
        b"{\"a\":1,\"a\":2}",
        [
            Texts(&[Some("{\"a\":1,\"a\":2}")]),
            Texts(&[Some("{\"a\":1,\"a\":2}")]),
            Texts(&[Some("{\"a\":1,\"a\":2}")]),
        ],
    ),
    (
        &[&[Key("a")]],
        b"{\"a\":1,\"ab\":2,\"A\":3}",
        [
            Texts(&[Some("1")]),
            Texts(&[Some("1")]),
            Texts(&[Some("1")]),
        ],
    ),
    (
        &[&[Key("a")]],
        b"{\"a\":1}}",
        [
            Texts(&[Some("1")]),
            Texts(&[Some("1")]),
            Texts(&[Some("1")]),
        ],
    ),
    (
        &[],
        b"{\"a\":1,\"a\":2}",
        [Texts(&[]), Texts(&[]), Texts(&[])],
    ),
];

const WHOLE: [Row; 15] = [
    // The object has to be whole, but for the first of equal keys.
    (
        &[&[Key("a")]],
        b"{\"a\":1,\"a\":2",
        [
            Texts(&[Some("1")]),
            Refusal(EofWhileParsing, 11),
            Refusal(EofWhileParsing, 11),
        ],
    ),
    (
        &[&[Key("a")]],
        b"{\"a\":1,",
        [
            Texts(&[Some("1")]),
            Refusal(EofWhileParsing, 6),
            Refusal(EofWhileParsing, 6),
        ],
    ),
    (
        &[&[Key("a"), Index(0)]],
        b"{\"a\":[1",
        [
            Texts(&[Some("1")]),
            Refusal(EofWhileParsing, 6),
            Refusal(EofWhileParsing, 6),
        ],
    ),
    (
        &[&[Key("a")]],
        b"{\"a\":tru,\"a\":1}",
        [
            Refusal(InvalidLiteral, 8),
            Refusal(InvalidLiteral, 8),
            Refusal(InvalidLiteral, 8),
        ],
    ),
    (
        &[&[Key("a")], &[Key("b")]],
        b"{\"a\":1,\"b\":2,\"a\":3}",
        [
            Texts(&[Some("1"), Some("2")]),
            Texts(&[Some("3"), Some("2")]),
            Refusal(DuplicateKey, 13),
        ],
    ),
    (
        &[&[Key("a")], &[Key("b")]],
        b"{\"a\":1,\"b\":2,\"a\":3,x",
        [
            Texts(&[Some("1"), Some("2")]),
            Refusal(ExpectObjectKeyOrEnd, 19),
            Refusal(ExpectObjectKeyOrEnd, 19),
        ],
    ),
    // Not so the array around it, and elements have one index each.
    (
        &[&[Index(0)]],
        b"[1,",
        [
            Texts(&[Some("1")]),
            Texts(&[Some("1")]),
            Texts(&[Some("1")]),
        ],
    ),
    (
        &[&[Index(0), Key("a")]],
        b"[{\"a\":1},x",
        [
            Texts(&[Some("1")]),
            Texts(&[Some("1")]),
            Texts(&[Some("1")]),
        ],
    ),
    (
        &[&[Index(0), Key("a")], &[Index(1), Key("a")]],
        b"[{\"a\":1},{\"a\":2}]",
        [
            Texts(&[Some("1"), Some("2")]),
            Texts(&[Some("1"), Some("2")]),
            Texts(&[Some("1"), Some("2")]),
        ],
    ),
    (
        &[&[Index(0), Key("a")], &[Index(1), Key("a")]],
        b"[{\"a\":1},{\"a\":2,\"a\":3}]",
        [
            Texts(&[Some("1"), Some("2")]),
            Texts(&[Some("1"), Some("3")]),
            Refusal(DuplicateKey, 16),
        ],
    ),
    // The nearest fail is reported, of a second quote or of another path.
    (
        &[&[Key("a")], &[Key("b"), Key("x")]],
        b"{\"a\":1,\"b\":{},\"a\":2}",
        [
            Refusal(GetInEmptyObject, 12),
            Refusal(GetInEmptyObject, 12),
            Refusal(GetInEmptyObject, 12),
        ],
    ),
    (
        &[&[Key("a")], &[Key("b"), Key("x")]],
        b"{\"a\":1,\"a\":2,\"b\":{}}",
        [
            Refusal(GetInEmptyObject, 18),
            Refusal(GetInEmptyObject, 18),
            Refusal(DuplicateKey, 7),
        ],
    ),
    // And before the fault of the text, unless that is in an object that has to be whole.
    (
        &[&[Key("a"), Key("x")]],
        b"{\"a\":{},\"b\":tru}",
        [
            Refusal(GetInEmptyObject, 6),
            Refusal(InvalidLiteral, 15),
            Refusal(InvalidLiteral, 15),
        ],
    ),
    (
        &[&[Index(0), Key("a"), Key("x")]],
        b"[{\"a\":{}},tru",
        [
            Refusal(GetInEmptyObject, 7),
            Refusal(GetInEmptyObject, 7),
            Refusal(GetInEmptyObject, 7),
        ],
    ),
    (
        &[&[Index(0), Key("a")], &[Index(1)]],
        b"[{\"a\":1,\"a\":2},tru]",
        [
            Refusal(InvalidLiteral, 18),
            Refusal(InvalidLiteral, 18),
            Refusal(DuplicateKey, 8),
        ],
    ),
];

const BELOW: [Row; 12] = [
    // A fail below the first of equal keys, and below the last one.
    (
        &[&[Key("a"), Key("x")]],
        b"{\"a\":{},\"a\":{\"x\":5}}",
        [
            Refusal(GetInEmptyObject, 6),
            Texts(&[Some("5")]),
            Refusal(DuplicateKey, 8),
        ],
    ),
    (
        &[&[Key("a"), Key("x")]],
        b"{\"a\":{\"x\":5},\"a\":{}}",
        [
            Texts(&[Some("5")]),
            Refusal(GetInEmptyObject, 18),
            Refusal(DuplicateKey, 13),
        ],
    ),
    (
        &[&[Key("a"), Key("b")]],
        b"{\"a\":{\"b\":1},\"a\":2}",
        [
            Texts(&[Some("1")]),
            Refusal(NUMBER_FOR_OBJECT, 17),
            Refusal(DuplicateKey, 13),
        ],
    ),
    (
        &[&[Key("a"), Index(0)]],
        b"{\"a\":[1],\"a\":[]}",
        [
            Texts(&[Some("1")]),
            Refusal(GetInEmptyArray, 14),
            Refusal(DuplicateKey, 9),
        ],
    ),
    (
        &[&[Key("a"), Index(0)], &[Key("a"), Index(1)]],
        b"{\"a\":[1,2],\"a\":[3]}",
        [
            Texts(&[Some("1"), Some("2")]),
            Refusal(GetIndexOutOfArray, 17),
            Refusal(DuplicateKey, 11),
        ],
    ),
    // What is below a member that counts no more plays no part.
    (
        &[&[Key("a"), Key("b")]],
        b"{\"a\":{\"b\":1},\"a\":{\"c\":2}}",
        [
            Texts(&[Some("1")]),
            Texts(&[None]),
            Refusal(DuplicateKey, 13),
        ],
    ),
    (
        &[&[Key("a"), Key("b")], &[Key("a"), Key("c")]],
        b"{\"a\":{\"b\":1,\"c\":2},\"a\":{\"c\":3}}",
        [
            Texts(&[Some("1"), Some("2")]),
            Texts(&[None, Some("3")]),
            Refusal(DuplicateKey, 19),
        ],
    ),
    (
        &[&[Key("a"), Key("b")]],
        b"{\"a\":{\"c\":1},\"a\":{\"b\":2}}",
        [
            Texts(&[None]),
            Texts(&[Some("2")]),
            Refusal(DuplicateKey, 13),
        ],
    ),
    // A key that is repeated at one depth, and at two.
    (
        &[&[Key("a"), Key("b")]],
        b"{\"a\":{\"b\":1,\"b\":2}}",
        [
            Texts(&[Some("1")]),
            Texts(&[Some("2")]),
            Refusal(DuplicateKey, 12),
        ],
    ),
    (
        &[&[Key("a")], &[Key("a"), Key("b")]],
        b"{\"a\":{\"b\":1,\"b\":2}}",
        [
            Texts(&[Some("{\"b\":1,\"b\":2}"), Some("1")]),
            Texts(&[Some("{\"b\":1,\"b\":2}"), Some("2")]),
            Refusal(DuplicateKey, 12),
        ],
    ),
    (
        &[&[Key("a"), Key("b")]],
        b"{\"a\":{\"b\":1,\"b\":2},\"a\":{\"b\":3,\"b\":4}}",
        [
            Texts(&[Some("1")]),
            Texts(&[Some("4")]),
            Refusal(DuplicateKey, 19),
        ],
    ),
    (
        &[&[Key("a"), Key("b")]],
        b"{\"a\":{\"b\":1,\"b\":2},\"a\":{\"b\":3}}",
        [
            Texts(&[Some("1")]),
            Texts(&[Some("3")]),
            Refusal(DuplicateKey, 19),
        ],
    ),
];

const OTHERS: [Row; 10] = [
    // A key is lacked beside one that is repeated, and then the root has to be whole.
    (
        &[&[Key("z")], &[Key("a")]],
        b"{\"a\":1,\"a\":2}",
        [
            Texts(&[None, Some("1")]),
            Texts(&[None, Some("2")]),
            Refusal(DuplicateKey, 7),
        ],
    ),
    (
        &[&[Key("z")]],
        b"{\"a\":1,\"a\":2}",
        [Texts(&[None]), Texts(&[None]), Texts(&[None])],
    ),
    (
        &[&[Key("z")]],
        b"{\"a\":1,\"a\":2",
        [
            Refusal(EofWhileParsing, 11),
            Refusal(EofWhileParsing, 11),
            Refusal(EofWhileParsing, 11),
        ],
    ),
    // An empty object, and what is none.
    (
        &[&[Key("a")]],
        b"{ }",
        [
            Refusal(GetInEmptyObject, 2),
            Refusal(GetInEmptyObject, 2),
            Refusal(GetInEmptyObject, 2),
        ],
    ),
    (
        &[&[Key("a")]],
        b"[1]",
        [
            Refusal(ARRAY_FOR_OBJECT, 2),
            Refusal(ARRAY_FOR_OBJECT, 2),
            Refusal(ARRAY_FOR_OBJECT, 2),
        ],
    ),
    (
        &[&[Key("a")]],
        b" 12",
        [
            Refusal(NUMBER_FOR_OBJECT, 2),
            Refusal(NUMBER_FOR_OBJECT, 2),
            Refusal(NUMBER_FOR_OBJECT, 2),
        ],
    ),
    // Bytes that are no UTF-8 after what is found, in it, and before it.
    (
        &[&[Key("a")]],
        b"{\"a\":1,\"b\":\"\xFF\"}",
        [
            Texts(&[Some("1")]),
            Texts(&[Some("1")]),
            Texts(&[Some("1")]),
        ],
    ),
    (
        &[&[Key("a")]],
        b"{\"a\":1,\"\xFF\":2}",
        [
            Texts(&[Some("1")]),
            Texts(&[Some("1")]),
            Texts(&[Some("1")]),
        ],
    ),
    (
        &[&[Key("a")]],
        b"{\"a\":1,\"a\":\"\xFF\"}",
        [
            Texts(&[Some("1")]),
            Refusal(InvalidUTF8, 12),
            Refusal(DuplicateKey, 7),
        ],
    ),
    (
        &[&[Key("a")]],
        b"{\"a\":\"\xFF\",\"a\":1}",
        [
            Refusal(InvalidUTF8, 6),
            Refusal(InvalidUTF8, 6),
            Refusal(DuplicateKey, 9),
        ],
    ),
];

// Checks what the paths of a tree are answered over an input under a rule.
fn check<'de, I: JsonInput<'de>>(
    rt: &impl Abort,
    alloc: Global,
    input: I,
    tree: &PointerTree,
    (rule, answer): (KeyRule, Answer<'_>),
) {
    match (get_many_with(alloc, input, tree, rule), answer) {
        (Ok(values), Texts(texts)) => {
            same(rt, values.len(), texts.len());
            for (value, text) in values.iter().zip(texts) {
                match (value, text) {
                    (Some(value), Some(text)) => same_at(rt, value.as_raw_str(), *text, rule),
                    (None, None) => {}
                    _ => panic!(rt; "another entry than {text:?} under {rule:?}"),
                }
            }
        }
        (Err(error), Refusal(code, offset)) => {
            same_at(rt, error.code(), code, rule);
            same_at(rt, error.offset(), offset, (code, rule));
        }
        (Ok(_), Refusal(code, offset)) => panic!(rt; "no {code} at {offset} under {rule:?}"),
        (Err(error), Texts(_)) => panic!(rt; "{error} under {rule:?}"),
    }
}

// Checks the answers under each rule.
fn check_each<'de, I: JsonInput<'de>>(
    rt: &impl Abort,
    alloc: Global,
    input: I,
    tree: &PointerTree,
    answers: &[Answer<'_>; 3],
) {
    let [first, last, refuse] = *answers;
    check(rt, alloc, input, tree, (KeyRule::First, first));
    check(rt, alloc, input, tree, (KeyRule::Last, last));
    check(rt, alloc, input, tree, (KeyRule::Refuse, refuse));
}

// Checks the answers of all rows.
fn check_rows(rt: &impl Abort, alloc: Global, rows: &[Row]) -> Result<(), Fail> {
    for (paths, bytes, answers) in rows {
        let tree = tree_of(rt, alloc, paths);
        check_each(rt, alloc, *bytes, &tree, answers);
        if let Ok(text) = std::str::from_utf8(bytes) {
            check_each(rt, alloc, text, &tree, answers);
        }
    }
    Ok(())
}

#[test]
fn answers_equal_keys_by_each_rule(rt: HostRuntime) -> Result<(), Fail> {
    check_rows(&rt, rt.alloc(), &EQUAL)
}

#[test]
fn reads_an_object_to_its_end_but_for_the_first_key(rt: HostRuntime) -> Result<(), Fail> {
    check_rows(&rt, rt.alloc(), &WHOLE)
}

#[test]
fn follows_the_member_that_counts(rt: HostRuntime) -> Result<(), Fail> {
    check_rows(&rt, rt.alloc(), &BELOW)
}

#[test]
fn answers_lacked_keys_kinds_and_utf8_by_each_rule(rt: HostRuntime) -> Result<(), Fail> {
    check_rows(&rt, rt.alloc(), &OTHERS)
}
