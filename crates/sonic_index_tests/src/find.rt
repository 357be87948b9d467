// Where paths lead by an index, and the values there: worked examples.
use crate::same::same_at;
use sonic_index::JsonIndex;
use sonic_lazy::JsonValueTrait;
use sonic_pointer::PointerNode;
use sonic_pointer::PointerNode::{Index, Key};
use std::alloc::Global;
use std::process::Abort;

// A path, and the text of the value to which it leads.
type Row = (&'static [PointerNode<'static>], Option<&'static str>);

// A document, and paths over it.
const EXAMPLES: [(&str, &[Row]); 5] = [
    (
        " {\"a\":[1,{}]} ",
        &[
            (&[], Some("{\"a\":[1,{}]}")),
            (&[Key("a")], Some("[1,{}]")),
            (&[Key("a"), Index(0)], Some("1")),
            (&[Key("a"), Index(1)], Some("{}")),
            (&[Key("a"), Index(2)], None),
            (&[Key("a"), Key("a")], None),
            (&[Key("a"), Index(1), Key("a")], None),
            (&[Key("b")], None),
            (&[Index(0)], None),
        ],
    ),
    (
        "{\"b\":{\"a\":0},\"a\":1,\"\\u0061\":2,\"\":[[3],4]}",
        &[
            (&[Key("a")], Some("1")),
            (&[Key("b"), Key("a")], Some("0")),
            (&[Key("")], Some("[[3],4]")),
            (&[Key(""), Index(0), Index(0)], Some("3")),
            (&[Key(""), Index(1)], Some("4")),
            (&[Key(""), Index(1), Index(0)], None),
        ],
    ),
    (
        "[[[[]],[]],\"\\n\",[1,2,3,4,5,6,7,8],\"x\"]",
        &[
            (&[Index(0), Index(0)], Some("[[]]")),
            (&[Index(0), Index(1)], Some("[]")),
            (&[Index(0), Index(1), Index(0)], None),
            (&[Index(1)], Some("\"\\n\"")),
            (&[Index(2), Index(7)], Some("8")),
            (&[Index(2), Index(8)], None),
            (&[Index(3)], Some("\"x\"")),
            (&[Index(4)], None),
        ],
    ),
    ("[]", &[(&[], Some("[]")), (&[Index(0)], None)]),
    ("7", &[(&[], Some("7")), (&[Key("7")], None)]),
];

#[test]
fn finds_what_paths_lead_to(rt: HostRuntime) {
    for &(text, rows) in &EXAMPLES {
        check(&rt, rt.alloc(), text, rows);
    }
}

fn check(rt: &impl Abort, alloc: Global, text: &'static str, rows: &[Row]) {
    let index = JsonIndex::build(alloc, text).expect(rt, "a valid document");
    for &(path, wanted) in rows {
        check_path(rt, &index, path, wanted);
    }
}

fn check_path(
    rt: &impl Abort,
    index: &JsonIndex<'_>,
    path: &[PointerNode<'_>],
    wanted: Option<&str>,
) {
    let Some(number) = index.find(path) else {
        same_at(rt, None, wanted, wanted);
        return;
    };
    assert!(rt; number < index.len());
    let value = index.value(number);
    same_at(rt, Some(value.as_raw_str()), wanted, number);
}

// A path in `{"a":[1,{}]}`, and the number of the value to which it leads.
const NUMBERS: [(&[PointerNode<'static>], Option<usize>); 7] = [
    (&[Key("a"), Index(1)], Some(3)),
    (&[Key("b")], None),
    (&[], Some(0)),
    (&[Key("a")], Some(1)),
    (&[Key("a"), Index(0)], Some(2)),
    (&[Key("a"), Index(2)], None),
    (&[Index(0)], None),
];

#[test]
fn finds_the_numbers_of_values(rt: HostRuntime) {
    let index = JsonIndex::build(rt.alloc(), "{\"a\":[1,{}]}").expect(&rt, "a valid document");
    for &(path, wanted) in &NUMBERS {
        same_at(&rt, index.find(path), wanted, path);
    }
}
