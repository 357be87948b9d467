// What the call that tells all values tells of worked examples.
use super::{NONE, Numbers, numbers};
use crate::fault::Fault;
use crate::index::{Entry, jihluka_index};
use crate::span::Span;
use crate::status::{DOCUMENT_ERROR, OK};
use std::alloc::Global;
use std::process::Abort;

// A value: where it is, where its key is, the number of that around it, its own in an array, and its type.
type Value = ((usize, usize), (usize, usize), usize, usize, u32);

// What is in the room where nothing was written.
const KEPT: Value = ((9, 9), (9, 9), 9, 9, 9);

const ROOM: usize = 4;

// A text, and what a call for it comes to: the status, the number of values, the first four, and the error.
type Row = (&'static [u8], u32, usize, [Value; ROOM], Numbers);

const NO_KEY: (usize, usize) = (0, 0);

const INDEXED: [Row; 9] = [
    (
        b" null ",
        OK,
        1,
        [((1, 5), NO_KEY, 0, 0, 0), KEPT, KEPT, KEPT],
        NONE,
    ),
    (
        b"[ ]",
        OK,
        1,
        [((0, 3), NO_KEY, 0, 0, 5), KEPT, KEPT, KEPT],
        NONE,
    ),
    (
        b"[true, \"x\"]",
        OK,
        3,
        [
            ((0, 11), NO_KEY, 0, 0, 5),
            ((1, 5), NO_KEY, 0, 0, 1),
            ((7, 10), NO_KEY, 0, 1, 3),
            KEPT,
        ],
        NONE,
    ),
    // As many as there is room for, of which one has a key.
    (
        b"{\"a\":[1,{}]}",
        OK,
        4,
        [
            ((0, 12), NO_KEY, 0, 0, 4),
            ((5, 11), (1, 4), 0, 0, 5),
            ((6, 7), NO_KEY, 1, 0, 2),
            ((8, 10), NO_KEY, 1, 1, 4),
        ],
        NONE,
    ),
    // More of them, and equal keys.
    (
        b"{\"\\n\":0,\"\\n\":{\"a\":1,\"b\":2}}",
        OK,
        5,
        [
            ((0, 27), NO_KEY, 0, 0, 4),
            ((6, 7), (1, 5), 0, 0, 2),
            ((13, 26), (8, 12), 0, 0, 4),
            ((18, 19), (14, 17), 2, 0, 2),
        ],
        NONE,
    ),
    // No document.
    (b"", DOCUMENT_ERROR, 7, [KEPT; ROOM], (3, 1, 1, 0)),
    (b"[1,\n]", DOCUMENT_ERROR, 7, [KEPT; ROOM], (8, 2, 1, 4)),
    (b"[1]2", DOCUMENT_ERROR, 7, [KEPT; ROOM], (19, 1, 4, 3)),
    (b"\"\xff\"", DOCUMENT_ERROR, 7, [KEPT; ROOM], (15, 1, 2, 1)),
];

fn value_of(entry: &Entry) -> Value {
    let Entry {
        value,
        key,
        parent,
        position,
        kind,
    } = *entry;
    (
        (value.start, value.end),
        (key.start, key.end),
        parent,
        position,
        kind,
    )
}

// The call for a text comes to this, with room for so many entries, or for all.
fn check(rt: &impl Abort, alloc: Global, row: &Row, room: usize) {
    let (text, status, wanted, values, told) = *row;
    let empty = Entry {
        value: Span { start: 9, end: 9 },
        key: Span { start: 9, end: 9 },
        parent: 9,
        position: 9,
        kind: 9,
    };
    let mut entries = [empty; ROOM];
    let mut found = 7;
    let room = room.min(ROOM);
    let mut error = Fault::at_line(0);
    let result = jihluka_index(alloc, text, &mut entries[..room], &mut found, &mut error);
    assert_eq!(rt; (result, found), (status, wanted), "{text:?}");
    assert_eq!(rt; numbers(&error), told, "{text:?}");
    for (i, entry) in entries.iter().enumerate() {
        let wanted = if i < room { values[i] } else { KEPT };
        assert_eq!(rt; value_of(entry), wanted, "{text:?}");
    }
}

#[test]
fn tells_all_values(rt: HostRuntime) {
    for row in &INDEXED {
        check(&rt, rt.alloc(), row, ROOM);
        check(&rt, rt.alloc(), row, 2);
        check(&rt, rt.alloc(), row, 0);
    }
}
