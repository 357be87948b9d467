// What calls for paths that are kept tell of worked examples.
use super::{NONE, NOWHERE, Numbers, numbers};
use crate::fault::Fault;
use crate::keep::{jihluka_paths_free, jihluka_paths_new};
use crate::paths::Paths;
use crate::span::Span;
use crate::status::{BAD_LINES, BAD_RULE, DOCUMENT_ERROR, OK, WRONG_COUNT};
use crate::validate::jihluka_validate;
use crate::with::{jihluka_get_many_with, jihluka_get_many_with_unchecked};
use std::alloc::Global;
use std::process::Abort;

const LINES: &[u8] = b"[\"a\"]\n[\"b\",1]";

type Spans = [(usize, usize); 2];

const KEPT: Spans = [(9, 9), (9, 9)];

// A text, and what the calls for the lines come to: the status, the spans and the error.
type Row = (&'static [u8], u32, Spans, Numbers);

// By the first of equal keys. An error, and what was found before, leave nothing for the next text.
const FIRST: [Row; 5] = [
    (b"{\"b\":[1,22],\"a\":3}", OK, [(16, 17), (8, 10)], NONE),
    (b"[]", DOCUMENT_ERROR, KEPT, (150, 1, 2, 1)),
    (b"{\"b\":[{},{}]}", OK, [(0, 0), (9, 11)], NONE),
    (b"{\"b\":[1]}", DOCUMENT_ERROR, KEPT, (24, 1, 8, 7)),
    (
        b"{\"a\":1,\"a\":2,\"b\":[0,5]}",
        OK,
        [(5, 6), (20, 21)],
        NONE,
    ),
];

// By the last one.
const LAST: [Row; 2] = [
    (
        b"{\"a\":1,\"a\":2,\"b\":[0,5]}",
        OK,
        [(11, 12), (20, 21)],
        NONE,
    ),
    (
        b"{\"b\":[0,5],\"b\":7,\"a\":1}",
        DOCUMENT_ERROR,
        KEPT,
        (121, 1, 16, 15),
    ),
];

// Where there may be one alone.
const REFUSE: [Row; 2] = [
    (b"{\"b\":[0,5]}", OK, [(0, 0), (8, 9)], NONE),
    (
        b"{\"a\":1,\"a\":2,\"b\":[0,5]}",
        DOCUMENT_ERROR,
        KEPT,
        (32, 1, 8, 7),
    ),
];

// Keeps the paths that lines say, under a rule.
fn keep(rt: &impl Abort, alloc: Global, lines: &[u8], rule: u32, paths: &mut Paths) {
    let mut error = Fault::at_line(0);
    assert_eq!(rt;
        jihluka_paths_new(alloc, lines, rule, paths, &mut error),
        OK
    );
    assert_eq!(rt; numbers(&error), NONE);
}

// What one call tells.
fn check_told(rt: &impl Abort, told: u32, spans: &[Span; 2], error: &Fault, row: Row) {
    let (text, status, [first, second], why) = row;
    assert_eq!(rt; told, status, "{text:?}");
    assert_eq!(rt; (spans[0].start, spans[0].end), first, "{text:?}");
    assert_eq!(rt; (spans[1].start, spans[1].end), second, "{text:?}");
    assert_eq!(rt; numbers(error), why, "{text:?}");
}

// Both calls tell the row's text so, and a valid one without a second look.
fn check_row(rt: &impl Abort, alloc: Global, paths: &mut Paths, row: Row) {
    let text = row.0;
    let mut spans = [NOWHERE; 2];
    let mut error = Fault::at_line(0);
    let told = jihluka_get_many_with(alloc, text, paths, &mut spans, &mut error);
    check_told(rt, told, &spans, &error, row);
    if jihluka_validate(alloc, text, &mut error) != OK {
        return;
    }
    let mut spans = [NOWHERE; 2];
    let mut error = Fault::at_line(0);
    let told = jihluka_get_many_with_unchecked(alloc, text, paths, &mut spans, &mut error);
    check_told(rt, told, &spans, &error, row);
}

#[test]
fn finds_kept_paths_under_each_rule(rt: HostRuntime) {
    let alloc = rt.alloc();
    let mut paths = Paths::none(alloc);
    keep(&rt, alloc, LINES, 0, &mut paths);
    for row in FIRST {
        check_row(&rt, alloc, &mut paths, row);
    }
    keep(&rt, alloc, LINES, 1, &mut paths);
    for row in LAST {
        check_row(&rt, alloc, &mut paths, row);
    }
    keep(&rt, alloc, LINES, 2, &mut paths);
    for row in REFUSE {
        check_row(&rt, alloc, &mut paths, row);
    }
    jihluka_paths_free(alloc, &mut paths);
}

// What is refused leaves what was kept.
#[test]
fn refuses_lines_and_rules(rt: HostRuntime) {
    let alloc = rt.alloc();
    let mut paths = Paths::none(alloc);
    keep(&rt, alloc, LINES, 0, &mut paths);
    let mut error = Fault::at_line(0);
    for (lines, rule, status, told) in [
        (b"[]\n[1".as_slice(), 0, BAD_LINES, (0, 2, 0, 0)),
        (b"[]\n\n[1]", 2, BAD_LINES, (0, 2, 0, 0)),
        (b"[]", 3, BAD_RULE, (0, 2, 0, 0)),
    ] {
        assert_eq!(&rt;
            jihluka_paths_new(alloc, lines, rule, &mut paths, &mut error),
            status
        );
        assert_eq!(&rt; numbers(&error), told);
        check_row(&rt, alloc, &mut paths, FIRST[0]);
    }
}

// No paths are kept before the first call, after the last one, and of no lines.
#[test]
fn finds_nothing_by_no_paths(rt: HostRuntime) {
    let alloc = rt.alloc();
    let mut paths = Paths::none(alloc);
    let mut error = Fault::at_line(7);
    for _ in 0..2 {
        let mut spans = [NOWHERE; 1];
        assert_eq!(&rt;
            jihluka_get_many_with(alloc, b"[", &mut paths, &mut spans, &mut error),
            WRONG_COUNT
        );
        assert_eq!(&rt; numbers(&error), (0, 0, 0, 0));
        assert_eq!(&rt;
            jihluka_get_many_with(alloc, b"[", &mut paths, &mut [], &mut error),
            OK
        );
        jihluka_paths_free(alloc, &mut paths);
    }
    keep(&rt, alloc, b"\n", 1, &mut paths);
    assert_eq!(&rt;
        jihluka_get_many_with(alloc, b"[", &mut paths, &mut [], &mut error),
        OK
    );
}
