// That the calls succeed where memory is ample, and what they tell of worked examples.
use crate::fault::Fault;
use crate::get::{jihluka_get, jihluka_get_unchecked};
use crate::many::{jihluka_get_many, jihluka_get_many_unchecked};
use crate::span::Span;
use crate::status::{BAD_LINES, DOCUMENT_ERROR, OK, WRONG_COUNT};
use crate::text::jihluka_code_text;
use crate::validate::jihluka_validate;
use std::alloc::Global;
use std::process::Abort;

// The call that tells all values.
mod entries;
// The calls for paths that are kept.
mod lists;
// The calls that make a text.
mod texts;
// The calls that read one value.
mod values;

const NOWHERE: Span = Span { start: 9, end: 9 };

// The numbers of an error: the code, the line, the column and the offset.
type Numbers = (u32, usize, usize, usize);

const NONE: Numbers = (0, 0, 0, 0);

fn numbers(error: &Fault) -> Numbers {
    (error.code, error.line, error.column, error.offset)
}

// A text, a path, and what a call for it comes to: the status, the span and the error.
type Row = (&'static [u8], &'static [u8], u32, (usize, usize), Numbers);

const ROWS: [Row; 9] = [
    (b"{\"a\":[1, 20]}", b"[\"a\",1]", OK, (9, 11), NONE),
    (b" [ null ] x", b"[0]", OK, (3, 7), NONE),
    (b"7", b" [ ] ", OK, (0, 1), NONE),
    // A path that leads nowhere, and a text that is cut and one that is broken.
    (
        b"{\"a\":1}",
        b"[\"b\"]",
        DOCUMENT_ERROR,
        (9, 9),
        (22, 1, 7, 6),
    ),
    (b"[1,", b"[1]", DOCUMENT_ERROR, (9, 9), (3, 1, 3, 2)),
    (b"[1\n,nil]", b"[1]", DOCUMENT_ERROR, (9, 9), (7, 2, 3, 5)),
    // No path.
    (b"[1]", b"[0", BAD_LINES, (9, 9), NONE),
    (b"[1]", b"", BAD_LINES, (9, 9), NONE),
    (b"[1]", b"[0]\n[0]", BAD_LINES, (9, 9), NONE),
];

#[test]
fn finds_one_path(rt: HostRuntime) {
    for (text, path, status, (start, end), told) in ROWS {
        let mut span = NOWHERE;
        let mut error = Fault::at_line(0);
        assert_eq!(&rt;
            jihluka_get(rt.alloc(), text, path, &mut span, &mut error),
            status
        );
        assert_eq!(&rt; (span.start, span.end), (start, end), "{text:?}");
        assert_eq!(&rt; numbers(&error), told, "{text:?}");
    }
}

// Lines, the status of a call for them over one text, the spans and the error.
type Many = (&'static [u8], u32, [(usize, usize); 2], Numbers);

const TEXT: &[u8] = b"{\"a\":[1, 20], \"c\": \"x\"}";

const KEPT: [(usize, usize); 2] = [(9, 9), (9, 9)];

const MANY: [Many; 11] = [
    (b"[\"a\",1]\n[\"b\"]", OK, [(9, 11), (0, 0)], NONE),
    (b"[\"c\"]\n[]\n", OK, [(19, 22), (0, 23)], NONE),
    (b"[\"c\"]\n[]\n \n", OK, [(19, 22), (0, 23)], NONE),
    (b"[\"a\",2]\n[\"c\"]", DOCUMENT_ERROR, KEPT, (24, 1, 12, 11)),
    (
        b"[\"a\",\"b\"]\n[\"c\"]",
        DOCUMENT_ERROR,
        KEPT,
        (150, 1, 12, 11),
    ),
    // Too few and too many.
    (b"", WRONG_COUNT, KEPT, (0, 0, 0, 0)),
    (b"[\"a\"]", WRONG_COUNT, KEPT, (0, 1, 0, 0)),
    (b"[]\n[]\n[]", WRONG_COUNT, KEPT, (0, 3, 0, 0)),
    // A line that is no path, one that mixes with an earlier one, and a blank one among them.
    (b"[\"a\"]\n[\"b\"", BAD_LINES, KEPT, (0, 2, 0, 0)),
    (b"[\"a\"]\n[0]\n[]", BAD_LINES, KEPT, (0, 2, 0, 0)),
    (b"[\"a\"]\n\n[\"b\"]", BAD_LINES, KEPT, (0, 2, 0, 0)),
];

// Both calls for the lines tell the same.
fn check_many(rt: &impl Abort, alloc: Global, many: Many) {
    let (lines, status, [first, second], told) = many;
    let mut spans = [NOWHERE; 2];
    let mut error = Fault::at_line(0);
    assert_eq!(rt;
        jihluka_get_many(alloc, TEXT, lines, &mut spans, &mut error),
        status,
        "{lines:?}"
    );
    assert_eq!(rt; (spans[0].start, spans[0].end), first, "{lines:?}");
    assert_eq!(rt; (spans[1].start, spans[1].end), second, "{lines:?}");
    assert_eq!(rt; numbers(&error), told, "{lines:?}");
}

#[test]
fn finds_many_paths(rt: HostRuntime) {
    for many in MANY {
        check_many(&rt, rt.alloc(), many);
    }
}

// After `jihluka_validate` the calls without a second look tell the same.
fn check_unchecked(rt: &impl Abort, alloc: Global, many: Many) {
    let (lines, status, [first, second], told) = many;
    let mut spans = [NOWHERE; 2];
    let mut error = Fault::at_line(0);
    let valid = jihluka_validate(alloc, TEXT, &mut error);
    if valid != OK {
        panic!(rt; "{valid}");
    }
    assert_eq!(rt;
        jihluka_get_many_unchecked(alloc, TEXT, lines, &mut spans, &mut error),
        status,
        "{lines:?}"
    );
    assert_eq!(rt; (spans[0].start, spans[0].end), first, "{lines:?}");
    assert_eq!(rt; (spans[1].start, spans[1].end), second, "{lines:?}");
    assert_eq!(rt; numbers(&error), told, "{lines:?}");
    let mut span = NOWHERE;
    assert_eq!(rt;
        jihluka_get_unchecked(alloc, TEXT, b"[\"a\",1]", &mut span, &mut error),
        OK
    );
    assert_eq!(rt; (span.start, span.end), (9, 11));
}

#[test]
fn finds_them_without_a_second_look(rt: HostRuntime) {
    for many in MANY {
        check_unchecked(&rt, rt.alloc(), many);
    }
}

// A text and the numbers of why it is no document.
type Judged = (&'static [u8], Numbers);

const JUDGED: [Judged; 5] = [
    (b"", (3, 1, 1, 0)),
    (b"[1] 2", (19, 1, 5, 4)),
    (b"\n[1,]", (8, 2, 4, 4)),
    (b"\"\xff\"", (15, 1, 2, 1)),
    (b"{\"a\":1,}", (17, 1, 8, 7)),
];

#[test]
fn tells_why_a_text_is_no_document(rt: HostRuntime) {
    for (text, told) in JUDGED {
        let mut error = Fault::at_line(0);
        assert_eq!(&rt;
            jihluka_validate(rt.alloc(), text, &mut error),
            DOCUMENT_ERROR,
            "{text:?}"
        );
        assert_eq!(&rt; numbers(&error), told, "{text:?}");
    }
}

// A number, the length of its text, and a room of ten bytes after the call.
type Texted = (u32, usize, &'static [u8; 10]);

const TEXTS: [Texted; 10] = [
    (0, 0, b".........."),
    (1, 28, b"The schema"),
    (2, 43, b"io error w"),
    (29, 14, b"Expect a q"),
    (31, 13, b"out of mem"),
    (32, 27, b"Duplicate "),
    (33, 0, b".........."),
    (99, 0, b".........."),
    (132, 44, b"invalid ty"),
    (103, 0, b".........."),
];

#[test]
fn tells_texts(rt: HostRuntime) {
    for (number, length, told) in TEXTS {
        let mut room = *b"..........";
        assert_eq!(&rt;
            jihluka_code_text(rt.alloc(), number, &mut room),
            length,
            "{number}"
        );
        assert_eq!(&rt; &room, told, "{number}");
    }
}

// With ample memory only a number that no code has is told no text, and 128 bytes take each.
#[test]
fn tells_a_text_of_each_code(rt: HostRuntime) {
    for number in 0..200u32 {
        let mut room = [0; 1];
        let length = jihluka_code_text(rt.alloc(), number, &mut room);
        let plain = matches!(number, 1..=32);
        let mismatch = matches!(number, 100..=152) && number % 10 <= 2;
        assert_eq!(&rt; length > 0, plain || mismatch, "{number}");
        assert!(&rt; length <= 128, "{number}");
    }
}

#[test]
fn keeps_the_rest_of_the_room(rt: HostRuntime) {
    let mut room = *b"........................................................";
    let length = jihluka_code_text(rt.alloc(), 152, &mut room);
    assert_eq!(&rt; length, 46);
    assert_eq!(&rt;
        &room,
        b"invalid type: sequence, expected a JSON number.........."
    );
    let mut none = [];
    assert_eq!(&rt; jihluka_code_text(rt.alloc(), 29, &mut none), 14);
}
