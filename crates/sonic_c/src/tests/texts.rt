// What the calls that make a text write and tell of worked examples.
use super::{NONE, Numbers, numbers};
use crate::document::{jihluka_indent, jihluka_minify};
use crate::edit::jihluka_edit;
use crate::fault::Fault;
use crate::fill::jihluka_fill;
use crate::patch::jihluka_patch;
use crate::rows::jihluka_rows;
use crate::status::{
    BAD_LINES, BAD_NUMBER, BAD_OPERATION, BAD_PATCH, BAD_SCHEMA, BAD_WIDTH, DOCUMENT_ERROR,
    EDIT_REFUSED, INTO_CHILD, MISSING, OK, TEST_FAILED,
};
use std::alloc::Global;
use std::process::Abort;

// What a call comes to: the status, the length that is wanted, a room of sixteen bytes after it, and the
// error.
type Made = (u32, usize, &'static [u8; 16], Numbers);

const EMPTY: &[u8; 16] = b"................";

// What a caller has before a call.
#[derive(Drop)]
struct Cells {
    room: [u8; 16],
    wanted: usize,
    error: Fault,
}

impl Cells {
    fn new() -> Cells {
        Cells {
            room: *EMPTY,
            wanted: 9,
            error: Fault::at_line(0),
        }
    }

    fn minify(&mut self, alloc: Global, text: &[u8]) -> u32 {
        let Cells {
            room,
            wanted,
            error,
        } = self;
        jihluka_minify(alloc, text, room, wanted, error)
    }

    fn indent(&mut self, alloc: Global, text: &[u8], width: usize) -> u32 {
        let Cells {
            room,
            wanted,
            error,
        } = self;
        jihluka_indent(alloc, text, width, room, wanted, error)
    }

    fn patch(&mut self, alloc: Global, text: &[u8], patch: &[u8]) -> u32 {
        let Cells {
            room,
            wanted,
            error,
        } = self;
        jihluka_patch(alloc, text, patch, room, wanted, error)
    }

    fn edit(&mut self, alloc: Global, text: &[u8], edits: &[u8]) -> u32 {
        let Cells {
            room,
            wanted,
            error,
        } = self;
        jihluka_edit(alloc, text, edits, room, wanted, error)
    }

    fn fill(&mut self, alloc: Global, text: &[u8], schema: &[u8]) -> u32 {
        let Cells {
            room,
            wanted,
            error,
        } = self;
        jihluka_fill(alloc, text, schema, room, wanted, error)
    }

    fn rows(&mut self, alloc: Global, lines: &[u8], paths: &[u8], before: u64) -> u32 {
        let Cells {
            room,
            wanted,
            error,
        } = self;
        jihluka_rows(alloc, lines, paths, before, room, wanted, error)
    }

    // The call came to this status, and left the cells so.
    fn check(&self, rt: &impl Abort, found: u32, made: Made) {
        let (status, wanted, room, told) = made;
        assert_eq!(rt; (found, self.wanted), (status, wanted));
        assert_eq!(rt; &self.room, room);
        assert_eq!(rt; numbers(&self.error), told);
    }
}

const MINIFIED: [(&[u8], Made); 8] = [
    (b" null\n", (OK, 4, b"null............", NONE)),
    (b"[ 1 , \"a b\" ]", (OK, 9, b"[1,\"a b\"].......", NONE)),
    (
        b"{ \"\\u0061\" : 1.50 , \"a\" : { } }",
        (OK, 22, b"{\"\\u0061\":1.50,\"", NONE),
    ),
    (b"[0,1,2,3,4,5,6,7]", (OK, 17, b"[0,1,2,3,4,5,6,7", NONE)),
    (b"", (DOCUMENT_ERROR, 9, EMPTY, (3, 1, 1, 0))),
    (b"[1 ,]", (DOCUMENT_ERROR, 9, EMPTY, (8, 1, 5, 4))),
    (b"[1]\n2", (DOCUMENT_ERROR, 9, EMPTY, (19, 2, 1, 4))),
    (b"\"\xff\"", (DOCUMENT_ERROR, 9, EMPTY, (15, 1, 2, 1))),
];

#[test]
fn minifies(rt: HostRuntime) {
    for &(text, made) in &MINIFIED {
        let mut cells = Cells::new();
        let status = cells.minify(rt.alloc(), text);
        cells.check(&rt, status, made);
    }
}

const INDENTED: [(&[u8], usize, Made); 7] = [
    (b"[1 ,2]", 0, (OK, 8, b"[\n1,\n2\n]........", NONE)),
    (b"[1 ,2]", 1, (OK, 10, b"[\n 1,\n 2\n]......", NONE)),
    (b"{\"a\" :[ ]}", 2, (OK, 13, b"{\n  \"a\": []\n}...", NONE)),
    (b"[1]", 8, (OK, 13, b"[\n        1\n]...", NONE)),
    (b"[[1]]", 8, (OK, 41, b"[\n        [\n    ", NONE)),
    (b"[1]", 9, (BAD_WIDTH, 9, EMPTY, NONE)),
    (b"[1", 2, (DOCUMENT_ERROR, 9, EMPTY, (3, 1, 2, 1))),
];

#[test]
fn indents(rt: HostRuntime) {
    for &(text, width, made) in &INDENTED {
        let mut cells = Cells::new();
        let status = cells.indent(rt.alloc(), text, width);
        cells.check(&rt, status, made);
    }
}

#[test]
fn asks_for_the_length_alone(rt: HostRuntime) {
    let mut wanted = 9;
    let mut error = Fault::at_line(0);
    let mut none = [];
    let status = jihluka_minify(rt.alloc(), b"[1, 2]", &mut none, &mut wanted, &mut error);
    assert_eq!(&rt; (status, wanted), (OK, 5));
    let status = jihluka_indent(rt.alloc(), b"[1, 2]", 4, &mut none, &mut wanted, &mut error);
    assert_eq!(&rt; (status, wanted), (OK, 16));
}

// A document, what changes it, and what a call for it comes to.
type Changed = (&'static [u8], &'static [u8], Made);

// The numbers of an operation, or of a line.
const FIRST: Numbers = (0, 1, 0, 0);

const PATCHED: [Changed; 15] = [
    (b" [ 1, 2] ", b"[]", (OK, 7, b"[ 1, 2].........", NONE)),
    (
        b"{\"a\" : 1}",
        b"[{\"op\":\"add\",\"path\":\"/b\",\"value\":[ 2 ]}]",
        (OK, 17, b"{\"a\":1,\"b\":[ 2 ]", NONE),
    ),
    (
        b"{\"a\":1}",
        b"[{\"op\":\"remove\",\"path\":\"/a\"}]",
        (OK, 2, b"{}..............", NONE),
    ),
    // No patch: cut, broken text, no array, no operation, no pointer, and the second alone.
    (b"[", b"[", (BAD_PATCH, 9, EMPTY, (3, 1, 1, 0))),
    (b"1", b"\n\"\xff\"", (BAD_PATCH, 9, EMPTY, (15, 2, 2, 2))),
    (b"1", b"{}", (BAD_PATCH, 9, EMPTY, NONE)),
    (
        b"1",
        b"[{\"op\":\"remove\"}]",
        (BAD_OPERATION, 9, EMPTY, NONE),
    ),
    (
        b"1",
        b"[{\"op\":\"remove\",\"path\":\"a\"}]",
        (BAD_OPERATION, 9, EMPTY, NONE),
    ),
    (
        b"[",
        b"[{\"op\":\"remove\",\"path\":\"\"},1]",
        (BAD_OPERATION, 9, EMPTY, FIRST),
    ),
    // No document.
    (b"[1", b"[]", (DOCUMENT_ERROR, 9, EMPTY, (3, 1, 2, 1))),
    (
        b"\"\xff\"",
        b"[]",
        (DOCUMENT_ERROR, 9, EMPTY, (15, 1, 2, 1)),
    ),
    // Operations that aren't made.
    (
        b"{\"a\":1}",
        b"[{\"op\":\"remove\",\"path\":\"/b\"}]",
        (MISSING, 9, EMPTY, NONE),
    ),
    (
        b"[1]",
        b"[{\"op\":\"test\",\"path\":\"/0\",\"value\":1},{\"op\":\"test\",\"path\":\"\",\"value\":1}]",
        (TEST_FAILED, 9, EMPTY, FIRST),
    ),
    (
        b"[[1]]",
        b"[{\"op\":\"move\",\"from\":\"/0\",\"path\":\"/0/0\"}]",
        (INTO_CHILD, 9, EMPTY, NONE),
    ),
    (
        b"[1]",
        b"[{\"op\":\"add\",\"path\":\"/-\",\"value\":2},{\"op\":\"remove\",\"path\":\"/2\"}]",
        (MISSING, 9, EMPTY, FIRST),
    ),
];

#[test]
fn patches(rt: HostRuntime) {
    for &(text, patch, made) in &PATCHED {
        let mut cells = Cells::new();
        let status = cells.patch(rt.alloc(), text, patch);
        cells.check(&rt, status, made);
    }
}

const EDITED: [Changed; 9] = [
    (b" [ 1 ] ", b"", (OK, 5, b"[ 1 ]...........", NONE)),
    (
        b"{\"a\":[1]}",
        b"[\"push\",[\"a\"],2]",
        (OK, 11, b"{\"a\":[1,2]}.....", NONE),
    ),
    (
        b"[0]",
        b"[\"set\",[0],{\"k\":1}]\n[\"take\",[0,\"k\"]]\n\n",
        (OK, 12, b"[{\"k\":null}]....", NONE),
    ),
    // Lines that say none, and a blank one among them.
    (b"[", b"[\"set\"]", (BAD_LINES, 9, EMPTY, FIRST)),
    (
        b"[0]",
        b"[\"take\",[]]\n[\"\xff\",[]]",
        (BAD_LINES, 9, EMPTY, (0, 2, 0, 0)),
    ),
    (
        b"[0]",
        b"[\"take\",[]]\n\n[\"take\",[]]",
        (BAD_LINES, 9, EMPTY, (0, 2, 0, 0)),
    ),
    (
        b"[0",
        b"[\"take\",[]]",
        (DOCUMENT_ERROR, 9, EMPTY, (3, 1, 2, 1)),
    ),
    (b"[0]", b"[\"push\",[0],1]", (EDIT_REFUSED, 9, EMPTY, FIRST)),
    (
        b"[0]",
        b"[\"push\",[],1]\n[\"take\",[2]]",
        (EDIT_REFUSED, 9, EMPTY, (0, 2, 0, 0)),
    ),
];

#[test]
fn edits(rt: HostRuntime) {
    for &(text, lines, made) in &EDITED {
        let mut cells = Cells::new();
        let status = cells.edit(rt.alloc(), text, lines);
        cells.check(&rt, status, made);
    }
}

const FILLED: [Changed; 8] = [
    (
        b"{\"b\" : 2, \"c\":3}",
        b" {\"a\":1,\"b\":0} ",
        (OK, 13, b"{\"a\":1,\"b\":2}...", NONE),
    ),
    (b"[1, 2] x", b"{}", (OK, 5, b"[1,2]...........", NONE)),
    (
        b"{\"o\":{\"k\":\"\\u0041\"}}",
        b"{\"o\":{\"k\":0,\"l\":1}}",
        (OK, 21, b"{\"o\":{\"k\":\"A\",\"l", NONE),
    ),
    // No schema.
    (b"[", b"{", (BAD_SCHEMA, 9, EMPTY, (3, 1, 1, 0))),
    (
        b"1",
        b"{\"a\":\"\xff\"}",
        (BAD_SCHEMA, 9, EMPTY, (15, 1, 7, 6)),
    ),
    (b"1", b" [1]", (BAD_SCHEMA, 9, EMPTY, NONE)),
    // No value.
    (b"{\"a\":}", b"{}", (DOCUMENT_ERROR, 9, EMPTY, (8, 1, 6, 5))),
    (
        b"\"\xff\"",
        b"{}",
        (DOCUMENT_ERROR, 9, EMPTY, (15, 1, 2, 1)),
    ),
];

#[test]
fn fills(rt: HostRuntime) {
    for &(text, schema, made) in &FILLED {
        let mut cells = Cells::new();
        let status = cells.fill(rt.alloc(), text, schema);
        cells.check(&rt, status, made);
    }
}

// Lines, paths, how many lines come before, and what a call for the rows comes to.
type Lined = (&'static [u8], &'static [u8], u64, Made);

const LINED: [Lined; 13] = [
    (
        b"{\"id\":7}\n",
        b"[\"id\"]",
        0,
        (OK, 4, b"1 7\n............", NONE),
    ),
    // The last line ends with the stream, and a blank one has no row.
    (
        b"\n7\n \r\n[ ]",
        b"[]",
        2,
        (OK, 10, b"1 7\n3 [ ]\n......", NONE),
    ),
    (b"", b"[]", 0, (OK, 0, EMPTY, NONE)),
    // Two paths, of which one lacks its key.
    (
        b"{\"b\":\"x\"}",
        b"[\"a\"]\n[\"b\"]\n",
        0,
        (OK, 8, b"-\t3 \"x\"\n........", NONE),
    ),
    // No path, and no line of white space alone.
    (b"1\n[", b"", 0, (OK, 2, b"\n\n..............", NONE)),
    // Lines that have no answer, with their numbers.
    (b"1\n[", b"[]", 0, (OK, 30, b"1 1\n! 2 eof EofW", NONE)),
    (b"[", b"[]", 8, (OK, 26, b"! 9 eof EofWhile", NONE)),
    (b"1", b"[0]", 98, (OK, 20, b"! 99 type Messag", NONE)),
    // No paths.
    (b"1", b"[", 0, (BAD_LINES, 9, EMPTY, FIRST)),
    (
        b"1",
        b"[0]\n[\"a\"]",
        0,
        (BAD_LINES, 9, EMPTY, (0, 2, 0, 0)),
    ),
    (b"1", b"[0]\n\n[1]", 0, (BAD_LINES, 9, EMPTY, (0, 2, 0, 0))),
    // The most lines that may come before, and one more.
    (b" ", b"[]", u64::MAX - 2, (OK, 0, EMPTY, NONE)),
    (b" ", b"[", u64::MAX - 1, (BAD_NUMBER, 9, EMPTY, NONE)),
];

#[test]
fn makes_rows(rt: HostRuntime) {
    for &(lines, paths, before, made) in &LINED {
        let mut cells = Cells::new();
        let status = cells.rows(rt.alloc(), lines, paths, before);
        cells.check(&rt, status, made);
    }
}
