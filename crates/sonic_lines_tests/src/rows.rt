// Worked examples of rows: each line by the grammar, by hand, at once and in pieces.
use crate::same::same_at;
use sonic_lines::{Rows, append_rows, append_rows_each};
use sonic_pointer::PointerNode::{Index, Key};
use sonic_pointer::{PointerNode, PointerTree};
use std::alloc::Global;
use std::process::Abort;
use std::test::Fail;

// The paths of a tree.
pub(crate) type Paths = &'static [&'static [PointerNode<'static>]];

pub(crate) fn tree_of(rt: &impl Abort, alloc: Global, paths: Paths) -> PointerTree {
    let mut tree = PointerTree::new(alloc);
    for path in paths {
        same_at(rt, tree.add_path(alloc, *path), Ok(()), path);
    }
    tree
}

// The paths, a stream, its rows, and whether one of them is an error.
type Example = (Paths, &'static [u8], &'static [u8], bool);

const ID: Paths = &[&[Key("id")]];

const ID_AND_FIRST: Paths = &[&[Key("id")], &[Key("t"), Index(0)]];

const EXAMPLES: [Example; 24] = [
    (
        ID_AND_FIRST,
        b"{\"id\":7,\"t\":[\"x\"]}\n{\"id\":8}\n\n{\"id\":tru}",
        b"1 7\t3 \"x\"\n1 8\t-\n! 4 syntax InvalidLiteral 9\n",
        true,
    ),
    // Nothing comes.
    (ID, b"", b"", false),
    (&[], b"", b"", false),
    // The last line ends with a line feed, or with the stream.
    (ID, b"{\"id\":1}\n{\"id\":2}\n", b"1 1\n1 2\n", false),
    (ID, b"{\"id\":1}\n{\"id\":2}", b"1 1\n1 2\n", false),
    (ID, b"{\"id\":1}\n{\"id\":2}\n\n", b"1 1\n1 2\n", false),
    (
        ID,
        b"{\"id\":1}\n{",
        b"1 1\n! 2 eof EofWhileParsing 0\n",
        true,
    ),
    // Blank lines count, and have no row.
    (
        ID,
        b"\n \n\t\n\r\n \t\r \n{\n \r\t",
        b"! 6 eof EofWhileParsing 0\n",
        true,
    ),
    (ID, b"\n\n{\"id\":1}\n\n", b"1 1\n", false),
    // Other control bytes are no white space.
    (
        ID,
        b"\x0b\n\x0c\n",
        b"! 1 syntax InvalidJsonValue 0\n! 2 syntax InvalidJsonValue 0\n",
        true,
    ),
    // A line may end with a carriage return, which is white space.
    (
        ID,
        b"{\"id\":1}\r\n\r\n{\"id\":2}\r\n",
        b"1 1\n1 2\n",
        false,
    ),
    // No path asks nothing of a line, but that it isn't blank.
    (&[], b"1\n\n \n[\n\"\\x\"\n\xff", b"\n\n\n\n", false),
    // A line that is broken has no part in the others.
    (
        ID,
        b"{\"id\":1}\n{\"id\":}\n{\"id\":3}\n[\n{\"id\":5}",
        b"1 1\n! 2 syntax InvalidJsonValue 6\n1 3\n! 4 eof EofWhileParsing 0\n1 5\n",
        true,
    ),
    // So it is with UTF-8, as far as it is needed.
    (
        ID,
        b"{\"id\":\"\xc3\xa9\"}\n{\"id\":\"\xff\"}\n{\"id\":\"\xc3\"}\n{\"id\":4,\"x\":\"\xff\"}\n",
        b"4 \"\xc3\xa9\"\n! 2 syntax InvalidUTF8 7\n! 3 syntax InvalidUTF8 7\n1 4\n",
        true,
    ),
    // A value's text is as it is written, with a tab in it too.
    (
        ID_AND_FIRST,
        b" {\"t\" : [ {\"a\":\t[1, 2]} ] , \"id\" : -1.50e2 } ",
        b"7 -1.50e2\t13 {\"a\":\t[1, 2]}\n",
        false,
    ),
    // Keys are compared as what they denote, and the first of equal ones counts.
    (
        ID,
        b"{\"\\u0069d\":\"\\n\",\"id\":2}",
        b"4 \"\\n\"\n",
        false,
    ),
    // What follows a value that was found plays no part.
    (ID, b"{\"id\":1 x\n{\"x\":1} x", b"1 1\n-\n", false),
    // One path that leads nowhere is the line's error.
    (
        ID_AND_FIRST,
        b"{\"id\":1,\"t\":[]}",
        b"! 1 not-found GetInEmptyArray 13\n",
        true,
    ),
    (ID_AND_FIRST, b"{\"t\":1}", b"! 1 type Message 5\n", true),
    (ID, b"{}", b"! 1 not-found GetInEmptyObject 1\n", true),
    (
        &[&[Index(2)]],
        b"[0,1]\n[0,1,2]",
        b"! 1 not-found GetIndexOutOfArray 4\n1 2\n",
        true,
    ),
    // Paths may repeat, and the whole value may be asked for.
    (
        &[&[], &[Index(0)], &[Index(0)]],
        b"[1, 2 ] \n[[]]",
        b"7 [1, 2 ]\t1 1\t1 1\n4 [[]]\t2 []\t2 []\n",
        false,
    ),
    // Line feeds that are escaped end no line, and one in a string does.
    (ID, b"{\"id\":\"a\\nb\"}", b"6 \"a\\nb\"\n", false),
    (
        ID,
        b"{\"id\":\"a\nb\"}",
        b"! 1 eof EofWhileParsing 7\n! 2 syntax InvalidJsonValue 0\n",
        true,
    ),
];

const LEVEL_AND_STATUS: Paths = &[&[Key("level")], &[Key("http"), Key("status")]];

// Rows in which each path is told where it leads by itself.
const EACH: [Example; 8] = [
    (
        LEVEL_AND_STATUS,
        b"{\"level\":\"info\",\"http\":null}\n{\"http\":{\"status\":200}}",
        b"6 \"info\"\t!Message\n-\t3 200\n",
        false,
    ),
    // An empty object lacks a key, as any other does.
    (ID, b"{}", b"-\n", false),
    (
        ID_AND_FIRST,
        b"{\"id\":1,\"t\":[]}\n\n{\"t\":1}\n",
        b"1 1\t!GetInEmptyArray\n-\t!Message\n",
        false,
    ),
    (
        &[&[Index(2)], &[Index(0)]],
        b"[0,1]\n[0,1,2]\n1",
        b"!GetIndexOutOfArray\t1 0\n1 2\t1 0\n!Message\t!Message\n",
        false,
    ),
    // What follows the last byte that a path needs plays no part, unless a key is lacked.
    (
        ID_AND_FIRST,
        b"{\"t\":1,\"id\":2 x\n{\"t\":1 x",
        b"1 2\t!Message\n! 2 syntax ExpectedObjectCommaOrEnd 7\n",
        true,
    ),
    (
        ID_AND_FIRST,
        b"{\"t\":\"\xff\",\"id\":2}\n{\"id\":",
        b"! 1 syntax InvalidUTF8 6\n! 2 eof EofWhileParsing 5\n",
        true,
    ),
    (&[], b"1\n[", b"\n\n", false),
    (ID, b"", b"", false),
];

#[test]
fn tells_each_path_by_itself(rt: HostRuntime) -> Result<(), Fail> {
    let alloc = rt.alloc();
    for &(paths, stream, rows, has_error) in &EACH {
        let tree = tree_of(&rt, alloc, paths);
        let mut out = Vec::new(alloc);
        let some = append_rows_each(alloc, &tree, 0, stream, &mut out)?;
        same_at(&rt, out.as_slice(), rows, stream);
        same_at(&rt, some, has_error, stream);
        let mut rows_each = Rows::each(alloc, tree);
        let mut out = Vec::new(alloc);
        feed(&rt, alloc, &mut rows_each, stream, &mut out)?;
        rows_each.finish(alloc, &mut out)?;
        same_at(&rt, out.as_slice(), rows, stream);
    }
    Ok(())
}

// Rows in which failing paths take more room than is on the stack.
#[test]
fn tells_many_paths_by_themselves(rt: HostRuntime) -> Result<(), Fail> {
    let alloc = rt.alloc();
    let mut tree = PointerTree::new(alloc);
    let mut wanted = Vec::new(alloc);
    for i in 0..40 {
        tree.add_path(alloc, &[Index(i), Key("x")])?;
        wanted.extend_from_slice(if i == 0 {
            b"!Message"
        } else {
            b"\t!GetIndexOutOfArray"
        })?;
    }
    wanted.push(b'\n')?;
    let mut out = Vec::new(alloc);
    append_rows_each(alloc, &tree, 0, b"[7]", &mut out)?;
    same_at(&rt, out.as_slice(), wanted.as_slice(), 40);
    Ok(())
}

#[test]
fn answers_worked_examples(rt: HostRuntime) -> Result<(), Fail> {
    let alloc = rt.alloc();
    for &(paths, stream, rows, has_error) in &EXAMPLES {
        let tree = tree_of(&rt, alloc, paths);
        let mut out = Vec::new(alloc);
        let some = append_rows(alloc, &tree, 0, stream, &mut out)?;
        same_at(&rt, out.as_slice(), rows, stream);
        same_at(&rt, some, has_error, stream);
    }
    Ok(())
}

// Feeds a piece, where neither the lines nor the piece are more than a test has.
pub(crate) fn feed(
    rt: &impl Abort,
    alloc: Global,
    rows: &mut Rows,
    piece: &[u8],
    out: &mut Vec<u8>,
) -> Result<(), Fail> {
    assert!(rt; rows.lines() < 1_000_000);
    assert!(rt; piece.len() < 1_000_000);
    rows.feed(alloc, piece, out)?;
    Ok(())
}

// What a stream gives that comes in pieces of so many bytes.
fn rows_of_pieces(
    rt: &impl Abort,
    alloc: Global,
    tree: PointerTree,
    stream: &[u8],
    size: usize,
) -> Result<Vec<u8>, Fail> {
    let mut out = Vec::new(alloc);
    let mut rows = Rows::new(alloc, tree);
    for piece in stream.chunks(size.max(1)) {
        feed(rt, alloc, &mut rows, piece, &mut out)?;
    }
    rows.finish(alloc, &mut out)?;
    Ok(out)
}

// How many bytes each piece has.
const SIZES: [usize; 5] = [1, 2, 3, 7, 1_000];

#[test]
fn answers_them_in_pieces_of_any_size(rt: HostRuntime) -> Result<(), Fail> {
    let alloc = rt.alloc();
    for &(paths, stream, rows, _) in &EXAMPLES {
        for size in SIZES {
            let out = rows_of_pieces(&rt, alloc, tree_of(&rt, alloc, paths), stream, size)?;
            same_at(&rt, out.as_slice(), rows, stream);
        }
    }
    Ok(())
}

// How many lines came before, and the rows of two lines then.
const NUMBERS: [(u64, &[u8]); 4] = [
    (0, b"1 7\n! 2 eof EofWhileParsing 0\n"),
    (8, b"1 7\n! 10 eof EofWhileParsing 0\n"),
    (4_294_967_294, b"1 7\n! 4294967296 eof EofWhileParsing 0\n"),
    (
        18_446_744_073_709_551_600,
        b"1 7\n! 18446744073709551602 eof EofWhileParsing 0\n",
    ),
];

#[test]
fn numbers_lines_from_those_before(rt: HostRuntime) -> Result<(), Fail> {
    let alloc = rt.alloc();
    for &(before, rows) in &NUMBERS {
        let tree = tree_of(&rt, alloc, ID);
        let mut out = Vec::new(alloc);
        assert!(&rt; before < u64::MAX - 10);
        append_rows(alloc, &tree, before, b"{\"id\":7}\n{", &mut out)?;
        same_at(&rt, out.as_slice(), rows, before);
    }
    Ok(())
}

#[test]
fn appends_to_what_is_there(rt: HostRuntime) -> Result<(), Fail> {
    let alloc = rt.alloc();
    let tree = tree_of(&rt, alloc, ID);
    let mut out = Vec::new(alloc);
    out.extend_from_slice(b"x")?;
    append_rows(alloc, &tree, 0, b"{\"id\":7}", &mut out)?;
    append_rows(alloc, &tree, 1, b"\n{\"id\":8}\n", &mut out)?;
    same_at(&rt, out.as_slice(), b"x1 7\n1 8\n", 2);
    Ok(())
}
