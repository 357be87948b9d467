// What is appended and held between pieces, by hand.
use crate::rows::{Paths, feed, tree_of};
use crate::same::same_at;
use sonic_lines::Rows;
use sonic_pointer::PointerNode::Key;
use std::test::Fail;

const ID: Paths = &[&[Key("id")]];

// A piece, what it appends, and how many lines have ended then.
type Piece = (&'static [u8], &'static [u8], u64);

// They are cut inside a key, a literal, an escape and a char, at a line feed, and nowhere.
const PIECES: [Piece; 22] = [
    (b"", b"", 0),
    (b"{\"i", b"", 0),
    (b"", b"", 0),
    (b"d\":", b"", 0),
    (b"tr", b"", 0),
    (b"ue}", b"", 0),
    (b"\n", b"4 true\n", 1),
    (b"\n\n", b"", 3),
    (b" ", b"", 3),
    (b"\t\n", b"", 4),
    (b"{\"id\":\"\\", b"", 4),
    (b"u00", b"", 4),
    (b"e9\\", b"", 4),
    (b"n\"}\n{\"id\":\"\xe2", b"10 \"\\u00e9\\n\"\n", 5),
    (b"\x82", b"", 5),
    (b"\xac\"}", b"", 5),
    (b"\n{\"id\":\"\xe2\x82", b"5 \"\xe2\x82\xac\"\n", 6),
    (b"\"}\n{\"id\":2}\n", b"! 7 syntax InvalidUTF8 7\n1 2\n", 8),
    (b"{\"id\":3}\n{\"id\":", b"1 3\n", 9),
    (
        b"}\n{\"id\":4}\n{\"id\":5}",
        b"! 10 syntax InvalidJsonValue 6\n1 4\n",
        11,
    ),
    (b"\r", b"", 11),
    (b"\n[", b"1 5\n", 12),
];

#[test]
fn appends_the_rows_of_lines_that_end(rt: HostRuntime) -> Result<(), Fail> {
    let alloc = rt.alloc();
    let mut rows = Rows::new(alloc, tree_of(&rt, alloc, ID));
    for &(piece, wanted, lines) in &PIECES {
        let mut out = Vec::new(alloc);
        feed(&rt, alloc, &mut rows, piece, &mut out)?;
        same_at(&rt, out.as_slice(), wanted, piece);
        same_at(&rt, rows.lines(), lines, piece);
    }
    let mut out = Vec::new(alloc);
    rows.finish(alloc, &mut out)?;
    same_at(
        &rt,
        out.as_slice(),
        b"! 13 eof EofWhileParsing 0\n",
        "the end",
    );
    Ok(())
}

// Streams one after the other, and what each gives: its lines are numbered from 1, and nothing of the one
// before is left.
const STREAMS: [(&[u8], &[u8]); 7] = [
    (b"{\"id\":1}\n{", b"1 1\n! 2 eof EofWhileParsing 0\n"),
    (b"\n{\"id\":", b"! 2 eof EofWhileParsing 5\n"),
    (b"{\"x\":3}", b"-\n"),
    (b"{\"id\":\"\xff\"}", b"! 1 syntax InvalidUTF8 7\n"),
    (b"", b""),
    (b" ", b""),
    (b"{\"id\":4}\n", b"1 4\n"),
];

#[test]
fn begins_a_new_stream_at_the_end(rt: HostRuntime) -> Result<(), Fail> {
    let alloc = rt.alloc();
    let mut rows = Rows::new(alloc, tree_of(&rt, alloc, ID));
    for &(stream, wanted) in &STREAMS {
        let mut out = Vec::new(alloc);
        feed(&rt, alloc, &mut rows, stream, &mut out)?;
        rows.finish(alloc, &mut out)?;
        same_at(&rt, out.as_slice(), wanted, stream);
        same_at(&rt, rows.lines(), 0, stream);
    }
    Ok(())
}
