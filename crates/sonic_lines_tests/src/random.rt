// Random streams, cut at random, beside a plain slow program.
ghost use Rattle.std.specs.Prelude.{◌<◌};

use crate::reference::plain_rows;
use crate::rows::{Paths, feed, tree_of};
use crate::same::same_at;
use sonic_lines::{Rows, append_rows, append_rows_each};
use sonic_pointer::PointerNode::{Index, Key};
use std::alloc::Global;
use std::process::Abort;
use std::test::Fail;

// How many streams are made.
const STREAMS: usize = 3_000;

// Numbers in a random order, the same in each run.
#[derive(Drop)]
struct Random(usize);

impl Random {
    // The next number, which is below a bound.
    fn below(&mut self, bound: usize) -> usize
        requires { 0 < bound }
        ensures { result < bound }
    {
        self.0 = self
            .0
            .wrapping_mul(6_364_136_223_846_793_005)
            .wrapping_add(1);
        (self.0 >> 33) % bound
    }
}

// Lists of paths.
const TREES: [Paths; 4] = [
    &[],
    &[&[Key("a")]],
    &[&[Key("a")], &[Key("b"), Index(1)], &[Key("b")]],
    &[&[Index(0), Key("a")], &[]],
];

// What lines are made of: whole records, parts of them, white space, and broken bytes.
const PARTS: [&[u8]; 24] = [
    b"\n",
    b"\n",
    b"\n",
    b"\r\n",
    b" ",
    b"\t",
    b"{\"a\":1}\n",
    b"{\"a\":\"\\u00e9\\\\\",\"b\":[1,{\"a\":2}]}\n",
    b"[{\"a\":[]},2]\n",
    b"{\"a\":\"\xe2\x82\xac\"}",
    b"{\"b\":[[],-0.5e1],\"a\":tru}",
    b"{",
    b"}",
    b"[",
    b"]",
    b"\"a\":",
    b"\"b\":",
    b"\"\\n\"",
    b"\"\xff\"",
    b"null",
    b"12",
    b",",
    b"\"",
    b"\x01",
];

// A stream of some parts.
fn make_stream(alloc: Global, random: &mut Random) -> Result<Vec<u8>, Fail> {
    let mut stream = Vec::new(alloc);
    for _ in 0..random.below(14) {
        let part = PARTS[random.below(PARTS.len())];
        stream.extend_from_slice(part)?;
    }
    Ok(stream)
}

// What a stream gives that is cut at random.
fn rows_of_cuts(
    rt: &impl Abort,
    alloc: Global,
    random: &mut Random,
    rows: &mut Rows,
    stream: &[u8],
) -> Result<Vec<u8>, Fail> {
    let mut out = Vec::new(alloc);
    let mut rest = stream;
    for _ in 0..4 {
        let (piece, later) = rest.split_at(random.below(rest.len().saturating_add(1)));
        feed(rt, alloc, rows, piece, &mut out)?;
        rest = later;
    }
    feed(rt, alloc, rows, rest, &mut out)?;
    rows.finish(alloc, &mut out)?;
    Ok(out)
}

// Checks the rows of random streams, at once and cut, beside those of a plain program.
fn check_streams(
    rt: &impl Abort,
    alloc: Global,
    paths: Paths,
    each: bool,
    random: &mut Random,
) -> Result<(), Fail> {
    let tree = tree_of(rt, alloc, paths);
    let mut rows = match each {
        true => Rows::each(alloc, tree_of(rt, alloc, paths)),
        false => Rows::new(alloc, tree_of(rt, alloc, paths)),
    };
    for _ in 0..STREAMS / TREES.len() {
        let stream = make_stream(alloc, random)?;
        let wanted = plain_rows(alloc, &tree, each, &stream)?;
        let mut out = Vec::new(alloc);
        match each {
            true => append_rows_each(alloc, &tree, 0, &stream, &mut out)?,
            false => append_rows(alloc, &tree, 0, &stream, &mut out)?,
        };
        same_at(rt, out.as_slice(), wanted.as_slice(), stream.as_slice());
        let cut = rows_of_cuts(rt, alloc, random, &mut rows, &stream)?;
        same_at(rt, cut.as_slice(), wanted.as_slice(), stream.as_slice());
    }
    Ok(())
}

#[test]
fn agrees_with_a_plain_program(rt: HostRuntime) -> Result<(), Fail> {
    let mut random = Random(44);
    for paths in TREES {
        check_streams(&rt, rt.alloc(), paths, false, &mut random)?;
        check_streams(&rt, rt.alloc(), paths, true, &mut random)?;
    }
    Ok(())
}
