// A walk from part to part comes to what skipping the whole value comes to.
use crate::depth::{DEPTH, nested};
use crate::faults::{BEGINNINGS, ELEMENTS, HALVES, KEYS, MEMBERS, parser_of};
use crate::reference::text_of_number;
use crate::same::{same, same_at};
use sonic_error::ErrorCode;
use sonic_input::Read;
use sonic_parser::internal::{Descent, Step};
use sonic_parser::{Fault, Parser, ValueSpan};
use sonic_text::{Kind, Stop};
use std::alloc::Global;
use std::process::Abort;
use std::test::Fail;

// Closes the containers that end at the cursor: the kind of the one that goes on, if one does.
fn close(walk: &mut Descent<'_>) -> Result<Option<Kind>, Fault> {
    'containers: while walk.depth() > 0 {
        let kind = walk.kind();
        if walk.next(kind)? {
            return Ok(Some(kind));
        }
    }
    Ok(None)
}

// More values than any text here has: a walk that goes on comes to nothing.
const MOST: usize = 1_000_000;

// Goes through the value that begins at the parser's cursor: where it ends.
fn walked(alloc: Global, parser: Parser<'_>) -> Result<usize, Fault> {
    let mut walk = Descent::new(alloc, parser);
    for _ in 0..MOST {
        let inside = match walk.value(alloc)? {
            Step::Passed => close(&mut walk)?,
            Step::Entered(kind) => Some(kind),
        };
        let Some(kind) = inside else {
            return Ok(walk.offset());
        };
        walk.head(kind)?;
    }
    Err(Fault::OutOfMemory)
}

// The same by the skipper.
fn skipped(alloc: Global, mut parser: Parser<'_>) -> Result<usize, Fault> {
    parser.skip_value(alloc)?;
    Ok(parser.offset())
}

// A parser at the value that is expected first in a text.
fn parser_at(text: &[u8], lossy: bool) -> Parser<'_> {
    let mut parser = parser_of(text, lossy);
    parser.skip_space_peek();
    parser
}

// Both come to the same end, or to the same fault.
fn check_same(rt: &impl Abort, alloc: Global, text: &[u8], lossy: bool) {
    let walked = walked(alloc, parser_at(text, lossy));
    same_at(
        rt,
        walked,
        skipped(alloc, parser_at(text, lossy)),
        (text, lossy),
    );
}

// A walk comes to what is wanted, and skipping does.
fn check(rt: &impl Abort, alloc: Global, text: &[u8], wanted: Result<usize, Fault>) {
    same_at(rt, walked(alloc, parser_at(text, false)), wanted, text);
    check_same(rt, alloc, text, false);
    check_same(rt, alloc, text, true);
}

// A text, and where its first value ends.
const WHOLE: [(&[u8], usize); 16] = [
    (b"null", 4),
    (b" true ", 5),
    (b"-1.5e+7,", 7),
    (b"1.2.3", 3),
    (b"\"\"", 2),
    (b"\"a\\\"]\\n\"]", 8),
    (b"[]", 2),
    (b"[ ] ]", 3),
    (b"{}", 2),
    (b"\t{\n}}", 4),
    (b"[1]", 3),
    (b"[ 1 , [ ] ,{ } , \"]\" ] ]", 22),
    (b"{\"\":0}", 6),
    (b"{ \"a\" : 1 , \"a\\\"}\" : [ { } ] } }", 30),
    (b"[[[1],[2,[3]]],{\"b\":{\"c\":[{}]}}]x", 32),
    (b"{\"a\":[1,{}],\"b\":{\"c\":\"}\"}}[", 26),
];

#[test]
fn ends_where_the_value_does(rt: HostRuntime) {
    let alloc = rt.alloc();
    for &(text, end) in &WHOLE {
        check(&rt, alloc, text, Ok(end));
    }
}

fn check_stops(rt: &impl Abort, alloc: Global, faults: &[(&[u8], usize, ErrorCode)]) {
    for &(text, place, code) in faults {
        check(rt, alloc, text, Err(Fault::At(Stop { place, code })));
    }
}

#[test]
fn stops_at_the_fault_of_the_value(rt: HostRuntime) {
    let alloc = rt.alloc();
    check_stops(&rt, alloc, &BEGINNINGS);
    check_stops(&rt, alloc, &KEYS);
    check_stops(&rt, alloc, &MEMBERS);
    check_stops(&rt, alloc, &ELEMENTS);
    check_stops(&rt, alloc, &HALVES);
}

#[test]
fn walks_through_short_texts(rt: HostRuntime) -> Result<(), Fail> {
    let alloc = rt.alloc();
    for n in 0..10_000 {
        check_same(&rt, alloc, &text_of_number(alloc, n, 4)?, false);
    }
    for n in 0..10_000 {
        let mut text = Vec::new(alloc);
        text.extend_from_slice(b"[{\"a\":")?;
        text.extend_from_slice(&text_of_number(alloc, n, 4)?)?;
        check_same(&rt, alloc, &text, false);
    }
    Ok(())
}

#[test]
fn walks_through_deep_values(rt: HostRuntime) -> Result<(), Fail> {
    let alloc = rt.alloc();
    let arrays = nested(alloc, b"[", b"", b"]", DEPTH)?;
    check(&rt, alloc, &arrays, Ok(2 * DEPTH));
    let objects = nested(alloc, b"{\"\":", b"1", b"}", DEPTH)?;
    check(&rt, alloc, &objects, Ok(5 * DEPTH + 1));
    let both = nested(alloc, b"[{\"\":", b"{}", b"}]", DEPTH)?;
    check(&rt, alloc, &both, Ok(7 * DEPTH + 2));
    check_stops(
        &rt,
        alloc,
        &[
            (
                &nested(alloc, b"[{\"\":", b"1", b"}]", DEPTH - 1)?,
                7 * DEPTH - 1,
                ErrorCode::EofWhileParsing,
            ),
            (
                &nested(alloc, b"[", b"}", b"]", DEPTH)?,
                DEPTH,
                ErrorCode::InvalidJsonValue,
            ),
        ],
    );
    Ok(())
}

// How many containers are open at a value, where it begins, and the key before it.
type Row = (usize, usize, Option<ValueSpan>);

// The values of the one at the parser's cursor, in their order.
fn rows(alloc: Global, parser: Parser<'_>) -> Result<Vec<Row>, Fault> {
    let mut walk = Descent::new(alloc, parser);
    let mut rows = Vec::new(alloc);
    let mut key = None;
    for _ in 0..MOST {
        rows.push((walk.depth(), walk.offset(), key))?;
        let inside = match walk.value(alloc)? {
            Step::Passed => close(&mut walk)?,
            Step::Entered(kind) => Some(kind),
        };
        let Some(kind) = inside else {
            return Ok(rows);
        };
        key = walk.head(kind)?;
    }
    Err(Fault::OutOfMemory)
}

const PLAIN: ValueSpan = ValueSpan {
    start: 1,
    end: 4,
    escaped: false,
};

const ESCAPED: ValueSpan = ValueSpan {
    start: 16,
    end: 21,
    escaped: true,
};

const ROWS: [Row; 6] = [
    (0, 0, None),
    (1, 7, Some(PLAIN)),
    (2, 8, None),
    (2, 11, None),
    (1, 22, Some(ESCAPED)),
    (2, 24, None),
];

#[test]
fn shows_each_value_with_its_key(rt: HostRuntime) {
    let alloc = rt.alloc();
    let text = "{\"a\" : [1, {}], \"b\\n\":[ 2]} x";
    match rows(alloc, Parser::new(Read::from(text))) {
        Ok(found) => same(&rt, found.as_slice(), &ROWS[..]),
        Err(_) => panic!(rt; "no walk"),
    }
}

#[test]
fn goes_on_after_the_value(rt: HostRuntime) {
    let alloc = rt.alloc();
    let text = b"[ ] x";
    let mut walk = Descent::new(alloc, Parser::new(Read::from(&text[..])));
    same(&rt, walk.value(alloc), Ok(Step::Passed));
    same(&rt, (walk.depth(), walk.offset()), (0, 3));
    walk.skip_space();
    same(&rt, walk.offset(), 4);
    same(&rt, walk.text(), &text[..]);
}

#[test]
fn passes_the_head_of_an_item(rt: HostRuntime) {
    let alloc = rt.alloc();
    let mut walk = Descent::new(alloc, Parser::new(Read::from("{\"a\" :1}")));
    same(&rt, walk.value(alloc), Ok(Step::Entered(Kind::Object)));
    same(&rt, walk.head(Kind::Object), Ok(Some(PLAIN)));
    same(&rt, walk.offset(), 6);
}
