// What no clause says: that one room serves texts one after the other where memory is ample, and that
// it holds what `find_many` finds. The expected spans are by the grammar, each path read by itself.
use crate::lookups::{ANSWERED, Paths, REFUSED, tree_of};
use crate::same::{same, same_at};
use sonic_error::{ErrorCode, JsonType, Note, Wanted};
use sonic_find::internal::fill_buffers;
use sonic_find::{Span, WalkBuffers, find_many, find_many_by};
use sonic_parser::Fault;
use sonic_pointer::PointerNode::{Index, Key};
use sonic_pointer::{KeyRule, PointerTree};
use sonic_text::Stop;
use std::alloc::Global;
use std::process::Abort;
use std::test::Fail;

// A line, and the spans of both paths, or the code and the offset of the error.
type Line = (&'static str, Result<[Option<Span>; 2], (ErrorCode, usize)>);

const NUMBER_FOR_ARRAY: ErrorCode = ErrorCode::Message(Note::Mismatch {
    found: JsonType::Number,
    wanted: Wanted::Array,
});

const PATHS: Paths = &[&[Key("id")], &[Key("t"), Index(1)]];

// Lines that one room serves in this order.
const LINES: [Line; 8] = [
    (
        "{\"id\":7,\"t\":[\"a\",\"b\"]}",
        Ok([
            Some(Span { start: 6, end: 7 }),
            Some(Span { start: 17, end: 20 }),
        ]),
    ),
    // A key that the line before has.
    ("{\"id\":8}", Ok([Some(Span { start: 6, end: 7 }), None])),
    // Both lack, after values that are skipped.
    ("{\"x\":[[[]],{\"y\":[{}]}]}", Ok([None, None])),
    // Nothing is left after an error, although a path found its value.
    ("{\"id\":1,\"t\":0}", Err((NUMBER_FOR_ARRAY, 12))),
    (
        "{\"t\":[{},[[1],{}]],\"id\":\"\\n\"}",
        Ok([
            Some(Span { start: 24, end: 28 }),
            Some(Span { start: 9, end: 17 }),
        ]),
    ),
    ("{\"id\":1,\"t\":[2", Err((ErrorCode::EofWhileParsing, 13))),
    ("", Err((ErrorCode::EofWhileParsing, 0))),
    (
        " {\"t\":[[2],3],\"id\":[ ],",
        Ok([
            Some(Span { start: 19, end: 22 }),
            Some(Span { start: 11, end: 12 }),
        ]),
    ),
];

// Checks what a room holds.
fn check_slots(rt: &impl Abort, room: &WalkBuffers, wanted: &[Option<Span>]) {
    same(rt, room.len(), wanted.len());
    for (i, span) in wanted.iter().enumerate() {
        assert!(rt; i < room.len());
        same_at(rt, room.at(i).found(), *span, i);
    }
}

#[test]
fn serves_lines_one_after_the_other(rt: HostRuntime) {
    let alloc = rt.alloc();
    let tree = tree_of(&rt, alloc, PATHS);
    let mut room = WalkBuffers::new(alloc);
    check_slots(&rt, &room, &[]);
    for &(line, wanted) in &LINES {
        match (
            find_many_by(alloc, &mut room, line, &tree, KeyRule::First),
            wanted,
        ) {
            (Ok(()), Ok(spans)) => check_slots(&rt, &room, &spans),
            (Err(error), Err((code, offset))) => {
                same_at(&rt, error.code(), code, line);
                same_at(&rt, error.offset(), offset, line);
                check_slots(&rt, &room, &[]);
            }
            _ => panic!(&rt; "another answer of {line}"),
        }
    }
}

// Lines, and the place and the code of the fault: at the end of a line the place is its length.
const FAULTS: [(&str, usize, ErrorCode); 6] = [
    ("", 0, ErrorCode::EofWhileParsing),
    (" ", 1, ErrorCode::EofWhileParsing),
    ("{\"id\":", 6, ErrorCode::EofWhileParsing),
    ("{\"id\":1,\"t\":[2", 14, ErrorCode::EofWhileParsing),
    ("{\"id\":tru}", 9, ErrorCode::InvalidLiteral),
    ("{\"id\":1,\"t\":0}", 12, NUMBER_FOR_ARRAY),
];

#[test]
fn fills_a_room_or_tells_the_fault(rt: HostRuntime) {
    let alloc = rt.alloc();
    let tree = tree_of(&rt, alloc, PATHS);
    let mut room = WalkBuffers::new(alloc);
    for &(line, wanted) in &LINES {
        let filled = fill_buffers(alloc, &mut room, line, &tree, KeyRule::First);
        same_at(&rt, filled.is_ok(), wanted.is_ok(), line);
        match wanted {
            Ok(spans) => check_slots(&rt, &room, &spans),
            Err(_) => check_slots(&rt, &room, &[]),
        }
    }
    for &(line, place, code) in &FAULTS {
        let filled = fill_buffers(alloc, &mut room, line, &tree, KeyRule::First);
        same_at(&rt, filled, Err(Fault::At(Stop { place, code })), line);
        check_slots(&rt, &room, &[]);
    }
}

// A line under a rule for equal keys.
type RuledLine = (KeyRule, Line);

// Lines with equal keys that one room serves in this order.
const RULED_LINES: [RuledLine; 6] = [
    (
        KeyRule::Last,
        (
            "{\"id\":1,\"t\":[0,2],\"i\\u0064\":3,\"t\":[4,\"u\"]}",
            Ok([
                Some(Span { start: 28, end: 29 }),
                Some(Span { start: 37, end: 40 }),
            ]),
        ),
    ),
    (
        KeyRule::First,
        (
            "{\"id\":1,\"t\":[0,2],\"id\":3,\"t\":0}",
            Ok([
                Some(Span { start: 6, end: 7 }),
                Some(Span { start: 15, end: 16 }),
            ]),
        ),
    ),
    (
        KeyRule::Last,
        (
            "{\"id\":1,\"t\":[0,2],\"t\":5}",
            Err((NUMBER_FOR_ARRAY, 22)),
        ),
    ),
    (
        KeyRule::Refuse,
        (
            "{\"t\":[0,2],\"id\":1,\"id\":1}",
            Err((ErrorCode::DuplicateKey, 18)),
        ),
    ),
    (
        KeyRule::Refuse,
        (
            "{\"x\":1,\"x\":2,\"id\":[]}",
            Ok([Some(Span { start: 18, end: 20 }), None]),
        ),
    ),
    (
        KeyRule::Last,
        ("{\"id\":1,\"id\":2", Err((ErrorCode::EofWhileParsing, 13))),
    ),
];

#[test]
fn serves_lines_under_each_rule(rt: HostRuntime) {
    let alloc = rt.alloc();
    let tree = tree_of(&rt, alloc, PATHS);
    let mut room = WalkBuffers::new(alloc);
    for &(rule, (line, wanted)) in &RULED_LINES {
        match (find_many_by(alloc, &mut room, line, &tree, rule), wanted) {
            (Ok(()), Ok(spans)) => check_slots(&rt, &room, &spans),
            (Err(error), Err((code, offset))) => {
                same_at(&rt, error.code(), code, line);
                same_at(&rt, error.offset(), offset, line);
                check_slots(&rt, &room, &[]);
            }
            _ => panic!(&rt; "another answer of {line}"),
        }
    }
}

// Compares what both calls find.
fn compare(
    rt: &impl Abort,
    alloc: Global,
    room: &mut WalkBuffers,
    paths: Paths,
    text: &str,
) -> Result<(), Fail> {
    let tree = tree_of(rt, alloc, paths);
    let mut slots = vec![in alloc; None; tree.size()]?;
    let found = find_many(alloc, text, &tree, &mut slots);
    match (
        find_many_by(alloc, room, text, &tree, KeyRule::First),
        found,
    ) {
        (Ok(()), Ok(())) => check_slots(rt, room, &slots),
        (Err(error), Err(other)) => {
            same(rt, error.code(), other.code());
            same(rt, error.offset(), other.offset());
            check_slots(rt, room, &[]);
        }
        _ => panic!(rt; "an error is found once"),
    }
    Ok(())
}

#[test]
fn holds_what_find_many_finds(rt: HostRuntime) -> Result<(), Fail> {
    let alloc = rt.alloc();
    let mut room = WalkBuffers::new(alloc);
    for &(paths, text, _) in &ANSWERED {
        compare(&rt, alloc, &mut room, paths, text)?;
    }
    for &(paths, text, _, _) in &REFUSED {
        compare(&rt, alloc, &mut room, paths, text)?;
    }
    Ok(())
}

// A tree of the paths to so many elements of an array, from the last to the first.
fn tree_of_elements(alloc: Global, count: usize) -> Result<PointerTree, Fail> {
    let mut tree = PointerTree::new(alloc);
    for i in 0..count {
        tree.add_path(alloc, &[Index(count - 1 - i)])?;
    }
    Ok(tree)
}

// Around the number of children that the bits of a word stand for.
const COUNTS: [usize; 8] = [1, 63, 64, 65, 66, 130, 64, 2];

#[test]
fn finds_few_children_and_many(rt: HostRuntime) -> Result<(), Fail> {
    let alloc = rt.alloc();
    let mut room = WalkBuffers::new(alloc);
    for &count in &COUNTS {
        let tree = tree_of_elements(alloc, count)?;
        let mut text = String::new(alloc);
        let mut slots = Vec::new(alloc);
        for i in 0..count {
            text.push_str(if i == 0 { "[7" } else { ",7" })?;
            let start = 2 * (count - i) - 1;
            let end = start + 1;
            slots.push(Some(Span { start, end }))?;
        }
        same_at(
            &rt,
            find_many_by(alloc, &mut room, text.as_str(), &tree, KeyRule::First).is_ok(),
            true,
            count,
        );
        check_slots(&rt, &room, &slots);
    }
    Ok(())
}
