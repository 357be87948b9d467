// Tables of containers. The expected rows are by the grammar.
use crate::each::{NUMBER_FOR_OBJECT, Told, plain_each, told_of};
use crate::lookups::{Paths, tree_of};
use crate::reference::{
    BELOW, COUNTS, MEMBERS, TOKENS, VALUES, check_error, follow, numbered_text, parser_at,
};
use crate::same::{same, same_at};
use PathOutcome::{Fails, Found, Missing};
use sonic_error::{ErrorCode, JsonType, Note, Wanted};
use sonic_find::{Table, TableItem, find_table};
use sonic_lazy::{PathOutcome, Span};
use sonic_parser::{Fault, Parser};
use sonic_pointer::PointerNode::{Index, Key};
use sonic_pointer::{KeyRule, PointerNode, PointerTree};
use sonic_text::{Kind, Stop, byte_at};
use std::alloc::{AllocError, Global};
use std::process::Abort;
use std::test::Fail;

type Container = &'static [PointerNode<'static>];

// A container's path, the paths of the rows, a text, its items, and what is told inside them.
type Row = (
    Container,
    Paths,
    &'static [u8],
    &'static [TableItem],
    &'static [Told],
);

const ROWS: [Row; 8] = [
    (
        &[Key("a")],
        &[&[Key("x")], &[Key("y")]],
        b"{\"a\":[{\"x\":1},{\"x\":2,\"y\":3}]}",
        &[
            TableItem {
                key: None,
                value: Span { start: 6, end: 13 },
            },
            TableItem {
                key: None,
                value: Span { start: 14, end: 27 },
            },
        ],
        &[
            Found(Span { start: 11, end: 12 }),
            Missing(12),
            Found(Span { start: 19, end: 20 }),
            Found(Span { start: 25, end: 26 }),
        ],
    ),
    (
        &[],
        &[&[Key("x")], &[]],
        b"{\"p\":{\"x\":[7]}, \"q\" : 5 } x",
        &[
            TableItem {
                key: Some(Span { start: 1, end: 4 }),
                value: Span { start: 5, end: 14 },
            },
            TableItem {
                key: Some(Span { start: 16, end: 19 }),
                value: Span { start: 22, end: 23 },
            },
        ],
        &[
            Found(Span { start: 10, end: 13 }),
            Found(Span { start: 5, end: 14 }),
            Fails(Stop {
                place: 22,
                code: NUMBER_FOR_OBJECT,
            }),
            Found(Span { start: 22, end: 23 }),
        ],
    ),
    (&[], &[&[Key("x")]], b" [ ] ]", &[], &[]),
    (&[Key("a")], &[&[Key("x")]], b"{\"a\":{}", &[], &[]),
    (
        &[],
        &[],
        b"[1,[2]]",
        &[
            TableItem {
                key: None,
                value: Span { start: 1, end: 2 },
            },
            TableItem {
                key: None,
                value: Span { start: 3, end: 6 },
            },
        ],
        &[],
    ),
    (
        &[Index(1)],
        &[&[Index(1), Key("b")]],
        b"[0,[[1,{\"b\":2}],[],[3]]]",
        &[
            TableItem {
                key: None,
                value: Span { start: 4, end: 15 },
            },
            TableItem {
                key: None,
                value: Span { start: 16, end: 18 },
            },
            TableItem {
                key: None,
                value: Span { start: 19, end: 22 },
            },
        ],
        &[
            Found(Span { start: 12, end: 13 }),
            Fails(Stop {
                place: 17,
                code: ErrorCode::GetInEmptyArray,
            }),
            Fails(Stop {
                place: 21,
                code: ErrorCode::GetIndexOutOfArray,
            }),
        ],
    ),
    (
        &[],
        &[&[Key("x")], &[Key("x")]],
        b"[{},{\"x\":null}]",
        &[
            TableItem {
                key: None,
                value: Span { start: 1, end: 3 },
            },
            TableItem {
                key: None,
                value: Span { start: 4, end: 14 },
            },
        ],
        &[
            Missing(2),
            Missing(2),
            Found(Span { start: 9, end: 13 }),
            Found(Span { start: 9, end: 13 }),
        ],
    ),
    (
        &[],
        &[&[Key("x")]],
        b"{\"\\u0061\":{\"\\u0078\":1}}",
        &[TableItem {
            key: Some(Span { start: 1, end: 9 }),
            value: Span { start: 10, end: 22 },
        }],
        &[Found(Span { start: 20, end: 21 })],
    ),
];

// The table of a text that has one.
fn table_of(
    rt: &impl Abort,
    alloc: Global,
    text: &[u8],
    (container, paths): (Container, Paths),
    rule: KeyRule,
) -> Table {
    let tree = tree_of(rt, alloc, paths);
    assert!(rt; container.len() <= 255);
    match find_table(alloc, text, container, &tree, rule) {
        Ok(table) => table,
        Err(error) => panic!(rt; "{error:?} in {text:?} for {container:?} and {paths:?}"),
    }
}

#[test]
fn tells_each_item_of_a_container(rt: HostRuntime) {
    for &(container, paths, text, items, outcomes) in &ROWS {
        let case = (container, paths);
        let table = table_of(&rt, rt.alloc(), text, case, KeyRule::First);
        same_at(&rt, table.items.as_slice(), items, (text, paths));
        same_at(&rt, table.outcomes.as_slice(), outcomes, (text, paths));
    }
}

#[test]
fn goes_by_the_rule_in_the_container_and_in_its_items(rt: HostRuntime) {
    let text = b"{\"a\":[{\"x\":1,\"x\":2}],\"a\":[{\"x\":3,\"x\":4}]}";
    let case: (Container, Paths) = (&[Key("a")], &[&[Key("x")]]);
    let first = table_of(&rt, rt.alloc(), text, case, KeyRule::First);
    same(
        &rt,
        first.outcomes.as_slice(),
        &[Found(Span { start: 11, end: 12 })][..],
    );
    let last = table_of(&rt, rt.alloc(), text, case, KeyRule::Last);
    same(
        &rt,
        last.outcomes.as_slice(),
        &[Found(Span { start: 37, end: 38 })][..],
    );
    let inside: (Container, Paths) = (&[Index(0)], &[&[Key("x")]]);
    let text = b"[[{\"x\":1,\"x\":2},{\"x\":3}]]";
    let refuse = table_of(&rt, rt.alloc(), text, inside, KeyRule::Refuse);
    let twice = Fails(Stop {
        place: 9,
        code: ErrorCode::DuplicateKey,
    });
    same(
        &rt,
        refuse.outcomes.as_slice(),
        &[twice, Found(Span { start: 21, end: 22 })][..],
    );
}

// A number is where an array is wanted.
const NUMBER_FOR_ARRAY: ErrorCode = ErrorCode::Message(Note::Mismatch {
    found: JsonType::Number,
    wanted: Wanted::Array,
});

// A container's path and a text that has no such container, with the code and the offset of the error.
const REFUSED: [(Container, &[u8], ErrorCode, usize); 8] = [
    (
        &[Key("z")],
        b"{\"a\":1}",
        ErrorCode::GetUnknownKeyInObject,
        6,
    ),
    (&[Key("z")], b"{}", ErrorCode::GetUnknownKeyInObject, 1),
    (&[Key("z")], b"{\"a\":1", ErrorCode::EofWhileParsing, 5),
    (&[Index(3)], b"[1,2]", ErrorCode::GetIndexOutOfArray, 4),
    (&[Key("a")], b"{\"a\":12}", NUMBER_FOR_ARRAY, 6),
    (
        &[],
        b"[{\"x\":1},{\"x\":2]",
        ErrorCode::ExpectedObjectCommaOrEnd,
        15,
    ),
    (&[], b"[1,2", ErrorCode::EofWhileParsing, 3),
    (&[], b"[\"\xFF\"]", ErrorCode::InvalidUTF8, 2),
];

#[test]
fn refuses_what_is_no_container(rt: HostRuntime) {
    let tree = tree_of(&rt, rt.alloc(), &[&[Key("x")]]);
    for &(container, text, code, offset) in &REFUSED {
        assert!(&rt; container.len() <= 255);
        match find_table(rt.alloc(), text, container, &tree, KeyRule::First) {
            Ok(_) => panic!(&rt; "a table in {text:?} for {container:?}"),
            Err(error) => {
                same_at(&rt, error.code(), code, (text, container));
                same_at(&rt, error.offset(), offset, (text, container));
            }
        }
    }
}

// The table by a plain program: the items one after the other, and each path from each item's value.
fn plain_rows(
    alloc: Global,
    text: &[u8],
    start: usize,
    paths: Paths,
    rule: KeyRule,
) -> Result<(Vec<TableItem>, Vec<Told>), AllocError> {
    let mut items = Vec::new(alloc);
    let mut outcomes = Vec::new(alloc);
    if let Some(kind) = Kind::opened_by(byte_at(text, start)) {
        let mut parser = parser_at(text, start);
        let mut more = parser.enter(kind);
        for _ in 0..text.len() {
            if !more {
                break;
            }
            let Some(item) = plain_item(alloc, &mut parser, kind) else {
                break;
            };
            items.push(item)?;
            plain_row(alloc, text, item.value.start, (paths, rule), &mut outcomes)?;
            more = matches!(parser.next_item(kind), Ok(true));
        }
    }
    Ok((items, outcomes))
}

// Adds what each path is told of where it leads from a place.
fn plain_row(
    alloc: Global,
    text: &[u8],
    start: usize,
    (paths, rule): (Paths, KeyRule),
    outcomes: &mut Vec<Told>,
) -> Result<(), AllocError> {
    if start > text.len() {
        return Ok(());
    }
    for path in paths {
        let reported = follow(alloc, text, start, path, rule)?;
        if let Some(told) = told_of(&reported) {
            outcomes.push(told)?;
        }
    }
    Ok(())
}

// The item at a parser, which passes it.
fn plain_item(alloc: Global, parser: &mut Parser<'_>, kind: Kind) -> Option<TableItem> {
    let key = match kind {
        Kind::Array => None,
        Kind::Object => {
            let start = parser.offset();
            let end = parser.key().ok()?.end;
            Some(Span { start, end })
        }
    };
    let value = parser.skip_value(alloc).ok()?;
    Some(TableItem {
        key,
        value: Span {
            start: value.start,
            end: value.end,
        },
    })
}

// The stop for a container that isn't found, by what its path is told alone.
fn plain_stop(text: &[u8], told: &Told) -> Option<Stop> {
    match *told {
        Found(Span { start, .. }) if Kind::opened_by(byte_at(text, start)).is_some() => None,
        Found(Span { start, end }) => Some(Stop {
            place: end.saturating_sub(1),
            code: ErrorCode::Message(Note::Mismatch {
                found: sonic_text::type_of(byte_at(text, start)),
                wanted: Wanted::Array,
            }),
        }),
        Missing(place) => Some(Stop {
            place,
            code: ErrorCode::GetUnknownKeyInObject,
        }),
        Fails(stop) => Some(stop),
    }
}

// Checks that a table is what the plain program says.
fn check_table(
    rt: &impl Abort,
    alloc: Global,
    text: &[u8],
    (container, paths, tree): (Container, Paths, &PointerTree),
    rule: KeyRule,
) -> Result<(), Fail> {
    assert!(rt; container.len() <= 255);
    let table = find_table(alloc, text, container, tree, rule);
    let told = match plain_each(alloc, text, &[container], rule)? {
        Ok(told) => told,
        Err(stop) => {
            match table {
                Ok(_) => panic!(rt; "a table in {text:?} for {container:?}"),
                Err(error) => check_error(rt, text, paths, error, stop),
            }
            return Ok(());
        }
    };
    for told in &told {
        match (&table, plain_stop(text, told), told) {
            (Ok(table), None, Found(Span { start, .. })) => {
                let (items, outcomes) = plain_rows(alloc, text, *start, paths, rule)?;
                same_at(rt, table.items.as_slice(), items.as_slice(), text);
                same_at(rt, table.outcomes.as_slice(), outcomes.as_slice(), text);
            }
            (Err(error), Some(stop), _) => {
                same_at(rt, error.code(), stop.code, (text, container));
                same_at(rt, error.offset(), stop.place, (text, container));
            }
            _ => panic!(rt; "another answer in {text:?} for {container:?}"),
        }
    }
    Ok(())
}

// A text with so much white space behind it that each of its items is looked at quickly.
fn far_from_the_end(alloc: Global, text: &[u8]) -> Result<Vec<u8>, AllocError> {
    let mut far = Vec::new(alloc);
    far.extend_from_slice(text)?;
    far.extend_from_slice(&[b' '; 200])?;
    Ok(far)
}

// Checks all texts of up to six pieces and numbers under each rule.
fn check_all(
    rt: &impl Abort,
    alloc: Global,
    pieces: &[&[u8]; 7],
    (container, paths): (Container, Paths),
) -> Result<(), Fail> {
    let tree = tree_of(rt, alloc, paths);
    for (length, count) in COUNTS.iter().take(7).enumerate() {
        for n in 0..*count {
            let text = numbered_text(alloc, pieces, n, length)?;
            for rule in [KeyRule::First, KeyRule::Last, KeyRule::Refuse] {
                check_table(rt, alloc, &text, (container, paths, &tree), rule)?;
            }
            let ahead = far_from_the_end(alloc, &text)?;
            check_table(rt, alloc, &ahead, (container, paths, &tree), KeyRule::First)?;
        }
    }
    Ok(())
}

// Items that differ in what keys they have, how these are written, and where.
const ITEMS: &[u8] =
    b"[{\"a\":1,\"b\":2},{\"b\":3,\"a\":4},{\"c\":5,\"a\":6,\"a\":7},{\"\\u0061\":8,\"b\":9},
    {\"a\" : 10 , \"b\":11}, {\"a\":{\"b\":[12]},\"b\":[]},{\"a\":\"a string that has more than thirty-two bytes\"},
    {},7,{\"a key that has more than sixteen bytes\":13,\"a\":14},{\"a key that has more than sixteen byteS\":15},
    {\"ab\":16,\"a\":-17.5e3 ,\"b\":true},{\"a\":null},[18],{\"b\":false\t,\n \"a\":19}\r ]";

#[test]
fn agrees_with_the_plain_program_over_items(rt: HostRuntime) -> Result<(), Fail> {
    let text = far_from_the_end(rt.alloc(), ITEMS)?;
    let lists: [Paths; 5] = [
        &[&[Key("a")]],
        &[&[Key("b")], &[Key("a")], &[Key("z")]],
        &[&[Key("a")], &[Key("a")]],
        &[&[Key("a"), Key("b")], &[Key("b")]],
        &[&[Key("a key that has more than sixteen bytes")], &[]],
    ];
    for paths in lists {
        let tree = tree_of(&rt, rt.alloc(), paths);
        for rule in [KeyRule::First, KeyRule::Last, KeyRule::Refuse] {
            check_table(&rt, rt.alloc(), ITEMS, (&[], paths, &tree), rule)?;
            check_table(&rt, rt.alloc(), &text, (&[], paths, &tree), rule)?;
        }
    }
    Ok(())
}

// Adds a key of two digits, and a number for its value.
fn push_member(text: &mut Vec<u8>, number: usize) -> Result<(), AllocError> {
    text.push(b'"')?;
    for digit in [number / 10 % 10, number % 10] {
        text.push(byte_at(b"0123456789", digit))?;
    }
    text.extend_from_slice(b"\":1")
}

// The first key of each item, so that an item shares most of its keys with the one before.
const FIRST_KEYS: [usize; 9] = [0, 11, 22, 33, 44, 55, 66, 77, 88];

#[test]
fn agrees_with_the_plain_program_over_many_keys(rt: HostRuntime) -> Result<(), Fail> {
    let mut text = Vec::new(rt.alloc());
    text.push(b'[')?;
    for first in FIRST_KEYS {
        text.extend_from_slice(if first == 0 { b"{" } else { b",{" })?;
        for member in 0..40 {
            if member > 0 {
                text.push(b',')?;
            }
            push_member(&mut text, first.saturating_add(member))?;
        }
        text.push(b'}')?;
    }
    text.push(b']')?;
    let text = far_from_the_end(rt.alloc(), &text)?;
    let paths: Paths = &[&[Key("44")], &[Key("00")], &[Key("99")]];
    let tree = tree_of(&rt, rt.alloc(), paths);
    check_table(&rt, rt.alloc(), &text, (&[], paths, &tree), KeyRule::First)
}

#[test]
fn agrees_with_the_plain_program_over_tokens(rt: HostRuntime) -> Result<(), Fail> {
    check_all(&rt, rt.alloc(), &TOKENS, (&[], &[&[Key("a")], &[]]))?;
    check_all(&rt, rt.alloc(), &TOKENS, (&[Key("a")], &[&[Index(0)]]))
}

#[test]
fn agrees_with_the_plain_program_over_members(rt: HostRuntime) -> Result<(), Fail> {
    check_all(&rt, rt.alloc(), &MEMBERS, (&[], BELOW[0]))?;
    check_all(&rt, rt.alloc(), &MEMBERS, (&[Key("a")], &[&[Key("b")]]))
}

#[test]
fn agrees_with_the_plain_program_over_values(rt: HostRuntime) -> Result<(), Fail> {
    check_all(
        &rt,
        rt.alloc(),
        &VALUES,
        (&[Key("a")], &[&[Key("b")], &[Key("a")]]),
    )
}
