// What each of many paths is told, whatever the others lead to. The expected outcomes are by the grammar.
use crate::lookups::{Paths, tree_of};
use crate::one::starts;
use crate::reference::{
    BELOW, COUNTS, MEMBERS, RULED, Reported, TOKENS, VALUES, check_error, follow_all,
    numbered_text, value_end,
};
use crate::same::{same, same_at};
use PathOutcome::{Fails, Found, Missing};
use sonic_error::{ErrorCode, JsonType, Note, Wanted};
use sonic_find::{WalkBuffers, find_each, find_each_by, find_each_unchecked};
use sonic_lazy::{LazyValue, PathOutcome, Span, get_each, get_each_with};
use sonic_parser::Fault;
use sonic_pointer::PointerNode::{Index, Key};
use sonic_pointer::{KeyRule, PointerNode, PointerTree};
use sonic_text::{Stop, skip_space};
use std::alloc::{AllocError, Global};
use std::process::Abort;
use std::test::Fail;

pub(crate) type Told = PathOutcome<Span>;

// A null is where an object is wanted, or a number is.
const NULL_FOR_OBJECT: ErrorCode = ErrorCode::Message(Note::Mismatch {
    found: JsonType::Null,
    wanted: Wanted::Object,
});

pub(crate) const NUMBER_FOR_OBJECT: ErrorCode = ErrorCode::Message(Note::Mismatch {
    found: JsonType::Number,
    wanted: Wanted::Object,
});

// Paths over a text, and what each is told.
type Row = (Paths, &'static [u8], &'static [Told]);

const ROWS: [Row; 8] = [
    (
        &[&[Key("level")], &[Key("http"), Key("status")]],
        b"{\"level\":\"info\",\"http\":null}",
        &[
            Found(Span { start: 9, end: 15 }),
            Fails(Stop {
                place: 26,
                code: NULL_FOR_OBJECT,
            }),
        ],
    ),
    (
        &[&[Key("a")], &[Key("b")]],
        b"{}",
        &[Missing(1), Missing(1)],
    ),
    (
        &[&[Key("a"), Key("x")], &[Key("b")]],
        b"{\"a\":1,\"b\":2",
        &[
            Fails(Stop {
                place: 5,
                code: NUMBER_FOR_OBJECT,
            }),
            Found(Span { start: 11, end: 12 }),
        ],
    ),
    (
        &[&[Key("a"), Index(5)], &[Key("z")]],
        b"{\"a\":[1]} x",
        &[
            Fails(Stop {
                place: 7,
                code: ErrorCode::GetIndexOutOfArray,
            }),
            Missing(8),
        ],
    ),
    (&[], b"x", &[]),
    (&[&[]], b"[1] x", &[Found(Span { start: 0, end: 3 })]),
    (
        &[
            &[Key("a"), Key("x")],
            &[Key("a")],
            &[Key("a"), Key("y"), Key("z")],
        ],
        b"{\"a\":{}}",
        &[Missing(6), Found(Span { start: 5, end: 7 }), Missing(6)],
    ),
    (
        &[&[Index(0), Key("x")], &[Index(1)], &[Index(7), Key("x")]],
        b"[1,2]",
        &[
            Fails(Stop {
                place: 1,
                code: NUMBER_FOR_OBJECT,
            }),
            Found(Span { start: 3, end: 4 }),
            Fails(Stop {
                place: 4,
                code: ErrorCode::GetIndexOutOfArray,
            }),
        ],
    ),
];

#[test]
fn tells_each_path_its_outcome(rt: HostRuntime) {
    for &(paths, text, told) in &ROWS {
        let tree = tree_of(&rt, rt.alloc(), paths);
        match find_each(rt.alloc(), text, &tree, KeyRule::First) {
            Ok(found) => same_at(&rt, found.as_slice(), told, (text, paths)),
            Err(error) => panic!(&rt; "{error:?} in {text:?} for {paths:?}"),
        }
    }
}

// Paths over a text, and the code and the offset of the one error.
const REFUSED: [(Paths, &[u8], ErrorCode, usize); 7] = [
    (
        &[&[Key("z")], &[Key("a"), Index(5)]],
        b"{\"a\":[1]",
        ErrorCode::EofWhileParsing,
        7,
    ),
    (
        &[&[Key("a"), Key("x")], &[Key("b")]],
        b"{\"a\":1,\"b\":trx",
        ErrorCode::InvalidLiteral,
        13,
    ),
    (
        &[&[Key("z")]],
        b"{\"a\":1,}",
        ErrorCode::ExpectObjectKeyOrEnd,
        7,
    ),
    (&[&[]], b" ", ErrorCode::EofWhileParsing, 0),
    (
        &[&[Key("b")]],
        b"{\"a\":\"\xFF\",\"b\":1}",
        ErrorCode::InvalidUTF8,
        6,
    ),
    (
        &[&[Key("a"), Key("x")]],
        b"{\"a\":\"\xFF\"}",
        ErrorCode::InvalidUTF8,
        6,
    ),
    (
        &[&[Key("z")]],
        b"{\"a\":1,\"b\":\"\xFF\"}",
        ErrorCode::InvalidUTF8,
        12,
    ),
];

#[test]
fn refuses_a_text_that_is_broken_before_all_are_settled(rt: HostRuntime) {
    for &(paths, text, code, offset) in &REFUSED {
        let tree = tree_of(&rt, rt.alloc(), paths);
        match find_each(rt.alloc(), text, &tree, KeyRule::First) {
            Ok(found) => panic!(&rt; "{found:?} in {text:?} for {paths:?}"),
            Err(error) => {
                same_at(&rt, error.code(), code, (text, paths));
                same_at(&rt, error.offset(), offset, (text, paths));
            }
        }
    }
}

// A path and a text with equal keys, and what the path is told by the first, the last and the only one.
type Ruled = (Paths, &'static [u8], [&'static [Told]; 3]);

const EQUAL: [Ruled; 3] = [
    (
        &[&[Key("a")], &[Key("b")]],
        b"{\"a\":1,\"a\":2}",
        [
            &[Found(Span { start: 5, end: 6 }), Missing(12)],
            &[Found(Span { start: 11, end: 12 }), Missing(12)],
            &[
                Fails(Stop {
                    place: 7,
                    code: ErrorCode::DuplicateKey,
                }),
                Missing(12),
            ],
        ],
    ),
    (
        &[&[Key("a"), Key("x")], &[Key("b")]],
        b"{\"a\":1,\"a\":{\"x\":2},\"b\":3}",
        [
            &[
                Fails(Stop {
                    place: 5,
                    code: NUMBER_FOR_OBJECT,
                }),
                Found(Span { start: 23, end: 24 }),
            ],
            &[
                Found(Span { start: 16, end: 17 }),
                Found(Span { start: 23, end: 24 }),
            ],
            &[
                Fails(Stop {
                    place: 7,
                    code: ErrorCode::DuplicateKey,
                }),
                Found(Span { start: 23, end: 24 }),
            ],
        ],
    ),
    (
        &[&[Index(0), Key("a"), Key("x")], &[Index(1), Key("a")]],
        b"[{\"a\":{},\"b\":0},{\"a\":1}]",
        [
            &[Missing(7), Found(Span { start: 21, end: 22 })],
            &[Missing(7), Found(Span { start: 21, end: 22 })],
            &[Missing(7), Found(Span { start: 21, end: 22 })],
        ],
    ),
];

#[test]
fn tells_each_path_its_outcome_under_each_rule(rt: HostRuntime) {
    for &(paths, text, told) in &EQUAL {
        let tree = tree_of(&rt, rt.alloc(), paths);
        let rules = [KeyRule::First, KeyRule::Last, KeyRule::Refuse];
        for (rule, wanted) in rules.iter().zip(told.iter()) {
            match find_each(rt.alloc(), text, &tree, *rule) {
                Ok(found) => same_at(&rt, found.as_slice(), *wanted, (text, paths)),
                Err(error) => panic!(&rt; "{error:?} in {text:?} for {paths:?}"),
            }
        }
    }
}

// What the plain program says a path is told, unless it is cut.
pub(crate) fn told_of(reported: &Reported) -> Option<Told> {
    match *reported {
        Reported::Found(start, end) => Some(Found(Span { start, end })),
        Reported::Lacks(brace) => Some(Missing(brace)),
        Reported::Fails(
            Stop {
                place,
                code: ErrorCode::GetInEmptyObject,
            },
        ) => Some(Missing(place)),
        Reported::Fails(stop) => Some(Fails(stop)),
        Reported::Cut(_) => None,
    }
}

// How far the plain program says a path needs the text.
fn need(reported: &Reported) -> usize {
    match *reported {
        Reported::Found(_, end) => end,
        Reported::Lacks(place) => place.saturating_add(1),
        Reported::Fails(stop) | Reported::Cut(stop) => stop.place.saturating_add(1),
    }
}

// What each path is told over bytes, by the plain program, or the one stop.
pub(crate) fn plain_each(
    alloc: Global,
    text: &[u8],
    paths: &[&[PointerNode<'_>]],
    rule: KeyRule,
) -> Result<Result<Vec<Told>, Stop>, AllocError> {
    let all = follow_all(alloc, text, paths, rule)?;
    let mut told = Vec::new(alloc);
    let mut reach = 0;
    for reported in &all {
        match (told_of(reported), reported) {
            (Some(outcome), _) => told.push(outcome)?,
            (None, Reported::Cut(stop)) => return Ok(Err(*stop)),
            (None, _) => {}
        }
        reach = reach.max(need(reported));
    }
    if all
        .iter()
        .any(|reported| matches!(reported, Reported::Lacks(_)))
    {
        reach = match value_end(alloc, text, skip_space(text, 0)) {
            Ok(end) => end,
            Err(Fault::At(stop)) => return Ok(Err(stop)),
            Err(Fault::OutOfMemory) => return Err(AllocError),
        };
    }
    if let Err(error) = std::str::from_utf8(&text[..reach.min(text.len())]) {
        let place = error.valid_up_to();
        let code = ErrorCode::InvalidUTF8;
        return Ok(Err(Stop { place, code }));
    }
    Ok(Ok(told))
}

// Whether a lazy outcome is the one with the span.
fn is_told(text: &[u8], outcome: &PathOutcome<LazyValue<'_>>, told: &Told) -> bool {
    match (outcome, told) {
        (Found(value), Found(Span { start, end })) => {
            text.get(*start..*end) == Some(value.as_raw_str().as_bytes())
        }
        (Missing(brace), Missing(wanted)) => brace == wanted,
        (Fails(stop), Fails(wanted)) => stop == wanted,
        _ => false,
    }
}

// Checks that lazy outcomes are those with the spans.
fn check_told(
    rt: &impl Abort,
    text: &[u8],
    paths: Paths,
    outcomes: &[PathOutcome<LazyValue<'_>>],
    told: &[Told],
) {
    same_at(rt, outcomes.len(), told.len(), (text, paths));
    for (outcome, wanted) in outcomes.iter().zip(told) {
        let is = is_told(text, outcome, wanted);
        assert!(rt; is, "{text:?} {paths:?} {wanted:?}");
    }
}

// Checks that a look-up in buffers tells the same, in their slots or as its error.
fn check_buffers(
    rt: &impl Abort,
    alloc: Global,
    text: &[u8],
    (paths, tree): (Paths, &PointerTree),
    rule: KeyRule,
    wanted: &Result<Vec<Told>, Stop>,
) {
    let mut buffers = WalkBuffers::new(alloc);
    match (find_each_by(alloc, &mut buffers, text, tree, rule), wanted) {
        (Ok(()), Ok(told)) => {
            same_at(rt, buffers.len(), told.len(), (text, paths));
            for (i, outcome) in told.iter().enumerate() {
                assert!(rt; i < buffers.len());
                same_at(rt, buffers.at(i), *outcome, (text, paths));
            }
        }
        (Err(error), Err(stop)) => check_error(rt, text, paths, error, *stop),
        _ => panic!(rt; "another answer in {text:?} for {paths:?} under {rule:?}"),
    }
}

// Checks that a look-up without memory tells the same, where the text begins with a value in UTF-8.
fn check_unchecked(
    rt: &impl Abort,
    alloc: Global,
    text: &[u8],
    (paths, tree): (Paths, &PointerTree),
    wanted: &Result<Vec<Told>, Stop>,
) -> Result<(), Fail> {
    if !starts(alloc, text) {
        return Ok(());
    }
    let mut slots = vec![in alloc; Found(Span { start: 7, end: 9 }); tree.size()]?;
    find_each_unchecked(text, tree, &mut slots);
    match wanted {
        Ok(told) => same_at(rt, slots.as_slice(), told.as_slice(), (text, paths)),
        Err(stop) => panic!(rt; "no stop {stop:?} in {text:?} for {paths:?}"),
    }
    Ok(())
}

// Checks that look-ups under a rule tell what the plain program does.
fn check_each(
    rt: &impl Abort,
    alloc: Global,
    text: &[u8],
    (paths, tree): (Paths, &PointerTree),
    rule: KeyRule,
) -> Result<(), Fail> {
    let wanted = plain_each(alloc, text, paths, rule)?;
    check_buffers(rt, alloc, text, (paths, tree), rule, &wanted);
    if rule == KeyRule::First {
        check_unchecked(rt, alloc, text, (paths, tree), &wanted)?;
    }
    match (get_each_with(alloc, text, tree, rule), &wanted) {
        (Ok(outcomes), Ok(told)) => check_told(rt, text, paths, &outcomes, told),
        (Err(error), Err(stop)) => check_error(rt, text, paths, error, *stop),
        (Ok(_), Err(_)) => panic!(rt; "no error in {text:?} for {paths:?} under {rule:?}"),
        (Err(_), Ok(_)) => panic!(rt; "an error in {text:?} for {paths:?} under {rule:?}"),
    }
    Ok(())
}

// Checks all texts of up to seven pieces and numbers under each rule.
fn check_all(
    rt: &impl Abort,
    alloc: Global,
    pieces: &[&[u8]; 7],
    paths: Paths,
) -> Result<(), Fail> {
    let tree = tree_of(rt, alloc, paths);
    for (length, count) in COUNTS.iter().enumerate() {
        for n in 0..*count {
            let text = numbered_text(alloc, pieces, n, length)?;
            check_each(rt, alloc, &text, (paths, &tree), KeyRule::First)?;
            check_each(rt, alloc, &text, (paths, &tree), KeyRule::Last)?;
            check_each(rt, alloc, &text, (paths, &tree), KeyRule::Refuse)?;
        }
    }
    Ok(())
}

#[test]
fn tells_all_texts_of_few_tokens_under_each_rule(rt: HostRuntime) -> Result<(), Fail> {
    for &paths in &RULED[..2] {
        check_all(&rt, rt.alloc(), &TOKENS, paths)?;
    }
    Ok(())
}

#[test]
fn tells_all_texts_of_few_members_with_indexes(rt: HostRuntime) -> Result<(), Fail> {
    for &paths in &RULED[2..] {
        check_all(&rt, rt.alloc(), &MEMBERS, paths)?;
    }
    Ok(())
}

#[test]
fn tells_all_texts_of_few_values_under_each_rule(rt: HostRuntime) -> Result<(), Fail> {
    for &paths in &BELOW[..2] {
        check_all(&rt, rt.alloc(), &VALUES, paths)?;
    }
    Ok(())
}

// Texts, and whether they have no status of a request.
const ABSENT: [(&str, bool); 6] = [
    ("{}", true),
    ("{\"http\":{}}", true),
    ("{\"http\":{\"a\":1}}", true),
    ("{\"http\":null}", true),
    ("{\"http\":{\"status\":null}}", false),
    ("{\"http\":200}", false),
];

#[test]
fn says_what_is_absent(rt: HostRuntime) -> Result<(), Fail> {
    let alloc = rt.alloc();
    let tree = tree_of(&rt, alloc, &[&[Key("http"), Key("status")]]);
    for &(text, absent) in &ABSENT {
        for outcome in &get_each(alloc, text, &tree)? {
            same_at(&rt, outcome.is_absent(), absent, text);
        }
    }
    let tree = tree_of(&rt, alloc, &[&[Index(1)]]);
    for text in ["[]", "[1]"] {
        for outcome in &get_each(alloc, text, &tree)? {
            assert!(&rt; outcome.is_absent(), "{text}");
        }
    }
    Ok(())
}

// Half of so many paths fail, and the walk goes on after each.
const MANY: usize = 20_000;

#[test]
fn goes_on_after_ten_thousand_fails(rt: HostRuntime) -> Result<(), Fail> {
    let alloc = rt.alloc();
    let mut tree = PointerTree::new(alloc);
    let mut text = Vec::new(alloc);
    text.push(b'[')?;
    for i in 0..MANY {
        tree.add_path(alloc, &[Index(i), Key("x")])?;
        text.extend_from_slice(if i % 2 == 0 {
            b"{\"x\":1},"
        } else {
            b"null,   "
        })?;
    }
    text.extend_from_slice(b"0]")?;
    let told = find_each(alloc, text.as_slice(), &tree, KeyRule::First)?;
    same(&rt, told.len(), MANY);
    for (i, outcome) in told.iter().enumerate() {
        let start = 1 + 8 * i;
        let wanted = match i % 2 {
            0 => Found(Span {
                start: start + 5,
                end: start + 6,
            }),
            _ => Fails(Stop {
                place: start + 3,
                code: NULL_FOR_OBJECT,
            }),
        };
        same(&rt, *outcome, wanted);
    }
    Ok(())
}

#[test]
fn the_first_of_equal_keys_counts(rt: HostRuntime) -> Result<(), Fail> {
    let tree = tree_of(&rt, rt.alloc(), &[&[Key("a")]]);
    let text = "{\"a\":1,\"a\":2}";
    let outcomes = get_each(rt.alloc(), text, &tree)?;
    check_told(
        &rt,
        text.as_bytes(),
        &[&[Key("a")]],
        &outcomes,
        &[Found(Span { start: 5, end: 6 })],
    );
    Ok(())
}
