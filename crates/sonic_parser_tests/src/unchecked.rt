// The skips of a value that is known to be whole: they come to the place where it ends, as the checked
// ones do, which say first that it is there.
ghost use Rattle.std.specs.Prelude.{◌≡◌};

use crate::reference::text_of_number;
use crate::same::{same, same_at};
use sonic_input::Read;
use sonic_parser::{ParseStatus, Parser, ValueSpan};
use std::alloc::Global;
use std::process::Abort;
use std::test::Fail;

const PLAIN: ParseStatus = ParseStatus::None;

const ESCAPED: ParseStatus = ParseStatus::HasEscaped;

const DEPTH: usize = 100_000;

// A text, where its value begins and ends, and the status.
type Whole<'a> = (&'a [u8], usize, usize, ParseStatus);

fn parser_of(text: &[u8], lossy: bool) -> Parser<'_>
    ensures text { result.text ≡ text.now }
    ensures place { result.place ≡ 0 }
    ensures lossy { result.lossy ≡ lossy }
{
    let parser = Parser::new(Read::from(text));
    if lossy { parser.utf8_lossy() } else { parser }
}

fn check_parsers(rt: &impl Abort, alloc: Global, whole: Whole<'_>, lossy: bool) {
    let (text, start, end, status) = whole;
    assert!(rt; start <= end && end <= text.len());
    let value = &text[start..end];
    let mut checked = parser_of(text, lossy);
    let mut unchecked = parser_of(text, lossy);
    match checked.skip_one(alloc) {
        Ok(found) => {
            same_at(rt, found, (value, status), text);
            let other = unchecked.skip_one_unchecked();
            same_at(rt, other, (value, status), text);
            same_at(rt, unchecked.offset(), end, text);
        }
        Err(_) => panic!(rt; "no value in {text:?}"),
    }
}

// In both ways of reading.
fn check(rt: &impl Abort, alloc: Global, whole: Whole<'_>) {
    check_parsers(rt, alloc, whole, false);
    check_parsers(rt, alloc, whole, true);
}

#[test]
fn skips_a_value_at_the_cursor(rt: HostRuntime) {
    let alloc = rt.alloc();
    let text = b"{\"a\":\"}\"},1";
    let mut checked = Parser::new(Read::from(&text[..]));
    let mut unchecked = Parser::new(Read::from(&text[..]));
    match checked.skip_value(alloc) {
        Ok(value) => {
            same(&rt, value, ValueSpan::plain(0, 9));
            same(&rt, unchecked.skip_value_unchecked(), value);
            same(&rt, unchecked.offset(), 9);
            same(&rt, unchecked.skip_space(), Some(b','));
        }
        Err(_) => panic!(&rt; "no value in {text:?}"),
    }
}

const SCALARS: [Whole<'static>; 14] = [
    (b"null", 0, 4, PLAIN),
    (b" true", 1, 5, PLAIN),
    (b"\tfalse", 1, 6, PLAIN),
    (b"0", 0, 1, PLAIN),
    (b"\r\n -1.5e+7", 3, 10, PLAIN),
    (b"1.2.3", 0, 3, PLAIN),
    (b"\"\"", 0, 2, PLAIN),
    (b"\"a\"", 0, 3, PLAIN),
    (b"\"\\\"\"", 0, 4, ESCAPED),
    (b" \"\\\\\"\\\"", 1, 5, ESCAPED),
    (b"\"\\u00e9\"\"", 0, 8, ESCAPED),
    (b"nullx", 0, 4, PLAIN),
    (b"falsetrue", 0, 5, PLAIN),
    (b"\"a\"\\", 0, 3, PLAIN),
];

const CONTAINERS: [Whole<'static>; 16] = [
    (b"[]", 0, 2, PLAIN),
    (b" { } ", 1, 4, PLAIN),
    (b"[]]", 0, 2, PLAIN),
    (b"[[]][", 0, 4, PLAIN),
    (b"{}}{", 0, 2, PLAIN),
    (b"[{},[{}]]]", 0, 9, PLAIN),
    (b"{\"a\":[{\"b\":{}}]}}", 0, 16, PLAIN),
    (b"[\"]\"]", 0, 5, PLAIN),
    (b"[\"[\"]]", 0, 5, PLAIN),
    (b"{\"}\":\"{\"}}", 0, 9, PLAIN),
    (b"{\"{\\\"}\":1}}", 0, 10, PLAIN),
    (b"[\"\\\"]\",\"\\\\\"]]", 0, 12, PLAIN),
    (b"[\"\\\\\\\"]\"]]", 0, 9, PLAIN),
    (b"[\n1,\n-2.5e3,\ttrue\n]1", 0, 19, PLAIN),
    (b"[ 1 , null , \"\" ]\"", 0, 17, PLAIN),
    (b"{ \"a\" : [ 1 ] , \"b\" : { } }\\", 0, 27, PLAIN),
];

#[test]
fn skips_scalars(rt: HostRuntime) {
    let alloc = rt.alloc();
    for whole in &SCALARS {
        check(&rt, alloc, *whole);
    }
}

#[test]
fn counts_the_brackets_of_one_kind_outside_strings(rt: HostRuntime) {
    let alloc = rt.alloc();
    for whole in &CONTAINERS {
        check(&rt, alloc, *whole);
    }
}

#[test]
fn skips_single_surrogates_in_the_lossy_way(rt: HostRuntime) {
    let alloc = rt.alloc();
    check_parsers(&rt, alloc, (b"\"\\ud800\",", 0, 8, ESCAPED), true);
    check_parsers(&rt, alloc, (b"[\"\\udc00]\"]]", 0, 11, PLAIN), true);
    check_parsers(
        &rt,
        alloc,
        (b"{\"\\ud800\\\\\":\"\\udbff\\\"}\"}}", 0, 24, PLAIN),
        true,
    );
}

fn push_times(text: &mut Vec<u8>, part: &[u8], times: usize) -> Result<(), Fail> {
    for _ in 0..times {
        text.extend_from_slice(part)?;
    }
    Ok(())
}

// An array of a string that has a run of backslashes after so many bytes. An odd run escapes the
// quote after it.
fn text_with_run(alloc: Global, bytes: usize, run: usize) -> Result<Vec<u8>, Fail> {
    let mut text = Vec::new(alloc);
    text.extend_from_slice(b"[\"")?;
    push_times(&mut text, b"x", bytes)?;
    push_times(&mut text, b"\\", run)?;
    push_times(&mut text, b"\"", run % 2)?;
    text.extend_from_slice(b"]}[\"]")?;
    Ok(text)
}

#[test]
fn passes_runs_of_backslashes_at_each_offset(rt: HostRuntime) -> Result<(), Fail> {
    let alloc = rt.alloc();
    for bytes in 0..64 {
        for run in 0..131 {
            let mut text = text_with_run(alloc, bytes, run)?;
            let end = text.len();
            check(&rt, alloc, (&text, 0, end, PLAIN));
            text.extend_from_slice(b"]\"\\\"")?;
            check(&rt, alloc, (&text, 0, end, PLAIN));
        }
    }
    Ok(())
}

// What comes before and after a run of bytes in a string that is part of a container.
const AROUND: [(&[u8], &[u8]); 7] = [
    (b"[\"", b"\"]"),
    (b"{\"", b"\":[]}"),
    (b"[[\"]", b"\",{}]]"),
    (b"{\"}\":[{\"{", b"\":{}}]}"),
    (b"[{\"]\\\"", b"}\":\"\\\\\"},[[]]]"),
    (b"{\"\\u0022}\":\"", b"\\\"}\"}"),
    (b"[1,-2.5e3,\"\",\"", b"\",null,[[[[[[[[]]]]]]]],true]"),
];

// What may come after a container: more brackets, an open string and an open escape.
const BEYOND: &[u8; 10] = b"]}\"]}[{\"\\\\";

// A container with a run of so many bytes, between what comes before and after it.
fn container_with_run(
    alloc: Global,
    around: (&[u8], &[u8]),
    bytes: usize,
) -> Result<Vec<u8>, Fail> {
    let (before, after) = around;
    let mut text = Vec::new(alloc);
    text.extend_from_slice(before)?;
    push_times(&mut text, b"x", bytes)?;
    text.extend_from_slice(after)?;
    Ok(text)
}

#[test]
fn ends_at_each_place_of_a_block(rt: HostRuntime) -> Result<(), Fail> {
    let alloc = rt.alloc();
    for around in &AROUND {
        for bytes in 0..131 {
            let mut text = container_with_run(alloc, *around, bytes)?;
            let end = text.len();
            check(&rt, alloc, (&text, 0, end, PLAIN));
            text.extend_from_slice(BEYOND)?;
            check(&rt, alloc, (&text, 0, end, PLAIN));
            push_times(&mut text, BEYOND, 7)?;
            check(&rt, alloc, (&text, 0, end, PLAIN));
        }
    }
    Ok(())
}

// Openings over several blocks, of which the last ones end a block and the whole together.
#[test]
fn counts_over_many_blocks(rt: HostRuntime) -> Result<(), Fail> {
    let alloc = rt.alloc();
    for depth in 1..200 {
        let mut text = Vec::new(alloc);
        push_times(&mut text, b"[", depth)?;
        push_times(&mut text, b"]", depth)?;
        let end = text.len();
        check(&rt, alloc, (&text, 0, end, PLAIN));
        text.extend_from_slice(BEYOND)?;
        check(&rt, alloc, (&text, 0, end, PLAIN));
    }
    Ok(())
}

// So many openings one after the other, and as many endings, and one more.
fn check_deep(rt: &impl Abort, alloc: Global, open: &[u8], close: &[u8]) -> Result<(), Fail> {
    let mut text = Vec::new(alloc);
    push_times(&mut text, open, DEPTH)?;
    text.extend_from_slice(b"{}")?;
    push_times(&mut text, close, DEPTH)?;
    let end = text.len();
    text.extend_from_slice(close)?;
    check(rt, alloc, (&text, 0, end, PLAIN));
    Ok(())
}

#[test]
fn skips_deep_values(rt: HostRuntime) -> Result<(), Fail> {
    let alloc = rt.alloc();
    check_deep(&rt, alloc, b"[", b"]")?;
    check_deep(&rt, alloc, b"{\"\":", b"}")?;
    check_deep(&rt, alloc, b"[{\"]\":", b"}]")
}

// Where a text has a value, both skips find it.
fn check_text(rt: &impl Abort, alloc: Global, text: &[u8]) {
    let mut checked = Parser::new(Read::from(text));
    let mut unchecked = Parser::new(Read::from(text));
    if let Ok(found) = checked.skip_one(alloc) {
        same_at(rt, unchecked.skip_one_unchecked(), found, text);
        same_at(rt, unchecked.offset(), checked.offset(), text);
    }
}

fn check_texts(rt: &impl Abort, alloc: Global, length: u8, count: usize) -> Result<(), Fail> {
    for n in 0..count {
        let text = text_of_number(alloc, n, length)?;
        check_text(rt, alloc, &text);
    }
    Ok(())
}

#[test]
fn skips_the_value_of_each_short_text(rt: HostRuntime) -> Result<(), Fail> {
    let alloc = rt.alloc();
    check_texts(&rt, alloc, 1, 10)?;
    check_texts(&rt, alloc, 2, 100)?;
    check_texts(&rt, alloc, 3, 1_000)?;
    check_texts(&rt, alloc, 4, 10_000)?;
    check_texts(&rt, alloc, 5, 100_000)
}
