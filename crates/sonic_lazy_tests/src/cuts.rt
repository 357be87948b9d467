// What no clause says in so few words: that each document, cut before its end, is told as cut by
// every call that reads it whole, and as wrong with a byte after it that doesn't fit.
use crate::one::starts;
use crate::same::{same, same_at};
use sonic_error::{Error, ErrorCode};
use sonic_find::find_unchecked;
use sonic_input::JsonInput;
use sonic_lazy::{Span, get, get_many, get_unchecked, validate};
use sonic_pointer::PointerTree;
use std::alloc::Global;
use std::process::Abort;
use std::test::Fail;

// Documents none of whose proper prefixes is one.
const DOCUMENTS: [&str; 60] = [
    "null",
    " true",
    "\r\n\tfalse",
    "\"\"",
    "\"a\"",
    "\"abcdefghijklmnopqrstuvwxyzabcdefghijklmnopqrstuvwxyzabcdefghijklmnopqrstuvwxyz\"",
    "\"\\\"\"",
    "\"\\\\\"",
    "\"\\/\\b\\f\\n\\r\\t\"",
    "\"\\u0041\"",
    "\"\\u00e9\\uABCD\\u0000\"",
    "\"\\ud83d\\ude00\"",
    "\"\\uDBFF\\uDFFF!\"",
    "\"\u{7f}\u{e9}\u{20ac}\u{1F600}\"",
    "\" : , ] } [ { \"",
    "[]",
    "[ ]",
    "[\n]",
    "[0]",
    "[-0]",
    "[10]",
    "[1.5]",
    "[-12.50]",
    "[1e5]",
    "[1E+5]",
    "[0.1e-10]",
    "[1234567890123456789012345678901234567890]",
    "[null]",
    "[true,false]",
    "[ null , true ]",
    "[\"a\",\"b\"]",
    "[1,2,3]",
    "[1 ,2 ,3 ]",
    "[[]]",
    "[[],[]]",
    "[[[[[[[[]]]]]]]]",
    "[[1],[2,[3]]]",
    "[{}]",
    "[{},{}]",
    "{}",
    "{ }",
    "{\"\":0}",
    "{\"a\":1}",
    "{ \"a\" : 1 }",
    "{\"a\":null}",
    "{\"a\":\"\"}",
    "{\"a\":[]}",
    "{\"a\":{}}",
    "{\"a\":1,\"b\":2}",
    "{\"a\":1 , \"b\":2}",
    "{\"a\":1,\"a\":2}",
    "{\"\\u0061\":1,\"\\n\":2}",
    "{\"a\":{\"b\":{\"c\":{\"d\":[]}}}}",
    "{\"a\":[1,{\"b\":[true,{\"c\":\"d\"}]}]}",
    "[{\"id\":1,\"ok\":true},{\"id\":2,\"ok\":false}]",
    "{\"\u{e9}\":\"\u{20ac}\",\"x\":-1.0e-1}",
    "{\"}\":\"{\",\"]\":\"[\"}",
    "[\"\\\\\",\"\\\\\\\"\",\"]\"]",
    "[0                                                                                   ]",
    "{\n  \"ts\": \"2024-05-01T12:00:00Z\",\n  \"user\": { \"id\": 42, \"name\": \"Zo\\u00eb\" },\n  \"tags\": [\"api\", \"v2\"],\n  \"meta\": { \"ms\": 12.5 }\n}",
];

// Checks that there is an error at this offset, of the end of the input or of something else.
fn check<T>(rt: &impl Abort, answer: Result<T, Error>, offset: usize, end: bool) {
    match answer {
        Ok(_) => panic!(rt; "no error at {offset}"),
        Err(error) => {
            same_at(rt, error.offset(), offset, error);
            same_at(rt, error.code() == ErrorCode::EofWhileParsing, end, error);
            same_at(rt, error.is_eof(), end, error);
            same_at(rt, error.is_syntax(), !end, error);
        }
    }
}

// Checks the same of all calls that read the root to its end.
fn check_all<'de, I: JsonInput<'de>>(
    rt: &impl Abort,
    alloc: Global,
    text: I,
    tree: &PointerTree,
    offset: usize,
    end: bool,
) {
    check(rt, validate(alloc, text), offset, end);
    check(rt, get(alloc, text, &[]), offset, end);
    check(rt, get_many(alloc, text, tree), offset, end);
}

// A control character fits nowhere, and what comes after it makes nothing good.
#[test]
fn tells_cut_documents_from_wrong_ones(rt: HostRuntime) -> Result<(), Fail> {
    let alloc = rt.alloc();
    let mut root = PointerTree::new(alloc);
    root.add_path(alloc, &[])?;
    for &document in &DOCUMENTS {
        let document = document.as_bytes();
        assert!(&rt; validate(alloc, document).is_ok());
        for end in 0..document.len() {
            let prefix = &document[..end];
            check_all(&rt, alloc, prefix, &root, end.saturating_sub(1), true);
            let mut wrong = Vec::from_slice(alloc, prefix)?;
            wrong.push(1)?;
            check_all(&rt, alloc, wrong.as_slice(), &root, end, false);
            wrong.extend_from_slice(&document[end..])?;
            check_all(&rt, alloc, wrong.as_slice(), &root, end, false);
        }
    }
    Ok(())
}

// An array of one string: so many letters, and so many backslashes before its last quote.
fn backslashes(alloc: Global, letters: usize, count: usize) -> Result<Vec<u8>, Fail> {
    let mut text = Vec::from_slice(alloc, b"[\"")?;
    for _ in 0..letters {
        text.push(b'a')?;
    }
    for _ in 0..count {
        text.push(b'\\')?;
    }
    text.extend_from_slice(b"\"]")?;
    Ok(text)
}

#[test]
fn takes_a_quote_for_the_end_after_an_even_run_of_backslashes(rt: HostRuntime) -> Result<(), Fail> {
    let alloc = rt.alloc();
    for letters in 0..128 {
        for count in 0..6 {
            let text = backslashes(alloc, letters, count)?;
            let text = text.as_slice();
            if count % 2 == 1 {
                let last = letters + count + 3;
                check(&rt, get(alloc, text, &[]), last, true);
                continue;
            }
            let found = get(alloc, text, &[]).map_err(|_| "no value")?;
            same(&rt, found.as_raw_str().as_bytes(), text);
            if starts(alloc, text) {
                let found = get_unchecked(text, &[]).map_err(|_| "no value")?;
                same(&rt, found.as_raw_str().as_bytes(), text);
            }
        }
    }
    Ok(())
}

// An array of one string, in which a quote after a backslash and a bracket come before the last quote.
const ESCAPED: &str = "[\"aaaaaaaaaaaaaaaaaaaaaaaaaaaaaaaaaaaaaaaaaaaaaaaaaaaaaaaaaaaaa\\\"]\"]";

#[test]
fn finds_an_escaped_quote_at_each_place_of_a_block(rt: HostRuntime) -> Result<(), Fail> {
    let alloc = rt.alloc();
    for blanks in 0..64 {
        let mut text = String::new(alloc);
        for _ in 0..blanks {
            text.push(' ')?;
        }
        text.push_str(ESCAPED)?;
        let text = text.as_str();
        assert!(&rt; starts(alloc, text.as_bytes()));
        let value = get_unchecked(text, &[]).map_err(|_| "no value")?;
        same_at(&rt, value.as_raw_str(), ESCAPED, blanks);
        let span = find_unchecked(text, &[]).map_err(|_| "no span")?;
        let end = blanks + ESCAPED.len();
        same_at(&rt, span, Span { start: blanks, end }, blanks);
    }
    Ok(())
}
