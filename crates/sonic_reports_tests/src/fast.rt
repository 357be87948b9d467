// Whole runs of `fast` over memory, beside those of `get`: what comes in, what goes out, and the status.
use crate::rows::check_run;
use sonic_reports::Status;
use std::alloc::Global;
use std::process::Abort;
use std::test::Fail;

// An input and what is written for it.
type Row = (&'static [u8], &'static str);

// Valid documents, of which `fast` and `get` write the same.
const FOUND: [Row; 7] = [
    (b"[\"a\"]\n\n{\"a\":1}", "1 1\n"),
    // A key that is absent.
    (b"[\"b\"]\n[\"a\"]\n\n {\"a\" : [ ]}\n", "-\n3 [ ]\n"),
    (
        b"[1,\"a\"]\n[0]\n\n[ {} , {\"a\":\"\\n\"} ]",
        "4 \"\\n\"\n2 {}\n",
    ),
    (b"[]\n\n 1.50\r\n\t", "4 1.50\n"),
    (b"\nnull", ""),
    // More paths than are followed one by one.
    (
        b"[0]\n[1]\n[2]\n[3]\n[4]\n[0]\n\n[1,[2],\"3\",{\"4\":4},5]",
        "1 1\n3 [2]\n3 \"3\"\n7 {\"4\":4}\n1 5\n1 1\n",
    ),
    // The first of equal keys, and keys that are compared unescaped.
    (
        b"[\"\\u00e9\"]\n\n{\"\xc3\xa9\":\"\xc3\xa9\",\"\xc3\xa9\":0}",
        "4 \"\u{e9}\"\n",
    ),
];

const LOST: [Row; 2] = [
    (
        b"[\"a\"]\n[\"a\",\"b\"]\n\n{\"a\":{\n},\"b\":0,\"a\":2}",
        "! not-found GetInEmptyObject 2 1 7\n",
    ),
    (
        b"[0]\n[2]\n\n[1, 2]",
        "! not-found GetIndexOutOfArray 1 6 5\n",
    ),
];

// An input, what `fast` writes of a document that is none, and what `get` writes of its beginning.
type Invalid = (&'static [u8], &'static str, &'static str);

const INVALID: [Invalid; 7] = [
    (
        b"[\"a\"]\n\n{\"a\":1}\nx",
        "! syntax TrailingCharacters 2 1 8\n",
        "1 1\n",
    ),
    (b"[]\n\n1 2", "! syntax TrailingCharacters 1 3 2\n", "1 1\n"),
    // Broken UTF-8 after the value that is asked for, inside the document and after it.
    (
        b"[\"a\"]\n\n{\"a\": 1, \"b\": \"\xff\"}",
        "! syntax InvalidUTF8 1 16 15\n",
        "1 1\n",
    ),
    (
        b"[\"a\"]\n\n{\"a\":1}\xff",
        "! syntax TrailingCharacters 1 8 7\n",
        "1 1\n",
    ),
    // A fault after the value that is asked for.
    (
        b"[\"a\"]\n\n{\"a\":1,\"b\":tru}",
        "! syntax InvalidLiteral 1 15 14\n",
        "1 1\n",
    ),
    // Nothing is asked for.
    (b"", "! eof EofWhileParsing 1 1 0\n", ""),
    (b"\n}{", "! syntax InvalidJsonValue 1 1 0\n", ""),
];

// Words that are none of `fast`, an input, its report, and the status.
type Beside = (&'static [&'static str], &'static [u8], &'static str, Status);

const BESIDE: [Beside; 5] = [
    (&["fas"], b"", "! usage\n", Status::BadUsage),
    (&["faster"], b"", "! usage\n", Status::BadUsage),
    (&["fast", "fast"], b"", "! usage\n", Status::BadUsage),
    (&["list"], b"[1] x", "1 1\n", Status::Done),
    (
        &["fill"],
        b"{\"a\":0}\n{\"a\":1}",
        "{\"a\":1}\n",
        Status::Done,
    ),
];

// An array of one string: 61 letters, an escaped quote and a bracket.
pub(crate) const ESCAPED: &str =
    "[\"aaaaaaaaaaaaaaaaaaaaaaaaaaaaaaaaaaaaaaaaaaaaaaaaaaaaaaaaaaaaa\\\"]\"]";

const BAD: [Row; 2] = [
    (b"[\"a\"]\n[\"b\"\n\n}", "! paths 2\n"),
    (b"[\"a\"]\n[0]\n\n{}", "! paths 2\n"),
];

// Checks runs of `fast` and of `get`, which write the same.
fn check_both(rt: &impl Abort, alloc: Global, rows: &[Row], ending: Status) -> Result<(), Fail> {
    for (input, output) in rows {
        check_run(rt, alloc, &["fast"], input, output, ending)?;
        check_run(rt, alloc, &["get"], input, output, ending)?;
    }
    Ok(())
}

#[test]
fn writes_of_a_valid_document_what_get_does(rt: HostRuntime) -> Result<(), Fail> {
    check_both(&rt, rt.alloc(), &FOUND, Status::Done)?;
    check_both(&rt, rt.alloc(), &LOST, Status::DocumentError)
}

#[test]
fn tells_why_a_document_isnt_valid(rt: HostRuntime) -> Result<(), Fail> {
    let alloc = rt.alloc();
    for &(input, error, begun) in &INVALID {
        check_run(&rt, alloc, &["fast"], input, error, Status::DocumentError)?;
        check_run(&rt, alloc, &["get"], input, begun, Status::Done)?;
    }
    Ok(())
}

#[test]
fn tells_a_bad_line_before_the_document(rt: HostRuntime) -> Result<(), Fail> {
    check_both(&rt, rt.alloc(), &BAD, Status::BadLines)
}

#[test]
fn is_asked_for_by_its_word_alone(rt: HostRuntime) -> Result<(), Fail> {
    for &(words, input, output, ending) in &BESIDE {
        check_run(&rt, rt.alloc(), words, input, output, ending)?;
    }
    Ok(())
}

// A head, and the array after so many blanks.
pub(crate) fn shifted(alloc: Global, head: &[u8], blanks: usize) -> Result<Vec<u8>, Fail> {
    let mut input = Vec::from_slice(alloc, head)?;
    for _ in 0..blanks {
        input.push(b' ')?;
    }
    input.extend_from_slice(ESCAPED.as_bytes())?;
    Ok(input)
}

// The quote that is escaped comes to each place of a block of 64 bytes.
#[test]
fn finds_an_escaped_quote_at_each_place_of_a_block(rt: HostRuntime) -> Result<(), Fail> {
    let alloc = rt.alloc();
    let output = format!(in alloc; "68 {}\n", ESCAPED)?;
    for blanks in 0..64 {
        let input = shifted(alloc, b"[]\n\n", blanks)?;
        check_run(&rt, alloc, &["fast"], &input, &output, Status::Done)?;
    }
    Ok(())
}
