// Whole runs of `indent` over memory: what comes in, what goes out, and the status.
use crate::rows::check_run;
use sonic_reports::Status;
use std::test::Fail;

// The number of blanks, an input, its report, and the status.
type Row = (&'static str, &'static [u8], &'static str, Status);

const ROWS: [Row; 13] = [
    (
        "2",
        b"{\"a\":[1,{}],\"b\":[]}",
        "{\n  \"a\": [\n    1,\n    {}\n  ],\n  \"b\": []\n}\n",
        Status::Done,
    ),
    // With no blanks each part still has its line, and with eight it begins after eight.
    ("0", b"[1,[2]]", "[\n1,\n[\n2\n]\n]\n", Status::Done),
    (
        "8",
        b"[[1]]",
        "[\n        [\n                1\n        ]\n]\n",
        Status::Done,
    ),
    // One value alone, and containers without parts.
    ("4", b"\t7\r\n", "7\n", Status::Done),
    ("1", b"\" \"", "\" \"\n", Status::Done),
    ("1", b"[ [ ] , { } ]", "[\n [],\n {}\n]\n", Status::Done),
    // Nothing of what is kept is written otherwise, and no member goes.
    (
        "1",
        b"{\"b\" :1.50E+2,\"a\": \"\\u00e9\\/\",\"b\":\n-0}",
        "{\n \"b\": 1.50E+2,\n \"a\": \"\\u00e9\\/\",\n \"b\": -0\n}\n",
        Status::Done,
    ),
    // What is laid out already stays so.
    ("1", b"[\n 1,\n 2\n]\n", "[\n 1,\n 2\n]\n", Status::Done),
    // The refusals of a document.
    (
        "1",
        b"{} x",
        "! syntax TrailingCharacters 1 4 3\n",
        Status::DocumentError,
    ),
    (
        "1",
        b"[1",
        "! eof EofWhileParsing 1 2 1\n",
        Status::DocumentError,
    ),
    (
        "0",
        b" ",
        "! eof EofWhileParsing 1 1 0\n",
        Status::DocumentError,
    ),
    (
        "8",
        b"[1 2]",
        "! syntax ExpectedArrayCommaOrEnd 1 4 3\n",
        Status::DocumentError,
    ),
    (
        "2",
        b"\"\xff\"",
        "! syntax InvalidUTF8 1 2 1\n",
        Status::DocumentError,
    ),
];

#[test]
fn writes_the_document_over_lines(rt: HostRuntime) -> Result<(), Fail> {
    for &(width, input, output, ending) in &ROWS {
        check_run(&rt, rt.alloc(), &["indent", width], input, output, ending)?;
    }
    Ok(())
}

// Words that are none of `indent`.
const WORDS: [&[&str]; 12] = [
    &["indent"],
    &["indent", ""],
    &["indent", "9"],
    &["indent", "10"],
    &["indent", "00"],
    &["indent", "01"],
    &["indent", "+1"],
    &["indent", "-0"],
    &["indent", " 1"],
    &["indent", "a"],
    &["indents", "1"],
    &["indent", "1", "1"],
];

#[test]
fn takes_a_digit_up_to_8(rt: HostRuntime) -> Result<(), Fail> {
    for &words in &WORDS {
        check_run(&rt, rt.alloc(), words, b"", "! usage\n", Status::BadUsage)?;
    }
    Ok(())
}
