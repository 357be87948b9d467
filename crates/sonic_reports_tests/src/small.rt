// Whole runs of `min` over memory: what comes in, what goes out, and the status.
use crate::fast::{ESCAPED, shifted};
use crate::rows::check_run;
use sonic_reports::Status;
use std::test::Fail;

// An input, its report, and the status.
type Row = (&'static [u8], &'static str, Status);

const ROWS: [Row; 11] = [
    (
        b"{ \"a\" : [ 1 , \"x \\\" y\" ] }",
        "{\"a\":[1,\"x \\\" y\"]}\n",
        Status::Done,
    ),
    // One value alone, and containers without parts.
    (b"\t7\r\n", "7\n", Status::Done),
    (b"\" \"", "\" \"\n", Status::Done),
    (b"[ [ ] , { } ]", "[[],{}]\n", Status::Done),
    // Nothing of what is kept is written otherwise, and no member goes.
    (
        b"{\"b\": 1.50E+2, \"a\": \"\\u00e9\\/\", \"b\": -0}",
        "{\"b\":1.50E+2,\"a\":\"\\u00e9\\/\",\"b\":-0}\n",
        Status::Done,
    ),
    // A string that goes on in the next block of 64 bytes, after white space and before it.
    (
        b"[                                                         \"abc  def\"   , 2]",
        "[\"abc  def\",2]\n",
        Status::Done,
    ),
    // The refusals of a document.
    (
        b"{} x",
        "! syntax TrailingCharacters 1 4 3\n",
        Status::DocumentError,
    ),
    (
        b"[1",
        "! eof EofWhileParsing 1 2 1\n",
        Status::DocumentError,
    ),
    (b" ", "! eof EofWhileParsing 1 1 0\n", Status::DocumentError),
    (
        b"[1 2]",
        "! syntax ExpectedArrayCommaOrEnd 1 4 3\n",
        Status::DocumentError,
    ),
    (
        b"\"\xff\"",
        "! syntax InvalidUTF8 1 2 1\n",
        Status::DocumentError,
    ),
];

#[test]
fn writes_the_document_without_white_space(rt: HostRuntime) -> Result<(), Fail> {
    for &(input, output, ending) in &ROWS {
        check_run(&rt, rt.alloc(), &["min"], input, output, ending)?;
    }
    Ok(())
}

// Words that are none of `min`.
const WORDS: [&[&str]; 3] = [&["mi"], &["mins"], &["min", "2"]];

#[test]
fn is_asked_for_by_its_word_alone(rt: HostRuntime) -> Result<(), Fail> {
    for &words in &WORDS {
        check_run(&rt, rt.alloc(), words, b"", "! usage\n", Status::BadUsage)?;
    }
    Ok(())
}

// The quote that is escaped comes to each place of a block of 64 bytes.
#[test]
fn drops_blanks_before_each_place_of_a_block(rt: HostRuntime) -> Result<(), Fail> {
    let alloc = rt.alloc();
    let output = format!(in alloc; "{}\n", ESCAPED)?;
    for blanks in 0..64 {
        let input = shifted(alloc, b"", blanks)?;
        check_run(&rt, alloc, &["min"], &input, &output, Status::Done)?;
    }
    Ok(())
}
