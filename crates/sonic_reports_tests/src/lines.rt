// Whole runs of `lines` over memory: what comes in, what goes out, and the status.
use crate::rows::check_run;
use sonic_reports::Status;
use std::test::Fail;

// An input, its report, and the status.
type Row = (&'static [u8], &'static str, Status);

const ROWS: [Row; 16] = [
    (
        b"[\"id\"]\n[\"t\",0]\n\n{\"id\":7,\"t\":[\"x\"]}\n{\"id\":8}\n\n{\"id\":tru}",
        "1 7\t3 \"x\"\n1 8\t-\n! 4 syntax InvalidLiteral 9\n",
        Status::DocumentError,
    ),
    (b"[\"id\"]\n\n", "", Status::Done),
    // The head without its empty line.
    (b"[\"id\"]", "", Status::Done),
    // Blank lines of each kind count.
    (
        b"[]\n\n\n \n\t\n\r\n \t\r\n]",
        "! 6 syntax InvalidJsonValue 0\n",
        Status::DocumentError,
    ),
    // The last line, with a line feed and without, and one that is blank.
    (b"[]\n\n1\n2\n", "1 1\n1 2\n", Status::Done),
    (b"[]\n\n1\n2", "1 1\n1 2\n", Status::Done),
    (b"[]\n\n1\n ", "1 1\n", Status::Done),
    // No path.
    (b"\n1\n\n}\n\xff", "\n\n\n", Status::Done),
    // Lines that end with a carriage return too.
    (
        b"[\"a\"]\n\n{\"a\":1}\r\n{\"a\":2}\r\n",
        "1 1\n1 2\n",
        Status::Done,
    ),
    // What follows the answer in a line plays no part, and neither does another line.
    (
        b"[\"a\"]\n\n{\"a\":1} x\n{\"a\":2,\n}",
        "1 1\n1 2\n! 3 syntax InvalidJsonValue 0\n",
        Status::DocumentError,
    ),
    // UTF-8 that is broken beside lines that are good, and after what a line is asked for.
    (
        b"[\"a\"]\n\n{\"a\":\"\xc3\xa9\"}\n{\"a\":\"\xff\"}\n{\"a\":1,\"b\":\"\xff\"}",
        "4 \"\u{e9}\"\n! 2 syntax InvalidUTF8 6\n1 1\n",
        Status::DocumentError,
    ),
    // A key that is absent, and paths that lead nowhere.
    (
        b"[\"a\",0]\n[\"b\"]\n\n{\"a\":[1]}\n{\"a\":[]}\n{\"a\":1}\n{}",
        "1 1\t-\n! 2 not-found GetInEmptyArray 6\n! 3 type Message 5\n! 4 not-found GetInEmptyObject 1\n",
        Status::DocumentError,
    ),
    // A text that is cut at the end of its line.
    (
        b"[0]\n\n[\"a\nb\"]",
        "! 1 eof EofWhileParsing 2\n! 2 syntax InvalidJsonValue 0\n",
        Status::DocumentError,
    ),
    // The first of equal keys.
    (b"[\"a\"]\n\n{\"a\":1,\"a\":2}", "1 1\n", Status::Done),
    // A bad line of the head comes before the stream.
    (b"[\"a\"]\n[0]\n\n}", "! paths 2\n", Status::BadLines),
    (b"[\"a\"\n\n}", "! paths 1\n", Status::BadLines),
];

#[test]
fn writes_a_row_for_each_line(rt: HostRuntime) -> Result<(), Fail> {
    for &(input, output, ending) in &ROWS {
        check_run(&rt, rt.alloc(), &["lines"], input, output, ending)?;
    }
    Ok(())
}

// Words that are none of `lines`.
const WORDS: [&[&str]; 3] = [&["line"], &["liness"], &["lines", "lines"]];

#[test]
fn is_asked_for_by_its_word_alone(rt: HostRuntime) -> Result<(), Fail> {
    for &words in &WORDS {
        check_run(&rt, rt.alloc(), words, b"", "! usage\n", Status::BadUsage)?;
    }
    Ok(())
}
