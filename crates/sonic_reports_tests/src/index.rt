// Whole runs of `index` over memory: what comes in, what goes out, and the status.
use crate::rows::check_run;
use sonic_reports::Status;
use std::test::Fail;

// An input, its report, and the status.
type Row = (&'static [u8], &'static str, Status);

const ROWS: [Row; 14] = [
    (
        b"{\"a\":[1,{}]}",
        "0 0 object 0 12 root\n1 0 array 5 11 key \"a\"\n2 1 number 6 7 at 0\n3 1 object 8 10 at 1\n",
        Status::Done,
    ),
    // One value alone, of each type.
    (b" null\n", "0 0 null 1 5 root\n", Status::Done),
    (b"true", "0 0 boolean 0 4 root\n", Status::Done),
    (b"-0.5e3 ", "0 0 number 0 6 root\n", Status::Done),
    (b"\"\\n\"", "0 0 string 0 4 root\n", Status::Done),
    (b"[ ]", "0 0 array 0 3 root\n", Status::Done),
    // A key as it stands, an empty one, and equal ones.
    (
        b"{\"\\u0061\":1,\"\":2,\"a\":3,\"a\":[]}",
        "0 0 object 0 30 root\n1 0 number 10 11 key \"\\u0061\"\n2 0 number 15 16 key \"\"\n3 0 number 21 22 key \"a\"\n4 0 array 27 29 key \"a\"\n",
        Status::Done,
    ),
    // Elements of containers that were closed before.
    (
        b"[[[1]],2]",
        "0 0 array 0 9 root\n1 0 array 1 6 at 0\n2 1 array 2 5 at 0\n3 2 number 3 4 at 0\n4 0 number 7 8 at 1\n",
        Status::Done,
    ),
    // The refusals of a document.
    (b"", "! eof EofWhileParsing 1 1 0\n", Status::DocumentError),
    (
        b"[1",
        "! eof EofWhileParsing 1 2 1\n",
        Status::DocumentError,
    ),
    (
        b"[1,\n]",
        "! syntax InvalidJsonValue 2 1 4\n",
        Status::DocumentError,
    ),
    (
        b"[1] 2",
        "! syntax TrailingCharacters 1 5 4\n",
        Status::DocumentError,
    ),
    (
        b"[\"\xff\"]",
        "! syntax InvalidUTF8 1 3 2\n",
        Status::DocumentError,
    ),
    (
        b"{\"a\" 1}",
        "! syntax ExpectedColon 1 6 5\n",
        Status::DocumentError,
    ),
];

#[test]
fn writes_a_line_for_each_value(rt: HostRuntime) -> Result<(), Fail> {
    for &(input, output, ending) in &ROWS {
        check_run(&rt, rt.alloc(), &["index"], input, output, ending)?;
    }
    Ok(())
}

// Short keys and long ones are written in other ways.
#[test]
fn writes_keys_of_each_length(rt: HostRuntime) -> Result<(), Fail> {
    let alloc = rt.alloc();
    let mut key = String::new(alloc);
    for length in 0..75usize {
        let (start, end, last) = (length + 4, length + 5, length + 6);
        let input = format!(in alloc; "{{\"{key}\":7}}")?;
        let root = format!(in alloc; "0 0 object 0 {last} root\n")?;
        let output = format!(in alloc; "{root}1 0 number {start} {end} key \"{key}\"\n")?;
        check_run(
            &rt,
            alloc,
            &["index"],
            input.as_bytes(),
            output.as_str(),
            Status::Done,
        )?;
        key.push('k')?;
    }
    Ok(())
}

// Words that are none of `index`.
const WORDS: [&[&str]; 3] = [&["inde"], &["indexes"], &["index", "0"]];

#[test]
fn is_asked_for_by_its_word_alone(rt: HostRuntime) -> Result<(), Fail> {
    for &words in &WORDS {
        check_run(&rt, rt.alloc(), words, b"", "! usage\n", Status::BadUsage)?;
    }
    Ok(())
}
