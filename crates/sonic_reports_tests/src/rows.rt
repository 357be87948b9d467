// Whole runs over memory: what comes in, what goes out, and the status.
use crate::same::{same, same_at};
use sonic_io::{InputSource, MemorySink, RepeatSource, SureSink, SureSource};
use sonic_reports::{Status, run, run_surely};
use std::alloc::Global;
use std::io;
use std::io::{ErrorKind, Read};
use std::process::Abort;
use std::test::Fail;

// A run and what must come of it.
#[derive(Clone, Copy)]
struct Row {
    words: &'static [&'static str],
    input: &'static str,
    output: &'static str,
    status: Status,
}

// The row to vary: no word, and the first path of the README.
const PLAIN: Row = Row {
    words: &[],
    input: "[2,1]\n\n[1, null, [20, 300]]",
    output: "3 300\n",
    status: Status::Done,
};

const ERROR: Row = Row {
    status: Status::DocumentError,
    ..PLAIN
};

pub fn owned(alloc: Global, words: &[&str]) -> Result<Vec<String>, Fail> {
    let mut all = Vec::new(alloc);
    for word in words {
        all.push(String::from_str(alloc, word)?)?;
    }
    Ok(all)
}

fn check(rt: &impl Abort, alloc: Global, row: Row) -> Result<(), Fail> {
    check_run(
        rt,
        alloc,
        row.words,
        row.input.as_bytes(),
        row.output,
        row.status,
    )
}

pub fn check_run(
    rt: &impl Abort,
    alloc: Global,
    words: &[&str],
    input: &[u8],
    output: &str,
    ending: Status,
) -> Result<(), Fail> {
    let words = owned(alloc, words)?;
    let bytes = Vec::from_slice(alloc, input)?;
    let mut source = SureSource::new(bytes, 5);
    let mut sink = MemorySink::new(alloc, 4096, 3, Vec::new(alloc))
        .ok()
        .ok_or("no memory")?;
    let status = run(alloc, &words, &mut source, &mut sink);
    same_at(rt, status, ending, input);
    same_at(rt, sink.written(), output.as_bytes(), input);
    Ok(())
}

fn check_input(
    rt: &impl Abort,
    alloc: Global,
    input: &'static str,
    output: &'static str,
) -> Result<(), Fail> {
    check(
        rt,
        alloc,
        Row {
            input,
            output,
            ..PLAIN
        },
    )
}

fn check_error(
    rt: &impl Abort,
    alloc: Global,
    input: &'static str,
    output: &'static str,
) -> Result<(), Fail> {
    check(
        rt,
        alloc,
        Row {
            input,
            output,
            ..ERROR
        },
    )
}

fn check_bad_line(
    rt: &impl Abort,
    alloc: Global,
    input: &'static str,
    output: &'static str,
) -> Result<(), Fail> {
    let status = Status::BadLines;
    check(
        rt,
        alloc,
        Row {
            input,
            output,
            status,
            ..PLAIN
        },
    )
}

// A run that always runs out of memory would satisfy each clause.
#[test]
fn ample_memory_suffices(rt: HostRuntime) -> Result<(), Fail> {
    check(&rt, rt.alloc(), PLAIN)?;
    check(
        &rt,
        rt.alloc(),
        Row {
            words: &["get"],
            ..PLAIN
        },
    )
}

#[test]
fn gives_the_value_that_the_path_leads_to(rt: HostRuntime) -> Result<(), Fail> {
    let alloc = rt.alloc();
    check_input(&rt, alloc, "[0]\n\n[7, {", "1 7\n")?;
    check_input(&rt, alloc, "[]\n\n -5 x", "2 -5\n")?;
    check_input(
        &rt,
        alloc,
        "[]\n\n[ [ ] ,true,false ]]",
        "19 [ [ ] ,true,false ]\n",
    )?;
    check_input(&rt, alloc, " [ 1 ,\t0 ] \r\n \t\n[0,\r\n[0]]", "1 0\n")?;
    check_input(
        &rt,
        alloc,
        "[0,0]\n\n[[18446744073709551616]]",
        "20 18446744073709551616\n",
    )
}

#[test]
fn asks_for_nothing_without_a_line(rt: HostRuntime) -> Result<(), Fail> {
    let alloc = rt.alloc();
    check_input(&rt, alloc, "", "")?;
    check_input(&rt, alloc, "\n}{", "")?;
    check_input(&rt, alloc, " \t", "")
}

#[test]
fn reports_errors_of_the_document(rt: HostRuntime) -> Result<(), Fail> {
    let alloc = rt.alloc();
    check_error(
        &rt,
        alloc,
        "[3]\n\n[1]",
        "! not-found GetIndexOutOfArray 1 3 2\n",
    )?;
    check_error(
        &rt,
        alloc,
        "[0]\n\n[ ]",
        "! not-found GetInEmptyArray 1 3 2\n",
    )?;
    check_error(&rt, alloc, "[0]\n\n5", "! type Message 1 1 0\n")?;
    check_error(&rt, alloc, "[0]\n\n\"a\"", "! type Message 1 3 2\n")?;
    check_error(&rt, alloc, "[]\n\nnul", "! eof EofWhileParsing 1 3 2\n")?;
    check_error(&rt, alloc, "[0]", "! eof EofWhileParsing 1 1 0\n")?;
    check_error(&rt, alloc, "[]\n\nnx", "! syntax InvalidLiteral 1 2 1\n")?;
    check_error(&rt, alloc, "[]\n\n-x", "! syntax InvalidNumber 1 2 1\n")?;
    check_error(&rt, alloc, "[]\n\n01", "! syntax InvalidNumber 1 2 1\n")?;
    check_error(
        &rt,
        alloc,
        "[1]\n\n[\n1\r\n 2]",
        "! syntax ExpectedArrayCommaOrEnd 3 2 6\n",
    )?;
    check_error(
        &rt,
        alloc,
        "[1]\n\n[1,]",
        "! syntax InvalidJsonValue 1 4 3\n",
    )?;
    check_error(&rt, alloc, "[0]\n\n{\"a\":1}", "! type Message 1 7 6\n")
}

#[test]
fn reads_objects(rt: HostRuntime) -> Result<(), Fail> {
    let alloc = rt.alloc();
    check_input(&rt, alloc, "[0]\n\n[{}]", "2 {}\n")?;
    check_input(
        &rt,
        alloc,
        "[]\n\n {\"a\": [1, {}], \"b\" : null } x",
        "27 {\"a\": [1, {}], \"b\" : null }\n",
    )?;
    check_input(
        &rt,
        alloc,
        "[1,0]\n\n[{\"a\":[]},[{\"k\":\n{}}]]",
        "9 {\"k\":\n{}}\n",
    )?;
    check_input(&rt, alloc, "[1]\n\n[{\"]\":\"}\"},7,{", "1 7\n")?;
    check_error(
        &rt,
        alloc,
        "[1]\n\n[{\"a\":1,}, 7]",
        "! syntax ExpectObjectKeyOrEnd 1 9 8\n",
    )?;
    check_error(
        &rt,
        alloc,
        "[0,0]\n\n[{\"a\":1}, 7]",
        "! type Message 1 8 7\n",
    )?;
    check_error(
        &rt,
        alloc,
        "[1]\n\n[{\"a\":[]}]",
        "! not-found GetIndexOutOfArray 1 10 9\n",
    )
}

#[test]
fn reads_strings_and_fractions(rt: HostRuntime) -> Result<(), Fail> {
    let alloc = rt.alloc();
    check_input(&rt, alloc, "[0]\n\n[1.5]", "3 1.5\n")?;
    check_input(&rt, alloc, "[]\n\n1.2.3", "3 1.2\n")?;
    check_input(&rt, alloc, "[]\n\n1230/(xxx", "4 1230\n")?;
    check_input(
        &rt,
        alloc,
        "[1]\n\n[-1e-9, \"a\\\"]\u{e9}\"]",
        "8 \"a\\\"]\u{e9}\"\n",
    )?;
    check_input(
        &rt,
        alloc,
        "[]\n\n\"\\ud83d\\ude00\"",
        "14 \"\\ud83d\\ude00\"\n",
    )?;
    let escape = "! syntax InvalidUnicodeCodePoint 1 5 4\n";
    check_error(&rt, alloc, "[1]\n\n[\"\\u\"abc\",1]", escape)?;
    let surrogate = "! syntax InvalidSurrogateUnicodeCodePoint 1 5 4\n";
    check_error(&rt, alloc, "[]\n\n\"\\ude00\"", surrogate)
}

// Text that isn't UTF-8 is reported where it is, and only up to the end of what was found.
#[test]
fn reports_text_that_is_broken_before_the_end(rt: HostRuntime) -> Result<(), Fail> {
    let alloc = rt.alloc();
    let broken = b"[]\n\n\"222\x80\x90\"";
    let line = "! syntax InvalidUTF8 1 5 4\n";
    check_run(&rt, alloc, &[], broken, line, Status::DocumentError)?;
    let overlong = b"[]\n\n\"\xc0\x80\"";
    check_run(
        &rt,
        alloc,
        &[],
        overlong,
        "! syntax InvalidUTF8 1 2 1\n",
        Status::DocumentError,
    )?;
    let surrogate = b"[]\n\n\"a\xed\xa0\x80\"";
    check_run(
        &rt,
        alloc,
        &[],
        surrogate,
        "! syntax InvalidUTF8 1 3 2\n",
        Status::DocumentError,
    )?;
    let cut = b"[1]\n\n[\"\xe2\x82\", 7]";
    check_run(
        &rt,
        alloc,
        &[],
        cut,
        "! syntax InvalidUTF8 1 3 2\n",
        Status::DocumentError,
    )?;
    check_run(&rt, alloc, &[], b"[0]\n\n[1,\xff", "1 1\n", Status::Done)
}

#[test]
fn reports_bad_lines(rt: HostRuntime) -> Result<(), Fail> {
    let alloc = rt.alloc();
    check_bad_line(&rt, alloc, "[0\n\n[]", "! paths 1\n")?;
    check_bad_line(&rt, alloc, "[0]\nx", "! paths 2\n")?;
    check_bad_line(&rt, alloc, "x\n[0]\n\n[]", "! paths 1\n")?;
    check_bad_line(&rt, alloc, "[-1]\n\n[]", "! paths 1\n")?;
    check_bad_line(&rt, alloc, "[01]\n\n[]", "! paths 1\n")?;
    check_bad_line(&rt, alloc, "[1.0]\n\n[]", "! paths 1\n")?;
    check_bad_line(&rt, alloc, "[0,]\n\n[]", "! paths 1\n")?;
    check_bad_line(&rt, alloc, "[0] 1\n\n[]", "! paths 1\n")?;
    check_bad_line(&rt, alloc, "[18446744073709551616]\n\n[]", "! paths 1\n")?;
    check_error(
        &rt,
        alloc,
        "[18446744073709551615]\n\n[1]",
        "! not-found GetIndexOutOfArray 1 3 2\n",
    )
}

#[test]
fn refuses_other_words(rt: HostRuntime) -> Result<(), Fail> {
    let alloc = rt.alloc();
    let usage = Row {
        output: "! usage\n",
        status: Status::BadUsage,
        ..PLAIN
    };
    check(
        &rt,
        alloc,
        Row {
            words: &["got"],
            ..usage
        },
    )?;
    check(
        &rt,
        alloc,
        Row {
            words: &[""],
            ..usage
        },
    )?;
    check(
        &rt,
        alloc,
        Row {
            words: &["get", "list"],
            ..usage
        },
    )?;
    check(
        &rt,
        alloc,
        Row {
            words: &["gen", "0"],
            ..usage
        },
    )
}

// 100,000 repetitions of a text.
fn repeated(bytes: &mut Vec<u8>, text: &str) -> Result<(), Fail> {
    for _ in 0..100_000 {
        bytes.extend_from_slice(text.as_bytes())?;
    }
    Ok(())
}

// A number inside 100,000 repetitions of these brackets, under the path of the line.
fn nested(alloc: Global, line: &str, opening: &str, closing: &str) -> Result<Vec<u8>, Fail> {
    let mut bytes = Vec::from_slice(alloc, line.as_bytes())?;
    repeated(&mut bytes, opening)?;
    bytes.push(b'0')?;
    repeated(&mut bytes, closing)?;
    Ok(bytes)
}

// What `get` writes of an input, where it has at most so many bytes.
fn written(alloc: Global, input: Vec<u8>, room: usize) -> Result<(Status, Vec<u8>), Fail> {
    let mut source = SureSource::new(input, 65_536);
    let mut sink = MemorySink::new(alloc, room, 65_536, Vec::new(alloc))
        .ok()
        .ok_or("no memory")?;
    let status = run(alloc, &owned(alloc, &[])?, &mut source, &mut sink);
    Ok((status, Vec::from_slice(alloc, sink.written())?))
}

#[test]
fn gives_arrays_of_any_depth(rt: HostRuntime) -> Result<(), Fail> {
    let alloc = rt.alloc();
    let mut input = Vec::from_slice(alloc, b"[]\n\n")?;
    repeated(&mut input, "[")?;
    let (status, text) = written(alloc, Vec::from_slice(alloc, &input)?, 99)?;
    same(&rt, status, Status::DocumentError);
    same(
        &rt,
        text.as_slice(),
        b"! eof EofWhileParsing 1 100000 99999\n".as_slice(),
    );
    repeated(&mut input, "]")?;
    let (status, text) = written(alloc, input, 200_008)?;
    same(&rt, status, Status::Done);
    let mut line = Vec::from_slice(alloc, b"200000 ")?;
    repeated(&mut line, "[")?;
    repeated(&mut line, "]")?;
    line.push(b'\n')?;
    assert!(rt; text == line);
    Ok(())
}

fn status_of(alloc: Global, bytes: Vec<u8>) -> Result<Status, Fail> {
    let words = owned(alloc, &[])?;
    Ok(run_surely(alloc, &words, bytes, 65_536))
}

#[test]
fn walks_to_any_depth(rt: HostRuntime) -> Result<(), Fail> {
    let alloc = rt.alloc();
    let pairs = [("[", "]"), ("{\"\":", "}"), ("[{\"\":", "}]")];
    for (opening, closing) in pairs {
        let closed = nested(alloc, "[]\n\n", opening, closing)?;
        same_at(&rt, status_of(alloc, closed)?, Status::Done, opening);
        let cut = nested(alloc, "[]\n\n", opening, "")?;
        same_at(&rt, status_of(alloc, cut)?, Status::DocumentError, opening);
        let second = nested(alloc, "[1]\n\n[7,", opening, closing)?;
        same_at(&rt, status_of(alloc, second)?, Status::Done, opening);
    }
    Ok(())
}

fn check_deep(
    rt: &impl Abort,
    alloc: Global,
    opening: &str,
    closing: &str,
    output: &str,
) -> Result<(), Fail> {
    let bytes = nested(alloc, "[]\n\n", opening, closing)?;
    let (status, text) = written(alloc, bytes, 99)?;
    same_at(rt, status, Status::DocumentError, opening);
    same_at(rt, text.as_slice(), output.as_bytes(), opening);
    Ok(())
}

// After the number the input ends, or there is the wrong bracket.
#[test]
fn reports_faults_at_any_depth(rt: HostRuntime) -> Result<(), Fail> {
    let alloc = rt.alloc();
    let arrays = "! eof EofWhileParsing 1 100001 100000\n";
    check_deep(&rt, alloc, "[", "", arrays)?;
    let objects = "! syntax ExpectedObjectCommaOrEnd 1 400002 400001\n";
    check_deep(&rt, alloc, "{\"\":", "]", objects)?;
    let both = "! syntax ExpectedArrayCommaOrEnd 1 500002 500001\n";
    check_deep(&rt, alloc, "{\"\":[", "}]", both)
}

// A path line of so many indexes, and no document.
fn path_line(alloc: Global, indexes: usize) -> Result<Vec<u8>, Fail> {
    let mut bytes = Vec::from_slice(alloc, b"[0")?;
    for _ in 1..indexes {
        bytes.extend_from_slice(b", 0")?;
    }
    bytes.push(b']')?;
    Ok(bytes)
}

#[test]
fn takes_paths_of_at_most_255_indexes(rt: HostRuntime) -> Result<(), Fail> {
    let alloc = rt.alloc();
    let longest = path_line(alloc, 255)?;
    same(&rt, status_of(alloc, longest)?, Status::DocumentError);
    let longer = path_line(alloc, 256)?;
    same(&rt, status_of(alloc, longer)?, Status::BadLines);
    Ok(())
}

// How `get` ends over so many blanks, and what it writes.
fn check_blanks(
    rt: &impl Abort,
    alloc: Global,
    times: u64,
    ending: Status,
    output: &str,
) -> Result<(), Fail> {
    let mut source = RepeatSource::new(b' ', times);
    let mut sink = MemorySink::new(alloc, 99, 99, Vec::new(alloc))
        .ok()
        .ok_or("no memory")?;
    let status = run(alloc, &owned(alloc, &["get"])?, &mut source, &mut sink);
    same_at(rt, status, ending, times);
    same_at(rt, sink.written(), output.as_bytes(), times);
    Ok(())
}

#[test]
fn refuses_more_than_256_mib(rt: HostRuntime) -> Result<(), Fail> {
    check_blanks(&rt, rt.alloc(), 268_435_456, Status::Done, "")?;
    check_blanks(&rt, rt.alloc(), 268_435_457, Status::TooLarge, "! large\n")
}

// What a sink holds and how the run ends, where its call number `fails` fails. The report `3 300`
// goes out by the calls `3 `, `30`, `0` with a line feed, and the finish.
fn check_failing_call(
    rt: &impl Abort,
    alloc: Global,
    fails: u64,
    written: &str,
) -> Result<(), Fail> {
    let words = owned(alloc, &[])?;
    let mut source = SureSource::new(Vec::from_slice(alloc, PLAIN.input.as_bytes())?, 99);
    let failing = Vec::from_slice(alloc, &[fails])?;
    let mut sink = MemorySink::new(alloc, 6, 2, failing)
        .ok()
        .ok_or("no memory")?;
    let status = run(alloc, &words, &mut source, &mut sink);
    same_at(rt, status, Status::WriteFault, fails);
    same_at(rt, sink.written(), written.as_bytes(), fails);
    Ok(())
}

#[test]
fn ends_at_the_first_failing_call(rt: HostRuntime) -> Result<(), Fail> {
    let alloc = rt.alloc();
    check_failing_call(&rt, alloc, 1, "")?;
    check_failing_call(&rt, alloc, 2, "3 ")?;
    check_failing_call(&rt, alloc, 3, "3 30")?;
    check_failing_call(&rt, alloc, 4, "3 300\n")
}

// A reader that always fails.
#[derive(Drop)]
pub struct Broken;

impl Read for Broken {
    fn read(&mut self, _room: &mut [u8]) -> io::Result<usize> {
        Err(io::Error::from(ErrorKind::Other))
    }
}

#[test]
fn prints_nothing_where_a_read_fails(rt: HostRuntime) -> Result<(), Fail> {
    let alloc = rt.alloc();
    let words = owned(alloc, &[])?;
    let mut sink = MemorySink::new(alloc, 99, 99, Vec::new(alloc))
        .ok()
        .ok_or("no memory")?;
    let mut source = InputSource::new(Broken);
    let status = run(alloc, &words, &mut source, &mut sink);
    same(&rt, status, Status::ReadFault);
    same(&rt, sink.written(), b"".as_slice());
    Ok(())
}

// Words that are no command leave even a source unread that would fail.
#[test]
fn reads_nothing_for_other_words(rt: HostRuntime) -> Result<(), Fail> {
    let alloc = rt.alloc();
    let words = owned(alloc, &["lists"])?;
    let status = run(
        alloc,
        &words,
        &mut InputSource::new(Broken),
        &mut SureSink::new(),
    );
    same(&rt, status, Status::BadUsage);
    Ok(())
}
