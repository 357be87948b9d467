// Whole runs over texts that are cut or wrong, and over deep ones, with the place that is told.
use crate::rows::check_run;
use crate::same::same;
use sonic_io::{MemorySink, SureSource};
use sonic_reports::{Status, run};
use std::alloc::Global;
use std::process::Abort;
use std::test::Fail;

// An input, its report, and the status.
type Row = (&'static [u8], &'static str, Status);

const ROWS: [Row; 9] = [
    // A wrong letter, and a word that is cut there.
    (
        b"[\"a\"]\n\n{\n\"a\":nx}",
        "! syntax InvalidLiteral 2 6 7\n",
        Status::DocumentError,
    ),
    (
        b"[\"a\"]\n\n{\"a\":n",
        "! eof EofWhileParsing 1 6 5\n",
        Status::DocumentError,
    ),
    // A byte that isn't UTF-8 in what is found, in a key that is passed, and behind what is found.
    (
        b"[1]\n\n[1,\"\xff\"]",
        "! syntax InvalidUTF8 1 5 4\n",
        Status::DocumentError,
    ),
    (
        b"[\"z\"]\n\n{\"a\":1,\"\xff\":2}",
        "! syntax InvalidUTF8 1 9 8\n",
        Status::DocumentError,
    ),
    (b"[\"a\"]\n\n{\"a\":1,\"\xff\":2}", "1 1\n", Status::Done),
    // Escapes and numbers that are cut at a place where another byte would be wrong.
    (
        b"[]\n\n\"\\ud83d\\ud",
        "! eof EofWhileParsing 1 10 9\n",
        Status::DocumentError,
    ),
    (
        b"[]\n\n\"\\ud83d\\u0",
        "! syntax InvalidSurrogateUnicodeCodePoint 1 10 9\n",
        Status::DocumentError,
    ),
    (
        b"[]\n\n[0",
        "! eof EofWhileParsing 1 2 1\n",
        Status::DocumentError,
    ),
    (
        b"[]\n\n[01",
        "! syntax InvalidNumber 1 3 2\n",
        Status::DocumentError,
    ),
];

#[test]
fn tells_cut_texts_from_wrong_ones(rt: HostRuntime) -> Result<(), Fail> {
    let alloc = rt.alloc();
    for &(input, output, ending) in &ROWS {
        check_run(&rt, alloc, &[], input, output, ending)?;
    }
    Ok(())
}

// An ordinary record of a log.
const RECORD: &[u8] =
    b"{\n  \"ts\": \"2024-05-01T12:00:00Z\",\n  \"user\": { \"id\": 42, \"name\": \"Zo\\u00eb\" },\n  \"tags\": [\"api\", \"v2\"],\n  \"meta\": { \"ms\": 12.5 }\n}";

// The report of a cut at the byte after these.
fn told_cut(alloc: Global, before: &[u8]) -> Result<String, Fail> {
    let (mut line, mut column) = (1usize, 1usize);
    for byte in before {
        column = column.saturating_add(1);
        if *byte == b'\n' {
            line = line.saturating_add(1);
            column = 1;
        }
    }
    let offset = before.len();
    Ok(format!(in alloc; "! eof EofWhileParsing {line} {column} {offset}\n")?)
}

#[test]
fn tells_the_last_place_of_each_cut_of_a_record(rt: HostRuntime) -> Result<(), Fail> {
    let alloc = rt.alloc();
    for end in 0..RECORD.len() {
        let prefix = &RECORD[..end];
        let mut input = Vec::from_slice(alloc, b"[]\n\n")?;
        input.extend_from_slice(prefix)?;
        let output = told_cut(alloc, &prefix[..end.saturating_sub(1)])?;
        check_run(&rt, alloc, &[], &input, &output, Status::DocumentError)?;
    }
    Ok(())
}

const DEPTH: usize = 100_000;

// A path of so many keys `a`.
fn keys(alloc: Global, count: usize) -> Result<Vec<u8>, Fail> {
    let mut line = Vec::from_slice(alloc, b"[")?;
    for at in 0..count {
        line.extend_from_slice(if at == 0 { b"\"a\"" } else { b",\"a\"" })?;
    }
    line.extend_from_slice(b"]\n\n")?;
    Ok(line)
}

// A number inside so many objects with the one key `a`.
fn objects(alloc: Global, depth: usize) -> Result<Vec<u8>, Fail> {
    let mut text = Vec::new(alloc);
    for _ in 0..depth {
        text.extend_from_slice(b"{\"a\":")?;
    }
    text.push(b'1')?;
    for _ in 0..depth {
        text.push(b'}')?;
    }
    Ok(text)
}

// Checks what is written of the path of so many keys over so many objects: all but so many of them.
fn check_deep(rt: &impl Abort, alloc: Global, keys_of_path: usize) -> Result<(), Fail> {
    let mut input = keys(alloc, keys_of_path)?;
    let text = objects(alloc, DEPTH)?;
    input.extend_from_slice(&text)?;
    let (start, end) = (
        keys_of_path.saturating_mul(5),
        text.len().saturating_sub(keys_of_path),
    );
    let found = text.as_slice().get(start..end).ok_or("too many keys")?;
    let mut line = Vec::from_slice(alloc, format!(in alloc; "{} ", found.len())?.as_bytes())?;
    line.extend_from_slice(found)?;
    line.push(b'\n')?;
    let mut source = SureSource::new(input, 65_536);
    let mut sink = MemorySink::new(alloc, line.len(), 65_536, Vec::new(alloc))
        .ok()
        .ok_or("no memory")?;
    let status = run(alloc, &Vec::new(alloc), &mut source, &mut sink);
    same(rt, status, Status::Done);
    assert!(rt; sink.written() == line.as_slice());
    Ok(())
}

#[test]
fn follows_255_keys_into_100_000_objects(rt: HostRuntime) -> Result<(), Fail> {
    let alloc = rt.alloc();
    check_deep(&rt, alloc, 0)?;
    check_deep(&rt, alloc, 255)?;
    let mut input = keys(alloc, 256)?;
    input.extend_from_slice(&objects(alloc, DEPTH)?)?;
    check_run(&rt, alloc, &[], &input, "! paths 1\n", Status::BadLines)
}
