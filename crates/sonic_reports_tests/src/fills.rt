// Whole runs of `fill` over memory: what comes in, what goes out, and the status.
use crate::rows::check_run;
use sonic_reports::Status;
use std::alloc::Global;
use std::process::Abort;
use std::test::Fail;

// An input and what is written for it.
type Row = (&'static [u8], &'static str);

const FILLED: [Row; 19] = [
    (
        b"{\"obj\":{\"a\":2}}\n{\"obj\":{\"a\":1, \"b\":1}}",
        "{\"obj\":{\"a\":1}}\n",
    ),
    // The value that begins the document: what comes after it isn't read.
    (
        b"{\"a\":0,\"b\":[]}\n {\"a\" : 1.50 } ]\xff",
        "{\"a\":1.50,\"b\":[]}\n",
    ),
    (b"{\"a\":0}\n\r\n\t[ 1 , 2 ]\n3", "[1,2]\n"),
    (b"{\"a\":0}\n7\n", "7\n"),
    // Empty objects.
    (b"{}\n{\"a\":1}", "{\"a\":1}\n"),
    (b"{\"a\":1}\n{}", "{\"a\":1}\n"),
    (b"{}\n{}", "{}\n"),
    // An object over a scalar, and a scalar over an object.
    (b"{\"a\":{\"b\":1}}\n{\"a\":true}", "{\"a\":true}\n"),
    (b"{\"a\":true}\n{\"a\":{\"b\":1}}", "{\"a\":{\"b\":1}}\n"),
    // Keys that are repeated: of the schema the last, of the document each in turn.
    (
        b"{\"a\":1,\"a\":2}\n{\"a\":3,\"a\":4}",
        "{\"a\":1,\"a\":4}\n",
    ),
    (
        b"{\"a\":1}\n{\"a\":{\"b\":2,\"c\":3},\"a\":{\"c\":4,\"d\":5}}",
        "{\"a\":{\"b\":2,\"c\":4}}\n",
    ),
    // Keys are compared unescaped, and written with the escapes that they need.
    (
        b"{\"\\u0061\\n\":0}\n{\"a\\u000a\":\"\\/\"}",
        "{\"a\\n\":\"/\"}\n",
    ),
    (
        b"{\"\xc3\xa9\":0}\n{\"\\u00e9\":\"\xc3\xa9\"}",
        "{\"\u{e9}\":\"\u{e9}\"}\n",
    ),
    // The schema is the first line, whatever stands in it.
    (b" { \"a\" : 0 } \r\n{\"a\":[]}", "{\"a\":[]}\n"),
    (b"{\"a\":\"\\n\"}\n{\"b\":1}", "{\"a\":\"\\n\"}\n"),
    (b"{\"a\":0}\n\n\n{\"a\":1}", "{\"a\":1}\n"),
    (
        b"{\"a\":1e2,\"b\":-0}\n{\"b\":0.0}",
        "{\"a\":1e2,\"b\":0.0}\n",
    ),
    (
        b"{\"a\":0}\n{\"b\":[[[[[]]]]],\"a\":null}",
        "{\"a\":null}\n",
    ),
    (b"{\"a\":0}\n{\"a\":1} {\"a\":2}", "{\"a\":1}\n"),
];

const UNFILLED: [Row; 13] = [
    (
        b"{\"a\": 1}\n{123}",
        "! syntax ExpectObjectKeyOrEnd 1 2 1\n",
    ),
    (
        b"{\"a\": 1}\n{\n\"b\":x}",
        "! syntax InvalidJsonValue 2 5 6\n",
    ),
    (b"{\"a\":1}\n{\"a\":1", "! eof EofWhileParsing 1 6 5\n"),
    // No document.
    (b"{\"a\":1}\n", "! eof EofWhileParsing 1 1 0\n"),
    (b"{\"a\":1}\n \t", "! eof EofWhileParsing 1 2 1\n"),
    (b"{\"a\":1}", "! eof EofWhileParsing 1 1 0\n"),
    // A schema that is no object is told before all else.
    (b"[{}]\n{\"a\":1}", "! type Message 1 1 0\n"),
    (b"null\n{\"a\":}", "! type Message 1 1 0\n"),
    (b"\"{}\"", "! type Message 1 1 0\n"),
    // Bytes that aren't UTF-8, up to the value's end.
    (
        b"{\"a\":1}\n{\"b\":\"\xff\"}",
        "! syntax InvalidUTF8 1 7 6\n",
    ),
    (b"{\"a\":1}\n{\"\xff\":1}x", "! syntax InvalidUTF8 1 3 2\n"),
    (
        b"{\"a\":1}\n{\"\xff\":1 x",
        "! syntax ExpectedObjectCommaOrEnd 1 8 7\n",
    ),
    (b"{\"a\":1}\n\xff", "! syntax InvalidJsonValue 1 1 0\n"),
];

const NO_SCHEMA: [&[u8]; 10] = [
    b"{\"a\":",
    b"{\"a\":\n{}",
    b"{\"a\":1} x\n{}",
    b"{\"a\":1}{}\n{}",
    // An empty line.
    b"",
    b"\n{}",
    b" \t\r\n{}",
    b"{\"a\":\"\xff\"}\n{}",
    b"\xef\xbb\xbf{}\n{}",
    b"{\n}\n{}",
];

#[test]
fn fills_schemas(rt: HostRuntime) -> Result<(), Fail> {
    for &(input, output) in &FILLED {
        check_run(&rt, rt.alloc(), &["fill"], input, output, Status::Done)?;
    }
    Ok(())
}

#[test]
fn tells_why_a_schema_isnt_filled(rt: HostRuntime) -> Result<(), Fail> {
    for &(input, output) in &UNFILLED {
        check_run(
            &rt,
            rt.alloc(),
            &["fill"],
            input,
            output,
            Status::DocumentError,
        )?;
    }
    Ok(())
}

#[test]
fn tells_a_line_that_is_no_schema(rt: HostRuntime) -> Result<(), Fail> {
    for &input in &NO_SCHEMA {
        check_run(
            &rt,
            rt.alloc(),
            &["fill"],
            input,
            "! schema 1\n",
            Status::BadLines,
        )?;
    }
    Ok(())
}

// An input with so many open brackets in one place.
fn nested(
    alloc: Global,
    before: &[u8],
    depth: usize,
    after: &[u8],
) -> Result<Vec<u8>, std::alloc::AllocError> {
    let mut input = Vec::new(alloc);
    input.extend_from_slice(before)?;
    for _ in 0..depth {
        input.push(b'[')?;
    }
    for _ in 0..depth {
        input.push(b']')?;
    }
    input.extend_from_slice(after)?;
    Ok(input)
}

// Checks a run over an input with brackets in it.
fn check_nested(
    rt: &impl Abort,
    alloc: Global,
    (before, depth, after): (&[u8], usize, &[u8]),
    (output, status): (&str, Status),
) -> Result<(), Fail> {
    let input = nested(alloc, before, depth, after)?;
    check_run(rt, alloc, &["fill"], &input, output, status)
}

#[test]
fn limits_the_depth_of_what_is_kept(rt: HostRuntime) -> Result<(), Fail> {
    let alloc = rt.alloc();
    // A schema that is too deep is no schema.
    let row: (&[u8], usize, &[u8]) = (b"{\"a\":", 254, b"}\n{\"a\":1}");
    check_nested(&rt, alloc, row, ("{\"a\":1}\n", Status::Done))?;
    let row: (&[u8], usize, &[u8]) = (b"{\"a\":", 255, b"}\n{\"a\":1}");
    check_nested(&rt, alloc, row, ("! schema 1\n", Status::BadLines))?;
    // What takes the place of a value has 255 levels of its own, and what is skipped has no limit.
    let row: (&[u8], usize, &[u8]) = (b"{\"a\":1}\n{\"a\":", 256, b"}");
    let error = "! syntax RecursionLimitExceeded 1 261 260\n";
    check_nested(&rt, alloc, row, (error, Status::DocumentError))?;
    let row: (&[u8], usize, &[u8]) = (b"{\"a\":1}\n{\"b\":", 5000, b"}");
    check_nested(&rt, alloc, row, ("{\"a\":1}\n", Status::Done))
}
