// Whole runs of `list` over memory: what comes in, what goes out, and the status. The expected lines
// are by the grammar.
use crate::rows::{check_run, owned};
use crate::same::same_at;
use sonic_io::{MemorySink, SureSource};
use sonic_reports::{Status, run};
use std::process::Abort;
use std::test::Fail;

// An input and what is listed of it.
type Row = (&'static [u8], &'static str);

const WHOLE: [Row; 10] = [
    (b"[]", ""),
    (b" {} ", ""),
    (b"[ 1 ,[2, 3],{}\n] x", "1 1\n6 [2, 3]\n2 {}\n"),
    (b"[1]\n\n{", "1 1\n"),
    (br#"{"a\"":1,"b":[2]}"#, "2 a\" 1 1\n1 b 3 [2]\n"),
    (br#"{"\u00e9":"\u00e9"}"#, "2 \u{e9} 8 \"\\u00e9\"\n"),
    (
        br#"{"a b":true,"":null,"":-0.5e3}"#,
        "3 a b 4 true\n0  4 null\n0  6 -0.5e3\n",
    ),
    (
        b"\t{\"a\" : {\"b\":\n1} , \"c\":2}",
        "1 a 8 {\"b\":\n1}\n1 c 1 2\n",
    ),
    (b"[[[[]]], \"]\"]", "6 [[[]]]\n3 \"]\"\n"),
    (b"[null,true,false]}", "4 null\n4 true\n5 false\n"),
];

const BROKEN: [Row; 18] = [
    (
        b"[\"a\nb\" ",
        "! syntax ControlCharacterWhileParsingString 1 4 3\n",
    ),
    (b"", "! syntax ExpectedArrayStart 1 1 0\n"),
    (b" \n ", "! syntax ExpectedArrayStart 2 1 2\n"),
    (b" 7", "! syntax ExpectedArrayStart 1 2 1\n"),
    (b"[", "! syntax ExpectedArrayCommaOrEnd 1 1 0\n"),
    (b"[x", "! syntax InvalidJsonValue 1 2 1\n"),
    (
        b"[1, 2, 3, 4, 5, 6",
        "1 1\n1 2\n1 3\n1 4\n1 5\n1 6\n! syntax ExpectedArrayCommaOrEnd 1 17 16\n",
    ),
    (
        b" \n[1,\n2 3]",
        "1 1\n1 2\n! syntax ExpectedArrayCommaOrEnd 3 3 8\n",
    ),
    (b"[1,", "1 1\n! eof EofWhileParsing 1 3 2\n"),
    (b"[1,]", "1 1\n! syntax InvalidJsonValue 1 4 3\n"),
    (b"[[1}]", "! syntax ExpectedArrayCommaOrEnd 1 4 3\n"),
    (b"{", "! syntax ExpectedObjectCommaOrEnd 1 1 0\n"),
    (b"{1}", "! syntax ExpectedObjectCommaOrEnd 1 2 1\n"),
    (
        b"{\"a\":1,",
        "1 a 1 1\n! syntax ExpectObjectKeyOrEnd 1 7 6\n",
    ),
    (
        b"{\"a\":1]",
        "1 a 1 1\n! syntax ExpectedObjectCommaOrEnd 1 7 6\n",
    ),
    (
        br#"{"a": null, "b":[1, 2, 3"#,
        "1 a 4 null\n! eof EofWhileParsing 1 24 23\n",
    ),
    (
        b"[\"\x00\x00\x00\x80\x90\"]",
        "! syntax InvalidUTF8 1 6 5\n",
    ),
    (b"[1] \xff", "! syntax InvalidUTF8 1 5 4\n"),
];

#[test]
fn lists_the_items_of_a_container(rt: HostRuntime) -> Result<(), Fail> {
    for &(input, output) in &WHOLE {
        check_run(&rt, rt.alloc(), &["list"], input, output, Status::Done)?;
    }
    Ok(())
}

#[test]
fn lists_what_fits_before_an_error(rt: HostRuntime) -> Result<(), Fail> {
    for &(input, output) in &BROKEN {
        check_run(
            &rt,
            rt.alloc(),
            &["list"],
            input,
            output,
            Status::DocumentError,
        )?;
    }
    Ok(())
}

// Each call but the last ones fails in turn, and what was written is a prefix of the report.
#[test]
fn breaks_off_at_a_failing_write(rt: HostRuntime) -> Result<(), Fail> {
    let alloc = rt.alloc();
    let report = b"1 a 1 1\n! syntax ExpectedObjectCommaOrEnd 1 7 6\n";
    let words = owned(alloc, &["list"])?;
    for call in 1..20 {
        let input = Vec::from_slice(alloc, b"{\"a\":1]")?;
        let mut source = SureSource::new(input, 4);
        let fails = Vec::from_slice(alloc, &[call])?;
        let mut sink = MemorySink::new(alloc, report.len(), 3, fails)
            .ok()
            .ok_or("no memory")?;
        let status = run(alloc, &words, &mut source, &mut sink);
        let whole = sink.written().len() == report.len();
        assert!(rt; report.starts_with(sink.written()), "{call}");
        same_at(&rt, status == Status::DocumentError, call > 17, call);
        same_at(&rt, whole, call >= 17, call);
    }
    Ok(())
}
