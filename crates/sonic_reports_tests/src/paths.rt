// Where many paths of keys and indexes lead in documents: expected values by the grammar, each path
// read by itself, and not by the program.
use crate::rows::check_run;
use sonic_reports::Status;
use std::alloc::Global;
use std::process::Abort;
use std::test::Fail;

// An input, and its report.
type Row = (&'static [u8], &'static str);

// Paths that find a value or lack a key.
const ANSWERED: [Row; 16] = [
    (
        b"[\"u\"]\n[\"unknown_key\"]\n[\"a\",\"b\",\"c\",1]\n\n\n{\"u\": 123, \"a\": {\"b\" : {\"c\": [null, \"found\"]}}}",
        "3 123\n-\n7 \"found\"\n",
    ),
    (b"\n}{", ""),
    (
        b"[\"a\"]\n[\"b\"]\n\n{\"a\":1,\"a\":2,\"b\":3}",
        "1 1\n1 3\n",
    ),
    (b"[\"a\"]\n[\"a\"]\n\n{\"a\":1,", "1 1\n1 1\n"),
    (b"[\"a\",\"x\"]\n\n{\"a\":{\"y\":1},\"a\":{\"x\":2}}", "-\n"),
    (b"[\"b\"]\n[\"a\"]\n\n{\"a\":1,\"b\":2", "1 2\n1 1\n"),
    (b"[1]\n[0]\n[1]\n\n[10,20,", "2 20\n2 10\n2 20\n"),
    (
        b"[\"\\u0061\"]\n[\"\xc3\xa9\"]\n\n{\"a\":1,\"\\u00e9\":2}",
        "1 1\n1 2\n",
    ),
    (b"[\"a\\\"\\/\"]\n\n{\"a\\u0022/\":[ 1 ]", "5 [ 1 ]\n"),
    (b"[\"\\ud83d\\ude00\"]\n\n{\"\xf0\x9f\x98\x80\":0", "1 0\n"),
    (
        b"[\"\\\\u0061\"]\n[\"a\"]\n\n{\"\\u0061\":1,\"\\\\u0061\":2}",
        "1 2\n1 1\n",
    ),
    (
        b"[\"\"]\n[\"a\",\"\"]\n\n{\"a\":{\"\":[]},\"\":{}",
        "2 {}\n2 []\n",
    ),
    (
        b"[\"a\"]\n[\"ab\"]\n[\"abc\"]\n\n{\"ab\":1,\"a\":2}",
        "1 2\n1 1\n-\n",
    ),
    (
        b"[\"a\"]\n[\"a\",0]\n[]\n[\"a\",1,\"x\"]\n\n{\"a\":[1,{\"y\":2}]} ,",
        "11 [1,{\"y\":2}]\n1 1\n17 {\"a\":[1,{\"y\":2}]}\n-\n",
    ),
    (
        b"[0,\"z\"]\n[1,\"z\"]\n\n[{\"a\":1},{\"z\":[ ]}]",
        "-\n3 [ ]\n",
    ),
    (
        b"[\"user\",\"id\"]\n[\"user\",\"name\"]\n[\"tags\",0]\n[\"meta\",\"trace\"]\n\n{\n  \"ts\": \"2024-05-01T12:00:00Z\",\n  \"user\": { \"id\": 42, \"name\": \"Zo\\u00eb\" },\n  \"tags\": [\"api\", \"v2\"],\n  \"meta\": { \"ms\": 12.5 }\n}\n",
        "2 42\n10 \"Zo\\u00eb\"\n5 \"api\"\n-\n",
    ),
];

// Worked examples of a path that is cut or fails.
const REFUSED: [Row; 8] = [
    (b"[\"b\"]\n\n{\"a\":1\n", "! eof EofWhileParsing 1 7 6\n"),
    (b"[0,\"z\"]\n\n[{\"a\":1},", "! eof EofWhileParsing 1 9 8\n"),
    (
        b"[\"a\",\"x\"]\n[\"b\"]\n\n{\"a\":{},\"b\":tru}",
        "! not-found GetInEmptyObject 1 7 6\n",
    ),
    (
        b"[\"a\",0]\n\n{\"a\": -12.5e3 , \"b\":[",
        "! type Message 1 13 12\n",
    ),
    (
        b"[1]\n\n[\"\\u\"abc\",1]",
        "! syntax InvalidUnicodeCodePoint 1 5 4\n",
    ),
    (
        b"[\"a\"]\n\n{ xx \"a\":1}",
        "! syntax ExpectObjectKeyOrEnd 1 3 2\n",
    ),
    (b"[\"a\"]", "! eof EofWhileParsing 1 1 0\n"),
    (b"[0]\n[1]\n\n[]", "! not-found GetInEmptyArray 1 2 1\n"),
];

// One path, and a fault that comes before its value or before it is known that there is none:
// at each step through an object and an array, by a byte that doesn't fit and by the end.
const FAULTY: [Row; 39] = [
    (b"[\"a\"]\n\n", "! eof EofWhileParsing 1 1 0\n"),
    (b"[\"a\"]\n\n \n", "! eof EofWhileParsing 1 2 1\n"),
    (b"[\"a\"]\n\nx", "! syntax InvalidJsonValue 1 1 0\n"),
    (b"[\"a\"]\n\n{", "! eof EofWhileParsing 1 1 0\n"),
    (b"[\"a\"]\n\n{ ", "! eof EofWhileParsing 1 2 1\n"),
    (b"[\"a\"]\n\n{1:2}", "! syntax ExpectObjectKeyOrEnd 1 2 1\n"),
    (b"[\"a\"]\n\n{,}", "! syntax ExpectObjectKeyOrEnd 1 2 1\n"),
    (b"[\"a\"]\n\n{\"\\x\":1}", "! syntax InvalidEscape 1 4 3\n"),
    (
        b"[\"a\"]\n\n{\"b\n\":1}",
        "! syntax ControlCharacterWhileParsingString 1 4 3\n",
    ),
    (b"[\"a\"]\n\n{\"b\\u00", "! eof EofWhileParsing 1 7 6\n"),
    (
        b"[\"a\"]\n\n{\"\\u0g\"",
        "! syntax InvalidUnicodeCodePoint 1 6 5\n",
    ),
    (
        b"[\"a\"]\n\n{\"\\ud800\\u0041\":1}",
        "! syntax InvalidSurrogateUnicodeCodePoint 1 11 10\n",
    ),
    (b"[\"a\"]\n\n{\"a\"", "! eof EofWhileParsing 1 4 3\n"),
    (b"[\"a\"]\n\n{\"a\" 1}", "! syntax ExpectedColon 1 6 5\n"),
    (b"[\"a\"]\n\n{\"a\":", "! eof EofWhileParsing 1 5 4\n"),
    (b"[\"a\"]\n\n{\"a\":}", "! syntax InvalidJsonValue 1 6 5\n"),
    (b"[\"a\"]\n\n{\"a\":nul", "! eof EofWhileParsing 1 8 7\n"),
    (b"[\"a\"]\n\n{\"a\":nuL", "! syntax InvalidLiteral 1 8 7\n"),
    (b"[\"b\"]\n\n{\"a\":-}", "! syntax InvalidNumber 1 7 6\n"),
    (b"[\"b\"]\n\n{\"a\":1", "! eof EofWhileParsing 1 6 5\n"),
    (
        b"[\"b\"]\n\n{\"a\":1;",
        "! syntax ExpectedObjectCommaOrEnd 1 7 6\n",
    ),
    (
        b"[\"b\"]\n\n{\"a\":1]",
        "! syntax ExpectedObjectCommaOrEnd 1 7 6\n",
    ),
    (b"[\"b\"]\n\n{\"a\":1,", "! eof EofWhileParsing 1 7 6\n"),
    (
        b"[\"b\"]\n\n{\"a\":1,}",
        "! syntax ExpectObjectKeyOrEnd 1 8 7\n",
    ),
    (
        b"[\"b\"]\n\n{\"a\":1, 2}",
        "! syntax ExpectObjectKeyOrEnd 1 9 8\n",
    ),
    (
        b"[\"b\"]\n\n{\"a\":1,\"b\"",
        "! eof EofWhileParsing 1 10 9\n",
    ),
    (
        b"[\"b\"]\n\n{\"a\":1,\"b\"}",
        "! syntax ExpectedColon 1 11 10\n",
    ),
    (
        b"[\"b\"]\n\n{\"a\":[1,],\"b\":2}",
        "! syntax InvalidJsonValue 1 9 8\n",
    ),
    (b"[1]\n\n[", "! eof EofWhileParsing 1 1 0\n"),
    (b"[1]\n\n[,", "! syntax InvalidJsonValue 1 2 1\n"),
    (b"[1]\n\n[0", "! eof EofWhileParsing 1 2 1\n"),
    (b"[1]\n\n[0:", "! syntax ExpectedArrayCommaOrEnd 1 3 2\n"),
    (b"[1]\n\n[0}", "! syntax ExpectedArrayCommaOrEnd 1 3 2\n"),
    (b"[1]\n\n[0,", "! eof EofWhileParsing 1 3 2\n"),
    (b"[1]\n\n[0,]", "! syntax InvalidJsonValue 1 4 3\n"),
    (
        b"[1]\n\n[\"\x1f\",1]",
        "! syntax ControlCharacterWhileParsingString 1 3 2\n",
    ),
    (b"[1]\n\n[0,tru]", "! syntax InvalidLiteral 1 7 6\n"),
    (
        b"[\"a\",\"b\"]\n\n{\"a\":{\"b\":}}",
        "! syntax InvalidJsonValue 1 11 10\n",
    ),
    (
        b"[\"a\",1]\n\n{\"a\":[0 1]}",
        "! syntax ExpectedArrayCommaOrEnd 1 9 8\n",
    ),
];

// One path that leads nowhere: a value of each kind under a key and under an index, read to its last
// byte, whatever follows it.
const NOWHERE: [Row; 17] = [
    (b"[\"a\"]\n\nnull ", "! type Message 1 4 3\n"),
    (b"[\"a\"]\n\ntrue", "! type Message 1 4 3\n"),
    (b"[\"a\"]\n\n -1.5e3,", "! type Message 1 7 6\n"),
    (b"[\"a\"]\n\n\"a\\n\"x", "! type Message 1 5 4\n"),
    (b"[\"a\"]\n\n[]", "! type Message 1 2 1\n"),
    (b"[\"a\"]\n\n[{\"a\":1} ]", "! type Message 1 10 9\n"),
    (b"[\"a\"]\n\n{ }", "! not-found GetInEmptyObject 1 3 2\n"),
    (b"[0]\n\nnull ", "! type Message 1 4 3\n"),
    (b"[0]\n\nfalse", "! type Message 1 5 4\n"),
    (b"[0]\n\n12", "! type Message 1 2 1\n"),
    (b"[0]\n\n\"0\"", "! type Message 1 3 2\n"),
    (b"[0]\n\n{}", "! type Message 1 2 1\n"),
    (b"[0]\n\n{\"0\":[1]}", "! type Message 1 9 8\n"),
    (b"[0]\n\n[ ]", "! not-found GetInEmptyArray 1 3 2\n"),
    (b"[2]\n\n[0,1 ]", "! not-found GetIndexOutOfArray 1 6 5\n"),
    (
        b"[\"a\",\"b\"]\n\n{\"a\":[1,2],\"b\":",
        "! type Message 1 10 9\n",
    ),
    (
        b"[\"a\",0]\n\n{\"a\":{\"b\":[ ]} ",
        "! type Message 1 14 13\n",
    ),
];

// Several paths, of which the nearest fail is reported, and else the fault of the text.
const NEAREST: [Row; 12] = [
    (
        b"[\"a\",\"x\"]\n[\"b\"]\n\n{\"a\":{},\"b\":tru}",
        "! not-found GetInEmptyObject 1 7 6\n",
    ),
    (
        b"[\"b\"]\n[\"a\",\"x\"]\n\n{\"a\":{},\"b\":tru}",
        "! not-found GetInEmptyObject 1 7 6\n",
    ),
    (b"[\"z\"]\n\n{\"a\":tru}", "! syntax InvalidLiteral 1 9 8\n"),
    (
        b"[\"z\"]\n[\"a\"]\n\n{\"a\":1,\"b\":[}",
        "! syntax InvalidJsonValue 1 13 12\n",
    ),
    (
        b"[0,\"z\"]\n[0,\"a\"]\n\n[{\"a\":1},",
        "! eof EofWhileParsing 1 9 8\n",
    ),
    (
        b"[\"b\",\"x\"]\n[\"a\",\"x\"]\n\n{\"a\":1,\"b\":2}",
        "! type Message 1 6 5\n",
    ),
    (
        b"[\"b\",\"x\"]\n[\"a\",\"x\"]\n\n{\"b\":1,\"a\":2}",
        "! type Message 1 6 5\n",
    ),
    (
        b"[\"z\"]\n[\"a\",0]\n\n{\"a\":{}}",
        "! type Message 1 7 6\n",
    ),
    (
        b"[\"z\",\"y\"]\n[\"a\",\"x\",\"y\"]\n\n{\"a\":{\"x\":1}}",
        "! type Message 1 11 10\n",
    ),
    (b"[0]\n[5]\n[0,0]\n\n[1]", "! type Message 1 2 1\n"),
    (
        b"[\"a\"]\n[\"a\",\"b\"]\n\n{\"a\":{\"b\":1",
        "! eof EofWhileParsing 1 11 10\n",
    ),
    (
        b"[\"a\"]\n[\"a\",\"b\",0]\n\n{\"a\":{\"b\":{},\"c\":x}}",
        "! type Message 1 12 11\n",
    ),
];

// Bytes that aren't UTF-8 after all that is needed.
const AFTER: [Row; 3] = [
    (b"[0]\n\n[1,\xff", "1 1\n"),
    (b"[\"b\"]\n\n{\"b\":1,\"a\":\"\x80\"}", "1 1\n"),
    (b"[\"z\"]\n\n{\"a\":1}\xff", "-\n"),
];

// And before its end, after a fail and a fault.
const BROKEN: [Row; 7] = [
    (b"[0]\n\n[\"\xff\"]", "! syntax InvalidUTF8 1 3 2\n"),
    (b"[1]\n\n[\"\xe2\x82\", 7]", "! syntax InvalidUTF8 1 3 2\n"),
    (
        b"[\"a\"]\n\n{\"\xc3\":0,\"a\":1}",
        "! syntax InvalidUTF8 1 3 2\n",
    ),
    (
        b"[\"a\"]\n[\"b\"]\n\n{\"b\":1,\"a\":\"\x80\",",
        "! syntax InvalidUTF8 1 13 12\n",
    ),
    (
        b"[\"z\"]\n\n{\"a\":\"\xff\"}",
        "! syntax InvalidUTF8 1 7 6\n",
    ),
    (
        b"[\"z\"]\n\n{\"a\":\"\xff\"",
        "! eof EofWhileParsing 1 8 7\n",
    ),
    (
        b"[\"a\",\"x\"]\n\n{\"\xff\":0,\"a\":[]}",
        "! type Message 1 13 12\n",
    ),
];

// Heads with a bad line.
const BAD: [Row; 14] = [
    (b"[\"a\"]\n[0]\n\n{\"a\":1}", "! paths 2\n"),
    (b"[0]\n[\"a\"]\n\n", "! paths 2\n"),
    (b"[\"a\",1]\n[\"b\"]\n[\"a\",\"1\"]\n\nx", "! paths 3\n"),
    (b"[\"a\",1]\n[\"\\u0061\",\"b\"]\n\n", "! paths 2\n"),
    (b"[\"a\"]\n[\"a\",0]\n[\"a\",\"b\"]\n\n", "! paths 3\n"),
    (b"{}\n\n1", "! paths 1\n"),
    (b"[\"a\"\n[]\n\n1", "! paths 1\n"),
    (b"[null]\n\n", "! paths 1\n"),
    (b"[[0]]\n\n", "! paths 1\n"),
    (b"[\"a\"] x\n\n", "! paths 1\n"),
    (b"[1.0]\n\n", "! paths 1\n"),
    (b"[-0]\n\n", "! paths 1\n"),
    (b"[18446744073709551616]\n\n", "! paths 1\n"),
    (b"[\"\\ud800\"]\n\n", "! paths 1\n"),
];

// Runs over each input, and compares.
fn check(rt: &impl Abort, alloc: Global, rows: &[Row], ending: Status) -> Result<(), Fail> {
    for (input, output) in rows {
        check_run(rt, alloc, &[], input, output, ending)?;
    }
    Ok(())
}

#[test]
fn answers_many_paths(rt: HostRuntime) -> Result<(), Fail> {
    check(&rt, rt.alloc(), &ANSWERED, Status::Done)
}

#[test]
fn reports_the_error_of_the_worked_examples(rt: HostRuntime) -> Result<(), Fail> {
    check(&rt, rt.alloc(), &REFUSED, Status::DocumentError)
}

#[test]
fn reports_a_fault_on_the_way(rt: HostRuntime) -> Result<(), Fail> {
    check(&rt, rt.alloc(), &FAULTY, Status::DocumentError)
}

#[test]
fn reports_where_a_path_leads_nowhere(rt: HostRuntime) -> Result<(), Fail> {
    check(&rt, rt.alloc(), &NOWHERE, Status::DocumentError)
}

#[test]
fn reports_the_nearest_of_many(rt: HostRuntime) -> Result<(), Fail> {
    check(&rt, rt.alloc(), &NEAREST, Status::DocumentError)
}

#[test]
fn looks_at_utf8_as_far_as_it_is_needed(rt: HostRuntime) -> Result<(), Fail> {
    check(&rt, rt.alloc(), &AFTER, Status::Done)?;
    check(&rt, rt.alloc(), &BROKEN, Status::DocumentError)
}

#[test]
fn refuses_lines_that_say_no_path_or_mix(rt: HostRuntime) -> Result<(), Fail> {
    check(&rt, rt.alloc(), &BAD, Status::BadLines)
}
