// The examples of docs/FORMAT.md, in their order, and the numbers of the statuses.
use crate::rows::check_run;
use crate::same::same;
use sonic_reports::Status;
use std::test::Fail;

// Words, an input, its report, and the status.
type Example = (&'static [&'static str], &'static [u8], &'static str, Status);

const EXAMPLES: [Example; 58] = [
    (
        &[],
        b"[\"a\"]\n[\"b\",1]\n[\"c\"]\n\n{\"a\": \"x\", \"b\": [2, 30]}",
        "3 \"x\"\n2 30\n-\n",
        Status::Done,
    ),
    (
        &["get"],
        b"[\"a\"]\n[\"b\",1]\n[\"c\"]\n\n{\"a\": \"x\", \"b\": [2, 30]}",
        "3 \"x\"\n2 30\n-\n",
        Status::Done,
    ),
    (
        &["get", "--keys", "last"],
        b"[\"a\"]\n[\"b\"]\n\n{\"a\":1,\"a\":2,\"b\":3}",
        "1 2\n1 3\n",
        Status::Done,
    ),
    (
        &["get", "--keys", "refuse"],
        b"[\"a\"]\n[\"b\"]\n\n{\"a\":1,\"a\":2,\"b\":3}",
        "! syntax DuplicateKey 1 8 7\n",
        Status::DocumentError,
    ),
    (
        &["get", "--keys", "refuse"],
        b"[\"b\"]\n\n{\"a\":1,\"a\":2,\"b\":3}",
        "1 3\n",
        Status::Done,
    ),
    (
        &["get", "--keys", "last"],
        b"[\"a\"]\n\n{\"a\":1,",
        "! eof EofWhileParsing 1 7 6\n",
        Status::DocumentError,
    ),
    (
        &[],
        b"[\"a\"]\n[\"a\"]\n\n{\"a\": {\n}, \"a\": 2",
        "3 {\n}\n3 {\n}\n",
        Status::Done,
    ),
    (&[], b"[]\n\n 1.50 and more", "4 1.50\n", Status::Done),
    (&[], b"\n}{", "", Status::Done),
    (&[], b"", "", Status::Done),
    (
        &[],
        b"[\"a\"]\n\n{\"a\": tru}",
        "! syntax InvalidLiteral 1 10 9\n",
        Status::DocumentError,
    ),
    (
        &[],
        b"[\"b\"]\n\n{\"a\": 1",
        "! eof EofWhileParsing 1 7 6\n",
        Status::DocumentError,
    ),
    (
        &[],
        b"[\"b\"]\n\n{\n\"a\": 1,\n]",
        "! syntax ExpectObjectKeyOrEnd 3 1 10\n",
        Status::DocumentError,
    ),
    (
        &[],
        b"[\"a\",0]\n\n{\"a\": 120}",
        "! type Message 1 9 8\n",
        Status::DocumentError,
    ),
    (
        &[],
        b"[\"a\",\"b\"]\n[\"c\"]\n\n{\"a\": {}, \"c\": x}",
        "! not-found GetInEmptyObject 1 8 7\n",
        Status::DocumentError,
    ),
    (
        &[],
        b"[0]\n\n[]",
        "! not-found GetInEmptyArray 1 2 1\n",
        Status::DocumentError,
    ),
    (
        &[],
        b"[0]\n[2]\n\n[1, 2]",
        "! not-found GetIndexOutOfArray 1 6 5\n",
        Status::DocumentError,
    ),
    (
        &[],
        b"[\"a\"]\n\n{\"a\": \"\xff\"}",
        "! syntax InvalidUTF8 1 8 7\n",
        Status::DocumentError,
    ),
    (
        &[],
        b"[\"a\"]\n\n{\"a\": 1, \"b\": \"\xff\"}",
        "1 1\n",
        Status::Done,
    ),
    (
        &[],
        b"[\"a\"]\n[0]\n\n{\"a\": 1}",
        "! paths 2\n",
        Status::BadLines,
    ),
    (
        &[],
        b"[\"a\"]\n[\"b\"\n\n{\"a\": 1}",
        "! paths 2\n",
        Status::BadLines,
    ),
    (
        &["got"],
        b"[\"a\"]\n\n{\"a\": 1}",
        "! usage\n",
        Status::BadUsage,
    ),
    (
        &["list"],
        b"[1, [2, 3], \"a\"] x",
        "1 1\n6 [2, 3]\n3 \"a\"\n",
        Status::Done,
    ),
    (
        &["list"],
        b"{\"a\\n\": 1, \"b\": {}}",
        "2 a\n 1 1\n1 b 2 {}\n",
        Status::Done,
    ),
    (
        &["list"],
        b"[1, 2",
        "1 1\n1 2\n! syntax ExpectedArrayCommaOrEnd 1 5 4\n",
        Status::DocumentError,
    ),
    (
        &["list"],
        b"{\"a\": 1,",
        "1 a 1 1\n! syntax ExpectObjectKeyOrEnd 1 8 7\n",
        Status::DocumentError,
    ),
    (
        &["list"],
        b"7",
        "! syntax ExpectedArrayStart 1 1 0\n",
        Status::DocumentError,
    ),
    (
        &["list"],
        b"[1, \"\xff\"]",
        "! syntax InvalidUTF8 1 6 5\n",
        Status::DocumentError,
    ),
    (
        &["edit"],
        b"[\"set\",[\"a\",1],true]\n\n{\"a\" : [1, 2] , \"b\":{ \"c\" : 0 }}",
        "{\"a\":[1,true],\"b\":{ \"c\" : 0 }}\n",
        Status::Done,
    ),
    (
        &["edit"],
        b"[\"pair\",[],\"z\",[ 1 ]]\n[\"take\",[\"a\"]]\n\n{\"a\":5}",
        "{\"a\":null,\"z\":[ 1 ]}\n",
        Status::Done,
    ),
    (&["edit"], b"\n {\"a\" : 1} ", "{\"a\" : 1}\n", Status::Done),
    (
        &["edit"],
        b"[\"set\",[],{\"a\":{}}]\n[\"push\",[\"a\"],1]\n\n0",
        "! edit 2\n",
        Status::DocumentError,
    ),
    (
        &["edit"],
        b"[\"take\",[\"b\"]]\n\n{\"a\":1} x",
        "! syntax TrailingCharacters 1 9 8\n",
        Status::DocumentError,
    ),
    (
        &["edit"],
        b"[\"drop\",[]]\n\n0",
        "! edits 1\n",
        Status::BadLines,
    ),
    (
        &["fill"],
        b"{\"obj\":{\"a\":2}}\n{\"obj\":{\"a\":1, \"b\":1}}",
        "{\"obj\":{\"a\":1}}\n",
        Status::Done,
    ),
    (
        &["fill"],
        b"{\"a\": 1}\n{123}",
        "! syntax ExpectObjectKeyOrEnd 1 2 1\n",
        Status::DocumentError,
    ),
    (
        &["fill"],
        b"[]\n{}",
        "! type Message 1 1 0\n",
        Status::DocumentError,
    ),
    (&["fill"], b"{\"a\":\n{}", "! schema 1\n", Status::BadLines),
    (
        &["patch"],
        b"[{\"op\":\"add\",\"path\":\"/a/1\",\"value\":9},{\"op\":\"move\",\"from\":\"/a/0\",\"path\":\"/b\"}]\n{\"a\":[1,2]}",
        "{\"a\":[9,2],\"b\":1}\n",
        Status::Done,
    ),
    (
        &["patch"],
        b"[{\"op\":\"test\",\"path\":\"/a\",\"value\":1.0}]\n{\"a\":1}",
        "! op 0 TestFailed\n",
        Status::DocumentError,
    ),
    (
        &["patch"],
        b"[{\"op\":\"remove\",\"path\":\"/a/5\"}]\n{\"a\":[1]}",
        "! op 0 Missing\n",
        Status::DocumentError,
    ),
    (
        &["patch"],
        b"[{\"op\":\"move\",\"from\":\"/a\",\"path\":\"/a/b\"}]\n{\"a\":{}}",
        "! op 0 IntoChild\n",
        Status::DocumentError,
    ),
    (&["patch"], b"{}\n{}", "! patch 1\n", Status::BadLines),
    (
        &["patch"],
        b"[]\n{\"a\":1} x",
        "! syntax TrailingCharacters 1 9 8\n",
        Status::DocumentError,
    ),
    (
        &["fast"],
        b"[\"a\"]\n[\"b\"]\n\n{\"a\" : [ 1 ]} ",
        "5 [ 1 ]\n-\n",
        Status::Done,
    ),
    (
        &["fast"],
        b"[\"a\"]\n\n{\"a\":1}\nx",
        "! syntax TrailingCharacters 2 1 8\n",
        Status::DocumentError,
    ),
    (
        &["fast"],
        b"[\"a\"]\n[0]\n\nx",
        "! paths 2\n",
        Status::BadLines,
    ),
    (
        &["lines"],
        b"[\"id\"]\n[\"t\",0]\n\n{\"id\":7,\"t\":[\"x\"]}\n{\"id\":8}\n\n{\"id\":tru}",
        "1 7\t3 \"x\"\n1 8\t-\n! 4 syntax InvalidLiteral 9\n",
        Status::DocumentError,
    ),
    (&["lines"], b"[\"id\"]\n\n", "", Status::Done),
    (
        &["lines"],
        b"[\"id\"]\n[0]\n\n{}",
        "! paths 2\n",
        Status::BadLines,
    ),
    (
        &["index"],
        b"{\"a\":[1,{}]}",
        "0 0 object 0 12 root\n1 0 array 5 11 key \"a\"\n2 1 number 6 7 at 0\n3 1 object 8 10 at 1\n",
        Status::Done,
    ),
    (
        &["index"],
        b"[1",
        "! eof EofWhileParsing 1 2 1\n",
        Status::DocumentError,
    ),
    (
        &["min"],
        b"{ \"a\" : [ 1 , \"x \\\" y\" ] }",
        "{\"a\":[1,\"x \\\" y\"]}\n",
        Status::Done,
    ),
    (
        &["min"],
        b"{} x",
        "! syntax TrailingCharacters 1 4 3\n",
        Status::DocumentError,
    ),
    (
        &["indent", "2"],
        b"{\"a\":[1,{}],\"b\":[]}",
        "{\n  \"a\": [\n    1,\n    {}\n  ],\n  \"b\": []\n}\n",
        Status::Done,
    ),
    (
        &["indent", "1"],
        b"[1",
        "! eof EofWhileParsing 1 2 1\n",
        Status::DocumentError,
    ),
    (&["indent", "9"], b"[1]", "! usage\n", Status::BadUsage),
    (
        &["gen", "2"],
        b"",
        "objects 2\nbytes 104\nchecked 3 1 58\nunchecked 3 1 58\n",
        Status::Done,
    ),
];

#[test]
fn writes_the_examples_of_the_format(rt: HostRuntime) -> Result<(), Fail> {
    let alloc = rt.alloc();
    for &(words, input, output, status) in &EXAMPLES {
        check_run(&rt, alloc, words, input, output, status)?;
    }
    Ok(())
}

#[test]
fn ends_with_the_numbers_of_the_format(rt: HostRuntime) {
    let statuses = [
        Status::Done,
        Status::DocumentError,
        Status::BadUsage,
        Status::BadLines,
        Status::TooLarge,
        Status::ReadFault,
        Status::WriteFault,
        Status::NoMemory,
    ];
    for (number, status) in statuses.iter().enumerate() {
        same(&rt, *status as usize, number);
    }
}
