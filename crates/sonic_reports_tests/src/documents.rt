// Where paths lead in documents: expected values by the grammar, not by the program.
use crate::rows::check_run;
use sonic_reports::Status;
use std::alloc::Global;
use std::process::Abort;
use std::test::Fail;

// An input, and its report.
type Row = (&'static [u8], &'static str);

// One path of indexes that leads to a value.
const FOUND: [Row; 22] = [
    (b"[]\n\nnull", "4 null\n"),
    (b"[]\n\ntrue,", "4 true\n"),
    (b"[]\n\nfalsehood", "5 false\n"),
    (b"[]\n\n-0", "2 -0\n"),
    (b"[]\n\n120 ", "3 120\n"),
    (b"[]\n\n-1.50e+7,", "8 -1.50e+7\n"),
    (b"[1]\n\n[\"]\",1]", "1 1\n"),
    (b"[]\n\n[]", "2 []\n"),
    (b"[]\n\n\n [7]", "3 [7]\n"),
    (b"[0]\n\n\n [7]", "1 7\n"),
    (b"[1]\n\n[ 1 , [ 2 ] ]", "5 [ 2 ]\n"),
    (b"[1,0]\n\n[ 1 , [ 2 ] ]", "1 2\n"),
    (b"[2]\n\n[0,1,2,", "1 2\n"),
    (b"[]\n\n{}", "2 {}\n"),
    (b"[]\n\n{ \n} }", "4 { \n}\n"),
    (b"[]\n\n{\"a\":1}]", "7 {\"a\":1}\n"),
    (
        b"[]\n\n{\"\" :{ } , \"\":[{}]}",
        "19 {\"\" :{ } , \"\":[{}]}\n",
    ),
    (b"[]\n\n{\"}\\\"\":[\"]\"]}", "13 {\"}\\\"\":[\"]\"]}\n"),
    (
        b"[1]\n\n[{},{\"k\" : [ ] , \"k\":2}]",
        "19 {\"k\" : [ ] , \"k\":2}\n",
    ),
    (b"[1,1]\n\n[{\"k\":[1,2]},[3,{}]]", "2 {}\n"),
    (b"[0,0]\n\n[[{\"k\":0}],", "7 {\"k\":0}\n"),
    (b"[1]\n\n[{\"\\ud83d\\ude00\":0},5", "1 5\n"),
];

// One that leads nowhere, though the text fits so far.
const FAILING: [Row; 14] = [
    (b"[0]\n\n[]", "! not-found GetInEmptyArray 1 2 1\n"),
    (b"[7]\n\n[ \n]", "! not-found GetInEmptyArray 2 1 3\n"),
    (b"[1]\n\n[1]", "! not-found GetIndexOutOfArray 1 3 2\n"),
    (b"[2]\n\n[1, 2 ]", "! not-found GetIndexOutOfArray 1 7 6\n"),
    (b"[0,0]\n\n[[],[4]]", "! not-found GetInEmptyArray 1 3 2\n"),
    (b"[1]\n\n[{}]", "! not-found GetIndexOutOfArray 1 4 3\n"),
    (
        b"[1]\n\n[{\"a\":[0,1]}]",
        "! not-found GetIndexOutOfArray 1 13 12\n",
    ),
    (b"[0]\n\n 12", "! type Message 1 3 2\n"),
    (b"[0]\n\nnull", "! type Message 1 4 3\n"),
    (b"[0]\n\n\"abc\"", "! type Message 1 5 4\n"),
    (b"[0,0]\n\n[true]", "! type Message 1 5 4\n"),
    (b"[0]\n\n{}", "! type Message 1 2 1\n"),
    (b"[0]\n\n{\"a\":[1]}", "! type Message 1 9 8\n"),
    (b"[0,0]\n\n[{\"a\":0}]", "! type Message 1 8 7\n"),
];

// One that is cut by the fault of the text.
const CUT: [Row; 31] = [
    (b"[]\n\n", "! eof EofWhileParsing 1 1 0\n"),
    (b"[0]\n\n \n", "! eof EofWhileParsing 1 2 1\n"),
    (b"[]\n\n}", "! syntax InvalidJsonValue 1 1 0\n"),
    (b"[]\n\n\xef\xbb\xbf1", "! syntax InvalidJsonValue 1 1 0\n"),
    (b"[0]\n\ntr", "! eof EofWhileParsing 1 2 1\n"),
    (b"[]\n\ntrUe", "! syntax InvalidLiteral 1 3 2\n"),
    (b"[0]\n\n[fals]", "! syntax InvalidLiteral 1 6 5\n"),
    (b"[]\n\n-", "! eof EofWhileParsing 1 1 0\n"),
    (b"[]\n\n-a", "! syntax InvalidNumber 1 2 1\n"),
    (b"[]\n\n01.5", "! syntax InvalidNumber 1 2 1\n"),
    (b"[]\n\n-00", "! syntax InvalidNumber 1 3 2\n"),
    (b"[]\n\n0.x", "! syntax InvalidNumber 1 3 2\n"),
    (b"[]\n\n-0E", "! eof EofWhileParsing 1 3 2\n"),
    (b"[0]\n\n12e+]", "! syntax InvalidNumber 1 5 4\n"),
    (b"[]\n\n\"", "! eof EofWhileParsing 1 1 0\n"),
    (
        b"[]\n\n\"a\x1f\"",
        "! syntax ControlCharacterWhileParsingString 1 3 2\n",
    ),
    (b"[0]\n\n[\"\\x\"]", "! syntax InvalidEscape 1 4 3\n"),
    (b"[0]\n\n[", "! eof EofWhileParsing 1 1 0\n"),
    (b"[0]\n\n[,", "! syntax InvalidJsonValue 1 2 1\n"),
    (b"[1]\n\n[1", "! eof EofWhileParsing 1 2 1\n"),
    (b"[1]\n\n[1 ;", "! syntax ExpectedArrayCommaOrEnd 1 4 3\n"),
    (b"[1]\n\n[1,", "! eof EofWhileParsing 1 3 2\n"),
    (b"[1]\n\n[1, ]", "! syntax InvalidJsonValue 1 5 4\n"),
    (b"[]\n\n[1}", "! syntax ExpectedArrayCommaOrEnd 1 3 2\n"),
    (
        b"[1]\n\n[[1][2]]",
        "! syntax ExpectedArrayCommaOrEnd 1 5 4\n",
    ),
    (b"[1]\n\n[{}", "! eof EofWhileParsing 1 3 2\n"),
    (b"[0]\n\n{", "! eof EofWhileParsing 1 1 0\n"),
    (b"[0]\n\n{\"a\":1", "! eof EofWhileParsing 1 6 5\n"),
    (b"[0]\n\n[{]", "! syntax ExpectObjectKeyOrEnd 1 3 2\n"),
    (b"[1]\n\n[{\"a\" 1},5]", "! syntax ExpectedColon 1 7 6\n"),
    (
        b"[1]\n\n[{\"a\":1],5]",
        "! syntax ExpectedObjectCommaOrEnd 1 8 7\n",
    ),
];

// Runs over each input, and compares.
fn check(rt: &impl Abort, alloc: Global, rows: &[Row], ending: Status) -> Result<(), Fail> {
    for (input, output) in rows {
        check_run(rt, alloc, &[], input, output, ending)?;
    }
    Ok(())
}

#[test]
fn finds_values(rt: HostRuntime) -> Result<(), Fail> {
    check(&rt, rt.alloc(), &FOUND, Status::Done)
}

#[test]
fn fails_where_no_element_is(rt: HostRuntime) -> Result<(), Fail> {
    check(&rt, rt.alloc(), &FAILING, Status::DocumentError)
}

#[test]
fn is_cut_at_the_first_byte_that_does_not_fit(rt: HostRuntime) -> Result<(), Fail> {
    check(&rt, rt.alloc(), &CUT, Status::DocumentError)
}
