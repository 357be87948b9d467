// Each way in which a text can stop being JSON, by a byte that doesn't fit and by the end of the
// input, and the one line that reports it.
use crate::rows::check_run;
use sonic_reports::Status;
use std::process::Abort;
use std::test::Fail;

// A document, and the report of the path of no index over it.
type Fault = (&'static [u8], &'static str);

const VALUES: [Fault; 15] = [
    (b"[]\n\n", "! eof EofWhileParsing 1 1 0\n"),
    (b"[]\n\n}", "! syntax InvalidJsonValue 1 1 0\n"),
    (b"[]\n\nt", "! eof EofWhileParsing 1 1 0\n"),
    (b"[]\n\ntru", "! eof EofWhileParsing 1 3 2\n"),
    (b"[]\n\nnx", "! syntax InvalidLiteral 1 2 1\n"),
    (b"[]\n\nfalsE", "! syntax InvalidLiteral 1 5 4\n"),
    (b"[]\n\n[", "! eof EofWhileParsing 1 1 0\n"),
    (b"[]\n\n[}", "! syntax InvalidJsonValue 1 2 1\n"),
    (b"[]\n\n[1", "! eof EofWhileParsing 1 2 1\n"),
    (b"[]\n\n[1}", "! syntax ExpectedArrayCommaOrEnd 1 3 2\n"),
    (b"[]\n\n[1 2]", "! syntax ExpectedArrayCommaOrEnd 1 4 3\n"),
    (b"[]\n\n[1,", "! eof EofWhileParsing 1 3 2\n"),
    (b"[]\n\n[1,]", "! syntax InvalidJsonValue 1 4 3\n"),
    (b"[]\n\n[\n{", "! eof EofWhileParsing 2 1 2\n"),
    (b"[]\n\n[[], [", "! eof EofWhileParsing 1 6 5\n"),
];

const KEYS: [Fault; 20] = [
    (b"[]\n\n{", "! eof EofWhileParsing 1 1 0\n"),
    (b"[]\n\n{ \n", "! eof EofWhileParsing 1 3 2\n"),
    (b"[]\n\n{1", "! syntax ExpectObjectKeyOrEnd 1 2 1\n"),
    (b"[]\n\n{a:1}", "! syntax ExpectObjectKeyOrEnd 1 2 1\n"),
    (b"[]\n\n{null:1}", "! syntax ExpectObjectKeyOrEnd 1 2 1\n"),
    (b"[]\n\n{{}:1}", "! syntax ExpectObjectKeyOrEnd 1 2 1\n"),
    (b"[]\n\n{,}", "! syntax ExpectObjectKeyOrEnd 1 2 1\n"),
    (b"[]\n\n{ ]", "! syntax ExpectObjectKeyOrEnd 1 3 2\n"),
    (b"[]\n\n{\"a", "! eof EofWhileParsing 1 3 2\n"),
    (b"[]\n\n{\"\\x\":1}", "! syntax InvalidEscape 1 4 3\n"),
    (
        b"[]\n\n{\"a\n\":1}",
        "! syntax ControlCharacterWhileParsingString 1 4 3\n",
    ),
    (b"[]\n\n{\"a\"", "! eof EofWhileParsing 1 4 3\n"),
    (b"[]\n\n{\"a\" ", "! eof EofWhileParsing 1 5 4\n"),
    (b"[]\n\n{\"a\"}", "! syntax ExpectedColon 1 5 4\n"),
    (b"[]\n\n{\"a\",1}", "! syntax ExpectedColon 1 5 4\n"),
    (b"[]\n\n{\"a\" 1}", "! syntax ExpectedColon 1 6 5\n"),
    (b"[]\n\n{\"a\":", "! eof EofWhileParsing 1 5 4\n"),
    (b"[]\n\n{\"a\"::1}", "! syntax InvalidJsonValue 1 6 5\n"),
    (b"[]\n\n{\"a\":}", "! syntax InvalidJsonValue 1 6 5\n"),
    (b"[]\n\n{\"a\":tru}", "! syntax InvalidLiteral 1 9 8\n"),
];

const MEMBERS: [Fault; 18] = [
    (b"[]\n\n{\"a\":1", "! eof EofWhileParsing 1 6 5\n"),
    (
        b"[]\n\n{\"a\":1:",
        "! syntax ExpectedObjectCommaOrEnd 1 7 6\n",
    ),
    (
        b"[]\n\n{\"a\":1 \"b\":2}",
        "! syntax ExpectedObjectCommaOrEnd 1 8 7\n",
    ),
    (
        b"[]\n\n{\"a\":1]",
        "! syntax ExpectedObjectCommaOrEnd 1 7 6\n",
    ),
    (b"[]\n\n{\"a\":1,", "! eof EofWhileParsing 1 7 6\n"),
    (b"[]\n\n{\"a\":1,}", "! syntax ExpectObjectKeyOrEnd 1 8 7\n"),
    (b"[]\n\n{\"a\":1,,", "! syntax ExpectObjectKeyOrEnd 1 8 7\n"),
    (
        b"[]\n\n{\"a\":1,\n2",
        "! syntax ExpectObjectKeyOrEnd 2 1 8\n",
    ),
    (b"[]\n\n{\"a\":1,\"b\"", "! eof EofWhileParsing 1 10 9\n"),
    (b"[]\n\n{\"a\":1,\"b\"}", "! syntax ExpectedColon 1 11 10\n"),
    (b"[]\n\n[{]", "! syntax ExpectObjectKeyOrEnd 1 3 2\n"),
    (b"[]\n\n[{}}", "! syntax ExpectedArrayCommaOrEnd 1 4 3\n"),
    (b"[]\n\n[{\"a\":1}", "! eof EofWhileParsing 1 8 7\n"),
    (b"[]\n\n{\"a\":[}", "! syntax InvalidJsonValue 1 7 6\n"),
    (
        b"[]\n\n{\"a\":[1}",
        "! syntax ExpectedArrayCommaOrEnd 1 8 7\n",
    ),
    (b"[]\n\n{\"a\":[1]", "! eof EofWhileParsing 1 8 7\n"),
    (b"[]\n\n{\"a\":{]", "! syntax ExpectObjectKeyOrEnd 1 7 6\n"),
    (
        b"[]\n\n{\"a\":{}]",
        "! syntax ExpectedObjectCommaOrEnd 1 8 7\n",
    ),
];

const NUMBERS: [Fault; 12] = [
    (b"[]\n\n-", "! eof EofWhileParsing 1 1 0\n"),
    (b"[]\n\n-a", "! syntax InvalidNumber 1 2 1\n"),
    (b"[]\n\n01", "! syntax InvalidNumber 1 2 1\n"),
    (b"[]\n\n-01", "! syntax InvalidNumber 1 3 2\n"),
    (b"[]\n\n1.", "! eof EofWhileParsing 1 2 1\n"),
    (b"[]\n\n1.e", "! syntax InvalidNumber 1 3 2\n"),
    (b"[]\n\n1e", "! eof EofWhileParsing 1 2 1\n"),
    (b"[]\n\n1e.", "! syntax InvalidNumber 1 3 2\n"),
    (b"[]\n\n1e+", "! eof EofWhileParsing 1 3 2\n"),
    (b"[]\n\n1e+-", "! syntax InvalidNumber 1 4 3\n"),
    (b"[]\n\n0.5E-", "! eof EofWhileParsing 1 5 4\n"),
    (b"[]\n\n0.5E-x", "! syntax InvalidNumber 1 6 5\n"),
];

const STRINGS: [Fault; 20] = [
    (b"[]\n\n\"", "! eof EofWhileParsing 1 1 0\n"),
    (b"[]\n\n\"abc", "! eof EofWhileParsing 1 4 3\n"),
    (
        b"[]\n\n\"\x00\"",
        "! syntax ControlCharacterWhileParsingString 1 2 1\n",
    ),
    (
        b"[]\n\n\"\n\"",
        "! syntax ControlCharacterWhileParsingString 1 2 1\n",
    ),
    (
        b"[]\n\n\"a\x1f\"",
        "! syntax ControlCharacterWhileParsingString 1 3 2\n",
    ),
    (b"[]\n\n\"\\", "! eof EofWhileParsing 1 2 1\n"),
    (b"[]\n\n\"\\x\"", "! syntax InvalidEscape 1 3 2\n"),
    (b"[]\n\n\"\\U0041\"", "! syntax InvalidEscape 1 3 2\n"),
    (b"[]\n\n\"\\u", "! eof EofWhileParsing 1 3 2\n"),
    (b"[]\n\n\"\\u0", "! eof EofWhileParsing 1 4 3\n"),
    (b"[]\n\n\"\\u00", "! eof EofWhileParsing 1 5 4\n"),
    (b"[]\n\n\"\\u004", "! eof EofWhileParsing 1 6 5\n"),
    (b"[]\n\n\"\\u0041", "! eof EofWhileParsing 1 7 6\n"),
    (
        b"[]\n\n\"\\ug041\"",
        "! syntax InvalidUnicodeCodePoint 1 4 3\n",
    ),
    (
        b"[]\n\n\"\\u0g41\"",
        "! syntax InvalidUnicodeCodePoint 1 5 4\n",
    ),
    (
        b"[]\n\n\"\\u00g1\"",
        "! syntax InvalidUnicodeCodePoint 1 6 5\n",
    ),
    (
        b"[]\n\n\"\\u004g\"",
        "! syntax InvalidUnicodeCodePoint 1 7 6\n",
    ),
    (b"[]\n\n\"a\xc0\x80\"", "! syntax InvalidUTF8 1 3 2\n"),
    (b"[]\n\n\"a\xe2\x82\"", "! syntax InvalidUTF8 1 3 2\n"),
    (b"[]\n\n\"a\xed\xa0\x80\"", "! syntax InvalidUTF8 1 3 2\n"),
];

const SURROGATES: [Fault; 20] = [
    (b"[]\n\n\"\\ud", "! eof EofWhileParsing 1 4 3\n"),
    (b"[]\n\n\"\\ud8", "! eof EofWhileParsing 1 5 4\n"),
    (b"[]\n\n\"\\ud83", "! eof EofWhileParsing 1 6 5\n"),
    (b"[]\n\n\"\\ud83d", "! eof EofWhileParsing 1 7 6\n"),
    (b"[]\n\n\"\\ud83d\\", "! eof EofWhileParsing 1 8 7\n"),
    (b"[]\n\n\"\\ud83d\\u", "! eof EofWhileParsing 1 9 8\n"),
    (b"[]\n\n\"\\ud83d\\ud", "! eof EofWhileParsing 1 10 9\n"),
    (b"[]\n\n\"\\ud83d\\ude", "! eof EofWhileParsing 1 11 10\n"),
    (b"[]\n\n\"\\ud83d\\ude0", "! eof EofWhileParsing 1 12 11\n"),
    (b"[]\n\n\"\\ud83d\\ude00", "! eof EofWhileParsing 1 13 12\n"),
    (
        b"[]\n\n\"\\ud83d\"",
        "! syntax InvalidSurrogateUnicodeCodePoint 1 8 7\n",
    ),
    (
        b"[]\n\n\"\\ud83d\\n\"",
        "! syntax InvalidSurrogateUnicodeCodePoint 1 9 8\n",
    ),
    (
        b"[]\n\n\"\\ud83d\\u0041\"",
        "! syntax InvalidSurrogateUnicodeCodePoint 1 10 9\n",
    ),
    (
        b"[]\n\n\"\\ud83d\\ud83d\"",
        "! syntax InvalidSurrogateUnicodeCodePoint 1 11 10\n",
    ),
    (
        b"[]\n\n\"\\ud83d\\udex0\"",
        "! syntax InvalidSurrogateUnicodeCodePoint 1 12 11\n",
    ),
    (
        b"[]\n\n\"\\ud83d\\ude0x\"",
        "! syntax InvalidSurrogateUnicodeCodePoint 1 13 12\n",
    ),
    (
        b"[]\n\n\"\\udc00\"",
        "! syntax InvalidSurrogateUnicodeCodePoint 1 5 4\n",
    ),
    (
        b"[]\n\n\"\\uDFFF\"",
        "! syntax InvalidSurrogateUnicodeCodePoint 1 5 4\n",
    ),
    (
        b"[]\n\n\"\\ude00\\ud83d\"",
        "! syntax InvalidSurrogateUnicodeCodePoint 1 5 4\n",
    ),
    (
        b"[]\n\n\"\\udg00\"",
        "! syntax InvalidUnicodeCodePoint 1 5 4\n",
    ),
];

#[test]
fn reports_each_fault_at_its_place(rt: HostRuntime) -> Result<(), Fail> {
    let alloc = rt.alloc();
    let tables: [&[Fault]; 6] = [&VALUES, &KEYS, &MEMBERS, &NUMBERS, &STRINGS, &SURROGATES];
    for table in tables {
        for &(input, line) in table {
            check_run(&rt, alloc, &[], input, line, Status::DocumentError)?;
        }
    }
    Ok(())
}
