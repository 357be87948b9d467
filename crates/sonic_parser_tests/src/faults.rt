// Each way in which an array or an object can stop being one, by a byte that doesn't fit and by
// the end of the text: the place and the code, with the cursor at the place.
use crate::same::same_at;
use sonic_error::{Error, ErrorCode};
use sonic_input::Read;
use sonic_parser::{ParseStatus, Parser};
use std::alloc::Global;
use std::process::Abort;

const END: ErrorCode = ErrorCode::EofWhileParsing;

const VALUE: ErrorCode = ErrorCode::InvalidJsonValue;

const KEY: ErrorCode = ErrorCode::ExpectObjectKeyOrEnd;

const COLON: ErrorCode = ErrorCode::ExpectedColon;

const MEMBER: ErrorCode = ErrorCode::ExpectedObjectCommaOrEnd;

const ELEMENT: ErrorCode = ErrorCode::ExpectedArrayCommaOrEnd;

const HALF: ErrorCode = ErrorCode::InvalidSurrogateUnicodeCodePoint;

// A text, the place of its fault, and the code.
pub(crate) type Fault = (&'static [u8], usize, ErrorCode);

pub(crate) fn parser_of(text: &[u8], lossy: bool) -> Parser<'_> {
    let parser = Parser::new(Read::from(text));
    if lossy { parser.utf8_lossy() } else { parser }
}

fn check_fault(rt: &impl Abort, alloc: Global, fault: &Fault, lossy: bool) {
    let (text, place, code) = *fault;
    let mut parser = parser_of(text, lossy);
    assert!(rt; place <= text.len());
    let error = Error::syntax(code, text, place);
    same_at(rt, parser.skip_one(alloc), Err(error), (text, lossy));
    same_at(rt, parser.offset(), place, (text, lossy));
}

// The same fault for both ways of reading.
fn check_faults(rt: &impl Abort, alloc: Global, faults: &[Fault]) {
    for fault in faults {
        check_fault(rt, alloc, fault, false);
        check_fault(rt, alloc, fault, true);
    }
}

pub(crate) const BEGINNINGS: [Fault; 12] = [
    (b"", 0, END),
    (b" \n", 2, END),
    (b"}", 0, VALUE),
    (b" ]", 1, VALUE),
    (b"x", 0, VALUE),
    (b"\xef\xbb\xbf{}", 0, VALUE),
    (b"[", 1, END),
    (b"[ ", 2, END),
    (b"[}", 1, VALUE),
    (b"[ :", 2, VALUE),
    (b"{", 1, END),
    (b"{ ", 2, END),
];

pub(crate) const KEYS: [Fault; 17] = [
    (b"{x", 1, KEY),
    (b"{ 1", 2, KEY),
    (b"{]", 1, KEY),
    (b"{,", 1, KEY),
    (b"{null:1}", 1, KEY),
    (b"{\"", 2, END),
    (b"{\"a", 3, END),
    (b"{\"\\", 3, END),
    (b"{\"\\x\":1}", 3, ErrorCode::InvalidEscape),
    (b"{\"\\u00g0\":1}", 6, ErrorCode::InvalidUnicodeCodePoint),
    (
        b"{\"\x1f\":1}",
        2,
        ErrorCode::ControlCharacterWhileParsingString,
    ),
    (b"{\"a\"", 4, END),
    (b"{\"a\" ", 5, END),
    (b"{\"a\"}", 4, COLON),
    (b"{\"a\",", 4, COLON),
    (b"{\"a\" 1}", 5, COLON),
    (b"{\"a\"[1}}", 4, COLON),
];

pub(crate) const MEMBERS: [Fault; 20] = [
    (b"{\"a\":", 5, END),
    (b"{\"a\": ", 6, END),
    (b"{\"a\":}", 5, VALUE),
    (b"{\"a\": ,", 6, VALUE),
    (b"{\"a\"::", 5, VALUE),
    (b"{\"a\":tru}", 8, ErrorCode::InvalidLiteral),
    (b"{\"a\":01}", 6, ErrorCode::InvalidNumber),
    (b"{\"a\":1.}", 7, ErrorCode::InvalidNumber),
    (b"{\"a\":1", 6, END),
    (b"{\"a\":1 ", 7, END),
    (b"{\"a\":1]", 6, MEMBER),
    (b"{\"a\":1:", 6, MEMBER),
    (b"{\"a\":1 \"b\":2}", 7, MEMBER),
    (b"{\"a\":\"\"invalid\"}", 7, MEMBER),
    (b"{\"a\":1,", 7, END),
    (b"{\"a\":1, ", 8, END),
    (b"{\"a\":1,}", 7, KEY),
    (b"{\"a\":1,,", 7, KEY),
    (b"{\"a\":1, 2", 8, KEY),
    (b"{\"a\":1,\"b\"}", 10, COLON),
];

pub(crate) const ELEMENTS: [Fault; 18] = [
    (b"[1", 2, END),
    (b"[1 ", 3, END),
    (b"[1}", 2, ELEMENT),
    (b"[1 2]", 3, ELEMENT),
    (b"[1:", 2, ELEMENT),
    (b"[1,", 3, END),
    (b"[1, ]", 4, VALUE),
    (b"[1,,", 3, VALUE),
    (b"[1,}", 3, VALUE),
    (b"[{]", 2, KEY),
    (b"[[]}", 3, ELEMENT),
    (b"[{}}", 3, ELEMENT),
    (b"{\"a\":[}", 6, VALUE),
    (b"{\"a\":[1}", 7, ELEMENT),
    (b"{\"a\":{}]", 7, MEMBER),
    (b"[{\"a\":1]", 7, MEMBER),
    (b"[{\"a\":[1,{\"b\":2}", 16, END),
    (b"[[], [", 6, END),
];

#[test]
fn stops_at_the_first_byte_that_does_not_fit(rt: HostRuntime) {
    let alloc = rt.alloc();
    check_faults(&rt, alloc, &BEGINNINGS);
    check_faults(&rt, alloc, &KEYS);
    check_faults(&rt, alloc, &MEMBERS);
    check_faults(&rt, alloc, &ELEMENTS);
}

// Texts with surrogate escapes that aren't in pairs.
pub(crate) const HALVES: [Fault; 6] = [
    (b"\"\\ud800\"", 7, HALF),
    (b"\"\\ude00\"", 4, HALF),
    (b"[\"\\ud800\"]", 8, HALF),
    (b"{\"\\ud800\":1}", 8, HALF),
    (b"{\"a\":\"\\ud800\\u0041\"}", 14, HALF),
    (b"[{\"a\":[\"\\udc00\"]}]", 11, HALF),
];

// A lossy parser passes the whole text, which is a string with a backslash or a container.
fn check_whole(rt: &impl Abort, alloc: Global, text: &[u8]) {
    let status = if text.starts_with(b"\"") {
        ParseStatus::HasEscaped
    } else {
        ParseStatus::None
    };
    let mut parser = parser_of(text, true);
    same_at(rt, parser.skip_one(alloc), Ok((text, status)), text);
    same_at(rt, parser.offset(), text.len(), text);
}

#[test]
fn only_a_lossy_parser_passes_halves_of_pairs(rt: HostRuntime) {
    let alloc = rt.alloc();
    for fault in &HALVES {
        check_fault(&rt, alloc, fault, false);
        check_whole(&rt, alloc, fault.0);
    }
}
