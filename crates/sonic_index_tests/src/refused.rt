// What is refused, and that `validate` says the same of it.
use crate::same::same_at;
use sonic_error::{Error, ErrorCode};
use sonic_find::validate;
use sonic_index::JsonIndex;
use std::alloc::Global;
use std::process::Abort;
use std::test::Fail;

// Checks that both refuse a text with this code, at the same place: which.
pub(crate) fn refused_as_validate(
    rt: &impl Abort,
    alloc: Global,
    text: &[u8],
    code: ErrorCode,
) -> usize {
    match (JsonIndex::build(alloc, text), validate(alloc, text)) {
        (Err(error), Err(other)) => {
            same_at(rt, error.code(), code, text);
            same_at(rt, other.code(), code, text);
            same_at(rt, error.line(), other.line(), text);
            same_at(rt, error.column(), other.column(), text);
            same_at(rt, error.offset(), other.offset(), text);
            error.offset()
        }
        _ => panic!(rt; "{text:?} is a document"),
    }
}

// A text, and why it is no document. The end of an input is reported at its last byte.
const TEXTS: [(&[u8], ErrorCode, usize); 18] = [
    (b"", ErrorCode::EofWhileParsing, 0),
    (b"[1", ErrorCode::EofWhileParsing, 1),
    (b"{\"a\":1", ErrorCode::EofWhileParsing, 5),
    (b"{\"a\"", ErrorCode::EofWhileParsing, 3),
    (b" x", ErrorCode::InvalidJsonValue, 1),
    (b"[1,]", ErrorCode::InvalidJsonValue, 3),
    (b"[[1] 2]", ErrorCode::ExpectedArrayCommaOrEnd, 5),
    (b"[{\"a\":[]]", ErrorCode::ExpectedObjectCommaOrEnd, 8),
    (b"{\"a\":1,}", ErrorCode::ExpectObjectKeyOrEnd, 7),
    (b"{\"a\" 1}", ErrorCode::ExpectedColon, 5),
    (b"{1:2}", ErrorCode::ExpectObjectKeyOrEnd, 1),
    (b"[tru]", ErrorCode::InvalidLiteral, 4),
    (b"[01]", ErrorCode::InvalidNumber, 2),
    // The root is whole, and text follows it.
    (b"1 2", ErrorCode::TrailingCharacters, 2),
    (b"[1]]", ErrorCode::TrailingCharacters, 3),
    // UTF-8 comes last.
    (b"{\"\xFF\":1}", ErrorCode::InvalidUTF8, 2),
    (b"[\"\xFF\"] x", ErrorCode::TrailingCharacters, 6),
    (b"[\"\xFF\",]", ErrorCode::InvalidJsonValue, 5),
];

#[test]
fn refuses_as_validate_does(rt: HostRuntime) -> Result<(), Fail> {
    for &(text, code, offset) in &TEXTS {
        same_at(
            &rt,
            refused_as_validate(&rt, rt.alloc(), text, code),
            offset,
            text,
        );
    }
    Ok(())
}
