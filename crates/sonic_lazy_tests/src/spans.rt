// What no clause says: that spans of one path are found in worked examples, over each kind of input, with a
// look at what they pass or without, and where memory is ample. The expected spans are by the grammar.
use crate::one::starts;
use crate::same::same;
use bytes::Bytes;
use sonic_error::{Error, ErrorCode, JsonType, Note, Wanted};
use sonic_find::{Span, find, find_unchecked};
use sonic_input::{FastStr, JsonInput};
use sonic_pointer::PointerNode;
use sonic_pointer::PointerNode::{Index, Key};
use std::alloc::Global;
use std::process::Abort;
use std::test::Fail;

// The start and the end of a value, or the code and the offset of an error.
type Answer = Result<(usize, usize), (ErrorCode, usize)>;

// A path, a text, and what the path is answered with.
type Row = (&'static [PointerNode<'static>], &'static str, Answer);

// A number is where an array is wanted.
const NUMBER_FOR_ARRAY: ErrorCode = ErrorCode::Message(Note::Mismatch {
    found: JsonType::Number,
    wanted: Wanted::Array,
});

const ROWS: [Row; 14] = [
    (&[], "7", Ok((0, 1))),
    (&[], " \n[1, {}] x", Ok((2, 9))),
    (&[Key("a"), Index(1)], "{\"a\":[2,\"3\"]", Ok((8, 11))),
    (&[Index(1), Key("")], "[0,{\"\" : {} }]", Ok((9, 11))),
    (&[Key("a")], "{\"a\":1,\"a\":22}", Ok((5, 6))),
    (&[Key("\u{e9}")], "{\"\u{e9}\":\"\u{e9}\"}", Ok((6, 10))),
    (
        &[Key("b")],
        "{\"a\":1} x",
        Err((ErrorCode::GetUnknownKeyInObject, 6)),
    ),
    (
        &[Index(2)],
        "[1,2 ]",
        Err((ErrorCode::GetIndexOutOfArray, 5)),
    ),
    (&[Index(0)], "[ ]", Err((ErrorCode::GetInEmptyArray, 2))),
    (&[Key("a")], "{}", Err((ErrorCode::GetInEmptyObject, 1))),
    (
        &[Key("a"), Index(0)],
        "{\"a\":12}",
        Err((NUMBER_FOR_ARRAY, 6)),
    ),
    (&[], "", Err((ErrorCode::EofWhileParsing, 0))),
    (&[Index(1)], "[1", Err((ErrorCode::EofWhileParsing, 1))),
    (&[Index(1)], "[x,1]", Err((ErrorCode::InvalidJsonValue, 1))),
];

// Checks a span, or an error.
fn compare(rt: &impl Abort, found: Result<Span, Error>, wanted: Answer) {
    let found = match found {
        Ok(Span { start, end }) => Ok((start, end)),
        Err(error) => Err((error.code(), error.offset())),
    };
    same(rt, found, wanted);
}

// Checks what a path is answered with over an input, with and without a look at what is passed.
fn check<'de, I: JsonInput<'de>>(
    rt: &impl Abort,
    alloc: Global,
    input: I,
    path: &[PointerNode<'_>],
    wanted: Answer,
) {
    compare(rt, find(alloc, input, path), wanted);
    if starts(alloc, input.to_u8_slice()) {
        compare(rt, find_unchecked(input, path), wanted);
    }
}

#[test]
fn finds_the_span_of_a_value(rt: HostRuntime) -> Result<(), Fail> {
    let alloc = rt.alloc();
    for &(path, text, wanted) in &ROWS {
        let owned = String::from_str(alloc, text)?;
        let shared = FastStr::new(alloc, text)?;
        check(&rt, alloc, text, path, wanted);
        check(&rt, alloc, text.as_bytes(), path, wanted);
        check(&rt, alloc, &owned, path, wanted);
        check(&rt, alloc, &shared, path, wanted);
        check(&rt, alloc, shared.bytes(), path, wanted);
    }
    Ok(())
}
