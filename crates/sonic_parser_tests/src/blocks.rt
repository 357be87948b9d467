// Each fault of a text, and each kind of value, at each place of a block of bytes: after so many
// blanks, plain bytes, digits and escapes, and inside so many containers. The place and the code
// are written down here, from `docs/FORMAT.md`; the plain program has to find them too.
use crate::reference::{parser_answer, plain_answer};
use crate::same::same_at;
use sonic_error::ErrorCode;
use sonic_text::Stop;
use std::alloc::Global;
use std::process::Abort;
use std::test::Fail;

const END: ErrorCode = ErrorCode::EofWhileParsing;

const VALUE: ErrorCode = ErrorCode::InvalidJsonValue;

const LITERAL: ErrorCode = ErrorCode::InvalidLiteral;

const NUMBER: ErrorCode = ErrorCode::InvalidNumber;

const CONTROL: ErrorCode = ErrorCode::ControlCharacterWhileParsingString;

const ESCAPE: ErrorCode = ErrorCode::InvalidEscape;

const UNIT: ErrorCode = ErrorCode::InvalidUnicodeCodePoint;

const HALF: ErrorCode = ErrorCode::InvalidSurrogateUnicodeCodePoint;

const KEY: ErrorCode = ErrorCode::ExpectObjectKeyOrEnd;

const COLON: ErrorCode = ErrorCode::ExpectedColon;

const MEMBER: ErrorCode = ErrorCode::ExpectedObjectCommaOrEnd;

const ELEMENT: ErrorCode = ErrorCode::ExpectedArrayCommaOrEnd;

// The most parts of a run: with one byte each they are more than a block of 64.
const MOST: usize = 70;

// What comes after a value or a fault, twice, so that whole blocks are left: bytes of each kind, of
// which none goes on with what comes before.
const REST: &[u8; 70] =
    b",]}{[:\"\\ 1,]}{[:\"\\ 1,]}{[:\"\\ 1,]}{[:\"\\ 1,]}{[:\"\\ 1,]}{[:\"\\ 1,]}{[:\"\\ 1";

// A run of equal parts: the text before it, the part, and the text after it. Then what closes
// each part, and what closes the text before.
type Run = (
    &'static [u8],
    &'static [u8],
    &'static [u8],
    &'static [u8],
    &'static [u8],
);

// A text, the place of its fault, and the code.
type Fault = (&'static [u8], u8, ErrorCode);

const ENDED: Fault = (b"", 0, END);

fn push_times(text: &mut Vec<u8>, part: &[u8], times: usize) -> Result<(), Fail> {
    for _ in 0..times {
        text.extend_from_slice(part)?;
    }
    Ok(())
}

// A run of so many parts, with the texts before and after it.
fn text_of(alloc: Global, run: &Run, times: usize) -> Result<Vec<u8>, Fail> {
    let (before, part, after, _, _) = *run;
    let mut text = Vec::new(alloc);
    text.extend_from_slice(before)?;
    push_times(&mut text, part, times)?;
    text.extend_from_slice(after)?;
    Ok(text)
}

// What is found in a text: where its value begins and ends, or its fault.
type Answer = Result<(usize, usize), Stop>;

// Both readers find the answer, and the same as each other in the lossy way.
fn check(rt: &impl Abort, alloc: Global, text: &[u8], answer: Answer) {
    same_at(rt, plain_answer(rt, alloc, text, false), answer, text);
    same_at(rt, parser_answer(alloc, text, false), answer, text);
    same_at(
        rt,
        parser_answer(alloc, text, true),
        plain_answer(rt, alloc, text, true),
        text,
    );
}

// The fault comes after the text, whether more follows it or not.
fn check_fault(
    rt: &impl Abort,
    alloc: Global,
    mut text: Vec<u8>,
    fault: &Fault,
) -> Result<(), Fail> {
    let (last, offset, code) = *fault;
    let place = text.len() + usize::from(offset);
    text.extend_from_slice(last)?;
    check(rt, alloc, &text, Err(Stop { place, code }));
    if code != END {
        push_times(&mut text, REST, 2)?;
        check(rt, alloc, &text, Err(Stop { place, code }));
    }
    Ok(())
}

// Each fault after each run of up to `MOST` parts.
fn check_faults(
    rt: &impl Abort,
    alloc: Global,
    runs: &[Run],
    faults: &[Fault],
) -> Result<(), Fail> {
    for run in runs {
        for times in 0..MOST + 1 {
            for fault in faults {
                check_fault(rt, alloc, text_of(alloc, run, times)?, fault)?;
            }
        }
    }
    Ok(())
}

// The text after the run makes a value with all that closes it.
fn check_whole(
    rt: &impl Abort,
    alloc: Global,
    run: &Run,
    times: usize,
    inner: &[u8],
) -> Result<(), Fail> {
    let (_, part, _, close_part, close) = *run;
    let mut text = text_of(alloc, run, times)?;
    text.extend_from_slice(inner)?;
    push_times(&mut text, close_part, times)?;
    text.extend_from_slice(close)?;
    let start = if part.starts_with(b" ") { times } else { 0 };
    let end = text.len();
    check(rt, alloc, &text, Ok((start, end)));
    push_times(&mut text, REST, 2)?;
    check(rt, alloc, &text, Ok((start, end)));
    Ok(())
}

// Each of the texts after each run of up to `MOST` parts.
fn check_wholes(
    rt: &impl Abort,
    alloc: Global,
    runs: &[Run],
    inners: &[&[u8]],
) -> Result<(), Fail> {
    for run in runs {
        for times in 0..MOST + 1 {
            for inner in inners {
                check_whole(rt, alloc, run, times, inner)?;
            }
        }
    }
    Ok(())
}

// Runs after which a value is expected.
const BEFORE_VALUES: [Run; 20] = [
    (b"", b" ", b"", b"", b""),
    (b"[", b"\n", b"", b"", b"]"),
    (b"[\"", b"a", b"\",", b"", b"]"),
    (b"[\"", b"\xc3\xa9", b"\",", b"", b"]"),
    (b"[\"", b"\\n", b"\",", b"", b"]"),
    (b"[\"", b"\\\\", b"\",", b"", b"]"),
    (b"[\"", b"\\\"", b"\",", b"", b"]"),
    (b"[\"", b"\\u00e9", b"\",", b"", b"]"),
    (b"[\"", b"\\ud83d\\ude00", b"\",", b"", b"]"),
    (b"[1", b"0", b",", b"", b"]"),
    (b"[-0.5", b"0", b" ,", b"", b"]"),
    (b"[1e5", b"0", b", ", b"", b"]"),
    (b"{\"", b"a", b"\":", b"", b"}"),
    (b"{\"", b"\\\"", b"\" : ", b"", b" }"),
    (b"{\"a\":\"", b"]", b"\",\"b\":", b"", b"}"),
    (b"", b"[", b"", b"]", b""),
    (b"", b"{\"\":", b"", b"}", b""),
    (b"", b"[ {\"a\" : ", b"", b" } ]", b""),
    (b"[", b"[],", b"", b"", b"\n]"),
    (b"[", b"{\"a\":1 } , ", b"", b"", b",0]"),
];

// Faults where a value is expected: of its first byte, of a literal and of a number.
const BROKEN_VALUES: [Fault; 31] = [
    ENDED,
    (b"x", 0, VALUE),
    (b"}", 0, VALUE),
    (b":", 0, VALUE),
    (b",", 0, VALUE),
    (b"+1", 0, VALUE),
    (b".5", 0, VALUE),
    (b"\xef\xbb\xbf1", 0, VALUE),
    (b"\x00", 0, VALUE),
    (b"\x0c", 0, VALUE),
    (b"\\", 0, VALUE),
    (b"n", 1, END),
    (b"nul", 3, END),
    (b"nuLl", 2, LITERAL),
    (b"trap", 2, LITERAL),
    (b"tru ", 3, LITERAL),
    (b"falsy", 4, LITERAL),
    (b"-", 1, END),
    (b"-x", 1, NUMBER),
    (b"--1", 1, NUMBER),
    (b"00", 1, NUMBER),
    (b"-01", 2, NUMBER),
    (b"0.", 2, END),
    (b"0.]", 2, NUMBER),
    (b"1.e5", 2, NUMBER),
    (b"1e", 2, END),
    (b"1e]", 2, NUMBER),
    (b"1E+", 3, END),
    (b"1E+ ", 3, NUMBER),
    (b"1.5e-,", 5, NUMBER),
    (b"0e.", 2, NUMBER),
];

// Faults of an array, and of an object before and after its first value.
const BROKEN_ARRAYS: [Fault; 13] = [
    (b"[", 1, END),
    (b"[}", 1, VALUE),
    (b"[,", 1, VALUE),
    (b"[1", 2, END),
    (b"[1}", 2, ELEMENT),
    (b"[1:", 2, ELEMENT),
    (b"[1 2]", 3, ELEMENT),
    (b"[\"\"\"\"]", 3, ELEMENT),
    (b"[[][]]", 3, ELEMENT),
    (b"[1,", 3, END),
    (b"[1,]", 3, VALUE),
    (b"[1,,", 3, VALUE),
    (b"[{\"a\":1]", 7, MEMBER),
];

const BROKEN_OBJECTS: [Fault; 12] = [
    (b"{", 1, END),
    (b"{]", 1, KEY),
    (b"{,", 1, KEY),
    (b"{1:1}", 1, KEY),
    (b"{\"", 2, END),
    (b"{\"a\"", 4, END),
    (b"{\"a\"}", 4, COLON),
    (b"{\"a\",", 4, COLON),
    (b"{\"a\" 1}", 5, COLON),
    (b"{\"a\":", 5, END),
    (b"{\"a\":}", 5, VALUE),
    (b"{\"a\"::", 5, VALUE),
];

const BROKEN_MEMBERS: [Fault; 10] = [
    (b"{\"a\":1", 6, END),
    (b"{\"a\":1]", 6, MEMBER),
    (b"{\"a\":1:", 6, MEMBER),
    (b"{\"a\":1 \"b\"", 7, MEMBER),
    (b"{\"a\":{}{}", 7, MEMBER),
    (b"{\"a\":1,", 7, END),
    (b"{\"a\":1,}", 7, KEY),
    (b"{\"a\":1,,", 7, KEY),
    (b"{\"a\":1,\"b\"}", 10, COLON),
    (b"{\"a\":[1}", 7, ELEMENT),
];

#[test]
fn stops_where_no_value_begins(rt: HostRuntime) -> Result<(), Fail> {
    check_faults(&rt, rt.alloc(), &BEFORE_VALUES, &BROKEN_VALUES)
}

#[test]
fn stops_inside_an_array(rt: HostRuntime) -> Result<(), Fail> {
    check_faults(&rt, rt.alloc(), &BEFORE_VALUES, &BROKEN_ARRAYS)
}

#[test]
fn stops_inside_an_object(rt: HostRuntime) -> Result<(), Fail> {
    check_faults(&rt, rt.alloc(), &BEFORE_VALUES, &BROKEN_OBJECTS)
}

#[test]
fn stops_after_a_member(rt: HostRuntime) -> Result<(), Fail> {
    check_faults(&rt, rt.alloc(), &BEFORE_VALUES, &BROKEN_MEMBERS)
}

const SCALARS: [&[u8]; 15] = [
    b"null",
    b"true",
    b"false",
    b"0",
    b"-0",
    b"120",
    b"-12.50e+3",
    b"0E0",
    b"\"\"",
    b"\"a\"",
    b"\"\\\\\"",
    b"\"\\\"\"",
    b"\"\\\\\\\"]\"",
    b"\"\\ud83d\\ude00\"",
    b"\"[{,:}]\"",
];

#[test]
fn passes_scalars(rt: HostRuntime) -> Result<(), Fail> {
    check_wholes(&rt, rt.alloc(), &BEFORE_VALUES, &SCALARS)
}

const CONTAINERS: [&[u8]; 7] = [
    b"[]",
    b"[ ]",
    b"{}",
    b"{\n}",
    b"[1,[2,{}],\"]\"]",
    b"{\"a\":[1,\"}\"],\"\\\"\":{\"c\":null}}",
    b"[ 1 , {\t\"a\" :\r\n [ ] } ]",
];

#[test]
fn passes_containers(rt: HostRuntime) -> Result<(), Fail> {
    check_wholes(&rt, rt.alloc(), &BEFORE_VALUES, &CONTAINERS)
}

// Runs inside strings and keys.
const IN_STRINGS: [Run; 10] = [
    (b"\"", b"a", b"", b"", b"\""),
    (b"\"", b"\xe2\x82\xac", b"", b"", b"\""),
    (b"\"", b"[", b"", b"", b"\""),
    (b"\"", b"\\n", b"", b"", b"\""),
    (b"\"", b"\\\\", b"", b"", b"\""),
    (b"\"a", b"\\\"", b"", b"", b"\""),
    (b"\"", b"\\u00e9", b"", b"", b"\""),
    (b"\"", b"\\uD83D\\uDE00", b"", b"", b"\""),
    (b"{\"", b"a", b"", b"", b"\":0}"),
    (b"[{\"\":\"", b"\\\\", b"\\\"", b"", b"\"}]"),
];

const BROKEN_STRINGS: [Fault; 26] = [
    ENDED,
    (b"\x00\"", 0, CONTROL),
    (b"\n\"", 0, CONTROL),
    (b"\x1f\"", 0, CONTROL),
    (b"\\\"\t\"", 2, CONTROL),
    (b"\\", 1, END),
    (b"\\x\"", 1, ESCAPE),
    (b"\\U0041\"", 1, ESCAPE),
    (b"\\\n\"", 1, ESCAPE),
    (b"\\\\\\ \"", 3, ESCAPE),
    (b"\\u", 2, END),
    (b"\\u00e", 5, END),
    (b"\\ug000\"", 2, UNIT),
    (b"\\u0G00\"", 3, UNIT),
    (b"\\u00\"", 4, UNIT),
    (b"\\u000\"", 5, UNIT),
    (b"\\udc00\"", 3, HALF),
    (b"\\uDFFF\"", 3, HALF),
    (b"\\ud800", 6, END),
    (b"\\ud800\"", 6, HALF),
    (b"\\ud800a\"", 6, HALF),
    (b"\\udbff\\", 7, END),
    (b"\\udbff\\n\"", 7, HALF),
    (b"\\ud800\\u0041\"", 8, HALF),
    (b"\\ud800\\ud800\"", 9, HALF),
    (b"\\ud800\\udc0", 11, END),
];

const STRINGS: [&[u8]; 10] = [
    b"",
    b"a",
    b" ]}:,",
    b"\\n",
    b"\\\"",
    b"\\\\",
    b"\\\\\\\"",
    b"\\\"\\\\\\\\",
    b"\\u00E9",
    b"\\ud83d\\ude00",
];

#[test]
fn reads_strings(rt: HostRuntime) -> Result<(), Fail> {
    let alloc = rt.alloc();
    check_faults(&rt, alloc, &IN_STRINGS, &BROKEN_STRINGS)?;
    check_wholes(&rt, alloc, &IN_STRINGS, &STRINGS)
}

// Runs of digits before a number's point.
const IN_INTEGERS: [Run; 3] = [
    (b"1", b"0", b"", b"", b""),
    (b"-9", b"8", b"", b"", b""),
    (b"[{\"a\":7", b"1", b"", b"", b"}]"),
];

// Runs of digits after it.
const IN_FRACTIONS: [Run; 3] = [
    (b"0.1", b"0", b"", b"", b""),
    (b"-9.9", b"8", b"", b"", b""),
    (b"[7.0", b"0", b"", b"", b"]"),
];

const BROKEN_FRACTIONS: [Fault; 3] = [(b".", 1, END), (b".]", 1, NUMBER), (b".e1", 1, NUMBER)];

const BROKEN_EXPONENTS: [Fault; 6] = [
    (b"e", 1, END),
    (b"e,", 1, NUMBER),
    (b"E.5", 1, NUMBER),
    (b"e+", 2, END),
    (b"E-}", 2, NUMBER),
    (b"e+-1", 2, NUMBER),
];

const FRACTIONS: [&[u8]; 2] = [b".0", b".25e-10"];

const EXPONENTS: [&[u8]; 3] = [b"", b"e0", b"E+12"];

#[test]
fn reads_numbers(rt: HostRuntime) -> Result<(), Fail> {
    let alloc = rt.alloc();
    check_faults(&rt, alloc, &IN_INTEGERS, &BROKEN_FRACTIONS)?;
    check_faults(&rt, alloc, &IN_INTEGERS, &BROKEN_EXPONENTS)?;
    check_faults(&rt, alloc, &IN_FRACTIONS, &BROKEN_EXPONENTS)?;
    check_wholes(&rt, alloc, &IN_INTEGERS, &FRACTIONS)?;
    check_wholes(&rt, alloc, &IN_INTEGERS, &EXPONENTS)?;
    check_wholes(&rt, alloc, &IN_FRACTIONS, &EXPONENTS)
}

// A text, the bytes of which none fits after it, and the code.
type State = (&'static [u8], &'static [u8], ErrorCode);

const STATES: [State; 10] = [
    (b"", b"x]}:,", VALUE),
    (b"[", b"x}:,", VALUE),
    (b"[true", b"x}:1\"[", ELEMENT),
    (b"[[]", b"x}:1\"[", ELEMENT),
    (b"[1,", b"x]}:,", VALUE),
    (b"{", b"x]:,1[{", KEY),
    (b"{\"a\"", b"x]},1\"[{", COLON),
    (b"{\"a\":", b"x]}:,", VALUE),
    (b"{\"a\":null", b"x]:1\"[{", MEMBER),
    (b"{\"a\":1,", b"x]}:,1[{", KEY),
];

// Each of its bytes after so much white space, and the end of the text there.
fn check_state(
    rt: &impl Abort,
    alloc: Global,
    state: &State,
    space: &'static [u8],
    times: usize,
) -> Result<(), Fail> {
    let (before, bytes, code) = *state;
    let run: Run = (before, space, b"", b"", b"");
    check_fault(rt, alloc, text_of(alloc, &run, times)?, &ENDED)?;
    for byte in bytes.chunks(1) {
        check_fault(rt, alloc, text_of(alloc, &run, times)?, &(byte, 0, code))?;
    }
    Ok(())
}

#[test]
fn stops_after_white_space(rt: HostRuntime) -> Result<(), Fail> {
    let alloc = rt.alloc();
    for state in &STATES {
        for times in 0..MOST + 1 {
            check_state(&rt, alloc, state, b" ", times)?;
            check_state(&rt, alloc, state, b"\n", times)?;
            check_state(&rt, alloc, state, b"\t \r", times)?;
        }
    }
    Ok(())
}

// What opens a container with one item, what closes it, and what may not stand after the item.
type Nest = (&'static [u8], &'static [u8], Fault);

const NESTS: [Nest; 6] = [
    (b"[", b"]", (b"}", 0, ELEMENT)),
    (b"[", b" ] ", (b"[", 0, ELEMENT)),
    (b"{\"\":", b"}", (b"]", 0, MEMBER)),
    (b"{\"a\" : ", b"\n}", (b"\"", 0, MEMBER)),
    (b"[{\"\":", b"}]", (b"]", 0, MEMBER)),
    (b"{\"\":[", b"]}", (b"}", 0, ELEMENT)),
];

// One more container is opened than a run is long, and so many are closed before the fault.
#[test]
fn stops_where_the_wrong_bracket_closes(rt: HostRuntime) -> Result<(), Fail> {
    let alloc = rt.alloc();
    for nest in &NESTS {
        let (open, close, fault) = *nest;
        for times in 0..MOST + 1 {
            let mut text = Vec::new(alloc);
            push_times(&mut text, open, MOST + 1)?;
            text.extend_from_slice(b"{}")?;
            push_times(&mut text, close, times)?;
            check_fault(&rt, alloc, text.clone()?, &ENDED)?;
            check_fault(&rt, alloc, text, &fault)?;
        }
    }
    Ok(())
}
