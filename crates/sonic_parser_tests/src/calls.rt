// Worked examples of each call, with the cursor after it.
use crate::same::{same, same_at};
use sonic_error::{Error, ErrorCode};
use sonic_input::{JsonSlice, Read};
use sonic_parser::{ParseStatus, Parser};
use std::alloc::Global;
use std::process::Abort;

const PLAIN: ParseStatus = ParseStatus::None;

const ESCAPED: ParseStatus = ParseStatus::HasEscaped;

// The next value is this text, with the cursor after it.
fn check_skip(
    rt: &impl Abort,
    alloc: Global,
    parser: &mut Parser<'_>,
    span: &[u8],
    status: ParseStatus,
    end: usize,
) {
    same_at(rt, parser.skip_one(alloc), Ok((span, status)), span);
    same_at(rt, parser.offset(), end, span);
}

#[test]
fn skips_one_value_after_the_other(rt: HostRuntime) {
    let alloc = rt.alloc();
    let text = b" [1, {\"a\":\"]\"}] x";
    let mut parser = Parser::new(Read::from(&text[..]));
    check_skip(&rt, alloc, &mut parser, b"[1, {\"a\":\"]\"}]", PLAIN, 15);
    same(&rt, parser.skip_space_peek(), Some(b'x'));
    same(&rt, parser.offset(), 16);
    same(&rt, parser.skip_space(), Some(b'x'));
    same(&rt, parser.offset(), 17);
    same(&rt, parser.skip_space(), None);
    same(&rt, parser.skip_space_peek(), None);
    same(&rt, parser.offset(), 17);
    same(&rt, parser.text(), &text[..]);
}

#[test]
fn leaves_what_follows_a_value(rt: HostRuntime) {
    let alloc = rt.alloc();
    let text = "{\"a\" : [ ] , \"b\":{}}null\t-1.5e+7 \"x\\\\\"\"\\u00e9\"true1.2.3";
    let mut parser = Parser::new(Read::from(text));
    check_skip(
        &rt,
        alloc,
        &mut parser,
        b"{\"a\" : [ ] , \"b\":{}}",
        PLAIN,
        20,
    );
    check_skip(&rt, alloc, &mut parser, b"null", PLAIN, 24);
    check_skip(&rt, alloc, &mut parser, b"-1.5e+7", PLAIN, 32);
    check_skip(&rt, alloc, &mut parser, b"\"x\\\\\"", ESCAPED, 38);
    check_skip(&rt, alloc, &mut parser, b"\"\\u00e9\"", ESCAPED, 46);
    check_skip(&rt, alloc, &mut parser, b"true", PLAIN, 50);
    check_skip(&rt, alloc, &mut parser, b"1.2", PLAIN, 53);
    same(
        &rt,
        parser.skip_one(alloc),
        Err(Error::syntax(ErrorCode::InvalidJsonValue, text.as_bytes(), 53)),
    );
    same(&rt, parser.offset(), 53);
}

// The status of the one value of a text.
fn check_status(rt: &impl Abort, alloc: Global, text: &str, status: ParseStatus) {
    let mut parser = Parser::new(Read::from(text));
    let bytes = text.as_bytes();
    check_skip(rt, alloc, &mut parser, bytes, status, bytes.len());
}

#[test]
fn finds_escapes_in_strings_with_a_backslash_alone(rt: HostRuntime) {
    let alloc = rt.alloc();
    check_status(&rt, alloc, "\"\"", PLAIN);
    check_status(&rt, alloc, "\"é\"", PLAIN);
    check_status(&rt, alloc, "\"\\n\"", ESCAPED);
    check_status(&rt, alloc, "\"\\\"\"", ESCAPED);
    check_status(&rt, alloc, "[\"\\n\"]", PLAIN);
    check_status(&rt, alloc, "{\"\\n\":\"\\n\"}", PLAIN);
}

#[test]
fn says_nothing_of_the_encoding(rt: HostRuntime) {
    let alloc = rt.alloc();
    let text = b"[\"\xff\"]\xff";
    let mut parser = Parser::new(Read::from(&text[..]));
    check_skip(&rt, alloc, &mut parser, b"[\"\xff\"]", PLAIN, 5);
    let error = parser.error(ErrorCode::InvalidNumber);
    same(
        &rt,
        error,
        Error::syntax(ErrorCode::InvalidUTF8, &text[..], 2),
    );
}

#[test]
fn errors_are_at_the_byte_before_the_cursor(rt: HostRuntime) {
    let text = "[x";
    let mut parser = Parser::new(Read::from(text));
    let code = ErrorCode::InvalidJsonValue;
    same(
        &rt,
        parser.error(code),
        Error::syntax(code, text.as_bytes(), 0),
    );
    same(&rt, parser.skip_space(), Some(b'['));
    same(
        &rt,
        parser.error(code),
        Error::syntax(code, text.as_bytes(), 0),
    );
    same(&rt, parser.skip_space(), Some(b'x'));
    same(
        &rt,
        parser.error(code),
        Error::syntax(code, text.as_bytes(), 1),
    );
}

#[test]
fn starts_at_the_reader(rt: HostRuntime) {
    let alloc = rt.alloc();
    let text = b"xx[1]";
    let mut read = Read::of_slice(JsonSlice::Raw(text));
    same(&rt, read.next_n(2), Some(&b"xx"[..]));
    let mut parser = Parser::new(read);
    check_skip(&rt, alloc, &mut parser, b"[1]", PLAIN, 5);
}

fn check_literal(
    rt: &impl Abort,
    text: &str,
    literal: &str,
    answer: Result<(), Error>,
    end: usize,
) {
    let mut parser = Parser::new(Read::from(text));
    same_at(rt, parser.parse_literal(literal), answer, text);
    same_at(rt, parser.offset(), end, text);
}

#[test]
fn parses_literals(rt: HostRuntime) {
    let letter = Error::syntax(ErrorCode::InvalidLiteral, b"nx", 1);
    let end = Error::syntax(ErrorCode::EofWhileParsing, b"nul", 3);
    let space = Error::syntax(ErrorCode::InvalidLiteral, b" null", 0);
    check_literal(&rt, "null,", "null", Ok(()), 4);
    check_literal(&rt, "rue", "rue", Ok(()), 3);
    check_literal(&rt, "", "", Ok(()), 0);
    check_literal(&rt, "nx", "null", Err(letter), 1);
    check_literal(&rt, "nul", "null", Err(end), 3);
    check_literal(&rt, " null", "null", Err(space), 0);
}

// The number whose first byte the parser passes, if one begins there.
fn number<'de>(parser: &mut Parser<'de>) -> Option<Result<&'de str, Error>> {
    let first = parser.skip_space()?;
    if first == b'-' || first.is_ascii_digit() {
        Some(parser.skip_number(first))
    } else {
        None
    }
}

fn check_number(rt: &impl Abort, text: &str, answer: Result<&str, Error>, end: usize) {
    let mut parser = Parser::new(Read::from(text));
    same_at(rt, number(&mut parser), Some(answer), text);
    same_at(rt, parser.offset(), end, text);
}

#[test]
fn skips_numbers(rt: HostRuntime) {
    let minus = Error::syntax(ErrorCode::InvalidNumber, b"-x", 1);
    let zero = Error::syntax(ErrorCode::InvalidNumber, b"01", 1);
    let dot = Error::syntax(ErrorCode::EofWhileParsing, b" 1.", 3);
    let exponent = Error::syntax(ErrorCode::InvalidNumber, b"1e+]", 3);
    check_number(&rt, "0", Ok("0"), 1);
    check_number(&rt, " -1.50e+7,", Ok("-1.50e+7"), 9);
    check_number(&rt, "1.2.3", Ok("1.2"), 3);
    check_number(&rt, "120]", Ok("120"), 3);
    check_number(&rt, "-x", Err(minus), 1);
    check_number(&rt, "01", Err(zero), 1);
    check_number(&rt, " 1.", Err(dot), 3);
    check_number(&rt, "1e+]", Err(exponent), 3);
}
