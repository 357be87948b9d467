// What no clause says: that the calls answer the worked examples of their documents.
ghost use Rattle.std.specs.Prelude.{length, IsTrue};
ghost use Rattle.sonic_text.specs.Numbers.{IsNumber};

use crate::same::{same, same_at};
use sonic_error::ErrorCode;
use sonic_text::internal::{skip_literal, skip_number};
use sonic_text::{Kind, Stop, is_whitespace, literal_end, number_end, whole_i64, whole_u64};
use std::process::Abort;

#[test]
fn knows_white_space(rt: HostRuntime) {
    for space in *b" \t\n\r" {
        assert!(rt; is_whitespace(space), "{space}");
    }
    for other in *b"\x00\x0b\x0c\x1f\x85\xa0a" {
        assert!(rt; !is_whitespace(other), "{other}");
    }
}

#[test]
fn knows_the_kind_of_a_container_by_its_first_byte(rt: HostRuntime) {
    same(&rt, Kind::opened_by(b'['), Some(Kind::Array));
    same(&rt, Kind::opened_by(b'{'), Some(Kind::Object));
    for other in *b"]}(\"0 \x00\xdb" {
        same_at(&rt, Kind::opened_by(other), None, other);
    }
}

fn check_stop(rt: &impl Abort, text: &[u8], literal: &str, place: usize, code: ErrorCode) {
    same_at(
        rt,
        literal_end(text, 0, literal),
        Err(Stop { place, code }),
        text,
    );
    same_at(rt, skip_literal(text, 0, literal), None, text);
}

#[test]
fn ends_literals(rt: HostRuntime) {
    same(&rt, literal_end(b"nullx", 0, "null"), Ok(4));
    same(&rt, literal_end(b"[true", 1, "true"), Ok(5));
    same(&rt, skip_literal(b"nullx", 0, "null"), Some(4));
    same(&rt, skip_literal(b"[true", 1, "true"), Some(5));
    check_stop(&rt, b"nul", "null", 3, ErrorCode::EofWhileParsing);
    check_stop(&rt, b"", "false", 0, ErrorCode::EofWhileParsing);
    check_stop(&rt, b"nx", "null", 1, ErrorCode::InvalidLiteral);
    check_stop(&rt, b"falsE", "false", 4, ErrorCode::InvalidLiteral);
}

fn check_end(rt: &impl Abort, text: &[u8], end: usize) {
    same_at(rt, number_end(text, 0), Ok(end), text);
    same_at(rt, skip_number(text, 0), Some(end), text);
}

#[test]
fn ends_numbers(rt: HostRuntime) {
    check_end(&rt, b"0", 1);
    check_end(&rt, b"-0", 2);
    check_end(&rt, b"0x", 1);
    check_end(&rt, b"1230/", 4);
    check_end(&rt, b"1.2.3", 3);
    check_end(&rt, b"0.50 ", 4);
    check_end(&rt, b"-0.5e+10", 8);
    check_end(&rt, b"1e5.", 3);
    check_end(&rt, b"12E-03,", 6);
    same(&rt, number_end(b"[-7.0]", 1), Ok(5));
}

fn check_number_stop(rt: &impl Abort, text: &[u8], place: usize, code: ErrorCode) {
    same_at(rt, number_end(text, 0), Err(Stop { place, code }), text);
    same_at(rt, skip_number(text, 0), None, text);
}

#[test]
fn refuses_numbers(rt: HostRuntime) {
    check_number_stop(&rt, b"", 0, ErrorCode::EofWhileParsing);
    check_number_stop(&rt, b"-", 1, ErrorCode::EofWhileParsing);
    check_number_stop(&rt, b"1.", 2, ErrorCode::EofWhileParsing);
    check_number_stop(&rt, b"1e", 2, ErrorCode::EofWhileParsing);
    check_number_stop(&rt, b"1e+", 3, ErrorCode::EofWhileParsing);
    let code = ErrorCode::InvalidNumber;
    check_number_stop(&rt, b"x", 0, code);
    check_number_stop(&rt, b"+1", 0, code);
    check_number_stop(&rt, b".5", 0, code);
    check_number_stop(&rt, b"-x", 1, code);
    check_number_stop(&rt, b"01", 1, code);
    check_number_stop(&rt, b"-01", 2, code);
    check_number_stop(&rt, b"1.x", 2, code);
    check_number_stop(&rt, b"1ex", 2, code);
    check_number_stop(&rt, b"1E-x", 3, code);
}

// Whether the text is one number and nothing else.
fn is_number(text: &str) -> bool
    ensures { IsTrue result → IsNumber text.now 0 (length text.now) }
{
    number_end(text.as_bytes(), 0) == Ok(text.len())
}

fn check_whole(rt: &impl Abort, text: &str, unsigned: Option<u64>, signed: Option<i64>) {
    assert!(rt; is_number(text), "{text}");
    same_at(rt, whole_u64(text), unsigned, text);
    same_at(rt, whole_i64(text), signed, text);
}

#[test]
fn reads_whole_numbers(rt: HostRuntime) {
    check_whole(&rt, "0", Some(0), Some(0));
    check_whole(&rt, "300", Some(300), Some(300));
    check_whole(&rt, "-0", None, Some(0));
    check_whole(&rt, "-300", None, Some(-300));
    check_whole(&rt, "1.5", None, None);
    check_whole(&rt, "1.0", None, None);
    check_whole(&rt, "1e3", None, None);
}

#[test]
fn knows_the_ends_of_whole_numbers(rt: HostRuntime) {
    let above = 9_223_372_036_854_775_808;
    check_whole(&rt, "9223372036854775807", Some(above - 1), Some(i64::MAX));
    check_whole(&rt, "9223372036854775808", Some(above), None);
    check_whole(&rt, "18446744073709551615", Some(u64::MAX), None);
    check_whole(&rt, "18446744073709551616", None, None);
    check_whole(&rt, "-9223372036854775808", None, Some(i64::MIN));
    check_whole(&rt, "-9223372036854775809", None, None);
}
