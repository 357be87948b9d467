// What is at a place of a text, for a walk that keeps its own stack.
use crate::same::same_at;
use sonic_error::ErrorCode;
use sonic_parser::internal::{
    AfterItem, ValueAt, after_comma, item_at, next_item, opens_nested_array, scalar_end, value_at,
    value_place,
};
use sonic_text::{Kind, Stop};

// A text, and what is at its start.
const VALUES: [(&[u8], ValueAt); 10] = [
    (b"null]", ValueAt::Ends(4)),
    (b"-1.5e+7,", ValueAt::Ends(7)),
    (b"\"a\\\"]\"]", ValueAt::Ends(6)),
    (b"[]", ValueAt::Ends(2)),
    (b"[ \n] ]", ValueAt::Ends(4)),
    (b"{\t}}", ValueAt::Ends(3)),
    (b"[1]", ValueAt::Opens(Kind::Array, 1)),
    (b"[ [", ValueAt::Opens(Kind::Array, 2)),
    (b"{ \"a\":1}", ValueAt::Opens(Kind::Object, 2)),
    (b"[x", ValueAt::Opens(Kind::Array, 1)),
];

#[test]
fn finds_the_value_at_a_place(rt: HostRuntime) {
    for &(text, wanted) in &VALUES {
        same_at(&rt, value_at(text, 0, false), Ok(wanted), text);
    }
}

// A text whose value has a fault, its place and its code.
const FAULTS: [(&[u8], usize, ErrorCode); 5] = [
    (b"", 0, ErrorCode::EofWhileParsing),
    (b"]", 0, ErrorCode::InvalidJsonValue),
    (b"nul ", 3, ErrorCode::InvalidLiteral),
    (b"-x", 1, ErrorCode::InvalidNumber),
    (b"\"a", 2, ErrorCode::EofWhileParsing),
];

#[test]
fn says_why_there_is_no_value(rt: HostRuntime) {
    for &(text, place, code) in &FAULTS {
        let stop = Stop { place, code };
        same_at(&rt, value_at(text, 0, false), Err(stop), text);
        same_at(&rt, scalar_end(text, 0, false), None, text);
    }
}

#[test]
fn finds_a_scalar_and_the_comma_behind_it(rt: HostRuntime) {
    same_at(&rt, scalar_end(b"12,3", 0, false), Some(2), 0);
    same_at(&rt, scalar_end(b"[1]", 0, false), None, 1);
    same_at(&rt, after_comma(b"[1, 2]", 2), Some(4), 2);
    same_at(&rt, after_comma(b"[1 ,2]", 2), None, 3);
    same_at(&rt, after_comma(b"[1", 2), None, 4);
}

#[test]
fn finds_the_value_of_an_item(rt: HostRuntime) {
    let member = b"\"a\" : 1";
    same_at(&rt, item_at(member, 0, Kind::Object, false), Ok(6), 0);
    same_at(&rt, value_place(member, 0, Kind::Object, false), Some(6), 1);
    same_at(&rt, item_at(b"1", 0, Kind::Array, false), Ok(0), 2);
    let (place, code) = (1, ErrorCode::ExpectObjectKeyOrEnd);
    let stop = Stop { place, code };
    same_at(&rt, item_at(b"{1}", 1, Kind::Object, false), Err(stop), 3);
    same_at(&rt, value_place(b"{1}", 1, Kind::Object, false), None, 4);
}

#[test]
fn finds_how_a_container_goes_on(rt: HostRuntime) {
    same_at(
        &rt,
        next_item(b"[1 , 2]", 2, Kind::Array),
        Ok(AfterItem::Item(5)),
        0,
    );
    same_at(
        &rt,
        next_item(b"[1 ]", 2, Kind::Array),
        Ok(AfterItem::End(4)),
        1,
    );
    let (place, code) = (2, ErrorCode::ExpectedArrayCommaOrEnd);
    let stop = Stop { place, code };
    same_at(&rt, next_item(b"[1}", 2, Kind::Array), Err(stop), 2);
}

#[test]
fn sees_arrays_in_arrays(rt: HostRuntime) {
    same_at(&rt, opens_nested_array(b"[[1]]", 0), true, 0);
    same_at(&rt, opens_nested_array(b"[ [1]]", 0), false, 1);
    same_at(&rt, opens_nested_array(b"[[", 1), false, 2);
}
