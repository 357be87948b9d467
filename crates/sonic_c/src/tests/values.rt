// What the calls that read one value tell of worked examples.
use super::{NONE, NOWHERE, Numbers, numbers};
use crate::count::jihluka_count;
use crate::fault::Fault;
use crate::items::{Items, jihluka_items_begin, jihluka_items_next};
use crate::kind::jihluka_type;
use crate::number::{jihluka_i64, jihluka_u64};
use crate::status::{DOCUMENT_ERROR, END, NO_INTEGER, OK, WRONG_TYPE};
use crate::string::jihluka_string_text;
use crate::walk::Item;
use std::alloc::Global;
use std::process::Abort;

// What a call comes to and tells is as it should be.
fn check(rt: &impl Abort, found: (u32, u64), wanted: (u32, u64)) {
    assert_eq!(rt; found, wanted);
}

// And so is an error.
fn check_numbers(rt: &impl Abort, error: &Fault, wanted: Numbers) {
    assert_eq!(rt; numbers(error), wanted);
}

// A text, and what a call for its type comes to: the status, the type and the error.
type Typed = (&'static [u8], u32, u32, Numbers);

const TYPED: [Typed; 10] = [
    (b"null", OK, 0, NONE),
    (b"\n false x", OK, 1, NONE),
    (b"-", OK, 2, NONE),
    (b"\"", OK, 3, NONE),
    (b"{", OK, 4, NONE),
    (b"[1", OK, 5, NONE),
    (b"", DOCUMENT_ERROR, 9, (3, 1, 1, 0)),
    (b" \n", DOCUMENT_ERROR, 9, (3, 1, 2, 1)),
    (b" x", DOCUMENT_ERROR, 9, (8, 1, 2, 1)),
    (b"]", DOCUMENT_ERROR, 9, (8, 1, 1, 0)),
];

#[test]
fn tells_types(rt: HostRuntime) {
    for &(text, status, kind, told) in &TYPED {
        let mut found = 9;
        let mut error = Fault::at_line(0);
        let result = jihluka_type(text, &mut found, &mut error);
        check(&rt, (result, found as u64), (status, kind as u64));
        check_numbers(&rt, &error, told);
    }
}

// A text, what calls for its integer come to, without a sign and with one, and the error of both.
type Whole = (&'static [u8], (u32, u64), (u32, i64), Numbers);

const WHOLES: [Whole; 9] = [
    (b" 12 ", (OK, 12), (OK, 12), NONE),
    (b"-0", (NO_INTEGER, 9), (OK, 0), NONE),
    (
        b"18446744073709551615",
        (OK, 18446744073709551615),
        (NO_INTEGER, 9),
        NONE,
    ),
    (
        b"-9223372036854775808",
        (NO_INTEGER, 9),
        (OK, -9223372036854775808),
        NONE,
    ),
    (b"1e3", (NO_INTEGER, 9), (NO_INTEGER, 9), NONE),
    (b"\"1\"", (WRONG_TYPE, 9), (WRONG_TYPE, 9), NONE),
    (
        b"01",
        (DOCUMENT_ERROR, 9),
        (DOCUMENT_ERROR, 9),
        (12, 1, 2, 1),
    ),
    (
        b"12 3",
        (DOCUMENT_ERROR, 9),
        (DOCUMENT_ERROR, 9),
        (19, 1, 4, 3),
    ),
    (b"", (DOCUMENT_ERROR, 9), (DOCUMENT_ERROR, 9), (3, 1, 1, 0)),
];

#[test]
fn tells_integers(rt: HostRuntime) {
    for &(text, natural, (status, integer), told) in &WHOLES {
        let (mut first, mut second) = (9, 9);
        let mut error = Fault::at_line(0);
        let result = jihluka_u64(text, &mut first, &mut error);
        check(&rt, (result, first), natural);
        check_numbers(&rt, &error, told);
        let result = jihluka_i64(text, &mut second, &mut error);
        check(&rt, (result, (second == integer) as u64), (status, 1));
        check_numbers(&rt, &error, told);
    }
}

// A text, and what a call for the text of a string comes to: the status, the length that is wanted, a
// room of four bytes after it, and the error.
type Unescaped = (&'static [u8], u32, usize, &'static [u8; 4], Numbers);

const UNESCAPED: [Unescaped; 8] = [
    (b"\"\"", OK, 0, b"....", NONE),
    (b" \"ab\" ", OK, 2, b"ab..", NONE),
    (b"\"a\\nb\"", OK, 3, b"a\nb.", NONE),
    (b"\"\\u00e9abc\"", OK, 5, b"\xc3\xa9ab", NONE),
    (b"7", WRONG_TYPE, 9, b"....", NONE),
    (b"\"a", DOCUMENT_ERROR, 9, b"....", (3, 1, 2, 1)),
    (b"\"a\"1", DOCUMENT_ERROR, 9, b"....", (19, 1, 4, 3)),
    (b"\"\xff\"", DOCUMENT_ERROR, 9, b"....", (15, 1, 2, 1)),
];

#[test]
fn tells_texts_of_strings(rt: HostRuntime) {
    for &(text, status, length, told, fault) in &UNESCAPED {
        let mut room = *b"....";
        let mut wanted = 9;
        let mut error = Fault::at_line(0);
        let result = jihluka_string_text(rt.alloc(), text, &mut room, &mut wanted, &mut error);
        check(&rt, (result, wanted as u64), (status, length as u64));
        assert_eq!(&rt; &room, told, "{text:?}");
        check_numbers(&rt, &error, fault);
    }
}

// A text, what a call for its number of items comes to, how a way through its items ends, after how many,
// and the error of both.
type Listed = (&'static [u8], (u32, usize), (u32, usize), Numbers);

const LISTED: [Listed; 10] = [
    (b"[]", (OK, 0), (END, 0), NONE),
    (b" { } ", (OK, 0), (END, 0), NONE),
    (b"[1, [2, {}]]", (OK, 2), (END, 2), NONE),
    (b"{\"a\":1,\"a\" : {}}", (OK, 2), (END, 2), NONE),
    (
        b"[1,]",
        (DOCUMENT_ERROR, 9),
        (DOCUMENT_ERROR, 1),
        (8, 1, 4, 3),
    ),
    (
        b"[1] 2",
        (DOCUMENT_ERROR, 9),
        (DOCUMENT_ERROR, 1),
        (19, 1, 5, 4),
    ),
    (
        b"{\"a\":1",
        (DOCUMENT_ERROR, 9),
        (DOCUMENT_ERROR, 1),
        (3, 1, 6, 5),
    ),
    (
        b"[\"\xff\"]",
        (DOCUMENT_ERROR, 9),
        (DOCUMENT_ERROR, 0),
        (15, 1, 3, 2),
    ),
    (b"1", (WRONG_TYPE, 9), (WRONG_TYPE, 0), NONE),
    (b" ", (DOCUMENT_ERROR, 9), (DOCUMENT_ERROR, 0), (3, 1, 1, 0)),
];

const NO_ITEM: Item = Item {
    key: NOWHERE,
    value: NOWHERE,
};

#[test]
fn counts_items(rt: HostRuntime) {
    for &(text, (counted, count), _, fault) in &LISTED {
        let mut found = 9;
        let mut error = Fault::at_line(0);
        let result = jihluka_count(rt.alloc(), text, &mut found, &mut error);
        check(&rt, (result, found as u64), (counted, count as u64));
        check_numbers(&rt, &error, fault);
    }
}

// Goes through the items of a text: how that ends, and how many were told.
fn go_through(alloc: Global, text: &[u8], items: &mut Items, error: &mut Fault) -> (u32, u64) {
    let mut item = NO_ITEM;
    let mut status = jihluka_items_begin(text, items, error);
    let mut told = 0u64;
    for _ in 0..text.len() {
        if status == OK {
            status = jihluka_items_next(alloc, text, items, &mut item, error);
            told = told.saturating_add((status == OK) as u64);
        }
    }
    (status, told)
}

#[test]
fn goes_through_items(rt: HostRuntime) {
    for &(text, _, (ended, told), fault) in &LISTED {
        let mut items = Items { place: 9, state: 9 };
        let mut error = Fault::at_line(0);
        let found = go_through(rt.alloc(), text, &mut items, &mut error);
        check(&rt, found, (ended, told as u64));
        check_numbers(&rt, &error, fault);
        let mut item = NO_ITEM;
        let again = jihluka_items_next(rt.alloc(), text, &mut items, &mut item, &mut error);
        check(&rt, (again, 0), (END, 0));
    }
}

#[test]
fn tells_items_with_their_keys(rt: HostRuntime) {
    let text = b" {\"a\" : [1], \"b\":2}";
    let mut error = Fault::at_line(0);
    let (mut items, mut item) = (Items { place: 9, state: 9 }, NO_ITEM);
    let status = jihluka_items_begin(text, &mut items, &mut error);
    check(&rt, (status, items.place as u64), (OK, 1));
    for &(start, end, first, last) in &[(2, 5, 8, 11), (13, 16, 17, 18)] {
        let status = jihluka_items_next(rt.alloc(), text, &mut items, &mut item, &mut error);
        check(&rt, (status, item.key.start as u64), (OK, start));
        check(&rt, (status, item.key.end as u64), (OK, end));
        check(&rt, (status, item.value.start as u64), (OK, first));
        check(&rt, (status, item.value.end as u64), (OK, last));
    }
}
