// What no clause says: that iterators answer worked examples, over each kind of input, with a look at
// what they pass or without, and where memory is ample. The expected values are by RFC 8259.
use self::Key::{Borrowed, Owned};
use crate::one::starts;
use crate::same::{same, same_at};
use bytes::Bytes;
use sonic_error::{Error, ErrorCode};
use sonic_input::{FastStr, JsonInput};
use sonic_lazy::{
    ArrayJsonIter, LazyValue, ObjectJsonIter, get, to_array_iter, to_array_iter_unchecked,
    to_object_iter, to_object_iter_unchecked,
};
use std::alloc::Global;
use std::borrow::CowStr;
use std::process::Abort;
use std::test::Fail;

// The code and the offset of an error.
type Reason = (ErrorCode, usize);

// What a key denotes, as a part of the input or as text of its own.
#[derive(Clone, Copy)]
enum Key<'a> {
    Borrowed(&'a str),
    Owned(&'a str),
}

// A key, and the text of its value.
type Member<'a> = (Key<'a>, &'a str);

// Checks the code and the offset of an error.
fn check_error(rt: &impl Abort, error: &Error, wanted: Reason) {
    let (code, offset) = wanted;
    same(rt, error.code(), code);
    same_at(rt, error.offset(), offset, code);
}

// Checks the elements that come, the error after them, if there is one, and that then nothing comes.
fn check_elements(
    rt: &impl Abort,
    mut elements: ArrayJsonIter<'_>,
    wanted: &[&str],
    end: Option<Reason>,
) {
    for text in wanted {
        match elements.next() {
            Some(Ok(value)) => same(rt, value.as_raw_str(), *text),
            Some(Err(error)) => panic!(rt; "{error}"),
            None => panic!(rt; "nothing where {text} is"),
        }
    }
    if let Some(reason) = end {
        match elements.next() {
            Some(Err(error)) => check_error(rt, &error, reason),
            Some(Ok(value)) => panic!(rt; "{value}"),
            None => panic!(rt; "no error"),
        }
    }
    assert!(rt; elements.next().is_none());
    assert!(rt; elements.next().is_none());
}

// Checks the elements of an input, with and without a look at what is passed.
fn check_array<'de, I: JsonInput<'de>>(
    rt: &impl Abort,
    alloc: Global,
    input: I,
    wanted: &[&str],
    end: Option<Reason>,
) {
    check_elements(rt, to_array_iter(alloc, input), wanted, end);
    if starts(alloc, input.to_u8_slice()) {
        check_elements(rt, to_array_iter_unchecked(input), wanted, end);
    } else {
        assert!(rt; end.is_some());
    }
}

// Checks the elements of the lazy value that a text begins with: it has some only as an array.
fn check_lazy_array(
    rt: &impl Abort,
    alloc: Global,
    text: &str,
    wanted: &[&str],
    end: Option<Reason>,
) {
    match (get(alloc, text, &[]), end) {
        (Ok(root), None) => match root.into_array_iter() {
            Some(elements) => check_elements(rt, elements, wanted, None),
            None => panic!(rt; "no array: {text}"),
        },
        (Ok(root), Some(_)) => assert!(rt; root.into_array_iter().is_none(), "{text}"),
        (Err(error), None) => panic!(rt; "{error}"),
        (Err(_), Some(_)) => {}
    }
}

// Checks a member.
fn check_member(rt: &impl Abort, member: (CowStr<'_>, LazyValue<'_>), wanted: Member<'_>) {
    let ((found, value), (key, text)) = (member, wanted);
    match (found, key) {
        (CowStr::Borrowed(found), Borrowed(key)) => same(rt, found, key),
        (CowStr::Owned(found), Owned(key)) => same(rt, found.as_str(), key),
        (CowStr::Borrowed(found), Owned(_)) => panic!(rt; "{found} is borrowed"),
        (CowStr::Owned(found), Borrowed(_)) => panic!(rt; "{found} is owned"),
    }
    same(rt, value.as_raw_str(), text);
}

// Checks the members that come, the error after them, if there is one, and that then nothing comes.
fn check_members(
    rt: &impl Abort,
    mut members: ObjectJsonIter<'_>,
    wanted: &[Member<'_>],
    end: Option<Reason>,
) {
    for pair in wanted {
        match members.next() {
            Some(Ok(member)) => check_member(rt, member, *pair),
            Some(Err(error)) => panic!(rt; "{error}"),
            None => panic!(rt; "nothing where {} is", pair.1),
        }
    }
    if let Some(reason) = end {
        match members.next() {
            Some(Err(error)) => check_error(rt, &error, reason),
            Some(Ok((key, value))) => panic!(rt; "{key}: {value}"),
            None => panic!(rt; "no error"),
        }
    }
    assert!(rt; members.next().is_none());
    assert!(rt; members.next().is_none());
}

// Checks the members of an input, with and without a look at what is passed.
fn check_object<'de, I: JsonInput<'de>>(
    rt: &impl Abort,
    alloc: Global,
    input: I,
    wanted: &[Member<'_>],
    end: Option<Reason>,
) {
    check_members(rt, to_object_iter(alloc, input), wanted, end);
    if starts(alloc, input.to_u8_slice()) {
        check_members(rt, to_object_iter_unchecked(alloc, input), wanted, end);
    } else {
        assert!(rt; end.is_some());
    }
}

// Checks the members of the lazy value that a text begins with: it has some only as an object.
fn check_lazy_object(
    rt: &impl Abort,
    alloc: Global,
    text: &str,
    wanted: &[Member<'_>],
    end: Option<Reason>,
) {
    match (get(alloc, text, &[]), end) {
        (Ok(root), None) => match root.into_object_iter(alloc) {
            Some(members) => check_members(rt, members, wanted, None),
            None => panic!(rt; "no object: {text}"),
        },
        (Ok(root), Some(_)) => assert!(rt; root.into_object_iter(alloc).is_none(), "{text}"),
        (Err(error), None) => panic!(rt; "{error}"),
        (Err(_), Some(_)) => {}
    }
}

// A text, the elements of the array that it begins with, and the error after them, if there is one.
// The end of an input is reported at its last byte.
const ARRAYS: [(&str, &[&str], Option<Reason>); 62] = [
    ("[]", &[], None),
    (" \t\r\n[ \t\r\n] ", &[], None),
    ("[1 , 2]", &["1", "2"], None),
    (
        "[null,true,false,-0.5e3]",
        &["null", "true", "false", "-0.5e3"],
        None,
    ),
    (
        "[\"\",\"\\\"]\",\"\\\\\",\"\u{e9}\u{1F600}\"]",
        &["\"\"", "\"\\\"]\"", "\"\\\\\"", "\"\u{e9}\u{1F600}\""],
        None,
    ),
    (
        "[[1, 2],[],[[]],{\"a\":[3]},{}]",
        &["[1, 2]", "[]", "[[]]", "{\"a\":[3]}", "{}"],
        None,
    ),
    ("\n[\t{ } , [ ] , \" \" ]\n", &["{ }", "[ ]", "\" \""], None),
    (
        "[\"0123456789,[]{}:0123456789,[]{}:0123456789,[]{}:0123456789,[]{}:\\\"\",\"\",7]",
        &[
            "\"0123456789,[]{}:0123456789,[]{}:0123456789,[]{}:0123456789,[]{}:\\\"\"",
            "\"\"",
            "7",
        ],
        None,
    ),
    // What follows the array isn't read.
    ("[1] x", &["1"], None),
    ("[[2]]]", &["[2]"], None),
    ("[\"a\"],\"", &["\"a\""], None),
    ("[]\u{0}", &[], None),
    // No array begins.
    ("", &[], Some((ErrorCode::ExpectedArrayStart, 0))),
    (" \n", &[], Some((ErrorCode::ExpectedArrayStart, 1))),
    ("x[1]", &[], Some((ErrorCode::ExpectedArrayStart, 0))),
    (" ]", &[], Some((ErrorCode::ExpectedArrayStart, 1))),
    ("\u{FEFF}[1]", &[], Some((ErrorCode::ExpectedArrayStart, 0))),
    (
        " {\"a\":[1]}",
        &[],
        Some((ErrorCode::ExpectedArrayStart, 1)),
    ),
    ("{}", &[], Some((ErrorCode::ExpectedArrayStart, 0))),
    ("\"[1]\"", &[], Some((ErrorCode::ExpectedArrayStart, 0))),
    ("\n-1.5", &[], Some((ErrorCode::ExpectedArrayStart, 1))),
    ("null", &[], Some((ErrorCode::ExpectedArrayStart, 0))),
    ("true", &[], Some((ErrorCode::ExpectedArrayStart, 0))),
    // After the bracket neither a value nor its fellow is.
    ("[", &[], Some((ErrorCode::ExpectedArrayCommaOrEnd, 0))),
    ("[ \n", &[], Some((ErrorCode::ExpectedArrayCommaOrEnd, 2))),
    ("[x", &[], Some((ErrorCode::InvalidJsonValue, 1))),
    ("[xxxxxx", &[], Some((ErrorCode::InvalidJsonValue, 1))),
    ("[,", &[], Some((ErrorCode::InvalidJsonValue, 1))),
    ("[ ,1]", &[], Some((ErrorCode::InvalidJsonValue, 2))),
    ("[}", &[], Some((ErrorCode::InvalidJsonValue, 1))),
    // After an element neither a comma nor the bracket is.
    (
        "[1, 2, 3, 4, 5, 6",
        &["1", "2", "3", "4", "5", "6"],
        Some((ErrorCode::ExpectedArrayCommaOrEnd, 16)),
    ),
    ("[1", &["1"], Some((ErrorCode::ExpectedArrayCommaOrEnd, 1))),
    (
        "[[] ",
        &["[]"],
        Some((ErrorCode::ExpectedArrayCommaOrEnd, 3)),
    ),
    (
        "[1 2]",
        &["1"],
        Some((ErrorCode::ExpectedArrayCommaOrEnd, 3)),
    ),
    ("[1}", &["1"], Some((ErrorCode::ExpectedArrayCommaOrEnd, 2))),
    (
        "[1,\"a\":2]",
        &["1", "\"a\""],
        Some((ErrorCode::ExpectedArrayCommaOrEnd, 6)),
    ),
    // After a comma no value is.
    ("[1,", &["1"], Some((ErrorCode::EofWhileParsing, 2))),
    ("[1, ", &["1"], Some((ErrorCode::EofWhileParsing, 3))),
    ("[1,]", &["1"], Some((ErrorCode::InvalidJsonValue, 3))),
    ("[1,,2]", &["1"], Some((ErrorCode::InvalidJsonValue, 3))),
    (
        "[1,2, x]",
        &["1", "2"],
        Some((ErrorCode::InvalidJsonValue, 6)),
    ),
    // A value has a fault.
    ("[tru]", &[], Some((ErrorCode::InvalidLiteral, 4))),
    ("[tru", &[], Some((ErrorCode::EofWhileParsing, 3))),
    ("[01]", &[], Some((ErrorCode::InvalidNumber, 2))),
    ("[0,1.]", &["0"], Some((ErrorCode::InvalidNumber, 5))),
    ("[-", &[], Some((ErrorCode::EofWhileParsing, 1))),
    ("[\"a", &[], Some((ErrorCode::EofWhileParsing, 2))),
    ("[\"a\\x\"]", &[], Some((ErrorCode::InvalidEscape, 4))),
    (
        "[\"\\u00g0\"]",
        &[],
        Some((ErrorCode::InvalidUnicodeCodePoint, 6)),
    ),
    (
        "[\"a\nb\"]",
        &[],
        Some((ErrorCode::ControlCharacterWhileParsingString, 3)),
    ),
    (
        "[\"\\ude00\"]",
        &[],
        Some((ErrorCode::InvalidSurrogateUnicodeCodePoint, 5)),
    ),
    (
        "[0,\"\\ud800\"]",
        &["0"],
        Some((ErrorCode::InvalidSurrogateUnicodeCodePoint, 10)),
    ),
    // What lies deeper has the codes of each text.
    ("[[", &[], Some((ErrorCode::EofWhileParsing, 1))),
    ("[[1", &[], Some((ErrorCode::EofWhileParsing, 2))),
    ("[1,[2,]]", &["1"], Some((ErrorCode::InvalidJsonValue, 6))),
    (
        "[[1 2]]",
        &[],
        Some((ErrorCode::ExpectedArrayCommaOrEnd, 4)),
    ),
    ("[{", &[], Some((ErrorCode::EofWhileParsing, 1))),
    ("[{x}]", &[], Some((ErrorCode::ExpectObjectKeyOrEnd, 2))),
    ("[{\"a\" 1}]", &[], Some((ErrorCode::ExpectedColon, 6))),
    (
        "[{\"a\":1 2}]",
        &[],
        Some((ErrorCode::ExpectedObjectCommaOrEnd, 8)),
    ),
    (
        "[{\"a\":1,}]",
        &[],
        Some((ErrorCode::ExpectObjectKeyOrEnd, 8)),
    ),
    ("[0,{\"a\":1", &["0"], Some((ErrorCode::EofWhileParsing, 8))),
];

#[test]
fn gives_elements_over_each_kind_of_input(rt: HostRuntime) -> Result<(), Fail> {
    let alloc = rt.alloc();
    for &(text, wanted, end) in &ARRAYS {
        let owned = String::from_str(alloc, text)?;
        let shared = FastStr::new(alloc, text)?;
        check_array(&rt, alloc, text, wanted, end);
        check_array(&rt, alloc, text.as_bytes(), wanted, end);
        check_array(&rt, alloc, &owned, wanted, end);
        check_array(&rt, alloc, &shared, wanted, end);
        check_array(&rt, alloc, shared.bytes(), wanted, end);
        check_lazy_array(&rt, alloc, text, wanted, end);
    }
    Ok(())
}

// A text, the members of the object that it begins with, and the error after them, if there is one.
const OBJECTS: [(&str, &[Member<'static>], Option<Reason>); 60] = [
    ("{}", &[], None),
    (" \t\r\n{ \t\r\n} ", &[], None),
    (
        "{\"a\": null, \"b\":[1, 2, 3]}",
        &[(Borrowed("a"), "null"), (Borrowed("b"), "[1, 2, 3]")],
        None,
    ),
    (
        "\n{\t\"a\" : {\"b\":[{}]} ,\r\"c\": true }",
        &[(Borrowed("a"), "{\"b\":[{}]}"), (Borrowed("c"), "true")],
        None,
    ),
    (
        "{\"]\":\"[\",\"}\":\"{\",\":\":\",\"}",
        &[
            (Borrowed("]"), "\"[\""),
            (Borrowed("}"), "\"{\""),
            (Borrowed(":"), "\",\""),
        ],
        None,
    ),
    // A key may be empty, and may come again.
    ("{\"\":0}", &[(Borrowed(""), "0")], None),
    (
        "{\"a\":1,\"a\":2,\"\\u0061\":1}",
        &[
            (Borrowed("a"), "1"),
            (Borrowed("a"), "2"),
            (Owned("a"), "1"),
        ],
        None,
    ),
    // A key without a backslash is a part of the input.
    (
        "{\"a\\u0062\":1,\"ab\":\"\\n\"}",
        &[(Owned("ab"), "1"), (Borrowed("ab"), "\"\\n\"")],
        None,
    ),
    (
        "{\"\\\"\":\"\\\"}\",\"\\\\\":-1}",
        &[(Owned("\""), "\"\\\"}\""), (Owned("\\"), "-1")],
        None,
    ),
    (
        "{\"\\ud83d\\ude00\":{},\"\u{e9}\u{1F600}\":[]}",
        &[
            (Owned("\u{1F600}"), "{}"),
            (Borrowed("\u{e9}\u{1F600}"), "[]"),
        ],
        None,
    ),
    (
        "{\"\\/\\b\\f\\n\\r\\t\\u00E9\":0}",
        &[(Owned("/\u{8}\u{c}\n\r\t\u{e9}"), "0")],
        None,
    ),
    (
        "{\"0123456789,[]{}:0123456789,[]{}:0123456789,[]{}:0123456789,[]{}:\":1,\"0123456789,[]{}:0123456789,[]{}:0123456789,[]{}:0123456789,[]{}:\\\"\":2}",
        &[
            (
                Borrowed("0123456789,[]{}:0123456789,[]{}:0123456789,[]{}:0123456789,[]{}:"),
                "1",
            ),
            (
                Owned("0123456789,[]{}:0123456789,[]{}:0123456789,[]{}:0123456789,[]{}:\""),
                "2",
            ),
        ],
        None,
    ),
    // What follows the object isn't read.
    ("{\"a\":1} x", &[(Borrowed("a"), "1")], None),
    ("{\"a\":{}}}", &[(Borrowed("a"), "{}")], None),
    ("{\"a\":1},\"", &[(Borrowed("a"), "1")], None),
    ("{}\u{0}", &[], None),
    // No object begins.
    ("", &[], Some((ErrorCode::ExpectedObjectStart, 0))),
    ("\t ", &[], Some((ErrorCode::ExpectedObjectStart, 1))),
    ("x{}", &[], Some((ErrorCode::ExpectedObjectStart, 0))),
    (" }", &[], Some((ErrorCode::ExpectedObjectStart, 1))),
    ("\u{FEFF}{}", &[], Some((ErrorCode::ExpectedObjectStart, 0))),
    (
        " [{\"a\":1}]",
        &[],
        Some((ErrorCode::ExpectedObjectStart, 1)),
    ),
    ("[]", &[], Some((ErrorCode::ExpectedObjectStart, 0))),
    ("\"{}\"", &[], Some((ErrorCode::ExpectedObjectStart, 0))),
    ("\n12", &[], Some((ErrorCode::ExpectedObjectStart, 1))),
    ("false", &[], Some((ErrorCode::ExpectedObjectStart, 0))),
    // After the brace neither a key nor its fellow is.
    ("{", &[], Some((ErrorCode::ExpectedObjectCommaOrEnd, 0))),
    ("{ \n", &[], Some((ErrorCode::ExpectedObjectCommaOrEnd, 2))),
    (
        "{xxxxxx",
        &[],
        Some((ErrorCode::ExpectedObjectCommaOrEnd, 1)),
    ),
    (
        "{ ,\"a\":1}",
        &[],
        Some((ErrorCode::ExpectedObjectCommaOrEnd, 2)),
    ),
    ("{1:2}", &[], Some((ErrorCode::ExpectedObjectCommaOrEnd, 1))),
    ("{]", &[], Some((ErrorCode::ExpectedObjectCommaOrEnd, 1))),
    // After a member neither a comma nor the brace is.
    (
        "{\"a\":1",
        &[(Borrowed("a"), "1")],
        Some((ErrorCode::ExpectedObjectCommaOrEnd, 5)),
    ),
    (
        "{\"a\":[] ",
        &[(Borrowed("a"), "[]")],
        Some((ErrorCode::ExpectedObjectCommaOrEnd, 7)),
    ),
    (
        "{\"a\":1 \"b\":2}",
        &[(Borrowed("a"), "1")],
        Some((ErrorCode::ExpectedObjectCommaOrEnd, 7)),
    ),
    (
        "{\"a\":1]",
        &[(Borrowed("a"), "1")],
        Some((ErrorCode::ExpectedObjectCommaOrEnd, 6)),
    ),
    // After a comma no key is.
    (
        "{\"a\":1,",
        &[(Borrowed("a"), "1")],
        Some((ErrorCode::ExpectObjectKeyOrEnd, 6)),
    ),
    (
        "{\"a\":1, ",
        &[(Borrowed("a"), "1")],
        Some((ErrorCode::ExpectObjectKeyOrEnd, 7)),
    ),
    (
        "{\"a\":1,}",
        &[(Borrowed("a"), "1")],
        Some((ErrorCode::ExpectObjectKeyOrEnd, 7)),
    ),
    (
        "{\"\\u0061\":1, 2:3}",
        &[(Owned("a"), "1")],
        Some((ErrorCode::ExpectObjectKeyOrEnd, 13)),
    ),
    // A key has a fault, or no colon follows it.
    ("{\"a", &[], Some((ErrorCode::EofWhileParsing, 2))),
    ("{\"a\\x\":1}", &[], Some((ErrorCode::InvalidEscape, 4))),
    (
        "{\"\\u00g0\":1}",
        &[],
        Some((ErrorCode::InvalidUnicodeCodePoint, 6)),
    ),
    (
        "{\"a\n\":1}",
        &[],
        Some((ErrorCode::ControlCharacterWhileParsingString, 3)),
    ),
    (
        "{\"\\ude00\":1}",
        &[],
        Some((ErrorCode::InvalidSurrogateUnicodeCodePoint, 5)),
    ),
    (
        "{\"a\":1,\"\\ud800\":2}",
        &[(Borrowed("a"), "1")],
        Some((ErrorCode::InvalidSurrogateUnicodeCodePoint, 14)),
    ),
    ("{\"a\" 1}", &[], Some((ErrorCode::ExpectedColon, 5))),
    ("{\"a\" ", &[], Some((ErrorCode::EofWhileParsing, 4))),
    (
        "{\"a\":1,\"b\"}",
        &[(Borrowed("a"), "1")],
        Some((ErrorCode::ExpectedColon, 10)),
    ),
    (
        "{\"a\":1,\"b\"",
        &[(Borrowed("a"), "1")],
        Some((ErrorCode::EofWhileParsing, 9)),
    ),
    // A value has a fault.
    ("{\"a\":", &[], Some((ErrorCode::EofWhileParsing, 4))),
    ("{\"a\":}", &[], Some((ErrorCode::InvalidJsonValue, 5))),
    ("{\"a\":tru}", &[], Some((ErrorCode::InvalidLiteral, 8))),
    ("{\"a\":-}", &[], Some((ErrorCode::InvalidNumber, 6))),
    (
        "{\"a\": null, \"b\":[1, 2, 3",
        &[(Borrowed("a"), "null")],
        Some((ErrorCode::EofWhileParsing, 23)),
    ),
    ("{\"a\":[1,]}", &[], Some((ErrorCode::InvalidJsonValue, 8))),
    ("{\"a\":{", &[], Some((ErrorCode::EofWhileParsing, 5))),
    (
        "{\"a\":{b}}",
        &[],
        Some((ErrorCode::ExpectObjectKeyOrEnd, 6)),
    ),
    (
        "{\"a\":{\"b\" 1}}",
        &[],
        Some((ErrorCode::ExpectedColon, 10)),
    ),
    (
        "{\"a\":0,\"b\":{\"c\":1,",
        &[(Borrowed("a"), "0")],
        Some((ErrorCode::EofWhileParsing, 17)),
    ),
];

#[test]
fn gives_members_over_each_kind_of_input(rt: HostRuntime) -> Result<(), Fail> {
    let alloc = rt.alloc();
    for &(text, wanted, end) in &OBJECTS {
        let owned = String::from_str(alloc, text)?;
        let shared = FastStr::new(alloc, text)?;
        check_object(&rt, alloc, text, wanted, end);
        check_object(&rt, alloc, text.as_bytes(), wanted, end);
        check_object(&rt, alloc, &owned, wanted, end);
        check_object(&rt, alloc, &shared, wanted, end);
        check_object(&rt, alloc, shared.bytes(), wanted, end);
        check_lazy_object(&rt, alloc, text, wanted, end);
    }
    Ok(())
}

// Bytes that aren't UTF-8, and the offset of the first broken place.
const BROKEN: [(&[u8], usize); 14] = [
    // Before the container, inside it, and after it.
    (b"\xFF[1]", 0),
    (b" \xEF\xBB{}", 1),
    (b"[\"\xFF\"]", 2),
    (b"[1, \xC3]", 4),
    (b"[\"\xED\xA0\x80\"]", 2),
    (b"{\"\xFF\":0}", 2),
    (b"{\"a\":\"\xE2\x82\"}", 6),
    (b"[1,2]\xFF", 5),
    (b"{\"a\":1} \xC0\x80", 8),
    (b"[] \xF0\x9F\x98", 3),
    // Where there is another fault, before that too.
    (b"\x80", 0),
    (b"x\xFF", 1),
    (b"[1,]\x80", 4),
    (b"{\"a\" \xFF", 5),
];

#[test]
fn looks_at_utf8_first(rt: HostRuntime) -> Result<(), Fail> {
    let alloc = rt.alloc();
    for &(bytes, offset) in &BROKEN {
        let shared = Bytes::copy_from_slice(alloc, bytes)?;
        let end = Some((ErrorCode::InvalidUTF8, offset));
        check_elements(&rt, to_array_iter(alloc, bytes), &[], end);
        check_elements(&rt, to_array_iter(alloc, &shared), &[], end);
        check_members(&rt, to_object_iter(alloc, bytes), &[], end);
        check_members(&rt, to_object_iter(alloc, &shared), &[], end);
    }
    Ok(())
}

// Checks the elements of an input without a look at what is passed.
fn check_known_array<'de, I: JsonInput<'de>>(
    rt: &impl Abort,
    alloc: Global,
    input: I,
    wanted: &[&str],
) {
    assert!(rt; starts(alloc, input.to_u8_slice()));
    check_elements(rt, to_array_iter_unchecked(input), wanted, None);
}

// Checks the members of an input without a look at what is passed.
fn check_known_object<'de, I: JsonInput<'de>>(
    rt: &impl Abort,
    alloc: Global,
    input: I,
    wanted: &[Member<'_>],
) {
    assert!(rt; starts(alloc, input.to_u8_slice()));
    check_members(rt, to_object_iter_unchecked(alloc, input), wanted, None);
}

#[test]
fn passes_over_broken_utf8_after_the_container(rt: HostRuntime) -> Result<(), Fail> {
    let alloc = rt.alloc();
    let array: &[u8] = b" [1, \"\xC3\xA9\"]\xFF";
    let elements = ["1", "\"\u{e9}\""];
    check_known_array(&rt, alloc, array, &elements);
    check_known_array(
        &rt,
        alloc,
        &Bytes::copy_from_slice(alloc, array)?,
        &elements,
    );
    let object: &[u8] = b"{\"\xC3\xA9\":1,\"\\n\":[]} \xC0\x80";
    let members = [(Borrowed("\u{e9}"), "1"), (Owned("\n"), "[]")];
    check_known_object(&rt, alloc, object, &members);
    check_known_object(
        &rt,
        alloc,
        &Bytes::copy_from_slice(alloc, object)?,
        &members,
    );
    Ok(())
}

// Bytes, how many elements come, and how the error after them is shown.
const SHOWN: [(&[u8], usize, &str); 2] = [
    (
        b"[1, 2, 3, 4, 5, 6",
        6,
        "Expected this character to be either a ',' or a ']' while parsing at line 1 column 17\n\n\t, 4, 5, 6\n\t........^\n",
    ),
    (
        b"[\"\x00\x00\x00\x80\x90\"]",
        0,
        "Invalid UTF-8 characters in json at line 1 column 6\n\n\t[\"\u{0}\u{0}\u{0}\u{FFFD}\u{FFFD}\"]\n\t.....^...\n",
    ),
];

#[test]
fn shows_where_no_element_is(rt: HostRuntime) -> Result<(), Fail> {
    let alloc = rt.alloc();
    for &(bytes, given, shown) in &SHOWN {
        let mut elements = to_array_iter(alloc, bytes);
        for _ in 0..given {
            assert!(rt; matches!(elements.next(), Some(Ok(_))), "{shown}");
        }
        match elements.next() {
            Some(Err(error)) => same(&rt, error.to_string(alloc)?.as_str(), shown),
            _ => panic!(&rt; "no error where this is: {shown}"),
        }
    }
    Ok(())
}

#[test]
fn passes_any_depth(rt: HostRuntime) -> Result<(), Fail> {
    const DEPTH: usize = 100_000;
    let alloc = rt.alloc();
    let mut deep = "[".repeat(alloc, DEPTH)?;
    deep.push_str(&"]".repeat(alloc, DEPTH)?)?;
    let deep = deep.as_str();
    let array = format!(in alloc; "[0,{deep},1]")?;
    check_array(&rt, alloc, array.as_str(), &["0", deep, "1"], None);
    check_lazy_array(&rt, alloc, array.as_str(), &["0", deep, "1"], None);
    let object = format!(in alloc; "{{\"a\":{deep},\"b\":1}}")?;
    let members = [(Borrowed("a"), deep), (Borrowed("b"), "1")];
    check_object(&rt, alloc, object.as_str(), &members, None);
    check_lazy_object(&rt, alloc, object.as_str(), &members, None);
    Ok(())
}
