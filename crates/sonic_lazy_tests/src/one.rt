// What no clause says: that look-ups of one path answer worked examples, over each kind of input, with
// a look at what they pass or without, and where memory is ample. The expected values are by the
// grammar.
ghost use Rattle.std.specs.Prelude.{◌≡◌, true};
ghost use Rattle.sonic_text.specs.Documents.{StartsWithUtf8Value};

use crate::same::{same, same_at};
use bytes::Bytes;
use sonic_error::{Error, ErrorCode, JsonType, Note, Wanted};
use sonic_input::{FastStr, JsonInput};
use sonic_lazy::{
    LazyValue, get, get_from_bytes, get_from_bytes_unchecked, get_from_faststr,
    get_from_faststr_unchecked, get_from_slice, get_from_slice_unchecked, get_from_str,
    get_from_str_unchecked, get_unchecked,
};
use sonic_pointer::PointerNode;
use sonic_pointer::PointerNode::{Index, Key};
use std::alloc::{AllocError, Global};
use std::process::Abort;
use std::test::Fail;

type Path = &'static [PointerNode<'static>];

// The text of a value, or the code and the offset of an error.
type Answer<'a> = Result<&'a str, (ErrorCode, usize)>;

// Checks an answer.
fn compare(rt: &impl Abort, answer: Result<LazyValue<'_>, Error>, wanted: Answer<'_>) {
    match (answer, wanted) {
        (Ok(value), Ok(text)) => same(rt, value.as_raw_str(), text),
        (Err(error), Err((code, offset))) => {
            same(rt, error.code(), code);
            same_at(rt, error.offset(), offset, code);
        }
        (Ok(_), Err((code, offset))) => panic!(rt; "no error where {code} is at {offset}"),
        (Err(error), Ok(_)) => panic!(rt; "{error}"),
    }
}

// Whether a text is known to begin with a value in UTF-8: the empty path finds it.
pub(crate) fn starts(alloc: Global, text: &[u8]) -> bool
    ensures { result ≡ true → StartsWithUtf8Value text.now }
{
    get_from_slice(alloc, text, &[]).is_ok()
}

// Checks what a path is answered with over an input, with and without a look at what is passed.
fn check<'de, I: JsonInput<'de>>(
    rt: &impl Abort,
    alloc: Global,
    input: I,
    path: &[PointerNode<'_>],
    wanted: Answer<'_>,
) {
    compare(rt, get(alloc, input, path), wanted);
    if starts(alloc, input.to_u8_slice()) {
        compare(rt, get_unchecked(input, path), wanted);
    }
}

// Checks the same by the forms for one kind of input each.
fn check_forms(
    rt: &impl Abort,
    alloc: Global,
    text: &FastStr,
    path: &[PointerNode<'_>],
    wanted: Answer<'_>,
) {
    compare(rt, get_from_str(alloc, text.as_str(), path), wanted);
    compare(
        rt,
        get_from_slice(alloc, text.as_str().as_bytes(), path),
        wanted,
    );
    compare(rt, get_from_bytes(alloc, text.bytes(), path), wanted);
    compare(rt, get_from_faststr(alloc, text, path), wanted);
    if starts(alloc, text.as_str().as_bytes()) {
        compare(rt, get_from_str_unchecked(text.as_str(), path), wanted);
        compare(
            rt,
            get_from_slice_unchecked(text.as_str().as_bytes(), path),
            wanted,
        );
        compare(rt, get_from_bytes_unchecked(text.bytes(), path), wanted);
        compare(rt, get_from_faststr_unchecked(text, path), wanted);
    }
}

// A number is where an object is wanted.
const NUMBER_FOR_OBJECT: ErrorCode = ErrorCode::Message(Note::Mismatch {
    found: JsonType::Number,
    wanted: Wanted::Object,
});

// An array is where an object is wanted.
const ARRAY_FOR_OBJECT: ErrorCode = ErrorCode::Message(Note::Mismatch {
    found: JsonType::Array,
    wanted: Wanted::Object,
});

// A string is where an object is wanted.
const STRING_FOR_OBJECT: ErrorCode = ErrorCode::Message(Note::Mismatch {
    found: JsonType::String,
    wanted: Wanted::Object,
});

const TEXTS: [(Path, &str, Answer<'static>); 27] = [
    (&[], " [1, {}] x", Ok("[1, {}]")),
    (&[Key("a"), Index(1)], "{\"a\":[2,3]", Ok("3")),
    (
        &[Index(2), Key("b")],
        "[0,[],{\"a\":0,\"b\" : \"c\" ,",
        Ok("\"c\""),
    ),
    // The first of equal keys counts, and keys are compared as the text that they denote.
    (&[Key("a")], "{\"a\":1,\"a\":2}", Ok("1")),
    (
        &[Key("a"), Key("x")],
        "{\"a\":{\"y\":1},\"a\":{\"x\":2}}",
        Err((ErrorCode::GetUnknownKeyInObject, 11)),
    ),
    (&[Key("\u{e9}")], "{\"\\u00e9\":1}", Ok("1")),
    // A key is lacked, or an index is past the end.
    (
        &[Key("b")],
        "{\"a\":1} x",
        Err((ErrorCode::GetUnknownKeyInObject, 6)),
    ),
    (
        &[Index(2)],
        "[1,2 ]",
        Err((ErrorCode::GetIndexOutOfArray, 5)),
    ),
    (&[Index(0)], "[ ]", Err((ErrorCode::GetInEmptyArray, 2))),
    (&[Key("a")], "{}", Err((ErrorCode::GetInEmptyObject, 1))),
    (
        &[Key("a"), Key("b")],
        "{\"a\":12}",
        Err((NUMBER_FOR_OBJECT, 6)),
    ),
    (
        &[Key("a"), Index(2)],
        "{\"a\": [0, 1, \"two\"]}",
        Ok("\"two\""),
    ),
    (
        &[Key("b")],
        "{\"a\": 1}",
        Err((ErrorCode::GetUnknownKeyInObject, 7)),
    ),
    (&[Key("b")], "[1, 2, 3]", Err((ARRAY_FOR_OBJECT, 8))),
    (&[Index(0)], "[]", Err((ErrorCode::GetInEmptyArray, 1))),
    (&[Index(3)], "[1]", Err((ErrorCode::GetIndexOutOfArray, 2))),
    // What follows where the path leads nowhere isn't read.
    (
        &[Key("a"), Key("b")],
        "{\"a\": \"\"invalid\", \"b\":null}",
        Err((STRING_FOR_OBJECT, 7)),
    ),
    // A byte order mark begins no value, and a single surrogate is no char, skipped or found.
    (&[], "\u{feff}1", Err((ErrorCode::InvalidJsonValue, 0))),
    (
        &[Index(1)],
        "[\"\\ud800\",1]",
        Err((ErrorCode::InvalidSurrogateUnicodeCodePoint, 8)),
    ),
    (
        &[Index(0)],
        "[\"\\ud800\"]",
        Err((ErrorCode::InvalidSurrogateUnicodeCodePoint, 8)),
    ),
    // The text has a fault before the value or inside it.
    (&[], "", Err((ErrorCode::EofWhileParsing, 0))),
    (
        &[Key("b")],
        "{\"a\":1",
        Err((ErrorCode::EofWhileParsing, 5)),
    ),
    (
        &[Key("b")],
        "{\"a\":tru,\"b\":1}",
        Err((ErrorCode::InvalidLiteral, 8)),
    ),
    (
        &[Key("b")],
        "{\"a\":1 \"b\":2}",
        Err((ErrorCode::ExpectedObjectCommaOrEnd, 7)),
    ),
    (
        &[Key("b")],
        "{\"a\":1,2:3}",
        Err((ErrorCode::ExpectObjectKeyOrEnd, 7)),
    ),
    (
        &[Index(1)],
        "[1,[2,]",
        Err((ErrorCode::InvalidJsonValue, 6)),
    ),
    (
        &[Index(1), Index(1)],
        "[1,[2,]]",
        Err((ErrorCode::InvalidJsonValue, 6)),
    ),
];

#[test]
fn answers_a_path_over_each_kind_of_input(rt: HostRuntime) -> Result<(), Fail> {
    let alloc = rt.alloc();
    for &(path, text, wanted) in &TEXTS {
        let owned = String::from_str(alloc, text)?;
        let shared = FastStr::new(alloc, text)?;
        check(&rt, alloc, text, path, wanted);
        check(&rt, alloc, text.as_bytes(), path, wanted);
        check(&rt, alloc, &owned, path, wanted);
        check(&rt, alloc, &shared, path, wanted);
        check(&rt, alloc, shared.bytes(), path, wanted);
        check_forms(&rt, alloc, &shared, path, wanted);
    }
    Ok(())
}

// Texts that end too early, the key of a path into them, and how the error is shown.
const SHOWN: [(&str, &str, &str); 2] = [
    (
        "{\"a\": [",
        "a",
        "EOF while parsing at line 1 column 7\n\n\t{\"a\": [\n\t......^\n",
    ),
    (
        "{\"c\": \"哈哈哈哈哈哈}",
        "c",
        "EOF while parsing at line 1 column 26\n\n\t哈哈哈}\n\t.........^\n",
    ),
];

#[test]
fn shows_where_a_text_ends_too_early(rt: HostRuntime) -> Result<(), Fail> {
    let alloc = rt.alloc();
    for &(text, key, shown) in &SHOWN {
        let Err(error) = get_from_str(alloc, text, &[Key(key)]) else {
            panic!(&rt; "no error where this is: {shown}");
        };
        same_at(&rt, error.line(), 1, text);
        same_at(&rt, error.column(), text.len(), text);
        same_at(&rt, error.offset() + 1, text.len(), text);
        same(&rt, error.to_string(alloc)?.as_str(), shown);
    }
    Ok(())
}

#[test]
fn finds_in_a_lazy_value_what_it_finds_in_its_text(rt: HostRuntime) -> Result<(), Fail> {
    let alloc = rt.alloc();
    for &(path, text, wanted) in &TEXTS {
        let Ok(root) = get(alloc, text, &[]) else {
            continue;
        };
        let found = root.pointer(path);
        match (&found, wanted) {
            (Some(value), Ok(text)) => same(&rt, value.as_raw_str(), text),
            (None, Err(_)) => {}
            _ => panic!(&rt; "{text}"),
        }
        if let [node] = path {
            same_at(&rt, root.get(*node), found, text);
        }
    }
    Ok(())
}

// How many arrays are open round the value that is looked for.
const DEPTH: usize = 1000;

#[test]
fn finds_what_is_deep(rt: HostRuntime) -> Result<(), Fail> {
    let alloc = rt.alloc();
    let mut text = String::new(alloc);
    for _ in 0..DEPTH {
        text.push('[')?;
    }
    text.push('7')?;
    for _ in 0..DEPTH {
        text.push(']')?;
    }
    let path = vec![in alloc; Index(0); DEPTH]?;
    check(&rt, alloc, text.as_str(), &path, Ok("7"));
    match get(alloc, text.as_str(), &[]) {
        Ok(root) => same(&rt, root.pointer(&path).is_some(), true),
        Err(error) => panic!(&rt; "{error}"),
    }
    Ok(())
}

// Bytes that aren't UTF-8: before the value's end, or after all that the answer needs.
const BROKEN: [(Path, &[u8], Answer<'static>); 4] = [
    (
        &[Index(1)],
        b"[\"\xFF\",1]",
        Err((ErrorCode::InvalidUTF8, 2)),
    ),
    (
        &[Index(0)],
        b"[\"a\xC3\"]",
        Err((ErrorCode::InvalidUTF8, 3)),
    ),
    (&[Index(0)], b"[1,\"\xFF\"]\xFF", Ok("1")),
    (
        &[Key("z")],
        b"{\"\xFF\":0}",
        Err((ErrorCode::GetUnknownKeyInObject, 6)),
    ),
];

#[test]
fn looks_at_utf8_up_to_the_end_of_the_value(rt: HostRuntime) -> Result<(), Fail> {
    let alloc = rt.alloc();
    for &(path, bytes, wanted) in &BROKEN {
        let shared = Bytes::copy_from_slice(alloc, bytes)?;
        check(&rt, alloc, bytes, path, wanted);
        check(&rt, alloc, &shared, path, wanted);
    }
    Ok(())
}

// How many strings a long array has, and how many characters of two bytes each of them.
const STRINGS: usize = 300;

const CHARACTERS: usize = 500;

// A long array of strings, the one of this number with a byte in front that is no UTF-8, and where that is.
fn long_array(alloc: Global, broken: usize) -> Result<(Vec<u8>, usize), AllocError> {
    let mut bytes = Vec::new(alloc);
    let mut place = 0;
    bytes.push(b'[')?;
    for number in 0..STRINGS {
        if number > 0 {
            bytes.push(b',')?;
        }
        bytes.push(b'"')?;
        if number == broken {
            place = bytes.len();
            bytes.push(0xFF)?;
        }
        for _ in 0..CHARACTERS {
            bytes.extend_from_slice(b"\xC3\xA9")?;
        }
        bytes.push(b'"')?;
    }
    bytes.push(b']')?;
    Ok((bytes, place))
}

#[test]
fn looks_at_the_utf8_of_a_long_text_up_to_the_end_of_the_value(
    rt: HostRuntime,
) -> Result<(), Fail> {
    let alloc = rt.alloc();
    for broken in [0, 64, 65, 66, 130, 298, 299, 300] {
        let (bytes, place) = long_array(alloc, broken)?;
        for number in [0, 64, 65, 66, 131, 299] {
            match get(alloc, &bytes[..], &[Index(number)]) {
                Ok(value) => {
                    same_at(&rt, number < broken, true, place);
                    same_at(&rt, value.as_raw_str().len(), 1002, place);
                }
                Err(error) => {
                    same_at(&rt, number < broken, false, place);
                    same_at(&rt, error.code(), ErrorCode::InvalidUTF8, place);
                    same_at(&rt, error.offset(), place, number);
                }
            }
        }
    }
    Ok(())
}
