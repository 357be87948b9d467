// Schemas that are filled: worked examples, and the plain program over trees on all pairs of small objects.
use crate::reference::fill;
use crate::same::same;
use sonic_error::{ErrorCode, Note, Result as Answer};
use sonic_input::Read;
use sonic_parser::Parser;
use sonic_value::{Value, get_by_schema, parse_by_schema};
use std::alloc::Global;
use std::process::Abort;
use std::test::Fail;

fn read(rt: &impl Abort, alloc: Global, json: &str) -> Value {
    match Value::from_str(alloc, json) {
        Ok(value) => value,
        Err(error) => panic!(rt; "{json}: {error}"),
    }
}

// Checks what is written of a value that was made.
fn check_made(rt: &impl Abort, alloc: Global, made: Answer<Value>, wanted: &str) {
    match made {
        Ok(value) => match value.to_string(alloc) {
            Ok(text) => same(rt, &text[..], wanted),
            Err(error) => panic!(rt; "{error}"),
        },
        Err(error) => panic!(rt; "{wanted}: {error}"),
    }
}

// Checks that none was made, and why.
fn check_error(rt: &impl Abort, made: Answer<Value>, (code, offset): (ErrorCode, usize)) {
    match made {
        Err(error) => {
            same(rt, error.code(), code);
            same(rt, error.offset(), offset);
        }
        Ok(_) => panic!(rt; "the schema is filled"),
    }
}

// A schema, a text, and what comes of them.
fn filled() -> [(&'static str, &'static str, &'static str); 28] {
    [
        (
            "{\"a\":1, \"b\":[1], \"c\": {\"d\":1}}",
            "{\"o\":2, \"p\":[2], \"c\":{\"k\":1}}",
            "{\"a\":1,\"b\":[1],\"c\":{\"d\":1}}",
        ),
        (
            "{\"a\":1, \"b\":[1], \"c\": {}}",
            "{\"o\":2, \"b\":[2], \"c\":{\"k\":1}}",
            "{\"a\":1,\"b\":[2],\"c\":{\"k\":1}}",
        ),
        ("{\"a\":1}", " {\"a\" : 2 } x", "{\"a\":2}"),
        (
            "{\"a\":1,\"b\":2}",
            "{\"b\":3,\"a\":4}",
            "{\"a\":4,\"b\":3}",
        ),
        // Empty objects.
        ("{}", "{\"a\":1}", "{\"a\":1}"),
        ("{}", "{}", "{}"),
        ("{}", "[1]", "[1]"),
        ("{}", "null", "null"),
        ("{\"a\":1}", "{}", "{\"a\":1}"),
        ("{\"a\":{}}", "{\"a\":{}}", "{\"a\":{}}"),
        ("{\"a\":{\"b\":1}}", "{\"a\":{}}", "{\"a\":{\"b\":1}}"),
        ("{\"a\":{}}", "{\"a\":{\"b\":1}}", "{\"a\":{\"b\":1}}"),
        // Other values in the place of an object.
        ("{\"a\":1}", "2", "2"),
        ("{\"a\":1}", "[{\"a\":2}]", "[{\"a\":2}]"),
        ("{\"a\":{\"b\":1}}", "{\"a\":2}", "{\"a\":2}"),
        ("{\"a\":{\"b\":1}}", "{\"a\":[]}", "{\"a\":[]}"),
        ("{\"a\":1}", "{\"a\":{\"b\":1}}", "{\"a\":{\"b\":1}}"),
        (
            "{\"a\":[{\"b\":1}]}",
            "{\"a\":{\"b\":2}}",
            "{\"a\":{\"b\":2}}",
        ),
        ("{\"a\":null}", "{\"a\":\"\\u0041\"}", "{\"a\":\"A\"}"),
        // Equal keys: of the schema the last, of the data one after the other.
        ("{\"a\":1,\"a\":2}", "{\"a\":3}", "{\"a\":1,\"a\":3}"),
        ("{\"a\":1}", "{\"a\":2,\"a\":3}", "{\"a\":3}"),
        (
            "{\"a\":1}",
            "{\"a\":{\"b\":1,\"c\":2},\"a\":{\"c\":3,\"d\":4}}",
            "{\"a\":{\"b\":1,\"c\":3}}",
        ),
        (
            "{\"a\":{\"b\":1}}",
            "{\"a\":2,\"a\":{\"c\":3}}",
            "{\"a\":{\"c\":3}}",
        ),
        (
            "{\"a\":{\"b\":1}}",
            "{\"a\":{},\"a\":{\"c\":3}}",
            "{\"a\":{\"b\":1}}",
        ),
        (
            "{\"a\":{\"b\":1},\"a\":{\"b\":2}}",
            "{\"a\":{\"b\":3},\"a\":{\"b\":4}}",
            "{\"a\":{\"b\":1},\"a\":{\"b\":4}}",
        ),
        // Keys by what they denote.
        (
            "{\"a\\n\":1,\"\":2}",
            "{\"\":3,\"\\u0061\\u000a\":4}",
            "{\"a\\n\":4,\"\":3}",
        ),
        ("{\"\\u00e9\":1}", "{\"\u{e9}\":2}", "{\"\u{e9}\":2}"),
        ("{\"a\":1}", "{\"A\":2,\"aa\":2,\"\":2}", "{\"a\":1}"),
    ]
}

#[test]
fn fills_schemas(rt: HostRuntime) -> Result<(), Fail> {
    let alloc = rt.alloc();
    for (schema, json, wanted) in filled() {
        check_made(
            &rt,
            alloc,
            get_by_schema(alloc, json, read(&rt, alloc, schema)),
            wanted,
        );
        check_made(
            &rt,
            alloc,
            get_by_schema(alloc, json.as_bytes(), read(&rt, alloc, schema)),
            wanted,
        );
    }
    Ok(())
}

#[test]
fn says_why_a_schema_isnt_filled(rt: HostRuntime) -> Result<(), Fail> {
    let alloc = rt.alloc();
    for &(schema, json, code, offset) in &[
        ("{}", "nul", ErrorCode::EofWhileParsing, 2),
        ("{}", "string", ErrorCode::InvalidJsonValue, 0),
        ("{}", "{\"obj\":}", ErrorCode::InvalidJsonValue, 7),
        ("{}", "[null,]", ErrorCode::InvalidJsonValue, 6),
        ("{\"a\":1}", "{\"b\":x}", ErrorCode::InvalidJsonValue, 5),
        (
            "{\"a\":1}",
            "{\"b\":[1}",
            ErrorCode::ExpectedArrayCommaOrEnd,
            7,
        ),
        (
            "{\"a\":1}",
            "{\"a\":1]",
            ErrorCode::ExpectedObjectCommaOrEnd,
            6,
        ),
        ("{\"a\":1}", "{\"a\" 1}", ErrorCode::ExpectedColon, 5),
        (
            "{\"a\":1}",
            "{\"a\":1,}",
            ErrorCode::ExpectObjectKeyOrEnd,
            7,
        ),
    ] {
        check_error(
            &rt,
            get_by_schema(alloc, json, read(&rt, alloc, schema)),
            (code, offset),
        );
        check_error(
            &rt,
            get_by_schema(alloc, json.as_bytes(), read(&rt, alloc, schema)),
            (code, offset),
        );
    }
    for &schema in &["true", "[{}]", "\"{}\"", "0"] {
        let code = ErrorCode::Message(Note::SchemaNotObject);
        for &json in &["{}", "x"] {
            check_error(
                &rt,
                get_by_schema(alloc, json, read(&rt, alloc, schema)),
                (code, 0),
            );
        }
    }
    Ok(())
}

// A text with so many open brackets after a prefix, and as many closed ones before the rest.
fn nested(alloc: Global, before: &str, depth: usize, after: &str) -> Result<String, Fail> {
    let mut text = String::new(alloc);
    text.push_str(before)?;
    for _ in 0..depth {
        text.push_str("[")?;
    }
    for _ in 0..depth {
        text.push_str("]")?;
    }
    text.push_str(after)?;
    Ok(text)
}

#[test]
fn counts_depth_in_what_is_kept(rt: HostRuntime) -> Result<(), Fail> {
    let alloc = rt.alloc();
    // What is skipped is as deep as it likes.
    let json = nested(alloc, "{\"b\":", 300, ",\"a\":2}")?;
    check_made(
        &rt,
        alloc,
        get_by_schema(alloc, &json[..], read(&rt, alloc, "{\"a\":1}")),
        "{\"a\":2}",
    );
    // What takes the place of a value has 255 containers, wherever it is.
    for &(schema, before, after) in &[
        ("{}", "", ""),
        ("{\"a\":1}", "{\"a\":", "}"),
        ("{\"a\":{\"b\":1}}", "{\"a\":{\"b\":", "}}"),
    ] {
        let json = nested(alloc, before, 255, after)?;
        check_made(
            &rt,
            alloc,
            get_by_schema(alloc, &json[..], read(&rt, alloc, schema)),
            &json,
        );
        let json = nested(alloc, before, 256, after)?;
        let wanted = (ErrorCode::RecursionLimitExceeded, before.len() + 255);
        check_error(
            &rt,
            get_by_schema(alloc, &json[..], read(&rt, alloc, schema)),
            wanted,
        );
    }
    Ok(())
}

// Bytes that break behind the value alone, and what comes of them.
fn broken_behind() -> [(&'static [u8], &'static str); 5] {
    [
        (b"{} \xff", "{\"a\":1}"),
        (b"7\xff", "7"),
        (
            b"{\"a\":{\"\xc3\xa9\":[\"\\u00e9\"]}}\xff",
            "{\"a\":{\"\u{e9}\":[\"\u{e9}\"]}}",
        ),
        (b"{\"a\":2}\xff", "{\"a\":2}"),
        (b"{\"a\":\"\xc3\xa9\"} \x80", "{\"a\":\"\u{e9}\"}"),
    ]
}

// Bytes that break before, and why nothing comes of them.
fn broken_inside() -> [(&'static [u8], ErrorCode, usize); 5] {
    [
        (b"{\"a\":\"\xff\"}", ErrorCode::InvalidUTF8, 6),
        (b"{\"b\":\"\xff\"}", ErrorCode::InvalidUTF8, 6),
        (b"{\"\xff\":1} x", ErrorCode::InvalidUTF8, 2),
        (b"{\"\xff\":1 x", ErrorCode::ExpectedObjectCommaOrEnd, 7),
        (b"\xff", ErrorCode::InvalidJsonValue, 0),
    ]
}

#[test]
fn looks_at_the_bytes_up_to_the_values_end(rt: HostRuntime) -> Result<(), Fail> {
    let alloc = rt.alloc();
    for (json, wanted) in broken_behind() {
        check_made(
            &rt,
            alloc,
            get_by_schema(alloc, json, read(&rt, alloc, "{\"a\":1}")),
            wanted,
        );
    }
    for (json, code, offset) in broken_inside() {
        check_error(
            &rt,
            get_by_schema(alloc, json, read(&rt, alloc, "{\"a\":1}")),
            (code, offset),
        );
    }
    Ok(())
}

// Bytes that aren't UTF-8, 256 nested arrays, the rest, and the answer with the schema `{"a":1}`.
fn broken_nested() -> [(&'static [u8], &'static [u8], ErrorCode, usize); 8] {
    [
        // Of what is kept the depth counts, wherever the bytes are broken, and whatever follows.
        (
            b"{\"b\":\"\xff\",\"a\":",
            b"}",
            ErrorCode::RecursionLimitExceeded,
            268,
        ),
        (
            b"{\"b\":\"\xff\",\"a\":",
            b"} x",
            ErrorCode::RecursionLimitExceeded,
            268,
        ),
        (
            b"{\"a\":",
            b",\"\xff\":1}",
            ErrorCode::RecursionLimitExceeded,
            260,
        ),
        // Of what is skipped it doesn't.
        (b"{\"\xff\":", b"}", ErrorCode::InvalidUTF8, 2),
        (
            b"{\"\xff\":",
            b"x}",
            ErrorCode::ExpectedObjectCommaOrEnd,
            517,
        ),
        // A key that is no text is a key all the same.
        (
            b"{\"a\":{\"\xff\":1},\"a\":{\"\xff\":",
            b"}}",
            ErrorCode::RecursionLimitExceeded,
            277,
        ),
        (
            b"{\"a\":{\"\xff\":1},\"a\":{\"\xfe\":",
            b"}}",
            ErrorCode::InvalidUTF8,
            7,
        ),
        (
            b"{\"a\":{\"\xff\":{\"b\":1}},\"a\":{\"\xff\":{\"c\":",
            b"}}}",
            ErrorCode::InvalidUTF8,
            7,
        ),
    ]
}

#[test]
fn counts_depth_in_bytes_that_are_broken(rt: HostRuntime) -> Result<(), Fail> {
    let alloc = rt.alloc();
    for (before, after, code, offset) in broken_nested() {
        let mut json = Vec::new(alloc);
        json.extend_from_slice(before)?;
        json.extend_from_slice(nested(alloc, "", 256, "")?.as_bytes())?;
        json.extend_from_slice(after)?;
        check_error(
            &rt,
            get_by_schema(alloc, &json[..], read(&rt, alloc, "{\"a\":1}")),
            (code, offset),
        );
    }
    Ok(())
}

#[test]
fn goes_on_after_the_value(rt: HostRuntime) -> Result<(), Fail> {
    let alloc = rt.alloc();
    for &lossy in &[false, true] {
        let parser = Parser::new(Read::from("{\"a\":2} x"));
        let mut parser = if lossy { parser.utf8_lossy() } else { parser };
        let made = parse_by_schema(alloc, &mut parser, read(&rt, alloc, "{\"a\":1}"));
        check_made(&rt, alloc, made, "{\"a\":2}");
        same(&rt, parser.offset(), 7);
        let made = parse_by_schema(alloc, &mut parser, read(&rt, alloc, "{\"a\":1}"));
        check_error(&rt, made, (ErrorCode::InvalidJsonValue, 8));
        same(&rt, parser.offset(), 7);
    }
    let mut parser = Parser::new(Read::from(" {} \"\\ud800\"")).utf8_lossy();
    let made = parse_by_schema(alloc, &mut parser, read(&rt, alloc, "{}"));
    check_made(&rt, alloc, made, "{}");
    let made = parse_by_schema(alloc, &mut parser, read(&rt, alloc, "{}"));
    check_error(&rt, made, (ErrorCode::InvalidSurrogateUnicodeCodePoint, 11));
    same(&rt, parser.offset(), 3);
    Ok(())
}

// Small objects, each of which is a schema and a text.
fn small() -> [&'static str; 30] {
    [
        "{}",
        "{\"a\":1}",
        "{\"b\":1}",
        "{\"a\":{}}",
        "{\"a\":[]}",
        "{\"a\":{\"a\":1}}",
        "{\"a\":{\"b\":1}}",
        "{\"a\":{\"a\":{}}}",
        "{\"a\":{\"a\":{\"a\":1}}}",
        "{\"a\":{\"a\":{\"b\":2}}}",
        "{\"a\":1,\"a\":2}",
        "{\"a\":1,\"b\":2}",
        "{\"b\":1,\"a\":2}",
        "{\"a\":{},\"a\":1}",
        "{\"a\":1,\"a\":{}}",
        "{\"a\":{\"a\":1},\"a\":2}",
        "{\"a\":2,\"a\":{\"a\":1}}",
        "{\"a\":{\"a\":1},\"a\":{\"a\":2}}",
        "{\"a\":{\"a\":1},\"a\":{\"b\":2}}",
        "{\"a\":{\"b\":1},\"a\":{\"a\":2}}",
        "{\"a\":{\"a\":1,\"b\":2}}",
        "{\"a\":{\"b\":1,\"a\":2}}",
        "{\"a\":{\"a\":1,\"a\":2}}",
        "{\"a\":{\"a\":{\"a\":1},\"b\":2}}",
        "{\"b\":{\"a\":1},\"a\":{\"a\":1}}",
        "{\"b\":{\"a\":1},\"a\":{\"b\":{}},\"b\":3}",
        "{\"a\":{\"a\":{\"a\":1}},\"a\":{\"a\":{\"b\":1}}}",
        "{\"a\":[{\"a\":1}],\"a\":{\"a\":1}}",
        "{\"\":{\"a\":1},\"a\":null}",
        "{\"a\":null,\"\":\"a\"}",
    ]
}

// And more of them.
fn more() -> [&'static str; 30] {
    [
        "{\"b\":{}}",
        "{\"b\":[]}",
        "{\"b\":{\"a\":1}}",
        "{\"b\":{\"b\":1}}",
        "{\"b\":{\"a\":{\"a\":1}}}",
        "{\"b\":1,\"b\":2}",
        "{\"b\":{\"a\":1},\"b\":{\"a\":2}}",
        "{\"b\":{\"a\":1},\"b\":{\"b\":2}}",
        "{\"a\":{\"b\":{\"a\":1}}}",
        "{\"a\":{\"b\":{}}}",
        "{\"a\":{},\"b\":{}}",
        "{\"a\":{\"a\":1},\"b\":{\"a\":1}}",
        "{\"a\":{\"b\":1},\"b\":{\"b\":1}}",
        "{\"a\":1,\"b\":2,\"a\":3}",
        "{\"a\":{\"a\":1},\"b\":2,\"a\":{\"a\":3}}",
        "{\"a\":{\"a\":{}},\"a\":{\"a\":{\"a\":1}}}",
        "{\"a\":{\"a\":{\"a\":1}},\"a\":{\"a\":{}}}",
        "{\"a\":{\"a\":{\"a\":1}},\"a\":{\"a\":2}}",
        "{\"a\":{\"a\":2},\"a\":{\"a\":{\"a\":1}}}",
        "{\"a\":{\"a\":[],\"b\":{}}}",
        "{\"a\":true,\"b\":false}",
        "{\"a\":\"b\",\"b\":\"a\"}",
        "{\"a\":{\"\":{}}}",
        "{\"\":{}}",
        "{\"\":{\"\":1}}",
        "{\"\":{\"\":{\"a\":1}},\"\":{\"\":{\"a\":2,\"b\":3}}}",
        "{\"a\":{\"a\":1,\"b\":{\"a\":1,\"b\":2}}}",
        "{\"a\":{\"a\":3,\"b\":{\"b\":4}},\"b\":[1]}",
        "{\"c\":1}",
        "{\"a\":{\"c\":{\"a\":1}},\"c\":{\"a\":{\"c\":2}}}",
    ]
}

// Fills each of the schemas from each of the texts.
fn check_pairs(
    rt: &impl Abort,
    alloc: Global,
    schemas: [&'static str; 30],
    texts: [&'static str; 30],
) -> Result<(), Fail> {
    for schema in schemas {
        for json in texts {
            let wanted = fill(alloc, read(rt, alloc, schema), &read(rt, alloc, json))?;
            match get_by_schema(alloc, json, read(rt, alloc, schema)) {
                Ok(made) => assert!(rt; made == wanted, "{schema} {json}"),
                Err(error) => panic!(rt; "{schema} {json}: {error}"),
            }
        }
    }
    Ok(())
}

#[test]
fn fills_as_the_plain_program_does(rt: HostRuntime) -> Result<(), Fail> {
    let alloc = rt.alloc();
    check_pairs(&rt, alloc, small(), small())?;
    check_pairs(&rt, alloc, small(), more())?;
    check_pairs(&rt, alloc, more(), small())?;
    check_pairs(&rt, alloc, more(), more())
}
