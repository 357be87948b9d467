// What no clause says: that the numbers are those of the variants, and how errors look.
use crate::same::{same, same_at};
use sonic_error::{Category, Error, ErrorCode, JsonType, Note, Wanted};
use std::io::ErrorKind;
use std::test::Fail;

#[test]
fn numbers_the_kinds(rt: HostRuntime) {
    let table = [
        (0, JsonType::Null),
        (1, JsonType::Boolean),
        (2, JsonType::Number),
        (3, JsonType::String),
        (4, JsonType::Object),
        (5, JsonType::Array),
    ];
    for &(number, kind) in &table {
        same(&rt, JsonType::from_u8(number), Some(kind));
        same_at(&rt, kind as u8, number, kind);
        same_at(&rt, kind.as_u8(), number, kind);
    }
    same(&rt, JsonType::from_u8(6), None);
}

#[test]
fn prints_mismatches(rt: HostRuntime) -> Result<(), Fail> {
    let table = [
        (
            JsonType::Null,
            Wanted::Object,
            "invalid type: null, expected a JSON object",
        ),
        (
            JsonType::Boolean,
            Wanted::Array,
            "invalid type: boolean, expected a JSON array",
        ),
        (
            JsonType::Number,
            Wanted::Object,
            "invalid type: number, expected a JSON object",
        ),
        (
            JsonType::String,
            Wanted::Number,
            "invalid type: string, expected a JSON number",
        ),
        (
            JsonType::Object,
            Wanted::Array,
            "invalid type: map, expected a JSON array",
        ),
        (
            JsonType::Array,
            Wanted::Number,
            "invalid type: sequence, expected a JSON number",
        ),
    ];
    for &(found, wanted, text) in &table {
        let error = Error::plain(ErrorCode::Message(Note::Mismatch { found, wanted }));
        same(&rt, error.to_string(rt.alloc())?.as_str(), text);
    }
    Ok(())
}

#[test]
fn prints_codes(rt: HostRuntime) -> Result<(), Fail> {
    let table = [
        (
            ErrorCode::Message(Note::SchemaNotObject),
            "The schema must be an object",
        ),
        (
            ErrorCode::Io(ErrorKind::TimedOut),
            "io error while serializing or deserializing",
        ),
        (ErrorCode::EofWhileParsing, "EOF while parsing"),
        (
            ErrorCode::ExpectedColon,
            "Expected this character to be a ':' while parsing",
        ),
        (
            ErrorCode::ExpectedArrayCommaOrEnd,
            "Expected this character to be either a ',' or a ']' while parsing",
        ),
        (
            ErrorCode::ExpectedObjectCommaOrEnd,
            "Expected this character to be either a ',' or a '}' while parsing",
        ),
        (
            ErrorCode::InvalidLiteral,
            "Invalid literal (`true`, `false`, or a `null`) while parsing",
        ),
        (ErrorCode::InvalidJsonValue, "Invalid JSON value"),
        (
            ErrorCode::ExpectedObjectStart,
            "Expected this character to be '{'",
        ),
        (
            ErrorCode::ExpectedArrayStart,
            "Expected this character to be '['",
        ),
        (ErrorCode::InvalidEscape, "Invalid escape chars"),
        (ErrorCode::InvalidNumber, "Invalid number"),
        (
            ErrorCode::NumberOutOfRange,
            "Number is bigger than the maximum value of its type",
        ),
        (
            ErrorCode::InvalidUnicodeCodePoint,
            "Invalid unicode code point",
        ),
        (ErrorCode::InvalidUTF8, "Invalid UTF-8 characters in json"),
        (
            ErrorCode::ControlCharacterWhileParsingString,
            "Control character found while parsing a string",
        ),
        (
            ErrorCode::ExpectObjectKeyOrEnd,
            "Expected this character to be '\"' or '}'",
        ),
        (
            ErrorCode::TrailingComma,
            "JSON has a comma after the last value in an array or object",
        ),
        (
            ErrorCode::TrailingCharacters,
            "JSON has non-whitespace trailing characters after the value",
        ),
        (
            ErrorCode::RecursionLimitExceeded,
            "Encountered nesting of JSON maps and arrays more than 255 layers deep",
        ),
        (
            ErrorCode::GetInEmptyObject,
            "Get value from an empty object",
        ),
        (
            ErrorCode::GetUnknownKeyInObject,
            "Get unknown key from the object",
        ),
        (ErrorCode::GetInEmptyArray, "Get value from an empty array"),
        (ErrorCode::GetIndexOutOfArray, "Get index out of the array"),
        (ErrorCode::UnexpectedVisitType, "Unexpected visited type"),
        (
            ErrorCode::InvalidSurrogateUnicodeCodePoint,
            "Invalid surrogate Unicode code point",
        ),
        (
            ErrorCode::FloatMustBeFinite,
            "Float number must be finite, not be Infinity or NaN",
        ),
        (
            ErrorCode::ExpectedNumericKey,
            "Expect a numeric key in Value",
        ),
        (ErrorCode::ExpectedQuote, "Expect a quote"),
        (
            ErrorCode::SerExpectKeyIsStrOrNum,
            "Expected the key to be string/bool/number when serializing map",
        ),
        (ErrorCode::NoMemory, "out of memory"),
        (ErrorCode::DuplicateKey, "Duplicate key in the object"),
    ];
    for &(code, text) in &table {
        let error = Error::plain(code);
        same(&rt, code.to_string(rt.alloc())?.as_str(), text);
        same(&rt, error.to_string(rt.alloc())?.as_str(), text);
        same(&rt, format!(in rt.alloc(); "{error:?}")?.as_str(), text);
        same(
            &rt,
            (error.line(), error.column(), error.offset()),
            (0, 0, 0),
        );
    }
    Ok(())
}

#[test]
fn prints_places(rt: HostRuntime) -> Result<(), Fail> {
    let table: [(ErrorCode, &[u8], usize, &str); 6] = [
        (
            ErrorCode::EofWhileParsing,
            b"{\"a\": [",
            7,
            "EOF while parsing at line 1 column 7\n\n\t{\"a\": [\n\t......^\n",
        ),
        (
            ErrorCode::InvalidUTF8,
            b"\"\x80\x90\"",
            1,
            "Invalid UTF-8 characters in json at line 1 column 2\n\n\t\"\u{FFFD}\u{FFFD}\"\n\t.^..\n",
        ),
        (
            ErrorCode::EofWhileParsing,
            b"",
            0,
            "EOF while parsing at line 1 column 1\n\n\t\n\t^\n",
        ),
        (
            ErrorCode::EofWhileParsing,
            "{\"c\": \"哈哈哈哈哈哈}".as_bytes(),
            26,
            "EOF while parsing at line 1 column 26\n\n\t哈哈哈}\n\t.........^\n",
        ),
        (
            ErrorCode::ExpectedArrayCommaOrEnd,
            b"[1, 2, 3, 4, 5, 6",
            17,
            "Expected this character to be either a ',' or a ']' while parsing at line 1 column 17\n\n\t, 4, 5, 6\n\t........^\n",
        ),
        (
            ErrorCode::InvalidJsonValue,
            b"[1,\r\n 2,\r\r x]",
            11,
            "Invalid JSON value at line 2 column 7\n\n\t\r\n 2,\r\r x]\n\t........^.\n",
        ),
    ];
    for &(code, json, place, text) in &table {
        let error = Error::syntax(code, json, place);
        same(&rt, error.to_string(rt.alloc())?.as_str(), text);
        same(&rt, format!(in rt.alloc(); "{error:?}")?.as_str(), text);
    }
    Ok(())
}

#[test]
fn finds_the_place(rt: HostRuntime) {
    let json = b"[1,\r\n 2,\n\n";
    for &(place, offset, line, column) in &[
        (0, 0, 1, 1),
        (4, 4, 1, 5),
        (5, 5, 2, 1),
        (9, 9, 3, 1),
        (10, 9, 3, 1),
    ] {
        let error = Error::syntax(ErrorCode::InvalidJsonValue, json, place);
        same(&rt, error.code(), ErrorCode::InvalidJsonValue);
        same_at(
            &rt,
            (error.offset(), error.line(), error.column()),
            (offset, line, column),
            place,
        );
    }
}

#[test]
fn reports_the_family(rt: HostRuntime) {
    let table = [
        (
            ErrorCode::Io(ErrorKind::TimedOut),
            Category::Io,
            ErrorKind::TimedOut,
        ),
        (
            ErrorCode::TrailingComma,
            Category::Syntax,
            ErrorKind::InvalidData,
        ),
        (
            ErrorCode::UnexpectedVisitType,
            Category::TypeUnmatched,
            ErrorKind::InvalidData,
        ),
        (
            ErrorCode::GetUnknownKeyInObject,
            Category::NotFound,
            ErrorKind::InvalidData,
        ),
        (
            ErrorCode::EofWhileParsing,
            Category::Eof,
            ErrorKind::UnexpectedEof,
        ),
        (
            ErrorCode::NoMemory,
            Category::Memory,
            ErrorKind::OutOfMemory,
        ),
    ];
    for &(code, category, kind) in &table {
        let error = Error::plain(code);
        same(&rt, error.classify(), category);
        same(&rt, error.to_io_kind(), kind);
        same(&rt, error.io_error_kind().is_some(), error.is_io());
        same(&rt, error.is_io(), category == Category::Io);
        same(&rt, error.is_syntax(), category == Category::Syntax);
        same(
            &rt,
            error.is_unmatched_type(),
            category == Category::TypeUnmatched,
        );
        same(&rt, error.is_not_found(), category == Category::NotFound);
        same(&rt, error.is_eof(), category == Category::Eof);
    }
}
