ghost use Rattle.std.specs.Prelude.{◌≡◌, Some};
ghost use Rattle.sonic_error.specs.Codes.{category_of};
ghost use Rattle.sonic_error.specs.Names.{word_of_category, name_of_code};
ghost use Rattle.sonic_error.specs.Texts.{code_text};

use crate::json_type::Note;
use std::fmt;
use std::io::ErrorKind;

/// The families of errors, as callers tell them apart.
#[derive(Clone, Copy, Debug, PartialEq, Eq)]
pub enum Category {
    /// Reading or writing failed.
    Io,
    /// The text isn't JSON.
    Syntax,
    /// The JSON has a value of another kind than the caller wanted.
    TypeUnmatched,
    /// The JSON has no value where the caller looked for one.
    NotFound,
    /// The text ended before the JSON did.
    Eof,
    /// Memory ran out.
    Memory,
}

impl Category {
    /// The family as one word in lower case, as the lines of a report begin with it.
    ///
    /// Of `Category::TypeUnmatched` it is `type`, of `Category::NotFound` `not-found`.
    pub fn word(self) -> &'static str
        ensures { result.now ≡ word_of_category self }
    {
        match self {
            Self::Io => "io",
            Self::Syntax => "syntax",
            Self::TypeUnmatched => "type",
            Self::NotFound => "not-found",
            Self::Eof => "eof",
            Self::Memory => "memory",
        }
    }
}

/// What is wrong. The place where it is wrong is beside the code, never in it.
///
/// It prints as a short message: `ErrorCode::ExpectedQuote` as `Expect a quote`.
#[derive(Clone, Copy, Debug, PartialEq, Eq)]
pub enum ErrorCode {
    /// A value of another kind than the caller wanted.
    Message(Note),
    /// Reading or writing failed in this way.
    Io(ErrorKind),
    /// The text ends inside a value, or before one that is expected.
    EofWhileParsing,
    /// No colon follows a key.
    ExpectedColon,
    /// Neither a comma nor a closing bracket follows an element, or, to an iterator alone, the text
    /// ends after the opening bracket.
    ExpectedArrayCommaOrEnd,
    /// Neither a comma nor a closing brace follows a member, or, to an iterator alone, neither a key
    /// nor the closing brace follows the opening one.
    ExpectedObjectCommaOrEnd,
    /// A byte that isn't the next letter of `true`, `false` or `null`.
    InvalidLiteral,
    /// A value is expected, and none begins with this byte.
    InvalidJsonValue,
    /// An object is wanted, and no `{` is here.
    ExpectedObjectStart,
    /// An array is wanted, and no `[` is here.
    ExpectedArrayStart,
    /// No escape has this byte after its backslash.
    InvalidEscape,
    /// A digit is expected and isn't there, or follows a first digit 0.
    InvalidNumber,
    /// A number doesn't fit the type that it is read into.
    NumberOutOfRange,
    /// A byte after `\u` is no hexadecimal digit.
    InvalidUnicodeCodePoint,
    /// The bytes aren't UTF-8.
    InvalidUTF8,
    /// A byte below 0x20 is in a string.
    ControlCharacterWhileParsingString,
    /// A key is expected, and no quote is here.
    ExpectObjectKeyOrEnd,
    /// A comma follows the last element or member.
    TrailingComma,
    /// Something follows the value that was to be the whole text.
    TrailingCharacters,
    /// More than 255 arrays and objects are inside each other.
    RecursionLimitExceeded,
    /// A key leads into an object without members.
    GetInEmptyObject,
    /// No member of the object has this key.
    GetUnknownKeyInObject,
    /// An index leads into an array without elements.
    GetInEmptyArray,
    /// An index isn't below the number of elements.
    GetIndexOutOfArray,
    /// A value of another kind is where one is to be changed.
    UnexpectedVisitType,
    /// Half of a surrogate pair is alone.
    InvalidSurrogateUnicodeCodePoint,
    /// A number is to be finite, and isn't.
    FloatMustBeFinite,
    /// A key is to be a number, and isn't.
    ExpectedNumericKey,
    /// A quote is expected, and isn't there.
    ExpectedQuote,
    /// A key is to be a text or a number, and isn't.
    SerExpectKeyIsStrOrNum,
    /// Memory ran out.
    NoMemory,
    /// An object has the key of a path twice, and that is refused.
    DuplicateKey,
}

impl ErrorCode {
    /// The name of the code, which is that of the variant without what is inside.
    ///
    /// Of `ErrorCode::InvalidUTF8` it is `InvalidUTF8`, and of each `ErrorCode::Message` `Message`.
    pub fn name(self) -> &'static str
        ensures { result.now ≡ name_of_code self }
    {
        match self {
            Self::Message(_) => "Message",
            Self::Io(_) => "Io",
            Self::EofWhileParsing => "EofWhileParsing",
            Self::ExpectedColon => "ExpectedColon",
            Self::ExpectedArrayCommaOrEnd => "ExpectedArrayCommaOrEnd",
            Self::ExpectedObjectCommaOrEnd => "ExpectedObjectCommaOrEnd",
            Self::InvalidLiteral => "InvalidLiteral",
            Self::InvalidJsonValue => "InvalidJsonValue",
            Self::ExpectedObjectStart => "ExpectedObjectStart",
            Self::ExpectedArrayStart => "ExpectedArrayStart",
            Self::InvalidEscape => "InvalidEscape",
            Self::InvalidNumber => "InvalidNumber",
            Self::NumberOutOfRange => "NumberOutOfRange",
            Self::InvalidUnicodeCodePoint => "InvalidUnicodeCodePoint",
            Self::InvalidUTF8 => "InvalidUTF8",
            Self::ControlCharacterWhileParsingString => "ControlCharacterWhileParsingString",
            Self::ExpectObjectKeyOrEnd => "ExpectObjectKeyOrEnd",
            Self::TrailingComma => "TrailingComma",
            Self::TrailingCharacters => "TrailingCharacters",
            Self::RecursionLimitExceeded => "RecursionLimitExceeded",
            Self::GetInEmptyObject => "GetInEmptyObject",
            Self::GetUnknownKeyInObject => "GetUnknownKeyInObject",
            Self::GetInEmptyArray => "GetInEmptyArray",
            Self::GetIndexOutOfArray => "GetIndexOutOfArray",
            Self::UnexpectedVisitType => "UnexpectedVisitType",
            Self::InvalidSurrogateUnicodeCodePoint => "InvalidSurrogateUnicodeCodePoint",
            Self::FloatMustBeFinite => "FloatMustBeFinite",
            Self::ExpectedNumericKey => "ExpectedNumericKey",
            Self::ExpectedQuote => "ExpectedQuote",
            Self::SerExpectKeyIsStrOrNum => "SerExpectKeyIsStrOrNum",
            Self::NoMemory => "NoMemory",
            Self::DuplicateKey => "DuplicateKey",
        }
    }

    // The family that the error belongs to.
    pub(crate) fn category(self) -> Category
        ensures { result ≡ category_of self }
    {
        match self {
            ErrorCode::Io(_) => Category::Io,
            ErrorCode::EofWhileParsing => Category::Eof,
            ErrorCode::NoMemory => Category::Memory,
            ErrorCode::Message(_) | ErrorCode::UnexpectedVisitType => Category::TypeUnmatched,
            ErrorCode::GetInEmptyObject
            | ErrorCode::GetUnknownKeyInObject
            | ErrorCode::GetInEmptyArray
            | ErrorCode::GetIndexOutOfArray => Category::NotFound,
            _ => Category::Syntax,
        }
    }
}

impl fmt::Display for ErrorCode {
    ghost output = { λ code. Some (code_text code) };

    fn fmt<W: fmt::Write>(&self, f: &mut fmt::Formatter<W>) -> fmt::Result {
        f.write_str(match self {
            Self::Message(note) => return write!(f, "{note}"),
            Self::Io(_) => "io error while serializing or deserializing",
            Self::EofWhileParsing => "EOF while parsing",
            Self::ExpectedColon => "Expected this character to be a ':' while parsing",
            Self::ExpectedArrayCommaOrEnd =>
                "Expected this character to be either a ',' or a ']' while parsing",
            Self::ExpectedObjectCommaOrEnd =>
                "Expected this character to be either a ',' or a '}' while parsing",
            Self::InvalidLiteral => "Invalid literal (`true`, `false`, or a `null`) while parsing",
            Self::InvalidJsonValue => "Invalid JSON value",
            Self::ExpectedObjectStart => "Expected this character to be '{'",
            Self::ExpectedArrayStart => "Expected this character to be '['",
            Self::InvalidEscape => "Invalid escape chars",
            Self::InvalidNumber => "Invalid number",
            Self::NumberOutOfRange => "Number is bigger than the maximum value of its type",
            Self::InvalidUnicodeCodePoint => "Invalid unicode code point",
            Self::InvalidUTF8 => "Invalid UTF-8 characters in json",
            Self::ControlCharacterWhileParsingString =>
                "Control character found while parsing a string",
            Self::ExpectObjectKeyOrEnd => "Expected this character to be '\"' or '}'",
            Self::TrailingComma => "JSON has a comma after the last value in an array or object",
            Self::TrailingCharacters =>
                "JSON has non-whitespace trailing characters after the value",
            Self::RecursionLimitExceeded =>
                "Encountered nesting of JSON maps and arrays more than 255 layers deep",
            Self::GetInEmptyObject => "Get value from an empty object",
            Self::GetUnknownKeyInObject => "Get unknown key from the object",
            Self::GetInEmptyArray => "Get value from an empty array",
            Self::GetIndexOutOfArray => "Get index out of the array",
            Self::UnexpectedVisitType => "Unexpected visited type",
            Self::InvalidSurrogateUnicodeCodePoint => "Invalid surrogate Unicode code point",
            Self::FloatMustBeFinite => "Float number must be finite, not be Infinity or NaN",
            Self::ExpectedNumericKey => "Expect a numeric key in Value",
            Self::ExpectedQuote => "Expect a quote",
            Self::SerExpectKeyIsStrOrNum =>
                "Expected the key to be string/bool/number when serializing map",
            Self::NoMemory => "out of memory",
            Self::DuplicateKey => "Duplicate key in the object",
        })
    }
}
