// The numbers that stand for the codes of errors.
ghost use Rattle.std.specs.Prelude.{◌≡◌, ◌≢◌, ◌≤◌, ◌+◌, IfSome, IfNone};
ghost use Rattle.sonic_error.specs.Kinds.{number_of};
ghost use Rattle.sonic_error.specs.declared.code.ErrorCode.{ErrorCode};
ghost use Rattle.sonic_c.specs.Codes.{code_number, wanted_number};

use sonic_error::{ErrorCode, JsonType, Note, Wanted};
use std::io::ErrorKind;

// The codes but those of a mismatch, in the order of their numbers, which begin with 1.
const CODES: [ErrorCode; 32] = [
    ErrorCode::Message(Note::SchemaNotObject),
    ErrorCode::Io(ErrorKind::Other),
    ErrorCode::EofWhileParsing,
    ErrorCode::ExpectedColon,
    ErrorCode::ExpectedArrayCommaOrEnd,
    ErrorCode::ExpectedObjectCommaOrEnd,
    ErrorCode::InvalidLiteral,
    ErrorCode::InvalidJsonValue,
    ErrorCode::ExpectedObjectStart,
    ErrorCode::ExpectedArrayStart,
    ErrorCode::InvalidEscape,
    ErrorCode::InvalidNumber,
    ErrorCode::NumberOutOfRange,
    ErrorCode::InvalidUnicodeCodePoint,
    ErrorCode::InvalidUTF8,
    ErrorCode::ControlCharacterWhileParsingString,
    ErrorCode::ExpectObjectKeyOrEnd,
    ErrorCode::TrailingComma,
    ErrorCode::TrailingCharacters,
    ErrorCode::RecursionLimitExceeded,
    ErrorCode::GetInEmptyObject,
    ErrorCode::GetUnknownKeyInObject,
    ErrorCode::GetInEmptyArray,
    ErrorCode::GetIndexOutOfArray,
    ErrorCode::UnexpectedVisitType,
    ErrorCode::InvalidSurrogateUnicodeCodePoint,
    ErrorCode::FloatMustBeFinite,
    ErrorCode::ExpectedNumericKey,
    ErrorCode::ExpectedQuote,
    ErrorCode::SerExpectKeyIsStrOrNum,
    ErrorCode::NoMemory,
    ErrorCode::DuplicateKey,
];

// The code that has this number. Of those of reading and writing, which share one, it is any.
pub(crate) fn code_of(number: u32) -> Option<ErrorCode>
    ensures has { IfSome result (λ code. code_number code ≡ number) }
    ensures none { IfNone result ((code : ErrorCode) → code_number code ≢ number) }
{
    match number {
        1..=32 => Some(CODES[number as usize - 1]),
        100..=152 => mismatch_of(number - 100),
        _ => None,
    }
}

// The mismatch whose number is 100 more.
fn mismatch_of(number: u32) -> Option<ErrorCode>
    requires { number ≤ 52 }
    ensures has { IfSome result (λ code. code_number code ≡ 100 + number) }
    ensures none { IfNone result ((code : ErrorCode) → code_number code ≢ 100 + number) }
{
    let found = JsonType::from_u8((number / 10) as u8)?;
    let wanted = match number % 10 {
        0 => Wanted::Object,
        1 => Wanted::Array,
        2 => Wanted::Number,
        _ => return None,
    };
    Some(ErrorCode::Message(Note::Mismatch { found, wanted }))
}

// The number of a code.
pub(crate) fn number(code: ErrorCode) -> u32
    ensures { result ≡ code_number code }
{
    match code {
        ErrorCode::Message(Note::Mismatch { found, wanted }) => {
            100 + 10 * found_number(found) + wanted_number(wanted)
        }
        ErrorCode::Message(Note::SchemaNotObject) => 1,
        ErrorCode::Io(_) => 2,
        ErrorCode::EofWhileParsing => 3,
        ErrorCode::ExpectedColon => 4,
        ErrorCode::ExpectedArrayCommaOrEnd => 5,
        ErrorCode::ExpectedObjectCommaOrEnd => 6,
        ErrorCode::InvalidLiteral => 7,
        ErrorCode::InvalidJsonValue => 8,
        ErrorCode::ExpectedObjectStart => 9,
        ErrorCode::ExpectedArrayStart => 10,
        ErrorCode::InvalidEscape => 11,
        ErrorCode::InvalidNumber => 12,
        ErrorCode::NumberOutOfRange => 13,
        ErrorCode::InvalidUnicodeCodePoint => 14,
        ErrorCode::InvalidUTF8 => 15,
        ErrorCode::ControlCharacterWhileParsingString => 16,
        ErrorCode::ExpectObjectKeyOrEnd => 17,
        ErrorCode::TrailingComma => 18,
        ErrorCode::TrailingCharacters => 19,
        ErrorCode::RecursionLimitExceeded => 20,
        ErrorCode::GetInEmptyObject => 21,
        ErrorCode::GetUnknownKeyInObject => 22,
        ErrorCode::GetInEmptyArray => 23,
        ErrorCode::GetIndexOutOfArray => 24,
        ErrorCode::UnexpectedVisitType => 25,
        ErrorCode::InvalidSurrogateUnicodeCodePoint => 26,
        ErrorCode::FloatMustBeFinite => 27,
        ErrorCode::ExpectedNumericKey => 28,
        ErrorCode::ExpectedQuote => 29,
        ErrorCode::SerExpectKeyIsStrOrNum => 30,
        ErrorCode::NoMemory => 31,
        ErrorCode::DuplicateKey => 32,
    }
}

// The number of the kind that was found.
pub(crate) fn found_number(found: JsonType) -> u32
    ensures number { result ≡ number_of found }
    ensures low { result ≤ 5 }
{
    match found {
        JsonType::Null => 0,
        JsonType::Boolean => 1,
        JsonType::Number => 2,
        JsonType::String => 3,
        JsonType::Object => 4,
        JsonType::Array => 5,
    }
}

// The number of what was wanted.
fn wanted_number(wanted: Wanted) -> u32
    ensures number { result ≡ wanted_number wanted }
    ensures low { result ≤ 2 }
{
    match wanted {
        Wanted::Object => 0,
        Wanted::Array => 1,
        Wanted::Number => 2,
    }
}
