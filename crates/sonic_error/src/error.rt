ghost use Rattle.std.specs.Prelude.{◌≡◌, ◌≤◌, ◌↔◌, length, IsTrue, Some};
ghost use Rattle.sonic_error.specs.Codes.{category_of};
ghost use Rattle.sonic_error.specs.Errors.{error_code, error_offset, error_line, error_column, error_text, io_kind_of, raised_kind_of, shown};
ghost use Rattle.sonic_error.specs.Places.{offset_of, line_of, column_of};
ghost use Rattle.sonic_error.specs.Texts.{code_text};

use crate::code::{Category, ErrorCode};
use crate::position::Position;
use std::alloc::AllocError;
use std::fmt;
use std::io::ErrorKind;

/// What calls on JSON return: a value, or what is wrong.
///
/// So a function that reads a number from a text is `fn number(json: &[u8]) -> Result<u64>`.
pub type Result<T> = std::result::Result<T, Error>;

/// What is wrong, and where in the text, if it is the text that is wrong.
///
/// It owns no memory: of the text it keeps at most 34 bytes round the place, which it shows when
/// it is printed. Bytes that aren't UTF-8 are shown as U+FFFD, and `{:?}` prints as `{}` does.
///
/// An error at byte 2 of `[1 2]` has that byte in column 3, and ends in these two lines:
///
/// ```text
///     [1 2]
///     ..^..
/// ```
#[derive(Clone, Copy, PartialEq, Eq)]
pub struct Error {
    code: ErrorCode,
    position: Option<Position>,
}

impl Error {
    /// An error in the text `json` at the byte with index `place`, or at the last byte where the
    /// text ends before it.
    ///
    /// `Error::syntax(ErrorCode::EofWhileParsing, b"[1,", 3)` prints as
    ///
    /// ```text
    /// EOF while parsing at line 1 column 3
    ///
    ///     [1,
    ///     ..^
    /// ```
    pub fn syntax(code: ErrorCode, json: &[u8], place: usize) -> Error
        requires { place ≤ length json.now }
        ensures code { error_code result ≡ code }
        ensures offset { error_offset result ≡ offset_of json.now place }
        ensures line { error_line result ≡ line_of json.now place }
        ensures column { error_column result ≡ column_of json.now place }
        ensures text { error_text result ≡ shown code json.now place }
    {
        let offset = place.min(json.len().saturating_sub(1));
        Error {
            code,
            position: Some(Position::new(json, offset)),
        }
    }

    /// An error with no place in a text, as for a key that an object doesn't have.
    ///
    /// `Error::plain(ErrorCode::GetInEmptyArray)` prints as `Get value from an empty array`.
    pub fn plain(code: ErrorCode) -> Error
        ensures code { error_code result ≡ code }
        ensures offset { error_offset result ≡ 0 }
        ensures line { error_line result ≡ 0 }
        ensures column { error_column result ≡ 0 }
        ensures text { error_text result ≡ code_text code }
    {
        Error {
            code,
            position: None,
        }
    }

    /// The line of the place, from 1, or 0 where there is no place.
    ///
    /// A line ends with a line feed. So at byte 2 of `"[\n]"` it is 2.
    pub fn line(&self) -> usize
        ensures { result ≡ error_line self.now }
    {
        match &self.position {
            Some(position) => position.line,
            None => 0,
        }
    }

    /// The column of the place in its line, from 1 and in bytes, or 0 where there is no place.
    ///
    /// At byte 2 of `"[\n]"` it is 1.
    pub fn column(&self) -> usize
        ensures { result ≡ error_column self.now }
    {
        match &self.position {
            Some(position) => position.column,
            None => 0,
        }
    }

    /// The place itself, as an index of the text's bytes from 0, or 0 where there is no place.
    ///
    /// `Error::syntax(ErrorCode::EofWhileParsing, b"[1,", 3).offset()` is 2.
    pub fn offset(&self) -> usize
        ensures { result ≡ error_offset self.now }
    {
        match &self.position {
            Some(position) => position.offset,
            None => 0,
        }
    }

    /// What is wrong, without the place.
    ///
    /// `Error::plain(ErrorCode::NoMemory).code()` is `ErrorCode::NoMemory`.
    pub fn code(&self) -> ErrorCode
        ensures { result ≡ error_code self.now }
    {
        self.code
    }

    /// The family of the error.
    ///
    /// `Error::plain(ErrorCode::GetInEmptyArray).classify()` is `Category::NotFound`.
    pub fn classify(&self) -> Category
        ensures { result ≡ category_of (error_code self.now) }
    {
        self.code.category()
    }

    /// Whether reading or writing failed.
    ///
    /// It is so for `ErrorCode::Io(ErrorKind::TimedOut)`.
    pub fn is_io(&self) -> bool
        ensures { IsTrue result ↔ (category_of (error_code self.now) ≡ Category.Io) }
    {
        self.classify() == Category::Io
    }

    /// Whether the text isn't JSON, for another reason than its end.
    ///
    /// It is so for `ErrorCode::TrailingComma`, and not for `ErrorCode::EofWhileParsing`.
    pub fn is_syntax(&self) -> bool
        ensures { IsTrue result ↔ (category_of (error_code self.now) ≡ Category.Syntax) }
    {
        self.classify() == Category::Syntax
    }

    /// Whether a value is of another kind than the caller wanted.
    ///
    /// It is so for `ErrorCode::Message(Note::SchemaNotObject)`.
    pub fn is_unmatched_type(&self) -> bool
        ensures { IsTrue result ↔ (category_of (error_code self.now) ≡ Category.TypeUnmatched) }
    {
        self.classify() == Category::TypeUnmatched
    }

    /// Whether there is no value where the caller looked for one.
    ///
    /// It is so for `ErrorCode::GetUnknownKeyInObject`.
    pub fn is_not_found(&self) -> bool
        ensures { IsTrue result ↔ (category_of (error_code self.now) ≡ Category.NotFound) }
    {
        self.classify() == Category::NotFound
    }

    /// Whether the text ended before the JSON did.
    ///
    /// A reader that has only a part of the text may then read on, and try again.
    pub fn is_eof(&self) -> bool
        ensures { IsTrue result ↔ (category_of (error_code self.now) ≡ Category.Eof) }
    {
        self.classify() == Category::Eof
    }

    /// How reading or writing failed, if it did.
    ///
    /// For `ErrorCode::Io(ErrorKind::TimedOut)` it is `Some(ErrorKind::TimedOut)`.
    pub fn io_error_kind(&self) -> Option<ErrorKind>
        ensures { result ≡ io_kind_of (error_code self.now) }
    {
        match self.code {
            ErrorCode::Io(kind) => Some(kind),
            _ => None,
        }
    }

    /// The kind of the `std::io` error that a caller raises in this error's place.
    ///
    /// For `ErrorCode::EofWhileParsing` it is `ErrorKind::UnexpectedEof`, and for
    /// `ErrorCode::InvalidNumber` it is `ErrorKind::InvalidData`.
    pub fn to_io_kind(&self) -> ErrorKind
        ensures { result ≡ raised_kind_of (error_code self.now) }
    {
        match self.code {
            ErrorCode::Io(kind) => kind,
            ErrorCode::EofWhileParsing => ErrorKind::UnexpectedEof,
            ErrorCode::NoMemory => ErrorKind::OutOfMemory,
            _ => ErrorKind::InvalidData,
        }
    }
}

/// So a function whose errors are these asks for memory with `?`.
impl From<AllocError> for Error {
    ghost use Rattle.sonic_error.specs.Errors.{IsPlainError};
    ghost use Rattle.sonic_error.specs.declared.code.ErrorCode.TheVariants.{NoMemory};

    ghost from_gives = { λ refused error. IsPlainError error NoMemory };

    fn from(_: AllocError) -> Error {
        Error::plain(ErrorCode::NoMemory)
    }
}

impl fmt::Display for Error {
    ghost output = { λ error. Some (error_text error) };

    fn fmt<W: fmt::Write>(&self, f: &mut fmt::Formatter<W>) -> fmt::Result {
        write!(f, "{}", self.code)?;
        match &self.position {
            Some(position) => write!(f, "{position}"),
            None => Ok(()),
        }
    }
}

impl fmt::Debug for Error {
    ghost debug_output = { λ error. Some (error_text error) };

    fn fmt<W: fmt::Write>(&self, f: &mut fmt::Formatter<W>) -> fmt::Result {
        fmt::Display::fmt(self, f)
    }
}
