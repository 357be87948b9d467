// Text that is borrowed from one of two places.
ghost use Rattle.std.specs.Prelude.{◌≡◌, ◌↔◌, IfOk, IfErr, OnErr};
ghost use Rattle.std.specs.Cow.{IsBorrowedStr, cow_str_bytes};
ghost use Rattle.sonic_error.specs.Errors.{IsPlainError};
ghost use Rattle.sonic_parser.specs.Texts.{reference_text, IsBorrowed};

use sonic_error::{Error, ErrorCode, Result};
use std::alloc::Global;
use std::borrow::CowStr;

/// The text of a string, as [`Parser::parse_str`] reads it: a part of the input, or what was
/// written to a buffer.
///
/// [`Parser::parse_str`]: crate::Parser::parse_str
#[derive(Clone, Copy, Debug)]
pub enum Reference<'b, 'c> {
    /// All that is between the quotes, as it is in the input.
    Borrowed(&'b str),
    /// What the buffer holds.
    Copied(&'c str),
}

impl<'b, 'c> Reference<'b, 'c> {
    /// The text, wherever it is.
    pub fn as_str(&self) -> &str
        ensures { result.now ≡ reference_text self.now }
    {
        match self {
            Reference::Borrowed(text) => text,
            Reference::Copied(text) => text,
        }
    }

    /// The text for as long as the input lives: borrowed from it, or else a copy of what the buffer
    /// holds. The only error is `ErrorCode::NoMemory`.
    ///
    /// So the buffer is free for the next string: of `"a\n"` the text `a` and a line feed is owned.
    pub fn to_cow(self, alloc: Global) -> Result<CowStr<'b>>
        ensures text { IfOk result (λ text. cow_str_bytes text ≡ reference_text self.entry) }
        ensures borrowed { IfOk result (λ text. IsBorrowedStr text ↔ IsBorrowed self.entry) }
        ensures err { IfErr result (λ error. IsPlainError error ErrorCode.NoMemory) }
        ensures memory { OnErr result (¬ IsBorrowed self.entry) }
    {
        match self {
            Reference::Borrowed(text) => Ok(CowStr::Borrowed(text)),
            Reference::Copied(text) => match String::from_str(alloc, text) {
                Ok(text) => Ok(CowStr::Owned(text)),
                Err(_) => Err(Error::plain(ErrorCode::NoMemory)),
            },
        }
    }
}
