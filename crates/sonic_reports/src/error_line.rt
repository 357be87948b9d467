//! The line that says an error of a document.
ghost use Rattle.std.specs.Prelude.{◌≡◌, string_bytes, IfOk};
ghost use Rattle.std.specs.Cow.{cow_str_bytes};
ghost use Rattle.sonic_error.specs.Errors.{error_line, error_column, error_offset};
ghost use Rattle.sonic_reports.specs.ErrorLines.{position_text};
ghost use Rattle.sonic_reports.specs.Internal.Replies.{IsErrorReply, IsLineOf};

use crate::reply::Reply;
use crate::status::Status;
use sonic_error::{Error, ErrorCode};
use std::alloc::{AllocError, Global};
use std::borrow::CowStr;

// The line of an error, unless memory ran out.
pub(crate) fn error_line<'i>(alloc: Global, error: &Error) -> Result<CowStr<'i>, AllocError>
    ensures { IfOk result (λ line. IsLineOf (cow_str_bytes line) error.now) }
{
    if let ErrorCode::NoMemory = error.code() {
        return Err(AllocError);
    }
    let word = error.classify().word();
    let name = error.code().name();
    let position = position(alloc, error)?;
    let line = format!(in alloc; "! {word} {name} {position}\n")?;
    Ok(CowStr::Owned(line))
}

// The report of an error alone, unless memory ran out.
pub(crate) fn error_reply<'i>(alloc: Global, error: &Error) -> Result<Reply<'i>, AllocError>
    ensures { IfOk result (IsErrorReply error.now) }
{
    let line = error_line(alloc, error)?;
    Ok(Reply::one(alloc, Status::DocumentError, line))
}

// The line, the column and the offset of an error.
fn position(alloc: Global, error: &Error) -> Result<String, AllocError>
    ensures { IfOk result (λ text. string_bytes text ≡ position_text
        (error_line error.now) (error_column error.now) (error_offset error.now)) }
{
    let (line, column, offset) = (error.line(), error.column(), error.offset());
    let start = format!(in alloc; "{line} {column}")?;
    let text = format!(in alloc; "{start} {offset}")?;
    Ok(text)
}
