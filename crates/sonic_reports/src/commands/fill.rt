//! What the command `fill` writes of an input: the schema in its first line, filled from the rest.
ghost use Rattle.std.specs.Prelude.{◌≡◌, IfOk, IfErr};
ghost use Rattle.sonic_reports.specs.Commands.Fills.{IsFillReport, ReportsFilled, after_first_line};
ghost use Rattle.sonic_reports.specs.Internal.Replies.{text_of};
ghost use Rattle.sonic_paths.specs.Heads.{line_end};
ghost use Rattle.sonic_value.specs.Views.{tree};

use crate::error_line::error_reply;
use crate::reply::Reply;
use crate::status::Status;
use sonic_error::ErrorCode;
use sonic_paths::internal::find_line_end;
use sonic_value::{Value, get_by_schema};
use std::alloc::{AllocError, Global};
use std::borrow::CowStr;

// The report of an input. All memory that it takes is taken here.
pub(crate) fn report<'i>(alloc: Global, input: &[u8]) -> Result<Reply<'i>, AllocError>
    ensures { IfOk result (λ reply. IsFillReport input.now (text_of reply) reply.status) }
{
    let end = find_line_end(input, 0);
    match Value::from_slice(alloc, &input[..end]) {
        Ok(schema) => report_filled(alloc, after_line(input, end), schema),
        Err(error) if matches!(error.code(), ErrorCode::NoMemory) => Err(AllocError),
        Err(_) => Ok(Reply::one(alloc, Status::BadLines, CowStr::Borrowed("! schema 1\n"))),
    }
}

// What comes after the first line, which ends there.
pub(crate) fn after_line(input: &[u8], end: usize) -> &[u8]
    requires { end ≡ line_end input.now 0 }
    ensures { result.now ≡ after_first_line input.now }
{
    if end < input.len() {
        &input[end + 1..]
    } else {
        &[]
    }
}

// The report of a document, from which the schema is filled.
fn report_filled<'i>(alloc: Global, document: &[u8], schema: Value) -> Result<Reply<'i>, AllocError>
    ensures { IfOk result (λ reply.
        ReportsFilled document.now (tree schema) (text_of reply) reply.status) }
{
    match get_by_schema(alloc, document, schema) {
        Ok(value) => {
            let text = format!(in alloc; "{value}\n")?;
            Ok(Reply::one(alloc, Status::Done, CowStr::Owned(text)))
        }
        Err(error) => error_reply(alloc, &error),
    }
}
