//! What the commands `min` and `indent` write of an input: a text of the document that it is.
ghost use Rattle.std.specs.Prelude.{◌≡◌, ◌≤◌, ◌++◌, codes, string_bytes, IfOk};
ghost use Rattle.sonic_reports.specs.declared.status.Status.{Status};
ghost use Rattle.sonic_reports.specs.Commands.{most_blanks};
ghost use Rattle.sonic_reports.specs.Commands.Texts.{IsMinReport, IsIndentReport};
ghost use Rattle.sonic_reports.specs.Internal.Replies.{text_of};

use crate::error_line::error_reply;
use crate::reply::Reply;
use crate::status::Status;
use sonic_min::{indent, minify};
use std::alloc::{AllocError, Global};
use std::borrow::CowStr;

// The report of `min`. All memory that it takes is taken here.
pub(crate) fn minified<'i>(alloc: Global, input: &[u8]) -> Result<Reply<'i>, AllocError>
    ensures { IfOk result (λ reply. IsMinReport input.now (text_of reply) reply.status) }
{
    match minify(alloc, input) {
        Ok(text) => report(alloc, text),
        Err(error) => error_reply(alloc, &error),
    }
}

// The report of `indent`, with so many blanks for each level of depth. All memory that it takes is taken
// here.
pub(crate) fn indented<'i>(
    alloc: Global,
    input: &[u8],
    width: usize,
) -> Result<Reply<'i>, AllocError>
    requires { width ≤ most_blanks }
    ensures { IfOk result (λ reply. IsIndentReport width input.now (text_of reply) reply.status) }
{
    match indent(alloc, input, width) {
        Ok(text) => report(alloc, text),
        Err(error) => error_reply(alloc, &error),
    }
}

// The report of a text of the document: a line feed ends it.
fn report<'i>(alloc: Global, mut text: String) -> Result<Reply<'i>, AllocError>
    ensures text { IfOk result (λ reply. text_of reply ≡ string_bytes text ++ codes "\n") }
    ensures status { IfOk result (λ reply. reply.status ≡ Status.Done) }
{
    text.push('\n')?;
    Ok(Reply::one(alloc, Status::Done, CowStr::Owned(text)))
}
