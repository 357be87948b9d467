//! What the command `index` writes of an input: a line for each value of the document that it is.
ghost use Rattle.std.specs.Prelude.{IfOk};
ghost use Rattle.sonic_reports.specs.Commands.Entries.{IsIndexReport};
ghost use Rattle.sonic_reports.specs.Internal.Replies.{text_of};

use crate::error_line::error_reply;
use crate::reply::{Lines, Reply};
use crate::status::Status;
use sonic_index::JsonIndex;
use std::alloc::{AllocError, Global};
use std::borrow::CowStr;

// The report of an input. All memory that it takes is taken here.
pub(crate) fn report<'i>(alloc: Global, input: &'i [u8]) -> Result<Reply<'i>, AllocError>
    ensures { IfOk result (λ reply. IsIndexReport input.now (text_of reply) reply.status) }
{
    match JsonIndex::build(alloc, input) {
        Ok(index) => {
            let lines = Lines::Entries(index);
            Reply::of_lines(alloc, Status::Done, lines, CowStr::Borrowed(""))
        }
        Err(error) => error_reply(alloc, &error),
    }
}
