//! What the command `lines` writes of an input: a row for each line after its head that isn't blank.
ghost use Rattle.std.specs.Prelude.{IfOk};
ghost use Rattle.sonic_reports.specs.Commands.Rows.{IsLinesReport, ReportsRows};
ghost use Rattle.sonic_reports.specs.Internal.Replies.{text_of};

use crate::commands::get::report_bad_line;
use crate::reply::Reply;
use crate::status::Status;
use sonic_lines::append_rows;
use sonic_paths::{Head, read_paths};
use sonic_pointer::PointerTree;
use std::alloc::{AllocError, Global};

// The report of an input. All memory that it takes is taken here.
pub(crate) fn report<'i>(alloc: Global, input: &[u8]) -> Result<Reply<'i>, AllocError>
    ensures { IfOk result (λ reply. IsLinesReport input.now (text_of reply) reply.status) }
{
    match read_paths(alloc, input)? {
        Head::Paths(tree, stream) => report_rows(alloc, &input[stream..], &tree),
        Head::Bad(number) => report_bad_line(alloc, number),
    }
}

// The report of a stream, in each line of which the paths of a tree are followed.
fn report_rows<'i>(
    alloc: Global,
    stream: &[u8],
    tree: &PointerTree,
) -> Result<Reply<'i>, AllocError>
    ensures { IfOk result (λ reply. ReportsRows stream.now tree.now (text_of reply) reply.status) }
{
    let mut rows = Vec::new(alloc);
    let status = if append_rows(alloc, tree, 0, stream, &mut rows)? {
        Status::DocumentError
    } else {
        Status::Done
    };
    Ok(Reply::of_bytes(alloc, status, rows))
}
