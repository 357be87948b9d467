//! What the command `get` writes of an input: where the paths of its head lead in the document.
ghost use Rattle.std.specs.Prelude.{IfOk};
ghost use Rattle.sonic_reports.specs.Commands.Get.{IsGetReport, ReportsPathsBy};
ghost use Rattle.sonic_reports.specs.Internal.Replies.{text_of, IsBadLineReply, IsAnswerReply};

use crate::error_line::error_reply;
use crate::reply::{Lines, Reply};
use crate::status::Status;
use sonic_error::Error;
use sonic_lazy::{LazyValue, get_many_with};
use sonic_paths::{Head, read_paths};
use sonic_pointer::{KeyRule, PointerTree};
use std::alloc::{AllocError, Global};
use std::borrow::CowStr;

// The report of an input under a rule for equal keys. All memory that it takes is taken here.
pub(crate) fn report<'i>(
    alloc: Global,
    input: &'i [u8],
    rule: KeyRule,
) -> Result<Reply<'i>, AllocError>
    ensures { IfOk result (λ reply. IsGetReport rule input.now (text_of reply) reply.status) }
{
    match read_paths(alloc, input)? {
        Head::Paths(tree, document) => report_paths(alloc, &input[document..], &tree, rule),
        Head::Bad(number) => report_bad_line(alloc, number),
    }
}

// The report of the first bad line of a head.
pub(crate) fn report_bad_line<'i>(alloc: Global, number: usize) -> Result<Reply<'i>, AllocError>
    ensures { IfOk result (IsBadLineReply number) }
{
    let line = format!(in alloc; "! paths {number}\n")?;
    Ok(Reply::one(alloc, Status::BadLines, CowStr::Owned(line)))
}

// The report of a document, in which the paths of a tree are followed.
fn report_paths<'i>(
    alloc: Global,
    document: &'i [u8],
    tree: &PointerTree,
    rule: KeyRule,
) -> Result<Reply<'i>, AllocError>
    ensures { IfOk result (λ reply. ReportsPathsBy rule document.now tree.now (text_of reply) reply.status) }
{
    report_answer(alloc, get_many_with(alloc, document, tree, rule))
}

// The report of what many paths are answered.
pub(crate) fn report_answer<'i>(
    alloc: Global,
    answer: Result<Vec<Option<LazyValue<'i>>>, Error>,
) -> Result<Reply<'i>, AllocError>
    ensures { IfOk result (IsAnswerReply answer.entry) }
{
    match answer {
        Ok(values) => {
            let lines = Lines::Values(values);
            Reply::of_lines(alloc, Status::Done, lines, CowStr::Borrowed(""))
        }
        Err(error) => error_reply(alloc, &error),
    }
}
