//! What the command `fast` writes of an input: what `get` writes of it, where its document is valid as a whole.
ghost use Rattle.std.specs.Prelude.{true, IfOk, IfErr};
ghost use Rattle.sonic_find.specs.Causes.{IsRefusal};
ghost use Rattle.sonic_lazy.specs.Shown.{AreValues};
ghost use Rattle.sonic_text.specs.Documents.{StartsWithUtf8Value};
ghost use Rattle.sonic_reports.specs.Commands.Fast.{IsFastReport, ReportsValid};
ghost use Rattle.sonic_reports.specs.Internal.Replies.{text_of};

use crate::commands::get::{report_answer, report_bad_line};
use crate::reply::Reply;
use sonic_error::Error;
use sonic_lazy::{LazyValue, get_many, get_many_unchecked, validate};
use sonic_paths::{Head, read_paths};
use sonic_pointer::PointerTree;
use std::alloc::{AllocError, Global};

// The most paths that are followed one by one.
const FEW: usize = 4;

// The report of an input. All memory that it takes is taken here.
pub(crate) fn report<'i>(alloc: Global, input: &'i [u8]) -> Result<Reply<'i>, AllocError>
    ensures { IfOk result (λ reply. IsFastReport input.now (text_of reply) reply.status) }
{
    match read_paths(alloc, input)? {
        Head::Paths(tree, document) => report_valid(alloc, &input[document..], &tree),
        Head::Bad(number) => report_bad_line(alloc, number),
    }
}

// The report of a document, in which the paths of a tree are followed once it is known to be valid.
fn report_valid<'i>(
    alloc: Global,
    document: &'i [u8],
    tree: &PointerTree,
) -> Result<Reply<'i>, AllocError>
    ensures { IfOk result (λ reply. ReportsValid document.now tree.now (text_of reply) reply.status) }
{
    match validate(alloc, document) {
        Ok(()) => report_answer(alloc, follow(alloc, document, tree)),
        Err(error) => report_answer(alloc, Err(error)),
    }
}

// What the paths of a tree lead to, in a document that begins with a value in UTF-8. Where there are
// many, one walk that looks at all again finds them: they come with the input, and the time mustn't
// grow with their number.
fn follow<'i>(
    alloc: Global,
    document: &'i [u8],
    tree: &PointerTree,
) -> Result<Vec<Option<LazyValue<'i>>>, Error>
    requires { StartsWithUtf8Value document.now }
    ensures ok { IfOk result (λ values. AreValues document.now true tree.now values.items) }
    ensures err { IfErr result (IsRefusal document.now true tree.now) }
{
    if tree.size() <= FEW {
        get_many_unchecked(alloc, document, tree)
    } else {
        get_many(alloc, document, tree)
    }
}
