//! What the command `patch` writes of an input: what the patch in its first line makes of the rest.
ghost use Rattle.std.specs.Prelude.{◌≡◌, ◌++◌, codes, IfOk};
ghost use Rattle.std.specs.Fmt.{decimal};
ghost use Rattle.sonic_owned.specs.Views.{form};
ghost use Rattle.sonic_patch.specs.Views.{operations_of};
ghost use Rattle.sonic_reports.specs.declared.status.Status.{Status};
ghost use Rattle.sonic_reports.specs.Commands.Patches.{IsPatchReport, ReportsPatch, ReportsPatched};
ghost use Rattle.sonic_reports.specs.Internal.Replies.{text_of};

use crate::commands::edit::read;
use crate::commands::fill::after_line;
use crate::error_line::error_reply;
use crate::reply::Reply;
use crate::status::Status;
use sonic_owned::OwnedLazyValue;
use sonic_patch::{Patch, PatchError, apply, read_patch};
use sonic_paths::internal::find_line_end;
use std::alloc::{AllocError, Global};
use std::borrow::CowStr;

// The report of an input. All memory that it takes is taken here.
pub(crate) fn report<'i>(alloc: Global, input: &[u8]) -> Result<Reply<'i>, AllocError>
    ensures { IfOk result (λ reply. IsPatchReport input.now (text_of reply) reply.status) }
{
    let end = find_line_end(input, 0);
    let Ok(line) = simdutf8::compat::from_utf8(&input[..end]) else {
        return Ok(bad_patch(alloc));
    };
    match read_patch(alloc, line) {
        Ok(patch) => report_patch(alloc, after_line(input, end), &patch),
        Err(error) => match error {
            PatchError::NoMemory => Err(AllocError),
            _ => Ok(bad_patch(alloc)),
        },
    }
}

// The report of an input whose first line says no patch.
fn bad_patch<'i>(alloc: Global) -> Reply<'i>
    ensures text { text_of result ≡ codes "! patch 1\n" }
    ensures status { result.status ≡ Status.BadLines }
{
    Reply::one(alloc, Status::BadLines, CowStr::Borrowed("! patch 1\n"))
}

// The report of a document, on which the patch is applied.
fn report_patch<'i>(alloc: Global, document: &[u8], patch: &Patch) -> Result<Reply<'i>, AllocError>
    ensures { IfOk result (λ reply.
        ReportsPatch document.now (operations_of patch.now) (text_of reply) reply.status) }
{
    match read(alloc, document) {
        Ok(value) => report_patched(alloc, value, patch),
        Err(error) => error_reply(alloc, &error),
    }
}

// The report of a value, on which the patch is applied.
fn report_patched<'i>(
    alloc: Global,
    mut value: OwnedLazyValue,
    patch: &Patch,
) -> Result<Reply<'i>, AllocError>
    ensures { IfOk result (λ reply.
        ReportsPatched (form value) (operations_of patch.now) (text_of reply) reply.status) }
{
    match apply(alloc, &mut value, patch) {
        Ok(()) => {
            let text = format!(in alloc; "{value}\n")?;
            Ok(Reply::one(alloc, Status::Done, CowStr::Owned(text)))
        }
        Err(PatchError::Missing { op }) => unmade(alloc, op, "Missing"),
        Err(PatchError::TestFailed { op }) => unmade(alloc, op, "TestFailed"),
        Err(PatchError::IntoChild { op }) => unmade(alloc, op, "IntoChild"),
        Err(_) => Err(AllocError),
    }
}

// The report of an operation that isn't made, for this cause.
fn unmade<'i>(alloc: Global, op: usize, cause: &str) -> Result<Reply<'i>, AllocError>
    ensures text { IfOk result (λ reply. text_of reply
        ≡ codes "! op " ++ decimal op ++ codes " " ++ cause.now ++ codes "\n") }
    ensures status { IfOk result (λ reply. reply.status ≡ Status.DocumentError) }
{
    let line = format!(in alloc; "! op {op} {cause}\n")?;
    Ok(Reply::one(alloc, Status::DocumentError, CowStr::Owned(line)))
}
