//! What the command `edit` writes of an input: what the edits of its head make of its document.
ghost use Rattle.std.specs.Prelude.{map, true, IfOk, IfErr, OnOk};
ghost use Rattle.sonic_edits.specs.Edits.{edit_of};
ghost use Rattle.sonic_find.specs.Documents.{IsInvalidError, IsValidDocument};
ghost use Rattle.sonic_owned.specs.Owned.{IsRawDocument};
ghost use Rattle.sonic_owned.specs.Views.{form};
ghost use Rattle.sonic_reports.specs.Commands.Edits.{IsEditReport, ReportsEdits, ReportsMade};
ghost use Rattle.sonic_reports.specs.Internal.Replies.{text_of};

use crate::error_line::error_reply;
use crate::reply::Reply;
use crate::status::Status;
use sonic_edits::{Edit, EditHead, edit_all, read_edits};
use sonic_lazy::validate;
use sonic_owned::OwnedLazyValue;
use std::alloc::{AllocError, Global};
use std::borrow::CowStr;

// The report of an input. All memory that it takes is taken here.
pub(crate) fn report<'i>(alloc: Global, input: &[u8]) -> Result<Reply<'i>, AllocError>
    ensures { IfOk result (λ reply. IsEditReport input.now (text_of reply) reply.status) }
{
    match read_edits(alloc, input)? {
        EditHead::Edits(edits, document) => report_edits(alloc, &input[document..], edits),
        EditHead::Bad(number) => {
            let line = format!(in alloc; "! edits {number}\n")?;
            Ok(Reply::one(alloc, Status::BadLines, CowStr::Owned(line)))
        }
    }
}

// The report of a document, in which the edits are made.
fn report_edits<'i>(
    alloc: Global,
    document: &[u8],
    edits: Vec<Edit>,
) -> Result<Reply<'i>, AllocError>
    ensures { IfOk result (λ reply.
        ReportsEdits document.now (map edit_of edits.items) (text_of reply) reply.status) }
{
    match read(alloc, document) {
        Ok(value) => report_made(alloc, value, edits),
        Err(error) => error_reply(alloc, &error),
    }
}

// The value of a whole document.
pub(crate) fn read(alloc: Global, document: &[u8]) -> sonic_error::Result<OwnedLazyValue>
    ensures ok { IfOk result (λ value. IsRawDocument document.now (form value)) }
    ensures valid { OnOk result (IsValidDocument document.now) }
    ensures err { IfErr result (IsInvalidError document.now true) }
{
    if let Ok(text) = simdutf8::compat::from_utf8(document) {
        return OwnedLazyValue::from_str(alloc, text);
    }
    match validate(alloc, document) {
        Err(error) => Err(error),
        // What is valid is in UTF-8.
        Ok(()) => unreachable!(),
    }
}

// The report of a value, in which the edits are made.
fn report_made<'i>(
    alloc: Global,
    mut value: OwnedLazyValue,
    edits: Vec<Edit>,
) -> Result<Reply<'i>, AllocError>
    ensures { IfOk result (λ reply.
        ReportsMade (form value) (map edit_of edits.items) (text_of reply) reply.status) }
{
    match edit_all(alloc, &mut value, edits)? {
        Some(number) => {
            let line = format!(in alloc; "! edit {number}\n")?;
            Ok(Reply::one(alloc, Status::DocumentError, CowStr::Owned(line)))
        }
        None => {
            let text = format!(in alloc; "{value}\n")?;
            Ok(Reply::one(alloc, Status::Done, CowStr::Owned(text)))
        }
    }
}
