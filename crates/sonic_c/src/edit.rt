// The text of a document with edits made in it.
ghost use Rattle.std.specs.Prelude.{◌≡◌, map, string_bytes, IfOk, IfErr, OnOk};
ghost use Rattle.sonic_edits.specs.Edits.{edit_of};
ghost use Rattle.sonic_c.specs.Changes.{AreNoEdits, IsEditCall, IsEditedText, IsUnedited, SayEdits};
ghost use Rattle.sonic_c.specs.Internal.Texts.{OrOutOfMemory};

use crate::fault::{Fault, tell};
use crate::owned::{text_of, value_of};
use crate::room::write_text;
use crate::status::{BAD_LINES, EDIT_REFUSED, NO_MEMORY};
use sonic_edits::{Edit, EditHead, edit_all, read_edits};
use std::alloc::Global;

/// The text of the document with edits made in it, all or none: writes as much of it as the room takes to
/// the start of the room, and tells the length of the whole, in bytes.
///
/// `edits` has an edit on each line, `["set",PATH,VALUE]`, `["push",PATH,VALUE]`, `["pair",PATH,KEY,VALUE]`
/// or `["take",PATH]`; no line among them is blank. A line that says none is `BAD_LINES`, whatever the
/// document is; what is no document is `DOCUMENT_ERROR`; and the first edit that makes nothing of it is
/// `EDIT_REFUSED`. Lines and edits are counted from 1. Of `{"a":[1]}` and `["push",["a"],2]` it is
/// `{"a":[1,2]}`.
#[unsafe(no_mangle)]
pub extern "C" fn jihluka_edit(
    alloc: Global,
    json: &[u8],
    edits: &[u8],
    room: &mut [u8],
    wanted: &mut usize,
    error: &mut Fault,
) -> u32
    ensures { IsEditCall json.now edits.now
        (record { room = room.old; wanted = wanted.old; error = error.old })
        (record { room = room.new; wanted = wanted.new; error = error.new }) result }
{
    match edited(alloc, json, edits, error) {
        Ok(text) => write_text(text.as_str(), room, wanted),
        Err(status) => status,
    }
}

// The text of a document with the edits that lines say, or the status, with what is told.
fn edited(alloc: Global, json: &[u8], lines: &[u8], error: &mut Fault) -> Result<String, u32>
    ensures made { IfOk result (λ text. IsEditedText json.now lines.now (string_bytes text)) }
    ensures kept { OnOk result (error.new ≡ error.old) }
    ensures refused { IfErr result (OrOutOfMemory (IsUnedited json.now lines.now) error.old error.new) }
{
    let edits = match edits_of(alloc, lines, error) {
        Ok(edits) => edits,
        Err(status) => return Err(status),
    };
    let mut value = match value_of(alloc, json) {
        Ok(value) => value,
        Err(reason) => return Err(tell(error, &reason)),
    };
    match edit_all(alloc, &mut value, edits) {
        Ok(None) => text_of(alloc, &value),
        Ok(Some(number)) => {
            *error = Fault::at_line(number);
            Err(EDIT_REFUSED)
        }
        Err(_) => Err(NO_MEMORY),
    }
}

// The edits that lines say, or the status, with what is told.
fn edits_of(alloc: Global, lines: &[u8], error: &mut Fault) -> Result<Vec<Edit>, u32>
    ensures say { IfOk result (λ edits. SayEdits lines.now (map edit_of edits.items)) }
    ensures kept { OnOk result (error.new ≡ error.old) }
    ensures refused { IfErr result (OrOutOfMemory (AreNoEdits lines.now) error.old error.new) }
{
    let Ok(head) = read_edits(alloc, lines) else {
        return Err(NO_MEMORY);
    };
    let (edits, end) = match head {
        EditHead::Edits(edits, end) => (edits, end),
        EditHead::Bad(line) => {
            *error = Fault::at_line(line);
            return Err(BAD_LINES);
        }
    };
    if end < lines.len() {
        *error = Fault::at_line(edits.as_slice().len() + 1);
        return Err(BAD_LINES);
    }
    Ok(edits)
}
