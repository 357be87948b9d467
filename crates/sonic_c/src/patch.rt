// The text of a document with a patch made on it.
ghost use Rattle.std.specs.Prelude.{◌≡◌, string_bytes, IfOk, IfErr, OnOk};
ghost use Rattle.sonic_patch.specs.Views.{operations_of};
ghost use Rattle.sonic_c.specs.Internal.Patches.{IsPatchErrorOf, TellsPatchError};
ghost use Rattle.sonic_c.specs.Internal.Texts.{OrOutOfMemory};
ghost use Rattle.sonic_c.specs.Patches.{ArePatch, IsPatchCall, IsPatchedText, IsUnpatched};

use crate::fault::{Fault, tell};
use crate::owned::{text_of, utf8_text, value_of};
use crate::room::write_text;
use crate::status::{BAD_OPERATION, BAD_PATCH, INTO_CHILD, MISSING, NO_MEMORY, TEST_FAILED};
use sonic_error::ErrorCode;
use sonic_patch::{Patch, PatchError, apply, read_patch};
use std::alloc::Global;

/// The text of the document with the operations of a patch made on it (RFC 6902), all or none: writes as
/// much of it as the room takes to the start of the room, and tells the length of the whole, in bytes.
///
/// What no operation changes keeps its text; what is opened for one is written without white space. A
/// patch that is none is `BAD_PATCH` or `BAD_OPERATION`, whatever the document is; what is no document is
/// `DOCUMENT_ERROR`; and the first operation that isn't made is `MISSING`, `TEST_FAILED` or `INTO_CHILD`.
/// Operations are counted from 0. Of `{"a":1}` and `[{"op":"remove","path":"/a"}]` it is `{}`.
#[unsafe(no_mangle)]
pub extern "C" fn jihluka_patch(
    alloc: Global,
    json: &[u8],
    patch: &[u8],
    room: &mut [u8],
    wanted: &mut usize,
    error: &mut Fault,
) -> u32
    ensures { IsPatchCall json.now patch.now
        (record { room = room.old; wanted = wanted.old; error = error.old })
        (record { room = room.new; wanted = wanted.new; error = error.new }) result }
{
    match patched(alloc, json, patch, error) {
        Ok(text) => write_text(text.as_str(), room, wanted),
        Err(status) => status,
    }
}

// The text of a document with a patch made on it, or the status, with what is told.
fn patched(alloc: Global, json: &[u8], patch: &[u8], error: &mut Fault) -> Result<String, u32>
    ensures made { IfOk result (λ text. IsPatchedText json.now patch.now (string_bytes text)) }
    ensures kept { OnOk result (error.new ≡ error.old) }
    ensures refused { IfErr result (OrOutOfMemory (IsUnpatched json.now patch.now) error.old error.new) }
{
    let patch = match patch_of(alloc, patch) {
        Ok(patch) => patch,
        Err(reason) => return Err(tell_patch(error, &reason)),
    };
    let mut value = match value_of(alloc, json) {
        Ok(value) => value,
        Err(reason) => return Err(tell(error, &reason)),
    };
    match apply(alloc, &mut value, &patch) {
        Ok(()) => text_of(alloc, &value),
        Err(reason) => Err(tell_patch(error, &reason)),
    }
}

// The patch that bytes in UTF-8 say.
fn patch_of(alloc: Global, bytes: &[u8]) -> Result<Patch, PatchError>
    ensures ok { IfOk result (λ patch. ArePatch bytes.now (operations_of patch)) }
    ensures err { IfErr result (IsPatchErrorOf bytes.now) }
{
    match utf8_text(alloc, bytes) {
        Ok(text) => read_patch(alloc, text),
        Err(error) => match error.code() {
            ErrorCode::NoMemory => Err(PatchError::NoMemory),
            _ => Err(PatchError::Json(error)),
        },
    }
}

// Tells an error of patches, unless memory ran out, and gives the status.
fn tell_patch(told: &mut Fault, error: &PatchError) -> u32
    ensures { TellsPatchError error.now told.old told.new result }
{
    let (status, number) = match error {
        PatchError::Json(reason) => {
            *told = Fault::of(reason);
            return BAD_PATCH;
        }
        PatchError::NoMemory => return NO_MEMORY,
        PatchError::NotArray => (BAD_PATCH, 0),
        PatchError::Shape { op } => (BAD_OPERATION, *op),
        PatchError::Pointer { op } => (BAD_OPERATION, *op),
        PatchError::TooLong { op } => (BAD_OPERATION, *op),
        PatchError::Missing { op } => (MISSING, *op),
        PatchError::TestFailed { op } => (TEST_FAILED, *op),
        PatchError::IntoChild { op } => (INTO_CHILD, *op),
    };
    *told = Fault::at_line(number);
    status
}
