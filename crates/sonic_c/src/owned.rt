// The value of a document that is to be changed, and its text.
ghost use Rattle.std.specs.Prelude.{◌≡◌, true, string_bytes, IfOk, IfErr, OnOk};
ghost use Rattle.std.specs.Str.{IsUtf8};
ghost use Rattle.sonic_find.specs.Documents.{IsInvalidError, IsValidDocument};
ghost use Rattle.sonic_owned.specs.Forms.{text};
ghost use Rattle.sonic_owned.specs.Owned.{IsRawDocument};
ghost use Rattle.sonic_owned.specs.Views.{form};
ghost use Rattle.sonic_c.specs.Statuses.{status_no_memory};

use crate::status::NO_MEMORY;
use sonic_error::Result;
use sonic_find::validate;
use sonic_owned::OwnedLazyValue;
use std::alloc::Global;

// The text that bytes in UTF-8 are, or why they are no document.
pub(crate) fn utf8_text(alloc: Global, bytes: &[u8]) -> Result<&str>
    ensures ok { IfOk result (λ text. text.now ≡ bytes.now) }
    ensures utf8 { OnOk result (IsUtf8 bytes.now) }
    ensures err { IfErr result (IsInvalidError bytes.now true) }
{
    if let Ok(text) = simdutf8::compat::from_utf8(bytes) {
        return Ok(text);
    }
    match validate(alloc, bytes) {
        Err(error) => Err(error),
        // What is valid is in UTF-8.
        Ok(()) => unreachable!(),
    }
}

// The value of a whole document.
pub(crate) fn value_of(alloc: Global, json: &[u8]) -> Result<OwnedLazyValue>
    ensures ok { IfOk result (λ value. IsRawDocument json.now (form value)) }
    ensures valid { OnOk result (IsValidDocument json.now) }
    ensures err { IfErr result (IsInvalidError json.now true) }
{
    match utf8_text(alloc, json) {
        Ok(text) => OwnedLazyValue::from_str(alloc, text),
        Err(error) => Err(error),
    }
}

// The text of a value, or the status.
pub(crate) fn text_of(alloc: Global, value: &OwnedLazyValue) -> std::result::Result<String, u32>
    ensures ok { IfOk result (λ made. string_bytes made ≡ text (form value.now)) }
    ensures err { IfErr result (λ status. status ≡ status_no_memory) }
{
    match value.to_string(alloc) {
        Ok(text) => Ok(text),
        Err(_) => Err(NO_MEMORY),
    }
}
