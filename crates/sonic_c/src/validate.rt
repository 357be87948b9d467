// Whether a text is a document.
ghost use Rattle.std.specs.Prelude.{◌≡◌, ◌≢◌, ◌⊎◌};
ghost use Rattle.sonic_find.specs.Documents.{IsValidDocument};
ghost use Rattle.sonic_text.specs.Documents.{StartsWithUtf8Value};
ghost use Rattle.sonic_c.specs.Statuses.{status_ok, status_document_error, status_no_memory};
ghost use Rattle.sonic_c.specs.Told.{TellsInvalid};

use crate::fault::{Fault, tell};
use crate::status::OK;
use sonic_find::validate;
use std::alloc::Global;

/// Whether the text is one value in UTF-8 with nothing but white space round it.
///
/// Else it is `DOCUMENT_ERROR`, and the error says why. A text that is so begins as
/// `jihluka_get_unchecked` and `jihluka_get_many_unchecked` ask for.
#[unsafe(no_mangle)]
pub extern "C" fn jihluka_validate(alloc: Global, json: &[u8], error: &mut Fault) -> u32
    ensures ok { result ≡ status_ok → IsValidDocument json.now }
    ensures starts { result ≡ status_ok → StartsWithUtf8Value json.now }
    ensures document_error { result ≡ status_document_error → TellsInvalid json.now error.new }
    ensures no_other { (result ≡ status_ok) ⊎ (result ≡ status_document_error) ⊎ (result ≡ status_no_memory) }
    ensures error_kept { result ≢ status_document_error → error.new ≡ error.old }
    ensures complete { IsValidDocument json.now → (result ≡ status_ok) ⊎ (result ≡ status_no_memory) }
{
    match validate(alloc, json) {
        Ok(()) => OK,
        Err(reason) => tell(error, &reason),
    }
}
