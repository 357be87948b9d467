// The value that a text is, with white space round it.
ghost use Rattle.std.specs.Prelude.{◌≡◌, false, IfOk, IfErr};
ghost use Rattle.sonic_error.specs.Errors.{IsPlainError};
ghost use Rattle.sonic_text.specs.Strings.{strict};
ghost use Rattle.sonic_parser.specs.Honest.{IsHonest};
ghost use Rattle.sonic_find.specs.Documents.{IsValidDocument, IsInvalidError, IsDocumentValue};
ghost use Rattle.sonic_lazy.specs.LazyValues.{raw_bytes};

use crate::lazyvalue::LazyValue;
use sonic_error::{Error, ErrorCode};
use sonic_find::internal::pass_alone;
use sonic_input::{JsonSlice, Read};
use std::alloc::Global;

/// The value that a text is, with nothing but white space round it (RFC 8259, section 2).
///
/// Else the error is the first of these: the fault of the value, and
/// `ErrorCode::TrailingCharacters` at the first byte after it that is no white space. Running out of
/// memory is `ErrorCode::NoMemory` without a place.
///
/// Of ` [1, 2] ` it is `[1, 2]`, and of `[1] x` the error has the offset 4.
pub fn from_str<'de>(alloc: Global, json: &'de str) -> Result<LazyValue<'de>, Error>
    ensures ok { IfOk result (λ value. IsDocumentValue json.now (raw_bytes value)) }
    ensures err { IfErr result (IsInvalidError json.now false) }
    ensures complete { IsValidDocument json.now
        → IfErr result (λ error. IsPlainError error ErrorCode.NoMemory) }
    ensures honest { IfErr result (IsHonest strict json.now 0) }
{
    let text = json.as_bytes();
    match pass_alone(alloc, Read::unscanned(JsonSlice::Raw(text))) {
        Ok(found) => Ok(LazyValue::at(json, found)),
        Err(fault) => Err(fault.error(text)),
    }
}
