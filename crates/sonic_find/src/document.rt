// Whether an input is one value with white space round it, in UTF-8.
ghost use Rattle.std.specs.Prelude.{◌≡◌, ◌≤◌, Bool, length, IfOk, IfErr, OnOk, IsFalse};
ghost use Rattle.std.specs.Str.{IsUtf8};
ghost use Rattle.sonic_error.specs.Errors.{IsPlainError};
ghost use Rattle.sonic_text.specs.Documents.{IsRootFault, StartsWithUtf8Value};
ghost use Rattle.sonic_text.specs.Strings.{strict};
ghost use Rattle.sonic_parser.specs.Faults.{IsStopFor};
ghost use Rattle.sonic_parser.specs.Honest.{IsHonest};
ghost use Rattle.sonic_parser.specs.ValueSpans.{FlagsEscape};
ghost use Rattle.sonic_find.specs.Documents.{IsAlone, IsValidDocument, IsInvalid, IsInvalidError};
ghost use Rattle.sonic_find.specs.Internal.Roots.{IsRoot};

use crate::utf8::check;
use sonic_error::{Error, ErrorCode};
use sonic_input::{JsonInput, Read};
use sonic_parser::{Fault, Parser, ValueSpan};
use sonic_text::Stop;
use std::alloc::Global;

// The root, and the place after the white space that follows it.
#[derive(Clone, Copy)]
struct Root {
    value: ValueSpan,
    after: usize,
}

// Passes the root and the white space after it.
fn pass_root(alloc: Global, read: Read<'_>) -> Result<Root, Fault>
    requires { read.place ≡ 0 }
    ensures ok { IfOk result (IsRoot read.entry.text) }
    ensures inside { IfOk result (λ root. root.after ≤ length read.entry.text) }
    ensures err { IfErr result (IsStopFor (IsRootFault read.entry.text)) }
    ensures within { IfErr result (IsStopFor (λ s. s.place ≤ length read.entry.text)) }
{
    let mut parser = Parser::new(read);
    parser.skip_space_peek();
    let value = parser.skip_value(alloc)?;
    parser.skip_space_peek();
    let after = parser.offset();
    Ok(Root { value, after })
}

/// Where the one value is that a text is, with nothing but white space round it, or the reason why
/// the text is none.
///
/// Nothing is looked at for its UTF-8. It is what `from_str` and `RawNumber::from_str` of
/// `sonic_lazy` read. Of ` [1, 2] ` it is from 1 to 7, and of `[1] x` the stop is at 4.
pub fn pass_alone(alloc: Global, read: Read<'_>) -> Result<ValueSpan, Fault>
    requires { read.place ≡ 0 }
    ensures ok { IfOk result (λ x. IsAlone read.entry.text x.start x.end) }
    ensures escaped { IfOk result (FlagsEscape read.entry.text) }
    ensures err { IfErr result (IsStopFor (λ s. (is_bytes : Bool) → IsInvalid read.entry.text is_bytes s)) }
    ensures within { IfErr result (IsStopFor (λ s. s.place ≤ length read.entry.text)) }
{
    let text = read.as_u8_slice();
    let Root {
        value,
        after: place,
    } = pass_root(alloc, read)?;
    if place < text.len() {
        let code = ErrorCode::TrailingCharacters;
        return Err(Fault::At(Stop { place, code }));
    }
    Ok(value)
}

// Passes a whole document, or stops at the reason why the text is none.
fn pass_document(alloc: Global, read: Read<'_>, is_bytes: bool) -> Result<(), Fault>
    requires start { read.place ≡ 0 }
    requires utf8 { IsFalse is_bytes → IsUtf8 read.text }
    ensures ok { OnOk result (IsValidDocument read.entry.text) }
    ensures err { IfErr result (IsStopFor (IsInvalid read.entry.text is_bytes)) }
    ensures within { IfErr result (IsStopFor (λ s. s.place ≤ length read.entry.text)) }
{
    let text = read.as_u8_slice();
    pass_alone(alloc, read)?;
    if is_bytes {
        check(text, text.len())?;
    }
    Ok(())
}

/// Whether an input is a valid document (RFC 8259, sections 2 and 8.1): one value with nothing but
/// white space round it, in UTF-8.
///
/// Else the error is the first of these: the fault of the value; `ErrorCode::TrailingCharacters` at
/// the first byte after it that is no white space; and, for `&[u8]` and `&Bytes`,
/// `ErrorCode::InvalidUTF8` at the first broken place of the whole input. Running out of memory is
/// `ErrorCode::NoMemory` without a place.
///
/// What is valid begins with a value in UTF-8, as the calls without a check ask for. ` [1, 2] ` is
/// valid, and of `[1] x` the error has the offset 4.
pub fn validate<'de, I: JsonInput<'de>>(alloc: Global, json: I) -> Result<(), Error>
    ensures ok { OnOk result (IsValidDocument (I.JsonInput.content json)) }
    ensures starts { OnOk result (StartsWithUtf8Value (I.JsonInput.content json)) }
    ensures err { IfErr result (λ error.
        IsInvalidError (I.JsonInput.content json) I.JsonInput.is_bytes error) }
    ensures complete { IsValidDocument (I.JsonInput.content json)
        → IfErr result (λ error. IsPlainError error ErrorCode.NoMemory) }
    ensures honest { IfErr result (IsHonest strict (I.JsonInput.content json) 0) }
{
    let text = json.to_u8_slice();
    let read = Read::unscanned(json.to_json_slice());
    match pass_document(alloc, read, json.need_utf8_valid()) {
        Ok(()) => Ok(()),
        Err(fault) => Err(fault.error(text)),
    }
}
