// Plain values, read whole in one pass.
ghost use Rattle.std.specs.Prelude.{◌≡◌, ◌+◌, ◌≤◌, ℕ, Bool, true, false, length, IfOk, IfErr, IsTrue};
ghost use Rattle.std.specs.Str.{IsUtf8};
ghost use Rattle.sonic_error.specs.Errors.{IsPlainError};
ghost use Rattle.sonic_find.specs.Documents.{IsValidDocument};
ghost use Rattle.sonic_parser.specs.Faults.{IsStopFor};
ghost use Rattle.sonic_text.specs.Places.{byte, after_space};
ghost use Rattle.sonic_text.specs.Values.{opening};
ghost use Rattle.sonic_value.specs.Depths.{IsShallow};
ghost use Rattle.sonic_value.specs.Internal.Readers.{IsValueRead, IsUnreadValue, IsDocumentRead};
ghost use Rattle.sonic_value.specs.Reading.{IsRead, IsUnread, IsUnreadError};
ghost use Rattle.sonic_value.specs.Views.{tree};

use crate::Value;
use crate::reader::Reader;
use sonic_error::{ErrorCode, Result};
use sonic_parser::Fault;
use sonic_text::{Kind, Stop};
use std::alloc::Global;

// How many containers may be open at once.
pub(crate) const MAX_DEPTH: usize = 255;

impl Value {
    /// The value that a text is, with nothing but white space round it (RFC 8259, section 2), read
    /// whole.
    ///
    /// Members keep their order and their repeats, numbers their text, and strings are what they
    /// denote. Up to 255 containers may be open at once.
    ///
    /// Else the error is the first of these: `ErrorCode::RecursionLimitExceeded` at the first bracket
    /// that opens one more; the fault of the value; and `ErrorCode::TrailingCharacters` at the first
    /// byte after it that is no white space. Running out of memory is `ErrorCode::NoMemory` without a
    /// place.
    ///
    /// ```text
    /// let value = Value::from_str(alloc, " {\"a\" : [1.0, true], \"a\" : \"\\u0041\"}\n")?;
    /// assert_eq!(rt; &value.to_string(alloc)?[..], "{\"a\":[1.0,true],\"a\":\"A\"}");
    /// ```
    pub fn from_str(alloc: Global, json: &str) -> Result<Value>
        ensures ok { IfOk result (λ made. IsRead json.now (tree made)) }
        ensures err { IfErr result (IsUnreadError json.now false) }
        ensures complete { IsValidDocument json.now → IsShallow json.now 255 (after_space json.now 0)
            → IfErr result (λ error. IsPlainError error ErrorCode.NoMemory) }
    {
        let text = json.as_bytes();
        match read_document(alloc, text, true) {
            Ok(value) => Ok(value),
            Err(fault) => Err(fault.error(text)),
        }
    }

    /// The same for bytes that may be no UTF-8.
    ///
    /// After the errors of [`Value::from_str`] comes `ErrorCode::InvalidUTF8` at the first broken place
    /// of all bytes. So of `"\xff" x` the error is `ErrorCode::TrailingCharacters` at 4, and without the
    /// `x` it is `ErrorCode::InvalidUTF8` at 1.
    pub fn from_slice(alloc: Global, json: &[u8]) -> Result<Value>
        ensures ok { IfOk result (λ made. IsRead json.now (tree made)) }
        ensures err { IfErr result (IsUnreadError json.now true) }
        ensures complete { IsValidDocument json.now → IsShallow json.now 255 (after_space json.now 0)
            → IfErr result (λ error. IsPlainError error ErrorCode.NoMemory) }
    {
        match read_bytes(alloc, json) {
            Ok(value) => Ok(value),
            Err(fault) => Err(fault.error(json)),
        }
    }
}

// The value that a text of bytes is.
fn read_bytes(alloc: Global, text: &[u8]) -> std::result::Result<Value, Fault>
    ensures ok { IfOk result (λ made. IsRead text.now (tree made)) }
    ensures err { IfErr result (IsStopFor (IsUnread text.now true)) }
    ensures within { IfErr result (IsStopFor (λ s. s.place ≤ length text.now)) }
{
    match simdutf8::compat::from_utf8(text) {
        Ok(_) => read_document(alloc, text, true),
        Err(error) => {
            read_document(alloc, text, false)?;
            let place = error.valid_up_to();
            let code = ErrorCode::InvalidUTF8;
            Err(Fault::At(Stop { place, code }))
        }
    }
}

// The value that a text is, which is UTF-8 where this says so.
fn read_document(alloc: Global, text: &[u8], utf8: bool) -> std::result::Result<Value, Fault>
    requires { IsTrue utf8 → IsUtf8 text.now }
    ensures ok { IfOk result (λ made. IsDocumentRead
        (record { text = text.now; is_utf8 = utf8 }) (tree made)) }
    ensures err { IfErr result (IsStopFor (λ s. (is_bytes : Bool) → IsUnread text.now is_bytes s)) }
    ensures within { IfErr result (IsStopFor (λ s. s.place ≤ length text.now)) }
{
    let mut reader = Reader::at(alloc, text, 0, utf8);
    reader.skip_space();
    let value = read_value(&mut reader, MAX_DEPTH)?;
    reader.skip_space();
    let place = reader.place();
    if place < text.len() {
        let code = ErrorCode::TrailingCharacters;
        return Err(Fault::At(Stop { place, code }));
    }
    Ok(value)
}

// Reads the value at the cursor, inside which so many containers may be open at once.
#[cycle(read)]
pub(crate) fn read_value(
    reader: &mut Reader<'_>,
    depth_left: usize,
) -> std::result::Result<Value, Fault>
    ensures ok { IfOk result (λ made.
        IsValueRead reader.old.source depth_left reader.old.place reader.new.place (tree made)) }
    ensures moved { reader.new ≡ record reader.old { place = reader.new.place } }
    ensures err { IfErr result (IsStopFor (IsUnreadValue reader.old.source.text depth_left reader.old.place)) }
{
    let Some(kind) = reader.container() else {
        return reader.scalar();
    };
    if depth_left == 0 {
        let place = reader.place();
        let code = ErrorCode::RecursionLimitExceeded;
        return Err(Fault::At(Stop { place, code }));
    }
    match kind {
        Kind::Array => read_array(reader, depth_left - 1),
        Kind::Object => read_object(reader, depth_left - 1),
    }
}

// Reads the array at the cursor, inside whose elements so many containers may be open at once.
#[cycle(read)]
fn read_array(reader: &mut Reader<'_>, depth_left: usize) -> std::result::Result<Value, Fault>
    requires { byte reader.old.source.text reader.old.place ≡ opening Kind.Array }
    ensures ok { IfOk result (λ made.
        IsValueRead reader.old.source (depth_left + 1) reader.old.place reader.new.place (tree made)) }
    ensures moved { reader.new ≡ record reader.old { place = reader.new.place } }
    ensures err { IfErr result (IsStopFor (IsUnreadValue reader.old.source.text (depth_left + 1) reader.old.place)) }
{
    let mut elements = Vec::new(reader.alloc());
    let mut more = reader.enter(Kind::Array);
    while more {
        elements.push(read_value(reader, depth_left)?)?;
        more = reader.next_item(Kind::Array)?;
    }
    Ok(Value::Array(elements))
}

// Reads the object at the cursor, in the same way.
#[cycle(read)]
fn read_object(reader: &mut Reader<'_>, depth_left: usize) -> std::result::Result<Value, Fault>
    requires { byte reader.old.source.text reader.old.place ≡ opening Kind.Object }
    ensures ok { IfOk result (λ made.
        IsValueRead reader.old.source (depth_left + 1) reader.old.place reader.new.place (tree made)) }
    ensures moved { reader.new ≡ record reader.old { place = reader.new.place } }
    ensures err { IfErr result (IsStopFor (IsUnreadValue reader.old.source.text (depth_left + 1) reader.old.place)) }
{
    let mut members = Vec::new(reader.alloc());
    let mut more = reader.enter(Kind::Object);
    while more {
        let key = reader.key()?;
        members.push((key, read_value(reader, depth_left)?))?;
        more = reader.next_item(Kind::Object)?;
    }
    Ok(Value::Object(members))
}
