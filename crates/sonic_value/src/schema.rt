// Schemas that are filled, and the calls that do it.
ghost use Rattle.std.specs.Prelude.{◌≡◌, ◌≤◌, true, length, IfOk, IfErr, OnErr, OnOk, IsTrue};
ghost use Rattle.std.specs.Str.{IsUtf8};
ghost use Rattle.sonic_parser.specs.Faults.{IsStopFor};
ghost use Rattle.sonic_parser.specs.Parsers.{moved, value_start};
ghost use Rattle.sonic_text.specs.Places.{after_space};
ghost use Rattle.sonic_value.specs.Schemas.{IsFilled, IsFilledFrom, IsFillError, IsFillErrorFrom, IsUnfilled, IsFilledAt, IsObject};
ghost use Rattle.sonic_value.specs.Views.{tree};

use crate::Value;
use crate::fill::fill_value;
use crate::read::MAX_DEPTH;
use crate::reader::Reader;
use crate::value::copy;
use sonic_error::{ErrorCode, Note, Result};
use sonic_input::JsonInput;
use sonic_lazy::JsonValueTrait;
use sonic_parser::{Fault, Parser};
use sonic_text::Stop;
use std::alloc::Global;

/// A schema, filled from the value that begins a text after white space.
///
/// The schema is an object. An object with members is filled from an object: each member of the data
/// in order fills the value of the last one with its key, in the same way, and is passed where there
/// is none. All else is replaced, an empty object too. So what the schema lacks isn't kept, nor built,
/// and what the data lacks stays as the schema has it. What comes after the value isn't read.
///
/// The errors are: `Note::SchemaNotObject` at 0; the first bracket inside 255 others of a value that
/// takes the place of one, `ErrorCode::RecursionLimitExceeded`; the fault of the value; and for bytes
/// `ErrorCode::InvalidUTF8` at the first place before the value's end that is broken. Running out of
/// memory is `ErrorCode::NoMemory` without a place.
///
/// ```text
/// let schema = Value::from_str(alloc, "{\"a\":1,\"b\":[1],\"c\":{}}")?;
/// let json = "{\"o\":2,\"b\":[2],\"c\":{\"k\":1}}";
/// let made = get_by_schema(alloc, json, schema)?;
/// assert_eq!(rt; &made.to_string(alloc)?[..], "{\"a\":1,\"b\":[2],\"c\":{\"k\":1}}");
/// ```
pub fn get_by_schema<'de, I: JsonInput<'de>>(alloc: Global, json: I, schema: Value) -> Result<Value>
    ensures ok { IfOk result (λ made. IsFilled (I.JsonInput.content json) (tree schema) (tree made)) }
    ensures err { IfErr result (IsFillError (I.JsonInput.content json) I.JsonInput.is_bytes (tree schema)) }
{
    let utf8 = !json.need_utf8_valid();
    let text = json.to_u8_slice();
    match fill_document(alloc, text, 0, utf8, schema) {
        Ok(value) => Ok(value),
        Err(fault) => Err(fault.error(text)),
    }
}

/// The same from the value that a parser has next, which is read strictly, whatever way the parser
/// reads.
///
/// The parser moves after the value. After an error it is where it was. Each call looks at the whole
/// text for UTF-8.
///
/// Of `{"a":2} x` and the schema `{"a":1}` it is `{"a":2}`, with the cursor at 7.
pub fn parse_by_schema(alloc: Global, parser: &mut Parser<'_>, schema: Value) -> Result<Value>
    ensures ok { IfOk result (λ made. IsFilledFrom parser.old.text (tree schema) (tree made)
        (value_start parser.old) parser.new.place) }
    ensures moved { OnOk result (parser.new ≡ moved parser.old parser.new.place) }
    ensures err { IfErr result (IsFillErrorFrom parser.old.text true (tree schema) (value_start parser.old)) }
    ensures kept { OnErr result (parser.new ≡ parser.old) }
{
    let text = parser.text();
    match fill_document(alloc, text, parser.offset(), false, schema) {
        Ok(value) => {
            parser.skip_one_unchecked();
            Ok(value)
        }
        Err(fault) => Err(fault.error(text)),
    }
}

// Fills a schema from the value after a place of a text and white space. The text is UTF-8 where this
// says so.
fn fill_document(
    alloc: Global,
    text: &[u8],
    place: usize,
    utf8: bool,
    schema: Value,
) -> std::result::Result<Value, Fault>
    requires utf8 { IsTrue utf8 → IsUtf8 text.now }
    requires inside { place ≤ length text.now }
    ensures ok { IfOk result (λ made.
        IsFilledAt text.now (tree schema) (tree made) (after_space text.now place)) }
    ensures err { IfErr result (IsStopFor (IsUnfilled text.now true (tree schema)
        (after_space text.now place))) }
    ensures within { IfErr result (IsStopFor (λ s. s.place ≤ length text.now)) }
{
    if !schema.is_object() {
        let code = ErrorCode::Message(Note::SchemaNotObject);
        return Err(Fault::At(Stop { place: 0, code }));
    }
    if utf8 {
        return fill_text(alloc, text, place, schema);
    }
    match simdutf8::basic::from_utf8(text) {
        Ok(_) => fill_text(alloc, text, place, schema),
        Err(_) => fill_broken(alloc, text, place, schema),
    }
}

// The same of an object and a text in UTF-8.
fn fill_text(
    alloc: Global,
    text: &[u8],
    place: usize,
    schema: Value,
) -> std::result::Result<Value, Fault>
    requires utf8 { IsUtf8 text.now }
    requires inside { place ≤ length text.now }
    requires object { IsObject (tree schema) }
    ensures ok { IfOk result (λ made.
        IsFilledAt text.now (tree schema) (tree made) (after_space text.now place)) }
    ensures err { IfErr result (IsStopFor (IsUnfilled text.now true (tree schema)
        (after_space text.now place))) }
    ensures within { IfErr result (IsStopFor (λ s. s.place ≤ length text.now)) }
{
    let mut reader = Reader::at(alloc, text, place, true);
    reader.skip_space();
    fill_value(&mut reader, schema, MAX_DEPTH)
}

// The same of an object and bytes that aren't UTF-8.
//
// Keys that aren't text count too, so the bytes are read with all strings spelled out first, up to the
// value's end. Where they are UTF-8 up to there, the value alone is read again, as it is.
fn fill_broken(
    alloc: Global,
    text: &[u8],
    place: usize,
    schema: Value,
) -> std::result::Result<Value, Fault>
    requires inside { place ≤ length text.now }
    requires object { IsObject (tree schema) }
    ensures ok { IfOk result (λ made.
        IsFilledAt text.now (tree schema) (tree made) (after_space text.now place)) }
    ensures err { IfErr result (IsStopFor (IsUnfilled text.now true (tree schema)
        (after_space text.now place))) }
    ensures within { IfErr result (IsStopFor (λ s. s.place ≤ length text.now)) }
{
    let mut reader = Reader::at(alloc, text, place, false);
    reader.skip_space();
    let start = reader.place();
    let spelled = copy(&schema, false, alloc)?;
    fill_value(&mut reader, spelled, MAX_DEPTH)?;
    let end = reader.place();
    match simdutf8::compat::from_utf8(&text[..end]) {
        // The value is no deeper than it is long.
        Ok(_) => fill_value(
            &mut Reader::at(alloc, &text[start..end], 0, true),
            schema,
            end,
        ),
        Err(error) => {
            let place = error.valid_up_to();
            let code = ErrorCode::InvalidUTF8;
            Err(Fault::At(Stop { place, code }))
        }
    }
}
