// The text of a schema that is filled from a document.
ghost use Rattle.std.specs.Prelude.{◌≡◌, string_bytes, IfOk, IfErr, OnOk};
ghost use Rattle.sonic_value.specs.Views.{tree};
ghost use Rattle.sonic_c.specs.Fills.{IsFillCall, IsFilledText, IsNoSchema, IsNotFilled, IsSchema};
ghost use Rattle.sonic_c.specs.Internal.Texts.{OrOutOfMemory};

use crate::fault::{Fault, tell, tell_as};
use crate::room::write_text;
use crate::status::{BAD_SCHEMA, NO_MEMORY};
use sonic_lazy::JsonValueTrait;
use sonic_value::{Value, get_by_schema};
use std::alloc::Global;

/// The text of a schema that is filled from the value that begins a text after white space: writes as
/// much of it as the room takes to the start of the room, and tells the length of the whole, in bytes.
///
/// The schema is a JSON text, an object. Each member of it gets the value that the text's object has for
/// its key, and keeps its own where that has none; what the schema lacks is left out. An object with
/// members is filled in the same way, and any other value is replaced. The text has no white space. What
/// is no schema is `BAD_SCHEMA`, whatever the text is; a text that is broken before its value ends is
/// `DOCUMENT_ERROR`. Of `{"b":2,"c":3}` and the schema `{"a":1,"b":0}` it is `{"a":1,"b":2}`.
#[unsafe(no_mangle)]
pub extern "C" fn jihluka_fill(
    alloc: Global,
    json: &[u8],
    schema: &[u8],
    room: &mut [u8],
    wanted: &mut usize,
    error: &mut Fault,
) -> u32
    ensures { IsFillCall json.now schema.now
        (record { room = room.old; wanted = wanted.old; error = error.old })
        (record { room = room.new; wanted = wanted.new; error = error.new }) result }
{
    match filled(alloc, json, schema, error) {
        Ok(text) => write_text(text.as_str(), room, wanted),
        Err(status) => status,
    }
}

// The text of a schema that is filled, or the status, with what is told.
fn filled(alloc: Global, json: &[u8], schema: &[u8], error: &mut Fault) -> Result<String, u32>
    ensures made { IfOk result (λ text. IsFilledText json.now schema.now (string_bytes text)) }
    ensures kept { OnOk result (error.new ≡ error.old) }
    ensures refused { IfErr result (OrOutOfMemory (IsNotFilled json.now schema.now) error.old error.new) }
{
    let schema = match schema_of(alloc, schema, error) {
        Ok(schema) => schema,
        Err(status) => return Err(status),
    };
    let value = match get_by_schema(alloc, json, schema) {
        Ok(value) => value,
        Err(reason) => return Err(tell(error, &reason)),
    };
    match value.to_string(alloc) {
        Ok(text) => Ok(text),
        Err(_) => Err(NO_MEMORY),
    }
}

// The schema that bytes are, or the status, with what is told.
fn schema_of(alloc: Global, bytes: &[u8], error: &mut Fault) -> Result<Value, u32>
    ensures read { IfOk result (λ schema. IsSchema bytes.now (tree schema)) }
    ensures kept { OnOk result (error.new ≡ error.old) }
    ensures refused { IfErr result (OrOutOfMemory (IsNoSchema bytes.now) error.old error.new) }
{
    let schema = match Value::from_slice(alloc, bytes) {
        Ok(schema) => schema,
        Err(reason) => return Err(tell_as(error, &reason, BAD_SCHEMA)),
    };
    if !schema.is_object() {
        *error = Fault::at_line(0);
        return Err(BAD_SCHEMA);
    }
    Ok(schema)
}
